// The rules of electra/helpers.rs without the switch to compounding: churn limits, the epoch assignment, exits, and two
// walks that look a validator or its waiting withdrawals up.

#![tactic(auto)]

pub mod assignment; // the epoch assignment
pub mod churn; // total active balance and churn limits
pub mod exits; // the churn accounts, and the exit of a validator
pub mod lookups; // a validator by its key, and what its partial withdrawals owe it

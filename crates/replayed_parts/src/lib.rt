// Parts of a recorded case that are compared apart. All of it promises safety alone.

#![tactic(auto)]

pub mod assignments; // bare assignments
pub mod expected; // the list of withdrawals
pub mod unchanged; // books that every call refuses

// The public calls, one to a file. Each tests what it was handed and answers a Result; a refusal changes nothing that
// was lent.

#![tactic(auto)]

pub mod reward; // reward
pub mod penalty; // penalty
pub mod deposits; // process_pending_balance_deposits
pub mod consolidations; // process_pending_consolidations
pub mod effective_balances; // process_effective_balance_updates
pub mod turns; // turn
pub mod total; // balances plus waiting deposits

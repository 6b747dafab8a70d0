// Rewards and penalties on books that the tests accepted.

#![tactic(auto)]

pub mod penalty; // penalty_accepted
pub mod reward; // reward_accepted

// The functions of the static library, one to a file. Settings, scalars and tables are lent as plain slices; each
// function answers a number, and a refusal changes nothing that was lent.

#![tactic(auto)]

pub mod reward; // solarbasil_reward
pub mod penalty; // solarbasil_penalty
pub mod deposits; // solarbasil_process_pending_balance_deposits
pub mod consolidation_step; // solarbasil_process_pending_consolidations
pub mod effective_balances; // solarbasil_process_effective_balance_updates
pub mod turns; // solarbasil_turn
pub mod deposit_receipts; // solarbasil_process_deposit_receipt
pub mod voluntary_exits; // solarbasil_process_voluntary_exit
pub mod requests; // solarbasil_process_execution_layer_withdrawal_request
pub mod consolidations; // solarbasil_process_consolidation
pub mod payments; // solarbasil_process_withdrawals
pub mod expected; // solarbasil_get_expected_withdrawals
pub mod total; // solarbasil_total
pub mod assignment; // solarbasil_epoch_assignment
pub mod reader; // solarbasil_read_books
pub mod writer; // solarbasil_write_books
pub mod runner; // solarbasil_carry_out

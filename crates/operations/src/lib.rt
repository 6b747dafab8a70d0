// The public calls that a block's operations are, one to a file. Each tests what it was handed and answers a Result; a
// refusal changes nothing that was lent.

#![tactic(auto)]

pub mod voluntary_exits; // process_voluntary_exit
pub mod withdrawal_requests; // process_execution_layer_withdrawal_request
pub mod deposit_receipts; // process_deposit_receipt
pub mod consolidations; // process_consolidation
pub mod payments; // process_withdrawals
pub mod expected; // get_expected_withdrawals

// The bare epoch assignment, for other languages.
ghost use Rattle.std.specs.Prelude.{◌≡◌};
ghost use Rattle.rules.specs.Helpers.{assign_epoch};
ghost use Rattle.rules.specs.Calls.{assignment_answer};
ghost use Rattle.slices.specs.Exported.{given};

use primitives::{Epoch, Gwei, answers};

// The epoch that an amount gets, and what is left of that epoch's churn; a refusal leaves both as they were.
#[unsafe(no_mangle)]
pub extern "C" fn solarbasil_epoch_assignment(
    left: u64,
    earliest: u64,
    activation_exit: u64,
    churn: u64,
    amount: u64,
    left_after: &mut u64,
    epoch: &mut u64,
) -> u8
    ensures answer { result ≡ assignment_answer left earliest activation_exit churn amount }
    ensures left_given { left_after.new
        ≡ given result (assign_epoch left earliest activation_exit churn amount).left left_after.old }
    ensures epoch_given { epoch.new
        ≡ given result (assign_epoch left earliest activation_exit churn amount).epoch epoch.old }
{
    let answer = helpers::assignment::epoch_assignment(
        Gwei(left),
        Epoch(earliest),
        Epoch(activation_exit),
        Gwei(churn),
        Gwei(amount),
    );
    match answer {
        Ok(assigned) => {
            *left_after = assigned.left.0;
            *epoch = assigned.epoch.0;
            answers::DONE
        }
        Err(refusal) => refusal.number(),
    }
}

// The bare epoch assignment: the epoch that an amount gets, and what is left of that epoch's churn, for any numbers.
ghost use Rattle.std.specs.Prelude.{◌≡◌};
ghost use Rattle.rules.specs.Calls.{assignment_answer};
ghost use Rattle.primitives.specs.Answers.{answer_number};
ghost use Rattle.churn_account.specs.Account.{plain_account};
ghost use Rattle.helpers.specs.Assigned.{plain_assignment, assignment_result, answer_assignment};

use churn_account::ChurnAccount;
use primitives::answers::Refusal;
use primitives::{BOUND, Epoch, Gwei};

// What is left of the churn of the epoch assigned, and that epoch.
#[derive(Clone, Copy)]
pub struct Assignment {
    pub left: Gwei,
    pub epoch: Epoch,
}

impl From<ChurnAccount> for Assignment {
    ghost from_gives = { λ a r. plain_assignment r ≡ plain_account a };

    fn from(account: ChurnAccount) -> Assignment {
        Assignment {
            left: account.balance_to_consume,
            epoch: account.earliest_epoch,
        }
    }
}

// The bare assignment, for any five numbers.
pub fn epoch_assignment(
    left: Gwei,
    earliest: Epoch,
    activation_exit: Epoch,
    churn: Gwei,
    amount: Gwei,
) -> Result<Assignment, Refusal>
    ensures answer { answer_number result ≡ assignment_answer left.0 earliest.0 activation_exit.0 churn.0 amount.0 }
    ensures assignment { answer_assignment result
        ≡ assignment_result left.0 earliest.0 activation_exit.0 churn.0 amount.0 }
{
    if churn.0 == 0 {
        return Err(Refusal::ChurnZero);
    }
    let account = ChurnAccount {
        balance_to_consume: left,
        earliest_epoch: earliest,
    };
    let p = account.assignment_parts(activation_exit, churn, amount);
    if BOUND < p.start.0 {
        return Err(Refusal::ResultEpochOverBound);
    }
    if BOUND - p.start.0 < p.additional {
        return Err(Refusal::ResultEpochOverBound);
    }
    Ok(Assignment {
        left: p.left,
        epoch: Epoch(p.start.0 + p.additional),
    })
}

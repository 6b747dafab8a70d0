// A churn account, and the epoch assignment that alters it. Exits keep one account, consolidations another. The
// assignment gives an amount its epoch, and what is left of that epoch's churn; all of it stays within 64 bits for any
// numbers. The account is lent and altered in `compute_epoch_and_update_churn`; `account_after` lends it, and whoever
// calls that holds accounts by value.

#![tactic(auto)]

ghost use Rattle.std.specs.Prelude.{◌≡◌, ◌+◌, ◌-◌, ◌*◌, ◌<◌, ◌^◌};
ghost use Rattle.churn_account.specs.Account.{plain_account, assigned_to};
ghost use Rattle.churn_account.specs.Parts.{start_account, additional_epochs};

use primitives::{Epoch, Gwei};

// What is left of the churn of the earliest epoch, and that epoch.
#[derive(Clone, Copy)]
pub struct ChurnAccount {
    pub balance_to_consume: Gwei,
    pub earliest_epoch: Epoch,
}

// Whole epochs, and what is left of the churn of the last.
#[derive(Clone, Copy)]
pub struct Additional {
    pub epochs: u64,
    pub left: Gwei,
}

// An assignment whose epoch, the sum of the start and the additional epochs, need not fit 64 bits.
#[derive(Clone, Copy)]
pub struct AssignmentParts {
    pub left: Gwei,
    pub start: Epoch,
    pub additional: u64,
}

// The epochs whose churns pay for what the amount is above `available`. What is left is computed by a remainder, since
// the churns' product may not fit.
#[tactic(auto, using(crate::specs::Parts::additional_some, crate::specs::Parts::additional_none))]
fn additional_epochs(available: Gwei, churn: Gwei, amount: Gwei) -> Additional
    requires { 0 < churn.0 }
    ensures epochs_value { result.epochs ≡ additional_epochs available.0 churn.0 amount.0 }
    ensures left_value { result.left.0 ≡ available.0 + result.epochs * churn.0 - amount.0 }
{
    if available.0 < amount.0 {
        let over = amount.0 - available.0 - 1;
        return Additional {
            epochs: over / churn.0 + 1,
            left: Gwei(churn.0 - 1 - over % churn.0),
        };
    }
    Additional {
        epochs: 0,
        left: Gwei(available.0 - amount.0),
    }
}

impl ChurnAccount {
    // The account where the assignment starts: it starts anew, with a whole churn, where it is behind.
    #[tactic(auto, using(crate::specs::Parts::start_behind, crate::specs::Parts::start_kept))]
    fn start_account(self, activation_exit: Epoch, churn: Gwei) -> ChurnAccount
        ensures { plain_account result
            ≡ start_account self.balance_to_consume.0 self.earliest_epoch.0 activation_exit.0 churn.0 }
    {
        if self.earliest_epoch.0 < activation_exit.0 {
            return ChurnAccount {
                balance_to_consume: churn,
                earliest_epoch: activation_exit,
            };
        }
        self
    }

    // The assignment without the last sum, so that each caller can judge whether it fits.
    pub fn assignment_parts(
        self,
        activation_exit: Epoch,
        churn: Gwei,
        amount: Gwei,
    ) -> AssignmentParts
        requires { 0 < churn.0 }
        ensures { record { left = result.left.0; epoch = result.start.0 + result.additional }
            ≡ assigned_to self activation_exit.0 churn.0 amount.0 }
    {
        let start = self.start_account(activation_exit, churn);
        let additional = additional_epochs(start.balance_to_consume, churn, amount);
        AssignmentParts {
            left: additional.left,
            start: start.earliest_epoch,
            additional: additional.epochs,
        }
    }

    // The account after an assignment.
    pub fn assign_epoch(self, activation_exit: Epoch, churn: Gwei, amount: Gwei) -> ChurnAccount
        requires { (0 < churn.0)
            × ((assigned_to self activation_exit.0 churn.0 amount.0).epoch < 2 ^ 64) }
        ensures { plain_account result ≡ assigned_to self activation_exit.0 churn.0 amount.0 }
    {
        let p = self.assignment_parts(activation_exit, churn, amount);
        ChurnAccount {
            balance_to_consume: p.left,
            earliest_epoch: Epoch(p.start.0 + p.additional),
        }
    }

    // What compute_exit_epoch_and_update_churn and compute_consolidation_epoch_and_update_churn share: both numbers of
    // the assignment are stored in the lent account, and the epoch assigned is returned.
    pub fn compute_epoch_and_update_churn(
        &mut self,
        activation_exit: Epoch,
        churn: Gwei,
        amount: Gwei,
    ) -> Epoch
        requires { (0 < churn.0)
            × ((assigned_to self.old activation_exit.0 churn.0 amount.0).epoch < 2 ^ 64) }
        ensures { (result.0 ≡ (assigned_to self.old activation_exit.0 churn.0 amount.0).epoch)
            × (plain_account self.new
            ≡ assigned_to self.old activation_exit.0 churn.0 amount.0) }
    {
        *self = self.assign_epoch(activation_exit, churn, amount);
        self.earliest_epoch
    }

    // The account after an assignment: it is lent, and handed back.
    pub fn account_after(
        mut self,
        activation_exit: Epoch,
        churn: Gwei,
        amount: Gwei,
    ) -> ChurnAccount
        requires { (0 < churn.0)
            × ((assigned_to self activation_exit.0 churn.0 amount.0).epoch < 2 ^ 64) }
        ensures { plain_account result ≡ assigned_to self activation_exit.0 churn.0 amount.0 }
    {
        self.compute_epoch_and_update_churn(activation_exit, churn, amount);
        self
    }
}

// The tests of one record, each without a branch.
ghost use Rattle.std.specs.Prelude.{◌≡◌, ℕ, ◌<◌, ◌&&◌, List};
ghost use Rattle.rules.specs.Acceptance.{epoch_within, consolidation_in};
ghost use Rattle.records.specs.Layout.{validator_at, validators_fit};
ghost use Rattle.records.specs.Plain.{plain_partial, plain_consolidation};
ghost use Rattle.acceptance.specs.Tests.{validator_within, partial_within};

use primitives::{BOUND, Epoch, FAR_FUTURE_EPOCH, Gwei, ValidatorIndex};
use records::queues::{PendingConsolidation, PendingPartialWithdrawal};
use records::registry;

pub fn epoch_within(epoch: Epoch) -> bool
    ensures { result ≡ epoch_within epoch.0 }
{
    (epoch.0 <= BOUND) | (epoch.0 == FAR_FUTURE_EPOCH)
}

pub fn epochs_within(
    eligibility: Epoch,
    activation: Epoch,
    exit: Epoch,
    withdrawable: Epoch,
) -> bool
    ensures { result
        ≡ (epoch_within eligibility.0
        && epoch_within activation.0
        && epoch_within exit.0
        && epoch_within withdrawable.0) }
{
    epoch_within(eligibility)
        & epoch_within(activation)
        & epoch_within(exit)
        & epoch_within(withdrawable)
}

// Effective balance at most `most`, flag and epochs of validator i.
// The bound on i stays a clause: it is the one that indexing a slice asks for.
pub fn validator_within(most: Gwei, validators: &[u64], i: ValidatorIndex) -> bool
    requires { i.0 < validators_fit validators.now }
    ensures { (ids : List ℕ) → result ≡ validator_within most.0 (validator_at ids validators.now i.0) }
{
    let effective_balance = registry::effective_balance_at(validators, i);
    let slashed = registry::slashed_at(validators, i);
    let epochs = epochs_within(
        registry::activation_eligibility_epoch_at(validators, i),
        registry::activation_epoch_at(validators, i),
        registry::exit_epoch_at(validators, i),
        registry::withdrawable_epoch_at(validators, i),
    );
    (effective_balance.0 <= most.0) & (slashed <= 1) & epochs
}

pub fn partial_within(partial: PendingPartialWithdrawal, n: usize) -> bool
    ensures { result ≡ partial_within n (plain_partial partial) }
{
    (partial.index.0 < n) & epoch_within(partial.withdrawable_epoch)
}

pub fn consolidation_in(consolidation: PendingConsolidation, n: usize) -> bool
    ensures { result ≡ consolidation_in n (plain_consolidation consolidation) }
{
    (consolidation.source_index.0 < n) & (consolidation.target_index.0 < n)
}

// The tests of what is handed in: settings, lent buffers and books; and the sum that accepted books hold.

#![tactic(auto)]

pub mod amounts; // the sum of amounts that are tested
pub mod passes; // one pass over each table
pub mod quick; // one pass over the bits of all validators
pub mod record; // the tests of one record
#[cfg(test)]
mod tests;

ghost use Rattle.std.specs.Prelude.{◌≡◌, ℕ, ◌+◌, ◌≤◌, true, List, nat_le};
ghost use Rattle.rules.specs.Types as rule;
ghost use Rattle.rules.specs.Acceptance.{sound_settings, held};
ghost use Rattle.rules.specs.Calls.{enough_room, handed_refusal};
ghost use Rattle.primitives.specs.Answers.{answer_number, sum_of};
ghost use Rattle.primitives.specs.Settings.{settings_of};
ghost use Rattle.records.specs.Books.{tables, books_of};
ghost use Rattle.records.specs.Lent.{plain_books, lent_room};
ghost use Rattle.acceptance.specs.Tests.{scalars_within};
ghost use Rattle.acceptance.specs.Held.{held_if_sound, HeldReady};
ghost use Rattle.acceptance.specs.Total.{total_given};

use crate::amounts::{Deposits, Partials};
use primitives::answers::Refusal;
use primitives::{BOUND, Gwei, Scalars, Settings};
use records::books::Books;
use records::queues::{
    self, PendingBalanceDeposit, PendingConsolidation, PendingPartialWithdrawal,
};
use records::registry;

// The most that the first five settings may be: 2^44.
const MOST_GWEI: u64 = 0x1000_0000_0000;

// The most that the other settings may be, and the limits: 2^16.
const MOST: u64 = 0x1_0000;

const MOST_RECORDS: usize = 0x1_0000;

pub fn settings_sound(settings: Settings) -> bool
    ensures { result ≡ sound_settings (settings_of settings) }
{
    (settings.min_activation_balance.0 <= MOST_GWEI)
        & (settings.max_effective_balance_electra.0 <= MOST_GWEI)
        & (settings.effective_balance_increment.0 <= MOST_GWEI)
        & (settings.min_per_epoch_churn_limit_electra.0 <= MOST_GWEI)
        & (settings.max_per_epoch_activation_exit_churn_limit.0 <= MOST_GWEI)
        & (settings.churn_limit_quotient <= MOST)
        & (settings.shard_committee_period <= MOST)
        & (settings.min_validator_withdrawability_delay <= MOST)
        & (settings.max_seed_lookahead <= MOST)
        & (settings.hysteresis_quotient <= MOST)
        & (settings.hysteresis_downward_multiplier <= MOST)
        & (settings.hysteresis_upward_multiplier <= MOST)
        & (settings.max_pending_partials_per_withdrawals_sweep <= MOST_RECORDS)
        & (settings.max_withdrawals_per_payload <= MOST_RECORDS)
        & (settings.max_validators_per_withdrawals_sweep <= MOST_RECORDS)
        & (0 < settings.effective_balance_increment.0)
        & (0 < settings.min_per_epoch_churn_limit_electra.0)
        & (0 < settings.max_per_epoch_activation_exit_churn_limit.0)
        & (0 < settings.churn_limit_quotient)
        & (0 < settings.hysteresis_quotient)
        & (0 < settings.max_withdrawals_per_payload)
        & (0 < settings.max_validators_per_withdrawals_sweep)
        & (settings.effective_balance_increment.0 <= settings.min_per_epoch_churn_limit_electra.0)
        & (settings.min_activation_balance.0 <= settings.max_effective_balance_electra.0)
        & (settings.max_pending_partials_per_withdrawals_sweep
            < settings.max_withdrawals_per_payload)
        & (settings.max_withdrawals_per_payload <= 16)
        & ((1 <= settings.validator_registry_limit)
            & (settings.validator_registry_limit <= MOST_RECORDS))
        & ((1 <= settings.pending_balance_deposits_limit)
            & (settings.pending_balance_deposits_limit <= MOST_RECORDS))
        & ((1 <= settings.pending_partial_withdrawals_limit)
            & (settings.pending_partial_withdrawals_limit <= MOST_RECORDS))
        & ((1 <= settings.pending_consolidations_limit)
            & (settings.pending_consolidations_limit <= MOST_RECORDS))
}

// No buffer is shorter than its limit.
pub fn enough_room(settings: Settings, books: &Books<'_>) -> bool
    ensures { result ≡ enough_room (settings_of settings) (lent_room books.now) }
{
    let deposits = queues::entries_fit::<PendingBalanceDeposit>(books.deposits);
    let partials = queues::entries_fit::<PendingPartialWithdrawal>(books.partials);
    let consolidations = queues::entries_fit::<PendingConsolidation>(books.consolidations);
    (settings.validator_registry_limit <= registry::identities_fit(books.identities))
        & (settings.validator_registry_limit <= registry::validators_fit(books.validators))
        & (settings.pending_balance_deposits_limit <= deposits)
        & (settings.pending_partial_withdrawals_limit <= partials)
        & (settings.pending_consolidations_limit <= consolidations)
}

// What is tested of the scalars and the counts alone.
pub fn scalars_within(settings: Settings, scalars: Scalars) -> bool
    ensures { result ≡ scalars_within (settings_of settings) scalars }
{
    (0 < scalars.validators)
        & (scalars.validators <= settings.validator_registry_limit)
        & (scalars.deposits <= settings.pending_balance_deposits_limit)
        & (scalars.partials <= settings.pending_partial_withdrawals_limit)
        & (scalars.consolidations <= settings.pending_consolidations_limit)
        & (scalars.next_withdrawal_validator_index.0 < scalars.validators)
        & (scalars.epoch.0 <= BOUND)
        & (scalars.next_withdrawal_index.0 <= BOUND)
        & (scalars.deposit_balance_to_consume.0 <= BOUND)
        & (scalars.exit_balance_to_consume.0 <= BOUND)
        & (scalars.earliest_exit_epoch.0 <= BOUND)
        & (scalars.consolidation_balance_to_consume.0 <= BOUND)
        & (scalars.earliest_consolidation_epoch.0 <= BOUND)
}

// What sound books hold; None where the books are unsound. The scalars first: they say how many records each pass may
// read.
pub fn books_held(settings: Settings, books: &Books<'_>) -> Option<Gwei>
    requires { enough_room (settings_of settings) (lent_room books.now) ≡ true }
    ensures { result ≡ held_if_sound (settings_of settings) (plain_books books.now) }
{
    let scalars = books.scalars;
    if !scalars_within(settings, scalars) {
        return None;
    }
    let n = scalars.validators;
    let most = settings.max_effective_balance_electra;
    let balances = passes::validators_sum(most, books.validators, n)?;
    let held = amounts::tested_sum(
        Deposits { validators: n },
        balances,
        books.deposits,
        scalars.deposits,
    )?;
    amounts::tested_sum(
        Partials { validators: n },
        Gwei(0),
        books.partials,
        scalars.partials,
    )?;
    if !passes::consolidations_in(books.consolidations, scalars.consolidations, n) {
        return None;
    }
    Some(held)
}

// The sum that the books hold, where what is handed in is accepted; else it is refused with 1, 3, 2, in this order.
pub fn accept(settings: Settings, books: &Books<'_>) -> Result<Gwei, Refusal>
    ensures number_value { answer_number result
        ≡ handed_refusal (settings_of settings) (plain_books books.now) (lent_room books.now) }
    ensures held_value { sum_of result
        ≡ total_given (settings_of settings) (plain_books books.now) (lent_room books.now) }
{
    if !settings_sound(settings) {
        return Err(Refusal::UnsoundSettings);
    }
    if !enough_room(settings, books) {
        return Err(Refusal::ShortBuffer);
    }
    books_held(settings, books).ok_or(Refusal::UnsoundBooks)
}

// Balances plus waiting deposits.
pub fn held(scalars: Scalars, validators: &[u64], deposits: &[u64]) -> Gwei
    requires { HeldReady scalars validators.now deposits.now }
    ensures { (ids ps cs : List ℕ)
        → result.0
        ≡ held (books_of scalars (tables ids validators.now deposits.now ps cs)) }
{
    let balances = passes::balances(validators, scalars.validators);
    let amounts = passes::deposit_amounts(deposits, scalars.deposits);
    let held = balances.0 + amounts.0;
    Gwei(held)
}

// Whether the sum stays within BOUND with `amount` more.
pub fn sum_within(held: Gwei, amount: Gwei) -> bool
    requires { held.0 ≤ rule.BOUND }
    ensures { result ≡ nat_le (held.0 + amount.0) rule.BOUND }
{
    amount.0 <= BOUND - held.0
}

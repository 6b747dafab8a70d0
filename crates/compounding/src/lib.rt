// A validator's switch to compounding credentials (electra/helpers.rs).

#![tactic(auto)]

ghost use Rattle.std.specs.Prelude.{◌≡◌, List, ℕ, ◌+◌, ◌<◌, ◌≤◌, length};
ghost use Rattle.rules.specs.Helpers.{queue_excess_active_balance, switch_to_compounding_validator};
ghost use Rattle.rules.specs.Counting.{excess_entry};
ghost use Rattle.primitives.specs.Settings.{settings_of};
ghost use Rattle.primitives.specs.Scalars.{with_deposits};
ghost use Rattle.records.specs.Layout.{balance_at, identities_fit, validators_fit, deposits_fit};
ghost use Rattle.records.specs.Books.{Stepped, books_of, tables};
ghost use Rattle.compounding.specs.Laws.{excess_entry_count};

use primitives::{Gwei, Scalars, Settings, ValidatorIndex};
use records::queues::PendingBalanceDeposit;

// A switch queues an entry where the balance is above the minimum.
#[tactic(auto, using(crate::specs::Laws::entries_low, crate::specs::Laws::entries_high))]
pub fn excess_entry_count(minimum: Gwei, balance: u64) -> usize
    ensures { result ≡ excess_entry_count minimum.0 balance }
{
    usize::from(minimum.0 < balance)
}

// The balance above the minimum goes behind the waiting deposits.
fn queue_excess_active_balance(
    settings: Settings,
    scalars: Scalars,
    validators: &mut [u64],
    deposits: &mut [u64],
    i: ValidatorIndex,
) -> Scalars
    requires i_lt_validators { (i.0 < scalars.validators) × (scalars.validators ≤ validators_fit validators.old) }
    requires i_bound { scalars.deposits
        + excess_entry_count settings.min_activation_balance.0 (balance_at validators.old i.0)
        ≤ deposits_fit deposits.old }
    ensures by_index { (ids ps cs : List ℕ)
        → Stepped (queue_excess_active_balance (settings_of settings) i.0) scalars
        (tables ids validators.old deposits.old ps cs)
        (tables ids validators.new deposits.new ps cs) result }
    ensures value { result ≡ with_deposits scalars
        (scalars.deposits
        + excess_entry_count settings.min_activation_balance.0
        (balance_at validators.old i.0)) }
{
    let n = scalars.deposits;
    let least = settings.min_activation_balance;
    let balance = records::registry::balance_at(validators, i);
    if balance.0 <= least.0 {
        return scalars;
    }
    let excess_balance = Gwei(balance.0 - least.0);
    records::registry::set_balance(validators, i, least);
    records::queues::push(
        deposits,
        n,
        PendingBalanceDeposit {
            index: i,
            amount: excess_balance,
        },
    );
    Scalars {
        deposits: n + 1,
        ..scalars
    }
}

// Byte 0 of the credentials goes from 01 to 02, and the excess is queued.
// The tables stay apart, as C lends them: the call writes all three.
pub fn switch_to_compounding_validator(
    settings: Settings,
    scalars: Scalars,
    identities: &mut [u8],
    validators: &mut [u64],
    deposits: &mut [u64],
    i: ValidatorIndex,
) -> Scalars
    requires i_lt_validators { (i.0 < scalars.validators)
        × (scalars.validators ≤ identities_fit identities.old)
        × (scalars.validators ≤ validators_fit validators.old) }
    requires by_index { (ps cs : List ℕ)
        → scalars.deposits
        + length (excess_entry (settings_of settings) i.0
        (books_of scalars (tables identities.old validators.old deposits.old ps cs)))
        ≤ deposits_fit deposits.old }
    ensures by_index_2 { (ps cs : List ℕ)
        → Stepped (switch_to_compounding_validator (settings_of settings) i.0) scalars
        (tables identities.old validators.old deposits.old ps cs)
        (tables identities.new validators.new deposits.new ps cs) result }
    ensures by_index_3 { (ps cs : List ℕ)
        → result ≡ with_deposits scalars
        (scalars.deposits
        + length (excess_entry (settings_of settings) i.0
        (books_of scalars
        (tables identities.old validators.old deposits.old ps cs)))) }
{
    if records::registry::prefix_at(identities, i) != 1 {
        return scalars;
    }
    records::registry::set_compounding_prefix(identities, i);
    queue_excess_active_balance(settings, scalars, validators, deposits, i)
}

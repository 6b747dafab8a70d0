// The deposit step: waiting deposits are credited in order, up to the first that is too large.

#![tactic(auto)]

ghost use Rattle.std.specs.Prelude.{◌≡◌, true, List, ℕ, ◌+◌, ◌≤◌};
ghost use Rattle.lists.specs.Base.{every};
ghost use Rattle.tables.specs.Rows.{rows};
ghost use Rattle.rules.specs.Types.{BOUND};
ghost use Rattle.rules.specs.Helpers.{get_activation_exit_churn_limit};
ghost use Rattle.rules.specs.EpochProcessing as rule;
ghost use Rattle.rules.specs.Acceptance.{deposit_amounts, deposit_in, sound_books};
ghost use Rattle.rules.specs.Calls.{enough_room};
ghost use Rattle.primitives.specs.Settings.{settings_of};
ghost use Rattle.records.specs.Layout.{validator_at, deposit_at, validators_fit, deposits_fit};
ghost use Rattle.records.specs.Books.{Stepped, books_of, room_of, tables};
ghost use Rattle.pending_deposits.specs.Deposits.{validator_balances, Credited, Processed};

use primitives::sound::SoundSettings;
use primitives::{Gwei, Scalars};
use records::queues::PendingBalanceDeposit;

// What the deposit loop has processed: the amount, and the position of the first deposit not reached.
#[derive(Clone, Copy)]
pub struct ProcessedDeposits {
    pub amount: Gwei,
    pub next: usize,
}

// Credits the first `count` deposits to the first n validators.
fn credit_deposits(validators: &mut [u64], deposits: &[u64], n: usize, count: usize)
    requires held { (n ≤ validators_fit validators.old) × (count ≤ deposits_fit deposits.now) }
    requires known { every (deposit_in n) (rows count (deposit_at deposits.now)) ≡ true }
    requires sums { (ids : List ℕ)
        → validator_balances (rows n (validator_at ids validators.old))
        + deposit_amounts (rows count (deposit_at deposits.now))
        ≤ BOUND }
    ensures { Credited n count deposits.now validators.old validators.new }
{
    for i in 0..count {
        let deposit: PendingBalanceDeposit = records::queues::entry_at(deposits, i);
        records::registry::increase_balance(validators, deposit.index, deposit.amount);
    }
}

// The deposit loop, over the first n validators and the first m deposits: which deposits are credited is asked of
// `waiting_deposits`, before the first store.
fn process_deposits(
    validators: &mut [u64],
    deposits: &[u64],
    n: usize,
    m: usize,
    available: Gwei,
) -> ProcessedDeposits
    requires held { (n ≤ validators_fit validators.old) × (m ≤ deposits_fit deposits.now) }
    requires known { every (deposit_in n) (rows m (deposit_at deposits.now)) ≡ true }
    requires sums { (ids : List ℕ)
        → validator_balances (rows n (validator_at ids validators.old))
        + deposit_amounts (rows m (deposit_at deposits.now))
        ≤ BOUND }
    ensures { Processed available.0 n m deposits.now
        validators.old validators.new result.amount.0 result.next }
{
    let affordable = waiting_deposits::affordable_deposits(deposits, m, available);
    let next = affordable.count;
    credit_deposits(validators, deposits, n, next);
    ProcessedDeposits {
        amount: Gwei(available.0 - affordable.left.0),
        next,
    }
}

// The allowance is the activation-exit churn limit at the step's start.
// The tables stay apart: the call writes some and only reads the others, as C lends them.
pub fn process_pending_balance_deposits(
    sound: SoundSettings,
    scalars: Scalars,
    identities: &[u8],
    validators: &mut [u64],
    deposits: &mut [u64],
    partials: &[u64],
    consolidations: &[u64],
    allowance: Gwei,
) -> Scalars
    requires room { enough_room (settings_of sound.settings)
        (room_of (tables identities.now validators.old deposits.old partials.now consolidations.now))
        ≡ true }
    requires books_are_sound { sound_books (settings_of sound.settings)
        (books_of scalars
        (tables identities.now validators.old deposits.old partials.now consolidations.now))
        ≡ true }
    requires allowance_is_limit { allowance.0 ≡ get_activation_exit_churn_limit (settings_of sound.settings)
        (books_of scalars
        (tables identities.now validators.old deposits.old partials.now consolidations.now)) }
    ensures { Stepped (rule.process_pending_balance_deposits (settings_of sound.settings)) scalars
        (tables identities.now validators.old deposits.old
        partials.now consolidations.now)
        (tables identities.now validators.new deposits.new
        partials.now consolidations.now) result }
{
    let n = scalars.validators;
    let m = scalars.deposits;
    let available = scalars.deposit_balance_to_consume.0 + allowance.0;
    let processed = process_deposits(validators, deposits, n, m, Gwei(available));
    let next = processed.next;
    let left = m - next;
    records::queues::drain::<PendingBalanceDeposit>(deposits, next, left);
    let carry = if left == 0 {
        0
    } else {
        available - processed.amount.0
    };
    Scalars {
        deposit_balance_to_consume: Gwei(carry),
        deposits: left,
        ..scalars
    }
}

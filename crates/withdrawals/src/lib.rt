// process_withdrawals of electra/block_processing.rs: a handed list is compared with the expected one, and paid.

#![tactic(auto)]

ghost use Rattle.std.specs.Prelude.{◌≡◌, true, ◌+◌, ◌<◌, ◌≤◌, ◌^◌};
ghost use Rattle.lists.specs.Base.{every};
ghost use Rattle.rules.specs.Types as rule;
ghost use Rattle.rules.specs.BlockProcessing.{same_withdrawals, withdrawals_refusal};
ghost use Rattle.rules.specs.BlockProcessing.{get_expected_withdrawals, next_index, next_validator_index};
ghost use Rattle.rules.specs.BlockProcessing.{process_withdrawals};
ghost use Rattle.rules.specs.Acceptance.{sound_books};
ghost use Rattle.rules.specs.Calls.{enough_room};
ghost use Rattle.rule_laws.specs.Withdrawals.{withdrawal_in};
ghost use Rattle.primitives.specs.Answers.{answer_number};
ghost use Rattle.primitives.specs.Settings.{settings_of};
ghost use Rattle.records.specs.Layout.{validators_fit, partials_fit};
ghost use Rattle.records.specs.Queues.{PartialsDrained};
ghost use Rattle.records.specs.Books.{Tables, tables, books_of, room_of, Stepped};
ghost use Rattle.expected_withdrawals.specs.Expected.{expected_of, handed_list};
ghost use Rattle.withdrawals.specs.Payment.{Paid, index_below};

use expected_withdrawals::{ExpectedWithdrawals, Withdrawal};
use primitives::answers::Refusal;
use primitives::sound::SoundSettings;
use primitives::{Scalars, Settings, ValidatorIndex, WithdrawalIndex};
use records::queues::PendingPartialWithdrawal;

// A handed list stays sixteen records and a count: the exported call hands it so, and the count may be above sixteen.
// The tables stay apart: the rule writes some and only reads the others, as C lends them. `same_withdrawals` stays a
// function: it compares the counts first.

// ---- the comparison

// The first n of a handed list against the expected list. A count above sixteen is never the expected one.
pub fn same_withdrawals(list: [Withdrawal; 16], n: usize, expected: ExpectedWithdrawals) -> bool
    requires { expected.count ≤ 16 }
    ensures { result ≡ same_withdrawals (handed_list list n) (handed_list expected.list expected.count) }
{
    n == expected.count && list[..n] == expected.list[..n]
}

#[tactic(auto, using(crate::specs::Laws::refusal_none, crate::specs::Laws::refusal_some))]
pub fn withdrawals_refusal(
    list: [Withdrawal; 16],
    n: usize,
    expected: ExpectedWithdrawals,
) -> Result<(), Refusal>
    requires { expected.count ≤ 16 }
    ensures { (S : rule.Settings) (b : rule.Books)
        → expected ≡ expected_of S b → answer_number result ≡ withdrawals_refusal S b (handed_list list n) }
{
    if same_withdrawals(list, n, expected) {
        return Ok(());
    }
    Err(Refusal::WithdrawalsNotExpected)
}

// ---- the payment

// Pays the first n withdrawals of a list, in order, to some of `registry` validators.
pub fn pay_withdrawals(validators: &mut [u64], registry: usize, list: [Withdrawal; 16], n: usize)
    requires held { (registry ≤ validators_fit validators.old) × (n ≤ 16) }
    requires known { every (withdrawal_in registry) (handed_list list n) ≡ true }
    ensures { Paid registry (handed_list list n) validators.old validators.new }
{
    for w in &list[..n] {
        records::registry::decrease_balance(validators, w.validator_index, w.amount);
    }
}

// The first `gone` partial withdrawals leave the queue. Where none does, no word is moved.
fn remove_partials(partials: &mut [u64], gone: usize, left: usize)
    requires { gone + left ≤ partials_fit partials.old }
    ensures { PartialsDrained gone left partials.old partials.new }
{
    if gone == 0 {
        return;
    }
    records::queues::drain::<PendingPartialWithdrawal>(partials, gone, left);
}

// next_withdrawal_index
pub fn next_index(scalars: Scalars, list: [Withdrawal; 16], n: usize) -> WithdrawalIndex
    requires n_bound { n ≤ 16 }
    requires n_value { every (index_below (2 ^ 63)) (handed_list list n) ≡ true }
    ensures { (t : Tables) → result.0 ≡ next_index (books_of scalars t) (handed_list list n) }
{
    let Some(w) = list[..n].last() else {
        return scalars.next_withdrawal_index;
    };
    WithdrawalIndex(w.index.0 + 1)
}

// next_withdrawal_validator_index
pub fn next_validator_index(
    settings: Settings,
    scalars: Scalars,
    list: [Withdrawal; 16],
    n: usize,
) -> ValidatorIndex
    requires payload { (n ≤ 16) × (0 < settings.max_withdrawals_per_payload) }
    requires sweep { settings.max_validators_per_withdrawals_sweep ≤ 65536 }
    requires cursor { scalars.next_withdrawal_validator_index.0 < scalars.validators }
    requires registry { scalars.validators ≤ 65536 }
    requires known { every (withdrawal_in scalars.validators) (handed_list list n) ≡ true }
    ensures { (t : Tables)
        → result.0 ≡ next_validator_index (settings_of settings) (books_of scalars t) (handed_list list n) }
{
    let count = scalars.validators;
    let cursor = scalars.next_withdrawal_validator_index;
    if n == settings.max_withdrawals_per_payload {
        let w = list[n - 1];
        let last = w.validator_index.0;
        return ValidatorIndex((last + 1) % count);
    }
    ValidatorIndex((cursor.0 + settings.max_validators_per_withdrawals_sweep) % count)
}

// The rule, on a list that is the expected one.
pub fn process_withdrawals(
    sound: SoundSettings,
    scalars: Scalars,
    identities: &[u8],
    validators: &mut [u64],
    deposits: &[u64],
    partials: &mut [u64],
    consolidations: &[u64],
    list: [Withdrawal; 16],
    n: usize,
    expected: ExpectedWithdrawals,
) -> Scalars
    requires room { enough_room (settings_of sound.settings)
        (room_of (tables identities.now validators.old deposits.now partials.old consolidations.now)) ≡ true }
    requires books_are_sound { sound_books (settings_of sound.settings) (books_of scalars
        (tables identities.now validators.old deposits.now partials.old consolidations.now)) ≡ true }
    requires expected_value { expected ≡ expected_of (settings_of sound.settings) (books_of scalars
        (tables identities.now validators.old deposits.now partials.old consolidations.now)) }
    requires same { same_withdrawals (handed_list list n)
        (get_expected_withdrawals (settings_of sound.settings) (books_of scalars
        (tables identities.now validators.old deposits.now partials.old consolidations.now))) ≡ true }
    ensures { Stepped (process_withdrawals (settings_of sound.settings) (handed_list list n)) scalars
        (tables identities.now validators.old deposits.now
        partials.old consolidations.now)
        (tables identities.now validators.new deposits.now
        partials.new consolidations.now)
        result }
{
    let gone = expected.partials;
    let left = scalars.partials - gone;
    pay_withdrawals(validators, scalars.validators, list, n);
    remove_partials(partials, gone, left);
    let index = next_index(scalars, list, n);
    let cursor = next_validator_index(sound.settings, scalars, list, n);
    Scalars {
        next_withdrawal_index: index,
        next_withdrawal_validator_index: cursor,
        partials: left,
        ..scalars
    }
}

// The amounts that a list of the file holds, each of a record that passes its tests, and their sum in one pass.
ghost use Rattle.std.specs.Prelude.{◌≡◌, true, false, ◌≤◌, ◌<◌, ℕ, Bool, MatchOption};
ghost use Rattle.rules.specs.Types as rule;
ghost use Rattle.rules.specs.Acceptance.{deposit_in};
ghost use Rattle.acceptance.specs.Tests.{validator_within, partial_within, tested_sum, bounded};
ghost use Rattle.file_format.specs.Words.{words};
ghost use Rattle.file_format.specs.Fields.{Format};
ghost use Rattle.file_format.specs.Books.{validator, deposit, partial};
ghost use Rattle.file_records.specs.Lists.{records_from, Readable};

use acceptance::record::{epochs_within, partial_within};
use file_records::numbers_at;
use file_records::record::FileRecord;
use file_words::{behind, flag_at, number_at};
use primitives::{BOUND, Epoch, Gwei};
use records::queues::{PendingBalanceDeposit, PendingPartialWithdrawal};

pub trait Amounts: Copy {
    // the rules' record, and how it stands in the file
    ghost Plain: { Type 0 };

    ghost format: { Format Plain };

    ghost WORDS: { ℕ };

    // what it has to pass, and its amount
    ghost within: { Self → Plain → Bool };

    ghost amount: { Plain → ℕ };

    const WORDS: usize;

    // The amount of the record at the front of what is left of a file; None where it fails its tests.
    fn amount_at(self, rest: &[u8]) -> Option<Gwei>
        requires { format.ok (words rest.now) ≡ true }
        ensures { let x = format.value (words rest.now) in
            MatchOption result (within self x ≡ false)
            (λ a. (within self x ≡ true) × (a.0 ≡ amount x)) };
}

// ---- the three lists

// Balances of validators with an effective balance of at most `most`.
#[derive(Clone, Copy)]
pub struct Balances {
    pub most: Gwei,
}

// Effective balance at most `most`, flag and epochs of the validator.
fn validator_within(most: Gwei, rest: &[u8]) -> bool
    requires { validator.ok (words rest.now) ≡ true }
    ensures { result ≡ validator_within most.0 (validator.value (words rest.now)) }
{
    let slashed = flag_at(behind(rest, 27));
    let [
        effective_balance,
        eligibility,
        activation,
        exit,
        withdrawable,
        _,
    ] = numbers_at::<6>(behind(rest, 28));
    let epochs = epochs_within(
        Epoch(eligibility),
        Epoch(activation),
        Epoch(exit),
        Epoch(withdrawable),
    );
    (effective_balance <= most.0) & (slashed <= 1) & epochs
}

impl Amounts for Balances {
    ghost Plain = { rule.Validator };

    ghost format = { validator };

    ghost WORDS = { 46 };

    ghost within = { λ s. validator_within s.most.0 };

    ghost amount = { λ v. v.balance };

    const WORDS: usize = 46;

    fn amount_at(self, rest: &[u8]) -> Option<Gwei> {
        if !validator_within(self.most, rest) {
            return None;
        }
        Some(Gwei(number_at(behind(rest, 43))))
    }
}

// Amounts of deposits to one of so many validators.
#[derive(Clone, Copy)]
pub struct Deposits {
    pub validators: usize,
}

impl Amounts for Deposits {
    ghost Plain = { rule.PendingBalanceDeposit };

    ghost format = { deposit };

    ghost WORDS = { 6 };

    ghost within = { λ s. deposit_in s.validators };

    ghost amount = { λ d. d.amount };

    const WORDS: usize = 6;

    fn amount_at(self, rest: &[u8]) -> Option<Gwei> {
        let deposit = PendingBalanceDeposit::read(rest);
        if deposit.index.0 >= self.validators {
            return None;
        }
        Some(deposit.amount)
    }
}

// Amounts of partial withdrawals from one of so many validators.
#[derive(Clone, Copy)]
pub struct Partials {
    pub validators: usize,
}

impl Amounts for Partials {
    ghost Plain = { rule.PendingPartialWithdrawal };

    ghost format = { partial };

    ghost WORDS = { 9 };

    ghost within = { λ s. partial_within s.validators };

    ghost amount = { λ p. p.amount };

    const WORDS: usize = 9;

    fn amount_at(self, rest: &[u8]) -> Option<Gwei> {
        let partial = PendingPartialWithdrawal::read(rest);
        if !partial_within(partial, self.validators) {
            return None;
        }
        Some(partial.amount)
    }
}

// ---- a pass over a list

// `start` and the amounts of the first m records; None where one fails its tests, or the sum is over BOUND.
pub fn sum<A: Amounts>(amounts: A, start: Gwei, records: &[u8], m: usize) -> Option<Gwei>
    requires start_le_bound { start.0 ≤ rule.BOUND }
    requires readable { Readable A.format A.WORDS m (words records.now) }
    ensures { result
        ≡ bounded (tested_sum (A.within amounts) A.amount start.0
        (records_from A.format A.WORDS m (words records.now))) }
{
    let mut sum = start.0;
    for i in 0..m {
        let amount = amounts.amount_at(behind(records, i * A::WORDS))?;
        if amount.0 > BOUND - sum {
            return None;
        }
        sum += amount.0;
    }
    Some(Gwei(sum))
}

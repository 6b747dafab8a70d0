// The amounts that a table holds, each of a record that passes its tests, and their sum in one pass.
ghost use Rattle.std.specs.Prelude.{◌≡◌, true, false, ◌<◌, ◌≤◌, ℕ, List, [], Bool, MatchOption};
ghost use Rattle.tables.specs.Rows.{rows};
ghost use Rattle.rules.specs.Types as rule;
ghost use Rattle.rules.specs.Acceptance.{deposit_in};
ghost use Rattle.records.specs.Layout.{validator_at, deposit_at, partial_at};
ghost use Rattle.records.specs.Layout.{validators_fit, deposits_fit, partials_fit};
ghost use Rattle.acceptance.specs.Tests.{validator_within, partial_within, tested_sum, bounded};

use crate::record::{partial_within, validator_within};
use primitives::{BOUND, Gwei, ValidatorIndex};
use records::queues::{self, PendingBalanceDeposit, PendingPartialWithdrawal};
use records::registry;

pub trait Amounts: Copy {
    // the rules' record, how many a table has room for, and what stands at an index
    ghost Plain: { Type 0 };

    ghost fit: { List ℕ → ℕ };

    ghost record_at: { List ℕ → ℕ → Plain };

    // what it has to pass, and its amount
    ghost within: { Self → Plain → Bool };

    ghost amount: { Plain → ℕ };

    // The amount of record i; None where it fails its tests.
    fn amount_at(self, table: &[u64], i: usize) -> Option<Gwei>
        requires { i < fit table.now }
        ensures { let x = record_at table.now i in
            MatchOption result (within self x ≡ false)
            (λ a. (within self x ≡ true) × (a.0 ≡ amount x)) };
}

// The same in two answers, which the passes of the engine take: an Option of the amount made the tests of small books
// take 1.4 times as long.
pub trait TestedAmounts: Copy {
    // the rules' record, how many a table has room for, and what stands at an index
    ghost Plain: { Type 0 };

    ghost fit: { List ℕ → ℕ };

    ghost record_at: { List ℕ → ℕ → Plain };

    // what it has to pass, and its amount
    ghost within: { Self → Plain → Bool };

    ghost amount: { Plain → ℕ };

    // Whether record i passes its tests.
    fn is_within(self, table: &[u64], i: usize) -> bool
        requires { i < fit table.now }
        ensures { result ≡ within self (record_at table.now i) };

    // Its amount, whether it passes them or not.
    fn untested_amount_at(self, table: &[u64], i: usize) -> Gwei
        requires { i < fit table.now }
        ensures { result.0 ≡ amount (record_at table.now i) };
}

// ---- the three tables

// Balances of validators with an effective balance of at most `most`.
#[derive(Clone, Copy)]
pub struct Balances {
    pub most: Gwei,
}

impl Amounts for Balances {
    ghost Plain = { rule.Validator };

    ghost fit = { validators_fit };

    // no test looks at the identities
    ghost record_at = { validator_at [] };

    ghost within = { λ s. validator_within s.most.0 };

    ghost amount = { λ v. v.balance };

    fn amount_at(self, table: &[u64], i: usize) -> Option<Gwei> {
        let validator_passes = self.is_within(table, i);
        validator_passes.then_some(self.untested_amount_at(table, i))
    }
}

impl TestedAmounts for Balances {
    ghost Plain = { rule.Validator };

    ghost fit = { validators_fit };

    // no test looks at the identities
    ghost record_at = { validator_at [] };

    ghost within = { λ s. validator_within s.most.0 };

    ghost amount = { λ v. v.balance };

    fn is_within(self, table: &[u64], i: usize) -> bool {
        validator_within(self.most, table, ValidatorIndex(i))
    }

    fn untested_amount_at(self, table: &[u64], i: usize) -> Gwei {
        registry::balance_at(table, ValidatorIndex(i))
    }
}

// Amounts of deposits to one of so many validators.
#[derive(Clone, Copy)]
pub struct Deposits {
    pub validators: usize,
}

impl Amounts for Deposits {
    ghost Plain = { rule.PendingBalanceDeposit };

    ghost fit = { deposits_fit };

    ghost record_at = { deposit_at };

    ghost within = { λ s. deposit_in s.validators };

    ghost amount = { λ d. d.amount };

    fn amount_at(self, table: &[u64], i: usize) -> Option<Gwei> {
        let deposit_passes = self.is_within(table, i);
        deposit_passes.then_some(self.untested_amount_at(table, i))
    }
}

impl TestedAmounts for Deposits {
    ghost Plain = { rule.PendingBalanceDeposit };

    ghost fit = { deposits_fit };

    ghost record_at = { deposit_at };

    ghost within = { λ s. deposit_in s.validators };

    ghost amount = { λ d. d.amount };

    fn is_within(self, table: &[u64], i: usize) -> bool {
        let deposit: PendingBalanceDeposit = queues::entry_at(table, i);
        deposit.index.0 < self.validators
    }

    fn untested_amount_at(self, table: &[u64], i: usize) -> Gwei {
        let deposit: PendingBalanceDeposit = queues::entry_at(table, i);
        deposit.amount
    }
}

// Amounts of partial withdrawals from one of so many validators.
#[derive(Clone, Copy)]
pub struct Partials {
    pub validators: usize,
}

impl Amounts for Partials {
    ghost Plain = { rule.PendingPartialWithdrawal };

    ghost fit = { partials_fit };

    ghost record_at = { partial_at };

    ghost within = { λ s. partial_within s.validators };

    ghost amount = { λ p. p.amount };

    fn amount_at(self, table: &[u64], i: usize) -> Option<Gwei> {
        let partial_passes = self.is_within(table, i);
        partial_passes.then_some(self.untested_amount_at(table, i))
    }
}

impl TestedAmounts for Partials {
    ghost Plain = { rule.PendingPartialWithdrawal };

    ghost fit = { partials_fit };

    ghost record_at = { partial_at };

    ghost within = { λ s. partial_within s.validators };

    ghost amount = { λ p. p.amount };

    fn is_within(self, table: &[u64], i: usize) -> bool {
        let partial: PendingPartialWithdrawal = queues::entry_at(table, i);
        partial_within(partial, self.validators)
    }

    fn untested_amount_at(self, table: &[u64], i: usize) -> Gwei {
        let partial: PendingPartialWithdrawal = queues::entry_at(table, i);
        partial.amount
    }
}

// ---- a pass over a table

// `start` and the amounts of the first m records; None where one fails its tests, or the sum is over BOUND.
pub fn sum<A: Amounts>(amounts: A, start: Gwei, table: &[u64], m: usize) -> Option<Gwei>
    requires { (start.0 ≤ rule.BOUND) × (m ≤ A.fit table.now) }
    ensures { result
        ≡ bounded (tested_sum (A.within amounts) A.amount start.0 (rows m (A.record_at table.now))) }
{
    let mut sum = start.0;
    for i in 0..m {
        let amount = amounts.amount_at(table, i)?;
        if amount.0 > BOUND - sum {
            return None;
        }
        sum += amount.0;
    }
    Some(Gwei(sum))
}

// The same sum by the two answers.
pub fn tested_sum<A: TestedAmounts>(
    amounts: A,
    start: Gwei,
    table: &[u64],
    m: usize,
) -> Option<Gwei>
    requires { (start.0 ≤ rule.BOUND) × (m ≤ A.fit table.now) }
    ensures { result
        ≡ bounded (tested_sum (A.within amounts) A.amount start.0 (rows m (A.record_at table.now))) }
{
    let mut sum = start.0;
    for i in 0..m {
        let within = amounts.is_within(table, i);
        if !within {
            return None;
        }
        let amount = amounts.untested_amount_at(table, i);
        if amount.0 > BOUND - sum {
            return None;
        }
        sum += amount.0;
    }
    Some(Gwei(sum))
}

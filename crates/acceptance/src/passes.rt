// One pass over each table.
ghost use Rattle.std.specs.Prelude.{◌≡◌, ℕ, ◌≤◌, List};
ghost use Rattle.lists.specs.Base.{every};
ghost use Rattle.tables.specs.Rows.{rows};
ghost use Rattle.rules.specs.Types as rule;
ghost use Rattle.rules.specs.Acceptance.{consolidation_in};
ghost use Rattle.records.specs.Layout.{validator_at, consolidation_at};
ghost use Rattle.records.specs.Layout.{validators_fit, deposits_fit, consolidations_fit};
ghost use Rattle.acceptance.specs.Tests.{validator_within, tested_sum, bounded};
ghost use Rattle.acceptance.specs.Held.{balances_in, amounts_in};

use crate::amounts::{self, Balances};
use crate::quick::small_sum;
use crate::record::consolidation_in;
use primitives::{Gwei, ValidatorIndex};
use records::queues::{self, PendingBalanceDeposit};
use records::registry;

// The sum of the first n balances; none where it is over BOUND, or a validator fails its tests.
pub fn validators_sum(most: Gwei, validators: &[u64], n: usize) -> Option<Gwei>
    requires { n ≤ validators_fit validators.now }
    ensures { (ids : List ℕ)
        → result
        ≡ bounded (tested_sum (validator_within most.0) (λ v. v.balance) 0
        (rows n (validator_at ids validators.now))) }
{
    if n <= 0x1_0000 {
        if let Some(sum) = small_sum(most, validators, n) {
            return Some(sum);
        }
    }
    amounts::tested_sum(Balances { most }, Gwei(0), validators, n)
}

// Whether the first m consolidations are of validators below n.
#[tactic(auto, using(crate::proofs::Loops::every_loop))]
pub fn consolidations_in(consolidations: &[u64], m: usize, n: usize) -> bool
    requires { m ≤ consolidations_fit consolidations.now }
    ensures { result ≡ every (consolidation_in n) (rows m (consolidation_at consolidations.now)) }
{
    for i in 0..m {
        if !consolidation_in(queues::entry_at(consolidations, i), n) {
            return false;
        }
    }
    true
}

// ---- sums of accepted tables

pub fn balances(validators: &[u64], n: usize) -> Gwei
    requires { (n ≤ validators_fit validators.now) × (balances_in n validators.now ≤ rule.BOUND) }
    ensures { result.0 ≡ balances_in n validators.now }
{
    Gwei(
        (0..n)
            .map(|i| registry::balance_at(validators, ValidatorIndex(i)).0)
            .sum(),
    )
}

pub fn deposit_amounts(deposits: &[u64], n: usize) -> Gwei
    requires { (n ≤ deposits_fit deposits.now) × (amounts_in n deposits.now ≤ rule.BOUND) }
    ensures { result.0 ≡ amounts_in n deposits.now }
{
    Gwei(
        (0..n)
            .map(|i| queues::entry_at::<PendingBalanceDeposit>(deposits, i)
                .amount
                .0)
            .sum(),
    )
}

// One pass that joins the bits of all validators, so that the machine takes several at once. Where they are small, all
// tests pass; where they are not, it tells nothing.
ghost use Rattle.std.specs.Prelude.{IfSome, Some, ◌≡◌, ℕ, ◌^◌, ◌<◌, ◌≤◌, List};
ghost use Rattle.tables.specs.Rows.{rows};
ghost use Rattle.rules.specs.Types as rule;
ghost use Rattle.records.specs.Layout.{validator_at, validators_fit};
ghost use Rattle.acceptance.specs.Tests.{validator_within, tested_sum, bounded};
ghost use Rattle.acceptance.specs.Quick.{Within};

use primitives::{BOUND, Gwei, ValidatorIndex};
use records::registry;
use std::num::{wrapping_add_u64, wrapping_sub_u64};

// 2^46: the sum of 2^16 balances below it is at most BOUND.
const SMALL: u64 = 0x4000_0000_0000;

// At most BOUND only where the effective balance is at most `most` and the epochs are within: what is left of `most`
// is far above BOUND where the effective balance is larger, and an epoch of one more is 0 for FAR.
// The bound on i stays a clause: it is the one that indexing a slice asks for.
fn validator_bits(most: Gwei, validators: &[u64], i: ValidatorIndex) -> u64
    requires { i.0 < validators_fit validators.now }
    ensures { result ≤ rule.BOUND → Within most.0 validators.now i.0 }
{
    let effective_balance = registry::effective_balance_at(validators, i);
    let left = wrapping_sub_u64(most.0, effective_balance.0);
    let eligibility = wrapping_add_u64(
        registry::activation_eligibility_epoch_at(validators, i).0,
        1,
    );
    let activation = wrapping_add_u64(registry::activation_epoch_at(validators, i).0, 1);
    let exit = wrapping_add_u64(registry::exit_epoch_at(validators, i).0, 1);
    let withdrawable = wrapping_add_u64(registry::withdrawable_epoch_at(validators, i).0, 1);
    effective_balance.0 | left | eligibility | activation | exit | withdrawable
}

// The sum of the first n balances where all are small; else None.
pub fn small_sum(most: Gwei, validators: &[u64], n: usize) -> Option<Gwei>
    requires { (n ≤ validators_fit validators.now) × (n ≤ 2 ^ 16) }
    ensures { IfSome result (λ sum.
        (ids : List ℕ)
        → Some sum
        ≡ bounded (tested_sum (validator_within most.0) (λ v. v.balance) 0
        (rows n (validator_at ids validators.now)))) }
{
    let mut flags = 0;
    let mut bits = 0;
    let mut balances = 0;
    let mut sum = 0;
    for i in 0..n {
        let balance = registry::balance_at(validators, ValidatorIndex(i));
        flags |= registry::slashed_at(validators, ValidatorIndex(i));
        bits |= validator_bits(most, validators, ValidatorIndex(i));
        balances |= balance.0;
        sum += balance.0 % SMALL;
    }
    if flags > 1 {
        return None;
    }
    if bits > BOUND {
        return None;
    }
    if balances >= SMALL {
        return None;
    }
    Some(Gwei(sum))
}

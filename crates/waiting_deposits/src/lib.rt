// Waiting deposits as a lent slice of records: how many of them a sum pays for, in order, and what is left of it.
// `credit` judges one deposit; `affordable` walks the slice; `affordable_of` holds up to sixteen deposits by value and
// lends them, so that whoever calls it needs no reference to records; `affordable_deposits` reads a table in such
// blocks.

#![tactic(auto)]

ghost use Rattle.std.specs.Prelude.{◌≡◌, ◌≤◌, take};
ghost use Rattle.tables.specs.Rows.{rows};
ghost use Rattle.records.specs.Layout.{deposit_at, deposits_fit};
ghost use Rattle.waiting_deposits.specs.Affords.{credited, affords};
ghost use Rattle.waiting_deposits.specs.Blocks.{Block, Affordable};

use primitives::{Gwei, ValidatorIndex};
use records::queues::PendingBalanceDeposit;

// How many deposits are credited, and what is left then.
#[derive(Clone, Copy)]
pub struct AffordableDeposits {
    pub count: usize,
    pub left: Gwei,
}

// What is left after a deposit, where it is within what is left before.
#[tactic(auto, using(crate::proofs::Affords::credited_none, crate::proofs::Affords::credited_some))]
pub fn credit(left: Gwei, amount: Gwei) -> Option<Gwei>
    ensures { result ≡ credited left amount }
{
    left.0.checked_sub(amount.0).map(Gwei)
}

// The deposits before the first that would bring their sum over `available`, else all.
#[tactic(auto, using(crate::proofs::Affords::at_end, crate::proofs::Affords::at_over, crate::proofs::Affords::at_more))]
pub fn affordable(deposits: &[PendingBalanceDeposit], available: Gwei) -> AffordableDeposits
    ensures { result ≡ affords deposits.now available }
{
    let mut left = available;
    for (count, deposit) in deposits.iter().enumerate() {
        let Some(rest) = credit(left, deposit.amount) else {
            return AffordableDeposits { count, left };
        };
        left = rest;
    }
    AffordableDeposits {
        count: deposits.len(),
        left,
    }
}

// The same of the first `count` deposits of an array.
pub fn affordable_of(
    deposits: [PendingBalanceDeposit; 16],
    count: usize,
    available: Gwei,
) -> AffordableDeposits
    requires { count ≤ 16 }
    ensures { result ≡ affords (take count deposits) available }
{
    affordable(&deposits[..count], available)
}

// ---- a table of deposits

// Up to sixteen deposits: the first `count` of the array. An array, since what calls `affordable_of` lends no records.
// The array stays beside a count: there is no heap, and a block is made before it is looked at.
#[derive(Clone, Copy)]
pub struct DepositBlock {
    pub deposits: [PendingBalanceDeposit; 16],
    pub count: usize,
}

// The deposits from position `from` on, of the first m.
fn block_from(deposits: &[u64], from: usize, m: usize) -> DepositBlock
    requires { (from ≤ m) × (m ≤ deposits_fit deposits.now) }
    ensures { Block deposits.now from m result }
{
    let blank = PendingBalanceDeposit {
        index: ValidatorIndex(0),
        amount: Gwei(0),
    };
    let mut list = [blank; 16];
    let count = (m - from).min(16);
    for k in 0..count {
        list[k] = records::queues::entry_at(deposits, from + k);
    }
    DepositBlock {
        deposits: list,
        count,
    }
}

// Of the first m deposits those before the first that would bring their sum over `available`, else all.
pub fn affordable_deposits(deposits: &[u64], m: usize, available: Gwei) -> AffordableDeposits
    requires { m ≤ deposits_fit deposits.now }
    ensures { Affordable available.0 (rows m (deposit_at deposits.now)) result.count result.left.0 }
{
    let mut next = 0;
    let mut left = available;
    // No range of blocks: the last is shorter and the walk can stop within any, so that each would be counted again.
    while next < m {
        let block = block_from(deposits, next, m);
        let lent = affordable_of(block.deposits, block.count, left);
        next += lent.count;
        left = lent.left;
        if lent.count < block.count {
            break;
        }
    }
    AffordableDeposits { count: next, left }
}

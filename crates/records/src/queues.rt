// The three queues: tables of records of so many words each.
ghost use Rattle.std.specs.Prelude.{◌≡◌, List, ℕ, ◌+◌, ◌/◌, ◌<◌, ◌≤◌, length};
ghost use Rattle.records.specs.Layout.{deposit_at, partial_at, consolidation_at};
ghost use Rattle.records.specs.Plain.{plain_deposit, plain_partial, plain_consolidation};
ghost use Rattle.records.specs.Entries.{OwnWords, own_deposit, own_partial, own_consolidation};
ghost use Rattle.records.specs.Queues.{Pushed, Drained};
ghost use Rattle.rules.specs.Types as rule;

use primitives::{Epoch, Gwei, ValidatorIndex};

#[derive(Clone, Copy)]
pub struct PendingBalanceDeposit {
    pub index: ValidatorIndex,
    pub amount: Gwei,
}

#[derive(Clone, Copy)]
pub struct PendingPartialWithdrawal {
    pub index: ValidatorIndex,
    pub amount: Gwei,
    pub withdrawable_epoch: Epoch,
}

#[derive(Clone, Copy)]
pub struct PendingConsolidation {
    pub source_index: ValidatorIndex,
    pub target_index: ValidatorIndex,
}

// What a queue holds: how many words a record takes, what they mean, and how it is read and stored.
pub trait QueueEntry: Copy {
    const WORDS: usize;

    ghost WORDS: { ℕ };

    // The rule's record, of a value and of place i in a table.
    ghost Record: { Type 0 };

    ghost plain: { Self → Record };

    ghost record_at: { List ℕ → ℕ → Record };

    fn from_words(words: &[u64]) -> Self
        requires { length words.now ≡ WORDS }
        ensures { plain result ≡ record_at words.now 0 };

    fn store(self, words: &mut [u64])
        requires { length words.old ≡ WORDS }
        ensures { record_at words.new 0 ≡ plain self };

    ghost own_words: { OwnWords WORDS record_at };
}

impl QueueEntry for PendingBalanceDeposit {
    const WORDS: usize = 2;

    ghost WORDS = { 2 };

    ghost Record = { rule.PendingBalanceDeposit };

    ghost plain = { plain_deposit };

    ghost record_at = { deposit_at };

    ghost own_words = { own_deposit };

    fn from_words(words: &[u64]) -> Self {
        PendingBalanceDeposit {
            index: ValidatorIndex(words[0] as usize),
            amount: Gwei(words[1]),
        }
    }

    fn store(self, words: &mut [u64]) {
        words[0] = self.index.0 as u64;
        words[1] = self.amount.0;
    }
}

impl QueueEntry for PendingPartialWithdrawal {
    const WORDS: usize = 3;

    ghost WORDS = { 3 };

    ghost Record = { rule.PendingPartialWithdrawal };

    ghost plain = { plain_partial };

    ghost record_at = { partial_at };

    ghost own_words = { own_partial };

    fn from_words(words: &[u64]) -> Self {
        PendingPartialWithdrawal {
            index: ValidatorIndex(words[0] as usize),
            amount: Gwei(words[1]),
            withdrawable_epoch: Epoch(words[2]),
        }
    }

    fn store(self, words: &mut [u64]) {
        words[0] = self.index.0 as u64;
        words[1] = self.amount.0;
        words[2] = self.withdrawable_epoch.0;
    }
}

impl QueueEntry for PendingConsolidation {
    const WORDS: usize = 2;

    ghost WORDS = { 2 };

    ghost Record = { rule.PendingConsolidation };

    ghost plain = { plain_consolidation };

    ghost record_at = { consolidation_at };

    ghost own_words = { own_consolidation };

    fn from_words(words: &[u64]) -> Self {
        PendingConsolidation {
            source_index: ValidatorIndex(words[0] as usize),
            target_index: ValidatorIndex(words[1] as usize),
        }
    }

    fn store(self, words: &mut [u64]) {
        words[0] = self.source_index.0 as u64;
        words[1] = self.target_index.0 as u64;
    }
}

// How many records fit.
pub fn entries_fit<E: QueueEntry>(table: &[u64]) -> usize
    ensures { result ≡ length table.now / E.WORDS }
{
    table.len() / E::WORDS
}

pub fn entry_at<E: QueueEntry>(table: &[u64], i: usize) -> E
    requires { i < length table.now / E.WORDS }
    ensures { E.plain result ≡ E.record_at table.now i }
{
    let at = E::WORDS * i;
    E::from_words(&table[at..at + E::WORDS])
}

// One record more, behind the first n.
pub fn push<E: QueueEntry>(table: &mut [u64], n: usize, e: E)
    requires { n < length table.old / E.WORDS }
    ensures { Pushed E.record_at E.WORDS n (E.plain e) table.old table.new }
{
    let at = E::WORDS * n;
    e.store(&mut table[at..at + E::WORDS]);
}

// The Rust's drain: the records behind the first `gone` move down, and the words behind them stay.
pub fn drain<E: QueueEntry>(table: &mut [u64], gone: usize, left: usize)
    requires { gone + left ≤ length table.old / E.WORDS }
    ensures { Drained E.record_at E.WORDS gone left table.old table.new }
{
    let from = E::WORDS * gone;
    table.copy_within(from..from + E::WORDS * left, 0);
}

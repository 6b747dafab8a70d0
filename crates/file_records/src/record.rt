// A record of a queue: read from a file and put into one, taken from a lent table and pushed into one. Only what was
// judged good is read, so nothing is tested here.

// A record stays put by a buffer and a word of it, two parameters as in file_stores.

ghost use Rattle.std.specs.Prelude.{◌≡◌, true, ◌+◌, ◌*◌, ◌/◌, ◌≤◌, ◌<◌, List, ℕ, length};
ghost use Rattle.rules.specs.Types as rule;
ghost use Rattle.records.specs.Layout.{deposit_at, partial_at, consolidation_at};
ghost use Rattle.records.specs.Plain.{plain_deposit, plain_partial, plain_consolidation};
ghost use Rattle.records.specs.Queues.{Pushed};
ghost use Rattle.file_format.specs.Words.{words};
ghost use Rattle.file_format.specs.Fields.{Format};
ghost use Rattle.file_format.specs.Books.{deposit, partial, consolidation};
ghost use Rattle.file_format.specs.PutLaws.{put};
ghost use Rattle.file_records.specs.Sizes.{deposit_length, partial_length, consolidation_length};

use crate::numbers_at;
use file_stores::put_numbers;
use primitives::{Epoch, Gwei, ValidatorIndex};
use records::queues;
use records::queues::{PendingBalanceDeposit, PendingConsolidation, PendingPartialWithdrawal};

pub trait FileRecord: Copy {
    // the rules' record that it stands for
    ghost Plain: { Type 0 };

    ghost plain: { Self → Plain };

    // in a file: so many words
    ghost format: { Format Plain };

    ghost WORDS: { ℕ };

    // in a table: record i, and how many words it has
    ghost decode: { List ℕ → ℕ → Plain };

    ghost width: { ℕ };

    const WORDS: usize;

    // The record at the front of what is left of a file.
    fn read(rest: &[u8]) -> Self
        requires { format.ok (words rest.now) ≡ true }
        ensures { plain result ≡ format.value (words rest.now) };

    fn put(self, out: &mut [u8], k: usize)
        requires { (k + WORDS) * 4 ≤ length out.old }
        ensures { out.new ≡ put out.old k (format.write (plain self)) };

    // Record i of the table.
    fn entry_at(table: &[u64], i: usize) -> Self
        requires { i < length table.now / width }
        ensures { plain result ≡ decode table.now i };

    // Behind the first n.
    fn push(self, table: &mut [u64], n: usize)
        requires { n < length table.old / width }
        ensures { Pushed decode width n (plain self) table.old table.new };

    ghost written: { (x : Plain) → length (format.write x) ≡ WORDS };
}

impl FileRecord for PendingBalanceDeposit {
    ghost Plain = { rule.PendingBalanceDeposit };

    ghost plain = { plain_deposit };

    ghost format = { deposit };

    ghost WORDS = { 6 };

    ghost decode = { deposit_at };

    ghost width = { 2 };

    ghost written = { deposit_length };

    const WORDS: usize = 6;

    fn read(rest: &[u8]) -> PendingBalanceDeposit {
        let [index, amount] = numbers_at::<2>(rest);
        PendingBalanceDeposit {
            index: ValidatorIndex(index as usize),
            amount: Gwei(amount),
        }
    }

    fn put(self, out: &mut [u8], k: usize) {
        let numbers = [self.index.0 as u64, self.amount.0];
        put_numbers(out, k, &numbers);
    }

    fn entry_at(table: &[u64], i: usize) -> PendingBalanceDeposit {
        queues::entry_at(table, i)
    }

    fn push(self, table: &mut [u64], n: usize) {
        queues::push(table, n, self);
    }
}

impl FileRecord for PendingPartialWithdrawal {
    ghost Plain = { rule.PendingPartialWithdrawal };

    ghost plain = { plain_partial };

    ghost format = { partial };

    ghost WORDS = { 9 };

    ghost decode = { partial_at };

    ghost width = { 3 };

    ghost written = { partial_length };

    const WORDS: usize = 9;

    fn read(rest: &[u8]) -> PendingPartialWithdrawal {
        let [index, amount, epoch] = numbers_at::<3>(rest);
        PendingPartialWithdrawal {
            index: ValidatorIndex(index as usize),
            amount: Gwei(amount),
            withdrawable_epoch: Epoch(epoch),
        }
    }

    fn put(self, out: &mut [u8], k: usize) {
        let numbers = [
            self.index.0 as u64,
            self.amount.0,
            self.withdrawable_epoch.0,
        ];
        put_numbers(out, k, &numbers);
    }

    fn entry_at(table: &[u64], i: usize) -> PendingPartialWithdrawal {
        queues::entry_at(table, i)
    }

    fn push(self, table: &mut [u64], n: usize) {
        queues::push(table, n, self);
    }
}

impl FileRecord for PendingConsolidation {
    ghost Plain = { rule.PendingConsolidation };

    ghost plain = { plain_consolidation };

    ghost format = { consolidation };

    ghost WORDS = { 6 };

    ghost decode = { consolidation_at };

    ghost width = { 2 };

    ghost written = { consolidation_length };

    const WORDS: usize = 6;

    fn read(rest: &[u8]) -> PendingConsolidation {
        let [source, target] = numbers_at::<2>(rest);
        PendingConsolidation {
            source_index: ValidatorIndex(source as usize),
            target_index: ValidatorIndex(target as usize),
        }
    }

    fn put(self, out: &mut [u8], k: usize) {
        let numbers = [self.source_index.0 as u64, self.target_index.0 as u64];
        put_numbers(out, k, &numbers);
    }

    fn entry_at(table: &[u64], i: usize) -> PendingConsolidation {
        queues::entry_at(table, i)
    }

    fn push(self, table: &mut [u64], n: usize) {
        queues::push(table, n, self);
    }
}

// Books written as a file into a lent buffer.

#![tactic(auto)]

pub mod counted; // the four counted lists
pub mod front; // the head, the settings and the scalars

ghost use Rattle.std.specs.Prelude.{◌≡◌, ◌≤◌, length, true, ◌^◌, ◌<◌};
ghost use Rattle.lists.specs.Base.{every};
ghost use Rattle.file_format.specs.Words.{is_byte};
ghost use Rattle.primitives.specs.Answers.{answer_number, answer_or};
ghost use Rattle.primitives.specs.Settings.{settings_of};
ghost use Rattle.records.specs.Lent.{lent_tables, plain_books};
ghost use Rattle.file_format.specs.Answers.{over};
ghost use Rattle.file_format.specs.File.{write_books};
ghost use Rattle.books_writer.specs.Written.{file_length, Ready, BooksWritten};

use primitives::answers::Refusal;
use primitives::{Scalars, Settings};
use records::books::Books;
use records::queues::{PendingBalanceDeposit, PendingConsolidation, PendingPartialWithdrawal};

// 90 words and those of the records: 46 a validator, 6 a deposit, 9 a partial withdrawal, 6 a consolidation.
fn file_length(scalars: Scalars) -> usize
    requires validators_bound { scalars.validators ≤ 65536 }
    requires deposits_bound { scalars.deposits ≤ 65536 }
    requires partials_bound { scalars.partials ≤ 65536 }
    requires consolidations_bound { scalars.consolidations ≤ 65536 }
    ensures { result ≡ file_length scalars }
{
    (90 + scalars.validators * 46
        + scalars.deposits * 6
        + scalars.partials * 9
        + scalars.consolidations * 6)
        * 4
}

// The file, into a buffer that has room for it.
fn put_books(settings: Settings, books: &Books<'_>, out: &mut [u8])
    requires ready { Ready books.now.scalars (lent_tables books.now) }
    requires scalars_in_bounds { file_length books.now.scalars ≤ length out.old }
    ensures file { out.new ≡ over (write_books (settings_of settings) (plain_books books.now)) out.old }
    ensures bytes { every is_byte books.now.identities.now ≡ true }
    ensures start { books.now.scalars.deposit_receipts_start_index < 2 ^ 64 }
{
    let scalars = books.scalars;
    let deposits_place = 86 + scalars.validators * 46;
    let partials_place = deposits_place + 1 + scalars.deposits * 6;
    let consolidations_place = partials_place + 1 + scalars.partials * 9;
    let end_place = consolidations_place + 1 + scalars.consolidations * 6;
    let deposits = books.deposits;
    front::put_front(out, settings, scalars);
    counted::put_validators(
        out,
        85,
        books.identities,
        books.validators,
        scalars.validators,
    );
    counted::put_records::<PendingBalanceDeposit>(out, deposits_place, deposits, scalars.deposits);
    counted::put_records::<PendingPartialWithdrawal>(
        out,
        partials_place,
        books.partials,
        scalars.partials,
    );
    counted::put_records::<PendingConsolidation>(
        out,
        consolidations_place,
        books.consolidations,
        scalars.consolidations,
    );
    file_stores::put_end(out, end_place);
}

// How many bytes the file has; refused with 1, 3, 2, then 61 where the file is longer than the buffer.
pub fn write_books(settings: Settings, books: &Books<'_>, out: &mut [u8]) -> Result<usize, Refusal>
    ensures { BooksWritten (settings_of settings) books.now.scalars (lent_tables books.now)
        out.old out.new (answer_number result) (answer_or 0 result) }
{
    acceptance::accept(settings, books)?;
    let length = file_length(books.scalars);
    if out.len() < length {
        return Err(Refusal::WriterBufferShort);
    }
    put_books(settings, books, out);
    Ok(length)
}

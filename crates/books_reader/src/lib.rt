// The reader of a books file: from lent bytes into lent tables. The whole file is judged before the first store, so
// that a refusal leaves every buffer as it was.

// The tables stay apart, as C lends them: the reader stores into all five, and has no scalars to lend them with before
// the file is judged.

#![tactic(auto)]

ghost use Rattle.std.specs.Prelude.{◌≡◌, IfOk};
ghost use Rattle.file_format.specs.Words.{words};
ghost use Rattle.file_format.specs.Places.{settings_at};
ghost use Rattle.file_format.specs.Answers.{read_answer};
ghost use Rattle.file_records.specs.Scalars.{scalars_at};
ghost use Rattle.primitives.specs.Answers.{answer_number};
ghost use Rattle.primitives.specs.Settings.{settings_of};
ghost use Rattle.records.specs.Books.{tables, room_of};
ghost use Rattle.books_reader.specs.Read.{BooksRead};

use acceptance::{enough_room, settings_sound};
use books_file::{BooksFile, books_file_ok};
use file_acceptance::file_books_sound;
use file_records::{scalars_at, settings_at};
use primitives::answers::Refusal;
use primitives::{Scalars, Settings};
use records::books::Books;
use table_stores::store_books;

// The books that the reader opened: their records stand in the tables.
#[derive(Clone, Copy)]
pub struct Opened {
    pub settings: Settings,
    pub scalars: Scalars,
}

// ---- the judgement: 60 over the whole file, then 1, 3, 2

fn judged(
    file: &[u8],
    identities: &[u8],
    validators: &[u64],
    deposits: &[u64],
    partials: &[u64],
    consolidations: &[u64],
) -> Result<Opened, Refusal>
    ensures number { answer_number result
        ≡ read_answer
        (room_of (tables identities.now validators.now deposits.now
        partials.now consolidations.now))
        file.now }
    ensures opened { IfOk result (λ o. (settings_of o.settings ≡ settings_at (words file.now))
        × (o.scalars ≡ scalars_at (words file.now))) }
{
    if !books_file_ok(file) {
        return Err(Refusal::BrokenFile);
    }
    let file = BooksFile { bytes: file };
    let settings = settings_at(file);
    if !settings_sound(settings) {
        return Err(Refusal::UnsoundSettings);
    }
    let scalars = scalars_at(file);
    let books = Books {
        scalars,
        identities,
        validators,
        deposits,
        partials,
        consolidations,
    };
    if !enough_room(settings, &books) {
        return Err(Refusal::ShortBuffer);
    }
    if !file_books_sound(settings, scalars, file) {
        return Err(Refusal::UnsoundBooks);
    }
    Ok(Opened { settings, scalars })
}

// ---- the reader

pub fn read_books(
    file: &[u8],
    identities: &mut [u8],
    validators: &mut [u64],
    deposits: &mut [u64],
    partials: &mut [u64],
    consolidations: &mut [u64],
) -> Result<Opened, Refusal>
    ensures { BooksRead file.now
        (tables identities.old validators.old deposits.old
        partials.old consolidations.old)
        (tables identities.new validators.new deposits.new
        partials.new consolidations.new) result }
{
    let judged = judged(
        file,
        identities,
        validators,
        deposits,
        partials,
        consolidations,
    );
    let opened = judged?;
    store_books(
        BooksFile { bytes: file },
        opened.scalars,
        identities,
        validators,
        deposits,
        partials,
        consolidations,
    );
    Ok(opened)
}

// The reader of a books file: whether lent bytes are one. Everything is judged on the words where they stand; nothing
// is copied.

#![tactic(auto)]

ghost use Rattle.std.specs.Prelude.{◌≡◌, true, ◌≤◌, ◌<◌, ◌^◌, drop};
ghost use Rattle.file_format.specs.Words.{words};
ghost use Rattle.file_format.specs.Fields.{many};
ghost use Rattle.file_format.specs.Books.{validator, books_format};
ghost use Rattle.file_format.specs.File.{file_ok};
ghost use Rattle.file_format.specs.Places.{list_end, listed_ok};
ghost use Rattle.file_format.specs.Places.{deposits_place, partials_place, consolidations_place, end_place};
ghost use Rattle.books_file.specs.Laws.{numbers_listed};

use file_words::{behind, count_at, count_ok, end_ok, field_ok, flag_ok, numbers_ok, word_at};

// Bytes that were judged a books file.
#[derive(Clone, Copy)]
pub struct BooksFile<'a> {
    pub bytes: &'a [u8],
    ghost good: { file_ok books_format bytes.now ≡ true },
}

// ---- validators

#[tactic(auto, using(crate::specs::Laws::validator_parts))]
fn validator_ok(rest: &[u8]) -> bool
    ensures { result ≡ validator.ok (words rest.now) }
{
    let key = field_ok(rest, 48);
    let credentials = field_ok(behind(rest, 16), 32);
    let slashed = flag_ok(behind(rest, 27));
    let numbers = numbers_ok(behind(rest, 28), 6);
    key & credentials & slashed & numbers
}

// n validators.
// The bound on n stays a clause, which a count of 28 bits has: it keeps `i * 46` within 64 bits.
fn validators_ok(rest: &[u8], n: usize) -> bool
    requires { n < 2 ^ 28 }
    ensures { result ≡ (many validator n).ok (words rest.now) }
{
    (0..n).all(|i| validator_ok(behind(rest, i * 46)))
}

// ---- counted lists, each from its count on

// What stands behind a list of records of n words.
fn behind_list(list: &[u8], n: usize) -> &[u8]
    requires { n ≤ 46 }
    ensures { words result.now ≡ drop (list_end (words list.now) 0 n) (words list.now) }
{
    behind(list, 1 + count_at(list) * n)
}

// Records of m numbers.
#[tactic(auto, unfolding(crate::specs::Laws::numbers_listed))]
fn numbers_list_ok(list: &[u8], m: usize) -> bool
    requires { m ≤ 46 }
    ensures { result ≡ numbers_listed (words list.now) m }
{
    let n = count_at(list) * m;
    count_ok(list) & numbers_ok(behind(list, 1), n)
}

fn validators_list_ok(list: &[u8]) -> bool
    ensures { result ≡ listed_ok validator 0 (words list.now) }
{
    let n = count_at(list);
    count_ok(list) & validators_ok(behind(list, 1), n)
}

// The four lists of a file, and what stands behind them.
#[derive(Clone, Copy)]
pub struct Lists<'a> {
    pub validators: &'a [u8],
    pub deposits: &'a [u8],
    pub partials: &'a [u8],
    pub consolidations: &'a [u8],
    pub end: &'a [u8],
}

#[tactic(auto, using(crate::specs::Laws::list_behind))]
pub fn lists_of(file: &[u8]) -> Lists<'_>
    ensures validators { words result.validators.now ≡ drop 85 (words file.now) }
    ensures deposits { words result.deposits.now ≡ drop (deposits_place (words file.now)) (words file.now) }
    ensures partials { words result.partials.now ≡ drop (partials_place (words file.now)) (words file.now) }
    ensures consolidations { words result.consolidations.now
        ≡ drop (consolidations_place (words file.now)) (words file.now) }
    ensures end { words result.end.now ≡ drop (end_place (words file.now)) (words file.now) }
{
    let validators = behind(file, 85);
    let deposits = behind_list(validators, 46);
    let partials = behind_list(deposits, 6);
    let consolidations = behind_list(partials, 9);
    let end = behind_list(consolidations, 6);
    Lists {
        validators,
        deposits,
        partials,
        consolidations,
        end,
    }
}

// ---- the file

// The head, 28 numbers, the four lists: all but the end word.
#[tactic(auto, using(crate::specs::Laws::books_parts))]
fn books_ok(file: &[u8]) -> bool
    ensures { result ≡ books_format.ok (words file.now) }
{
    let lists = lists_of(file);
    let head = word_at(file, 0) == 0x1000_0001;
    let numbers = numbers_ok(behind(file, 1), 28);
    let validators = validators_list_ok(lists.validators);
    let deposits = numbers_list_ok(lists.deposits, 2);
    let partials = numbers_list_ok(lists.partials, 3);
    let consolidations = numbers_list_ok(lists.consolidations, 2);
    head & numbers & validators & deposits & partials & consolidations
}

// Whether these bytes are a books file; where they are not, the answer is 60.
#[tactic(auto, using(crate::specs::Laws::file_parts))]
pub fn books_file_ok(file: &[u8]) -> bool
    ensures { result ≡ file_ok books_format file.now }
{
    let whole = file.len() % 4 == 0;
    whole & books_ok(file) & end_ok(file, lists_of(file).end)
}

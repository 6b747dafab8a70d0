// The settings, the scalars and the queues' records of a books file, read by value where they stand. Only what was
// judged good is read, so nothing is tested here.

#![tactic(auto)]

pub mod record; // the queues' records

ghost use Rattle.std.specs.Prelude.{◌≡◌, true};
ghost use Rattle.primitives.specs.Settings.{settings_of};
ghost use Rattle.file_format.specs.Words.{words};
ghost use Rattle.file_format.specs.Fields.{number, many};
ghost use Rattle.file_format.specs.Places.{settings_at};
ghost use Rattle.file_records.specs.Scalars.{scalars_at};

use books_file::{BooksFile, lists_of};
use file_words::{behind, count_at, number_from};
use primitives::{Scalars, Settings};

// ---- numbers, settings and scalars

// N numbers, at the front of what is left of a file.
pub fn numbers_at<const N: usize>(rest: &[u8]) -> [u64; N]
    requires { (many number N).ok (words rest.now) ≡ true }
    ensures { result ≡ (many number N).value (words rest.now) }
{
    let mut out = [0; N];
    for i in 0..N {
        out[i] = number_from(rest, i * 3);
    }
    out
}

pub fn settings_at(file: BooksFile<'_>) -> Settings
    ensures { settings_of result ≡ settings_at (words file.entry.bytes.now) }
{
    Settings::from(numbers_at::<19>(behind(file.bytes, 1)))
}

pub fn scalars_at(file: BooksFile<'_>) -> Scalars
    ensures { result ≡ scalars_at (words file.entry.bytes.now) }
{
    let first = numbers_at::<9>(behind(file.bytes, 58));
    let lists = lists_of(file.bytes);
    let mut numbers = [0; 13];
    numbers[..9].copy_from_slice(&first);
    numbers[9] = count_at(lists.validators) as u64;
    numbers[10] = count_at(lists.deposits) as u64;
    numbers[11] = count_at(lists.partials) as u64;
    numbers[12] = count_at(lists.consolidations) as u64;
    Scalars::from(numbers)
}

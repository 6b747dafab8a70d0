// Whether the books of a books file are sound, judged on the file before anything is stored: the tests of `acceptance`,
// in one pass over each list of the file.

#![tactic(auto)]

pub mod amounts; // the sums of balances, deposits and partial withdrawals

ghost use Rattle.std.specs.Prelude.{◌≡◌};
ghost use Rattle.lists.specs.Base.{every};
ghost use Rattle.rules.specs.Acceptance.{sound_books, consolidation_in};
ghost use Rattle.primitives.specs.Settings.{settings_of};
ghost use Rattle.file_format.specs.Words.{words};
ghost use Rattle.file_format.specs.Books.{consolidation};
ghost use Rattle.file_format.specs.Places.{books_at};
ghost use Rattle.file_records.specs.Scalars.{scalars_at};
ghost use Rattle.file_records.specs.Lists.{records_from, Readable};

use acceptance::record::consolidation_in;
use acceptance::scalars_within;
use amounts::{Balances, Deposits, Partials};
use books_file::{BooksFile, lists_of};
use file_records::record::FileRecord;
use file_words::behind;
use primitives::{Gwei, Scalars, Settings};
use records::queues::PendingConsolidation;

// Whether the first m consolidations are of validators below n.
fn consolidations_in(records: &[u8], m: usize, n: usize) -> bool
    requires { Readable consolidation 6 m (words records.now) }
    ensures { result ≡ every (consolidation_in n) (records_from consolidation 6 m (words records.now)) }
{
    (0..m).all(|i| consolidation_in(PendingConsolidation::read(behind(records, i * 6)), n))
}

// The books of a file that was judged good, with its scalars.
pub fn file_books_sound(settings: Settings, scalars: Scalars, file: BooksFile<'_>) -> bool
    requires { scalars ≡ scalars_at (words file.bytes.now) }
    ensures { result ≡ sound_books (settings_of settings) (books_at (words file.entry.bytes.now)) }
{
    if !scalars_within(settings, scalars) {
        return false;
    }
    let lists = lists_of(file.bytes);
    let n = scalars.validators;
    let most = settings.max_effective_balance_electra;
    let validators = behind(lists.validators, 1);
    let Some(balances) = amounts::sum(Balances { most }, Gwei(0), validators, n) else {
        return false;
    };
    let deposits = behind(lists.deposits, 1);
    let Some(_held) = amounts::sum(
        Deposits { validators: n },
        balances,
        deposits,
        scalars.deposits,
    ) else {
        return false;
    };
    let partials = behind(lists.partials, 1);
    let Some(_withdrawn) = amounts::sum(
        Partials { validators: n },
        Gwei(0),
        partials,
        scalars.partials,
    ) else {
        return false;
    };
    consolidations_in(behind(lists.consolidations, 1), scalars.consolidations, n)
}

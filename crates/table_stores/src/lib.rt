// The records of a books file stored into the lent tables, list by list. Only a file that was judged good, and whose
// records the tables have room for, is stored.

#![tactic(auto)]

ghost use Rattle.std.specs.Prelude.{◌≡◌, true, ◌/◌, ◌≤◌, ◌<◌, length};
ghost use Rattle.records.specs.Layout.{identities_fit, validators_fit};
ghost use Rattle.records.specs.Books.{tables};
ghost use Rattle.records.specs.Stores.{put_validator, ValidatorPushed};
ghost use Rattle.file_format.specs.Words.{words};
ghost use Rattle.file_format.specs.Books.{validator};
ghost use Rattle.file_records.specs.Scalars.{scalars_at};
ghost use Rattle.file_records.specs.Lists.{records_from, Readable};
ghost use Rattle.table_stores.specs.Stored.{Stored, ValidatorsStored, Fits, BooksStored};

use books_file::{BooksFile, lists_of};
use file_bytes::put_field;
use file_records::numbers_at;
use file_records::record::FileRecord;
use file_words::{behind, flag_at};
use primitives::{Scalars, ValidatorIndex};
use records::queues::{PendingBalanceDeposit, PendingConsolidation, PendingPartialWithdrawal};
use records::registry::{credentials_place, put_row};

// ---- the validator at the front of what is left of a file, straight into the tables, behind the first n

fn store_words(rest: &[u8], validators: &mut [u64], n: usize)
    requires well_formed { validator.ok (words rest.now) ≡ true }
    requires n_fits { n < validators_fit validators.old }
    ensures { validators.new ≡ put_validator validators.old n (validator.value (words rest.now)) }
{
    let slashed = flag_at(behind(rest, 27)) as u64;
    let [
        effective_balance,
        activation_eligibility_epoch,
        activation_epoch,
        exit_epoch,
        withdrawable_epoch,
        balance,
    ] = numbers_at::<6>(behind(rest, 28));
    put_row(
        validators,
        n,
        [
            slashed,
            effective_balance,
            activation_eligibility_epoch,
            activation_epoch,
            exit_epoch,
            withdrawable_epoch,
            balance,
        ],
    );
}

fn store_validator(rest: &[u8], identities: &mut [u8], validators: &mut [u64], n: usize)
    requires well_formed { validator.ok (words rest.now) ≡ true }
    requires n_fits { (n < identities_fit identities.old) × (n < validators_fit validators.old) }
    ensures { ValidatorPushed n (validator.value (words rest.now))
        identities.old validators.old identities.new validators.new }
{
    let credentials = credentials_place(identities, ValidatorIndex(n));
    put_field(rest, &mut identities[48 * n..48 * n + 48]);
    put_field(
        behind(rest, 16),
        &mut identities[credentials..credentials + 32],
    );
    store_words(rest, validators, n);
}

// ---- lists

// The first n validators of a list, as the first n of the tables.
fn store_validators(list: &[u8], n: usize, identities: &mut [u8], validators: &mut [u64])
    requires readable { Readable validator 46 n (words list.now) }
    requires n_fits { (n ≤ identities_fit identities.old) × (n ≤ validators_fit validators.old) }
    ensures { ValidatorsStored (words list.now) n identities.old validators.old
        identities.new validators.new }
{
    for i in 0..n {
        store_validator(behind(list, i * 46), identities, validators, i);
    }
}

// The first n records of a list, as the first n of the table.
fn store_records<R: FileRecord>(list: &[u8], n: usize, table: &mut [u64])
    requires readable { Readable R.format R.WORDS n (words list.now) }
    requires n_fits { n ≤ length table.old / R.width }
    ensures { Stored R.decode R.width n
        (records_from R.format R.WORDS n (words list.now))
        table.old table.new }
{
    for i in 0..n {
        R::read(behind(list, i * R::WORDS)).push(table, i);
    }
}

// The lists of a file, with its scalars.
// The tables stay apart, as C lends them: the call writes all five.
pub fn store_books(
    file: BooksFile<'_>,
    scalars: Scalars,
    identities: &mut [u8],
    validators: &mut [u64],
    deposits: &mut [u64],
    partials: &mut [u64],
    consolidations: &mut [u64],
)
    requires scalars_read { scalars ≡ scalars_at (words file.bytes.now) }
    requires fits { Fits scalars
        (tables identities.old validators.old deposits.old partials.old consolidations.old) }
    ensures { BooksStored (words file.entry.bytes.now) scalars
        (tables identities.old validators.old deposits.old
        partials.old consolidations.old)
        (tables identities.new validators.new deposits.new
        partials.new consolidations.new) }
{
    let lists = lists_of(file.bytes);
    let records = behind(lists.validators, 1);
    store_validators(records, scalars.validators, identities, validators);
    let records = behind(lists.deposits, 1);
    store_records::<PendingBalanceDeposit>(records, scalars.deposits, deposits);
    let records = behind(lists.partials, 1);
    store_records::<PendingPartialWithdrawal>(records, scalars.partials, partials);
    let records = behind(lists.consolidations, 1);
    store_records::<PendingConsolidation>(records, scalars.consolidations, consolidations);
}

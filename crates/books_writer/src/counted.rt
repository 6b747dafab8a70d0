// The counted lists of a books file: 46 words a validator, 6 a deposit, 9 a partial withdrawal, 6 a consolidation.

// A buffer and a word of it stay two parameters, as in file_stores, and the bound on n a clause: a count has 28 bits.

ghost use Rattle.std.specs.Prelude.{◌≡◌, true, ◌+◌, ◌*◌, ◌/◌, ◌≤◌, ◌<◌, ◌^◌, length};
ghost use Rattle.lists.specs.Base.{every};
ghost use Rattle.tables.specs.Rows.{rows};
ghost use Rattle.rules.specs.Acceptance.{is_flag};
ghost use Rattle.records.specs.Layout.{validator_at, identities_fit, validators_fit};
ghost use Rattle.records.specs.Plain.{plain_validator};
ghost use Rattle.file_format.specs.Books.{validator, list_of};
ghost use Rattle.file_format.specs.PutLaws.{put};
ghost use Rattle.file_format.specs.Words.{is_byte};

use file_records::record::FileRecord;
use primitives::ValidatorIndex;
use records::registry;
use records::validator::Validator;

// ---- one validator

pub fn put_validator(out: &mut [u8], k: usize, v: Validator)
    requires k_in_bounds { (k + 46) * 4 ≤ length out.old }
    requires slashed_bound { v.slashed < 2 }
    ensures { out.new ≡ put out.old k (validator.write (plain_validator v)) }
{
    let public_key = v.public_key;
    let withdrawal_credentials = v.withdrawal_credentials;
    let numbers: [u64; 6] = [
        v.effective_balance.0,
        v.activation_eligibility_epoch.0,
        v.activation_epoch.0,
        v.exit_epoch.0,
        v.withdrawable_epoch.0,
        v.balance.0,
    ];
    file_stores::put_field(out, k, &public_key);
    file_stores::put_field(out, k + 16, &withdrawal_credentials);
    file_stores::put_flag(out, k + 27, v.slashed);
    file_stores::put_numbers(out, k + 28, &numbers);
}

// ---- a count, and as many records

pub fn put_validators(out: &mut [u8], k: usize, identities: &[u8], validators: &[u64], n: usize)
    requires identities_hold { n ≤ identities_fit identities.now }
    requires validators_hold { n ≤ validators_fit validators.now }
    requires flags { every is_flag (rows n (validator_at identities.now validators.now)) ≡ true }
    requires n_bound { n < 2 ^ 28 }
    requires n_in_bounds { (k + 1 + n * 46) * 4 ≤ length out.old }
    ensures list { out.new
        ≡ put out.old k
        ((list_of validator).write (rows n (validator_at identities.now validators.now))) }
    ensures bytes { every is_byte identities.now ≡ true }
{
    file_stores::put_count(out, k, n);
    for i in 0..n {
        let v = registry::validator_at(identities, validators, ValidatorIndex(i));
        put_validator(out, k + 1 + i * 46, v);
    }
}

pub fn put_records<R: FileRecord>(out: &mut [u8], k: usize, table: &[u64], n: usize)
    requires n_fits { n ≤ length table.now / R.width }
    requires n_bound { n < 2 ^ 28 }
    requires n_in_bounds { (k + 1 + n * R.WORDS) * 4 ≤ length out.old }
    ensures { out.new ≡ put out.old k ((list_of R.format).write (rows n (R.decode table.now))) }
{
    file_stores::put_count(out, k, n);
    for i in 0..n {
        R::entry_at(table, i).put(out, k + 1 + i * R::WORDS);
    }
}

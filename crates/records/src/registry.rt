// The registry's two tables, laid out by columns: the keys and then the credentials of as many validators as fit, 48
// and 32 bytes each; and seven columns of words.

// The bound on i stays a clause of each function: it is the one that indexing a slice asks for, and an Option would
// give every caller, all of which loop below the count, have tested the index or have it from accepted records, a case that cannot be.

ghost use Rattle.std.specs.Prelude.{◌≡◌, List, ℕ, ◌+◌, ◌*◌, ◌<◌, ◌^◌, length};
ghost use Rattle.lists.specs.Base.{same_bytes};
ghost use Rattle.rules.specs.Update.{with_balance, with_effective_balance, with_exit};
ghost use Rattle.rules.specs.Helpers.{prefix, increased, decreased, active_effective_balance, with_compounding_prefix};
ghost use Rattle.rules.specs.Helpers.{get_validator_max_effective_balance};
ghost use Rattle.primitives.specs.Settings.{settings_of};
ghost use Rattle.records.specs.Layout.{public_key_at, withdrawal_credentials_at, validator_at};
ghost use Rattle.records.specs.Layout.{slashed_at, effective_balance_at, activation_eligibility_epoch_at};
ghost use Rattle.records.specs.Layout.{activation_epoch_at, exit_epoch_at, withdrawable_epoch_at};
ghost use Rattle.records.specs.Layout.{word_at, balance_at, identities_fit, validators_fit};
ghost use Rattle.records.specs.Plain.{plain_validator, column_number};
ghost use Rattle.records.specs.Stores.{ValidatorAdjusted, IdentityAdjusted, ValidatorPushed};
ghost use Rattle.records.specs.Stores.{put_word, put_row};

use crate::bytes::{bytes_at, put_bytes};
use crate::validator::Validator;
use primitives::{Epoch, Gwei, Settings, ValidatorIndex};

// ---- how many validators fit

pub fn identities_fit(identities: &[u8]) -> usize
    ensures { result ≡ identities_fit identities.now }
{
    identities.len() / 80
}

pub fn validators_fit(validators: &[u64]) -> usize
    ensures { result ≡ validators_fit validators.now }
{
    validators.len() / 7
}

// ---- places

// Where the credentials of validator i stand.
pub fn credentials_place(identities: &[u8], i: ValidatorIndex) -> usize
    requires { i.0 < identities_fit identities.now }
    ensures { result ≡ 48 * identities_fit identities.now + 32 * i.0 }
{
    48 * identities_fit(identities) + 32 * i.0
}

// The columns of the validators' words.
#[derive(Clone, Copy)]
enum Column {
    Slashed,
    EffectiveBalance,
    ActivationEligibilityEpoch,
    ActivationEpoch,
    ExitEpoch,
    WithdrawableEpoch,
    Balance,
}

fn word_place(validators: &[u64], column: Column, i: ValidatorIndex) -> usize
    requires { i.0 < validators_fit validators.now }
    ensures place { result ≡ column_number column * validators_fit validators.now + i.0 }
    ensures within { result < length validators.now }
{
    column as usize * validators_fit(validators) + i.0
}

fn word_at(validators: &[u64], column: Column, i: ValidatorIndex) -> u64
    requires { i.0 < validators_fit validators.now }
    ensures { result ≡ word_at (column_number column) validators.now i.0 }
{
    validators[word_place(validators, column, i)]
}

fn set_word(validators: &mut [u64], column: Column, i: ValidatorIndex, x: u64)
    requires { i.0 < validators_fit validators.old }
    ensures { validators.new ≡ put_word (column_number column) validators.old i.0 x }
{
    let at = word_place(validators, column, i);
    validators[at] = x;
}

pub fn validator_at(identities: &[u8], validators: &[u64], i: ValidatorIndex) -> Validator
    requires { (i.0 < identities_fit identities.now) × (i.0 < validators_fit validators.now) }
    ensures { plain_validator result ≡ validator_at identities.now validators.now i.0 }
{
    let public_key = bytes_at(identities, 48 * i.0);
    let withdrawal_credentials = bytes_at(identities, credentials_place(identities, i));
    Validator {
        public_key,
        withdrawal_credentials,
        slashed: word_at(validators, Column::Slashed, i),
        effective_balance: Gwei(word_at(validators, Column::EffectiveBalance, i)),
        activation_eligibility_epoch: Epoch(word_at(
            validators,
            Column::ActivationEligibilityEpoch,
            i,
        )),
        activation_epoch: Epoch(word_at(validators, Column::ActivationEpoch, i)),
        exit_epoch: Epoch(word_at(validators, Column::ExitEpoch, i)),
        withdrawable_epoch: Epoch(word_at(validators, Column::WithdrawableEpoch, i)),
        balance: Gwei(word_at(validators, Column::Balance, i)),
    }
}

// ---- one word or byte of a validator

pub fn slashed_at(validators: &[u64], i: ValidatorIndex) -> u64
    requires { i.0 < validators_fit validators.now }
    ensures { result ≡ slashed_at validators.now i.0 }
{
    word_at(validators, Column::Slashed, i)
}

pub fn effective_balance_at(validators: &[u64], i: ValidatorIndex) -> Gwei
    requires { i.0 < validators_fit validators.now }
    ensures { result.0 ≡ effective_balance_at validators.now i.0 }
{
    Gwei(word_at(validators, Column::EffectiveBalance, i))
}

pub fn activation_eligibility_epoch_at(validators: &[u64], i: ValidatorIndex) -> Epoch
    requires { i.0 < validators_fit validators.now }
    ensures { result.0 ≡ activation_eligibility_epoch_at validators.now i.0 }
{
    Epoch(word_at(validators, Column::ActivationEligibilityEpoch, i))
}

pub fn activation_epoch_at(validators: &[u64], i: ValidatorIndex) -> Epoch
    requires { i.0 < validators_fit validators.now }
    ensures { result.0 ≡ activation_epoch_at validators.now i.0 }
{
    Epoch(word_at(validators, Column::ActivationEpoch, i))
}

pub fn exit_epoch_at(validators: &[u64], i: ValidatorIndex) -> Epoch
    requires { i.0 < validators_fit validators.now }
    ensures { result.0 ≡ exit_epoch_at validators.now i.0 }
{
    Epoch(word_at(validators, Column::ExitEpoch, i))
}

pub fn withdrawable_epoch_at(validators: &[u64], i: ValidatorIndex) -> Epoch
    requires { i.0 < validators_fit validators.now }
    ensures { result.0 ≡ withdrawable_epoch_at validators.now i.0 }
{
    Epoch(word_at(validators, Column::WithdrawableEpoch, i))
}

pub fn balance_at(validators: &[u64], i: ValidatorIndex) -> Gwei
    requires { i.0 < validators_fit validators.now }
    ensures { result.0 ≡ balance_at validators.now i.0 }
{
    Gwei(word_at(validators, Column::Balance, i))
}

// Byte 0 of the credentials.
pub fn prefix_at(identities: &[u8], i: ValidatorIndex) -> u8
    requires { i.0 < identities_fit identities.now }
    ensures { result ≡ prefix (withdrawal_credentials_at identities.now i.0) }
{
    identities[credentials_place(identities, i)]
}

// get_validator_max_effective_balance: byte 0 of the credentials decides.
pub fn max_effective_balance_at(settings: Settings, identities: &[u8], i: ValidatorIndex) -> Gwei
    requires { i.0 < identities_fit identities.now }
    ensures { (ws : List ℕ)
        → result.0 ≡ get_validator_max_effective_balance (settings_of settings)
        (validator_at identities.now ws i.0) }
{
    if prefix_at(identities, i) == 2 {
        return settings.max_effective_balance_electra;
    }
    settings.min_activation_balance
}

// What the validator adds to the total active balance.
pub fn active_effective_balance_at(validators: &[u64], i: ValidatorIndex, epoch: Epoch) -> Gwei
    requires { i.0 < validators_fit validators.now }
    ensures { (ids : List ℕ)
        → result.0 ≡ active_effective_balance epoch.0 (validator_at ids validators.now i.0) }
{
    if epoch.0 < word_at(validators, Column::ActivationEpoch, i) {
        return Gwei(0);
    }
    if word_at(validators, Column::ExitEpoch, i) <= epoch.0 {
        return Gwei(0);
    }
    Gwei(word_at(validators, Column::EffectiveBalance, i))
}

pub fn has_public_key(identities: &[u8], i: ValidatorIndex, public_key: [u8; 48]) -> bool
    requires { i.0 < identities_fit identities.now }
    ensures { result ≡ same_bytes public_key (public_key_at identities.now i.0) }
{
    let at = 48 * i.0;
    public_key[..] == identities[at..at + 48]
}

// ---- stores

pub fn set_balance(validators: &mut [u64], i: ValidatorIndex, balance: Gwei)
    requires { i.0 < validators_fit validators.old }
    ensures { ValidatorAdjusted i.0 (with_balance balance.0)
        validators.old validators.new }
{
    set_word(validators, Column::Balance, i, balance.0);
}

pub fn set_effective_balance(validators: &mut [u64], i: ValidatorIndex, balance: Gwei)
    requires { i.0 < validators_fit validators.old }
    ensures { ValidatorAdjusted i.0 (with_effective_balance balance.0)
        validators.old validators.new }
{
    set_word(validators, Column::EffectiveBalance, i, balance.0);
}

pub fn set_exit(validators: &mut [u64], i: ValidatorIndex, exit: Epoch, withdrawable: Epoch)
    requires { i.0 < validators_fit validators.old }
    ensures { ValidatorAdjusted i.0 (with_exit exit.0 withdrawable.0)
        validators.old validators.new }
{
    set_word(validators, Column::ExitEpoch, i, exit.0);
    set_word(validators, Column::WithdrawableEpoch, i, withdrawable.0);
}

pub fn increase_balance(validators: &mut [u64], i: ValidatorIndex, delta: Gwei)
    requires i_bound { i.0 < validators_fit validators.old }
    requires delta_bound { balance_at validators.old i.0 + delta.0 < 2 ^ 64 }
    ensures { ValidatorAdjusted i.0 (increased delta.0)
        validators.old validators.new }
{
    let increased = word_at(validators, Column::Balance, i) + delta.0;
    set_word(validators, Column::Balance, i, increased);
}

// A balance stops at 0.
pub fn decrease_balance(validators: &mut [u64], i: ValidatorIndex, delta: Gwei)
    requires { i.0 < validators_fit validators.old }
    ensures { ValidatorAdjusted i.0 (decreased delta.0)
        validators.old validators.new }
{
    let decreased = word_at(validators, Column::Balance, i).saturating_sub(delta.0);
    set_word(validators, Column::Balance, i, decreased);
}

// Byte 0 of the credentials becomes 02.
pub fn set_compounding_prefix(identities: &mut [u8], i: ValidatorIndex)
    requires { i.0 < identities_fit identities.old }
    ensures { IdentityAdjusted i.0 with_compounding_prefix
        identities.old identities.new }
{
    let at = credentials_place(identities, i);
    identities[at] = 2;
}

// The words of a validator in the order of the columns, behind those of the first n.
pub fn put_row(validators: &mut [u64], n: usize, words: [u64; 7])
    requires { n < validators_fit validators.old }
    ensures { validators.new ≡ put_row validators.old n words }
{
    let i = ValidatorIndex(n);
    let [
        slashed,
        effective_balance,
        eligibility,
        activation,
        exit,
        withdrawable,
        balance,
    ] = words;
    set_word(validators, Column::Slashed, i, slashed);
    set_word(validators, Column::EffectiveBalance, i, effective_balance);
    set_word(
        validators,
        Column::ActivationEligibilityEpoch,
        i,
        eligibility,
    );
    set_word(validators, Column::ActivationEpoch, i, activation);
    set_word(validators, Column::ExitEpoch, i, exit);
    set_word(validators, Column::WithdrawableEpoch, i, withdrawable);
    set_word(validators, Column::Balance, i, balance);
}

// One validator more, behind the first n.
pub fn push_validator(identities: &mut [u8], validators: &mut [u64], n: usize, v: Validator)
    requires { (n < identities_fit identities.old) × (n < validators_fit validators.old) }
    ensures { ValidatorPushed n (plain_validator v)
        identities.old validators.old identities.new validators.new }
{
    let credentials = credentials_place(identities, ValidatorIndex(n));
    put_bytes(identities, 48 * n, v.public_key);
    put_bytes(identities, credentials, v.withdrawal_credentials);
    put_row(validators, n, v.words());
}

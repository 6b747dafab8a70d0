// Voluntary exits, and the exit that a request and a voluntary exit share.

#![tactic(auto)]

ghost use Rattle.std.specs.Prelude.{◌≡◌, List, ℕ, ◌+◌, ◌<◌, ◌≤◌};
ghost use Rattle.rules.specs.Types.{FAR};
ghost use Rattle.rules.specs.Helpers.{initiate_validator_exit};
ghost use Rattle.rules.specs.BlockProcessing.{voluntary_exit_refusal};
ghost use Rattle.rules.specs.Calls.{handed_refusal, voluntary_exit};
ghost use Rattle.rule_laws.specs.Accepted.{SoundBooks};
ghost use Rattle.primitives.specs.Answers.{answer_number, answer_or};
ghost use Rattle.primitives.specs.Settings.{settings_of};
ghost use Rattle.records.specs.Layout.{exit_epoch_at, identities_fit};
ghost use Rattle.records.specs.Books.{tables, books_of, room_of, Called};
ghost use Rattle.helpers.specs.Ready.{Registry, Accounts, Partials};
ghost use Rattle.call_answers.specs.Answers.{Judged};

use primitives::answers::Refusal;
use primitives::sound::SoundSettings;
use primitives::{BOUND, Epoch, FAR_FUTURE_EPOCH, Scalars, Settings, ValidatorIndex};
use records::books::Books;

// The exit of a validator that has not begun its exit, unless an epoch that it writes is over the bound.
// Registry and Accounts stay clauses: the one ties the scalars to a table that the call writes, and the other is of
// scalars that a call alters.
pub fn exit_within_bound(
    sound: SoundSettings,
    scalars: Scalars,
    validators: &mut [u64],
    i: ValidatorIndex,
) -> Result<Scalars, Refusal>
    requires registry { Registry scalars validators.old }
    requires accounts { Accounts scalars }
    requires not_begun { (i.0 < scalars.validators) × (exit_epoch_at validators.old i.0 ≡ FAR) }
    ensures { (ids ds ps cs : List ℕ)
        → SoundBooks (settings_of sound.settings) (books_of scalars (tables ids validators.old ds ps cs))
        → Judged (settings_of sound.settings)
        (initiate_validator_exit (settings_of sound.settings) i.0) scalars
        (tables ids validators.old ds ps cs) (tables ids validators.new ds ps cs)
        (answer_number result) (answer_or scalars result) }
{
    let a = helpers::exits::assign_exit(sound, scalars, validators, i);
    let withdrawable = helpers::exits::withdrawable_epoch(sound.settings, a);
    if BOUND < withdrawable.0 {
        return Err(Refusal::ResultEpochOverBound);
    }
    let begun = helpers::exits::begin_exit(sound.settings, scalars, validators, i, a);
    Ok(begun)
}

// The first test of a voluntary exit that fails; Ok where none does. The time active counts from the activation epoch.
pub fn voluntary_exit_refusal(
    sound: SoundSettings,
    books: &Books<'_>,
    i: ValidatorIndex,
    epoch: Epoch,
    valid: bool,
) -> Result<(), Refusal>
    requires identities_room { books.now.scalars.validators ≤ identities_fit books.now.identities.now }
    requires registry { Registry books.now.scalars books.now.validators.now }
    requires accounts { Accounts books.now.scalars }
    requires partials { Partials books.now.scalars books.now.partials.now }
    ensures { (ds cs : List ℕ)
        → answer_number result
        ≡ voluntary_exit_refusal (settings_of sound.settings)
        (books_of books.now.scalars
        (tables books.now.identities.now books.now.validators.now ds books.now.partials.now cs))
        i.0 epoch.0 valid }
{
    let scalars = books.scalars;
    let current_epoch = scalars.epoch;
    if scalars.validators <= i.0 {
        return Err(Refusal::NoSuchValidator);
    }
    let v = records::registry::validator_at(books.identities, books.validators, i);
    if !v.is_active_validator(current_epoch) {
        return Err(Refusal::NotActive);
    }
    if v.exit_epoch.0 != FAR_FUTURE_EPOCH {
        return Err(Refusal::ExitBegun);
    }
    if current_epoch.0 < epoch.0 {
        return Err(Refusal::StatedEpochAhead);
    }
    if current_epoch.0 < v.activation_epoch.0 + sound.settings.shard_committee_period {
        return Err(Refusal::ActiveTooShort);
    }
    let pending = helpers::lookups::get_pending_balance_to_withdraw(scalars, books.partials, i);
    if pending.0 != 0 {
        return Err(Refusal::PartialsWaiting);
    }
    if !valid {
        return Err(Refusal::BadSignature);
    }
    Ok(())
}

// The tables stay apart, and their test a clause over them: the call writes some and only reads the others, as C lends
// them.
pub fn process_voluntary_exit(
    settings: Settings,
    scalars: Scalars,
    identities: &[u8],
    validators: &mut [u64],
    deposits: &[u64],
    partials: &[u64],
    consolidations: &[u64],
    i: ValidatorIndex,
    epoch: Epoch,
    valid: bool,
) -> Result<Scalars, Refusal>
    requires { handed_refusal (settings_of settings)
        (books_of scalars
        (tables identities.now validators.old deposits.now partials.now consolidations.now))
        (room_of (tables identities.now validators.old deposits.now partials.now consolidations.now))
        ≡ 0 }
    ensures { Called (settings_of settings) (voluntary_exit i.0 epoch.0 valid) scalars
        (tables identities.now validators.old deposits.now
        partials.now consolidations.now)
        (tables identities.now validators.new deposits.now
        partials.now consolidations.now)
        (answer_number result) (answer_or scalars result) }
{
    let sound = SoundSettings { settings };
    let books = Books {
        scalars,
        identities,
        validators,
        deposits,
        partials,
        consolidations,
    };
    voluntary_exit_refusal(sound, &books, i, epoch, valid)?;
    exit_within_bound(sound, scalars, validators, i)
}

// The turn of an epoch on books that the tests accepted.

#![tactic(auto)]

ghost use Rattle.std.specs.Prelude.{◌≡◌};
ghost use Rattle.rules.specs.Calls.{handed_refusal, turn};
ghost use Rattle.primitives.specs.Answers.{answer_number, answer_or};
ghost use Rattle.primitives.specs.Settings.{settings_of};
ghost use Rattle.records.specs.Books.{tables, books_of, room_of, Called};

use primitives::answers::Refusal;
use primitives::sound::SoundSettings;
use primitives::{BOUND, Scalars, Settings};
use records::books::Books;

// The three steps, then the next epoch.
// The tables stay apart: the call writes some and only reads the others, as C lends them.
pub fn turn_accepted(
    settings: Settings,
    scalars: Scalars,
    identities: &mut [u8],
    validators: &mut [u64],
    deposits: &mut [u64],
    partials: &[u64],
    consolidations: &mut [u64],
) -> Result<Scalars, Refusal>
    requires { handed_refusal (settings_of settings)
        (books_of scalars
        (tables identities.old validators.old deposits.old partials.now consolidations.old))
        (room_of (tables identities.old validators.old deposits.old partials.now consolidations.old))
        ≡ 0 }
    ensures { Called (settings_of settings) turn scalars
        (tables identities.old validators.old deposits.old
        partials.now consolidations.old)
        (tables identities.new validators.new deposits.new
        partials.now consolidations.new) (answer_number result) (answer_or scalars result) }
{
    let sound = SoundSettings { settings };
    let allowance = helpers::churn::get_activation_exit_churn_limit(sound, scalars, validators);
    let books = Books {
        scalars,
        identities,
        validators,
        deposits,
        partials,
        consolidations,
    };
    if !queue_room::turn_fits(settings, &books, allowance) {
        return Err(Refusal::ResultOverLimit);
    }
    if BOUND <= scalars.epoch.0 {
        return Err(Refusal::ResultEpochOverBound);
    }
    let after = epoch_processing::turn(
        sound,
        scalars,
        identities,
        validators,
        deposits,
        partials,
        consolidations,
        allowance,
    );
    Ok(after)
}

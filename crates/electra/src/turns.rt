// The turn of an epoch.
ghost use Rattle.rules.specs.Calls.{turn};
ghost use Rattle.primitives.specs.Answers.{answer_number, answer_or};
ghost use Rattle.primitives.specs.Settings.{settings_of};
ghost use Rattle.records.specs.Books.{tables, Called};

use primitives::answers::Refusal;
use primitives::{Scalars, Settings};
use records::books::Books;

// The three steps, then the next epoch.
// The tables stay apart: the call writes some and only reads the others, as C lends them.
pub fn turn(
    settings: Settings,
    scalars: Scalars,
    identities: &mut [u8],
    validators: &mut [u64],
    deposits: &mut [u64],
    partials: &[u64],
    consolidations: &mut [u64],
) -> Result<Scalars, Refusal>
    ensures { Called (settings_of settings) turn scalars
        (tables identities.old validators.old deposits.old
        partials.now consolidations.old)
        (tables identities.new validators.new deposits.new
        partials.now consolidations.new) (answer_number result) (answer_or scalars result) }
{
    acceptance::accept(
        settings,
        &Books {
            scalars,
            identities,
            validators,
            deposits,
            partials,
            consolidations,
        },
    )?;
    epoch_turns::turn_accepted(
        settings,
        scalars,
        identities,
        validators,
        deposits,
        partials,
        consolidations,
    )
}

// A voluntary exit.
ghost use Rattle.rules.specs.Calls.{voluntary_exit};
ghost use Rattle.primitives.specs.Answers.{answer_number, answer_or};
ghost use Rattle.primitives.specs.Settings.{settings_of};
ghost use Rattle.records.specs.Books.{tables, Called};

use primitives::answers::Refusal;
use primitives::{Epoch, Scalars, Settings, ValidatorIndex};
use records::books::Books;

// `valid` says whether the signature is good.
// The tables stay apart: the call writes some and only reads the others, as C lends them. The call stays a function of
// its own: exits and requests are two operations of the text.
pub fn process_voluntary_exit(
    settings: Settings,
    scalars: Scalars,
    identities: &[u8],
    validators: &mut [u64],
    deposits: &[u64],
    partials: &[u64],
    consolidations: &[u64],
    i: ValidatorIndex,
    epoch: Epoch,
    valid: bool,
) -> Result<Scalars, Refusal>
    ensures { Called (settings_of settings)
        (voluntary_exit i.0 epoch.0 valid) scalars
        (tables identities.now validators.old deposits.now
        partials.now consolidations.now)
        (tables identities.now validators.new deposits.now
        partials.now consolidations.now) (answer_number result) (answer_or scalars result) }
{
    acceptance::accept(
        settings,
        &Books {
            scalars,
            identities,
            validators,
            deposits,
            partials,
            consolidations,
        },
    )?;
    exit_operations::process_voluntary_exit(
        settings,
        scalars,
        identities,
        validators,
        deposits,
        partials,
        consolidations,
        i,
        epoch,
        valid,
    )
}

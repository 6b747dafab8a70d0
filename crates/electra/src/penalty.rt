// A penalty takes from a balance, which stops at 0.
ghost use Rattle.rules.specs.Calls.{penalty};
ghost use Rattle.primitives.specs.Answers.{answer_number, answer_or};
ghost use Rattle.primitives.specs.Settings.{settings_of};
ghost use Rattle.records.specs.Books.{tables, Called};

use primitives::answers::Refusal;
use primitives::{Gwei, Scalars, Settings, ValidatorIndex};
use records::books::Books;

// The tables stay apart: the call writes some and only reads the others, as C lends them.
pub fn penalty(
    settings: Settings,
    scalars: Scalars,
    identities: &[u8],
    validators: &mut [u64],
    deposits: &[u64],
    partials: &[u64],
    consolidations: &[u64],
    i: ValidatorIndex,
    amount: Gwei,
) -> Result<Scalars, Refusal>
    ensures { Called (settings_of settings) (penalty i.0 amount.0) scalars
        (tables identities.now validators.old deposits.now
        partials.now consolidations.now)
        (tables identities.now validators.new deposits.now
        partials.now consolidations.now) (answer_number result) (answer_or scalars result) }
{
    acceptance::accept(
        settings,
        &Books {
            scalars,
            identities,
            validators,
            deposits,
            partials,
            consolidations,
        },
    )?;
    rewards::penalty::penalty_accepted(
        settings,
        scalars,
        identities,
        validators,
        deposits,
        partials,
        consolidations,
        i,
        amount,
    )
}

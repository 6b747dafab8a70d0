// A reward adds to a balance.
ghost use Rattle.rules.specs.Calls.{reward};
ghost use Rattle.primitives.specs.Answers.{answer_number, answer_or};
ghost use Rattle.primitives.specs.Settings.{settings_of};
ghost use Rattle.records.specs.Books.{tables, Called};

use primitives::answers::Refusal;
use primitives::{Gwei, Scalars, Settings, ValidatorIndex};
use records::books::Books;

// The tables stay apart: the call writes some and only reads the others, as C lends them.
pub fn reward(
    settings: Settings,
    scalars: Scalars,
    identities: &[u8],
    validators: &mut [u64],
    deposits: &[u64],
    partials: &[u64],
    consolidations: &[u64],
    i: ValidatorIndex,
    amount: Gwei,
) -> Result<Scalars, Refusal>
    ensures { Called (settings_of settings) (reward i.0 amount.0) scalars
        (tables identities.now validators.old deposits.now
        partials.now consolidations.now)
        (tables identities.now validators.new deposits.now
        partials.now consolidations.now) (answer_number result) (answer_or scalars result) }
{
    let held = acceptance::accept(
        settings,
        &Books {
            scalars,
            identities,
            validators,
            deposits,
            partials,
            consolidations,
        },
    )?;
    let sums = acceptance::sum_within(held, amount);
    rewards::reward::reward_accepted(
        settings,
        scalars,
        identities,
        validators,
        deposits,
        partials,
        consolidations,
        i,
        amount,
        sums,
    )
}

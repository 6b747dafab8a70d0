// The consolidation step alone.
ghost use Rattle.rules.specs.Calls.{pending_consolidations};
ghost use Rattle.primitives.specs.Answers.{answer_number, answer_or};
ghost use Rattle.primitives.specs.Settings.{settings_of};
ghost use Rattle.records.specs.Books.{tables, Called};

use primitives::answers::Refusal;
use primitives::{Scalars, Settings};
use records::books::Books;

// Whether the deposit queue will be within its limit is known before the first store.
// The tables stay apart: the call writes some and only reads the others, as C lends them.
pub fn process_pending_consolidations(
    settings: Settings,
    scalars: Scalars,
    identities: &mut [u8],
    validators: &mut [u64],
    deposits: &mut [u64],
    partials: &[u64],
    consolidations: &mut [u64],
) -> Result<Scalars, Refusal>
    ensures { Called (settings_of settings) pending_consolidations scalars
        (tables identities.old validators.old deposits.old
        partials.now consolidations.old)
        (tables identities.new validators.new deposits.new
        partials.now consolidations.new) (answer_number result) (answer_or scalars result) }
{
    let books = Books {
        scalars,
        identities,
        validators,
        deposits,
        partials,
        consolidations,
    };
    acceptance::accept(settings, &books)?;
    if !queue_room::consolidations_fit(settings, &books) {
        return Err(Refusal::ResultOverLimit);
    }
    let after = pending_consolidations::process_pending_consolidations(
        settings,
        scalars,
        identities,
        validators,
        deposits,
        partials,
        consolidations,
    );
    Ok(after)
}

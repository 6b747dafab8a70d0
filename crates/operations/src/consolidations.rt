// A consolidation of one validator into another.
ghost use Rattle.rules.specs.Calls.{consolidation};
ghost use Rattle.primitives.specs.Answers.{answer_number, answer_or};
ghost use Rattle.primitives.specs.Settings.{settings_of};
ghost use Rattle.records.specs.Books.{tables, Called};

use primitives::answers::Refusal;
use primitives::{Epoch, Scalars, Settings, ValidatorIndex};
use records::books::Books;

// `valid` says whether the signature is good.
// The tables stay apart: the call writes some and only reads the others, as C lends them.
pub fn process_consolidation(
    settings: Settings,
    scalars: Scalars,
    identities: &[u8],
    validators: &mut [u64],
    deposits: &[u64],
    partials: &[u64],
    consolidations: &mut [u64],
    source: ValidatorIndex,
    target: ValidatorIndex,
    epoch: Epoch,
    valid: bool,
) -> Result<Scalars, Refusal>
    ensures { Called (settings_of settings)
        (consolidation source.0 target.0 epoch.0 valid) scalars
        (tables identities.now validators.old deposits.now
        partials.now consolidations.old)
        (tables identities.now validators.new deposits.now
        partials.now consolidations.new) (answer_number result) (answer_or scalars result) }
{
    acceptance::accept(
        settings,
        &Books {
            scalars,
            identities,
            validators,
            deposits,
            partials,
            consolidations,
        },
    )?;
    consolidation_operations::process_consolidation(
        settings,
        scalars,
        identities,
        validators,
        deposits,
        partials,
        consolidations,
        source,
        target,
        epoch,
        valid,
    )
}

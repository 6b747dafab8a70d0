// The effective balance step alone.
ghost use Rattle.rules.specs.Calls.{effective_balance_updates};
ghost use Rattle.primitives.specs.Answers.{answer_number, answer_or};
ghost use Rattle.primitives.specs.Settings.{settings_of};
ghost use Rattle.records.specs.Books.{tables, Called};

use primitives::answers::Refusal;
use primitives::sound::SoundSettings;
use primitives::{Scalars, Settings};
use records::books::Books;

// The tables stay apart: the call writes some and only reads the others, as C lends them.
pub fn process_effective_balance_updates(
    settings: Settings,
    scalars: Scalars,
    identities: &[u8],
    validators: &mut [u64],
    deposits: &[u64],
    partials: &[u64],
    consolidations: &[u64],
) -> Result<Scalars, Refusal>
    ensures { Called (settings_of settings) effective_balance_updates scalars
        (tables identities.now validators.old deposits.now
        partials.now consolidations.now)
        (tables identities.now validators.new deposits.now
        partials.now consolidations.now) (answer_number result) (answer_or scalars result) }
{
    acceptance::accept(
        settings,
        &Books {
            scalars,
            identities,
            validators,
            deposits,
            partials,
            consolidations,
        },
    )?;
    let sound = SoundSettings { settings };
    let after = epoch_processing::effective_balances::process_effective_balance_updates(
        sound, scalars, identities, validators,
    );
    Ok(after)
}

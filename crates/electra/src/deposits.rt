// The deposit step alone.
ghost use Rattle.rules.specs.Calls.{pending_balance_deposits};
ghost use Rattle.primitives.specs.Answers.{answer_number, answer_or};
ghost use Rattle.primitives.specs.Settings.{settings_of};
ghost use Rattle.records.specs.Books.{tables, Called};

use primitives::answers::Refusal;
use primitives::sound::SoundSettings;
use primitives::{Scalars, Settings};
use records::books::Books;

// The tables stay apart: the call writes some and only reads the others, as C lends them.
pub fn process_pending_balance_deposits(
    settings: Settings,
    scalars: Scalars,
    identities: &[u8],
    validators: &mut [u64],
    deposits: &mut [u64],
    partials: &[u64],
    consolidations: &[u64],
) -> Result<Scalars, Refusal>
    ensures { Called (settings_of settings) pending_balance_deposits scalars
        (tables identities.now validators.old deposits.old
        partials.now consolidations.now)
        (tables identities.now validators.new deposits.new
        partials.now consolidations.now) (answer_number result) (answer_or scalars result) }
{
    acceptance::accept(
        settings,
        &Books {
            scalars,
            identities,
            validators,
            deposits,
            partials,
            consolidations,
        },
    )?;
    let sound = SoundSettings { settings };
    let allowance = helpers::churn::get_activation_exit_churn_limit(sound, scalars, validators);
    let after = pending_deposits::process_pending_balance_deposits(
        sound,
        scalars,
        identities,
        validators,
        deposits,
        partials,
        consolidations,
        allowance,
    );
    Ok(after)
}

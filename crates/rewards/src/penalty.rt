// A penalty takes from a balance, which stops at 0.
ghost use Rattle.std.specs.Prelude.{◌≡◌};
ghost use Rattle.rules.specs.Calls.{handed_refusal, penalty};
ghost use Rattle.primitives.specs.Answers.{answer_number, answer_or};
ghost use Rattle.primitives.specs.Settings.{settings_of};
ghost use Rattle.records.specs.Books.{tables, books_of, room_of, Called};

use primitives::answers::Refusal;
use primitives::{Gwei, Scalars, Settings, ValidatorIndex};

// The tables stay apart, and their test a clause over them: the call writes some and only reads the others, as C lends
// them.
pub fn penalty_accepted(
    settings: Settings,
    scalars: Scalars,
    identities: &[u8],
    validators: &mut [u64],
    deposits: &[u64],
    partials: &[u64],
    consolidations: &[u64],
    i: ValidatorIndex,
    amount: Gwei,
) -> Result<Scalars, Refusal>
    requires { handed_refusal (settings_of settings)
        (books_of scalars
        (tables identities.now validators.old deposits.now partials.now consolidations.now))
        (room_of (tables identities.now validators.old deposits.now partials.now consolidations.now))
        ≡ 0 }
    ensures { Called (settings_of settings) (penalty i.0 amount.0) scalars
        (tables identities.now validators.old deposits.now
        partials.now consolidations.now)
        (tables identities.now validators.new deposits.now
        partials.now consolidations.now) (answer_number result) (answer_or scalars result) }
{
    if scalars.validators <= i.0 {
        return Err(Refusal::NoSuchValidator);
    }
    records::registry::decrease_balance(validators, i, amount);
    Ok(scalars)
}

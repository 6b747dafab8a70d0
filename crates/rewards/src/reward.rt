// A reward adds to a balance.
ghost use Rattle.std.specs.Prelude.{◌≡◌, ◌+◌, leb};
ghost use Rattle.rules.specs.Types as rule;
ghost use Rattle.rules.specs.Acceptance.{held};
ghost use Rattle.rules.specs.Calls.{handed_refusal, reward};
ghost use Rattle.primitives.specs.Answers.{answer_number, answer_or};
ghost use Rattle.primitives.specs.Settings.{settings_of};
ghost use Rattle.records.specs.Books.{tables, books_of, room_of, Called};

use primitives::answers::Refusal;
use primitives::{Gwei, Scalars, Settings, ValidatorIndex};

// On books that the tests accepted. `sums` says whether the result's sums are within the bound.
// The tables stay apart, and their test a clause over them: the call writes some and only reads the others, as C lends
// them.
pub fn reward_accepted(
    settings: Settings,
    scalars: Scalars,
    identities: &[u8],
    validators: &mut [u64],
    deposits: &[u64],
    partials: &[u64],
    consolidations: &[u64],
    i: ValidatorIndex,
    amount: Gwei,
    sums: bool,
) -> Result<Scalars, Refusal>
    requires accepted { handed_refusal (settings_of settings)
        (books_of scalars
        (tables identities.now validators.old deposits.now partials.now consolidations.now))
        (room_of (tables identities.now validators.old deposits.now partials.now consolidations.now))
        ≡ 0 }
    requires sums_within { sums
        ≡ leb (held (books_of scalars
        (tables identities.now validators.old deposits.now partials.now consolidations.now))
        + amount.0) rule.BOUND }
    ensures { Called (settings_of settings) (reward i.0 amount.0) scalars
        (tables identities.now validators.old deposits.now
        partials.now consolidations.now)
        (tables identities.now validators.new deposits.now
        partials.now consolidations.now) (answer_number result) (answer_or scalars result) }
{
    if scalars.validators <= i.0 {
        return Err(Refusal::NoSuchValidator);
    }
    if !sums {
        return Err(Refusal::ResultSumsOverBound);
    }
    records::registry::increase_balance(validators, i, amount);
    Ok(scalars)
}

// The withdrawals of a block.

// The tables stay apart: a call writes some and only reads the others, as C lends them. A list stays an array and a
// count: so the exported call hands it, and the count may be above sixteen.

ghost use Rattle.std.specs.Prelude.{◌≡◌};
ghost use Rattle.rules.specs.Calls.{handed_refusal, withdrawals};
ghost use Rattle.expected_withdrawals.specs.Expected.{handed_list};
ghost use Rattle.primitives.specs.Answers.{answer_number, answer_or};
ghost use Rattle.primitives.specs.Settings.{settings_of};
ghost use Rattle.records.specs.Books.{tables, books_of, room_of, Called};

use expected_withdrawals::Withdrawal;
use primitives::answers::Refusal;
use primitives::sound::SoundSettings;
use primitives::{BOUND, Scalars, Settings};
use records::books::Books;

// On books that the tests accepted. The first n records of the list are the withdrawals; the others are not looked at.
pub fn process_withdrawals_accepted(
    settings: Settings,
    scalars: Scalars,
    identities: &[u8],
    validators: &mut [u64],
    deposits: &[u64],
    partials: &mut [u64],
    consolidations: &[u64],
    list: [Withdrawal; 16],
    n: usize,
) -> Result<Scalars, Refusal>
    requires { handed_refusal (settings_of settings)
        (books_of scalars
        (tables identities.now validators.old deposits.now partials.old consolidations.now))
        (room_of (tables identities.now validators.old deposits.now partials.old consolidations.now))
        ≡ 0 }
    ensures { Called (settings_of settings)
        (withdrawals (handed_list list n)) scalars
        (tables identities.now validators.old deposits.now
        partials.old consolidations.now)
        (tables identities.now validators.new deposits.now
        partials.new consolidations.now) (answer_number result) (answer_or scalars result) }
{
    let books = Books {
        scalars,
        identities,
        validators,
        deposits,
        partials,
        consolidations,
    };
    let expected = expected_withdrawals::get_expected_withdrawals(settings, &books);
    withdrawals::withdrawals_refusal(list, n, expected)?;
    let next = withdrawals::next_index(scalars, list, n);
    if BOUND < next.0 {
        return Err(Refusal::ResultEpochOverBound);
    }
    let sound = SoundSettings { settings };
    let after = withdrawals::process_withdrawals(
        sound,
        scalars,
        identities,
        validators,
        deposits,
        partials,
        consolidations,
        list,
        n,
        expected,
    );
    Ok(after)
}

// The first n records of the list are the withdrawals; the others are not looked at.
pub fn process_withdrawals(
    settings: Settings,
    scalars: Scalars,
    identities: &[u8],
    validators: &mut [u64],
    deposits: &[u64],
    partials: &mut [u64],
    consolidations: &[u64],
    list: [Withdrawal; 16],
    n: usize,
) -> Result<Scalars, Refusal>
    ensures { Called (settings_of settings)
        (withdrawals (handed_list list n)) scalars
        (tables identities.now validators.old deposits.now
        partials.old consolidations.now)
        (tables identities.now validators.new deposits.now
        partials.new consolidations.now) (answer_number result) (answer_or scalars result) }
{
    acceptance::accept(
        settings,
        &Books {
            scalars,
            identities,
            validators,
            deposits,
            partials,
            consolidations,
        },
    )?;
    process_withdrawals_accepted(
        settings,
        scalars,
        identities,
        validators,
        deposits,
        partials,
        consolidations,
        list,
        n,
    )
}

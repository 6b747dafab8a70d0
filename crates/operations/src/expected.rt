// The withdrawals that the next list must name.
ghost use Rattle.std.specs.Prelude.{◌≡◌};
ghost use Rattle.rules.specs.Calls.{handed_refusal};
ghost use Rattle.primitives.specs.Answers.{answer_number, answer_or};
ghost use Rattle.primitives.specs.Settings.{settings_of};
ghost use Rattle.records.specs.Lent.{plain_books, lent_room};
ghost use Rattle.expected_withdrawals.specs.Expected.{no_withdrawals};
ghost use Rattle.operations.specs.Expected.{expected_given};

use expected_withdrawals::ExpectedWithdrawals;
use primitives::Settings;
use primitives::answers::Refusal;
use records::books::Books;

// A refusal has no list.
pub fn get_expected_withdrawals(
    settings: Settings,
    books: &Books<'_>,
) -> Result<ExpectedWithdrawals, Refusal>
    ensures answered { answer_number result
        ≡ handed_refusal (settings_of settings) (plain_books books.now) (lent_room books.now) }
    ensures listed { answer_or no_withdrawals result
        ≡ expected_given (settings_of settings) (plain_books books.now) (lent_room books.now) }
{
    acceptance::accept(settings, books)?;
    Ok(expected_withdrawals::get_expected_withdrawals(settings, books))
}

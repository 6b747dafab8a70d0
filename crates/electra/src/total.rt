// The sum that calls conserve.
ghost use Rattle.std.specs.Prelude.{◌≡◌};
ghost use Rattle.rules.specs.Calls.{handed_refusal};
ghost use Rattle.primitives.specs.Answers.{answer_number, sum_of};
ghost use Rattle.primitives.specs.Settings.{settings_of};
ghost use Rattle.records.specs.Lent.{plain_books, lent_room};
ghost use Rattle.acceptance.specs.Total.{total_given};

use primitives::answers::Refusal;
use primitives::{Gwei, Settings};
use records::books::Books;

// Balances plus waiting deposits.
pub fn held(settings: Settings, books: &Books<'_>) -> Result<Gwei, Refusal>
    ensures number { answer_number result
        ≡ handed_refusal (settings_of settings) (plain_books books.now) (lent_room books.now) }
    ensures sum { sum_of result
        ≡ total_given (settings_of settings) (plain_books books.now) (lent_room books.now) }
{
    acceptance::accept(settings, books)
}

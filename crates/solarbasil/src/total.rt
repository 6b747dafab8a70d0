// The sum that calls conserve, for other languages.
ghost use Rattle.std.specs.Prelude.{◌≡◌, []};
ghost use Rattle.rules.specs.Acceptance.{held};
ghost use Rattle.records.specs.Books.{tables, books_of};
ghost use Rattle.slices.specs.Numbers.{scalars_in};
ghost use Rattle.slices.specs.Exported.{asked_answer, given};

use primitives::answers;
use records::books::Books;

// Balances plus waiting deposits; a refusal leaves `total` as it was.
// The tables stay apart: C lends each by itself, and all const.
#[unsafe(no_mangle)]
pub extern "C" fn solarbasil_total(
    settings: &[u64],
    scalars: &[u64],
    identities: &[u8],
    validators: &[u64],
    deposits: &[u64],
    partials: &[u64],
    consolidations: &[u64],
    total: &mut u64,
) -> u8
    ensures answer { result
        ≡ asked_answer settings.now []
        (tables identities.now validators.now deposits.now
        partials.now consolidations.now) scalars.now }
    ensures total_given { total.new
        ≡ given result
        (held (books_of (scalars_in scalars.now)
        (tables identities.now validators.now deposits.now
        partials.now consolidations.now))) total.old }
{
    let chain = slices::settings_from(settings);
    if !slices::scalars_fit(scalars) {
        return slices::unfit_answer(chain);
    }
    let before = slices::scalars_from(scalars);
    let books = Books {
        scalars: before,
        identities,
        validators,
        deposits,
        partials,
        consolidations,
    };
    match electra::total::held(chain, &books) {
        Ok(sum) => {
            *total = sum.0;
            answers::DONE
        }
        Err(refusal) => refusal.number(),
    }
}

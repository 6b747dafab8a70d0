// The writer of a books file, for other languages.
ghost use Rattle.records.specs.Books.{tables};
ghost use Rattle.file_slices.specs.Written.{ExportedWritten};

use primitives::answers;
use records::books::Books;

// `written` is how many bytes the file has.
// A number stays the answer, and the tables stay apart: C takes a number, and lends each table by itself.
pub fn write_books(
    settings: &[u64],
    scalars: &[u64],
    identities: &[u8],
    validators: &[u64],
    deposits: &[u64],
    partials: &[u64],
    consolidations: &[u64],
    out: &mut [u8],
    written: &mut u64,
) -> u8
    ensures { ExportedWritten settings.now scalars.now
        (tables identities.now validators.now deposits.now
        partials.now consolidations.now)
        out.old out.new result written.old written.new }
{
    let chain = slices::settings_from(settings);
    if !slices::scalars_fit(scalars) {
        return slices::unfit_answer(chain);
    }
    let numbers = slices::scalars_from(scalars);
    let books = Books {
        scalars: numbers,
        identities,
        validators,
        deposits,
        partials,
        consolidations,
    };
    match books_writer::write_books(chain, &books, out) {
        Ok(length) => {
            *written = length as u64;
            answers::DONE
        }
        Err(refusal) => refusal.number(),
    }
}

// The reader of a books file, for other languages.

// Numbers stay the answers in this file, and the tables stay apart: C takes a number, and lends each table by itself.

ghost use Rattle.std.specs.Prelude.{◌≡◌, [], ◌∷◌, leb, length};
ghost use Rattle.records.specs.Books.{tables};
ghost use Rattle.file_format.specs.File.{read_books};
ghost use Rattle.slices.specs.Exported.{fit};
ghost use Rattle.file_slices.specs.Read.{unfit_opened, ExportedRead};

use books_file::{BooksFile, books_file_ok};
use primitives::answers::{self, Refusal};

fn read_fits(settings: &[u64], scalars: &[u64]) -> bool
    ensures { result ≡ fit scalars.now (leb 19 (length settings.now) ∷ []) }
{
    (slices::SCALARS <= scalars.len()) & (slices::SETTINGS <= settings.len())
}

// What is answered where the settings or the scalars of the file have no room.
fn unfit_answer(file: &[u8]) -> u8
    ensures { result ≡ unfit_opened (read_books file.now) }
{
    if !books_file_ok(file) {
        return Refusal::BrokenFile.number();
    }
    slices::unfit_answer(file_records::settings_at(BooksFile { bytes: file }))
}

pub fn read_books(
    settings: &mut [u64],
    scalars: &mut [u64],
    identities: &mut [u8],
    validators: &mut [u64],
    deposits: &mut [u64],
    partials: &mut [u64],
    consolidations: &mut [u64],
    file: &[u8],
) -> u8
    ensures { ExportedRead file.now
        (tables identities.old validators.old deposits.old
        partials.old consolidations.old)
        (tables identities.new validators.new deposits.new
        partials.new consolidations.new)
        settings.old settings.new scalars.old scalars.new result }
{
    if !read_fits(settings, scalars) {
        return unfit_answer(file);
    }
    let opened = books_reader::read_books(
        file,
        identities,
        validators,
        deposits,
        partials,
        consolidations,
    );
    match opened {
        Ok(opened) => {
            slices::store_settings(settings, opened.settings);
            slices::store_scalars(scalars, opened.scalars);
            answers::DONE
        }
        Err(refusal) => refusal.number(),
    }
}

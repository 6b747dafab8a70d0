// The reader of a books file, for other languages.
ghost use Rattle.records.specs.Books.{tables};
ghost use Rattle.file_slices.specs.Read.{ExportedRead};

// The settings take nineteen numbers, the scalars thirteen; where one has no room for them, it is a short buffer.
// The tables stay apart: C lends each by itself.
#[unsafe(no_mangle)]
pub extern "C" fn solarbasil_read_books(
    settings: &mut [u64],
    scalars: &mut [u64],
    identities: &mut [u8],
    validators: &mut [u64],
    deposits: &mut [u64],
    partials: &mut [u64],
    consolidations: &mut [u64],
    file: &[u8],
) -> u8
    ensures { ExportedRead file.now
        (tables identities.old validators.old deposits.old
        partials.old consolidations.old)
        (tables identities.new validators.new deposits.new
        partials.new consolidations.new)
        settings.old settings.new scalars.old scalars.new result }
{
    file_slices::reader::read_books(
        settings,
        scalars,
        identities,
        validators,
        deposits,
        partials,
        consolidations,
        file,
    )
}

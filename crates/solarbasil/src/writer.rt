// The writer of a books file, for other languages.
ghost use Rattle.records.specs.Books.{tables};
ghost use Rattle.file_slices.specs.Written.{ExportedWritten};

// The file stands at the start of `out`, and `written` is how many bytes it has; a refusal leaves both as they were.
// The tables stay apart: C lends each by itself, and all const.
#[unsafe(no_mangle)]
pub extern "C" fn solarbasil_write_books(
    settings: &[u64],
    scalars: &[u64],
    identities: &[u8],
    validators: &[u64],
    deposits: &[u64],
    partials: &[u64],
    consolidations: &[u64],
    out: &mut [u8],
    written: &mut u64,
) -> u8
    ensures { ExportedWritten settings.now scalars.now
        (tables identities.now validators.now deposits.now
        partials.now consolidations.now)
        out.old out.new result written.old written.new }
{
    file_slices::writer::write_books(
        settings,
        scalars,
        identities,
        validators,
        deposits,
        partials,
        consolidations,
        out,
        written,
    )
}

// The calls of a file, carried out for other languages.
ghost use Rattle.records.specs.Books.{tables};
ghost use Rattle.file_slices.specs.Carried.{ExportedCarried};

// `count` is how many calls were carried out; the results begin with three numbers of each: its code, its answer, and
// the sum that the books hold after it. A refusal leaves all as it was.
// The tables stay apart: C lends each by itself.
#[unsafe(no_mangle)]
pub extern "C" fn solarbasil_carry_out(
    settings: &[u64],
    scalars: &mut [u64],
    identities: &mut [u8],
    validators: &mut [u64],
    deposits: &mut [u64],
    partials: &mut [u64],
    consolidations: &mut [u64],
    file: &[u8],
    results: &mut [u64],
    count: &mut u64,
) -> u8
    ensures { ExportedCarried settings.now scalars.old scalars.new
        (tables identities.old validators.old deposits.old
        partials.old consolidations.old)
        (tables identities.new validators.new deposits.new
        partials.new consolidations.new)
        file.now results.old results.new result
        count.old count.new }
{
    file_slices::runner::carry_out(
        settings,
        scalars,
        identities,
        validators,
        deposits,
        partials,
        consolidations,
        file,
        results,
        count,
    )
}

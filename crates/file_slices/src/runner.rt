// A calls file carried out, for other languages.
ghost use Rattle.records.specs.Books.{tables};
ghost use Rattle.file_slices.specs.Carried.{ExportedCarried};

use primitives::answers;

// `count` is how many calls were carried out; the results take three numbers of each: its code, its answer, and the sum
// that the books hold after it.
// A number stays the answer, and the tables stay apart: C takes a number, and lends each table by itself.
pub fn carry_out(
    settings: &[u64],
    scalars: &mut [u64],
    identities: &mut [u8],
    validators: &mut [u64],
    deposits: &mut [u64],
    partials: &mut [u64],
    consolidations: &mut [u64],
    file: &[u8],
    results: &mut [u64],
    count: &mut u64,
) -> u8
    ensures { ExportedCarried settings.now scalars.old scalars.new
        (tables identities.old validators.old deposits.old
        partials.old consolidations.old)
        (tables identities.new validators.new deposits.new
        partials.new consolidations.new)
        file.now results.old results.new result
        count.old count.new }
{
    let chain = slices::settings_from(settings);
    if !slices::scalars_fit(scalars) {
        return slices::unfit_answer(chain);
    }
    let before = slices::scalars_from(scalars);
    let carried = runs::carry_out(
        chain,
        before,
        identities,
        validators,
        deposits,
        partials,
        consolidations,
        file,
        results,
    );
    match carried {
        Ok(carried) => {
            slices::store_scalars(scalars, carried.scalars);
            *count = carried.count as u64;
            answers::DONE
        }
        Err(refusal) => refusal.number(),
    }
}

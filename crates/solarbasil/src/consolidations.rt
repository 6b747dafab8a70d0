// A consolidation, for other languages.
ghost use Rattle.std.specs.Prelude.{[]};
ghost use Rattle.rules.specs.Calls.{consolidation};
ghost use Rattle.records.specs.Books.{tables};
ghost use Rattle.slices.specs.Exported.{Exported};

use primitives::{Epoch, ValidatorIndex};

// `valid` says whether the signature is good.
// The tables stay apart: C lends each by itself, some of them const.
#[unsafe(no_mangle)]
pub extern "C" fn solarbasil_process_consolidation(
    settings: &[u64],
    scalars: &mut [u64],
    identities: &[u8],
    validators: &mut [u64],
    deposits: &[u64],
    partials: &[u64],
    consolidations: &mut [u64],
    source: u64,
    target: u64,
    epoch: u64,
    valid: bool,
) -> u8
    ensures { Exported settings.now (consolidation source target epoch valid) []
        (tables identities.now validators.old deposits.now
        partials.now consolidations.old)
        (tables identities.now validators.new deposits.now
        partials.now consolidations.new)
        scalars.old scalars.new result }
{
    let fits = slices::scalars_fit(scalars);
    let mut call = |chain, before| {
        operations::consolidations::process_consolidation(
            chain,
            before,
            identities,
            validators,
            deposits,
            partials,
            consolidations,
            ValidatorIndex(source as usize),
            ValidatorIndex(target as usize),
            Epoch(epoch),
            valid,
        )
    };
    slices::exported(settings, scalars, fits, &mut call)
}

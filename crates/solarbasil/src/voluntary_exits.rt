// A voluntary exit, for other languages.
ghost use Rattle.std.specs.Prelude.{[]};
ghost use Rattle.rules.specs.Calls.{voluntary_exit};
ghost use Rattle.records.specs.Books.{tables};
ghost use Rattle.slices.specs.Exported.{Exported};

use primitives::{Epoch, ValidatorIndex};

// `valid` says whether the signature is good.
// The tables stay apart: C lends each by itself, some of them const.
#[unsafe(no_mangle)]
pub extern "C" fn solarbasil_process_voluntary_exit(
    settings: &[u64],
    scalars: &mut [u64],
    identities: &[u8],
    validators: &mut [u64],
    deposits: &[u64],
    partials: &[u64],
    consolidations: &[u64],
    validator: u64,
    epoch: u64,
    valid: bool,
) -> u8
    ensures { Exported settings.now (voluntary_exit validator epoch valid) []
        (tables identities.now validators.old deposits.now
        partials.now consolidations.now)
        (tables identities.now validators.new deposits.now
        partials.now consolidations.now)
        scalars.old scalars.new result }
{
    let fits = slices::scalars_fit(scalars);
    let mut call = |chain, before| {
        operations::voluntary_exits::process_voluntary_exit(
            chain,
            before,
            identities,
            validators,
            deposits,
            partials,
            consolidations,
            ValidatorIndex(validator as usize),
            Epoch(epoch),
            valid,
        )
    };
    slices::exported(settings, scalars, fits, &mut call)
}

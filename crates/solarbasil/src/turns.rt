// The turn of an epoch, for other languages.
ghost use Rattle.std.specs.Prelude.{[]};
ghost use Rattle.rules.specs.Calls.{turn};
ghost use Rattle.records.specs.Books.{tables};
ghost use Rattle.slices.specs.Exported.{Exported};

// The tables stay apart: C lends each by itself. The function stays beside
// solarbasil_process_effective_balance_updates: C has both names.
#[unsafe(no_mangle)]
pub extern "C" fn solarbasil_turn(
    settings: &[u64],
    scalars: &mut [u64],
    identities: &mut [u8],
    validators: &mut [u64],
    deposits: &mut [u64],
    partials: &[u64],
    consolidations: &mut [u64],
) -> u8
    ensures { Exported settings.now turn []
        (tables identities.old validators.old deposits.old
        partials.now consolidations.old)
        (tables identities.new validators.new deposits.new
        partials.now consolidations.new)
        scalars.old scalars.new result }
{
    let fits = slices::scalars_fit(scalars);
    let mut call = |chain, before| {
        electra::turns::turn(
            chain,
            before,
            identities,
            validators,
            deposits,
            partials,
            consolidations,
        )
    };
    slices::exported(settings, scalars, fits, &mut call)
}

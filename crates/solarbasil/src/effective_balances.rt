// The effective balance step alone, for other languages.
ghost use Rattle.std.specs.Prelude.{[]};
ghost use Rattle.rules.specs.Calls.{effective_balance_updates};
ghost use Rattle.records.specs.Books.{tables};
ghost use Rattle.slices.specs.Exported.{Exported};

// The tables stay apart: C lends each by itself. The function stays beside solarbasil_turn: C has both names.
#[unsafe(no_mangle)]
pub extern "C" fn solarbasil_process_effective_balance_updates(
    settings: &[u64],
    scalars: &mut [u64],
    identities: &[u8],
    validators: &mut [u64],
    deposits: &[u64],
    partials: &[u64],
    consolidations: &[u64],
) -> u8
    ensures { Exported settings.now effective_balance_updates []
        (tables identities.now validators.old deposits.now
        partials.now consolidations.now)
        (tables identities.now validators.new deposits.now
        partials.now consolidations.now)
        scalars.old scalars.new result }
{
    let fits = slices::scalars_fit(scalars);
    let mut call = |chain, before| {
        electra::effective_balances::process_effective_balance_updates(
            chain,
            before,
            identities,
            validators,
            deposits,
            partials,
            consolidations,
        )
    };
    slices::exported(settings, scalars, fits, &mut call)
}

// The withdrawals of a block, for other languages.
ghost use Rattle.std.specs.Prelude.{[], ◌∷◌, ◌/◌, leb, length};
ghost use Rattle.expected_withdrawals.specs.Expected.{handed_list};
ghost use Rattle.slices.specs.Withdrawals.{withdrawals_in};
ghost use Rattle.rules.specs.Calls.{withdrawals};
ghost use Rattle.records.specs.Books.{tables};
ghost use Rattle.slices.specs.Exported.{Exported};

// `count` withdrawals: three numbers each in `records`, twenty bytes each in `addresses`. What stands past them is not
// looked at. Where one of the two is shorter, it is a short buffer.
// The tables stay apart: C lends each by itself, some of them const.
#[unsafe(no_mangle)]
pub extern "C" fn solarbasil_process_withdrawals(
    settings: &[u64],
    scalars: &mut [u64],
    identities: &[u8],
    validators: &mut [u64],
    deposits: &[u64],
    partials: &mut [u64],
    consolidations: &[u64],
    records: &[u64],
    addresses: &[u8],
    count: u64,
) -> u8
    ensures { Exported settings.now
        (withdrawals (handed_list (withdrawals_in records.now addresses.now) count))
        (leb count (length records.now / 3) ∷ leb count (length addresses.now / 20) ∷ [])
        (tables identities.now validators.old deposits.now
        partials.old consolidations.now)
        (tables identities.now validators.new deposits.now
        partials.new consolidations.now)
        scalars.old scalars.new result }
{
    let fits = slices::withdrawals::handed_fit(scalars, records, addresses, count);
    let list = slices::withdrawals::withdrawals_from(records, addresses);
    let mut call = |chain, before| {
        operations::payments::process_withdrawals(
            chain,
            before,
            identities,
            validators,
            deposits,
            partials,
            consolidations,
            list,
            count as usize,
        )
    };
    slices::exported(settings, scalars, fits, &mut call)
}

// The withdrawals that the next list must name, for other languages.
ghost use Rattle.std.specs.Prelude.{◌≡◌, [], ◌∷◌, leb, length};
ghost use Rattle.records.specs.Books.{tables};
ghost use Rattle.slices.specs.Exported.{asked_answer, given};
ghost use Rattle.slices.specs.Withdrawals.{with_records, with_addresses};
ghost use Rattle.solarbasil.specs.Expected.{expected_in};

use primitives::answers;
use records::books::Books;

// Sixteen records of three numbers and sixteen addresses, blank past `count`; of the withdrawals the first
// `partial_count` are partial withdrawals. A refusal leaves all four as they were.
// The tables stay apart: C lends each by itself, and all const.
#[unsafe(no_mangle)]
pub extern "C" fn solarbasil_get_expected_withdrawals(
    settings: &[u64],
    scalars: &[u64],
    identities: &[u8],
    validators: &[u64],
    deposits: &[u64],
    partials: &[u64],
    consolidations: &[u64],
    records: &mut [u64],
    addresses: &mut [u8],
    count: &mut u64,
    partial_count: &mut u64,
) -> u8
    ensures answer { result
        ≡ asked_answer settings.now
        (leb 48 (length records.old) ∷ leb 320 (length addresses.old) ∷ [])
        (tables identities.now validators.now deposits.now
        partials.now consolidations.now) scalars.now }
    ensures records_given { records.new
        ≡ given result (with_records records.old
        (expected_in settings.now scalars.now
        (tables identities.now validators.now deposits.now
        partials.now consolidations.now)).list) records.old }
    ensures addresses_given { addresses.new
        ≡ given result (with_addresses addresses.old
        (expected_in settings.now scalars.now
        (tables identities.now validators.now deposits.now
        partials.now consolidations.now)).list) addresses.old }
    ensures count_given { count.new
        ≡ given result
        (expected_in settings.now scalars.now
        (tables identities.now validators.now deposits.now
        partials.now consolidations.now)).count count.old }
    ensures partial_count_given { partial_count.new
        ≡ given result
        (expected_in settings.now scalars.now
        (tables identities.now validators.now deposits.now
        partials.now consolidations.now)).partials partial_count.old }
{
    let chain = slices::settings_from(settings);
    if !slices::withdrawals::expected_fit(scalars, records, addresses) {
        return slices::unfit_answer(chain);
    }
    let before = slices::scalars_from(scalars);
    let books = Books {
        scalars: before,
        identities,
        validators,
        deposits,
        partials,
        consolidations,
    };
    match operations::expected::get_expected_withdrawals(chain, &books) {
        Ok(found) => {
            slices::withdrawals::store_records(records, found.list);
            slices::withdrawals::store_addresses(addresses, found.list);
            *count = found.count as u64;
            *partial_count = found.partials as u64;
            answers::DONE
        }
        Err(refusal) => refusal.number(),
    }
}

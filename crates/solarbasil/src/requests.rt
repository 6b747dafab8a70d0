// A withdrawal request of the execution layer, for other languages.
ghost use Rattle.std.specs.Prelude.{[], ◌∷◌, eqb, length};
ghost use Rattle.rules.specs.Calls.{withdrawal_request};
ghost use Rattle.records.specs.Books.{tables};
ghost use Rattle.slices.specs.Exported.{Exported};

use primitives::Gwei;

// An address or a key of another length is answered as a short buffer. An amount of 0 asks for a full exit.
// The tables stay apart: C lends each by itself, some of them const.
#[unsafe(no_mangle)]
pub extern "C" fn solarbasil_process_execution_layer_withdrawal_request(
    settings: &[u64],
    scalars: &mut [u64],
    identities: &[u8],
    validators: &mut [u64],
    deposits: &[u64],
    partials: &mut [u64],
    consolidations: &[u64],
    source_address: &[u8],
    public_key: &[u8],
    amount: u64,
) -> u8
    ensures { Exported settings.now
        (withdrawal_request source_address.now public_key.now amount)
        (eqb (length source_address.now) 20 ∷ eqb (length public_key.now) 48 ∷ [])
        (tables identities.now validators.old deposits.now
        partials.old consolidations.now)
        (tables identities.now validators.new deposits.now
        partials.new consolidations.now)
        scalars.old scalars.new result }
{
    // Not by slices::exported: its call may ask nothing, and the copies below need the lengths that are tested here.
    let chain = slices::settings_from(settings);
    if !slices::bytes::request_fits(scalars, source_address, public_key) {
        return slices::unfit_answer(chain);
    }
    let before = slices::scalars_from(scalars);
    let address = slices::bytes::fixed::<20>(source_address);
    let key = slices::bytes::fixed::<48>(public_key);
    let answer = operations::withdrawal_requests::process_execution_layer_withdrawal_request(
        chain,
        before,
        identities,
        validators,
        deposits,
        partials,
        consolidations,
        address,
        key,
        Gwei(amount),
    );
    slices::store_answer(scalars, answer)
}

// A deposit receipt, for other languages.
ghost use Rattle.std.specs.Prelude.{[], ◌∷◌, eqb, length};
ghost use Rattle.rules.specs.Calls.{deposit_receipt};
ghost use Rattle.records.specs.Books.{tables};
ghost use Rattle.slices.specs.Exported.{Exported};

use primitives::Gwei;

// A key or credentials of another length are answered as a short buffer. `valid` says whether the signature is good.
// The tables stay apart: C lends each by itself, some of them const.
#[unsafe(no_mangle)]
pub extern "C" fn solarbasil_process_deposit_receipt(
    settings: &[u64],
    scalars: &mut [u64],
    identities: &mut [u8],
    validators: &mut [u64],
    deposits: &mut [u64],
    partials: &[u64],
    consolidations: &[u64],
    public_key: &[u8],
    withdrawal_credentials: &[u8],
    amount: u64,
    index: u64,
    valid: bool,
) -> u8
    ensures { Exported settings.now
        (deposit_receipt public_key.now withdrawal_credentials.now amount index valid)
        (eqb (length public_key.now) 48 ∷ eqb (length withdrawal_credentials.now) 32 ∷ [])
        (tables identities.old validators.old deposits.old
        partials.now consolidations.now)
        (tables identities.new validators.new deposits.new
        partials.now consolidations.now)
        scalars.old scalars.new result }
{
    // Not by slices::exported: its call may ask nothing, and the copies below need the lengths that are tested here.
    let chain = slices::settings_from(settings);
    if !slices::bytes::receipt_fits(scalars, public_key, withdrawal_credentials) {
        return slices::unfit_answer(chain);
    }
    let before = slices::scalars_from(scalars);
    let key = slices::bytes::fixed::<48>(public_key);
    let credentials = slices::bytes::fixed::<32>(withdrawal_credentials);
    let answer = operations::deposit_receipts::process_deposit_receipt(
        chain,
        before,
        identities,
        validators,
        deposits,
        partials,
        consolidations,
        key,
        credentials,
        Gwei(amount),
        index,
        valid,
    );
    slices::store_answer(scalars, answer)
}

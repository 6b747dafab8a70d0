// A deposit receipt.
ghost use Rattle.rules.specs.Calls.{deposit_receipt};
ghost use Rattle.primitives.specs.Answers.{answer_number, answer_or};
ghost use Rattle.primitives.specs.Settings.{settings_of};
ghost use Rattle.records.specs.Books.{tables, Called};

use primitives::answers::Refusal;
use primitives::{Gwei, Scalars, Settings};
use records::books::Books;

// `valid` says whether the signature is good.
// The tables stay apart: the call writes some and only reads the others, as C lends them.
pub fn process_deposit_receipt(
    settings: Settings,
    scalars: Scalars,
    identities: &mut [u8],
    validators: &mut [u64],
    deposits: &mut [u64],
    partials: &[u64],
    consolidations: &[u64],
    public_key: [u8; 48],
    withdrawal_credentials: [u8; 32],
    amount: Gwei,
    index: u64,
    valid: bool,
) -> Result<Scalars, Refusal>
    ensures { Called (settings_of settings)
        (deposit_receipt public_key withdrawal_credentials amount.0 index valid) scalars
        (tables identities.old validators.old deposits.old
        partials.now consolidations.now)
        (tables identities.new validators.new deposits.new
        partials.now consolidations.now) (answer_number result) (answer_or scalars result) }
{
    let held = acceptance::accept(
        settings,
        &Books {
            scalars,
            identities,
            validators,
            deposits,
            partials,
            consolidations,
        },
    )?;
    let sums = acceptance::sum_within(held, amount);
    receipt_operations::process_deposit_receipt(
        settings,
        scalars,
        identities,
        validators,
        deposits,
        partials,
        consolidations,
        public_key,
        withdrawal_credentials,
        amount,
        index,
        valid,
        sums,
    )
}

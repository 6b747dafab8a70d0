// A withdrawal request of the execution layer.
ghost use Rattle.rules.specs.Calls.{withdrawal_request};
ghost use Rattle.primitives.specs.Answers.{answer_number, answer_or};
ghost use Rattle.primitives.specs.Settings.{settings_of};
ghost use Rattle.records.specs.Books.{tables, Called};

use primitives::answers::Refusal;
use primitives::{Gwei, Scalars, Settings};
use records::books::Books;

// An amount of 0 asks for a full exit.
// The tables stay apart: the call writes some and only reads the others, as C lends them. The call stays a function of
// its own: exits and requests are two operations of the text.
pub fn process_execution_layer_withdrawal_request(
    settings: Settings,
    scalars: Scalars,
    identities: &[u8],
    validators: &mut [u64],
    deposits: &[u64],
    partials: &mut [u64],
    consolidations: &[u64],
    source_address: [u8; 20],
    public_key: [u8; 48],
    amount: Gwei,
) -> Result<Scalars, Refusal>
    ensures { Called (settings_of settings)
        (withdrawal_request source_address public_key amount.0) scalars
        (tables identities.now validators.old deposits.now
        partials.old consolidations.now)
        (tables identities.now validators.new deposits.now
        partials.new consolidations.now) (answer_number result) (answer_or scalars result) }
{
    acceptance::accept(
        settings,
        &Books {
            scalars,
            identities,
            validators,
            deposits,
            partials,
            consolidations,
        },
    )?;
    request_operations::process_execution_layer_withdrawal_request(
        settings,
        scalars,
        identities,
        validators,
        deposits,
        partials,
        consolidations,
        source_address,
        public_key,
        amount,
    )
}

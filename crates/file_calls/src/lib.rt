// One call of a calls file, carried out on accepted books. The sum that the books hold comes along, so that no call
// adds the balances up to judge 41.

// The tables stay apart in this file, and what is known of them stays a clause: a call writes some and only reads the
// others, as C lends them.

#![tactic(auto)]

ghost use Rattle.std.specs.Prelude.{◌≡◌};
ghost use Rattle.primitives.specs.Answers.{answer_number, answer_or};
ghost use Rattle.primitives.specs.Settings.{settings_of};
ghost use Rattle.records.specs.Books.{tables, Called};
ghost use Rattle.file_format.specs.Words.{words};
ghost use Rattle.calls_reader.specs.Widths.{code_of};
ghost use Rattle.file_calls.specs.Ready.{Accepted, Holds, operation_of};

use calls_reader::{EncodedCall, Kind};
use primitives::answers::Refusal;
use primitives::{Gwei, Scalars, Settings};

// All but rewards and penalties have a function of their own: what an arm of the match holds, and what its call is lent
// or gives back, is cleared and copied for every call, and a reward takes twice as long.

fn deposit_receipt(
    settings: Settings,
    scalars: Scalars,
    identities: &mut [u8],
    validators: &mut [u64],
    deposits: &mut [u64],
    partials: &[u64],
    consolidations: &[u64],
    sum: Gwei,
    call: EncodedCall<'_>,
) -> Result<Scalars, Refusal>
    requires accepted { Accepted (settings_of settings) scalars
        (tables identities.old validators.old deposits.old partials.now consolidations.now) }
    requires code { code_of (words call.rest.now) ≡ 3 }
    requires holds { Holds scalars
        (tables identities.old validators.old deposits.old partials.now consolidations.now) sum.0 }
    ensures { Called (settings_of settings) (operation_of call.entry.rest.now) scalars
        (tables identities.old validators.old deposits.old
        partials.now consolidations.now)
        (tables identities.new validators.new deposits.new
        partials.now consolidations.now) (answer_number result) (answer_or scalars result) }
{
    let receipt = call.receipt();
    let sums = acceptance::sum_within(sum, receipt.amount);
    receipt_operations::process_deposit_receipt(
        settings,
        scalars,
        identities,
        validators,
        deposits,
        partials,
        consolidations,
        receipt.public_key,
        receipt.withdrawal_credentials,
        receipt.amount,
        receipt.index,
        receipt.valid,
        sums,
    )
}

fn voluntary_exit(
    settings: Settings,
    scalars: Scalars,
    identities: &[u8],
    validators: &mut [u64],
    deposits: &[u64],
    partials: &[u64],
    consolidations: &[u64],
    call: EncodedCall<'_>,
) -> Result<Scalars, Refusal>
    requires accepted { Accepted (settings_of settings) scalars
        (tables identities.now validators.old deposits.now partials.now consolidations.now) }
    requires code { code_of (words call.rest.now) ≡ 4 }
    ensures { Called (settings_of settings) (operation_of call.entry.rest.now) scalars
        (tables identities.now validators.old deposits.now
        partials.now consolidations.now)
        (tables identities.now validators.new deposits.now
        partials.now consolidations.now) (answer_number result) (answer_or scalars result) }
{
    let exit = call.exit();
    exit_operations::process_voluntary_exit(
        settings,
        scalars,
        identities,
        validators,
        deposits,
        partials,
        consolidations,
        exit.i,
        exit.epoch,
        exit.valid,
    )
}

fn withdrawal_request(
    settings: Settings,
    scalars: Scalars,
    identities: &[u8],
    validators: &mut [u64],
    deposits: &[u64],
    partials: &mut [u64],
    consolidations: &[u64],
    call: EncodedCall<'_>,
) -> Result<Scalars, Refusal>
    requires accepted { Accepted (settings_of settings) scalars
        (tables identities.now validators.old deposits.now partials.old consolidations.now) }
    requires code { code_of (words call.rest.now) ≡ 5 }
    ensures { Called (settings_of settings) (operation_of call.entry.rest.now) scalars
        (tables identities.now validators.old deposits.now
        partials.old consolidations.now)
        (tables identities.now validators.new deposits.now
        partials.new consolidations.now) (answer_number result) (answer_or scalars result) }
{
    let request = call.request();
    request_operations::process_execution_layer_withdrawal_request(
        settings,
        scalars,
        identities,
        validators,
        deposits,
        partials,
        consolidations,
        request.source_address,
        request.public_key,
        request.amount,
    )
}

fn consolidation(
    settings: Settings,
    scalars: Scalars,
    identities: &[u8],
    validators: &mut [u64],
    deposits: &[u64],
    partials: &[u64],
    consolidations: &mut [u64],
    call: EncodedCall<'_>,
) -> Result<Scalars, Refusal>
    requires accepted { Accepted (settings_of settings) scalars
        (tables identities.now validators.old deposits.now partials.now consolidations.old) }
    requires code { code_of (words call.rest.now) ≡ 6 }
    ensures { Called (settings_of settings) (operation_of call.entry.rest.now) scalars
        (tables identities.now validators.old deposits.now
        partials.now consolidations.old)
        (tables identities.now validators.new deposits.now
        partials.now consolidations.new) (answer_number result) (answer_or scalars result) }
{
    let asked = call.consolidation();
    consolidation_operations::process_consolidation(
        settings,
        scalars,
        identities,
        validators,
        deposits,
        partials,
        consolidations,
        asked.source_index,
        asked.target_index,
        asked.epoch,
        asked.valid,
    )
}

fn turn(
    settings: Settings,
    scalars: Scalars,
    identities: &mut [u8],
    validators: &mut [u64],
    deposits: &mut [u64],
    partials: &[u64],
    consolidations: &mut [u64],
    call: EncodedCall<'_>,
) -> Result<Scalars, Refusal>
    requires accepted { Accepted (settings_of settings) scalars
        (tables identities.old validators.old deposits.old partials.now consolidations.old) }
    requires code { code_of (words call.rest.now) ≡ 7 }
    ensures { Called (settings_of settings) (operation_of call.entry.rest.now) scalars
        (tables identities.old validators.old deposits.old
        partials.now consolidations.old)
        (tables identities.new validators.new deposits.new
        partials.now consolidations.new) (answer_number result) (answer_or scalars result) }
{
    epoch_turns::turn_accepted(
        settings,
        scalars,
        identities,
        validators,
        deposits,
        partials,
        consolidations,
    )
}

fn withdrawals(
    settings: Settings,
    scalars: Scalars,
    identities: &[u8],
    validators: &mut [u64],
    deposits: &[u64],
    partials: &mut [u64],
    consolidations: &[u64],
    call: EncodedCall<'_>,
) -> Result<Scalars, Refusal>
    requires accepted { Accepted (settings_of settings) scalars
        (tables identities.now validators.old deposits.now partials.old consolidations.now) }
    requires code { code_of (words call.rest.now) ≡ 8 }
    ensures { Called (settings_of settings) (operation_of call.entry.rest.now) scalars
        (tables identities.now validators.old deposits.now
        partials.old consolidations.now)
        (tables identities.now validators.new deposits.now
        partials.new consolidations.now) (answer_number result) (answer_or scalars result) }
{
    let paid = call.withdrawals();
    operations::payments::process_withdrawals_accepted(
        settings,
        scalars,
        identities,
        validators,
        deposits,
        partials,
        consolidations,
        paid.list,
        paid.count,
    )
}

pub fn carry_out_call(
    settings: Settings,
    scalars: Scalars,
    identities: &mut [u8],
    validators: &mut [u64],
    deposits: &mut [u64],
    partials: &mut [u64],
    consolidations: &mut [u64],
    sum: Gwei,
    call: EncodedCall<'_>,
) -> Result<Scalars, Refusal>
    requires accepted { Accepted (settings_of settings) scalars
        (tables identities.old validators.old deposits.old partials.old consolidations.old) }
    requires holds { Holds scalars
        (tables identities.old validators.old deposits.old partials.old consolidations.old) sum.0 }
    ensures { Called (settings_of settings) (operation_of call.entry.rest.now) scalars
        (tables identities.old validators.old deposits.old
        partials.old consolidations.old)
        (tables identities.new validators.new deposits.new
        partials.new consolidations.new) (answer_number result) (answer_or scalars result) }
{
    // By kind, not by `call`: copying a `Call`, with room for sixteen withdrawals, made a reward take 69 ns, not 17.
    match call.kind() {
        Kind::Reward => {
            let reward = call.amount();
            let sums = acceptance::sum_within(sum, reward.amount);
            rewards::reward::reward_accepted(
                settings,
                scalars,
                identities,
                validators,
                deposits,
                partials,
                consolidations,
                reward.i,
                reward.amount,
                sums,
            )
        }
        Kind::Penalty => {
            let penalty = call.amount();
            rewards::penalty::penalty_accepted(
                settings,
                scalars,
                identities,
                validators,
                deposits,
                partials,
                consolidations,
                penalty.i,
                penalty.amount,
            )
        }
        Kind::DepositReceipt => deposit_receipt(
            settings,
            scalars,
            identities,
            validators,
            deposits,
            partials,
            consolidations,
            sum,
            call,
        ),
        Kind::VoluntaryExit => voluntary_exit(
            settings,
            scalars,
            identities,
            validators,
            deposits,
            partials,
            consolidations,
            call,
        ),
        Kind::WithdrawalRequest => withdrawal_request(
            settings,
            scalars,
            identities,
            validators,
            deposits,
            partials,
            consolidations,
            call,
        ),
        Kind::Consolidation => consolidation(
            settings,
            scalars,
            identities,
            validators,
            deposits,
            partials,
            consolidations,
            call,
        ),
        Kind::Turn => turn(
            settings,
            scalars,
            identities,
            validators,
            deposits,
            partials,
            consolidations,
            call,
        ),
        Kind::Withdrawals => withdrawals(
            settings,
            scalars,
            identities,
            validators,
            deposits,
            partials,
            consolidations,
            call,
        ),
    }
}

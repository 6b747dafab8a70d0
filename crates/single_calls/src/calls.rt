// A call of the file, or a step of a turn alone: which one, and what the file holds of it.
use calls_reader::{Call as FormatCall, EncodedCall};
use primitives::Scalars;
use primitives::answers::Refusal;
use recorded_cases::books::{Books, Lent};

// It stays an enum of its own: a call of the format, or one of three steps that have no fields.
#[derive(Clone, Copy)]
pub enum Call {
    OfFormat(FormatCall),
    DepositStep,
    ConsolidationStep,
    EffectiveBalanceStep,
}

// A step has no fields.
fn step(code: u32) -> Option<Call> {
    match code {
        91 => Some(Call::DepositStep),
        92 => Some(Call::ConsolidationStep),
        93 => Some(Call::EffectiveBalanceStep),
        _ => None,
    }
}

// The call at the front of what is left of a file, and what stands behind it.
pub fn call_at(rest: &[u8]) -> Option<(Call, &[u8])> {
    if calls_reader::call_ok(rest) {
        let call = EncodedCall { rest };
        return Some((Call::OfFormat(call.call()), call.next()));
    }
    let alone = step(calls_reader::code_at(rest))?;
    Some((alone, rest.get(4..)?))
}

// The call, by the public call of the library.
pub fn carry_out(books: &mut Books, call: Call) -> Result<Scalars, Refusal> {
    let settings = books.settings;
    let scalars = books.scalars;
    let Lent {
        identities,
        validators,
        deposits,
        partials,
        consolidations,
    } = books.tables.lend();
    match call {
        Call::OfFormat(FormatCall::Reward(call)) => electra::reward::reward(
            settings,
            scalars,
            identities,
            validators,
            deposits,
            partials,
            consolidations,
            call.i,
            call.amount,
        ),
        Call::OfFormat(FormatCall::Penalty(call)) => electra::penalty::penalty(
            settings,
            scalars,
            identities,
            validators,
            deposits,
            partials,
            consolidations,
            call.i,
            call.amount,
        ),
        Call::OfFormat(FormatCall::DepositReceipt(call)) =>
            operations::deposit_receipts::process_deposit_receipt(
                settings,
                scalars,
                identities,
                validators,
                deposits,
                partials,
                consolidations,
                call.public_key,
                call.withdrawal_credentials,
                call.amount,
                call.index,
                call.valid,
            ),
        Call::OfFormat(FormatCall::VoluntaryExit(call)) =>
            operations::voluntary_exits::process_voluntary_exit(
                settings,
                scalars,
                identities,
                validators,
                deposits,
                partials,
                consolidations,
                call.i,
                call.epoch,
                call.valid,
            ),
        Call::OfFormat(FormatCall::WithdrawalRequest(call)) => {
            operations::withdrawal_requests::process_execution_layer_withdrawal_request(
                settings,
                scalars,
                identities,
                validators,
                deposits,
                partials,
                consolidations,
                call.source_address,
                call.public_key,
                call.amount,
            )
        }
        Call::OfFormat(FormatCall::Consolidation(call)) =>
            operations::consolidations::process_consolidation(
                settings,
                scalars,
                identities,
                validators,
                deposits,
                partials,
                consolidations,
                call.source_index,
                call.target_index,
                call.epoch,
                call.valid,
            ),
        Call::OfFormat(FormatCall::Turn) => electra::turns::turn(
            settings,
            scalars,
            identities,
            validators,
            deposits,
            partials,
            consolidations,
        ),
        Call::OfFormat(FormatCall::Withdrawals(call)) => operations::payments::process_withdrawals(
            settings,
            scalars,
            identities,
            validators,
            deposits,
            partials,
            consolidations,
            call.list,
            call.count,
        ),
        Call::DepositStep => electra::deposits::process_pending_balance_deposits(
            settings,
            scalars,
            identities,
            validators,
            deposits,
            partials,
            consolidations,
        ),
        Call::ConsolidationStep => electra::consolidations::process_pending_consolidations(
            settings,
            scalars,
            identities,
            validators,
            deposits,
            partials,
            consolidations,
        ),
        Call::EffectiveBalanceStep => {
            electra::effective_balances::process_effective_balance_updates(
                settings,
                scalars,
                identities,
                validators,
                deposits,
                partials,
                consolidations,
            )
        }
    }
}

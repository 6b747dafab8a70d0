// The sum that the books hold, carried from call to call: what each call takes in or out is known without adding the
// balances up again, but for a list of withdrawals.
ghost use Rattle.std.specs.Prelude.{◌≡◌, List, ℕ, ◌+◌, ◌≤◌};
ghost use Rattle.records.specs.Layout.{validators_fit};
ghost use Rattle.records.specs.Books.{tables, books_of};
ghost use Rattle.acceptance.specs.Held.{HeldReady, balances_in, amounts_in};
ghost use Rattle.file_format.specs.Words.{words};
ghost use Rattle.calls_reader.specs.Widths.{code_of};
ghost use Rattle.calls_reader.specs.Plain.{kind_code};
ghost use Rattle.file_calls.specs.Ready.{operation_of};
ghost use Rattle.runs.specs.Sums.{penalty_taken, Followed};

use calls_reader::{EncodedCall, Kind};
use primitives::{Gwei, Scalars, answers};

// What a penalty is about to take; 0 for any other call.
pub fn penalty_taken(
    scalars: Scalars,
    validators: &[u64],
    call: EncodedCall<'_>,
    kind: Kind,
) -> Gwei
    requires validators_stored { scalars.validators ≤ validators_fit validators.now }
    requires kind_read { kind_code kind ≡ code_of (words call.rest.now) }
    ensures { (ids ds ps cs : List ℕ)
        → result.0 ≡ penalty_taken (operation_of call.entry.rest.now)
        (books_of scalars (tables ids validators.now ds ps cs)) }
{
    match kind {
        Kind::Penalty => {
            let penalty = call.amount();
            if scalars.validators <= penalty.i.0 {
                return Gwei(0);
            }
            let balance = records::registry::balance_at(validators, penalty.i);
            Gwei(penalty.amount.0.min(balance.0))
        }
        _ => Gwei(0),
    }
}

// The sum after the call, which answered `number` and left the scalars `after`; `taken` is what a penalty took.
pub fn held_after(
    sum: Gwei,
    taken: Gwei,
    number: u8,
    before: Scalars,
    after: Scalars,
    validators: &[u64],
    deposits: &[u64],
    call: EncodedCall<'_>,
    kind: Kind,
) -> Gwei
    requires held_ready { HeldReady after validators.now deposits.now }
    requires kind_read { kind_code kind ≡ code_of (words call.rest.now) }
    requires followed { Followed (operation_of call.rest.now) number sum.0 taken.0 before.deposits after.deposits
        (balances_in after.validators validators.now + amounts_in after.deposits deposits.now) }
    ensures { result.0
        ≡ balances_in after.validators validators.now
        + amounts_in after.deposits deposits.now }
{
    if number != answers::DONE {
        return sum;
    }
    match kind {
        Kind::Reward => {
            let reward = call.amount();
            Gwei(sum.0 + reward.amount.0)
        }
        Kind::Penalty => Gwei(sum.0 - taken.0),
        Kind::DepositReceipt => {
            let receipt = call.receipt();
            if after.deposits == before.deposits {
                return sum;
            }
            Gwei(sum.0 + receipt.amount.0)
        }
        Kind::Withdrawals => acceptance::held(after, validators, deposits),
        _ => sum,
    }
}

// A call with its line in the results: its code, its answer, and the sum that the books hold after it.
ghost use Rattle.std.specs.Prelude.{◌≡◌, ◌+◌, ◌*◌, ◌≤◌, length};
ghost use Rattle.primitives.specs.Settings.{settings_of};
ghost use Rattle.records.specs.Books.{tables};
ghost use Rattle.file_calls.specs.Ready.{Accepted, Holds, operation_of};
ghost use Rattle.runs.specs.Lines.{with_line};
ghost use Rattle.runs.specs.Ready.{Written};

use calls_reader::EncodedCall;
use primitives::answers::answer_number;
use primitives::{Gwei, Scalars, Settings};

// The numbers of line i.
fn put_line(results: &mut [u64], i: usize, code: u64, answer: u64, total: Gwei)
    requires { 3 * i + 3 ≤ length results.old }
    ensures { results.new ≡ with_line results.old i code answer total.0 }
{
    results[3 * i] = code;
    results[3 * i + 1] = answer;
    results[3 * i + 2] = total.0;
}

// What a call leaves: the scalars, and the sum that the books hold.
#[derive(Clone, Copy)]
pub struct LineDone {
    pub scalars: Scalars,
    pub sum: Gwei,
}

// The call with line i, on books that hold `sum`.
// The tables stay apart, and what is known of them stays a clause: the call writes all five, as C lends them.
pub fn carry_out_line(
    settings: Settings,
    scalars: Scalars,
    identities: &mut [u8],
    validators: &mut [u64],
    deposits: &mut [u64],
    partials: &mut [u64],
    consolidations: &mut [u64],
    sum: Gwei,
    call: EncodedCall<'_>,
    results: &mut [u64],
    i: usize,
) -> LineDone
    requires accepted { Accepted (settings_of settings) scalars
        (tables identities.old validators.old deposits.old partials.old consolidations.old) }
    requires results_hold_line { 3 * i + 3 ≤ length results.old }
    requires holds { Holds scalars
        (tables identities.old validators.old deposits.old partials.old consolidations.old) sum.0 }
    ensures written { Written (settings_of settings) (operation_of call.entry.rest.now) scalars
        (tables identities.old validators.old deposits.old
        partials.old consolidations.old)
        (tables identities.new validators.new deposits.new
        partials.new consolidations.new)
        results.old results.new i result.scalars }
    ensures still_holds { Holds result.scalars
        (tables identities.new validators.new deposits.new
        partials.new consolidations.new) result.sum.0 }
{
    let kind = call.kind();
    let taken = crate::sums::penalty_taken(scalars, validators, call, kind);
    let answer = file_calls::carry_out_call(
        settings,
        scalars,
        identities,
        validators,
        deposits,
        partials,
        consolidations,
        sum,
        call,
    );
    let number = answer_number(&answer);
    let after = answer.unwrap_or(scalars);
    let total = crate::sums::held_after(
        sum, taken, number, scalars, after, validators, deposits, call, kind,
    );
    put_line(results, i, kind as u64, number as u64, total);
    LineDone {
        scalars: after,
        sum: total,
    }
}

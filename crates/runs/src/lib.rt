// The calls of a file, carried out on lent books that are tested once.

// The tables stay apart in this file, and what is known of them stays a clause: a run writes all five, as C lends them.

#![tactic(auto)]

pub mod lines; // one call with its line in the results
pub mod sums; // the sum that the books hold, carried from call to call

ghost use Rattle.std.specs.Prelude.{◌≡◌, ◌*◌, ◌≤◌, length, IfOk};
ghost use Rattle.primitives.specs.Answers.{answer_number};
ghost use Rattle.primitives.specs.Settings.{settings_of};
ghost use Rattle.records.specs.Books.{tables};
ghost use Rattle.records.specs.Lent.{lent_tables, lent_room, plain_books};
ghost use Rattle.file_format.specs.Words.{words};
ghost use Rattle.file_calls.specs.Ready.{Accepted, Holds};
ghost use Rattle.runs.specs.Ready.{CallsThere, operations_there};
ghost use Rattle.runs.specs.Promise.{carry_out_answer, Done, CarriedOut};
ghost use Rattle.runs.specs.Left.{scalars_left, calls_done};
ghost use Rattle.runs.specs.Judged.{Runnable};

use calls_reader::EncodedCall;
use primitives::answers::Refusal;
use primitives::{Gwei, Scalars, Settings};
use records::books::Books;

// What carrying out a calls file leaves: the scalars, and how many calls were carried out.
#[derive(Clone, Copy)]
pub struct Carried {
    pub scalars: Scalars,
    pub count: usize,
}

// What is known before the first call: the sum that the books hold, and how many calls the file has.
#[derive(Clone, Copy)]
struct Judgement {
    held: Gwei,
    count: usize,
}

// The books first, then the file, then whether `space` numbers have room for its results.
fn judge(
    settings: Settings,
    books: &Books<'_>,
    file: &[u8],
    space: usize,
) -> Result<Judgement, Refusal>
    ensures number { answer_number result
        ≡ carry_out_answer (settings_of settings) (plain_books books.now) (lent_room books.now) file.now space }
    ensures runnable { IfOk result (λ j. Runnable (settings_of settings) books.now.scalars (lent_tables books.now)
        file.now space j.held.0 j.count) }
{
    let held = acceptance::accept(settings, books)?;
    if !calls_reader::calls_file_ok(file) {
        return Err(Refusal::BrokenFile);
    }
    let count = calls_reader::calls_count(file);
    if space / 3 < count {
        return Err(Refusal::WriterBufferShort);
    }
    Ok(Judgement { held, count })
}

// The n calls at the front of what is left of a file, on books that hold `opening`.
fn carry_out_calls(
    settings: Settings,
    scalars: Scalars,
    identities: &mut [u8],
    validators: &mut [u64],
    deposits: &mut [u64],
    partials: &mut [u64],
    consolidations: &mut [u64],
    opening: Gwei,
    calls: &[u8],
    n: usize,
    results: &mut [u64],
) -> Scalars
    requires accepted { Accepted (settings_of settings) scalars
        (tables identities.old validators.old deposits.old partials.old consolidations.old) }
    requires calls_there { CallsThere (words calls.now) n }
    requires results_hold_calls { 3 * n ≤ length results.old }
    requires holds { Holds scalars
        (tables identities.old validators.old deposits.old partials.old consolidations.old) opening.0 }
    ensures { Done (settings_of settings) scalars
        (tables identities.old validators.old deposits.old
        partials.old consolidations.old)
        (tables identities.new validators.new deposits.new
        partials.new consolidations.new)
        (operations_there (words calls.now) n) results.old results.new result n }
{
    let mut after = scalars;
    let mut sum = opening;
    let mut rest = calls;
    for i in 0..n {
        let call = EncodedCall { rest };
        let done = lines::carry_out_line(
            settings,
            after,
            identities,
            validators,
            deposits,
            partials,
            consolidations,
            sum,
            call,
            results,
            i,
        );
        after = done.scalars;
        sum = done.sum;
        rest = call.next();
    }
    after
}

// Carries out the calls of a file one after another, on lent books. The results take three numbers of each call: its
// code, its answer, and the sum that the books hold after it.
pub fn carry_out(
    settings: Settings,
    scalars: Scalars,
    identities: &mut [u8],
    validators: &mut [u64],
    deposits: &mut [u64],
    partials: &mut [u64],
    consolidations: &mut [u64],
    file: &[u8],
    results: &mut [u64],
) -> Result<Carried, Refusal>
    ensures { CarriedOut (settings_of settings) scalars
        (tables identities.old validators.old deposits.old
        partials.old consolidations.old)
        (tables identities.new validators.new deposits.new
        partials.new consolidations.new)
        file.now results.old results.new (answer_number result) (scalars_left scalars result) (calls_done result) }
{
    let books = Books {
        scalars,
        identities,
        validators,
        deposits,
        partials,
        consolidations,
    };
    let judged = judge(settings, &books, file, results.len())?;
    let after = carry_out_calls(
        settings,
        scalars,
        identities,
        validators,
        deposits,
        partials,
        consolidations,
        judged.held,
        calls_reader::calls_from(file),
        judged.count,
        results,
    );
    Ok(Carried {
        scalars: after,
        count: judged.count,
    })
}

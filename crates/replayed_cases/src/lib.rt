// A recorded case through the library: the opening read into tables of the stated room, the calls carried out, the
// table of their answers, the closing books written, and the list that is expected on them. All of it promises safety
// alone.

#![tactic(auto)]

mod opened; // the opening and the calls
mod closing; // the closing books
mod printed; // the refusal and the table

use recorded_cases::books::{Output, Results, Tables};
use recorded_cases::compare::Replay;
use recorded_cases::container::{Case, Flag};
use std::io;

// A case for the library; another is left as it is.
pub fn replay<P: Print>(
    replay: &mut Replay<P>,
    case: &Case,
    results: &mut Results,
    out: &mut Output,
) -> io::Result<()> {
    if !case.has(Flag::Library) {
        return Ok(());
    }
    let mut tables = Tables::new(case.room);
    match opened::answered(case, &mut tables, results) {
        Ok((books, count)) => {
            printed::table(replay, case, results, count, out)?;
            closing::afterwards(replay, case, &books, out)
        }
        Err(cause) => printed::refused(replay, case, cause, out),
    }
}

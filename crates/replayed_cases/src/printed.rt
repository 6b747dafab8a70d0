// What `books` prints: a refusal, or the table.
use primitives::answers::Refusal;
use recorded_cases::books::{Output, Results};
use recorded_cases::compare::{Counts, Replay};
use recorded_cases::container::{Case, Section};
use std::io;

pub fn refusal<P: Print>(
    replay: &mut Replay<P>,
    number: u8,
    recorded: &[u8],
    out: &mut Output,
) -> io::Result<()> {
    let put = table_text::put_refused(out, number);
    let length = put.min(out.len());
    replay.check("refusal", recorded, &out[..length])
}

// A refusal in place of the table.
pub fn refused<P: Print>(
    replay: &mut Replay<P>,
    case: &Case,
    cause: Refusal,
    out: &mut Output,
) -> io::Result<()> {
    refusal(replay, cause.number(), case.payload(Section::Printed), out)
}

// The table of the answers.
pub fn table<P: Print>(
    replay: &mut Replay<P>,
    case: &Case,
    results: &Results,
    count: usize,
    out: &mut Output,
) -> io::Result<()> {
    let recorded = case.payload(Section::Printed);
    if 9999 < count {
        return replay.check("count of the calls", recorded, b"");
    }
    let put = table_text::put_table(results, count, out);
    let length = put.min(out.len());
    replay.check("table", recorded, &out[..length])?;
    replay.count(Counts {
        calls: count as u64,
        ..Counts::default()
    });
    Ok(())
}

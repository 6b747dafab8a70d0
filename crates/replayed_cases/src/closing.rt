// What is compared on the closing books.
use crate::printed::refusal;
use primitives::answers::{Refusal, answer_number};
use recorded_cases::books::{Books, Output};
use recorded_cases::compare::Replay;
use recorded_cases::container::{Case, Flag, Section};
use replayed_parts::{expected, unchanged};
use std::io;

// How many bytes the books have in the buffer.
fn write(books: &Books, buffer: &mut [u8]) -> Result<usize, Refusal> {
    books_writer::write_books(books.settings, &books.see(), buffer)
}

fn is_refused(books: &Books) -> bool {
    electra::total::held(books.settings, &books.see()).is_err()
}

// The closing books, written into a buffer that they fill.
fn closing<P: Print>(
    replay: &mut Replay<P>,
    books: &Books,
    recorded: &[u8],
    out: &mut Output,
) -> io::Result<()> {
    let room = recorded.len().min(out.len());
    match write(books, &mut out[..room]) {
        Ok(n) => {
            let length = n.min(out.len());
            replay.check("closing books", recorded, &out[..length])
        }
        Err(cause) => refusal(replay, cause.number(), recorded, out),
    }
}

// In a buffer that is a byte shorter the writer answers 61.
fn closing_short<P: Print>(
    replay: &mut Replay<P>,
    books: &Books,
    recorded: &[u8],
    out: &mut Output,
) -> io::Result<()> {
    if recorded.is_empty() {
        return Ok(());
    }
    let room = (recorded.len() - 1).min(out.len());
    let answer = write(books, &mut out[..room]);
    refusal(replay, answer_number(&answer), b"refused 61\n", out)
}

// What is compared on the closing books, and the list that is expected on them; of books that were lent and refused,
// that they are unchanged.
pub fn afterwards<P: Print>(
    replay: &mut Replay<P>,
    case: &Case,
    books: &Books,
    out: &mut Output,
) -> io::Result<()> {
    if case.has(Flag::Lent) && is_refused(books) {
        return unchanged::check_unchanged(replay, case, books);
    }
    let recorded = case.payload(Section::Closing);
    closing(replay, books, recorded, out)?;
    closing_short(replay, books, recorded, out)?;
    expected::check_list(replay, case, books)
}

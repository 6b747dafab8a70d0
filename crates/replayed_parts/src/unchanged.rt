// Books that every call refuses: they are what was recorded, and past them the tables hold what they held.
use primitives::Scalars;
use recorded_cases::books::{Books, Tables};
use recorded_cases::compare::Replay;
use recorded_cases::container::{Case, Section};
use recorded_cases::laid;
use std::io;

fn check_same<P: Print>(replay: &mut Replay<P>, what: &str, same: bool) -> io::Result<()> {
    let found: &[u8] = if same { b"unchanged\n" } else { b"changed\n" };
    replay.check(what, b"unchanged\n", found)
}

fn counts(scalars: Scalars) -> [usize; 4] {
    [
        scalars.validators,
        scalars.deposits,
        scalars.partials,
        scalars.consolidations,
    ]
}

// The settings and the scalars stand in the first 85 words of a file.
fn check_front<P: Print>(replay: &mut Replay<P>, books: &Books, recorded: &[u8]) -> io::Result<()> {
    let mut front = [0; 340];
    books_writer::front::put_front(&mut front, books.settings, books.scalars);
    let recorded = recorded.get(..340).unwrap_or(recorded);
    replay.check("settings and scalars", recorded, &front)
}

// The tables, against those that the recorded books are laid into.
fn check_tables<P: Print>(replay: &mut Replay<P>, wanted: &Books, books: &Books) -> io::Result<()> {
    let laid = wanted.see();
    let found = books.see();
    replay.check("identities", laid.identities, found.identities)?;
    check_same(replay, "validators", laid.validators == found.validators)?;
    check_same(replay, "deposits", laid.deposits == found.deposits)?;
    check_same(replay, "partials", laid.partials == found.partials)?;
    check_same(
        replay,
        "consolidations",
        laid.consolidations == found.consolidations,
    )?;
    check_same(
        replay,
        "counts",
        counts(wanted.scalars) == counts(books.scalars),
    )
}

pub fn check_unchanged<P: Print>(
    replay: &mut Replay<P>,
    case: &Case,
    books: &Books,
) -> io::Result<()> {
    let recorded = case.payload(Section::Closing);
    let mut tables = Tables::new(books.tables.room());
    let wanted = laid::lay(recorded, &mut tables);
    check_tables(replay, &wanted, books)?;
    check_front(replay, books, recorded)
}

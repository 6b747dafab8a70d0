// The opening of a case and its calls, in the tables that it lends.
use primitives::answers::Refusal;
use recorded_cases::books::{Books, Lent, Results, Tables};
use recorded_cases::container::{Case, Flag, Section};
use recorded_cases::laid;

// The opening read.
fn read<'a>(opening: &[u8], tables: &'a mut Tables) -> Result<Books<'a>, Refusal> {
    let Lent {
        identities,
        validators,
        deposits,
        partials,
        consolidations,
    } = tables.lend();
    let opened = books_reader::read_books(
        opening,
        identities,
        validators,
        deposits,
        partials,
        consolidations,
    )?;
    Ok(Books {
        settings: opened.settings,
        scalars: opened.scalars,
        tables,
    })
}

// The opening read; where it is lent as it is, laid into the tables without a test.
fn open<'a>(case: &Case, tables: &'a mut Tables) -> Result<Books<'a>, Refusal> {
    let opening = case.payload(Section::Opening);
    if case.has(Flag::Lent) {
        return Ok(laid::lay(opening, tables));
    }
    read(opening, tables)
}

// The calls of the file as one list; how many they are.
fn carry_out(books: &mut Books, calls: &[u8], results: &mut Results) -> Result<usize, Refusal> {
    let settings = books.settings;
    let scalars = books.scalars;
    let Lent {
        identities,
        validators,
        deposits,
        partials,
        consolidations,
    } = books.tables.lend();
    let carried = runs::carry_out(
        settings,
        scalars,
        identities,
        validators,
        deposits,
        partials,
        consolidations,
        calls,
        results,
    )?;
    books.scalars = carried.scalars;
    Ok(carried.count)
}

// The books that the calls leave, and how many calls they were; where steps alone are among them, they are carried out
// one by one.
pub fn answered<'a>(
    case: &Case,
    tables: &'a mut Tables,
    results: &mut Results,
) -> Result<(Books<'a>, usize), Refusal> {
    let calls = case.payload(Section::Calls);
    let mut books = open(case, tables)?;
    let count = if case.has(Flag::StepsAlone) {
        single_calls::carry_out(&mut books, calls, results).map_err(|_| Refusal::BrokenFile)?
    } else {
        carry_out(&mut books, calls, results)?
    };
    Ok((books, count))
}

// The calls of a file carried out one by one through the public calls, each of which tests what it is handed. Beside
// the calls of the format the file may hold the steps of a turn alone, codes 91, 92 and 93, which have no fields. It is
// for tests: what it promises is safety alone.

#![tactic(auto)]

mod calls; // which call, and by which public call
mod sums; // what the books hold

use primitives::answers::answer_number;
use recorded_cases::books::{Books, Results};

// A file that holds another call, or more of them than the results have lines.
#[derive(Clone, Copy, Debug, PartialEq, Eq)]
pub struct Broken;

// How many calls were carried out, each with a line of the results: its code, its answer, and the sum after it.
pub fn carry_out(books: &mut Books, file: &[u8], results: &mut Results) -> Result<usize, Broken> {
    let count = calls_reader::calls_count(file);
    let (lines, _) = results.as_chunks_mut::<3>();
    let Some(lines) = lines.get_mut(..count) else {
        return Err(Broken);
    };
    let mut rest = calls_reader::calls_from(file);
    for line in lines {
        let (call, behind) = calls::call_at(rest).ok_or(Broken)?;
        let code = calls_reader::code_at(rest);
        let answer = calls::carry_out(books, call);
        if let Ok(scalars) = answer {
            books.scalars = scalars;
        }
        *line = [
            u64::from(code),
            u64::from(answer_number(&answer)),
            sums::total(books),
        ];
        rest = behind;
    }
    Ok(count)
}

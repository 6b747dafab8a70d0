// The whole of what the program `books` does between the bytes that it reads and the bytes that it writes.

#![tactic(auto)]

mod buffers; // room for 256 records of each kind, and for the results
pub mod closing; // the same of the program `close`
mod files; // both files judged, and the calls carried out

ghost use Rattle.std.specs.Prelude.{◌≡◌, ◌≤◌, length, take};
ghost use Rattle.books_output.specs.Promise.{BooksOutput};

use buffers::Buffers;

// A header of 23 bytes, and 9,999 lines of 32.
pub const MOST_PRINTED: usize = 319991;

// The output of the program `books` for the bytes of its two files, put at the start of a lent buffer; its length. The
// second and the third promise follow from the first, and say that `&out[..r]` is there.
pub fn books_output(opening: &[u8], calls: &[u8], out: &mut [u8]) -> usize
    ensures books_output { BooksOutput opening.now calls.now out.old out.new result }
    ensures within { result ≤ length out.new }
    ensures whole { result ≡ length (take result out.new) }
{
    if out.len() < MOST_PRINTED {
        return 0;
    }
    let mut buffers = Buffers::blank();
    match files::carry_out_files(opening, calls, &mut buffers) {
        Ok(closing) => table_text::put_table(&buffers.results, closing.count, out),
        Err(refusal) => table_text::put_refused(out, refusal.number()),
    }
}

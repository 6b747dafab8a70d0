// The whole of what the program `close` does between the bytes that it reads and the bytes that it writes.
ghost use Rattle.std.specs.Prelude.{◌≡◌, ◌≤◌, length, take, IfOk};
ghost use Rattle.primitives.specs.Answers.{answer_number, answer_or};
ghost use Rattle.books_output.specs.Closing.{ClosingWritten};

use crate::buffers::Buffers;
use crate::files;
use primitives::answers::Refusal;
use records::books::Books;

// The closing books as a file, put at the start of a lent buffer; its length. The second and the third promise follow
// from the first, and say that the file's part of the buffer is there.
pub fn closing_file(opening: &[u8], calls: &[u8], out: &mut [u8]) -> Result<usize, Refusal>
    ensures closing_written { ClosingWritten opening.now calls.now out.old out.new
        (answer_number result) (answer_or 0 result) }
    ensures within { IfOk result (λ n. n ≤ length out.new) }
    ensures whole { IfOk result (λ n. n ≡ length (take n out.new)) }
{
    let mut buffers = Buffers::blank();
    let closing = files::carry_out_files(opening, calls, &mut buffers)?;
    let books = Books {
        scalars: closing.scalars,
        identities: &buffers.identities,
        validators: &buffers.validators,
        deposits: &buffers.deposits,
        partials: &buffers.partials,
        consolidations: &buffers.consolidations,
    };
    books_writer::write_books(closing.settings, &books, out)
}

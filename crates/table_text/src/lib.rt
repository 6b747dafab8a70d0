// What the program `books` prints, put at the start of a lent buffer: the table of a run, or the number of a refusal.

// Digits stay put by hand, into a lent buffer at a place: there is no heap here, and std states what `write!` writes
// only for a `String`.

#![tactic(auto)]

ghost use Rattle.std.specs.Prelude.{◌≡◌, ◌+◌, ◌*◌, ◌%◌, ◌≤◌, ◌<◌, length};
ghost use Rattle.std.proofs.lemmas.List.Edits.{sets};
ghost use Rattle.table_text.specs.Lines.{line, lines_of};
ghost use Rattle.table_text.specs.Text.{decimal, field, text_line, text_lines, table_text, refused_text, Printed};

// Bytes, from `at` on.
fn put_bytes(out: &mut [u8], at: usize, bytes: &[u8])
    requires { at + length bytes.now ≤ length out.old }
    ensures { out.new ≡ sets out.old at bytes.now }
{
    out[at..at + bytes.len()].copy_from_slice(bytes);
}

fn digit(n: u64) -> u8
    ensures { result ≡ 48 + n % 10 }
{
    b'0' + (n % 10) as u8
}

// The last digits of n, from `at` on.
fn put_decimal(out: &mut [u8], at: usize, width: usize, n: u64)
    requires { at + width ≤ length out.old }
    ensures { out.new ≡ sets out.old at (decimal width n) }
{
    let mut left = n;
    for i in (0..width).rev() {
        out[at + i] = digit(left);
        left /= 10;
    }
}

// The last digits of n, from `at` on, and a byte behind them.
fn put_field(out: &mut [u8], at: usize, width: usize, n: u64, behind: u8)
    requires { at + width < length out.old }
    ensures { out.new ≡ sets out.old at (field width n behind) }
{
    put_decimal(out, at, width, n);
    out[at + width] = behind;
}

// One line of the table, 32 bytes.
fn put_line(out: &mut [u8], at: usize, position: u64, code: u64, answer: u64, total: u64)
    requires { at + 32 ≤ length out.old }
    ensures { out.new ≡ sets out.old at (text_line position (line code answer total)) }
{
    put_field(out, at, 4, position, b' ');
    put_field(out, at + 5, 2, code, b' ');
    put_field(out, at + 8, 2, answer, b' ');
    put_field(out, at + 11, 20, total, b'\n');
}

// One line for each of n calls, behind the header. The results hold three numbers a call: code, answer, total.
fn put_lines(results: &[u64], n: usize, out: &mut [u8])
    requires results_hold_calls { 3 * n ≤ length results.now }
    requires out_holds_lines { 23 + 32 * n ≤ length out.old }
    ensures { out.new ≡ sets out.old 23 (text_lines 1 (lines_of results.now n)) }
{
    for i in 0..n {
        let code = results[3 * i];
        let answer = results[3 * i + 1];
        let total = results[3 * i + 2];
        put_line(out, 23 + 32 * i, i as u64 + 1, code, answer, total);
    }
}

// The table of n calls; its length. The results lie in a fixed buffer, of which a run fills the first n lines.
pub fn put_table(results: &[u64], n: usize, out: &mut [u8]) -> usize
    requires results_hold_calls { 3 * n ≤ length results.now }
    requires out_holds_lines { 23 + 32 * n ≤ length out.old }
    ensures { Printed (table_text (lines_of results.now n)) out.old out.new result }
{
    put_bytes(out, 0, b"call code answer total\n");
    put_lines(results, n, out);
    23 + 32 * n
}

// The number of a refusal; 11 bytes.
pub fn put_refused(out: &mut [u8], number: u8) -> usize
    requires { 11 ≤ length out.old }
    ensures { Printed (refused_text number) out.old out.new result }
{
    put_bytes(out, 0, b"refused ");
    put_field(out, 8, 2, number as u64, b'\n');
    11
}

// Files and other input, read into lent buffers.

#![tactic(auto)]

ghost use Rattle.std.specs.Prelude.{◌<◌, take, length, IfOk};
ghost use Rattle.std.specs.Io.{ReadsAtMost};
ghost use Rattle.std.specs.Io.KnownBytes.{Consumes, IsAtEnd};

use std::io::Read;
use std::rt::Files;
use std::{fs, io};

// Reads until the buffer is full or the input ends; how many bytes it put at the buffer's start.
// `read_exact` would not say how many bytes came before an early end.
pub fn read_full<R: Read>(reader: &mut R, buf: &mut [u8]) -> io::Result<usize>
    ensures bound { ReadsAtMost result buf.new }
    ensures bytes { IfOk result (λ n.
        Consumes (R.remaining reader.old) (R.remaining reader.new) (take n buf.new)) }
    ensures end { IfOk result (λ n. n < length buf.new → IsAtEnd (R.remaining reader.new)) }
{
    let mut done: usize = 0;
    while done < buf.len() {
        let n = reader.read(&mut buf[done..])?;
        if n == 0 {
            break;
        }
        done += n;
    }
    Ok(done)
}

// The start of the file in the buffer; how many bytes. A file that cannot be opened counts as empty.
pub fn read_file(files: &impl Files, name: &str, buf: &mut [u8]) -> io::Result<usize>
    ensures { ReadsAtMost result buf.new }
{
    match fs::open(files, name) {
        Ok(mut file) => read_full(&mut file, buf),
        Err(_) => Ok(0),
    }
}

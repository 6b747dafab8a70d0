// The words of a file as text.
ghost use Rattle.std.specs.Prelude.{◌≤◌};

use crate::shapes::{CALLS, Field, Fields, LISTS, List, SCALARS, SETTINGS, WITHDRAWALS};
use crate::words::{Fault, Words};
use std::fs::File;
use std::io;
use std::io::{Stdout, Write};

// Text that waits to be written, and whether it ends within a line.
// The buffer stays one of its own, no BufWriter: that one writes what waits also where a read has failed, and is taken
// from the heap, which can fail. The flag stays beside it: it is no answer, but what the writer knows of its last byte.
#[derive(Drop)]
struct Lines {
    to: Stdout,
    buf: [u8; 65536],
    count: usize,
    within: bool,
}

impl Write for Lines {
    // A full buffer is written at once, and then nothing waits.
    fn write(&mut self, buf: &[u8]) -> io::Result<usize> {
        let at = self.count % 65536;
        let n = buf.len().min(65536 - at);
        self.buf[at..at + n].copy_from_slice(&buf[..n]);
        self.count = at + n;
        if let Some(last) = buf[..n].last() {
            self.within = *last != b'\n';
        }
        if self.count == 65536 {
            self.to.write_all(&self.buf)?;
        }
        Ok(n)
    }

    fn flush(&mut self) -> io::Result<()> {
        let n = self.count % 65536;
        self.to.write_all(&self.buf[..n])?;
        self.count = 0;
        Ok(())
    }
}

#[derive(Drop)]
pub struct Text {
    words: Words,
    out: Lines,
}

impl Text {
    pub fn new(file: File, to: Stdout) -> Text {
        Text {
            words: Words::new(file),
            out: Lines {
                to,
                buf: [0; 65536],
                count: 0,
                within: false,
            },
        }
    }

    // The next three bytes, of which the first n belong to the field; the others are zero.
    fn three(&mut self, n: usize) -> Result<(), Fault>
        requires { n ≤ 3 }
    {
        let [_, a, b, c] = self.words.payload(6, 0x100_0000)?.to_be_bytes();
        let bytes = [a, b, c];
        for b in &bytes[..n] {
            write!(self.out, "{b:02x}")?;
        }
        if bytes[n..].iter().any(|b| *b != 0) {
            return Err(Fault::Broken);
        }
        Ok(())
    }

    // n bytes in hexadecimal, three to a word.
    fn bytes(&mut self, n: usize) -> Result<(), Fault> {
        write!(self.out, "0x")?;
        for _ in 0..n / 3 {
            self.three(3)?;
        }
        if n % 3 == 0 {
            Ok(())
        } else {
            self.three(n % 3)
        }
    }

    fn field(&mut self, field: Field) -> Result<(), Fault> {
        match field {
            Field::Number => {
                let n = self.words.number()?;
                write!(self.out, "{n}")?;
            }
            Field::Flag => {
                let flag = self.words.payload(7, 2)?;
                write!(self.out, "{flag}")?;
            }
            Field::Bytes(n) => self.bytes(n)?,
        }
        Ok(())
    }

    // What follows at the end of a line.
    fn fields(&mut self, fields: Fields) -> Result<(), Fault> {
        for (name, field) in fields {
            write!(self.out, " {name} ")?;
            self.field(*field)?;
        }
        writeln!(self.out)?;
        Ok(())
    }

    fn numbers(&mut self, what: &str, names: &[&str]) -> Result<(), Fault> {
        for name in names {
            write!(self.out, "{what} {name} ")?;
            let n = self.words.number()?;
            writeln!(self.out, "{n}")?;
        }
        Ok(())
    }

    fn count(&mut self, heading: &str, limit: u32) -> Result<u32, Fault> {
        let n = self.words.payload(2, limit)?;
        writeln!(self.out, "{heading} {n}")?;
        Ok(n)
    }

    fn list(&mut self, list: &List) -> Result<(), Fault> {
        let n = self.count(list.heading, list.limit)?;
        for i in 0..n {
            write!(self.out, "{} {i}", list.name)?;
            self.fields(list.fields)?;
        }
        Ok(())
    }

    fn books(&mut self) -> Result<(), Fault> {
        writeln!(self.out, "books")?;
        self.numbers("setting", &SETTINGS)?;
        self.numbers("scalar", &SCALARS)?;
        for list in &LISTS {
            self.list(list)?;
        }
        Ok(())
    }

    // Call i, counted from 1 as in the table of `books`.
    fn call(&mut self, i: u32) -> Result<(), Fault> {
        let code = self.words.payload(9, 9)?;
        let Some(call) = CALLS.iter().find(|call| call.code == code) else {
            return Err(Fault::Broken);
        };
        write!(self.out, "call {i} {}", call.name)?;
        self.fields(call.fields)?;
        if code == 8 {
            self.list(&WITHDRAWALS)?;
        }
        Ok(())
    }

    fn calls(&mut self) -> Result<(), Fault> {
        let n = self.count("calls", 10_000)?;
        for i in 0..n {
            self.call(i + 1)?;
        }
        Ok(())
    }

    fn file(&mut self) -> Result<(), Fault> {
        match self.words.next()? {
            0x1000_0001 => self.books()?,
            0x1000_0002 => self.calls()?,
            _ => return Err(Fault::Broken),
        }
        self.words.end()
    }

    // The file up to its end, or to the first word that is not as it should be.
    pub fn show(mut self) -> io::Result<()> {
        match self.file() {
            Ok(()) => writeln!(self.out, "end")?,
            Err(Fault::Broken) => {
                if self.out.within {
                    writeln!(self.out)?;
                }
                writeln!(self.out, "broken")?;
            }
            Err(Fault::Io(e)) => return Err(e),
        }
        self.out.flush()
    }
}

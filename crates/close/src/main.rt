// Carries out the calls of calls.w on the books of opening.w, and writes the closing books to closing.w, all in the
// working directory. It refuses what `books` refuses, in the same words, and then writes no file.

#![tactic(auto)]

use books_output::closing::closing_file;
use full_reads::read_file;
use primitives::answers::Refusal;
use std::rt::Files;
use std::{fs, io};

// One byte more than a file may have, so that a longer one shows.
const FILE: usize = 65537;

// Room for books with 256 records of each kind.
const CLOSING: usize = 68968;

fn print_refused(to: &impl Print, refusal: Refusal) -> io::Result<()> {
    let mut line = [0; 11];
    table_text::put_refused(&mut line, refusal.number());
    to.write_all(&line)
}

// Writes the file and says so in one line, or says on the standard error why it could not.
fn write(rt: &(impl Files + Print + Eprint), bytes: &[u8]) -> io::Result<()> {
    match fs::write(rt, "closing.w", bytes) {
        Ok(()) => println!(rt; "closing.w {} bytes", bytes.len()),
        Err(e) => eprintln!(rt; "closing.w: {e}"),
    }
}

fn main(rt: HostRuntime) -> io::Result<()> {
    let mut opening = [0; FILE];
    let mut calls = [0; FILE];
    let mut out = [0; CLOSING];
    let n = read_file(&rt, "opening.w", &mut opening)?;
    let m = read_file(&rt, "calls.w", &mut calls)?;
    match closing_file(&opening[..n], &calls[..m], &mut out) {
        Ok(length) => write(&rt, &out[..length]),
        Err(refusal) => print_refused(&rt, refusal),
    }
}

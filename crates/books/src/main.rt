// Carries out the calls of calls.w on the books of opening.w, both in the working directory, and prints a line for each
// call. All that lies between the bytes read and the bytes written is `books_output::books_output`.

#![tactic(auto)]

use full_reads::read_file;
use std::io;

// One byte more than a file may have, so that a longer one shows.
const FILE: usize = 65537;

// The header, and a line for each of 9,999 calls.
const OUTPUT: usize = 319991;

fn main(rt: HostRuntime) -> io::Result<()> {
    let mut opening = [0; FILE];
    let mut calls = [0; FILE];
    let mut out = [0; OUTPUT];
    let n = read_file(&rt, "opening.w", &mut opening)?;
    let m = read_file(&rt, "calls.w", &mut calls)?;
    let k = books_output::books_output(&opening[..n], &calls[..m], &mut out);
    rt.write_all(&out[..k])
}

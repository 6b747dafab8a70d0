// Replays recorded cases through the library and compares what it answers with what was recorded: one line a group,
// then one for all. Of the first difference all is printed. The container is described in oracle/recorded/README.md.

#![tactic(auto)]

use file_words::word_at;
use full_reads::read_full;
use recorded_cases::books::{Output, Results};
use recorded_cases::compare::Replay;
use recorded_cases::container::{Case, Fault, Flag, Section, next_case};
use replayed_parts::assignments;
use std::io::Read;
use std::rt::Files;
use std::{fs, io};

// For the program: what `books` prints of the two files.
fn program<P: Print>(replay: &mut Replay<P>, case: &Case, out: &mut Output) -> io::Result<()> {
    let opening = case.payload(Section::Opening);
    let calls = case.payload(Section::Calls);
    let n = books_output::books_output(opening, calls, out);
    replay.check("output", case.payload(Section::Printed), &out[..n])
}

// A case holds bare assignments, or files for the program, the library or both.
fn one_case<P: Print>(
    replay: &mut Replay<P>,
    case: &Case,
    results: &mut Results,
    out: &mut Output,
) -> io::Result<()> {
    replay.begin(case)?;
    let rows = case.payload(Section::Assignments);
    if !rows.is_empty() {
        return assignments::replay(replay, rows, out);
    }
    if case.has(Flag::Program) {
        program(replay, case, out)?;
    }
    replayed_cases::replay(replay, case, results, out)
}

// The cases that the head counts, and nothing behind them.
fn cases<P: Print>(replay: &mut Replay<P>, file: &mut impl Read) -> Result<(), Fault> {
    let mut head = [0u8; 16];
    if read_full(file, &mut head)? != 16 {
        return Err(Fault::Broken);
    }
    let mut sections = [0; 368640];
    let mut results = [0; 29997];
    let mut out = [0; 319991];
    for _ in 0..word_at(&head, 1) % 65536 {
        let case = next_case(file, &mut sections)?;
        one_case(replay, &case, &mut results, &mut out)?;
    }
    if read_full(file, &mut head)? != 0 {
        return Err(Fault::Broken);
    }
    Ok(())
}

fn replay_file(to: &impl Print, file: &mut impl Read) -> io::Result<()> {
    let mut replay = Replay::new(to);
    let replayed = cases(&mut replay, file);
    if let Err(Fault::Io(e)) = replayed {
        return Err(e);
    }
    replay.end()?;
    if replayed.is_err() {
        println!(to; "the container is broken")?;
    }
    Ok(())
}

fn replay_path(rt: &(impl Files + Print), path: &str) -> io::Result<()> {
    println!(rt; "{path}")?;
    match fs::open(rt, path) {
        Ok(mut file) => replay_file(rt, &mut file),
        Err(_) => println!(rt; "no such file"),
    }
}

fn main(rt: HostRuntime) -> io::Result<()> {
    replay_path(&rt, "recorded.bin")?;
    replay_path(&rt, "wrong.bin")
}

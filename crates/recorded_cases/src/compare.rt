// What was recorded against what was found. Differences are counted, and the first is printed in full.
use crate::container::Case;
use std::ops::AddAssign;
use std::{fmt, io};

#[derive(Clone, Copy, Default)]
pub struct Counts {
    pub cases: u64,
    pub calls: u64,
    pub assignments: u64,
    pub compared: u64,
    pub differences: u64,
}

impl AddAssign for Counts {
    fn add_assign(&mut self, more: Counts) {
        self.cases = self.cases.wrapping_add(more.cases);
        self.calls = self.calls.wrapping_add(more.calls);
        self.assignments = self.assignments.wrapping_add(more.assignments);
        self.compared = self.compared.wrapping_add(more.compared);
        self.differences = self.differences.wrapping_add(more.differences);
    }
}

impl fmt::Display for Counts {
    fn fmt<W: fmt::Write>(&self, f: &mut fmt::Formatter<W>) -> fmt::Result {
        write!(f, "cases {} calls {}", self.cases, self.calls)?;
        write!(f, " assignments {}", self.assignments)?;
        write!(f, " compared {}", self.compared)?;
        write!(f, " differences {}", self.differences)
    }
}

// Where the differences are printed, the case that is replayed, its group, the counts of this group and those of the
// groups before it.
#[derive_where(Clone, Copy)]
pub struct Replay<'a, P: Print> {
    to: &'a P,
    case: u32,
    group: u32,
    of_group: Counts,
    before: Counts,
}

impl<'a, P: Print> Replay<'a, P> {
    pub fn new(to: &'a P) -> Self {
        Replay {
            to,
            case: 0,
            group: 0,
            of_group: Counts::default(),
            before: Counts::default(),
        }
    }

    pub fn count(&mut self, more: Counts) {
        self.of_group += more;
    }

    // The counts with this group among those before.
    fn all(&self) -> Counts {
        let mut all = self.before;
        all += self.of_group;
        all
    }

    fn print_group(&self) -> io::Result<()> {
        if self.group == 0 {
            return Ok(());
        }
        println!(self.to; "group {:02} {}", self.group, self.of_group)
    }

    // A case that begins: with another group the counts of the last are printed.
    pub fn begin(&mut self, case: &Case) -> io::Result<()> {
        self.case = case.number;
        if case.group != self.group {
            self.print_group()?;
            self.before = self.all();
            self.group = case.group;
            self.of_group = Counts::default();
        }
        self.count(Counts {
            cases: 1,
            ..Counts::default()
        });
        Ok(())
    }

    // The last group, and all of them.
    pub fn end(&self) -> io::Result<()> {
        self.print_group()?;
        println!(self.to; "all groups {}", self.all())
    }

    // `what` names the thing that is compared.
    pub fn check(&mut self, what: &str, recorded: &[u8], found: &[u8]) -> io::Result<()> {
        let difference = first_difference(recorded, found);
        if let Some(at) = difference {
            if self.all().differences == 0 {
                println!(self.to; "difference in case {}: {what}, from byte {at}", self.case)?;
                print_whole(self.to, "recorded", recorded)?;
                print_whole(self.to, "found", found)?;
            }
        }
        self.count(Counts {
            compared: 1,
            differences: u64::from(difference.is_some()),
            ..Counts::default()
        });
        Ok(())
    }
}

// The first place where a and b are not the same, which may be the end of the shorter.
fn first_difference(a: &[u8], b: &[u8]) -> Option<usize> {
    if a == b {
        return None;
    }
    Some(a.iter().zip(b).take_while(|(x, y)| x == y).count())
}

fn is_text(bytes: &[u8]) -> bool {
    bytes.iter().all(|b| matches!(*b, b'\n' | b' '..=b'~'))
}

// In hexadecimal, 32 bytes a line.
fn print_bytes(to: &impl Print, bytes: &[u8]) -> io::Result<()> {
    for (i, b) in bytes.iter().enumerate() {
        print!(to; "{b:02x}")?;
        if i % 32 == 31 {
            println!(to)?;
        }
    }
    println!(to)
}

fn print_whole(to: &impl Print, name: &str, bytes: &[u8]) -> io::Result<()> {
    println!(to; "{name}, bytes {}", bytes.len())?;
    if is_text(bytes) {
        to.write_all(bytes)
    } else {
        print_bytes(to, bytes)
    }
}

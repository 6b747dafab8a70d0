// The container of the recorded cases: the head of a case, and the sections behind it.
ghost use Rattle.std.specs.Prelude.{length};
ghost use Rattle.std.specs.Iterator.{at_most};

use file_words::word_at;
use full_reads::read_full;
use std::io;
use std::io::Read;

// Why no case was read.
// It stays an enum of its own: an error, of which one case keeps the cause that std gives.
#[derive(Debug, Drop)]
pub enum Fault {
    Broken,
    Io(io::Error),
}

impl From<io::Error> for Fault {
    fn from(e: io::Error) -> Fault {
        Fault::Io(e)
    }
}

// Each is a bit of its own.
#[derive(Clone, Copy)]
pub enum Flag {
    Program = 1,
    Library = 2,
    StepsAlone = 4,
    Lent = 8,
}

#[derive(Clone, Copy)]
pub enum Section {
    Opening = 1,
    Calls = 2,
    Printed = 3,
    Closing = 4,
    Expected = 5,
    Assignments = 6,
}

// A case: its number and its group, its flags, the room of the tables, and its sections.
#[derive(Clone, Copy)]
pub struct Case<'a> {
    pub number: u32,
    pub group: u32,
    flags: u32,
    pub room: usize,
    sections: &'a [u8],
}

// The sections from here on: the kind and the payload of each, which is padded to whole words.
#[derive(Drop)]
struct Sections<'a>(&'a [u8]);

impl<'a> Iterator for Sections<'a> {
    type Item = (u32, &'a [u8]);

    ghost remaining = { λ s. at_most (length s.0.now) };

    fn next(&mut self) -> Option<(u32, &'a [u8])> {
        let (head, behind) = self.0.split_first_chunk::<8>()?;
        let (payload, rest) = behind.split_at_checked(word_at(head, 1) as usize)?;
        let padding = payload.len().wrapping_neg() % 4;
        self.0 = rest.get(padding..).unwrap_or(&[]);
        Some((word_at(head, 0), payload))
    }
}

impl<'a> Case<'a> {
    pub fn has(&self, flag: Flag) -> bool {
        self.flags & flag as u32 != 0
    }

    // The payload of the section of this kind; empty where there is none.
    pub fn payload(&self, section: Section) -> &'a [u8] {
        let wanted = section as u32;
        for (kind, payload) in Sections(self.sections) {
            if kind == wanted {
                return payload;
            }
        }
        &[]
    }
}

// The next case, its sections put into a buffer.
pub fn next_case<'a>(
    file: &mut impl Read,
    buffer: &'a mut [u8; 368640],
) -> Result<Case<'a>, Fault> {
    let mut head = [0u8; 24];
    let got = read_full(file, &mut head)?;
    let room = word_at(&head, 3) as usize;
    let bytes = word_at(&head, 5) as usize;
    if got != 24 || 512 < room || 368640 < bytes {
        return Err(Fault::Broken);
    }
    let sections = &mut buffer[..bytes];
    if read_full(file, sections)? != bytes {
        return Err(Fault::Broken);
    }
    Ok(Case {
        number: word_at(&head, 0),
        group: word_at(&head, 1),
        flags: word_at(&head, 2),
        room,
        sections,
    })
}

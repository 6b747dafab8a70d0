// The tables that are lent, and books in them.
use primitives::{Scalars, Settings};
use records::books;

// What `books` prints of 9,999 calls.
pub type Output = [u8; 319991];

// Three numbers a call, for 9,999 calls.
pub type Results = [u64; 29997];

// Five tables for 512 records each, of which `room` are lent.
#[derive(Drop)]
pub struct Tables {
    room: usize,
    identities: [u8; 40960],
    validators: [u64; 3584],
    deposits: [u64; 1024],
    partials: [u64; 1536],
    consolidations: [u64; 1024],
}

// The tables as they are lent to a call that writes them.
#[derive(Drop)]
pub struct Lent<'a> {
    pub identities: &'a mut [u8],
    pub validators: &'a mut [u64],
    pub deposits: &'a mut [u64],
    pub partials: &'a mut [u64],
    pub consolidations: &'a mut [u64],
}

// Books in tables that are lent, since each function that holds the tables by value clears and copies 98,568 bytes.
#[derive(Drop)]
pub struct Books<'a> {
    pub settings: Settings,
    pub scalars: Scalars,
    pub tables: &'a mut Tables,
}

impl Tables {
    pub fn new(room: usize) -> Tables {
        Tables {
            room,
            identities: [0; 40960],
            validators: [0; 3584],
            deposits: [0; 1024],
            partials: [0; 1536],
            consolidations: [0; 1024],
        }
    }

    pub fn room(&self) -> usize {
        self.room
    }

    pub fn lend(&mut self) -> Lent<'_> {
        let room = self.room.min(512);
        let Tables {
            room: _,
            identities,
            validators,
            deposits,
            partials,
            consolidations,
        } = self;
        Lent {
            identities: &mut identities[..room * 80],
            validators: &mut validators[..room * 7],
            deposits: &mut deposits[..room * 2],
            partials: &mut partials[..room * 3],
            consolidations: &mut consolidations[..room * 2],
        }
    }
}

impl Books<'_> {
    // The books as they are lent to a call that reads them.
    pub fn see(&self) -> books::Books<'_> {
        let tables = &*self.tables;
        let room = tables.room.min(512);
        books::Books {
            scalars: self.scalars,
            identities: &tables.identities[..room * 80],
            validators: &tables.validators[..room * 7],
            deposits: &tables.deposits[..room * 2],
            partials: &tables.partials[..room * 3],
            consolidations: &tables.consolidations[..room * 2],
        }
    }
}

// The words of a file, one after another, through a buffer that is filled again when it is used up.
use full_reads::read_full;
use std::fs::File;
use std::io;

// Why the text ends early.
// It stays an enum of its own: an error, of which one case keeps the cause that std gives.
#[derive(Debug, Drop)]
pub enum Fault {
    Broken,
    Io(io::Error),
}

impl From<io::Error> for Fault {
    fn from(e: io::Error) -> Fault {
        Fault::Io(e)
    }
}

// A file, what was read of it last, the place of the next word there and how many are there; and the sum of the words
// that were taken.
// The buffer stays one of its own, no BufReader: where the last bytes are no whole word, the text ends before the words
// read with them.
#[derive(Drop)]
pub struct Words {
    file: File,
    buf: [u8; 65536],
    place: usize,
    count: usize,
    sum: u32,
}

impl Words {
    pub fn new(file: File) -> Words {
        Words {
            file,
            buf: [0; 65536],
            place: 0,
            count: 0,
            sum: 0,
        }
    }

    // Reads on; how many bytes there were.
    fn read(&mut self) -> io::Result<usize> {
        let got = read_full(&mut self.file, &mut self.buf)?;
        self.place = 0;
        self.count = got / 4;
        Ok(got)
    }

    // Words that are cut short are broken.
    fn fill(&mut self) -> Result<(), Fault> {
        if self.read()? % 4 != 0 {
            return Err(Fault::Broken);
        }
        Ok(())
    }

    pub fn next(&mut self) -> Result<u32, Fault> {
        if self.count <= self.place {
            self.fill()?;
        }
        if self.count <= self.place {
            return Err(Fault::Broken);
        }
        let word = file_words::word_at(&self.buf, self.place);
        self.place += 1;
        self.sum = self.sum.wrapping_add(word);
        Ok(word)
    }

    // What the next word holds beside its kind, where it is of this kind and that is below the limit.
    pub fn payload(&mut self, kind: u32, limit: u32) -> Result<u32, Fault> {
        let word = self.next()?;
        if file_words::is_word(kind, limit, word) {
            Ok(word % 0x1000_0000)
        } else {
            Err(Fault::Broken)
        }
    }

    pub fn number(&mut self) -> Result<u64, Fault> {
        let low = self.payload(3, 0x1000_0000)?;
        let middle = self.payload(4, 0x1000_0000)?;
        let top = self.payload(5, 256)?;
        Ok(u64::from(top) << 56 | u64::from(middle) << 28 | u64::from(low))
    }

    // The end word, and no word after it.
    pub fn end(&mut self) -> Result<(), Fault> {
        let sum = self.sum;
        let last = self.payload(8, 0x1000_0000)?;
        if self.count <= self.place {
            self.read()?;
        }
        if last != sum % 0x1000_0000 || self.place < self.count {
            return Err(Fault::Broken);
        }
        Ok(())
    }
}

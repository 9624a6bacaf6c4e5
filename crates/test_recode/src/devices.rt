//! Devices of the tests: a sink that fails, and lists that are made up as they are read.
use std::alloc::Global;
use std::cell::Cell;
use std::io::{self, ErrorKind, Read, Write};
use std::test::Fail;

/// Takes at most `piece` bytes a call, and fails once it was asked `sound` times.
#[derive(Drop)]
pub struct Sink {
    taken: Vec<u8>,
    piece: usize,
    sound: usize,
    is_asked: bool,
}

impl Sink {
    /// A sink that has taken nothing.
    pub fn new(alloc: Global, piece: usize, sound: usize) -> Sink {
        Sink {
            taken: Vec::new(alloc),
            piece,
            sound,
            is_asked: false,
        }
    }

    /// What it took.
    pub fn taken(&self) -> &[u8] {
        self.taken.as_slice()
    }

    /// Whether it was asked to take any.
    pub fn is_asked(&self) -> bool {
        self.is_asked
    }
}

impl Write for Sink {
    fn write(&mut self, buf: &[u8]) -> io::Result<usize> {
        self.is_asked = true;
        if self.sound == 0 {
            return Err(io::Error::from(ErrorKind::Other));
        }
        self.sound -= 1;
        let n = self.piece.min(buf.len());
        self.taken.extend_from_slice(&buf[..n])?;
        Ok(n)
    }

    fn flush(&mut self) -> io::Result<()> {
        Ok(())
    }
}

/// So many lists of as many numbers each, encoded.
pub fn lists_of(alloc: Global, count: u64, len: u64) -> Result<Vec<u8>, Fail> {
    let mut bytes = Vec::from_slice(alloc, count.to_le_bytes().as_slice())?;
    for list in 0..count {
        bytes.extend_from_slice(len.to_le_bytes().as_slice())?;
        for number in 0..len {
            let item = list.wrapping_mul(1_000).wrapping_add(number);
            bytes.extend_from_slice(item.to_le_bytes().as_slice())?;
        }
    }
    Ok(bytes)
}

/// How many lists are made up.
const LISTS: usize = 2_000;

/// How many numbers each of them has.
const NUMBERS: usize = 30;

/// How many bytes a list that is made up has.
const LIST: usize = 248;

/// How many bytes there may be between what was given and what was taken: a list, and two buffers of 8192 bytes.
pub const WIDEST: usize = 16_632;

/// How many bytes are made up.
pub fn long_size() -> usize {
    LISTS.wrapping_mul(LIST).wrapping_add(8)
}

/// The byte of the lists that are made up at this place.
fn made_up(at: usize) -> u8 {
    if at < 8 {
        return (LISTS as u64).to_le_bytes()[at];
    }
    let within = (at - 8) % LIST;
    if within < 8 {
        return (NUMBERS as u64).to_le_bytes()[within];
    }
    (at % 251) as u8
}

/// Makes the lists up, and counts what it gave.
#[derive(Drop)]
pub struct Given<'a> {
    given: &'a Cell<usize>,
}

impl<'a> Given<'a> {
    /// The lists, of which as many bytes were given as are counted.
    pub fn new(given: &'a Cell<usize>) -> Given<'a> {
        Given { given }
    }
}

impl Read for Given<'_> {
    fn read(&mut self, buf: &mut [u8]) -> io::Result<usize> {
        let first = self.given.get();
        let n = long_size().saturating_sub(first).min(buf.len());
        for i in 0..n {
            buf[i] = made_up(first.wrapping_add(i));
        }
        self.given.set(first.wrapping_add(n));
        Ok(n)
    }
}

/// Takes what was made up, and counts what it took, and how much was on the way at the most. It fails at another byte.
#[derive(Drop)]
pub struct Taken<'a> {
    given: &'a Cell<usize>,
    taken: &'a Cell<usize>,
    widest: &'a Cell<usize>,
}

impl<'a> Taken<'a> {
    /// A sink that counts into these.
    pub fn new(
        given: &'a Cell<usize>,
        taken: &'a Cell<usize>,
        widest: &'a Cell<usize>,
    ) -> Taken<'a> {
        Taken {
            given,
            taken,
            widest,
        }
    }
}

impl Write for Taken<'_> {
    fn write(&mut self, buf: &[u8]) -> io::Result<usize> {
        let first = self.taken.get();
        for i in 0..buf.len() {
            if buf[i] != made_up(first.wrapping_add(i)) {
                return Err(io::Error::from(ErrorKind::InvalidData));
            }
        }
        let on_the_way = self.given.get().saturating_sub(first);
        self.widest.set(self.widest.get().max(on_the_way));
        self.taken.set(first.wrapping_add(buf.len()));
        Ok(buf.len())
    }

    fn flush(&mut self) -> io::Result<()> {
        Ok(())
    }
}

//! A reader that tells how far it was asked to look.
ghost use Rattle.std.specs.Prelude.{◌≡◌};
ghost use Rattle.wincode_io.specs.Readers.{memory, nothing};

use std::marker::Model;
use wincode::io::{Lifetime, ReadError, ReadResult, ReadWindow, Reader, TrustedSliceReader};

/// Reads bytes from their front, and keeps how many bytes from the beginning it was asked for, or gave, at the most.
/// Whoever asks a pipe for more than a value needs waits for bytes that may not come. It lends nothing.
#[derive(Drop)]
pub struct AskedReader<'a> {
    rest: &'a [u8],
    gone: usize,
    furthest: usize,
}

impl<'a> Model for AskedReader<'a> {
    ghost use Rattle.std.specs.Prelude.{ℕ, List};

    ghost Value = { List ℕ };

    ghost view = { λ r. r.rest.now };
}

impl<'a> AskedReader<'a> {
    /// A reader of these bytes, which was asked for none.
    pub fn new(bytes: &'a [u8]) -> AskedReader<'a>
        ensures { result ≡ bytes.now }
    {
        AskedReader {
            rest: bytes,
            gone: 0,
            furthest: 0,
        }
    }

    /// How many bytes are left.
    pub fn left(&self) -> usize {
        self.rest.len()
    }

    /// How many bytes from the beginning it was asked for, or gave, at the most.
    pub fn furthest(&self) -> usize {
        self.furthest
    }
}

impl<'a> Reader<Lifetime<'a>> for AskedReader<'a> {
    ghost state = { λ r. memory nothing r };

    fn fill(&mut self, n: usize) -> ReadResult<()> {
        self.furthest = self.furthest.max(self.gone.saturating_add(n));
        Ok(())
    }

    fn at_hand(&self) -> &[u8] {
        self.rest
    }

    fn consume_unchecked(&mut self, n: usize) {
        let all = self.rest;
        self.gone = self.gone.saturating_add(n);
        self.furthest = self.furthest.max(self.gone);
        self.rest = &all[n..];
    }

    fn borrow_exact(&mut self, _n: usize) -> ReadResult<&'a [u8]> {
        Err(ReadError::UnsupportedZeroCopy)
    }

    fn borrow_exact_mut(&mut self, _n: usize) -> ReadResult<&'a mut [u8]> {
        Err(ReadError::UnsupportedZeroCopy)
    }

    fn as_trusted_for(&mut self, n: usize) -> ReadResult<ReadWindow<Lifetime<'a>>> {
        self.fill(n)?;
        let all = self.rest;
        if n <= all.len() {
            let (front, rest) = all.split_at(n);
            self.gone = self.gone.saturating_add(n);
            self.rest = rest;
            Ok(ReadWindow::Plain(TrustedSliceReader::<Lifetime<'a>>::new(front)))
        } else {
            Err(ReadError::ReadSizeLimit(n))
        }
    }
}

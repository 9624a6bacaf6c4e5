//! std's readers as sources.
ghost use Rattle.std.specs.Prelude.{◌≡◌};
ghost use Rattle.std.specs.declared.io.ErrorKind.TheVariants.{Other};
ghost use Rattle.wincode_io.specs.StdSources.{std_state};

use super::source::Source;
use std::io::{self, Read};
use std::marker::Model;
use std::snapshot::Snapshot;

/// The bytes of one of std's readers. Every error of the reader is a failure; the count stays at
/// `usize::MAX` once there.
///
/// To contracts it is the reader, the reader as it was when the source was made, the count, and the kind of the last
/// failure.
#[derive(Drop)]
pub struct StdSource<R: Read> {
    inner: R,
    first: Snapshot<R>,
    failures: usize,
    last: Snapshot<io::ErrorKind>,
}

impl<R: Read> Model for StdSource<R> {
    ghost use Rattle.std.specs.Prelude.{ℕ, IsTrue, IsSome};
    ghost use Rattle.wincode_io.specs.StdSources.{Wrapped, are_known};

    ghost Value = { Wrapped R };

    ghost view = { λ s. record { inner = s.inner; first = s.first.value; failures = s.failures; last = s.last.value } };

    ghost invariant = { λ s. IsTrue (are_known (R.remaining s.first.value)) → IsSome (R.remaining s.inner) };
}

impl<R: Read> StdSource<R> {
    /// The bytes that this reader will give.
    pub fn new(inner: R) -> Self
        ensures { result ≡ record { inner = inner; first = inner; failures = 0; last = Other } }
    {
        let first = Snapshot::of(&inner);
        StdSource {
            inner,
            first,
            failures: 0,
            last: Snapshot::of(&io::ErrorKind::Other),
        }
    }

    /// The reader.
    pub fn into_inner(self) -> R
        ensures { result ≡ self.inner }
    {
        let StdSource {
            inner,
            first: _,
            failures: _,
            last: _,
        } = self;
        inner
    }
}

impl<R: Read> Source for StdSource<R> {
    ghost state = { std_state R.remaining };

    fn read_some(&mut self, buf: &mut [u8]) -> io::Result<usize> {
        match self.inner.read(buf) {
            Ok(n) => Ok(n),
            Err(e) => {
                self.failures = self.failures.saturating_add(1);
                self.last = Snapshot::of(&e.kind());
                Err(e)
            }
        }
    }
}

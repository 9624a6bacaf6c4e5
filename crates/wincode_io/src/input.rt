//! Bytes to read a value from.
ghost use Rattle.std.specs.Prelude.{◌≡◌};
ghost use Rattle.std.proofs.Common.{refl};
ghost use Rattle.wincode_io.specs.Readers.{ReaderState, memory, shared, for_writing};

use super::lending::{Lending, Lifetime};
use super::reader::Reader;

/// Bytes to read a value from, whose type names what they lend.
pub trait Input {
    type Lends: Lending;

    type Reads: Reader<Self::Lends> + Drop;

    // The bytes, as a reader at their beginning has them.
    ghost begins: { Self → ReaderState };

    /// A reader at the beginning of the bytes.
    fn reader(self) -> Self::Reads
        ensures { Self.Reads.state result ≡ begins self };
}

/// Lends shared bytes.
impl<'a> Input for &'a [u8] {
    type Lends = Lifetime<'a>;

    type Reads = &'a [u8];

    ghost begins = { λ s. memory shared s.now };

    fn reader(self) -> &'a [u8] {
        self
    }
}

/// Lends shared bytes.
impl<'a> Input for &'a Vec<u8> {
    type Lends = Lifetime<'a>;

    type Reads = &'a [u8];

    ghost begins = { λ v. memory shared v.now.items };

    fn reader(self) -> &'a [u8] {
        self.as_slice()
    }
}

/// Lends shared bytes.
impl<'a, const N: usize> Input for &'a [u8; N] {
    type Lends = Lifetime<'a>;

    type Reads = &'a [u8];

    ghost begins = { λ s. memory shared s.now };

    fn reader(self) -> &'a [u8] {
        &self[..]
    }
}

/// Lends bytes for writing.
impl<'a> Input for &'a mut [u8] {
    type Lends = Lifetime<'a>;

    type Reads = &'a mut [u8];

    ghost begins = { λ s. memory for_writing s.now };

    fn reader(self) -> &'a mut [u8] {
        self
    }
}

/// Bytes to read a value from that are lent for writing.
pub trait InputMut: Input {
    ghost lends: { (s : Self) → (Self.Input.begins s).lends ≡ for_writing };
}

impl<'a> InputMut for &'a mut [u8] {
    ghost lends = { λ s. refl };
}

//! What is written reads back: values whose lengths are within the limits by which they are read.
ghost use Rattle.std.specs.Prelude.{◌≡◌, false, IfErr, IfOk, IsTrue, OnOk};
ghost use Rattle.wincode_base.specs.Outcomes.{IsSerialized};
ghost use Rattle.wincode.specs.Limits.{LimitRefused};
ghost use Rattle.wincode.specs.declared.limits.LimitError.TheVariants.{Write};

mod leaves;
mod lists;
mod numbers;
mod parts;
mod std_types;
mod texts;
mod tuples;

use crate::len::{BincodeLen, SeqLen, ShortU16};
use crate::schema::SchemaWrite;
use crate::serde::Serialize;
use crate::shape::{By, Shape};
use std::alloc::Global;
use thiserror::Error;
use wincode_base::error::WriteError;

/// Why a value isn't written whose limits are looked at.
#[derive(Debug, Drop, Error)]
pub enum LimitError {
    /// Writing it is refused: what `serialize` answers.
    #[error(transparent)]
    Write(WriteError),
    /// A length in it is past the limit by which it is read, or an address of a socket has a flow label or a scope, which
    /// aren't written.
    #[error("a length is past the limit by which it is read")]
    PastLimit,
}

impl From<WriteError> for LimitError {
    ghost from_gives = { λ error made. made ≡ Write error };

    fn from(error: WriteError) -> LimitError {
        LimitError::Write(error)
    }
}

/// A schema that tells whether what it writes is within the limits by which that is read.
pub trait Limited: SchemaWrite + Sized {
    /// What a value counts against the limit of a list of such, as `prealloc_size` of reading.
    fn counts() -> usize
        ensures { result ≡ Self.SchemaWrite.writing.prealloc };

    /// Whether every value is within its limits, so that none has to be looked at.
    fn has_no_limits() -> bool
        ensures { IsTrue result → (x : Self.Src) → Self.SchemaWrite.is_valid x → Self.SchemaWrite.writing.fits (Self.SchemaWrite.model x) }
    {
        false
    }

    /// Whether each length in the value is within its limit, and nothing of it is left out.
    fn is_within(src: &Self::Src) -> bool
        ensures within { IsTrue result → Self.SchemaWrite.is_valid src.now → Self.SchemaWrite.writing.fits (Self.SchemaWrite.model src.now) }
        ensures past { result ≡ false → Self.SchemaWrite.writing.fits (Self.SchemaWrite.model src.now) → ⊥ };

    /// As `serialize`, of a value within its limits: the bytes read back as the value, by `RoundTrip`. Any other is
    /// refused as `PastLimit`, before memory is asked for.
    final fn serialize_limited(alloc: Global, src: &Self::Src) -> Result<Vec<u8>, LimitError>
        ensures ok { IfOk result (λ v. IsSerialized Self.SchemaWrite.writing (Self.SchemaWrite.model src.now) v.items) }
        ensures value { OnOk result (Self.SchemaWrite.is_valid src.now) }
        ensures within { OnOk result (Self.SchemaWrite.writing.fits (Self.SchemaWrite.model src.now)) }
        ensures err { IfErr result (LimitRefused Self.SchemaWrite.writing (Self.SchemaWrite.is_valid src.now) (Self.SchemaWrite.model src.now)) }
    {
        if !Self::is_within(src) {
            return Err(LimitError::PastLimit);
        }
        Ok(<Self as Serialize>::serialize(alloc, src)?)
    }
}

/// A length scheme that tells which lengths it reads.
pub trait LimitedLen: SeqLen {
    /// Whether the length of so many items is read, each of which counts `prealloc`.
    fn admits(len: usize, prealloc: usize) -> bool
        ensures within { IsTrue result → Self.SeqLen.scheme.admits len prealloc }
        ensures past { result ≡ false → Self.SeqLen.scheme.admits len prealloc → ⊥ };
}

impl<const MAX_SIZE: usize> LimitedLen for BincodeLen<MAX_SIZE> {
    #[inline(always)]
    fn admits(len: usize, prealloc: usize) -> bool {
        match len.checked_mul(prealloc) {
            Some(total) => total <= MAX_SIZE,
            None => false,
        }
    }
}

impl LimitedLen for ShortU16 {
    #[inline(always)]
    fn admits(len: usize, _prealloc: usize) -> bool {
        len < 65536
    }
}

/// A shape that tells whether its parts are within their limits.
pub trait LimitedShape: Shape {
    /// Whether each length in the parts is within its limit.
    fn parts_are_within(&self) -> bool
        ensures within { IsTrue result → Self.As.SchemaWrite.is_valid (Self.Shape.parts self.now)
            → Self.As.SchemaWrite.writing.fits (Self.As.SchemaWrite.model (Self.Shape.parts self.now)) }
        ensures past { result ≡ false → Self.As.SchemaWrite.writing.fits (Self.As.SchemaWrite.model (Self.Shape.parts self.now)) → ⊥ };
}

impl<T: LimitedShape> Limited for By<T>
where
    T::As: Limited,
{
    fn counts() -> usize {
        <T::As as Limited>::counts()
    }

    fn has_no_limits() -> bool {
        <T::As as Limited>::has_no_limits()
    }

    fn is_within(src: &T) -> bool {
        src.parts_are_within()
    }
}

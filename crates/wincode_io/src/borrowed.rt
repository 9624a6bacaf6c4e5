//! Bytes that a reader lends, by their type.
ghost use Rattle.std.specs.Prelude.{◌≡◌, ℕ, ◌<◌, IfOk, IfErr};
ghost use Rattle.wincode_io.specs.Bytes.{IsBytes};
ghost use Rattle.wincode_io.specs.Readers.{shared, for_writing, Lent, IsShort, BytesReadRefused, BorrowRefused};

use super::error::ReadResult;
use super::lending::{Held, Lending};
use super::reader::Reader;

/// Bytes that a reader lends: shared as `&[u8]`, for writing as `&mut [u8]`.
pub trait Borrowed<L: Lending>: Held {
    type Lent: Drop + Held;

    // What the reader has to lend.
    ghost borrow: { ℕ };

    /// The next `n` bytes, as `borrow_exact` or `borrow_exact_mut` lends them.
    fn borrow<R: Reader<L>>(reader: &mut R, n: usize) -> ReadResult<Self::Lent>
        ensures ok { IfOk result (λ s. Lent borrow n (R.state reader.old) (R.state reader.new) (Self.Lent.holds s)) }
        ensures bytes { IfOk result (λ s. IsBytes (Self.Lent.holds s)) }
        ensures unlent { (R.state reader.old).lends < borrow → IfErr result BorrowRefused }
        ensures err { IfErr result (BytesReadRefused (IsShort n (R.state reader.old)) ((R.state reader.old).lends < borrow) n (R.state reader.old) (R.state reader.new)) };
}

/// The items of a slice are bytes. It does nothing: proofs over a type parameter learn it here.
pub fn see_bytes(bytes: &[u8])
    ensures { IsBytes bytes.now }
{
    // No effect at run time: the proof learns from it that the length fits `usize`.
    let _len = bytes.len();
}

impl<'s, L: Lending> Borrowed<L> for &'s [u8] {
    type Lent = L::Bytes;

    ghost borrow = { shared };

    fn borrow<R: Reader<L>>(reader: &mut R, n: usize) -> ReadResult<L::Bytes>
        ensures ok { IfOk result (λ s. Lent shared n (R.state reader.old) (R.state reader.new) (L.Bytes.holds s)) }
        ensures bytes { IfOk result (λ s. IsBytes (L.Bytes.holds s)) }
        ensures unlent { (R.state reader.old).lends < shared → IfErr result BorrowRefused }
        ensures err { IfErr result (BytesReadRefused (IsShort n (R.state reader.old)) ((R.state reader.old).lends < shared) n (R.state reader.old) (R.state reader.new)) }
    {
        let bytes = reader.borrow_exact(n)?;
        see_bytes(bytes.as_held());
        Ok(bytes)
    }
}

impl<'s, L: Lending> Borrowed<L> for &'s mut [u8] {
    type Lent = L::BytesMut;

    ghost borrow = { for_writing };

    fn borrow<R: Reader<L>>(reader: &mut R, n: usize) -> ReadResult<L::BytesMut>
        ensures ok { IfOk result (λ s. Lent for_writing n (R.state reader.old) (R.state reader.new) (L.BytesMut.holds s)) }
        ensures bytes { IfOk result (λ s. IsBytes (L.BytesMut.holds s)) }
        ensures unlent { (R.state reader.old).lends < for_writing → IfErr result BorrowRefused }
        ensures err { IfErr result (BytesReadRefused (IsShort n (R.state reader.old)) ((R.state reader.old).lends < for_writing) n (R.state reader.old) (R.state reader.new)) }
    {
        let bytes = reader.borrow_exact_mut(n)?;
        see_bytes(bytes.as_held());
        Ok(bytes)
    }
}

/// Bytes that are held shared.
pub trait SharedBytes: Held {}

impl<'a> SharedBytes for &'a [u8] {}

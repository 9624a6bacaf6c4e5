//! How the length of a list is written and read.
ghost use Rattle.std.specs.Prelude.{◌≡◌, ◌≤◌, length, take, Some, IfSome, IfOk, IfErr};
ghost use Rattle.wincode_base.specs.LengthLaws.{bincode_laws};
ghost use Rattle.wincode_base.specs.Lengths.{Scheme, SchemeLaws, HasEncoding, encoding_len, length_write, bincode, LengthSizeRefused, length_read};
ghost use Rattle.wincode_base.specs.Outcomes.{WriteOutcome, GetOutcome};

pub mod short_vec;

use crate::error::{ReadResult, WriteResult, preallocation_size_limit};
use crate::front::put_front;
pub use crate::len::short_vec::{ShortU16, ShortU16Len};
use crate::reader::take_number;
use wincode_io::{Lending, Reader, Writer};

/// What the items of a list may count together, in bytes, where no other limit is chosen: 4 MiB.
pub const PREALLOCATION_LIMIT: usize = 4194304;

/// No limit but that of memory.
pub const NO_LIMIT: usize = usize::MAX;

/// A length scheme: the encoding of each length that it writes, and the lengths that it reads.
pub trait SeqLen {
    ghost scheme: { Scheme };

    ghost scheme_laws: { SchemeLaws scheme };

    /// Reads a length, in items, where `prealloc` is what each of them counts against a limit. Refused,
    /// it has taken a front of what the reader had, as the scheme says.
    fn read<L: Lending, R: Reader<L>>(reader: &mut R, prealloc: usize) -> ReadResult<usize>
        ensures { GetOutcome (length_read scheme prealloc) (λ n. n) (R.state reader.old) (R.state reader.new) result };

    /// Writes the length of so many items, in one piece. Refused, it has added nothing.
    fn write<W: Writer>(writer: &mut W, len: usize) -> WriteResult<()>
        ensures { WriteOutcome (length_write scheme) (W.state writer.old) (W.state writer.new) len (Unit {0}) result };

    /// The length of that encoding, in bytes. It is refused where there is none.
    fn write_bytes_needed(len: usize) -> WriteResult<usize>
        ensures ok { IfOk result (λ n. HasEncoding scheme len × (n ≡ encoding_len (scheme.encoding len))) }
        ensures err { IfErr result (LengthSizeRefused scheme len) };

    /// Puts that encoding over the front of the bytes, and gives how many it has; or answers `None`, and may have
    /// put any bytes there. It is for speed alone: what it doesn't do, `write` does.
    #[inline(always)]
    fn encode(len: usize, dst: &mut [u8]) -> Option<usize>
        ensures { IfSome result (λ n. (n ≤ length dst.new) × (scheme.encoding len ≡ Some (take n dst.new))) }
    {
        let _ = len;
        let _room = dst.len();
        None
    }
}

/// The lengths of bincode 1: eight bytes, the lowest first. Reading refuses a length whose items count
/// more than `MAX_SIZE` bytes in all.
pub struct BincodeLen<const MAX_SIZE: usize>;

impl<const MAX_SIZE: usize> SeqLen for BincodeLen<MAX_SIZE> {
    ghost scheme = { bincode MAX_SIZE };

    /// With fewer than eight bytes left it is `ReadSizeLimit(8)`, and they stay. Over the limit it is
    /// `PreallocationSizeLimit`, behind the eight bytes; what is needed is at most `usize::MAX`.
    #[inline(always)]
    fn read<L: Lending, R: Reader<L>>(reader: &mut R, prealloc: usize) -> ReadResult<usize> {
        let len = take_number::<L, R>(reader)? as usize;
        match len.checked_mul(prealloc) {
            Some(needed) if needed <= MAX_SIZE => Ok(len),
            Some(needed) => Err(preallocation_size_limit(needed, MAX_SIZE)),
            None => Err(preallocation_size_limit(usize::MAX, MAX_SIZE)),
        }
    }

    #[inline(always)]
    fn write<W: Writer>(writer: &mut W, len: usize) -> WriteResult<()> {
        writer.write(&(len as u64).to_le_bytes())?;
        Ok(())
    }

    #[inline(always)]
    fn write_bytes_needed(_len: usize) -> WriteResult<usize> {
        Ok(8)
    }

    #[inline(always)]
    fn encode(len: usize, dst: &mut [u8]) -> Option<usize> {
        put_front(&(len as u64).to_le_bytes(), dst)
    }

    ghost scheme_laws = { bincode_laws MAX_SIZE };
}

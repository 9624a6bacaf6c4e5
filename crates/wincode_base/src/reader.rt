//! The first bytes of a reader.
ghost use Rattle.std.specs.Prelude.{◌<◌, IfOk, IfErr};
ghost use Rattle.wincode_io.specs.Readers.{Takes, TakesNumber};
ghost use Rattle.wincode_base.specs.Outcomes.{PieceReadRefused};

use crate::error::ReadResult;
use wincode_io::{Lending, Reader, fill_array};

/// The first `N` bytes, which are then gone; `ReadSizeLimit(N)` where fewer are left, and they stay.
#[inline(always)]
pub fn take_array<L: Lending, R: Reader<L>, const N: usize>(reader: &mut R) -> ReadResult<[u8; N]>
    ensures ok { IfOk result (Takes N (R.state reader.old) (R.state reader.new)) }
    ensures err { IfErr result (PieceReadRefused N (R.state reader.old) (R.state reader.new)) }
{
    let bytes = fill_array::<L, R, N>(reader)?;
    reader.consume_unchecked(N);
    Ok(bytes)
}

/// The number of the first eight bytes, which are then gone; `ReadSizeLimit(8)` where fewer are left, and
/// they stay.
#[inline(always)]
pub fn take_number<L: Lending, R: Reader<L>>(reader: &mut R) -> ReadResult<u64>
    ensures ok { IfOk result (TakesNumber 8 (R.state reader.old) (R.state reader.new)) }
    ensures err { IfErr result (PieceReadRefused 8 (R.state reader.old) (R.state reader.new)) }
{
    let bytes = take_array::<L, R, 8>(reader)?;
    Ok(u64::from_le_bytes(bytes))
}

//! Bytes that come of a source, explained and checked as they come.
ghost use Rattle.std.specs.Prelude.{◌≡◌, length, map, IfOk, IsTrue};
ghost use Rattle.wincode_describe.specs.Explained.{ExplainsSource};
ghost use Rattle.wincode_describe.specs.Parts.{seen};

use crate::described::Described;
use crate::explaining::{Explained, explain_read};
use std::alloc::Global;
use wincode_base::error::{ReadError, ReadResult};
use wincode_io::{Lending, Lifetime, Reader, Source, StreamReader};

/// How many bytes are asked for at once where they are only counted.
const PIECE: usize = 8192;

/// As `explain`, of what comes of the source, in whatever pieces, of which no more is read than the value needs and a
/// buffer holds. It is refused as `Io(OutOfMemory)` where memory for the buffer is, and as `Io` of `Io` where the source
/// failed and more was needed of it.
pub fn explain_source<S: Source + Drop>(
    alloc: Global,
    described: &Described,
    source: S,
) -> Explained
    ensures { ExplainsSource described.now (S.state source) (map seen result.parts.items) result.refused }
{
    match StreamReader::new(alloc, source) {
        Ok(mut reader) => {
            explain_read::<Lifetime, StreamReader<S>>(alloc, described, &mut reader)
        }
        Err(error) => Explained {
            parts: Vec::new(alloc),
            refused: Some(ReadError::Io(error)),
        },
    }
}

/// Goes past all that the reader has, and says how many bytes that are. More than `usize::MAX` are `OutOfMemory`.
pub fn bytes_left<L: Lending, R: Reader<L>>(reader: &mut R) -> ReadResult<usize>
    ensures { IfOk result (λ n. IsTrue (R.state reader.old).is_known → n ≡ length (R.state reader.old).rest) }
{
    let mut left = 0usize;
    for _i in 0..usize::MAX {
        reader.fill(PIECE)?;
        let n = reader.at_hand().len();
        if n == 0 {
            return Ok(left);
        }
        reader.consume_unchecked(n);
        match left.checked_add(n) {
            Some(more) => left = more,
            None => return Err(ReadError::OutOfMemory),
        }
    }
    Err(ReadError::OutOfMemory)
}

//! A length scheme of the repository's own: a length below 256 in one byte.
ghost use Rattle.std.specs.Prelude.{◌≡◌};
ghost use Rattle.testkit_schemas.specs.ByteLengths.{byte_scheme, byte_scheme_laws};

use wincode::io::{Lending, Reader, Writer, fill_array};
use wincode::len::SeqLen;
use wincode::{LimitedLen, ReadResult, WriteError, WriteResult};

/// Lengths below 256, each in a byte. It has no limit of its own: a length is read whatever its items
/// count.
pub struct ByteLen;

impl SeqLen for ByteLen {
    ghost scheme = { byte_scheme };

    /// With no byte left it is `ReadSizeLimit(1)`.
    fn read<L: Lending, R: Reader<L>>(reader: &mut R, _prealloc: usize) -> ReadResult<usize> {
        let bytes = fill_array::<L, R, 1>(reader)?;
        reader.consume_unchecked(1);
        Ok(bytes[0] as usize)
    }

    /// A length past 255 is `Custom`, and nothing is written.
    fn write<W: Writer>(writer: &mut W, len: usize) -> WriteResult<()> {
        if len > 255 {
            let _ = &*writer;
            return Err(WriteError::Custom("a length past 255"));
        }
        writer.write(&[len as u8])?;
        Ok(())
    }

    /// A length past 255 is `Custom`.
    fn write_bytes_needed(len: usize) -> WriteResult<usize> {
        if len > 255 {
            return Err(WriteError::Custom("a length past 255"));
        }
        Ok(1)
    }

    ghost scheme_laws = { byte_scheme_laws };
}

impl LimitedLen for ByteLen {
    fn admits(len: usize, _prealloc: usize) -> bool {
        len < 256
    }
}

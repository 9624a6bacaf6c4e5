//! The value in front of what comes of a source.
ghost use Rattle.std.specs.Prelude.{◌≡◌, false, [], IfOk, IfErr, IsTrue};
ghost use Rattle.wincode.specs.Messages.{is_failure};
ghost use Rattle.wincode_base.specs.Outcomes.{Found};
ghost use Rattle.wincode_io.specs.Streams.{stream_state, streaming};
ghost use Rattle.example_schemas.specs.Fronts.{IsNotRead};

use std::alloc::Global;
use wincode::io::{Lending, Source, StreamReader};
use wincode::{ReadError, ReadResult, SchemaReadOwned, deserialize_from};

/// The value at the front of what comes of the source, in whatever pieces, and a reader of what follows it.
/// It is refused as reading the same bytes from memory is, or for memory or by the source.
pub fn read_front<L: Lending, S: Source + Drop, T: SchemaReadOwned<L, Dst = T>>(
    alloc: Global,
    source: S,
) -> ReadResult<(T, StreamReader<S>)>
    ensures ok { IfOk result (λ p. IsTrue (S.state source).is_known → Found T.SchemaRead.reading.reads (S.state source).coming (T.SchemaRead.model p.0) (stream_state S.state p.1).rest) }
    ensures err { IfErr result (IsNotRead T.SchemaRead.reading (streaming 0 [] false (S.state source))) }
{
    let mut reader = match StreamReader::new(alloc, source) {
        Ok(reader) => reader,
        Err(e) => return Err(ReadError::Io(e)),
    };
    let value = deserialize_from::<L, StreamReader<S>, T>(alloc, &mut reader)?;
    Ok((value, reader))
}

/// The value at the front of bytes of memory, read through a buffer. No failure is answered, since memory never fails.
pub fn read_memory<'a, L: Lending, T: SchemaReadOwned<L, Dst = T>>(
    alloc: Global,
    bytes: &'a [u8],
) -> ReadResult<T>
    ensures { IfErr result (λ e. is_failure e ≡ false) }
{
    let mut reader = match StreamReader::new(alloc, bytes) {
        Ok(reader) => reader,
        Err(e) => return Err(ReadError::Io(e)),
    };
    deserialize_from::<L, StreamReader<&'a [u8]>, T>(alloc, &mut reader)
}

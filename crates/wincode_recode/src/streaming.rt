//! Relaying a value that comes of a source, read as it comes and written as it goes.
ghost use Rattle.std.specs.Prelude.{OnOk, IfErr};
ghost use Rattle.wincode_io.specs.Streams.{stream_state};
ghost use Rattle.wincode_io.specs.SinkWriters.{sink_writer};
ghost use Rattle.wincode_recode.specs.Passing.{AreSound, RelayTells};
ghost use Rattle.wincode_recode.specs.Streaming.{IsStreamRelayed, StreamRelayRefused};

use crate::passing::{pass_as, unwritten};
use crate::recoding::{KnownShape, RelayError};
use std::alloc::Global;
use wincode::WriteError;
use wincode::io::{Lifetime, Sink, Source, StreamReader, StreamWriter, Writer};

/// As `relay`, of what comes of a source, of which no more is read than the value needs and the reader's buffer
/// holds; and it is written through the writer's buffer, which is passed on to its sink at the end. Of lists in lists
/// each list is written and dropped before the next is read; any other value is held whole, and its encoding isn't.
///
/// It answers what `relay` answers of the same bytes; or `Read` of `Io` where the source failed, or memory for more
/// bytes was refused, and more was needed of it; or `Write` where memory for a list or a value to be written was
/// refused, or it is more than the writer counts. It is never `OutOfMemory`, since both have their buffers. Refused,
/// what was written to the writer is a front of the encoding: of lists in lists what was read, of any other value
/// nothing where it was not read.
pub fn relay_stream<S: Source, K: Sink>(
    alloc: Global,
    shape: &str,
    reader: &mut StreamReader<S>,
    writer: &mut StreamWriter<K>,
) -> Result<(), RelayError>
    ensures ok { OnOk result (IsStreamRelayed shape.now (stream_state S.state reader.old) K.state writer.old writer.new) }
    ensures sound { OnOk result (AreSound (stream_state S.state reader.old) (stream_state S.state reader.new)
        (sink_writer K.state writer.old) (sink_writer K.state writer.new)) }
    ensures err { IfErr result (StreamRelayRefused shape.now (stream_state S.state reader.old) K.state writer.old writer.new) }
    ensures told { IfErr result (RelayTells (stream_state S.state reader.old) (stream_state S.state reader.new)
        (sink_writer K.state writer.old) (sink_writer K.state writer.new)) }
{
    let Some(known) = KnownShape::of(shape) else {
        return Err(RelayError::UnknownShape);
    };
    pass_as::<Lifetime<'static>, StreamReader<S>, StreamWriter<K>>(alloc, known, reader, writer)?;
    match writer.finish() {
        Ok(()) => Ok(()),
        Err(error) => Err(unwritten(WriteError::Io(error))),
    }
}

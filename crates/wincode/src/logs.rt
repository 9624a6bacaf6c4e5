//! A log: values one after another, of which the last may be cut off.
ghost use Rattle.std.specs.Prelude.{◌≡◌, IfOk, IfErr, OnOk};
ghost use Rattle.wincode_io.specs.Readers.{IsSound};
ghost use Rattle.wincode_io.specs.Streams.{stream_state};
ghost use Rattle.wincode_io.specs.Writers.{IsUnmoved};
ghost use Rattle.wincode_base.specs.Outcomes.{Wrote, WriteTells};
ghost use Rattle.wincode.specs.Logs.{IsWholePart, WholeRefused, says_none};
ghost use Rattle.wincode.specs.Messages.{HasNoBytes};
ghost use Rattle.wincode.specs.Appends.{AppendRefused};

use crate::io::{self, Lifetime, Source, StreamReader, WriteWindow, Writer};
use crate::markers::SchemaReadOwned;
use crate::messages::{NO_BYTES, has_no_bytes, next_of};
use crate::schema::SchemaWrite;
use std::alloc::Global;
use wincode_base::error::{ReadError, ReadResult, WriteError, WriteResult};

/// Writes one encoding of the value behind what the writer holds, all or nothing: refused, the writer holds what it held,
/// so that a log has whole values alone. The writer isn't finished.
///
/// Refused as `size_of` is, or as the writer is that makes room for so many bytes. A value of a schema whose values have no
/// bytes, as `()`, is refused as `Custom`: no log has a number of them.
pub fn append_message<T: SchemaWrite, W: Writer>(writer: &mut W, src: &T::Src) -> WriteResult<()>
    ensures ok { OnOk result (Wrote T.writing (W.state writer.old) (W.state writer.new) (T.model src.now)) }
    ensures value { OnOk result (T.is_valid src.now) }
    ensures some { OnOk result (HasNoBytes T.writing.meta → ⊥) }
    ensures err { IfErr result (λ e. IsUnmoved (W.state writer.old) (W.state writer.new) × WriteTells (W.state writer.old) (W.state writer.new) e
        × AppendRefused T.writing (W.state writer.old) (W.state writer.new) (T.model src.now) e) }
{
    if has_no_bytes(T::type_meta()) {
        return Err(WriteError::Custom(NO_BYTES));
    }
    let size = T::size_of(src)?;
    writer.make_room(size)?;
    let mut window = WriteWindow::new(writer, size);
    T::write(&mut window, src)
}

/// Whether an error of reading says that no value is in front; else memory or the source's device refused to look.
fn says_none(error: &ReadError) -> bool
    ensures { result ≡ says_none error.now }
{
    match error {
        ReadError::Io(io::ReadError::ReadSizeLimit(_)) => true,
        ReadError::Io(_) | ReadError::OutOfMemory => false,
        _ => true,
    }
}

/// How many bytes in front of what the reader has are whole values, one after another: all, or those before a value that
/// was cut off or that is none. So much of a log is kept after a crash, and what is appended then goes behind it. The
/// reader stands at some place behind them.
///
/// A schema one of whose encodings is empty has no such part: what is said is said of the others. Where the schema
/// announces that all are, as that of `()`, it is `Custom`. It is `Io` with the source's own error where the source failed,
/// and `OutOfMemory` where memory for a value was refused, or there are more than `u64::MAX` values.
pub fn whole_length<T: SchemaReadOwned<Lifetime<'static>>, S: Source>(
    alloc: Global,
    reader: &mut StreamReader<S>,
) -> ReadResult<usize>
    ensures some { OnOk result (HasNoBytes T.SchemaRead.reading.meta → ⊥) }
    ensures ok { IfOk result (IsWholePart T.SchemaRead.reading.reads reader.old.position (stream_state S.state reader.old)) }
    ensures sound { OnOk result (IsSound (stream_state S.state reader.old) (stream_state S.state reader.new)) }
    ensures err { IfErr result (WholeRefused T.SchemaRead.reading.meta (stream_state S.state reader.old) (stream_state S.state reader.new)) }
{
    if has_no_bytes(T::type_meta()) {
        return Err(ReadError::Custom(NO_BYTES));
    }
    let start = reader.position();
    let mut end = start;
    for _ in 0..u64::MAX {
        match next_of::<S, T>(alloc, reader) {
            None => return Ok(end.saturating_sub(start)),
            Some(Ok(_value)) => end = reader.position(),
            Some(Err(error)) => {
                if says_none(&error) {
                    return Ok(end.saturating_sub(start));
                }
                return Err(error);
            }
        }
    }
    Err(ReadError::OutOfMemory)
}

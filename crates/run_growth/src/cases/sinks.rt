//! A writer to a sink: want of memory, of its own or of the sink, loses nothing of what was written.
use super::{Ending, Unlike};
use std::alloc::Global;
use wincode::io::{MemorySink, StreamWriter, WriteError, WriteResult, Writer};

fn ending(answer: WriteResult<()>) -> Result<Ending, Unlike> {
    match answer {
        Ok(()) => Ok(Ending::Ample),
        Err(WriteError::OutOfMemory | WriteError::Io(_)) => Ok(Ending::Refused),
        Err(WriteError::WriteSizeLimit(_)) => Err(Unlike::Writing),
    }
}

/// Ten bytes, more than a buffer has behind them, and the end.
pub fn all(alloc: Global) -> Result<Ending, Unlike> {
    let bytes = [7u8; 9_000];
    let mut writer = match StreamWriter::new(alloc, MemorySink::new(alloc)) {
        Ok(writer) => writer,
        Err(WriteError::OutOfMemory) => return Ok(Ending::Refused),
        Err(_) => return Err(Unlike::Writing),
    };
    if writer.write(&bytes[..10]).is_err() {
        return Err(Unlike::Writing);
    }
    let more = ending(writer.write(&bytes))?;
    let due = match more {
        Ending::Ample => 9_010,
        Ending::Refused => 10,
    };
    let position = writer.position();
    let finished = ending(writer.finish())?;
    let (sink, unsent) = writer.into_sink();
    let held = sink.as_slice().len().saturating_add(unsent.len());
    if position == due && held == due {
        Ok(more.and(finished))
    } else {
        Err(Unlike::Writing)
    }
}

//! A file of entries, one after another.
use std::alloc::{AllocError, AllocFailed, Global};
use std::fs::File;
use std::io::{self, Seek, SeekFrom};
use thiserror::Error;
use wincode::io::{StdSink, StdSource, StreamReader, StreamWriter};
use wincode::prelude::*;
use wincode::{Messages, append_message, whole_length};

/// Whose entry it is, and by how much.
pub type Entry = (String, i64);

/// Why the program ends early.
#[derive(Debug, Drop, Error)]
pub enum Fault {
    #[error("example_ledger FILE [ACCOUNT AMOUNT]..")]
    Usage,
    #[error(transparent)]
    File(#[from] io::Error),
    #[error(transparent)]
    Memory(#[from] AllocError),
    #[error(transparent)]
    Write(#[from] WriteError),
    #[error("the ledger can't be read")]
    Read,
    #[error("the sum is past what can be told")]
    Sum,
}

impl From<ReadError> for Fault {
    fn from(_error: ReadError) -> Fault {
        Fault::Read
    }
}

impl<T: Drop> From<AllocFailed<T>> for Fault {
    fn from(_refused: AllocFailed<T>) -> Fault {
        Fault::Memory(AllocError)
    }
}

/// The file, which is made where there is none.
pub fn opened(rt: &HostRuntime, path: &str) -> Result<File, Fault> {
    Ok(
        File::options()
            .read(true)
            .write(true)
            .create(true)
            .open(rt, path)?,
    )
}

/// Cuts off the bytes after the last whole entry, wherever the file's position is, and seeks to the new end. Returns how
/// many bytes were cut off.
pub fn take_up(alloc: Global, file: &mut File) -> Result<u64, Fault> {
    let size = file.metadata()?.len();
    file.seek(SeekFrom::Start(0))?;
    let mut reader = StreamReader::new(alloc, StdSource::new(&*file)).map_err(ReadError::from)?;
    let whole = whole_length::<Entry, _>(alloc, &mut reader)? as u64;
    drop(reader);
    file.set_len(whole)?;
    file.seek(SeekFrom::Start(whole))?;
    Ok(size.saturating_sub(whole))
}

/// Appends the entries where the file stands. All of them are in the file then.
pub fn append(alloc: Global, file: &mut File, entries: &[Entry]) -> WriteResult<()> {
    let mut writer = StreamWriter::new(alloc, StdSink::new(file))?;
    for entry in entries {
        append_message::<Entry, _>(&mut writer, entry)?;
    }
    writer.finish()?;
    Ok(())
}

/// How many entries the file has, and the sum of their amounts.
pub fn sum(alloc: Global, file: &mut File) -> Result<(u64, i64), Fault> {
    file.seek(SeekFrom::Start(0))?;
    let mut messages: Messages<_, Entry> = Messages::new(alloc, StdSource::new(file))?;
    let mut total = 0i64;
    for count in 0..u64::MAX {
        let Some(entry) = messages.next() else {
            return Ok((count, total));
        };
        let (_account, amount) = entry?;
        total = total.checked_add(amount).ok_or(Fault::Sum)?;
    }
    Err(Fault::Sum)
}

/// Cuts off the last bytes.
pub fn cut(file: &File, bytes: u64) -> Result<(), Fault> {
    let size = file.metadata()?.len();
    file.set_len(size.saturating_sub(bytes))?;
    Ok(())
}

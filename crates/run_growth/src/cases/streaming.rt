//! Streams: want of memory keeps the bytes that came, and the same call made again goes on.
use super::{Ending, Unlike};
use std::alloc::Global;
use wincode::io::{Lifetime, ReadError, Reader, StdSource, StreamReader};

type Stream<'a> = StreamReader<StdSource<&'a [u8]>>;

/// Brings `n` bytes to hand, by a second call where memory was refused to the first, which kept its bytes.
fn fill(reader: &mut Stream, n: usize) -> Result<Ending, Unlike> {
    let before = reader.unread().len();
    let ending = match <Stream as Reader<Lifetime>>::fill(reader, n) {
        Ok(()) => Ending::Ample,
        Err(ReadError::OutOfMemory) if before <= reader.unread().len() => {
            match <Stream as Reader<Lifetime>>::fill(reader, n) {
                Ok(()) => Ending::Refused,
                Err(_) => return Err(Unlike::Reading),
            }
        }
        Err(_) => return Err(Unlike::Reading),
    };
    let bytes = reader.unread();
    if n <= bytes.len() && bytes.iter().all(|b| *b == 7) {
        Ok(ending)
    } else {
        Err(Unlike::Reading)
    }
}

/// The buffer, its growth, and a new one where a window has the first.
pub fn all(alloc: Global) -> Result<Ending, Unlike> {
    let bytes = [7u8; 20_000];
    let mut reader = match StreamReader::new(alloc, StdSource::new(bytes.as_slice())) {
        Ok(reader) => reader,
        Err(ReadError::OutOfMemory) => return Ok(Ending::Refused),
        Err(_) => return Err(Unlike::Reading),
    };
    let grown = fill(&mut reader, 9_000)?;
    let window = <Stream as Reader<Lifetime>>::as_trusted_for(&mut reader, 6_000);
    let renewed = fill(&mut reader, 14_000)?;
    match window {
        Ok(_) => Ok(grown.and(renewed)),
        Err(_) => Err(Unlike::Reading),
    }
}

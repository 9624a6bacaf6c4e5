//! Writing: a refused growth leaves the writer.
use super::{Ending, Unlike};
use std::alloc::Global;
use wincode::io::{self, Cursor, WriteResult, Writer};
use wincode::{WriteError, serialize, serialize_into};

fn ending(answer: WriteResult<()>) -> Result<Ending, Unlike> {
    match answer {
        Ok(()) => Ok(Ending::Ample),
        Err(io::WriteError::OutOfMemory) => Ok(Ending::Refused),
        Err(_) => Err(Unlike::Writing),
    }
}

/// Two bytes and then three behind them.
fn appended(alloc: Global) -> Result<Ending, Unlike> {
    let Ok(mut bytes) = Vec::from_slice(alloc, &[1u8, 2]) else {
        return Ok(Ending::Refused);
    };
    let room = ending(bytes.make_room(3))?;
    if bytes.as_slice() != [1u8, 2].as_slice() {
        return Err(Unlike::Writing);
    }
    let written = ending(bytes.write(&[3, 4, 5]))?;
    let expected: &[u8] = match written {
        Ending::Ample => &[1, 2, 3, 4, 5],
        Ending::Refused => &[1, 2],
    };
    if bytes.as_slice() == expected {
        Ok(room.and(written))
    } else {
        Err(Unlike::Writing)
    }
}

/// Two bytes, and one behind a gap of as many.
fn behind_a_gap(alloc: Global) -> Result<Ending, Unlike> {
    let Ok(bytes) = Vec::from_slice(alloc, &[1u8, 2]) else {
        return Ok(Ending::Refused);
    };
    let mut cursor = Cursor::new_at(bytes, 4);
    let room = ending(cursor.make_room(1))?;
    if cursor.position() != 4 {
        return Err(Unlike::Writing);
    }
    let written = ending(cursor.write(&[9]))?;
    let position = cursor.position();
    let bytes = cursor.into_inner();
    match written {
        Ending::Ample if position == 5 && bytes.as_slice() == [1u8, 2, 0, 0, 9].as_slice() => Ok(
            room,
        ),
        Ending::Refused if position == 4 && bytes.as_slice() == [1u8, 2].as_slice() => Ok(
            Ending::Refused,
        ),
        _ => Err(Unlike::Writing),
    }
}

/// The same, in a vector that the cursor borrows.
fn in_a_lent_vector(alloc: Global) -> Result<Ending, Unlike> {
    let Ok(mut bytes) = Vec::from_slice(alloc, &[1u8, 2]) else {
        return Ok(Ending::Refused);
    };
    let mut cursor = Cursor::new_at(&mut bytes, 1);
    let written = ending(cursor.write(&[8, 9]))?;
    let position = cursor.position();
    match written {
        Ending::Ample if position == 3 && bytes.as_slice() == [1u8, 8, 9].as_slice() => Ok(
            Ending::Ample,
        ),
        Ending::Refused if position == 1 && bytes.as_slice() == [1u8, 2].as_slice() => Ok(
            Ending::Refused,
        ),
        _ => Err(Unlike::Writing),
    }
}

fn serialized(alloc: Global) -> Result<Ending, Unlike> {
    match serialize(alloc, &(7u8, true)) {
        Ok(bytes) if bytes.as_slice() == [7u8, 1].as_slice() => Ok(Ending::Ample),
        Err(WriteError::OutOfMemory) => Ok(Ending::Refused),
        _ => Err(Unlike::Writing),
    }
}

/// In one piece: refused, nothing is added.
fn a_record(alloc: Global) -> Result<Ending, Unlike> {
    let mut bytes = Vec::new(alloc);
    match serialize_into(&mut bytes, &(258u16, true)) {
        Ok(()) if bytes.as_slice() == [2u8, 1, 1].as_slice() => Ok(Ending::Ample),
        Err(WriteError::Io(io::WriteError::OutOfMemory)) if bytes.is_empty() => Ok(Ending::Refused),
        _ => Err(Unlike::Writing),
    }
}

/// Through a cursor, item by item: refused, a beginning of the encoding is there.
fn a_list(alloc: Global) -> Result<Ending, Unlike> {
    let Ok(list) = Vec::from_slice(alloc, &[7u8, 8, 9]) else {
        return Ok(Ending::Refused);
    };
    let mut cursor = Cursor::new(Vec::new(alloc));
    let answer = serialize_into(&mut cursor, &list);
    let text: &[u8] = &[3, 0, 0, 0, 0, 0, 0, 0, 7, 8, 9];
    let bytes = cursor.into_inner();
    match answer {
        Ok(()) if bytes.as_slice() == text => Ok(Ending::Ample),
        Err(WriteError::Io(io::WriteError::OutOfMemory)) if text.starts_with(bytes.as_slice()) => {
            Ok(Ending::Refused)
        }
        _ => Err(Unlike::Writing),
    }
}

pub fn all(alloc: Global) -> Result<Ending, Unlike> {
    let vector = appended(alloc)?;
    let cursor = behind_a_gap(alloc)?;
    let lent = in_a_lent_vector(alloc)?;
    let record = a_record(alloc)?;
    let list = a_list(alloc)?;
    Ok(
        vector
            .and(cursor)
            .and(lent)
            .and(record)
            .and(list)
            .and(serialized(alloc)?),
    )
}

//! Calls that take no memory: they succeed, whichever growth is refused.
use super::Unlike;
use std::alloc::Global;
use wincode::io::{Cursor, Lifetime, Ref, SliceRef, SliceWriter};
use wincode::laws::edit_in_place;
use wincode::len::ShortU16;
use wincode::{SchemaRead, SchemaWrite, containers, serialize_into, serialized_size};

/// Reads by the schema: a value is there, and no bytes are left.
fn read<'a, T: SchemaRead<Lifetime<'a>>>(alloc: Global, bytes: &'a [u8]) -> Result<(), Unlike> {
    let mut reader = bytes;
    let mut dst = None;
    match T::read(alloc, &mut reader, &mut dst) {
        Ok(()) if dst.is_some() && reader.is_empty() => Ok(()),
        _ => Err(Unlike::Reading),
    }
}

/// What is read into no memory of its own, or is lent.
fn reading(alloc: Global) -> Result<(), Unlike> {
    read::<u64>(alloc, &[1, 2, 3, 4, 5, 6, 7, 8])?;
    read::<bool>(alloc, &[1])?;
    read::<char>(alloc, &[226, 130, 172])?;
    read::<ShortU16>(alloc, &[128, 1])?;
    read::<&str>(alloc, &[2, 0, 0, 0, 0, 0, 0, 0, 97, 98])?;
    read::<&[u8]>(alloc, &[2, 0, 0, 0, 0, 0, 0, 0, 7, 8])?;
    read::<SliceRef<'_, u16>>(alloc, &[1, 0, 0, 0, 0, 0, 0, 0, 7, 8])?;
    read::<Ref<'_, u16>>(alloc, &[7, 8])?;
    read::<containers::Pod<[u16; 2]>>(alloc, &[1, 2, 3, 4])?;
    read::<(u16, bool, &str)>(alloc, &[7, 8, 1, 1, 0, 0, 0, 0, 0, 0, 0, 97])?;
    read::<[[u8; 2]; 3]>(alloc, &[1, 2, 3, 4, 5, 6])?;
    read::<Option<char>>(alloc, &[1, 97])?;
    read::<Result<u8, &[u8]>>(alloc, &[1, 0, 0, 0, 1, 0, 0, 0, 0, 0, 0, 0, 7])
}

/// Writes the value into a slice, and by a cursor over one.
fn write<T: SchemaWrite<Src = T>>(value: &T, size: u64) -> Result<(), Unlike> {
    let mut room = [0u8; 16];
    let mut other = [0u8; 16];
    let mut writer = SliceWriter::new(&mut room);
    let mut cursor = Cursor::new(other.as_mut_slice());
    let is_written = serialize_into(&mut writer, value).is_ok();
    let is_again = serialize_into(&mut cursor, value).is_ok();
    match serialized_size(value) {
        Ok(found) if found == size && is_written && is_again && room == other => Ok(()),
        _ => Err(Unlike::Writing),
    }
}

/// What is written into room that is there, and edits of it.
fn writing() -> Result<(), Unlike> {
    write(&258u64, 8)?;
    write(&'€', 3)?;
    write(&"ab", 10)?;
    write(&(258u16, true, Some(7u8)), 5)?;
    write(&[1u16, 2, 3], 6)?;
    write(&Result::<u8, u16>::Err(258), 6)?;
    let mut forms = [2u8, 0, 0, 0, 0, 0, 0, 0, 1, 0, 2, 0];
    match edit_in_place::<u16>(&mut forms, &[(1, 772)]) {
        Ok(()) if forms == [2u8, 0, 0, 0, 0, 0, 0, 0, 1, 0, 4, 3] => Ok(()),
        _ => Err(Unlike::Writing),
    }
}

pub fn all(alloc: Global) -> Result<(), Unlike> {
    reading(alloc)?;
    writing()
}

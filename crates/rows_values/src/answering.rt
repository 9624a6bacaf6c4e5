//! What any schema that reads what it writes answers.
use crate::asking::Asked;
use std::alloc::Global;
use std::test::Fail;
use testkit_schemas::asked::AskedReader;
use testkit_schemas::rows::{digits_of, read_as};
use wincode::io::{Lifetime, SliceWriter};
use wincode::{RoundTrip, SchemaGet, SchemaRead, SchemaWrite, WriteResult};

/// The value in front of the bytes.
pub fn value_of<'a, T: RoundTrip<Lifetime<'a>>>(
    alloc: Global,
    bytes: &'a [u8],
) -> Result<T::Src, Fail>
where
    T::Src: Drop,
{
    let mut reader = bytes;
    match <T as SchemaGet<Lifetime<'a>>>::get(alloc, &mut reader) {
        Ok(value) => Ok(value),
        Err(_) => Err(Fail::from("a value")),
    }
}

/// Whether a value was read from the bytes, how many of them are left, and how many the reader was asked for at the
/// most.
fn furthest<'a, T: RoundTrip<Lifetime<'a>>>(alloc: Global, bytes: &'a [u8]) -> Result<String, Fail>
where
    T::Src: Drop,
{
    let mut reader = AskedReader::new(bytes);
    let is_read = <T as SchemaGet<Lifetime<'a>>>::get(alloc, &mut reader).is_ok();
    let (left, furthest) = (reader.left(), reader.furthest());
    Ok(format!(in alloc; "{is_read} {left} {furthest}")?)
}

/// What writing the value in front of the bytes into a slice of so many bytes answers, and what was written.
fn within<'a, T: RoundTrip<Lifetime<'a>>>(
    alloc: Global,
    bytes: &'a [u8],
    size: usize,
) -> Result<String, Fail>
where
    T::Src: Drop,
{
    let value = value_of::<T>(alloc, bytes)?;
    let mut room = vec![in alloc; 9u8; size]?;
    let mut writer = SliceWriter::new(room.as_mut_slice());
    let answer = T::write(&mut writer, &value);
    wrote(alloc, answer, writer.written())
}

/// How writing ended, and what was written.
fn wrote(alloc: Global, answer: WriteResult<()>, written: &[u8]) -> Result<String, Fail> {
    let text = digits_of(alloc, written)?;
    Ok(match answer {
        Ok(()) => format!(in alloc; "ok {text}")?,
        Err(error) => format!(in alloc; "err {error:?} {text}")?,
    })
}

/// What `size_of` answers of the value in front of the bytes.
fn size_of<'a, T: RoundTrip<Lifetime<'a>>>(alloc: Global, bytes: &'a [u8]) -> Result<String, Fail>
where
    T::Src: Drop,
{
    let value = value_of::<T>(alloc, bytes)?;
    Ok(match T::size_of(&value) {
        Ok(size) => format!(in alloc; "ok {size}")?,
        Err(error) => format!(in alloc; "err {error:?}")?,
    })
}

/// What the schema announces in reading and in writing, and what a value counts.
fn announced<'a, T: RoundTrip<Lifetime<'a>>>(alloc: Global) -> Result<String, Fail>
where
    T::Src: Drop,
{
    let reading = <T as SchemaRead<Lifetime<'a>>>::type_meta();
    let writing = <T as SchemaWrite>::type_meta();
    let counted = T::prealloc_size();
    Ok(format!(in alloc; "{reading:?} {writing:?} {counted}")?)
}

/// What the schema answers.
pub fn answer<'a, T: RoundTrip<Lifetime<'a>>>(
    alloc: Global,
    asked: Asked,
    bytes: &'a [u8],
) -> Result<String, Fail>
where
    T::Src: Drop,
{
    match asked {
        Asked::Read => read_as::<T>(alloc, bytes),
        Asked::Furthest => furthest::<T>(alloc, bytes),
        Asked::Room(size) => within::<T>(alloc, bytes, size),
        Asked::Size => size_of::<T>(alloc, bytes),
        Asked::Meta => announced::<T>(alloc),
    }
}

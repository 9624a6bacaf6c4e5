//! Values as text, through a slice, a slice for writing, a cursor, and a window of each.
use std::alloc::Global;
use std::collections::{BTreeMap, BTreeSet};
use std::fmt::Debug;
use std::test::Fail;
use wincode::io::{Cursor, Lending, Reader};
use wincode::len::ShortU16Len;
use wincode::{SchemaGet, SchemaRead, containers};

/// What reading a `T` answers, and how many bytes are left, of 1,000 at most.
fn told<L: Lending, R: Reader<L>, T: SchemaRead<L>>(
    alloc: Global,
    reader: &mut R,
) -> Result<String, Fail>
where
    T::Dst: Debug,
{
    let answer = T::get(alloc, reader);
    let left = reader.fill_buf(1000)?.len();
    Ok(match answer {
        Ok(value) => format!(in alloc; "{value:?} {left}")?,
        Err(error) => format!(in alloc; "{error:?} {left}")?,
    })
}

/// Whether a text was lent, and how many bytes are left.
fn lent<L: Lending, R: Reader<L>>(alloc: Global, reader: &mut R) -> Result<String, Fail> {
    let answer = <&str as SchemaGet<L>>::get(alloc, reader);
    let left = reader.fill_buf(1000)?.len();
    Ok(match answer {
        Ok(_) => format!(in alloc; "lent {left}")?,
        Err(error) => format!(in alloc; "{error:?} {left}")?,
    })
}

/// What reading the type of the name answers.
fn answer<L: Lending, R: Reader<L>>(
    alloc: Global,
    name: &str,
    reader: &mut R,
) -> Result<String, Fail> {
    match name {
        "u16" => told::<L, R, u16>(alloc, reader),
        "i16" => told::<L, R, i16>(alloc, reader),
        "usize" => told::<L, R, usize>(alloc, reader),
        "bool" => told::<L, R, bool>(alloc, reader),
        "char" => told::<L, R, char>(alloc, reader),
        "String" => told::<L, R, String>(alloc, reader),
        "str" => lent::<L, R>(alloc, reader),
        "Vec<u8>" => told::<L, R, Vec<u8>>(alloc, reader),
        "Vec<u64>" => told::<L, R, Vec<u64>>(alloc, reader),
        "Vec<Vec<u64>>" => told::<L, R, Vec<Vec<u64>>>(alloc, reader),
        _ => part_answer(alloc, name, reader),
    }
}

/// So, where it has parts.
fn part_answer<L: Lending, R: Reader<L>>(
    alloc: Global,
    name: &str,
    reader: &mut R,
) -> Result<String, Fail> {
    match name {
        "(u16,bool)" => told::<L, R, (u16, bool)>(alloc, reader),
        "(bool,u16)" => told::<L, R, (bool, u16)>(alloc, reader),
        "[bool;3]" => told::<L, R, [bool; 3]>(alloc, reader),
        "[u64;2]" => told::<L, R, [u64; 2]>(alloc, reader),
        "[[u8;2];3]" => told::<L, R, [[u8; 2]; 3]>(alloc, reader),
        "Option<u8>" => told::<L, R, Option<u8>>(alloc, reader),
        "Option<(u8,u8)>" => told::<L, R, Option<(u8, u8)>>(alloc, reader),
        "Result<u8,u8>" => told::<L, R, Result<u8, u8>>(alloc, reader),
        "Box<(u16,bool)>" => told::<L, R, Box<(u16, bool)>>(alloc, reader),
        "BTreeMap<u8,u8>" => told::<L, R, BTreeMap<u8, u8>>(alloc, reader),
        "BTreeSet<u8>" => told::<L, R, BTreeSet<u8>>(alloc, reader),
        "Short<u16>" => told::<L, R, containers::Vec<u16, ShortU16Len>>(alloc, reader),
        "ShortBox<u16>" => told::<L, R, containers::BoxedSlice<u16, ShortU16Len>>(alloc, reader),
        _ => Err(Fail::from("a type")),
    }
}

/// What reading a window of all bytes answers.
fn windowed<L: Lending, R: Reader<L>>(
    alloc: Global,
    name: &str,
    reader: &mut R,
    size: usize,
) -> Result<String, Fail> {
    let mut window = reader.as_trusted_for(size)?;
    answer(alloc, name, &mut window)
}

/// What reading bytes answers that may be written, by themselves or by a window.
fn written_over(alloc: Global, name: &str, bytes: &[u8], by_window: bool) -> Result<String, Fail> {
    let mut copy = Vec::from_slice(alloc, bytes)?;
    let mut reader = copy.as_mut_slice();
    if by_window {
        windowed(alloc, name, &mut reader, bytes.len())
    } else {
        answer(alloc, name, &mut reader)
    }
}

/// What reading by a cursor answers, by itself or by a window.
fn from_cursor(alloc: Global, name: &str, bytes: &[u8], by_window: bool) -> Result<String, Fail> {
    let mut reader = Cursor::new(bytes);
    if by_window {
        windowed(alloc, name, &mut reader, bytes.len())
    } else {
        answer(alloc, name, &mut reader)
    }
}

/// The answer of all readers, or, where they differ, each one's.
pub fn shown(alloc: Global, name: &str, bytes: &[u8]) -> Result<String, Fail> {
    let slice = answer(alloc, name, &mut &*bytes)?;
    let all = [
        windowed(alloc, name, &mut &*bytes, bytes.len())?,
        written_over(alloc, name, bytes, false)?,
        written_over(alloc, name, bytes, true)?,
        from_cursor(alloc, name, bytes, false)?,
        from_cursor(alloc, name, bytes, true)?,
    ];
    if all.iter().all(|found| *found == slice) {
        return Ok(slice);
    }
    let [window, writing, writing_window, cursor, cursor_window] = &all;
    Ok(format!(in alloc;
        "slice {slice}; its window {window}; for writing {writing}; its window {writing_window}; cursor {cursor}; its window {cursor_window}"
    )?)
}

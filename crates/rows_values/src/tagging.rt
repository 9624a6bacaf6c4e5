//! Tags by each scheme.
use std::alloc::Global;
use std::test::Fail;
use testkit_schemas::rows::digits_of;
use wincode::io::{Lifetime, SliceWriter};
use wincode::{TagCode, WriteResult, read_tag, write_tag};

/// Writes the tag into a slice of so many bytes, and gives how that ended and what was written.
fn put<Tag: TagCode>(alloc: Global, tag: usize, size: usize) -> Result<String, Fail> {
    let mut room = Vec::new(alloc);
    room.resize(size, 7u8)?;
    let mut writer = SliceWriter::new(room.as_mut_slice());
    let answer: WriteResult<()> = if tag <= Tag::max_tag() {
        write_tag::<Tag, SliceWriter>(&mut writer, tag)
    } else {
        return Err(Fail::from("a tag past the greatest"));
    };
    let text = digits_of(alloc, writer.written())?;
    Ok(match answer {
        Ok(()) => format!(in alloc; "{text}")?,
        Err(error) => format!(in alloc; "err {error:?} {text}")?,
    })
}

/// What reading a tag answers, how many bytes are left, and what writing it again answers: into as many bytes as it
/// was read from, or as there are said to be.
fn tag_as<Tag: TagCode>(alloc: Global, bytes: &[u8], room: Option<usize>) -> Result<String, Fail> {
    let mut reader = bytes;
    let tag = read_tag::<Tag, Lifetime, &[u8]>(&mut reader);
    let left = reader.len();
    let size = room.unwrap_or(bytes.len());
    match tag {
        Ok(tag) => {
            let text = put::<Tag>(alloc, tag, size)?;
            Ok(format!(in alloc; "{tag} {left} {text}")?)
        }
        Err(error) => Ok(format!(in alloc; "err {error:?} {left}")?),
    }
}

/// What reading and writing a tag by the scheme of the name answers.
pub fn tag(alloc: Global, name: &str, bytes: &[u8], room: Option<usize>) -> Result<String, Fail> {
    match name {
        "u8" => tag_as::<u8>(alloc, bytes, room),
        "u16" => tag_as::<u16>(alloc, bytes, room),
        "u32" => tag_as::<u32>(alloc, bytes, room),
        "u64" => tag_as::<u64>(alloc, bytes, room),
        _ => Err(Fail::from("a tag scheme")),
    }
}

/// A tag's size and the greatest tag.
fn announced<Tag: TagCode>(alloc: Global) -> Result<String, Fail> {
    let size = Tag::tag_size();
    let greatest = Tag::max_tag();
    Ok(format!(in alloc; "{size} {greatest}")?)
}

/// So of the scheme of the name.
pub fn scheme(alloc: Global, name: &str) -> Result<String, Fail> {
    match name {
        "u8" => announced::<u8>(alloc),
        "u16" => announced::<u16>(alloc),
        "u32" => announced::<u32>(alloc),
        "u64" => announced::<u64>(alloc),
        _ => Err(Fail::from("a tag scheme")),
    }
}

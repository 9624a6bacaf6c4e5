//! Values in Rust and their bytes, by each call once, and the encodings of the errors.

use std::alloc::Global;
use std::io::ErrorKind;
use std::test::Fail;
use testkit_schemas::rows::printed;
use wincode::io::{self, Lifetime};
use wincode::{
    Error, ReadError, ReadResult, SchemaRead, SchemaWrite, WriteError, deserialize, error,
    serialize,
};

/// The list of the list of 1 and the empty list.
pub const NESTED: [u8; 32] = [
    2, 0, 0, 0, 0, 0, 0, 0, 1, 0, 0, 0, 0, 0, 0, 0, 1, 0, 0, 0, 0, 0, 0, 0, 0, 0, 0, 0, 0, 0, 0, 0,
];

pub fn nested(alloc: Global) -> Result<Vec<Vec<u64>>, Fail> {
    let mut lists = Vec::new(alloc);
    lists.push(vec![in alloc; 1u64]?)?;
    lists.push(Vec::new(alloc))?;
    Ok(lists)
}

/// Whether the value is written as these bytes, and they are read as it.
pub fn is_kept<'a, T: SchemaWrite<Src = T> + SchemaRead<Lifetime<'a>, Dst = T> + Drop + PartialEq>(
    alloc: Global,
    value: &T,
    due: &'a [u8],
) -> Result<bool, Fail> {
    let text = serialize(alloc, value)?;
    if text.as_slice() != due {
        return Ok(false);
    }
    let back = deserialize::<&'a [u8], T>(alloc, due)?;
    Ok(back == *value)
}

#[test]
fn nested_lists(rt: HostRuntime) -> Result<(), Fail> {
    let alloc = rt.alloc();
    let lists = nested(alloc)?;
    assert!(rt; is_kept::<Vec<Vec<u64>>>(alloc, &lists, NESTED.as_slice())?);
    Ok(())
}

#[test]
fn read_errors_print(rt: HostRuntime) -> Result<(), Fail> {
    let alloc = rt.alloc();
    let bad = [0xffu8];
    let text = std::str::from_utf8(bad.as_slice()).err().ok_or("text")?;
    let utf8 = printed(alloc, text)?;
    let device = || std::io::Error::from(ErrorKind::Other);
    let device_text = printed(alloc, device())?;
    let rows = [
        (
            ReadError::from(io::ReadError::ReadSizeLimit(3)),
            "Attempting to read 3 bytes",
        ),
        (
            ReadError::Io(io::ReadError::UnsupportedZeroCopy),
            "Unsupported zero-copy operation: reader does not support deserializing zero-copy types",
        ),
        (
            ReadError::Io(io::ReadError::from(device())),
            device_text.as_str(),
        ),
        (ReadError::Io(io::ReadError::OutOfMemory), "Out of memory"),
        (ReadError::from(text), utf8.as_str()),
        (error::invalid_utf8_encoding(text), utf8.as_str()),
        (ReadError::OutOfMemory, "Out of memory"),
    ];
    for (error, text) in rows {
        assert!(rt; printed(alloc, error)?.as_str() == text);
    }
    Ok(())
}

#[test]
fn read_errors_of_schemas_print(rt: HostRuntime) -> Result<(), Fail> {
    let alloc = rt.alloc();
    let rows = [
        (
            error::pointer_sized_decode_error(),
            "Could not cast integer type to pointer sized type",
        ),
        (
            error::preallocation_size_limit(5, 4),
            "Encoded sequence length exceeded preallocation limit of 4 bytes (needed 5 bytes)",
        ),
        (error::invalid_tag_encoding(7), "Invalid tag encoding: 7"),
        (error::invalid_bool_encoding(2), "Invalid bool encoding: 2"),
        (
            error::read_length_encoding_overflow("u16::MAX"),
            "Sequence length would overflow length encoding scheme: u16::MAX",
        ),
        (error::invalid_char_lead(128), "Invalid char lead: 128"),
        (ReadError::Custom("no"), "Custom error: no"),
        (
            error::unaligned_pointer_read(),
            "Zero-copy read would be unaligned",
        ),
    ];
    for (error, text) in rows {
        assert!(rt; printed(alloc, error)?.as_str() == text);
    }
    Ok(())
}

#[test]
fn write_errors_print(rt: HostRuntime) -> Result<(), Fail> {
    let alloc = rt.alloc();
    let bad = [0xffu8];
    let text = std::str::from_utf8(bad.as_slice()).err().ok_or("text")?;
    let utf8 = printed(alloc, text)?;
    let device = || std::io::Error::from(ErrorKind::Other);
    let device_text = printed(alloc, device())?;
    let rows = [
        (
            WriteError::from(io::WriteError::WriteSizeLimit(3)),
            "Attempting to write 3 bytes",
        ),
        (
            WriteError::Io(io::WriteError::from(device())),
            device_text.as_str(),
        ),
        (WriteError::Io(io::WriteError::OutOfMemory), "Out of memory"),
        (WriteError::from(text), utf8.as_str()),
        (
            error::write_length_encoding_overflow("usize::MAX"),
            "Sequence length would overflow length encoding scheme: usize::MAX",
        ),
        (WriteError::Custom("no"), "Custom error: no"),
        (WriteError::OutOfMemory, "Out of memory"),
    ];
    for (error, text) in rows {
        assert!(rt; printed(alloc, error)?.as_str() == text);
    }
    Ok(())
}

#[test]
fn errors_of_either_print(rt: HostRuntime) -> Result<(), Fail> {
    let either = [
        Error::from(ReadError::OutOfMemory),
        Error::from(WriteError::OutOfMemory),
    ];
    for error in either {
        assert!(rt; printed(rt.alloc(), error)?.as_str() == "Out of memory");
    }
    Ok(())
}

#[test]
fn a_list_of_references(rt: HostRuntime) -> Result<(), Fail> {
    let alloc = rt.alloc();
    let seven = vec![in alloc; &7u8]?;
    let list = serialize(alloc, &seven)?;
    assert!(rt; list.as_slice() == [1u8, 0, 0, 0, 0, 0, 0, 0, 7].as_slice());
    Ok(())
}

/// A refused read leaves its destination, and the call that reads is refused as its schema.
#[test]
fn a_refused_number(rt: HostRuntime) {
    let alloc = rt.alloc();
    let mut dst = Some(5u8);
    let mut none = [].as_slice();
    let is_refused = <u8 as SchemaRead<Lifetime>>::read(alloc, &mut none, &mut dst).is_err();
    let numbers: ReadResult<Vec<u64>> = deserialize(alloc, [].as_slice());
    let is_short = matches!(
        &numbers,
        Err(ReadError::Io(io::ReadError::ReadSizeLimit(8)))
    );
    assert!(rt; (is_refused, dst, is_short) == (true, Some(5), true));
}

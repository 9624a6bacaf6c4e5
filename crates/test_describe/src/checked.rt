//! What is printed of bytes that are checked.
use std::alloc::Global;
use std::test::Fail;
use wincode_describe::spans::{Span, spans};
use wincode_describe::{Described, checked_line, explain};
use wincode_io::Lifetime;

/// Whether the bytes are of the type, and the line.
fn line(alloc: Global, text: &str, bytes: &[u8]) -> Result<(bool, String), Fail> {
    let described = Described::parse(alloc, text)?;
    Ok(checked_line(alloc, &described, bytes)?)
}

/// A type, bytes, whether they are of it, and the line.
const ROWS: [(&str, &[u8], bool, &str); 7] = [
    ("u8", &[1, 2, 3], true, "ok, 1 bytes, 2 left"),
    (
        "u64",
        &[1],
        false,
        "refused at 0: Attempting to read 8 bytes",
    ),
    (
        "Vec<bool>",
        &[2, 0, 0, 0, 0, 0, 0, 0, 2],
        false,
        "refused at 8: Attempting to read 2 bytes",
    ),
    (
        "Vec<bool>",
        &[2, 0, 0, 0, 0, 0, 0, 0, 1, 2],
        false,
        "refused at 9: Invalid bool encoding: 2",
    ),
    (
        "Vec<u64>",
        &[1, 0, 8, 0, 0, 0, 0, 0],
        false,
        "refused at 0: Encoded sequence length exceeded preallocation limit of 4194304 bytes (needed 4194312 bytes)",
    ),
    (
        "short Vec<u8>",
        &[0x80, 0x00],
        false,
        "refused at 0: Sequence length would overflow length encoding scheme: u16::MAX",
    ),
    (
        "Vec<()>",
        &[0, 0, 64, 0, 0, 0, 0, 1],
        false,
        "refused at 0: Encoded sequence length exceeded preallocation limit of 4194304 bytes (needed 72057594042122240 bytes)",
    ),
];

#[test]
fn says_so_in_a_line(rt: HostRuntime) -> Result<(), Fail> {
    let alloc = rt.alloc();
    for (text, bytes, is_ok, printed) in ROWS {
        let (ok, said) = line(alloc, text, bytes)?;
        assert!(rt; ok == is_ok);
        assert!(rt; said.as_str() == printed);
    }
    Ok(())
}

/// An input of a mebibyte.
#[test]
fn a_mebibyte(rt: HostRuntime) -> Result<(), Fail> {
    let alloc = rt.alloc();
    let mut bytes = Vec::new(alloc);
    for i in 0..1048576usize {
        bytes.push(if i == 2 { 16 } else { 0 })?;
    }
    let (ok, said) = line(alloc, "(u16, Vec<u8>)", bytes.as_slice())?;
    assert!(rt; ok);
    assert!(rt; said.as_str() == "ok, 26 bytes, 1048550 left");
    let (ok, said) = line(alloc, "[u8; 1048576]", bytes.as_slice())?;
    assert!(rt; ok);
    assert!(rt; said.as_str() == "ok, 1048576 bytes, 0 left");
    Ok(())
}

/// The length of a list of one item more than a mebi.
const LENGTH: [u8; 8] = [1, 0, 16, 0, 0, 0, 0, 0];

/// More parts than a mebi are counted.
#[test]
fn more_than_a_mebi_of_parts(rt: HostRuntime) -> Result<(), Fail> {
    let alloc = rt.alloc();
    let (ok, said) = line(alloc, "Vec<()>", LENGTH.as_slice())?;
    assert!(rt; ok);
    assert!(rt; said.as_str() == "ok, 8 bytes, 0 left");
    Ok(())
}

/// And kept, each with its place.
#[test]
fn more_than_a_mebi_of_parts_are_kept(rt: HostRuntime) -> Result<(), Fail> {
    let alloc = rt.alloc();
    let described = Described::parse(alloc, "Vec<()>")?;
    let explained = explain::<Lifetime>(alloc, &described, LENGTH.as_slice());
    assert!(rt; explained.refused.is_none());
    assert!(rt; explained.parts.len() == 1_048_578);
    let spans = spans(alloc, explained.parts.as_slice())?;
    assert!(rt; matches!(spans.last(), Some(Span { offset: 8, size: 0 })));
    Ok(())
}

/// Values, of whose inputs every truncation is refused.
const WHOLE: [(&str, &[u8]); 5] = [
    ("(u64, bool)", &[1, 2, 3, 4, 5, 6, 7, 8, 1]),
    ("String", &[3, 0, 0, 0, 0, 0, 0, 0, 97, 98, 99]),
    ("Vec<Option<u16>>", &[2, 0, 0, 0, 0, 0, 0, 0, 0, 1, 5, 0]),
    (
        "struct { a: char, b: short Vec<u8> }",
        &[0xe2, 0x82, 0xac, 2, 8, 9],
    ),
    (
        "enum u32 { 1: BTreeMap<u8, u8> }",
        &[1, 0, 0, 0, 1, 0, 0, 0, 0, 0, 0, 0, 7, 8],
    ),
];

#[test]
fn refuses_every_truncation(rt: HostRuntime) -> Result<(), Fail> {
    let alloc = rt.alloc();
    for (text, bytes) in WHOLE {
        for n in 0..bytes.len() {
            let (ok, _) = line(alloc, text, &bytes[..n])?;
            assert!(rt; !ok);
        }
        let (ok, _) = line(alloc, text, bytes)?;
        assert!(rt; ok);
    }
    Ok(())
}

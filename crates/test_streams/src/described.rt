//! Bytes of described types in pieces of many sizes, explained and checked as in a slice.
use crate::pieces::in_pieces;
use std::alloc::Global;
use std::io::ErrorKind;
use std::test::Fail;
use wincode::io::StdSource;
use wincode_describe::{
    Described, checked_line, checked_source_line, explained_lines, explained_source_lines,
    print_source_lines,
};

const SIZES: [usize; 5] = [1, 2, 3, 7, 8192];

/// A type, and a value of it, behind which a byte stands.
type Row = (&'static str, &'static [u8]);

const PLAIN: [Row; 3] = [
    (
        "(u64, bool, [u8; 3])",
        &[1, 2, 3, 4, 5, 6, 7, 8, 1, 9, 9, 9, 7],
    ),
    ("String", &[3, 0, 0, 0, 0, 0, 0, 0, 97, 98, 99, 7]),
    (
        "Vec<Option<i16>>",
        &[2, 0, 0, 0, 0, 0, 0, 0, 0, 1, 254, 255, 7],
    ),
];

const NESTED: [Row; 4] = [
    (
        "struct { a: char, b: short Vec<u8>, c: short Vec<(u8, i8)> }",
        &[0xe2, 0x82, 0xac, 2, 8, 9, 1, 3, 255, 7],
    ),
    (
        "enum u32 { 1: BTreeMap<u8, u8>, 2: Result<u8, ()> }",
        &[1, 0, 0, 0, 1, 0, 0, 0, 0, 0, 0, 0, 7, 8, 7],
    ),
    ("(Result<u8, String>, [bool; 2])", &[0, 0, 0, 0, 5, 0, 1, 7]),
    (
        "Vec<Vec<u16>>",
        &[
            1, 0, 0, 0, 0, 0, 0, 0, 2, 0, 0, 0, 0, 0, 0, 0, 1, 2, 3, 4, 7,
        ],
    ),
];

/// Types of std.
const STD: [Row; 1] = [(
    "Vec<(NonZeroU16, f32, Duration, SocketAddr)>",
    &[
        2, 0, 0, 0, 0, 0, 0, 0, 1, 2, 0, 0, 72, 65, 9, 0, 0, 0, 0, 0, 0, 0, 0, 202, 154, 59, 1, 0,
        0, 0, 32, 1, 13, 184, 0, 0, 0, 0, 0, 0, 0, 0, 0, 0, 0, 1, 80, 31, 255, 255, 1, 0, 128, 255,
        0, 0, 0, 0, 0, 0, 0, 0, 1, 2, 3, 4, 0, 0, 0, 0, 127, 0, 0, 1, 187, 1, 7,
    ],
)];

/// Whether the bytes in pieces of this size are explained by these lines, and so is said whether a value was read.
fn is_explained(
    alloc: Global,
    (described, bytes, size): (&Described, &[u8], usize),
    (is_ok, lines): (bool, &str),
) -> Result<bool, Fail> {
    let source = in_pieces(alloc, bytes, size, None)?;
    let (ok, found) = explained_source_lines(alloc, described, source)?;
    Ok(ok == is_ok && found.as_str() == lines)
}

/// So of the line that is answered where they are checked.
fn is_checked(
    alloc: Global,
    (described, bytes, size): (&Described, &[u8], usize),
    (is_ok, line): (bool, &str),
) -> Result<bool, Fail> {
    let source = in_pieces(alloc, bytes, size, None)?;
    let (ok, found) = checked_source_line(alloc, described, source)?;
    Ok(ok == is_ok && found.as_str() == line)
}

/// So of the lines that are printed as the bytes come.
fn is_printed(
    alloc: Global,
    (described, bytes, size): (&Described, &[u8], usize),
    (is_ok, lines): (bool, &str),
) -> Result<bool, Fail> {
    let source = in_pieces(alloc, bytes, size, None)?;
    let (output, answer) = print_source_lines(alloc, described, source, Vec::new(alloc));
    let is_said = matches!(&answer, Ok(is_read) if *is_read == is_ok);
    Ok(is_said && output.as_slice() == lines.as_bytes())
}

/// The first size of pieces in which these bytes are explained or checked otherwise than in a slice, if there is one.
fn first_unlike(alloc: Global, described: &Described, bytes: &[u8]) -> Result<Option<usize>, Fail> {
    let (_, lines) = explained_lines(alloc, described, bytes)?;
    let (is_ok, line) = checked_line(alloc, described, bytes)?;
    for size in SIZES {
        let pieces = (described, bytes, size);
        let alike = [
            is_explained(alloc, pieces, (is_ok, lines.as_str()))?,
            is_checked(alloc, pieces, (is_ok, line.as_str()))?,
            is_printed(alloc, pieces, (is_ok, lines.as_str()))?,
        ];
        if alike != [true; 3] {
            return Ok(Some(size));
        }
    }
    Ok(None)
}

/// The first front of the bytes of a row that is unlike in pieces, and their size, if there is one.
fn unlike_front(alloc: Global, (text, bytes): Row) -> Result<Option<(usize, usize)>, Fail> {
    let described = Described::parse(alloc, text)?;
    for n in 0..=bytes.len() {
        if let Some(size) = first_unlike(alloc, &described, &bytes[..n])? {
            return Ok(Some((n, size)));
        }
    }
    Ok(None)
}

/// The bytes with the one at this place changed.
fn changed(alloc: Global, bytes: &[u8], place: usize, change: u8) -> Result<Vec<u8>, Fail> {
    let mut changed = Vec::from_slice(alloc, bytes)?;
    if let Some(byte) = changed.get_mut(place) {
        *byte ^= change;
    }
    Ok(changed)
}

/// The first place at which a change of a row's bytes is unlike in pieces, and their size, if there is one.
fn unlike_change(alloc: Global, (text, bytes): Row) -> Result<Option<(usize, usize)>, Fail> {
    let described = Described::parse(alloc, text)?;
    for place in 0..bytes.len() {
        for change in [1u8, 127, 255] {
            let row = changed(alloc, bytes, place, change)?;
            if let Some(size) = first_unlike(alloc, &described, row.as_slice())? {
                return Ok(Some((place, size)));
            }
        }
    }
    Ok(None)
}

#[test]
fn fronts(rt: HostRuntime) -> Result<(), Fail> {
    for rows in [PLAIN.as_slice(), NESTED.as_slice(), STD.as_slice()] {
        for row in rows {
            let unlike = unlike_front(rt.alloc(), *row)?;
            assert!(rt; unlike == None, "{} {unlike:?}", row.0);
        }
    }
    Ok(())
}

#[test]
fn changes_of_plain_types(rt: HostRuntime) -> Result<(), Fail> {
    for row in PLAIN {
        let unlike = unlike_change(rt.alloc(), row)?;
        assert!(rt; unlike == None, "{} {unlike:?}", row.0);
    }
    Ok(())
}

#[test]
fn changes_of_nested_types(rt: HostRuntime) -> Result<(), Fail> {
    for row in NESTED {
        let unlike = unlike_change(rt.alloc(), row)?;
        assert!(rt; unlike == None, "{} {unlike:?}", row.0);
    }
    Ok(())
}

#[test]
fn changes_of_std_types(rt: HostRuntime) -> Result<(), Fail> {
    for row in STD {
        let unlike = unlike_change(rt.alloc(), row)?;
        assert!(rt; unlike == None, "{} {unlike:?}", row.0);
    }
    Ok(())
}

/// Short lengths of one, two and three bytes: their bytes are put together again where they came of a source.
#[test]
fn short_lengths(rt: HostRuntime) -> Result<(), Fail> {
    let alloc = rt.alloc();
    let described = Described::parse(alloc, "(short Vec<u8>, bool)")?;
    for (head, n) in [
        (&[0x7fu8][..], 127usize),
        (&[0x80, 0x01], 128),
        (&[0xff, 0x7f], 16383),
        (&[0x80, 0x80, 0x01], 16384),
        (&[0x81, 0x80, 0x01], 16385),
        (&[0xff, 0xff, 0x03], 65535),
    ] {
        let mut bytes = Vec::from_slice(alloc, head)?;
        bytes.extend_from_slice(vec![in alloc; 7u8; n]?.as_slice())?;
        bytes.push(1)?;
        let source = in_pieces(alloc, bytes.as_slice(), 8192, None)?;
        let (ok, lines) = explained_source_lines(alloc, &described, source)?;
        let (_, due) = explained_lines(alloc, &described, bytes.as_slice())?;
        assert!(rt; ok && lines == due, "{n}");
    }
    Ok(())
}

/// A text of more than a mebibyte, which is kept, put together again and printed.
#[test]
fn a_text_of_more_than_a_mebibyte(rt: HostRuntime) -> Result<(), Fail> {
    let alloc = rt.alloc();
    let mut bytes = Vec::from_slice(alloc, &[1, 0, 16, 0, 0, 0, 0, 0])?;
    bytes.resize(1_048_585, 97)?;
    let described = Described::parse(alloc, "String")?;
    let source = StdSource::new(bytes.as_slice());
    let (ok, lines) = explained_source_lines(alloc, &described, source)?;
    let printed = lines.as_str();
    let is_begun = printed.starts_with("0: 0100100000000000 length 1048577\n8: 6161");
    let is_long = printed.len() > 1_048_577;
    assert!(rt; [ok, is_begun, is_long, printed.ends_with("aaaa\"\n")] == [true; 4]);
    Ok(())
}

/// A source that fails where its bytes end: what needs no more than came is explained.
#[test]
fn a_failure_behind_a_value(rt: HostRuntime) -> Result<(), Fail> {
    let alloc = rt.alloc();
    let described = Described::parse(alloc, "(u8, u16)")?;
    let source = in_pieces(alloc, &[1, 2, 0], 1, Some(ErrorKind::TimedOut))?;
    let (ok, lines) = explained_source_lines(alloc, &described, source)?;
    let source = in_pieces(alloc, &[1, 2, 0], 1, Some(ErrorKind::TimedOut))?;
    let is_refused = checked_source_line(alloc, &described, source).is_err();
    let due = (true, "0: 01 .0 u8 1\n1: 0200 .1 u16 2\n", true);
    assert!(rt; (ok, lines.as_str(), is_refused) == due);
    Ok(())
}

/// A list that is larger than the buffer many times over, of one of std's readers.
#[test]
fn a_large_list(rt: HostRuntime) -> Result<(), Fail> {
    let alloc = rt.alloc();
    let mut bytes = Vec::from_slice(alloc, &[0, 0, 8, 0, 0, 0, 0, 0])?;
    for i in 0..524290usize {
        bytes.push(if i % 2 == 0 { 7 } else { 0 })?;
    }
    let described = Described::parse(alloc, "Vec<Box<u8>>")?;
    let source = StdSource::new(bytes.as_slice());
    let (ok, line) = checked_source_line(alloc, &described, source)?;
    assert!(rt; (ok, line.as_str()) == (true, "ok, 524296 bytes, 2 left"));
    Ok(())
}

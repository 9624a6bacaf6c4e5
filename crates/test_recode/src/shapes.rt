//! Each shape: what it writes, how it is refused, and that nothing is written before the whole encoding is there.
use crate::NESTED;
use std::alloc::Global;
use std::io::{self, Write};
use std::test::Fail;
use testkit_schemas::rows::bytes_of;
use wincode_recode::{RelayError, recode, relay};

/// What relaying the input as the shape answers: the bytes that it wrote, or the error with how many were written.
fn relayed(alloc: Global, shape: &str, input: &[u8]) -> Result<Result<Vec<u8>, String>, Fail> {
    let mut output = Vec::new(alloc);
    let mut left = input;
    match relay(alloc, shape, &mut left, &mut output) {
        Ok(()) => Ok(Ok(output)),
        Err(error) => {
            let status = error.status();
            let written = output.len();
            Ok(Err(format!(in alloc; "{error}, {status}, {written}")?))
        }
    }
}

/// A shape, its input and what it writes, both in hexadecimal.
const WRITTEN: [(&str, &str, &str); 10] = [
    ("nested", "00000000000000000707", "0000000000000000"),
    (
        "nested",
        "020000000000000001000000000000000100000000000000000000000000000009",
        "0200000000000000010000000000000001000000000000000000000000000000",
    ),
    ("text", "01000000000000006105", "010000000000000061"),
    ("text", "0300000000000000e282ac", "0300000000000000e282ac"),
    ("short", "03010203ff", "03010203"),
    ("short", "00", "00"),
    (
        "record",
        "0201000000000000010102030405060708090a0b0c0d0e0f101112131415161718191a1b1c1d1e1f2009",
        "0201000000000000010102030405060708090a0b0c0d0e0f101112131415161718191a1b1c1d1e1f20",
    ),
    ("pairs", "020000000000000007010702", "01000000000000000702"),
    (
        "pairs",
        "030000000000000009010502050309",
        "020000000000000005030901",
    ),
    ("pairs", "0000000000000000ff", "0000000000000000"),
];

#[test]
fn shapes_written(rt: HostRuntime) -> Result<(), Fail> {
    let alloc = rt.alloc();
    for (shape, input, output) in &WRITTEN {
        let bytes = bytes_of(alloc, *input)?;
        let wanted = bytes_of(alloc, *output)?;
        let is_recoded = recode(alloc, *shape, bytes.as_slice())? == wanted;
        let is_relayed = relayed(alloc, *shape, bytes.as_slice())? == Ok(wanted);
        assert!(rt; is_recoded && is_relayed, "{shape} {input}");
    }
    Ok(())
}

/// A shape, its input in hexadecimal, and its error with the status and how many bytes were written.
const REFUSED: [(&str, &str, &str); 11] = [
    ("nested", "", "Attempting to read 8 bytes, 1, 0"),
    (
        "text",
        "0100000000000000",
        "Attempting to read 1 bytes, 1, 0",
    ),
    (
        "text",
        "0100400000000000",
        "Encoded sequence length exceeded preallocation limit of 4194304 bytes (needed 4194305 bytes), 1, 0",
    ),
    (
        "short",
        "8000",
        "Sequence length would overflow length encoding scheme: u16::MAX, 1, 0",
    ),
    ("short", "030102", "Attempting to read 3 bytes, 1, 0"),
    (
        "record",
        "0201000000000000020102030405060708090a0b0c0d0e0f101112131415161718191a1b1c1d1e1f20",
        "Invalid bool encoding: 2, 1, 0",
    ),
    (
        "record",
        "0201000000000000",
        "Attempting to read 41 bytes, 1, 0",
    ),
    (
        "pairs",
        "0200000000000000070107",
        "Attempting to read 4 bytes, 1, 0",
    ),
    ("", "00", "unknown shape, 2, 0"),
    ("other", "00", "unknown shape, 2, 0"),
    ("nested ", "00", "unknown shape, 2, 0"),
];

#[test]
fn shapes_refused(rt: HostRuntime) -> Result<(), Fail> {
    let alloc = rt.alloc();
    for (shape, input, wanted) in &REFUSED {
        let bytes = bytes_of(alloc, *input)?;
        let answer = relayed(alloc, *shape, bytes.as_slice())?;
        let error = answer.err().ok_or("a refusal")?;
        assert!(rt; error.as_str() == *wanted);
    }
    Ok(())
}

/// A shape and an encoding of it, in hexadecimal.
const ENCODED: [(&str, &str); 12] = [
    ("nested", "0000000000000000"),
    (
        "nested",
        "0200000000000000010000000000000001000000000000000000000000000000",
    ),
    ("text", "010000000000000061"),
    ("text", "0300000000000000e282ac"),
    ("short", "00"),
    ("short", "03010203"),
    (
        "record",
        "0201000000000000010102030405060708090a0b0c0d0e0f101112131415161718191a1b1c1d1e1f20",
    ),
    ("pairs", "0000000000000000"),
    ("pairs", "020000000000000007010702"),
    ("pairs", "0300000000000000090105020503"),
    ("pairs", "01000000000000000702"),
    ("pairs", "020000000000000005030901"),
];

/// Whether no value is found in front of the input, and nothing is written.
fn is_unread(alloc: Global, shape: &str, input: &[u8]) -> bool {
    let mut left = input;
    let mut output = Vec::new(alloc);
    let answer = relay(alloc, shape, &mut left, &mut output);
    matches!(&answer, Err(RelayError::Read(_))) && output.is_empty()
}

/// Each front of an encoding that is cut short is refused in reading with nothing written, whichever the shape.
#[test]
fn fronts_of_encodings(rt: HostRuntime) -> Result<(), Fail> {
    let alloc = rt.alloc();
    for (shape, text) in &ENCODED {
        let text = bytes_of(alloc, *text)?;
        for n in 0..text.len() {
            assert!(rt; is_unread(alloc, *shape, &text[..n]), "{shape} {n}");
        }
        assert!(rt; relayed(alloc, *shape, text.as_slice())?.is_ok(), "{shape}");
    }
    Ok(())
}

/// The input stays where the shape is not known.
#[test]
fn an_unknown_shape_reads_nothing(rt: HostRuntime) -> Result<(), Fail> {
    let alloc = rt.alloc();
    let mut input = NESTED.as_slice();
    let mut output = Vec::new(alloc);
    let answer = relay(alloc, "Nested", &mut input, &mut output);
    let is_unknown = matches!(&answer, Err(RelayError::UnknownShape));
    assert!(rt; (is_unknown, input.len(), output.len()) == (true, 32, 0));
    Ok(())
}

/// Takes all that it is given, and keeps how many bytes it was given first.
#[derive(Drop)]
struct Offered {
    first: Option<usize>,
}

impl Write for Offered {
    fn write(&mut self, buf: &[u8]) -> io::Result<usize> {
        if self.first.is_none() {
            self.first = Some(buf.len());
        }
        Ok(buf.len())
    }

    fn flush(&mut self) -> io::Result<()> {
        Ok(())
    }
}

/// The first that an output is given is the whole encoding.
#[test]
fn texts_go_out_whole(rt: HostRuntime) -> Result<(), Fail> {
    let alloc = rt.alloc();
    for (shape, input, output) in &WRITTEN {
        let bytes = bytes_of(alloc, *input)?;
        let mut offered = Offered { first: None };
        relay(alloc, *shape, &mut bytes.as_slice(), &mut offered)?;
        assert!(rt; offered.first == Some(output.len() / 2), "{shape}");
    }
    Ok(())
}

//! Reading and writing through devices that fail at each of their calls in turn.

use example_schemas::faults::{FailingReader, FailingWriter, read_record, write_record};
use std::alloc::Global;
use std::collections::BTreeMap;
use std::io::ErrorKind;
use std::test::Fail;
use testkit_schemas::asked::AskedReader;
use testkit_schemas::rows::{bytes_of, outcome};
use wincode::io::{self, Cursor, Lifetime, Reader, SliceRef, Writer};
use wincode::len::ShortU16Len;
use wincode::{
    Error, ReadError, RoundTrip, SchemaGet, SchemaWrite, WriteError, containers, rewrite,
};

/// More calls than any of these values needs.
const CALLS: usize = 1_000;

/// Whether a reader's device failed so.
fn is_read_fault(error: &io::ReadError, kind: ErrorKind) -> bool {
    match error {
        io::ReadError::Io(error) => error.kind() == kind,
        _ => false,
    }
}

/// Whether a writer's device failed so.
fn is_write_fault(error: &io::WriteError, kind: ErrorKind) -> bool {
    match error {
        io::WriteError::Io(error) => error.kind() == kind,
        _ => false,
    }
}

/// What rewriting the front of the bytes answers over a cursor.
fn by_cursor<'a, T: RoundTrip<Lifetime<'a>>>(alloc: Global, bytes: &'a [u8]) -> Result<String, Fail>
where
    T::Src: Drop,
{
    let mut cursor = Cursor::new(bytes);
    let calm = rewrite::<Lifetime<'a>, Cursor<&'a [u8]>, T>(alloc, &mut cursor);
    let left = bytes.len().saturating_sub(cursor.position());
    outcome(alloc, calm, left)
}

/// What it answers over a reader that lends nothing and never fails.
fn unlent<'a, T: RoundTrip<Lifetime<'a>>>(alloc: Global, bytes: &'a [u8]) -> Result<String, Fail>
where
    T::Src: Drop,
{
    let mut reader = AskedReader::new(bytes);
    let calm = rewrite::<Lifetime<'a>, AskedReader<'a>, T>(alloc, &mut reader);
    let left = reader.left();
    outcome(alloc, calm, left)
}

/// Reads the bytes over a device that fails at each call in turn, until it is met by none. Each read that
/// meets a failure is `Io` of the device's kind and leaves an end of the bytes; the last one is as it is expected.
/// How many failures were met: as many as reading makes calls.
fn read_over_faults<'a, T: RoundTrip<Lifetime<'a>>>(
    alloc: Global,
    bytes: &'a [u8],
    expected: &str,
) -> Result<usize, Fail>
where
    T::Src: Drop,
{
    for sound in 0..CALLS {
        let mut reader = FailingReader::new(bytes, sound, ErrorKind::TimedOut);
        let answer = rewrite::<Lifetime<'a>, FailingReader<'a>, T>(alloc, &mut reader);
        let left = reader.left();
        if !bytes.ends_with(left) {
            return Err(Fail::from("no end is left"));
        }
        let left = left.len();
        if reader.failures() == 0 {
            let found = outcome(alloc, answer, left)?;
            return if found.as_str() == expected {
                Ok(sound)
            } else {
                Err(Fail::from("another answer than over memory"))
            };
        }
        match &answer {
            Err(Error::ReadError(ReadError::Io(error)))
                if is_read_fault(error, ErrorKind::TimedOut) => {}
            _ => return Err(Fail::from("a failure is not told")),
        }
    }
    Err(Fail::from("too many calls"))
}

/// Writes the value that these bytes have, if one, to a device that fails at each call in turn, until it is met
/// by none. Each write that meets a failure is `Io` of the device's kind and adds a beginning of the encoding; the last
/// one adds all. How many failures were met, if there is such a value.
fn write_over_faults<'a, T: RoundTrip<Lifetime<'a>>>(
    alloc: Global,
    bytes: &'a [u8],
) -> Result<Option<usize>, Fail>
where
    T::Src: Drop,
{
    let mut reader = bytes;
    let Ok(value) = <T as SchemaGet<Lifetime<'a>>>::get(alloc, &mut reader) else {
        return Ok(None);
    };
    let mut text = Vec::new(alloc);
    T::write(&mut text, &value)?;
    let mut room = Vec::from_slice(alloc, text.as_slice())?;
    for sound in 0..CALLS {
        room.as_mut_slice().fill(0);
        let mut writer = FailingWriter::new(room.as_mut_slice(), sound, ErrorKind::StorageFull);
        let answer = T::write(&mut writer, &value);
        if !text.as_slice().starts_with(writer.written()) {
            return Err(Fail::from("no beginning was added"));
        }
        if writer.failures() == 0 {
            return if answer.is_ok() && writer.written().len() == text.len() {
                Ok(Some(sound))
            } else {
                Err(Fail::from("not written"))
            };
        }
        match &answer {
            Err(WriteError::Io(error)) if is_write_fault(error, ErrorKind::StorageFull) => {}
            _ => return Err(Fail::from("a failure is not told")),
        }
    }
    Err(Fail::from("too many calls"))
}

/// How many failures reading met, and writing, if something was written.
type Met = (usize, Option<usize>);

/// Both.
fn go_over_faults<'a, T: RoundTrip<Lifetime<'a>>>(
    alloc: Global,
    bytes: &'a [u8],
) -> Result<Met, Fail>
where
    T::Src: Drop,
{
    let expected = by_cursor::<T>(alloc, bytes)?;
    let reads = read_over_faults::<T>(alloc, bytes, expected.as_str())?;
    Ok((reads, write_over_faults::<T>(alloc, bytes)?))
}

/// Both, of values that borrow from what they are read from: the device lends nothing.
fn go_over_faults_unlent<'a, T: RoundTrip<Lifetime<'a>>>(
    alloc: Global,
    bytes: &'a [u8],
) -> Result<Met, Fail>
where
    T::Src: Drop,
{
    let expected = unlent::<T>(alloc, bytes)?;
    let reads = read_over_faults::<T>(alloc, bytes, expected.as_str())?;
    Ok((reads, write_over_faults::<T>(alloc, bytes)?))
}

/// So of a list of items by this schema.
fn list_over_faults<'a, T: RoundTrip<Lifetime<'a>>>(
    alloc: Global,
    bytes: &'a [u8],
) -> Result<Met, Fail>
where
    T::Src: Drop,
{
    go_over_faults::<Vec<T>>(alloc, bytes)
}

/// So by the type of this name.
fn go_over_faults_as(alloc: Global, name: &str, bytes: &[u8]) -> Result<Met, Fail> {
    match name {
        "u16" => go_over_faults::<u16>(alloc, bytes),
        "&str" => go_over_faults_unlent::<&str>(alloc, bytes),
        "SliceRef<u16>" => go_over_faults_unlent::<SliceRef<'_, u16>>(alloc, bytes),
        "Vec<u64>" => list_over_faults::<u64>(alloc, bytes),
        "Vec<Vec<u64>>" => list_over_faults::<Vec<u64>>(alloc, bytes),
        "Vec<(u16,bool)>" => list_over_faults::<(u16, bool)>(alloc, bytes),
        "Vec<Result<u8,u8>>" => list_over_faults::<Result<u8, u8>>(alloc, bytes),
        "Short<u8>" => go_over_faults::<containers::Vec<u8, ShortU16Len>>(alloc, bytes),
        "String" => go_over_faults::<String>(alloc, bytes),
        "char" => go_over_faults::<char>(alloc, bytes),
        "BTreeMap<u8,u8>" => go_over_faults::<BTreeMap<u8, u8>>(alloc, bytes),
        "(u64,bool,[u8;4])" => go_over_faults::<(u64, bool, [u8; 4])>(alloc, bytes),
        _ => Err(Fail::from("a type")),
    }
}

/// A type's name, and bytes as digits: inputs of the worked rows, and encodings of their values; and how many calls
/// of a device reading makes, and writing of what is read. A length is a call, and so is a window, a character's first
/// byte and then all of it, a text's bytes, and what is lent asks for none; what is written in one piece is a call.
const INPUTS: [(&str, &str, usize, Option<usize>); 30] = [
    ("u16", "0100ff", 1, Some(1)),
    ("u16", "01", 1, None),
    (
        "Vec<u64>",
        "020000000000000001000000000000000200000000000000ff",
        2,
        Some(1),
    ),
    (
        "Vec<u64>",
        "02000000000000000100000000000000020000",
        2,
        None,
    ),
    ("&str", "0300000000000000616263", 1, Some(2)),
    ("&str", "0200000000000000c328", 1, None),
    ("SliceRef<u16>", "020000000000000001000200", 1, Some(1)),
    ("SliceRef<u16>", "0200000000000000010002", 1, None),
    (
        "Vec<Vec<u64>>",
        "0200000000000000010000000000000001000000000000000000000000000000",
        5,
        Some(3),
    ),
    (
        "Vec<Vec<u64>>",
        "02000000000000000100000000000000010000000000000000000000000000",
        4,
        None,
    ),
    ("Vec<(u16,bool)>", "02000000000000000100010200", 2, None),
    (
        "Vec<(u16,bool)>",
        "0200000000000000010001020000",
        2,
        Some(1),
    ),
    ("Vec<(u16,bool)>", "0200000000000000010002020001", 2, None),
    (
        "Vec<Result<u8,u8>>",
        "010000000000000002000000094d",
        2,
        None,
    ),
    (
        "Vec<Result<u8,u8>>",
        "010000000000000001000000094d",
        2,
        Some(1),
    ),
    (
        "Vec<Result<u8,u8>>",
        "010000000000000000000000074d",
        2,
        Some(1),
    ),
    ("Short<u8>", "03010203ff", 2, Some(1)),
    ("Short<u8>", "", 1, None),
    ("Short<u8>", "800109", 2, None),
    ("Short<u8>", "ffff03", 2, None),
    ("String", "0300000000000000616263", 2, Some(2)),
    ("String", "0100400000000000", 1, None),
    ("String", "0200000000000000c32809", 2, None),
    ("char", "e282ac", 2, Some(1)),
    ("char", "e282", 2, None),
    ("char", "c080", 1, None),
    ("BTreeMap<u8,u8>", "020000000000000007010702", 2, Some(1)),
    ("BTreeMap<u8,u8>", "0200000000000000070107", 2, None),
    (
        "(u64,bool,[u8;4])",
        "01000000000000000101020304",
        1,
        Some(1),
    ),
    ("(u64,bool,[u8;4])", "010000000000000001010203", 1, None),
];

#[test]
fn each_call_fails_in_turn(rt: HostRuntime) -> Result<(), Fail> {
    let alloc = rt.alloc();
    for (name, digits, reads, writes) in INPUTS {
        let bytes = bytes_of(alloc, digits)?;
        let met = go_over_faults_as(alloc, name, bytes.as_slice())?;
        assert!(rt; met == (reads, writes), "{name} {digits} {met:?}");
    }
    Ok(())
}

/// What is at hand is what the device gave, and it is read though the device has failed.
#[test]
fn what_the_device_gave_is_read(rt: HostRuntime) -> Result<(), Fail> {
    let text = [2u8, 0, 0, 0, 0, 0, 0, 0, 104, 105, 7];
    let mut reader = FailingReader::new(&text, 1, ErrorKind::TimedOut);
    let before = reader.at_hand().len();
    reader.fill(10)?;
    let filled = reader.at_hand().len();
    let is_refused = reader.fill(11).is_err();
    assert!(rt; (before, filled, is_refused, reader.at_hand()) == (0, 10, true, &text[..10]));
    let value = <String as SchemaGet<Lifetime>>::get(rt.alloc(), &mut reader)?;
    let after = (reader.at_hand().len(), reader.left(), reader.failures());
    assert!(rt; (value.as_str(), after) == ("hi", (0, &text[10..], 1)));
    Ok(())
}

/// A list of 65,536 numbers from a device that fails at each call in turn: its length and its items are a call
/// each.
#[test]
fn a_long_list_read_over_a_device(rt: HostRuntime) -> Result<(), Fail> {
    let alloc = rt.alloc();
    let mut bytes = vec![in alloc; 0u8; 524_296]?;
    bytes[2] = 1;
    for (sound, left) in [(0usize, 524_296usize), (1, 524_288), (2, 0)] {
        let mut reader = FailingReader::new(bytes.as_slice(), sound, ErrorKind::TimedOut);
        let answer = <Vec<u64> as SchemaGet<Lifetime>>::get(alloc, &mut reader);
        let is_due = match &answer {
            Ok(list) => sound == 2 && list.len() == 65_536,
            Err(ReadError::Io(error)) => sound < 2 && is_read_fault(error, ErrorKind::TimedOut),
            Err(_) => false,
        };
        assert!(rt; (is_due, reader.left().len()) == (true, left));
    }
    Ok(())
}

/// A list of 65,536 numbers to a device that fails at each call in turn: it goes out in one piece.
#[test]
fn a_long_list_written_over_a_device(rt: HostRuntime) -> Result<(), Fail> {
    let alloc = rt.alloc();
    let list = vec![in alloc; 0u64; 65_536]?;
    let mut room = vec![in alloc; 7u8; 524_297]?;
    for (sound, written) in [(0usize, 0usize), (1, 524_296)] {
        let mut writer = FailingWriter::new(room.as_mut_slice(), sound, ErrorKind::StorageFull);
        let answer = <Vec<u64> as SchemaWrite>::write(&mut writer, &list);
        let is_due = match &answer {
            Ok(()) => sound == 1,
            Err(WriteError::Io(error)) => sound == 0
                && is_write_fault(error, ErrorKind::StorageFull),
            Err(_) => false,
        };
        assert!(rt; (is_due, writer.written().len()) == (true, written));
    }
    assert!(rt; room.last() == Some(&7u8));
    Ok(())
}

/// The record 7, true and 32 bytes of 9, and a byte of 9 more.
const RECORD: [u8; 42] = [
    7, 0, 0, 0, 0, 0, 0, 0, 1, 9, 9, 9, 9, 9, 9, 9, 9, 9, 9, 9, 9, 9, 9, 9, 9, 9, 9, 9, 9, 9, 9, 9,
    9, 9, 9, 9, 9, 9, 9, 9, 9, 9,
];

/// A record from a device that serves one call.
#[test]
fn a_record_read_over_a_device(rt: HostRuntime) -> Result<(), Fail> {
    let mut reader = FailingReader::new(&RECORD, 1, ErrorKind::TimedOut);
    let record = read_record(rt.alloc(), &mut reader)?;
    for kind in [ErrorKind::TimedOut, ErrorKind::Other] {
        let left = reader.left().len();
        let failed = read_record(rt.alloc(), &mut reader);
        let is_fault = matches!(&failed, Err(ReadError::Io(error)) if is_read_fault(error, kind));
        assert!(rt; (is_fault, left, reader.left()) == (true, 1, [9u8].as_slice()));
    }
    assert!(rt; record == (7, true, [9; 32]));
    Ok(())
}

/// How reading a record over a device that serves one call is refused, and how many bytes are left.
fn record_refused(alloc: Global, bytes: &[u8]) -> Result<String, Fail> {
    let mut reader = FailingReader::new(bytes, 1, ErrorKind::TimedOut);
    match read_record(alloc, &mut reader) {
        Ok(_) => Err(Fail::from("a record")),
        Err(error) => Ok(format!(in alloc; "{error:?} {}", reader.left().len())?),
    }
}

#[test]
fn records_refused_over_a_device(rt: HostRuntime) -> Result<(), Fail> {
    let mut flag = RECORD;
    flag[8] = 2;
    for (bytes, wanted) in [
        (&RECORD[..40], "Io(ReadSizeLimit(41)) 40"),
        (flag.as_slice(), "InvalidBoolEncoding(2) 1"),
    ] {
        assert!(rt; record_refused(rt.alloc(), bytes)?.as_str() == wanted);
    }
    Ok(())
}

/// A record to a device that serves three calls, of which the third finds too little room.
#[test]
fn a_record_written_over_a_device(rt: HostRuntime) -> Result<(), Fail> {
    let record = (7u64, true, [9u8; 32]);
    let mut room = [0u8; 83];
    let mut writer = FailingWriter::new(&mut room, 3, ErrorKind::StorageFull);
    for _ in 0..2 {
        write_record(&mut writer, record)?;
    }
    let full = write_record(&mut writer, record);
    let is_full = matches!(
        &full,
        Err(WriteError::Io(io::WriteError::WriteSizeLimit(41)))
    );
    for kind in [ErrorKind::StorageFull, ErrorKind::Other] {
        let failed = write_record(&mut writer, record);
        let is_fault = matches!(&failed, Err(WriteError::Io(error)) if is_write_fault(error, kind));
        assert!(rt; (is_full, is_fault, writer.written().len()) == (true, true, 82));
    }
    assert!(rt; (&room[..9], &room[81..]) == (&RECORD[..9], [9u8, 0].as_slice()));
    Ok(())
}

/// The device's own kind is told the first time, and Other afterwards.
fn told(failures: usize, kind: ErrorKind) -> ErrorKind {
    if failures == 1 {
        kind
    } else {
        ErrorKind::Other
    }
}

/// What a reader's device that has failed answers, and how often it says that it failed.
#[test]
fn failures_of_reading_are_counted(rt: HostRuntime) -> Result<(), Fail> {
    let mut reader = FailingReader::new(&[1, 2, 3], 2, ErrorKind::TimedOut);
    reader.consume(1)?;
    let mut window = reader.as_trusted_for(1)?;
    for n in 1..4usize {
        let kind = told(n, ErrorKind::TimedOut);
        let refused = reader.fill(1);
        let is_fault = matches!(&refused, Err(error) if is_read_fault(error, kind));
        assert!(rt; (is_fault, reader.failures(), reader.left()) == (true, n, [3u8].as_slice()));
    }
    window.consume(1)?;
    Ok(())
}

/// So a writer's.
#[test]
fn failures_of_writing_are_counted(rt: HostRuntime) -> Result<(), Fail> {
    let mut room = [0u8; 4];
    let mut writer = FailingWriter::new(&mut room, 2, ErrorKind::StorageFull);
    writer.write(&[7])?;
    let full = writer.write(&[8; 4]);
    let is_full = matches!(&full, Err(io::WriteError::WriteSizeLimit(4)));
    for n in 1..4usize {
        let kind = told(n, ErrorKind::StorageFull);
        let refused = writer.write(&[9]);
        let is_fault = matches!(&refused, Err(error) if is_write_fault(error, kind));
        let device = (writer.failures(), writer.written());
        assert!(rt; (is_full, is_fault, device) == (true, true, (n, [7u8].as_slice())));
    }
    assert!(rt; room == [7, 0, 0, 0]);
    Ok(())
}

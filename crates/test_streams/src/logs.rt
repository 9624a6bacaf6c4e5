//! Logs that were cut off, and gone on with.
use crate::pieces::in_pieces;
use std::alloc::Global;
use std::io::ErrorKind;
use std::marker::PhantomData;
use std::test::Fail;
use testkit_io::few::Few;
use wincode::io::{self, SliceWriter, StdSink, StdSource, StreamReader, StreamWriter};
use wincode::{Messages, ReadError, WriteError, append_message, serialize_into, whole_length};

type Entry = (u16, String);

/// As many letters as the number has behind its sevens.
fn letters(number: u16) -> &'static str {
    match number % 7 {
        0 => "",
        1 => "a",
        2 => "ab",
        3 => "abc",
        4 => "abcd",
        5 => "abcde",
        _ => "abcdef",
    }
}

/// A log of so many entries, and where each ends: two bytes of a number, eight of a length, and the letters.
fn log_of(alloc: Global, count: u16) -> Result<(Vec<u8>, Vec<usize>), Fail> {
    let mut bytes = Vec::new(alloc);
    let mut ends = Vec::new(alloc);
    for number in 0..count {
        let text = letters(number);
        bytes.extend_from_slice(&number.to_le_bytes())?;
        bytes.extend_from_slice(&(text.len() as u64).to_le_bytes())?;
        bytes.extend_from_slice(text.as_bytes())?;
        ends.push(bytes.len())?;
    }
    Ok((bytes, ends))
}

/// The last of the ends that is within so many bytes.
fn last_within(ends: &[usize], size: usize) -> usize {
    let mut last = 0;
    for end in ends {
        if *end <= size {
            last = *end;
        }
    }
    last
}

/// How many entries are read in front of the bytes, one after another, and where the last of them ended.
fn read_in_front(alloc: Global, bytes: &[u8]) -> Result<(u16, usize), ReadError> {
    let mut messages: Messages<_, Entry> = Messages::new(alloc, bytes)?;
    for count in 0..u16::MAX {
        match messages.next() {
            Some(Ok((number, text))) => {
                if number != count || text.as_str() != letters(number) {
                    return Err(ReadError::Custom("another entry"));
                }
            }
            _ => return Ok((count, messages.position())),
        }
    }
    Err(ReadError::Custom("too many entries"))
}

#[test]
fn cut_at_every_byte(rt: HostRuntime) -> Result<(), Fail> {
    let alloc = rt.alloc();
    let (bytes, ends) = log_of(alloc, 50)?;
    for size in 0..=bytes.len() {
        let mut reader = StreamReader::new(alloc, &bytes[..size])?;
        let whole = whole_length::<Entry, _>(alloc, &mut reader)?;
        assert!(rt; whole == last_within(ends.as_slice(), size));
    }
    Ok(())
}

/// A source that fails where its bytes end: its own failure is told, whether an entry is cut off there or not.
#[test]
fn of_a_source_that_fails_at_every_byte(rt: HostRuntime) -> Result<(), Fail> {
    let alloc = rt.alloc();
    let (bytes, _) = log_of(alloc, 7)?;
    for size in 0..=bytes.len() {
        let source = in_pieces(alloc, &bytes[..size], 5, Some(ErrorKind::TimedOut))?;
        let mut reader = StreamReader::new(alloc, source)?;
        for told in [ErrorKind::TimedOut, ErrorKind::Other] {
            let kind = match whole_length::<Entry, _>(alloc, &mut reader) {
                Err(ReadError::Io(io::ReadError::Io(error))) => Some(error.kind()),
                _ => None,
            };
            assert!(rt; kind == Some(told), "{size}");
        }
    }
    Ok(())
}

/// Of values without bytes no log has a number: they are refused at once, and nothing is read.
#[test]
fn values_without_bytes(rt: HostRuntime) -> Result<(), Fail> {
    let alloc = rt.alloc();
    let mut reader = StreamReader::new(alloc, [7u8, 8].as_slice())?;
    let whole = [
        whole_length::<(), _>(alloc, &mut reader).is_err(),
        whole_length::<[u64; 0], _>(alloc, &mut reader).is_err(),
        whole_length::<((), PhantomData<u8>), _>(alloc, &mut reader).is_err(),
    ];
    let mut messages: Messages<_, ()> = Messages::of_reader(alloc, reader);
    let is_next = matches!(&messages.next(), Some(Err(ReadError::Custom(_))));
    let mut log = Vec::new(alloc);
    let appended = append_message::<(), _>(&mut log, &());
    let is_appended = matches!(&appended, Err(WriteError::Custom(_)));
    let unread = messages.into_reader().unread().len();
    assert!(rt; (whole, is_next, is_appended, unread, log.len()) == ([true; 3], true, true, 0, 0));
    Ok(())
}

/// The log with entries appended, from this number up to the twentieth.
fn gone_on_with(alloc: Global, log: &[u8], count: u16) -> Result<Vec<u8>, Fail> {
    let mut log = Vec::from_slice(alloc, log)?;
    for number in count..20 {
        append_message::<Entry, _>(
            &mut log,
            &(number, String::from_str(alloc, letters(number))?),
        )?;
    }
    Ok(log)
}

#[test]
fn cut_and_gone_on_with(rt: HostRuntime) -> Result<(), Fail> {
    let alloc = rt.alloc();
    let (bytes, ends) = log_of(alloc, 20)?;
    for size in 0..=bytes.len() {
        let (count, position) = read_in_front(alloc, &bytes[..size])?;
        let whole: &[u8] = bytes.get(..position).unwrap_or(&[]);
        let log = gone_on_with(alloc, whole, count)?;
        let due = (last_within(ends.as_slice(), size), bytes.as_slice());
        assert!(rt; (position, log.as_slice()) == due);
    }
    Ok(())
}

/// What isn't appended whole isn't appended.
#[test]
fn without_room(rt: HostRuntime) -> Result<(), Fail> {
    let alloc = rt.alloc();
    let entry = (5, String::from_str(alloc, "abcde")?);
    for room in 0..15 {
        let mut bytes = [7; 15];
        let mut writer = SliceWriter::new(&mut bytes[..room]);
        let refused = append_message::<Entry, _>(&mut writer, &entry);
        let is_refused = matches!(
            &refused,
            Err(WriteError::Io(io::WriteError::WriteSizeLimit(15)))
        );
        assert!(rt; (is_refused, bytes) == (true, [7; 15]));
    }
    Ok(())
}

/// Entries to a sink that fails behind so many calls: what it has is a front of the log.
fn is_front(alloc: Global, size: usize, sound: usize) -> Result<bool, Fail> {
    let (bytes, ends) = log_of(alloc, 12)?;
    let mut writer = StreamWriter::new(alloc, StdSink::new(Few::failing(alloc, size, sound)))?;
    for number in 0..12 {
        let entry: Entry = (number, String::from_str(alloc, letters(number))?);
        if serialize_into(&mut writer, &entry).is_err() {
            break;
        }
    }
    let (few, _) = writer.into_inner();
    let sent = few.bytes.as_slice();
    let mut reader = StreamReader::new(alloc, StdSource::new(sent))?;
    let whole = whole_length::<Entry, _>(alloc, &mut reader)?;
    Ok(bytes.as_slice().starts_with(sent) && whole == last_within(ends.as_slice(), sent.len()))
}

#[test]
fn of_a_sink_that_fails(rt: HostRuntime) -> Result<(), Fail> {
    let alloc = rt.alloc();
    for size in [1, 5, 13, 8192] {
        for sound in [0, 1, 2, 3, 7, 11, 20, 60, 100, 300] {
            assert!(rt; is_front(alloc, size, sound)?);
        }
    }
    Ok(())
}

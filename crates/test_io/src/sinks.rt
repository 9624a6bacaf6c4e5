//! A writer to a sink, beside the same bytes in a vector.
use std::alloc::Global;
use std::io::{self, ErrorKind, Write};
use std::test::Fail;
use testkit_io::few::Few;
use wincode_io::{MemorySink, StdSink, StreamWriter, Unfinished, WriteError, WriteResult, Writer};

/// The lengths of the pieces that are written: fewer than the 8192 bytes that are kept at most, as many, and more.
const PIECES: [usize; 12] = [0, 1, 8, 3, 8000, 181, 8192, 8193, 5, 9001, 7, 0];

/// A piece of this length, whose bytes depend on where it begins.
fn piece(alloc: Global, start: usize, len: usize) -> Result<Vec<u8>, Fail> {
    let mut bytes = Vec::new(alloc);
    for i in 0..len {
        bytes.push((start.wrapping_add(i) % 251) as u8)?;
    }
    Ok(bytes)
}

/// Whether a refusal is the device's, of this kind.
fn fails_as(refusal: WriteResult<()>, kind: ErrorKind) -> bool {
    match refusal {
        Err(WriteError::Io(error)) => error.kind() == kind,
        _ => false,
    }
}

/// Writes all pieces and finishes; whether the sink then has what a vector has, and never more was kept than is said.
fn passes_all(alloc: Global, few: Few) -> Result<bool, Fail> {
    let mut wanted = Vec::new(alloc);
    let mut writer = StreamWriter::new(alloc, StdSink::new(few))?;
    let mut is_kept_short = true;
    for len in PIECES {
        let bytes = piece(alloc, wanted.len(), len)?;
        writer.write(bytes.as_slice())?;
        wanted.extend_from_slice(bytes.as_slice())?;
        is_kept_short = is_kept_short
            && writer.unsent().len() <= len.max(8192)
            && writer.position() == wanted.len();
    }
    writer.finish()?;
    let is_sound = !writer.has_failed() && writer.unsent().is_empty();
    let (few, _) = writer.into_inner();
    Ok(is_kept_short && is_sound && few.bytes == wanted && few.flushes == 1)
}

#[test]
fn that_takes_few_bytes_a_call(rt: HostRuntime) -> Result<(), Fail> {
    let alloc = rt.alloc();
    for size in [7, 1000, 8191, 8192, 65536] {
        assert!(rt; passes_all(alloc, Few::new(alloc, size))?);
        assert!(rt; passes_all(alloc, Few::interrupted(alloc, size))?);
    }
    Ok(())
}

#[test]
fn that_takes_three_bytes_a_call(rt: HostRuntime) -> Result<(), Fail> {
    let alloc = rt.alloc();
    assert!(rt; passes_all(alloc, Few::new(alloc, 3))?);
    Ok(())
}

#[test]
fn that_takes_two_bytes_a_call(rt: HostRuntime) -> Result<(), Fail> {
    let alloc = rt.alloc();
    assert!(rt; passes_all(alloc, Few::new(alloc, 2))?);
    Ok(())
}

#[test]
fn that_takes_a_byte_a_call(rt: HostRuntime) -> Result<(), Fail> {
    let alloc = rt.alloc();
    assert!(rt; passes_all(alloc, Few::new(alloc, 1))?);
    Ok(())
}

/// Writes all pieces to a sink that fails behind so many calls: what it has and what is kept are the pieces whose calls
/// succeeded, the first failure is the sink's own, each later one of kind Other, and the sink isn't asked again.
fn fails_once(alloc: Global, size: usize, sound: usize) -> Result<bool, Fail> {
    let mut wanted = Vec::new(alloc);
    let mut writer = StreamWriter::new(alloc, StdSink::new(Few::failing(alloc, size, sound)))?;
    let mut is_due = true;
    for len in PIECES {
        let bytes = piece(alloc, wanted.len(), len)?;
        let kind = match writer.has_failed() {
            true => ErrorKind::Other,
            false => ErrorKind::BrokenPipe,
        };
        let result = writer.write(bytes.as_slice());
        if result.is_ok() {
            wanted.extend_from_slice(bytes.as_slice())?;
        } else {
            is_due = is_due && fails_as(result, kind) && writer.has_failed();
        }
        is_due = is_due && writer.position() == wanted.len();
    }
    is_due = is_due && writer.finish().is_err() == writer.has_failed();
    let has_failed = writer.has_failed();
    let (few, kept) = writer.into_inner();
    let is_asked_once_more = !has_failed || few.calls == sound.saturating_add(1);
    let mut all = few.bytes;
    all.extend_from_slice(kept.as_slice())?;
    Ok(is_due && is_asked_once_more && all == wanted)
}

#[test]
fn that_fails_at_each_call(rt: HostRuntime) -> Result<(), Fail> {
    let alloc = rt.alloc();
    for sound in 0..40 {
        assert!(rt; fails_once(alloc, 1000, sound)?);
    }
    Ok(())
}

#[test]
fn that_fails_at_each_long_call(rt: HostRuntime) -> Result<(), Fail> {
    let alloc = rt.alloc();
    for sound in 0..8 {
        assert!(rt; fails_once(alloc, 9000, sound)?);
        assert!(rt; fails_once(alloc, 3000, sound)?);
    }
    Ok(())
}

/// A number, a form of 9000 bytes, a list of 9600 bytes, and a form of 8185.
fn write_forms<W: Writer>(writer: &mut W, call: usize) -> WriteResult<()> {
    match call {
        0 => writer.write_t(&7u64),
        1 => writer.write_t(&[8u8; 9000]),
        2 => writer.write_slice_t([9u64; 1200].as_slice()),
        _ => writer.write_t(&[1u8; 8185]),
    }
}

/// Writes forms to a sink that fails behind so many calls: each call writes all of its bytes, or none and tells the failure;
/// and where it writes no more than 8192 bytes are kept but its own.
fn forms_fail_once(alloc: Global, size: usize, sound: usize) -> Result<bool, Fail> {
    let mut wanted = Vec::new(alloc);
    let mut writer = StreamWriter::new(alloc, StdSink::new(Few::failing(alloc, size, sound)))?;
    let mut is_due = true;
    for call in 0..4 {
        let before = wanted.len();
        write_forms(&mut wanted, call)?;
        let kind = match writer.has_failed() {
            true => ErrorKind::Other,
            false => ErrorKind::BrokenPipe,
        };
        let result = write_forms(&mut writer, call);
        if result.is_err() {
            is_due = is_due && fails_as(result, kind) && writer.has_failed();
            wanted.truncate(before);
        } else {
            let most = wanted.len().saturating_sub(before).max(8192);
            is_due = is_due && writer.unsent().len() <= most;
        }
        is_due = is_due && writer.position() == wanted.len();
    }
    let (few, kept) = writer.into_inner();
    let mut all = few.bytes;
    all.extend_from_slice(kept.as_slice())?;
    Ok(is_due && all == wanted)
}

#[test]
fn that_fails_at_each_call_for_forms(rt: HostRuntime) -> Result<(), Fail> {
    let alloc = rt.alloc();
    for sound in 0..30 {
        assert!(rt; forms_fail_once(alloc, 1000, sound)?);
        assert!(rt; forms_fail_once(alloc, 9000, sound)?);
    }
    Ok(())
}

#[test]
fn that_takes_no_more(rt: HostRuntime) -> Result<(), Fail> {
    let alloc = rt.alloc();
    let mut writer = StreamWriter::new(alloc, StdSink::new(Few::new(alloc, 0)))?;
    writer.write(b"some")?;
    let is_zero = fails_as(writer.finish(), ErrorKind::WriteZero);
    let is_other = fails_as(writer.finish(), ErrorKind::Other);
    writer.write(b" more")?;
    let is_kept = (
        writer.unsent() == b"some more".as_slice(),
        writer.position(),
    );
    let (few, _) = writer.into_inner();
    assert!(rt; (is_zero, is_other, is_kept, few.calls) == (true, true, (true, 9), 1));
    Ok(())
}

/// Would block at its first thousand calls, and takes all afterwards.
#[derive(Drop)]
struct Blocking {
    calls: usize,
}

impl Write for Blocking {
    fn write(&mut self, buf: &[u8]) -> io::Result<usize> {
        self.calls = self.calls.saturating_add(1);
        if self.calls <= 1000 {
            return Err(io::Error::from(ErrorKind::WouldBlock));
        }
        Ok(buf.len())
    }

    fn flush(&mut self) -> io::Result<()> {
        Ok(())
    }
}

/// Only an interrupted write is tried again.
#[test]
fn that_would_block(rt: HostRuntime) -> Result<(), Fail> {
    let mut writer = StreamWriter::new(rt.alloc(), StdSink::new(Blocking { calls: 0 }))?;
    writer.write(b"some")?;
    let is_told = fails_as(writer.finish(), ErrorKind::WouldBlock);
    let (blocking, kept) = writer.into_inner();
    assert!(rt; (is_told, blocking.calls, kept.as_slice()) == (true, 1, b"some".as_slice()));
    Ok(())
}

#[test]
fn in_memory(rt: HostRuntime) -> Result<(), Fail> {
    let alloc = rt.alloc();
    let mut wanted = Vec::new(alloc);
    let mut writer = StreamWriter::new(alloc, MemorySink::new(alloc))?;
    for number in 0..3000u64 {
        writer.write_t(&number)?;
        wanted.write_t(&number)?;
    }
    writer.write_slice_t(&[1u16, 2, 3])?;
    wanted.write_slice_t(&[1u16, 2, 3])?;
    writer.finish()?;
    let (sink, _) = writer.into_sink();
    let failures = sink.failures();
    let bytes = sink.into_bytes();
    assert!(rt; (failures, bytes.as_slice()) == (0, wanted.as_slice()));
    Ok(())
}

/// Many small pieces of writing, each of which ends by `finish`, are passed on together.
#[test]
fn that_is_finished_by_its_owner(rt: HostRuntime) -> Result<(), Fail> {
    let alloc = rt.alloc();
    let mut writer = StreamWriter::new(alloc, StdSink::new(Few::new(alloc, 65536)))?;
    {
        let mut lent = Unfinished::new(&mut writer);
        for number in 0..2000u64 {
            lent.write_t(&number)?;
            lent.finish()?;
        }
    }
    writer.finish()?;
    let (few, _) = writer.into_inner();
    assert!(rt; (few.bytes.len(), few.calls, few.flushes) == (16000, 2, 1));
    Ok(())
}

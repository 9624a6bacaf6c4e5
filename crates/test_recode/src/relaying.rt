//! Relaying: inputs of every size, short reads and writes, devices that fail, and how it ends.
use crate::NESTED;
use crate::devices::Sink;
use std::alloc::Global;
use std::io::{self, ErrorKind, Read};
use std::process::Abort;
use std::test::Fail;
use testkit_schemas::rows::printed;
use wincode::io::ReadError as IoReadError;
use wincode::{ReadError, WriteError};
use wincode_recode::{RelayError, recode, relay};

/// Gives at most `piece` bytes a call, and fails once it was asked `sound` times, as a device or by a signal.
#[derive(Drop)]
struct Source<'a> {
    bytes: &'a [u8],
    piece: usize,
    sound: usize,
    failure: ErrorKind,
}

impl Read for Source<'_> {
    fn read(&mut self, buf: &mut [u8]) -> io::Result<usize> {
        if self.sound == 0 {
            return Err(io::Error::from(self.failure));
        }
        self.sound -= 1;
        let n = self.piece.min(buf.len()).min(self.bytes.len());
        let (front, rest) = self.bytes.split_at(n);
        buf[..n].copy_from_slice(front);
        self.bytes = rest;
        Ok(n)
    }
}

/// So many bytes, in which each of 251 values comes in turn.
fn body(alloc: Global, n: usize) -> Result<Vec<u8>, Fail> {
    let mut bytes = Vec::new(alloc);
    for i in 0..n {
        bytes.push((i % 251) as u8)?;
    }
    Ok(bytes)
}

/// The first `n` bytes of a list of one list of numbers, as many as fit, and what is left of the body.
fn one_list(alloc: Global, n: usize, body: &[u8]) -> Result<Vec<u8>, Fail> {
    let mut bytes = Vec::from_slice(alloc, 1u64.to_le_bytes().as_slice())?;
    let count = n.saturating_sub(16) / 8;
    bytes.extend_from_slice((count as u64).to_le_bytes().as_slice())?;
    bytes.truncate(n);
    bytes.extend_from_slice(body.get(..n.saturating_sub(16)).ok_or("a body")?)?;
    Ok(bytes)
}

/// Whether it ended with this encoding, or for a length that is missing and with none.
fn is_due(answer: &Result<Vec<u8>, RelayError>, text: Option<&[u8]>) -> bool {
    match (answer, text) {
        (Ok(found), Some(text)) => found.as_slice() == text,
        (Err(RelayError::Read(ReadError::Io(IoReadError::ReadSizeLimit(8)))), None) => true,
        _ => false,
    }
}

/// What relaying the input wrote.
fn relayed(alloc: Global, input: &[u8]) -> Result<Vec<u8>, RelayError> {
    let mut output = Vec::new(alloc);
    let mut left = input;
    match relay(alloc, "nested", &mut left, &mut output) {
        Ok(()) => Ok(output),
        Err(error) => Err(error),
    }
}

/// Lists of so many bytes, from the first size up to the second.
fn lists_of_sizes(rt: &(impl Abort + AllocGlobal), first: usize, end: usize) -> Result<(), Fail> {
    let alloc = rt.alloc();
    let body = body(alloc, 10_000)?;
    for n in first..end {
        let list = one_list(alloc, n, body.as_slice())?;
        let text = if n < 16 { None } else { list.get(..n - n % 8) };
        assert!(rt; is_due(&relayed(alloc, list.as_slice()), text), "{n}");
        if n < 100 {
            let recoded = recode(alloc, "nested", list.as_slice());
            assert!(rt; is_due(&recoded, text), "{n}");
        }
    }
    Ok(())
}

#[test]
fn lists_of_every_size_below_2100(rt: HostRuntime) -> Result<(), Fail> {
    lists_of_sizes(&rt, 0, 2_100)
}

#[test]
fn lists_of_every_size_from_2100(rt: HostRuntime) -> Result<(), Fail> {
    lists_of_sizes(&rt, 2_100, 4_201)
}

/// A value with so many bytes of input in all, from the first number up to the second.
fn values_in_inputs_of(
    rt: &(impl Abort + AllocGlobal),
    first: usize,
    end: usize,
) -> Result<(), Fail> {
    let alloc = rt.alloc();
    let text = Some(NESTED.as_slice());
    let mut input = Vec::from_slice(alloc, NESTED.as_slice())?;
    input.resize(first, 255)?;
    for n in first..end {
        assert!(rt; is_due(&relayed(alloc, input.as_slice()), text), "{n}");
        input.push(255)?;
    }
    Ok(())
}

#[test]
fn values_with_few_bytes_behind(rt: HostRuntime) -> Result<(), Fail> {
    values_in_inputs_of(&rt, 32, 5_000)
}

#[test]
fn values_with_many_bytes_behind(rt: HostRuntime) -> Result<(), Fail> {
    values_in_inputs_of(&rt, 5_000, 10_001)
}

/// Whether it ended as `Input`, by this failure.
fn is_input(answer: &Result<(), RelayError>, failure: ErrorKind) -> bool {
    match answer {
        Err(RelayError::Input(error)) => error.kind() == failure,
        _ => false,
    }
}

/// Whether it ended as `Output`, by the device.
fn is_output(answer: &Result<(), RelayError>) -> bool {
    match answer {
        Err(RelayError::Output(error)) => error.kind() == ErrorKind::Other,
        _ => false,
    }
}

/// Relays an encoding by pieces from an input that fails at each call in turn, and at none: then all went out.
fn inputs_fail(rt: &(impl Abort + AllocGlobal), text: &[u8], piece: usize, pieces: usize) {
    let alloc = rt.alloc();
    for sound in 0..pieces.saturating_add(2) {
        let failure = if sound % 2 == 0 {
            ErrorKind::Other
        } else {
            ErrorKind::Interrupted
        };
        let mut source = Source {
            bytes: text,
            piece,
            sound,
            failure,
        };
        let mut sink = Sink::new(alloc, piece, usize::MAX);
        let answer = relay(alloc, "nested", &mut source, &mut sink);
        let is_due = if sound <= pieces {
            is_input(&answer, failure) && !sink.is_asked()
        } else {
            answer.is_ok() && sink.taken() == text
        };
        assert!(rt; is_due, "{sound} of {pieces}");
    }
}

/// Relays an encoding by pieces to an output that fails at each call in turn, and at none.
fn outputs_fail(rt: &(impl Abort + AllocGlobal), text: &[u8], piece: usize, pieces: usize) {
    let alloc = rt.alloc();
    for sound in 0..pieces.saturating_add(1) {
        let mut sink = Sink::new(alloc, piece, sound);
        let answer = relay(alloc, "nested", &mut &*text, &mut sink);
        let is_due = if sound < pieces {
            let front = text.get(..sound.saturating_mul(piece));
            is_output(&answer) && Some(sink.taken()) == front
        } else {
            answer.is_ok() && sink.taken() == text
        };
        assert!(rt; is_due, "{sound} of {pieces}");
    }
}

#[test]
fn devices_fail_in_turn(rt: HostRuntime) -> Result<(), Fail> {
    let alloc = rt.alloc();
    let body = body(alloc, 10_000)?;
    for (size, piece, pieces) in [
        (80usize, 1usize, 80usize),
        (80, 7, 12),
        (9616, 1000, 10),
        (9616, 4096, 3),
    ] {
        let text = one_list(alloc, size, body.as_slice())?;
        inputs_fail(&rt, text.as_slice(), piece, pieces);
        outputs_fail(&rt, text.as_slice(), piece, pieces);
    }
    Ok(())
}

#[test]
fn relay_errors_print(rt: HostRuntime) -> Result<(), Fail> {
    let alloc = rt.alloc();
    let device = || io::Error::from(ErrorKind::Other);
    let device_text = printed(alloc, device())?;
    let rows = [
        (RelayError::UnknownShape, 2u8, "unknown shape"),
        (RelayError::Input(device()), 1, device_text.as_str()),
        (
            RelayError::Read(ReadError::InvalidTagEncoding(7)),
            1,
            "Invalid tag encoding: 7",
        ),
        (
            RelayError::Write(WriteError::OutOfMemory),
            1,
            "Out of memory",
        ),
        (RelayError::Output(device()), 1, device_text.as_str()),
        (RelayError::OutOfMemory, 1, "Out of memory"),
    ];
    for (error, status, text) in rows {
        let ends = error.status();
        assert!(rt; (ends, printed(alloc, error)?.as_str()) == (status, text));
    }
    Ok(())
}

#[test]
fn a_list_of_more_than_a_mebibyte(rt: HostRuntime) -> Result<(), Fail> {
    let alloc = rt.alloc();
    let mut input = Vec::from_slice(alloc, 1u64.to_le_bytes().as_slice())?;
    for number in [140_000u64].into_iter().chain(0..140_000) {
        input.extend_from_slice(number.to_le_bytes().as_slice())?;
    }
    let mut output = Vec::new(alloc);
    relay(alloc, "nested", &mut input.as_slice(), &mut output)?;
    assert!(rt; output == input);
    Ok(())
}

#[test]
fn five_mebibytes_behind_a_value(rt: HostRuntime) -> Result<(), Fail> {
    let alloc = rt.alloc();
    let mut input = Vec::from_slice(alloc, NESTED.as_slice())?;
    let behind = vec![in alloc; 255u8; 1_048_576]?;
    for _ in 0..5 {
        input.extend_from_slice(behind.as_slice())?;
    }
    assert!(rt; is_due(&relayed(alloc, input.as_slice()), Some(NESTED.as_slice())));
    Ok(())
}

//! Relaying what comes of a source, in pieces, to a sink.
use crate::NESTED;
use crate::devices::{Given, Sink, Taken, WIDEST, lists_of, long_size};
use example_schemas::faults::Pieces;
use std::alloc::Global;
use std::cell::Cell;
use std::io::ErrorKind;
use std::process::Abort;
use std::test::Fail;
use wincode::ReadError;
use wincode::io::{
    MemorySink, ReadError as IoReadError, Source, StdSink, StdSource, StreamReader, StreamWriter,
};
use wincode_recode::{RelayError, relay, relay_stream};

/// The bytes in pieces of this size, with an empty one before each.
fn in_pieces(
    alloc: Global,
    bytes: &[u8],
    size: usize,
    fails: Option<ErrorKind>,
) -> Result<Pieces, Fail> {
    let mut pieces = Vec::new(alloc);
    for piece in bytes.chunks(size.max(1)) {
        pieces.push(Vec::new(alloc))?;
        pieces.push(Vec::from_slice(alloc, piece)?)?;
    }
    Ok(Pieces::new(alloc, pieces, fails))
}

/// What the sink took, and how it ended.
fn relayed<S: Source + Drop>(
    alloc: Global,
    shape: &str,
    source: S,
) -> (Vec<u8>, Result<(), RelayError>) {
    let Ok(mut writer) = StreamWriter::new(alloc, MemorySink::new(alloc)) else {
        return (Vec::new(alloc), Err(RelayError::OutOfMemory));
    };
    let Ok(mut reader) = StreamReader::new(alloc, source) else {
        return (Vec::new(alloc), Err(RelayError::OutOfMemory));
    };
    let answer = relay_stream(alloc, shape, &mut reader, &mut writer);
    let (sink, _kept) = writer.into_sink();
    (sink.into_bytes(), answer)
}

/// A shape, an input, and what is written of it.
const WHOLE: [(&str, &[u8], &[u8]); 3] = [
    ("nested", &NESTED, &NESTED),
    ("short", &[3, 1, 2, 3, 255], &[3, 1, 2, 3]),
    (
        "pairs",
        &[2, 0, 0, 0, 0, 0, 0, 0, 7, 1, 7, 2],
        &[1, 0, 0, 0, 0, 0, 0, 0, 7, 2],
    ),
];

#[test]
fn whole_values(rt: HostRuntime) -> Result<(), Fail> {
    let alloc = rt.alloc();
    for (shape, input, wanted) in WHOLE {
        for size in [1usize, 5, 100] {
            let (output, answer) = relayed(alloc, shape, in_pieces(alloc, input, size, None)?);
            assert!(rt;
                answer.is_ok() && output.as_slice() == wanted,
                "{shape} {size}"
            );
        }
    }
    Ok(())
}

#[test]
fn whole_values_of_std(rt: HostRuntime) -> Result<(), Fail> {
    for (shape, input, wanted) in WHOLE {
        let (output, answer) = relayed(rt.alloc(), shape, StdSource::new(input));
        assert!(rt; answer.is_ok() && output.as_slice() == wanted, "{shape}");
    }
    Ok(())
}

#[test]
fn an_unknown_shape(rt: HostRuntime) -> Result<(), Fail> {
    let alloc = rt.alloc();
    let (_, answer) = relayed(alloc, "other", in_pieces(alloc, &NESTED, 1, None)?);
    assert!(rt; matches!(&answer, Err(RelayError::UnknownShape)));
    Ok(())
}

/// A text of more than a mebibyte, read as it comes and read whole.
#[test]
fn more_than_a_mebibyte(rt: HostRuntime) -> Result<(), Fail> {
    let alloc = rt.alloc();
    let mut input = Vec::from_slice(alloc, &[1, 0, 16, 0, 0, 0, 0, 0])?;
    input.resize(1_048_585, 97)?;
    let (streamed, answer) = relayed(alloc, "text", StdSource::new(input.as_slice()));
    let mut output = Vec::new(alloc);
    relay(alloc, "text", &mut input.as_slice(), &mut output)?;
    assert!(rt; answer.is_ok() && streamed == input && output == input);
    Ok(())
}

/// A shape, an input in pieces, whether its source then fails, and what is written, or why nothing is.
const CUT: [(&str, &[u8], Option<ErrorKind>, Result<&[u8], &str>); 5] = [
    (
        "nested",
        &[2, 0, 0, 0, 0, 0, 0, 0, 1],
        Some(ErrorKind::TimedOut),
        Err("Read(Io(Io(Kind(TimedOut))))"),
    ),
    (
        "nested",
        &[2, 0, 0, 0, 0, 0, 0, 0, 1],
        None,
        Err("Read(Io(ReadSizeLimit(8)))"),
    ),
    (
        "short",
        &[3, 1, 2, 3],
        Some(ErrorKind::TimedOut),
        Ok(&[3, 1, 2, 3]),
    ),
    (
        "short",
        &[0],
        Some(ErrorKind::TimedOut),
        Err("Read(Io(Io(Kind(TimedOut))))"),
    ),
    ("short", &[0], None, Ok(&[0])),
];

#[test]
fn cut_or_failing(rt: HostRuntime) -> Result<(), Fail> {
    let alloc = rt.alloc();
    for (shape, input, fails, wanted) in CUT {
        let (output, answer) = relayed(alloc, shape, in_pieces(alloc, input, 2, fails)?);
        let said = match &answer {
            Ok(()) => String::new(alloc),
            Err(error) => format!(in alloc; "{error:?}")?,
        };
        let found = (output.as_slice(), said.as_str());
        let due = match wanted {
            Ok(written) => (written, ""),
            Err(why) => ([].as_slice(), why),
        };
        assert!(rt; found == due, "{shape} {fails:?} {said}");
    }
    Ok(())
}

/// Each front of 40 lists: refused, and what went out is a front of it, which is all but what a buffer keeps and what
/// was read of the list that was cut.
#[test]
fn cut_at_many_places(rt: HostRuntime) -> Result<(), Fail> {
    let alloc = rt.alloc();
    let text = lists_of(alloc, 40, 100)?;
    for n in (0..text.len()).step_by(397) {
        let front = &text.as_slice()[..n];
        let (output, answer) = relayed(alloc, "nested", StdSource::new(front));
        let is_short = matches!(
            &answer,
            Err(RelayError::Read(ReadError::Io(IoReadError::ReadSizeLimit(_))))
        );
        assert!(rt; is_short && front.starts_with(output.as_slice()), "{n}");
        assert!(rt; n <= output.len().saturating_add(9_000), "{n}");
    }
    let (output, answer) = relayed(alloc, "nested", StdSource::new(text.as_slice()));
    assert!(rt; answer.is_ok() && output == text);
    Ok(())
}

/// Relays the text to a sink that serves so many calls, of so many bytes each; whether it fails then, with a front of the
/// text and the bytes that are kept behind that, or it took all.
fn is_served(alloc: Global, text: &[u8], piece: usize, sound: usize) -> Result<bool, Fail> {
    let sink = StdSink::new(Sink::new(alloc, piece, sound));
    let Ok(mut writer) = StreamWriter::new(alloc, sink) else {
        return Err(Fail::from("a writer"));
    };
    let Ok(mut reader) = StreamReader::new(alloc, StdSource::new(text)) else {
        return Err(Fail::from("a reader"));
    };
    let answer = relay_stream(alloc, "nested", &mut reader, &mut writer);
    let (sink, kept) = writer.into_inner();
    let (front, rest) = text.split_at(sink.taken().len().min(text.len()));
    let is_front = front == sink.taken() && rest.starts_with(kept.as_slice());
    match &answer {
        Ok(()) => Ok(is_front && rest.is_empty()),
        Err(RelayError::Output(error)) => Ok(is_front && error.kind() == ErrorKind::Other),
        Err(_) => Ok(false),
    }
}

/// Relays the text to sinks that fail at each of their calls in turn, and at none.
fn sinks_fail(rt: &(impl Abort + AllocGlobal), piece: usize, count: usize) -> Result<(), Fail> {
    let alloc = rt.alloc();
    let text = lists_of(alloc, 24, 100)?;
    for sound in 0..count {
        assert!(rt; is_served(alloc, text.as_slice(), piece, sound)?, "{sound}");
    }
    assert!(rt; is_served(alloc, text.as_slice(), piece, usize::MAX)?);
    Ok(())
}

#[test]
fn sinks_fail_in_turn(rt: HostRuntime) -> Result<(), Fail> {
    sinks_fail(&rt, 100, 194)?;
    sinks_fail(&rt, 1_000, 20)
}

/// Lists that are made up as they are read, and looked at where they are written: of half a mebibyte no more than
/// a list and what two buffers keep is on the way at any time.
#[test]
fn what_is_on_the_way(rt: HostRuntime) -> Result<(), Fail> {
    let alloc = rt.alloc();
    let (given, taken, widest) = (Cell::new(0), Cell::new(0), Cell::new(0));
    let source = StdSource::new(Given::new(&given));
    let Ok(mut writer) = StreamWriter::new(alloc, StdSink::new(Taken::new(&given, &taken, &widest)))
    else {
        return Err(Fail::from("a writer"));
    };
    let Ok(mut reader) = StreamReader::new(alloc, source) else {
        return Err(Fail::from("a reader"));
    };
    relay_stream(alloc, "nested", &mut reader, &mut writer)?;
    assert!(rt; taken.get() == long_size());
    assert!(rt; widest.get() <= WIDEST);
    Ok(())
}

//! Many values of a source, one after another.
use crate::pieces::in_pieces;
use example_schemas::faults::Pieces;
use std::alloc::Global;
use std::io::ErrorKind;
use std::test::Fail;
use wincode::io::{self, Lifetime, StreamReader};
use wincode::{Messages, ReadError, deserialize_from};

const SIZES: [usize; 6] = [1, 2, 3, 7, 8192, 65536];

type Flag = (u64, bool);

/// Adds the encoding of the word of this number.
fn add_word(alloc: Global, i: u64, bytes: &mut Vec<u8>) -> Result<(), Fail> {
    let word = format!(in alloc; "message {i}")?;
    bytes.extend_from_slice((word.len() as u64).to_le_bytes().as_slice())?;
    bytes.extend_from_slice(word.as_bytes())?;
    Ok(())
}

/// As many flags, each with a word behind it.
fn flags_and_words(alloc: Global, n: u64) -> Result<Vec<u8>, Fail> {
    let mut bytes = Vec::new(alloc);
    for i in 0..n {
        bytes.extend_from_slice(i.to_le_bytes().as_slice())?;
        bytes.push(u8::from(i % 2 == 0))?;
        add_word(alloc, i, &mut bytes)?;
    }
    Ok(bytes)
}

/// Whether the reader has the flag of this number, and then its word.
fn has_both(alloc: Global, reader: &mut StreamReader<Pieces>, i: u64) -> Result<bool, Fail> {
    let flag: Flag = deserialize_from::<Lifetime, _, _>(alloc, reader)?;
    let word: String = deserialize_from::<Lifetime, _, _>(alloc, reader)?;
    let due = format!(in alloc; "message {i}")?;
    Ok(flag == (i, i % 2 == 0) && word == due)
}

/// Whether the bytes in pieces of this size are 700 flags and words, and nothing is behind them.
fn are_both(alloc: Global, bytes: &[u8], size: usize) -> Result<bool, Fail> {
    let source = in_pieces(alloc, bytes, size, None)?;
    let mut reader = StreamReader::new(alloc, source)?;
    for i in 0..700u64 {
        if !has_both(alloc, &mut reader, i)? {
            return Ok(false);
        }
    }
    let end = deserialize_from::<Lifetime, _, u8>(alloc, &mut reader);
    Ok(matches!(&end, Err(ReadError::Io(io::ReadError::ReadSizeLimit(1)))))
}

/// Messages of two types, one behind another, without a byte lost between them.
#[test]
fn of_two_types(rt: HostRuntime) -> Result<(), Fail> {
    let alloc = rt.alloc();
    let bytes = flags_and_words(alloc, 700)?;
    for size in SIZES {
        assert!(rt; are_both(alloc, bytes.as_slice(), size)?);
    }
    Ok(())
}

/// The words of a log of so many, in pieces of this size, cut off before its last so many bytes.
fn log(
    alloc: Global,
    words: u64,
    size: usize,
    cut: usize,
    fails: Option<ErrorKind>,
) -> Result<Messages<Pieces, String>, Fail> {
    let mut bytes = Vec::new(alloc);
    for i in 0..words {
        add_word(alloc, i, &mut bytes)?;
    }
    let kept = bytes.len().saturating_sub(cut);
    Ok(Messages::new(alloc, in_pieces(alloc, &bytes[..kept], size, fails)?)?)
}

/// How many values come, and how the last call ends: at the end of the source, or with an error.
fn count(mut messages: Messages<Pieces, String>) -> (u64, Option<ReadError>) {
    for count in 0..1_000u64 {
        match messages.next() {
            Some(Ok(_)) => {}
            Some(Err(error)) => return (count, Some(error)),
            None => return (count, None),
        }
    }
    (1_000, None)
}

/// The kind of the source's failure: none where anything else is.
fn kind_of(error: &Option<ReadError>) -> Option<ErrorKind> {
    match error {
        Some(ReadError::Io(io::ReadError::Io(e))) => Some(e.kind()),
        _ => None,
    }
}

#[test]
fn to_the_end(rt: HostRuntime) -> Result<(), Fail> {
    let alloc = rt.alloc();
    for size in SIZES {
        for words in [40, 0] {
            let (n, error) = count(log(alloc, words, size, 0, None)?);
            assert!(rt; (n, error.is_none()) == (words, true));
        }
    }
    Ok(())
}

/// A log that ends within its last word, by each number of bytes: that is an error, and no end. The word has 17 bytes,
/// and without all of them the log ends behind a word.
#[test]
fn cut_off(rt: HostRuntime) -> Result<(), Fail> {
    let alloc = rt.alloc();
    for size in [1usize, 7, 8192] {
        for cut in 1..=17usize {
            let (n, error) = count(log(alloc, 4, size, cut, None)?);
            let is_short = matches!(&error, Some(ReadError::Io(io::ReadError::ReadSizeLimit(_))));
            assert!(rt; (n, is_short, error.is_none()) == (3, cut < 17, cut == 17));
        }
    }
    Ok(())
}

/// A source that fails behind its last word gives all words, and then its failure.
#[test]
fn failing(rt: HostRuntime) -> Result<(), Fail> {
    let alloc = rt.alloc();
    for size in SIZES {
        let (n, error) = count(log(alloc, 4, size, 0, Some(ErrorKind::TimedOut))?);
        assert!(rt; (n, kind_of(&error)) == (4, Some(ErrorKind::TimedOut)));
    }
    Ok(())
}

/// A body of 16 bytes of which a byte comes before the source fails, or ends.
fn cut_body(alloc: Global, fails: Option<ErrorKind>) -> Result<Messages<Pieces, Vec<u8>>, Fail> {
    let bytes = [16u8, 0, 0, 0, 0, 0, 0, 0, 1, 0, 0, 0, 0, 0, 0, 0, 77];
    Ok(Messages::new(alloc, in_pieces(alloc, &bytes, 17, fails)?)?)
}

/// The kind of the source's failure that stands in the place of the next message: none where anything else does.
fn next_failure(messages: &mut Messages<Pieces, Vec<u8>>) -> Option<ErrorKind> {
    match messages.next() {
        Some(Err(ReadError::Io(io::ReadError::Io(e)))) => Some(e.kind()),
        _ => None,
    }
}

/// Behind a failure of the source nothing is read of what came of half a message.
#[test]
fn behind_a_failure(rt: HostRuntime) -> Result<(), Fail> {
    let mut messages = cut_body(rt.alloc(), Some(ErrorKind::TimedOut))?;
    for told in [ErrorKind::TimedOut, ErrorKind::Other, ErrorKind::Other] {
        assert!(rt; next_failure(&mut messages) == Some(told));
    }
    assert!(rt; messages.into_reader().unread().len() == 9);
    Ok(())
}

/// A body that was refused, and whether it was, at first for its size and then by each of three calls.
fn refused_body(alloc: Global) -> Result<(Messages<Pieces, Vec<u8>>, bool), Fail> {
    let mut messages = cut_body(alloc, None)?;
    let first = messages.next();
    let mut is_refused = matches!(
        &first,
        Some(Err(ReadError::Io(io::ReadError::ReadSizeLimit(16))))
    );
    for _ in 0..3u8 {
        is_refused &= matches!(&messages.next(), Some(Err(ReadError::Custom(_))));
    }
    Ok((messages, is_refused))
}

/// Nor behind any other refusal, unless the caller says where to go on.
#[test]
fn behind_a_refusal(rt: HostRuntime) -> Result<(), Fail> {
    let alloc = rt.alloc();
    let (messages, is_refused) = refused_body(alloc)?;
    let reader = messages.into_reader();
    let unread = reader.unread().len();
    let mut more = Messages::<Pieces, Vec<u8>>::of_reader(alloc, reader);
    let next = more.next();
    let is_body = matches!(&next, Some(Ok(body)) if body.as_slice() == [77u8].as_slice());
    let is_end = more.next().is_none();
    assert!(rt; (is_refused, unread, is_body, is_end) == (true, 9, true, true));
    Ok(())
}

/// The word behind three messages of a log of four, in pieces of this size.
fn fourth_word(alloc: Global, size: usize) -> Result<String, Fail> {
    let mut messages = log(alloc, 4, size, 0, None)?;
    for _ in 0..3u8 {
        if !matches!(messages.next(), Some(Ok(_))) {
            return Err(Fail::from("no message"));
        }
    }
    let mut reader = messages.into_reader();
    Ok(deserialize_from::<Lifetime, _, String>(alloc, &mut reader)?)
}

/// The reader behind some messages gives what follows them.
#[test]
fn taken_apart(rt: HostRuntime) -> Result<(), Fail> {
    for size in SIZES {
        assert!(rt; fourth_word(rt.alloc(), size)?.as_str() == "message 3");
    }
    Ok(())
}

//! What readers answer, step by step.
use crate::inputs::{call_of, number_in, words_of};
use std::alloc::Global;
use std::test::Fail;
use wincode_io::{
    Cursor, Lending, Lifetime, ReadError, ReadResult, ReadWindow, Reader, TrustedSliceReader,
    TrustedSliceReaderZeroCopy, TrustedSliceReaderZeroCopyMut,
};

/// A refusal as text.
fn refused(alloc: Global, error: ReadError) -> Result<String, Fail> {
    Ok(format!(in alloc; "err {error:?}")?)
}

/// Bytes that were shown, or the refusal.
fn shown(alloc: Global, answer: ReadResult<&[u8]>) -> Result<String, Fail> {
    match answer {
        Ok(bytes) => words_of(alloc, bytes),
        Err(error) => refused(alloc, error),
    }
}

/// That a call went, or its refusal.
fn done(alloc: Global, answer: ReadResult<()>) -> Result<String, Fail> {
    match answer {
        Ok(()) => Ok(format!(in alloc; "ok")?),
        Err(error) => refused(alloc, error),
    }
}

/// The first byte.
fn peeked<L: Lending, R: Reader<L>>(alloc: Global, reader: &mut R) -> Result<String, Fail> {
    match reader.peek() {
        Ok(byte) => words_of(alloc, &[*byte]),
        Err(error) => refused(alloc, error),
    }
}

/// `n` bytes that are lent.
fn borrowed<L: Lending, R: Reader<L>>(
    alloc: Global,
    reader: &mut R,
    n: usize,
) -> Result<String, Fail> {
    match reader.borrow_exact(n) {
        Ok(bytes) => words_of(alloc, L::bytes_of(&bytes)),
        Err(error) => refused(alloc, error),
    }
}

/// `n` bytes that are lent for writing.
fn borrowed_mut<L: Lending, R: Reader<L>>(
    alloc: Global,
    reader: &mut R,
    n: usize,
) -> Result<String, Fail> {
    match reader.borrow_exact_mut(n) {
        Ok(bytes) => words_of(alloc, L::bytes_of_mut(&bytes)),
        Err(error) => refused(alloc, error),
    }
}

/// What a copy of `n` bytes answers, and its destination, which was zeros.
fn copied<L: Lending, R: Reader<L>>(
    alloc: Global,
    reader: &mut R,
    n: usize,
) -> Result<String, Fail> {
    let mut copy = Vec::new(alloc);
    copy.resize(n, 0u8)?;
    let answer = done(alloc, reader.copy_into_slice(copy.as_mut_slice()))?;
    let there = words_of(alloc, copy.as_slice())?;
    Ok(format!(in alloc; "{answer} {there}")?)
}

/// What reading one form of two bytes answers, and its destination, which was 7.
fn pair<L: Lending, R: Reader<L>>(alloc: Global, reader: &mut R) -> Result<String, Fail> {
    let mut number = Some(7u16);
    let answer = done(alloc, reader.copy_into_t(&mut number))?;
    Ok(format!(in alloc; "{answer} {number:?}")?)
}

/// So of one of eight.
fn number<L: Lending, R: Reader<L>>(alloc: Global, reader: &mut R) -> Result<String, Fail> {
    let mut number = Some(7u64);
    let answer = done(alloc, reader.copy_into_t(&mut number))?;
    Ok(format!(in alloc; "{answer} {number:?}")?)
}

/// What reading `n` forms of two bytes answers, and their destination, which was of sevens.
fn pairs<L: Lending, R: Reader<L>>(
    alloc: Global,
    reader: &mut R,
    n: usize,
) -> Result<String, Fail> {
    let mut numbers = Vec::new(alloc);
    numbers.resize(n, 7u16)?;
    let answer = done(alloc, reader.copy_into_slice_t(numbers.as_mut_slice()))?;
    Ok(format!(in alloc; "{answer} {numbers:?}")?)
}

/// So of eight bytes each.
fn numbers<L: Lending, R: Reader<L>>(
    alloc: Global,
    reader: &mut R,
    n: usize,
) -> Result<String, Fail> {
    let mut numbers = Vec::new(alloc);
    numbers.resize(n, 7u64)?;
    let answer = done(alloc, reader.copy_into_slice_t(numbers.as_mut_slice()))?;
    Ok(format!(in alloc; "{answer} {numbers:?}")?)
}

/// What one step answers.
fn step<L: Lending, R: Reader<L>>(
    alloc: Global,
    reader: &mut R,
    word: &str,
    n: usize,
) -> Result<String, Fail> {
    match word {
        "fill_buf" => shown(alloc, reader.fill_buf(n)),
        "fill_exact" => shown(alloc, reader.fill_exact(n)),
        "peek" => peeked::<L, R>(alloc, reader),
        "consume" => done(alloc, reader.consume(n)),
        "borrow" => borrowed::<L, R>(alloc, reader, n),
        "borrow_mut" => borrowed_mut::<L, R>(alloc, reader, n),
        "copy" => copied::<L, R>(alloc, reader, n),
        "u16" => pair::<L, R>(alloc, reader),
        "u16s" => pairs::<L, R>(alloc, reader, n),
        "u64" => number::<L, R>(alloc, reader),
        "u64s" => numbers::<L, R>(alloc, reader, n),
        _ => Err(Fail::from("a step of a reader")),
    }
}

/// A window of `n` bytes, as the one in which the next steps go on, or the refusal.
fn opened<L: Lending, R: Reader<L>>(
    alloc: Global,
    reader: &mut R,
    n: usize,
    windows: &mut Vec<ReadWindow<L>>,
) -> Result<String, Fail> {
    match reader.as_trusted_for(n) {
        Ok(window) => {
            windows.push(window)?;
            Ok(format!(in alloc; "ok")?)
        }
        Err(error) => refused(alloc, error),
    }
}

/// What one step answers in the innermost window, or by the reader where there is none.
fn innermost<L: Lending, R: Reader<L>>(
    alloc: Global,
    reader: &mut R,
    windows: &mut Vec<ReadWindow<L>>,
    text: &str,
) -> Result<String, Fail> {
    let (word, n) = call_of(text)?;
    let Some(mut window) = windows.pop() else {
        return match word {
            "window" => opened::<L, R>(alloc, reader, n, windows),
            _ => step::<L, R>(alloc, reader, word, n),
        };
    };
    if word == "end" {
        return shown(alloc, window.fill_buf(usize::MAX));
    }
    let mut inner = Vec::new(alloc);
    let answer = match word {
        "window" => opened::<L, ReadWindow<L>>(alloc, &mut window, n, &mut inner)?,
        _ => step::<L, ReadWindow<L>>(alloc, &mut window, word, n)?,
    };
    windows.push(window)?;
    if let Some(last) = inner.pop() {
        windows.push(last)?;
    }
    Ok(answer)
}

/// What each step answers, and what then is left.
fn walked<L: Lending, R: Reader<L>>(
    alloc: Global,
    reader: &mut R,
    steps: &str,
) -> Result<String, Fail> {
    let mut windows = Vec::new(alloc);
    let mut answers = String::new(alloc);
    for text in steps.split(';') {
        if !text.is_empty() {
            let answer = innermost::<L, R>(alloc, reader, &mut windows, text)?;
            answers.push_str(answer.as_str())?;
            answers.push_str(";")?;
        }
    }
    answers.push_str(shown(alloc, reader.fill_buf(usize::MAX))?.as_str())?;
    Ok(answers)
}

/// So by a cursor, with its position.
fn by_cursor(alloc: Global, bytes: &[u8], position: usize, steps: &str) -> Result<String, Fail> {
    let mut cursor = Cursor::new_at(bytes, position);
    let answers = walked::<Lifetime, Cursor<&[u8]>>(alloc, &mut cursor, steps)?;
    let there = cursor.position();
    Ok(format!(in alloc; "{answers} at {there}")?)
}

/// The position of the cursor that the kind names, if it names one.
fn cursor_at(kind: &str) -> Option<usize> {
    match kind.split_once(' ') {
        Some(("cursor", position)) => number_in(position),
        _ => None,
    }
}

/// What the steps answer by a reader of the kind over the bytes, which stand for writing too; none where it is no
/// reader.
pub fn answer(
    alloc: Global,
    kind: &str,
    bytes: &[u8],
    held: &mut [u8],
    steps: &str,
) -> Result<Option<String>, Fail> {
    let mut shared = bytes;
    let mut writing = held;
    let answers = match kind {
        "slice" => walked::<Lifetime, &[u8]>(alloc, &mut shared, steps)?,
        "mut slice" => walked::<Lifetime, &mut [u8]>(alloc, &mut writing, steps)?,
        "shared window" => {
            let mut window = TrustedSliceReaderZeroCopy::<Lifetime>::new(bytes);
            walked(alloc, &mut window, steps)?
        }
        "writing window" => {
            let mut window = TrustedSliceReaderZeroCopyMut::<Lifetime>::new(writing);
            walked(alloc, &mut window, steps)?
        }
        "plain window" => {
            let mut window = TrustedSliceReader::<Lifetime>::new(bytes);
            walked(alloc, &mut window, steps)?
        }
        _ => match cursor_at(kind) {
            Some(position) => by_cursor(alloc, bytes, position, steps)?,
            None => return Ok(None),
        },
    };
    Ok(Some(answers))
}

//! What writers answer, step by step.
ghost use Rattle.std.specs.Prelude.{◌<◌, ◌+◌, ◌^◌, ◌≤◌, length};

use crate::inputs::{bytes_of, call_of, number_of, words_of};
use std::alloc::Global;
use std::test::Fail;
use testkit_io::writers::{write_in_parts, write_in_window, write_within};
use wincode_io::{Cursor, SliceWriter, TrustedSliceWriter, WriteResult, Writer};

/// That a call went, or its refusal.
fn done(alloc: Global, answer: WriteResult<()>) -> Result<String, Fail> {
    Ok(match answer {
        Ok(()) => format!(in alloc; "ok")?,
        Err(error) => format!(in alloc; "err {error:?}")?,
    })
}

/// The bytes through a window of so many.
fn in_window<W: Writer>(alloc: Global, writer: &mut W, words: &str) -> Result<String, Fail> {
    let (n, bytes) = words.split_once(' ').ok_or("a window")?;
    let taken = bytes_of(alloc, bytes)?;
    done(
        alloc,
        write_in_window(writer, number_of(n)?, taken.as_slice()),
    )
}

/// Three parts in a window, the second in one of its own, with so many bytes to spare.
fn within<W: Writer>(alloc: Global, writer: &mut W, words: &str) -> Result<String, Fail> {
    let (n, parts) = words.split_once(' ').ok_or("a window")?;
    let (outer, rest) = parts.split_once(',').ok_or("parts")?;
    let (inner, after) = rest.split_once(',').ok_or("parts")?;
    let outer = bytes_of(alloc, outer)?;
    let inner = bytes_of(alloc, inner)?;
    let after = bytes_of(alloc, after)?;
    let spare = number_of(n)?;
    if spare > 1000 || outer.len() > 1000 || inner.len() > 1000 || after.len() > 1000 {
        return Err(Fail::from("short parts"));
    }
    let answer = write_within(
        writer,
        outer.as_slice(),
        inner.as_slice(),
        after.as_slice(),
        spare,
    );
    done(alloc, answer)
}

/// Forms, by one call or many at once.
fn forms<W: Writer>(alloc: Global, writer: &mut W, word: &str) -> Result<String, Fail> {
    match word {
        "u8" => done(alloc, writer.write_t(&1u8)),
        "u16" => done(alloc, writer.write_t(&258u16)),
        "u16s" => done(alloc, writer.write_slice_t(&[1u16, 515])),
        "u64" => done(alloc, writer.write_t(&258u64)),
        "u64s" => done(alloc, writer.write_slice_t(&[1u64, 515])),
        "no u64s" => done(alloc, writer.write_slice_t::<u64>(&[])),
        "finish" => done(alloc, writer.finish()),
        _ => Err(Fail::from("a step of a writer")),
    }
}

/// What one step answers.
fn step<W: Writer>(alloc: Global, writer: &mut W, text: &str) -> Result<String, Fail> {
    match text.split_once(' ') {
        Some(("write", bytes)) => done(alloc, writer.write(bytes_of(alloc, bytes)?.as_slice())),
        Some(("parts", bytes)) => done(
            alloc,
            write_in_parts(writer, bytes_of(alloc, bytes)?.as_slice()),
        ),
        Some(("room", n)) => done(alloc, writer.make_room(number_of(n)?)),
        Some(("window", words)) => in_window(alloc, writer, words),
        Some(("within", words)) => within(alloc, writer, words),
        _ => forms(alloc, writer, text),
    }
}

/// What each step answers.
fn walked<W: Writer>(alloc: Global, writer: &mut W, steps: &str) -> Result<String, Fail> {
    let mut answers = String::new(alloc);
    for text in steps.split(';') {
        if !text.is_empty() {
            answers.push_str(step(alloc, writer, text)?.as_str())?;
            answers.push_str(";")?;
        }
    }
    Ok(answers)
}

/// The answers, the bytes that are there, and what else is told.
fn told(alloc: Global, answers: String, bytes: &[u8], told: String) -> Result<String, Fail> {
    let there = words_of(alloc, bytes)?;
    Ok(format!(in alloc; "{answers}{there}{told}")?)
}

/// The steps over a slice from its front.
fn by_slice(alloc: Global, bytes: &mut Vec<u8>, steps: &str) -> Result<String, Fail> {
    let mut writer = SliceWriter::new(bytes.as_mut_slice());
    let answers = walked(alloc, &mut writer, steps)?;
    let room = writer.room();
    let written = words_of(alloc, writer.written())?;
    Ok(format!(in alloc; "{answers}{written} room {room}")?)
}

/// The steps over three bytes by a cursor.
fn by_array(alloc: Global, position: usize, steps: &str) -> Result<String, Fail> {
    let mut array = [0u8; 3];
    let mut cursor = Cursor::new_at(&mut array, position);
    let answers = walked(alloc, &mut cursor, steps)?;
    let at = cursor.position();
    told(
        alloc,
        answers,
        array.as_slice(),
        format!(in alloc; " at {at}")?,
    )
}

/// The steps over a slice by a cursor.
fn by_slice_cursor(
    alloc: Global,
    bytes: &mut Vec<u8>,
    position: usize,
    steps: &str,
) -> Result<String, Fail> {
    let mut cursor = Cursor::new_at(bytes.as_mut_slice(), position);
    let answers = walked(alloc, &mut cursor, steps)?;
    let at = cursor.position();
    told(
        alloc,
        answers,
        bytes.as_slice(),
        format!(in alloc; " at {at}")?,
    )
}

/// The steps over a vector by a cursor that has it.
fn by_vector_cursor(
    alloc: Global,
    bytes: &[u8],
    position: usize,
    steps: &str,
) -> Result<String, Fail> {
    let mut cursor = Cursor::new_at(bytes.to_vec(alloc)?, position);
    let answers = walked(alloc, &mut cursor, steps)?;
    let at = cursor.position();
    let all = cursor.into_inner();
    told(
        alloc,
        answers,
        all.as_slice(),
        format!(in alloc; " at {at}")?,
    )
}

/// The steps over a vector by a cursor that borrows it.
fn by_vector_borrowed(
    alloc: Global,
    bytes: &mut Vec<u8>,
    position: usize,
    steps: &str,
) -> Result<String, Fail> {
    let mut cursor = Cursor::new_at(&mut *bytes, position);
    let answers = walked(alloc, &mut cursor, steps)?;
    let at = cursor.position();
    told(
        alloc,
        answers,
        bytes.as_slice(),
        format!(in alloc; " at {at}")?,
    )
}

/// The steps in a window of a slice.
fn by_place(
    alloc: Global,
    bytes: &mut Vec<u8>,
    place: usize,
    n: usize,
    steps: &str,
) -> Result<String, Fail> {
    if n > bytes.len().saturating_sub(place) {
        return Err(Fail::from("a window within the slice"));
    }
    let mut at = place;
    let mut window = TrustedSliceWriter::new(bytes.as_mut_slice(), &mut at, n);
    let answers = walked(alloc, &mut window, steps)?;
    told(
        alloc,
        answers,
        bytes.as_slice(),
        format!(in alloc; " at {at}")?,
    )
}

/// The steps by a cursor or in a window, whose place stands behind the kind's name.
fn placed(
    alloc: Global,
    kind: &str,
    place: usize,
    bytes: &mut Vec<u8>,
    steps: &str,
) -> Result<String, Fail> {
    match kind {
        "cursor slice" => by_slice_cursor(alloc, bytes, place, steps),
        "cursor array" => by_array(alloc, place, steps),
        "cursor vec" => by_vector_cursor(alloc, bytes.as_slice(), place, steps),
        "cursor mut vec" => by_vector_borrowed(alloc, bytes, place, steps),
        _ => match call_of(kind)? {
            ("place", at) => by_place(alloc, bytes, at, place, steps),
            _ => Err(Fail::from("a kind")),
        },
    }
}

/// What the steps answer by a writer of the kind over the bytes.
pub fn answer(alloc: Global, kind: &str, bytes: &mut Vec<u8>, steps: &str) -> Result<String, Fail> {
    match kind {
        "vec" => {
            let answers = walked(alloc, bytes, steps)?;
            told(alloc, answers, bytes.as_slice(), String::new(alloc))
        }
        "slice writer" => by_slice(alloc, bytes, steps),
        _ => {
            let (name, place) = call_of(kind)?;
            placed(alloc, name, place, bytes, steps)
        }
    }
}

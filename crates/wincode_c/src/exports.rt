//! What other programs call.
ghost use Rattle.std.specs.Prelude.{◌≡◌};
ghost use Rattle.wincode_c.specs.Messages.{PutsMessage};
ghost use Rattle.wincode_c.specs.Reports.{Answers, AnswersExact, AnswersPage, PutsLayout};

use crate::checking::check_by;
use crate::explaining::{TEXT_OUT_OF_MEMORY, explain_by};
use crate::messages::{message, put_text};
use crate::report::{Page, Report};
use crate::typed::{declared_by, described_by};
use std::alloc::Global;

/// The number of the refusal where bytes are behind the value.
const BYTES_BEHIND: i32 = 15;

/// Reads the bytes by the type that the text describes, reports what was found, and gives 0 where they begin with a value
/// of it; else the number of the refusal. Where the text describes no type, it gives a number below 0.
#[unsafe(no_mangle)]
pub extern "C" fn wincode_check(
    alloc: Global,
    text: &[u8],
    bytes: &[u8],
    report: &mut Report,
) -> i32
    ensures { Answers text.now bytes.now report.new result }
{
    match described_by(alloc, text) {
        Ok(described) => check_by(alloc, &described, bytes, report),
        Err(fault) => fault.reported(report),
    }
}

/// As `wincode_check`, where bytes behind the value are a refusal too.
#[unsafe(no_mangle)]
pub extern "C" fn wincode_check_exact(
    alloc: Global,
    text: &[u8],
    bytes: &[u8],
    report: &mut Report,
) -> i32
    ensures { AnswersExact text.now bytes.now report.new result }
{
    let number = wincode_check(alloc, text, bytes, report);
    if number == 0 && report.behind > 0 {
        report.first = report.behind;
        return BYTES_BEHIND;
    }
    number
}

/// As `wincode_check`, and puts the lines that explain the value over the front of the room, from the line with that number
/// on, as many whole ones as fit. A line has the offset of a part, its bytes, its place and its value; of a refusal the last
/// line has the offset, the place and why. Where memory for the lines is refused it gives -5, and nothing is put there.
#[unsafe(no_mangle)]
pub extern "C" fn wincode_explain(
    alloc: Global,
    text: &[u8],
    bytes: &[u8],
    from: usize,
    room: &mut [u8],
    report: &mut Report,
    page: &mut Page,
) -> i32
    ensures { AnswersPage text.now bytes.now from room.old room.new report.new page.new result }
{
    page.length = 0;
    page.lines = 0;
    page.behind = 0;
    match described_by(alloc, text) {
        Ok(described) => explain_by(alloc, &described, bytes, from, room, report, page),
        Err(fault) => fault.reported(report),
    }
}

/// Puts the text of the refusal with that number over the front of the room, as the library's error prints it; the two
/// numbers are those of the report. Tells the text's length, and gives 0; -6 where there is too little room, and -5 where
/// memory for the text is refused: then nothing is put there. A number that is no refusal's has the empty text.
#[unsafe(no_mangle)]
pub extern "C" fn wincode_message(
    alloc: Global,
    number: i32,
    first: usize,
    second: usize,
    room: &mut [u8],
    length: &mut usize,
) -> i32
    ensures { PutsMessage number first second room.old room.new length.new result }
{
    match message(alloc, number, first, second) {
        Ok(text) => put_text(text.as_bytes(), room, length),
        Err(_) => {
            *length = 0;
            TEXT_OUT_OF_MEMORY
        }
    }
}

/// Puts the text of a type over the front of the room, where the structs and enums that a Rust source declares have their
/// names: `Vec<Account>` becomes the text that the other calls take. Tells the text's length, and gives 0; -6 where there
/// is too little room, and -5 where memory for the text is refused. Where the source or the type can't be read, it gives
/// -1 to -4, and tells the byte of the type.
#[unsafe(no_mangle)]
pub extern "C" fn wincode_layout(
    alloc: Global,
    source: &[u8],
    text: &[u8],
    room: &mut [u8],
    length: &mut usize,
) -> i32
    ensures { PutsLayout source.now text.now room.old room.new length.new result }
{
    let described = match declared_by(alloc, source, text) {
        Ok(described) => described,
        Err(fault) => {
            let (number, place) = fault.number();
            *length = place;
            return number;
        }
    };
    match format!(in alloc; "{described}") {
        Ok(layout) => put_text(layout.as_bytes(), room, length),
        Err(_) => {
            *length = 0;
            TEXT_OUT_OF_MEMORY
        }
    }
}

//! The lines that explain bytes, a page of them.
ghost use Rattle.std.specs.Prelude.{IsTrue};
ghost use Rattle.wincode_c.specs.Reports.{AreOf, ReportsPage};

use crate::checking::check_by;
use crate::pages::put_page;
use crate::report::{Page, Report};
use std::alloc::Global;
use wincode_describe::{Described, explained_lines};

/// The number where memory for lines or a text is refused.
pub(crate) const TEXT_OUT_OF_MEMORY: i32 = -5;

/// Whether lines are those of what has this number: of a value, or of a refusal.
fn are_of(number: i32, is_read: bool) -> bool
    ensures { IsTrue result → AreOf number is_read }
{
    if is_read { number == 0 } else { number != 0 }
}

/// Reads the bytes by the type, reports what was found, and puts the lines that explain it over the front of the room, from
/// the line with that number on.
pub(crate) fn explain_by(
    alloc: Global,
    described: &Described,
    bytes: &[u8],
    from: usize,
    room: &mut [u8],
    report: &mut Report,
    page: &mut Page,
) -> i32
    ensures { ReportsPage described.now bytes.now from room.old room.new report.new page.old page.new result }
{
    let number = check_by(alloc, described, bytes, report);
    let Ok((is_read, lines)) = explained_lines(alloc, described, bytes) else {
        return TEXT_OUT_OF_MEMORY;
    };
    // The bytes are read twice, and memory may have been refused once.
    if !are_of(number, is_read) {
        return TEXT_OUT_OF_MEMORY;
    }
    let (length, count, behind) = put_page(lines.as_bytes(), from, room);
    page.length = length;
    page.lines = count;
    page.behind = behind;
    number
}

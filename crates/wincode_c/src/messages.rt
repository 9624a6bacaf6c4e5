//! The texts of refusals.
ghost use Rattle.std.specs.Prelude.{◌≡◌, IfOk};
ghost use Rattle.std.specs.String.{string_bytes};
ghost use Rattle.wincode_c.specs.Messages.{utf8_message, message, PutsText};

use std::alloc::{AllocError, Global};
use wincode_base::front::put_front;

/// The number where there is too little room for a text.
const TOO_LITTLE_ROOM: i32 = -6;

/// Why a text isn't UTF-8.
fn utf8_message(alloc: Global, at: usize, count: usize) -> Result<String, AllocError>
    ensures { IfOk result (λ text. string_bytes text ≡ utf8_message at count) }
{
    match count {
        0 => format!(in alloc; "incomplete utf-8 byte sequence from index {at}"),
        _ => format!(in alloc; "invalid utf-8 sequence of {count} bytes from index {at}"),
    }
}

/// The text of the refusal with that number, whose text has these two; none of any other number.
pub(crate) fn message(
    alloc: Global,
    number: i32,
    first: usize,
    second: usize,
) -> Result<String, AllocError>
    ensures { IfOk result (λ text. string_bytes text ≡ message number first second) }
{
    match number {
        1 => format!(in alloc; "Attempting to read {first} bytes"),
        2 => String::from_str(
            alloc,
            "Unsupported zero-copy operation: reader does not support deserializing zero-copy types",
        ),
        4 => String::from_str(alloc, "Out of memory"),
        5 => utf8_message(alloc, first, second),
        6 => String::from_str(alloc, "Could not cast integer type to pointer sized type"),
        7 => format!(in alloc;
            "Encoded sequence length exceeded preallocation limit of {second} bytes (needed {first} bytes)"
        ),
        8 => format!(in alloc; "Invalid tag encoding: {first}"),
        9 => format!(in alloc; "Invalid bool encoding: {first}"),
        10 => String::from_str(
            alloc,
            "Sequence length would overflow length encoding scheme: usize::MAX",
        ),
        11 => format!(in alloc; "Invalid char lead: {first}"),
        13 => String::from_str(alloc, "Zero-copy read would be unaligned"),
        14 => String::from_str(alloc, "Out of memory"),
        15 => format!(in alloc; "Bytes behind the value: {first}"),
        16 => String::from_str(
            alloc,
            "Sequence length would overflow length encoding scheme: u16::MAX",
        ),
        _ => Ok(String::new(alloc)),
    }
}

/// Puts the text over the front of the room, tells its length in bytes, and gives 0; where there is too little room, it puts
/// nothing there, and gives -6.
pub(crate) fn put_text(text: &[u8], room: &mut [u8], length: &mut usize) -> i32
    ensures { PutsText text.now room.old room.new length.new result }
{
    *length = text.len();
    match put_front(text, room) {
        Some(_) => 0,
        None => TOO_LITTLE_ROOM,
    }
}

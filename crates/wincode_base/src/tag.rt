//! How the tag is read that says which case of a value stands behind it.
ghost use Rattle.std.specs.Prelude.{◌≡◌, ℕ, true};
ghost use Rattle.wincode_base.specs.Leaves.{number_read};
ghost use Rattle.wincode_base.specs.Outcomes.{GetOutcome};
ghost use Rattle.wincode_base.specs.TagLaws.{one_byte, two_bytes, four_bytes, eight_bytes};
ghost use Rattle.wincode_base.specs.Tags.{IsTagSize, greatest_tag};

use crate::error::ReadResult;
use crate::reader::{take_array, take_number};
use wincode_io::{Lending, Reader};

/// A tag scheme: how many bytes a tag has. A tag is an unsigned number, the lowest byte first.
pub trait TagCode {
    ghost size: { ℕ };

    /// The size of each tag, in bytes: 1, 2, 4 or 8.
    fn tag_size() -> usize
        ensures { result ≡ size };

    /// The greatest tag of so many bytes.
    fn max_tag() -> usize
        ensures { result ≡ greatest_tag size };

    ghost tag_law: { IsTagSize size };
}

impl TagCode for u8 {
    ghost size = { 1 };

    fn tag_size() -> usize {
        1
    }

    fn max_tag() -> usize {
        u8::MAX as usize
    }

    ghost tag_law = { one_byte };
}

impl TagCode for u16 {
    ghost size = { 2 };

    fn tag_size() -> usize {
        2
    }

    fn max_tag() -> usize {
        u16::MAX as usize
    }

    ghost tag_law = { two_bytes };
}

impl TagCode for u32 {
    ghost size = { 4 };

    fn tag_size() -> usize {
        4
    }

    fn max_tag() -> usize {
        u32::MAX as usize
    }

    ghost tag_law = { four_bytes };
}

impl TagCode for u64 {
    ghost size = { 8 };

    fn tag_size() -> usize {
        8
    }

    fn max_tag() -> usize {
        usize::MAX
    }

    ghost tag_law = { eight_bytes };
}

/// Reads a tag, which is then gone. Where fewer than `Tag::tag_size()` bytes are left it is
/// `Io(ReadSizeLimit)` of that size, and they stay; so they do where the reader's memory or its device
/// refused.
pub fn read_tag<Tag: TagCode, L: Lending, R: Reader<L>>(reader: &mut R) -> ReadResult<usize>
    ensures { GetOutcome (number_read Tag.size true) (λ t. t) (R.state reader.old) (R.state reader.new) result }
{
    match Tag::tag_size() {
        1 => Ok(u8::from_le_bytes(take_array::<L, R, 1>(reader)?) as usize),
        2 => Ok(u16::from_le_bytes(take_array::<L, R, 2>(reader)?) as usize),
        4 => Ok(u32::from_le_bytes(take_array::<L, R, 4>(reader)?) as usize),
        _ => Ok(take_number::<L, R>(reader)? as usize),
    }
}

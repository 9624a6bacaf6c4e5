//! How the tag is written that says which case of a value stands behind it.
ghost use Rattle.std.specs.Prelude.{◌≤◌, true};
ghost use Rattle.wincode_base.specs.Leaves.{number_write};
ghost use Rattle.wincode_base.specs.Outcomes.{WriteOutcome};
ghost use Rattle.wincode_base.specs.Tags.{greatest_tag};

use crate::schema::SchemaWrite;
use wincode_base::error::WriteResult;
use wincode_base::tag::TagCode;
use wincode_io::Writer;

/// Writes a tag, which is at most `Tag::max_tag()`, in `Tag::tag_size()` bytes. Where there is less room
/// it is `Io(WriteSizeLimit)` of that size; refused, for the writer's memory or by its device too,
/// nothing is added.
pub fn write_tag<Tag: TagCode, W: Writer>(writer: &mut W, tag: usize) -> WriteResult<()>
    requires { tag ≤ greatest_tag Tag.size }
    ensures { WriteOutcome (number_write Tag.size true) (W.state writer.old) (W.state writer.new) tag (Unit {0}) result }
{
    match Tag::tag_size() {
        1 => <u8 as SchemaWrite>::write::<W>(writer, &(tag as u8)),
        2 => <u16 as SchemaWrite>::write::<W>(writer, &(tag as u16)),
        4 => <u32 as SchemaWrite>::write::<W>(writer, &(tag as u32)),
        _ => <u64 as SchemaWrite>::write::<W>(writer, &(tag as u64)),
    }
}

//! Many values at once, as their byte forms.
ghost use Rattle.std.specs.Prelude.{◌≤◌, length, take, map, IfSome};
ghost use Rattle.wincode_io.specs.Joins.{Each};
ghost use Rattle.wincode_base.specs.AsForms.{writes_form, WrittenAtOnce};
ghost use Rattle.wincode_base.specs.Outcomes.{IsEncoded};

use wincode_base::error::WriteResult;
use wincode_io::bulk::write_forms;
use wincode_io::{Writer, ZeroCopy};

/// Writes the forms of the values, one after another, all or nothing. Where the room is less it is
/// `WriteSizeLimit` of the size of all, in bytes.
pub(crate) fn write_all<T: ZeroCopy, W: Writer>(writer: &mut W, items: &[T]) -> WriteResult<()>
    ensures { WrittenAtOnce T.size (length items.now) (writes_form T.size T.form) (W.state writer.old) (W.state writer.new) (map (λ v. v) items.now) (Each T.is_valid items.now) result }
{
    write_forms(writer, items)?;
    Ok(())
}

/// Puts the form of the value over the front of the bytes, and gives how many it has; or answers `None`, where there are
/// fewer.
#[inline(always)]
pub(crate) fn encode_form<T: ZeroCopy>(src: &T, dst: &mut [u8]) -> Option<usize>
    ensures { IfSome result (λ n. (n ≤ length dst.new) × IsEncoded (writes_form T.size T.form) src.now (take n dst.new) × T.is_valid src.now) }
{
    match T::form_size() {
        Some(size) if size <= dst.len() => {
            src.put_form(&mut dst[..size]);
            Some(size)
        }
        _ => None,
    }
}

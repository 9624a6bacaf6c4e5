//! Many values at once, to a writer, as their byte forms.
ghost use Rattle.std.specs.Prelude.{◌≡◌, ℕ, ◌+◌, ◌*◌, ◌<◌, ◌≤◌, length, take, OnOk, IfErr, Err};
ghost use Rattle.std.specs.List.{All, flat_map};
ghost use Rattle.wincode_io.specs.Writers.{Added, Took, IsUnmoved, IsSoundWriter, BytesWriteRefused, byte_limit};

use crate::error::{WriteError, WriteResult};
use crate::writer::Writer;
use crate::zero_copy::{ZeroCopy, put_forms, size_of_form, total_size};

/// Writes the forms, each by itself, for which room was made.
fn write_each<W: Writer, T: ZeroCopy>(writer: &mut W, values: &[T])
    requires { length values.now * T.size ≤ (W.state writer.old).ready }
    ensures took { Took (flat_map T.form values.now) (W.state writer.old) (W.state writer.new) }
    ensures is_valid { All T.is_valid values.now }
{
    for value in values {
        writer.write_ready_t(value);
    }
}

/// Writes the forms, of at most 16 bytes each, for which room was made: they are put together a block at a
/// time.
fn write_blocks<W: Writer, T: ZeroCopy>(writer: &mut W, values: &[T])
    requires room { length values.now * T.size ≤ (W.state writer.old).ready }
    requires small { T.size ≤ 16 }
    ensures took { Took (flat_map T.form values.now) (W.state writer.old) (W.state writer.new) }
    ensures is_valid { All T.is_valid values.now }
{
    let mut bytes = [0u8; 1024];
    let size = size_of_form::<T>();
    let mut rest = values;
    while !rest.is_empty() {
        let (block, more) = rest.split_at(rest.len().min(64));
        let forms = &mut bytes[..block.len() * size];
        put_forms(block, forms);
        writer.write_ready(forms);
        rest = more;
    }
}

/// Writes the forms of the first `N` values, for which room was made; gives `N`. That their number is known lets the
/// compiler copy them with no block in between.
#[inline(always)]
fn write_run<W: Writer, T: ZeroCopy, const N: usize>(writer: &mut W, values: &[T]) -> usize
    requires within { N ≤ length values.now }
    requires room { N * T.size ≤ (W.state writer.old).ready }
    requires small { T.size ≤ 16 }
    requires block { N * T.size ≤ 256 }
    ensures count { result ≡ N }
    ensures took { Took (flat_map T.form (take N values.now)) (W.state writer.old) (W.state writer.new) }
    ensures ready { (W.state writer.old).ready ≤ (W.state writer.new).ready + N * T.size }
    ensures is_valid { All T.is_valid (take N values.now) }
{
    let mut bytes = [0u8; 256];
    let forms = &mut bytes[..N * size_of_form::<T>()];
    put_forms(&values[..N], forms);
    writer.write_ready(forms);
    N
}

/// Writes the forms, of at most 16 bytes each, of some of the first values, for which room was made; gives how many.
#[inline(always)]
fn write_first<W: Writer, T: ZeroCopy>(writer: &mut W, values: &[T]) -> usize
    requires some { 0 < length values.now }
    requires room { length values.now * T.size ≤ (W.state writer.old).ready }
    requires small { T.size ≤ 16 }
    ensures count { (0 < result) × (result ≤ length values.now) }
    ensures took { Took (flat_map T.form (take result values.now)) (W.state writer.old) (W.state writer.new) }
    ensures ready { (W.state writer.old).ready ≤ (W.state writer.new).ready + result * T.size }
    ensures is_valid { All T.is_valid (take result values.now) }
{
    if 16 <= values.len() {
        write_run::<W, T, 16>(writer, values)
    } else if 4 <= values.len() {
        write_run::<W, T, 4>(writer, values)
    } else {
        write_run::<W, T, 1>(writer, values)
    }
}

/// Writes the forms, of at most 16 bytes each, for which room was made: some values at a time.
fn write_few<W: Writer, T: ZeroCopy>(writer: &mut W, values: &[T])
    requires room { length values.now * T.size ≤ (W.state writer.old).ready }
    requires small { T.size ≤ 16 }
    ensures took { Took (flat_map T.form values.now) (W.state writer.old) (W.state writer.new) }
    ensures is_valid { All T.is_valid values.now }
{
    let mut rest = values;
    while !rest.is_empty() {
        let n = write_first(writer, rest);
        let (_written, more) = rest.split_at(n);
        rest = more;
    }
}

/// Writes the forms of the values, one after another, all or nothing. Where the room is less it is
/// `WriteSizeLimit` of the size of all in bytes, or of `usize::MAX` where the size is more.
pub fn write_forms<W: Writer, T: ZeroCopy>(writer: &mut W, values: &[T]) -> WriteResult<()>
    ensures ok { OnOk result (Added (flat_map T.form values.now) (W.state writer.old) (W.state writer.new)) }
    ensures is_valid { OnOk result (All T.is_valid values.now) }
    ensures err { length values.now * T.size ≤ byte_limit → IfErr result (BytesWriteRefused (length values.now * T.size) (W.state writer.old) (W.state writer.new)) }
    ensures vast { byte_limit < length values.now * T.size → (result ≡ Err (WriteError.WriteSizeLimit byte_limit)) × IsUnmoved (W.state writer.old) (W.state writer.new)
        × IsSoundWriter (W.state writer.old) (W.state writer.new) }
{
    let Some(total) = total_size::<T>(values.len()) else {
        // No effect at run time: the proof reads what it holds from this use of it.
        let _ = &*writer;
        return Err(WriteError::WriteSizeLimit(usize::MAX));
    };
    writer.make_room(total)?;
    write_ready_forms(writer, values, total);
    Ok(())
}

/// Writes the forms, of so many bytes in all, for which room was made.
fn write_ready_forms<W: Writer, T: ZeroCopy>(writer: &mut W, values: &[T], total: usize)
    requires room { length values.now * T.size ≤ (W.state writer.old).ready }
    requires total { total ≡ length values.now * T.size }
    ensures took { Took (flat_map T.form values.now) (W.state writer.old) (W.state writer.new) }
    ensures is_valid { All T.is_valid values.now }
{
    match T::form_size() {
        Some(size) if size <= 16 && total <= 128 => write_few(writer, values),
        Some(size) if size <= 16 => write_blocks(writer, values),
        _ => write_each(writer, values),
    }
}

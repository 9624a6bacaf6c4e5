//! Writing in parts and in windows, through any writer.
ghost use Rattle.std.specs.Prelude.{◌≡◌, ℕ, ◌+◌, ◌-◌, ◌^◌, ◌<◌, ◌≤◌, ◌⊎◌, ◌/◌, List, length, take, drop, ◌++◌, OnOk, IfErr};
ghost use Rattle.wincode_io.specs.Writers.{Took, Added, IsUnmoved, BytesWriteRefused, byte_limit};
ghost use Rattle.wincode_io.specs.CursorWriters.{cursor_put};
ghost use Rattle.wincode_io.specs.Places.{placed};
ghost use Rattle.testkit_io.specs.WriterUses.{BothWriteRefused, IsOverrun, IsUngrown};

use wincode_io::{Cursor, SliceWriter, TrustedSliceWriter, WriteResult, WriteWindow, Writer};

/// Writes two parts, each by itself. Where the second is refused, the first stays written.
pub fn write_both<W: Writer>(writer: &mut W, first: &[u8], second: &[u8]) -> WriteResult<()>
    ensures ok { OnOk result (Added (first.now ++ second.now) (W.state writer.old) (W.state writer.new)) }
    ensures err { IfErr result (BothWriteRefused first.now second.now (W.state writer.old) (W.state writer.new)) }
{
    writer.write(first)?;
    writer.write(second)
}

/// Writes the bytes through a window of `n`. What the window doesn't take isn't skipped.
pub fn write_in_window<W: Writer>(writer: &mut W, n: usize, src: &[u8]) -> WriteResult<()>
    ensures ok { OnOk result ((length src.now ≤ n) × (n ≤ W.room (W.state writer.old).content) × Took src.now (W.state writer.old) (W.state writer.new)) }
    ensures err { IfErr result (λ e. BytesWriteRefused n (W.state writer.old) (W.state writer.new) e
        ⊎ (IsUnmoved (W.state writer.old) (W.state writer.new) × IsOverrun (length src.now) n e)) }
{
    writer.make_room(n)?;
    let mut window = WriteWindow::new(writer, n);
    window.write(src)?;
    window.finish()
}

/// In a window of the parts' lengths and `spare` bytes more, writes `outer`, then `inner` through a
/// window of its own, then `after`; the spare bytes aren't skipped. All is written or nothing: a refusal
/// is that of the whole window.
pub fn write_within<W: Writer>(
    writer: &mut W,
    outer: &[u8],
    inner: &[u8],
    after: &[u8],
    spare: usize,
) -> WriteResult<()>
    requires { length outer.now + length inner.now + length after.now + spare < 2 ^ 64 }
    ensures room { let n = length outer.now + length inner.now + length after.now + spare in OnOk result (n ≤ W.room (W.state writer.old).content) }
    ensures ok { OnOk result (Took ((outer.now ++ inner.now) ++ after.now) (W.state writer.old) (W.state writer.new)) }
    ensures err { let n = length outer.now + length inner.now + length after.now + spare in IfErr result (BytesWriteRefused n (W.state writer.old) (W.state writer.new)) }
{
    let n = outer.len() + inner.len() + after.len() + spare;
    writer.make_room(n)?;
    let mut window = WriteWindow::new(writer, n);
    window.write(outer)?;
    write_in_window(&mut window, inner.len(), inner)?;
    window.write(after)?;
    window.finish()
}

/// Writes half of the bytes, half as many through a window of the rest, and what then is left through a
/// window in it. Where the window is refused, the first half stays written.
pub fn write_in_parts<W: Writer>(writer: &mut W, bytes: &[u8]) -> WriteResult<()>
    ensures ok { OnOk result (Added bytes.now (W.state writer.old) (W.state writer.new)) }
    ensures err { let half = length bytes.now / 2 in IfErr result (BothWriteRefused (take half bytes.now) (drop half bytes.now) (W.state writer.old) (W.state writer.new)) }
{
    let half = bytes.len() / 2;
    let first = &bytes[..half];
    let rest = &bytes[half..];
    let second = &rest[..half / 2];
    let third = &rest[half / 2..];
    writer.write(first)?;
    write_within(writer, second, third, &[], 0)
}

/// Writes over the front of the slice.
#[tactic(auto, using(crate::proofs::WriterSteps::slice_whole))]
pub fn overwrite_front(bytes: &mut [u8], src: &[u8]) -> WriteResult<()>
    ensures ok { OnOk result ((length src.now ≤ length bytes.old) × (bytes.new ≡ src.now ++ drop (length src.now) bytes.old)) }
    ensures err { IfErr result (λ e. (bytes.new ≡ bytes.old) × IsOverrun (length src.now) (length bytes.old) e) }
{
    let mut writer = SliceWriter::new(bytes);
    writer.write(src)
}

/// Writes over the slice at a position.
pub fn overwrite_at(bytes: &mut [u8], position: usize, src: &[u8]) -> WriteResult<()>
    ensures ok { OnOk result ((length src.now ≤ length bytes.old - position) × (bytes.new ≡ (cursor_put (placed bytes.old position) src.now).inner)) }
    ensures err { IfErr result (λ e. (bytes.new ≡ bytes.old) × IsOverrun (length src.now) (length bytes.old - position) e) }
{
    let mut cursor = Cursor::new_at(bytes, position);
    cursor.write(src)
}

/// Writes over the vector at a position, through a window, and grows it.
pub fn grow_at(bytes: &mut Vec<u8>, position: usize, src: &[u8]) -> WriteResult<()>
    ensures ok { OnOk result ((length src.now ≤ byte_limit - position) × (bytes.new.items ≡ (cursor_put (placed bytes.old.items position) src.now).inner)) }
    ensures err { IfErr result (λ e. (bytes.new.items ≡ bytes.old.items) × IsUngrown position (length src.now) e) }
{
    let mut cursor = Cursor::new_at(bytes, position);
    write_within(&mut cursor, &[], src, &[], 0)
}

/// Writes over the slice from the place on, and moves the place behind what was written.
pub fn overwrite_on(
    bytes: &mut [u8],
    at: &mut usize,
    first: &[u8],
    second: &[u8],
) -> WriteResult<()>
    requires { length first.now + length second.now ≤ length bytes.old - at.old }
    ensures ok { OnOk result ((bytes.new ≡ (cursor_put (placed bytes.old at.old) (first.now ++ second.now)).inner) × (at.new ≡ at.old + (length first.now + length second.now))) }
    ensures err { IfErr result (λ _. ⊥) }
{
    let mut window = TrustedSliceWriter::new(bytes, at, first.len() + second.len());
    write_both(&mut window, first, second)
}

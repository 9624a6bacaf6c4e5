//! A short value of one size is put together, and then written at once.
ghost use Rattle.std.specs.Prelude.{◌≡◌, ◌*◌, ◌<◌, ◌≤◌, true, false, IfOk, IfErr, IfSome};
ghost use Rattle.wincode_base.specs.InWindow.{windowed_write};
ghost use Rattle.wincode_base.specs.Lists.{item_write};
ghost use Rattle.wincode_base.specs.Outcomes.{Wrote, WriteRefused, Stopped, WriteOutcome};
ghost use Rattle.wincode_base.specs.declared.meta.TypeMeta.TheVariants.{Dynamic};

use crate::schema::{LONGEST, SchemaWrite};
use wincode_base::error::WriteResult;
use wincode_base::meta::TypeMeta;
use wincode_io::Writer;

/// Writes the value by one call of the writer, where its schema puts it together; or answers `false`, and
/// has written nothing.
#[inline(always)]
pub(crate) fn write_encoded<T: SchemaWrite, W: Writer>(
    writer: &mut W,
    src: &T::Src,
) -> WriteResult<bool>
    ensures done { IfOk result (λ b. b ≡ true → Wrote T.writing (W.state writer.old) (W.state writer.new) (T.model src.now) × T.is_valid src.now) }
    ensures left { IfOk result (λ b. b ≡ false → W.state writer.new ≡ W.state writer.old) }
    ensures refused { IfErr result (WriteRefused T.writing (W.state writer.old) (W.state writer.new) (T.model src.now)) }
    ensures windowed { IfErr result (Stopped (windowed_write T.writing) (W.state writer.old) (W.state writer.new) (T.model src.now)) }
    ensures item { IfErr result (Stopped (item_write T.writing) (W.state writer.old) (W.state writer.new) (T.model src.now)) }
{
    let mut block = [0; LONGEST];
    if let TypeMeta::Static { size, .. } = T::type_meta() {
        if size <= LONGEST {
            let bytes = &mut block[..size];
            if T::encode(src, bytes) {
                writer.write(bytes)?;
                return Ok(true);
            }
        }
    }
    // No effect at run time: the proof reads what it holds from this use of it.
    let _ = &*writer;
    Ok(false)
}

/// Writes a value among others.
#[inline(always)]
pub(crate) fn write_item<T: SchemaWrite, W: Writer>(writer: &mut W, src: &T::Src) -> WriteResult<()>
    ensures { WriteOutcome (item_write T.writing) (W.state writer.old) (W.state writer.new) (T.model src.now) (T.is_valid src.now) result }
{
    if write_encoded::<T, W>(writer, src)? {
        return Ok(());
    }
    T::write(writer, src)
}

/// The size, in bytes, of every encoding, where it is short enough for an encoding to be put together before it is
/// written.
#[inline(always)]
pub(crate) fn short_size<T: SchemaWrite>() -> Option<usize>
    ensures { IfSome result (λ n. (n ≤ 64) × (T.writing.meta ≡ Dynamic → ⊥)) }
{
    match T::type_meta() {
        TypeMeta::Static { size, .. } if size <= LONGEST => Some(size),
        _ => None,
    }
}

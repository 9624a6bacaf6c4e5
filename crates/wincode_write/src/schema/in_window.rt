//! What has one size goes through one window of it.
ghost use Rattle.wincode_base.specs.InWindow.{windowed_write};
ghost use Rattle.wincode_base.specs.Outcomes.{WriteOutcome};

use crate::schema::SchemaWrite;
use crate::schema::encoded::write_encoded;
use wincode_base::error::WriteResult;
use wincode_base::meta::TypeMeta;
use wincode_io::{WriteWindow, Writer};

/// Writes a value of `T`, through one window where `T` has one size.
#[inline]
fn write_windowed<T: SchemaWrite, W: Writer>(writer: &mut W, src: &T::Src) -> WriteResult<()>
    ensures { WriteOutcome (windowed_write T.writing) (W.state writer.old) (W.state writer.new) (T.model src.now) (T.is_valid src.now) result }
{
    match T::type_meta() {
        TypeMeta::Static { size, .. } => {
            writer.make_room(size)?;
            let mut window = WriteWindow::new(writer, size);
            T::write(&mut window, src)?;
            window.finish()?;
            Ok(())
        }
        TypeMeta::Dynamic => T::write(writer, src),
    }
}

/// As `write_windowed`. A short value of one size is put together first.
#[inline]
pub(crate) fn write_in_window<T: SchemaWrite, W: Writer>(
    writer: &mut W,
    src: &T::Src,
) -> WriteResult<()>
    ensures { WriteOutcome (windowed_write T.writing) (W.state writer.old) (W.state writer.new) (T.model src.now) (T.is_valid src.now) result }
{
    if write_encoded::<T, W>(writer, src)? {
        return Ok(());
    }
    write_windowed::<T, W>(writer, src)
}

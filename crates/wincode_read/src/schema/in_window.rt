//! What has one size is read through one window of it.
ghost use Rattle.wincode_base.specs.InWindow.{windowed_read};
ghost use Rattle.wincode_base.specs.Outcomes.{ReadOutcome, GetOutcome};

use crate::schema::{SchemaGet, SchemaRead};
use std::alloc::Global;
use wincode_base::error::ReadResult;
use wincode_base::meta::TypeMeta;
use wincode_io::{Lending, ReadWindow, Reader};

/// Reads a value of `T`, through one window where `T` has one size.
#[inline]
pub(crate) fn get_in_window<L: Lending, T: SchemaRead<L>, R: Reader<L>>(
    alloc: Global,
    reader: &mut R,
) -> ReadResult<T::Dst>
    ensures { GetOutcome (windowed_read T.reading) T.model (R.state reader.old) (R.state reader.new) result }
{
    match T::type_meta() {
        TypeMeta::Static { size, .. } => {
            let mut window = reader.as_trusted_for(size)?;
            T::get::<ReadWindow<L>>(alloc, &mut window)
        }
        TypeMeta::Dynamic => T::get(alloc, reader),
    }
}

/// As `get_in_window`, into a destination.
#[inline]
pub(crate) fn read_in_window<L: Lending, T: SchemaRead<L>, R: Reader<L>>(
    alloc: Global,
    reader: &mut R,
    dst: &mut Option<T::Dst>,
) -> ReadResult<()>
    ensures { ReadOutcome (windowed_read T.reading) T.model (R.state reader.old) (R.state reader.new) dst.old dst.new result }
{
    *dst = Some(get_in_window::<L, T, R>(alloc, reader)?);
    Ok(())
}

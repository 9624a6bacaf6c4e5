//! Schemas of an end of a range: a tag, and then its value, if it has one.
ghost use Rattle.std.specs.Prelude.{IfOk, IfErr};
ghost use Rattle.std.specs.Range.Bound.{bound_map};
ghost use Rattle.std.specs.declared.ops.Bound.{Bound};
ghost use Rattle.wincode_base.specs.BoundLaws.{bound_write_laws};
ghost use Rattle.wincode_base.specs.Bounds.{bound_write, IfBound};
ghost use Rattle.wincode_base.specs.Outcomes.{IsSized, SizeRefused, WriteOutcome};

use crate::schema::SchemaWrite;
use crate::tag::write_tag;
use std::ops::Bound;
use wincode_base::error::WriteResult;
use wincode_base::meta::TypeMeta;
use wincode_base::sizes::checked_sum;
use wincode_io::Writer;

/// The size of a tag and then the value, if there is one.
fn size_of_bound<T: SchemaWrite>(src: &Bound<T::Src>) -> WriteResult<usize>
    ensures ok { IfOk result (IsSized (bound_write T.writing) (bound_map T.model src.now)) }
    ensures err { IfErr result (SizeRefused (bound_write T.writing) (bound_map T.model src.now)) }
{
    match src {
        Bound::Unbounded => Ok(4),
        Bound::Included(value) => checked_sum(4, T::size_of(value)?),
        Bound::Excluded(value) => checked_sum(4, T::size_of(value)?),
    }
}

/// Writes a tag, 0 for `Unbounded`, 1 for `Included` and 2 for `Excluded`, and then the value, if there is one.
fn write_bound<T: SchemaWrite, W: Writer>(writer: &mut W, src: &Bound<T::Src>) -> WriteResult<()>
    ensures { WriteOutcome (bound_write T.writing) (W.state writer.old) (W.state writer.new) (bound_map T.model src.now) (IfBound T.is_valid src.now) result }
{
    match src {
        Bound::Unbounded => write_tag::<u32, W>(writer, 0),
        Bound::Included(value) => {
            write_tag::<u32, W>(writer, 1)?;
            T::write::<W>(writer, value)
        }
        Bound::Excluded(value) => {
            write_tag::<u32, W>(writer, 2)?;
            T::write::<W>(writer, value)
        }
    }
}

/// An end of a range is a number of four bytes, 0 for `Unbounded`, 1 for `Included` and 2 for `Excluded`, and then the
/// value, if there is one.
impl<T: SchemaWrite> SchemaWrite for Bound<T> {
    type Src = Bound<T::Src>;

    ghost Value = { Bound T.Value };

    ghost model = { bound_map T.model };

    ghost is_valid = { IfBound T.is_valid };

    ghost writing = { bound_write T.writing };

    fn type_meta() -> TypeMeta {
        TypeMeta::Dynamic
    }

    fn size_of(src: &Bound<T::Src>) -> WriteResult<usize> {
        size_of_bound::<T>(src)
    }

    fn write<W: Writer>(writer: &mut W, src: &Bound<T::Src>) -> WriteResult<()> {
        write_bound::<T, W>(writer, src)
    }

    #[inline(always)]
    fn encode_front(src: &Self::Src, dst: &mut [u8]) -> Option<usize> {
        let _ = src;
        let _len = dst.len();
        None
    }

    #[inline(always)]
    fn write_at_once<W: Writer>(writer: &mut W, items: &[Self::Src]) -> Option<WriteResult<()>> {
        let _ = &*writer;
        let _items = items.len();
        None
    }

    #[inline(always)]
    fn known_size() -> Option<usize> {
        None
    }

    ghost write_laws = { bound_write_laws T.is_valid T.model T.writing T.write_laws };
}

//! Schemas of an end of a range: a tag, and then its value, if it has one.
ghost use Rattle.std.specs.Range.Bound.{bound_map};
ghost use Rattle.std.specs.declared.ops.Bound.{Bound};
ghost use Rattle.wincode_base.specs.BoundLaws.{bound_read_laws};
ghost use Rattle.wincode_base.specs.Bounds.{bound_read, IfBound};
ghost use Rattle.wincode_base.specs.Outcomes.{GetOutcome};

use crate::schema::{SchemaGet, SchemaRead};
use std::alloc::Global;
use std::ops::Bound;
use wincode_base::error::{ReadResult, invalid_tag_encoding};
use wincode_base::meta::TypeMeta;
use wincode_base::tag::read_tag;
use wincode_io::{Lending, Reader};

/// A tag, and then the value of the end that it names.
fn get_bound<L: Lending, T: SchemaRead<L>, R: Reader<L>>(
    alloc: Global,
    reader: &mut R,
) -> ReadResult<Bound<T::Dst>>
    ensures { GetOutcome (bound_read T.reading) (bound_map T.model) (R.state reader.old) (R.state reader.new) result }
{
    let tag = read_tag::<u32, L, R>(reader)?;
    match tag {
        0 => Ok(Bound::Unbounded),
        1 => {
            let value = T::get(alloc, reader)?;
            Ok(Bound::Included(value))
        }
        2 => {
            let value = T::get(alloc, reader)?;
            Ok(Bound::Excluded(value))
        }
        _ => Err(invalid_tag_encoding(tag)),
    }
}

impl<L: Lending, T: SchemaRead<L>> SchemaRead<L> for Bound<T> {
    type Dst = Bound<T::Dst>;

    ghost Value = { Bound T.Value };

    ghost model = { bound_map T.model };

    ghost is_valid = { IfBound T.is_valid };

    ghost reading = { bound_read T.reading };

    fn type_meta() -> TypeMeta {
        TypeMeta::Dynamic
    }

    fn prealloc_size() -> usize {
        T::prealloc_size()
    }

    /// A number past 2 is consumed, and is `InvalidTagEncoding`; fewer than four bytes stay. A refused value leaves the
    /// reader behind the number, at the least.
    fn read<R: Reader<L>>(
        alloc: Global,
        reader: &mut R,
        dst: &mut Option<Bound<T::Dst>>,
    ) -> ReadResult<()> {
        *dst = Some(get_bound::<L, T, R>(alloc, reader)?);
        Ok(())
    }

    #[inline(always)]
    fn read_at_once<R: Reader<L>>(
        alloc: Global,
        reader: &mut R,
        n: usize,
        into: &mut Vec<Self::Dst>,
    ) -> Option<ReadResult<()>> {
        let _ = (alloc, n);
        let _ = &*reader;
        let _ = &*into;
        None
    }

    #[inline(always)]
    fn blank() -> Option<Self::Dst> {
        None
    }

    #[inline(always)]
    fn decode(bytes: &[u8], place: &mut Self::Dst) -> bool {
        let _ = bytes.len();
        let _ = &*place;
        false
    }

    ghost read_laws = { bound_read_laws T.is_valid T.reading T.read_laws };
}

//! Items that are lent or owned are read owned.
ghost use Rattle.std.proofs.Common.{lit≤};
ghost use Rattle.std.specs.Cow.{cow_slice_items};
ghost use Rattle.std.specs.Prelude.{◌≡◌, List, map};
ghost use Rattle.wincode_base.specs.LengthLaws.{bincode_laws};
ghost use Rattle.wincode_base.specs.Lengths.{bincode, preallocation_limit};
ghost use Rattle.wincode_base.specs.ListLaws.{list_read_laws};
ghost use Rattle.wincode_base.specs.Lists.{list_read};
ghost use Rattle.wincode_base.specs.Outcomes.{ReadOutcome};
ghost use Rattle.wincode_io.specs.Joins.{Each};

use crate::schema::{SchemaGet, SchemaRead};
use std::alloc::Global;
use std::borrow::CowSlice;
use wincode_base::error::ReadResult;
use wincode_base::meta::TypeMeta;
use wincode_io::{Lending, Reader};

impl<'s, L: Lending, T: SchemaRead<L>> SchemaRead<L> for CowSlice<'s, T>
where
    T: 's,
    T::Dst: 's,
{
    type Dst = CowSlice<'s, T::Dst>;

    ghost Value = { List T.Value };

    ghost model = { λ c. map T.model (cow_slice_items c) };

    ghost is_valid = { Each T.is_valid };

    ghost reading = { list_read (bincode preallocation_limit) 24 T.reading };

    fn type_meta() -> TypeMeta
        ensures { result ≡ (list_read (bincode preallocation_limit) 24 T.reading).meta }
    {
        TypeMeta::Dynamic
    }

    fn prealloc_size() -> usize
        ensures { result ≡ 24 }
    {
        24
    }

    fn read<R: Reader<L>>(
        alloc: Global,
        reader: &mut R,
        dst: &mut Option<CowSlice<'s, T::Dst>>,
    ) -> ReadResult<()>
        ensures { ReadOutcome (list_read (bincode preallocation_limit) 24 T.reading) (λ c. map T.model (cow_slice_items c)) (R.state reader.old) (R.state reader.new) dst.old dst.new result }
    {
        let items = <Vec<T> as SchemaGet<L>>::get(alloc, reader)?;
        *dst = Some(CowSlice::Owned(items));
        Ok(())
    }

    ghost read_laws = { list_read_laws (bincode preallocation_limit) (bincode_laws preallocation_limit) 24 (lit≤ tt) T.is_valid T.reading T.read_laws };
}

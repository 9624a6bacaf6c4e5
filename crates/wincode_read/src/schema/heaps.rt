//! The schema of heaps, behind a length of eight bytes.
//!
//! A heap is read as the list of its items, in any order, and what `lists` says of windows, refusals and places holds
//! here. An insertion that gets no memory is `OutOfMemory`.
ghost use Rattle.std.specs.BinaryHeap.{heap_items};
ghost use Rattle.std.specs.List.Sorted.{IsPermutation};
ghost use Rattle.std.specs.Prelude.{ℕ, Bool};
ghost use Rattle.wincode_collect.specs.Seen.{heap_sees, Made};
ghost use Rattle.wincode_base.specs.Gathered.{gathered_read};
ghost use Rattle.wincode_base.specs.GatheredLaws.{bag_read_laws};
ghost use Rattle.wincode_base.specs.ItemSizes.{item_size};
ghost use Rattle.wincode_base.specs.LengthLaws.{bincode_laws};
ghost use Rattle.wincode_base.specs.Lengths.{bincode, preallocation_limit};

use crate::schema::SchemaRead;
use crate::schema::from_items::get_list;
use std::alloc::Global;
use std::collections::BinaryHeap;
use wincode_base::error::ReadResult;
use wincode_base::len::{BincodeLen, PREALLOCATION_LIMIT};
use wincode_base::meta::TypeMeta;
use wincode_io::{Lending, Reader};

/// A `BinaryHeap` is some list of its items, seen as the bag of them.
impl<L: Lending, T: SchemaRead<L> + Ord> SchemaRead<L> for BinaryHeap<T>
where
    T::Dst: Ord,
{
    type Dst = BinaryHeap<T::Dst>;

    ghost Value = { (T.Value → Bool) → ℕ };

    ghost model = { λ h. heap_sees T.model (heap_items h) };

    ghost is_valid = { λ v. Unit {0} };

    ghost reading = { gathered_read T.model (Made IsPermutation (heap_sees T.model)) (bincode preallocation_limit) (item_size T.reading.meta) T.reading };

    fn type_meta() -> TypeMeta {
        TypeMeta::Dynamic
    }

    fn prealloc_size() -> usize {
        24
    }

    fn read<R: Reader<L>>(
        alloc: Global,
        reader: &mut R,
        dst: &mut Option<BinaryHeap<T::Dst>>,
    ) -> ReadResult<()> {
        *dst = Some(get_list::<BinaryHeap<T::Dst>, BincodeLen<PREALLOCATION_LIMIT>, L, T, R>(
            alloc, reader,
        )?);
        Ok(())
    }

    #[inline(always)]
    fn read_at_once<R: Reader<L>>(
        alloc: Global,
        reader: &mut R,
        n: usize,
        into: &mut Vec<Self::Dst>,
    ) -> Option<ReadResult<()>> {
        let _ = (alloc, n);
        let _ = &*reader;
        let _ = &*into;
        None
    }

    #[inline(always)]
    fn blank() -> Option<Self::Dst> {
        None
    }

    #[inline(always)]
    fn decode(bytes: &[u8], place: &mut Self::Dst) -> bool {
        let _ = bytes.len();
        let _ = &*place;
        false
    }

    ghost read_laws = { bag_read_laws (bincode preallocation_limit) (bincode_laws preallocation_limit) (item_size T.reading.meta) T.model T.read_laws };
}

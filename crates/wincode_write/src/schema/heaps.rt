//! The schema of heaps, behind a length of eight bytes.
//!
//! A heap is written as the list of its items, in the order in which it keeps them, and what `lists` says of windows
//! and refusals holds here.
ghost use Rattle.std.specs.BinaryHeap.{heap_items};
ghost use Rattle.std.specs.Prelude.{List, map};
ghost use Rattle.wincode_io.specs.Joins.{Each};
ghost use Rattle.wincode_base.specs.Gathered.{scattered_write};
ghost use Rattle.wincode_base.specs.Lengths.{bincode, preallocation_limit};
ghost use Rattle.wincode_base.specs.ScatteredLaws.{scattered_write_laws};

use crate::schema::SchemaWrite;
use crate::schema::to_items::{size_of_list, write_list};
use std::collections::BinaryHeap;
use wincode_base::error::WriteResult;
use wincode_base::len::{BincodeLen, PREALLOCATION_LIMIT};
use wincode_base::meta::TypeMeta;
use wincode_base::sizes::ItemSize;
use wincode_io::Writer;

/// A `BinaryHeap` is some list of its items, seen as the bag of them.
impl<T: SchemaWrite + Ord> SchemaWrite for BinaryHeap<T>
where
    T::Src: Ord,
{
    type Src = BinaryHeap<T::Src>;

    ghost Value = { List T.Value };

    ghost model = { λ h. map T.model (heap_items h) };

    ghost is_valid = { λ h. Each T.is_valid (heap_items h) };

    ghost writing = { scattered_write (bincode preallocation_limit) T.writing };

    fn type_meta() -> TypeMeta {
        TypeMeta::Dynamic
    }

    fn size_of(src: &BinaryHeap<T::Src>) -> WriteResult<usize> {
        size_of_list::<BincodeLen<PREALLOCATION_LIMIT>, T, BinaryHeap<T::Src>, 24>(src)
    }

    fn write<W: Writer>(writer: &mut W, src: &BinaryHeap<T::Src>) -> WriteResult<()> {
        let size = ItemSize::of(T::type_meta());
        write_list::<BincodeLen<PREALLOCATION_LIMIT>, T, BinaryHeap<T::Src>, W, 24>(
            writer, src, size,
        )
    }

    #[inline(always)]
    fn write_at_once<W: Writer>(writer: &mut W, items: &[Self::Src]) -> Option<WriteResult<()>> {
        let _ = &*writer;
        let _items = items.len();
        None
    }

    #[inline(always)]
    fn known_size() -> Option<usize> {
        None
    }

    #[inline(always)]
    fn encode_front(src: &Self::Src, dst: &mut [u8]) -> Option<usize> {
        let _ = src;
        let _len = dst.len();
        None
    }

    ghost write_laws = { scattered_write_laws (bincode preallocation_limit) heap_items T.write_laws };
}

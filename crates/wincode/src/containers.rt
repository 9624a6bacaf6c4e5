//! Schemas of lists behind a length by a scheme of choice, of options and results behind a tag by one, and
//! of items by themselves.
//!
//! What `schema::lists` says of its lists holds here, with the length's encoding, its limit and its refusals
//! those of the scheme. All arguments are written.
ghost use Rattle.std.specs.Prelude.{◌≡◌, ℕ, Bool, List, map};
ghost use Rattle.std.specs.Arc.{arc_slice_items};
ghost use Rattle.std.specs.BinaryHeap.{heap_items};
ghost use Rattle.std.specs.Box.{boxed_slice_items};
ghost use Rattle.std.specs.List.Sorted.{IsPermutation};
ghost use Rattle.std.specs.Rc.{rc_slice_items};
ghost use Rattle.std.proofs.Common.{lit≤};
ghost use Rattle.wincode_collect.specs.Seen.{heap_sees, Made};
ghost use Rattle.wincode_io.specs.Joins.{Each};
ghost use Rattle.wincode_base.specs.BackLaws.{heap_reads_back};
ghost use Rattle.wincode_base.specs.Gathered.{gathered_read, scattered_write};
ghost use Rattle.wincode_base.specs.GatheredLaws.{bag_read_laws};
ghost use Rattle.wincode_base.specs.Lists.{list_read, list_write};
ghost use Rattle.wincode_base.specs.ListLaws.{list_read_laws, list_write_laws, list_reads_back};
ghost use Rattle.wincode_base.specs.ScatteredLaws.{scattered_write_laws};
ghost use Rattle.wincode_base.specs.ItemSizes.{item_size};

mod keys;
mod tagged;

use crate::io::{Lending, Reader, Writer};
use crate::len::SeqLen;
use crate::schema::{RoundTrip, SchemaRead, SchemaWrite};
use std::alloc::Global;
use std::marker::PhantomData;
use std::{boxed, collections, option, rc, sync, vec};
pub use tagged::{Option, Result};
use wincode_base::error::{ReadResult, WriteResult};
use wincode_base::meta::TypeMeta;
pub use wincode_base::parts::Pod;
use wincode_base::sizes::ItemSize;
use wincode_read::Told;
use wincode_read::schema::from_items::get_list;
use wincode_write::schema::runs::encode_list;
use wincode_write::schema::to_items::{size_of_list, write_list};

/// A `Vec` behind such a length.
pub struct Vec<T, Len>(PhantomData<(T, Len)>);

impl<T: SchemaWrite, Len: SeqLen> SchemaWrite for Vec<T, Len> {
    type Src = vec::Vec<T::Src>;

    ghost Value = { List T.Value };

    ghost model = { λ v. map T.model v.items };

    ghost is_valid = { λ v. Each T.is_valid v.items };

    ghost writing = { list_write Len.scheme 24 T.writing };

    fn type_meta() -> TypeMeta {
        TypeMeta::Dynamic
    }

    fn size_of(src: &vec::Vec<T::Src>) -> WriteResult<usize> {
        size_of_list::<Len, T, &[T::Src], 24>(&src.as_slice())
    }

    fn write<W: Writer>(writer: &mut W, src: &vec::Vec<T::Src>) -> WriteResult<()> {
        let size = ItemSize::of(T::type_meta());
        write_list::<Len, T, &[T::Src], W, 24>(writer, &src.as_slice(), size)
    }

    #[inline]
    fn encode_front(src: &vec::Vec<T::Src>, dst: &mut [u8]) -> option::Option<usize> {
        encode_list::<Len, T, 24>(src.as_slice(), dst)
    }

    #[inline(always)]
    fn write_at_once<W: Writer>(
        writer: &mut W,
        items: &[Self::Src],
    ) -> option::Option<WriteResult<()>> {
        let _ = &*writer;
        let _items = items.len();
        None
    }

    #[inline(always)]
    fn known_size() -> option::Option<usize> {
        None
    }

    ghost write_laws = { list_write_laws Len.scheme 24 (λ v. v.items) T.is_valid T.model T.writing T.write_laws };
}

impl<L: Lending, T: SchemaRead<L>, Len: SeqLen> SchemaRead<L> for Vec<T, Len> {
    type Dst = vec::Vec<T::Dst>;

    ghost Value = { List T.Value };

    ghost model = { λ v. map T.model v.items };

    ghost is_valid = { Each T.is_valid };

    ghost reading = { list_read Len.scheme 24 T.reading };

    fn type_meta() -> TypeMeta {
        TypeMeta::Dynamic
    }

    fn prealloc_size() -> usize {
        24
    }

    fn read<R: Reader<L>>(
        alloc: Global,
        reader: &mut R,
        dst: &mut option::Option<vec::Vec<T::Dst>>,
    ) -> ReadResult<()> {
        *dst = Some(get_list::<vec::Vec<T::Dst>, Len, L, T, R>(alloc, reader)?);
        Ok(())
    }

    #[inline(always)]
    fn read_at_once<R: Reader<L>>(
        alloc: Global,
        reader: &mut R,
        n: usize,
        into: &mut vec::Vec<Self::Dst>,
    ) -> option::Option<ReadResult<()>> {
        let _ = (alloc, n);
        let _ = &*reader;
        let _ = &*into;
        None
    }

    #[inline(always)]
    fn blank() -> option::Option<Self::Dst> {
        None
    }

    #[inline(always)]
    fn decode(bytes: &[u8], place: &mut Self::Dst) -> bool {
        let _ = bytes.len();
        let _ = &*place;
        false
    }

    ghost read_laws = { list_read_laws Len.scheme Len.scheme_laws 24 (lit≤ tt) T.is_valid T.reading T.read_laws };
}

impl<L: Lending, T: RoundTrip<L>, Len: SeqLen> RoundTrip<L> for Vec<T, Len>
where
    T::Src: Drop,
{
    ghost reads_back = { list_reads_back Len.scheme Len.scheme_laws 24 (λ v. v.items)
        T.SchemaWrite.is_valid T.SchemaWrite.model T.SchemaWrite.writing T.SchemaRead.model T.SchemaRead.reading
        T.reads_back };
}

/// A `VecDeque` behind such a length, from front to back.
pub struct VecDeque<T, Len>(PhantomData<(T, Len)>);

impl<T: SchemaWrite, Len: SeqLen> SchemaWrite for VecDeque<T, Len> {
    type Src = collections::VecDeque<T::Src>;

    ghost Value = { List T.Value };

    ghost model = { λ q. map T.model q.items };

    ghost is_valid = { λ q. Each T.is_valid q.items };

    ghost writing = { list_write Len.scheme 24 T.writing };

    fn type_meta() -> TypeMeta {
        TypeMeta::Dynamic
    }

    fn size_of(src: &collections::VecDeque<T::Src>) -> WriteResult<usize> {
        size_of_list::<Len, T, collections::VecDeque<T::Src>, 24>(src)
    }

    fn write<W: Writer>(writer: &mut W, src: &collections::VecDeque<T::Src>) -> WriteResult<()> {
        let size = ItemSize::of(T::type_meta());
        write_list::<Len, T, collections::VecDeque<T::Src>, W, 24>(writer, src, size)
    }

    #[inline(always)]
    fn write_at_once<W: Writer>(
        writer: &mut W,
        items: &[Self::Src],
    ) -> option::Option<WriteResult<()>> {
        let _ = &*writer;
        let _items = items.len();
        None
    }

    #[inline(always)]
    fn known_size() -> option::Option<usize> {
        None
    }

    #[inline(always)]
    fn encode_front(src: &Self::Src, dst: &mut [u8]) -> option::Option<usize> {
        let _ = src;
        let _len = dst.len();
        None
    }

    ghost write_laws = { list_write_laws Len.scheme 24 (λ q. q.items) T.is_valid T.model T.writing T.write_laws };
}

impl<L: Lending, T: SchemaRead<L>, Len: SeqLen> SchemaRead<L> for VecDeque<T, Len> {
    type Dst = collections::VecDeque<T::Dst>;

    ghost Value = { List T.Value };

    ghost model = { λ q. map T.model q.items };

    ghost is_valid = { Each T.is_valid };

    ghost reading = { list_read Len.scheme 24 T.reading };

    fn type_meta() -> TypeMeta {
        TypeMeta::Dynamic
    }

    fn prealloc_size() -> usize {
        24
    }

    fn read<R: Reader<L>>(
        alloc: Global,
        reader: &mut R,
        dst: &mut option::Option<collections::VecDeque<T::Dst>>,
    ) -> ReadResult<()> {
        *dst = Some(get_list::<collections::VecDeque<T::Dst>, Len, L, T, R>(alloc, reader)?);
        Ok(())
    }

    #[inline(always)]
    fn read_at_once<R: Reader<L>>(
        alloc: Global,
        reader: &mut R,
        n: usize,
        into: &mut vec::Vec<Self::Dst>,
    ) -> option::Option<ReadResult<()>> {
        let _ = (alloc, n);
        let _ = &*reader;
        let _ = &*into;
        None
    }

    #[inline(always)]
    fn blank() -> option::Option<Self::Dst> {
        None
    }

    #[inline(always)]
    fn decode(bytes: &[u8], place: &mut Self::Dst) -> bool {
        let _ = bytes.len();
        let _ = &*place;
        false
    }

    ghost read_laws = { list_read_laws Len.scheme Len.scheme_laws 24 (lit≤ tt) T.is_valid T.reading T.read_laws };
}

impl<L: Lending, T: RoundTrip<L>, Len: SeqLen> RoundTrip<L> for VecDeque<T, Len>
where
    T::Src: Drop,
{
    ghost reads_back = { list_reads_back Len.scheme Len.scheme_laws 24 (λ q. q.items)
        T.SchemaWrite.is_valid T.SchemaWrite.model T.SchemaWrite.writing T.SchemaRead.model T.SchemaRead.reading
        T.reads_back };
}

/// A boxed slice behind such a length.
pub struct BoxedSlice<T, Len>(PhantomData<(T, Len)>);

impl<T: SchemaWrite, Len: SeqLen> SchemaWrite for BoxedSlice<T, Len> {
    type Src = boxed::BoxedSlice<T::Src>;

    ghost Value = { List T.Value };

    ghost model = { λ b. map T.model (boxed_slice_items b) };

    ghost is_valid = { λ b. Each T.is_valid (boxed_slice_items b) };

    ghost writing = { list_write Len.scheme 16 T.writing };

    fn type_meta() -> TypeMeta {
        TypeMeta::Dynamic
    }

    fn size_of(src: &boxed::BoxedSlice<T::Src>) -> WriteResult<usize> {
        size_of_list::<Len, T, &[T::Src], 16>(&src.as_slice())
    }

    fn write<W: Writer>(writer: &mut W, src: &boxed::BoxedSlice<T::Src>) -> WriteResult<()> {
        let size = ItemSize::of(T::type_meta());
        write_list::<Len, T, &[T::Src], W, 16>(writer, &src.as_slice(), size)
    }

    #[inline]
    fn encode_front(src: &boxed::BoxedSlice<T::Src>, dst: &mut [u8]) -> option::Option<usize> {
        encode_list::<Len, T, 16>(src.as_slice(), dst)
    }

    #[inline(always)]
    fn write_at_once<W: Writer>(
        writer: &mut W,
        items: &[Self::Src],
    ) -> option::Option<WriteResult<()>> {
        let _ = &*writer;
        let _items = items.len();
        None
    }

    #[inline(always)]
    fn known_size() -> option::Option<usize> {
        None
    }

    ghost write_laws = { list_write_laws Len.scheme 16 (λ b. (boxed_slice_items b)) T.is_valid T.model T.writing T.write_laws };
}

impl<L: Lending, T: SchemaRead<L>, Len: SeqLen> SchemaRead<L> for BoxedSlice<T, Len> {
    type Dst = boxed::BoxedSlice<T::Dst>;

    ghost Value = { List T.Value };

    ghost model = { λ b. map T.model (boxed_slice_items b) };

    ghost is_valid = { Each T.is_valid };

    ghost reading = { list_read Len.scheme 16 T.reading };

    fn type_meta() -> TypeMeta {
        TypeMeta::Dynamic
    }

    fn prealloc_size() -> usize {
        16
    }

    fn read<R: Reader<L>>(
        alloc: Global,
        reader: &mut R,
        dst: &mut option::Option<boxed::BoxedSlice<T::Dst>>,
    ) -> ReadResult<()> {
        *dst = Some(get_list::<boxed::BoxedSlice<T::Dst>, Len, L, T, R>(alloc, reader)?);
        Ok(())
    }

    #[inline(always)]
    fn read_at_once<R: Reader<L>>(
        alloc: Global,
        reader: &mut R,
        n: usize,
        into: &mut vec::Vec<Self::Dst>,
    ) -> option::Option<ReadResult<()>> {
        let _ = (alloc, n);
        let _ = &*reader;
        let _ = &*into;
        None
    }

    #[inline(always)]
    fn blank() -> option::Option<Self::Dst> {
        None
    }

    #[inline(always)]
    fn decode(bytes: &[u8], place: &mut Self::Dst) -> bool {
        let _ = bytes.len();
        let _ = &*place;
        false
    }

    ghost read_laws = { list_read_laws Len.scheme Len.scheme_laws 16 (lit≤ tt) T.is_valid T.reading T.read_laws };
}

impl<L: Lending, T: RoundTrip<L>, Len: SeqLen> RoundTrip<L> for BoxedSlice<T, Len>
where
    T::Src: Drop,
{
    ghost reads_back = { list_reads_back Len.scheme Len.scheme_laws 16 (λ b. (boxed_slice_items b))
        T.SchemaWrite.is_valid T.SchemaWrite.model T.SchemaWrite.writing T.SchemaRead.model T.SchemaRead.reading
        T.reads_back };
}

/// A shared slice behind such a length. Reading asks for its memory once more when all items are there.
pub struct RcSlice<T, Len>(PhantomData<(T, Len)>);

impl<T: SchemaWrite, Len: SeqLen> SchemaWrite for RcSlice<T, Len> {
    type Src = rc::RcSlice<T::Src>;

    ghost Value = { List T.Value };

    ghost model = { λ r. map T.model (rc_slice_items r) };

    ghost is_valid = { λ r. Each T.is_valid (rc_slice_items r) };

    ghost writing = { list_write Len.scheme 16 T.writing };

    fn type_meta() -> TypeMeta {
        TypeMeta::Dynamic
    }

    fn size_of(src: &rc::RcSlice<T::Src>) -> WriteResult<usize> {
        size_of_list::<Len, T, &[T::Src], 16>(&src.as_slice())
    }

    fn write<W: Writer>(writer: &mut W, src: &rc::RcSlice<T::Src>) -> WriteResult<()> {
        let size = ItemSize::of(T::type_meta());
        write_list::<Len, T, &[T::Src], W, 16>(writer, &src.as_slice(), size)
    }

    #[inline]
    fn encode_front(src: &rc::RcSlice<T::Src>, dst: &mut [u8]) -> option::Option<usize> {
        encode_list::<Len, T, 16>(src.as_slice(), dst)
    }

    #[inline(always)]
    fn write_at_once<W: Writer>(
        writer: &mut W,
        items: &[Self::Src],
    ) -> option::Option<WriteResult<()>> {
        let _ = &*writer;
        let _items = items.len();
        None
    }

    #[inline(always)]
    fn known_size() -> option::Option<usize> {
        None
    }

    ghost write_laws = { list_write_laws Len.scheme 16 (λ r. (rc_slice_items r)) T.is_valid T.model T.writing T.write_laws };
}

impl<L: Lending, T: SchemaRead<L>, Len: SeqLen> SchemaRead<L> for RcSlice<T, Len> {
    type Dst = rc::RcSlice<T::Dst>;

    ghost Value = { List T.Value };

    ghost model = { λ r. map T.model (rc_slice_items r) };

    ghost is_valid = { Each T.is_valid };

    ghost reading = { list_read Len.scheme 16 T.reading };

    fn type_meta() -> TypeMeta {
        TypeMeta::Dynamic
    }

    fn prealloc_size() -> usize {
        16
    }

    fn read<R: Reader<L>>(
        alloc: Global,
        reader: &mut R,
        dst: &mut option::Option<rc::RcSlice<T::Dst>>,
    ) -> ReadResult<()> {
        *dst = Some(get_list::<rc::RcSlice<T::Dst>, Len, L, T, R>(alloc, reader)?);
        Ok(())
    }

    #[inline(always)]
    fn read_at_once<R: Reader<L>>(
        alloc: Global,
        reader: &mut R,
        n: usize,
        into: &mut vec::Vec<Self::Dst>,
    ) -> option::Option<ReadResult<()>> {
        let _ = (alloc, n);
        let _ = &*reader;
        let _ = &*into;
        None
    }

    #[inline(always)]
    fn blank() -> option::Option<Self::Dst> {
        None
    }

    #[inline(always)]
    fn decode(bytes: &[u8], place: &mut Self::Dst) -> bool {
        let _ = bytes.len();
        let _ = &*place;
        false
    }

    ghost read_laws = { list_read_laws Len.scheme Len.scheme_laws 16 (lit≤ tt) T.is_valid T.reading T.read_laws };
}

impl<L: Lending, T: RoundTrip<L>, Len: SeqLen> RoundTrip<L> for RcSlice<T, Len>
where
    T::Src: Drop,
{
    ghost reads_back = { list_reads_back Len.scheme Len.scheme_laws 16 (λ r. (rc_slice_items r))
        T.SchemaWrite.is_valid T.SchemaWrite.model T.SchemaWrite.writing T.SchemaRead.model T.SchemaRead.reading
        T.reads_back };
}

/// The same, counted so that threads may share it.
pub struct ArcSlice<T, Len>(PhantomData<(T, Len)>);

impl<T: SchemaWrite, Len: SeqLen> SchemaWrite for ArcSlice<T, Len> {
    type Src = sync::ArcSlice<T::Src>;

    ghost Value = { List T.Value };

    ghost model = { λ a. map T.model (arc_slice_items a) };

    ghost is_valid = { λ a. Each T.is_valid (arc_slice_items a) };

    ghost writing = { list_write Len.scheme 16 T.writing };

    fn type_meta() -> TypeMeta {
        TypeMeta::Dynamic
    }

    fn size_of(src: &sync::ArcSlice<T::Src>) -> WriteResult<usize> {
        size_of_list::<Len, T, &[T::Src], 16>(&src.as_slice())
    }

    fn write<W: Writer>(writer: &mut W, src: &sync::ArcSlice<T::Src>) -> WriteResult<()> {
        let size = ItemSize::of(T::type_meta());
        write_list::<Len, T, &[T::Src], W, 16>(writer, &src.as_slice(), size)
    }

    #[inline]
    fn encode_front(src: &sync::ArcSlice<T::Src>, dst: &mut [u8]) -> option::Option<usize> {
        encode_list::<Len, T, 16>(src.as_slice(), dst)
    }

    #[inline(always)]
    fn write_at_once<W: Writer>(
        writer: &mut W,
        items: &[Self::Src],
    ) -> option::Option<WriteResult<()>> {
        let _ = &*writer;
        let _items = items.len();
        None
    }

    #[inline(always)]
    fn known_size() -> option::Option<usize> {
        None
    }

    ghost write_laws = { list_write_laws Len.scheme 16 (λ a. arc_slice_items a) T.is_valid T.model T.writing T.write_laws };
}

impl<L: Lending, T: SchemaRead<L>, Len: SeqLen> SchemaRead<L> for ArcSlice<T, Len> {
    type Dst = sync::ArcSlice<T::Dst>;

    ghost Value = { List T.Value };

    ghost model = { λ a. map T.model (arc_slice_items a) };

    ghost is_valid = { Each T.is_valid };

    ghost reading = { list_read Len.scheme 16 T.reading };

    fn type_meta() -> TypeMeta {
        TypeMeta::Dynamic
    }

    fn prealloc_size() -> usize {
        16
    }

    fn read<R: Reader<L>>(
        alloc: Global,
        reader: &mut R,
        dst: &mut option::Option<sync::ArcSlice<T::Dst>>,
    ) -> ReadResult<()> {
        *dst = Some(get_list::<sync::ArcSlice<T::Dst>, Len, L, T, R>(alloc, reader)?);
        Ok(())
    }

    #[inline(always)]
    fn read_at_once<R: Reader<L>>(
        alloc: Global,
        reader: &mut R,
        n: usize,
        into: &mut vec::Vec<Self::Dst>,
    ) -> option::Option<ReadResult<()>> {
        let _ = (alloc, n);
        let _ = &*reader;
        let _ = &*into;
        None
    }

    #[inline(always)]
    fn blank() -> option::Option<Self::Dst> {
        None
    }

    #[inline(always)]
    fn decode(bytes: &[u8], place: &mut Self::Dst) -> bool {
        let _ = bytes.len();
        let _ = &*place;
        false
    }

    ghost read_laws = { list_read_laws Len.scheme Len.scheme_laws 16 (lit≤ tt) T.is_valid T.reading T.read_laws };
}

impl<L: Lending, T: RoundTrip<L>, Len: SeqLen> RoundTrip<L> for ArcSlice<T, Len>
where
    T::Src: Drop,
{
    ghost reads_back = { list_reads_back Len.scheme Len.scheme_laws 16 (λ a. arc_slice_items a)
        T.SchemaWrite.is_valid T.SchemaWrite.model T.SchemaWrite.writing T.SchemaRead.model T.SchemaRead.reading
        T.reads_back };
}

/// A `BinaryHeap` behind such a length: some list of its items.
pub struct BinaryHeap<T, Len>(PhantomData<(T, Len)>);

impl<T: SchemaWrite, Len: SeqLen> SchemaWrite for BinaryHeap<T, Len>
where
    T::Src: Ord,
{
    type Src = collections::BinaryHeap<T::Src>;

    ghost Value = { List T.Value };

    ghost model = { λ h. map T.model (heap_items h) };

    ghost is_valid = { λ h. Each T.is_valid (heap_items h) };

    ghost writing = { scattered_write Len.scheme T.writing };

    fn type_meta() -> TypeMeta {
        TypeMeta::Dynamic
    }

    fn size_of(src: &collections::BinaryHeap<T::Src>) -> WriteResult<usize> {
        size_of_list::<Len, T, collections::BinaryHeap<T::Src>, 24>(src)
    }

    fn write<W: Writer>(writer: &mut W, src: &collections::BinaryHeap<T::Src>) -> WriteResult<()> {
        let size = ItemSize::of(T::type_meta());
        write_list::<Len, T, collections::BinaryHeap<T::Src>, W, 24>(writer, src, size)
    }

    #[inline(always)]
    fn write_at_once<W: Writer>(
        writer: &mut W,
        items: &[Self::Src],
    ) -> option::Option<WriteResult<()>> {
        let _ = &*writer;
        let _items = items.len();
        None
    }

    #[inline(always)]
    fn known_size() -> option::Option<usize> {
        None
    }

    #[inline(always)]
    fn encode_front(src: &Self::Src, dst: &mut [u8]) -> option::Option<usize> {
        let _ = src;
        let _len = dst.len();
        None
    }

    ghost write_laws = { scattered_write_laws Len.scheme heap_items T.write_laws };
}

impl<L: Lending, T: SchemaRead<L>, Len: SeqLen> SchemaRead<L> for BinaryHeap<T, Len>
where
    T::Dst: Ord,
{
    type Dst = collections::BinaryHeap<T::Dst>;

    ghost Value = { (T.Value → Bool) → ℕ };

    ghost model = { λ h. heap_sees T.model (heap_items h) };

    ghost is_valid = { λ v. Unit {0} };

    ghost reading = { gathered_read T.model (Made IsPermutation (heap_sees T.model)) Len.scheme (item_size T.reading.meta) T.reading };

    fn type_meta() -> TypeMeta {
        TypeMeta::Dynamic
    }

    fn prealloc_size() -> usize {
        24
    }

    fn read<R: Reader<L>>(
        alloc: Global,
        reader: &mut R,
        dst: &mut option::Option<collections::BinaryHeap<T::Dst>>,
    ) -> ReadResult<()> {
        *dst = Some(get_list::<collections::BinaryHeap<T::Dst>, Len, L, T, R>(alloc, reader)?);
        Ok(())
    }

    #[inline(always)]
    fn read_at_once<R: Reader<L>>(
        alloc: Global,
        reader: &mut R,
        n: usize,
        into: &mut vec::Vec<Self::Dst>,
    ) -> option::Option<ReadResult<()>> {
        let _ = (alloc, n);
        let _ = &*reader;
        let _ = &*into;
        None
    }

    #[inline(always)]
    fn blank() -> option::Option<Self::Dst> {
        None
    }

    #[inline(always)]
    fn decode(bytes: &[u8], place: &mut Self::Dst) -> bool {
        let _ = bytes.len();
        let _ = &*place;
        false
    }

    ghost read_laws = { bag_read_laws Len.scheme Len.scheme_laws (item_size T.reading.meta) T.model T.read_laws };
}

impl<L: Lending, T: RoundTrip<L> + Told<L>, Len: SeqLen> RoundTrip<L> for BinaryHeap<T, Len>
where
    T::Src: Ord + Drop,
{
    ghost reads_back = { heap_reads_back (item_size T.SchemaRead.reading.meta) Len.scheme Len.scheme_laws heap_items T.told T.SchemaWrite.is_valid
        T.SchemaWrite.model T.SchemaWrite.writing T.SchemaRead.model T.SchemaRead.reading T.reads_back };
}

/// An item by itself, which is read and written as `T`.
pub struct Elem<T>(PhantomData<T>);

impl<T: SchemaWrite> SchemaWrite for Elem<T> {
    type Src = T::Src;

    ghost Value = { T.Value };

    ghost model = { T.model };

    ghost is_valid = { T.is_valid };

    ghost writing = { T.writing };

    fn type_meta() -> TypeMeta {
        T::type_meta()
    }

    fn size_of(src: &T::Src) -> WriteResult<usize> {
        T::size_of(src)
    }

    fn write<W: Writer>(writer: &mut W, src: &T::Src) -> WriteResult<()> {
        T::write::<W>(writer, src)
    }

    #[inline(always)]
    fn write_at_once<W: Writer>(
        writer: &mut W,
        items: &[T::Src],
    ) -> option::Option<WriteResult<()>> {
        T::write_at_once::<W>(writer, items)
    }

    #[inline(always)]
    fn known_size() -> option::Option<usize> {
        T::known_size()
    }

    #[inline(always)]
    fn encode_front(src: &T::Src, dst: &mut [u8]) -> option::Option<usize> {
        T::encode_front(src, dst)
    }

    ghost write_laws = { T.write_laws };
}

impl<L: Lending, T: SchemaRead<L>> SchemaRead<L> for Elem<T> {
    type Dst = T::Dst;

    ghost Value = { T.Value };

    ghost model = { T.model };

    ghost is_valid = { T.is_valid };

    ghost reading = { T.reading };

    fn type_meta() -> TypeMeta {
        T::type_meta()
    }

    fn prealloc_size() -> usize {
        T::prealloc_size()
    }

    fn read<R: Reader<L>>(
        alloc: Global,
        reader: &mut R,
        dst: &mut option::Option<T::Dst>,
    ) -> ReadResult<()> {
        T::read::<R>(alloc, reader, dst)
    }

    #[inline(always)]
    fn read_at_once<R: Reader<L>>(
        alloc: Global,
        reader: &mut R,
        n: usize,
        into: &mut vec::Vec<T::Dst>,
    ) -> option::Option<ReadResult<()>> {
        T::read_at_once::<R>(alloc, reader, n, into)
    }

    #[inline(always)]
    fn blank() -> option::Option<T::Dst> {
        T::blank()
    }

    #[inline(always)]
    fn decode(bytes: &[u8], place: &mut T::Dst) -> bool {
        T::decode(bytes, place)
    }

    ghost read_laws = { T.read_laws };
}

impl<L: Lending, T: RoundTrip<L>> RoundTrip<L> for Elem<T>
where
    T::Src: Drop,
{
    ghost reads_back = { T.reads_back };
}

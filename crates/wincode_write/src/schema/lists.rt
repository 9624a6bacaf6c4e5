//! Schemas of lists, behind a length of eight bytes.
//!
//! Items of one size are written through one window of the whole: where the room is less, nothing is written.
//! A size past `usize::MAX` is `LengthEncodingOverflow`. Other items are written one after another.
ghost use Rattle.std.specs.Prelude.{List, map};
ghost use Rattle.wincode_io.specs.Joins.{Each};
ghost use Rattle.wincode_base.specs.Lengths.{bincode, preallocation_limit};
ghost use Rattle.wincode_base.specs.ListLaws.{list_write_laws};
ghost use Rattle.wincode_base.specs.Lists.{list_write};
ghost use Rattle.wincode_io.specs.Writers.{byte_limit};

mod cows;

use crate::schema::SchemaWrite;
use crate::schema::runs::encode_list;
use crate::schema::to_items::{size_of_list, write_list};
use std::collections::{LinkedList, VecDeque};
use wincode_base::error::WriteResult;
use wincode_base::len::{BincodeLen, NO_LIMIT, PREALLOCATION_LIMIT};
use wincode_base::meta::TypeMeta;
use wincode_base::sizes::ItemSize;
use wincode_io::Writer;

/// A `Vec` is the list of its items.
impl<T: SchemaWrite> SchemaWrite for Vec<T> {
    type Src = Vec<T::Src>;

    ghost Value = { List T.Value };

    ghost model = { λ v. map T.model v.items };

    ghost is_valid = { λ v. Each T.is_valid v.items };

    ghost writing = { list_write (bincode preallocation_limit) 24 T.writing };

    fn type_meta() -> TypeMeta {
        TypeMeta::Dynamic
    }

    fn size_of(src: &Vec<T::Src>) -> WriteResult<usize> {
        size_of_list::<BincodeLen<PREALLOCATION_LIMIT>, T, &[T::Src], 24>(&src.as_slice())
    }

    fn write<W: Writer>(writer: &mut W, src: &Vec<T::Src>) -> WriteResult<()> {
        let size = ItemSize::of(T::type_meta());
        write_list::<BincodeLen<PREALLOCATION_LIMIT>, T, &[T::Src], W, 24>(
            writer,
            &src.as_slice(),
            size,
        )
    }

    #[inline]
    fn encode_front(src: &Vec<T::Src>, dst: &mut [u8]) -> Option<usize> {
        encode_list::<BincodeLen<PREALLOCATION_LIMIT>, T, 24>(src.as_slice(), dst)
    }

    #[inline(always)]
    fn write_at_once<W: Writer>(writer: &mut W, items: &[Self::Src]) -> Option<WriteResult<()>> {
        let _ = &*writer;
        let _items = items.len();
        None
    }

    #[inline(always)]
    fn known_size() -> Option<usize> {
        None
    }

    ghost write_laws = { list_write_laws (bincode preallocation_limit) 24 (λ v. v.items) T.is_valid T.model T.writing T.write_laws };
}

/// A `VecDeque` is the list of its items, from front to back.
impl<T: SchemaWrite> SchemaWrite for VecDeque<T> {
    type Src = VecDeque<T::Src>;

    ghost Value = { List T.Value };

    ghost model = { λ q. map T.model q.items };

    ghost is_valid = { λ q. Each T.is_valid q.items };

    ghost writing = { list_write (bincode preallocation_limit) 24 T.writing };

    fn type_meta() -> TypeMeta {
        TypeMeta::Dynamic
    }

    fn size_of(src: &VecDeque<T::Src>) -> WriteResult<usize> {
        size_of_list::<BincodeLen<PREALLOCATION_LIMIT>, T, VecDeque<T::Src>, 24>(src)
    }

    fn write<W: Writer>(writer: &mut W, src: &VecDeque<T::Src>) -> WriteResult<()> {
        let size = ItemSize::of(T::type_meta());
        write_list::<BincodeLen<PREALLOCATION_LIMIT>, T, VecDeque<T::Src>, W, 24>(writer, src, size)
    }

    #[inline(always)]
    fn write_at_once<W: Writer>(writer: &mut W, items: &[Self::Src]) -> Option<WriteResult<()>> {
        let _ = &*writer;
        let _items = items.len();
        None
    }

    #[inline(always)]
    fn known_size() -> Option<usize> {
        None
    }

    #[inline(always)]
    fn encode_front(src: &Self::Src, dst: &mut [u8]) -> Option<usize> {
        let _ = src;
        let _len = dst.len();
        None
    }

    ghost write_laws = { list_write_laws (bincode preallocation_limit) 24 (λ q. q.items) T.is_valid T.model T.writing T.write_laws };
}

/// A `LinkedList` is the list of its items, from front to back.
impl<T: SchemaWrite> SchemaWrite for LinkedList<T> {
    type Src = LinkedList<T::Src>;

    ghost Value = { List T.Value };

    ghost model = { λ l. map T.model l };

    ghost is_valid = { λ l. Each T.is_valid l };

    ghost writing = { list_write (bincode preallocation_limit) 24 T.writing };

    fn type_meta() -> TypeMeta {
        TypeMeta::Dynamic
    }

    fn size_of(src: &LinkedList<T::Src>) -> WriteResult<usize> {
        size_of_list::<BincodeLen<PREALLOCATION_LIMIT>, T, LinkedList<T::Src>, 24>(src)
    }

    fn write<W: Writer>(writer: &mut W, src: &LinkedList<T::Src>) -> WriteResult<()> {
        let size = ItemSize::of(T::type_meta());
        write_list::<BincodeLen<PREALLOCATION_LIMIT>, T, LinkedList<T::Src>, W, 24>(
            writer, src, size,
        )
    }

    #[inline(always)]
    fn write_at_once<W: Writer>(writer: &mut W, items: &[Self::Src]) -> Option<WriteResult<()>> {
        let _ = &*writer;
        let _items = items.len();
        None
    }

    #[inline(always)]
    fn known_size() -> Option<usize> {
        None
    }

    #[inline(always)]
    fn encode_front(src: &Self::Src, dst: &mut [u8]) -> Option<usize> {
        let _ = src;
        let _len = dst.len();
        None
    }

    ghost write_laws = { list_write_laws (bincode preallocation_limit) 24 (λ l. l) T.is_valid T.model T.writing T.write_laws };
}

/// A slice is written as the list of its items. It isn't read: its items have no place of their own.
impl<'a, U: 'a, T: SchemaWrite<Src = U>> SchemaWrite for &'a [T] {
    type Src = &'a [U];

    ghost Value = { List T.Value };

    ghost model = { λ s. map T.model s.now };

    ghost is_valid = { λ s. Each T.is_valid s.now };

    ghost writing = { list_write (bincode byte_limit) 16 T.writing };

    fn type_meta() -> TypeMeta {
        TypeMeta::Dynamic
    }

    fn size_of(src: &&'a [U]) -> WriteResult<usize> {
        size_of_list::<BincodeLen<NO_LIMIT>, T, &'a [U], 16>(src)
    }

    fn write<W: Writer>(writer: &mut W, src: &&'a [U]) -> WriteResult<()> {
        let size = ItemSize::of(T::type_meta());
        write_list::<BincodeLen<NO_LIMIT>, T, &'a [U], W, 16>(writer, src, size)
    }

    fn write_at_once<W: Writer>(writer: &mut W, items: &[&'a [U]]) -> Option<WriteResult<()>> {
        let _ = &*writer;
        let _items = items.len();
        None
    }

    #[inline]
    fn encode_front(src: &&'a [U], dst: &mut [u8]) -> Option<usize> {
        encode_list::<BincodeLen<NO_LIMIT>, T, 16>(*src, dst)
    }

    #[inline(always)]
    fn known_size() -> Option<usize> {
        None
    }

    ghost write_laws = { list_write_laws (bincode byte_limit) 16 (λ s. s.now) T.is_valid T.model T.writing T.write_laws };
}

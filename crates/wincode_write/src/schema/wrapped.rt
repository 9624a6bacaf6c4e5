//! Written by `tools/templates`: what is written as the values that it holds: those with another order or another arithmetic, and ranges.
ghost use Rattle.std.specs.Range.{range_inclusive_end, range_inclusive_start};
ghost use Rattle.wincode_base.specs.PairLaws.{write_laws_by};

use crate::schema::SchemaWrite;
use crate::schema::tuples::{encode_front_members_2, size_of_members_2, write_members_2};
use std::cmp::Reverse;
use std::num::{Saturating, Wrapping};
use std::ops::{Range, RangeFrom, RangeInclusive, RangeTo};
use wincode_base::error::WriteResult;
use wincode_base::meta::TypeMeta;
use wincode_io::Writer;

impl<T: SchemaWrite> SchemaWrite for Wrapping<T> {
    type Src = Wrapping<T::Src>;

    ghost Value = { T.Value };

    ghost model = { λ w. T.model w.0 };

    ghost is_valid = { λ w. T.is_valid w.0 };

    ghost writing = { T.writing };

    fn type_meta() -> TypeMeta {
        T::type_meta()
    }

    fn size_of(src: &Self::Src) -> WriteResult<usize> {
        T::size_of(&src.0)
    }

    fn write<W: Writer>(writer: &mut W, src: &Self::Src) -> WriteResult<()> {
        T::write::<W>(writer, &src.0)
    }

    #[inline(always)]
    fn encode_front(src: &Self::Src, dst: &mut [u8]) -> Option<usize> {
        T::encode_front(&src.0, dst)
    }

    #[inline(always)]
    fn write_at_once<W: Writer>(writer: &mut W, items: &[Self::Src]) -> Option<WriteResult<()>> {
        let _ = &*writer;
        let _items = items.len();
        None
    }

    #[inline(always)]
    fn known_size() -> Option<usize> {
        T::known_size()
    }

    ghost write_laws = { write_laws_by (λ w. w.0) T.write_laws };
}

impl<T: SchemaWrite> SchemaWrite for Saturating<T> {
    type Src = Saturating<T::Src>;

    ghost Value = { T.Value };

    ghost model = { λ w. T.model w.0 };

    ghost is_valid = { λ w. T.is_valid w.0 };

    ghost writing = { T.writing };

    fn type_meta() -> TypeMeta {
        T::type_meta()
    }

    fn size_of(src: &Self::Src) -> WriteResult<usize> {
        T::size_of(&src.0)
    }

    fn write<W: Writer>(writer: &mut W, src: &Self::Src) -> WriteResult<()> {
        T::write::<W>(writer, &src.0)
    }

    #[inline(always)]
    fn encode_front(src: &Self::Src, dst: &mut [u8]) -> Option<usize> {
        T::encode_front(&src.0, dst)
    }

    #[inline(always)]
    fn write_at_once<W: Writer>(writer: &mut W, items: &[Self::Src]) -> Option<WriteResult<()>> {
        let _ = &*writer;
        let _items = items.len();
        None
    }

    #[inline(always)]
    fn known_size() -> Option<usize> {
        T::known_size()
    }

    ghost write_laws = { write_laws_by (λ w. w.0) T.write_laws };
}

impl<T: SchemaWrite> SchemaWrite for Reverse<T> {
    type Src = Reverse<T::Src>;

    ghost Value = { T.Value };

    ghost model = { λ w. T.model w.0 };

    ghost is_valid = { λ w. T.is_valid w.0 };

    ghost writing = { T.writing };

    fn type_meta() -> TypeMeta {
        T::type_meta()
    }

    fn size_of(src: &Self::Src) -> WriteResult<usize> {
        T::size_of(&src.0)
    }

    fn write<W: Writer>(writer: &mut W, src: &Self::Src) -> WriteResult<()> {
        T::write::<W>(writer, &src.0)
    }

    #[inline(always)]
    fn encode_front(src: &Self::Src, dst: &mut [u8]) -> Option<usize> {
        T::encode_front(&src.0, dst)
    }

    #[inline(always)]
    fn write_at_once<W: Writer>(writer: &mut W, items: &[Self::Src]) -> Option<WriteResult<()>> {
        let _ = &*writer;
        let _items = items.len();
        None
    }

    #[inline(always)]
    fn known_size() -> Option<usize> {
        T::known_size()
    }

    ghost write_laws = { write_laws_by (λ w. w.0) T.write_laws };
}

impl<T: SchemaWrite> SchemaWrite for RangeFrom<T> {
    type Src = RangeFrom<T::Src>;

    ghost Value = { T.Value };

    ghost model = { λ w. T.model w.start };

    ghost is_valid = { λ w. T.is_valid w.start };

    ghost writing = { T.writing };

    fn type_meta() -> TypeMeta {
        T::type_meta()
    }

    fn size_of(src: &Self::Src) -> WriteResult<usize> {
        T::size_of(&src.start)
    }

    fn write<W: Writer>(writer: &mut W, src: &Self::Src) -> WriteResult<()> {
        T::write::<W>(writer, &src.start)
    }

    #[inline(always)]
    fn encode_front(src: &Self::Src, dst: &mut [u8]) -> Option<usize> {
        T::encode_front(&src.start, dst)
    }

    #[inline(always)]
    fn write_at_once<W: Writer>(writer: &mut W, items: &[Self::Src]) -> Option<WriteResult<()>> {
        let _ = &*writer;
        let _items = items.len();
        None
    }

    #[inline(always)]
    fn known_size() -> Option<usize> {
        T::known_size()
    }

    ghost write_laws = { write_laws_by (λ w. w.start) T.write_laws };
}

impl<T: SchemaWrite> SchemaWrite for RangeTo<T> {
    type Src = RangeTo<T::Src>;

    ghost Value = { T.Value };

    ghost model = { λ w. T.model w.end };

    ghost is_valid = { λ w. T.is_valid w.end };

    ghost writing = { T.writing };

    fn type_meta() -> TypeMeta {
        T::type_meta()
    }

    fn size_of(src: &Self::Src) -> WriteResult<usize> {
        T::size_of(&src.end)
    }

    fn write<W: Writer>(writer: &mut W, src: &Self::Src) -> WriteResult<()> {
        T::write::<W>(writer, &src.end)
    }

    #[inline(always)]
    fn encode_front(src: &Self::Src, dst: &mut [u8]) -> Option<usize> {
        T::encode_front(&src.end, dst)
    }

    #[inline(always)]
    fn write_at_once<W: Writer>(writer: &mut W, items: &[Self::Src]) -> Option<WriteResult<()>> {
        let _ = &*writer;
        let _items = items.len();
        None
    }

    #[inline(always)]
    fn known_size() -> Option<usize> {
        T::known_size()
    }

    ghost write_laws = { write_laws_by (λ w. w.end) T.write_laws };
}

impl<T: SchemaWrite> SchemaWrite for Range<T> {
    type Src = Range<T::Src>;

    ghost Value = { T.Value × T.Value };

    ghost model = { λ r. ⟦<(T, T) as SchemaWrite>⟧.model (r.start, r.end) };

    ghost is_valid = { λ r. ⟦<(T, T) as SchemaWrite>⟧.is_valid (r.start, r.end) };

    ghost writing = { ⟦<(T, T) as SchemaWrite>⟧.writing };

    fn type_meta() -> TypeMeta {
        <(T, T) as SchemaWrite>::type_meta()
    }

    fn size_of(src: &Self::Src) -> WriteResult<usize> {
        size_of_members_2::<T, T>(&src.start, &src.end)
    }

    fn write<W: Writer>(writer: &mut W, src: &Self::Src) -> WriteResult<()> {
        write_members_2::<T, T, W>(writer, &src.start, &src.end)
    }

    #[inline(always)]
    fn encode_front(src: &Self::Src, dst: &mut [u8]) -> Option<usize> {
        encode_front_members_2::<T, T>(&src.start, &src.end, dst)
    }

    #[inline(always)]
    fn write_at_once<W: Writer>(writer: &mut W, items: &[Self::Src]) -> Option<WriteResult<()>> {
        let _ = &*writer;
        let _items = items.len();
        None
    }

    #[inline(always)]
    fn known_size() -> Option<usize> {
        None
    }

    ghost write_laws = { write_laws_by (λ r. (r.start, r.end)) ⟦<(T, T) as SchemaWrite>⟧.write_laws };
}

impl<T: SchemaWrite> SchemaWrite for RangeInclusive<T> {
    type Src = RangeInclusive<T::Src>;

    ghost Value = { T.Value × T.Value };

    ghost model = { λ r. ⟦<(T, T) as SchemaWrite>⟧.model (range_inclusive_start r, range_inclusive_end r) };

    ghost is_valid = { λ r. ⟦<(T, T) as SchemaWrite>⟧.is_valid (range_inclusive_start r, range_inclusive_end r) };

    ghost writing = { ⟦<(T, T) as SchemaWrite>⟧.writing };

    fn type_meta() -> TypeMeta {
        <(T, T) as SchemaWrite>::type_meta()
    }

    fn size_of(src: &Self::Src) -> WriteResult<usize> {
        size_of_members_2::<T, T>(src.start(), src.end())
    }

    fn write<W: Writer>(writer: &mut W, src: &Self::Src) -> WriteResult<()> {
        write_members_2::<T, T, W>(writer, src.start(), src.end())
    }

    #[inline(always)]
    fn encode_front(src: &Self::Src, dst: &mut [u8]) -> Option<usize> {
        encode_front_members_2::<T, T>(src.start(), src.end(), dst)
    }

    #[inline(always)]
    fn write_at_once<W: Writer>(writer: &mut W, items: &[Self::Src]) -> Option<WriteResult<()>> {
        let _ = &*writer;
        let _items = items.len();
        None
    }

    #[inline(always)]
    fn known_size() -> Option<usize> {
        None
    }

    ghost write_laws = { write_laws_by (λ r. (range_inclusive_start r, range_inclusive_end r)) ⟦<(T, T) as SchemaWrite>⟧.write_laws };
}

//! Written by `tools/templates`: what is read as the values that it holds: those with another order or another arithmetic, and ranges.
ghost use Rattle.std.specs.Range.{range_inclusive_end, range_inclusive_start};
ghost use Rattle.wincode_base.specs.PairLaws.{pair_read_laws, windowed_read_laws};

use crate::schema::at_hand::decoded;
use crate::schema::{SchemaGet, SchemaRead};
use std::alloc::Global;
use std::cmp::Reverse;
use std::num::{Saturating, Wrapping};
use std::ops::{Range, RangeFrom, RangeInclusive, RangeTo};
use wincode_base::error::ReadResult;
use wincode_base::meta::TypeMeta;
use wincode_io::{Lending, Reader};

impl<L: Lending, T: SchemaRead<L>> SchemaRead<L> for Wrapping<T> {
    type Dst = Wrapping<T::Dst>;

    ghost Value = { T.Value };

    ghost model = { λ w. T.model w.0 };

    ghost is_valid = { T.is_valid };

    ghost reading = { T.reading };

    fn type_meta() -> TypeMeta {
        T::type_meta()
    }

    fn prealloc_size() -> usize {
        T::prealloc_size()
    }

    fn read<R: Reader<L>>(
        alloc: Global,
        reader: &mut R,
        dst: &mut Option<Self::Dst>,
    ) -> ReadResult<()> {
        let value = T::get(alloc, reader)?;
        *dst = Some(Wrapping(value));
        Ok(())
    }

    #[inline(always)]
    fn read_at_once<R: Reader<L>>(
        alloc: Global,
        reader: &mut R,
        n: usize,
        into: &mut Vec<Self::Dst>,
    ) -> Option<ReadResult<()>> {
        let _ = (alloc, n);
        let _ = &*reader;
        let _ = &*into;
        None
    }

    #[inline(always)]
    fn blank() -> Option<Self::Dst> {
        let value = T::blank()?;
        Some(Wrapping(value))
    }

    #[inline(always)]
    fn decode(bytes: &[u8], place: &mut Self::Dst) -> bool {
        T::decode(bytes, &mut place.0)
    }

    ghost read_laws = { T.read_laws };
}

impl<L: Lending, T: SchemaRead<L>> SchemaRead<L> for Saturating<T> {
    type Dst = Saturating<T::Dst>;

    ghost Value = { T.Value };

    ghost model = { λ w. T.model w.0 };

    ghost is_valid = { T.is_valid };

    ghost reading = { T.reading };

    fn type_meta() -> TypeMeta {
        T::type_meta()
    }

    fn prealloc_size() -> usize {
        T::prealloc_size()
    }

    fn read<R: Reader<L>>(
        alloc: Global,
        reader: &mut R,
        dst: &mut Option<Self::Dst>,
    ) -> ReadResult<()> {
        let value = T::get(alloc, reader)?;
        *dst = Some(Saturating(value));
        Ok(())
    }

    #[inline(always)]
    fn read_at_once<R: Reader<L>>(
        alloc: Global,
        reader: &mut R,
        n: usize,
        into: &mut Vec<Self::Dst>,
    ) -> Option<ReadResult<()>> {
        let _ = (alloc, n);
        let _ = &*reader;
        let _ = &*into;
        None
    }

    #[inline(always)]
    fn blank() -> Option<Self::Dst> {
        let value = T::blank()?;
        Some(Saturating(value))
    }

    #[inline(always)]
    fn decode(bytes: &[u8], place: &mut Self::Dst) -> bool {
        T::decode(bytes, &mut place.0)
    }

    ghost read_laws = { T.read_laws };
}

impl<L: Lending, T: SchemaRead<L>> SchemaRead<L> for Reverse<T> {
    type Dst = Reverse<T::Dst>;

    ghost Value = { T.Value };

    ghost model = { λ w. T.model w.0 };

    ghost is_valid = { T.is_valid };

    ghost reading = { T.reading };

    fn type_meta() -> TypeMeta {
        T::type_meta()
    }

    fn prealloc_size() -> usize {
        T::prealloc_size()
    }

    fn read<R: Reader<L>>(
        alloc: Global,
        reader: &mut R,
        dst: &mut Option<Self::Dst>,
    ) -> ReadResult<()> {
        let value = T::get(alloc, reader)?;
        *dst = Some(Reverse(value));
        Ok(())
    }

    #[inline(always)]
    fn read_at_once<R: Reader<L>>(
        alloc: Global,
        reader: &mut R,
        n: usize,
        into: &mut Vec<Self::Dst>,
    ) -> Option<ReadResult<()>> {
        let _ = (alloc, n);
        let _ = &*reader;
        let _ = &*into;
        None
    }

    #[inline(always)]
    fn blank() -> Option<Self::Dst> {
        let value = T::blank()?;
        Some(Reverse(value))
    }

    #[inline(always)]
    fn decode(bytes: &[u8], place: &mut Self::Dst) -> bool {
        T::decode(bytes, &mut place.0)
    }

    ghost read_laws = { T.read_laws };
}

impl<L: Lending, T: SchemaRead<L>> SchemaRead<L> for RangeFrom<T> {
    type Dst = RangeFrom<T::Dst>;

    ghost Value = { T.Value };

    ghost model = { λ w. T.model w.start };

    ghost is_valid = { T.is_valid };

    ghost reading = { T.reading };

    fn type_meta() -> TypeMeta {
        T::type_meta()
    }

    fn prealloc_size() -> usize {
        T::prealloc_size()
    }

    fn read<R: Reader<L>>(
        alloc: Global,
        reader: &mut R,
        dst: &mut Option<Self::Dst>,
    ) -> ReadResult<()> {
        let value = T::get(alloc, reader)?;
        *dst = Some(RangeFrom { start: value });
        Ok(())
    }

    #[inline(always)]
    fn read_at_once<R: Reader<L>>(
        alloc: Global,
        reader: &mut R,
        n: usize,
        into: &mut Vec<Self::Dst>,
    ) -> Option<ReadResult<()>> {
        let _ = (alloc, n);
        let _ = &*reader;
        let _ = &*into;
        None
    }

    #[inline(always)]
    fn blank() -> Option<Self::Dst> {
        let value = T::blank()?;
        Some(RangeFrom { start: value })
    }

    #[inline(always)]
    fn decode(bytes: &[u8], place: &mut Self::Dst) -> bool {
        T::decode(bytes, &mut place.start)
    }

    ghost read_laws = { T.read_laws };
}

impl<L: Lending, T: SchemaRead<L>> SchemaRead<L> for RangeTo<T> {
    type Dst = RangeTo<T::Dst>;

    ghost Value = { T.Value };

    ghost model = { λ w. T.model w.end };

    ghost is_valid = { T.is_valid };

    ghost reading = { T.reading };

    fn type_meta() -> TypeMeta {
        T::type_meta()
    }

    fn prealloc_size() -> usize {
        T::prealloc_size()
    }

    fn read<R: Reader<L>>(
        alloc: Global,
        reader: &mut R,
        dst: &mut Option<Self::Dst>,
    ) -> ReadResult<()> {
        let value = T::get(alloc, reader)?;
        *dst = Some(RangeTo { end: value });
        Ok(())
    }

    #[inline(always)]
    fn read_at_once<R: Reader<L>>(
        alloc: Global,
        reader: &mut R,
        n: usize,
        into: &mut Vec<Self::Dst>,
    ) -> Option<ReadResult<()>> {
        let _ = (alloc, n);
        let _ = &*reader;
        let _ = &*into;
        None
    }

    #[inline(always)]
    fn blank() -> Option<Self::Dst> {
        let value = T::blank()?;
        Some(RangeTo { end: value })
    }

    #[inline(always)]
    fn decode(bytes: &[u8], place: &mut Self::Dst) -> bool {
        T::decode(bytes, &mut place.end)
    }

    ghost read_laws = { T.read_laws };
}

impl<L: Lending, T: SchemaRead<L>> SchemaRead<L> for Range<T> {
    type Dst = Range<T::Dst>;

    ghost Value = { T.Value × T.Value };

    ghost model = { λ r. ⟦<(T, T) as SchemaRead<L>>⟧.model (r.start, r.end) };

    ghost is_valid = { ⟦<(T, T) as SchemaRead<L>>⟧.is_valid };

    ghost reading = { ⟦<(T, T) as SchemaRead<L>>⟧.reading };

    fn type_meta() -> TypeMeta {
        <(T, T) as SchemaRead<L>>::type_meta()
    }

    fn prealloc_size() -> usize {
        <(T, T) as SchemaRead<L>>::prealloc_size()
    }

    fn read<R: Reader<L>>(
        alloc: Global,
        reader: &mut R,
        dst: &mut Option<Self::Dst>,
    ) -> ReadResult<()> {
        let (start, end) = <(T, T) as SchemaGet<L>>::get(alloc, reader)?;
        *dst = Some(Range { start, end });
        Ok(())
    }

    #[inline(always)]
    fn read_at_once<R: Reader<L>>(
        alloc: Global,
        reader: &mut R,
        n: usize,
        into: &mut Vec<Self::Dst>,
    ) -> Option<ReadResult<()>> {
        let _ = (alloc, n);
        let _ = &*reader;
        let _ = &*into;
        None
    }

    #[inline(always)]
    fn blank() -> Option<Self::Dst> {
        let (start, end) = <(T, T) as SchemaRead<L>>::blank()?;
        Some(Range { start, end })
    }

    #[inline(always)]
    fn decode(bytes: &[u8], place: &mut Self::Dst) -> bool {
        let Some((start, end)) = decoded::<L, (T, T)>(bytes) else {
            return false;
        };
        *place = Range { start, end };
        true
    }

    ghost read_laws = { windowed_read_laws (pair_read_laws T.read_laws T.read_laws) };
}

impl<L: Lending, T: SchemaRead<L>> SchemaRead<L> for RangeInclusive<T> {
    type Dst = RangeInclusive<T::Dst>;

    ghost Value = { T.Value × T.Value };

    ghost model = { λ r. ⟦<(T, T) as SchemaRead<L>>⟧.model (range_inclusive_start r, range_inclusive_end r) };

    ghost is_valid = { ⟦<(T, T) as SchemaRead<L>>⟧.is_valid };

    ghost reading = { ⟦<(T, T) as SchemaRead<L>>⟧.reading };

    fn type_meta() -> TypeMeta {
        <(T, T) as SchemaRead<L>>::type_meta()
    }

    fn prealloc_size() -> usize {
        <(T, T) as SchemaRead<L>>::prealloc_size()
    }

    fn read<R: Reader<L>>(
        alloc: Global,
        reader: &mut R,
        dst: &mut Option<Self::Dst>,
    ) -> ReadResult<()> {
        let (start, end) = <(T, T) as SchemaGet<L>>::get(alloc, reader)?;
        *dst = Some(RangeInclusive::new(start, end));
        Ok(())
    }

    #[inline(always)]
    fn read_at_once<R: Reader<L>>(
        alloc: Global,
        reader: &mut R,
        n: usize,
        into: &mut Vec<Self::Dst>,
    ) -> Option<ReadResult<()>> {
        let _ = (alloc, n);
        let _ = &*reader;
        let _ = &*into;
        None
    }

    #[inline(always)]
    fn blank() -> Option<Self::Dst> {
        let (start, end) = <(T, T) as SchemaRead<L>>::blank()?;
        Some(RangeInclusive::new(start, end))
    }

    #[inline(always)]
    fn decode(bytes: &[u8], place: &mut Self::Dst) -> bool {
        let Some((start, end)) = decoded::<L, (T, T)>(bytes) else {
            return false;
        };
        *place = RangeInclusive::new(start, end);
        true
    }

    ghost read_laws = { windowed_read_laws (pair_read_laws T.read_laws T.read_laws) };
}

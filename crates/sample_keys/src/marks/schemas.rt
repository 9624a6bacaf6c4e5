//! Written by `wincode_derive`: the schemas of what the module above declares.
ghost use Rattle.std.specs.Prelude.{Ok, Err, refl};
ghost use Rattle.wincode_base.specs.PairLaws.{write_laws_by, reads_back_by};
ghost use Rattle.wincode_derive_support.specs.Keys.{err_same, ok_not_err, err_not_ok};
ghost use Rattle.sample_keys.specs.contracts.marks.RangeEq.TheImpl.Laws as Range-eq-laws;
ghost use Rattle.sample_keys.specs.contracts.marks.RangeOrd.TheImpl.Laws as Range-ord-laws;
ghost use Rattle.sample_keys.specs.contracts.marks.MarkEq.TheImpl.Laws as Mark-eq-laws;
ghost use Rattle.sample_keys.specs.contracts.marks.MarkOrd.TheImpl.Laws as Mark-ord-laws;
ghost use Rattle.sample_keys.specs.declared.marks.Mark.TheVariants.{Plus as Mark-Plus, Minus as Mark-Minus, Other as Mark-Other};
ghost use Rattle.sample_keys.specs.declared.marks.Only.TheVariants.{Marked as Only-Marked};

use super::*;
use std::alloc::Global;
use wincode::io::{Lending, Reader, Writer};
use wincode::schema::tuples::{encode_front_members_2, size_of_members_2, write_members_2};
use wincode::{
    Key, OneText, ReadResult, RoundTrip, SchemaGet, SchemaRead, SchemaReadOwned, SchemaWrite,
    TypeMeta, WriteResult,
};
use wincode_derive_support::enums::{
    EnumParts, EnumShape, encode_enum, read_enum, size_of_enum, write_enum,
};
use wincode_derive_support::keys::LawfulKey;
use wincode_derive_support::laws::{FieldsKey, FieldsOneText, FieldsReadOwned, Lawful};
use wincode_derive_support::sums::{Case, Last, OneOf};

type SpanFields = (u16, i64);

impl SchemaWrite for Span {
    type Src = Span;

    ghost Value = { ⟦<SpanFields as SchemaWrite>⟧.Value };

    ghost model = { λ x. ⟦<SpanFields as SchemaWrite>⟧.model (x.0, x.1) };

    ghost is_valid = { λ x. ⟦<SpanFields as SchemaWrite>⟧.is_valid (x.0, x.1) };

    ghost writing = { ⟦<SpanFields as SchemaWrite>⟧.writing };

    fn type_meta() -> TypeMeta {
        <SpanFields as SchemaWrite>::type_meta()
    }

    fn size_of(src: &Span) -> WriteResult<usize> {
        size_of_members_2::<u16, i64>(&src.0, &src.1)
    }

    fn write<W: Writer>(writer: &mut W, src: &Span) -> WriteResult<()> {
        write_members_2::<u16, i64, W>(writer, &src.0, &src.1)
    }

    #[inline(always)]
    fn encode_front(src: &Span, dst: &mut [u8]) -> Option<usize> {
        encode_front_members_2::<u16, i64>(&src.0, &src.1, dst)
    }

    ghost write_laws = { write_laws_by (λ x. (x.0, x.1)) ⟦<SpanFields as SchemaWrite>⟧.write_laws };
}

impl<L: Lending> SchemaRead<L> for Span {
    type Dst = Span;

    ghost Value = { ⟦<SpanFields as SchemaRead<L>>⟧.Value };

    ghost model = { λ x. ⟦<SpanFields as SchemaRead<L>>⟧.model (x.0, x.1) };

    ghost is_valid = { ⟦<SpanFields as SchemaRead<L>>⟧.is_valid };

    ghost reading = { ⟦<SpanFields as SchemaRead<L>>⟧.reading };

    fn type_meta() -> TypeMeta {
        <SpanFields as SchemaRead<L>>::type_meta()
    }

    fn prealloc_size() -> usize {
        <SpanFields as SchemaRead<L>>::prealloc_size()
    }

    fn read<R: Reader<L>>(alloc: Global, reader: &mut R, dst: &mut Option<Span>) -> ReadResult<()> {
        match <SpanFields as SchemaGet<L>>::get(alloc, reader) {
            Ok(parts) => {
                let (a, b) = parts;
                *dst = Some(Span(a, b));
                Ok(())
            }
            Err(error) => Err(error),
        }
    }

    #[inline(always)]
    fn blank() -> Option<Span> {
        let (a, b) = <SpanFields as SchemaRead<L>>::blank()?;
        Some(Span(a, b))
    }

    #[inline(always)]
    fn decode(bytes: &[u8], place: &mut Span) -> bool {
        let Some(mut parts) = <SpanFields as SchemaRead<L>>::blank() else {
            return false;
        };
        if !<SpanFields as SchemaRead<L>>::decode(bytes, &mut parts) {
            return false;
        }
        let (a, b) = parts;
        *place = Span(a, b);
        true
    }

    ghost read_laws = { ⟦<SpanFields as Lawful<L>>⟧.read_laws };
}

impl<L: Lending> Lawful<L> for Span {
    type Dst = Span;

    ghost Value = { ⟦<SpanFields as Lawful<L>>⟧.Value };

    ghost model = { λ x. ⟦<SpanFields as Lawful<L>>⟧.model (x.0, x.1) };

    ghost is_valid = { ⟦<SpanFields as Lawful<L>>⟧.is_valid };

    ghost reading = { ⟦<SpanFields as Lawful<L>>⟧.reading };

    ghost read_laws = { ⟦<SpanFields as Lawful<L>>⟧.read_laws };
}

impl<L: Lending> RoundTrip<L> for Span
where
    SpanFields: RoundTrip<L>,
{
    ghost reads_back = { reads_back_by (λ x. (x.0, x.1)) bound-5.reads_back };
}

impl<L: Lending> OneText<L> for Span
where
    SpanFields: FieldsOneText<L>,
{
    ghost one_text = { bound-5.fields_one_text };
}

impl<L: Lending> SchemaReadOwned<L> for Span
where
    SpanFields: FieldsReadOwned<L>,
{
    ghost owned = { bound-5.fields_owned };
}

type SpanPairs = (u16, i64);

impl<L: Lending> Key<L> for Span
where
    SpanPairs: FieldsKey<L>,
{
    ghost alike = { λ x y. bound-5.fields_alike (x.0, x.1) (y.0, y.1) };
}

type RangeFields = (u32, u32);

impl SchemaWrite for Range {
    type Src = Range;

    ghost Value = { ⟦<RangeFields as SchemaWrite>⟧.Value };

    ghost model = { λ x. ⟦<RangeFields as SchemaWrite>⟧.model (x.from, x.to) };

    ghost is_valid = { λ x. ⟦<RangeFields as SchemaWrite>⟧.is_valid (x.from, x.to) };

    ghost writing = { ⟦<RangeFields as SchemaWrite>⟧.writing };

    fn type_meta() -> TypeMeta {
        <RangeFields as SchemaWrite>::type_meta()
    }

    fn size_of(src: &Range) -> WriteResult<usize> {
        size_of_members_2::<u32, u32>(&src.from, &src.to)
    }

    fn write<W: Writer>(writer: &mut W, src: &Range) -> WriteResult<()> {
        write_members_2::<u32, u32, W>(writer, &src.from, &src.to)
    }

    #[inline(always)]
    fn encode_front(src: &Range, dst: &mut [u8]) -> Option<usize> {
        encode_front_members_2::<u32, u32>(&src.from, &src.to, dst)
    }

    ghost write_laws = { write_laws_by (λ x. (x.from, x.to)) ⟦<RangeFields as SchemaWrite>⟧.write_laws };
}

impl<L: Lending> SchemaRead<L> for Range {
    type Dst = Range;

    ghost Value = { ⟦<RangeFields as SchemaRead<L>>⟧.Value };

    ghost model = { λ x. ⟦<RangeFields as SchemaRead<L>>⟧.model (x.from, x.to) };

    ghost is_valid = { ⟦<RangeFields as SchemaRead<L>>⟧.is_valid };

    ghost reading = { ⟦<RangeFields as SchemaRead<L>>⟧.reading };

    fn type_meta() -> TypeMeta {
        <RangeFields as SchemaRead<L>>::type_meta()
    }

    fn prealloc_size() -> usize {
        <RangeFields as SchemaRead<L>>::prealloc_size()
    }

    fn read<R: Reader<L>>(
        alloc: Global,
        reader: &mut R,
        dst: &mut Option<Range>,
    ) -> ReadResult<()> {
        match <RangeFields as SchemaGet<L>>::get(alloc, reader) {
            Ok(parts) => {
                let (from, to) = parts;
                *dst = Some(Range { from, to });
                Ok(())
            }
            Err(error) => Err(error),
        }
    }

    #[inline(always)]
    fn blank() -> Option<Range> {
        let (from, to) = <RangeFields as SchemaRead<L>>::blank()?;
        Some(Range { from, to })
    }

    #[inline(always)]
    fn decode(bytes: &[u8], place: &mut Range) -> bool {
        let Some(mut parts) = <RangeFields as SchemaRead<L>>::blank() else {
            return false;
        };
        if !<RangeFields as SchemaRead<L>>::decode(bytes, &mut parts) {
            return false;
        }
        let (from, to) = parts;
        *place = Range { from, to };
        true
    }

    ghost read_laws = { ⟦<RangeFields as Lawful<L>>⟧.read_laws };
}

impl<L: Lending> Lawful<L> for Range {
    type Dst = Range;

    ghost Value = { ⟦<RangeFields as Lawful<L>>⟧.Value };

    ghost model = { λ x. ⟦<RangeFields as Lawful<L>>⟧.model (x.from, x.to) };

    ghost is_valid = { ⟦<RangeFields as Lawful<L>>⟧.is_valid };

    ghost reading = { ⟦<RangeFields as Lawful<L>>⟧.reading };

    ghost read_laws = { ⟦<RangeFields as Lawful<L>>⟧.read_laws };
}

impl<L: Lending> RoundTrip<L> for Range
where
    RangeFields: RoundTrip<L>,
{
    ghost reads_back = { reads_back_by (λ x. (x.from, x.to)) bound-5.reads_back };
}

impl<L: Lending> OneText<L> for Range
where
    RangeFields: FieldsOneText<L>,
{
    ghost one_text = { bound-5.fields_one_text };
}

impl<L: Lending> SchemaReadOwned<L> for Range
where
    RangeFields: FieldsReadOwned<L>,
{
    ghost owned = { bound-5.fields_owned };
}

type RangePairs = (u32, u32);

impl<L: Lending> Key<L> for Range {
    ghost alike = { ⟦<Range as LawfulKey<L>>⟧.alike };
}

impl<L: Lending> LawfulKey<L> for Range {
    type Dst = Range;

    ghost Value = { ⟦<RangeFields as Lawful<L>>⟧.Value };

    ghost model = { λ x. ⟦<RangeFields as Lawful<L>>⟧.model (x.from, x.to) };

    ghost is_valid = { ⟦<RangeFields as Lawful<L>>⟧.is_valid };

    ghost reading = { ⟦<RangeFields as Lawful<L>>⟧.reading };

    ghost read_laws = { ⟦<RangeFields as Lawful<L>>⟧.read_laws };

    ghost equal = { ⟦<Range as PartialEq>⟧.eq };

    ghost equivalence = { Range-eq-laws.laws-law };

    ghost alike = { λ x y. ⟦<RangePairs as LawfulKey<L>>⟧.alike (x.from, x.to) (y.from, y.to) };

    ghost order = { ⟦<Range as Ord>⟧.cmp };

    ghost order_total = { Range-ord-laws.total-law };

    ghost order_ties = { Range-ord-laws.matches_eq-law };
}

type MarkerFields = ();

impl SchemaWrite for Marker {
    type Src = Marker;

    ghost Value = { ⟦<MarkerFields as SchemaWrite>⟧.Value };

    ghost model = { λ x. ⟦<MarkerFields as SchemaWrite>⟧.model tt };

    ghost is_valid = { λ x. ⟦<MarkerFields as SchemaWrite>⟧.is_valid tt };

    ghost writing = { ⟦<MarkerFields as SchemaWrite>⟧.writing };

    fn type_meta() -> TypeMeta {
        <MarkerFields as SchemaWrite>::type_meta()
    }

    fn size_of(src: &Marker) -> WriteResult<usize> {
        <() as SchemaWrite>::size_of(&())
    }

    fn write<W: Writer>(writer: &mut W, src: &Marker) -> WriteResult<()> {
        <() as SchemaWrite>::write::<W>(writer, &())
    }

    #[inline(always)]
    fn encode_front(src: &Marker, dst: &mut [u8]) -> Option<usize> {
        <() as SchemaWrite>::encode_front(&(), dst)
    }

    ghost write_laws = { write_laws_by (λ x. tt) ⟦<MarkerFields as SchemaWrite>⟧.write_laws };
}

impl<L: Lending> SchemaRead<L> for Marker {
    type Dst = Marker;

    ghost Value = { ⟦<MarkerFields as SchemaRead<L>>⟧.Value };

    ghost model = { λ x. ⟦<MarkerFields as SchemaRead<L>>⟧.model tt };

    ghost is_valid = { ⟦<MarkerFields as SchemaRead<L>>⟧.is_valid };

    ghost reading = { ⟦<MarkerFields as SchemaRead<L>>⟧.reading };

    fn type_meta() -> TypeMeta {
        <MarkerFields as SchemaRead<L>>::type_meta()
    }

    fn prealloc_size() -> usize {
        <MarkerFields as SchemaRead<L>>::prealloc_size()
    }

    fn read<R: Reader<L>>(
        alloc: Global,
        reader: &mut R,
        dst: &mut Option<Marker>,
    ) -> ReadResult<()> {
        match <MarkerFields as SchemaGet<L>>::get(alloc, reader) {
            Ok(parts) => {
                let () = parts;
                *dst = Some(Marker);
                Ok(())
            }
            Err(error) => Err(error),
        }
    }

    ghost read_laws = { ⟦<MarkerFields as Lawful<L>>⟧.read_laws };
}

impl<L: Lending> Lawful<L> for Marker {
    type Dst = Marker;

    ghost Value = { ⟦<MarkerFields as Lawful<L>>⟧.Value };

    ghost model = { λ x. ⟦<MarkerFields as Lawful<L>>⟧.model tt };

    ghost is_valid = { ⟦<MarkerFields as Lawful<L>>⟧.is_valid };

    ghost reading = { ⟦<MarkerFields as Lawful<L>>⟧.reading };

    ghost read_laws = { ⟦<MarkerFields as Lawful<L>>⟧.read_laws };
}

impl<L: Lending> RoundTrip<L> for Marker
where
    MarkerFields: RoundTrip<L>,
{
    ghost reads_back = { reads_back_by (λ x. tt) bound-5.reads_back };
}

impl<L: Lending> OneText<L> for Marker
where
    MarkerFields: FieldsOneText<L>,
{
    ghost one_text = { bound-5.fields_one_text };
}

impl<L: Lending> SchemaReadOwned<L> for Marker
where
    MarkerFields: FieldsReadOwned<L>,
{
    ghost owned = { bound-5.fields_owned };
}

type MarkCases = OneOf<<Mark as EnumShape>::Tag, <Mark as EnumShape>::Cases>;

impl EnumParts for Mark {
    type Src = Mark;

    type Parts = Result<(), Result<(), ()>>;

    ghost parts = { elim [ Mark-Plus ↦ Ok tt | Mark-Minus ↦ Err (Ok tt) | Mark-Other ↦ Err (Err tt) ] };

    fn make(made_of: Self::Parts) -> Mark {
        match made_of {
            Ok(()) => Mark::Plus,
            Err(rest) => match rest {
                Ok(()) => Mark::Minus,
                Err(()) => Mark::Other,
            },
        }
    }
}

impl EnumShape for Mark {
    type Tag = u8;

    type Cases = Case<0, (), Case<1, (), Last<9, ()>>>;

    fn tag(src: &Mark) -> usize {
        match src {
            Mark::Plus => 0,
            Mark::Minus => 1,
            Mark::Other => 9,
        }
    }

    fn part_size(src: &Mark) -> WriteResult<usize> {
        match src {
            Mark::Plus => <() as SchemaWrite>::size_of(&()),
            Mark::Minus => <() as SchemaWrite>::size_of(&()),
            Mark::Other => <() as SchemaWrite>::size_of(&()),
        }
    }

    fn write_part<W: Writer>(writer: &mut W, src: &Mark) -> WriteResult<()> {
        match src {
            Mark::Plus => <() as SchemaWrite>::write::<W>(writer, &()),
            Mark::Minus => <() as SchemaWrite>::write::<W>(writer, &()),
            Mark::Other => <() as SchemaWrite>::write::<W>(writer, &()),
        }
    }

    fn encode_part(src: &Mark, dst: &mut [u8]) -> Option<usize> {
        match src {
            Mark::Plus => <() as SchemaWrite>::encode_front(&(), dst),
            Mark::Minus => <() as SchemaWrite>::encode_front(&(), dst),
            Mark::Other => <() as SchemaWrite>::encode_front(&(), dst),
        }
    }
}

impl SchemaWrite for Mark {
    type Src = Mark;

    ghost Value = { ⟦<MarkCases as SchemaWrite>⟧.Value };

    ghost model = { λ x. ⟦<MarkCases as SchemaWrite>⟧.model (⟦<Mark as EnumParts>⟧.parts x) };

    ghost is_valid = { λ x. ⟦<MarkCases as SchemaWrite>⟧.is_valid (⟦<Mark as EnumParts>⟧.parts x) };

    ghost writing = { ⟦<MarkCases as SchemaWrite>⟧.writing };

    fn type_meta() -> TypeMeta {
        <MarkCases as SchemaWrite>::type_meta()
    }

    fn size_of(src: &Mark) -> WriteResult<usize> {
        size_of_enum::<Mark>(src)
    }

    fn write<W: Writer>(writer: &mut W, src: &Mark) -> WriteResult<()> {
        write_enum::<Mark, W>(writer, src)
    }

    #[inline(always)]
    fn encode_front(src: &Mark, dst: &mut [u8]) -> Option<usize> {
        encode_enum::<Mark>(src, dst)
    }

    ghost write_laws = { write_laws_by ⟦<Mark as EnumParts>⟧.parts ⟦<MarkCases as SchemaWrite>⟧.write_laws };
}

impl<L: Lending> SchemaRead<L> for Mark {
    type Dst = Mark;

    ghost Value = { ⟦<MarkCases as SchemaRead<L>>⟧.Value };

    ghost model = { λ x. ⟦<MarkCases as SchemaRead<L>>⟧.model (⟦<Mark as EnumParts>⟧.parts x) };

    ghost is_valid = { ⟦<MarkCases as SchemaRead<L>>⟧.is_valid };

    ghost reading = { ⟦<MarkCases as SchemaRead<L>>⟧.reading };

    fn type_meta() -> TypeMeta {
        <MarkCases as SchemaRead<L>>::type_meta()
    }

    fn prealloc_size() -> usize {
        <MarkCases as SchemaRead<L>>::prealloc_size()
    }

    fn read<R: Reader<L>>(alloc: Global, reader: &mut R, dst: &mut Option<Mark>) -> ReadResult<()> {
        read_enum::<L, MarkCases, Mark, R>(alloc, reader, dst)
    }

    ghost read_laws = { ⟦<MarkCases as Lawful<L>>⟧.read_laws };
}

impl<L: Lending> Lawful<L> for Mark {
    type Dst = Mark;

    ghost Value = { ⟦<MarkCases as Lawful<L>>⟧.Value };

    ghost model = { λ x. ⟦<MarkCases as Lawful<L>>⟧.model (⟦<Mark as EnumParts>⟧.parts x) };

    ghost is_valid = { ⟦<MarkCases as Lawful<L>>⟧.is_valid };

    ghost reading = { ⟦<MarkCases as Lawful<L>>⟧.reading };

    ghost read_laws = { ⟦<MarkCases as Lawful<L>>⟧.read_laws };
}

impl<L: Lending> RoundTrip<L> for Mark
where
    MarkCases: RoundTrip<L>,
{
    ghost reads_back = { reads_back_by ⟦<Mark as EnumParts>⟧.parts bound-5.reads_back };
}

impl<L: Lending> OneText<L> for Mark
where
    MarkCases: FieldsOneText<L>,
{
    ghost one_text = { bound-5.fields_one_text };
}

impl<L: Lending> SchemaReadOwned<L> for Mark
where
    MarkCases: FieldsReadOwned<L>,
{
    ghost owned = { bound-5.fields_owned };
}

impl<L: Lending> Key<L> for Mark {
    ghost alike = { ⟦<Mark as LawfulKey<L>>⟧.alike };
}

impl<L: Lending> LawfulKey<L> for Mark {
    type Dst = Mark;

    ghost Value = { ⟦<MarkCases as Lawful<L>>⟧.Value };

    ghost model = { λ x. ⟦<MarkCases as Lawful<L>>⟧.model (⟦<Mark as EnumParts>⟧.parts x) };

    ghost is_valid = { ⟦<MarkCases as Lawful<L>>⟧.is_valid };

    ghost reading = { ⟦<MarkCases as Lawful<L>>⟧.reading };

    ghost read_laws = { ⟦<MarkCases as Lawful<L>>⟧.read_laws };

    ghost equal = { ⟦<Mark as PartialEq>⟧.eq };

    ghost equivalence = { Mark-eq-laws.laws-law };

    ghost alike = { elim [
      | Mark-Plus ↦ elim [ Mark-Plus ↦ λ e. refl | Mark-Minus ↦ λ e. ok_not_err e | Mark-Other ↦ λ e. ok_not_err e ]
      | Mark-Minus ↦ elim [ Mark-Plus ↦ λ e. err_not_ok e | Mark-Minus ↦ λ e. refl | Mark-Other ↦ λ e. ok_not_err (err_same e) ]
      | Mark-Other ↦ elim [ Mark-Plus ↦ λ e. err_not_ok e | Mark-Minus ↦ λ e. err_not_ok (err_same e) | Mark-Other ↦ λ e. refl ]
    ] };

    ghost order = { ⟦<Mark as Ord>⟧.cmp };

    ghost order_total = { Mark-ord-laws.total-law };

    ghost order_ties = { Mark-ord-laws.matches_eq-law };
}

type OnlyCases = OneOf<<Only as EnumShape>::Tag, <Only as EnumShape>::Cases>;

impl EnumParts for Only {
    type Src = Only;

    type Parts = Mark;

    ghost parts = { elim [ Only-Marked a ↦ a ] };

    fn make(made_of: Self::Parts) -> Only {
        match made_of {
            a => Only::Marked(a),
        }
    }
}

impl EnumShape for Only {
    type Tag = u64;

    type Cases = Last<0, Mark>;

    fn tag(src: &Only) -> usize {
        match src {
            Only::Marked(_) => 0,
        }
    }

    fn part_size(src: &Only) -> WriteResult<usize> {
        match src {
            Only::Marked(a) => <Mark as SchemaWrite>::size_of(a),
        }
    }

    fn write_part<W: Writer>(writer: &mut W, src: &Only) -> WriteResult<()> {
        match src {
            Only::Marked(a) => <Mark as SchemaWrite>::write::<W>(writer, a),
        }
    }

    fn encode_part(src: &Only, dst: &mut [u8]) -> Option<usize> {
        match src {
            Only::Marked(a) => <Mark as SchemaWrite>::encode_front(a, dst),
        }
    }
}

impl SchemaWrite for Only {
    type Src = Only;

    ghost Value = { ⟦<OnlyCases as SchemaWrite>⟧.Value };

    ghost model = { λ x. ⟦<OnlyCases as SchemaWrite>⟧.model (⟦<Only as EnumParts>⟧.parts x) };

    ghost is_valid = { λ x. ⟦<OnlyCases as SchemaWrite>⟧.is_valid (⟦<Only as EnumParts>⟧.parts x) };

    ghost writing = { ⟦<OnlyCases as SchemaWrite>⟧.writing };

    fn type_meta() -> TypeMeta {
        <OnlyCases as SchemaWrite>::type_meta()
    }

    fn size_of(src: &Only) -> WriteResult<usize> {
        size_of_enum::<Only>(src)
    }

    fn write<W: Writer>(writer: &mut W, src: &Only) -> WriteResult<()> {
        write_enum::<Only, W>(writer, src)
    }

    #[inline(always)]
    fn encode_front(src: &Only, dst: &mut [u8]) -> Option<usize> {
        encode_enum::<Only>(src, dst)
    }

    ghost write_laws = { write_laws_by ⟦<Only as EnumParts>⟧.parts ⟦<OnlyCases as SchemaWrite>⟧.write_laws };
}

impl<L: Lending> SchemaRead<L> for Only {
    type Dst = Only;

    ghost Value = { ⟦<OnlyCases as SchemaRead<L>>⟧.Value };

    ghost model = { λ x. ⟦<OnlyCases as SchemaRead<L>>⟧.model (⟦<Only as EnumParts>⟧.parts x) };

    ghost is_valid = { ⟦<OnlyCases as SchemaRead<L>>⟧.is_valid };

    ghost reading = { ⟦<OnlyCases as SchemaRead<L>>⟧.reading };

    fn type_meta() -> TypeMeta {
        <OnlyCases as SchemaRead<L>>::type_meta()
    }

    fn prealloc_size() -> usize {
        <OnlyCases as SchemaRead<L>>::prealloc_size()
    }

    fn read<R: Reader<L>>(alloc: Global, reader: &mut R, dst: &mut Option<Only>) -> ReadResult<()> {
        read_enum::<L, OnlyCases, Only, R>(alloc, reader, dst)
    }

    ghost read_laws = { ⟦<OnlyCases as Lawful<L>>⟧.read_laws };
}

impl<L: Lending> Lawful<L> for Only {
    type Dst = Only;

    ghost Value = { ⟦<OnlyCases as Lawful<L>>⟧.Value };

    ghost model = { λ x. ⟦<OnlyCases as Lawful<L>>⟧.model (⟦<Only as EnumParts>⟧.parts x) };

    ghost is_valid = { ⟦<OnlyCases as Lawful<L>>⟧.is_valid };

    ghost reading = { ⟦<OnlyCases as Lawful<L>>⟧.reading };

    ghost read_laws = { ⟦<OnlyCases as Lawful<L>>⟧.read_laws };
}

impl<L: Lending> RoundTrip<L> for Only
where
    OnlyCases: RoundTrip<L>,
{
    ghost reads_back = { reads_back_by ⟦<Only as EnumParts>⟧.parts bound-5.reads_back };
}

impl<L: Lending> OneText<L> for Only
where
    OnlyCases: FieldsOneText<L>,
{
    ghost one_text = { bound-5.fields_one_text };
}

impl<L: Lending> SchemaReadOwned<L> for Only
where
    OnlyCases: FieldsReadOwned<L>,
{
    ghost owned = { bound-5.fields_owned };
}

//! Written by `wincode_derive`: the schemas of what the module above declares.
ghost use Rattle.std.specs.Prelude.{Ok, Err};
ghost use Rattle.wincode_base.specs.PairLaws.{write_laws_by, reads_back_by, pair_read_laws, windowed_read_laws};
ghost use Rattle.wincode_derive_support.specs.PartLaws.{bound_laws, range_laws, same_laws};
ghost use Rattle.sample_types.specs.contracts.weather.PlaceEq.TheImpl.Laws as Place-eq-laws;
ghost use Rattle.sample_types.specs.contracts.weather.PlaceOrd.TheImpl.Laws as Place-ord-laws;
ghost use Rattle.sample_types.specs.declared.weather.Answer.TheVariants.{Told as Answer-Told, Elsewhere as Answer-Elsewhere, Between as Answer-Between};

use super::*;
use std::alloc::Global;
use wincode::io::{Lending, Reader, Writer};
use wincode::schema::tuples::{
    encode_front_members_2, encode_front_members_3, encode_front_members_4, size_of_members_2,
    size_of_members_3, size_of_members_4, write_members_2, write_members_3, write_members_4,
};
use wincode::{
    Key, OneText, ReadResult, RoundTrip, SchemaGet, SchemaRead, SchemaReadOwned, SchemaWrite,
    TypeMeta, WriteResult,
};
use wincode_derive_support::enums::{
    EnumParts, EnumShape, encode_enum, read_enum, size_of_enum, write_enum,
};
use wincode_derive_support::keys::LawfulKey;
use wincode_derive_support::laws::{FieldsOneText, FieldsReadOwned, Lawful};
use wincode_derive_support::sums::{Case, Last, OneOf};

type MeasuredFields = (NonZeroU32, Duration, f64, Vec<f32>);

impl SchemaWrite for Measured {
    type Src = Measured;

    ghost Value = { ⟦<MeasuredFields as SchemaWrite>⟧.Value };

    ghost model = { λ x. ⟦<MeasuredFields as SchemaWrite>⟧.model (x.by, x.behind, x.degrees, x.places) };

    ghost is_valid = { λ x. ⟦<MeasuredFields as SchemaWrite>⟧.is_valid (x.by, x.behind, x.degrees, x.places) };

    ghost writing = { ⟦<MeasuredFields as SchemaWrite>⟧.writing };

    fn type_meta() -> TypeMeta {
        <MeasuredFields as SchemaWrite>::type_meta()
    }

    fn size_of(src: &Measured) -> WriteResult<usize> {
        size_of_members_4::<NonZeroU32, Duration, f64, Vec<f32>>(
            &src.by,
            &src.behind,
            &src.degrees,
            &src.places,
        )
    }

    fn write<W: Writer>(writer: &mut W, src: &Measured) -> WriteResult<()> {
        write_members_4::<NonZeroU32, Duration, f64, Vec<f32>, W>(
            writer,
            &src.by,
            &src.behind,
            &src.degrees,
            &src.places,
        )
    }

    #[inline(always)]
    fn encode_front(src: &Measured, dst: &mut [u8]) -> Option<usize> {
        encode_front_members_4::<NonZeroU32, Duration, f64, Vec<f32>>(
            &src.by,
            &src.behind,
            &src.degrees,
            &src.places,
            dst,
        )
    }

    ghost write_laws = { write_laws_by (λ x. (x.by, x.behind, x.degrees, x.places)) ⟦<MeasuredFields as SchemaWrite>⟧.write_laws };
}

impl<L: Lending> SchemaRead<L> for Measured {
    type Dst = Measured;

    ghost Value = { ⟦<MeasuredFields as SchemaRead<L>>⟧.Value };

    ghost model = { λ x. ⟦<MeasuredFields as SchemaRead<L>>⟧.model (x.by, x.behind, x.degrees, x.places) };

    ghost is_valid = { ⟦<MeasuredFields as SchemaRead<L>>⟧.is_valid };

    ghost reading = { ⟦<MeasuredFields as SchemaRead<L>>⟧.reading };

    fn type_meta() -> TypeMeta {
        <MeasuredFields as SchemaRead<L>>::type_meta()
    }

    fn prealloc_size() -> usize {
        <MeasuredFields as SchemaRead<L>>::prealloc_size()
    }

    fn read<R: Reader<L>>(
        alloc: Global,
        reader: &mut R,
        dst: &mut Option<Measured>,
    ) -> ReadResult<()> {
        match <MeasuredFields as SchemaGet<L>>::get(alloc, reader) {
            Ok(parts) => {
                let (by, behind, degrees, places) = parts;
                *dst = Some(Measured {
                    by,
                    behind,
                    degrees,
                    places,
                });
                Ok(())
            }
            Err(error) => Err(error),
        }
    }

    ghost read_laws = { ⟦<MeasuredFields as Lawful<L>>⟧.read_laws };
}

impl<L: Lending> Lawful<L> for Measured {
    type Dst = Measured;

    ghost Value = { ⟦<MeasuredFields as Lawful<L>>⟧.Value };

    ghost model = { λ x. ⟦<MeasuredFields as Lawful<L>>⟧.model (x.by, x.behind, x.degrees, x.places) };

    ghost is_valid = { ⟦<MeasuredFields as Lawful<L>>⟧.is_valid };

    ghost reading = { ⟦<MeasuredFields as Lawful<L>>⟧.reading };

    ghost read_laws = { ⟦<MeasuredFields as Lawful<L>>⟧.read_laws };
}

impl<L: Lending> RoundTrip<L> for Measured
where
    MeasuredFields: RoundTrip<L>,
{
    ghost reads_back = { reads_back_by (λ x. (x.by, x.behind, x.degrees, x.places)) bound-5.reads_back };
}

impl<L: Lending> OneText<L> for Measured
where
    MeasuredFields: FieldsOneText<L>,
{
    ghost one_text = { bound-5.fields_one_text };
}

impl<L: Lending> SchemaReadOwned<L> for Measured
where
    MeasuredFields: FieldsReadOwned<L>,
{
    ghost owned = { bound-5.fields_owned };
}

type AnswerCases = OneOf<<Answer as EnumShape>::Tag, <Answer as EnumShape>::Cases>;

impl EnumParts for Answer {
    type Src = Answer;

    type Parts = Result<Arc<Measured>, Result<SocketAddr, Range<u64>>>;

    ghost parts = { elim [ Answer-Told a ↦ Ok a | Answer-Elsewhere a ↦ Err (Ok a) | Answer-Between a ↦ Err (Err a) ] };

    fn make(made_of: Self::Parts) -> Answer {
        match made_of {
            Ok(a) => Answer::Told(a),
            Err(rest) => match rest {
                Ok(a) => Answer::Elsewhere(a),
                Err(a) => Answer::Between(a),
            },
        }
    }
}

impl EnumShape for Answer {
    type Tag = u32;

    type Cases = Case<0, Arc<Measured>, Case<1, SocketAddr, Last<2, Range<u64>>>>;

    fn tag(src: &Answer) -> usize {
        match src {
            Answer::Told(_) => 0,
            Answer::Elsewhere(_) => 1,
            Answer::Between(_) => 2,
        }
    }

    fn part_size(src: &Answer) -> WriteResult<usize> {
        match src {
            Answer::Told(a) => <Arc<Measured> as SchemaWrite>::size_of(a),
            Answer::Elsewhere(a) => <SocketAddr as SchemaWrite>::size_of(a),
            Answer::Between(a) => <Range<u64> as SchemaWrite>::size_of(a),
        }
    }

    fn write_part<W: Writer>(writer: &mut W, src: &Answer) -> WriteResult<()> {
        match src {
            Answer::Told(a) => <Arc<Measured> as SchemaWrite>::write::<W>(writer, a),
            Answer::Elsewhere(a) => <SocketAddr as SchemaWrite>::write::<W>(writer, a),
            Answer::Between(a) => <Range<u64> as SchemaWrite>::write::<W>(writer, a),
        }
    }

    fn encode_part(src: &Answer, dst: &mut [u8]) -> Option<usize> {
        match src {
            Answer::Told(a) => <Arc<Measured> as SchemaWrite>::encode_front(a, dst),
            Answer::Elsewhere(a) => <SocketAddr as SchemaWrite>::encode_front(a, dst),
            Answer::Between(a) => <Range<u64> as SchemaWrite>::encode_front(a, dst),
        }
    }
}

impl SchemaWrite for Answer {
    type Src = Answer;

    ghost Value = { ⟦<AnswerCases as SchemaWrite>⟧.Value };

    ghost model = { λ x. ⟦<AnswerCases as SchemaWrite>⟧.model (⟦<Answer as EnumParts>⟧.parts x) };

    ghost is_valid = { λ x. ⟦<AnswerCases as SchemaWrite>⟧.is_valid (⟦<Answer as EnumParts>⟧.parts x) };

    ghost writing = { ⟦<AnswerCases as SchemaWrite>⟧.writing };

    fn type_meta() -> TypeMeta {
        <AnswerCases as SchemaWrite>::type_meta()
    }

    fn size_of(src: &Answer) -> WriteResult<usize> {
        size_of_enum::<Answer>(src)
    }

    fn write<W: Writer>(writer: &mut W, src: &Answer) -> WriteResult<()> {
        write_enum::<Answer, W>(writer, src)
    }

    #[inline(always)]
    fn encode_front(src: &Answer, dst: &mut [u8]) -> Option<usize> {
        encode_enum::<Answer>(src, dst)
    }

    ghost write_laws = { write_laws_by ⟦<Answer as EnumParts>⟧.parts ⟦<AnswerCases as SchemaWrite>⟧.write_laws };
}

impl<L: Lending> SchemaRead<L> for Answer {
    type Dst = Answer;

    ghost Value = { ⟦<AnswerCases as SchemaRead<L>>⟧.Value };

    ghost model = { λ x. ⟦<AnswerCases as SchemaRead<L>>⟧.model (⟦<Answer as EnumParts>⟧.parts x) };

    ghost is_valid = { ⟦<AnswerCases as SchemaRead<L>>⟧.is_valid };

    ghost reading = { ⟦<AnswerCases as SchemaRead<L>>⟧.reading };

    fn type_meta() -> TypeMeta {
        <AnswerCases as SchemaRead<L>>::type_meta()
    }

    fn prealloc_size() -> usize {
        <AnswerCases as SchemaRead<L>>::prealloc_size()
    }

    fn read<R: Reader<L>>(
        alloc: Global,
        reader: &mut R,
        dst: &mut Option<Answer>,
    ) -> ReadResult<()> {
        read_enum::<L, AnswerCases, Answer, R>(alloc, reader, dst)
    }

    ghost read_laws = { ⟦<AnswerCases as Lawful<L>>⟧.read_laws };
}

impl<L: Lending> Lawful<L> for Answer {
    type Dst = Answer;

    ghost Value = { ⟦<AnswerCases as Lawful<L>>⟧.Value };

    ghost model = { λ x. ⟦<AnswerCases as Lawful<L>>⟧.model (⟦<Answer as EnumParts>⟧.parts x) };

    ghost is_valid = { ⟦<AnswerCases as Lawful<L>>⟧.is_valid };

    ghost reading = { ⟦<AnswerCases as Lawful<L>>⟧.reading };

    ghost read_laws = { ⟦<AnswerCases as Lawful<L>>⟧.read_laws };
}

impl<L: Lending> RoundTrip<L> for Answer
where
    AnswerCases: RoundTrip<L>,
{
    ghost reads_back = { reads_back_by ⟦<Answer as EnumParts>⟧.parts bound-5.reads_back };
}

impl<L: Lending> OneText<L> for Answer
where
    AnswerCases: FieldsOneText<L>,
{
    ghost one_text = { bound-5.fields_one_text };
}

impl<L: Lending> SchemaReadOwned<L> for Answer
where
    AnswerCases: FieldsReadOwned<L>,
{
    ghost owned = { bound-5.fields_owned };
}

type PlaceFields = (NonZeroU32, Ipv4Addr, Ipv6Addr);

impl SchemaWrite for Place {
    type Src = Place;

    ghost Value = { ⟦<PlaceFields as SchemaWrite>⟧.Value };

    ghost model = { λ x. ⟦<PlaceFields as SchemaWrite>⟧.model (x.by, x.at, x.behind) };

    ghost is_valid = { λ x. ⟦<PlaceFields as SchemaWrite>⟧.is_valid (x.by, x.at, x.behind) };

    ghost writing = { ⟦<PlaceFields as SchemaWrite>⟧.writing };

    fn type_meta() -> TypeMeta {
        <PlaceFields as SchemaWrite>::type_meta()
    }

    fn size_of(src: &Place) -> WriteResult<usize> {
        size_of_members_3::<NonZeroU32, Ipv4Addr, Ipv6Addr>(&src.by, &src.at, &src.behind)
    }

    fn write<W: Writer>(writer: &mut W, src: &Place) -> WriteResult<()> {
        write_members_3::<NonZeroU32, Ipv4Addr, Ipv6Addr, W>(writer, &src.by, &src.at, &src.behind)
    }

    #[inline(always)]
    fn encode_front(src: &Place, dst: &mut [u8]) -> Option<usize> {
        encode_front_members_3::<NonZeroU32, Ipv4Addr, Ipv6Addr>(&src.by, &src.at, &src.behind, dst)
    }

    ghost write_laws = { write_laws_by (λ x. (x.by, x.at, x.behind)) ⟦<PlaceFields as SchemaWrite>⟧.write_laws };
}

impl<L: Lending> SchemaRead<L> for Place {
    type Dst = Place;

    ghost Value = { ⟦<PlaceFields as SchemaRead<L>>⟧.Value };

    ghost model = { λ x. ⟦<PlaceFields as SchemaRead<L>>⟧.model (x.by, x.at, x.behind) };

    ghost is_valid = { ⟦<PlaceFields as SchemaRead<L>>⟧.is_valid };

    ghost reading = { ⟦<PlaceFields as SchemaRead<L>>⟧.reading };

    fn type_meta() -> TypeMeta {
        <PlaceFields as SchemaRead<L>>::type_meta()
    }

    fn prealloc_size() -> usize {
        <PlaceFields as SchemaRead<L>>::prealloc_size()
    }

    fn read<R: Reader<L>>(
        alloc: Global,
        reader: &mut R,
        dst: &mut Option<Place>,
    ) -> ReadResult<()> {
        match <PlaceFields as SchemaGet<L>>::get(alloc, reader) {
            Ok(parts) => {
                let (by, at, behind) = parts;
                *dst = Some(Place { by, at, behind });
                Ok(())
            }
            Err(error) => Err(error),
        }
    }

    #[inline(always)]
    fn blank() -> Option<Place> {
        let (by, at, behind) = <PlaceFields as SchemaRead<L>>::blank()?;
        Some(Place { by, at, behind })
    }

    #[inline(always)]
    fn decode(bytes: &[u8], place: &mut Place) -> bool {
        let Some(mut parts) = <PlaceFields as SchemaRead<L>>::blank() else {
            return false;
        };
        if !<PlaceFields as SchemaRead<L>>::decode(bytes, &mut parts) {
            return false;
        }
        let (by, at, behind) = parts;
        *place = Place { by, at, behind };
        true
    }

    ghost read_laws = { ⟦<PlaceFields as Lawful<L>>⟧.read_laws };
}

impl<L: Lending> Lawful<L> for Place {
    type Dst = Place;

    ghost Value = { ⟦<PlaceFields as Lawful<L>>⟧.Value };

    ghost model = { λ x. ⟦<PlaceFields as Lawful<L>>⟧.model (x.by, x.at, x.behind) };

    ghost is_valid = { ⟦<PlaceFields as Lawful<L>>⟧.is_valid };

    ghost reading = { ⟦<PlaceFields as Lawful<L>>⟧.reading };

    ghost read_laws = { ⟦<PlaceFields as Lawful<L>>⟧.read_laws };
}

impl<L: Lending> RoundTrip<L> for Place
where
    PlaceFields: RoundTrip<L>,
{
    ghost reads_back = { reads_back_by (λ x. (x.by, x.at, x.behind)) bound-5.reads_back };
}

impl<L: Lending> OneText<L> for Place
where
    PlaceFields: FieldsOneText<L>,
{
    ghost one_text = { bound-5.fields_one_text };
}

impl<L: Lending> SchemaReadOwned<L> for Place
where
    PlaceFields: FieldsReadOwned<L>,
{
    ghost owned = { bound-5.fields_owned };
}

type PlacePairs = (NonZeroU32, (Ipv4Addr, Ipv6Addr));

impl<L: Lending> Key<L> for Place {
    ghost alike = { ⟦<Place as LawfulKey<L>>⟧.alike };
}

impl<L: Lending> LawfulKey<L> for Place {
    type Dst = Place;

    ghost Value = { ⟦<PlaceFields as Lawful<L>>⟧.Value };

    ghost model = { λ x. ⟦<PlaceFields as Lawful<L>>⟧.model (x.by, x.at, x.behind) };

    ghost is_valid = { ⟦<PlaceFields as Lawful<L>>⟧.is_valid };

    ghost reading = { ⟦<PlaceFields as Lawful<L>>⟧.reading };

    ghost read_laws = { ⟦<PlaceFields as Lawful<L>>⟧.read_laws };

    ghost equal = { ⟦<Place as PartialEq>⟧.eq };

    ghost equivalence = { Place-eq-laws.laws-law };

    ghost alike = { λ x y. ⟦<PlacePairs as LawfulKey<L>>⟧.alike (x.by, (x.at, x.behind)) (y.by, (y.at, y.behind)) };

    ghost order = { ⟦<Place as Ord>⟧.cmp };

    ghost order_total = { Place-ord-laws.total-law };

    ghost order_ties = { Place-ord-laws.matches_eq-law };
}

type CountsFields<T> = (CString, Wrapping<T>, Bound<T>, Range<T>);

impl<T: SchemaWrite> SchemaWrite for Counts<T> {
    type Src = Counts<T::Src>;

    ghost Value = { ⟦<CountsFields<T> as SchemaWrite>⟧.Value };

    ghost model = { λ x. ⟦<CountsFields<T> as SchemaWrite>⟧.model (x.name, x.sum, x.from, x.between) };

    ghost is_valid = { λ x. ⟦<CountsFields<T> as SchemaWrite>⟧.is_valid (x.name, x.sum, x.from, x.between) };

    ghost writing = { ⟦<CountsFields<T> as SchemaWrite>⟧.writing };

    fn type_meta() -> TypeMeta {
        <CountsFields<T> as SchemaWrite>::type_meta()
    }

    fn size_of(src: &Counts<T::Src>) -> WriteResult<usize> {
        size_of_members_4::<CString, Wrapping<T>, Bound<T>, Range<T>>(
            &src.name,
            &src.sum,
            &src.from,
            &src.between,
        )
    }

    fn write<W: Writer>(writer: &mut W, src: &Counts<T::Src>) -> WriteResult<()> {
        write_members_4::<CString, Wrapping<T>, Bound<T>, Range<T>, W>(
            writer,
            &src.name,
            &src.sum,
            &src.from,
            &src.between,
        )
    }

    #[inline(always)]
    fn encode_front(src: &Counts<T::Src>, dst: &mut [u8]) -> Option<usize> {
        encode_front_members_4::<CString, Wrapping<T>, Bound<T>, Range<T>>(
            &src.name,
            &src.sum,
            &src.from,
            &src.between,
            dst,
        )
    }

    ghost write_laws = { write_laws_by (λ x. (x.name, x.sum, x.from, x.between)) ⟦<CountsFields<T> as SchemaWrite>⟧.write_laws };
}

impl<L: Lending, T: SchemaRead<L>> SchemaRead<L> for Counts<T> {
    type Dst = Counts<T::Dst>;

    ghost Value = { ⟦<CountsFields<T> as SchemaRead<L>>⟧.Value };

    ghost model = { λ x. ⟦<CountsFields<T> as SchemaRead<L>>⟧.model (x.name, x.sum, x.from, x.between) };

    ghost is_valid = { ⟦<CountsFields<T> as SchemaRead<L>>⟧.is_valid };

    ghost reading = { ⟦<CountsFields<T> as SchemaRead<L>>⟧.reading };

    fn type_meta() -> TypeMeta {
        <CountsFields<T> as SchemaRead<L>>::type_meta()
    }

    fn prealloc_size() -> usize {
        <CountsFields<T> as SchemaRead<L>>::prealloc_size()
    }

    fn read<R: Reader<L>>(
        alloc: Global,
        reader: &mut R,
        dst: &mut Option<Counts<T::Dst>>,
    ) -> ReadResult<()> {
        match <CountsFields<T> as SchemaGet<L>>::get(alloc, reader) {
            Ok(parts) => {
                let (name, sum, from, between) = parts;
                *dst = Some(Counts {
                    name,
                    sum,
                    from,
                    between,
                });
                Ok(())
            }
            Err(error) => Err(error),
        }
    }

    ghost read_laws = { (windowed_read_laws (pair_read_laws ⟦<CString as Lawful<L>>⟧.read_laws
        (pair_read_laws (same_laws T.read_laws)
        (pair_read_laws (bound_laws T.read_laws)
        (range_laws T.read_laws))))) };
}

impl<L: Lending, T: Lawful<L>> Lawful<L> for Counts<T> {
    type Dst = Counts<T::Dst>;

    ghost Value = { ⟦<CountsFields<T> as Lawful<L>>⟧.Value };

    ghost model = { λ x. ⟦<CountsFields<T> as Lawful<L>>⟧.model (x.name, x.sum, x.from, x.between) };

    ghost is_valid = { ⟦<CountsFields<T> as Lawful<L>>⟧.is_valid };

    ghost reading = { ⟦<CountsFields<T> as Lawful<L>>⟧.reading };

    ghost read_laws = { ⟦<CountsFields<T> as Lawful<L>>⟧.read_laws };
}

impl<L: Lending, T: SchemaWrite + SchemaRead<L, Dst = T::Src>> RoundTrip<L> for Counts<T>
where
    T::Src: Drop,
    CountsFields<T>: RoundTrip<L, Src = (CString, Wrapping<T::Src>, Bound<T::Src>, Range<T::Src>)>,
{
    ghost reads_back = { reads_back_by (λ x. (x.name, x.sum, x.from, x.between)) bound-7.reads_back };
}

impl<L: Lending, T: SchemaWrite + SchemaRead<L, Dst = T::Src>> OneText<L> for Counts<T>
where
    T::Src: Drop,
    CountsFields<T>: FieldsOneText<
        L,
        Src = (CString, Wrapping<T::Src>, Bound<T::Src>, Range<T::Src>),
    >,
{
    ghost one_text = { bound-7.fields_one_text };
}

impl<L: Lending, T: SchemaWrite + SchemaRead<L, Dst = T::Src>> SchemaReadOwned<L> for Counts<T>
where
    T::Src: Drop,
    CountsFields<T>: FieldsReadOwned<
        L,
        Src = (CString, Wrapping<T::Src>, Bound<T::Src>, Range<T::Src>),
    >,
{
    ghost owned = { bound-7.fields_owned };
}

type SumsFields = (
    BTreeMap<Place, u64>,
    containers::ArcSlice<u16, BincodeLen<4194304>>,
);

impl SchemaWrite for Sums {
    type Src = Sums;

    ghost Value = { ⟦<SumsFields as SchemaWrite>⟧.Value };

    ghost model = { λ x. ⟦<SumsFields as SchemaWrite>⟧.model (x.of, x.shared) };

    ghost is_valid = { λ x. ⟦<SumsFields as SchemaWrite>⟧.is_valid (x.of, x.shared) };

    ghost writing = { ⟦<SumsFields as SchemaWrite>⟧.writing };

    fn type_meta() -> TypeMeta {
        <SumsFields as SchemaWrite>::type_meta()
    }

    fn size_of(src: &Sums) -> WriteResult<usize> {
        size_of_members_2::<BTreeMap<Place, u64>, containers::ArcSlice<u16, BincodeLen<4194304>>>(
            &src.of,
            &src.shared,
        )
    }

    fn write<W: Writer>(writer: &mut W, src: &Sums) -> WriteResult<()> {
        write_members_2::<BTreeMap<Place, u64>, containers::ArcSlice<u16, BincodeLen<4194304>>, W>(
            writer,
            &src.of,
            &src.shared,
        )
    }

    #[inline(always)]
    fn encode_front(src: &Sums, dst: &mut [u8]) -> Option<usize> {
        encode_front_members_2::<
            BTreeMap<Place, u64>,
            containers::ArcSlice<u16, BincodeLen<4194304>>,
        >(&src.of, &src.shared, dst)
    }

    ghost write_laws = { write_laws_by (λ x. (x.of, x.shared)) ⟦<SumsFields as SchemaWrite>⟧.write_laws };
}

impl<L: Lending> SchemaRead<L> for Sums {
    type Dst = Sums;

    ghost Value = { ⟦<SumsFields as SchemaRead<L>>⟧.Value };

    ghost model = { λ x. ⟦<SumsFields as SchemaRead<L>>⟧.model (x.of, x.shared) };

    ghost is_valid = { ⟦<SumsFields as SchemaRead<L>>⟧.is_valid };

    ghost reading = { ⟦<SumsFields as SchemaRead<L>>⟧.reading };

    fn type_meta() -> TypeMeta {
        <SumsFields as SchemaRead<L>>::type_meta()
    }

    fn prealloc_size() -> usize {
        <SumsFields as SchemaRead<L>>::prealloc_size()
    }

    fn read<R: Reader<L>>(alloc: Global, reader: &mut R, dst: &mut Option<Sums>) -> ReadResult<()> {
        match <SumsFields as SchemaGet<L>>::get(alloc, reader) {
            Ok(parts) => {
                let (of, shared) = parts;
                *dst = Some(Sums { of, shared });
                Ok(())
            }
            Err(error) => Err(error),
        }
    }

    ghost read_laws = { ⟦<SumsFields as Lawful<L>>⟧.read_laws };
}

impl<L: Lending> Lawful<L> for Sums {
    type Dst = Sums;

    ghost Value = { ⟦<SumsFields as Lawful<L>>⟧.Value };

    ghost model = { λ x. ⟦<SumsFields as Lawful<L>>⟧.model (x.of, x.shared) };

    ghost is_valid = { ⟦<SumsFields as Lawful<L>>⟧.is_valid };

    ghost reading = { ⟦<SumsFields as Lawful<L>>⟧.reading };

    ghost read_laws = { ⟦<SumsFields as Lawful<L>>⟧.read_laws };
}

impl<L: Lending> RoundTrip<L> for Sums
where
    SumsFields: RoundTrip<L>,
{
    ghost reads_back = { reads_back_by (λ x. (x.of, x.shared)) bound-5.reads_back };
}

impl<L: Lending> OneText<L> for Sums
where
    SumsFields: FieldsOneText<L>,
{
    ghost one_text = { bound-5.fields_one_text };
}

impl<L: Lending> SchemaReadOwned<L> for Sums
where
    SumsFields: FieldsReadOwned<L>,
{
    ghost owned = { bound-5.fields_owned };
}

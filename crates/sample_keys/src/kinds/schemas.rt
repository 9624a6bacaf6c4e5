//! Written by `wincode_derive`: the schemas of what the module above declares.
ghost use Rattle.std.specs.Prelude.{Ok, Err, refl};
ghost use Rattle.wincode_base.specs.PairLaws.{write_laws_by, reads_back_by};
ghost use Rattle.wincode_derive_support.specs.Keys.{ok_same, err_same, ok_not_err, err_not_ok};
ghost use Rattle.sample_keys.specs.contracts.kinds.KindEq.TheImpl.Laws as Kind-eq-laws;
ghost use Rattle.sample_keys.specs.contracts.kinds.KindOrd.TheImpl.Laws as Kind-ord-laws;
ghost use Rattle.sample_keys.specs.declared.kinds.Kind.TheVariants.{Plain as Kind-Plain, Written as Kind-Written, Placed as Kind-Placed};

use super::*;
use std::alloc::Global;
use wincode::io::{Lending, Reader, Writer};
use wincode::schema::tuples::{
    encode_front_members_3, encode_front_members_5, size_of_members_3, size_of_members_5,
    write_members_3, write_members_5,
};
use wincode::{
    Key, OneText, ReadResult, RoundTrip, SchemaGet, SchemaRead, SchemaReadOwned, SchemaWrite,
    TypeMeta, WriteResult,
};
use wincode_derive_support::enums::{
    EnumParts, EnumShape, encode_enum, read_enum, size_of_enum, write_enum,
};
use wincode_derive_support::keys::LawfulKey;
use wincode_derive_support::laws::{FieldsOneText, FieldsReadOwned, Lawful};
use wincode_derive_support::sums::{Case, Last, OneOf};

type KindCases = OneOf<<Kind as EnumShape>::Tag, <Kind as EnumShape>::Cases>;

impl EnumParts for Kind {
    type Src = Kind;

    type Parts = Result<(), Result<String, (i16, i16, bool)>>;

    ghost parts = { elim [ Kind-Plain ↦ Ok tt | Kind-Written a ↦ Err (Ok a) | Kind-Placed a b c ↦ Err (Err (a, b, c)) ] };

    fn make(made_of: Self::Parts) -> Kind {
        match made_of {
            Ok(()) => Kind::Plain,
            Err(rest) => match rest {
                Ok(a) => Kind::Written(a),
                Err((east, north, is_high)) => Kind::Placed {
                    east,
                    north,
                    is_high,
                },
            },
        }
    }
}

impl EnumShape for Kind {
    type Tag = u16;

    type Cases = Case<0, (), Case<1, String, Last<2, (i16, i16, bool)>>>;

    fn tag(src: &Kind) -> usize {
        match src {
            Kind::Plain => 0,
            Kind::Written(_) => 1,
            Kind::Placed { .. } => 2,
        }
    }

    fn part_size(src: &Kind) -> WriteResult<usize> {
        match src {
            Kind::Plain => <() as SchemaWrite>::size_of(&()),
            Kind::Written(a) => <String as SchemaWrite>::size_of(a),
            Kind::Placed {
                east,
                north,
                is_high,
            } => size_of_members_3::<i16, i16, bool>(east, north, is_high),
        }
    }

    fn write_part<W: Writer>(writer: &mut W, src: &Kind) -> WriteResult<()> {
        match src {
            Kind::Plain => <() as SchemaWrite>::write::<W>(writer, &()),
            Kind::Written(a) => <String as SchemaWrite>::write::<W>(writer, a),
            Kind::Placed {
                east,
                north,
                is_high,
            } => write_members_3::<i16, i16, bool, W>(writer, east, north, is_high),
        }
    }

    fn encode_part(src: &Kind, dst: &mut [u8]) -> Option<usize> {
        match src {
            Kind::Plain => <() as SchemaWrite>::encode_front(&(), dst),
            Kind::Written(a) => <String as SchemaWrite>::encode_front(a, dst),
            Kind::Placed {
                east,
                north,
                is_high,
            } => encode_front_members_3::<i16, i16, bool>(east, north, is_high, dst),
        }
    }
}

impl SchemaWrite for Kind {
    type Src = Kind;

    ghost Value = { ⟦<KindCases as SchemaWrite>⟧.Value };

    ghost model = { λ x. ⟦<KindCases as SchemaWrite>⟧.model (⟦<Kind as EnumParts>⟧.parts x) };

    ghost is_valid = { λ x. ⟦<KindCases as SchemaWrite>⟧.is_valid (⟦<Kind as EnumParts>⟧.parts x) };

    ghost writing = { ⟦<KindCases as SchemaWrite>⟧.writing };

    fn type_meta() -> TypeMeta {
        <KindCases as SchemaWrite>::type_meta()
    }

    fn size_of(src: &Kind) -> WriteResult<usize> {
        size_of_enum::<Kind>(src)
    }

    fn write<W: Writer>(writer: &mut W, src: &Kind) -> WriteResult<()> {
        write_enum::<Kind, W>(writer, src)
    }

    #[inline(always)]
    fn encode_front(src: &Kind, dst: &mut [u8]) -> Option<usize> {
        encode_enum::<Kind>(src, dst)
    }

    ghost write_laws = { write_laws_by ⟦<Kind as EnumParts>⟧.parts ⟦<KindCases as SchemaWrite>⟧.write_laws };
}

impl<L: Lending> SchemaRead<L> for Kind {
    type Dst = Kind;

    ghost Value = { ⟦<KindCases as SchemaRead<L>>⟧.Value };

    ghost model = { λ x. ⟦<KindCases as SchemaRead<L>>⟧.model (⟦<Kind as EnumParts>⟧.parts x) };

    ghost is_valid = { ⟦<KindCases as SchemaRead<L>>⟧.is_valid };

    ghost reading = { ⟦<KindCases as SchemaRead<L>>⟧.reading };

    fn type_meta() -> TypeMeta {
        <KindCases as SchemaRead<L>>::type_meta()
    }

    fn prealloc_size() -> usize {
        <KindCases as SchemaRead<L>>::prealloc_size()
    }

    fn read<R: Reader<L>>(alloc: Global, reader: &mut R, dst: &mut Option<Kind>) -> ReadResult<()> {
        read_enum::<L, KindCases, Kind, R>(alloc, reader, dst)
    }

    ghost read_laws = { ⟦<KindCases as Lawful<L>>⟧.read_laws };
}

impl<L: Lending> Lawful<L> for Kind {
    type Dst = Kind;

    ghost Value = { ⟦<KindCases as Lawful<L>>⟧.Value };

    ghost model = { λ x. ⟦<KindCases as Lawful<L>>⟧.model (⟦<Kind as EnumParts>⟧.parts x) };

    ghost is_valid = { ⟦<KindCases as Lawful<L>>⟧.is_valid };

    ghost reading = { ⟦<KindCases as Lawful<L>>⟧.reading };

    ghost read_laws = { ⟦<KindCases as Lawful<L>>⟧.read_laws };
}

impl<L: Lending> RoundTrip<L> for Kind
where
    KindCases: RoundTrip<L>,
{
    ghost reads_back = { reads_back_by ⟦<Kind as EnumParts>⟧.parts bound-5.reads_back };
}

impl<L: Lending> OneText<L> for Kind
where
    KindCases: FieldsOneText<L>,
{
    ghost one_text = { bound-5.fields_one_text };
}

impl<L: Lending> SchemaReadOwned<L> for Kind
where
    KindCases: FieldsReadOwned<L>,
{
    ghost owned = { bound-5.fields_owned };
}

impl<L: Lending> Key<L> for Kind {
    ghost alike = { ⟦<Kind as LawfulKey<L>>⟧.alike };
}

impl<L: Lending> LawfulKey<L> for Kind {
    type Dst = Kind;

    ghost Value = { ⟦<KindCases as Lawful<L>>⟧.Value };

    ghost model = { λ x. ⟦<KindCases as Lawful<L>>⟧.model (⟦<Kind as EnumParts>⟧.parts x) };

    ghost is_valid = { ⟦<KindCases as Lawful<L>>⟧.is_valid };

    ghost reading = { ⟦<KindCases as Lawful<L>>⟧.reading };

    ghost read_laws = { ⟦<KindCases as Lawful<L>>⟧.read_laws };

    ghost equal = { ⟦<Kind as PartialEq>⟧.eq };

    ghost equivalence = { Kind-eq-laws.laws-law };

    ghost alike = { elim [
      | Kind-Plain ↦ elim [ Kind-Plain ↦ λ e. refl | Kind-Written a' ↦ λ e. ok_not_err e | Kind-Placed a' b' c' ↦ λ e. ok_not_err e ]
      | Kind-Written a ↦ elim [
        | Kind-Plain ↦ λ e. err_not_ok e
        | Kind-Written a' ↦ λ e. ⟦<String as LawfulKey<L>>⟧.alike a a' (ok_same (err_same e))
        | Kind-Placed a' b' c' ↦ λ e. ok_not_err (err_same e)
      ]
      | Kind-Placed a b c ↦ elim [
        | Kind-Plain ↦ λ e. err_not_ok e
        | Kind-Written a' ↦ λ e. err_not_ok (err_same e)
        | Kind-Placed a' b' c' ↦ λ e. ⟦<(i16, (i16, bool)) as LawfulKey<L>>⟧.alike (a, (b, c)) (a', (b', c')) (err_same (err_same e))
      ]
    ] };

    ghost order = { ⟦<Kind as Ord>⟧.cmp };

    ghost order_total = { Kind-ord-laws.total-law };

    ghost order_ties = { Kind-ord-laws.matches_eq-law };
}

type TallyFields = (
    BTreeMap<Kind, u64>,
    HashMap<Mark, u32>,
    BTreeSet<Range>,
    HashSet<String>,
    BinaryHeap<u32>,
);

impl SchemaWrite for Tally {
    type Src = Tally;

    ghost Value = { ⟦<TallyFields as SchemaWrite>⟧.Value };

    ghost model = { λ x. ⟦<TallyFields as SchemaWrite>⟧.model (x.by_kind, x.by_mark, x.ranges, x.words, x.waiting) };

    ghost is_valid = { λ x. ⟦<TallyFields as SchemaWrite>⟧.is_valid (x.by_kind, x.by_mark, x.ranges, x.words, x.waiting) };

    ghost writing = { ⟦<TallyFields as SchemaWrite>⟧.writing };

    fn type_meta() -> TypeMeta {
        <TallyFields as SchemaWrite>::type_meta()
    }

    fn size_of(src: &Tally) -> WriteResult<usize> {
        size_of_members_5::<
            BTreeMap<Kind, u64>,
            HashMap<Mark, u32>,
            BTreeSet<Range>,
            HashSet<String>,
            BinaryHeap<u32>,
        >(
            &src.by_kind,
            &src.by_mark,
            &src.ranges,
            &src.words,
            &src.waiting,
        )
    }

    fn write<W: Writer>(writer: &mut W, src: &Tally) -> WriteResult<()> {
        write_members_5::<
            BTreeMap<Kind, u64>,
            HashMap<Mark, u32>,
            BTreeSet<Range>,
            HashSet<String>,
            BinaryHeap<u32>,
            W,
        >(
            writer,
            &src.by_kind,
            &src.by_mark,
            &src.ranges,
            &src.words,
            &src.waiting,
        )
    }

    #[inline(always)]
    fn encode_front(src: &Tally, dst: &mut [u8]) -> Option<usize> {
        encode_front_members_5::<
            BTreeMap<Kind, u64>,
            HashMap<Mark, u32>,
            BTreeSet<Range>,
            HashSet<String>,
            BinaryHeap<u32>,
        >(
            &src.by_kind,
            &src.by_mark,
            &src.ranges,
            &src.words,
            &src.waiting,
            dst,
        )
    }

    ghost write_laws = { write_laws_by (λ x. (x.by_kind, x.by_mark, x.ranges, x.words, x.waiting)) ⟦<TallyFields as SchemaWrite>⟧.write_laws };
}

impl<L: Lending> SchemaRead<L> for Tally {
    type Dst = Tally;

    ghost Value = { ⟦<TallyFields as SchemaRead<L>>⟧.Value };

    ghost model = { λ x. ⟦<TallyFields as SchemaRead<L>>⟧.model (x.by_kind, x.by_mark, x.ranges, x.words, x.waiting) };

    ghost is_valid = { ⟦<TallyFields as SchemaRead<L>>⟧.is_valid };

    ghost reading = { ⟦<TallyFields as SchemaRead<L>>⟧.reading };

    fn type_meta() -> TypeMeta {
        <TallyFields as SchemaRead<L>>::type_meta()
    }

    fn prealloc_size() -> usize {
        <TallyFields as SchemaRead<L>>::prealloc_size()
    }

    fn read<R: Reader<L>>(
        alloc: Global,
        reader: &mut R,
        dst: &mut Option<Tally>,
    ) -> ReadResult<()> {
        match <TallyFields as SchemaGet<L>>::get(alloc, reader) {
            Ok(parts) => {
                let (by_kind, by_mark, ranges, words, waiting) = parts;
                *dst = Some(Tally {
                    by_kind,
                    by_mark,
                    ranges,
                    words,
                    waiting,
                });
                Ok(())
            }
            Err(error) => Err(error),
        }
    }

    ghost read_laws = { ⟦<TallyFields as Lawful<L>>⟧.read_laws };
}

impl<L: Lending> Lawful<L> for Tally {
    type Dst = Tally;

    ghost Value = { ⟦<TallyFields as Lawful<L>>⟧.Value };

    ghost model = { λ x. ⟦<TallyFields as Lawful<L>>⟧.model (x.by_kind, x.by_mark, x.ranges, x.words, x.waiting) };

    ghost is_valid = { ⟦<TallyFields as Lawful<L>>⟧.is_valid };

    ghost reading = { ⟦<TallyFields as Lawful<L>>⟧.reading };

    ghost read_laws = { ⟦<TallyFields as Lawful<L>>⟧.read_laws };
}

impl<L: Lending> RoundTrip<L> for Tally
where
    TallyFields: RoundTrip<L>,
{
    ghost reads_back = { reads_back_by (λ x. (x.by_kind, x.by_mark, x.ranges, x.words, x.waiting)) bound-5.reads_back };
}

impl<L: Lending> OneText<L> for Tally
where
    TallyFields: FieldsOneText<L>,
{
    ghost one_text = { bound-5.fields_one_text };
}

impl<L: Lending> SchemaReadOwned<L> for Tally
where
    TallyFields: FieldsReadOwned<L>,
{
    ghost owned = { bound-5.fields_owned };
}

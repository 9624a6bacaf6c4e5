//! Written by `wincode_derive`: the schemas of what the module above declares.
ghost use Rattle.std.specs.Prelude.{◌≡◌, Ok, Err};
ghost use Rattle.wincode_base.specs.PairLaws.{write_laws_by, reads_back_by, pair_read_laws, windowed_read_laws};
ghost use Rattle.wincode_derive_support.specs.PartLaws.{option_laws, vec_laws};
ghost use Rattle.wincode_derive_support.specs.SumLaws.{enum_read_laws, case_laws, last_case_laws};
ghost use Rattle.wincode_derive_support.specs.SplitLaws.{split_laws};
ghost use Rattle.sample_types.specs.declared.answers.Answer.TheVariants.{
  Nothing as Answer-Nothing,
  One as Answer-One,
  Late as Answer-Late,
  Busy as Answer-Busy,
  Refused as Answer-Refused,
  Many as Answer-Many,
  Closed as Answer-Closed,
  Moved as Answer-Moved,
  Ended as Answer-Ended,
};

use super::*;
use std::alloc::Global;
use std::marker::PhantomData;
use wincode::io::{Lending, Reader, Writer};
use wincode::schema::tuples::{encode_front_members_2, size_of_members_2, write_members_2};
use wincode::{
    OneText, ReadResult, RoundTrip, SchemaRead, SchemaReadOwned, SchemaWrite, TypeMeta, WriteResult,
};
use wincode_derive_support::enums::{
    EnumParts, EnumShape, encode_enum, read_enum, size_of_enum, write_enum,
};
use wincode_derive_support::laws::{FieldsOneText, FieldsReadOwned, Lawful, LawfulCases};
use wincode_derive_support::splits::{PartOneText, PartReadOwned, Split};
use wincode_derive_support::sums::{
    Case, CasesOneText, CasesRead, CasesReadOwned, CasesRoundTrip, CasesWrite, Last, OneOf,
};

/// The cases from the 1st on, by their tags.
pub struct AnswerFrom1<T>(PhantomData<T>);

type AnswerFrom1Cases<T> = Case<
    0,
    (),
    Case<1, T, Case<2, (u32, Option<T>), Case<3, (), Last<4, String>>>>,
>;

impl<T: SchemaWrite> CasesWrite for AnswerFrom1<T>
where
    T::Src: Drop,
{
    type Src = Result<(), Result<T::Src, Result<(u32, Option<T::Src>), Result<(), String>>>>;

    ghost Value = { ⟦<AnswerFrom1Cases<T> as CasesWrite>⟧.Value };

    ghost model = { ⟦<AnswerFrom1Cases<T> as CasesWrite>⟧.model };

    ghost is_valid = { ⟦<AnswerFrom1Cases<T> as CasesWrite>⟧.is_valid };

    ghost tag = { ⟦<AnswerFrom1Cases<T> as CasesWrite>⟧.tag };

    ghost own = { ⟦<AnswerFrom1Cases<T> as CasesWrite>⟧.own };

    ghost part = { ⟦<AnswerFrom1Cases<T> as CasesWrite>⟧.part };

    ghost part_laws = { ⟦<AnswerFrom1Cases<T> as CasesWrite>⟧.part_laws };

    ghost answer = { ⟦<AnswerFrom1Cases<T> as CasesWrite>⟧.answer };

    ghost answers = { ⟦<AnswerFrom1Cases<T> as CasesWrite>⟧.answers };

    fn part_meta() -> TypeMeta {
        <AnswerFrom1Cases<T> as CasesWrite>::part_meta()
    }

    fn tag_of(src: &Self::Src) -> WriteResult<usize> {
        <AnswerFrom1Cases<T> as CasesWrite>::tag_of(src)
    }

    fn part_size(src: &Self::Src) -> WriteResult<usize> {
        <AnswerFrom1Cases<T> as CasesWrite>::part_size(src)
    }

    fn write_part<W: Writer>(writer: &mut W, src: &Self::Src) -> WriteResult<()> {
        <AnswerFrom1Cases<T> as CasesWrite>::write_part::<W>(writer, src)
    }
}

impl<L: Lending, T: SchemaRead<L>> CasesRead<L> for AnswerFrom1<T> {
    type Dst = Result<(), Result<T::Dst, Result<(u32, Option<T::Dst>), Result<(), String>>>>;

    ghost Value = { ⟦<AnswerFrom1Cases<T> as CasesRead<L>>⟧.Value };

    ghost model = { ⟦<AnswerFrom1Cases<T> as CasesRead<L>>⟧.model };

    ghost is_valid = { ⟦<AnswerFrom1Cases<T> as CasesRead<L>>⟧.is_valid };

    ghost tag = { ⟦<AnswerFrom1Cases<T> as CasesRead<L>>⟧.tag };

    ghost own = { ⟦<AnswerFrom1Cases<T> as CasesRead<L>>⟧.own };

    ghost part = { ⟦<AnswerFrom1Cases<T> as CasesRead<L>>⟧.part };

    ghost refused = { ⟦<AnswerFrom1Cases<T> as CasesRead<L>>⟧.refused };

    fn part_meta() -> TypeMeta {
        <AnswerFrom1Cases<T> as CasesRead<L>>::part_meta()
    }

    fn prealloc_size() -> usize {
        <AnswerFrom1Cases<T> as CasesRead<L>>::prealloc_size()
    }

    fn get_case<R: Reader<L>>(
        alloc: Global,
        reader: &mut R,
        given: usize,
    ) -> ReadResult<Self::Dst> {
        <AnswerFrom1Cases<T> as CasesRead<L>>::get_case::<R>(alloc, reader, given)
    }

    ghost case_laws = { (case_laws 0 ⟦<() as Lawful<L>>⟧.read_laws
        (case_laws 1 T.read_laws
        (case_laws 2 (windowed_read_laws (pair_read_laws ⟦<u32 as Lawful<L>>⟧.read_laws (option_laws T.read_laws)))
        (case_laws 3 ⟦<() as Lawful<L>>⟧.read_laws
        (last_case_laws 4 ⟦<String as Lawful<L>>⟧.read_laws))))) };
}

impl<L: Lending, T: Lawful<L>> LawfulCases<L> for AnswerFrom1<T>
where
    T::Dst: Drop,
{
    type Dst = Result<(), Result<T::Dst, Result<(u32, Option<T::Dst>), Result<(), String>>>>;

    ghost Value = { ⟦<AnswerFrom1Cases<T> as LawfulCases<L>>⟧.Value };

    ghost model = { ⟦<AnswerFrom1Cases<T> as LawfulCases<L>>⟧.model };

    ghost is_valid = { ⟦<AnswerFrom1Cases<T> as LawfulCases<L>>⟧.is_valid };

    ghost tag = { ⟦<AnswerFrom1Cases<T> as LawfulCases<L>>⟧.tag };

    ghost own = { ⟦<AnswerFrom1Cases<T> as LawfulCases<L>>⟧.own };

    ghost part = { ⟦<AnswerFrom1Cases<T> as LawfulCases<L>>⟧.part };

    ghost refused = { ⟦<AnswerFrom1Cases<T> as LawfulCases<L>>⟧.refused };

    ghost case_laws = { ⟦<AnswerFrom1Cases<T> as LawfulCases<L>>⟧.case_laws };
}

impl<L: Lending, T: SchemaWrite + SchemaRead<L, Dst = T::Src>> CasesRoundTrip<L> for AnswerFrom1<T>
where
    T::Src: Drop,
    AnswerFrom1Cases<T>: CasesRoundTrip<
        L,
        Src = Result<(), Result<T::Src, Result<(u32, Option<T::Src>), Result<(), String>>>>,
    >,
{
    ghost back = { bound-7.back };
}

impl<L: Lending, T: SchemaWrite + SchemaRead<L, Dst = T::Src>> CasesOneText<L> for AnswerFrom1<T>
where
    T::Src: Drop,
    AnswerFrom1Cases<T>: PartOneText<
        L,
        Src = Result<(), Result<T::Src, Result<(u32, Option<T::Src>), Result<(), String>>>>,
    >,
{
    ghost cases_one_text = { bound-7.part_one_text };
}

impl<L: Lending, T: SchemaWrite + SchemaRead<L, Dst = T::Src>> CasesReadOwned<L> for AnswerFrom1<T>
where
    T::Src: Drop,
    AnswerFrom1Cases<T>: PartReadOwned<
        L,
        Src = Result<(), Result<T::Src, Result<(u32, Option<T::Src>), Result<(), String>>>>,
    >,
{
    ghost cases_owned = { bound-7.part_owned };
}

impl<T: Drop> AnswerFrom1<T> {
    fn make(
        made_of: Result<(), Result<T, Result<(u32, Option<T>), Result<(), String>>>>,
    ) -> Answer<T>
        ensures { ⟦<AnswerOf<T> as EnumParts>⟧.parts result ≡ Ok made_of }
    {
        match made_of {
            Ok(()) => Answer::Nothing,
            Err(rest) => match rest {
                Ok(a) => Answer::One(a),
                Err(rest) => match rest {
                    Ok((tries, last)) => Answer::Late { tries, last },
                    Err(rest) => match rest {
                        Ok(()) => Answer::Busy,
                        Err(a) => Answer::Refused(a),
                    },
                },
            },
        }
    }
}

/// The cases from the 6th on, by their tags.
pub struct AnswerFrom6<T>(PhantomData<T>);

type AnswerFrom6Cases<T> = Case<5, Vec<T>, Case<6, (), Case<7, ([u8; 4], u16), Last<8, ()>>>>;

impl<T: SchemaWrite> CasesWrite for AnswerFrom6<T>
where
    T::Src: Drop,
{
    type Src = Result<Vec<T::Src>, Result<(), Result<([u8; 4], u16), ()>>>;

    ghost Value = { ⟦<AnswerFrom6Cases<T> as CasesWrite>⟧.Value };

    ghost model = { ⟦<AnswerFrom6Cases<T> as CasesWrite>⟧.model };

    ghost is_valid = { ⟦<AnswerFrom6Cases<T> as CasesWrite>⟧.is_valid };

    ghost tag = { ⟦<AnswerFrom6Cases<T> as CasesWrite>⟧.tag };

    ghost own = { ⟦<AnswerFrom6Cases<T> as CasesWrite>⟧.own };

    ghost part = { ⟦<AnswerFrom6Cases<T> as CasesWrite>⟧.part };

    ghost part_laws = { ⟦<AnswerFrom6Cases<T> as CasesWrite>⟧.part_laws };

    ghost answer = { ⟦<AnswerFrom6Cases<T> as CasesWrite>⟧.answer };

    ghost answers = { ⟦<AnswerFrom6Cases<T> as CasesWrite>⟧.answers };

    fn part_meta() -> TypeMeta {
        <AnswerFrom6Cases<T> as CasesWrite>::part_meta()
    }

    fn tag_of(src: &Self::Src) -> WriteResult<usize> {
        <AnswerFrom6Cases<T> as CasesWrite>::tag_of(src)
    }

    fn part_size(src: &Self::Src) -> WriteResult<usize> {
        <AnswerFrom6Cases<T> as CasesWrite>::part_size(src)
    }

    fn write_part<W: Writer>(writer: &mut W, src: &Self::Src) -> WriteResult<()> {
        <AnswerFrom6Cases<T> as CasesWrite>::write_part::<W>(writer, src)
    }
}

impl<L: Lending, T: SchemaRead<L>> CasesRead<L> for AnswerFrom6<T> {
    type Dst = Result<Vec<T::Dst>, Result<(), Result<([u8; 4], u16), ()>>>;

    ghost Value = { ⟦<AnswerFrom6Cases<T> as CasesRead<L>>⟧.Value };

    ghost model = { ⟦<AnswerFrom6Cases<T> as CasesRead<L>>⟧.model };

    ghost is_valid = { ⟦<AnswerFrom6Cases<T> as CasesRead<L>>⟧.is_valid };

    ghost tag = { ⟦<AnswerFrom6Cases<T> as CasesRead<L>>⟧.tag };

    ghost own = { ⟦<AnswerFrom6Cases<T> as CasesRead<L>>⟧.own };

    ghost part = { ⟦<AnswerFrom6Cases<T> as CasesRead<L>>⟧.part };

    ghost refused = { ⟦<AnswerFrom6Cases<T> as CasesRead<L>>⟧.refused };

    fn part_meta() -> TypeMeta {
        <AnswerFrom6Cases<T> as CasesRead<L>>::part_meta()
    }

    fn prealloc_size() -> usize {
        <AnswerFrom6Cases<T> as CasesRead<L>>::prealloc_size()
    }

    fn get_case<R: Reader<L>>(
        alloc: Global,
        reader: &mut R,
        given: usize,
    ) -> ReadResult<Self::Dst> {
        <AnswerFrom6Cases<T> as CasesRead<L>>::get_case::<R>(alloc, reader, given)
    }

    ghost case_laws = { (case_laws 5 (vec_laws T.read_laws)
        (case_laws 6 ⟦<() as Lawful<L>>⟧.read_laws
        (case_laws 7 ⟦<([u8; 4], u16) as Lawful<L>>⟧.read_laws
        (last_case_laws 8 ⟦<() as Lawful<L>>⟧.read_laws)))) };
}

impl<L: Lending, T: Lawful<L>> LawfulCases<L> for AnswerFrom6<T>
where
    T::Dst: Drop,
{
    type Dst = Result<Vec<T::Dst>, Result<(), Result<([u8; 4], u16), ()>>>;

    ghost Value = { ⟦<AnswerFrom6Cases<T> as LawfulCases<L>>⟧.Value };

    ghost model = { ⟦<AnswerFrom6Cases<T> as LawfulCases<L>>⟧.model };

    ghost is_valid = { ⟦<AnswerFrom6Cases<T> as LawfulCases<L>>⟧.is_valid };

    ghost tag = { ⟦<AnswerFrom6Cases<T> as LawfulCases<L>>⟧.tag };

    ghost own = { ⟦<AnswerFrom6Cases<T> as LawfulCases<L>>⟧.own };

    ghost part = { ⟦<AnswerFrom6Cases<T> as LawfulCases<L>>⟧.part };

    ghost refused = { ⟦<AnswerFrom6Cases<T> as LawfulCases<L>>⟧.refused };

    ghost case_laws = { ⟦<AnswerFrom6Cases<T> as LawfulCases<L>>⟧.case_laws };
}

impl<L: Lending, T: SchemaWrite + SchemaRead<L, Dst = T::Src>> CasesRoundTrip<L> for AnswerFrom6<T>
where
    T::Src: Drop,
    AnswerFrom6Cases<T>: CasesRoundTrip<
        L,
        Src = Result<Vec<T::Src>, Result<(), Result<([u8; 4], u16), ()>>>,
    >,
{
    ghost back = { bound-7.back };
}

impl<L: Lending, T: SchemaWrite + SchemaRead<L, Dst = T::Src>> CasesOneText<L> for AnswerFrom6<T>
where
    T::Src: Drop,
    AnswerFrom6Cases<T>: PartOneText<
        L,
        Src = Result<Vec<T::Src>, Result<(), Result<([u8; 4], u16), ()>>>,
    >,
{
    ghost cases_one_text = { bound-7.part_one_text };
}

impl<L: Lending, T: SchemaWrite + SchemaRead<L, Dst = T::Src>> CasesReadOwned<L> for AnswerFrom6<T>
where
    T::Src: Drop,
    AnswerFrom6Cases<T>: PartReadOwned<
        L,
        Src = Result<Vec<T::Src>, Result<(), Result<([u8; 4], u16), ()>>>,
    >,
{
    ghost cases_owned = { bound-7.part_owned };
}

impl<T: Drop> AnswerFrom6<T> {
    fn make(made_of: Result<Vec<T>, Result<(), Result<([u8; 4], u16), ()>>>) -> Answer<T>
        ensures { ⟦<AnswerOf<T> as EnumParts>⟧.parts result ≡ Err made_of }
    {
        match made_of {
            Ok(a) => Answer::Many(a),
            Err(rest) => match rest {
                Ok(()) => Answer::Closed,
                Err(rest) => match rest {
                    Ok(parts) => {
                        let (a, b) = parts;
                        Answer::Moved(a, b)
                    }
                    Err(()) => Answer::Ended,
                },
            },
        }
    }
}

type AnswerCases<T> = OneOf<u32, Split<5, AnswerFrom1<T>, AnswerFrom6<T>>>;

/// What values are made of.
struct AnswerOf<T>(PhantomData<T>);

impl<T: Drop> EnumParts for AnswerOf<T> {
    type Src = Answer<T>;

    type Parts = Result<
        Result<(), Result<T, Result<(u32, Option<T>), Result<(), String>>>>,
        Result<Vec<T>, Result<(), Result<([u8; 4], u16), ()>>>,
    >;

    ghost parts = { elim [
      | Answer-Nothing ↦ Ok (Ok tt)
      | Answer-One a ↦ Ok (Err (Ok a))
      | Answer-Late a b ↦ Ok (Err (Err (Ok (a, b))))
      | Answer-Busy ↦ Ok (Err (Err (Err (Ok tt))))
      | Answer-Refused a ↦ Ok (Err (Err (Err (Err a))))
      | Answer-Many a ↦ Err (Ok a)
      | Answer-Closed ↦ Err (Err (Ok tt))
      | Answer-Moved a b ↦ Err (Err (Err (Ok (
        a,
        b,
      ))))
      | Answer-Ended ↦ Err (Err (Err (Err tt)))
    ] };

    fn make(made_of: Self::Parts) -> Answer<T> {
        match made_of {
            Ok(parts) => AnswerFrom1::<T>::make(parts),
            Err(parts) => AnswerFrom6::<T>::make(parts),
        }
    }
}

impl<T: SchemaWrite> EnumParts for Answer<T>
where
    T::Src: Drop,
{
    type Src = Answer<T::Src>;

    type Parts = Result<
        Result<(), Result<T::Src, Result<(u32, Option<T::Src>), Result<(), String>>>>,
        Result<Vec<T::Src>, Result<(), Result<([u8; 4], u16), ()>>>,
    >;

    ghost parts = { ⟦<AnswerOf<T::Src> as EnumParts>⟧.parts };

    fn make(made_of: Self::Parts) -> Answer<T::Src> {
        <AnswerOf<T::Src> as EnumParts>::make(made_of)
    }
}

impl<T: SchemaWrite> EnumShape for Answer<T>
where
    T::Src: Drop,
{
    type Tag = u32;

    type Cases = Split<5, AnswerFrom1<T>, AnswerFrom6<T>>;

    fn tag(src: &Answer<T::Src>) -> usize {
        match src {
            Answer::Nothing => 0,
            Answer::One(_) => 1,
            Answer::Late { .. } => 2,
            Answer::Busy => 3,
            Answer::Refused(_) => 4,
            Answer::Many(_) => 5,
            Answer::Closed => 6,
            Answer::Moved(_, _) => 7,
            Answer::Ended => 8,
        }
    }

    fn part_size(src: &Answer<T::Src>) -> WriteResult<usize> {
        match src {
            Answer::Nothing => <() as SchemaWrite>::size_of(&()),
            Answer::One(a) => <T as SchemaWrite>::size_of(a),
            Answer::Late { tries, last } => size_of_members_2::<u32, Option<T>>(tries, last),
            Answer::Busy => <() as SchemaWrite>::size_of(&()),
            Answer::Refused(a) => <String as SchemaWrite>::size_of(a),
            Answer::Many(a) => <Vec<T> as SchemaWrite>::size_of(a),
            Answer::Closed => <() as SchemaWrite>::size_of(&()),
            Answer::Moved(a, b) => size_of_members_2::<[u8; 4], u16>(a, b),
            Answer::Ended => <() as SchemaWrite>::size_of(&()),
        }
    }

    fn write_part<W: Writer>(writer: &mut W, src: &Answer<T::Src>) -> WriteResult<()> {
        match src {
            Answer::Nothing => <() as SchemaWrite>::write::<W>(writer, &()),
            Answer::One(a) => <T as SchemaWrite>::write::<W>(writer, a),
            Answer::Late { tries, last } => write_members_2::<u32, Option<T>, W>(
                writer, tries, last,
            ),
            Answer::Busy => <() as SchemaWrite>::write::<W>(writer, &()),
            Answer::Refused(a) => <String as SchemaWrite>::write::<W>(writer, a),
            Answer::Many(a) => <Vec<T> as SchemaWrite>::write::<W>(writer, a),
            Answer::Closed => <() as SchemaWrite>::write::<W>(writer, &()),
            Answer::Moved(a, b) => write_members_2::<[u8; 4], u16, W>(writer, a, b),
            Answer::Ended => <() as SchemaWrite>::write::<W>(writer, &()),
        }
    }

    fn encode_part(src: &Answer<T::Src>, dst: &mut [u8]) -> Option<usize> {
        match src {
            Answer::Nothing => <() as SchemaWrite>::encode_front(&(), dst),
            Answer::One(a) => <T as SchemaWrite>::encode_front(a, dst),
            Answer::Late { tries, last } => encode_front_members_2::<u32, Option<T>>(
                tries, last, dst,
            ),
            Answer::Busy => <() as SchemaWrite>::encode_front(&(), dst),
            Answer::Refused(a) => <String as SchemaWrite>::encode_front(a, dst),
            Answer::Many(a) => <Vec<T> as SchemaWrite>::encode_front(a, dst),
            Answer::Closed => <() as SchemaWrite>::encode_front(&(), dst),
            Answer::Moved(a, b) => encode_front_members_2::<[u8; 4], u16>(a, b, dst),
            Answer::Ended => <() as SchemaWrite>::encode_front(&(), dst),
        }
    }
}

impl<T: SchemaWrite> SchemaWrite for Answer<T>
where
    T::Src: Drop,
{
    type Src = Answer<T::Src>;

    ghost Value = { ⟦<AnswerCases<T> as SchemaWrite>⟧.Value };

    ghost model = { λ x. ⟦<AnswerCases<T> as SchemaWrite>⟧.model (⟦<Answer<T> as EnumParts>⟧.parts x) };

    ghost is_valid = { λ x. ⟦<AnswerCases<T> as SchemaWrite>⟧.is_valid (⟦<Answer<T> as EnumParts>⟧.parts x) };

    ghost writing = { ⟦<AnswerCases<T> as SchemaWrite>⟧.writing };

    fn type_meta() -> TypeMeta {
        <AnswerCases<T> as SchemaWrite>::type_meta()
    }

    fn size_of(src: &Answer<T::Src>) -> WriteResult<usize> {
        size_of_enum::<Answer<T>>(src)
    }

    fn write<W: Writer>(writer: &mut W, src: &Answer<T::Src>) -> WriteResult<()> {
        write_enum::<Answer<T>, W>(writer, src)
    }

    #[inline(always)]
    fn encode_front(src: &Answer<T::Src>, dst: &mut [u8]) -> Option<usize> {
        encode_enum::<Answer<T>>(src, dst)
    }

    ghost write_laws = { write_laws_by ⟦<Answer<T> as EnumParts>⟧.parts ⟦<AnswerCases<T> as SchemaWrite>⟧.write_laws };
}

impl<L: Lending, T: SchemaRead<L>> SchemaRead<L> for Answer<T> {
    type Dst = Answer<T::Dst>;

    ghost Value = { ⟦<AnswerCases<T> as SchemaRead<L>>⟧.Value };

    ghost model = { λ x. ⟦<AnswerCases<T> as SchemaRead<L>>⟧.model (⟦<AnswerOf<T::Dst> as EnumParts>⟧.parts x) };

    ghost is_valid = { ⟦<AnswerCases<T> as SchemaRead<L>>⟧.is_valid };

    ghost reading = { ⟦<AnswerCases<T> as SchemaRead<L>>⟧.reading };

    fn type_meta() -> TypeMeta {
        <AnswerCases<T> as SchemaRead<L>>::type_meta()
    }

    fn prealloc_size() -> usize {
        <AnswerCases<T> as SchemaRead<L>>::prealloc_size()
    }

    fn read<R: Reader<L>>(
        alloc: Global,
        reader: &mut R,
        dst: &mut Option<Answer<T::Dst>>,
    ) -> ReadResult<()> {
        read_enum::<L, AnswerCases<T>, AnswerOf<T::Dst>, R>(alloc, reader, dst)
    }

    ghost read_laws = { (enum_read_laws 4
        (split_laws 5
        (case_laws 0 ⟦<() as Lawful<L>>⟧.read_laws
        (case_laws 1 T.read_laws
        (case_laws 2 (windowed_read_laws (pair_read_laws ⟦<u32 as Lawful<L>>⟧.read_laws (option_laws T.read_laws)))
        (case_laws 3 ⟦<() as Lawful<L>>⟧.read_laws
        (last_case_laws 4 ⟦<String as Lawful<L>>⟧.read_laws)))))
        (case_laws 5 (vec_laws T.read_laws)
        (case_laws 6 ⟦<() as Lawful<L>>⟧.read_laws
        (case_laws 7 ⟦<([u8; 4], u16) as Lawful<L>>⟧.read_laws
        (last_case_laws 8 ⟦<() as Lawful<L>>⟧.read_laws)))))) };
}

impl<L: Lending, T: Lawful<L>> Lawful<L> for Answer<T>
where
    T::Dst: Drop,
{
    type Dst = Answer<T::Dst>;

    ghost Value = { ⟦<AnswerCases<T> as Lawful<L>>⟧.Value };

    ghost model = { λ x. ⟦<AnswerCases<T> as Lawful<L>>⟧.model (⟦<AnswerOf<T::Dst> as EnumParts>⟧.parts x) };

    ghost is_valid = { ⟦<AnswerCases<T> as Lawful<L>>⟧.is_valid };

    ghost reading = { ⟦<AnswerCases<T> as Lawful<L>>⟧.reading };

    ghost read_laws = { ⟦<AnswerCases<T> as Lawful<L>>⟧.read_laws };
}

impl<L: Lending, T: SchemaWrite + SchemaRead<L, Dst = T::Src>> RoundTrip<L> for Answer<T>
where
    T::Src: Drop,
    AnswerCases<T>: RoundTrip<
        L,
        Src = Result<
            Result<(), Result<T::Src, Result<(u32, Option<T::Src>), Result<(), String>>>>,
            Result<Vec<T::Src>, Result<(), Result<([u8; 4], u16), ()>>>,
        >,
    >,
{
    ghost reads_back = { reads_back_by ⟦<Answer<T> as EnumParts>⟧.parts bound-7.reads_back };
}

impl<L: Lending, T: SchemaWrite + SchemaRead<L, Dst = T::Src>> OneText<L> for Answer<T>
where
    T::Src: Drop,
    AnswerCases<T>: FieldsOneText<
        L,
        Src = Result<
            Result<(), Result<T::Src, Result<(u32, Option<T::Src>), Result<(), String>>>>,
            Result<Vec<T::Src>, Result<(), Result<([u8; 4], u16), ()>>>,
        >,
    >,
{
    ghost one_text = { bound-7.fields_one_text };
}

impl<L: Lending, T: SchemaWrite + SchemaRead<L, Dst = T::Src>> SchemaReadOwned<L> for Answer<T>
where
    T::Src: Drop,
    AnswerCases<T>: FieldsReadOwned<
        L,
        Src = Result<
            Result<(), Result<T::Src, Result<(u32, Option<T::Src>), Result<(), String>>>>,
            Result<Vec<T::Src>, Result<(), Result<([u8; 4], u16), ()>>>,
        >,
    >,
{
    ghost owned = { bound-7.fields_owned };
}

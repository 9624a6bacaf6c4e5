//! Written by `wincode_derive`: the schemas of what the module above declares.
ghost use Rattle.std.specs.Prelude.{◌≡◌, Ok, Err};
ghost use Rattle.wincode_base.specs.Outcomes.{ReadOutcome};
ghost use Rattle.wincode_base.specs.PairLaws.{write_laws_by, reads_back_by, pair_read_laws, windowed_read_laws};
ghost use Rattle.wincode_derive_support.specs.PartLaws.{vec_laws};
ghost use Rattle.wincode_derive_support.specs.SumLaws.{enum_read_laws, case_laws, last_case_laws};
ghost use Rattle.sample_types.specs.declared.shapes.Found.TheVariants.{Nothing as Found-Nothing, One as Found-One, Many as Found-Many};
ghost use Rattle.sample_types.specs.declared.shapes.Token.TheVariants.{Word as Token-Word, Number as Token-Number, End as Token-End};

use super::*;
use std::alloc::Global;
use std::marker::PhantomData;
use wincode::io::{Lending, Lifetime, Reader, Writer};
use wincode::schema::tuples::{encode_front_members_2, size_of_members_2, write_members_2};
use wincode::{
    OneText, ReadResult, RoundTrip, SchemaGet, SchemaRead, SchemaReadOwned, SchemaWrite, TypeMeta,
    WriteResult,
};
use wincode_derive_support::enums::{
    EnumParts, EnumShape, encode_enum, read_enum, size_of_enum, write_enum,
};
use wincode_derive_support::laws::{FieldsOneText, FieldsReadOwned, Lawful};
use wincode_derive_support::lent::Lends;
use wincode_derive_support::sums::{Case, Last, OneOf};

type FoundCases<T> = OneOf<u32, Case<0, (), Case<1, T, Last<2, (Vec<T>, bool)>>>>;

/// What values are made of.
struct FoundOf<T>(PhantomData<T>);

impl<T: Drop> EnumParts for FoundOf<T> {
    type Src = Found<T>;

    type Parts = Result<(), Result<T, (Vec<T>, bool)>>;

    ghost parts = { elim [ Found-Nothing ↦ Ok tt | Found-One a ↦ Err (Ok a) | Found-Many a b ↦ Err (Err (a, b)) ] };

    fn make(made_of: Self::Parts) -> Found<T> {
        match made_of {
            Ok(()) => Found::Nothing,
            Err(rest) => match rest {
                Ok(a) => Found::One(a),
                Err((items, more)) => Found::Many { items, more },
            },
        }
    }
}

impl<T: SchemaWrite> EnumParts for Found<T>
where
    T::Src: Drop,
{
    type Src = Found<T::Src>;

    type Parts = Result<(), Result<T::Src, (Vec<T::Src>, bool)>>;

    ghost parts = { ⟦<FoundOf<T::Src> as EnumParts>⟧.parts };

    fn make(made_of: Self::Parts) -> Found<T::Src> {
        <FoundOf<T::Src> as EnumParts>::make(made_of)
    }
}

impl<T: SchemaWrite> EnumShape for Found<T>
where
    T::Src: Drop,
{
    type Tag = u32;

    type Cases = Case<0, (), Case<1, T, Last<2, (Vec<T>, bool)>>>;

    fn tag(src: &Found<T::Src>) -> usize {
        match src {
            Found::Nothing => 0,
            Found::One(_) => 1,
            Found::Many { .. } => 2,
        }
    }

    fn part_size(src: &Found<T::Src>) -> WriteResult<usize> {
        match src {
            Found::Nothing => <() as SchemaWrite>::size_of(&()),
            Found::One(a) => <T as SchemaWrite>::size_of(a),
            Found::Many { items, more } => size_of_members_2::<Vec<T>, bool>(items, more),
        }
    }

    fn write_part<W: Writer>(writer: &mut W, src: &Found<T::Src>) -> WriteResult<()> {
        match src {
            Found::Nothing => <() as SchemaWrite>::write::<W>(writer, &()),
            Found::One(a) => <T as SchemaWrite>::write::<W>(writer, a),
            Found::Many { items, more } => write_members_2::<Vec<T>, bool, W>(writer, items, more),
        }
    }

    fn encode_part(src: &Found<T::Src>, dst: &mut [u8]) -> Option<usize> {
        match src {
            Found::Nothing => <() as SchemaWrite>::encode_front(&(), dst),
            Found::One(a) => <T as SchemaWrite>::encode_front(a, dst),
            Found::Many { items, more } => encode_front_members_2::<Vec<T>, bool>(items, more, dst),
        }
    }
}

impl<T: SchemaWrite> SchemaWrite for Found<T>
where
    T::Src: Drop,
{
    type Src = Found<T::Src>;

    ghost Value = { ⟦<FoundCases<T> as SchemaWrite>⟧.Value };

    ghost model = { λ x. ⟦<FoundCases<T> as SchemaWrite>⟧.model (⟦<Found<T> as EnumParts>⟧.parts x) };

    ghost is_valid = { λ x. ⟦<FoundCases<T> as SchemaWrite>⟧.is_valid (⟦<Found<T> as EnumParts>⟧.parts x) };

    ghost writing = { ⟦<FoundCases<T> as SchemaWrite>⟧.writing };

    fn type_meta() -> TypeMeta {
        <FoundCases<T> as SchemaWrite>::type_meta()
    }

    fn size_of(src: &Found<T::Src>) -> WriteResult<usize> {
        size_of_enum::<Found<T>>(src)
    }

    fn write<W: Writer>(writer: &mut W, src: &Found<T::Src>) -> WriteResult<()> {
        write_enum::<Found<T>, W>(writer, src)
    }

    #[inline(always)]
    fn encode_front(src: &Found<T::Src>, dst: &mut [u8]) -> Option<usize> {
        encode_enum::<Found<T>>(src, dst)
    }

    ghost write_laws = { write_laws_by ⟦<Found<T> as EnumParts>⟧.parts ⟦<FoundCases<T> as SchemaWrite>⟧.write_laws };
}

impl<L: Lending, T: SchemaRead<L>> SchemaRead<L> for Found<T> {
    type Dst = Found<T::Dst>;

    ghost Value = { ⟦<FoundCases<T> as SchemaRead<L>>⟧.Value };

    ghost model = { λ x. ⟦<FoundCases<T> as SchemaRead<L>>⟧.model (⟦<FoundOf<T::Dst> as EnumParts>⟧.parts x) };

    ghost is_valid = { ⟦<FoundCases<T> as SchemaRead<L>>⟧.is_valid };

    ghost reading = { ⟦<FoundCases<T> as SchemaRead<L>>⟧.reading };

    fn type_meta() -> TypeMeta {
        <FoundCases<T> as SchemaRead<L>>::type_meta()
    }

    fn prealloc_size() -> usize {
        <FoundCases<T> as SchemaRead<L>>::prealloc_size()
    }

    fn read<R: Reader<L>>(
        alloc: Global,
        reader: &mut R,
        dst: &mut Option<Found<T::Dst>>,
    ) -> ReadResult<()> {
        read_enum::<L, FoundCases<T>, FoundOf<T::Dst>, R>(alloc, reader, dst)
    }

    ghost read_laws = { (enum_read_laws 4
        (case_laws 0 ⟦<() as Lawful<L>>⟧.read_laws
        (case_laws 1 T.read_laws
        (last_case_laws 2 (windowed_read_laws (pair_read_laws (vec_laws T.read_laws) ⟦<bool as Lawful<L>>⟧.read_laws)))))) };
}

impl<L: Lending, T: Lawful<L>> Lawful<L> for Found<T>
where
    T::Dst: Drop,
{
    type Dst = Found<T::Dst>;

    ghost Value = { ⟦<FoundCases<T> as Lawful<L>>⟧.Value };

    ghost model = { λ x. ⟦<FoundCases<T> as Lawful<L>>⟧.model (⟦<FoundOf<T::Dst> as EnumParts>⟧.parts x) };

    ghost is_valid = { ⟦<FoundCases<T> as Lawful<L>>⟧.is_valid };

    ghost reading = { ⟦<FoundCases<T> as Lawful<L>>⟧.reading };

    ghost read_laws = { ⟦<FoundCases<T> as Lawful<L>>⟧.read_laws };
}

impl<L: Lending, T: SchemaWrite + SchemaRead<L, Dst = T::Src>> RoundTrip<L> for Found<T>
where
    T::Src: Drop,
    FoundCases<T>: RoundTrip<L, Src = Result<(), Result<T::Src, (Vec<T::Src>, bool)>>>,
{
    ghost reads_back = { reads_back_by ⟦<Found<T> as EnumParts>⟧.parts bound-7.reads_back };
}

impl<L: Lending, T: SchemaWrite + SchemaRead<L, Dst = T::Src>> OneText<L> for Found<T>
where
    T::Src: Drop,
    FoundCases<T>: FieldsOneText<L, Src = Result<(), Result<T::Src, (Vec<T::Src>, bool)>>>,
{
    ghost one_text = { bound-7.fields_one_text };
}

impl<L: Lending, T: SchemaWrite + SchemaRead<L, Dst = T::Src>> SchemaReadOwned<L> for Found<T>
where
    T::Src: Drop,
    FoundCases<T>: FieldsReadOwned<L, Src = Result<(), Result<T::Src, (Vec<T::Src>, bool)>>>,
{
    ghost owned = { bound-7.fields_owned };
}

impl<'a> EnumParts for Token<'a> {
    type Src = Token<'a>;

    type Parts = Result<&'a str, Result<u64, ()>>;

    ghost parts = { elim [ Token-Word a ↦ Ok a | Token-Number a ↦ Err (Ok a) | Token-End ↦ Err (Err tt) ] };

    fn make(made_of: Self::Parts) -> Token<'a> {
        match made_of {
            Ok(a) => Token::Word(a),
            Err(rest) => match rest {
                Ok(a) => Token::Number(a),
                Err(()) => Token::End,
            },
        }
    }
}

impl<'a> EnumShape for Token<'a> {
    type Tag = u32;

    type Cases = Case<0, &'a str, Case<1, u64, Last<2, ()>>>;

    fn tag(src: &Token<'a>) -> usize {
        match src {
            Token::Word(_) => 0,
            Token::Number(_) => 1,
            Token::End => 2,
        }
    }

    fn part_size(src: &Token<'a>) -> WriteResult<usize> {
        match src {
            Token::Word(a) => <&'a str as SchemaWrite>::size_of(a),
            Token::Number(a) => <u64 as SchemaWrite>::size_of(a),
            Token::End => <() as SchemaWrite>::size_of(&()),
        }
    }

    fn write_part<W: Writer>(writer: &mut W, src: &Token<'a>) -> WriteResult<()> {
        match src {
            Token::Word(a) => <&'a str as SchemaWrite>::write::<W>(writer, a),
            Token::Number(a) => <u64 as SchemaWrite>::write::<W>(writer, a),
            Token::End => <() as SchemaWrite>::write::<W>(writer, &()),
        }
    }

    fn encode_part(src: &Token<'a>, dst: &mut [u8]) -> Option<usize> {
        match src {
            Token::Word(a) => <&'a str as SchemaWrite>::encode_front(a, dst),
            Token::Number(a) => <u64 as SchemaWrite>::encode_front(a, dst),
            Token::End => <() as SchemaWrite>::encode_front(&(), dst),
        }
    }
}

type TokenCases<'a> = OneOf<u32, Case<0, &'a str, Case<1, u64, Last<2, ()>>>>;

impl<'a> SchemaWrite for Token<'a> {
    type Src = Token<'a>;

    ghost Value = { ⟦<TokenCases<'a> as SchemaWrite>⟧.Value };

    ghost model = { λ x. ⟦<TokenCases<'a> as SchemaWrite>⟧.model (⟦<Token<'a> as EnumParts>⟧.parts x) };

    ghost is_valid = { λ x. ⟦<TokenCases<'a> as SchemaWrite>⟧.is_valid (⟦<Token<'a> as EnumParts>⟧.parts x) };

    ghost writing = { ⟦<TokenCases<'a> as SchemaWrite>⟧.writing };

    fn type_meta() -> TypeMeta
        ensures { result ≡ ⟦<TokenCases<'a> as SchemaWrite>⟧.writing.meta }
    {
        <TokenCases<'a> as SchemaWrite>::type_meta()
    }

    fn size_of(src: &Token<'a>) -> WriteResult<usize> {
        size_of_enum::<Token<'a>>(src)
    }

    fn write<W: Writer>(writer: &mut W, src: &Token<'a>) -> WriteResult<()> {
        write_enum::<Token<'a>, W>(writer, src)
    }

    #[inline(always)]
    fn encode_front(src: &Token<'a>, dst: &mut [u8]) -> Option<usize> {
        encode_enum::<Token<'a>>(src, dst)
    }

    ghost write_laws = { write_laws_by (λ x. (⟦<Token<'a> as EnumParts>⟧.parts x)) ⟦<TokenCases<'a> as SchemaWrite>⟧.write_laws };
}

impl<'a> Lends<Token<'static>> for Lifetime<'a> {
    type Lent = Token<'a>;

    type Parts = Result<&'a str, Result<u64, ()>>;

    type As = TokenCases<'a>;

    ghost parts = { λ x. (⟦<Token<'a> as EnumParts>⟧.parts x) };

    fn make(made_of: Result<&'a str, Result<u64, ()>>) -> Token<'a> {
        <Token<'a> as EnumParts>::make(made_of)
    }
}

impl<'a, L: Lends<Token<'static>>> SchemaRead<L> for Token<'a> {
    type Dst = L::Lent;

    ghost Value = { L.As.SchemaRead.Value };

    ghost model = { λ x. L.As.SchemaRead.model (L.parts x) };

    ghost is_valid = { L.As.SchemaRead.is_valid };

    ghost reading = { L.As.SchemaRead.reading };

    fn type_meta() -> TypeMeta
        ensures { result ≡ L.As.SchemaRead.reading.meta }
    {
        <L::As as SchemaRead<L>>::type_meta()
    }

    fn prealloc_size() -> usize
        ensures { result ≡ L.As.SchemaRead.reading.prealloc }
    {
        <L::As as SchemaRead<L>>::prealloc_size()
    }

    fn read<R: Reader<L>>(
        alloc: Global,
        reader: &mut R,
        dst: &mut Option<L::Lent>,
    ) -> ReadResult<()>
        ensures { ReadOutcome L.As.SchemaRead.reading (λ x. L.As.SchemaRead.model (L.parts x))
            (R.state reader.old) (R.state reader.new) dst.old dst.new result }
    {
        let parts = <L::As as SchemaGet<L>>::get(alloc, reader)?;
        *dst = Some(L::make(parts));
        Ok(())
    }

    ghost read_laws = { L.As.SchemaRead.read_laws };
}

impl<'a, L: Lends<Token<'static>>> OneText<L> for Token<'a>
where
    L::As: OneText<L>,
{
    ghost one_text = { L.As.one_text };
}

impl<'a> RoundTrip<Lifetime<'a>> for Token<'a>
where
    TokenCases<'a>: RoundTrip<Lifetime<'a>, Src = Result<&'a str, Result<u64, ()>>>,
{
    ghost reads_back = { reads_back_by (λ x. (⟦<Token<'a> as EnumParts>⟧.parts x)) bound-1.reads_back };
}

type IdFields = (u64, ());

impl<T: SchemaWrite> SchemaWrite for Id<T> {
    type Src = Id<T::Src>;

    ghost Value = { ⟦<IdFields as SchemaWrite>⟧.Value };

    ghost model = { λ x. ⟦<IdFields as SchemaWrite>⟧.model (x.number, tt) };

    ghost is_valid = { λ x. ⟦<IdFields as SchemaWrite>⟧.is_valid (x.number, tt) };

    ghost writing = { ⟦<IdFields as SchemaWrite>⟧.writing };

    fn type_meta() -> TypeMeta {
        <IdFields as SchemaWrite>::type_meta()
    }

    fn size_of(src: &Id<T::Src>) -> WriteResult<usize> {
        size_of_members_2::<u64, ()>(&src.number, &())
    }

    fn write<W: Writer>(writer: &mut W, src: &Id<T::Src>) -> WriteResult<()> {
        write_members_2::<u64, (), W>(writer, &src.number, &())
    }

    #[inline(always)]
    fn encode_front(src: &Id<T::Src>, dst: &mut [u8]) -> Option<usize> {
        encode_front_members_2::<u64, ()>(&src.number, &(), dst)
    }

    ghost write_laws = { write_laws_by (λ x. (x.number, tt)) ⟦<IdFields as SchemaWrite>⟧.write_laws };
}

impl<L: Lending, T: SchemaRead<L>> SchemaRead<L> for Id<T> {
    type Dst = Id<T::Dst>;

    ghost Value = { ⟦<IdFields as SchemaRead<L>>⟧.Value };

    ghost model = { λ x. ⟦<IdFields as SchemaRead<L>>⟧.model (x.number, tt) };

    ghost is_valid = { ⟦<IdFields as SchemaRead<L>>⟧.is_valid };

    ghost reading = { ⟦<IdFields as SchemaRead<L>>⟧.reading };

    fn type_meta() -> TypeMeta {
        <IdFields as SchemaRead<L>>::type_meta()
    }

    fn prealloc_size() -> usize {
        <IdFields as SchemaRead<L>>::prealloc_size()
    }

    fn read<R: Reader<L>>(
        alloc: Global,
        reader: &mut R,
        dst: &mut Option<Id<T::Dst>>,
    ) -> ReadResult<()> {
        match <IdFields as SchemaGet<L>>::get(alloc, reader) {
            Ok(parts) => {
                let (number, _) = parts;
                *dst = Some(Id {
                    number,
                    kind: PhantomData,
                });
                Ok(())
            }
            Err(error) => Err(error),
        }
    }

    #[inline(always)]
    fn blank() -> Option<Id<T::Dst>> {
        let (number, _) = <IdFields as SchemaRead<L>>::blank()?;
        Some(Id {
            number,
            kind: PhantomData,
        })
    }

    #[inline(always)]
    fn decode(bytes: &[u8], place: &mut Id<T::Dst>) -> bool {
        let Some(mut parts) = <IdFields as SchemaRead<L>>::blank() else {
            return false;
        };
        if !<IdFields as SchemaRead<L>>::decode(bytes, &mut parts) {
            return false;
        }
        let (number, _) = parts;
        *place = Id {
            number,
            kind: PhantomData,
        };
        true
    }

    ghost read_laws = { ⟦<(u64, ()) as Lawful<L>>⟧.read_laws };
}

impl<L: Lending, T: Lawful<L>> Lawful<L> for Id<T> {
    type Dst = Id<T::Dst>;

    ghost Value = { ⟦<IdFields as Lawful<L>>⟧.Value };

    ghost model = { λ x. ⟦<IdFields as Lawful<L>>⟧.model (x.number, tt) };

    ghost is_valid = { ⟦<IdFields as Lawful<L>>⟧.is_valid };

    ghost reading = { ⟦<IdFields as Lawful<L>>⟧.reading };

    ghost read_laws = { ⟦<IdFields as Lawful<L>>⟧.read_laws };
}

impl<L: Lending, T: SchemaWrite + SchemaRead<L, Dst = T::Src>> RoundTrip<L> for Id<T>
where
    T::Src: Drop,
    IdFields: RoundTrip<L, Src = (u64, ())>,
{
    ghost reads_back = { reads_back_by (λ x. (x.number, tt)) bound-7.reads_back };
}

impl<L: Lending, T: SchemaWrite + SchemaRead<L, Dst = T::Src>> OneText<L> for Id<T>
where
    T::Src: Drop,
    IdFields: FieldsOneText<L, Src = (u64, ())>,
{
    ghost one_text = { bound-7.fields_one_text };
}

impl<L: Lending, T: SchemaWrite + SchemaRead<L, Dst = T::Src>> SchemaReadOwned<L> for Id<T>
where
    T::Src: Drop,
    IdFields: FieldsReadOwned<L, Src = (u64, ())>,
{
    ghost owned = { bound-7.fields_owned };
}

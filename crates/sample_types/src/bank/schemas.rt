//! Written by `wincode_derive`: the schemas of what the module above declares.
ghost use Rattle.std.specs.Prelude.{◌≡◌, Ok, Err};
ghost use Rattle.wincode_base.specs.PairLaws.{write_laws_by, reads_back_by};
ghost use Rattle.sample_types.specs.declared.bank.Request.TheVariants.{
  Status as Request-Status,
  Open as Request-Open,
  Sealed as Request-Sealed,
  Named as Request-Named,
  Limited as Request-Limited,
  Close as Request-Close,
  Paid as Request-Paid,
  Ended as Request-Ended,
};

use super::*;
use std::alloc::Global;
use wincode::io::{Lending, Reader, Writer};
use wincode::schema::tuples::{
    encode_front_members_2, encode_front_members_3, size_of_members_2, size_of_members_3,
    write_members_2, write_members_3,
};
use wincode::{
    OneText, ReadResult, RoundTrip, SchemaRead, SchemaReadOwned, SchemaWrite, TypeMeta, WriteResult,
};
use wincode_derive_support::enums::{
    EnumParts, EnumShape, encode_enum, read_enum, size_of_enum, write_enum,
};
use wincode_derive_support::laws::{FieldsOneText, FieldsReadOwned, Lawful, LawfulCases};
use wincode_derive_support::splits::{PartOneText, PartReadOwned, Split};
use wincode_derive_support::sums::{
    Case, CasesOneText, CasesRead, CasesReadOwned, CasesRoundTrip, CasesWrite, Last, OneOf,
};

/// The cases from the 1st on, by their tags.
pub struct RequestFrom1;

type RequestFrom1Cases = Case<
    0,
    (),
    Case<1, (u64, u64, [u8; 32]), Case<2, ([u8; 32], u8), Last<3, String>>>,
>;

impl CasesWrite for RequestFrom1 {
    type Src = Result<(), Result<(u64, u64, [u8; 32]), Result<([u8; 32], u8), String>>>;

    ghost Value = { ⟦<RequestFrom1Cases as CasesWrite>⟧.Value };

    ghost model = { ⟦<RequestFrom1Cases as CasesWrite>⟧.model };

    ghost is_valid = { ⟦<RequestFrom1Cases as CasesWrite>⟧.is_valid };

    ghost tag = { ⟦<RequestFrom1Cases as CasesWrite>⟧.tag };

    ghost own = { ⟦<RequestFrom1Cases as CasesWrite>⟧.own };

    ghost part = { ⟦<RequestFrom1Cases as CasesWrite>⟧.part };

    ghost part_laws = { ⟦<RequestFrom1Cases as CasesWrite>⟧.part_laws };

    ghost answer = { ⟦<RequestFrom1Cases as CasesWrite>⟧.answer };

    ghost answers = { ⟦<RequestFrom1Cases as CasesWrite>⟧.answers };

    fn part_meta() -> TypeMeta {
        <RequestFrom1Cases as CasesWrite>::part_meta()
    }

    fn tag_of(src: &Self::Src) -> WriteResult<usize> {
        <RequestFrom1Cases as CasesWrite>::tag_of(src)
    }

    fn part_size(src: &Self::Src) -> WriteResult<usize> {
        <RequestFrom1Cases as CasesWrite>::part_size(src)
    }

    fn write_part<W: Writer>(writer: &mut W, src: &Self::Src) -> WriteResult<()> {
        <RequestFrom1Cases as CasesWrite>::write_part::<W>(writer, src)
    }
}

impl<L: Lending> CasesRead<L> for RequestFrom1 {
    type Dst = Result<(), Result<(u64, u64, [u8; 32]), Result<([u8; 32], u8), String>>>;

    ghost Value = { ⟦<RequestFrom1Cases as CasesRead<L>>⟧.Value };

    ghost model = { ⟦<RequestFrom1Cases as CasesRead<L>>⟧.model };

    ghost is_valid = { ⟦<RequestFrom1Cases as CasesRead<L>>⟧.is_valid };

    ghost tag = { ⟦<RequestFrom1Cases as CasesRead<L>>⟧.tag };

    ghost own = { ⟦<RequestFrom1Cases as CasesRead<L>>⟧.own };

    ghost part = { ⟦<RequestFrom1Cases as CasesRead<L>>⟧.part };

    ghost refused = { ⟦<RequestFrom1Cases as CasesRead<L>>⟧.refused };

    fn part_meta() -> TypeMeta {
        <RequestFrom1Cases as CasesRead<L>>::part_meta()
    }

    fn prealloc_size() -> usize {
        <RequestFrom1Cases as CasesRead<L>>::prealloc_size()
    }

    fn get_case<R: Reader<L>>(
        alloc: Global,
        reader: &mut R,
        given: usize,
    ) -> ReadResult<Self::Dst> {
        <RequestFrom1Cases as CasesRead<L>>::get_case::<R>(alloc, reader, given)
    }

    ghost case_laws = { ⟦<RequestFrom1Cases as LawfulCases<L>>⟧.case_laws };
}

impl<L: Lending> LawfulCases<L> for RequestFrom1 {
    type Dst = Result<(), Result<(u64, u64, [u8; 32]), Result<([u8; 32], u8), String>>>;

    ghost Value = { ⟦<RequestFrom1Cases as LawfulCases<L>>⟧.Value };

    ghost model = { ⟦<RequestFrom1Cases as LawfulCases<L>>⟧.model };

    ghost is_valid = { ⟦<RequestFrom1Cases as LawfulCases<L>>⟧.is_valid };

    ghost tag = { ⟦<RequestFrom1Cases as LawfulCases<L>>⟧.tag };

    ghost own = { ⟦<RequestFrom1Cases as LawfulCases<L>>⟧.own };

    ghost part = { ⟦<RequestFrom1Cases as LawfulCases<L>>⟧.part };

    ghost refused = { ⟦<RequestFrom1Cases as LawfulCases<L>>⟧.refused };

    ghost case_laws = { ⟦<RequestFrom1Cases as LawfulCases<L>>⟧.case_laws };
}

impl<L: Lending> CasesRoundTrip<L> for RequestFrom1
where
    RequestFrom1Cases: CasesRoundTrip<L>,
{
    ghost back = { bound-5.back };
}

impl<L: Lending> CasesOneText<L> for RequestFrom1
where
    RequestFrom1Cases: PartOneText<L>,
{
    ghost cases_one_text = { bound-5.part_one_text };
}

impl<L: Lending> CasesReadOwned<L> for RequestFrom1
where
    RequestFrom1Cases: PartReadOwned<L>,
{
    ghost cases_owned = { bound-5.part_owned };
}

impl RequestFrom1 {
    fn make(
        made_of: Result<(), Result<(u64, u64, [u8; 32]), Result<([u8; 32], u8), String>>>,
    ) -> Request
        ensures { ⟦<Request as EnumParts>⟧.parts result ≡ Ok made_of }
    {
        match made_of {
            Ok(()) => Request::Status,
            Err(rest) => match rest {
                Ok(parts) => {
                    let (lamports, space, owner) = parts;
                    Request::Open {
                        lamports,
                        space,
                        owner,
                    }
                }
                Err(rest) => match rest {
                    Ok(parts) => {
                        let (a, b) = parts;
                        Request::Sealed(a, b)
                    }
                    Err(a) => Request::Named(a),
                },
            },
        }
    }
}

/// The cases from the 5th on, by their tags.
pub struct RequestFrom5;

type RequestFrom5Cases = Case<4, Option<u64>, Case<5, (), Case<6, (u64, String), Last<7, ()>>>>;

impl CasesWrite for RequestFrom5 {
    type Src = Result<Option<u64>, Result<(), Result<(u64, String), ()>>>;

    ghost Value = { ⟦<RequestFrom5Cases as CasesWrite>⟧.Value };

    ghost model = { ⟦<RequestFrom5Cases as CasesWrite>⟧.model };

    ghost is_valid = { ⟦<RequestFrom5Cases as CasesWrite>⟧.is_valid };

    ghost tag = { ⟦<RequestFrom5Cases as CasesWrite>⟧.tag };

    ghost own = { ⟦<RequestFrom5Cases as CasesWrite>⟧.own };

    ghost part = { ⟦<RequestFrom5Cases as CasesWrite>⟧.part };

    ghost part_laws = { ⟦<RequestFrom5Cases as CasesWrite>⟧.part_laws };

    ghost answer = { ⟦<RequestFrom5Cases as CasesWrite>⟧.answer };

    ghost answers = { ⟦<RequestFrom5Cases as CasesWrite>⟧.answers };

    fn part_meta() -> TypeMeta {
        <RequestFrom5Cases as CasesWrite>::part_meta()
    }

    fn tag_of(src: &Self::Src) -> WriteResult<usize> {
        <RequestFrom5Cases as CasesWrite>::tag_of(src)
    }

    fn part_size(src: &Self::Src) -> WriteResult<usize> {
        <RequestFrom5Cases as CasesWrite>::part_size(src)
    }

    fn write_part<W: Writer>(writer: &mut W, src: &Self::Src) -> WriteResult<()> {
        <RequestFrom5Cases as CasesWrite>::write_part::<W>(writer, src)
    }
}

impl<L: Lending> CasesRead<L> for RequestFrom5 {
    type Dst = Result<Option<u64>, Result<(), Result<(u64, String), ()>>>;

    ghost Value = { ⟦<RequestFrom5Cases as CasesRead<L>>⟧.Value };

    ghost model = { ⟦<RequestFrom5Cases as CasesRead<L>>⟧.model };

    ghost is_valid = { ⟦<RequestFrom5Cases as CasesRead<L>>⟧.is_valid };

    ghost tag = { ⟦<RequestFrom5Cases as CasesRead<L>>⟧.tag };

    ghost own = { ⟦<RequestFrom5Cases as CasesRead<L>>⟧.own };

    ghost part = { ⟦<RequestFrom5Cases as CasesRead<L>>⟧.part };

    ghost refused = { ⟦<RequestFrom5Cases as CasesRead<L>>⟧.refused };

    fn part_meta() -> TypeMeta {
        <RequestFrom5Cases as CasesRead<L>>::part_meta()
    }

    fn prealloc_size() -> usize {
        <RequestFrom5Cases as CasesRead<L>>::prealloc_size()
    }

    fn get_case<R: Reader<L>>(
        alloc: Global,
        reader: &mut R,
        given: usize,
    ) -> ReadResult<Self::Dst> {
        <RequestFrom5Cases as CasesRead<L>>::get_case::<R>(alloc, reader, given)
    }

    ghost case_laws = { ⟦<RequestFrom5Cases as LawfulCases<L>>⟧.case_laws };
}

impl<L: Lending> LawfulCases<L> for RequestFrom5 {
    type Dst = Result<Option<u64>, Result<(), Result<(u64, String), ()>>>;

    ghost Value = { ⟦<RequestFrom5Cases as LawfulCases<L>>⟧.Value };

    ghost model = { ⟦<RequestFrom5Cases as LawfulCases<L>>⟧.model };

    ghost is_valid = { ⟦<RequestFrom5Cases as LawfulCases<L>>⟧.is_valid };

    ghost tag = { ⟦<RequestFrom5Cases as LawfulCases<L>>⟧.tag };

    ghost own = { ⟦<RequestFrom5Cases as LawfulCases<L>>⟧.own };

    ghost part = { ⟦<RequestFrom5Cases as LawfulCases<L>>⟧.part };

    ghost refused = { ⟦<RequestFrom5Cases as LawfulCases<L>>⟧.refused };

    ghost case_laws = { ⟦<RequestFrom5Cases as LawfulCases<L>>⟧.case_laws };
}

impl<L: Lending> CasesRoundTrip<L> for RequestFrom5
where
    RequestFrom5Cases: CasesRoundTrip<L>,
{
    ghost back = { bound-5.back };
}

impl<L: Lending> CasesOneText<L> for RequestFrom5
where
    RequestFrom5Cases: PartOneText<L>,
{
    ghost cases_one_text = { bound-5.part_one_text };
}

impl<L: Lending> CasesReadOwned<L> for RequestFrom5
where
    RequestFrom5Cases: PartReadOwned<L>,
{
    ghost cases_owned = { bound-5.part_owned };
}

impl RequestFrom5 {
    fn make(made_of: Result<Option<u64>, Result<(), Result<(u64, String), ()>>>) -> Request
        ensures { ⟦<Request as EnumParts>⟧.parts result ≡ Err made_of }
    {
        match made_of {
            Ok(a) => Request::Limited(a),
            Err(rest) => match rest {
                Ok(()) => Request::Close,
                Err(rest) => match rest {
                    Ok((a, b)) => Request::Paid(a, b),
                    Err(()) => Request::Ended,
                },
            },
        }
    }
}

type RequestCases = OneOf<<Request as EnumShape>::Tag, <Request as EnumShape>::Cases>;

impl EnumParts for Request {
    type Src = Request;

    type Parts = Result<
        Result<(), Result<(u64, u64, [u8; 32]), Result<([u8; 32], u8), String>>>,
        Result<Option<u64>, Result<(), Result<(u64, String), ()>>>,
    >;

    ghost parts = { elim [
      | Request-Status ↦ Ok (Ok tt)
      | Request-Open a b c ↦ Ok (Err (Ok (a, b, c)))
      | Request-Sealed a b ↦ Ok (Err (Err (Ok (
        a,
        b,
      ))))
      | Request-Named a ↦ Ok (Err (Err (Err a)))
      | Request-Limited a ↦ Err (Ok a)
      | Request-Close ↦ Err (Err (Ok tt))
      | Request-Paid a b ↦ Err (Err (Err (Ok (
        a,
        b,
      ))))
      | Request-Ended ↦ Err (Err (Err (Err tt)))
    ] };

    fn make(made_of: Self::Parts) -> Request {
        match made_of {
            Ok(parts) => RequestFrom1::make(parts),
            Err(parts) => RequestFrom5::make(parts),
        }
    }
}

impl EnumShape for Request {
    type Tag = u32;

    type Cases = Split<4, RequestFrom1, RequestFrom5>;

    fn tag(src: &Request) -> usize {
        match src {
            Request::Status => 0,
            Request::Open { .. } => 1,
            Request::Sealed(_, _) => 2,
            Request::Named(_) => 3,
            Request::Limited(_) => 4,
            Request::Close => 5,
            Request::Paid(_, _) => 6,
            Request::Ended => 7,
        }
    }

    fn part_size(src: &Request) -> WriteResult<usize> {
        match src {
            Request::Status => <() as SchemaWrite>::size_of(&()),
            Request::Open {
                lamports,
                space,
                owner,
            } => size_of_members_3::<u64, u64, [u8; 32]>(lamports, space, owner),
            Request::Sealed(a, b) => size_of_members_2::<[u8; 32], u8>(a, b),
            Request::Named(a) => <String as SchemaWrite>::size_of(a),
            Request::Limited(a) => <Option<u64> as SchemaWrite>::size_of(a),
            Request::Close => <() as SchemaWrite>::size_of(&()),
            Request::Paid(a, b) => size_of_members_2::<u64, String>(a, b),
            Request::Ended => <() as SchemaWrite>::size_of(&()),
        }
    }

    fn write_part<W: Writer>(writer: &mut W, src: &Request) -> WriteResult<()> {
        match src {
            Request::Status => <() as SchemaWrite>::write::<W>(writer, &()),
            Request::Open {
                lamports,
                space,
                owner,
            } => write_members_3::<u64, u64, [u8; 32], W>(writer, lamports, space, owner),
            Request::Sealed(a, b) => write_members_2::<[u8; 32], u8, W>(writer, a, b),
            Request::Named(a) => <String as SchemaWrite>::write::<W>(writer, a),
            Request::Limited(a) => <Option<u64> as SchemaWrite>::write::<W>(writer, a),
            Request::Close => <() as SchemaWrite>::write::<W>(writer, &()),
            Request::Paid(a, b) => write_members_2::<u64, String, W>(writer, a, b),
            Request::Ended => <() as SchemaWrite>::write::<W>(writer, &()),
        }
    }

    fn encode_part(src: &Request, dst: &mut [u8]) -> Option<usize> {
        match src {
            Request::Status => <() as SchemaWrite>::encode_front(&(), dst),
            Request::Open {
                lamports,
                space,
                owner,
            } => encode_front_members_3::<u64, u64, [u8; 32]>(lamports, space, owner, dst),
            Request::Sealed(a, b) => encode_front_members_2::<[u8; 32], u8>(a, b, dst),
            Request::Named(a) => <String as SchemaWrite>::encode_front(a, dst),
            Request::Limited(a) => <Option<u64> as SchemaWrite>::encode_front(a, dst),
            Request::Close => <() as SchemaWrite>::encode_front(&(), dst),
            Request::Paid(a, b) => encode_front_members_2::<u64, String>(a, b, dst),
            Request::Ended => <() as SchemaWrite>::encode_front(&(), dst),
        }
    }
}

impl SchemaWrite for Request {
    type Src = Request;

    ghost Value = { ⟦<RequestCases as SchemaWrite>⟧.Value };

    ghost model = { λ x. ⟦<RequestCases as SchemaWrite>⟧.model (⟦<Request as EnumParts>⟧.parts x) };

    ghost is_valid = { λ x. ⟦<RequestCases as SchemaWrite>⟧.is_valid (⟦<Request as EnumParts>⟧.parts x) };

    ghost writing = { ⟦<RequestCases as SchemaWrite>⟧.writing };

    fn type_meta() -> TypeMeta {
        <RequestCases as SchemaWrite>::type_meta()
    }

    fn size_of(src: &Request) -> WriteResult<usize> {
        size_of_enum::<Request>(src)
    }

    fn write<W: Writer>(writer: &mut W, src: &Request) -> WriteResult<()> {
        write_enum::<Request, W>(writer, src)
    }

    #[inline(always)]
    fn encode_front(src: &Request, dst: &mut [u8]) -> Option<usize> {
        encode_enum::<Request>(src, dst)
    }

    ghost write_laws = { write_laws_by ⟦<Request as EnumParts>⟧.parts ⟦<RequestCases as SchemaWrite>⟧.write_laws };
}

impl<L: Lending> SchemaRead<L> for Request {
    type Dst = Request;

    ghost Value = { ⟦<RequestCases as SchemaRead<L>>⟧.Value };

    ghost model = { λ x. ⟦<RequestCases as SchemaRead<L>>⟧.model (⟦<Request as EnumParts>⟧.parts x) };

    ghost is_valid = { ⟦<RequestCases as SchemaRead<L>>⟧.is_valid };

    ghost reading = { ⟦<RequestCases as SchemaRead<L>>⟧.reading };

    fn type_meta() -> TypeMeta {
        <RequestCases as SchemaRead<L>>::type_meta()
    }

    fn prealloc_size() -> usize {
        <RequestCases as SchemaRead<L>>::prealloc_size()
    }

    fn read<R: Reader<L>>(
        alloc: Global,
        reader: &mut R,
        dst: &mut Option<Request>,
    ) -> ReadResult<()> {
        read_enum::<L, RequestCases, Request, R>(alloc, reader, dst)
    }

    ghost read_laws = { ⟦<RequestCases as Lawful<L>>⟧.read_laws };
}

impl<L: Lending> Lawful<L> for Request {
    type Dst = Request;

    ghost Value = { ⟦<RequestCases as Lawful<L>>⟧.Value };

    ghost model = { λ x. ⟦<RequestCases as Lawful<L>>⟧.model (⟦<Request as EnumParts>⟧.parts x) };

    ghost is_valid = { ⟦<RequestCases as Lawful<L>>⟧.is_valid };

    ghost reading = { ⟦<RequestCases as Lawful<L>>⟧.reading };

    ghost read_laws = { ⟦<RequestCases as Lawful<L>>⟧.read_laws };
}

impl<L: Lending> RoundTrip<L> for Request
where
    RequestCases: RoundTrip<L>,
{
    ghost reads_back = { reads_back_by ⟦<Request as EnumParts>⟧.parts bound-5.reads_back };
}

impl<L: Lending> OneText<L> for Request
where
    RequestCases: FieldsOneText<L>,
{
    ghost one_text = { bound-5.fields_one_text };
}

impl<L: Lending> SchemaReadOwned<L> for Request
where
    RequestCases: FieldsReadOwned<L>,
{
    ghost owned = { bound-5.fields_owned };
}

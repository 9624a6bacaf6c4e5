//! Written by `wincode_derive`: the schemas of what the module above declares.
ghost use Rattle.wincode_base.specs.PairLaws.{write_laws_by, reads_back_by};

use super::*;
use std::alloc::Global;
use wincode::io::{Lending, Reader, Writer};
use wincode::schema::tuples::{
    encode_front_members_3, encode_front_members_12, size_of_members_3, size_of_members_12,
    write_members_3, write_members_12,
};
use wincode::{
    OneText, ReadResult, RoundTrip, SchemaRead, SchemaReadOwned, SchemaWrite, TypeMeta, WriteResult,
};
use wincode_derive_support::enums::{EnumParts, read_enum};
use wincode_derive_support::laws::{FieldsOneText, FieldsReadOwned, Lawful};

type ReportFields = (
    u32,
    String,
    Vec<Note>,
    Box<Signal>,
    Result<u8, String>,
    (i32, i32),
    [u8; 4],
    char,
    usize,
    Vec<Page<u16>>,
    Pair<u8, Alone<bool>>,
    (bool, u32, u32),
);

impl SchemaWrite for Report {
    type Src = Report;

    ghost Value = { ⟦<ReportFields as SchemaWrite>⟧.Value };

    ghost model = { λ x. ⟦<ReportFields as SchemaWrite>⟧.model (
      x.number,
      x.title,
      x.notes,
      x.signal,
      x.outcome,
      x.place,
      x.seal,
      x.letter,
      x.weight,
      x.pages,
      x.pair,
      (x.is_open, x.begun, x.ended),
    ) };

    ghost is_valid = { λ x. ⟦<ReportFields as SchemaWrite>⟧.is_valid (
      x.number,
      x.title,
      x.notes,
      x.signal,
      x.outcome,
      x.place,
      x.seal,
      x.letter,
      x.weight,
      x.pages,
      x.pair,
      (x.is_open, x.begun, x.ended),
    ) };

    ghost writing = { ⟦<ReportFields as SchemaWrite>⟧.writing };

    fn type_meta() -> TypeMeta {
        <ReportFields as SchemaWrite>::type_meta()
    }

    fn size_of(src: &Report) -> WriteResult<usize> {
        size_of_members_12::<
            u32,
            String,
            Vec<Note>,
            Box<Signal>,
            Result<u8, String>,
            (i32, i32),
            [u8; 4],
            char,
            usize,
            Vec<Page<u16>>,
            Pair<u8, Alone<bool>>,
            ReportFrom12,
        >(
            &src.number,
            &src.title,
            &src.notes,
            &src.signal,
            &src.outcome,
            &src.place,
            &src.seal,
            &src.letter,
            &src.weight,
            &src.pages,
            &src.pair,
            src,
        )
    }

    fn write<W: Writer>(writer: &mut W, src: &Report) -> WriteResult<()> {
        write_members_12::<
            u32,
            String,
            Vec<Note>,
            Box<Signal>,
            Result<u8, String>,
            (i32, i32),
            [u8; 4],
            char,
            usize,
            Vec<Page<u16>>,
            Pair<u8, Alone<bool>>,
            ReportFrom12,
            W,
        >(
            writer,
            &src.number,
            &src.title,
            &src.notes,
            &src.signal,
            &src.outcome,
            &src.place,
            &src.seal,
            &src.letter,
            &src.weight,
            &src.pages,
            &src.pair,
            src,
        )
    }

    #[inline(always)]
    fn encode_front(src: &Report, dst: &mut [u8]) -> Option<usize> {
        encode_front_members_12::<
            u32,
            String,
            Vec<Note>,
            Box<Signal>,
            Result<u8, String>,
            (i32, i32),
            [u8; 4],
            char,
            usize,
            Vec<Page<u16>>,
            Pair<u8, Alone<bool>>,
            ReportFrom12,
        >(
            &src.number,
            &src.title,
            &src.notes,
            &src.signal,
            &src.outcome,
            &src.place,
            &src.seal,
            &src.letter,
            &src.weight,
            &src.pages,
            &src.pair,
            src,
            dst,
        )
    }

    ghost write_laws = { write_laws_by (λ x. (
      x.number,
      x.title,
      x.notes,
      x.signal,
      x.outcome,
      x.place,
      x.seal,
      x.letter,
      x.weight,
      x.pages,
      x.pair,
      (x.is_open, x.begun, x.ended),
    )) ⟦<ReportFields as SchemaWrite>⟧.write_laws };
}

/// The fields from the 12th on.
struct ReportFrom12;

type ReportFrom12Fields = (bool, u32, u32);

impl SchemaWrite for ReportFrom12 {
    type Src = Report;

    ghost Value = { ⟦<ReportFrom12Fields as SchemaWrite>⟧.Value };

    ghost model = { λ x. ⟦<ReportFrom12Fields as SchemaWrite>⟧.model (x.is_open, x.begun, x.ended) };

    ghost is_valid = { λ x. ⟦<ReportFrom12Fields as SchemaWrite>⟧.is_valid (x.is_open, x.begun, x.ended) };

    ghost writing = { ⟦<ReportFrom12Fields as SchemaWrite>⟧.writing };

    fn type_meta() -> TypeMeta {
        <ReportFrom12Fields as SchemaWrite>::type_meta()
    }

    fn size_of(src: &Report) -> WriteResult<usize> {
        size_of_members_3::<bool, u32, u32>(&src.is_open, &src.begun, &src.ended)
    }

    fn write<W: Writer>(writer: &mut W, src: &Report) -> WriteResult<()> {
        write_members_3::<bool, u32, u32, W>(writer, &src.is_open, &src.begun, &src.ended)
    }

    #[inline(always)]
    fn encode_front(src: &Report, dst: &mut [u8]) -> Option<usize> {
        encode_front_members_3::<bool, u32, u32>(&src.is_open, &src.begun, &src.ended, dst)
    }

    ghost write_laws = { write_laws_by (λ x. (x.is_open, x.begun, x.ended)) ⟦<ReportFrom12Fields as SchemaWrite>⟧.write_laws };
}

impl EnumParts for Report {
    type Src = Report;

    type Parts = (
        u32,
        String,
        Vec<Note>,
        Box<Signal>,
        Result<u8, String>,
        (i32, i32),
        [u8; 4],
        char,
        usize,
        Vec<Page<u16>>,
        Pair<u8, Alone<bool>>,
        (bool, u32, u32),
    );

    ghost parts = { λ x. (
      x.number,
      x.title,
      x.notes,
      x.signal,
      x.outcome,
      x.place,
      x.seal,
      x.letter,
      x.weight,
      x.pages,
      x.pair,
      (
        x.is_open,
        x.begun,
        x.ended,
      ),
    ) };

    fn make(made_of: Self::Parts) -> Report {
        let (
            number,
            title,
            notes,
            signal,
            outcome,
            place_field,
            seal,
            letter,
            weight,
            pages,
            pair,
            rest,
        ) = made_of;
        let (is_open, begun, ended) = rest;
        Report {
            number,
            title,
            notes,
            signal,
            outcome,
            place: place_field,
            seal,
            letter,
            weight,
            pages,
            pair,
            is_open,
            begun,
            ended,
        }
    }
}

impl<L: Lending> SchemaRead<L> for Report {
    type Dst = Report;

    ghost Value = { ⟦<ReportFields as SchemaRead<L>>⟧.Value };

    ghost model = { λ x. ⟦<ReportFields as SchemaRead<L>>⟧.model (
      x.number,
      x.title,
      x.notes,
      x.signal,
      x.outcome,
      x.place,
      x.seal,
      x.letter,
      x.weight,
      x.pages,
      x.pair,
      (x.is_open, x.begun, x.ended),
    ) };

    ghost is_valid = { ⟦<ReportFields as SchemaRead<L>>⟧.is_valid };

    ghost reading = { ⟦<ReportFields as SchemaRead<L>>⟧.reading };

    fn type_meta() -> TypeMeta {
        <ReportFields as SchemaRead<L>>::type_meta()
    }

    fn prealloc_size() -> usize {
        <ReportFields as SchemaRead<L>>::prealloc_size()
    }

    fn read<R: Reader<L>>(
        alloc: Global,
        reader: &mut R,
        dst: &mut Option<Report>,
    ) -> ReadResult<()> {
        read_enum::<L, ReportFields, Report, R>(alloc, reader, dst)
    }

    ghost read_laws = { ⟦<ReportFields as Lawful<L>>⟧.read_laws };
}

impl<L: Lending> Lawful<L> for Report {
    type Dst = Report;

    ghost Value = { ⟦<ReportFields as Lawful<L>>⟧.Value };

    ghost model = { λ x. ⟦<ReportFields as Lawful<L>>⟧.model (
      x.number,
      x.title,
      x.notes,
      x.signal,
      x.outcome,
      x.place,
      x.seal,
      x.letter,
      x.weight,
      x.pages,
      x.pair,
      (x.is_open, x.begun, x.ended),
    ) };

    ghost is_valid = { ⟦<ReportFields as Lawful<L>>⟧.is_valid };

    ghost reading = { ⟦<ReportFields as Lawful<L>>⟧.reading };

    ghost read_laws = { ⟦<ReportFields as Lawful<L>>⟧.read_laws };
}

impl<L: Lending> RoundTrip<L> for Report
where
    ReportFields: RoundTrip<L>,
{
    ghost reads_back = { reads_back_by (λ x. (
      x.number,
      x.title,
      x.notes,
      x.signal,
      x.outcome,
      x.place,
      x.seal,
      x.letter,
      x.weight,
      x.pages,
      x.pair,
      (x.is_open, x.begun, x.ended),
    )) bound-5.reads_back };
}

impl<L: Lending> OneText<L> for Report
where
    ReportFields: FieldsOneText<L>,
{
    ghost one_text = { bound-5.fields_one_text };
}

impl<L: Lending> SchemaReadOwned<L> for Report
where
    ReportFields: FieldsReadOwned<L>,
{
    ghost owned = { bound-5.fields_owned };
}

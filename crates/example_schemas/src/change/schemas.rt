//! Written by `wincode_derive`: the schemas of what the module above declares.
ghost use Rattle.std.specs.Prelude.{Ok, Err};
ghost use Rattle.wincode_base.specs.PairLaws.{write_laws_by, reads_back_by};
ghost use Rattle.example_schemas.specs.declared.change.Change.TheVariants.{Closed as Change-Closed, Named as Change-Named};

use super::*;
use std::alloc::Global;
use wincode::io::{Lending, Reader, Writer};
use wincode::{
    OneText, ReadResult, RoundTrip, SchemaRead, SchemaReadOwned, SchemaWrite, TypeMeta, WriteResult,
};
use wincode_derive_support::enums::{
    EnumParts, EnumShape, encode_enum, read_enum, size_of_enum, write_enum,
};
use wincode_derive_support::laws::{FieldsOneText, FieldsReadOwned, Lawful};
use wincode_derive_support::sums::{Case, Last, OneOf};

type ChangeCases = OneOf<<Change as EnumShape>::Tag, <Change as EnumShape>::Cases>;

impl EnumParts for Change {
    type Src = Change;

    type Parts = Result<u64, String>;

    ghost parts = { elim [ Change-Closed a ↦ Ok a | Change-Named a ↦ Err a ] };

    fn make(made_of: Self::Parts) -> Change {
        match made_of {
            Ok(a) => Change::Closed(a),
            Err(a) => Change::Named(a),
        }
    }
}

impl EnumShape for Change {
    type Tag = u32;

    type Cases = Case<0, u64, Last<1, String>>;

    fn tag(src: &Change) -> usize {
        match src {
            Change::Closed(_) => 0,
            Change::Named(_) => 1,
        }
    }

    fn part_size(src: &Change) -> WriteResult<usize> {
        match src {
            Change::Closed(a) => <u64 as SchemaWrite>::size_of(a),
            Change::Named(a) => <String as SchemaWrite>::size_of(a),
        }
    }

    fn write_part<W: Writer>(writer: &mut W, src: &Change) -> WriteResult<()> {
        match src {
            Change::Closed(a) => <u64 as SchemaWrite>::write::<W>(writer, a),
            Change::Named(a) => <String as SchemaWrite>::write::<W>(writer, a),
        }
    }

    fn encode_part(src: &Change, dst: &mut [u8]) -> Option<usize> {
        match src {
            Change::Closed(a) => <u64 as SchemaWrite>::encode_front(a, dst),
            Change::Named(a) => <String as SchemaWrite>::encode_front(a, dst),
        }
    }
}

impl SchemaWrite for Change {
    type Src = Change;

    ghost Value = { ⟦<ChangeCases as SchemaWrite>⟧.Value };

    ghost model = { λ x. ⟦<ChangeCases as SchemaWrite>⟧.model (⟦<Change as EnumParts>⟧.parts x) };

    ghost is_valid = { λ x. ⟦<ChangeCases as SchemaWrite>⟧.is_valid (⟦<Change as EnumParts>⟧.parts x) };

    ghost writing = { ⟦<ChangeCases as SchemaWrite>⟧.writing };

    fn type_meta() -> TypeMeta {
        <ChangeCases as SchemaWrite>::type_meta()
    }

    fn size_of(src: &Change) -> WriteResult<usize> {
        size_of_enum::<Change>(src)
    }

    fn write<W: Writer>(writer: &mut W, src: &Change) -> WriteResult<()> {
        write_enum::<Change, W>(writer, src)
    }

    #[inline(always)]
    fn encode_front(src: &Change, dst: &mut [u8]) -> Option<usize> {
        encode_enum::<Change>(src, dst)
    }

    ghost write_laws = { write_laws_by ⟦<Change as EnumParts>⟧.parts ⟦<ChangeCases as SchemaWrite>⟧.write_laws };
}

impl<L: Lending> SchemaRead<L> for Change {
    type Dst = Change;

    ghost Value = { ⟦<ChangeCases as SchemaRead<L>>⟧.Value };

    ghost model = { λ x. ⟦<ChangeCases as SchemaRead<L>>⟧.model (⟦<Change as EnumParts>⟧.parts x) };

    ghost is_valid = { ⟦<ChangeCases as SchemaRead<L>>⟧.is_valid };

    ghost reading = { ⟦<ChangeCases as SchemaRead<L>>⟧.reading };

    fn type_meta() -> TypeMeta {
        <ChangeCases as SchemaRead<L>>::type_meta()
    }

    fn prealloc_size() -> usize {
        <ChangeCases as SchemaRead<L>>::prealloc_size()
    }

    fn read<R: Reader<L>>(
        alloc: Global,
        reader: &mut R,
        dst: &mut Option<Change>,
    ) -> ReadResult<()> {
        read_enum::<L, ChangeCases, Change, R>(alloc, reader, dst)
    }

    ghost read_laws = { ⟦<ChangeCases as Lawful<L>>⟧.read_laws };
}

impl<L: Lending> Lawful<L> for Change {
    type Dst = Change;

    ghost Value = { ⟦<ChangeCases as Lawful<L>>⟧.Value };

    ghost model = { λ x. ⟦<ChangeCases as Lawful<L>>⟧.model (⟦<Change as EnumParts>⟧.parts x) };

    ghost is_valid = { ⟦<ChangeCases as Lawful<L>>⟧.is_valid };

    ghost reading = { ⟦<ChangeCases as Lawful<L>>⟧.reading };

    ghost read_laws = { ⟦<ChangeCases as Lawful<L>>⟧.read_laws };
}

impl<L: Lending> RoundTrip<L> for Change
where
    ChangeCases: RoundTrip<L>,
{
    ghost reads_back = { reads_back_by ⟦<Change as EnumParts>⟧.parts bound-5.reads_back };
}

impl<L: Lending> OneText<L> for Change
where
    ChangeCases: FieldsOneText<L>,
{
    ghost one_text = { bound-5.fields_one_text };
}

impl<L: Lending> SchemaReadOwned<L> for Change
where
    ChangeCases: FieldsReadOwned<L>,
{
    ghost owned = { bound-5.fields_owned };
}

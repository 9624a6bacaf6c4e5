//! Written by `wincode_derive`: the schemas of what the module above declares.
ghost use Rattle.std.specs.Prelude.{Ok, Err};
ghost use Rattle.wincode_base.specs.PairLaws.{write_laws_by, reads_back_by};
ghost use Rattle.sample_types.specs.declared.signal.Signal.TheVariants.{
  Start as Signal-Start,
  Noted as Signal-Noted,
  Moved as Signal-Moved,
  Named as Signal-Named,
};

use super::*;
use std::alloc::Global;
use wincode::io::{Lending, Reader, Writer};
use wincode::schema::tuples::{
    encode_front_members_2, encode_front_members_3, size_of_members_2, size_of_members_3,
    write_members_2, write_members_3,
};
use wincode::{
    OneText, ReadResult, RoundTrip, SchemaRead, SchemaReadOwned, SchemaWrite, TypeMeta, WriteResult,
};
use wincode_derive_support::enums::{
    EnumParts, EnumShape, encode_enum, read_enum, size_of_enum, write_enum,
};
use wincode_derive_support::laws::{FieldsOneText, FieldsReadOwned, Lawful};
use wincode_derive_support::sums::{Case, Last, OneOf};

type SignalCases = OneOf<<Signal as EnumShape>::Tag, <Signal as EnumShape>::Cases>;

impl EnumParts for Signal {
    type Src = Signal;

    type Parts = Result<(), Result<Note, Result<(u32, i16), (String, Vec<u16>, u64)>>>;

    ghost parts = { elim [
      | Signal-Start ↦ Ok tt
      | Signal-Noted a ↦ Err (Ok a)
      | Signal-Moved a b ↦ Err (Err (Ok (a, b)))
      | Signal-Named a b c ↦ Err (Err (Err (
        a,
        b,
        c,
      )))
    ] };

    fn make(made_of: Self::Parts) -> Signal {
        match made_of {
            Ok(()) => Signal::Start,
            Err(rest) => match rest {
                Ok(a) => Signal::Noted(a),
                Err(rest) => match rest {
                    Ok((a, b)) => Signal::Moved(a, b),
                    Err((name, marks, at)) => Signal::Named { name, marks, at },
                },
            },
        }
    }
}

impl EnumShape for Signal {
    type Tag = u8;

    type Cases = Case<
        5,
        (),
        Case<
            8,
            Note,
            Case<13, (u32, i16), Last<21, (String, containers::Vec<u16, ShortU16Len>, u64)>>,
        >,
    >;

    fn tag(src: &Signal) -> usize {
        match src {
            Signal::Start => 5,
            Signal::Noted(_) => 8,
            Signal::Moved(_, _) => 13,
            Signal::Named { .. } => 21,
        }
    }

    fn part_size(src: &Signal) -> WriteResult<usize> {
        match src {
            Signal::Start => <() as SchemaWrite>::size_of(&()),
            Signal::Noted(a) => <Note as SchemaWrite>::size_of(a),
            Signal::Moved(a, b) => size_of_members_2::<u32, i16>(a, b),
            Signal::Named { name, marks, at } => size_of_members_3::<
                String,
                containers::Vec<u16, ShortU16Len>,
                u64,
            >(name, marks, at),
        }
    }

    fn write_part<W: Writer>(writer: &mut W, src: &Signal) -> WriteResult<()> {
        match src {
            Signal::Start => <() as SchemaWrite>::write::<W>(writer, &()),
            Signal::Noted(a) => <Note as SchemaWrite>::write::<W>(writer, a),
            Signal::Moved(a, b) => write_members_2::<u32, i16, W>(writer, a, b),
            Signal::Named { name, marks, at } => write_members_3::<
                String,
                containers::Vec<u16, ShortU16Len>,
                u64,
                W,
            >(writer, name, marks, at),
        }
    }

    fn encode_part(src: &Signal, dst: &mut [u8]) -> Option<usize> {
        match src {
            Signal::Start => <() as SchemaWrite>::encode_front(&(), dst),
            Signal::Noted(a) => <Note as SchemaWrite>::encode_front(a, dst),
            Signal::Moved(a, b) => encode_front_members_2::<u32, i16>(a, b, dst),
            Signal::Named { name, marks, at } => encode_front_members_3::<
                String,
                containers::Vec<u16, ShortU16Len>,
                u64,
            >(name, marks, at, dst),
        }
    }
}

impl SchemaWrite for Signal {
    type Src = Signal;

    ghost Value = { ⟦<SignalCases as SchemaWrite>⟧.Value };

    ghost model = { λ x. ⟦<SignalCases as SchemaWrite>⟧.model (⟦<Signal as EnumParts>⟧.parts x) };

    ghost is_valid = { λ x. ⟦<SignalCases as SchemaWrite>⟧.is_valid (⟦<Signal as EnumParts>⟧.parts x) };

    ghost writing = { ⟦<SignalCases as SchemaWrite>⟧.writing };

    fn type_meta() -> TypeMeta {
        <SignalCases as SchemaWrite>::type_meta()
    }

    fn size_of(src: &Signal) -> WriteResult<usize> {
        size_of_enum::<Signal>(src)
    }

    fn write<W: Writer>(writer: &mut W, src: &Signal) -> WriteResult<()> {
        write_enum::<Signal, W>(writer, src)
    }

    #[inline(always)]
    fn encode_front(src: &Signal, dst: &mut [u8]) -> Option<usize> {
        encode_enum::<Signal>(src, dst)
    }

    ghost write_laws = { write_laws_by ⟦<Signal as EnumParts>⟧.parts ⟦<SignalCases as SchemaWrite>⟧.write_laws };
}

impl<L: Lending> SchemaRead<L> for Signal {
    type Dst = Signal;

    ghost Value = { ⟦<SignalCases as SchemaRead<L>>⟧.Value };

    ghost model = { λ x. ⟦<SignalCases as SchemaRead<L>>⟧.model (⟦<Signal as EnumParts>⟧.parts x) };

    ghost is_valid = { ⟦<SignalCases as SchemaRead<L>>⟧.is_valid };

    ghost reading = { ⟦<SignalCases as SchemaRead<L>>⟧.reading };

    fn type_meta() -> TypeMeta {
        <SignalCases as SchemaRead<L>>::type_meta()
    }

    fn prealloc_size() -> usize {
        <SignalCases as SchemaRead<L>>::prealloc_size()
    }

    fn read<R: Reader<L>>(
        alloc: Global,
        reader: &mut R,
        dst: &mut Option<Signal>,
    ) -> ReadResult<()> {
        read_enum::<L, SignalCases, Signal, R>(alloc, reader, dst)
    }

    ghost read_laws = { ⟦<SignalCases as Lawful<L>>⟧.read_laws };
}

impl<L: Lending> Lawful<L> for Signal {
    type Dst = Signal;

    ghost Value = { ⟦<SignalCases as Lawful<L>>⟧.Value };

    ghost model = { λ x. ⟦<SignalCases as Lawful<L>>⟧.model (⟦<Signal as EnumParts>⟧.parts x) };

    ghost is_valid = { ⟦<SignalCases as Lawful<L>>⟧.is_valid };

    ghost reading = { ⟦<SignalCases as Lawful<L>>⟧.reading };

    ghost read_laws = { ⟦<SignalCases as Lawful<L>>⟧.read_laws };
}

impl<L: Lending> RoundTrip<L> for Signal
where
    SignalCases: RoundTrip<L>,
{
    ghost reads_back = { reads_back_by ⟦<Signal as EnumParts>⟧.parts bound-5.reads_back };
}

impl<L: Lending> OneText<L> for Signal
where
    SignalCases: FieldsOneText<L>,
{
    ghost one_text = { bound-5.fields_one_text };
}

impl<L: Lending> SchemaReadOwned<L> for Signal
where
    SignalCases: FieldsReadOwned<L>,
{
    ghost owned = { bound-5.fields_owned };
}

//! Written by `wincode_derive` EventU8 EventU32 MarkU8: the schemas of what the module above declares.
ghost use Rattle.std.specs.Prelude.{Ok, Err};
ghost use Rattle.wincode_base.specs.PairLaws.{write_laws_by, reads_back_by};
ghost use Rattle.example_schemas.specs.declared.event.Event.TheVariants.{Named as EventU8-Named, Blob as EventU8-Blob, Empty as EventU8-Empty};
ghost use Rattle.example_schemas.specs.declared.event.Event.TheVariants.{Named as EventU32-Named, Blob as EventU32-Blob, Empty as EventU32-Empty};
ghost use Rattle.example_schemas.specs.declared.event.Mark.TheVariants.{A as MarkU8-A, B as MarkU8-B, C as MarkU8-C};

use super::*;
use std::alloc::Global;
use wincode::io::{Lending, Reader, Writer};
use wincode::schema::tuples::{encode_front_members_2, size_of_members_2, write_members_2};
use wincode::{
    OneText, ReadResult, RoundTrip, SchemaRead, SchemaReadOwned, SchemaWrite, TypeMeta, WriteResult,
};
use wincode_derive_support::enums::{
    EnumParts, EnumShape, encode_enum, read_enum, size_of_enum, write_enum,
};
use wincode_derive_support::laws::{FieldsOneText, FieldsReadOwned, Lawful};
use wincode_derive_support::sums::{Case, Counted, Last, OneOf};

type EventU8Cases = OneOf<<EventU8 as EnumShape>::Tag, <EventU8 as EnumShape>::Cases>;

impl EnumParts for EventU8 {
    type Src = Event;

    type Parts = Result<(String, u64), Result<(String, Vec<u8>), ()>>;

    ghost parts = { elim [ EventU8-Named a b ↦ Ok (a, b) | EventU8-Blob a b ↦ Err (Ok (a, b)) | EventU8-Empty ↦ Err (Err tt) ] };

    fn make(made_of: Self::Parts) -> Event {
        match made_of {
            Ok((name, id)) => Event::Named { name, id },
            Err(rest) => match rest {
                Ok((a, b)) => Event::Blob(a, b),
                Err(()) => Event::Empty,
            },
        }
    }
}

impl EnumShape for EventU8 {
    type Tag = u8;

    type Cases = Counted<56, Case<0, (String, u64), Case<1, (String, Vec<u8>), Last<2, ()>>>>;

    fn tag(src: &Event) -> usize {
        match src {
            Event::Named { .. } => 0,
            Event::Blob(_, _) => 1,
            Event::Empty => 2,
        }
    }

    fn part_size(src: &Event) -> WriteResult<usize> {
        match src {
            Event::Named { name, id } => size_of_members_2::<String, u64>(name, id),
            Event::Blob(a, b) => size_of_members_2::<String, Vec<u8>>(a, b),
            Event::Empty => <() as SchemaWrite>::size_of(&()),
        }
    }

    fn write_part<W: Writer>(writer: &mut W, src: &Event) -> WriteResult<()> {
        match src {
            Event::Named { name, id } => write_members_2::<String, u64, W>(writer, name, id),
            Event::Blob(a, b) => write_members_2::<String, Vec<u8>, W>(writer, a, b),
            Event::Empty => <() as SchemaWrite>::write::<W>(writer, &()),
        }
    }

    fn encode_part(src: &Event, dst: &mut [u8]) -> Option<usize> {
        match src {
            Event::Named { name, id } => encode_front_members_2::<String, u64>(name, id, dst),
            Event::Blob(a, b) => encode_front_members_2::<String, Vec<u8>>(a, b, dst),
            Event::Empty => <() as SchemaWrite>::encode_front(&(), dst),
        }
    }
}

impl SchemaWrite for EventU8 {
    type Src = Event;

    ghost Value = { ⟦<EventU8Cases as SchemaWrite>⟧.Value };

    ghost model = { λ x. ⟦<EventU8Cases as SchemaWrite>⟧.model (⟦<EventU8 as EnumParts>⟧.parts x) };

    ghost is_valid = { λ x. ⟦<EventU8Cases as SchemaWrite>⟧.is_valid (⟦<EventU8 as EnumParts>⟧.parts x) };

    ghost writing = { ⟦<EventU8Cases as SchemaWrite>⟧.writing };

    fn type_meta() -> TypeMeta {
        <EventU8Cases as SchemaWrite>::type_meta()
    }

    fn size_of(src: &Event) -> WriteResult<usize> {
        size_of_enum::<EventU8>(src)
    }

    fn write<W: Writer>(writer: &mut W, src: &Event) -> WriteResult<()> {
        write_enum::<EventU8, W>(writer, src)
    }

    #[inline(always)]
    fn encode_front(src: &Event, dst: &mut [u8]) -> Option<usize> {
        encode_enum::<EventU8>(src, dst)
    }

    ghost write_laws = { write_laws_by ⟦<EventU8 as EnumParts>⟧.parts ⟦<EventU8Cases as SchemaWrite>⟧.write_laws };
}

impl<L: Lending> SchemaRead<L> for EventU8 {
    type Dst = Event;

    ghost Value = { ⟦<EventU8Cases as SchemaRead<L>>⟧.Value };

    ghost model = { λ x. ⟦<EventU8Cases as SchemaRead<L>>⟧.model (⟦<EventU8 as EnumParts>⟧.parts x) };

    ghost is_valid = { ⟦<EventU8Cases as SchemaRead<L>>⟧.is_valid };

    ghost reading = { ⟦<EventU8Cases as SchemaRead<L>>⟧.reading };

    fn type_meta() -> TypeMeta {
        <EventU8Cases as SchemaRead<L>>::type_meta()
    }

    fn prealloc_size() -> usize {
        <EventU8Cases as SchemaRead<L>>::prealloc_size()
    }

    fn read<R: Reader<L>>(
        alloc: Global,
        reader: &mut R,
        dst: &mut Option<Event>,
    ) -> ReadResult<()> {
        read_enum::<L, EventU8Cases, EventU8, R>(alloc, reader, dst)
    }

    ghost read_laws = { ⟦<EventU8Cases as Lawful<L>>⟧.read_laws };
}

impl<L: Lending> Lawful<L> for EventU8 {
    type Dst = Event;

    ghost Value = { ⟦<EventU8Cases as Lawful<L>>⟧.Value };

    ghost model = { λ x. ⟦<EventU8Cases as Lawful<L>>⟧.model (⟦<EventU8 as EnumParts>⟧.parts x) };

    ghost is_valid = { ⟦<EventU8Cases as Lawful<L>>⟧.is_valid };

    ghost reading = { ⟦<EventU8Cases as Lawful<L>>⟧.reading };

    ghost read_laws = { ⟦<EventU8Cases as Lawful<L>>⟧.read_laws };
}

impl<L: Lending> RoundTrip<L> for EventU8
where
    EventU8Cases: RoundTrip<L>,
{
    ghost reads_back = { reads_back_by ⟦<EventU8 as EnumParts>⟧.parts bound-5.reads_back };
}

impl<L: Lending> OneText<L> for EventU8
where
    EventU8Cases: FieldsOneText<L>,
{
    ghost one_text = { bound-5.fields_one_text };
}

impl<L: Lending> SchemaReadOwned<L> for EventU8
where
    EventU8Cases: FieldsReadOwned<L>,
{
    ghost owned = { bound-5.fields_owned };
}

type EventU32Cases = OneOf<<EventU32 as EnumShape>::Tag, <EventU32 as EnumShape>::Cases>;

impl EnumParts for EventU32 {
    type Src = Event;

    type Parts = Result<(String, u64), Result<(String, Vec<u8>), ()>>;

    ghost parts = { elim [ EventU32-Named a b ↦ Ok (a, b) | EventU32-Blob a b ↦ Err (Ok (a, b)) | EventU32-Empty ↦ Err (Err tt) ] };

    fn make(made_of: Self::Parts) -> Event {
        match made_of {
            Ok((name, id)) => Event::Named { name, id },
            Err(rest) => match rest {
                Ok((a, b)) => Event::Blob(a, b),
                Err(()) => Event::Empty,
            },
        }
    }
}

impl EnumShape for EventU32 {
    type Tag = u32;

    type Cases = Counted<56, Case<5, (String, u64), Case<8, (String, Vec<u8>), Last<13, ()>>>>;

    fn tag(src: &Event) -> usize {
        match src {
            Event::Named { .. } => 5,
            Event::Blob(_, _) => 8,
            Event::Empty => 13,
        }
    }

    fn part_size(src: &Event) -> WriteResult<usize> {
        match src {
            Event::Named { name, id } => size_of_members_2::<String, u64>(name, id),
            Event::Blob(a, b) => size_of_members_2::<String, Vec<u8>>(a, b),
            Event::Empty => <() as SchemaWrite>::size_of(&()),
        }
    }

    fn write_part<W: Writer>(writer: &mut W, src: &Event) -> WriteResult<()> {
        match src {
            Event::Named { name, id } => write_members_2::<String, u64, W>(writer, name, id),
            Event::Blob(a, b) => write_members_2::<String, Vec<u8>, W>(writer, a, b),
            Event::Empty => <() as SchemaWrite>::write::<W>(writer, &()),
        }
    }

    fn encode_part(src: &Event, dst: &mut [u8]) -> Option<usize> {
        match src {
            Event::Named { name, id } => encode_front_members_2::<String, u64>(name, id, dst),
            Event::Blob(a, b) => encode_front_members_2::<String, Vec<u8>>(a, b, dst),
            Event::Empty => <() as SchemaWrite>::encode_front(&(), dst),
        }
    }
}

impl SchemaWrite for EventU32 {
    type Src = Event;

    ghost Value = { ⟦<EventU32Cases as SchemaWrite>⟧.Value };

    ghost model = { λ x. ⟦<EventU32Cases as SchemaWrite>⟧.model (⟦<EventU32 as EnumParts>⟧.parts x) };

    ghost is_valid = { λ x. ⟦<EventU32Cases as SchemaWrite>⟧.is_valid (⟦<EventU32 as EnumParts>⟧.parts x) };

    ghost writing = { ⟦<EventU32Cases as SchemaWrite>⟧.writing };

    fn type_meta() -> TypeMeta {
        <EventU32Cases as SchemaWrite>::type_meta()
    }

    fn size_of(src: &Event) -> WriteResult<usize> {
        size_of_enum::<EventU32>(src)
    }

    fn write<W: Writer>(writer: &mut W, src: &Event) -> WriteResult<()> {
        write_enum::<EventU32, W>(writer, src)
    }

    #[inline(always)]
    fn encode_front(src: &Event, dst: &mut [u8]) -> Option<usize> {
        encode_enum::<EventU32>(src, dst)
    }

    ghost write_laws = { write_laws_by ⟦<EventU32 as EnumParts>⟧.parts ⟦<EventU32Cases as SchemaWrite>⟧.write_laws };
}

impl<L: Lending> SchemaRead<L> for EventU32 {
    type Dst = Event;

    ghost Value = { ⟦<EventU32Cases as SchemaRead<L>>⟧.Value };

    ghost model = { λ x. ⟦<EventU32Cases as SchemaRead<L>>⟧.model (⟦<EventU32 as EnumParts>⟧.parts x) };

    ghost is_valid = { ⟦<EventU32Cases as SchemaRead<L>>⟧.is_valid };

    ghost reading = { ⟦<EventU32Cases as SchemaRead<L>>⟧.reading };

    fn type_meta() -> TypeMeta {
        <EventU32Cases as SchemaRead<L>>::type_meta()
    }

    fn prealloc_size() -> usize {
        <EventU32Cases as SchemaRead<L>>::prealloc_size()
    }

    fn read<R: Reader<L>>(
        alloc: Global,
        reader: &mut R,
        dst: &mut Option<Event>,
    ) -> ReadResult<()> {
        read_enum::<L, EventU32Cases, EventU32, R>(alloc, reader, dst)
    }

    ghost read_laws = { ⟦<EventU32Cases as Lawful<L>>⟧.read_laws };
}

impl<L: Lending> Lawful<L> for EventU32 {
    type Dst = Event;

    ghost Value = { ⟦<EventU32Cases as Lawful<L>>⟧.Value };

    ghost model = { λ x. ⟦<EventU32Cases as Lawful<L>>⟧.model (⟦<EventU32 as EnumParts>⟧.parts x) };

    ghost is_valid = { ⟦<EventU32Cases as Lawful<L>>⟧.is_valid };

    ghost reading = { ⟦<EventU32Cases as Lawful<L>>⟧.reading };

    ghost read_laws = { ⟦<EventU32Cases as Lawful<L>>⟧.read_laws };
}

impl<L: Lending> RoundTrip<L> for EventU32
where
    EventU32Cases: RoundTrip<L>,
{
    ghost reads_back = { reads_back_by ⟦<EventU32 as EnumParts>⟧.parts bound-5.reads_back };
}

impl<L: Lending> OneText<L> for EventU32
where
    EventU32Cases: FieldsOneText<L>,
{
    ghost one_text = { bound-5.fields_one_text };
}

impl<L: Lending> SchemaReadOwned<L> for EventU32
where
    EventU32Cases: FieldsReadOwned<L>,
{
    ghost owned = { bound-5.fields_owned };
}

type MarkU8Cases = OneOf<<MarkU8 as EnumShape>::Tag, <MarkU8 as EnumShape>::Cases>;

impl EnumParts for MarkU8 {
    type Src = Mark;

    type Parts = Result<(), Result<(), ()>>;

    ghost parts = { elim [ MarkU8-A ↦ Ok tt | MarkU8-B ↦ Err (Ok tt) | MarkU8-C ↦ Err (Err tt) ] };

    fn make(made_of: Self::Parts) -> Mark {
        match made_of {
            Ok(()) => Mark::A,
            Err(rest) => match rest {
                Ok(()) => Mark::B,
                Err(()) => Mark::C,
            },
        }
    }
}

impl EnumShape for MarkU8 {
    type Tag = u8;

    type Cases = Case<0, (), Case<1, (), Last<2, ()>>>;

    fn tag(src: &Mark) -> usize {
        match src {
            Mark::A => 0,
            Mark::B => 1,
            Mark::C => 2,
        }
    }

    fn part_size(src: &Mark) -> WriteResult<usize> {
        match src {
            Mark::A => <() as SchemaWrite>::size_of(&()),
            Mark::B => <() as SchemaWrite>::size_of(&()),
            Mark::C => <() as SchemaWrite>::size_of(&()),
        }
    }

    fn write_part<W: Writer>(writer: &mut W, src: &Mark) -> WriteResult<()> {
        match src {
            Mark::A => <() as SchemaWrite>::write::<W>(writer, &()),
            Mark::B => <() as SchemaWrite>::write::<W>(writer, &()),
            Mark::C => <() as SchemaWrite>::write::<W>(writer, &()),
        }
    }

    fn encode_part(src: &Mark, dst: &mut [u8]) -> Option<usize> {
        match src {
            Mark::A => <() as SchemaWrite>::encode_front(&(), dst),
            Mark::B => <() as SchemaWrite>::encode_front(&(), dst),
            Mark::C => <() as SchemaWrite>::encode_front(&(), dst),
        }
    }
}

impl SchemaWrite for MarkU8 {
    type Src = Mark;

    ghost Value = { ⟦<MarkU8Cases as SchemaWrite>⟧.Value };

    ghost model = { λ x. ⟦<MarkU8Cases as SchemaWrite>⟧.model (⟦<MarkU8 as EnumParts>⟧.parts x) };

    ghost is_valid = { λ x. ⟦<MarkU8Cases as SchemaWrite>⟧.is_valid (⟦<MarkU8 as EnumParts>⟧.parts x) };

    ghost writing = { ⟦<MarkU8Cases as SchemaWrite>⟧.writing };

    fn type_meta() -> TypeMeta {
        <MarkU8Cases as SchemaWrite>::type_meta()
    }

    fn size_of(src: &Mark) -> WriteResult<usize> {
        size_of_enum::<MarkU8>(src)
    }

    fn write<W: Writer>(writer: &mut W, src: &Mark) -> WriteResult<()> {
        write_enum::<MarkU8, W>(writer, src)
    }

    #[inline(always)]
    fn encode_front(src: &Mark, dst: &mut [u8]) -> Option<usize> {
        encode_enum::<MarkU8>(src, dst)
    }

    ghost write_laws = { write_laws_by ⟦<MarkU8 as EnumParts>⟧.parts ⟦<MarkU8Cases as SchemaWrite>⟧.write_laws };
}

impl<L: Lending> SchemaRead<L> for MarkU8 {
    type Dst = Mark;

    ghost Value = { ⟦<MarkU8Cases as SchemaRead<L>>⟧.Value };

    ghost model = { λ x. ⟦<MarkU8Cases as SchemaRead<L>>⟧.model (⟦<MarkU8 as EnumParts>⟧.parts x) };

    ghost is_valid = { ⟦<MarkU8Cases as SchemaRead<L>>⟧.is_valid };

    ghost reading = { ⟦<MarkU8Cases as SchemaRead<L>>⟧.reading };

    fn type_meta() -> TypeMeta {
        <MarkU8Cases as SchemaRead<L>>::type_meta()
    }

    fn prealloc_size() -> usize {
        <MarkU8Cases as SchemaRead<L>>::prealloc_size()
    }

    fn read<R: Reader<L>>(alloc: Global, reader: &mut R, dst: &mut Option<Mark>) -> ReadResult<()> {
        read_enum::<L, MarkU8Cases, MarkU8, R>(alloc, reader, dst)
    }

    ghost read_laws = { ⟦<MarkU8Cases as Lawful<L>>⟧.read_laws };
}

impl<L: Lending> Lawful<L> for MarkU8 {
    type Dst = Mark;

    ghost Value = { ⟦<MarkU8Cases as Lawful<L>>⟧.Value };

    ghost model = { λ x. ⟦<MarkU8Cases as Lawful<L>>⟧.model (⟦<MarkU8 as EnumParts>⟧.parts x) };

    ghost is_valid = { ⟦<MarkU8Cases as Lawful<L>>⟧.is_valid };

    ghost reading = { ⟦<MarkU8Cases as Lawful<L>>⟧.reading };

    ghost read_laws = { ⟦<MarkU8Cases as Lawful<L>>⟧.read_laws };
}

impl<L: Lending> RoundTrip<L> for MarkU8
where
    MarkU8Cases: RoundTrip<L>,
{
    ghost reads_back = { reads_back_by ⟦<MarkU8 as EnumParts>⟧.parts bound-5.reads_back };
}

impl<L: Lending> OneText<L> for MarkU8
where
    MarkU8Cases: FieldsOneText<L>,
{
    ghost one_text = { bound-5.fields_one_text };
}

impl<L: Lending> SchemaReadOwned<L> for MarkU8
where
    MarkU8Cases: FieldsReadOwned<L>,
{
    ghost owned = { bound-5.fields_owned };
}

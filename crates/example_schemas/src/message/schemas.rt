//! Written by `wincode_derive`: the schemas of what the module above declares.
ghost use Rattle.wincode_base.specs.PairLaws.{write_laws_by, reads_back_by};

use super::*;
use std::alloc::Global;
use wincode::io::{Lending, Reader, Writer};
use wincode::schema::tuples::{encode_front_members_3, size_of_members_3, write_members_3};
use wincode::{
    OneText, ReadResult, RoundTrip, SchemaGet, SchemaRead, SchemaReadOwned, SchemaWrite, TypeMeta,
    WriteResult,
};
use wincode_derive_support::laws::{FieldsOneText, FieldsReadOwned, Lawful};

type MessageFields = (u64, containers::Vec<u8, ShortU16Len>, Option<String>);

impl SchemaWrite for Message {
    type Src = Message;

    ghost Value = { ⟦<MessageFields as SchemaWrite>⟧.Value };

    ghost model = { λ x. ⟦<MessageFields as SchemaWrite>⟧.model (x.id, x.tags, x.note) };

    ghost is_valid = { λ x. ⟦<MessageFields as SchemaWrite>⟧.is_valid (x.id, x.tags, x.note) };

    ghost writing = { ⟦<MessageFields as SchemaWrite>⟧.writing };

    fn type_meta() -> TypeMeta {
        <MessageFields as SchemaWrite>::type_meta()
    }

    fn size_of(src: &Message) -> WriteResult<usize> {
        size_of_members_3::<u64, containers::Vec<u8, ShortU16Len>, Option<String>>(
            &src.id, &src.tags, &src.note,
        )
    }

    fn write<W: Writer>(writer: &mut W, src: &Message) -> WriteResult<()> {
        write_members_3::<u64, containers::Vec<u8, ShortU16Len>, Option<String>, W>(
            writer, &src.id, &src.tags, &src.note,
        )
    }

    #[inline(always)]
    fn encode_front(src: &Message, dst: &mut [u8]) -> Option<usize> {
        encode_front_members_3::<u64, containers::Vec<u8, ShortU16Len>, Option<String>>(
            &src.id, &src.tags, &src.note, dst,
        )
    }

    ghost write_laws = { write_laws_by (λ x. (x.id, x.tags, x.note)) ⟦<MessageFields as SchemaWrite>⟧.write_laws };
}

impl<L: Lending> SchemaRead<L> for Message {
    type Dst = Message;

    ghost Value = { ⟦<MessageFields as SchemaRead<L>>⟧.Value };

    ghost model = { λ x. ⟦<MessageFields as SchemaRead<L>>⟧.model (x.id, x.tags, x.note) };

    ghost is_valid = { ⟦<MessageFields as SchemaRead<L>>⟧.is_valid };

    ghost reading = { ⟦<MessageFields as SchemaRead<L>>⟧.reading };

    fn type_meta() -> TypeMeta {
        <MessageFields as SchemaRead<L>>::type_meta()
    }

    fn prealloc_size() -> usize {
        <MessageFields as SchemaRead<L>>::prealloc_size()
    }

    fn read<R: Reader<L>>(
        alloc: Global,
        reader: &mut R,
        dst: &mut Option<Message>,
    ) -> ReadResult<()> {
        match <MessageFields as SchemaGet<L>>::get(alloc, reader) {
            Ok(parts) => {
                let (id, tags, note) = parts;
                *dst = Some(Message { id, tags, note });
                Ok(())
            }
            Err(error) => Err(error),
        }
    }

    ghost read_laws = { ⟦<MessageFields as Lawful<L>>⟧.read_laws };
}

impl<L: Lending> Lawful<L> for Message {
    type Dst = Message;

    ghost Value = { ⟦<MessageFields as Lawful<L>>⟧.Value };

    ghost model = { λ x. ⟦<MessageFields as Lawful<L>>⟧.model (x.id, x.tags, x.note) };

    ghost is_valid = { ⟦<MessageFields as Lawful<L>>⟧.is_valid };

    ghost reading = { ⟦<MessageFields as Lawful<L>>⟧.reading };

    ghost read_laws = { ⟦<MessageFields as Lawful<L>>⟧.read_laws };
}

impl<L: Lending> RoundTrip<L> for Message
where
    MessageFields: RoundTrip<L>,
{
    ghost reads_back = { reads_back_by (λ x. (x.id, x.tags, x.note)) bound-5.reads_back };
}

impl<L: Lending> OneText<L> for Message
where
    MessageFields: FieldsOneText<L>,
{
    ghost one_text = { bound-5.fields_one_text };
}

impl<L: Lending> SchemaReadOwned<L> for Message
where
    MessageFields: FieldsReadOwned<L>,
{
    ghost owned = { bound-5.fields_owned };
}

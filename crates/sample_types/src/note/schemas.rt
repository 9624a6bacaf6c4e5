//! Written by `wincode_derive`: the schemas of what the module above declares.
ghost use Rattle.wincode_base.specs.PairLaws.{write_laws_by, reads_back_by};

use super::*;
use std::alloc::Global;
use wincode::io::{Lending, Reader, Writer};
use wincode::schema::tuples::{encode_front_members_3, size_of_members_3, write_members_3};
use wincode::{
    OneText, ReadResult, RoundTrip, SchemaGet, SchemaRead, SchemaReadOwned, SchemaWrite, TypeMeta,
    WriteResult,
};
use wincode_derive_support::laws::{FieldsOneText, FieldsReadOwned, Lawful};

type NoteFields = (u64, String, containers::Vec<u8, ShortU16Len>);

impl SchemaWrite for Note {
    type Src = Note;

    ghost Value = { ⟦<NoteFields as SchemaWrite>⟧.Value };

    ghost model = { λ x. ⟦<NoteFields as SchemaWrite>⟧.model (x.id, x.text, x.marks) };

    ghost is_valid = { λ x. ⟦<NoteFields as SchemaWrite>⟧.is_valid (x.id, x.text, x.marks) };

    ghost writing = { ⟦<NoteFields as SchemaWrite>⟧.writing };

    fn type_meta() -> TypeMeta {
        <NoteFields as SchemaWrite>::type_meta()
    }

    fn size_of(src: &Note) -> WriteResult<usize> {
        size_of_members_3::<u64, String, containers::Vec<u8, ShortU16Len>>(
            &src.id, &src.text, &src.marks,
        )
    }

    fn write<W: Writer>(writer: &mut W, src: &Note) -> WriteResult<()> {
        write_members_3::<u64, String, containers::Vec<u8, ShortU16Len>, W>(
            writer, &src.id, &src.text, &src.marks,
        )
    }

    #[inline(always)]
    fn encode_front(src: &Note, dst: &mut [u8]) -> Option<usize> {
        encode_front_members_3::<u64, String, containers::Vec<u8, ShortU16Len>>(
            &src.id, &src.text, &src.marks, dst,
        )
    }

    ghost write_laws = { write_laws_by (λ x. (x.id, x.text, x.marks)) ⟦<NoteFields as SchemaWrite>⟧.write_laws };
}

impl<L: Lending> SchemaRead<L> for Note {
    type Dst = Note;

    ghost Value = { ⟦<NoteFields as SchemaRead<L>>⟧.Value };

    ghost model = { λ x. ⟦<NoteFields as SchemaRead<L>>⟧.model (x.id, x.text, x.marks) };

    ghost is_valid = { ⟦<NoteFields as SchemaRead<L>>⟧.is_valid };

    ghost reading = { ⟦<NoteFields as SchemaRead<L>>⟧.reading };

    fn type_meta() -> TypeMeta {
        <NoteFields as SchemaRead<L>>::type_meta()
    }

    fn prealloc_size() -> usize {
        <NoteFields as SchemaRead<L>>::prealloc_size()
    }

    fn read<R: Reader<L>>(alloc: Global, reader: &mut R, dst: &mut Option<Note>) -> ReadResult<()> {
        match <NoteFields as SchemaGet<L>>::get(alloc, reader) {
            Ok(parts) => {
                let (id, text, marks) = parts;
                *dst = Some(Note { id, text, marks });
                Ok(())
            }
            Err(error) => Err(error),
        }
    }

    ghost read_laws = { ⟦<NoteFields as Lawful<L>>⟧.read_laws };
}

impl<L: Lending> Lawful<L> for Note {
    type Dst = Note;

    ghost Value = { ⟦<NoteFields as Lawful<L>>⟧.Value };

    ghost model = { λ x. ⟦<NoteFields as Lawful<L>>⟧.model (x.id, x.text, x.marks) };

    ghost is_valid = { ⟦<NoteFields as Lawful<L>>⟧.is_valid };

    ghost reading = { ⟦<NoteFields as Lawful<L>>⟧.reading };

    ghost read_laws = { ⟦<NoteFields as Lawful<L>>⟧.read_laws };
}

impl<L: Lending> RoundTrip<L> for Note
where
    NoteFields: RoundTrip<L>,
{
    ghost reads_back = { reads_back_by (λ x. (x.id, x.text, x.marks)) bound-5.reads_back };
}

impl<L: Lending> OneText<L> for Note
where
    NoteFields: FieldsOneText<L>,
{
    ghost one_text = { bound-5.fields_one_text };
}

impl<L: Lending> SchemaReadOwned<L> for Note
where
    NoteFields: FieldsReadOwned<L>,
{
    ghost owned = { bound-5.fields_owned };
}

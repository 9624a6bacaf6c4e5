//! Written by `wincode_derive`: the schemas of what the module above declares.
ghost use Rattle.wincode_base.specs.PairLaws.{write_laws_by, reads_back_by};

use super::*;
use std::alloc::Global;
use wincode::io::{Lending, Reader, Writer};
use wincode::schema::tuples::{encode_front_members_2, size_of_members_2, write_members_2};
use wincode::{
    OneText, ReadResult, RoundTrip, SchemaGet, SchemaRead, SchemaReadOwned, SchemaWrite, TypeMeta,
    WriteResult,
};
use wincode_derive_support::laws::{FieldsOneText, FieldsReadOwned, Lawful};

type EntryFields = (u64, Vec<u8>);

impl SchemaWrite for Entry {
    type Src = Entry;

    ghost Value = { ⟦<EntryFields as SchemaWrite>⟧.Value };

    ghost model = { λ x. ⟦<EntryFields as SchemaWrite>⟧.model (x.id, x.tags) };

    ghost is_valid = { λ x. ⟦<EntryFields as SchemaWrite>⟧.is_valid (x.id, x.tags) };

    ghost writing = { ⟦<EntryFields as SchemaWrite>⟧.writing };

    fn type_meta() -> TypeMeta {
        <EntryFields as SchemaWrite>::type_meta()
    }

    fn size_of(src: &Entry) -> WriteResult<usize> {
        size_of_members_2::<u64, Vec<u8>>(&src.id, &src.tags)
    }

    fn write<W: Writer>(writer: &mut W, src: &Entry) -> WriteResult<()> {
        write_members_2::<u64, Vec<u8>, W>(writer, &src.id, &src.tags)
    }

    #[inline(always)]
    fn encode_front(src: &Entry, dst: &mut [u8]) -> Option<usize> {
        encode_front_members_2::<u64, Vec<u8>>(&src.id, &src.tags, dst)
    }

    ghost write_laws = { write_laws_by (λ x. (x.id, x.tags)) ⟦<EntryFields as SchemaWrite>⟧.write_laws };
}

impl<L: Lending> SchemaRead<L> for Entry {
    type Dst = Entry;

    ghost Value = { ⟦<EntryFields as SchemaRead<L>>⟧.Value };

    ghost model = { λ x. ⟦<EntryFields as SchemaRead<L>>⟧.model (x.id, x.tags) };

    ghost is_valid = { ⟦<EntryFields as SchemaRead<L>>⟧.is_valid };

    ghost reading = { ⟦<EntryFields as SchemaRead<L>>⟧.reading };

    fn type_meta() -> TypeMeta {
        <EntryFields as SchemaRead<L>>::type_meta()
    }

    fn prealloc_size() -> usize {
        <EntryFields as SchemaRead<L>>::prealloc_size()
    }

    fn read<R: Reader<L>>(
        alloc: Global,
        reader: &mut R,
        dst: &mut Option<Entry>,
    ) -> ReadResult<()> {
        match <EntryFields as SchemaGet<L>>::get(alloc, reader) {
            Ok(parts) => {
                let (id, tags) = parts;
                *dst = Some(Entry { id, tags });
                Ok(())
            }
            Err(error) => Err(error),
        }
    }

    ghost read_laws = { ⟦<EntryFields as Lawful<L>>⟧.read_laws };
}

impl<L: Lending> Lawful<L> for Entry {
    type Dst = Entry;

    ghost Value = { ⟦<EntryFields as Lawful<L>>⟧.Value };

    ghost model = { λ x. ⟦<EntryFields as Lawful<L>>⟧.model (x.id, x.tags) };

    ghost is_valid = { ⟦<EntryFields as Lawful<L>>⟧.is_valid };

    ghost reading = { ⟦<EntryFields as Lawful<L>>⟧.reading };

    ghost read_laws = { ⟦<EntryFields as Lawful<L>>⟧.read_laws };
}

impl<L: Lending> RoundTrip<L> for Entry
where
    EntryFields: RoundTrip<L>,
{
    ghost reads_back = { reads_back_by (λ x. (x.id, x.tags)) bound-5.reads_back };
}

impl<L: Lending> OneText<L> for Entry
where
    EntryFields: FieldsOneText<L>,
{
    ghost one_text = { bound-5.fields_one_text };
}

impl<L: Lending> SchemaReadOwned<L> for Entry
where
    EntryFields: FieldsReadOwned<L>,
{
    ghost owned = { bound-5.fields_owned };
}

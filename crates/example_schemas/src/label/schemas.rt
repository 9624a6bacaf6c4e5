//! Written by `wincode_derive`: the schemas of what the module above declares.
ghost use Rattle.std.specs.Prelude.{◌≡◌};
ghost use Rattle.wincode_base.specs.Outcomes.{ReadOutcome};
ghost use Rattle.wincode_base.specs.PairLaws.{write_laws_by, reads_back_by};

use super::*;
use std::alloc::Global;
use wincode::io::{Lifetime, Reader, Writer};
use wincode::schema::tuples::{encode_front_members_2, size_of_members_2, write_members_2};
use wincode::{
    OneText, ReadResult, RoundTrip, SchemaGet, SchemaRead, SchemaWrite, TypeMeta, WriteResult,
};
use wincode_derive_support::lent::Lends;

type LabelFields<'a> = (u64, &'a str);

impl<'a> SchemaWrite for Label<'a> {
    type Src = Label<'a>;

    ghost Value = { ⟦<LabelFields<'a> as SchemaWrite>⟧.Value };

    ghost model = { λ x. ⟦<LabelFields<'a> as SchemaWrite>⟧.model (x.number, x.name) };

    ghost is_valid = { λ x. ⟦<LabelFields<'a> as SchemaWrite>⟧.is_valid (x.number, x.name) };

    ghost writing = { ⟦<LabelFields<'a> as SchemaWrite>⟧.writing };

    fn type_meta() -> TypeMeta
        ensures { result ≡ ⟦<LabelFields<'a> as SchemaWrite>⟧.writing.meta }
    {
        <LabelFields<'a> as SchemaWrite>::type_meta()
    }

    fn size_of(src: &Label<'a>) -> WriteResult<usize> {
        size_of_members_2::<u64, &'a str>(&src.number, &src.name)
    }

    fn write<W: Writer>(writer: &mut W, src: &Label<'a>) -> WriteResult<()> {
        write_members_2::<u64, &'a str, W>(writer, &src.number, &src.name)
    }

    #[inline(always)]
    fn encode_front(src: &Label<'a>, dst: &mut [u8]) -> Option<usize> {
        encode_front_members_2::<u64, &'a str>(&src.number, &src.name, dst)
    }

    ghost write_laws = { write_laws_by (λ x. (x.number, x.name)) ⟦<LabelFields<'a> as SchemaWrite>⟧.write_laws };
}

impl<'a> Lends<Label<'static>> for Lifetime<'a> {
    type Lent = Label<'a>;

    type Parts = (u64, &'a str);

    type As = LabelFields<'a>;

    ghost parts = { λ x. (x.number, x.name) };

    fn make(made_of: (u64, &'a str)) -> Label<'a> {
        let (number, name) = made_of;
        Label { number, name }
    }
}

impl<'a, L: Lends<Label<'static>>> SchemaRead<L> for Label<'a> {
    type Dst = L::Lent;

    ghost Value = { L.As.SchemaRead.Value };

    ghost model = { λ x. L.As.SchemaRead.model (L.parts x) };

    ghost is_valid = { L.As.SchemaRead.is_valid };

    ghost reading = { L.As.SchemaRead.reading };

    fn type_meta() -> TypeMeta
        ensures { result ≡ L.As.SchemaRead.reading.meta }
    {
        <L::As as SchemaRead<L>>::type_meta()
    }

    fn prealloc_size() -> usize
        ensures { result ≡ L.As.SchemaRead.reading.prealloc }
    {
        <L::As as SchemaRead<L>>::prealloc_size()
    }

    fn read<R: Reader<L>>(
        alloc: Global,
        reader: &mut R,
        dst: &mut Option<L::Lent>,
    ) -> ReadResult<()>
        ensures { ReadOutcome L.As.SchemaRead.reading (λ x. L.As.SchemaRead.model (L.parts x))
            (R.state reader.old) (R.state reader.new) dst.old dst.new result }
    {
        let parts = <L::As as SchemaGet<L>>::get(alloc, reader)?;
        *dst = Some(L::make(parts));
        Ok(())
    }

    ghost read_laws = { L.As.SchemaRead.read_laws };
}

impl<'a, L: Lends<Label<'static>>> OneText<L> for Label<'a>
where
    L::As: OneText<L>,
{
    ghost one_text = { L.As.one_text };
}

impl<'a> RoundTrip<Lifetime<'a>> for Label<'a>
where
    LabelFields<'a>: RoundTrip<Lifetime<'a>, Src = (u64, &'a str)>,
{
    ghost reads_back = { reads_back_by (λ x. (x.number, x.name)) bound-1.reads_back };
}

//! Written by `wincode_derive`: the schemas of what the module above declares.
ghost use Rattle.wincode_base.specs.PairLaws.{write_laws_by, reads_back_by, pair_read_laws, windowed_read_laws};
ghost use Rattle.wincode_derive_support.specs.PartLaws.{list_laws, map_laws, option_laws, vec_laws};

use super::*;
use std::alloc::Global;
use wincode::io::{Lending, Reader, Writer};
use wincode::len::SeqLen;
use wincode::schema::tuples::{
    encode_front_members_2, encode_front_members_5, size_of_members_2, size_of_members_5,
    write_members_2, write_members_5,
};
use wincode::{
    Key, OneText, ReadResult, RoundTrip, SchemaGet, SchemaRead, SchemaReadOwned, SchemaWrite,
    TypeMeta, WriteResult,
};
use wincode_derive_support::keys::LawfulKey;
use wincode_derive_support::laws::{FieldsKey, FieldsOneText, FieldsReadOwned, Lawful};

type PairFields<A, B> = (A, B);

impl<A: SchemaWrite, B: SchemaWrite> SchemaWrite for Pair<A, B> {
    type Src = Pair<A::Src, B::Src>;

    ghost Value = { ⟦<PairFields<A, B> as SchemaWrite>⟧.Value };

    ghost model = { λ x. ⟦<PairFields<A, B> as SchemaWrite>⟧.model (x.first, x.second) };

    ghost is_valid = { λ x. ⟦<PairFields<A, B> as SchemaWrite>⟧.is_valid (x.first, x.second) };

    ghost writing = { ⟦<PairFields<A, B> as SchemaWrite>⟧.writing };

    fn type_meta() -> TypeMeta {
        <PairFields<A, B> as SchemaWrite>::type_meta()
    }

    fn size_of(src: &Pair<A::Src, B::Src>) -> WriteResult<usize> {
        size_of_members_2::<A, B>(&src.first, &src.second)
    }

    fn write<W: Writer>(writer: &mut W, src: &Pair<A::Src, B::Src>) -> WriteResult<()> {
        write_members_2::<A, B, W>(writer, &src.first, &src.second)
    }

    #[inline(always)]
    fn encode_front(src: &Pair<A::Src, B::Src>, dst: &mut [u8]) -> Option<usize> {
        encode_front_members_2::<A, B>(&src.first, &src.second, dst)
    }

    ghost write_laws = { write_laws_by (λ x. (x.first, x.second)) ⟦<PairFields<A, B> as SchemaWrite>⟧.write_laws };
}

impl<L: Lending, A: SchemaRead<L>, B: SchemaRead<L>> SchemaRead<L> for Pair<A, B> {
    type Dst = Pair<A::Dst, B::Dst>;

    ghost Value = { ⟦<PairFields<A, B> as SchemaRead<L>>⟧.Value };

    ghost model = { λ x. ⟦<PairFields<A, B> as SchemaRead<L>>⟧.model (x.first, x.second) };

    ghost is_valid = { ⟦<PairFields<A, B> as SchemaRead<L>>⟧.is_valid };

    ghost reading = { ⟦<PairFields<A, B> as SchemaRead<L>>⟧.reading };

    fn type_meta() -> TypeMeta {
        <PairFields<A, B> as SchemaRead<L>>::type_meta()
    }

    fn prealloc_size() -> usize {
        <PairFields<A, B> as SchemaRead<L>>::prealloc_size()
    }

    fn read<R: Reader<L>>(
        alloc: Global,
        reader: &mut R,
        dst: &mut Option<Pair<A::Dst, B::Dst>>,
    ) -> ReadResult<()> {
        match <PairFields<A, B> as SchemaGet<L>>::get(alloc, reader) {
            Ok(parts) => {
                let (first, second) = parts;
                *dst = Some(Pair { first, second });
                Ok(())
            }
            Err(error) => Err(error),
        }
    }

    #[inline(always)]
    fn blank() -> Option<Pair<A::Dst, B::Dst>> {
        let (first, second) = <PairFields<A, B> as SchemaRead<L>>::blank()?;
        Some(Pair { first, second })
    }

    #[inline(always)]
    fn decode(bytes: &[u8], place: &mut Pair<A::Dst, B::Dst>) -> bool {
        let Some(mut parts) = <PairFields<A, B> as SchemaRead<L>>::blank() else {
            return false;
        };
        if !<PairFields<A, B> as SchemaRead<L>>::decode(bytes, &mut parts) {
            return false;
        }
        let (first, second) = parts;
        *place = Pair { first, second };
        true
    }

    ghost read_laws = { (windowed_read_laws (pair_read_laws A.read_laws
        B.read_laws)) };
}

impl<L: Lending, A: Lawful<L>, B: Lawful<L>> Lawful<L> for Pair<A, B> {
    type Dst = Pair<A::Dst, B::Dst>;

    ghost Value = { ⟦<PairFields<A, B> as Lawful<L>>⟧.Value };

    ghost model = { λ x. ⟦<PairFields<A, B> as Lawful<L>>⟧.model (x.first, x.second) };

    ghost is_valid = { ⟦<PairFields<A, B> as Lawful<L>>⟧.is_valid };

    ghost reading = { ⟦<PairFields<A, B> as Lawful<L>>⟧.reading };

    ghost read_laws = { ⟦<PairFields<A, B> as Lawful<L>>⟧.read_laws };
}

impl<
    L: Lending,
    A: SchemaWrite + SchemaRead<L, Dst = A::Src>,
    B: SchemaWrite + SchemaRead<L, Dst = B::Src>,
> RoundTrip<L> for Pair<A, B>
where
    A::Src: Drop,
    B::Src: Drop,
    PairFields<A, B>: RoundTrip<L, Src = (A::Src, B::Src)>,
{
    ghost reads_back = { reads_back_by (λ x. (x.first, x.second)) bound-9.reads_back };
}

impl<
    L: Lending,
    A: SchemaWrite + SchemaRead<L, Dst = A::Src>,
    B: SchemaWrite + SchemaRead<L, Dst = B::Src>,
> OneText<L> for Pair<A, B>
where
    A::Src: Drop,
    B::Src: Drop,
    PairFields<A, B>: FieldsOneText<L, Src = (A::Src, B::Src)>,
{
    ghost one_text = { bound-9.fields_one_text };
}

impl<
    L: Lending,
    A: SchemaWrite + SchemaRead<L, Dst = A::Src>,
    B: SchemaWrite + SchemaRead<L, Dst = B::Src>,
> SchemaReadOwned<L> for Pair<A, B>
where
    A::Src: Drop,
    B::Src: Drop,
    PairFields<A, B>: FieldsReadOwned<L, Src = (A::Src, B::Src)>,
{
    ghost owned = { bound-9.fields_owned };
}

type PairPairs<A, B> = (A, B);

impl<
    L: Lending,
    A: SchemaWrite + SchemaRead<L, Dst = A::Src>,
    B: SchemaWrite + SchemaRead<L, Dst = B::Src>,
> Key<L> for Pair<A, B>
where
    A::Src: Drop + Eq,
    B::Src: Drop + Eq,
    PairPairs<A, B>: FieldsKey<L, Src = (A::Src, B::Src)>,
{
    ghost alike = { λ x y. bound-13.fields_alike (x.first, x.second) (y.first, y.second) };
}

type PageFields<T> = (
    Vec<T>,
    Option<u64>,
    containers::Vec<Option<T>, ShortU16Len>,
    (T, u8),
    BTreeMap<u32, T>,
);

impl<T: SchemaWrite> SchemaWrite for Page<T> {
    type Src = Page<T::Src>;

    ghost Value = { ⟦<PageFields<T> as SchemaWrite>⟧.Value };

    ghost model = { λ x. ⟦<PageFields<T> as SchemaWrite>⟧.model (x.items, x.next, x.others, x.both, x.named) };

    ghost is_valid = { λ x. ⟦<PageFields<T> as SchemaWrite>⟧.is_valid (x.items, x.next, x.others, x.both, x.named) };

    ghost writing = { ⟦<PageFields<T> as SchemaWrite>⟧.writing };

    fn type_meta() -> TypeMeta {
        <PageFields<T> as SchemaWrite>::type_meta()
    }

    fn size_of(src: &Page<T::Src>) -> WriteResult<usize> {
        size_of_members_5::<
            Vec<T>,
            Option<u64>,
            containers::Vec<Option<T>, ShortU16Len>,
            (T, u8),
            BTreeMap<u32, T>,
        >(&src.items, &src.next, &src.others, &src.both, &src.named)
    }

    fn write<W: Writer>(writer: &mut W, src: &Page<T::Src>) -> WriteResult<()> {
        write_members_5::<
            Vec<T>,
            Option<u64>,
            containers::Vec<Option<T>, ShortU16Len>,
            (T, u8),
            BTreeMap<u32, T>,
            W,
        >(
            writer,
            &src.items,
            &src.next,
            &src.others,
            &src.both,
            &src.named,
        )
    }

    #[inline(always)]
    fn encode_front(src: &Page<T::Src>, dst: &mut [u8]) -> Option<usize> {
        encode_front_members_5::<
            Vec<T>,
            Option<u64>,
            containers::Vec<Option<T>, ShortU16Len>,
            (T, u8),
            BTreeMap<u32, T>,
        >(
            &src.items,
            &src.next,
            &src.others,
            &src.both,
            &src.named,
            dst,
        )
    }

    ghost write_laws = { write_laws_by (λ x. (x.items, x.next, x.others, x.both, x.named)) ⟦<PageFields<T> as SchemaWrite>⟧.write_laws };
}

impl<L: Lending, T: SchemaRead<L>> SchemaRead<L> for Page<T> {
    type Dst = Page<T::Dst>;

    ghost Value = { ⟦<PageFields<T> as SchemaRead<L>>⟧.Value };

    ghost model = { λ x. ⟦<PageFields<T> as SchemaRead<L>>⟧.model (x.items, x.next, x.others, x.both, x.named) };

    ghost is_valid = { ⟦<PageFields<T> as SchemaRead<L>>⟧.is_valid };

    ghost reading = { ⟦<PageFields<T> as SchemaRead<L>>⟧.reading };

    fn type_meta() -> TypeMeta {
        <PageFields<T> as SchemaRead<L>>::type_meta()
    }

    fn prealloc_size() -> usize {
        <PageFields<T> as SchemaRead<L>>::prealloc_size()
    }

    fn read<R: Reader<L>>(
        alloc: Global,
        reader: &mut R,
        dst: &mut Option<Page<T::Dst>>,
    ) -> ReadResult<()> {
        match <PageFields<T> as SchemaGet<L>>::get(alloc, reader) {
            Ok(parts) => {
                let (items, next, others, both, named) = parts;
                *dst = Some(Page {
                    items,
                    next,
                    others,
                    both,
                    named,
                });
                Ok(())
            }
            Err(error) => Err(error),
        }
    }

    ghost read_laws = { (windowed_read_laws (pair_read_laws (vec_laws T.read_laws)
        (pair_read_laws ⟦<Option<u64> as Lawful<L>>⟧.read_laws
        (pair_read_laws (list_laws ⟦<ShortU16Len as SeqLen>⟧.scheme ⟦<ShortU16Len as SeqLen>⟧.scheme_laws (option_laws T.read_laws))
        (pair_read_laws (windowed_read_laws (pair_read_laws T.read_laws ⟦<u8 as Lawful<L>>⟧.read_laws))
        (map_laws ⟦<u32 as LawfulKey<L>>⟧.model ⟦<T as SchemaRead<L>>⟧.model ⟦<u32 as LawfulKey<L>>⟧.read_laws T.read_laws
        ⟦<u32 as LawfulKey<L>>⟧.order ⟦<u32 as LawfulKey<L>>⟧.order_total ⟦<u32 as LawfulKey<L>>⟧.equal ⟦<u32 as LawfulKey<L>>⟧.order_ties ⟦<u32 as LawfulKey<L>>⟧.alike)))))) };
}

impl<L: Lending, T: Lawful<L>> Lawful<L> for Page<T> {
    type Dst = Page<T::Dst>;

    ghost Value = { ⟦<PageFields<T> as Lawful<L>>⟧.Value };

    ghost model = { λ x. ⟦<PageFields<T> as Lawful<L>>⟧.model (x.items, x.next, x.others, x.both, x.named) };

    ghost is_valid = { ⟦<PageFields<T> as Lawful<L>>⟧.is_valid };

    ghost reading = { ⟦<PageFields<T> as Lawful<L>>⟧.reading };

    ghost read_laws = { ⟦<PageFields<T> as Lawful<L>>⟧.read_laws };
}

impl<L: Lending, T: SchemaWrite + SchemaRead<L, Dst = T::Src>> RoundTrip<L> for Page<T>
where
    T::Src: Drop,
    PageFields<T>: RoundTrip<
        L,
        Src = (
            Vec<T::Src>,
            Option<u64>,
            Vec<Option<T::Src>>,
            (T::Src, u8),
            BTreeMap<u32, T::Src>,
        ),
    >,
{
    ghost reads_back = { reads_back_by (λ x. (x.items, x.next, x.others, x.both, x.named)) bound-7.reads_back };
}

impl<L: Lending, T: SchemaWrite + SchemaRead<L, Dst = T::Src>> OneText<L> for Page<T>
where
    T::Src: Drop,
    PageFields<T>: FieldsOneText<
        L,
        Src = (
            Vec<T::Src>,
            Option<u64>,
            Vec<Option<T::Src>>,
            (T::Src, u8),
            BTreeMap<u32, T::Src>,
        ),
    >,
{
    ghost one_text = { bound-7.fields_one_text };
}

impl<L: Lending, T: SchemaWrite + SchemaRead<L, Dst = T::Src>> SchemaReadOwned<L> for Page<T>
where
    T::Src: Drop,
    PageFields<T>: FieldsReadOwned<
        L,
        Src = (
            Vec<T::Src>,
            Option<u64>,
            Vec<Option<T::Src>>,
            (T::Src, u8),
            BTreeMap<u32, T::Src>,
        ),
    >,
{
    ghost owned = { bound-7.fields_owned };
}

type AloneFields<T> = T;

impl<T: SchemaWrite> SchemaWrite for Alone<T> {
    type Src = Alone<T::Src>;

    ghost Value = { ⟦<AloneFields<T> as SchemaWrite>⟧.Value };

    ghost model = { λ x. ⟦<AloneFields<T> as SchemaWrite>⟧.model x.0 };

    ghost is_valid = { λ x. ⟦<AloneFields<T> as SchemaWrite>⟧.is_valid x.0 };

    ghost writing = { ⟦<AloneFields<T> as SchemaWrite>⟧.writing };

    fn type_meta() -> TypeMeta {
        <AloneFields<T> as SchemaWrite>::type_meta()
    }

    fn size_of(src: &Alone<T::Src>) -> WriteResult<usize> {
        <T as SchemaWrite>::size_of(&src.0)
    }

    fn write<W: Writer>(writer: &mut W, src: &Alone<T::Src>) -> WriteResult<()> {
        <T as SchemaWrite>::write::<W>(writer, &src.0)
    }

    #[inline(always)]
    fn encode_front(src: &Alone<T::Src>, dst: &mut [u8]) -> Option<usize> {
        <T as SchemaWrite>::encode_front(&src.0, dst)
    }

    ghost write_laws = { write_laws_by (λ x. x.0) ⟦<AloneFields<T> as SchemaWrite>⟧.write_laws };
}

impl<L: Lending, T: SchemaRead<L>> SchemaRead<L> for Alone<T> {
    type Dst = Alone<T::Dst>;

    ghost Value = { ⟦<AloneFields<T> as SchemaRead<L>>⟧.Value };

    ghost model = { λ x. ⟦<AloneFields<T> as SchemaRead<L>>⟧.model x.0 };

    ghost is_valid = { ⟦<AloneFields<T> as SchemaRead<L>>⟧.is_valid };

    ghost reading = { ⟦<AloneFields<T> as SchemaRead<L>>⟧.reading };

    fn type_meta() -> TypeMeta {
        <AloneFields<T> as SchemaRead<L>>::type_meta()
    }

    fn prealloc_size() -> usize {
        <AloneFields<T> as SchemaRead<L>>::prealloc_size()
    }

    fn read<R: Reader<L>>(
        alloc: Global,
        reader: &mut R,
        dst: &mut Option<Alone<T::Dst>>,
    ) -> ReadResult<()> {
        match <AloneFields<T> as SchemaGet<L>>::get(alloc, reader) {
            Ok(parts) => {
                let a = parts;
                *dst = Some(Alone(a));
                Ok(())
            }
            Err(error) => Err(error),
        }
    }

    #[inline(always)]
    fn blank() -> Option<Alone<T::Dst>> {
        let a = <AloneFields<T> as SchemaRead<L>>::blank()?;
        Some(Alone(a))
    }

    #[inline(always)]
    fn decode(bytes: &[u8], place: &mut Alone<T::Dst>) -> bool {
        let Some(mut parts) = <AloneFields<T> as SchemaRead<L>>::blank() else {
            return false;
        };
        if !<AloneFields<T> as SchemaRead<L>>::decode(bytes, &mut parts) {
            return false;
        }
        let a = parts;
        *place = Alone(a);
        true
    }

    ghost read_laws = { T.read_laws };
}

impl<L: Lending, T: Lawful<L>> Lawful<L> for Alone<T> {
    type Dst = Alone<T::Dst>;

    ghost Value = { ⟦<AloneFields<T> as Lawful<L>>⟧.Value };

    ghost model = { λ x. ⟦<AloneFields<T> as Lawful<L>>⟧.model x.0 };

    ghost is_valid = { ⟦<AloneFields<T> as Lawful<L>>⟧.is_valid };

    ghost reading = { ⟦<AloneFields<T> as Lawful<L>>⟧.reading };

    ghost read_laws = { ⟦<AloneFields<T> as Lawful<L>>⟧.read_laws };
}

impl<L: Lending, T: SchemaWrite + SchemaRead<L, Dst = T::Src>> RoundTrip<L> for Alone<T>
where
    T::Src: Drop,
    AloneFields<T>: RoundTrip<L>,
{
    ghost reads_back = { reads_back_by (λ x. x.0) T.reads_back };
}

impl<L: Lending, T: SchemaWrite + SchemaRead<L, Dst = T::Src>> OneText<L> for Alone<T>
where
    T::Src: Drop,
    AloneFields<T>: FieldsOneText<L>,
{
    ghost one_text = { T.fields_one_text };
}

impl<L: Lending, T: SchemaWrite + SchemaRead<L, Dst = T::Src>> SchemaReadOwned<L> for Alone<T>
where
    T::Src: Drop,
    AloneFields<T>: FieldsReadOwned<L>,
{
    ghost owned = { T.fields_owned };
}

type AlonePairs<T> = T;

impl<L: Lending, T: SchemaWrite + SchemaRead<L, Dst = T::Src>> Key<L> for Alone<T>
where
    T::Src: Drop + Eq,
    AlonePairs<T>: FieldsKey<L>,
{
    ghost alike = { λ x y. T.fields_alike x.0 y.0 };
}

//! Written by `tools/templates`: schemas of tuples of 2 to 8 members.
ghost use Rattle.std.specs.Prelude.{IsTrue};
ghost use Rattle.wincode_base.specs.InWindow.{windowed_read};
ghost use Rattle.wincode_base.specs.PairLaws.{pair_read_laws, windowed_read_laws};
ghost use Rattle.wincode_base.specs.Pairs.{pair_read};

use crate::schema::SchemaRead;
use crate::schema::in_window::read_in_window;
use crate::schema::tuples::{FromPairs, decode_first, read_after_3, read_after_6, read_pairs};
use std::alloc::Global;
use wincode_base::error::ReadResult;
use wincode_base::meta::TypeMeta;
use wincode_base::parts::{Members2, Members3, Members4};
use wincode_base::sizes::pair_meta;
use wincode_io::{Lending, Reader};

/// Puts the values of 2 members that stand one after another over those in the places, where these bytes are all of
/// them.
#[inline(always)]
pub(crate) fn decode_2<L: Lending, A: SchemaRead<L>, B: SchemaRead<L>>(
    bytes: &[u8],
    a: &mut A::Dst,
    b: &mut B::Dst,
) -> bool
    ensures { IsTrue result → (pair_read A.reading B.reading).reads bytes.now (A.model a.new, B.model b.new) }
{
    match decode_first::<L, A>(bytes, a) {
        Some(back) => B::decode(back, b),
        None => false,
    }
}

/// Puts the values of 3 members that stand one after another over those in the places, where these bytes are all of
/// them.
#[inline(always)]
fn decode_3<L: Lending, A: SchemaRead<L>, B: SchemaRead<L>, C: SchemaRead<L>>(
    bytes: &[u8],
    a: &mut A::Dst,
    b: &mut B::Dst,
    c: &mut C::Dst,
) -> bool
    ensures { IsTrue result → (pair_read A.reading (pair_read B.reading C.reading)).reads bytes.now (A.model a.new, (B.model b.new, C.model c.new)) }
{
    match decode_first::<L, A>(bytes, a) {
        Some(back) => decode_2::<L, B, C>(back, b, c),
        None => false,
    }
}

/// Puts the values of 4 members that stand one after another over those in the places, where these bytes are all of
/// them.
#[inline(always)]
fn decode_4<L: Lending, A: SchemaRead<L>, B: SchemaRead<L>, C: SchemaRead<L>, D: SchemaRead<L>>(
    bytes: &[u8],
    a: &mut A::Dst,
    b: &mut B::Dst,
    c: &mut C::Dst,
    d: &mut D::Dst,
) -> bool
    ensures { IsTrue result → (pair_read A.reading (pair_read B.reading (pair_read C.reading D.reading))).reads bytes.now
        (A.model a.new, (B.model b.new, (C.model c.new, D.model d.new))) }
{
    match decode_first::<L, A>(bytes, a) {
        Some(back) => decode_3::<L, B, C, D>(back, b, c, d),
        None => false,
    }
}

/// Puts the values of 5 members that stand one after another over those in the places, where these bytes are all of
/// them.
#[inline(always)]
fn decode_5<
    L: Lending,
    A: SchemaRead<L>,
    B: SchemaRead<L>,
    C: SchemaRead<L>,
    D: SchemaRead<L>,
    E: SchemaRead<L>,
>(
    bytes: &[u8],
    a: &mut A::Dst,
    b: &mut B::Dst,
    c: &mut C::Dst,
    d: &mut D::Dst,
    e: &mut E::Dst,
) -> bool
    ensures { IsTrue result → (pair_read A.reading (pair_read B.reading (pair_read C.reading (pair_read D.reading E.reading)))).reads bytes.now
        (A.model a.new, (B.model b.new, (C.model c.new, (D.model d.new, E.model e.new)))) }
{
    match decode_first::<L, A>(bytes, a) {
        Some(back) => decode_4::<L, B, C, D, E>(back, b, c, d, e),
        None => false,
    }
}

/// Puts the values of 6 members that stand one after another over those in the places, where these bytes are all of
/// them.
#[inline(always)]
fn decode_6<
    L: Lending,
    A: SchemaRead<L>,
    B: SchemaRead<L>,
    C: SchemaRead<L>,
    D: SchemaRead<L>,
    E: SchemaRead<L>,
    F: SchemaRead<L>,
>(
    bytes: &[u8],
    a: &mut A::Dst,
    b: &mut B::Dst,
    c: &mut C::Dst,
    d: &mut D::Dst,
    e: &mut E::Dst,
    f: &mut F::Dst,
) -> bool
    ensures { IsTrue result → (pair_read A.reading (pair_read B.reading (pair_read C.reading (pair_read D.reading
        (pair_read E.reading F.reading))))).reads bytes.now
        (A.model a.new, (B.model b.new, (C.model c.new, (D.model d.new, (E.model e.new, F.model f.new))))) }
{
    match decode_first::<L, A>(bytes, a) {
        Some(back) => decode_5::<L, B, C, D, E, F>(back, b, c, d, e, f),
        None => false,
    }
}

/// Puts the values of 7 members that stand one after another over those in the places, where these bytes are all of
/// them.
#[inline(always)]
fn decode_7<
    L: Lending,
    A: SchemaRead<L>,
    B: SchemaRead<L>,
    C: SchemaRead<L>,
    D: SchemaRead<L>,
    E: SchemaRead<L>,
    F: SchemaRead<L>,
    G: SchemaRead<L>,
>(
    bytes: &[u8],
    a: &mut A::Dst,
    b: &mut B::Dst,
    c: &mut C::Dst,
    d: &mut D::Dst,
    e: &mut E::Dst,
    f: &mut F::Dst,
    g: &mut G::Dst,
) -> bool
    ensures { IsTrue result → (pair_read A.reading (pair_read B.reading (pair_read C.reading (pair_read D.reading (pair_read E.reading
        (pair_read F.reading G.reading)))))).reads bytes.now
        (A.model a.new, (B.model b.new, (C.model c.new, (D.model d.new, (E.model e.new, (F.model f.new, G.model g.new)))))) }
{
    match decode_first::<L, A>(bytes, a) {
        Some(back) => decode_6::<L, B, C, D, E, F, G>(back, b, c, d, e, f, g),
        None => false,
    }
}

/// Puts the values of 8 members that stand one after another over those in the places, where these bytes are all of
/// them.
#[inline(always)]
pub(crate) fn decode_8<
    L: Lending,
    A: SchemaRead<L>,
    B: SchemaRead<L>,
    C: SchemaRead<L>,
    D: SchemaRead<L>,
    E: SchemaRead<L>,
    F: SchemaRead<L>,
    G: SchemaRead<L>,
    H: SchemaRead<L>,
>(
    bytes: &[u8],
    a: &mut A::Dst,
    b: &mut B::Dst,
    c: &mut C::Dst,
    d: &mut D::Dst,
    e: &mut E::Dst,
    f: &mut F::Dst,
    g: &mut G::Dst,
    h: &mut H::Dst,
) -> bool
    ensures { IsTrue result → (pair_read A.reading (pair_read B.reading (pair_read C.reading (pair_read D.reading (pair_read E.reading
        (pair_read F.reading (pair_read G.reading H.reading))))))).reads bytes.now
        (A.model a.new, (B.model b.new, (C.model c.new, (D.model d.new, (E.model e.new, (F.model f.new, (G.model g.new, H.model h.new))))))) }
{
    match decode_first::<L, A>(bytes, a) {
        Some(back) => decode_7::<L, B, C, D, E, F, G, H>(back, b, c, d, e, f, g, h),
        None => false,
    }
}

impl<L: Lending, A: SchemaRead<L>, B: SchemaRead<L>> SchemaRead<L> for (A, B) {
    type Dst = (A::Dst, B::Dst);

    ghost Value = { A.Value × B.Value };

    ghost model = { λ t. (A.model t.0, B.model t.1) };

    ghost is_valid = { λ v. A.is_valid v.0 × B.is_valid v.1 };

    ghost reading = { windowed_read (pair_read A.reading B.reading) };

    fn type_meta() -> TypeMeta {
        pair_meta(A::type_meta(), B::type_meta())
    }

    fn prealloc_size() -> usize {
        A::prealloc_size().saturating_add(B::prealloc_size())
    }

    #[inline]
    fn read<R: Reader<L>>(
        alloc: Global,
        reader: &mut R,
        dst: &mut Option<Self::Dst>,
    ) -> ReadResult<()> {
        read_in_window::<L, Members2<A, B>, R>(alloc, reader, dst)
    }

    #[inline(always)]
    fn blank() -> Option<Self::Dst> {
        let first = A::blank()?;
        let second = B::blank()?;
        Some((first, second))
    }

    #[inline(always)]
    fn decode(bytes: &[u8], place: &mut Self::Dst) -> bool {
        decode_2::<L, A, B>(bytes, &mut place.0, &mut place.1)
    }

    #[inline(always)]
    fn read_at_once<R: Reader<L>>(
        alloc: Global,
        reader: &mut R,
        n: usize,
        into: &mut Vec<Self::Dst>,
    ) -> Option<ReadResult<()>> {
        let _ = (alloc, n);
        let _ = &*reader;
        let _ = &*into;
        None
    }

    ghost read_laws = { windowed_read_laws (pair_read_laws A.read_laws B.read_laws) };
}

impl<A, B, C> FromPairs<(A, (B, C))> for (A, B, C) {
    ghost pairs = { λ t. (t.0, (t.1, t.2)) };

    fn from_pairs(from: (A, (B, C))) -> (A, B, C) {
        let (a, (b, c)) = from;
        (a, b, c)
    }
}

impl<L: Lending, A: SchemaRead<L>, B: SchemaRead<L>, C: SchemaRead<L>> SchemaRead<L> for (A, B, C) {
    type Dst = (A::Dst, B::Dst, C::Dst);

    ghost Value = { A.Value × (B.Value × C.Value) };

    ghost model = { λ t. (A.model t.0, (B.model t.1, C.model t.2)) };

    ghost is_valid = { λ v. A.is_valid v.0 × (B.is_valid v.1.0 × C.is_valid v.1.1) };

    ghost reading = { windowed_read (pair_read A.reading (pair_read B.reading C.reading)) };

    fn type_meta() -> TypeMeta {
        pair_meta(A::type_meta(), <(B, C) as SchemaRead<L>>::type_meta())
    }

    fn prealloc_size() -> usize {
        A::prealloc_size().saturating_add(<(B, C) as SchemaRead<L>>::prealloc_size())
    }

    #[inline]
    fn read<R: Reader<L>>(
        alloc: Global,
        reader: &mut R,
        dst: &mut Option<Self::Dst>,
    ) -> ReadResult<()> {
        read_pairs::<L, Members3<A, B, C>, Self::Dst, R>(alloc, reader, dst)
    }

    #[inline(always)]
    fn blank() -> Option<Self::Dst> {
        let a = A::blank()?;
        let (b, c) = <(B, C) as SchemaRead<L>>::blank()?;
        Some((a, b, c))
    }

    #[inline(always)]
    fn decode(bytes: &[u8], place: &mut Self::Dst) -> bool {
        decode_3::<L, A, B, C>(bytes, &mut place.0, &mut place.1, &mut place.2)
    }

    #[inline(always)]
    fn read_at_once<R: Reader<L>>(
        alloc: Global,
        reader: &mut R,
        n: usize,
        into: &mut Vec<Self::Dst>,
    ) -> Option<ReadResult<()>> {
        let _ = (alloc, n);
        let _ = &*reader;
        let _ = &*into;
        None
    }

    ghost read_laws = { windowed_read_laws (pair_read_laws A.read_laws (pair_read_laws B.read_laws C.read_laws)) };
}

impl<A, B, C, D> FromPairs<(A, (B, (C, D)))> for (A, B, C, D) {
    ghost pairs = { λ t. (t.0, (t.1, (t.2, t.3))) };

    fn from_pairs(from: (A, (B, (C, D)))) -> (A, B, C, D) {
        let (a, (b, (c, d))) = from;
        (a, b, c, d)
    }
}

impl<L: Lending, A: SchemaRead<L>, B: SchemaRead<L>, C: SchemaRead<L>, D: SchemaRead<L>> SchemaRead<
    L,
> for (A, B, C, D) {
    type Dst = (A::Dst, B::Dst, C::Dst, D::Dst);

    ghost Value = { A.Value × (B.Value × (C.Value × D.Value)) };

    ghost model = { λ t. (A.model t.0, (B.model t.1, (C.model t.2, D.model t.3))) };

    ghost is_valid = { λ v. A.is_valid v.0 × (B.is_valid v.1.0 × (C.is_valid v.1.1.0 × D.is_valid v.1.1.1)) };

    ghost reading = { windowed_read (pair_read A.reading (pair_read B.reading (pair_read C.reading D.reading))) };

    fn type_meta() -> TypeMeta {
        pair_meta(A::type_meta(), <(B, C, D) as SchemaRead<L>>::type_meta())
    }

    fn prealloc_size() -> usize {
        A::prealloc_size().saturating_add(<(B, C, D) as SchemaRead<L>>::prealloc_size())
    }

    #[inline]
    fn read<R: Reader<L>>(
        alloc: Global,
        reader: &mut R,
        dst: &mut Option<Self::Dst>,
    ) -> ReadResult<()> {
        read_after_3::<L, A, B, C, D, Self::Dst, R>(alloc, reader, dst)
    }

    #[inline(always)]
    fn blank() -> Option<Self::Dst> {
        let a = A::blank()?;
        let (b, c, d) = <(B, C, D) as SchemaRead<L>>::blank()?;
        Some((a, b, c, d))
    }

    #[inline(always)]
    fn decode(bytes: &[u8], place: &mut Self::Dst) -> bool {
        decode_4::<L, A, B, C, D>(
            bytes,
            &mut place.0,
            &mut place.1,
            &mut place.2,
            &mut place.3,
        )
    }

    #[inline(always)]
    fn read_at_once<R: Reader<L>>(
        alloc: Global,
        reader: &mut R,
        n: usize,
        into: &mut Vec<Self::Dst>,
    ) -> Option<ReadResult<()>> {
        let _ = (alloc, n);
        let _ = &*reader;
        let _ = &*into;
        None
    }

    ghost read_laws = { windowed_read_laws (pair_read_laws A.read_laws (pair_read_laws B.read_laws (pair_read_laws C.read_laws D.read_laws))) };
}

impl<A, B, C, D, E> FromPairs<(A, (B, (C, (D, E))))> for (A, B, C, D, E) {
    ghost pairs = { λ t. (t.0, (t.1, (t.2, (t.3, t.4)))) };

    fn from_pairs(from: (A, (B, (C, (D, E))))) -> (A, B, C, D, E) {
        let (a, (b, (c, (d, e)))) = from;
        (a, b, c, d, e)
    }
}

impl<
    L: Lending,
    A: SchemaRead<L>,
    B: SchemaRead<L>,
    C: SchemaRead<L>,
    D: SchemaRead<L>,
    E: SchemaRead<L>,
> SchemaRead<L> for (A, B, C, D, E) {
    type Dst = (A::Dst, B::Dst, C::Dst, D::Dst, E::Dst);

    ghost Value = { A.Value × (B.Value × (C.Value × (D.Value × E.Value))) };

    ghost model = { λ t. (A.model t.0, (B.model t.1, (C.model t.2, (D.model t.3, E.model t.4)))) };

    ghost is_valid = { λ v. A.is_valid v.0 × (B.is_valid v.1.0 × (C.is_valid v.1.1.0 × (D.is_valid v.1.1.1.0 × E.is_valid v.1.1.1.1))) };

    ghost reading = { windowed_read (pair_read A.reading (pair_read B.reading (pair_read C.reading (pair_read D.reading E.reading)))) };

    fn type_meta() -> TypeMeta {
        pair_meta(A::type_meta(), <(B, C, D, E) as SchemaRead<L>>::type_meta())
    }

    fn prealloc_size() -> usize {
        A::prealloc_size().saturating_add(<(B, C, D, E) as SchemaRead<L>>::prealloc_size())
    }

    #[inline]
    fn read<R: Reader<L>>(
        alloc: Global,
        reader: &mut R,
        dst: &mut Option<Self::Dst>,
    ) -> ReadResult<()> {
        read_after_3::<L, A, B, C, Members2<D, E>, Self::Dst, R>(alloc, reader, dst)
    }

    #[inline(always)]
    fn blank() -> Option<Self::Dst> {
        let a = A::blank()?;
        let (b, c, d, e) = <(B, C, D, E) as SchemaRead<L>>::blank()?;
        Some((a, b, c, d, e))
    }

    #[inline(always)]
    fn decode(bytes: &[u8], place: &mut Self::Dst) -> bool {
        decode_5::<L, A, B, C, D, E>(
            bytes,
            &mut place.0,
            &mut place.1,
            &mut place.2,
            &mut place.3,
            &mut place.4,
        )
    }

    #[inline(always)]
    fn read_at_once<R: Reader<L>>(
        alloc: Global,
        reader: &mut R,
        n: usize,
        into: &mut Vec<Self::Dst>,
    ) -> Option<ReadResult<()>> {
        let _ = (alloc, n);
        let _ = &*reader;
        let _ = &*into;
        None
    }

    ghost read_laws = { windowed_read_laws (pair_read_laws A.read_laws (pair_read_laws B.read_laws (pair_read_laws C.read_laws
        (pair_read_laws D.read_laws E.read_laws)))) };
}

impl<A, B, C, D, E, F> FromPairs<(A, (B, (C, (D, (E, F)))))> for (A, B, C, D, E, F) {
    ghost pairs = { λ t. (t.0, (t.1, (t.2, (t.3, (t.4, t.5))))) };

    fn from_pairs(from: (A, (B, (C, (D, (E, F)))))) -> (A, B, C, D, E, F) {
        let (a, (b, (c, (d, (e, f))))) = from;
        (a, b, c, d, e, f)
    }
}

impl<
    L: Lending,
    A: SchemaRead<L>,
    B: SchemaRead<L>,
    C: SchemaRead<L>,
    D: SchemaRead<L>,
    E: SchemaRead<L>,
    F: SchemaRead<L>,
> SchemaRead<L> for (A, B, C, D, E, F) {
    type Dst = (A::Dst, B::Dst, C::Dst, D::Dst, E::Dst, F::Dst);

    ghost Value = { A.Value × (B.Value × (C.Value × (D.Value × (E.Value × F.Value)))) };

    ghost model = { λ t. (A.model t.0, (B.model t.1, (C.model t.2, (D.model t.3, (E.model t.4, F.model t.5))))) };

    ghost is_valid = { λ v. A.is_valid v.0 × (B.is_valid v.1.0 × (C.is_valid v.1.1.0 × (D.is_valid v.1.1.1.0 × (E.is_valid v.1.1.1.1.0 ×
        F.is_valid v.1.1.1.1.1)))) };

    ghost reading = { windowed_read (pair_read A.reading (pair_read B.reading (pair_read C.reading (pair_read D.reading
        (pair_read E.reading F.reading))))) };

    fn type_meta() -> TypeMeta {
        pair_meta(
            A::type_meta(),
            <(B, C, D, E, F) as SchemaRead<L>>::type_meta(),
        )
    }

    fn prealloc_size() -> usize {
        A::prealloc_size().saturating_add(<(B, C, D, E, F) as SchemaRead<L>>::prealloc_size())
    }

    #[inline]
    fn read<R: Reader<L>>(
        alloc: Global,
        reader: &mut R,
        dst: &mut Option<Self::Dst>,
    ) -> ReadResult<()> {
        read_after_3::<L, A, B, C, Members3<D, E, F>, Self::Dst, R>(alloc, reader, dst)
    }

    #[inline(always)]
    fn blank() -> Option<Self::Dst> {
        let a = A::blank()?;
        let (b, c, d, e, f) = <(B, C, D, E, F) as SchemaRead<L>>::blank()?;
        Some((a, b, c, d, e, f))
    }

    #[inline(always)]
    fn decode(bytes: &[u8], place: &mut Self::Dst) -> bool {
        decode_6::<L, A, B, C, D, E, F>(
            bytes,
            &mut place.0,
            &mut place.1,
            &mut place.2,
            &mut place.3,
            &mut place.4,
            &mut place.5,
        )
    }

    #[inline(always)]
    fn read_at_once<R: Reader<L>>(
        alloc: Global,
        reader: &mut R,
        n: usize,
        into: &mut Vec<Self::Dst>,
    ) -> Option<ReadResult<()>> {
        let _ = (alloc, n);
        let _ = &*reader;
        let _ = &*into;
        None
    }

    ghost read_laws = { windowed_read_laws (pair_read_laws A.read_laws (pair_read_laws B.read_laws (pair_read_laws C.read_laws
        (pair_read_laws D.read_laws (pair_read_laws E.read_laws F.read_laws))))) };
}

impl<A, B, C, D, E, F, G> FromPairs<(A, (B, (C, (D, (E, (F, G))))))> for (A, B, C, D, E, F, G) {
    ghost pairs = { λ t. (t.0, (t.1, (t.2, (t.3, (t.4, (t.5, t.6)))))) };

    fn from_pairs(from: (A, (B, (C, (D, (E, (F, G))))))) -> (A, B, C, D, E, F, G) {
        let (a, (b, (c, (d, (e, (f, g)))))) = from;
        (a, b, c, d, e, f, g)
    }
}

impl<
    L: Lending,
    A: SchemaRead<L>,
    B: SchemaRead<L>,
    C: SchemaRead<L>,
    D: SchemaRead<L>,
    E: SchemaRead<L>,
    F: SchemaRead<L>,
    G: SchemaRead<L>,
> SchemaRead<L> for (A, B, C, D, E, F, G) {
    type Dst = (A::Dst, B::Dst, C::Dst, D::Dst, E::Dst, F::Dst, G::Dst);

    ghost Value = { A.Value × (B.Value × (C.Value × (D.Value × (E.Value × (F.Value × G.Value))))) };

    ghost model = { λ t. (A.model t.0, (B.model t.1, (C.model t.2, (D.model t.3, (E.model t.4, (F.model t.5, G.model t.6)))))) };

    ghost is_valid = { λ v. A.is_valid v.0 × (B.is_valid v.1.0 × (C.is_valid v.1.1.0 × (D.is_valid v.1.1.1.0 × (E.is_valid v.1.1.1.1.0 ×
        (F.is_valid v.1.1.1.1.1.0 × G.is_valid v.1.1.1.1.1.1))))) };

    ghost reading = { windowed_read (pair_read A.reading (pair_read B.reading (pair_read C.reading (pair_read D.reading (pair_read E.reading
        (pair_read F.reading G.reading)))))) };

    fn type_meta() -> TypeMeta {
        pair_meta(
            A::type_meta(),
            <(B, C, D, E, F, G) as SchemaRead<L>>::type_meta(),
        )
    }

    fn prealloc_size() -> usize {
        A::prealloc_size().saturating_add(<(B, C, D, E, F, G) as SchemaRead<L>>::prealloc_size())
    }

    #[inline]
    fn read<R: Reader<L>>(
        alloc: Global,
        reader: &mut R,
        dst: &mut Option<Self::Dst>,
    ) -> ReadResult<()> {
        read_after_6::<L, A, B, C, D, E, F, G, Self::Dst, R>(alloc, reader, dst)
    }

    #[inline(always)]
    fn blank() -> Option<Self::Dst> {
        let a = A::blank()?;
        let (b, c, d, e, f, g) = <(B, C, D, E, F, G) as SchemaRead<L>>::blank()?;
        Some((a, b, c, d, e, f, g))
    }

    #[inline(always)]
    fn decode(bytes: &[u8], place: &mut Self::Dst) -> bool {
        decode_7::<L, A, B, C, D, E, F, G>(
            bytes,
            &mut place.0,
            &mut place.1,
            &mut place.2,
            &mut place.3,
            &mut place.4,
            &mut place.5,
            &mut place.6,
        )
    }

    #[inline(always)]
    fn read_at_once<R: Reader<L>>(
        alloc: Global,
        reader: &mut R,
        n: usize,
        into: &mut Vec<Self::Dst>,
    ) -> Option<ReadResult<()>> {
        let _ = (alloc, n);
        let _ = &*reader;
        let _ = &*into;
        None
    }

    ghost read_laws = { windowed_read_laws (pair_read_laws A.read_laws (pair_read_laws B.read_laws (pair_read_laws C.read_laws
        (pair_read_laws D.read_laws (pair_read_laws E.read_laws (pair_read_laws F.read_laws G.read_laws)))))) };
}

impl<A, B, C, D, E, F, G, H> FromPairs<(A, (B, (C, (D, (E, (F, (G, H)))))))>
    for (A, B, C, D, E, F, G, H) {
    ghost pairs = { λ t. (t.0, (t.1, (t.2, (t.3, (t.4, (t.5, (t.6, t.7))))))) };

    fn from_pairs(from: (A, (B, (C, (D, (E, (F, (G, H)))))))) -> (A, B, C, D, E, F, G, H) {
        let (a, (b, (c, (d, (e, (f, (g, h))))))) = from;
        (a, b, c, d, e, f, g, h)
    }
}

impl<
    L: Lending,
    A: SchemaRead<L>,
    B: SchemaRead<L>,
    C: SchemaRead<L>,
    D: SchemaRead<L>,
    E: SchemaRead<L>,
    F: SchemaRead<L>,
    G: SchemaRead<L>,
    H: SchemaRead<L>,
> SchemaRead<L> for (A, B, C, D, E, F, G, H) {
    type Dst = (
        A::Dst,
        B::Dst,
        C::Dst,
        D::Dst,
        E::Dst,
        F::Dst,
        G::Dst,
        H::Dst,
    );

    ghost Value = { A.Value × (B.Value × (C.Value × (D.Value × (E.Value × (F.Value × (G.Value × H.Value)))))) };

    ghost model = { λ t. (A.model t.0, (B.model t.1, (C.model t.2, (D.model t.3, (E.model t.4, (F.model t.5, (G.model t.6, H.model t.7))))))) };

    ghost is_valid = { λ v. A.is_valid v.0 × (B.is_valid v.1.0 × (C.is_valid v.1.1.0 × (D.is_valid v.1.1.1.0 × (E.is_valid v.1.1.1.1.0 ×
        (F.is_valid v.1.1.1.1.1.0 × (G.is_valid v.1.1.1.1.1.1.0 × H.is_valid v.1.1.1.1.1.1.1)))))) };

    ghost reading = { windowed_read (pair_read A.reading (pair_read B.reading (pair_read C.reading (pair_read D.reading (pair_read E.reading
        (pair_read F.reading (pair_read G.reading H.reading))))))) };

    fn type_meta() -> TypeMeta {
        pair_meta(
            A::type_meta(),
            <(B, C, D, E, F, G, H) as SchemaRead<L>>::type_meta(),
        )
    }

    fn prealloc_size() -> usize {
        A::prealloc_size().saturating_add(<(B, C, D, E, F, G, H) as SchemaRead<L>>::prealloc_size())
    }

    #[inline]
    fn read<R: Reader<L>>(
        alloc: Global,
        reader: &mut R,
        dst: &mut Option<Self::Dst>,
    ) -> ReadResult<()> {
        read_after_6::<L, A, B, C, D, E, F, Members2<G, H>, Self::Dst, R>(alloc, reader, dst)
    }

    #[inline(always)]
    fn blank() -> Option<Self::Dst> {
        let a = A::blank()?;
        let (b, c, d, e, f, g, h) = <(B, C, D, E, F, G, H) as SchemaRead<L>>::blank()?;
        Some((a, b, c, d, e, f, g, h))
    }

    #[inline(always)]
    fn decode(bytes: &[u8], place: &mut Self::Dst) -> bool {
        decode_8::<L, A, B, C, D, E, F, G, H>(
            bytes,
            &mut place.0,
            &mut place.1,
            &mut place.2,
            &mut place.3,
            &mut place.4,
            &mut place.5,
            &mut place.6,
            &mut place.7,
        )
    }

    #[inline(always)]
    fn read_at_once<R: Reader<L>>(
        alloc: Global,
        reader: &mut R,
        n: usize,
        into: &mut Vec<Self::Dst>,
    ) -> Option<ReadResult<()>> {
        let _ = (alloc, n);
        let _ = &*reader;
        let _ = &*into;
        None
    }

    ghost read_laws = { windowed_read_laws (pair_read_laws A.read_laws (pair_read_laws B.read_laws (pair_read_laws C.read_laws
        (pair_read_laws D.read_laws (pair_read_laws E.read_laws (pair_read_laws F.read_laws (pair_read_laws G.read_laws H.read_laws))))))) };
}

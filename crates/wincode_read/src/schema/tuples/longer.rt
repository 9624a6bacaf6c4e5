//! Written by `tools/templates`: schemas of tuples of 9 to 12 members.
ghost use Rattle.std.specs.Prelude.{IsTrue};
ghost use Rattle.wincode_base.specs.InWindow.{windowed_read};
ghost use Rattle.wincode_base.specs.PairLaws.{pair_read_laws, windowed_read_laws};
ghost use Rattle.wincode_base.specs.Pairs.{pair_read};

use crate::schema::SchemaRead;
use crate::schema::tuples::shorter::decode_8;
use crate::schema::tuples::{FromPairs, decode_first, read_after_6};
use std::alloc::Global;
use wincode_base::error::ReadResult;
use wincode_base::meta::TypeMeta;
use wincode_base::parts::{Members3, Members4, Members5, Members6};
use wincode_base::sizes::pair_meta;
use wincode_io::{Lending, Reader};

/// Puts the values of 9 members that stand one after another over those in the places, where these bytes are all of
/// them.
#[inline(always)]
fn decode_9<
    L: Lending,
    A: SchemaRead<L>,
    B: SchemaRead<L>,
    C: SchemaRead<L>,
    D: SchemaRead<L>,
    E: SchemaRead<L>,
    F: SchemaRead<L>,
    G: SchemaRead<L>,
    H: SchemaRead<L>,
    I: SchemaRead<L>,
>(
    bytes: &[u8],
    a: &mut A::Dst,
    b: &mut B::Dst,
    c: &mut C::Dst,
    d: &mut D::Dst,
    e: &mut E::Dst,
    f: &mut F::Dst,
    g: &mut G::Dst,
    h: &mut H::Dst,
    i: &mut I::Dst,
) -> bool
    ensures { IsTrue result → (pair_read A.reading (pair_read B.reading (pair_read C.reading (pair_read D.reading (pair_read E.reading
        (pair_read F.reading (pair_read G.reading (pair_read H.reading I.reading)))))))).reads bytes.now
        (A.model a.new, (B.model b.new, (C.model c.new, (D.model d.new, (E.model e.new, (F.model f.new, (G.model g.new, (H.model h.new, I.model i.new)))))))) }
{
    match decode_first::<L, A>(bytes, a) {
        Some(back) => decode_8::<L, B, C, D, E, F, G, H, I>(back, b, c, d, e, f, g, h, i),
        None => false,
    }
}

/// Puts the values of 10 members that stand one after another over those in the places, where these bytes are all of
/// them.
#[inline(always)]
fn decode_10<
    L: Lending,
    A: SchemaRead<L>,
    B: SchemaRead<L>,
    C: SchemaRead<L>,
    D: SchemaRead<L>,
    E: SchemaRead<L>,
    F: SchemaRead<L>,
    G: SchemaRead<L>,
    H: SchemaRead<L>,
    I: SchemaRead<L>,
    J: SchemaRead<L>,
>(
    bytes: &[u8],
    a: &mut A::Dst,
    b: &mut B::Dst,
    c: &mut C::Dst,
    d: &mut D::Dst,
    e: &mut E::Dst,
    f: &mut F::Dst,
    g: &mut G::Dst,
    h: &mut H::Dst,
    i: &mut I::Dst,
    j: &mut J::Dst,
) -> bool
    ensures { IsTrue result → (pair_read A.reading (pair_read B.reading (pair_read C.reading (pair_read D.reading (pair_read E.reading
        (pair_read F.reading (pair_read G.reading (pair_read H.reading (pair_read I.reading J.reading))))))))).reads bytes.now
        (A.model a.new, (B.model b.new, (C.model c.new, (D.model d.new, (E.model e.new, (F.model f.new, (G.model g.new, (H.model h.new, (I.model i.new, J.model j.new))))))))) }
{
    match decode_first::<L, A>(bytes, a) {
        Some(back) => decode_9::<L, B, C, D, E, F, G, H, I, J>(back, b, c, d, e, f, g, h, i, j),
        None => false,
    }
}

/// Puts the values of 11 members that stand one after another over those in the places, where these bytes are all of
/// them.
#[inline(always)]
fn decode_11<
    L: Lending,
    A: SchemaRead<L>,
    B: SchemaRead<L>,
    C: SchemaRead<L>,
    D: SchemaRead<L>,
    E: SchemaRead<L>,
    F: SchemaRead<L>,
    G: SchemaRead<L>,
    H: SchemaRead<L>,
    I: SchemaRead<L>,
    J: SchemaRead<L>,
    K: SchemaRead<L>,
>(
    bytes: &[u8],
    a: &mut A::Dst,
    b: &mut B::Dst,
    c: &mut C::Dst,
    d: &mut D::Dst,
    e: &mut E::Dst,
    f: &mut F::Dst,
    g: &mut G::Dst,
    h: &mut H::Dst,
    i: &mut I::Dst,
    j: &mut J::Dst,
    k: &mut K::Dst,
) -> bool
    ensures { IsTrue result → (pair_read A.reading (pair_read B.reading (pair_read C.reading (pair_read D.reading (pair_read E.reading
        (pair_read F.reading (pair_read G.reading (pair_read H.reading (pair_read I.reading (pair_read J.reading K.reading)))))))))).reads bytes.now
        (A.model a.new, (B.model b.new, (C.model c.new, (D.model d.new, (E.model e.new, (F.model f.new, (G.model g.new, (H.model h.new, (I.model i.new, (J.model j.new, K.model k.new)))))))))) }
{
    match decode_first::<L, A>(bytes, a) {
        Some(back) => decode_10::<L, B, C, D, E, F, G, H, I, J, K>(
            back, b, c, d, e, f, g, h, i, j, k,
        ),
        None => false,
    }
}

/// Puts the values of 12 members that stand one after another over those in the places, where these bytes are all of
/// them.
#[inline(always)]
fn decode_12<
    L: Lending,
    A: SchemaRead<L>,
    B: SchemaRead<L>,
    C: SchemaRead<L>,
    D: SchemaRead<L>,
    E: SchemaRead<L>,
    F: SchemaRead<L>,
    G: SchemaRead<L>,
    H: SchemaRead<L>,
    I: SchemaRead<L>,
    J: SchemaRead<L>,
    K: SchemaRead<L>,
    M: SchemaRead<L>,
>(
    bytes: &[u8],
    a: &mut A::Dst,
    b: &mut B::Dst,
    c: &mut C::Dst,
    d: &mut D::Dst,
    e: &mut E::Dst,
    f: &mut F::Dst,
    g: &mut G::Dst,
    h: &mut H::Dst,
    i: &mut I::Dst,
    j: &mut J::Dst,
    k: &mut K::Dst,
    m: &mut M::Dst,
) -> bool
    ensures { IsTrue result → (pair_read A.reading (pair_read B.reading (pair_read C.reading (pair_read D.reading (pair_read E.reading
        (pair_read F.reading (pair_read G.reading (pair_read H.reading (pair_read I.reading (pair_read J.reading
        (pair_read K.reading M.reading))))))))))).reads bytes.now
        (A.model a.new, (B.model b.new, (C.model c.new, (D.model d.new, (E.model e.new, (F.model f.new, (G.model g.new, (H.model h.new, (I.model i.new, (J.model j.new, (K.model k.new, M.model m.new))))))))))) }
{
    match decode_first::<L, A>(bytes, a) {
        Some(back) => decode_11::<L, B, C, D, E, F, G, H, I, J, K, M>(
            back, b, c, d, e, f, g, h, i, j, k, m,
        ),
        None => false,
    }
}

impl<A, B, C, D, E, F, G, H, I> FromPairs<(A, (B, (C, (D, (E, (F, (G, (H, I))))))))>
    for (A, B, C, D, E, F, G, H, I) {
    ghost pairs = { λ t. (t.0, (t.1, (t.2, (t.3, (t.4, (t.5, (t.6, (t.7, t.8)))))))) };

    fn from_pairs(from: (A, (B, (C, (D, (E, (F, (G, (H, I))))))))) -> (A, B, C, D, E, F, G, H, I) {
        let (a, (b, (c, (d, (e, (f, (g, (h, i)))))))) = from;
        (a, b, c, d, e, f, g, h, i)
    }
}

impl<
    L: Lending,
    A: SchemaRead<L>,
    B: SchemaRead<L>,
    C: SchemaRead<L>,
    D: SchemaRead<L>,
    E: SchemaRead<L>,
    F: SchemaRead<L>,
    G: SchemaRead<L>,
    H: SchemaRead<L>,
    I: SchemaRead<L>,
> SchemaRead<L> for (A, B, C, D, E, F, G, H, I) {
    type Dst = (
        A::Dst,
        B::Dst,
        C::Dst,
        D::Dst,
        E::Dst,
        F::Dst,
        G::Dst,
        H::Dst,
        I::Dst,
    );

    ghost Value = { A.Value × (B.Value × (C.Value × (D.Value × (E.Value × (F.Value × (G.Value × (H.Value × I.Value))))))) };

    ghost model = { λ t.
        (A.model t.0, (B.model t.1, (C.model t.2, (D.model t.3, (E.model t.4, (F.model t.5, (G.model t.6, (H.model t.7, I.model t.8)))))))) };

    ghost is_valid = { λ v. A.is_valid v.0 × (B.is_valid v.1.0 × (C.is_valid v.1.1.0 × (D.is_valid v.1.1.1.0 × (E.is_valid v.1.1.1.1.0 ×
        (F.is_valid v.1.1.1.1.1.0 × (G.is_valid v.1.1.1.1.1.1.0 × (H.is_valid v.1.1.1.1.1.1.1.0 × I.is_valid v.1.1.1.1.1.1.1.1))))))) };

    ghost reading = { windowed_read (pair_read A.reading (pair_read B.reading (pair_read C.reading (pair_read D.reading (pair_read E.reading
        (pair_read F.reading (pair_read G.reading (pair_read H.reading I.reading)))))))) };

    fn type_meta() -> TypeMeta {
        pair_meta(
            A::type_meta(),
            <(B, C, D, E, F, G, H, I) as SchemaRead<L>>::type_meta(),
        )
    }

    fn prealloc_size() -> usize {
        A::prealloc_size().saturating_add(<(B, C, D, E, F, G, H, I) as SchemaRead<
            L,
        >>::prealloc_size())
    }

    #[inline]
    fn read<R: Reader<L>>(
        alloc: Global,
        reader: &mut R,
        dst: &mut Option<Self::Dst>,
    ) -> ReadResult<()> {
        read_after_6::<L, A, B, C, D, E, F, Members3<G, H, I>, Self::Dst, R>(alloc, reader, dst)
    }

    #[inline(always)]
    fn blank() -> Option<Self::Dst> {
        let a = A::blank()?;
        let (b, c, d, e, f, g, h, i) = <(B, C, D, E, F, G, H, I) as SchemaRead<L>>::blank()?;
        Some((a, b, c, d, e, f, g, h, i))
    }

    #[inline(always)]
    fn decode(bytes: &[u8], place: &mut Self::Dst) -> bool {
        decode_9::<L, A, B, C, D, E, F, G, H, I>(
            bytes,
            &mut place.0,
            &mut place.1,
            &mut place.2,
            &mut place.3,
            &mut place.4,
            &mut place.5,
            &mut place.6,
            &mut place.7,
            &mut place.8,
        )
    }

    #[inline(always)]
    fn read_at_once<R: Reader<L>>(
        alloc: Global,
        reader: &mut R,
        n: usize,
        into: &mut Vec<Self::Dst>,
    ) -> Option<ReadResult<()>> {
        let _ = (alloc, n);
        let _ = &*reader;
        let _ = &*into;
        None
    }

    ghost read_laws = { windowed_read_laws (pair_read_laws A.read_laws (pair_read_laws B.read_laws (pair_read_laws C.read_laws
        (pair_read_laws D.read_laws (pair_read_laws E.read_laws (pair_read_laws F.read_laws (pair_read_laws G.read_laws
        (pair_read_laws H.read_laws I.read_laws)))))))) };
}

impl<A, B, C, D, E, F, G, H, I, J> FromPairs<(A, (B, (C, (D, (E, (F, (G, (H, (I, J)))))))))>
    for (A, B, C, D, E, F, G, H, I, J) {
    ghost pairs = { λ t. (t.0, (t.1, (t.2, (t.3, (t.4, (t.5, (t.6, (t.7, (t.8, t.9))))))))) };

    fn from_pairs(
        from: (A, (B, (C, (D, (E, (F, (G, (H, (I, J))))))))),
    ) -> (A, B, C, D, E, F, G, H, I, J) {
        let (a, (b, (c, (d, (e, (f, (g, (h, (i, j))))))))) = from;
        (a, b, c, d, e, f, g, h, i, j)
    }
}

impl<
    L: Lending,
    A: SchemaRead<L>,
    B: SchemaRead<L>,
    C: SchemaRead<L>,
    D: SchemaRead<L>,
    E: SchemaRead<L>,
    F: SchemaRead<L>,
    G: SchemaRead<L>,
    H: SchemaRead<L>,
    I: SchemaRead<L>,
    J: SchemaRead<L>,
> SchemaRead<L> for (A, B, C, D, E, F, G, H, I, J) {
    type Dst = (
        A::Dst,
        B::Dst,
        C::Dst,
        D::Dst,
        E::Dst,
        F::Dst,
        G::Dst,
        H::Dst,
        I::Dst,
        J::Dst,
    );

    ghost Value = { A.Value × (B.Value × (C.Value × (D.Value × (E.Value × (F.Value × (G.Value × (H.Value × (I.Value × J.Value)))))))) };

    ghost model = { λ t.
        (A.model t.0, (B.model t.1, (C.model t.2, (D.model t.3, (E.model t.4, (F.model t.5, (G.model t.6, (H.model t.7, (I.model t.8, J.model t.9))))))))) };

    ghost is_valid = { λ v. A.is_valid v.0 × (B.is_valid v.1.0 × (C.is_valid v.1.1.0 × (D.is_valid v.1.1.1.0 × (E.is_valid v.1.1.1.1.0 ×
        (F.is_valid v.1.1.1.1.1.0 × (G.is_valid v.1.1.1.1.1.1.0 × (H.is_valid v.1.1.1.1.1.1.1.0 × (I.is_valid v.1.1.1.1.1.1.1.1.0 ×
        J.is_valid v.1.1.1.1.1.1.1.1.1)))))))) };

    ghost reading = { windowed_read (pair_read A.reading (pair_read B.reading (pair_read C.reading (pair_read D.reading (pair_read E.reading
        (pair_read F.reading (pair_read G.reading (pair_read H.reading (pair_read I.reading J.reading))))))))) };

    fn type_meta() -> TypeMeta {
        pair_meta(
            A::type_meta(),
            <(B, C, D, E, F, G, H, I, J) as SchemaRead<L>>::type_meta(),
        )
    }

    fn prealloc_size() -> usize {
        A::prealloc_size().saturating_add(<(B, C, D, E, F, G, H, I, J) as SchemaRead<
            L,
        >>::prealloc_size())
    }

    #[inline]
    fn read<R: Reader<L>>(
        alloc: Global,
        reader: &mut R,
        dst: &mut Option<Self::Dst>,
    ) -> ReadResult<()> {
        read_after_6::<L, A, B, C, D, E, F, Members4<G, H, I, J>, Self::Dst, R>(alloc, reader, dst)
    }

    #[inline(always)]
    fn blank() -> Option<Self::Dst> {
        let a = A::blank()?;
        let (b, c, d, e, f, g, h, i, j) = <(B, C, D, E, F, G, H, I, J) as SchemaRead<L>>::blank()?;
        Some((a, b, c, d, e, f, g, h, i, j))
    }

    #[inline(always)]
    fn decode(bytes: &[u8], place: &mut Self::Dst) -> bool {
        decode_10::<L, A, B, C, D, E, F, G, H, I, J>(
            bytes,
            &mut place.0,
            &mut place.1,
            &mut place.2,
            &mut place.3,
            &mut place.4,
            &mut place.5,
            &mut place.6,
            &mut place.7,
            &mut place.8,
            &mut place.9,
        )
    }

    #[inline(always)]
    fn read_at_once<R: Reader<L>>(
        alloc: Global,
        reader: &mut R,
        n: usize,
        into: &mut Vec<Self::Dst>,
    ) -> Option<ReadResult<()>> {
        let _ = (alloc, n);
        let _ = &*reader;
        let _ = &*into;
        None
    }

    ghost read_laws = { windowed_read_laws (pair_read_laws A.read_laws (pair_read_laws B.read_laws (pair_read_laws C.read_laws
        (pair_read_laws D.read_laws (pair_read_laws E.read_laws (pair_read_laws F.read_laws (pair_read_laws G.read_laws (pair_read_laws H.read_laws
        (pair_read_laws I.read_laws J.read_laws))))))))) };
}

impl<A, B, C, D, E, F, G, H, I, J, K> FromPairs<(A, (B, (C, (D, (E, (F, (G, (H, (I, (J, K))))))))))>
    for (A, B, C, D, E, F, G, H, I, J, K) {
    ghost pairs = { λ t. (t.0, (t.1, (t.2, (t.3, (t.4, (t.5, (t.6, (t.7, (t.8, (t.9, t.10)))))))))) };

    fn from_pairs(
        from: (A, (B, (C, (D, (E, (F, (G, (H, (I, (J, K)))))))))),
    ) -> (A, B, C, D, E, F, G, H, I, J, K) {
        let (a, (b, (c, (d, (e, (f, (g, (h, (i, (j, k)))))))))) = from;
        (a, b, c, d, e, f, g, h, i, j, k)
    }
}

impl<
    L: Lending,
    A: SchemaRead<L>,
    B: SchemaRead<L>,
    C: SchemaRead<L>,
    D: SchemaRead<L>,
    E: SchemaRead<L>,
    F: SchemaRead<L>,
    G: SchemaRead<L>,
    H: SchemaRead<L>,
    I: SchemaRead<L>,
    J: SchemaRead<L>,
    K: SchemaRead<L>,
> SchemaRead<L> for (A, B, C, D, E, F, G, H, I, J, K) {
    type Dst = (
        A::Dst,
        B::Dst,
        C::Dst,
        D::Dst,
        E::Dst,
        F::Dst,
        G::Dst,
        H::Dst,
        I::Dst,
        J::Dst,
        K::Dst,
    );

    ghost Value = { A.Value × (B.Value × (C.Value × (D.Value × (E.Value × (F.Value × (G.Value × (H.Value × (I.Value × (J.Value × K.Value))))))))) };

    ghost model = { λ t.
        (A.model t.0, (B.model t.1, (C.model t.2, (D.model t.3, (E.model t.4, (F.model t.5, (G.model t.6, (H.model t.7, (I.model t.8, (J.model t.9, K.model t.10)))))))))) };

    ghost is_valid = { λ v. A.is_valid v.0 × (B.is_valid v.1.0 × (C.is_valid v.1.1.0 × (D.is_valid v.1.1.1.0 × (E.is_valid v.1.1.1.1.0 ×
        (F.is_valid v.1.1.1.1.1.0 × (G.is_valid v.1.1.1.1.1.1.0 × (H.is_valid v.1.1.1.1.1.1.1.0 × (I.is_valid v.1.1.1.1.1.1.1.1.0 ×
        (J.is_valid v.1.1.1.1.1.1.1.1.1.0 × K.is_valid v.1.1.1.1.1.1.1.1.1.1))))))))) };

    ghost reading = { windowed_read (pair_read A.reading (pair_read B.reading (pair_read C.reading (pair_read D.reading (pair_read E.reading
        (pair_read F.reading (pair_read G.reading (pair_read H.reading (pair_read I.reading (pair_read J.reading K.reading)))))))))) };

    fn type_meta() -> TypeMeta {
        pair_meta(
            A::type_meta(),
            <(B, C, D, E, F, G, H, I, J, K) as SchemaRead<L>>::type_meta(),
        )
    }

    fn prealloc_size() -> usize {
        A::prealloc_size().saturating_add(<(B, C, D, E, F, G, H, I, J, K) as SchemaRead<
            L,
        >>::prealloc_size())
    }

    #[inline]
    fn read<R: Reader<L>>(
        alloc: Global,
        reader: &mut R,
        dst: &mut Option<Self::Dst>,
    ) -> ReadResult<()> {
        read_after_6::<L, A, B, C, D, E, F, Members5<G, H, I, J, K>, Self::Dst, R>(
            alloc, reader, dst,
        )
    }

    #[inline(always)]
    fn blank() -> Option<Self::Dst> {
        let a = A::blank()?;
        let (b, c, d, e, f, g, h, i, j, k) = <(B, C, D, E, F, G, H, I, J, K) as SchemaRead<
            L,
        >>::blank()?;
        Some((a, b, c, d, e, f, g, h, i, j, k))
    }

    #[inline(always)]
    fn decode(bytes: &[u8], place: &mut Self::Dst) -> bool {
        decode_11::<L, A, B, C, D, E, F, G, H, I, J, K>(
            bytes,
            &mut place.0,
            &mut place.1,
            &mut place.2,
            &mut place.3,
            &mut place.4,
            &mut place.5,
            &mut place.6,
            &mut place.7,
            &mut place.8,
            &mut place.9,
            &mut place.10,
        )
    }

    #[inline(always)]
    fn read_at_once<R: Reader<L>>(
        alloc: Global,
        reader: &mut R,
        n: usize,
        into: &mut Vec<Self::Dst>,
    ) -> Option<ReadResult<()>> {
        let _ = (alloc, n);
        let _ = &*reader;
        let _ = &*into;
        None
    }

    ghost read_laws = { windowed_read_laws (pair_read_laws A.read_laws (pair_read_laws B.read_laws (pair_read_laws C.read_laws
        (pair_read_laws D.read_laws (pair_read_laws E.read_laws (pair_read_laws F.read_laws (pair_read_laws G.read_laws (pair_read_laws H.read_laws
        (pair_read_laws I.read_laws (pair_read_laws J.read_laws K.read_laws)))))))))) };
}

impl<A, B, C, D, E, F, G, H, I, J, K, M> FromPairs<
    (A, (B, (C, (D, (E, (F, (G, (H, (I, (J, (K, M))))))))))),
> for (A, B, C, D, E, F, G, H, I, J, K, M) {
    ghost pairs = { λ t. (t.0, (t.1, (t.2, (t.3, (t.4, (t.5, (t.6, (t.7, (t.8, (t.9, (t.10, t.11))))))))))) };

    fn from_pairs(
        from: (A, (B, (C, (D, (E, (F, (G, (H, (I, (J, (K, M))))))))))),
    ) -> (A, B, C, D, E, F, G, H, I, J, K, M) {
        let (a, (b, (c, (d, (e, (f, (g, (h, (i, (j, (k, m))))))))))) = from;
        (a, b, c, d, e, f, g, h, i, j, k, m)
    }
}

impl<
    L: Lending,
    A: SchemaRead<L>,
    B: SchemaRead<L>,
    C: SchemaRead<L>,
    D: SchemaRead<L>,
    E: SchemaRead<L>,
    F: SchemaRead<L>,
    G: SchemaRead<L>,
    H: SchemaRead<L>,
    I: SchemaRead<L>,
    J: SchemaRead<L>,
    K: SchemaRead<L>,
    M: SchemaRead<L>,
> SchemaRead<L> for (A, B, C, D, E, F, G, H, I, J, K, M) {
    type Dst = (
        A::Dst,
        B::Dst,
        C::Dst,
        D::Dst,
        E::Dst,
        F::Dst,
        G::Dst,
        H::Dst,
        I::Dst,
        J::Dst,
        K::Dst,
        M::Dst,
    );

    ghost Value = { A.Value × (B.Value × (C.Value × (D.Value × (E.Value × (F.Value × (G.Value × (H.Value × (I.Value × (J.Value × (K.Value ×
        M.Value)))))))))) };

    ghost model = { λ t.
        (A.model t.0, (B.model t.1, (C.model t.2, (D.model t.3, (E.model t.4, (F.model t.5, (G.model t.6, (H.model t.7, (I.model t.8, (J.model t.9, (K.model t.10, M.model t.11))))))))))) };

    ghost is_valid = { λ v. A.is_valid v.0 × (B.is_valid v.1.0 × (C.is_valid v.1.1.0 × (D.is_valid v.1.1.1.0 × (E.is_valid v.1.1.1.1.0 ×
        (F.is_valid v.1.1.1.1.1.0 × (G.is_valid v.1.1.1.1.1.1.0 × (H.is_valid v.1.1.1.1.1.1.1.0 × (I.is_valid v.1.1.1.1.1.1.1.1.0 ×
        (J.is_valid v.1.1.1.1.1.1.1.1.1.0 × (K.is_valid v.1.1.1.1.1.1.1.1.1.1.0 × M.is_valid v.1.1.1.1.1.1.1.1.1.1.1)))))))))) };

    ghost reading = { windowed_read (pair_read A.reading (pair_read B.reading (pair_read C.reading (pair_read D.reading (pair_read E.reading
        (pair_read F.reading (pair_read G.reading (pair_read H.reading (pair_read I.reading (pair_read J.reading
        (pair_read K.reading M.reading))))))))))) };

    fn type_meta() -> TypeMeta {
        pair_meta(
            A::type_meta(),
            <(B, C, D, E, F, G, H, I, J, K, M) as SchemaRead<L>>::type_meta(),
        )
    }

    fn prealloc_size() -> usize {
        A::prealloc_size().saturating_add(<(B, C, D, E, F, G, H, I, J, K, M) as SchemaRead<
            L,
        >>::prealloc_size())
    }

    #[inline]
    fn read<R: Reader<L>>(
        alloc: Global,
        reader: &mut R,
        dst: &mut Option<Self::Dst>,
    ) -> ReadResult<()> {
        read_after_6::<L, A, B, C, D, E, F, Members6<G, H, I, J, K, M>, Self::Dst, R>(
            alloc, reader, dst,
        )
    }

    #[inline(always)]
    fn blank() -> Option<Self::Dst> {
        let a = A::blank()?;
        let (b, c, d, e, f, g, h, i, j, k, m) = <(B, C, D, E, F, G, H, I, J, K, M) as SchemaRead<
            L,
        >>::blank()?;
        Some((a, b, c, d, e, f, g, h, i, j, k, m))
    }

    #[inline(always)]
    fn decode(bytes: &[u8], place: &mut Self::Dst) -> bool {
        decode_12::<L, A, B, C, D, E, F, G, H, I, J, K, M>(
            bytes,
            &mut place.0,
            &mut place.1,
            &mut place.2,
            &mut place.3,
            &mut place.4,
            &mut place.5,
            &mut place.6,
            &mut place.7,
            &mut place.8,
            &mut place.9,
            &mut place.10,
            &mut place.11,
        )
    }

    #[inline(always)]
    fn read_at_once<R: Reader<L>>(
        alloc: Global,
        reader: &mut R,
        n: usize,
        into: &mut Vec<Self::Dst>,
    ) -> Option<ReadResult<()>> {
        let _ = (alloc, n);
        let _ = &*reader;
        let _ = &*into;
        None
    }

    ghost read_laws = { windowed_read_laws (pair_read_laws A.read_laws (pair_read_laws B.read_laws (pair_read_laws C.read_laws
        (pair_read_laws D.read_laws (pair_read_laws E.read_laws (pair_read_laws F.read_laws (pair_read_laws G.read_laws (pair_read_laws H.read_laws
        (pair_read_laws I.read_laws (pair_read_laws J.read_laws (pair_read_laws K.read_laws M.read_laws))))))))))) };
}

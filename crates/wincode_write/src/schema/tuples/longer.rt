//! Written by `tools/templates`: schemas of tuples of 9 to 12 members.
ghost use Rattle.std.specs.Prelude.{IfOk, IfErr};
ghost use Rattle.wincode_base.specs.InWindow.{windowed_write};
ghost use Rattle.wincode_base.specs.Outcomes.{IsSized, SizeRefused, WriteOutcome};
ghost use Rattle.wincode_base.specs.PairLaws.{pair_write_laws, write_laws_by, windowed_write_laws};
ghost use Rattle.wincode_base.specs.Pairs.{pair_write};

use crate::schema::SchemaWrite;
use crate::schema::in_window::write_in_window;
use crate::schema::tuples::fronts::{
    encode_front_members_9, encode_front_members_10, encode_front_members_11,
    encode_front_members_12,
};
use crate::schema::tuples::shorter::size_of_members_8;
use wincode_base::error::WriteResult;
use wincode_base::meta::TypeMeta;
use wincode_base::parts::{Member, Members9, Members10, Members11, Members12};
use wincode_base::sizes::{joined_size, pair_meta};
use wincode_io::Writer;

/// The size of 9 members, each seen by a schema of its own: that of a tuple of them.
#[inline]
pub fn size_of_members_9<
    A: SchemaWrite,
    B: SchemaWrite,
    C: SchemaWrite,
    D: SchemaWrite,
    E: SchemaWrite,
    F: SchemaWrite,
    G: SchemaWrite,
    H: SchemaWrite,
    I: SchemaWrite,
>(
    a: &A::Src,
    b: &B::Src,
    c: &C::Src,
    d: &D::Src,
    e: &E::Src,
    f: &F::Src,
    g: &G::Src,
    h: &H::Src,
    i: &I::Src,
) -> WriteResult<usize>
    ensures ok { let tuple = ⟦<(A, B, C, D, E, F, G, H, I) as SchemaWrite>⟧ in IfOk result
        (IsSized tuple.writing (tuple.model (a.now, b.now, c.now, d.now, e.now, f.now, g.now, h.now, i.now))) }
    ensures err { let tuple = ⟦<(A, B, C, D, E, F, G, H, I) as SchemaWrite>⟧ in IfErr result
        (SizeRefused tuple.writing (tuple.model (a.now, b.now, c.now, d.now, e.now, f.now, g.now, h.now, i.now))) }
{
    joined_size(
        A::size_of(a),
        size_of_members_8::<B, C, D, E, F, G, H, I>(b, c, d, e, f, g, h, i),
    )
}

/// Writes 9 members through one window where all have one size.
#[inline]
fn write_9<
    A: SchemaWrite,
    B: SchemaWrite,
    C: SchemaWrite,
    D: SchemaWrite,
    E: SchemaWrite,
    F: SchemaWrite,
    G: SchemaWrite,
    H: SchemaWrite,
    I: SchemaWrite,
    W: Writer,
>(
    writer: &mut W,
    src: &(
        A::Src,
        (
            B::Src,
            (
                C::Src,
                (D::Src, (E::Src, (F::Src, (G::Src, (H::Src, I::Src))))),
            ),
        ),
    ),
) -> WriteResult<()>
    ensures { let s1 = src.now.1 in let s2 = s1.1 in let s3 = s2.1 in let s4 = s3.1 in let s5 = s4.1 in let s6 = s5.1 in let s7 = s6.1 in
        let s8 = s7.1 in
        WriteOutcome (windowed_write (pair_write A.writing (pair_write B.writing (pair_write C.writing (pair_write D.writing (pair_write E.writing
        (pair_write F.writing (pair_write G.writing (pair_write H.writing I.writing))))))))) (W.state writer.old) (W.state writer.new)
        (A.model src.now.0, (B.model s1.0, (C.model s2.0, (D.model s3.0, (E.model s4.0, (F.model s5.0, (G.model s6.0, (H.model s7.0, I.model s8))))))))
        (A.is_valid src.now.0 × (B.is_valid s1.0 × (C.is_valid s2.0 × (D.is_valid s3.0 × (E.is_valid s4.0 × (F.is_valid s5.0 × (G.is_valid s6.0 ×
        (H.is_valid s7.0 × I.is_valid s8)))))))) result }
{
    write_in_window::<Members9<A, B, C, D, E, F, G, H, I>, W>(writer, src)
}

/// Writes 9 members, each by a schema of its own, as a tuple of them is written.
#[inline]
pub fn write_members_9<
    A: SchemaWrite,
    B: SchemaWrite,
    C: SchemaWrite,
    D: SchemaWrite,
    E: SchemaWrite,
    F: SchemaWrite,
    G: SchemaWrite,
    H: SchemaWrite,
    I: SchemaWrite,
    W: Writer,
>(
    writer: &mut W,
    a: &A::Src,
    b: &B::Src,
    c: &C::Src,
    d: &D::Src,
    e: &E::Src,
    f: &F::Src,
    g: &G::Src,
    h: &H::Src,
    i: &I::Src,
) -> WriteResult<()>
    ensures { let tuple = ⟦<(A, B, C, D, E, F, G, H, I) as SchemaWrite>⟧ in
        WriteOutcome tuple.writing (W.state writer.old) (W.state writer.new)
        (tuple.model (a.now, b.now, c.now, d.now, e.now, f.now, g.now, h.now, i.now))
        (tuple.is_valid (a.now, b.now, c.now, d.now, e.now, f.now, g.now, h.now, i.now)) result }
{
    write_9::<
        &Member<A>,
        &Member<B>,
        &Member<C>,
        &Member<D>,
        &Member<E>,
        &Member<F>,
        &Member<G>,
        &Member<H>,
        &Member<I>,
        W,
    >(writer, &(a, (b, (c, (d, (e, (f, (g, (h, i)))))))))
}

impl<
    A: SchemaWrite,
    B: SchemaWrite,
    C: SchemaWrite,
    D: SchemaWrite,
    E: SchemaWrite,
    F: SchemaWrite,
    G: SchemaWrite,
    H: SchemaWrite,
    I: SchemaWrite,
> SchemaWrite for (A, B, C, D, E, F, G, H, I) {
    type Src = (
        A::Src,
        B::Src,
        C::Src,
        D::Src,
        E::Src,
        F::Src,
        G::Src,
        H::Src,
        I::Src,
    );

    ghost Value = { A.Value × (B.Value × (C.Value × (D.Value × (E.Value × (F.Value × (G.Value × (H.Value × I.Value))))))) };

    ghost model = { λ t.
        (A.model t.0, (B.model t.1, (C.model t.2, (D.model t.3, (E.model t.4, (F.model t.5, (G.model t.6, (H.model t.7, I.model t.8)))))))) };

    ghost is_valid = { λ t. A.is_valid t.0 × (B.is_valid t.1 × (C.is_valid t.2 × (D.is_valid t.3 × (E.is_valid t.4 × (F.is_valid t.5 ×
        (G.is_valid t.6 × (H.is_valid t.7 × I.is_valid t.8))))))) };

    ghost writing = { windowed_write (pair_write A.writing (pair_write B.writing (pair_write C.writing (pair_write D.writing (pair_write E.writing
        (pair_write F.writing (pair_write G.writing (pair_write H.writing I.writing)))))))) };

    fn type_meta() -> TypeMeta {
        pair_meta(
            A::type_meta(),
            <(B, C, D, E, F, G, H, I) as SchemaWrite>::type_meta(),
        )
    }

    fn size_of(src: &Self::Src) -> WriteResult<usize> {
        size_of_members_9::<A, B, C, D, E, F, G, H, I>(
            &src.0, &src.1, &src.2, &src.3, &src.4, &src.5, &src.6, &src.7, &src.8,
        )
    }

    #[inline]
    fn write<W: Writer>(writer: &mut W, src: &Self::Src) -> WriteResult<()> {
        write_members_9::<A, B, C, D, E, F, G, H, I, W>(
            writer, &src.0, &src.1, &src.2, &src.3, &src.4, &src.5, &src.6, &src.7, &src.8,
        )
    }

    #[inline(always)]
    fn encode_front(src: &Self::Src, dst: &mut [u8]) -> Option<usize> {
        encode_front_members_9::<A, B, C, D, E, F, G, H, I>(
            &src.0, &src.1, &src.2, &src.3, &src.4, &src.5, &src.6, &src.7, &src.8, dst,
        )
    }

    #[inline(always)]
    fn write_at_once<W: Writer>(writer: &mut W, items: &[Self::Src]) -> Option<WriteResult<()>> {
        let _ = &*writer;
        let _items = items.len();
        None
    }

    #[inline(always)]
    fn known_size() -> Option<usize> {
        None
    }

    ghost write_laws = { write_laws_by (λ t. (t.0, (t.1, (t.2, (t.3, (t.4, (t.5, (t.6, (t.7, t.8)))))))))
        (windowed_write_laws (pair_write_laws A.write_laws (pair_write_laws B.write_laws (pair_write_laws C.write_laws (pair_write_laws D.write_laws
        (pair_write_laws E.write_laws (pair_write_laws F.write_laws (pair_write_laws G.write_laws
        (pair_write_laws H.write_laws I.write_laws))))))))) };
}

/// The size of 10 members, each seen by a schema of its own: that of a tuple of them.
#[inline]
pub fn size_of_members_10<
    A: SchemaWrite,
    B: SchemaWrite,
    C: SchemaWrite,
    D: SchemaWrite,
    E: SchemaWrite,
    F: SchemaWrite,
    G: SchemaWrite,
    H: SchemaWrite,
    I: SchemaWrite,
    J: SchemaWrite,
>(
    a: &A::Src,
    b: &B::Src,
    c: &C::Src,
    d: &D::Src,
    e: &E::Src,
    f: &F::Src,
    g: &G::Src,
    h: &H::Src,
    i: &I::Src,
    j: &J::Src,
) -> WriteResult<usize>
    ensures ok { let tuple = ⟦<(A, B, C, D, E, F, G, H, I, J) as SchemaWrite>⟧ in IfOk result
        (IsSized tuple.writing (tuple.model (a.now, b.now, c.now, d.now, e.now, f.now, g.now, h.now, i.now, j.now))) }
    ensures err { let tuple = ⟦<(A, B, C, D, E, F, G, H, I, J) as SchemaWrite>⟧ in IfErr result
        (SizeRefused tuple.writing (tuple.model (a.now, b.now, c.now, d.now, e.now, f.now, g.now, h.now, i.now, j.now))) }
{
    joined_size(
        A::size_of(a),
        size_of_members_9::<B, C, D, E, F, G, H, I, J>(b, c, d, e, f, g, h, i, j),
    )
}

/// Writes 10 members through one window where all have one size.
#[inline]
fn write_10<
    A: SchemaWrite,
    B: SchemaWrite,
    C: SchemaWrite,
    D: SchemaWrite,
    E: SchemaWrite,
    F: SchemaWrite,
    G: SchemaWrite,
    H: SchemaWrite,
    I: SchemaWrite,
    J: SchemaWrite,
    W: Writer,
>(
    writer: &mut W,
    src: &(
        A::Src,
        (
            B::Src,
            (
                C::Src,
                (
                    D::Src,
                    (E::Src, (F::Src, (G::Src, (H::Src, (I::Src, J::Src))))),
                ),
            ),
        ),
    ),
) -> WriteResult<()>
    ensures { let s1 = src.now.1 in let s2 = s1.1 in let s3 = s2.1 in let s4 = s3.1 in let s5 = s4.1 in let s6 = s5.1 in let s7 = s6.1 in
        let s8 = s7.1 in let s9 = s8.1 in
        WriteOutcome (windowed_write (pair_write A.writing (pair_write B.writing (pair_write C.writing (pair_write D.writing (pair_write E.writing
        (pair_write F.writing (pair_write G.writing (pair_write H.writing (pair_write I.writing J.writing))))))))))
        (W.state writer.old) (W.state writer.new)
        (A.model src.now.0, (B.model s1.0, (C.model s2.0, (D.model s3.0, (E.model s4.0, (F.model s5.0, (G.model s6.0, (H.model s7.0, (I.model s8.0, J.model s9)))))))))
        (A.is_valid src.now.0 × (B.is_valid s1.0 × (C.is_valid s2.0 × (D.is_valid s3.0 × (E.is_valid s4.0 × (F.is_valid s5.0 × (G.is_valid s6.0 ×
        (H.is_valid s7.0 × (I.is_valid s8.0 × J.is_valid s9))))))))) result }
{
    write_in_window::<Members10<A, B, C, D, E, F, G, H, I, J>, W>(writer, src)
}

/// Writes 10 members, each by a schema of its own, as a tuple of them is written.
#[inline]
pub fn write_members_10<
    A: SchemaWrite,
    B: SchemaWrite,
    C: SchemaWrite,
    D: SchemaWrite,
    E: SchemaWrite,
    F: SchemaWrite,
    G: SchemaWrite,
    H: SchemaWrite,
    I: SchemaWrite,
    J: SchemaWrite,
    W: Writer,
>(
    writer: &mut W,
    a: &A::Src,
    b: &B::Src,
    c: &C::Src,
    d: &D::Src,
    e: &E::Src,
    f: &F::Src,
    g: &G::Src,
    h: &H::Src,
    i: &I::Src,
    j: &J::Src,
) -> WriteResult<()>
    ensures { let tuple = ⟦<(A, B, C, D, E, F, G, H, I, J) as SchemaWrite>⟧ in
        WriteOutcome tuple.writing (W.state writer.old) (W.state writer.new)
        (tuple.model (a.now, b.now, c.now, d.now, e.now, f.now, g.now, h.now, i.now, j.now))
        (tuple.is_valid (a.now, b.now, c.now, d.now, e.now, f.now, g.now, h.now, i.now, j.now)) result }
{
    write_10::<
        &Member<A>,
        &Member<B>,
        &Member<C>,
        &Member<D>,
        &Member<E>,
        &Member<F>,
        &Member<G>,
        &Member<H>,
        &Member<I>,
        &Member<J>,
        W,
    >(writer, &(a, (b, (c, (d, (e, (f, (g, (h, (i, j))))))))))
}

impl<
    A: SchemaWrite,
    B: SchemaWrite,
    C: SchemaWrite,
    D: SchemaWrite,
    E: SchemaWrite,
    F: SchemaWrite,
    G: SchemaWrite,
    H: SchemaWrite,
    I: SchemaWrite,
    J: SchemaWrite,
> SchemaWrite for (A, B, C, D, E, F, G, H, I, J) {
    type Src = (
        A::Src,
        B::Src,
        C::Src,
        D::Src,
        E::Src,
        F::Src,
        G::Src,
        H::Src,
        I::Src,
        J::Src,
    );

    ghost Value = { A.Value × (B.Value × (C.Value × (D.Value × (E.Value × (F.Value × (G.Value × (H.Value × (I.Value × J.Value)))))))) };

    ghost model = { λ t.
        (A.model t.0, (B.model t.1, (C.model t.2, (D.model t.3, (E.model t.4, (F.model t.5, (G.model t.6, (H.model t.7, (I.model t.8, J.model t.9))))))))) };

    ghost is_valid = { λ t. A.is_valid t.0 × (B.is_valid t.1 × (C.is_valid t.2 × (D.is_valid t.3 × (E.is_valid t.4 × (F.is_valid t.5 ×
        (G.is_valid t.6 × (H.is_valid t.7 × (I.is_valid t.8 × J.is_valid t.9)))))))) };

    ghost writing = { windowed_write (pair_write A.writing (pair_write B.writing (pair_write C.writing (pair_write D.writing (pair_write E.writing
        (pair_write F.writing (pair_write G.writing (pair_write H.writing (pair_write I.writing J.writing))))))))) };

    fn type_meta() -> TypeMeta {
        pair_meta(
            A::type_meta(),
            <(B, C, D, E, F, G, H, I, J) as SchemaWrite>::type_meta(),
        )
    }

    fn size_of(src: &Self::Src) -> WriteResult<usize> {
        size_of_members_10::<A, B, C, D, E, F, G, H, I, J>(
            &src.0, &src.1, &src.2, &src.3, &src.4, &src.5, &src.6, &src.7, &src.8, &src.9,
        )
    }

    #[inline]
    fn write<W: Writer>(writer: &mut W, src: &Self::Src) -> WriteResult<()> {
        write_members_10::<A, B, C, D, E, F, G, H, I, J, W>(
            writer, &src.0, &src.1, &src.2, &src.3, &src.4, &src.5, &src.6, &src.7, &src.8, &src.9,
        )
    }

    #[inline(always)]
    fn encode_front(src: &Self::Src, dst: &mut [u8]) -> Option<usize> {
        encode_front_members_10::<A, B, C, D, E, F, G, H, I, J>(
            &src.0, &src.1, &src.2, &src.3, &src.4, &src.5, &src.6, &src.7, &src.8, &src.9, dst,
        )
    }

    #[inline(always)]
    fn write_at_once<W: Writer>(writer: &mut W, items: &[Self::Src]) -> Option<WriteResult<()>> {
        let _ = &*writer;
        let _items = items.len();
        None
    }

    #[inline(always)]
    fn known_size() -> Option<usize> {
        None
    }

    ghost write_laws = { write_laws_by (λ t. (t.0, (t.1, (t.2, (t.3, (t.4, (t.5, (t.6, (t.7, (t.8, t.9))))))))))
        (windowed_write_laws (pair_write_laws A.write_laws (pair_write_laws B.write_laws (pair_write_laws C.write_laws (pair_write_laws D.write_laws
        (pair_write_laws E.write_laws (pair_write_laws F.write_laws (pair_write_laws G.write_laws (pair_write_laws H.write_laws
        (pair_write_laws I.write_laws J.write_laws)))))))))) };
}

/// The size of 11 members, each seen by a schema of its own: that of a tuple of them.
#[inline]
pub fn size_of_members_11<
    A: SchemaWrite,
    B: SchemaWrite,
    C: SchemaWrite,
    D: SchemaWrite,
    E: SchemaWrite,
    F: SchemaWrite,
    G: SchemaWrite,
    H: SchemaWrite,
    I: SchemaWrite,
    J: SchemaWrite,
    K: SchemaWrite,
>(
    a: &A::Src,
    b: &B::Src,
    c: &C::Src,
    d: &D::Src,
    e: &E::Src,
    f: &F::Src,
    g: &G::Src,
    h: &H::Src,
    i: &I::Src,
    j: &J::Src,
    k: &K::Src,
) -> WriteResult<usize>
    ensures ok { let tuple = ⟦<(A, B, C, D, E, F, G, H, I, J, K) as SchemaWrite>⟧ in IfOk result
        (IsSized tuple.writing (tuple.model (a.now, b.now, c.now, d.now, e.now, f.now, g.now, h.now, i.now, j.now, k.now))) }
    ensures err { let tuple = ⟦<(A, B, C, D, E, F, G, H, I, J, K) as SchemaWrite>⟧ in IfErr result
        (SizeRefused tuple.writing (tuple.model (a.now, b.now, c.now, d.now, e.now, f.now, g.now, h.now, i.now, j.now, k.now))) }
{
    joined_size(
        A::size_of(a),
        size_of_members_10::<B, C, D, E, F, G, H, I, J, K>(b, c, d, e, f, g, h, i, j, k),
    )
}

/// Writes 11 members through one window where all have one size.
#[inline]
fn write_11<
    A: SchemaWrite,
    B: SchemaWrite,
    C: SchemaWrite,
    D: SchemaWrite,
    E: SchemaWrite,
    F: SchemaWrite,
    G: SchemaWrite,
    H: SchemaWrite,
    I: SchemaWrite,
    J: SchemaWrite,
    K: SchemaWrite,
    W: Writer,
>(
    writer: &mut W,
    src: &(
        A::Src,
        (
            B::Src,
            (
                C::Src,
                (
                    D::Src,
                    (
                        E::Src,
                        (F::Src, (G::Src, (H::Src, (I::Src, (J::Src, K::Src))))),
                    ),
                ),
            ),
        ),
    ),
) -> WriteResult<()>
    ensures { let s1 = src.now.1 in let s2 = s1.1 in let s3 = s2.1 in let s4 = s3.1 in let s5 = s4.1 in let s6 = s5.1 in let s7 = s6.1 in
        let s8 = s7.1 in let s9 = s8.1 in let s10 = s9.1 in
        WriteOutcome (windowed_write (pair_write A.writing (pair_write B.writing (pair_write C.writing (pair_write D.writing (pair_write E.writing
        (pair_write F.writing (pair_write G.writing (pair_write H.writing (pair_write I.writing (pair_write J.writing K.writing)))))))))))
        (W.state writer.old) (W.state writer.new)
        (A.model src.now.0, (B.model s1.0, (C.model s2.0, (D.model s3.0, (E.model s4.0, (F.model s5.0, (G.model s6.0, (H.model s7.0, (I.model s8.0, (J.model s9.0, K.model s10))))))))))
        (A.is_valid src.now.0 × (B.is_valid s1.0 × (C.is_valid s2.0 × (D.is_valid s3.0 × (E.is_valid s4.0 × (F.is_valid s5.0 × (G.is_valid s6.0 ×
        (H.is_valid s7.0 × (I.is_valid s8.0 × (J.is_valid s9.0 × K.is_valid s10)))))))))) result }
{
    write_in_window::<Members11<A, B, C, D, E, F, G, H, I, J, K>, W>(writer, src)
}

/// Writes 11 members, each by a schema of its own, as a tuple of them is written.
#[inline]
pub fn write_members_11<
    A: SchemaWrite,
    B: SchemaWrite,
    C: SchemaWrite,
    D: SchemaWrite,
    E: SchemaWrite,
    F: SchemaWrite,
    G: SchemaWrite,
    H: SchemaWrite,
    I: SchemaWrite,
    J: SchemaWrite,
    K: SchemaWrite,
    W: Writer,
>(
    writer: &mut W,
    a: &A::Src,
    b: &B::Src,
    c: &C::Src,
    d: &D::Src,
    e: &E::Src,
    f: &F::Src,
    g: &G::Src,
    h: &H::Src,
    i: &I::Src,
    j: &J::Src,
    k: &K::Src,
) -> WriteResult<()>
    ensures { let tuple = ⟦<(A, B, C, D, E, F, G, H, I, J, K) as SchemaWrite>⟧ in
        WriteOutcome tuple.writing (W.state writer.old) (W.state writer.new)
        (tuple.model (a.now, b.now, c.now, d.now, e.now, f.now, g.now, h.now, i.now, j.now, k.now))
        (tuple.is_valid (a.now, b.now, c.now, d.now, e.now, f.now, g.now, h.now, i.now, j.now, k.now)) result }
{
    write_11::<
        &Member<A>,
        &Member<B>,
        &Member<C>,
        &Member<D>,
        &Member<E>,
        &Member<F>,
        &Member<G>,
        &Member<H>,
        &Member<I>,
        &Member<J>,
        &Member<K>,
        W,
    >(writer, &(a, (b, (c, (d, (e, (f, (g, (h, (i, (j, k)))))))))))
}

impl<
    A: SchemaWrite,
    B: SchemaWrite,
    C: SchemaWrite,
    D: SchemaWrite,
    E: SchemaWrite,
    F: SchemaWrite,
    G: SchemaWrite,
    H: SchemaWrite,
    I: SchemaWrite,
    J: SchemaWrite,
    K: SchemaWrite,
> SchemaWrite for (A, B, C, D, E, F, G, H, I, J, K) {
    type Src = (
        A::Src,
        B::Src,
        C::Src,
        D::Src,
        E::Src,
        F::Src,
        G::Src,
        H::Src,
        I::Src,
        J::Src,
        K::Src,
    );

    ghost Value = { A.Value × (B.Value × (C.Value × (D.Value × (E.Value × (F.Value × (G.Value × (H.Value × (I.Value × (J.Value × K.Value))))))))) };

    ghost model = { λ t.
        (A.model t.0, (B.model t.1, (C.model t.2, (D.model t.3, (E.model t.4, (F.model t.5, (G.model t.6, (H.model t.7, (I.model t.8, (J.model t.9, K.model t.10)))))))))) };

    ghost is_valid = { λ t. A.is_valid t.0 × (B.is_valid t.1 × (C.is_valid t.2 × (D.is_valid t.3 × (E.is_valid t.4 × (F.is_valid t.5 ×
        (G.is_valid t.6 × (H.is_valid t.7 × (I.is_valid t.8 × (J.is_valid t.9 × K.is_valid t.10))))))))) };

    ghost writing = { windowed_write (pair_write A.writing (pair_write B.writing (pair_write C.writing (pair_write D.writing (pair_write E.writing
        (pair_write F.writing (pair_write G.writing (pair_write H.writing (pair_write I.writing (pair_write J.writing K.writing)))))))))) };

    fn type_meta() -> TypeMeta {
        pair_meta(
            A::type_meta(),
            <(B, C, D, E, F, G, H, I, J, K) as SchemaWrite>::type_meta(),
        )
    }

    fn size_of(src: &Self::Src) -> WriteResult<usize> {
        size_of_members_11::<A, B, C, D, E, F, G, H, I, J, K>(
            &src.0, &src.1, &src.2, &src.3, &src.4, &src.5, &src.6, &src.7, &src.8, &src.9, &src.10,
        )
    }

    #[inline]
    fn write<W: Writer>(writer: &mut W, src: &Self::Src) -> WriteResult<()> {
        write_members_11::<A, B, C, D, E, F, G, H, I, J, K, W>(
            writer, &src.0, &src.1, &src.2, &src.3, &src.4, &src.5, &src.6, &src.7, &src.8, &src.9,
            &src.10,
        )
    }

    #[inline(always)]
    fn encode_front(src: &Self::Src, dst: &mut [u8]) -> Option<usize> {
        encode_front_members_11::<A, B, C, D, E, F, G, H, I, J, K>(
            &src.0, &src.1, &src.2, &src.3, &src.4, &src.5, &src.6, &src.7, &src.8, &src.9,
            &src.10, dst,
        )
    }

    #[inline(always)]
    fn write_at_once<W: Writer>(writer: &mut W, items: &[Self::Src]) -> Option<WriteResult<()>> {
        let _ = &*writer;
        let _items = items.len();
        None
    }

    #[inline(always)]
    fn known_size() -> Option<usize> {
        None
    }

    ghost write_laws = { write_laws_by (λ t. (t.0, (t.1, (t.2, (t.3, (t.4, (t.5, (t.6, (t.7, (t.8, (t.9, t.10)))))))))))
        (windowed_write_laws (pair_write_laws A.write_laws (pair_write_laws B.write_laws (pair_write_laws C.write_laws (pair_write_laws D.write_laws
        (pair_write_laws E.write_laws (pair_write_laws F.write_laws (pair_write_laws G.write_laws (pair_write_laws H.write_laws
        (pair_write_laws I.write_laws (pair_write_laws J.write_laws K.write_laws))))))))))) };
}

/// The size of 12 members, each seen by a schema of its own: that of a tuple of them.
#[inline]
pub fn size_of_members_12<
    A: SchemaWrite,
    B: SchemaWrite,
    C: SchemaWrite,
    D: SchemaWrite,
    E: SchemaWrite,
    F: SchemaWrite,
    G: SchemaWrite,
    H: SchemaWrite,
    I: SchemaWrite,
    J: SchemaWrite,
    K: SchemaWrite,
    M: SchemaWrite,
>(
    a: &A::Src,
    b: &B::Src,
    c: &C::Src,
    d: &D::Src,
    e: &E::Src,
    f: &F::Src,
    g: &G::Src,
    h: &H::Src,
    i: &I::Src,
    j: &J::Src,
    k: &K::Src,
    m: &M::Src,
) -> WriteResult<usize>
    ensures ok { let tuple = ⟦<(A, B, C, D, E, F, G, H, I, J, K, M) as SchemaWrite>⟧ in IfOk result
        (IsSized tuple.writing (tuple.model (a.now, b.now, c.now, d.now, e.now, f.now, g.now, h.now, i.now, j.now, k.now, m.now))) }
    ensures err { let tuple = ⟦<(A, B, C, D, E, F, G, H, I, J, K, M) as SchemaWrite>⟧ in IfErr result
        (SizeRefused tuple.writing (tuple.model (a.now, b.now, c.now, d.now, e.now, f.now, g.now, h.now, i.now, j.now, k.now, m.now))) }
{
    joined_size(
        A::size_of(a),
        size_of_members_11::<B, C, D, E, F, G, H, I, J, K, M>(b, c, d, e, f, g, h, i, j, k, m),
    )
}

/// Writes 12 members through one window where all have one size.
#[inline]
fn write_12<
    A: SchemaWrite,
    B: SchemaWrite,
    C: SchemaWrite,
    D: SchemaWrite,
    E: SchemaWrite,
    F: SchemaWrite,
    G: SchemaWrite,
    H: SchemaWrite,
    I: SchemaWrite,
    J: SchemaWrite,
    K: SchemaWrite,
    M: SchemaWrite,
    W: Writer,
>(
    writer: &mut W,
    src: &(
        A::Src,
        (
            B::Src,
            (
                C::Src,
                (
                    D::Src,
                    (
                        E::Src,
                        (
                            F::Src,
                            (G::Src, (H::Src, (I::Src, (J::Src, (K::Src, M::Src))))),
                        ),
                    ),
                ),
            ),
        ),
    ),
) -> WriteResult<()>
    ensures { let s1 = src.now.1 in let s2 = s1.1 in let s3 = s2.1 in let s4 = s3.1 in let s5 = s4.1 in let s6 = s5.1 in let s7 = s6.1 in
        let s8 = s7.1 in let s9 = s8.1 in let s10 = s9.1 in let s11 = s10.1 in
        WriteOutcome (windowed_write (pair_write A.writing (pair_write B.writing (pair_write C.writing (pair_write D.writing (pair_write E.writing
        (pair_write F.writing (pair_write G.writing (pair_write H.writing (pair_write I.writing (pair_write J.writing
        (pair_write K.writing M.writing)))))))))))) (W.state writer.old) (W.state writer.new)
        (A.model src.now.0, (B.model s1.0, (C.model s2.0, (D.model s3.0, (E.model s4.0, (F.model s5.0, (G.model s6.0, (H.model s7.0, (I.model s8.0, (J.model s9.0, (K.model s10.0, M.model s11)))))))))))
        (A.is_valid src.now.0 × (B.is_valid s1.0 × (C.is_valid s2.0 × (D.is_valid s3.0 × (E.is_valid s4.0 × (F.is_valid s5.0 × (G.is_valid s6.0 ×
        (H.is_valid s7.0 × (I.is_valid s8.0 × (J.is_valid s9.0 × (K.is_valid s10.0 × M.is_valid s11))))))))))) result }
{
    write_in_window::<Members12<A, B, C, D, E, F, G, H, I, J, K, M>, W>(writer, src)
}

/// Writes 12 members, each by a schema of its own, as a tuple of them is written.
#[inline]
pub fn write_members_12<
    A: SchemaWrite,
    B: SchemaWrite,
    C: SchemaWrite,
    D: SchemaWrite,
    E: SchemaWrite,
    F: SchemaWrite,
    G: SchemaWrite,
    H: SchemaWrite,
    I: SchemaWrite,
    J: SchemaWrite,
    K: SchemaWrite,
    M: SchemaWrite,
    W: Writer,
>(
    writer: &mut W,
    a: &A::Src,
    b: &B::Src,
    c: &C::Src,
    d: &D::Src,
    e: &E::Src,
    f: &F::Src,
    g: &G::Src,
    h: &H::Src,
    i: &I::Src,
    j: &J::Src,
    k: &K::Src,
    m: &M::Src,
) -> WriteResult<()>
    ensures { let tuple = ⟦<(A, B, C, D, E, F, G, H, I, J, K, M) as SchemaWrite>⟧ in
        WriteOutcome tuple.writing (W.state writer.old) (W.state writer.new)
        (tuple.model (a.now, b.now, c.now, d.now, e.now, f.now, g.now, h.now, i.now, j.now, k.now, m.now))
        (tuple.is_valid (a.now, b.now, c.now, d.now, e.now, f.now, g.now, h.now, i.now, j.now, k.now, m.now)) result }
{
    write_12::<
        &Member<A>,
        &Member<B>,
        &Member<C>,
        &Member<D>,
        &Member<E>,
        &Member<F>,
        &Member<G>,
        &Member<H>,
        &Member<I>,
        &Member<J>,
        &Member<K>,
        &Member<M>,
        W,
    >(
        writer,
        &(a, (b, (c, (d, (e, (f, (g, (h, (i, (j, (k, m))))))))))),
    )
}

impl<
    A: SchemaWrite,
    B: SchemaWrite,
    C: SchemaWrite,
    D: SchemaWrite,
    E: SchemaWrite,
    F: SchemaWrite,
    G: SchemaWrite,
    H: SchemaWrite,
    I: SchemaWrite,
    J: SchemaWrite,
    K: SchemaWrite,
    M: SchemaWrite,
> SchemaWrite for (A, B, C, D, E, F, G, H, I, J, K, M) {
    type Src = (
        A::Src,
        B::Src,
        C::Src,
        D::Src,
        E::Src,
        F::Src,
        G::Src,
        H::Src,
        I::Src,
        J::Src,
        K::Src,
        M::Src,
    );

    ghost Value = { A.Value × (B.Value × (C.Value × (D.Value × (E.Value × (F.Value × (G.Value × (H.Value × (I.Value × (J.Value × (K.Value ×
        M.Value)))))))))) };

    ghost model = { λ t.
        (A.model t.0, (B.model t.1, (C.model t.2, (D.model t.3, (E.model t.4, (F.model t.5, (G.model t.6, (H.model t.7, (I.model t.8, (J.model t.9, (K.model t.10, M.model t.11))))))))))) };

    ghost is_valid = { λ t. A.is_valid t.0 × (B.is_valid t.1 × (C.is_valid t.2 × (D.is_valid t.3 × (E.is_valid t.4 × (F.is_valid t.5 ×
        (G.is_valid t.6 × (H.is_valid t.7 × (I.is_valid t.8 × (J.is_valid t.9 × (K.is_valid t.10 × M.is_valid t.11)))))))))) };

    ghost writing = { windowed_write (pair_write A.writing (pair_write B.writing (pair_write C.writing (pair_write D.writing (pair_write E.writing
        (pair_write F.writing (pair_write G.writing (pair_write H.writing (pair_write I.writing (pair_write J.writing
        (pair_write K.writing M.writing))))))))))) };

    fn type_meta() -> TypeMeta {
        pair_meta(
            A::type_meta(),
            <(B, C, D, E, F, G, H, I, J, K, M) as SchemaWrite>::type_meta(),
        )
    }

    fn size_of(src: &Self::Src) -> WriteResult<usize> {
        size_of_members_12::<A, B, C, D, E, F, G, H, I, J, K, M>(
            &src.0, &src.1, &src.2, &src.3, &src.4, &src.5, &src.6, &src.7, &src.8, &src.9,
            &src.10, &src.11,
        )
    }

    #[inline]
    fn write<W: Writer>(writer: &mut W, src: &Self::Src) -> WriteResult<()> {
        write_members_12::<A, B, C, D, E, F, G, H, I, J, K, M, W>(
            writer, &src.0, &src.1, &src.2, &src.3, &src.4, &src.5, &src.6, &src.7, &src.8, &src.9,
            &src.10, &src.11,
        )
    }

    #[inline(always)]
    fn encode_front(src: &Self::Src, dst: &mut [u8]) -> Option<usize> {
        encode_front_members_12::<A, B, C, D, E, F, G, H, I, J, K, M>(
            &src.0, &src.1, &src.2, &src.3, &src.4, &src.5, &src.6, &src.7, &src.8, &src.9,
            &src.10, &src.11, dst,
        )
    }

    #[inline(always)]
    fn write_at_once<W: Writer>(writer: &mut W, items: &[Self::Src]) -> Option<WriteResult<()>> {
        let _ = &*writer;
        let _items = items.len();
        None
    }

    #[inline(always)]
    fn known_size() -> Option<usize> {
        None
    }

    ghost write_laws = { write_laws_by (λ t. (t.0, (t.1, (t.2, (t.3, (t.4, (t.5, (t.6, (t.7, (t.8, (t.9, (t.10, t.11))))))))))))
        (windowed_write_laws (pair_write_laws A.write_laws (pair_write_laws B.write_laws (pair_write_laws C.write_laws (pair_write_laws D.write_laws
        (pair_write_laws E.write_laws (pair_write_laws F.write_laws (pair_write_laws G.write_laws (pair_write_laws H.write_laws
        (pair_write_laws I.write_laws (pair_write_laws J.write_laws (pair_write_laws K.write_laws M.write_laws)))))))))))) };
}

//! Written by `tools/templates`: schemas of tuples of 2 to 8 members.
ghost use Rattle.std.specs.Prelude.{IfOk, IfErr};
ghost use Rattle.wincode_base.specs.InWindow.{windowed_write};
ghost use Rattle.wincode_base.specs.Outcomes.{IsSized, SizeRefused, WriteOutcome};
ghost use Rattle.wincode_base.specs.PairLaws.{pair_write_laws, write_laws_by, windowed_write_laws};
ghost use Rattle.wincode_base.specs.Pairs.{pair_write};

use crate::schema::SchemaWrite;
use crate::schema::in_window::write_in_window;
use crate::schema::tuples::fronts::{
    encode_front_members_2, encode_front_members_3, encode_front_members_4, encode_front_members_5,
    encode_front_members_6, encode_front_members_7, encode_front_members_8,
};
use wincode_base::error::WriteResult;
use wincode_base::meta::TypeMeta;
use wincode_base::parts::{
    Member, Members2, Members3, Members4, Members5, Members6, Members7, Members8,
};
use wincode_base::sizes::{joined_size, pair_meta};
use wincode_io::Writer;

/// The size of 2 members, each seen by a schema of its own: that of a tuple of them.
#[inline]
pub fn size_of_members_2<A: SchemaWrite, B: SchemaWrite>(
    a: &A::Src,
    b: &B::Src,
) -> WriteResult<usize>
    ensures ok { let tuple = ⟦<(A, B) as SchemaWrite>⟧ in IfOk result
        (IsSized tuple.writing (tuple.model (a.now, b.now))) }
    ensures err { let tuple = ⟦<(A, B) as SchemaWrite>⟧ in IfErr result
        (SizeRefused tuple.writing (tuple.model (a.now, b.now))) }
{
    joined_size(A::size_of(a), B::size_of(b))
}

/// Writes 2 members through one window where all have one size.
#[inline]
fn write_2<A: SchemaWrite, B: SchemaWrite, W: Writer>(
    writer: &mut W,
    src: &(A::Src, B::Src),
) -> WriteResult<()>
    ensures { let s1 = src.now.1 in
        WriteOutcome (windowed_write (pair_write A.writing B.writing)) (W.state writer.old) (W.state writer.new) (A.model src.now.0, B.model s1)
        (A.is_valid src.now.0 × B.is_valid s1) result }
{
    write_in_window::<Members2<A, B>, W>(writer, src)
}

/// Writes 2 members, each by a schema of its own, as a tuple of them is written.
#[inline]
pub fn write_members_2<A: SchemaWrite, B: SchemaWrite, W: Writer>(
    writer: &mut W,
    a: &A::Src,
    b: &B::Src,
) -> WriteResult<()>
    ensures { let tuple = ⟦<(A, B) as SchemaWrite>⟧ in
        WriteOutcome tuple.writing (W.state writer.old) (W.state writer.new) (tuple.model (a.now, b.now)) (tuple.is_valid (a.now, b.now)) result }
{
    write_2::<&Member<A>, &Member<B>, W>(writer, &(a, b))
}

impl<A: SchemaWrite, B: SchemaWrite> SchemaWrite for (A, B) {
    type Src = (A::Src, B::Src);

    ghost Value = { A.Value × B.Value };

    ghost model = { λ t. (A.model t.0, B.model t.1) };

    ghost is_valid = { λ t. A.is_valid t.0 × B.is_valid t.1 };

    ghost writing = { windowed_write (pair_write A.writing B.writing) };

    fn type_meta() -> TypeMeta {
        pair_meta(A::type_meta(), B::type_meta())
    }

    fn size_of(src: &Self::Src) -> WriteResult<usize> {
        joined_size(A::size_of(&src.0), B::size_of(&src.1))
    }

    #[inline]
    fn write<W: Writer>(writer: &mut W, src: &Self::Src) -> WriteResult<()> {
        write_in_window::<Members2<A, B>, W>(writer, src)
    }

    #[inline(always)]
    fn encode_front(src: &Self::Src, dst: &mut [u8]) -> Option<usize> {
        let first = A::encode_front(&src.0, dst)?;
        let second = B::encode_front(&src.1, &mut dst[first..])?;
        Some(first + second)
    }

    #[inline(always)]
    fn write_at_once<W: Writer>(writer: &mut W, items: &[Self::Src]) -> Option<WriteResult<()>> {
        let _ = &*writer;
        let _items = items.len();
        None
    }

    #[inline(always)]
    fn known_size() -> Option<usize> {
        None
    }

    ghost write_laws = { write_laws_by (λ t. (t.0, t.1))
        (windowed_write_laws (pair_write_laws A.write_laws B.write_laws)) };
}

/// The size of 3 members, each seen by a schema of its own: that of a tuple of them.
#[inline]
pub fn size_of_members_3<A: SchemaWrite, B: SchemaWrite, C: SchemaWrite>(
    a: &A::Src,
    b: &B::Src,
    c: &C::Src,
) -> WriteResult<usize>
    ensures ok { let tuple = ⟦<(A, B, C) as SchemaWrite>⟧ in IfOk result
        (IsSized tuple.writing (tuple.model (a.now, b.now, c.now))) }
    ensures err { let tuple = ⟦<(A, B, C) as SchemaWrite>⟧ in IfErr result
        (SizeRefused tuple.writing (tuple.model (a.now, b.now, c.now))) }
{
    joined_size(A::size_of(a), size_of_members_2::<B, C>(b, c))
}

/// Writes 3 members through one window where all have one size.
#[inline]
fn write_3<A: SchemaWrite, B: SchemaWrite, C: SchemaWrite, W: Writer>(
    writer: &mut W,
    src: &(A::Src, (B::Src, C::Src)),
) -> WriteResult<()>
    ensures { let s1 = src.now.1 in let s2 = s1.1 in
        WriteOutcome (windowed_write (pair_write A.writing (pair_write B.writing C.writing))) (W.state writer.old) (W.state writer.new)
        (A.model src.now.0, (B.model s1.0, C.model s2)) (A.is_valid src.now.0 × (B.is_valid s1.0 × C.is_valid s2)) result }
{
    write_in_window::<Members3<A, B, C>, W>(writer, src)
}

/// Writes 3 members, each by a schema of its own, as a tuple of them is written.
#[inline]
pub fn write_members_3<A: SchemaWrite, B: SchemaWrite, C: SchemaWrite, W: Writer>(
    writer: &mut W,
    a: &A::Src,
    b: &B::Src,
    c: &C::Src,
) -> WriteResult<()>
    ensures { let tuple = ⟦<(A, B, C) as SchemaWrite>⟧ in
        WriteOutcome tuple.writing (W.state writer.old) (W.state writer.new) (tuple.model (a.now, b.now, c.now))
        (tuple.is_valid (a.now, b.now, c.now)) result }
{
    write_3::<&Member<A>, &Member<B>, &Member<C>, W>(writer, &(a, (b, c)))
}

impl<A: SchemaWrite, B: SchemaWrite, C: SchemaWrite> SchemaWrite for (A, B, C) {
    type Src = (A::Src, B::Src, C::Src);

    ghost Value = { A.Value × (B.Value × C.Value) };

    ghost model = { λ t. (A.model t.0, (B.model t.1, C.model t.2)) };

    ghost is_valid = { λ t. A.is_valid t.0 × (B.is_valid t.1 × C.is_valid t.2) };

    ghost writing = { windowed_write (pair_write A.writing (pair_write B.writing C.writing)) };

    fn type_meta() -> TypeMeta {
        pair_meta(A::type_meta(), <(B, C) as SchemaWrite>::type_meta())
    }

    fn size_of(src: &Self::Src) -> WriteResult<usize> {
        size_of_members_3::<A, B, C>(&src.0, &src.1, &src.2)
    }

    #[inline]
    fn write<W: Writer>(writer: &mut W, src: &Self::Src) -> WriteResult<()> {
        write_members_3::<A, B, C, W>(writer, &src.0, &src.1, &src.2)
    }

    #[inline(always)]
    fn encode_front(src: &Self::Src, dst: &mut [u8]) -> Option<usize> {
        encode_front_members_3::<A, B, C>(&src.0, &src.1, &src.2, dst)
    }

    #[inline(always)]
    fn write_at_once<W: Writer>(writer: &mut W, items: &[Self::Src]) -> Option<WriteResult<()>> {
        let _ = &*writer;
        let _items = items.len();
        None
    }

    #[inline(always)]
    fn known_size() -> Option<usize> {
        None
    }

    ghost write_laws = { write_laws_by (λ t. (t.0, (t.1, t.2)))
        (windowed_write_laws (pair_write_laws A.write_laws (pair_write_laws B.write_laws C.write_laws))) };
}

/// The size of 4 members, each seen by a schema of its own: that of a tuple of them.
#[inline]
pub fn size_of_members_4<A: SchemaWrite, B: SchemaWrite, C: SchemaWrite, D: SchemaWrite>(
    a: &A::Src,
    b: &B::Src,
    c: &C::Src,
    d: &D::Src,
) -> WriteResult<usize>
    ensures ok { let tuple = ⟦<(A, B, C, D) as SchemaWrite>⟧ in IfOk result
        (IsSized tuple.writing (tuple.model (a.now, b.now, c.now, d.now))) }
    ensures err { let tuple = ⟦<(A, B, C, D) as SchemaWrite>⟧ in IfErr result
        (SizeRefused tuple.writing (tuple.model (a.now, b.now, c.now, d.now))) }
{
    joined_size(A::size_of(a), size_of_members_3::<B, C, D>(b, c, d))
}

/// Writes 4 members through one window where all have one size.
#[inline]
fn write_4<A: SchemaWrite, B: SchemaWrite, C: SchemaWrite, D: SchemaWrite, W: Writer>(
    writer: &mut W,
    src: &(A::Src, (B::Src, (C::Src, D::Src))),
) -> WriteResult<()>
    ensures { let s1 = src.now.1 in let s2 = s1.1 in let s3 = s2.1 in
        WriteOutcome (windowed_write (pair_write A.writing (pair_write B.writing (pair_write C.writing D.writing))))
        (W.state writer.old) (W.state writer.new) (A.model src.now.0, (B.model s1.0, (C.model s2.0, D.model s3))) (A.is_valid src.now.0 ×
        (B.is_valid s1.0 × (C.is_valid s2.0 × D.is_valid s3))) result }
{
    write_in_window::<Members4<A, B, C, D>, W>(writer, src)
}

/// Writes 4 members, each by a schema of its own, as a tuple of them is written.
#[inline]
pub fn write_members_4<A: SchemaWrite, B: SchemaWrite, C: SchemaWrite, D: SchemaWrite, W: Writer>(
    writer: &mut W,
    a: &A::Src,
    b: &B::Src,
    c: &C::Src,
    d: &D::Src,
) -> WriteResult<()>
    ensures { let tuple = ⟦<(A, B, C, D) as SchemaWrite>⟧ in
        WriteOutcome tuple.writing (W.state writer.old) (W.state writer.new) (tuple.model (a.now, b.now, c.now, d.now))
        (tuple.is_valid (a.now, b.now, c.now, d.now)) result }
{
    write_4::<&Member<A>, &Member<B>, &Member<C>, &Member<D>, W>(writer, &(a, (b, (c, d))))
}

impl<A: SchemaWrite, B: SchemaWrite, C: SchemaWrite, D: SchemaWrite> SchemaWrite for (A, B, C, D) {
    type Src = (A::Src, B::Src, C::Src, D::Src);

    ghost Value = { A.Value × (B.Value × (C.Value × D.Value)) };

    ghost model = { λ t. (A.model t.0, (B.model t.1, (C.model t.2, D.model t.3))) };

    ghost is_valid = { λ t. A.is_valid t.0 × (B.is_valid t.1 × (C.is_valid t.2 × D.is_valid t.3)) };

    ghost writing = { windowed_write (pair_write A.writing (pair_write B.writing (pair_write C.writing D.writing))) };

    fn type_meta() -> TypeMeta {
        pair_meta(A::type_meta(), <(B, C, D) as SchemaWrite>::type_meta())
    }

    fn size_of(src: &Self::Src) -> WriteResult<usize> {
        size_of_members_4::<A, B, C, D>(&src.0, &src.1, &src.2, &src.3)
    }

    #[inline]
    fn write<W: Writer>(writer: &mut W, src: &Self::Src) -> WriteResult<()> {
        write_members_4::<A, B, C, D, W>(writer, &src.0, &src.1, &src.2, &src.3)
    }

    #[inline(always)]
    fn encode_front(src: &Self::Src, dst: &mut [u8]) -> Option<usize> {
        encode_front_members_4::<A, B, C, D>(&src.0, &src.1, &src.2, &src.3, dst)
    }

    #[inline(always)]
    fn write_at_once<W: Writer>(writer: &mut W, items: &[Self::Src]) -> Option<WriteResult<()>> {
        let _ = &*writer;
        let _items = items.len();
        None
    }

    #[inline(always)]
    fn known_size() -> Option<usize> {
        None
    }

    ghost write_laws = { write_laws_by (λ t. (t.0, (t.1, (t.2, t.3))))
        (windowed_write_laws (pair_write_laws A.write_laws (pair_write_laws B.write_laws (pair_write_laws C.write_laws D.write_laws)))) };
}

/// The size of 5 members, each seen by a schema of its own: that of a tuple of them.
#[inline]
pub fn size_of_members_5<
    A: SchemaWrite,
    B: SchemaWrite,
    C: SchemaWrite,
    D: SchemaWrite,
    E: SchemaWrite,
>(a: &A::Src, b: &B::Src, c: &C::Src, d: &D::Src, e: &E::Src) -> WriteResult<usize>
    ensures ok { let tuple = ⟦<(A, B, C, D, E) as SchemaWrite>⟧ in IfOk result
        (IsSized tuple.writing (tuple.model (a.now, b.now, c.now, d.now, e.now))) }
    ensures err { let tuple = ⟦<(A, B, C, D, E) as SchemaWrite>⟧ in IfErr result
        (SizeRefused tuple.writing (tuple.model (a.now, b.now, c.now, d.now, e.now))) }
{
    joined_size(A::size_of(a), size_of_members_4::<B, C, D, E>(b, c, d, e))
}

/// Writes 5 members through one window where all have one size.
#[inline]
fn write_5<
    A: SchemaWrite,
    B: SchemaWrite,
    C: SchemaWrite,
    D: SchemaWrite,
    E: SchemaWrite,
    W: Writer,
>(writer: &mut W, src: &(A::Src, (B::Src, (C::Src, (D::Src, E::Src))))) -> WriteResult<()>
    ensures { let s1 = src.now.1 in let s2 = s1.1 in let s3 = s2.1 in let s4 = s3.1 in
        WriteOutcome (windowed_write (pair_write A.writing (pair_write B.writing (pair_write C.writing (pair_write D.writing E.writing)))))
        (W.state writer.old) (W.state writer.new) (A.model src.now.0, (B.model s1.0, (C.model s2.0, (D.model s3.0, E.model s4))))
        (A.is_valid src.now.0 × (B.is_valid s1.0 × (C.is_valid s2.0 × (D.is_valid s3.0 × E.is_valid s4)))) result }
{
    write_in_window::<Members5<A, B, C, D, E>, W>(writer, src)
}

/// Writes 5 members, each by a schema of its own, as a tuple of them is written.
#[inline]
pub fn write_members_5<
    A: SchemaWrite,
    B: SchemaWrite,
    C: SchemaWrite,
    D: SchemaWrite,
    E: SchemaWrite,
    W: Writer,
>(writer: &mut W, a: &A::Src, b: &B::Src, c: &C::Src, d: &D::Src, e: &E::Src) -> WriteResult<()>
    ensures { let tuple = ⟦<(A, B, C, D, E) as SchemaWrite>⟧ in
        WriteOutcome tuple.writing (W.state writer.old) (W.state writer.new) (tuple.model (a.now, b.now, c.now, d.now, e.now))
        (tuple.is_valid (a.now, b.now, c.now, d.now, e.now)) result }
{
    write_5::<&Member<A>, &Member<B>, &Member<C>, &Member<D>, &Member<E>, W>(
        writer,
        &(a, (b, (c, (d, e)))),
    )
}

impl<A: SchemaWrite, B: SchemaWrite, C: SchemaWrite, D: SchemaWrite, E: SchemaWrite> SchemaWrite
    for (A, B, C, D, E) {
    type Src = (A::Src, B::Src, C::Src, D::Src, E::Src);

    ghost Value = { A.Value × (B.Value × (C.Value × (D.Value × E.Value))) };

    ghost model = { λ t. (A.model t.0, (B.model t.1, (C.model t.2, (D.model t.3, E.model t.4)))) };

    ghost is_valid = { λ t. A.is_valid t.0 × (B.is_valid t.1 × (C.is_valid t.2 × (D.is_valid t.3 × E.is_valid t.4))) };

    ghost writing = { windowed_write (pair_write A.writing (pair_write B.writing (pair_write C.writing (pair_write D.writing E.writing)))) };

    fn type_meta() -> TypeMeta {
        pair_meta(A::type_meta(), <(B, C, D, E) as SchemaWrite>::type_meta())
    }

    fn size_of(src: &Self::Src) -> WriteResult<usize> {
        size_of_members_5::<A, B, C, D, E>(&src.0, &src.1, &src.2, &src.3, &src.4)
    }

    #[inline]
    fn write<W: Writer>(writer: &mut W, src: &Self::Src) -> WriteResult<()> {
        write_members_5::<A, B, C, D, E, W>(writer, &src.0, &src.1, &src.2, &src.3, &src.4)
    }

    #[inline(always)]
    fn encode_front(src: &Self::Src, dst: &mut [u8]) -> Option<usize> {
        encode_front_members_5::<A, B, C, D, E>(&src.0, &src.1, &src.2, &src.3, &src.4, dst)
    }

    #[inline(always)]
    fn write_at_once<W: Writer>(writer: &mut W, items: &[Self::Src]) -> Option<WriteResult<()>> {
        let _ = &*writer;
        let _items = items.len();
        None
    }

    #[inline(always)]
    fn known_size() -> Option<usize> {
        None
    }

    ghost write_laws = { write_laws_by (λ t. (t.0, (t.1, (t.2, (t.3, t.4)))))
        (windowed_write_laws (pair_write_laws A.write_laws (pair_write_laws B.write_laws (pair_write_laws C.write_laws
        (pair_write_laws D.write_laws E.write_laws))))) };
}

/// The size of 6 members, each seen by a schema of its own: that of a tuple of them.
#[inline]
pub fn size_of_members_6<
    A: SchemaWrite,
    B: SchemaWrite,
    C: SchemaWrite,
    D: SchemaWrite,
    E: SchemaWrite,
    F: SchemaWrite,
>(a: &A::Src, b: &B::Src, c: &C::Src, d: &D::Src, e: &E::Src, f: &F::Src) -> WriteResult<usize>
    ensures ok { let tuple = ⟦<(A, B, C, D, E, F) as SchemaWrite>⟧ in IfOk result
        (IsSized tuple.writing (tuple.model (a.now, b.now, c.now, d.now, e.now, f.now))) }
    ensures err { let tuple = ⟦<(A, B, C, D, E, F) as SchemaWrite>⟧ in IfErr result
        (SizeRefused tuple.writing (tuple.model (a.now, b.now, c.now, d.now, e.now, f.now))) }
{
    joined_size(
        A::size_of(a),
        size_of_members_5::<B, C, D, E, F>(b, c, d, e, f),
    )
}

/// Writes 6 members through one window where all have one size.
#[inline]
fn write_6<
    A: SchemaWrite,
    B: SchemaWrite,
    C: SchemaWrite,
    D: SchemaWrite,
    E: SchemaWrite,
    F: SchemaWrite,
    W: Writer,
>(writer: &mut W, src: &(A::Src, (B::Src, (C::Src, (D::Src, (E::Src, F::Src)))))) -> WriteResult<()>
    ensures { let s1 = src.now.1 in let s2 = s1.1 in let s3 = s2.1 in let s4 = s3.1 in let s5 = s4.1 in
        WriteOutcome (windowed_write (pair_write A.writing (pair_write B.writing (pair_write C.writing (pair_write D.writing
        (pair_write E.writing F.writing)))))) (W.state writer.old) (W.state writer.new)
        (A.model src.now.0, (B.model s1.0, (C.model s2.0, (D.model s3.0, (E.model s4.0, F.model s5))))) (A.is_valid src.now.0 × (B.is_valid s1.0 ×
        (C.is_valid s2.0 × (D.is_valid s3.0 × (E.is_valid s4.0 × F.is_valid s5))))) result }
{
    write_in_window::<Members6<A, B, C, D, E, F>, W>(writer, src)
}

/// Writes 6 members, each by a schema of its own, as a tuple of them is written.
#[inline]
pub fn write_members_6<
    A: SchemaWrite,
    B: SchemaWrite,
    C: SchemaWrite,
    D: SchemaWrite,
    E: SchemaWrite,
    F: SchemaWrite,
    W: Writer,
>(
    writer: &mut W,
    a: &A::Src,
    b: &B::Src,
    c: &C::Src,
    d: &D::Src,
    e: &E::Src,
    f: &F::Src,
) -> WriteResult<()>
    ensures { let tuple = ⟦<(A, B, C, D, E, F) as SchemaWrite>⟧ in
        WriteOutcome tuple.writing (W.state writer.old) (W.state writer.new) (tuple.model (a.now, b.now, c.now, d.now, e.now, f.now))
        (tuple.is_valid (a.now, b.now, c.now, d.now, e.now, f.now)) result }
{
    write_6::<&Member<A>, &Member<B>, &Member<C>, &Member<D>, &Member<E>, &Member<F>, W>(
        writer,
        &(a, (b, (c, (d, (e, f))))),
    )
}

impl<
    A: SchemaWrite,
    B: SchemaWrite,
    C: SchemaWrite,
    D: SchemaWrite,
    E: SchemaWrite,
    F: SchemaWrite,
> SchemaWrite for (A, B, C, D, E, F) {
    type Src = (A::Src, B::Src, C::Src, D::Src, E::Src, F::Src);

    ghost Value = { A.Value × (B.Value × (C.Value × (D.Value × (E.Value × F.Value)))) };

    ghost model = { λ t. (A.model t.0, (B.model t.1, (C.model t.2, (D.model t.3, (E.model t.4, F.model t.5))))) };

    ghost is_valid = { λ t. A.is_valid t.0 × (B.is_valid t.1 × (C.is_valid t.2 × (D.is_valid t.3 × (E.is_valid t.4 × F.is_valid t.5)))) };

    ghost writing = { windowed_write (pair_write A.writing (pair_write B.writing (pair_write C.writing (pair_write D.writing
        (pair_write E.writing F.writing))))) };

    fn type_meta() -> TypeMeta {
        pair_meta(
            A::type_meta(),
            <(B, C, D, E, F) as SchemaWrite>::type_meta(),
        )
    }

    fn size_of(src: &Self::Src) -> WriteResult<usize> {
        size_of_members_6::<A, B, C, D, E, F>(&src.0, &src.1, &src.2, &src.3, &src.4, &src.5)
    }

    #[inline]
    fn write<W: Writer>(writer: &mut W, src: &Self::Src) -> WriteResult<()> {
        write_members_6::<A, B, C, D, E, F, W>(
            writer, &src.0, &src.1, &src.2, &src.3, &src.4, &src.5,
        )
    }

    #[inline(always)]
    fn encode_front(src: &Self::Src, dst: &mut [u8]) -> Option<usize> {
        encode_front_members_6::<A, B, C, D, E, F>(
            &src.0, &src.1, &src.2, &src.3, &src.4, &src.5, dst,
        )
    }

    #[inline(always)]
    fn write_at_once<W: Writer>(writer: &mut W, items: &[Self::Src]) -> Option<WriteResult<()>> {
        let _ = &*writer;
        let _items = items.len();
        None
    }

    #[inline(always)]
    fn known_size() -> Option<usize> {
        None
    }

    ghost write_laws = { write_laws_by (λ t. (t.0, (t.1, (t.2, (t.3, (t.4, t.5))))))
        (windowed_write_laws (pair_write_laws A.write_laws (pair_write_laws B.write_laws (pair_write_laws C.write_laws (pair_write_laws D.write_laws
        (pair_write_laws E.write_laws F.write_laws)))))) };
}

/// The size of 7 members, each seen by a schema of its own: that of a tuple of them.
#[inline]
pub fn size_of_members_7<
    A: SchemaWrite,
    B: SchemaWrite,
    C: SchemaWrite,
    D: SchemaWrite,
    E: SchemaWrite,
    F: SchemaWrite,
    G: SchemaWrite,
>(
    a: &A::Src,
    b: &B::Src,
    c: &C::Src,
    d: &D::Src,
    e: &E::Src,
    f: &F::Src,
    g: &G::Src,
) -> WriteResult<usize>
    ensures ok { let tuple = ⟦<(A, B, C, D, E, F, G) as SchemaWrite>⟧ in IfOk result
        (IsSized tuple.writing (tuple.model (a.now, b.now, c.now, d.now, e.now, f.now, g.now))) }
    ensures err { let tuple = ⟦<(A, B, C, D, E, F, G) as SchemaWrite>⟧ in IfErr result
        (SizeRefused tuple.writing (tuple.model (a.now, b.now, c.now, d.now, e.now, f.now, g.now))) }
{
    joined_size(
        A::size_of(a),
        size_of_members_6::<B, C, D, E, F, G>(b, c, d, e, f, g),
    )
}

/// Writes 7 members through one window where all have one size.
#[inline]
fn write_7<
    A: SchemaWrite,
    B: SchemaWrite,
    C: SchemaWrite,
    D: SchemaWrite,
    E: SchemaWrite,
    F: SchemaWrite,
    G: SchemaWrite,
    W: Writer,
>(
    writer: &mut W,
    src: &(
        A::Src,
        (B::Src, (C::Src, (D::Src, (E::Src, (F::Src, G::Src))))),
    ),
) -> WriteResult<()>
    ensures { let s1 = src.now.1 in let s2 = s1.1 in let s3 = s2.1 in let s4 = s3.1 in let s5 = s4.1 in let s6 = s5.1 in
        WriteOutcome (windowed_write (pair_write A.writing (pair_write B.writing (pair_write C.writing (pair_write D.writing (pair_write E.writing
        (pair_write F.writing G.writing))))))) (W.state writer.old) (W.state writer.new)
        (A.model src.now.0, (B.model s1.0, (C.model s2.0, (D.model s3.0, (E.model s4.0, (F.model s5.0, G.model s6)))))) (A.is_valid src.now.0 ×
        (B.is_valid s1.0 × (C.is_valid s2.0 × (D.is_valid s3.0 × (E.is_valid s4.0 × (F.is_valid s5.0 × G.is_valid s6)))))) result }
{
    write_in_window::<Members7<A, B, C, D, E, F, G>, W>(writer, src)
}

/// Writes 7 members, each by a schema of its own, as a tuple of them is written.
#[inline]
pub fn write_members_7<
    A: SchemaWrite,
    B: SchemaWrite,
    C: SchemaWrite,
    D: SchemaWrite,
    E: SchemaWrite,
    F: SchemaWrite,
    G: SchemaWrite,
    W: Writer,
>(
    writer: &mut W,
    a: &A::Src,
    b: &B::Src,
    c: &C::Src,
    d: &D::Src,
    e: &E::Src,
    f: &F::Src,
    g: &G::Src,
) -> WriteResult<()>
    ensures { let tuple = ⟦<(A, B, C, D, E, F, G) as SchemaWrite>⟧ in
        WriteOutcome tuple.writing (W.state writer.old) (W.state writer.new) (tuple.model (a.now, b.now, c.now, d.now, e.now, f.now, g.now))
        (tuple.is_valid (a.now, b.now, c.now, d.now, e.now, f.now, g.now)) result }
{
    write_7::<
        &Member<A>,
        &Member<B>,
        &Member<C>,
        &Member<D>,
        &Member<E>,
        &Member<F>,
        &Member<G>,
        W,
    >(writer, &(a, (b, (c, (d, (e, (f, g)))))))
}

impl<
    A: SchemaWrite,
    B: SchemaWrite,
    C: SchemaWrite,
    D: SchemaWrite,
    E: SchemaWrite,
    F: SchemaWrite,
    G: SchemaWrite,
> SchemaWrite for (A, B, C, D, E, F, G) {
    type Src = (A::Src, B::Src, C::Src, D::Src, E::Src, F::Src, G::Src);

    ghost Value = { A.Value × (B.Value × (C.Value × (D.Value × (E.Value × (F.Value × G.Value))))) };

    ghost model = { λ t. (A.model t.0, (B.model t.1, (C.model t.2, (D.model t.3, (E.model t.4, (F.model t.5, G.model t.6)))))) };

    ghost is_valid = { λ t. A.is_valid t.0 × (B.is_valid t.1 × (C.is_valid t.2 × (D.is_valid t.3 × (E.is_valid t.4 × (F.is_valid t.5 ×
        G.is_valid t.6))))) };

    ghost writing = { windowed_write (pair_write A.writing (pair_write B.writing (pair_write C.writing (pair_write D.writing (pair_write E.writing
        (pair_write F.writing G.writing)))))) };

    fn type_meta() -> TypeMeta {
        pair_meta(
            A::type_meta(),
            <(B, C, D, E, F, G) as SchemaWrite>::type_meta(),
        )
    }

    fn size_of(src: &Self::Src) -> WriteResult<usize> {
        size_of_members_7::<A, B, C, D, E, F, G>(
            &src.0, &src.1, &src.2, &src.3, &src.4, &src.5, &src.6,
        )
    }

    #[inline]
    fn write<W: Writer>(writer: &mut W, src: &Self::Src) -> WriteResult<()> {
        write_members_7::<A, B, C, D, E, F, G, W>(
            writer, &src.0, &src.1, &src.2, &src.3, &src.4, &src.5, &src.6,
        )
    }

    #[inline(always)]
    fn encode_front(src: &Self::Src, dst: &mut [u8]) -> Option<usize> {
        encode_front_members_7::<A, B, C, D, E, F, G>(
            &src.0, &src.1, &src.2, &src.3, &src.4, &src.5, &src.6, dst,
        )
    }

    #[inline(always)]
    fn write_at_once<W: Writer>(writer: &mut W, items: &[Self::Src]) -> Option<WriteResult<()>> {
        let _ = &*writer;
        let _items = items.len();
        None
    }

    #[inline(always)]
    fn known_size() -> Option<usize> {
        None
    }

    ghost write_laws = { write_laws_by (λ t. (t.0, (t.1, (t.2, (t.3, (t.4, (t.5, t.6)))))))
        (windowed_write_laws (pair_write_laws A.write_laws (pair_write_laws B.write_laws (pair_write_laws C.write_laws (pair_write_laws D.write_laws
        (pair_write_laws E.write_laws (pair_write_laws F.write_laws G.write_laws))))))) };
}

/// The size of 8 members, each seen by a schema of its own: that of a tuple of them.
#[inline]
pub fn size_of_members_8<
    A: SchemaWrite,
    B: SchemaWrite,
    C: SchemaWrite,
    D: SchemaWrite,
    E: SchemaWrite,
    F: SchemaWrite,
    G: SchemaWrite,
    H: SchemaWrite,
>(
    a: &A::Src,
    b: &B::Src,
    c: &C::Src,
    d: &D::Src,
    e: &E::Src,
    f: &F::Src,
    g: &G::Src,
    h: &H::Src,
) -> WriteResult<usize>
    ensures ok { let tuple = ⟦<(A, B, C, D, E, F, G, H) as SchemaWrite>⟧ in IfOk result
        (IsSized tuple.writing (tuple.model (a.now, b.now, c.now, d.now, e.now, f.now, g.now, h.now))) }
    ensures err { let tuple = ⟦<(A, B, C, D, E, F, G, H) as SchemaWrite>⟧ in IfErr result
        (SizeRefused tuple.writing (tuple.model (a.now, b.now, c.now, d.now, e.now, f.now, g.now, h.now))) }
{
    joined_size(
        A::size_of(a),
        size_of_members_7::<B, C, D, E, F, G, H>(b, c, d, e, f, g, h),
    )
}

/// Writes 8 members through one window where all have one size.
#[inline]
fn write_8<
    A: SchemaWrite,
    B: SchemaWrite,
    C: SchemaWrite,
    D: SchemaWrite,
    E: SchemaWrite,
    F: SchemaWrite,
    G: SchemaWrite,
    H: SchemaWrite,
    W: Writer,
>(
    writer: &mut W,
    src: &(
        A::Src,
        (
            B::Src,
            (C::Src, (D::Src, (E::Src, (F::Src, (G::Src, H::Src))))),
        ),
    ),
) -> WriteResult<()>
    ensures { let s1 = src.now.1 in let s2 = s1.1 in let s3 = s2.1 in let s4 = s3.1 in let s5 = s4.1 in let s6 = s5.1 in let s7 = s6.1 in
        WriteOutcome (windowed_write (pair_write A.writing (pair_write B.writing (pair_write C.writing (pair_write D.writing (pair_write E.writing
        (pair_write F.writing (pair_write G.writing H.writing)))))))) (W.state writer.old) (W.state writer.new)
        (A.model src.now.0, (B.model s1.0, (C.model s2.0, (D.model s3.0, (E.model s4.0, (F.model s5.0, (G.model s6.0, H.model s7)))))))
        (A.is_valid src.now.0 × (B.is_valid s1.0 × (C.is_valid s2.0 × (D.is_valid s3.0 × (E.is_valid s4.0 × (F.is_valid s5.0 × (G.is_valid s6.0 ×
        H.is_valid s7))))))) result }
{
    write_in_window::<Members8<A, B, C, D, E, F, G, H>, W>(writer, src)
}

/// Writes 8 members, each by a schema of its own, as a tuple of them is written.
#[inline]
pub fn write_members_8<
    A: SchemaWrite,
    B: SchemaWrite,
    C: SchemaWrite,
    D: SchemaWrite,
    E: SchemaWrite,
    F: SchemaWrite,
    G: SchemaWrite,
    H: SchemaWrite,
    W: Writer,
>(
    writer: &mut W,
    a: &A::Src,
    b: &B::Src,
    c: &C::Src,
    d: &D::Src,
    e: &E::Src,
    f: &F::Src,
    g: &G::Src,
    h: &H::Src,
) -> WriteResult<()>
    ensures { let tuple = ⟦<(A, B, C, D, E, F, G, H) as SchemaWrite>⟧ in
        WriteOutcome tuple.writing (W.state writer.old) (W.state writer.new) (tuple.model (a.now, b.now, c.now, d.now, e.now, f.now, g.now, h.now))
        (tuple.is_valid (a.now, b.now, c.now, d.now, e.now, f.now, g.now, h.now)) result }
{
    write_8::<
        &Member<A>,
        &Member<B>,
        &Member<C>,
        &Member<D>,
        &Member<E>,
        &Member<F>,
        &Member<G>,
        &Member<H>,
        W,
    >(writer, &(a, (b, (c, (d, (e, (f, (g, h))))))))
}

impl<
    A: SchemaWrite,
    B: SchemaWrite,
    C: SchemaWrite,
    D: SchemaWrite,
    E: SchemaWrite,
    F: SchemaWrite,
    G: SchemaWrite,
    H: SchemaWrite,
> SchemaWrite for (A, B, C, D, E, F, G, H) {
    type Src = (
        A::Src,
        B::Src,
        C::Src,
        D::Src,
        E::Src,
        F::Src,
        G::Src,
        H::Src,
    );

    ghost Value = { A.Value × (B.Value × (C.Value × (D.Value × (E.Value × (F.Value × (G.Value × H.Value)))))) };

    ghost model = { λ t. (A.model t.0, (B.model t.1, (C.model t.2, (D.model t.3, (E.model t.4, (F.model t.5, (G.model t.6, H.model t.7))))))) };

    ghost is_valid = { λ t. A.is_valid t.0 × (B.is_valid t.1 × (C.is_valid t.2 × (D.is_valid t.3 × (E.is_valid t.4 × (F.is_valid t.5 ×
        (G.is_valid t.6 × H.is_valid t.7)))))) };

    ghost writing = { windowed_write (pair_write A.writing (pair_write B.writing (pair_write C.writing (pair_write D.writing (pair_write E.writing
        (pair_write F.writing (pair_write G.writing H.writing))))))) };

    fn type_meta() -> TypeMeta {
        pair_meta(
            A::type_meta(),
            <(B, C, D, E, F, G, H) as SchemaWrite>::type_meta(),
        )
    }

    fn size_of(src: &Self::Src) -> WriteResult<usize> {
        size_of_members_8::<A, B, C, D, E, F, G, H>(
            &src.0, &src.1, &src.2, &src.3, &src.4, &src.5, &src.6, &src.7,
        )
    }

    #[inline]
    fn write<W: Writer>(writer: &mut W, src: &Self::Src) -> WriteResult<()> {
        write_members_8::<A, B, C, D, E, F, G, H, W>(
            writer, &src.0, &src.1, &src.2, &src.3, &src.4, &src.5, &src.6, &src.7,
        )
    }

    #[inline(always)]
    fn encode_front(src: &Self::Src, dst: &mut [u8]) -> Option<usize> {
        encode_front_members_8::<A, B, C, D, E, F, G, H>(
            &src.0, &src.1, &src.2, &src.3, &src.4, &src.5, &src.6, &src.7, dst,
        )
    }

    #[inline(always)]
    fn write_at_once<W: Writer>(writer: &mut W, items: &[Self::Src]) -> Option<WriteResult<()>> {
        let _ = &*writer;
        let _items = items.len();
        None
    }

    #[inline(always)]
    fn known_size() -> Option<usize> {
        None
    }

    ghost write_laws = { write_laws_by (λ t. (t.0, (t.1, (t.2, (t.3, (t.4, (t.5, (t.6, t.7))))))))
        (windowed_write_laws (pair_write_laws A.write_laws (pair_write_laws B.write_laws (pair_write_laws C.write_laws (pair_write_laws D.write_laws
        (pair_write_laws E.write_laws (pair_write_laws F.write_laws (pair_write_laws G.write_laws H.write_laws)))))))) };
}

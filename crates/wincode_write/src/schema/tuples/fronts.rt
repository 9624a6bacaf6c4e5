//! Written by `tools/templates`: members put together over the front of bytes, each by a schema of its own, as `encode_front` does of a tuple of them.
ghost use Rattle.std.specs.Prelude.{◌≤◌, length, take, IfSome};
ghost use Rattle.wincode_base.specs.Outcomes.{IsEncoded};

use crate::schema::SchemaWrite;

/// Puts an encoding of 2 members over the front of the bytes, and gives how many it has; or answers `None`.
#[inline(always)]
pub fn encode_front_members_2<A: SchemaWrite, B: SchemaWrite>(
    a: &A::Src,
    b: &B::Src,
    dst: &mut [u8],
) -> Option<usize>
    ensures { let tuple = ⟦<(A, B) as SchemaWrite>⟧ in
        IfSome result (λ n. (n ≤ length dst.new) × IsEncoded tuple.writing (tuple.model (a.now, b.now)) (take n dst.new)
        × tuple.is_valid (a.now, b.now)) }
{
    let first = A::encode_front(a, dst)?;
    let second = B::encode_front(b, &mut dst[first..])?;
    Some(first + second)
}

/// Puts an encoding of 3 members over the front of the bytes, and gives how many it has; or answers `None`.
#[inline(always)]
pub fn encode_front_members_3<A: SchemaWrite, B: SchemaWrite, C: SchemaWrite>(
    a: &A::Src,
    b: &B::Src,
    c: &C::Src,
    dst: &mut [u8],
) -> Option<usize>
    ensures { let tuple = ⟦<(A, B, C) as SchemaWrite>⟧ in
        IfSome result (λ n. (n ≤ length dst.new) × IsEncoded tuple.writing (tuple.model (a.now, b.now, c.now)) (take n dst.new)
        × tuple.is_valid (a.now, b.now, c.now)) }
{
    let first = A::encode_front(a, dst)?;
    let second = encode_front_members_2::<B, C>(b, c, &mut dst[first..])?;
    Some(first + second)
}

/// Puts an encoding of 4 members over the front of the bytes, and gives how many it has; or answers `None`.
#[inline(always)]
pub fn encode_front_members_4<A: SchemaWrite, B: SchemaWrite, C: SchemaWrite, D: SchemaWrite>(
    a: &A::Src,
    b: &B::Src,
    c: &C::Src,
    d: &D::Src,
    dst: &mut [u8],
) -> Option<usize>
    ensures { let tuple = ⟦<(A, B, C, D) as SchemaWrite>⟧ in
        IfSome result (λ n. (n ≤ length dst.new) × IsEncoded tuple.writing (tuple.model (a.now, b.now, c.now, d.now)) (take n dst.new)
        × tuple.is_valid (a.now, b.now, c.now, d.now)) }
{
    let first = A::encode_front(a, dst)?;
    let second = encode_front_members_3::<B, C, D>(b, c, d, &mut dst[first..])?;
    Some(first + second)
}

/// Puts an encoding of 5 members over the front of the bytes, and gives how many it has; or answers `None`.
#[inline(always)]
pub fn encode_front_members_5<
    A: SchemaWrite,
    B: SchemaWrite,
    C: SchemaWrite,
    D: SchemaWrite,
    E: SchemaWrite,
>(a: &A::Src, b: &B::Src, c: &C::Src, d: &D::Src, e: &E::Src, dst: &mut [u8]) -> Option<usize>
    ensures { let tuple = ⟦<(A, B, C, D, E) as SchemaWrite>⟧ in
        IfSome result (λ n. (n ≤ length dst.new) × IsEncoded tuple.writing (tuple.model (a.now, b.now, c.now, d.now, e.now)) (take n dst.new)
        × tuple.is_valid (a.now, b.now, c.now, d.now, e.now)) }
{
    let first = A::encode_front(a, dst)?;
    let second = encode_front_members_4::<B, C, D, E>(b, c, d, e, &mut dst[first..])?;
    Some(first + second)
}

/// Puts an encoding of 6 members over the front of the bytes, and gives how many it has; or answers `None`.
#[inline(always)]
pub fn encode_front_members_6<
    A: SchemaWrite,
    B: SchemaWrite,
    C: SchemaWrite,
    D: SchemaWrite,
    E: SchemaWrite,
    F: SchemaWrite,
>(
    a: &A::Src,
    b: &B::Src,
    c: &C::Src,
    d: &D::Src,
    e: &E::Src,
    f: &F::Src,
    dst: &mut [u8],
) -> Option<usize>
    ensures { let tuple = ⟦<(A, B, C, D, E, F) as SchemaWrite>⟧ in
        IfSome result (λ n. (n ≤ length dst.new) × IsEncoded tuple.writing (tuple.model (a.now, b.now, c.now, d.now, e.now, f.now)) (take n dst.new)
        × tuple.is_valid (a.now, b.now, c.now, d.now, e.now, f.now)) }
{
    let first = A::encode_front(a, dst)?;
    let second = encode_front_members_5::<B, C, D, E, F>(b, c, d, e, f, &mut dst[first..])?;
    Some(first + second)
}

/// Puts an encoding of 7 members over the front of the bytes, and gives how many it has; or answers `None`.
#[inline(always)]
pub fn encode_front_members_7<
    A: SchemaWrite,
    B: SchemaWrite,
    C: SchemaWrite,
    D: SchemaWrite,
    E: SchemaWrite,
    F: SchemaWrite,
    G: SchemaWrite,
>(
    a: &A::Src,
    b: &B::Src,
    c: &C::Src,
    d: &D::Src,
    e: &E::Src,
    f: &F::Src,
    g: &G::Src,
    dst: &mut [u8],
) -> Option<usize>
    ensures { let tuple = ⟦<(A, B, C, D, E, F, G) as SchemaWrite>⟧ in
        IfSome result (λ n. (n ≤ length dst.new) × IsEncoded tuple.writing
        (tuple.model (a.now, b.now, c.now, d.now, e.now, f.now, g.now)) (take n dst.new)
        × tuple.is_valid (a.now, b.now, c.now, d.now, e.now, f.now, g.now)) }
{
    let first = A::encode_front(a, dst)?;
    let second = encode_front_members_6::<B, C, D, E, F, G>(b, c, d, e, f, g, &mut dst[first..])?;
    Some(first + second)
}

/// Puts an encoding of 8 members over the front of the bytes, and gives how many it has; or answers `None`.
#[inline(always)]
pub fn encode_front_members_8<
    A: SchemaWrite,
    B: SchemaWrite,
    C: SchemaWrite,
    D: SchemaWrite,
    E: SchemaWrite,
    F: SchemaWrite,
    G: SchemaWrite,
    H: SchemaWrite,
>(
    a: &A::Src,
    b: &B::Src,
    c: &C::Src,
    d: &D::Src,
    e: &E::Src,
    f: &F::Src,
    g: &G::Src,
    h: &H::Src,
    dst: &mut [u8],
) -> Option<usize>
    ensures { let tuple = ⟦<(A, B, C, D, E, F, G, H) as SchemaWrite>⟧ in
        IfSome result (λ n. (n ≤ length dst.new) × IsEncoded tuple.writing
        (tuple.model (a.now, b.now, c.now, d.now, e.now, f.now, g.now, h.now)) (take n dst.new)
        × tuple.is_valid (a.now, b.now, c.now, d.now, e.now, f.now, g.now, h.now)) }
{
    let first = A::encode_front(a, dst)?;
    let second = encode_front_members_7::<B, C, D, E, F, G, H>(
        b,
        c,
        d,
        e,
        f,
        g,
        h,
        &mut dst[first..],
    )?;
    Some(first + second)
}

/// Puts an encoding of 9 members over the front of the bytes, and gives how many it has; or answers `None`.
#[inline(always)]
pub fn encode_front_members_9<
    A: SchemaWrite,
    B: SchemaWrite,
    C: SchemaWrite,
    D: SchemaWrite,
    E: SchemaWrite,
    F: SchemaWrite,
    G: SchemaWrite,
    H: SchemaWrite,
    I: SchemaWrite,
>(
    a: &A::Src,
    b: &B::Src,
    c: &C::Src,
    d: &D::Src,
    e: &E::Src,
    f: &F::Src,
    g: &G::Src,
    h: &H::Src,
    i: &I::Src,
    dst: &mut [u8],
) -> Option<usize>
    ensures { let tuple = ⟦<(A, B, C, D, E, F, G, H, I) as SchemaWrite>⟧ in
        IfSome result (λ n. (n ≤ length dst.new) × IsEncoded tuple.writing
        (tuple.model (a.now, b.now, c.now, d.now, e.now, f.now, g.now, h.now, i.now)) (take n dst.new)
        × tuple.is_valid (a.now, b.now, c.now, d.now, e.now, f.now, g.now, h.now, i.now)) }
{
    let first = A::encode_front(a, dst)?;
    let second = encode_front_members_8::<B, C, D, E, F, G, H, I>(
        b,
        c,
        d,
        e,
        f,
        g,
        h,
        i,
        &mut dst[first..],
    )?;
    Some(first + second)
}

/// Puts an encoding of 10 members over the front of the bytes, and gives how many it has; or answers `None`.
#[inline(always)]
pub fn encode_front_members_10<
    A: SchemaWrite,
    B: SchemaWrite,
    C: SchemaWrite,
    D: SchemaWrite,
    E: SchemaWrite,
    F: SchemaWrite,
    G: SchemaWrite,
    H: SchemaWrite,
    I: SchemaWrite,
    J: SchemaWrite,
>(
    a: &A::Src,
    b: &B::Src,
    c: &C::Src,
    d: &D::Src,
    e: &E::Src,
    f: &F::Src,
    g: &G::Src,
    h: &H::Src,
    i: &I::Src,
    j: &J::Src,
    dst: &mut [u8],
) -> Option<usize>
    ensures { let tuple = ⟦<(A, B, C, D, E, F, G, H, I, J) as SchemaWrite>⟧ in
        IfSome result (λ n. (n ≤ length dst.new) × IsEncoded tuple.writing
        (tuple.model (a.now, b.now, c.now, d.now, e.now, f.now, g.now, h.now, i.now, j.now)) (take n dst.new)
        × tuple.is_valid (a.now, b.now, c.now, d.now, e.now, f.now, g.now, h.now, i.now, j.now)) }
{
    let first = A::encode_front(a, dst)?;
    let second = encode_front_members_9::<B, C, D, E, F, G, H, I, J>(
        b,
        c,
        d,
        e,
        f,
        g,
        h,
        i,
        j,
        &mut dst[first..],
    )?;
    Some(first + second)
}

/// Puts an encoding of 11 members over the front of the bytes, and gives how many it has; or answers `None`.
#[inline(always)]
pub fn encode_front_members_11<
    A: SchemaWrite,
    B: SchemaWrite,
    C: SchemaWrite,
    D: SchemaWrite,
    E: SchemaWrite,
    F: SchemaWrite,
    G: SchemaWrite,
    H: SchemaWrite,
    I: SchemaWrite,
    J: SchemaWrite,
    K: SchemaWrite,
>(
    a: &A::Src,
    b: &B::Src,
    c: &C::Src,
    d: &D::Src,
    e: &E::Src,
    f: &F::Src,
    g: &G::Src,
    h: &H::Src,
    i: &I::Src,
    j: &J::Src,
    k: &K::Src,
    dst: &mut [u8],
) -> Option<usize>
    ensures { let tuple = ⟦<(A, B, C, D, E, F, G, H, I, J, K) as SchemaWrite>⟧ in
        IfSome result (λ n. (n ≤ length dst.new) × IsEncoded tuple.writing
        (tuple.model (a.now, b.now, c.now, d.now, e.now, f.now, g.now, h.now, i.now, j.now, k.now)) (take n dst.new)
        × tuple.is_valid (a.now, b.now, c.now, d.now, e.now, f.now, g.now, h.now, i.now, j.now, k.now)) }
{
    let first = A::encode_front(a, dst)?;
    let second = encode_front_members_10::<B, C, D, E, F, G, H, I, J, K>(
        b,
        c,
        d,
        e,
        f,
        g,
        h,
        i,
        j,
        k,
        &mut dst[first..],
    )?;
    Some(first + second)
}

/// Puts an encoding of 12 members over the front of the bytes, and gives how many it has; or answers `None`.
#[inline(always)]
pub fn encode_front_members_12<
    A: SchemaWrite,
    B: SchemaWrite,
    C: SchemaWrite,
    D: SchemaWrite,
    E: SchemaWrite,
    F: SchemaWrite,
    G: SchemaWrite,
    H: SchemaWrite,
    I: SchemaWrite,
    J: SchemaWrite,
    K: SchemaWrite,
    M: SchemaWrite,
>(
    a: &A::Src,
    b: &B::Src,
    c: &C::Src,
    d: &D::Src,
    e: &E::Src,
    f: &F::Src,
    g: &G::Src,
    h: &H::Src,
    i: &I::Src,
    j: &J::Src,
    k: &K::Src,
    m: &M::Src,
    dst: &mut [u8],
) -> Option<usize>
    ensures { let tuple = ⟦<(A, B, C, D, E, F, G, H, I, J, K, M) as SchemaWrite>⟧ in
        IfSome result (λ n. (n ≤ length dst.new) × IsEncoded tuple.writing
        (tuple.model (a.now, b.now, c.now, d.now, e.now, f.now, g.now, h.now, i.now, j.now, k.now, m.now)) (take n dst.new)
        × tuple.is_valid (a.now, b.now, c.now, d.now, e.now, f.now, g.now, h.now, i.now, j.now, k.now, m.now)) }
{
    let first = A::encode_front(a, dst)?;
    let second = encode_front_members_11::<B, C, D, E, F, G, H, I, J, K, M>(
        b,
        c,
        d,
        e,
        f,
        g,
        h,
        i,
        j,
        k,
        m,
        &mut dst[first..],
    )?;
    Some(first + second)
}

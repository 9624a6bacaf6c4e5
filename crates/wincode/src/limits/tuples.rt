//! Written by `tools/templates`: limits of tuples, that are those of their members.
ghost use Rattle.std.specs.Prelude.{◌≡◌, false, IsTrue};

use crate::limits::Limited;

/// Whether each length in the 2 members is within its limit.
fn members_2_are_within<A: Limited, B: Limited>(a: &A::Src, b: &B::Src) -> bool
    ensures within { IsTrue result → A.SchemaWrite.is_valid a.now × B.SchemaWrite.is_valid b.now → A.SchemaWrite.writing.fits
        (A.SchemaWrite.model a.now) × B.SchemaWrite.writing.fits (B.SchemaWrite.model b.now) }
    ensures past { result ≡ false → A.SchemaWrite.writing.fits (A.SchemaWrite.model a.now) ×
        B.SchemaWrite.writing.fits (B.SchemaWrite.model b.now) → ⊥ }
{
    A::is_within(a) && B::is_within(b)
}

impl<A: Limited, B: Limited> Limited for (A, B) {
    fn counts() -> usize {
        A::counts().saturating_add(B::counts())
    }

    fn has_no_limits() -> bool {
        A::has_no_limits() && B::has_no_limits()
    }

    fn is_within(src: &Self::Src) -> bool {
        members_2_are_within::<A, B>(&src.0, &src.1)
    }
}

/// Whether each length in the 3 members is within its limit.
fn members_3_are_within<A: Limited, B: Limited, C: Limited>(
    a: &A::Src,
    b: &B::Src,
    c: &C::Src,
) -> bool
    ensures within { IsTrue result → A.SchemaWrite.is_valid a.now × (B.SchemaWrite.is_valid b.now ×
        C.SchemaWrite.is_valid c.now) → A.SchemaWrite.writing.fits (A.SchemaWrite.model a.now) ×
        (B.SchemaWrite.writing.fits (B.SchemaWrite.model b.now) × C.SchemaWrite.writing.fits (C.SchemaWrite.model c.now)) }
    ensures past { result ≡ false → A.SchemaWrite.writing.fits (A.SchemaWrite.model a.now) ×
        (B.SchemaWrite.writing.fits (B.SchemaWrite.model b.now) × C.SchemaWrite.writing.fits (C.SchemaWrite.model c.now)) → ⊥ }
{
    A::is_within(a) && members_2_are_within::<B, C>(b, c)
}

impl<A: Limited, B: Limited, C: Limited> Limited for (A, B, C) {
    fn counts() -> usize {
        A::counts().saturating_add(<(B, C) as Limited>::counts())
    }

    fn has_no_limits() -> bool {
        A::has_no_limits() && <(B, C) as Limited>::has_no_limits()
    }

    fn is_within(src: &Self::Src) -> bool {
        members_3_are_within::<A, B, C>(&src.0, &src.1, &src.2)
    }
}

/// Whether each length in the 4 members is within its limit.
fn members_4_are_within<A: Limited, B: Limited, C: Limited, D: Limited>(
    a: &A::Src,
    b: &B::Src,
    c: &C::Src,
    d: &D::Src,
) -> bool
    ensures within { IsTrue result → A.SchemaWrite.is_valid a.now × (B.SchemaWrite.is_valid b.now × (C.SchemaWrite.is_valid c.now ×
        D.SchemaWrite.is_valid d.now)) → A.SchemaWrite.writing.fits (A.SchemaWrite.model a.now) ×
        (B.SchemaWrite.writing.fits (B.SchemaWrite.model b.now) × (C.SchemaWrite.writing.fits (C.SchemaWrite.model c.now) ×
        D.SchemaWrite.writing.fits (D.SchemaWrite.model d.now))) }
    ensures past { result ≡ false → A.SchemaWrite.writing.fits (A.SchemaWrite.model a.now) ×
        (B.SchemaWrite.writing.fits (B.SchemaWrite.model b.now) × (C.SchemaWrite.writing.fits (C.SchemaWrite.model c.now) ×
        D.SchemaWrite.writing.fits (D.SchemaWrite.model d.now))) → ⊥ }
{
    A::is_within(a) && members_3_are_within::<B, C, D>(b, c, d)
}

impl<A: Limited, B: Limited, C: Limited, D: Limited> Limited for (A, B, C, D) {
    fn counts() -> usize {
        A::counts().saturating_add(<(B, C, D) as Limited>::counts())
    }

    fn has_no_limits() -> bool {
        A::has_no_limits() && <(B, C, D) as Limited>::has_no_limits()
    }

    fn is_within(src: &Self::Src) -> bool {
        members_4_are_within::<A, B, C, D>(&src.0, &src.1, &src.2, &src.3)
    }
}

/// Whether each length in the 5 members is within its limit.
fn members_5_are_within<A: Limited, B: Limited, C: Limited, D: Limited, E: Limited>(
    a: &A::Src,
    b: &B::Src,
    c: &C::Src,
    d: &D::Src,
    e: &E::Src,
) -> bool
    ensures within { IsTrue result → A.SchemaWrite.is_valid a.now × (B.SchemaWrite.is_valid b.now × (C.SchemaWrite.is_valid c.now ×
        (D.SchemaWrite.is_valid d.now × E.SchemaWrite.is_valid e.now))) → A.SchemaWrite.writing.fits (A.SchemaWrite.model a.now) ×
        (B.SchemaWrite.writing.fits (B.SchemaWrite.model b.now) × (C.SchemaWrite.writing.fits (C.SchemaWrite.model c.now) ×
        (D.SchemaWrite.writing.fits (D.SchemaWrite.model d.now) × E.SchemaWrite.writing.fits (E.SchemaWrite.model e.now)))) }
    ensures past { result ≡ false → A.SchemaWrite.writing.fits (A.SchemaWrite.model a.now) ×
        (B.SchemaWrite.writing.fits (B.SchemaWrite.model b.now) × (C.SchemaWrite.writing.fits (C.SchemaWrite.model c.now) ×
        (D.SchemaWrite.writing.fits (D.SchemaWrite.model d.now) × E.SchemaWrite.writing.fits (E.SchemaWrite.model e.now)))) → ⊥ }
{
    A::is_within(a) && members_4_are_within::<B, C, D, E>(b, c, d, e)
}

impl<A: Limited, B: Limited, C: Limited, D: Limited, E: Limited> Limited for (A, B, C, D, E) {
    fn counts() -> usize {
        A::counts().saturating_add(<(B, C, D, E) as Limited>::counts())
    }

    fn has_no_limits() -> bool {
        A::has_no_limits() && <(B, C, D, E) as Limited>::has_no_limits()
    }

    fn is_within(src: &Self::Src) -> bool {
        members_5_are_within::<A, B, C, D, E>(&src.0, &src.1, &src.2, &src.3, &src.4)
    }
}

/// Whether each length in the 6 members is within its limit.
fn members_6_are_within<A: Limited, B: Limited, C: Limited, D: Limited, E: Limited, F: Limited>(
    a: &A::Src,
    b: &B::Src,
    c: &C::Src,
    d: &D::Src,
    e: &E::Src,
    f: &F::Src,
) -> bool
    ensures within { IsTrue result → A.SchemaWrite.is_valid a.now × (B.SchemaWrite.is_valid b.now × (C.SchemaWrite.is_valid c.now ×
        (D.SchemaWrite.is_valid d.now × (E.SchemaWrite.is_valid e.now × F.SchemaWrite.is_valid f.now)))) → A.SchemaWrite.writing.fits
        (A.SchemaWrite.model a.now) × (B.SchemaWrite.writing.fits (B.SchemaWrite.model b.now) ×
        (C.SchemaWrite.writing.fits (C.SchemaWrite.model c.now) × (D.SchemaWrite.writing.fits (D.SchemaWrite.model d.now) ×
        (E.SchemaWrite.writing.fits (E.SchemaWrite.model e.now) × F.SchemaWrite.writing.fits (F.SchemaWrite.model f.now))))) }
    ensures past { result ≡ false → A.SchemaWrite.writing.fits (A.SchemaWrite.model a.now) ×
        (B.SchemaWrite.writing.fits (B.SchemaWrite.model b.now) × (C.SchemaWrite.writing.fits (C.SchemaWrite.model c.now) ×
        (D.SchemaWrite.writing.fits (D.SchemaWrite.model d.now) × (E.SchemaWrite.writing.fits (E.SchemaWrite.model e.now) ×
        F.SchemaWrite.writing.fits (F.SchemaWrite.model f.now))))) → ⊥ }
{
    A::is_within(a) && members_5_are_within::<B, C, D, E, F>(b, c, d, e, f)
}

impl<A: Limited, B: Limited, C: Limited, D: Limited, E: Limited, F: Limited> Limited
    for (A, B, C, D, E, F) {
    fn counts() -> usize {
        A::counts().saturating_add(<(B, C, D, E, F) as Limited>::counts())
    }

    fn has_no_limits() -> bool {
        A::has_no_limits() && <(B, C, D, E, F) as Limited>::has_no_limits()
    }

    fn is_within(src: &Self::Src) -> bool {
        members_6_are_within::<A, B, C, D, E, F>(&src.0, &src.1, &src.2, &src.3, &src.4, &src.5)
    }
}

/// Whether each length in the 7 members is within its limit.
fn members_7_are_within<
    A: Limited,
    B: Limited,
    C: Limited,
    D: Limited,
    E: Limited,
    F: Limited,
    G: Limited,
>(a: &A::Src, b: &B::Src, c: &C::Src, d: &D::Src, e: &E::Src, f: &F::Src, g: &G::Src) -> bool
    ensures within { IsTrue result → A.SchemaWrite.is_valid a.now × (B.SchemaWrite.is_valid b.now × (C.SchemaWrite.is_valid c.now ×
        (D.SchemaWrite.is_valid d.now × (E.SchemaWrite.is_valid e.now × (F.SchemaWrite.is_valid f.now ×
        G.SchemaWrite.is_valid g.now))))) → A.SchemaWrite.writing.fits (A.SchemaWrite.model a.now) ×
        (B.SchemaWrite.writing.fits (B.SchemaWrite.model b.now) × (C.SchemaWrite.writing.fits (C.SchemaWrite.model c.now) ×
        (D.SchemaWrite.writing.fits (D.SchemaWrite.model d.now) × (E.SchemaWrite.writing.fits (E.SchemaWrite.model e.now) ×
        (F.SchemaWrite.writing.fits (F.SchemaWrite.model f.now) × G.SchemaWrite.writing.fits (G.SchemaWrite.model g.now)))))) }
    ensures past { result ≡ false → A.SchemaWrite.writing.fits (A.SchemaWrite.model a.now) ×
        (B.SchemaWrite.writing.fits (B.SchemaWrite.model b.now) × (C.SchemaWrite.writing.fits (C.SchemaWrite.model c.now) ×
        (D.SchemaWrite.writing.fits (D.SchemaWrite.model d.now) × (E.SchemaWrite.writing.fits (E.SchemaWrite.model e.now) ×
        (F.SchemaWrite.writing.fits (F.SchemaWrite.model f.now) × G.SchemaWrite.writing.fits (G.SchemaWrite.model g.now)))))) → ⊥ }
{
    A::is_within(a) && members_6_are_within::<B, C, D, E, F, G>(b, c, d, e, f, g)
}

impl<A: Limited, B: Limited, C: Limited, D: Limited, E: Limited, F: Limited, G: Limited> Limited
    for (A, B, C, D, E, F, G) {
    fn counts() -> usize {
        A::counts().saturating_add(<(B, C, D, E, F, G) as Limited>::counts())
    }

    fn has_no_limits() -> bool {
        A::has_no_limits() && <(B, C, D, E, F, G) as Limited>::has_no_limits()
    }

    fn is_within(src: &Self::Src) -> bool {
        members_7_are_within::<A, B, C, D, E, F, G>(
            &src.0, &src.1, &src.2, &src.3, &src.4, &src.5, &src.6,
        )
    }
}

/// Whether each length in the 8 members is within its limit.
fn members_8_are_within<
    A: Limited,
    B: Limited,
    C: Limited,
    D: Limited,
    E: Limited,
    F: Limited,
    G: Limited,
    H: Limited,
>(
    a: &A::Src,
    b: &B::Src,
    c: &C::Src,
    d: &D::Src,
    e: &E::Src,
    f: &F::Src,
    g: &G::Src,
    h: &H::Src,
) -> bool
    ensures within { IsTrue result → A.SchemaWrite.is_valid a.now × (B.SchemaWrite.is_valid b.now × (C.SchemaWrite.is_valid c.now ×
        (D.SchemaWrite.is_valid d.now × (E.SchemaWrite.is_valid e.now × (F.SchemaWrite.is_valid f.now × (G.SchemaWrite.is_valid g.now ×
        H.SchemaWrite.is_valid h.now)))))) → A.SchemaWrite.writing.fits (A.SchemaWrite.model a.now) ×
        (B.SchemaWrite.writing.fits (B.SchemaWrite.model b.now) × (C.SchemaWrite.writing.fits (C.SchemaWrite.model c.now) ×
        (D.SchemaWrite.writing.fits (D.SchemaWrite.model d.now) × (E.SchemaWrite.writing.fits (E.SchemaWrite.model e.now) ×
        (F.SchemaWrite.writing.fits (F.SchemaWrite.model f.now) × (G.SchemaWrite.writing.fits (G.SchemaWrite.model g.now) ×
        H.SchemaWrite.writing.fits (H.SchemaWrite.model h.now))))))) }
    ensures past { result ≡ false → A.SchemaWrite.writing.fits (A.SchemaWrite.model a.now) ×
        (B.SchemaWrite.writing.fits (B.SchemaWrite.model b.now) × (C.SchemaWrite.writing.fits (C.SchemaWrite.model c.now) ×
        (D.SchemaWrite.writing.fits (D.SchemaWrite.model d.now) × (E.SchemaWrite.writing.fits (E.SchemaWrite.model e.now) ×
        (F.SchemaWrite.writing.fits (F.SchemaWrite.model f.now) × (G.SchemaWrite.writing.fits (G.SchemaWrite.model g.now) ×
        H.SchemaWrite.writing.fits (H.SchemaWrite.model h.now))))))) → ⊥ }
{
    A::is_within(a) && members_7_are_within::<B, C, D, E, F, G, H>(b, c, d, e, f, g, h)
}

impl<
    A: Limited,
    B: Limited,
    C: Limited,
    D: Limited,
    E: Limited,
    F: Limited,
    G: Limited,
    H: Limited,
> Limited for (A, B, C, D, E, F, G, H) {
    fn counts() -> usize {
        A::counts().saturating_add(<(B, C, D, E, F, G, H) as Limited>::counts())
    }

    fn has_no_limits() -> bool {
        A::has_no_limits() && <(B, C, D, E, F, G, H) as Limited>::has_no_limits()
    }

    fn is_within(src: &Self::Src) -> bool {
        members_8_are_within::<A, B, C, D, E, F, G, H>(
            &src.0, &src.1, &src.2, &src.3, &src.4, &src.5, &src.6, &src.7,
        )
    }
}

/// Whether each length in the 9 members is within its limit.
fn members_9_are_within<
    A: Limited,
    B: Limited,
    C: Limited,
    D: Limited,
    E: Limited,
    F: Limited,
    G: Limited,
    H: Limited,
    I: Limited,
>(
    a: &A::Src,
    b: &B::Src,
    c: &C::Src,
    d: &D::Src,
    e: &E::Src,
    f: &F::Src,
    g: &G::Src,
    h: &H::Src,
    i: &I::Src,
) -> bool
    ensures within { IsTrue result → A.SchemaWrite.is_valid a.now × (B.SchemaWrite.is_valid b.now × (C.SchemaWrite.is_valid c.now ×
        (D.SchemaWrite.is_valid d.now × (E.SchemaWrite.is_valid e.now × (F.SchemaWrite.is_valid f.now × (G.SchemaWrite.is_valid g.now ×
        (H.SchemaWrite.is_valid h.now × I.SchemaWrite.is_valid i.now))))))) → A.SchemaWrite.writing.fits (A.SchemaWrite.model a.now) ×
        (B.SchemaWrite.writing.fits (B.SchemaWrite.model b.now) × (C.SchemaWrite.writing.fits (C.SchemaWrite.model c.now) ×
        (D.SchemaWrite.writing.fits (D.SchemaWrite.model d.now) × (E.SchemaWrite.writing.fits (E.SchemaWrite.model e.now) ×
        (F.SchemaWrite.writing.fits (F.SchemaWrite.model f.now) × (G.SchemaWrite.writing.fits (G.SchemaWrite.model g.now) ×
        (H.SchemaWrite.writing.fits (H.SchemaWrite.model h.now) × I.SchemaWrite.writing.fits (I.SchemaWrite.model i.now)))))))) }
    ensures past { result ≡ false → A.SchemaWrite.writing.fits (A.SchemaWrite.model a.now) ×
        (B.SchemaWrite.writing.fits (B.SchemaWrite.model b.now) × (C.SchemaWrite.writing.fits (C.SchemaWrite.model c.now) ×
        (D.SchemaWrite.writing.fits (D.SchemaWrite.model d.now) × (E.SchemaWrite.writing.fits (E.SchemaWrite.model e.now) ×
        (F.SchemaWrite.writing.fits (F.SchemaWrite.model f.now) × (G.SchemaWrite.writing.fits (G.SchemaWrite.model g.now) ×
        (H.SchemaWrite.writing.fits (H.SchemaWrite.model h.now) × I.SchemaWrite.writing.fits (I.SchemaWrite.model i.now)))))))) → ⊥ }
{
    A::is_within(a) && members_8_are_within::<B, C, D, E, F, G, H, I>(b, c, d, e, f, g, h, i)
}

impl<
    A: Limited,
    B: Limited,
    C: Limited,
    D: Limited,
    E: Limited,
    F: Limited,
    G: Limited,
    H: Limited,
    I: Limited,
> Limited for (A, B, C, D, E, F, G, H, I) {
    fn counts() -> usize {
        A::counts().saturating_add(<(B, C, D, E, F, G, H, I) as Limited>::counts())
    }

    fn has_no_limits() -> bool {
        A::has_no_limits() && <(B, C, D, E, F, G, H, I) as Limited>::has_no_limits()
    }

    fn is_within(src: &Self::Src) -> bool {
        members_9_are_within::<A, B, C, D, E, F, G, H, I>(
            &src.0, &src.1, &src.2, &src.3, &src.4, &src.5, &src.6, &src.7, &src.8,
        )
    }
}

/// Whether each length in the 10 members is within its limit.
fn members_10_are_within<
    A: Limited,
    B: Limited,
    C: Limited,
    D: Limited,
    E: Limited,
    F: Limited,
    G: Limited,
    H: Limited,
    I: Limited,
    J: Limited,
>(
    a: &A::Src,
    b: &B::Src,
    c: &C::Src,
    d: &D::Src,
    e: &E::Src,
    f: &F::Src,
    g: &G::Src,
    h: &H::Src,
    i: &I::Src,
    j: &J::Src,
) -> bool
    ensures within { IsTrue result → A.SchemaWrite.is_valid a.now × (B.SchemaWrite.is_valid b.now × (C.SchemaWrite.is_valid c.now ×
        (D.SchemaWrite.is_valid d.now × (E.SchemaWrite.is_valid e.now × (F.SchemaWrite.is_valid f.now × (G.SchemaWrite.is_valid g.now ×
        (H.SchemaWrite.is_valid h.now × (I.SchemaWrite.is_valid i.now × J.SchemaWrite.is_valid j.now)))))))) → A.SchemaWrite.writing.fits
        (A.SchemaWrite.model a.now) × (B.SchemaWrite.writing.fits (B.SchemaWrite.model b.now) ×
        (C.SchemaWrite.writing.fits (C.SchemaWrite.model c.now) × (D.SchemaWrite.writing.fits (D.SchemaWrite.model d.now) ×
        (E.SchemaWrite.writing.fits (E.SchemaWrite.model e.now) × (F.SchemaWrite.writing.fits (F.SchemaWrite.model f.now) ×
        (G.SchemaWrite.writing.fits (G.SchemaWrite.model g.now) × (H.SchemaWrite.writing.fits (H.SchemaWrite.model h.now) ×
        (I.SchemaWrite.writing.fits (I.SchemaWrite.model i.now) × J.SchemaWrite.writing.fits (J.SchemaWrite.model j.now))))))))) }
    ensures past { result ≡ false → A.SchemaWrite.writing.fits (A.SchemaWrite.model a.now) ×
        (B.SchemaWrite.writing.fits (B.SchemaWrite.model b.now) × (C.SchemaWrite.writing.fits (C.SchemaWrite.model c.now) ×
        (D.SchemaWrite.writing.fits (D.SchemaWrite.model d.now) × (E.SchemaWrite.writing.fits (E.SchemaWrite.model e.now) ×
        (F.SchemaWrite.writing.fits (F.SchemaWrite.model f.now) × (G.SchemaWrite.writing.fits (G.SchemaWrite.model g.now) ×
        (H.SchemaWrite.writing.fits (H.SchemaWrite.model h.now) × (I.SchemaWrite.writing.fits (I.SchemaWrite.model i.now) ×
        J.SchemaWrite.writing.fits (J.SchemaWrite.model j.now))))))))) → ⊥ }
{
    A::is_within(a) && members_9_are_within::<B, C, D, E, F, G, H, I, J>(b, c, d, e, f, g, h, i, j)
}

impl<
    A: Limited,
    B: Limited,
    C: Limited,
    D: Limited,
    E: Limited,
    F: Limited,
    G: Limited,
    H: Limited,
    I: Limited,
    J: Limited,
> Limited for (A, B, C, D, E, F, G, H, I, J) {
    fn counts() -> usize {
        A::counts().saturating_add(<(B, C, D, E, F, G, H, I, J) as Limited>::counts())
    }

    fn has_no_limits() -> bool {
        A::has_no_limits() && <(B, C, D, E, F, G, H, I, J) as Limited>::has_no_limits()
    }

    fn is_within(src: &Self::Src) -> bool {
        members_10_are_within::<A, B, C, D, E, F, G, H, I, J>(
            &src.0, &src.1, &src.2, &src.3, &src.4, &src.5, &src.6, &src.7, &src.8, &src.9,
        )
    }
}

/// Whether each length in the 11 members is within its limit.
fn members_11_are_within<
    A: Limited,
    B: Limited,
    C: Limited,
    D: Limited,
    E: Limited,
    F: Limited,
    G: Limited,
    H: Limited,
    I: Limited,
    J: Limited,
    K: Limited,
>(
    a: &A::Src,
    b: &B::Src,
    c: &C::Src,
    d: &D::Src,
    e: &E::Src,
    f: &F::Src,
    g: &G::Src,
    h: &H::Src,
    i: &I::Src,
    j: &J::Src,
    k: &K::Src,
) -> bool
    ensures within { IsTrue result → A.SchemaWrite.is_valid a.now × (B.SchemaWrite.is_valid b.now × (C.SchemaWrite.is_valid c.now ×
        (D.SchemaWrite.is_valid d.now × (E.SchemaWrite.is_valid e.now × (F.SchemaWrite.is_valid f.now × (G.SchemaWrite.is_valid g.now ×
        (H.SchemaWrite.is_valid h.now × (I.SchemaWrite.is_valid i.now × (J.SchemaWrite.is_valid j.now ×
        K.SchemaWrite.is_valid k.now))))))))) → A.SchemaWrite.writing.fits (A.SchemaWrite.model a.now) ×
        (B.SchemaWrite.writing.fits (B.SchemaWrite.model b.now) × (C.SchemaWrite.writing.fits (C.SchemaWrite.model c.now) ×
        (D.SchemaWrite.writing.fits (D.SchemaWrite.model d.now) × (E.SchemaWrite.writing.fits (E.SchemaWrite.model e.now) ×
        (F.SchemaWrite.writing.fits (F.SchemaWrite.model f.now) × (G.SchemaWrite.writing.fits (G.SchemaWrite.model g.now) ×
        (H.SchemaWrite.writing.fits (H.SchemaWrite.model h.now) × (I.SchemaWrite.writing.fits (I.SchemaWrite.model i.now) ×
        (J.SchemaWrite.writing.fits (J.SchemaWrite.model j.now) × K.SchemaWrite.writing.fits (K.SchemaWrite.model k.now)))))))))) }
    ensures past { result ≡ false → A.SchemaWrite.writing.fits (A.SchemaWrite.model a.now) ×
        (B.SchemaWrite.writing.fits (B.SchemaWrite.model b.now) × (C.SchemaWrite.writing.fits (C.SchemaWrite.model c.now) ×
        (D.SchemaWrite.writing.fits (D.SchemaWrite.model d.now) × (E.SchemaWrite.writing.fits (E.SchemaWrite.model e.now) ×
        (F.SchemaWrite.writing.fits (F.SchemaWrite.model f.now) × (G.SchemaWrite.writing.fits (G.SchemaWrite.model g.now) ×
        (H.SchemaWrite.writing.fits (H.SchemaWrite.model h.now) × (I.SchemaWrite.writing.fits (I.SchemaWrite.model i.now) ×
        (J.SchemaWrite.writing.fits (J.SchemaWrite.model j.now) × K.SchemaWrite.writing.fits (K.SchemaWrite.model k.now)))))))))) → ⊥ }
{
    A::is_within(a)
        && members_10_are_within::<B, C, D, E, F, G, H, I, J, K>(b, c, d, e, f, g, h, i, j, k)
}

impl<
    A: Limited,
    B: Limited,
    C: Limited,
    D: Limited,
    E: Limited,
    F: Limited,
    G: Limited,
    H: Limited,
    I: Limited,
    J: Limited,
    K: Limited,
> Limited for (A, B, C, D, E, F, G, H, I, J, K) {
    fn counts() -> usize {
        A::counts().saturating_add(<(B, C, D, E, F, G, H, I, J, K) as Limited>::counts())
    }

    fn has_no_limits() -> bool {
        A::has_no_limits() && <(B, C, D, E, F, G, H, I, J, K) as Limited>::has_no_limits()
    }

    fn is_within(src: &Self::Src) -> bool {
        members_11_are_within::<A, B, C, D, E, F, G, H, I, J, K>(
            &src.0, &src.1, &src.2, &src.3, &src.4, &src.5, &src.6, &src.7, &src.8, &src.9, &src.10,
        )
    }
}

/// Whether each length in the 12 members is within its limit.
fn members_12_are_within<
    A: Limited,
    B: Limited,
    C: Limited,
    D: Limited,
    E: Limited,
    F: Limited,
    G: Limited,
    H: Limited,
    I: Limited,
    J: Limited,
    K: Limited,
    M: Limited,
>(
    a: &A::Src,
    b: &B::Src,
    c: &C::Src,
    d: &D::Src,
    e: &E::Src,
    f: &F::Src,
    g: &G::Src,
    h: &H::Src,
    i: &I::Src,
    j: &J::Src,
    k: &K::Src,
    m: &M::Src,
) -> bool
    ensures within { IsTrue result → A.SchemaWrite.is_valid a.now × (B.SchemaWrite.is_valid b.now × (C.SchemaWrite.is_valid c.now ×
        (D.SchemaWrite.is_valid d.now × (E.SchemaWrite.is_valid e.now × (F.SchemaWrite.is_valid f.now × (G.SchemaWrite.is_valid g.now ×
        (H.SchemaWrite.is_valid h.now × (I.SchemaWrite.is_valid i.now × (J.SchemaWrite.is_valid j.now × (K.SchemaWrite.is_valid k.now ×
        M.SchemaWrite.is_valid m.now)))))))))) → A.SchemaWrite.writing.fits (A.SchemaWrite.model a.now) ×
        (B.SchemaWrite.writing.fits (B.SchemaWrite.model b.now) × (C.SchemaWrite.writing.fits (C.SchemaWrite.model c.now) ×
        (D.SchemaWrite.writing.fits (D.SchemaWrite.model d.now) × (E.SchemaWrite.writing.fits (E.SchemaWrite.model e.now) ×
        (F.SchemaWrite.writing.fits (F.SchemaWrite.model f.now) × (G.SchemaWrite.writing.fits (G.SchemaWrite.model g.now) ×
        (H.SchemaWrite.writing.fits (H.SchemaWrite.model h.now) × (I.SchemaWrite.writing.fits (I.SchemaWrite.model i.now) ×
        (J.SchemaWrite.writing.fits (J.SchemaWrite.model j.now) × (K.SchemaWrite.writing.fits (K.SchemaWrite.model k.now) ×
        M.SchemaWrite.writing.fits (M.SchemaWrite.model m.now))))))))))) }
    ensures past { result ≡ false → A.SchemaWrite.writing.fits (A.SchemaWrite.model a.now) ×
        (B.SchemaWrite.writing.fits (B.SchemaWrite.model b.now) × (C.SchemaWrite.writing.fits (C.SchemaWrite.model c.now) ×
        (D.SchemaWrite.writing.fits (D.SchemaWrite.model d.now) × (E.SchemaWrite.writing.fits (E.SchemaWrite.model e.now) ×
        (F.SchemaWrite.writing.fits (F.SchemaWrite.model f.now) × (G.SchemaWrite.writing.fits (G.SchemaWrite.model g.now) ×
        (H.SchemaWrite.writing.fits (H.SchemaWrite.model h.now) × (I.SchemaWrite.writing.fits (I.SchemaWrite.model i.now) ×
        (J.SchemaWrite.writing.fits (J.SchemaWrite.model j.now) × (K.SchemaWrite.writing.fits (K.SchemaWrite.model k.now) ×
        M.SchemaWrite.writing.fits (M.SchemaWrite.model m.now))))))))))) → ⊥ }
{
    A::is_within(a)
        && members_11_are_within::<B, C, D, E, F, G, H, I, J, K, M>(b, c, d, e, f, g, h, i, j, k, m)
}

impl<
    A: Limited,
    B: Limited,
    C: Limited,
    D: Limited,
    E: Limited,
    F: Limited,
    G: Limited,
    H: Limited,
    I: Limited,
    J: Limited,
    K: Limited,
    M: Limited,
> Limited for (A, B, C, D, E, F, G, H, I, J, K, M) {
    fn counts() -> usize {
        A::counts().saturating_add(<(B, C, D, E, F, G, H, I, J, K, M) as Limited>::counts())
    }

    fn has_no_limits() -> bool {
        A::has_no_limits() && <(B, C, D, E, F, G, H, I, J, K, M) as Limited>::has_no_limits()
    }

    fn is_within(src: &Self::Src) -> bool {
        members_12_are_within::<A, B, C, D, E, F, G, H, I, J, K, M>(
            &src.0, &src.1, &src.2, &src.3, &src.4, &src.5, &src.6, &src.7, &src.8, &src.9,
            &src.10, &src.11,
        )
    }
}

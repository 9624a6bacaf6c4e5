//! Written by `tools/templates`: keys of maps and items of heaps that are tuples.
ghost use Rattle.std.proofs.Common.{ap};
ghost use Rattle.wincode_base.specs.KeyLaws.{both_true, pair_alike, pair_decidable};

use crate::keys::{Key, Told};
use wincode_io::Lending;

impl<L: Lending, A: Key<L>, B: Key<L>> Key<L> for (A, B)
where
    A::Dst: Eq,
    B::Dst: Eq,
{
    ghost alike = { pair_alike A.alike B.alike };
}

impl<L: Lending, A: Told<L>, B: Told<L>> Told<L> for (A, B) {
    ghost told = { pair_decidable A.told B.told };
}

impl<L: Lending, A: Key<L>, B: Key<L>, C: Key<L>> Key<L> for (A, B, C)
where
    A::Dst: Eq,
    B::Dst: Eq,
    C::Dst: Eq,
{
    ghost alike = { λ x y e. both_true (both_true (A.alike x.0 y.0 (ap (λ t. t.0) e)) (B.alike x.1 y.1 (ap (λ t. t.1.0) e)))
        (C.alike x.2 y.2 (ap (λ t. t.1.1) e)) };
}

impl<L: Lending, A: Told<L>, B: Told<L>, C: Told<L>> Told<L> for (A, B, C) {
    ghost told = { pair_decidable A.told (pair_decidable B.told C.told) };
}

impl<L: Lending, A: Key<L>, B: Key<L>, C: Key<L>, D: Key<L>> Key<L> for (A, B, C, D)
where
    A::Dst: Eq,
    B::Dst: Eq,
    C::Dst: Eq,
    D::Dst: Eq,
{
    ghost alike = { λ x y e. both_true (both_true (both_true (A.alike x.0 y.0 (ap (λ t. t.0) e)) (B.alike x.1 y.1 (ap (λ t. t.1.0) e)))
        (C.alike x.2 y.2 (ap (λ t. t.1.1.0) e))) (D.alike x.3 y.3 (ap (λ t. t.1.1.1) e)) };
}

impl<L: Lending, A: Told<L>, B: Told<L>, C: Told<L>, D: Told<L>> Told<L> for (A, B, C, D) {
    ghost told = { pair_decidable A.told (pair_decidable B.told (pair_decidable C.told D.told)) };
}

impl<L: Lending, A: Key<L>, B: Key<L>, C: Key<L>, D: Key<L>, E: Key<L>> Key<L> for (A, B, C, D, E)
where
    A::Dst: Eq,
    B::Dst: Eq,
    C::Dst: Eq,
    D::Dst: Eq,
    E::Dst: Eq,
{
    ghost alike = { λ x y e. both_true (both_true (both_true (both_true (A.alike x.0 y.0 (ap (λ t. t.0) e)) (B.alike x.1 y.1 (ap (λ t. t.1.0) e)))
        (C.alike x.2 y.2 (ap (λ t. t.1.1.0) e))) (D.alike x.3 y.3 (ap (λ t. t.1.1.1.0) e))) (E.alike x.4 y.4 (ap (λ t. t.1.1.1.1) e)) };
}

impl<L: Lending, A: Told<L>, B: Told<L>, C: Told<L>, D: Told<L>, E: Told<L>> Told<L>
    for (A, B, C, D, E) {
    ghost told = { pair_decidable A.told (pair_decidable B.told (pair_decidable C.told (pair_decidable D.told E.told))) };
}

impl<L: Lending, A: Key<L>, B: Key<L>, C: Key<L>, D: Key<L>, E: Key<L>, F: Key<L>> Key<L>
    for (A, B, C, D, E, F)
where
    A::Dst: Eq,
    B::Dst: Eq,
    C::Dst: Eq,
    D::Dst: Eq,
    E::Dst: Eq,
    F::Dst: Eq,
{
    ghost alike = { λ x y e. both_true (both_true (both_true (both_true (both_true (A.alike x.0 y.0 (ap (λ t. t.0) e))
        (B.alike x.1 y.1 (ap (λ t. t.1.0) e))) (C.alike x.2 y.2 (ap (λ t. t.1.1.0) e))) (D.alike x.3 y.3 (ap (λ t. t.1.1.1.0) e)))
        (E.alike x.4 y.4 (ap (λ t. t.1.1.1.1.0) e))) (F.alike x.5 y.5 (ap (λ t. t.1.1.1.1.1) e)) };
}

impl<L: Lending, A: Told<L>, B: Told<L>, C: Told<L>, D: Told<L>, E: Told<L>, F: Told<L>> Told<L>
    for (A, B, C, D, E, F) {
    ghost told = { pair_decidable A.told (pair_decidable B.told (pair_decidable C.told (pair_decidable D.told (pair_decidable E.told F.told)))) };
}

impl<L: Lending, A: Key<L>, B: Key<L>, C: Key<L>, D: Key<L>, E: Key<L>, F: Key<L>, G: Key<L>> Key<L>
    for (A, B, C, D, E, F, G)
where
    A::Dst: Eq,
    B::Dst: Eq,
    C::Dst: Eq,
    D::Dst: Eq,
    E::Dst: Eq,
    F::Dst: Eq,
    G::Dst: Eq,
{
    ghost alike = { λ x y e. both_true (both_true (both_true (both_true (both_true (both_true (A.alike x.0 y.0 (ap (λ t. t.0) e))
        (B.alike x.1 y.1 (ap (λ t. t.1.0) e))) (C.alike x.2 y.2 (ap (λ t. t.1.1.0) e))) (D.alike x.3 y.3 (ap (λ t. t.1.1.1.0) e)))
        (E.alike x.4 y.4 (ap (λ t. t.1.1.1.1.0) e))) (F.alike x.5 y.5 (ap (λ t. t.1.1.1.1.1.0) e))) (G.alike x.6 y.6 (ap (λ t. t.1.1.1.1.1.1) e)) };
}

impl<
    L: Lending,
    A: Told<L>,
    B: Told<L>,
    C: Told<L>,
    D: Told<L>,
    E: Told<L>,
    F: Told<L>,
    G: Told<L>,
> Told<L> for (A, B, C, D, E, F, G) {
    ghost told = { pair_decidable A.told (pair_decidable B.told (pair_decidable C.told (pair_decidable D.told (pair_decidable E.told
        (pair_decidable F.told G.told))))) };
}

impl<
    L: Lending,
    A: Key<L>,
    B: Key<L>,
    C: Key<L>,
    D: Key<L>,
    E: Key<L>,
    F: Key<L>,
    G: Key<L>,
    H: Key<L>,
> Key<L> for (A, B, C, D, E, F, G, H)
where
    A::Dst: Eq,
    B::Dst: Eq,
    C::Dst: Eq,
    D::Dst: Eq,
    E::Dst: Eq,
    F::Dst: Eq,
    G::Dst: Eq,
    H::Dst: Eq,
{
    ghost alike = { λ x y e. both_true (both_true (both_true (both_true (both_true (both_true (both_true (A.alike x.0 y.0 (ap (λ t. t.0) e))
        (B.alike x.1 y.1 (ap (λ t. t.1.0) e))) (C.alike x.2 y.2 (ap (λ t. t.1.1.0) e))) (D.alike x.3 y.3 (ap (λ t. t.1.1.1.0) e)))
        (E.alike x.4 y.4 (ap (λ t. t.1.1.1.1.0) e))) (F.alike x.5 y.5 (ap (λ t. t.1.1.1.1.1.0) e))) (G.alike x.6 y.6 (ap (λ t. t.1.1.1.1.1.1.0) e)))
        (H.alike x.7 y.7 (ap (λ t. t.1.1.1.1.1.1.1) e)) };
}

impl<
    L: Lending,
    A: Told<L>,
    B: Told<L>,
    C: Told<L>,
    D: Told<L>,
    E: Told<L>,
    F: Told<L>,
    G: Told<L>,
    H: Told<L>,
> Told<L> for (A, B, C, D, E, F, G, H) {
    ghost told = { pair_decidable A.told (pair_decidable B.told (pair_decidable C.told (pair_decidable D.told (pair_decidable E.told
        (pair_decidable F.told (pair_decidable G.told H.told)))))) };
}

impl<
    L: Lending,
    A: Key<L>,
    B: Key<L>,
    C: Key<L>,
    D: Key<L>,
    E: Key<L>,
    F: Key<L>,
    G: Key<L>,
    H: Key<L>,
    I: Key<L>,
> Key<L> for (A, B, C, D, E, F, G, H, I)
where
    A::Dst: Eq,
    B::Dst: Eq,
    C::Dst: Eq,
    D::Dst: Eq,
    E::Dst: Eq,
    F::Dst: Eq,
    G::Dst: Eq,
    H::Dst: Eq,
    I::Dst: Eq,
{
    ghost alike = { λ x y e. both_true (both_true (both_true (both_true (both_true (both_true (both_true (both_true
        (A.alike x.0 y.0 (ap (λ t. t.0) e)) (B.alike x.1 y.1 (ap (λ t. t.1.0) e))) (C.alike x.2 y.2 (ap (λ t. t.1.1.0) e)))
        (D.alike x.3 y.3 (ap (λ t. t.1.1.1.0) e))) (E.alike x.4 y.4 (ap (λ t. t.1.1.1.1.0) e))) (F.alike x.5 y.5 (ap (λ t. t.1.1.1.1.1.0) e)))
        (G.alike x.6 y.6 (ap (λ t. t.1.1.1.1.1.1.0) e))) (H.alike x.7 y.7 (ap (λ t. t.1.1.1.1.1.1.1.0) e)))
        (I.alike x.8 y.8 (ap (λ t. t.1.1.1.1.1.1.1.1) e)) };
}

impl<
    L: Lending,
    A: Told<L>,
    B: Told<L>,
    C: Told<L>,
    D: Told<L>,
    E: Told<L>,
    F: Told<L>,
    G: Told<L>,
    H: Told<L>,
    I: Told<L>,
> Told<L> for (A, B, C, D, E, F, G, H, I) {
    ghost told = { pair_decidable A.told (pair_decidable B.told (pair_decidable C.told (pair_decidable D.told (pair_decidable E.told
        (pair_decidable F.told (pair_decidable G.told (pair_decidable H.told I.told))))))) };
}

impl<
    L: Lending,
    A: Key<L>,
    B: Key<L>,
    C: Key<L>,
    D: Key<L>,
    E: Key<L>,
    F: Key<L>,
    G: Key<L>,
    H: Key<L>,
    I: Key<L>,
    J: Key<L>,
> Key<L> for (A, B, C, D, E, F, G, H, I, J)
where
    A::Dst: Eq,
    B::Dst: Eq,
    C::Dst: Eq,
    D::Dst: Eq,
    E::Dst: Eq,
    F::Dst: Eq,
    G::Dst: Eq,
    H::Dst: Eq,
    I::Dst: Eq,
    J::Dst: Eq,
{
    ghost alike = { λ x y e. both_true (both_true (both_true (both_true (both_true (both_true (both_true (both_true (both_true
        (A.alike x.0 y.0 (ap (λ t. t.0) e)) (B.alike x.1 y.1 (ap (λ t. t.1.0) e))) (C.alike x.2 y.2 (ap (λ t. t.1.1.0) e)))
        (D.alike x.3 y.3 (ap (λ t. t.1.1.1.0) e))) (E.alike x.4 y.4 (ap (λ t. t.1.1.1.1.0) e))) (F.alike x.5 y.5 (ap (λ t. t.1.1.1.1.1.0) e)))
        (G.alike x.6 y.6 (ap (λ t. t.1.1.1.1.1.1.0) e))) (H.alike x.7 y.7 (ap (λ t. t.1.1.1.1.1.1.1.0) e)))
        (I.alike x.8 y.8 (ap (λ t. t.1.1.1.1.1.1.1.1.0) e))) (J.alike x.9 y.9 (ap (λ t. t.1.1.1.1.1.1.1.1.1) e)) };
}

impl<
    L: Lending,
    A: Told<L>,
    B: Told<L>,
    C: Told<L>,
    D: Told<L>,
    E: Told<L>,
    F: Told<L>,
    G: Told<L>,
    H: Told<L>,
    I: Told<L>,
    J: Told<L>,
> Told<L> for (A, B, C, D, E, F, G, H, I, J) {
    ghost told = { pair_decidable A.told (pair_decidable B.told (pair_decidable C.told (pair_decidable D.told (pair_decidable E.told
        (pair_decidable F.told (pair_decidable G.told (pair_decidable H.told (pair_decidable I.told J.told)))))))) };
}

impl<
    L: Lending,
    A: Key<L>,
    B: Key<L>,
    C: Key<L>,
    D: Key<L>,
    E: Key<L>,
    F: Key<L>,
    G: Key<L>,
    H: Key<L>,
    I: Key<L>,
    J: Key<L>,
    K: Key<L>,
> Key<L> for (A, B, C, D, E, F, G, H, I, J, K)
where
    A::Dst: Eq,
    B::Dst: Eq,
    C::Dst: Eq,
    D::Dst: Eq,
    E::Dst: Eq,
    F::Dst: Eq,
    G::Dst: Eq,
    H::Dst: Eq,
    I::Dst: Eq,
    J::Dst: Eq,
    K::Dst: Eq,
{
    ghost alike = { λ x y e. both_true (both_true (both_true (both_true (both_true (both_true (both_true (both_true (both_true (both_true
        (A.alike x.0 y.0 (ap (λ t. t.0) e)) (B.alike x.1 y.1 (ap (λ t. t.1.0) e))) (C.alike x.2 y.2 (ap (λ t. t.1.1.0) e)))
        (D.alike x.3 y.3 (ap (λ t. t.1.1.1.0) e))) (E.alike x.4 y.4 (ap (λ t. t.1.1.1.1.0) e))) (F.alike x.5 y.5 (ap (λ t. t.1.1.1.1.1.0) e)))
        (G.alike x.6 y.6 (ap (λ t. t.1.1.1.1.1.1.0) e))) (H.alike x.7 y.7 (ap (λ t. t.1.1.1.1.1.1.1.0) e)))
        (I.alike x.8 y.8 (ap (λ t. t.1.1.1.1.1.1.1.1.0) e))) (J.alike x.9 y.9 (ap (λ t. t.1.1.1.1.1.1.1.1.1.0) e)))
        (K.alike x.10 y.10 (ap (λ t. t.1.1.1.1.1.1.1.1.1.1) e)) };
}

impl<
    L: Lending,
    A: Told<L>,
    B: Told<L>,
    C: Told<L>,
    D: Told<L>,
    E: Told<L>,
    F: Told<L>,
    G: Told<L>,
    H: Told<L>,
    I: Told<L>,
    J: Told<L>,
    K: Told<L>,
> Told<L> for (A, B, C, D, E, F, G, H, I, J, K) {
    ghost told = { pair_decidable A.told (pair_decidable B.told (pair_decidable C.told (pair_decidable D.told (pair_decidable E.told
        (pair_decidable F.told (pair_decidable G.told (pair_decidable H.told (pair_decidable I.told (pair_decidable J.told K.told))))))))) };
}

impl<
    L: Lending,
    A: Key<L>,
    B: Key<L>,
    C: Key<L>,
    D: Key<L>,
    E: Key<L>,
    F: Key<L>,
    G: Key<L>,
    H: Key<L>,
    I: Key<L>,
    J: Key<L>,
    K: Key<L>,
    M: Key<L>,
> Key<L> for (A, B, C, D, E, F, G, H, I, J, K, M)
where
    A::Dst: Eq,
    B::Dst: Eq,
    C::Dst: Eq,
    D::Dst: Eq,
    E::Dst: Eq,
    F::Dst: Eq,
    G::Dst: Eq,
    H::Dst: Eq,
    I::Dst: Eq,
    J::Dst: Eq,
    K::Dst: Eq,
    M::Dst: Eq,
{
    ghost alike = { λ x y e. both_true (both_true (both_true (both_true (both_true (both_true (both_true (both_true (both_true (both_true (both_true
        (A.alike x.0 y.0 (ap (λ t. t.0) e)) (B.alike x.1 y.1 (ap (λ t. t.1.0) e))) (C.alike x.2 y.2 (ap (λ t. t.1.1.0) e)))
        (D.alike x.3 y.3 (ap (λ t. t.1.1.1.0) e))) (E.alike x.4 y.4 (ap (λ t. t.1.1.1.1.0) e))) (F.alike x.5 y.5 (ap (λ t. t.1.1.1.1.1.0) e)))
        (G.alike x.6 y.6 (ap (λ t. t.1.1.1.1.1.1.0) e))) (H.alike x.7 y.7 (ap (λ t. t.1.1.1.1.1.1.1.0) e)))
        (I.alike x.8 y.8 (ap (λ t. t.1.1.1.1.1.1.1.1.0) e))) (J.alike x.9 y.9 (ap (λ t. t.1.1.1.1.1.1.1.1.1.0) e)))
        (K.alike x.10 y.10 (ap (λ t. t.1.1.1.1.1.1.1.1.1.1.0) e))) (M.alike x.11 y.11 (ap (λ t. t.1.1.1.1.1.1.1.1.1.1.1) e)) };
}

impl<
    L: Lending,
    A: Told<L>,
    B: Told<L>,
    C: Told<L>,
    D: Told<L>,
    E: Told<L>,
    F: Told<L>,
    G: Told<L>,
    H: Told<L>,
    I: Told<L>,
    J: Told<L>,
    K: Told<L>,
    M: Told<L>,
> Told<L> for (A, B, C, D, E, F, G, H, I, J, K, M) {
    ghost told = { pair_decidable A.told (pair_decidable B.told (pair_decidable C.told (pair_decidable D.told (pair_decidable E.told
        (pair_decidable F.told (pair_decidable G.told (pair_decidable H.told (pair_decidable I.told (pair_decidable J.told
        (pair_decidable K.told M.told)))))))))) };
}

//! Written by `tools/templates`: what tuples keep beyond reading and writing.
ghost use Rattle.wincode_base.specs.PairLaws.{pair_reads_back, reads_back_by, windowed_reads_back};
ghost use Rattle.wincode.specs.OneTextLaws.{both_owned, pair_one_text, windowed_one_text};

use crate::io::Lending;
use crate::markers::{OneText, RoundTrip, SchemaReadOwned};

impl<L: Lending, A: OneText<L>, B: OneText<L>> OneText<L> for (A, B) {
    ghost one_text = { windowed_one_text (pair_one_text A.one_text B.one_text) };
}

impl<L: Lending, A: SchemaReadOwned<L>, B: SchemaReadOwned<L>> SchemaReadOwned<L> for (A, B) {
    ghost owned = { both_owned A.owned B.owned };
}

impl<L: Lending, A: RoundTrip<L>, B: RoundTrip<L>> RoundTrip<L> for (A, B)
where
    A::Src: Drop,
    B::Src: Drop,
{
    ghost reads_back = { reads_back_by (λ t. (t.0, t.1)) (windowed_reads_back (pair_reads_back A.reads_back B.reads_back)) };
}

impl<L: Lending, A: OneText<L>, B: OneText<L>, C: OneText<L>> OneText<L> for (A, B, C) {
    ghost one_text = { windowed_one_text (pair_one_text A.one_text (pair_one_text B.one_text C.one_text)) };
}

impl<
    L: Lending,
    A: SchemaReadOwned<L>,
    B: SchemaReadOwned<L>,
    C: SchemaReadOwned<L>,
> SchemaReadOwned<L> for (A, B, C) {
    ghost owned = { both_owned A.owned (both_owned B.owned C.owned) };
}

impl<L: Lending, A: RoundTrip<L>, B: RoundTrip<L>, C: RoundTrip<L>> RoundTrip<L> for (A, B, C)
where
    A::Src: Drop,
    B::Src: Drop,
    C::Src: Drop,
{
    ghost reads_back = { reads_back_by (λ t. (t.0, (t.1, t.2))) (windowed_reads_back (pair_reads_back A.reads_back
        (pair_reads_back B.reads_back C.reads_back))) };
}

impl<L: Lending, A: OneText<L>, B: OneText<L>, C: OneText<L>, D: OneText<L>> OneText<L>
    for (A, B, C, D) {
    ghost one_text = { windowed_one_text (pair_one_text A.one_text (pair_one_text B.one_text (pair_one_text C.one_text D.one_text))) };
}

impl<
    L: Lending,
    A: SchemaReadOwned<L>,
    B: SchemaReadOwned<L>,
    C: SchemaReadOwned<L>,
    D: SchemaReadOwned<L>,
> SchemaReadOwned<L> for (A, B, C, D) {
    ghost owned = { both_owned A.owned (both_owned B.owned (both_owned C.owned D.owned)) };
}

impl<L: Lending, A: RoundTrip<L>, B: RoundTrip<L>, C: RoundTrip<L>, D: RoundTrip<L>> RoundTrip<L>
    for (A, B, C, D)
where
    A::Src: Drop,
    B::Src: Drop,
    C::Src: Drop,
    D::Src: Drop,
{
    ghost reads_back = { reads_back_by (λ t. (t.0, (t.1, (t.2, t.3)))) (windowed_reads_back (pair_reads_back A.reads_back
        (pair_reads_back B.reads_back (pair_reads_back C.reads_back D.reads_back)))) };
}

impl<L: Lending, A: OneText<L>, B: OneText<L>, C: OneText<L>, D: OneText<L>, E: OneText<L>> OneText<
    L,
> for (A, B, C, D, E) {
    ghost one_text = { windowed_one_text (pair_one_text A.one_text (pair_one_text B.one_text (pair_one_text C.one_text
        (pair_one_text D.one_text E.one_text)))) };
}

impl<
    L: Lending,
    A: SchemaReadOwned<L>,
    B: SchemaReadOwned<L>,
    C: SchemaReadOwned<L>,
    D: SchemaReadOwned<L>,
    E: SchemaReadOwned<L>,
> SchemaReadOwned<L> for (A, B, C, D, E) {
    ghost owned = { both_owned A.owned (both_owned B.owned (both_owned C.owned (both_owned D.owned E.owned))) };
}

impl<
    L: Lending,
    A: RoundTrip<L>,
    B: RoundTrip<L>,
    C: RoundTrip<L>,
    D: RoundTrip<L>,
    E: RoundTrip<L>,
> RoundTrip<L> for (A, B, C, D, E)
where
    A::Src: Drop,
    B::Src: Drop,
    C::Src: Drop,
    D::Src: Drop,
    E::Src: Drop,
{
    ghost reads_back = { reads_back_by (λ t. (t.0, (t.1, (t.2, (t.3, t.4))))) (windowed_reads_back (pair_reads_back A.reads_back
        (pair_reads_back B.reads_back (pair_reads_back C.reads_back (pair_reads_back D.reads_back E.reads_back))))) };
}

impl<
    L: Lending,
    A: OneText<L>,
    B: OneText<L>,
    C: OneText<L>,
    D: OneText<L>,
    E: OneText<L>,
    F: OneText<L>,
> OneText<L> for (A, B, C, D, E, F) {
    ghost one_text = { windowed_one_text (pair_one_text A.one_text (pair_one_text B.one_text (pair_one_text C.one_text (pair_one_text D.one_text
        (pair_one_text E.one_text F.one_text))))) };
}

impl<
    L: Lending,
    A: SchemaReadOwned<L>,
    B: SchemaReadOwned<L>,
    C: SchemaReadOwned<L>,
    D: SchemaReadOwned<L>,
    E: SchemaReadOwned<L>,
    F: SchemaReadOwned<L>,
> SchemaReadOwned<L> for (A, B, C, D, E, F) {
    ghost owned = { both_owned A.owned (both_owned B.owned (both_owned C.owned (both_owned D.owned (both_owned E.owned F.owned)))) };
}

impl<
    L: Lending,
    A: RoundTrip<L>,
    B: RoundTrip<L>,
    C: RoundTrip<L>,
    D: RoundTrip<L>,
    E: RoundTrip<L>,
    F: RoundTrip<L>,
> RoundTrip<L> for (A, B, C, D, E, F)
where
    A::Src: Drop,
    B::Src: Drop,
    C::Src: Drop,
    D::Src: Drop,
    E::Src: Drop,
    F::Src: Drop,
{
    ghost reads_back = { reads_back_by (λ t. (t.0, (t.1, (t.2, (t.3, (t.4, t.5)))))) (windowed_reads_back (pair_reads_back A.reads_back
        (pair_reads_back B.reads_back (pair_reads_back C.reads_back (pair_reads_back D.reads_back (pair_reads_back E.reads_back F.reads_back)))))) };
}

impl<
    L: Lending,
    A: OneText<L>,
    B: OneText<L>,
    C: OneText<L>,
    D: OneText<L>,
    E: OneText<L>,
    F: OneText<L>,
    G: OneText<L>,
> OneText<L> for (A, B, C, D, E, F, G) {
    ghost one_text = { windowed_one_text (pair_one_text A.one_text (pair_one_text B.one_text (pair_one_text C.one_text (pair_one_text D.one_text
        (pair_one_text E.one_text (pair_one_text F.one_text G.one_text)))))) };
}

impl<
    L: Lending,
    A: SchemaReadOwned<L>,
    B: SchemaReadOwned<L>,
    C: SchemaReadOwned<L>,
    D: SchemaReadOwned<L>,
    E: SchemaReadOwned<L>,
    F: SchemaReadOwned<L>,
    G: SchemaReadOwned<L>,
> SchemaReadOwned<L> for (A, B, C, D, E, F, G) {
    ghost owned = { both_owned A.owned (both_owned B.owned (both_owned C.owned (both_owned D.owned (both_owned E.owned
        (both_owned F.owned G.owned))))) };
}

impl<
    L: Lending,
    A: RoundTrip<L>,
    B: RoundTrip<L>,
    C: RoundTrip<L>,
    D: RoundTrip<L>,
    E: RoundTrip<L>,
    F: RoundTrip<L>,
    G: RoundTrip<L>,
> RoundTrip<L> for (A, B, C, D, E, F, G)
where
    A::Src: Drop,
    B::Src: Drop,
    C::Src: Drop,
    D::Src: Drop,
    E::Src: Drop,
    F::Src: Drop,
    G::Src: Drop,
{
    ghost reads_back = { reads_back_by (λ t. (t.0, (t.1, (t.2, (t.3, (t.4, (t.5, t.6))))))) (windowed_reads_back (pair_reads_back A.reads_back
        (pair_reads_back B.reads_back (pair_reads_back C.reads_back (pair_reads_back D.reads_back (pair_reads_back E.reads_back
        (pair_reads_back F.reads_back G.reads_back))))))) };
}

impl<
    L: Lending,
    A: OneText<L>,
    B: OneText<L>,
    C: OneText<L>,
    D: OneText<L>,
    E: OneText<L>,
    F: OneText<L>,
    G: OneText<L>,
    H: OneText<L>,
> OneText<L> for (A, B, C, D, E, F, G, H) {
    ghost one_text = { windowed_one_text (pair_one_text A.one_text (pair_one_text B.one_text (pair_one_text C.one_text (pair_one_text D.one_text
        (pair_one_text E.one_text (pair_one_text F.one_text (pair_one_text G.one_text H.one_text))))))) };
}

impl<
    L: Lending,
    A: SchemaReadOwned<L>,
    B: SchemaReadOwned<L>,
    C: SchemaReadOwned<L>,
    D: SchemaReadOwned<L>,
    E: SchemaReadOwned<L>,
    F: SchemaReadOwned<L>,
    G: SchemaReadOwned<L>,
    H: SchemaReadOwned<L>,
> SchemaReadOwned<L> for (A, B, C, D, E, F, G, H) {
    ghost owned = { both_owned A.owned (both_owned B.owned (both_owned C.owned (both_owned D.owned (both_owned E.owned (both_owned F.owned
        (both_owned G.owned H.owned)))))) };
}

impl<
    L: Lending,
    A: RoundTrip<L>,
    B: RoundTrip<L>,
    C: RoundTrip<L>,
    D: RoundTrip<L>,
    E: RoundTrip<L>,
    F: RoundTrip<L>,
    G: RoundTrip<L>,
    H: RoundTrip<L>,
> RoundTrip<L> for (A, B, C, D, E, F, G, H)
where
    A::Src: Drop,
    B::Src: Drop,
    C::Src: Drop,
    D::Src: Drop,
    E::Src: Drop,
    F::Src: Drop,
    G::Src: Drop,
    H::Src: Drop,
{
    ghost reads_back = { reads_back_by (λ t. (t.0, (t.1, (t.2, (t.3, (t.4, (t.5, (t.6, t.7)))))))) (windowed_reads_back (pair_reads_back A.reads_back
        (pair_reads_back B.reads_back (pair_reads_back C.reads_back (pair_reads_back D.reads_back (pair_reads_back E.reads_back
        (pair_reads_back F.reads_back (pair_reads_back G.reads_back H.reads_back)))))))) };
}

impl<
    L: Lending,
    A: OneText<L>,
    B: OneText<L>,
    C: OneText<L>,
    D: OneText<L>,
    E: OneText<L>,
    F: OneText<L>,
    G: OneText<L>,
    H: OneText<L>,
    I: OneText<L>,
> OneText<L> for (A, B, C, D, E, F, G, H, I) {
    ghost one_text = { windowed_one_text (pair_one_text A.one_text (pair_one_text B.one_text (pair_one_text C.one_text (pair_one_text D.one_text
        (pair_one_text E.one_text (pair_one_text F.one_text (pair_one_text G.one_text (pair_one_text H.one_text I.one_text)))))))) };
}

impl<
    L: Lending,
    A: SchemaReadOwned<L>,
    B: SchemaReadOwned<L>,
    C: SchemaReadOwned<L>,
    D: SchemaReadOwned<L>,
    E: SchemaReadOwned<L>,
    F: SchemaReadOwned<L>,
    G: SchemaReadOwned<L>,
    H: SchemaReadOwned<L>,
    I: SchemaReadOwned<L>,
> SchemaReadOwned<L> for (A, B, C, D, E, F, G, H, I) {
    ghost owned = { both_owned A.owned (both_owned B.owned (both_owned C.owned (both_owned D.owned (both_owned E.owned (both_owned F.owned
        (both_owned G.owned (both_owned H.owned I.owned))))))) };
}

impl<
    L: Lending,
    A: RoundTrip<L>,
    B: RoundTrip<L>,
    C: RoundTrip<L>,
    D: RoundTrip<L>,
    E: RoundTrip<L>,
    F: RoundTrip<L>,
    G: RoundTrip<L>,
    H: RoundTrip<L>,
    I: RoundTrip<L>,
> RoundTrip<L> for (A, B, C, D, E, F, G, H, I)
where
    A::Src: Drop,
    B::Src: Drop,
    C::Src: Drop,
    D::Src: Drop,
    E::Src: Drop,
    F::Src: Drop,
    G::Src: Drop,
    H::Src: Drop,
    I::Src: Drop,
{
    ghost reads_back = { reads_back_by (λ t. (t.0, (t.1, (t.2, (t.3, (t.4, (t.5, (t.6, (t.7, t.8))))))))) (windowed_reads_back
        (pair_reads_back A.reads_back (pair_reads_back B.reads_back (pair_reads_back C.reads_back (pair_reads_back D.reads_back
        (pair_reads_back E.reads_back (pair_reads_back F.reads_back (pair_reads_back G.reads_back
        (pair_reads_back H.reads_back I.reads_back))))))))) };
}

impl<
    L: Lending,
    A: OneText<L>,
    B: OneText<L>,
    C: OneText<L>,
    D: OneText<L>,
    E: OneText<L>,
    F: OneText<L>,
    G: OneText<L>,
    H: OneText<L>,
    I: OneText<L>,
    J: OneText<L>,
> OneText<L> for (A, B, C, D, E, F, G, H, I, J) {
    ghost one_text = { windowed_one_text (pair_one_text A.one_text (pair_one_text B.one_text (pair_one_text C.one_text (pair_one_text D.one_text
        (pair_one_text E.one_text (pair_one_text F.one_text (pair_one_text G.one_text (pair_one_text H.one_text
        (pair_one_text I.one_text J.one_text))))))))) };
}

impl<
    L: Lending,
    A: SchemaReadOwned<L>,
    B: SchemaReadOwned<L>,
    C: SchemaReadOwned<L>,
    D: SchemaReadOwned<L>,
    E: SchemaReadOwned<L>,
    F: SchemaReadOwned<L>,
    G: SchemaReadOwned<L>,
    H: SchemaReadOwned<L>,
    I: SchemaReadOwned<L>,
    J: SchemaReadOwned<L>,
> SchemaReadOwned<L> for (A, B, C, D, E, F, G, H, I, J) {
    ghost owned = { both_owned A.owned (both_owned B.owned (both_owned C.owned (both_owned D.owned (both_owned E.owned (both_owned F.owned
        (both_owned G.owned (both_owned H.owned (both_owned I.owned J.owned)))))))) };
}

impl<
    L: Lending,
    A: RoundTrip<L>,
    B: RoundTrip<L>,
    C: RoundTrip<L>,
    D: RoundTrip<L>,
    E: RoundTrip<L>,
    F: RoundTrip<L>,
    G: RoundTrip<L>,
    H: RoundTrip<L>,
    I: RoundTrip<L>,
    J: RoundTrip<L>,
> RoundTrip<L> for (A, B, C, D, E, F, G, H, I, J)
where
    A::Src: Drop,
    B::Src: Drop,
    C::Src: Drop,
    D::Src: Drop,
    E::Src: Drop,
    F::Src: Drop,
    G::Src: Drop,
    H::Src: Drop,
    I::Src: Drop,
    J::Src: Drop,
{
    ghost reads_back = { reads_back_by (λ t. (t.0, (t.1, (t.2, (t.3, (t.4, (t.5, (t.6, (t.7, (t.8, t.9)))))))))) (windowed_reads_back
        (pair_reads_back A.reads_back (pair_reads_back B.reads_back (pair_reads_back C.reads_back (pair_reads_back D.reads_back
        (pair_reads_back E.reads_back (pair_reads_back F.reads_back (pair_reads_back G.reads_back (pair_reads_back H.reads_back
        (pair_reads_back I.reads_back J.reads_back)))))))))) };
}

impl<
    L: Lending,
    A: OneText<L>,
    B: OneText<L>,
    C: OneText<L>,
    D: OneText<L>,
    E: OneText<L>,
    F: OneText<L>,
    G: OneText<L>,
    H: OneText<L>,
    I: OneText<L>,
    J: OneText<L>,
    K: OneText<L>,
> OneText<L> for (A, B, C, D, E, F, G, H, I, J, K) {
    ghost one_text = { windowed_one_text (pair_one_text A.one_text (pair_one_text B.one_text (pair_one_text C.one_text (pair_one_text D.one_text
        (pair_one_text E.one_text (pair_one_text F.one_text (pair_one_text G.one_text (pair_one_text H.one_text (pair_one_text I.one_text
        (pair_one_text J.one_text K.one_text)))))))))) };
}

impl<
    L: Lending,
    A: SchemaReadOwned<L>,
    B: SchemaReadOwned<L>,
    C: SchemaReadOwned<L>,
    D: SchemaReadOwned<L>,
    E: SchemaReadOwned<L>,
    F: SchemaReadOwned<L>,
    G: SchemaReadOwned<L>,
    H: SchemaReadOwned<L>,
    I: SchemaReadOwned<L>,
    J: SchemaReadOwned<L>,
    K: SchemaReadOwned<L>,
> SchemaReadOwned<L> for (A, B, C, D, E, F, G, H, I, J, K) {
    ghost owned = { both_owned A.owned (both_owned B.owned (both_owned C.owned (both_owned D.owned (both_owned E.owned (both_owned F.owned
        (both_owned G.owned (both_owned H.owned (both_owned I.owned (both_owned J.owned K.owned))))))))) };
}

impl<
    L: Lending,
    A: RoundTrip<L>,
    B: RoundTrip<L>,
    C: RoundTrip<L>,
    D: RoundTrip<L>,
    E: RoundTrip<L>,
    F: RoundTrip<L>,
    G: RoundTrip<L>,
    H: RoundTrip<L>,
    I: RoundTrip<L>,
    J: RoundTrip<L>,
    K: RoundTrip<L>,
> RoundTrip<L> for (A, B, C, D, E, F, G, H, I, J, K)
where
    A::Src: Drop,
    B::Src: Drop,
    C::Src: Drop,
    D::Src: Drop,
    E::Src: Drop,
    F::Src: Drop,
    G::Src: Drop,
    H::Src: Drop,
    I::Src: Drop,
    J::Src: Drop,
    K::Src: Drop,
{
    ghost reads_back = { reads_back_by (λ t. (t.0, (t.1, (t.2, (t.3, (t.4, (t.5, (t.6, (t.7, (t.8, (t.9, t.10))))))))))) (windowed_reads_back
        (pair_reads_back A.reads_back (pair_reads_back B.reads_back (pair_reads_back C.reads_back (pair_reads_back D.reads_back
        (pair_reads_back E.reads_back (pair_reads_back F.reads_back (pair_reads_back G.reads_back (pair_reads_back H.reads_back
        (pair_reads_back I.reads_back (pair_reads_back J.reads_back K.reads_back))))))))))) };
}

impl<
    L: Lending,
    A: OneText<L>,
    B: OneText<L>,
    C: OneText<L>,
    D: OneText<L>,
    E: OneText<L>,
    F: OneText<L>,
    G: OneText<L>,
    H: OneText<L>,
    I: OneText<L>,
    J: OneText<L>,
    K: OneText<L>,
    M: OneText<L>,
> OneText<L> for (A, B, C, D, E, F, G, H, I, J, K, M) {
    ghost one_text = { windowed_one_text (pair_one_text A.one_text (pair_one_text B.one_text (pair_one_text C.one_text (pair_one_text D.one_text
        (pair_one_text E.one_text (pair_one_text F.one_text (pair_one_text G.one_text (pair_one_text H.one_text (pair_one_text I.one_text
        (pair_one_text J.one_text (pair_one_text K.one_text M.one_text))))))))))) };
}

impl<
    L: Lending,
    A: SchemaReadOwned<L>,
    B: SchemaReadOwned<L>,
    C: SchemaReadOwned<L>,
    D: SchemaReadOwned<L>,
    E: SchemaReadOwned<L>,
    F: SchemaReadOwned<L>,
    G: SchemaReadOwned<L>,
    H: SchemaReadOwned<L>,
    I: SchemaReadOwned<L>,
    J: SchemaReadOwned<L>,
    K: SchemaReadOwned<L>,
    M: SchemaReadOwned<L>,
> SchemaReadOwned<L> for (A, B, C, D, E, F, G, H, I, J, K, M) {
    ghost owned = { both_owned A.owned (both_owned B.owned (both_owned C.owned (both_owned D.owned (both_owned E.owned (both_owned F.owned
        (both_owned G.owned (both_owned H.owned (both_owned I.owned (both_owned J.owned (both_owned K.owned M.owned)))))))))) };
}

impl<
    L: Lending,
    A: RoundTrip<L>,
    B: RoundTrip<L>,
    C: RoundTrip<L>,
    D: RoundTrip<L>,
    E: RoundTrip<L>,
    F: RoundTrip<L>,
    G: RoundTrip<L>,
    H: RoundTrip<L>,
    I: RoundTrip<L>,
    J: RoundTrip<L>,
    K: RoundTrip<L>,
    M: RoundTrip<L>,
> RoundTrip<L> for (A, B, C, D, E, F, G, H, I, J, K, M)
where
    A::Src: Drop,
    B::Src: Drop,
    C::Src: Drop,
    D::Src: Drop,
    E::Src: Drop,
    F::Src: Drop,
    G::Src: Drop,
    H::Src: Drop,
    I::Src: Drop,
    J::Src: Drop,
    K::Src: Drop,
    M::Src: Drop,
{
    ghost reads_back = { reads_back_by (λ t. (t.0, (t.1, (t.2, (t.3, (t.4, (t.5, (t.6, (t.7, (t.8, (t.9, (t.10, t.11)))))))))))) (windowed_reads_back
        (pair_reads_back A.reads_back (pair_reads_back B.reads_back (pair_reads_back C.reads_back (pair_reads_back D.reads_back
        (pair_reads_back E.reads_back (pair_reads_back F.reads_back (pair_reads_back G.reads_back (pair_reads_back H.reads_back
        (pair_reads_back I.reads_back (pair_reads_back J.reads_back (pair_reads_back K.reads_back M.reads_back)))))))))))) };
}

//! Written by `tools/templates`: the laws of reading tuples.
ghost use Rattle.wincode_base.specs.InWindow.{windowed_read};
ghost use Rattle.wincode_base.specs.PairLaws.{pair_read_laws, windowed_read_laws};
ghost use Rattle.wincode_base.specs.Pairs.{pair_read};

use crate::laws::Lawful;
use wincode::io::Lending;

impl<L: Lending, A: Lawful<L>, B: Lawful<L>> Lawful<L> for (A, B) {
    type Dst = (A::Dst, B::Dst);

    ghost Value = { A.Value × B.Value };

    ghost model = { λ t. (A.model t.0, B.model t.1) };

    ghost is_valid = { λ v. A.is_valid v.0 × B.is_valid v.1 };

    ghost reading = { windowed_read (pair_read A.reading B.reading) };

    ghost read_laws = { windowed_read_laws (pair_read_laws A.read_laws B.read_laws) };
}

impl<L: Lending, A: Lawful<L>, B: Lawful<L>, C: Lawful<L>> Lawful<L> for (A, B, C) {
    type Dst = (A::Dst, B::Dst, C::Dst);

    ghost Value = { A.Value × (B.Value × C.Value) };

    ghost model = { λ t. (A.model t.0, (B.model t.1, C.model t.2)) };

    ghost is_valid = { λ v. A.is_valid v.0 × (B.is_valid v.1.0 × C.is_valid v.1.1) };

    ghost reading = { windowed_read (pair_read A.reading (pair_read B.reading C.reading)) };

    ghost read_laws = { windowed_read_laws (pair_read_laws A.read_laws (pair_read_laws B.read_laws C.read_laws)) };
}

impl<L: Lending, A: Lawful<L>, B: Lawful<L>, C: Lawful<L>, D: Lawful<L>> Lawful<L>
    for (A, B, C, D) {
    type Dst = (A::Dst, B::Dst, C::Dst, D::Dst);

    ghost Value = { A.Value × (B.Value × (C.Value × D.Value)) };

    ghost model = { λ t. (A.model t.0, (B.model t.1, (C.model t.2, D.model t.3))) };

    ghost is_valid = { λ v. A.is_valid v.0 × (B.is_valid v.1.0 × (C.is_valid v.1.1.0 × D.is_valid v.1.1.1)) };

    ghost reading = { windowed_read (pair_read A.reading (pair_read B.reading (pair_read C.reading D.reading))) };

    ghost read_laws = { windowed_read_laws (pair_read_laws A.read_laws (pair_read_laws B.read_laws (pair_read_laws C.read_laws D.read_laws))) };
}

impl<L: Lending, A: Lawful<L>, B: Lawful<L>, C: Lawful<L>, D: Lawful<L>, E: Lawful<L>> Lawful<L>
    for (A, B, C, D, E) {
    type Dst = (A::Dst, B::Dst, C::Dst, D::Dst, E::Dst);

    ghost Value = { A.Value × (B.Value × (C.Value × (D.Value × E.Value))) };

    ghost model = { λ t. (A.model t.0, (B.model t.1, (C.model t.2, (D.model t.3, E.model t.4)))) };

    ghost is_valid = { λ v. A.is_valid v.0 × (B.is_valid v.1.0 × (C.is_valid v.1.1.0 × (D.is_valid v.1.1.1.0 × E.is_valid v.1.1.1.1))) };

    ghost reading = { windowed_read (pair_read A.reading (pair_read B.reading (pair_read C.reading (pair_read D.reading E.reading)))) };

    ghost read_laws = { windowed_read_laws (pair_read_laws A.read_laws (pair_read_laws B.read_laws (pair_read_laws C.read_laws
        (pair_read_laws D.read_laws E.read_laws)))) };
}

impl<
    L: Lending,
    A: Lawful<L>,
    B: Lawful<L>,
    C: Lawful<L>,
    D: Lawful<L>,
    E: Lawful<L>,
    F: Lawful<L>,
> Lawful<L> for (A, B, C, D, E, F) {
    type Dst = (A::Dst, B::Dst, C::Dst, D::Dst, E::Dst, F::Dst);

    ghost Value = { A.Value × (B.Value × (C.Value × (D.Value × (E.Value × F.Value)))) };

    ghost model = { λ t. (A.model t.0, (B.model t.1, (C.model t.2, (D.model t.3, (E.model t.4, F.model t.5))))) };

    ghost is_valid = { λ v. A.is_valid v.0 × (B.is_valid v.1.0 × (C.is_valid v.1.1.0 × (D.is_valid v.1.1.1.0 × (E.is_valid v.1.1.1.1.0 ×
        F.is_valid v.1.1.1.1.1)))) };

    ghost reading = { windowed_read (pair_read A.reading (pair_read B.reading (pair_read C.reading (pair_read D.reading
        (pair_read E.reading F.reading))))) };

    ghost read_laws = { windowed_read_laws (pair_read_laws A.read_laws (pair_read_laws B.read_laws (pair_read_laws C.read_laws
        (pair_read_laws D.read_laws (pair_read_laws E.read_laws F.read_laws))))) };
}

impl<
    L: Lending,
    A: Lawful<L>,
    B: Lawful<L>,
    C: Lawful<L>,
    D: Lawful<L>,
    E: Lawful<L>,
    F: Lawful<L>,
    G: Lawful<L>,
> Lawful<L> for (A, B, C, D, E, F, G) {
    type Dst = (A::Dst, B::Dst, C::Dst, D::Dst, E::Dst, F::Dst, G::Dst);

    ghost Value = { A.Value × (B.Value × (C.Value × (D.Value × (E.Value × (F.Value × G.Value))))) };

    ghost model = { λ t. (A.model t.0, (B.model t.1, (C.model t.2, (D.model t.3, (E.model t.4, (F.model t.5, G.model t.6)))))) };

    ghost is_valid = { λ v. A.is_valid v.0 × (B.is_valid v.1.0 × (C.is_valid v.1.1.0 × (D.is_valid v.1.1.1.0 × (E.is_valid v.1.1.1.1.0 ×
        (F.is_valid v.1.1.1.1.1.0 × G.is_valid v.1.1.1.1.1.1))))) };

    ghost reading = { windowed_read (pair_read A.reading (pair_read B.reading (pair_read C.reading (pair_read D.reading (pair_read E.reading
        (pair_read F.reading G.reading)))))) };

    ghost read_laws = { windowed_read_laws (pair_read_laws A.read_laws (pair_read_laws B.read_laws (pair_read_laws C.read_laws
        (pair_read_laws D.read_laws (pair_read_laws E.read_laws (pair_read_laws F.read_laws G.read_laws)))))) };
}

impl<
    L: Lending,
    A: Lawful<L>,
    B: Lawful<L>,
    C: Lawful<L>,
    D: Lawful<L>,
    E: Lawful<L>,
    F: Lawful<L>,
    G: Lawful<L>,
    H: Lawful<L>,
> Lawful<L> for (A, B, C, D, E, F, G, H) {
    type Dst = (
        A::Dst,
        B::Dst,
        C::Dst,
        D::Dst,
        E::Dst,
        F::Dst,
        G::Dst,
        H::Dst,
    );

    ghost Value = { A.Value × (B.Value × (C.Value × (D.Value × (E.Value × (F.Value × (G.Value × H.Value)))))) };

    ghost model = { λ t. (A.model t.0, (B.model t.1, (C.model t.2, (D.model t.3, (E.model t.4, (F.model t.5, (G.model t.6, H.model t.7))))))) };

    ghost is_valid = { λ v. A.is_valid v.0 × (B.is_valid v.1.0 × (C.is_valid v.1.1.0 × (D.is_valid v.1.1.1.0 × (E.is_valid v.1.1.1.1.0 ×
        (F.is_valid v.1.1.1.1.1.0 × (G.is_valid v.1.1.1.1.1.1.0 × H.is_valid v.1.1.1.1.1.1.1)))))) };

    ghost reading = { windowed_read (pair_read A.reading (pair_read B.reading (pair_read C.reading (pair_read D.reading (pair_read E.reading
        (pair_read F.reading (pair_read G.reading H.reading))))))) };

    ghost read_laws = { windowed_read_laws (pair_read_laws A.read_laws (pair_read_laws B.read_laws (pair_read_laws C.read_laws
        (pair_read_laws D.read_laws (pair_read_laws E.read_laws (pair_read_laws F.read_laws (pair_read_laws G.read_laws H.read_laws))))))) };
}

impl<
    L: Lending,
    A: Lawful<L>,
    B: Lawful<L>,
    C: Lawful<L>,
    D: Lawful<L>,
    E: Lawful<L>,
    F: Lawful<L>,
    G: Lawful<L>,
    H: Lawful<L>,
    I: Lawful<L>,
> Lawful<L> for (A, B, C, D, E, F, G, H, I) {
    type Dst = (
        A::Dst,
        B::Dst,
        C::Dst,
        D::Dst,
        E::Dst,
        F::Dst,
        G::Dst,
        H::Dst,
        I::Dst,
    );

    ghost Value = { A.Value × (B.Value × (C.Value × (D.Value × (E.Value × (F.Value × (G.Value × (H.Value × I.Value))))))) };

    ghost model = { λ t.
        (A.model t.0, (B.model t.1, (C.model t.2, (D.model t.3, (E.model t.4, (F.model t.5, (G.model t.6, (H.model t.7, I.model t.8)))))))) };

    ghost is_valid = { λ v. A.is_valid v.0 × (B.is_valid v.1.0 × (C.is_valid v.1.1.0 × (D.is_valid v.1.1.1.0 × (E.is_valid v.1.1.1.1.0 ×
        (F.is_valid v.1.1.1.1.1.0 × (G.is_valid v.1.1.1.1.1.1.0 × (H.is_valid v.1.1.1.1.1.1.1.0 × I.is_valid v.1.1.1.1.1.1.1.1))))))) };

    ghost reading = { windowed_read (pair_read A.reading (pair_read B.reading (pair_read C.reading (pair_read D.reading (pair_read E.reading
        (pair_read F.reading (pair_read G.reading (pair_read H.reading I.reading)))))))) };

    ghost read_laws = { windowed_read_laws (pair_read_laws A.read_laws (pair_read_laws B.read_laws (pair_read_laws C.read_laws
        (pair_read_laws D.read_laws (pair_read_laws E.read_laws (pair_read_laws F.read_laws (pair_read_laws G.read_laws
        (pair_read_laws H.read_laws I.read_laws)))))))) };
}

impl<
    L: Lending,
    A: Lawful<L>,
    B: Lawful<L>,
    C: Lawful<L>,
    D: Lawful<L>,
    E: Lawful<L>,
    F: Lawful<L>,
    G: Lawful<L>,
    H: Lawful<L>,
    I: Lawful<L>,
    J: Lawful<L>,
> Lawful<L> for (A, B, C, D, E, F, G, H, I, J) {
    type Dst = (
        A::Dst,
        B::Dst,
        C::Dst,
        D::Dst,
        E::Dst,
        F::Dst,
        G::Dst,
        H::Dst,
        I::Dst,
        J::Dst,
    );

    ghost Value = { A.Value × (B.Value × (C.Value × (D.Value × (E.Value × (F.Value × (G.Value × (H.Value × (I.Value × J.Value)))))))) };

    ghost model = { λ t.
        (A.model t.0, (B.model t.1, (C.model t.2, (D.model t.3, (E.model t.4, (F.model t.5, (G.model t.6, (H.model t.7, (I.model t.8, J.model t.9))))))))) };

    ghost is_valid = { λ v. A.is_valid v.0 × (B.is_valid v.1.0 × (C.is_valid v.1.1.0 × (D.is_valid v.1.1.1.0 × (E.is_valid v.1.1.1.1.0 ×
        (F.is_valid v.1.1.1.1.1.0 × (G.is_valid v.1.1.1.1.1.1.0 × (H.is_valid v.1.1.1.1.1.1.1.0 × (I.is_valid v.1.1.1.1.1.1.1.1.0 ×
        J.is_valid v.1.1.1.1.1.1.1.1.1)))))))) };

    ghost reading = { windowed_read (pair_read A.reading (pair_read B.reading (pair_read C.reading (pair_read D.reading (pair_read E.reading
        (pair_read F.reading (pair_read G.reading (pair_read H.reading (pair_read I.reading J.reading))))))))) };

    ghost read_laws = { windowed_read_laws (pair_read_laws A.read_laws (pair_read_laws B.read_laws (pair_read_laws C.read_laws
        (pair_read_laws D.read_laws (pair_read_laws E.read_laws (pair_read_laws F.read_laws (pair_read_laws G.read_laws (pair_read_laws H.read_laws
        (pair_read_laws I.read_laws J.read_laws))))))))) };
}

impl<
    L: Lending,
    A: Lawful<L>,
    B: Lawful<L>,
    C: Lawful<L>,
    D: Lawful<L>,
    E: Lawful<L>,
    F: Lawful<L>,
    G: Lawful<L>,
    H: Lawful<L>,
    I: Lawful<L>,
    J: Lawful<L>,
    K: Lawful<L>,
> Lawful<L> for (A, B, C, D, E, F, G, H, I, J, K) {
    type Dst = (
        A::Dst,
        B::Dst,
        C::Dst,
        D::Dst,
        E::Dst,
        F::Dst,
        G::Dst,
        H::Dst,
        I::Dst,
        J::Dst,
        K::Dst,
    );

    ghost Value = { A.Value × (B.Value × (C.Value × (D.Value × (E.Value × (F.Value × (G.Value × (H.Value × (I.Value × (J.Value × K.Value))))))))) };

    ghost model = { λ t.
        (A.model t.0, (B.model t.1, (C.model t.2, (D.model t.3, (E.model t.4, (F.model t.5, (G.model t.6, (H.model t.7, (I.model t.8, (J.model t.9, K.model t.10)))))))))) };

    ghost is_valid = { λ v. A.is_valid v.0 × (B.is_valid v.1.0 × (C.is_valid v.1.1.0 × (D.is_valid v.1.1.1.0 × (E.is_valid v.1.1.1.1.0 ×
        (F.is_valid v.1.1.1.1.1.0 × (G.is_valid v.1.1.1.1.1.1.0 × (H.is_valid v.1.1.1.1.1.1.1.0 × (I.is_valid v.1.1.1.1.1.1.1.1.0 ×
        (J.is_valid v.1.1.1.1.1.1.1.1.1.0 × K.is_valid v.1.1.1.1.1.1.1.1.1.1))))))))) };

    ghost reading = { windowed_read (pair_read A.reading (pair_read B.reading (pair_read C.reading (pair_read D.reading (pair_read E.reading
        (pair_read F.reading (pair_read G.reading (pair_read H.reading (pair_read I.reading (pair_read J.reading K.reading)))))))))) };

    ghost read_laws = { windowed_read_laws (pair_read_laws A.read_laws (pair_read_laws B.read_laws (pair_read_laws C.read_laws
        (pair_read_laws D.read_laws (pair_read_laws E.read_laws (pair_read_laws F.read_laws (pair_read_laws G.read_laws (pair_read_laws H.read_laws
        (pair_read_laws I.read_laws (pair_read_laws J.read_laws K.read_laws)))))))))) };
}

impl<
    L: Lending,
    A: Lawful<L>,
    B: Lawful<L>,
    C: Lawful<L>,
    D: Lawful<L>,
    E: Lawful<L>,
    F: Lawful<L>,
    G: Lawful<L>,
    H: Lawful<L>,
    I: Lawful<L>,
    J: Lawful<L>,
    K: Lawful<L>,
    M: Lawful<L>,
> Lawful<L> for (A, B, C, D, E, F, G, H, I, J, K, M) {
    type Dst = (
        A::Dst,
        B::Dst,
        C::Dst,
        D::Dst,
        E::Dst,
        F::Dst,
        G::Dst,
        H::Dst,
        I::Dst,
        J::Dst,
        K::Dst,
        M::Dst,
    );

    ghost Value = { A.Value × (B.Value × (C.Value × (D.Value × (E.Value × (F.Value × (G.Value × (H.Value × (I.Value × (J.Value × (K.Value ×
        M.Value)))))))))) };

    ghost model = { λ t.
        (A.model t.0, (B.model t.1, (C.model t.2, (D.model t.3, (E.model t.4, (F.model t.5, (G.model t.6, (H.model t.7, (I.model t.8, (J.model t.9, (K.model t.10, M.model t.11))))))))))) };

    ghost is_valid = { λ v. A.is_valid v.0 × (B.is_valid v.1.0 × (C.is_valid v.1.1.0 × (D.is_valid v.1.1.1.0 × (E.is_valid v.1.1.1.1.0 ×
        (F.is_valid v.1.1.1.1.1.0 × (G.is_valid v.1.1.1.1.1.1.0 × (H.is_valid v.1.1.1.1.1.1.1.0 × (I.is_valid v.1.1.1.1.1.1.1.1.0 ×
        (J.is_valid v.1.1.1.1.1.1.1.1.1.0 × (K.is_valid v.1.1.1.1.1.1.1.1.1.1.0 × M.is_valid v.1.1.1.1.1.1.1.1.1.1.1)))))))))) };

    ghost reading = { windowed_read (pair_read A.reading (pair_read B.reading (pair_read C.reading (pair_read D.reading (pair_read E.reading
        (pair_read F.reading (pair_read G.reading (pair_read H.reading (pair_read I.reading (pair_read J.reading
        (pair_read K.reading M.reading))))))))))) };

    ghost read_laws = { windowed_read_laws (pair_read_laws A.read_laws (pair_read_laws B.read_laws (pair_read_laws C.read_laws
        (pair_read_laws D.read_laws (pair_read_laws E.read_laws (pair_read_laws F.read_laws (pair_read_laws G.read_laws (pair_read_laws H.read_laws
        (pair_read_laws I.read_laws (pair_read_laws J.read_laws (pair_read_laws K.read_laws M.read_laws))))))))))) };
}

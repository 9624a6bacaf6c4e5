//! Written by `tools/templates`: what a map or a set asks of keys that are integers.
ghost use Rattle.std.specs.Cmp.{nat_eq_equiv, nat_cmp_total, unsigned_ties, int_eq_equiv, int_cmp_total};
ghost use Rattle.std.specs.Ordering.{nat_cmp, int_cmp, int_eq};
ghost use Rattle.std.specs.Prelude.{nat_eq, refl};
ghost use Rattle.wincode_base.specs.KeyLaws.{nat_alike, int_alike};

use crate::keys::LawfulKey;
use crate::laws::Lawful;
use wincode::io::Lending;

impl<L: Lending> LawfulKey<L> for u8 {
    type Dst = u8;

    ghost Value = { ⟦<u8 as Lawful<L>>⟧.Value };

    ghost model = { ⟦<u8 as Lawful<L>>⟧.model };

    ghost is_valid = { ⟦<u8 as Lawful<L>>⟧.is_valid };

    ghost reading = { ⟦<u8 as Lawful<L>>⟧.reading };

    ghost read_laws = { ⟦<u8 as Lawful<L>>⟧.read_laws };

    ghost equal = { nat_eq };

    ghost equivalence = { nat_eq_equiv };

    ghost alike = { nat_alike };

    ghost order = { nat_cmp };

    ghost order_total = { nat_cmp_total };

    ghost order_ties = { unsigned_ties };
}

impl<L: Lending> LawfulKey<L> for u16 {
    type Dst = u16;

    ghost Value = { ⟦<u16 as Lawful<L>>⟧.Value };

    ghost model = { ⟦<u16 as Lawful<L>>⟧.model };

    ghost is_valid = { ⟦<u16 as Lawful<L>>⟧.is_valid };

    ghost reading = { ⟦<u16 as Lawful<L>>⟧.reading };

    ghost read_laws = { ⟦<u16 as Lawful<L>>⟧.read_laws };

    ghost equal = { nat_eq };

    ghost equivalence = { nat_eq_equiv };

    ghost alike = { nat_alike };

    ghost order = { nat_cmp };

    ghost order_total = { nat_cmp_total };

    ghost order_ties = { unsigned_ties };
}

impl<L: Lending> LawfulKey<L> for u32 {
    type Dst = u32;

    ghost Value = { ⟦<u32 as Lawful<L>>⟧.Value };

    ghost model = { ⟦<u32 as Lawful<L>>⟧.model };

    ghost is_valid = { ⟦<u32 as Lawful<L>>⟧.is_valid };

    ghost reading = { ⟦<u32 as Lawful<L>>⟧.reading };

    ghost read_laws = { ⟦<u32 as Lawful<L>>⟧.read_laws };

    ghost equal = { nat_eq };

    ghost equivalence = { nat_eq_equiv };

    ghost alike = { nat_alike };

    ghost order = { nat_cmp };

    ghost order_total = { nat_cmp_total };

    ghost order_ties = { unsigned_ties };
}

impl<L: Lending> LawfulKey<L> for u64 {
    type Dst = u64;

    ghost Value = { ⟦<u64 as Lawful<L>>⟧.Value };

    ghost model = { ⟦<u64 as Lawful<L>>⟧.model };

    ghost is_valid = { ⟦<u64 as Lawful<L>>⟧.is_valid };

    ghost reading = { ⟦<u64 as Lawful<L>>⟧.reading };

    ghost read_laws = { ⟦<u64 as Lawful<L>>⟧.read_laws };

    ghost equal = { nat_eq };

    ghost equivalence = { nat_eq_equiv };

    ghost alike = { nat_alike };

    ghost order = { nat_cmp };

    ghost order_total = { nat_cmp_total };

    ghost order_ties = { unsigned_ties };
}

impl<L: Lending> LawfulKey<L> for u128 {
    type Dst = u128;

    ghost Value = { ⟦<u128 as Lawful<L>>⟧.Value };

    ghost model = { ⟦<u128 as Lawful<L>>⟧.model };

    ghost is_valid = { ⟦<u128 as Lawful<L>>⟧.is_valid };

    ghost reading = { ⟦<u128 as Lawful<L>>⟧.reading };

    ghost read_laws = { ⟦<u128 as Lawful<L>>⟧.read_laws };

    ghost equal = { nat_eq };

    ghost equivalence = { nat_eq_equiv };

    ghost alike = { nat_alike };

    ghost order = { nat_cmp };

    ghost order_total = { nat_cmp_total };

    ghost order_ties = { unsigned_ties };
}

impl<L: Lending> LawfulKey<L> for usize {
    type Dst = usize;

    ghost Value = { ⟦<usize as Lawful<L>>⟧.Value };

    ghost model = { ⟦<usize as Lawful<L>>⟧.model };

    ghost is_valid = { ⟦<usize as Lawful<L>>⟧.is_valid };

    ghost reading = { ⟦<usize as Lawful<L>>⟧.reading };

    ghost read_laws = { ⟦<usize as Lawful<L>>⟧.read_laws };

    ghost equal = { nat_eq };

    ghost equivalence = { nat_eq_equiv };

    ghost alike = { nat_alike };

    ghost order = { nat_cmp };

    ghost order_total = { nat_cmp_total };

    ghost order_ties = { unsigned_ties };
}

impl<L: Lending> LawfulKey<L> for i8 {
    type Dst = i8;

    ghost Value = { ⟦<i8 as Lawful<L>>⟧.Value };

    ghost model = { ⟦<i8 as Lawful<L>>⟧.model };

    ghost is_valid = { ⟦<i8 as Lawful<L>>⟧.is_valid };

    ghost reading = { ⟦<i8 as Lawful<L>>⟧.reading };

    ghost read_laws = { ⟦<i8 as Lawful<L>>⟧.read_laws };

    ghost equal = { int_eq };

    ghost equivalence = { int_eq_equiv };

    ghost alike = { int_alike };

    ghost order = { int_cmp };

    ghost order_total = { int_cmp_total };

    ghost order_ties = { λ x y. refl };
}

impl<L: Lending> LawfulKey<L> for i16 {
    type Dst = i16;

    ghost Value = { ⟦<i16 as Lawful<L>>⟧.Value };

    ghost model = { ⟦<i16 as Lawful<L>>⟧.model };

    ghost is_valid = { ⟦<i16 as Lawful<L>>⟧.is_valid };

    ghost reading = { ⟦<i16 as Lawful<L>>⟧.reading };

    ghost read_laws = { ⟦<i16 as Lawful<L>>⟧.read_laws };

    ghost equal = { int_eq };

    ghost equivalence = { int_eq_equiv };

    ghost alike = { int_alike };

    ghost order = { int_cmp };

    ghost order_total = { int_cmp_total };

    ghost order_ties = { λ x y. refl };
}

impl<L: Lending> LawfulKey<L> for i32 {
    type Dst = i32;

    ghost Value = { ⟦<i32 as Lawful<L>>⟧.Value };

    ghost model = { ⟦<i32 as Lawful<L>>⟧.model };

    ghost is_valid = { ⟦<i32 as Lawful<L>>⟧.is_valid };

    ghost reading = { ⟦<i32 as Lawful<L>>⟧.reading };

    ghost read_laws = { ⟦<i32 as Lawful<L>>⟧.read_laws };

    ghost equal = { int_eq };

    ghost equivalence = { int_eq_equiv };

    ghost alike = { int_alike };

    ghost order = { int_cmp };

    ghost order_total = { int_cmp_total };

    ghost order_ties = { λ x y. refl };
}

impl<L: Lending> LawfulKey<L> for i64 {
    type Dst = i64;

    ghost Value = { ⟦<i64 as Lawful<L>>⟧.Value };

    ghost model = { ⟦<i64 as Lawful<L>>⟧.model };

    ghost is_valid = { ⟦<i64 as Lawful<L>>⟧.is_valid };

    ghost reading = { ⟦<i64 as Lawful<L>>⟧.reading };

    ghost read_laws = { ⟦<i64 as Lawful<L>>⟧.read_laws };

    ghost equal = { int_eq };

    ghost equivalence = { int_eq_equiv };

    ghost alike = { int_alike };

    ghost order = { int_cmp };

    ghost order_total = { int_cmp_total };

    ghost order_ties = { λ x y. refl };
}

impl<L: Lending> LawfulKey<L> for i128 {
    type Dst = i128;

    ghost Value = { ⟦<i128 as Lawful<L>>⟧.Value };

    ghost model = { ⟦<i128 as Lawful<L>>⟧.model };

    ghost is_valid = { ⟦<i128 as Lawful<L>>⟧.is_valid };

    ghost reading = { ⟦<i128 as Lawful<L>>⟧.reading };

    ghost read_laws = { ⟦<i128 as Lawful<L>>⟧.read_laws };

    ghost equal = { int_eq };

    ghost equivalence = { int_eq_equiv };

    ghost alike = { int_alike };

    ghost order = { int_cmp };

    ghost order_total = { int_cmp_total };

    ghost order_ties = { λ x y. refl };
}

impl<L: Lending> LawfulKey<L> for isize {
    type Dst = isize;

    ghost Value = { ⟦<isize as Lawful<L>>⟧.Value };

    ghost model = { ⟦<isize as Lawful<L>>⟧.model };

    ghost is_valid = { ⟦<isize as Lawful<L>>⟧.is_valid };

    ghost reading = { ⟦<isize as Lawful<L>>⟧.reading };

    ghost read_laws = { ⟦<isize as Lawful<L>>⟧.read_laws };

    ghost equal = { int_eq };

    ghost equivalence = { int_eq_equiv };

    ghost alike = { int_alike };

    ghost order = { int_cmp };

    ghost order_total = { int_cmp_total };

    ghost order_ties = { λ x y. refl };
}

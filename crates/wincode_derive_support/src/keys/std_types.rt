//! Written by `tools/templates`: what a map or a set asks of keys that are numbers other than 0, or addresses.
ghost use Rattle.std.specs.Cmp.{on_equiv, on_total, nat_eq_equiv, nat_cmp_total, unsigned_ties, int_eq_equiv, int_cmp_total};
ghost use Rattle.std.specs.Cmp.Lexicographic.{pointwise, slice_cmp, nat_list_eq_equiv, nat_list_cmp_total, texts_ties};
ghost use Rattle.std.specs.Int.NonZero.{
  non_zero_u8_get,
  non_zero_u16_get,
  non_zero_u32_get,
  non_zero_u64_get,
  non_zero_u128_get,
  non_zero_usize_get,
  non_zero_i8_get,
  non_zero_i16_get,
  non_zero_i32_get,
  non_zero_i64_get,
  non_zero_i128_get,
  non_zero_isize_get,
};
ghost use Rattle.std.specs.Net.Addr.{ipv4_octets, ipv6_segments};
ghost use Rattle.std.specs.Ordering.{nat_cmp, int_cmp, int_eq};
ghost use Rattle.std.specs.Prelude.{nat_eq, refl};
ghost use Rattle.wincode_base.specs.AddressLaws.{segments_alike};
ghost use Rattle.wincode_base.specs.KeyLaws.{nat_alike, int_alike, items_alike};

use crate::keys::LawfulKey;
use crate::laws::Lawful;
use std::net::{Ipv4Addr, Ipv6Addr};
use std::num::{
    NonZeroI8, NonZeroI16, NonZeroI32, NonZeroI64, NonZeroI128, NonZeroIsize, NonZeroU8,
    NonZeroU16, NonZeroU32, NonZeroU64, NonZeroU128, NonZeroUsize,
};
use wincode::io::Lending;

impl<L: Lending> LawfulKey<L> for NonZeroU8 {
    type Dst = NonZeroU8;

    ghost Value = { ⟦<NonZeroU8 as Lawful<L>>⟧.Value };

    ghost model = { ⟦<NonZeroU8 as Lawful<L>>⟧.model };

    ghost is_valid = { ⟦<NonZeroU8 as Lawful<L>>⟧.is_valid };

    ghost reading = { ⟦<NonZeroU8 as Lawful<L>>⟧.reading };

    ghost read_laws = { ⟦<NonZeroU8 as Lawful<L>>⟧.read_laws };

    ghost equal = { λ x y. nat_eq (non_zero_u8_get x) (non_zero_u8_get y) };

    ghost equivalence = { on_equiv non_zero_u8_get nat_eq_equiv };

    ghost alike = { λ x y. nat_alike (non_zero_u8_get x) (non_zero_u8_get y) };

    ghost order = { λ x y. nat_cmp (non_zero_u8_get x) (non_zero_u8_get y) };

    ghost order_total = { on_total non_zero_u8_get nat_cmp_total };

    ghost order_ties = { λ x y. unsigned_ties (non_zero_u8_get x) (non_zero_u8_get y) };
}

impl<L: Lending> LawfulKey<L> for NonZeroU16 {
    type Dst = NonZeroU16;

    ghost Value = { ⟦<NonZeroU16 as Lawful<L>>⟧.Value };

    ghost model = { ⟦<NonZeroU16 as Lawful<L>>⟧.model };

    ghost is_valid = { ⟦<NonZeroU16 as Lawful<L>>⟧.is_valid };

    ghost reading = { ⟦<NonZeroU16 as Lawful<L>>⟧.reading };

    ghost read_laws = { ⟦<NonZeroU16 as Lawful<L>>⟧.read_laws };

    ghost equal = { λ x y. nat_eq (non_zero_u16_get x) (non_zero_u16_get y) };

    ghost equivalence = { on_equiv non_zero_u16_get nat_eq_equiv };

    ghost alike = { λ x y. nat_alike (non_zero_u16_get x) (non_zero_u16_get y) };

    ghost order = { λ x y. nat_cmp (non_zero_u16_get x) (non_zero_u16_get y) };

    ghost order_total = { on_total non_zero_u16_get nat_cmp_total };

    ghost order_ties = { λ x y. unsigned_ties (non_zero_u16_get x) (non_zero_u16_get y) };
}

impl<L: Lending> LawfulKey<L> for NonZeroU32 {
    type Dst = NonZeroU32;

    ghost Value = { ⟦<NonZeroU32 as Lawful<L>>⟧.Value };

    ghost model = { ⟦<NonZeroU32 as Lawful<L>>⟧.model };

    ghost is_valid = { ⟦<NonZeroU32 as Lawful<L>>⟧.is_valid };

    ghost reading = { ⟦<NonZeroU32 as Lawful<L>>⟧.reading };

    ghost read_laws = { ⟦<NonZeroU32 as Lawful<L>>⟧.read_laws };

    ghost equal = { λ x y. nat_eq (non_zero_u32_get x) (non_zero_u32_get y) };

    ghost equivalence = { on_equiv non_zero_u32_get nat_eq_equiv };

    ghost alike = { λ x y. nat_alike (non_zero_u32_get x) (non_zero_u32_get y) };

    ghost order = { λ x y. nat_cmp (non_zero_u32_get x) (non_zero_u32_get y) };

    ghost order_total = { on_total non_zero_u32_get nat_cmp_total };

    ghost order_ties = { λ x y. unsigned_ties (non_zero_u32_get x) (non_zero_u32_get y) };
}

impl<L: Lending> LawfulKey<L> for NonZeroU64 {
    type Dst = NonZeroU64;

    ghost Value = { ⟦<NonZeroU64 as Lawful<L>>⟧.Value };

    ghost model = { ⟦<NonZeroU64 as Lawful<L>>⟧.model };

    ghost is_valid = { ⟦<NonZeroU64 as Lawful<L>>⟧.is_valid };

    ghost reading = { ⟦<NonZeroU64 as Lawful<L>>⟧.reading };

    ghost read_laws = { ⟦<NonZeroU64 as Lawful<L>>⟧.read_laws };

    ghost equal = { λ x y. nat_eq (non_zero_u64_get x) (non_zero_u64_get y) };

    ghost equivalence = { on_equiv non_zero_u64_get nat_eq_equiv };

    ghost alike = { λ x y. nat_alike (non_zero_u64_get x) (non_zero_u64_get y) };

    ghost order = { λ x y. nat_cmp (non_zero_u64_get x) (non_zero_u64_get y) };

    ghost order_total = { on_total non_zero_u64_get nat_cmp_total };

    ghost order_ties = { λ x y. unsigned_ties (non_zero_u64_get x) (non_zero_u64_get y) };
}

impl<L: Lending> LawfulKey<L> for NonZeroU128 {
    type Dst = NonZeroU128;

    ghost Value = { ⟦<NonZeroU128 as Lawful<L>>⟧.Value };

    ghost model = { ⟦<NonZeroU128 as Lawful<L>>⟧.model };

    ghost is_valid = { ⟦<NonZeroU128 as Lawful<L>>⟧.is_valid };

    ghost reading = { ⟦<NonZeroU128 as Lawful<L>>⟧.reading };

    ghost read_laws = { ⟦<NonZeroU128 as Lawful<L>>⟧.read_laws };

    ghost equal = { λ x y. nat_eq (non_zero_u128_get x) (non_zero_u128_get y) };

    ghost equivalence = { on_equiv non_zero_u128_get nat_eq_equiv };

    ghost alike = { λ x y. nat_alike (non_zero_u128_get x) (non_zero_u128_get y) };

    ghost order = { λ x y. nat_cmp (non_zero_u128_get x) (non_zero_u128_get y) };

    ghost order_total = { on_total non_zero_u128_get nat_cmp_total };

    ghost order_ties = { λ x y. unsigned_ties (non_zero_u128_get x) (non_zero_u128_get y) };
}

impl<L: Lending> LawfulKey<L> for NonZeroUsize {
    type Dst = NonZeroUsize;

    ghost Value = { ⟦<NonZeroUsize as Lawful<L>>⟧.Value };

    ghost model = { ⟦<NonZeroUsize as Lawful<L>>⟧.model };

    ghost is_valid = { ⟦<NonZeroUsize as Lawful<L>>⟧.is_valid };

    ghost reading = { ⟦<NonZeroUsize as Lawful<L>>⟧.reading };

    ghost read_laws = { ⟦<NonZeroUsize as Lawful<L>>⟧.read_laws };

    ghost equal = { λ x y. nat_eq (non_zero_usize_get x) (non_zero_usize_get y) };

    ghost equivalence = { on_equiv non_zero_usize_get nat_eq_equiv };

    ghost alike = { λ x y. nat_alike (non_zero_usize_get x) (non_zero_usize_get y) };

    ghost order = { λ x y. nat_cmp (non_zero_usize_get x) (non_zero_usize_get y) };

    ghost order_total = { on_total non_zero_usize_get nat_cmp_total };

    ghost order_ties = { λ x y. unsigned_ties (non_zero_usize_get x) (non_zero_usize_get y) };
}

impl<L: Lending> LawfulKey<L> for NonZeroI8 {
    type Dst = NonZeroI8;

    ghost Value = { ⟦<NonZeroI8 as Lawful<L>>⟧.Value };

    ghost model = { ⟦<NonZeroI8 as Lawful<L>>⟧.model };

    ghost is_valid = { ⟦<NonZeroI8 as Lawful<L>>⟧.is_valid };

    ghost reading = { ⟦<NonZeroI8 as Lawful<L>>⟧.reading };

    ghost read_laws = { ⟦<NonZeroI8 as Lawful<L>>⟧.read_laws };

    ghost equal = { λ x y. int_eq (non_zero_i8_get x) (non_zero_i8_get y) };

    ghost equivalence = { on_equiv non_zero_i8_get int_eq_equiv };

    ghost alike = { λ x y. int_alike (non_zero_i8_get x) (non_zero_i8_get y) };

    ghost order = { λ x y. int_cmp (non_zero_i8_get x) (non_zero_i8_get y) };

    ghost order_total = { on_total non_zero_i8_get int_cmp_total };

    ghost order_ties = { λ x y. refl };
}

impl<L: Lending> LawfulKey<L> for NonZeroI16 {
    type Dst = NonZeroI16;

    ghost Value = { ⟦<NonZeroI16 as Lawful<L>>⟧.Value };

    ghost model = { ⟦<NonZeroI16 as Lawful<L>>⟧.model };

    ghost is_valid = { ⟦<NonZeroI16 as Lawful<L>>⟧.is_valid };

    ghost reading = { ⟦<NonZeroI16 as Lawful<L>>⟧.reading };

    ghost read_laws = { ⟦<NonZeroI16 as Lawful<L>>⟧.read_laws };

    ghost equal = { λ x y. int_eq (non_zero_i16_get x) (non_zero_i16_get y) };

    ghost equivalence = { on_equiv non_zero_i16_get int_eq_equiv };

    ghost alike = { λ x y. int_alike (non_zero_i16_get x) (non_zero_i16_get y) };

    ghost order = { λ x y. int_cmp (non_zero_i16_get x) (non_zero_i16_get y) };

    ghost order_total = { on_total non_zero_i16_get int_cmp_total };

    ghost order_ties = { λ x y. refl };
}

impl<L: Lending> LawfulKey<L> for NonZeroI32 {
    type Dst = NonZeroI32;

    ghost Value = { ⟦<NonZeroI32 as Lawful<L>>⟧.Value };

    ghost model = { ⟦<NonZeroI32 as Lawful<L>>⟧.model };

    ghost is_valid = { ⟦<NonZeroI32 as Lawful<L>>⟧.is_valid };

    ghost reading = { ⟦<NonZeroI32 as Lawful<L>>⟧.reading };

    ghost read_laws = { ⟦<NonZeroI32 as Lawful<L>>⟧.read_laws };

    ghost equal = { λ x y. int_eq (non_zero_i32_get x) (non_zero_i32_get y) };

    ghost equivalence = { on_equiv non_zero_i32_get int_eq_equiv };

    ghost alike = { λ x y. int_alike (non_zero_i32_get x) (non_zero_i32_get y) };

    ghost order = { λ x y. int_cmp (non_zero_i32_get x) (non_zero_i32_get y) };

    ghost order_total = { on_total non_zero_i32_get int_cmp_total };

    ghost order_ties = { λ x y. refl };
}

impl<L: Lending> LawfulKey<L> for NonZeroI64 {
    type Dst = NonZeroI64;

    ghost Value = { ⟦<NonZeroI64 as Lawful<L>>⟧.Value };

    ghost model = { ⟦<NonZeroI64 as Lawful<L>>⟧.model };

    ghost is_valid = { ⟦<NonZeroI64 as Lawful<L>>⟧.is_valid };

    ghost reading = { ⟦<NonZeroI64 as Lawful<L>>⟧.reading };

    ghost read_laws = { ⟦<NonZeroI64 as Lawful<L>>⟧.read_laws };

    ghost equal = { λ x y. int_eq (non_zero_i64_get x) (non_zero_i64_get y) };

    ghost equivalence = { on_equiv non_zero_i64_get int_eq_equiv };

    ghost alike = { λ x y. int_alike (non_zero_i64_get x) (non_zero_i64_get y) };

    ghost order = { λ x y. int_cmp (non_zero_i64_get x) (non_zero_i64_get y) };

    ghost order_total = { on_total non_zero_i64_get int_cmp_total };

    ghost order_ties = { λ x y. refl };
}

impl<L: Lending> LawfulKey<L> for NonZeroI128 {
    type Dst = NonZeroI128;

    ghost Value = { ⟦<NonZeroI128 as Lawful<L>>⟧.Value };

    ghost model = { ⟦<NonZeroI128 as Lawful<L>>⟧.model };

    ghost is_valid = { ⟦<NonZeroI128 as Lawful<L>>⟧.is_valid };

    ghost reading = { ⟦<NonZeroI128 as Lawful<L>>⟧.reading };

    ghost read_laws = { ⟦<NonZeroI128 as Lawful<L>>⟧.read_laws };

    ghost equal = { λ x y. int_eq (non_zero_i128_get x) (non_zero_i128_get y) };

    ghost equivalence = { on_equiv non_zero_i128_get int_eq_equiv };

    ghost alike = { λ x y. int_alike (non_zero_i128_get x) (non_zero_i128_get y) };

    ghost order = { λ x y. int_cmp (non_zero_i128_get x) (non_zero_i128_get y) };

    ghost order_total = { on_total non_zero_i128_get int_cmp_total };

    ghost order_ties = { λ x y. refl };
}

impl<L: Lending> LawfulKey<L> for NonZeroIsize {
    type Dst = NonZeroIsize;

    ghost Value = { ⟦<NonZeroIsize as Lawful<L>>⟧.Value };

    ghost model = { ⟦<NonZeroIsize as Lawful<L>>⟧.model };

    ghost is_valid = { ⟦<NonZeroIsize as Lawful<L>>⟧.is_valid };

    ghost reading = { ⟦<NonZeroIsize as Lawful<L>>⟧.reading };

    ghost read_laws = { ⟦<NonZeroIsize as Lawful<L>>⟧.read_laws };

    ghost equal = { λ x y. int_eq (non_zero_isize_get x) (non_zero_isize_get y) };

    ghost equivalence = { on_equiv non_zero_isize_get int_eq_equiv };

    ghost alike = { λ x y. int_alike (non_zero_isize_get x) (non_zero_isize_get y) };

    ghost order = { λ x y. int_cmp (non_zero_isize_get x) (non_zero_isize_get y) };

    ghost order_total = { on_total non_zero_isize_get int_cmp_total };

    ghost order_ties = { λ x y. refl };
}

impl<L: Lending> LawfulKey<L> for Ipv4Addr {
    type Dst = Ipv4Addr;

    ghost Value = { ⟦<Ipv4Addr as Lawful<L>>⟧.Value };

    ghost model = { ⟦<Ipv4Addr as Lawful<L>>⟧.model };

    ghost is_valid = { ⟦<Ipv4Addr as Lawful<L>>⟧.is_valid };

    ghost reading = { ⟦<Ipv4Addr as Lawful<L>>⟧.reading };

    ghost read_laws = { ⟦<Ipv4Addr as Lawful<L>>⟧.read_laws };

    ghost equal = { λ x y. pointwise nat_eq (ipv4_octets x) (ipv4_octets y) };

    ghost equivalence = { on_equiv ipv4_octets nat_list_eq_equiv };

    ghost alike = { λ x y. items_alike nat_alike (ipv4_octets x) (ipv4_octets y) };

    ghost order = { λ x y. slice_cmp nat_cmp (ipv4_octets x) (ipv4_octets y) };

    ghost order_total = { on_total ipv4_octets nat_list_cmp_total };

    ghost order_ties = { λ x y. texts_ties (ipv4_octets x) (ipv4_octets y) };
}

impl<L: Lending> LawfulKey<L> for Ipv6Addr {
    type Dst = Ipv6Addr;

    ghost Value = { ⟦<Ipv6Addr as Lawful<L>>⟧.Value };

    ghost model = { ⟦<Ipv6Addr as Lawful<L>>⟧.model };

    ghost is_valid = { ⟦<Ipv6Addr as Lawful<L>>⟧.is_valid };

    ghost reading = { ⟦<Ipv6Addr as Lawful<L>>⟧.reading };

    ghost read_laws = { ⟦<Ipv6Addr as Lawful<L>>⟧.read_laws };

    ghost equal = { λ x y. pointwise nat_eq (ipv6_segments x) (ipv6_segments y) };

    ghost equivalence = { on_equiv ipv6_segments nat_list_eq_equiv };

    ghost alike = { λ x y. segments_alike (ipv6_segments x) (ipv6_segments y) };

    ghost order = { λ x y. slice_cmp nat_cmp (ipv6_segments x) (ipv6_segments y) };

    ghost order_total = { on_total ipv6_segments nat_list_cmp_total };

    ghost order_ties = { λ x y. texts_ties (ipv6_segments x) (ipv6_segments y) };
}

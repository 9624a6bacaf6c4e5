//! Written by `tools/templates`: keys of maps and items of heaps that are numbers other than 0, addresses, or what is as the value that it holds.
ghost use Rattle.std.specs.Int.NonZero.{
  non_zero_u8_get,
  non_zero_u16_get,
  non_zero_u32_get,
  non_zero_u64_get,
  non_zero_u128_get,
  non_zero_usize_get,
  non_zero_i8_get,
  non_zero_i16_get,
  non_zero_i32_get,
  non_zero_i64_get,
  non_zero_i128_get,
  non_zero_isize_get,
};
ghost use Rattle.std.specs.Net.Addr.{ipv4_octets, ipv6_segments};
ghost use Rattle.wincode_base.specs.AddressLaws.{segments_alike};
ghost use Rattle.wincode_base.specs.KeyLaws.{int_alike, int_decidable, items_alike, items_decidable, nat_alike, nat_decidable, pair_alike, pair_decidable};
ghost use Rattle.wincode_base.specs.Made.{socket_v4_parts};

use crate::keys::{Key, Told};
use std::cmp::Reverse;
use std::net::{Ipv4Addr, Ipv6Addr, SocketAddrV4};
use std::num::{
    NonZeroI8, NonZeroI16, NonZeroI32, NonZeroI64, NonZeroI128, NonZeroIsize, NonZeroU8,
    NonZeroU16, NonZeroU32, NonZeroU64, NonZeroU128, NonZeroUsize, Saturating, Wrapping,
};
use wincode_io::Lending;

impl<L: Lending> Key<L> for NonZeroU8 {
    ghost alike = { λ x y. nat_alike (non_zero_u8_get x) (non_zero_u8_get y) };
}

impl<L: Lending> Told<L> for NonZeroU8 {
    ghost told = { nat_decidable };
}

impl<L: Lending> Key<L> for NonZeroU16 {
    ghost alike = { λ x y. nat_alike (non_zero_u16_get x) (non_zero_u16_get y) };
}

impl<L: Lending> Told<L> for NonZeroU16 {
    ghost told = { nat_decidable };
}

impl<L: Lending> Key<L> for NonZeroU32 {
    ghost alike = { λ x y. nat_alike (non_zero_u32_get x) (non_zero_u32_get y) };
}

impl<L: Lending> Told<L> for NonZeroU32 {
    ghost told = { nat_decidable };
}

impl<L: Lending> Key<L> for NonZeroU64 {
    ghost alike = { λ x y. nat_alike (non_zero_u64_get x) (non_zero_u64_get y) };
}

impl<L: Lending> Told<L> for NonZeroU64 {
    ghost told = { nat_decidable };
}

impl<L: Lending> Key<L> for NonZeroU128 {
    ghost alike = { λ x y. nat_alike (non_zero_u128_get x) (non_zero_u128_get y) };
}

impl<L: Lending> Told<L> for NonZeroU128 {
    ghost told = { nat_decidable };
}

impl<L: Lending> Key<L> for NonZeroUsize {
    ghost alike = { λ x y. nat_alike (non_zero_usize_get x) (non_zero_usize_get y) };
}

impl<L: Lending> Told<L> for NonZeroUsize {
    ghost told = { nat_decidable };
}

impl<L: Lending> Key<L> for NonZeroI8 {
    ghost alike = { λ x y. int_alike (non_zero_i8_get x) (non_zero_i8_get y) };
}

impl<L: Lending> Told<L> for NonZeroI8 {
    ghost told = { int_decidable };
}

impl<L: Lending> Key<L> for NonZeroI16 {
    ghost alike = { λ x y. int_alike (non_zero_i16_get x) (non_zero_i16_get y) };
}

impl<L: Lending> Told<L> for NonZeroI16 {
    ghost told = { int_decidable };
}

impl<L: Lending> Key<L> for NonZeroI32 {
    ghost alike = { λ x y. int_alike (non_zero_i32_get x) (non_zero_i32_get y) };
}

impl<L: Lending> Told<L> for NonZeroI32 {
    ghost told = { int_decidable };
}

impl<L: Lending> Key<L> for NonZeroI64 {
    ghost alike = { λ x y. int_alike (non_zero_i64_get x) (non_zero_i64_get y) };
}

impl<L: Lending> Told<L> for NonZeroI64 {
    ghost told = { int_decidable };
}

impl<L: Lending> Key<L> for NonZeroI128 {
    ghost alike = { λ x y. int_alike (non_zero_i128_get x) (non_zero_i128_get y) };
}

impl<L: Lending> Told<L> for NonZeroI128 {
    ghost told = { int_decidable };
}

impl<L: Lending> Key<L> for NonZeroIsize {
    ghost alike = { λ x y. int_alike (non_zero_isize_get x) (non_zero_isize_get y) };
}

impl<L: Lending> Told<L> for NonZeroIsize {
    ghost told = { int_decidable };
}

impl<L: Lending> Key<L> for Ipv4Addr {
    ghost alike = { λ x y. items_alike nat_alike (ipv4_octets x) (ipv4_octets y) };
}

impl<L: Lending> Told<L> for Ipv4Addr {
    ghost told = { items_decidable nat_decidable };
}

impl<L: Lending> Key<L> for Ipv6Addr {
    ghost alike = { λ x y. segments_alike (ipv6_segments x) (ipv6_segments y) };
}

impl<L: Lending> Told<L> for Ipv6Addr {
    ghost told = { items_decidable nat_decidable };
}

impl<L: Lending> Key<L> for SocketAddrV4 {
    ghost alike = { λ x y. pair_alike (items_alike nat_alike) nat_alike (socket_v4_parts x) (socket_v4_parts y) };
}

impl<L: Lending> Told<L> for SocketAddrV4 {
    ghost told = { pair_decidable (items_decidable nat_decidable) nat_decidable };
}

impl<L: Lending, T: Key<L>> Key<L> for Wrapping<T>
where
    T::Dst: Eq,
{
    ghost alike = { λ x y. T.alike x.0 y.0 };
}

impl<L: Lending, T: Told<L>> Told<L> for Wrapping<T> {
    ghost told = { T.told };
}

impl<L: Lending, T: Key<L>> Key<L> for Saturating<T>
where
    T::Dst: Eq,
{
    ghost alike = { λ x y. T.alike x.0 y.0 };
}

impl<L: Lending, T: Told<L>> Told<L> for Saturating<T> {
    ghost told = { T.told };
}

impl<L: Lending, T: Key<L>> Key<L> for Reverse<T>
where
    T::Dst: Eq,
{
    ghost alike = { λ x y. T.alike x.0 y.0 };
}

impl<L: Lending, T: Told<L>> Told<L> for Reverse<T> {
    ghost told = { T.told };
}

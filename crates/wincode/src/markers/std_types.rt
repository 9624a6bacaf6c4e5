//! Written by `tools/templates`: what numbers other than 0, floats, times, addresses and what is as what it holds keep beyond reading and writing.
ghost use Rattle.std.specs.Int.{w8, w16, w32, w64, w128};
ghost use Rattle.std.specs.Int.NonZero.{
  non_zero_u8_get,
  non_zero_u16_get,
  non_zero_u32_get,
  non_zero_u64_get,
  non_zero_u128_get,
  non_zero_usize_get,
  non_zero_i8_get,
  non_zero_i16_get,
  non_zero_i32_get,
  non_zero_i64_get,
  non_zero_i128_get,
  non_zero_isize_get,
};
ghost use Rattle.std.specs.Net.Addr.{ipv4_octets, ipv6_octets};
ghost use Rattle.std.specs.Prelude.{[], ◌<◌, ◌^◌, false, pos, refl, to_bits, true};
ghost use Rattle.std.specs.Range.{range_inclusive_end, range_inclusive_start};
ghost use Rattle.wincode_base.specs.ArrayLaws.{array_reads_back};
ghost use Rattle.wincode_base.specs.LeafLaws.{number_reads_back, signed_reads_back};
ghost use Rattle.wincode_base.specs.Leaves.{number_read, number_write};
ghost use Rattle.wincode_base.specs.Made.{
  AreBits,
  AreTime,
  IsNot,
  IsSame,
  clock_parts,
  duration_parts,
  ip_parts,
  is_overflow,
  is_zero,
  socket_parts,
  socket_v4_parts,
  socket_v6_parts,
  socket_v6_written,
};
ghost use Rattle.wincode_base.specs.MadeLaws.{made_reads_back, same_reads_back};
ghost use Rattle.wincode_base.specs.SocketLaws.{unscoped_reads_back};
ghost use Rattle.wincode_base.specs.PairLaws.{pair_reads_back, reads_back_by, windowed_reads_back};
ghost use Rattle.wincode_base.specs.TagLaws.{result_reads_back};
ghost use Rattle.wincode.specs.OneTextLaws.{
  array_one_text,
  both_owned,
  made_one_text,
  number_one_text,
  numbers_apart,
  pair_one_text,
  result_one_text,
  same_apart,
  signed_one_text,
  windowed_one_text,
};
ghost use lib.Ieee.{binary32, binary64};

use crate::io::Lending;
use crate::markers::{OneText, RoundTrip, SchemaReadOwned};
use crate::schema::{SchemaRead, SchemaWrite};
use std::cmp::Reverse;
use std::net::{IpAddr, Ipv4Addr, Ipv6Addr, SocketAddr, SocketAddrV4, SocketAddrV6};
use std::num::{
    NonZeroI8, NonZeroI16, NonZeroI32, NonZeroI64, NonZeroI128, NonZeroIsize, NonZeroU8,
    NonZeroU16, NonZeroU32, NonZeroU64, NonZeroU128, NonZeroUsize, Saturating, Wrapping,
};
use std::ops::{Range, RangeFrom, RangeInclusive, RangeTo};
use std::time::{Duration, SystemTime};

impl<L: Lending> OneText<L> for NonZeroU8 {
    ghost one_text = { made_one_text ⟦<u8 as SchemaRead<L>>⟧.model (IsNot 0) is_zero (numbers_apart
        ⟦<u8 as SchemaRead<L>>⟧.model 0) (number_one_text 1 true) };
}

impl<L: Lending> SchemaReadOwned<L> for NonZeroU8 {
    ghost owned = { refl };
}

impl<L: Lending> RoundTrip<L> for NonZeroU8 {
    ghost reads_back = { made_reads_back
        ⟦<u8 as SchemaRead<L>>⟧.model (IsNot 0) is_zero non_zero_u8_get (λ b p q r m. tt) (number_reads_back 1 true) };
}

impl<L: Lending> OneText<L> for NonZeroU16 {
    ghost one_text = { made_one_text ⟦<u16 as SchemaRead<L>>⟧.model (IsNot 0) is_zero (numbers_apart
        ⟦<u16 as SchemaRead<L>>⟧.model 0) (number_one_text 2 true) };
}

impl<L: Lending> SchemaReadOwned<L> for NonZeroU16 {
    ghost owned = { refl };
}

impl<L: Lending> RoundTrip<L> for NonZeroU16 {
    ghost reads_back = { made_reads_back
        ⟦<u16 as SchemaRead<L>>⟧.model (IsNot 0) is_zero non_zero_u16_get (λ b p q r m. tt) (number_reads_back 2 true) };
}

impl<L: Lending> OneText<L> for NonZeroU32 {
    ghost one_text = { made_one_text ⟦<u32 as SchemaRead<L>>⟧.model (IsNot 0) is_zero (numbers_apart
        ⟦<u32 as SchemaRead<L>>⟧.model 0) (number_one_text 4 true) };
}

impl<L: Lending> SchemaReadOwned<L> for NonZeroU32 {
    ghost owned = { refl };
}

impl<L: Lending> RoundTrip<L> for NonZeroU32 {
    ghost reads_back = { made_reads_back
        ⟦<u32 as SchemaRead<L>>⟧.model (IsNot 0) is_zero non_zero_u32_get (λ b p q r m. tt) (number_reads_back 4 true) };
}

impl<L: Lending> OneText<L> for NonZeroU64 {
    ghost one_text = { made_one_text ⟦<u64 as SchemaRead<L>>⟧.model (IsNot 0) is_zero (numbers_apart
        ⟦<u64 as SchemaRead<L>>⟧.model 0) (number_one_text 8 true) };
}

impl<L: Lending> SchemaReadOwned<L> for NonZeroU64 {
    ghost owned = { refl };
}

impl<L: Lending> RoundTrip<L> for NonZeroU64 {
    ghost reads_back = { made_reads_back
        ⟦<u64 as SchemaRead<L>>⟧.model (IsNot 0) is_zero non_zero_u64_get (λ b p q r m. tt) (number_reads_back 8 true) };
}

impl<L: Lending> OneText<L> for NonZeroU128 {
    ghost one_text = { made_one_text ⟦<u128 as SchemaRead<L>>⟧.model (IsNot 0) is_zero (numbers_apart
        ⟦<u128 as SchemaRead<L>>⟧.model 0) (number_one_text 16 true) };
}

impl<L: Lending> SchemaReadOwned<L> for NonZeroU128 {
    ghost owned = { refl };
}

impl<L: Lending> RoundTrip<L> for NonZeroU128 {
    ghost reads_back = { made_reads_back
        ⟦<u128 as SchemaRead<L>>⟧.model (IsNot 0) is_zero non_zero_u128_get (λ b p q r m. tt) (number_reads_back 16 true) };
}

impl<L: Lending> OneText<L> for NonZeroUsize {
    ghost one_text = { made_one_text ⟦<usize as SchemaRead<L>>⟧.model (IsNot 0) is_zero (numbers_apart
        ⟦<usize as SchemaRead<L>>⟧.model 0) (number_one_text 8 false) };
}

impl<L: Lending> SchemaReadOwned<L> for NonZeroUsize {
    ghost owned = { refl };
}

impl<L: Lending> RoundTrip<L> for NonZeroUsize {
    ghost reads_back = { made_reads_back
        ⟦<usize as SchemaRead<L>>⟧.model (IsNot 0) is_zero non_zero_usize_get (λ b p q r m. tt) (number_reads_back 8 false) };
}

impl<L: Lending> OneText<L> for NonZeroI8 {
    ghost one_text = { made_one_text ⟦<i8 as SchemaRead<L>>⟧.model (IsNot (pos 0)) is_zero (numbers_apart
        ⟦<i8 as SchemaRead<L>>⟧.model (pos 0)) (signed_one_text w8 true) };
}

impl<L: Lending> SchemaReadOwned<L> for NonZeroI8 {
    ghost owned = { refl };
}

impl<L: Lending> RoundTrip<L> for NonZeroI8 {
    ghost reads_back = { made_reads_back ⟦<i8 as SchemaRead<L>>⟧.model (IsNot (pos 0)) is_zero
        non_zero_i8_get (λ b p q r m. tt) (signed_reads_back w8 true) };
}

impl<L: Lending> OneText<L> for NonZeroI16 {
    ghost one_text = { made_one_text ⟦<i16 as SchemaRead<L>>⟧.model (IsNot (pos 0)) is_zero (numbers_apart
        ⟦<i16 as SchemaRead<L>>⟧.model (pos 0)) (signed_one_text w16 true) };
}

impl<L: Lending> SchemaReadOwned<L> for NonZeroI16 {
    ghost owned = { refl };
}

impl<L: Lending> RoundTrip<L> for NonZeroI16 {
    ghost reads_back = { made_reads_back
        ⟦<i16 as SchemaRead<L>>⟧.model (IsNot (pos 0)) is_zero non_zero_i16_get (λ b p q r m. tt) (signed_reads_back w16 true) };
}

impl<L: Lending> OneText<L> for NonZeroI32 {
    ghost one_text = { made_one_text ⟦<i32 as SchemaRead<L>>⟧.model (IsNot (pos 0)) is_zero (numbers_apart
        ⟦<i32 as SchemaRead<L>>⟧.model (pos 0)) (signed_one_text w32 true) };
}

impl<L: Lending> SchemaReadOwned<L> for NonZeroI32 {
    ghost owned = { refl };
}

impl<L: Lending> RoundTrip<L> for NonZeroI32 {
    ghost reads_back = { made_reads_back
        ⟦<i32 as SchemaRead<L>>⟧.model (IsNot (pos 0)) is_zero non_zero_i32_get (λ b p q r m. tt) (signed_reads_back w32 true) };
}

impl<L: Lending> OneText<L> for NonZeroI64 {
    ghost one_text = { made_one_text ⟦<i64 as SchemaRead<L>>⟧.model (IsNot (pos 0)) is_zero (numbers_apart
        ⟦<i64 as SchemaRead<L>>⟧.model (pos 0)) (signed_one_text w64 true) };
}

impl<L: Lending> SchemaReadOwned<L> for NonZeroI64 {
    ghost owned = { refl };
}

impl<L: Lending> RoundTrip<L> for NonZeroI64 {
    ghost reads_back = { made_reads_back
        ⟦<i64 as SchemaRead<L>>⟧.model (IsNot (pos 0)) is_zero non_zero_i64_get (λ b p q r m. tt) (signed_reads_back w64 true) };
}

impl<L: Lending> OneText<L> for NonZeroI128 {
    ghost one_text = { made_one_text ⟦<i128 as SchemaRead<L>>⟧.model (IsNot (pos 0)) is_zero (numbers_apart
        ⟦<i128 as SchemaRead<L>>⟧.model (pos 0)) (signed_one_text w128 true) };
}

impl<L: Lending> SchemaReadOwned<L> for NonZeroI128 {
    ghost owned = { refl };
}

impl<L: Lending> RoundTrip<L> for NonZeroI128 {
    ghost reads_back = { made_reads_back
        ⟦<i128 as SchemaRead<L>>⟧.model (IsNot (pos 0)) is_zero non_zero_i128_get (λ b p q r m. tt) (signed_reads_back w128 true) };
}

impl<L: Lending> OneText<L> for NonZeroIsize {
    ghost one_text = { made_one_text ⟦<isize as SchemaRead<L>>⟧.model (IsNot (pos 0)) is_zero (numbers_apart
        ⟦<isize as SchemaRead<L>>⟧.model (pos 0)) (signed_one_text w64 false) };
}

impl<L: Lending> SchemaReadOwned<L> for NonZeroIsize {
    ghost owned = { refl };
}

impl<L: Lending> RoundTrip<L> for NonZeroIsize {
    ghost reads_back = { made_reads_back
        ⟦<isize as SchemaRead<L>>⟧.model (IsNot (pos 0)) is_zero non_zero_isize_get (λ b p q r m. tt) (signed_reads_back w64 false) };
}

impl<L: Lending> SchemaReadOwned<L> for f32 {
    ghost owned = { refl };
}

impl<L: Lending> RoundTrip<L> for f32 {
    ghost reads_back = { made_reads_back
        ⟦<u32 as SchemaRead<L>>⟧.model (AreBits binary32) [] (to_bits binary32) (λ b p q r m. tt) (number_reads_back 4 true) };
}

impl<L: Lending> SchemaReadOwned<L> for f64 {
    ghost owned = { refl };
}

impl<L: Lending> RoundTrip<L> for f64 {
    ghost reads_back = { made_reads_back
        ⟦<u64 as SchemaRead<L>>⟧.model (AreBits binary64) [] (to_bits binary64) (λ b p q r m. tt) (number_reads_back 8 true) };
}

impl<L: Lending> SchemaReadOwned<L> for Duration {
    ghost owned = { refl };
}

impl<L: Lending> RoundTrip<L> for Duration {
    ghost reads_back = { made_reads_back ⟦<(u64, u32) as SchemaRead<L>>⟧.model (AreTime (2 ^ 64)) is_overflow duration_parts (λ b p q r m. (tt, tt))
        (reads_back_by (λ t. (t.0, t.1)) (windowed_reads_back (pair_reads_back (number_reads_back 8 true) (number_reads_back 4 true)))) };
}

impl<L: Lending> SchemaReadOwned<L> for SystemTime {
    ghost owned = { refl };
}

impl<L: Lending> RoundTrip<L> for SystemTime {
    ghost reads_back = { made_reads_back ⟦<(u64, u32) as SchemaRead<L>>⟧.model (AreTime (2 ^ 63)) is_overflow clock_parts (λ b p q r m. (tt, tt))
        (reads_back_by (λ t. (t.0, t.1)) (windowed_reads_back (pair_reads_back (number_reads_back 8 true) (number_reads_back 4 true)))) };
}

impl<L: Lending> OneText<L> for Ipv4Addr {
    ghost one_text = { made_one_text ⟦<[u8; 4] as SchemaRead<L>>⟧.model IsSame [] (same_apart ⟦<[u8; 4] as SchemaRead<L>>⟧.model) (windowed_one_text
        (array_one_text 4 (number_one_text 1 true))) };
}

impl<L: Lending> SchemaReadOwned<L> for Ipv4Addr {
    ghost owned = { refl };
}

impl<L: Lending> RoundTrip<L> for Ipv4Addr {
    ghost reads_back = { same_reads_back ⟦<[u8; 4] as SchemaRead<L>>⟧.model [] ipv4_octets (windowed_reads_back
        (array_reads_back 4 (λ v. v < 256 ^ 1) (λ v. v) (number_write 1 true) (λ v. v) (number_read 1 true) (number_reads_back 1 true))) };
}

impl<L: Lending> OneText<L> for Ipv6Addr {
    ghost one_text = { made_one_text ⟦<[u8; 16] as SchemaRead<L>>⟧.model IsSame [] (same_apart ⟦<[u8; 16] as SchemaRead<L>>⟧.model)
        (windowed_one_text (array_one_text 16 (number_one_text 1 true))) };
}

impl<L: Lending> SchemaReadOwned<L> for Ipv6Addr {
    ghost owned = { refl };
}

impl<L: Lending> RoundTrip<L> for Ipv6Addr {
    ghost reads_back = { same_reads_back ⟦<[u8; 16] as SchemaRead<L>>⟧.model [] ipv6_octets (windowed_reads_back
        (array_reads_back 16 (λ v. v < 256 ^ 1) (λ v. v) (number_write 1 true) (λ v. v) (number_read 1 true) (number_reads_back 1 true))) };
}

impl<L: Lending> OneText<L> for IpAddr {
    ghost one_text = { made_one_text ⟦<Result<Ipv4Addr, Ipv6Addr> as SchemaRead<L>>⟧.model IsSame [] (same_apart
        ⟦<Result<Ipv4Addr, Ipv6Addr> as SchemaRead<L>>⟧.model) (result_one_text 4 (made_one_text ⟦<[u8; 4] as SchemaRead<L>>⟧.model IsSame []
        (same_apart ⟦<[u8; 4] as SchemaRead<L>>⟧.model) (windowed_one_text (array_one_text 4 (number_one_text 1 true)))) (made_one_text
        ⟦<[u8; 16] as SchemaRead<L>>⟧.model IsSame [] (same_apart ⟦<[u8; 16] as SchemaRead<L>>⟧.model) (windowed_one_text
        (array_one_text 16 (number_one_text 1 true))))) };
}

impl<L: Lending> SchemaReadOwned<L> for IpAddr {
    ghost owned = { refl };
}

impl<L: Lending> RoundTrip<L> for IpAddr {
    ghost reads_back = { same_reads_back ⟦<Result<Ipv4Addr, Ipv6Addr> as SchemaRead<L>>⟧.model [] ip_parts (result_reads_back 4
        ⟦<Ipv4Addr as SchemaWrite>⟧.is_valid ⟦<Ipv6Addr as SchemaWrite>⟧.is_valid ⟦<Ipv4Addr as SchemaWrite>⟧.model
        ⟦<Ipv4Addr as SchemaWrite>⟧.writing ⟦<Ipv4Addr as SchemaRead<L>>⟧.model ⟦<Ipv4Addr as SchemaRead<L>>⟧.reading
        ⟦<Ipv6Addr as SchemaWrite>⟧.model ⟦<Ipv6Addr as SchemaWrite>⟧.writing ⟦<Ipv6Addr as SchemaRead<L>>⟧.model
        ⟦<Ipv6Addr as SchemaRead<L>>⟧.reading (same_reads_back ⟦<[u8; 4] as SchemaRead<L>>⟧.model [] ipv4_octets (windowed_reads_back
        (array_reads_back 4 (λ v. v < 256 ^ 1) (λ v. v) (number_write 1 true) (λ v. v) (number_read 1 true) (number_reads_back 1 true))))
        (same_reads_back ⟦<[u8; 16] as SchemaRead<L>>⟧.model [] ipv6_octets (windowed_reads_back
        (array_reads_back 16 (λ v. v < 256 ^ 1) (λ v. v) (number_write 1 true) (λ v. v) (number_read 1 true) (number_reads_back 1 true))))) };
}

impl<L: Lending> OneText<L> for SocketAddrV4 {
    ghost one_text = { made_one_text ⟦<([u8; 4], u16) as SchemaRead<L>>⟧.model IsSame [] (same_apart ⟦<([u8; 4], u16) as SchemaRead<L>>⟧.model)
        (windowed_one_text (pair_one_text (windowed_one_text (array_one_text 4 (number_one_text 1 true))) (number_one_text 2 true))) };
}

impl<L: Lending> SchemaReadOwned<L> for SocketAddrV4 {
    ghost owned = { refl };
}

impl<L: Lending> RoundTrip<L> for SocketAddrV4 {
    ghost reads_back = { same_reads_back ⟦<([u8; 4], u16) as SchemaRead<L>>⟧.model [] socket_v4_parts (reads_back_by (λ t. (t.0, t.1))
        (windowed_reads_back (pair_reads_back (windowed_reads_back
        (array_reads_back 4 (λ v. v < 256 ^ 1) (λ v. v) (number_write 1 true) (λ v. v) (number_read 1 true) (number_reads_back 1 true))) (number_reads_back 2 true)))) };
}

impl<L: Lending> OneText<L> for SocketAddrV6 {
    ghost one_text = { made_one_text ⟦<([u8; 16], u16) as SchemaRead<L>>⟧.model IsSame [] (same_apart ⟦<([u8; 16], u16) as SchemaRead<L>>⟧.model)
        (windowed_one_text (pair_one_text (windowed_one_text (array_one_text 16 (number_one_text 1 true))) (number_one_text 2 true))) };
}

impl<L: Lending> SchemaReadOwned<L> for SocketAddrV6 {
    ghost owned = { refl };
}

impl<L: Lending> RoundTrip<L> for SocketAddrV6 {
    ghost reads_back = { unscoped_reads_back ⟦<([u8; 16], u16) as SchemaRead<L>>⟧.model socket_v6_parts socket_v6_written [] (λ y p small. (p.0, small))
        (λ b v r. r.3.0) (reads_back_by (λ t. (t.0, t.1)) (windowed_reads_back (pair_reads_back (windowed_reads_back
        (array_reads_back 16 (λ v. v < 256 ^ 1) (λ v. v) (number_write 1 true) (λ v. v) (number_read 1 true) (number_reads_back 1 true))) (number_reads_back 2 true)))) };
}

impl<L: Lending> OneText<L> for SocketAddr {
    ghost one_text = { made_one_text ⟦<Result<SocketAddrV4, SocketAddrV6> as SchemaRead<L>>⟧.model IsSame [] (same_apart
        ⟦<Result<SocketAddrV4, SocketAddrV6> as SchemaRead<L>>⟧.model) (result_one_text 4 (made_one_text
        ⟦<([u8; 4], u16) as SchemaRead<L>>⟧.model IsSame [] (same_apart ⟦<([u8; 4], u16) as SchemaRead<L>>⟧.model) (windowed_one_text (pair_one_text
        (windowed_one_text (array_one_text 4 (number_one_text 1 true))) (number_one_text 2 true)))) (made_one_text
        ⟦<([u8; 16], u16) as SchemaRead<L>>⟧.model IsSame [] (same_apart ⟦<([u8; 16], u16) as SchemaRead<L>>⟧.model) (windowed_one_text
        (pair_one_text (windowed_one_text (array_one_text 16 (number_one_text 1 true))) (number_one_text 2 true))))) };
}

impl<L: Lending> SchemaReadOwned<L> for SocketAddr {
    ghost owned = { refl };
}

impl<L: Lending> RoundTrip<L> for SocketAddr {
    ghost reads_back = { same_reads_back ⟦<Result<SocketAddrV4, SocketAddrV6> as SchemaRead<L>>⟧.model [] socket_parts (result_reads_back 4
        ⟦<SocketAddrV4 as SchemaWrite>⟧.is_valid ⟦<SocketAddrV6 as SchemaWrite>⟧.is_valid ⟦<SocketAddrV4 as SchemaWrite>⟧.model
        ⟦<SocketAddrV4 as SchemaWrite>⟧.writing ⟦<SocketAddrV4 as SchemaRead<L>>⟧.model ⟦<SocketAddrV4 as SchemaRead<L>>⟧.reading
        ⟦<SocketAddrV6 as SchemaWrite>⟧.model ⟦<SocketAddrV6 as SchemaWrite>⟧.writing ⟦<SocketAddrV6 as SchemaRead<L>>⟧.model
        ⟦<SocketAddrV6 as SchemaRead<L>>⟧.reading (same_reads_back ⟦<([u8; 4], u16) as SchemaRead<L>>⟧.model [] socket_v4_parts
        (reads_back_by (λ t. (t.0, t.1)) (windowed_reads_back (pair_reads_back (windowed_reads_back
        (array_reads_back 4 (λ v. v < 256 ^ 1) (λ v. v) (number_write 1 true) (λ v. v) (number_read 1 true) (number_reads_back 1 true))) (number_reads_back 2 true)))))
        (unscoped_reads_back ⟦<([u8; 16], u16) as SchemaRead<L>>⟧.model socket_v6_parts socket_v6_written [] (λ y p small. (p.0, small)) (λ b v r. r.3.0)
        (reads_back_by (λ t. (t.0, t.1)) (windowed_reads_back (pair_reads_back (windowed_reads_back
        (array_reads_back 16 (λ v. v < 256 ^ 1) (λ v. v) (number_write 1 true) (λ v. v) (number_read 1 true) (number_reads_back 1 true))) (number_reads_back 2 true)))))) };
}

impl<L: Lending, T: OneText<L>> OneText<L> for Wrapping<T> {
    ghost one_text = { T.one_text };
}

impl<L: Lending, T: SchemaReadOwned<L>> SchemaReadOwned<L> for Wrapping<T> {
    ghost owned = { T.owned };
}

impl<L: Lending, T: RoundTrip<L>> RoundTrip<L> for Wrapping<T>
where
    T::Src: Drop,
{
    ghost reads_back = { reads_back_by (λ w. w.0) T.reads_back };
}

impl<L: Lending, T: OneText<L>> OneText<L> for Saturating<T> {
    ghost one_text = { T.one_text };
}

impl<L: Lending, T: SchemaReadOwned<L>> SchemaReadOwned<L> for Saturating<T> {
    ghost owned = { T.owned };
}

impl<L: Lending, T: RoundTrip<L>> RoundTrip<L> for Saturating<T>
where
    T::Src: Drop,
{
    ghost reads_back = { reads_back_by (λ w. w.0) T.reads_back };
}

impl<L: Lending, T: OneText<L>> OneText<L> for Reverse<T> {
    ghost one_text = { T.one_text };
}

impl<L: Lending, T: SchemaReadOwned<L>> SchemaReadOwned<L> for Reverse<T> {
    ghost owned = { T.owned };
}

impl<L: Lending, T: RoundTrip<L>> RoundTrip<L> for Reverse<T>
where
    T::Src: Drop,
{
    ghost reads_back = { reads_back_by (λ w. w.0) T.reads_back };
}

impl<L: Lending, T: OneText<L>> OneText<L> for RangeFrom<T> {
    ghost one_text = { T.one_text };
}

impl<L: Lending, T: SchemaReadOwned<L>> SchemaReadOwned<L> for RangeFrom<T> {
    ghost owned = { T.owned };
}

impl<L: Lending, T: RoundTrip<L>> RoundTrip<L> for RangeFrom<T>
where
    T::Src: Drop,
{
    ghost reads_back = { reads_back_by (λ w. w.start) T.reads_back };
}

impl<L: Lending, T: OneText<L>> OneText<L> for RangeTo<T> {
    ghost one_text = { T.one_text };
}

impl<L: Lending, T: SchemaReadOwned<L>> SchemaReadOwned<L> for RangeTo<T> {
    ghost owned = { T.owned };
}

impl<L: Lending, T: RoundTrip<L>> RoundTrip<L> for RangeTo<T>
where
    T::Src: Drop,
{
    ghost reads_back = { reads_back_by (λ w. w.end) T.reads_back };
}

impl<L: Lending, T: OneText<L>> OneText<L> for Range<T> {
    ghost one_text = { windowed_one_text (pair_one_text T.one_text T.one_text) };
}

impl<L: Lending, T: SchemaReadOwned<L>> SchemaReadOwned<L> for Range<T> {
    ghost owned = { both_owned T.owned T.owned };
}

impl<L: Lending, T: RoundTrip<L>> RoundTrip<L> for Range<T>
where
    T::Src: Drop,
{
    ghost reads_back = { reads_back_by (λ r. (r.start, r.end)) (windowed_reads_back (pair_reads_back T.reads_back T.reads_back)) };
}

impl<L: Lending, T: OneText<L>> OneText<L> for RangeInclusive<T> {
    ghost one_text = { windowed_one_text (pair_one_text T.one_text T.one_text) };
}

impl<L: Lending, T: SchemaReadOwned<L>> SchemaReadOwned<L> for RangeInclusive<T> {
    ghost owned = { both_owned T.owned T.owned };
}

impl<L: Lending, T: RoundTrip<L>> RoundTrip<L> for RangeInclusive<T>
where
    T::Src: Drop,
{
    ghost reads_back = { reads_back_by (λ r. (range_inclusive_start r, range_inclusive_end r)) (windowed_reads_back
        (pair_reads_back T.reads_back T.reads_back)) };
}

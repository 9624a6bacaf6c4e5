//! Written by `tools/templates`: the laws of reading numbers other than 0, floats, times, addresses, texts and what is as what it holds.
ghost use Rattle.std.proofs.Common.{lit≤};
ghost use Rattle.std.specs.Arc.{arc_str_bytes};
ghost use Rattle.std.specs.Box.{boxed_str_bytes};
ghost use Rattle.std.specs.Int.{w8, w16, w32, w64, w128};
ghost use Rattle.std.specs.Int.NonZero.{
  non_zero_u8_get,
  non_zero_u16_get,
  non_zero_u32_get,
  non_zero_u64_get,
  non_zero_u128_get,
  non_zero_usize_get,
  non_zero_i8_get,
  non_zero_i16_get,
  non_zero_i32_get,
  non_zero_i64_get,
  non_zero_i128_get,
  non_zero_isize_get,
};
ghost use Rattle.std.specs.Net.Addr.{ipv4_octets, ipv6_octets};
ghost use Rattle.std.specs.Path.{path_buf_bytes};
ghost use Rattle.std.specs.Prelude.{[], ◌<◌, ◌^◌, ℕ, IsUtf8, List, false, pos, refl, to_bits, true};
ghost use Rattle.std.specs.Range.{range_inclusive_end, range_inclusive_start};
ghost use Rattle.std.specs.Rc.{rc_str_bytes};
ghost use Rattle.wincode_base.specs.ArrayLaws.{array_read_laws};
ghost use Rattle.wincode_base.specs.Boxed.{boxed_read};
ghost use Rattle.wincode_base.specs.BoxedLaws.{boxed_read_laws};
ghost use Rattle.wincode_base.specs.InWindow.{windowed_read};
ghost use Rattle.wincode_base.specs.LeafLaws.{number_read_laws, signed_read_laws};
ghost use Rattle.wincode_base.specs.Leaves.{number_read};
ghost use Rattle.wincode_base.specs.Made.{
  AreBits,
  AreTime,
  IsMadeOf,
  IsNot,
  IsSame,
  clock_parts,
  duration_parts,
  ip_parts,
  is_overflow,
  is_zero,
  made_read,
  socket_parts,
  socket_v4_parts,
  socket_v6_parts,
};
ghost use Rattle.wincode_base.specs.MadeLaws.{made_read_laws, one_float, one_number, one_same, one_time};
ghost use Rattle.wincode_base.specs.PairLaws.{pair_read_laws, windowed_read_laws};
ghost use Rattle.wincode_base.specs.Pairs.{pair_read};
ghost use Rattle.wincode_base.specs.StringLaws.{str_read_laws};
ghost use Rattle.wincode_base.specs.Strings.{str_read};
ghost use Rattle.wincode_base.specs.TagLaws.{result_read_laws};
ghost use lib.Ieee.{binary32, binary64};

use crate::laws::Lawful;
use std::boxed::BoxedStr;
use std::cmp::Reverse;
use std::net::{IpAddr, Ipv4Addr, Ipv6Addr, SocketAddr, SocketAddrV4, SocketAddrV6};
use std::num::{
    NonZeroI8, NonZeroI16, NonZeroI32, NonZeroI64, NonZeroI128, NonZeroIsize, NonZeroU8,
    NonZeroU16, NonZeroU32, NonZeroU64, NonZeroU128, NonZeroUsize, Saturating, Wrapping,
};
use std::ops::{Range, RangeFrom, RangeInclusive, RangeTo};
use std::path::PathBuf;
use std::rc::RcStr;
use std::sync::{Arc, ArcStr};
use std::time::{Duration, SystemTime};
use wincode::SchemaRead;
use wincode::io::Lending;

impl<L: Lending, T: Lawful<L>> Lawful<L> for Arc<T> {
    type Dst = Arc<T::Dst>;

    ghost Value = { T.Value };

    ghost model = { λ held. T.model held.value };

    ghost is_valid = { T.is_valid };

    ghost reading = { boxed_read T.reading };

    ghost read_laws = { boxed_read_laws T.is_valid T.reading T.read_laws };
}

impl<L: Lending> Lawful<L> for NonZeroU8 {
    type Dst = NonZeroU8;

    ghost Value = { ⟦<u8 as SchemaRead<L>>⟧.Value };

    ghost model = { λ x. ⟦<u8 as SchemaRead<L>>⟧.model (non_zero_u8_get x) };

    ghost is_valid = { IsMadeOf ⟦<u8 as SchemaRead<L>>⟧.model (IsNot 0) ⟦<u8 as SchemaRead<L>>⟧.is_valid };

    ghost reading = { made_read ⟦<u8 as SchemaRead<L>>⟧.model (IsNot 0) is_zero ⟦<u8 as SchemaRead<L>>⟧.reading };

    ghost read_laws = { made_read_laws ⟦<u8 as SchemaRead<L>>⟧.model (IsNot 0) is_zero ⟦<u8 as SchemaRead<L>>⟧.reading
        (one_number (λ v. v) 0) (number_read_laws 1 true (lit≤ tt)) };
}

impl<L: Lending> Lawful<L> for NonZeroU16 {
    type Dst = NonZeroU16;

    ghost Value = { ⟦<u16 as SchemaRead<L>>⟧.Value };

    ghost model = { λ x. ⟦<u16 as SchemaRead<L>>⟧.model (non_zero_u16_get x) };

    ghost is_valid = { IsMadeOf ⟦<u16 as SchemaRead<L>>⟧.model (IsNot 0) ⟦<u16 as SchemaRead<L>>⟧.is_valid };

    ghost reading = { made_read ⟦<u16 as SchemaRead<L>>⟧.model (IsNot 0) is_zero ⟦<u16 as SchemaRead<L>>⟧.reading };

    ghost read_laws = { made_read_laws ⟦<u16 as SchemaRead<L>>⟧.model (IsNot 0) is_zero ⟦<u16 as SchemaRead<L>>⟧.reading
        (one_number (λ v. v) 0) (number_read_laws 2 true (lit≤ tt)) };
}

impl<L: Lending> Lawful<L> for NonZeroU32 {
    type Dst = NonZeroU32;

    ghost Value = { ⟦<u32 as SchemaRead<L>>⟧.Value };

    ghost model = { λ x. ⟦<u32 as SchemaRead<L>>⟧.model (non_zero_u32_get x) };

    ghost is_valid = { IsMadeOf ⟦<u32 as SchemaRead<L>>⟧.model (IsNot 0) ⟦<u32 as SchemaRead<L>>⟧.is_valid };

    ghost reading = { made_read ⟦<u32 as SchemaRead<L>>⟧.model (IsNot 0) is_zero ⟦<u32 as SchemaRead<L>>⟧.reading };

    ghost read_laws = { made_read_laws ⟦<u32 as SchemaRead<L>>⟧.model (IsNot 0) is_zero ⟦<u32 as SchemaRead<L>>⟧.reading
        (one_number (λ v. v) 0) (number_read_laws 4 true (lit≤ tt)) };
}

impl<L: Lending> Lawful<L> for NonZeroU64 {
    type Dst = NonZeroU64;

    ghost Value = { ⟦<u64 as SchemaRead<L>>⟧.Value };

    ghost model = { λ x. ⟦<u64 as SchemaRead<L>>⟧.model (non_zero_u64_get x) };

    ghost is_valid = { IsMadeOf ⟦<u64 as SchemaRead<L>>⟧.model (IsNot 0) ⟦<u64 as SchemaRead<L>>⟧.is_valid };

    ghost reading = { made_read ⟦<u64 as SchemaRead<L>>⟧.model (IsNot 0) is_zero ⟦<u64 as SchemaRead<L>>⟧.reading };

    ghost read_laws = { made_read_laws ⟦<u64 as SchemaRead<L>>⟧.model (IsNot 0) is_zero ⟦<u64 as SchemaRead<L>>⟧.reading
        (one_number (λ v. v) 0) (number_read_laws 8 true (lit≤ tt)) };
}

impl<L: Lending> Lawful<L> for NonZeroU128 {
    type Dst = NonZeroU128;

    ghost Value = { ⟦<u128 as SchemaRead<L>>⟧.Value };

    ghost model = { λ x. ⟦<u128 as SchemaRead<L>>⟧.model (non_zero_u128_get x) };

    ghost is_valid = { IsMadeOf ⟦<u128 as SchemaRead<L>>⟧.model (IsNot 0) ⟦<u128 as SchemaRead<L>>⟧.is_valid };

    ghost reading = { made_read ⟦<u128 as SchemaRead<L>>⟧.model (IsNot 0) is_zero ⟦<u128 as SchemaRead<L>>⟧.reading };

    ghost read_laws = { made_read_laws ⟦<u128 as SchemaRead<L>>⟧.model (IsNot 0) is_zero ⟦<u128 as SchemaRead<L>>⟧.reading
        (one_number (λ v. v) 0) (number_read_laws 16 true (lit≤ tt)) };
}

impl<L: Lending> Lawful<L> for NonZeroUsize {
    type Dst = NonZeroUsize;

    ghost Value = { ⟦<usize as SchemaRead<L>>⟧.Value };

    ghost model = { λ x. ⟦<usize as SchemaRead<L>>⟧.model (non_zero_usize_get x) };

    ghost is_valid = { IsMadeOf ⟦<usize as SchemaRead<L>>⟧.model (IsNot 0) ⟦<usize as SchemaRead<L>>⟧.is_valid };

    ghost reading = { made_read ⟦<usize as SchemaRead<L>>⟧.model (IsNot 0) is_zero ⟦<usize as SchemaRead<L>>⟧.reading };

    ghost read_laws = { made_read_laws ⟦<usize as SchemaRead<L>>⟧.model (IsNot 0) is_zero ⟦<usize as SchemaRead<L>>⟧.reading
        (one_number (λ v. v) 0) (number_read_laws 8 false (lit≤ tt)) };
}

impl<L: Lending> Lawful<L> for NonZeroI8 {
    type Dst = NonZeroI8;

    ghost Value = { ⟦<i8 as SchemaRead<L>>⟧.Value };

    ghost model = { λ x. ⟦<i8 as SchemaRead<L>>⟧.model (non_zero_i8_get x) };

    ghost is_valid = { IsMadeOf ⟦<i8 as SchemaRead<L>>⟧.model (IsNot (pos 0)) ⟦<i8 as SchemaRead<L>>⟧.is_valid };

    ghost reading = { made_read ⟦<i8 as SchemaRead<L>>⟧.model (IsNot (pos 0)) is_zero ⟦<i8 as SchemaRead<L>>⟧.reading };

    ghost read_laws = { made_read_laws ⟦<i8 as SchemaRead<L>>⟧.model (IsNot (pos 0)) is_zero ⟦<i8 as SchemaRead<L>>⟧.reading
        (one_number (λ v. v) (pos 0)) (signed_read_laws w8 refl true (lit≤ tt)) };
}

impl<L: Lending> Lawful<L> for NonZeroI16 {
    type Dst = NonZeroI16;

    ghost Value = { ⟦<i16 as SchemaRead<L>>⟧.Value };

    ghost model = { λ x. ⟦<i16 as SchemaRead<L>>⟧.model (non_zero_i16_get x) };

    ghost is_valid = { IsMadeOf ⟦<i16 as SchemaRead<L>>⟧.model (IsNot (pos 0)) ⟦<i16 as SchemaRead<L>>⟧.is_valid };

    ghost reading = { made_read ⟦<i16 as SchemaRead<L>>⟧.model (IsNot (pos 0)) is_zero ⟦<i16 as SchemaRead<L>>⟧.reading };

    ghost read_laws = { made_read_laws ⟦<i16 as SchemaRead<L>>⟧.model (IsNot (pos 0)) is_zero ⟦<i16 as SchemaRead<L>>⟧.reading
        (one_number (λ v. v) (pos 0)) (signed_read_laws w16 refl true (lit≤ tt)) };
}

impl<L: Lending> Lawful<L> for NonZeroI32 {
    type Dst = NonZeroI32;

    ghost Value = { ⟦<i32 as SchemaRead<L>>⟧.Value };

    ghost model = { λ x. ⟦<i32 as SchemaRead<L>>⟧.model (non_zero_i32_get x) };

    ghost is_valid = { IsMadeOf ⟦<i32 as SchemaRead<L>>⟧.model (IsNot (pos 0)) ⟦<i32 as SchemaRead<L>>⟧.is_valid };

    ghost reading = { made_read ⟦<i32 as SchemaRead<L>>⟧.model (IsNot (pos 0)) is_zero ⟦<i32 as SchemaRead<L>>⟧.reading };

    ghost read_laws = { made_read_laws ⟦<i32 as SchemaRead<L>>⟧.model (IsNot (pos 0)) is_zero ⟦<i32 as SchemaRead<L>>⟧.reading
        (one_number (λ v. v) (pos 0)) (signed_read_laws w32 refl true (lit≤ tt)) };
}

impl<L: Lending> Lawful<L> for NonZeroI64 {
    type Dst = NonZeroI64;

    ghost Value = { ⟦<i64 as SchemaRead<L>>⟧.Value };

    ghost model = { λ x. ⟦<i64 as SchemaRead<L>>⟧.model (non_zero_i64_get x) };

    ghost is_valid = { IsMadeOf ⟦<i64 as SchemaRead<L>>⟧.model (IsNot (pos 0)) ⟦<i64 as SchemaRead<L>>⟧.is_valid };

    ghost reading = { made_read ⟦<i64 as SchemaRead<L>>⟧.model (IsNot (pos 0)) is_zero ⟦<i64 as SchemaRead<L>>⟧.reading };

    ghost read_laws = { made_read_laws ⟦<i64 as SchemaRead<L>>⟧.model (IsNot (pos 0)) is_zero ⟦<i64 as SchemaRead<L>>⟧.reading
        (one_number (λ v. v) (pos 0)) (signed_read_laws w64 refl true (lit≤ tt)) };
}

impl<L: Lending> Lawful<L> for NonZeroI128 {
    type Dst = NonZeroI128;

    ghost Value = { ⟦<i128 as SchemaRead<L>>⟧.Value };

    ghost model = { λ x. ⟦<i128 as SchemaRead<L>>⟧.model (non_zero_i128_get x) };

    ghost is_valid = { IsMadeOf ⟦<i128 as SchemaRead<L>>⟧.model (IsNot (pos 0)) ⟦<i128 as SchemaRead<L>>⟧.is_valid };

    ghost reading = { made_read ⟦<i128 as SchemaRead<L>>⟧.model (IsNot (pos 0)) is_zero ⟦<i128 as SchemaRead<L>>⟧.reading };

    ghost read_laws = { made_read_laws ⟦<i128 as SchemaRead<L>>⟧.model (IsNot (pos 0)) is_zero ⟦<i128 as SchemaRead<L>>⟧.reading
        (one_number (λ v. v) (pos 0)) (signed_read_laws w128 refl true (lit≤ tt)) };
}

impl<L: Lending> Lawful<L> for NonZeroIsize {
    type Dst = NonZeroIsize;

    ghost Value = { ⟦<isize as SchemaRead<L>>⟧.Value };

    ghost model = { λ x. ⟦<isize as SchemaRead<L>>⟧.model (non_zero_isize_get x) };

    ghost is_valid = { IsMadeOf ⟦<isize as SchemaRead<L>>⟧.model (IsNot (pos 0)) ⟦<isize as SchemaRead<L>>⟧.is_valid };

    ghost reading = { made_read ⟦<isize as SchemaRead<L>>⟧.model (IsNot (pos 0)) is_zero ⟦<isize as SchemaRead<L>>⟧.reading };

    ghost read_laws = { made_read_laws ⟦<isize as SchemaRead<L>>⟧.model (IsNot (pos 0)) is_zero ⟦<isize as SchemaRead<L>>⟧.reading
        (one_number (λ v. v) (pos 0)) (signed_read_laws w64 refl false (lit≤ tt)) };
}

impl<L: Lending> Lawful<L> for f32 {
    type Dst = f32;

    ghost Value = { ⟦<u32 as SchemaRead<L>>⟧.Value };

    ghost model = { λ x. ⟦<u32 as SchemaRead<L>>⟧.model (to_bits binary32 x) };

    ghost is_valid = { IsMadeOf ⟦<u32 as SchemaRead<L>>⟧.model (AreBits binary32) ⟦<u32 as SchemaRead<L>>⟧.is_valid };

    ghost reading = { made_read ⟦<u32 as SchemaRead<L>>⟧.model (AreBits binary32) [] ⟦<u32 as SchemaRead<L>>⟧.reading };

    ghost read_laws = { made_read_laws ⟦<u32 as SchemaRead<L>>⟧.model (AreBits binary32) [] ⟦<u32 as SchemaRead<L>>⟧.reading
        (one_float binary32) (number_read_laws 4 true (lit≤ tt)) };
}

impl<L: Lending> Lawful<L> for f64 {
    type Dst = f64;

    ghost Value = { ⟦<u64 as SchemaRead<L>>⟧.Value };

    ghost model = { λ x. ⟦<u64 as SchemaRead<L>>⟧.model (to_bits binary64 x) };

    ghost is_valid = { IsMadeOf ⟦<u64 as SchemaRead<L>>⟧.model (AreBits binary64) ⟦<u64 as SchemaRead<L>>⟧.is_valid };

    ghost reading = { made_read ⟦<u64 as SchemaRead<L>>⟧.model (AreBits binary64) [] ⟦<u64 as SchemaRead<L>>⟧.reading };

    ghost read_laws = { made_read_laws ⟦<u64 as SchemaRead<L>>⟧.model (AreBits binary64) [] ⟦<u64 as SchemaRead<L>>⟧.reading
        (one_float binary64) (number_read_laws 8 true (lit≤ tt)) };
}

impl<L: Lending> Lawful<L> for Duration {
    type Dst = Duration;

    ghost Value = { ⟦<(u64, u32) as SchemaRead<L>>⟧.Value };

    ghost model = { λ x. ⟦<(u64, u32) as SchemaRead<L>>⟧.model (duration_parts x) };

    ghost is_valid = { IsMadeOf ⟦<(u64, u32) as SchemaRead<L>>⟧.model (AreTime (2 ^ 64)) ⟦<(u64, u32) as SchemaRead<L>>⟧.is_valid };

    ghost reading = { made_read ⟦<(u64, u32) as SchemaRead<L>>⟧.model (AreTime (2 ^ 64)) is_overflow ⟦<(u64, u32) as SchemaRead<L>>⟧.reading };

    ghost read_laws = { made_read_laws ⟦<(u64, u32) as SchemaRead<L>>⟧.model (AreTime (2 ^ 64)) is_overflow ⟦<(u64, u32) as SchemaRead<L>>⟧.reading
        (one_time (2 ^ 64)) (windowed_read_laws (pair_read_laws (number_read_laws 8 true (lit≤ tt)) (number_read_laws 4 true (lit≤ tt)))) };
}

impl<L: Lending> Lawful<L> for SystemTime {
    type Dst = SystemTime;

    ghost Value = { ⟦<(u64, u32) as SchemaRead<L>>⟧.Value };

    ghost model = { λ x. ⟦<(u64, u32) as SchemaRead<L>>⟧.model (clock_parts x) };

    ghost is_valid = { IsMadeOf ⟦<(u64, u32) as SchemaRead<L>>⟧.model (AreTime (2 ^ 63)) ⟦<(u64, u32) as SchemaRead<L>>⟧.is_valid };

    ghost reading = { made_read ⟦<(u64, u32) as SchemaRead<L>>⟧.model (AreTime (2 ^ 63)) is_overflow ⟦<(u64, u32) as SchemaRead<L>>⟧.reading };

    ghost read_laws = { made_read_laws ⟦<(u64, u32) as SchemaRead<L>>⟧.model (AreTime (2 ^ 63)) is_overflow ⟦<(u64, u32) as SchemaRead<L>>⟧.reading
        (one_time (2 ^ 63)) (windowed_read_laws (pair_read_laws (number_read_laws 8 true (lit≤ tt)) (number_read_laws 4 true (lit≤ tt)))) };
}

impl<L: Lending> Lawful<L> for Ipv4Addr {
    type Dst = Ipv4Addr;

    ghost Value = { ⟦<[u8; 4] as SchemaRead<L>>⟧.Value };

    ghost model = { λ x. ⟦<[u8; 4] as SchemaRead<L>>⟧.model (ipv4_octets x) };

    ghost is_valid = { IsMadeOf ⟦<[u8; 4] as SchemaRead<L>>⟧.model IsSame ⟦<[u8; 4] as SchemaRead<L>>⟧.is_valid };

    ghost reading = { made_read ⟦<[u8; 4] as SchemaRead<L>>⟧.model IsSame [] ⟦<[u8; 4] as SchemaRead<L>>⟧.reading };

    ghost read_laws = { made_read_laws ⟦<[u8; 4] as SchemaRead<L>>⟧.model IsSame [] ⟦<[u8; 4] as SchemaRead<L>>⟧.reading (one_same
        ⟦<[u8; 4] as SchemaRead<L>>⟧.model) (windowed_read_laws
        (array_read_laws 4 (λ v. v < 256 ^ 1) (number_read 1 true) (number_read_laws 1 true (lit≤ tt)))) };
}

impl<L: Lending> Lawful<L> for Ipv6Addr {
    type Dst = Ipv6Addr;

    ghost Value = { ⟦<[u8; 16] as SchemaRead<L>>⟧.Value };

    ghost model = { λ x. ⟦<[u8; 16] as SchemaRead<L>>⟧.model (ipv6_octets x) };

    ghost is_valid = { IsMadeOf ⟦<[u8; 16] as SchemaRead<L>>⟧.model IsSame ⟦<[u8; 16] as SchemaRead<L>>⟧.is_valid };

    ghost reading = { made_read ⟦<[u8; 16] as SchemaRead<L>>⟧.model IsSame [] ⟦<[u8; 16] as SchemaRead<L>>⟧.reading };

    ghost read_laws = { made_read_laws ⟦<[u8; 16] as SchemaRead<L>>⟧.model IsSame [] ⟦<[u8; 16] as SchemaRead<L>>⟧.reading (one_same
        ⟦<[u8; 16] as SchemaRead<L>>⟧.model) (windowed_read_laws
        (array_read_laws 16 (λ v. v < 256 ^ 1) (number_read 1 true) (number_read_laws 1 true (lit≤ tt)))) };
}

impl<L: Lending> Lawful<L> for IpAddr {
    type Dst = IpAddr;

    ghost Value = { ⟦<Result<Ipv4Addr, Ipv6Addr> as SchemaRead<L>>⟧.Value };

    ghost model = { λ x. ⟦<Result<Ipv4Addr, Ipv6Addr> as SchemaRead<L>>⟧.model (ip_parts x) };

    ghost is_valid = { IsMadeOf ⟦<Result<Ipv4Addr, Ipv6Addr> as SchemaRead<L>>⟧.model IsSame
        ⟦<Result<Ipv4Addr, Ipv6Addr> as SchemaRead<L>>⟧.is_valid };

    ghost reading = { made_read ⟦<Result<Ipv4Addr, Ipv6Addr> as SchemaRead<L>>⟧.model IsSame []
        ⟦<Result<Ipv4Addr, Ipv6Addr> as SchemaRead<L>>⟧.reading };

    ghost read_laws = { made_read_laws ⟦<Result<Ipv4Addr, Ipv6Addr> as SchemaRead<L>>⟧.model IsSame []
        ⟦<Result<Ipv4Addr, Ipv6Addr> as SchemaRead<L>>⟧.reading (one_same ⟦<Result<Ipv4Addr, Ipv6Addr> as SchemaRead<L>>⟧.model)
        (result_read_laws 4 (lit≤ tt) ⟦<Ipv4Addr as SchemaRead<L>>⟧.is_valid ⟦<Ipv6Addr as SchemaRead<L>>⟧.is_valid
        ⟦<Ipv4Addr as SchemaRead<L>>⟧.reading ⟦<Ipv6Addr as SchemaRead<L>>⟧.reading (made_read_laws ⟦<[u8; 4] as SchemaRead<L>>⟧.model IsSame []
        ⟦<[u8; 4] as SchemaRead<L>>⟧.reading (one_same ⟦<[u8; 4] as SchemaRead<L>>⟧.model) (windowed_read_laws
        (array_read_laws 4 (λ v. v < 256 ^ 1) (number_read 1 true) (number_read_laws 1 true (lit≤ tt))))) (made_read_laws
        ⟦<[u8; 16] as SchemaRead<L>>⟧.model IsSame [] ⟦<[u8; 16] as SchemaRead<L>>⟧.reading (one_same ⟦<[u8; 16] as SchemaRead<L>>⟧.model)
        (windowed_read_laws (array_read_laws 16 (λ v. v < 256 ^ 1) (number_read 1 true) (number_read_laws 1 true (lit≤ tt)))))) };
}

impl<L: Lending> Lawful<L> for SocketAddrV4 {
    type Dst = SocketAddrV4;

    ghost Value = { ⟦<([u8; 4], u16) as SchemaRead<L>>⟧.Value };

    ghost model = { λ x. ⟦<([u8; 4], u16) as SchemaRead<L>>⟧.model (socket_v4_parts x) };

    ghost is_valid = { IsMadeOf ⟦<([u8; 4], u16) as SchemaRead<L>>⟧.model IsSame ⟦<([u8; 4], u16) as SchemaRead<L>>⟧.is_valid };

    ghost reading = { made_read ⟦<([u8; 4], u16) as SchemaRead<L>>⟧.model IsSame [] ⟦<([u8; 4], u16) as SchemaRead<L>>⟧.reading };

    ghost read_laws = { made_read_laws ⟦<([u8; 4], u16) as SchemaRead<L>>⟧.model IsSame [] ⟦<([u8; 4], u16) as SchemaRead<L>>⟧.reading (one_same
        ⟦<([u8; 4], u16) as SchemaRead<L>>⟧.model) (windowed_read_laws (pair_read_laws (windowed_read_laws
        (array_read_laws 4 (λ v. v < 256 ^ 1) (number_read 1 true) (number_read_laws 1 true (lit≤ tt)))) (number_read_laws 2 true (lit≤ tt)))) };
}

impl<L: Lending> Lawful<L> for SocketAddrV6 {
    type Dst = SocketAddrV6;

    ghost Value = { ⟦<([u8; 16], u16) as SchemaRead<L>>⟧.Value };

    ghost model = { λ x. ⟦<([u8; 16], u16) as SchemaRead<L>>⟧.model (socket_v6_parts x) };

    ghost is_valid = { IsMadeOf ⟦<([u8; 16], u16) as SchemaRead<L>>⟧.model IsSame ⟦<([u8; 16], u16) as SchemaRead<L>>⟧.is_valid };

    ghost reading = { made_read ⟦<([u8; 16], u16) as SchemaRead<L>>⟧.model IsSame [] ⟦<([u8; 16], u16) as SchemaRead<L>>⟧.reading };

    ghost read_laws = { made_read_laws ⟦<([u8; 16], u16) as SchemaRead<L>>⟧.model IsSame [] ⟦<([u8; 16], u16) as SchemaRead<L>>⟧.reading (one_same
        ⟦<([u8; 16], u16) as SchemaRead<L>>⟧.model) (windowed_read_laws (pair_read_laws (windowed_read_laws
        (array_read_laws 16 (λ v. v < 256 ^ 1) (number_read 1 true) (number_read_laws 1 true (lit≤ tt)))) (number_read_laws 2 true (lit≤ tt)))) };
}

impl<L: Lending> Lawful<L> for SocketAddr {
    type Dst = SocketAddr;

    ghost Value = { ⟦<Result<SocketAddrV4, SocketAddrV6> as SchemaRead<L>>⟧.Value };

    ghost model = { λ x. ⟦<Result<SocketAddrV4, SocketAddrV6> as SchemaRead<L>>⟧.model (socket_parts x) };

    ghost is_valid = { IsMadeOf ⟦<Result<SocketAddrV4, SocketAddrV6> as SchemaRead<L>>⟧.model IsSame
        ⟦<Result<SocketAddrV4, SocketAddrV6> as SchemaRead<L>>⟧.is_valid };

    ghost reading = { made_read ⟦<Result<SocketAddrV4, SocketAddrV6> as SchemaRead<L>>⟧.model IsSame []
        ⟦<Result<SocketAddrV4, SocketAddrV6> as SchemaRead<L>>⟧.reading };

    ghost read_laws = { made_read_laws ⟦<Result<SocketAddrV4, SocketAddrV6> as SchemaRead<L>>⟧.model IsSame []
        ⟦<Result<SocketAddrV4, SocketAddrV6> as SchemaRead<L>>⟧.reading (one_same ⟦<Result<SocketAddrV4, SocketAddrV6> as SchemaRead<L>>⟧.model)
        (result_read_laws 4 (lit≤ tt) ⟦<SocketAddrV4 as SchemaRead<L>>⟧.is_valid ⟦<SocketAddrV6 as SchemaRead<L>>⟧.is_valid
        ⟦<SocketAddrV4 as SchemaRead<L>>⟧.reading ⟦<SocketAddrV6 as SchemaRead<L>>⟧.reading (made_read_laws
        ⟦<([u8; 4], u16) as SchemaRead<L>>⟧.model IsSame [] ⟦<([u8; 4], u16) as SchemaRead<L>>⟧.reading (one_same
        ⟦<([u8; 4], u16) as SchemaRead<L>>⟧.model) (windowed_read_laws (pair_read_laws (windowed_read_laws
        (array_read_laws 4 (λ v. v < 256 ^ 1) (number_read 1 true) (number_read_laws 1 true (lit≤ tt)))) (number_read_laws 2 true (lit≤ tt)))))
        (made_read_laws ⟦<([u8; 16], u16) as SchemaRead<L>>⟧.model IsSame [] ⟦<([u8; 16], u16) as SchemaRead<L>>⟧.reading (one_same
        ⟦<([u8; 16], u16) as SchemaRead<L>>⟧.model) (windowed_read_laws (pair_read_laws (windowed_read_laws
        (array_read_laws 16 (λ v. v < 256 ^ 1) (number_read 1 true) (number_read_laws 1 true (lit≤ tt)))) (number_read_laws 2 true (lit≤ tt)))))) };
}

impl<L: Lending> Lawful<L> for BoxedStr {
    type Dst = BoxedStr;

    ghost Value = { List ℕ };

    ghost model = { λ t. boxed_str_bytes t };

    ghost is_valid = { IsUtf8 };

    ghost reading = { str_read 24 0 false };

    ghost read_laws = { str_read_laws 24 0 false (lit≤ tt) };
}

impl<L: Lending> Lawful<L> for PathBuf {
    type Dst = PathBuf;

    ghost Value = { List ℕ };

    ghost model = { λ t. path_buf_bytes t };

    ghost is_valid = { IsUtf8 };

    ghost reading = { str_read 24 0 false };

    ghost read_laws = { str_read_laws 24 0 false (lit≤ tt) };
}

impl<L: Lending> Lawful<L> for RcStr {
    type Dst = RcStr;

    ghost Value = { List ℕ };

    ghost model = { λ t. rc_str_bytes t };

    ghost is_valid = { IsUtf8 };

    ghost reading = { boxed_read (str_read 24 0 false) };

    ghost read_laws = { boxed_read_laws IsUtf8 (str_read 24 0 false) (str_read_laws 24 0 false (lit≤ tt)) };
}

impl<L: Lending> Lawful<L> for ArcStr {
    type Dst = ArcStr;

    ghost Value = { List ℕ };

    ghost model = { λ t. arc_str_bytes t };

    ghost is_valid = { IsUtf8 };

    ghost reading = { boxed_read (str_read 24 0 false) };

    ghost read_laws = { boxed_read_laws IsUtf8 (str_read 24 0 false) (str_read_laws 24 0 false (lit≤ tt)) };
}

impl<L: Lending, T: Lawful<L>> Lawful<L> for Wrapping<T> {
    type Dst = Wrapping<T::Dst>;

    ghost Value = { T.Value };

    ghost model = { λ w. T.model w.0 };

    ghost is_valid = { T.is_valid };

    ghost reading = { T.reading };

    ghost read_laws = { T.read_laws };
}

impl<L: Lending, T: Lawful<L>> Lawful<L> for Saturating<T> {
    type Dst = Saturating<T::Dst>;

    ghost Value = { T.Value };

    ghost model = { λ w. T.model w.0 };

    ghost is_valid = { T.is_valid };

    ghost reading = { T.reading };

    ghost read_laws = { T.read_laws };
}

impl<L: Lending, T: Lawful<L>> Lawful<L> for Reverse<T> {
    type Dst = Reverse<T::Dst>;

    ghost Value = { T.Value };

    ghost model = { λ w. T.model w.0 };

    ghost is_valid = { T.is_valid };

    ghost reading = { T.reading };

    ghost read_laws = { T.read_laws };
}

impl<L: Lending, T: Lawful<L>> Lawful<L> for RangeFrom<T> {
    type Dst = RangeFrom<T::Dst>;

    ghost Value = { T.Value };

    ghost model = { λ w. T.model w.start };

    ghost is_valid = { T.is_valid };

    ghost reading = { T.reading };

    ghost read_laws = { T.read_laws };
}

impl<L: Lending, T: Lawful<L>> Lawful<L> for RangeTo<T> {
    type Dst = RangeTo<T::Dst>;

    ghost Value = { T.Value };

    ghost model = { λ w. T.model w.end };

    ghost is_valid = { T.is_valid };

    ghost reading = { T.reading };

    ghost read_laws = { T.read_laws };
}

impl<L: Lending, T: Lawful<L>> Lawful<L> for Range<T> {
    type Dst = Range<T::Dst>;

    ghost Value = { T.Value × T.Value };

    ghost model = { λ r. (T.model r.start, T.model r.end) };

    ghost is_valid = { λ v. T.is_valid v.0 × T.is_valid v.1 };

    ghost reading = { windowed_read (pair_read T.reading T.reading) };

    ghost read_laws = { windowed_read_laws (pair_read_laws T.read_laws T.read_laws) };
}

impl<L: Lending, T: Lawful<L>> Lawful<L> for RangeInclusive<T> {
    type Dst = RangeInclusive<T::Dst>;

    ghost Value = { T.Value × T.Value };

    ghost model = { λ r. (T.model (range_inclusive_start r), T.model (range_inclusive_end r)) };

    ghost is_valid = { λ v. T.is_valid v.0 × T.is_valid v.1 };

    ghost reading = { windowed_read (pair_read T.reading T.reading) };

    ghost read_laws = { windowed_read_laws (pair_read_laws T.read_laws T.read_laws) };
}

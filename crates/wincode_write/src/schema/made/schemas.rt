//! Written by `tools/templates`: schemas of floats, of times and of addresses.
ghost use Rattle.std.specs.Net.Addr.{ipv4_octets, ipv6_octets};
ghost use Rattle.std.specs.Prelude.{◌^◌, to_bits};
ghost use Rattle.wincode_base.specs.Made.{
  AreBits,
  AreTime,
  IsSame,
  clock_parts,
  duration_parts,
  ip_parts,
  socket_parts,
  socket_v4_parts,
  socket_v6_parts,
  socket_v6_written,
  unscoped_write,
};
ghost use Rattle.wincode_base.specs.MadeLaws.{made_write_laws};
ghost use Rattle.wincode_base.specs.SocketLaws.{unscoped_write_laws};
ghost use Rattle.wincode_base.specs.Strings.{reference_write};
ghost use lib.Ieee.{binary32, binary64};

use crate::schema::SchemaWrite;
use crate::schema::made::runs::{RUN, write_made_at_once};
use crate::schema::made::{encode_made, size_of_made, write_made};
use std::net::{IpAddr, Ipv4Addr, Ipv6Addr, SocketAddr, SocketAddrV4, SocketAddrV6};
use std::time::{Duration, SystemTime};
use wincode_base::error::WriteResult;
use wincode_base::meta::TypeMeta;
use wincode_base::sizes::reference_meta;
use wincode_io::Writer;

impl SchemaWrite for f32 {
    type Src = f32;

    ghost Value = { ⟦<u32 as SchemaWrite>⟧.Value };

    ghost model = { λ x. ⟦<u32 as SchemaWrite>⟧.model (to_bits binary32 x) };

    ghost is_valid = { λ x. AreBits binary32 (to_bits binary32 x) (to_bits binary32 x) × ⟦<u32 as SchemaWrite>⟧.is_valid (to_bits binary32 x) };

    ghost writing = { reference_write ⟦<u32 as SchemaWrite>⟧.writing };

    fn type_meta() -> TypeMeta {
        reference_meta(<u32 as SchemaWrite>::type_meta())
    }

    fn size_of(src: &f32) -> WriteResult<usize> {
        size_of_made::<u32, f32>(src)
    }

    fn write<W: Writer>(writer: &mut W, src: &f32) -> WriteResult<()> {
        write_made::<u32, f32, W>(writer, src)
    }

    #[inline(always)]
    fn known_size() -> Option<usize> {
        Some(4)
    }

    #[inline(always)]
    fn encode_front(src: &f32, dst: &mut [u8]) -> Option<usize> {
        encode_made::<u32, f32>(src, dst)
    }

    fn write_at_once<W: Writer>(writer: &mut W, items: &[f32]) -> Option<WriteResult<()>> {
        let mut block = [0; RUN];
        write_made_at_once::<u32, f32, W>(writer, items, &mut block)
    }

    ghost write_laws = { made_write_laws (λ x. AreBits binary32 (to_bits binary32 x) (to_bits binary32 x)) (to_bits binary32)
        ⟦<u32 as SchemaWrite>⟧.write_laws };
}

impl SchemaWrite for f64 {
    type Src = f64;

    ghost Value = { ⟦<u64 as SchemaWrite>⟧.Value };

    ghost model = { λ x. ⟦<u64 as SchemaWrite>⟧.model (to_bits binary64 x) };

    ghost is_valid = { λ x. AreBits binary64 (to_bits binary64 x) (to_bits binary64 x) × ⟦<u64 as SchemaWrite>⟧.is_valid (to_bits binary64 x) };

    ghost writing = { reference_write ⟦<u64 as SchemaWrite>⟧.writing };

    fn type_meta() -> TypeMeta {
        reference_meta(<u64 as SchemaWrite>::type_meta())
    }

    fn size_of(src: &f64) -> WriteResult<usize> {
        size_of_made::<u64, f64>(src)
    }

    fn write<W: Writer>(writer: &mut W, src: &f64) -> WriteResult<()> {
        write_made::<u64, f64, W>(writer, src)
    }

    #[inline(always)]
    fn known_size() -> Option<usize> {
        Some(8)
    }

    #[inline(always)]
    fn encode_front(src: &f64, dst: &mut [u8]) -> Option<usize> {
        encode_made::<u64, f64>(src, dst)
    }

    fn write_at_once<W: Writer>(writer: &mut W, items: &[f64]) -> Option<WriteResult<()>> {
        let mut block = [0; RUN];
        write_made_at_once::<u64, f64, W>(writer, items, &mut block)
    }

    ghost write_laws = { made_write_laws (λ x. AreBits binary64 (to_bits binary64 x) (to_bits binary64 x)) (to_bits binary64)
        ⟦<u64 as SchemaWrite>⟧.write_laws };
}

impl SchemaWrite for Duration {
    type Src = Duration;

    ghost Value = { ⟦<(u64, u32) as SchemaWrite>⟧.Value };

    ghost model = { λ x. ⟦<(u64, u32) as SchemaWrite>⟧.model (duration_parts x) };

    ghost is_valid = { λ x. AreTime (2 ^ 64) (duration_parts x) (duration_parts x) × ⟦<(u64, u32) as SchemaWrite>⟧.is_valid (duration_parts x) };

    ghost writing = { reference_write ⟦<(u64, u32) as SchemaWrite>⟧.writing };

    fn type_meta() -> TypeMeta {
        reference_meta(<(u64, u32) as SchemaWrite>::type_meta())
    }

    fn size_of(src: &Duration) -> WriteResult<usize> {
        size_of_made::<(u64, u32), Duration>(src)
    }

    fn write<W: Writer>(writer: &mut W, src: &Duration) -> WriteResult<()> {
        write_made::<(u64, u32), Duration, W>(writer, src)
    }

    #[inline(always)]
    fn known_size() -> Option<usize> {
        Some(12)
    }

    #[inline(always)]
    fn encode_front(src: &Duration, dst: &mut [u8]) -> Option<usize> {
        encode_made::<(u64, u32), Duration>(src, dst)
    }

    #[inline(always)]
    fn write_at_once<W: Writer>(writer: &mut W, items: &[Self::Src]) -> Option<WriteResult<()>> {
        let _ = &*writer;
        let _items = items.len();
        None
    }

    ghost write_laws = { made_write_laws (λ x. AreTime (2 ^ 64) (duration_parts x) (duration_parts x)) duration_parts
        ⟦<(u64, u32) as SchemaWrite>⟧.write_laws };
}

impl SchemaWrite for SystemTime {
    type Src = SystemTime;

    ghost Value = { ⟦<(u64, u32) as SchemaWrite>⟧.Value };

    ghost model = { λ x. ⟦<(u64, u32) as SchemaWrite>⟧.model (clock_parts x) };

    ghost is_valid = { λ x. AreTime (2 ^ 63) (clock_parts x) (clock_parts x) × ⟦<(u64, u32) as SchemaWrite>⟧.is_valid (clock_parts x) };

    ghost writing = { reference_write ⟦<(u64, u32) as SchemaWrite>⟧.writing };

    fn type_meta() -> TypeMeta {
        reference_meta(<(u64, u32) as SchemaWrite>::type_meta())
    }

    fn size_of(src: &SystemTime) -> WriteResult<usize> {
        size_of_made::<(u64, u32), SystemTime>(src)
    }

    fn write<W: Writer>(writer: &mut W, src: &SystemTime) -> WriteResult<()> {
        write_made::<(u64, u32), SystemTime, W>(writer, src)
    }

    #[inline(always)]
    fn known_size() -> Option<usize> {
        Some(12)
    }

    #[inline(always)]
    fn encode_front(src: &SystemTime, dst: &mut [u8]) -> Option<usize> {
        encode_made::<(u64, u32), SystemTime>(src, dst)
    }

    #[inline(always)]
    fn write_at_once<W: Writer>(writer: &mut W, items: &[Self::Src]) -> Option<WriteResult<()>> {
        let _ = &*writer;
        let _items = items.len();
        None
    }

    ghost write_laws = { made_write_laws (λ x. AreTime (2 ^ 63) (clock_parts x) (clock_parts x)) clock_parts
        ⟦<(u64, u32) as SchemaWrite>⟧.write_laws };
}

impl SchemaWrite for Ipv4Addr {
    type Src = Ipv4Addr;

    ghost Value = { ⟦<[u8; 4] as SchemaWrite>⟧.Value };

    ghost model = { λ x. ⟦<[u8; 4] as SchemaWrite>⟧.model (ipv4_octets x) };

    ghost is_valid = { λ x. IsSame (ipv4_octets x) (ipv4_octets x) × ⟦<[u8; 4] as SchemaWrite>⟧.is_valid (ipv4_octets x) };

    ghost writing = { reference_write ⟦<[u8; 4] as SchemaWrite>⟧.writing };

    fn type_meta() -> TypeMeta {
        reference_meta(<[u8; 4] as SchemaWrite>::type_meta())
    }

    fn size_of(src: &Ipv4Addr) -> WriteResult<usize> {
        size_of_made::<[u8; 4], Ipv4Addr>(src)
    }

    fn write<W: Writer>(writer: &mut W, src: &Ipv4Addr) -> WriteResult<()> {
        write_made::<[u8; 4], Ipv4Addr, W>(writer, src)
    }

    #[inline(always)]
    fn known_size() -> Option<usize> {
        None
    }

    #[inline(always)]
    fn encode_front(src: &Ipv4Addr, dst: &mut [u8]) -> Option<usize> {
        encode_made::<[u8; 4], Ipv4Addr>(src, dst)
    }

    #[inline(always)]
    fn write_at_once<W: Writer>(writer: &mut W, items: &[Self::Src]) -> Option<WriteResult<()>> {
        let _ = &*writer;
        let _items = items.len();
        None
    }

    ghost write_laws = { made_write_laws (λ x. IsSame (ipv4_octets x) (ipv4_octets x)) ipv4_octets ⟦<[u8; 4] as SchemaWrite>⟧.write_laws };
}

impl SchemaWrite for Ipv6Addr {
    type Src = Ipv6Addr;

    ghost Value = { ⟦<[u8; 16] as SchemaWrite>⟧.Value };

    ghost model = { λ x. ⟦<[u8; 16] as SchemaWrite>⟧.model (ipv6_octets x) };

    ghost is_valid = { λ x. IsSame (ipv6_octets x) (ipv6_octets x) × ⟦<[u8; 16] as SchemaWrite>⟧.is_valid (ipv6_octets x) };

    ghost writing = { reference_write ⟦<[u8; 16] as SchemaWrite>⟧.writing };

    fn type_meta() -> TypeMeta {
        reference_meta(<[u8; 16] as SchemaWrite>::type_meta())
    }

    fn size_of(src: &Ipv6Addr) -> WriteResult<usize> {
        size_of_made::<[u8; 16], Ipv6Addr>(src)
    }

    fn write<W: Writer>(writer: &mut W, src: &Ipv6Addr) -> WriteResult<()> {
        write_made::<[u8; 16], Ipv6Addr, W>(writer, src)
    }

    #[inline(always)]
    fn known_size() -> Option<usize> {
        None
    }

    #[inline(always)]
    fn encode_front(src: &Ipv6Addr, dst: &mut [u8]) -> Option<usize> {
        encode_made::<[u8; 16], Ipv6Addr>(src, dst)
    }

    #[inline(always)]
    fn write_at_once<W: Writer>(writer: &mut W, items: &[Self::Src]) -> Option<WriteResult<()>> {
        let _ = &*writer;
        let _items = items.len();
        None
    }

    ghost write_laws = { made_write_laws (λ x. IsSame (ipv6_octets x) (ipv6_octets x)) ipv6_octets ⟦<[u8; 16] as SchemaWrite>⟧.write_laws };
}

impl SchemaWrite for IpAddr {
    type Src = IpAddr;

    ghost Value = { ⟦<Result<Ipv4Addr, Ipv6Addr> as SchemaWrite>⟧.Value };

    ghost model = { λ x. ⟦<Result<Ipv4Addr, Ipv6Addr> as SchemaWrite>⟧.model (ip_parts x) };

    ghost is_valid = { λ x. IsSame (ip_parts x) (ip_parts x) × ⟦<Result<Ipv4Addr, Ipv6Addr> as SchemaWrite>⟧.is_valid (ip_parts x) };

    ghost writing = { reference_write ⟦<Result<Ipv4Addr, Ipv6Addr> as SchemaWrite>⟧.writing };

    fn type_meta() -> TypeMeta {
        reference_meta(<Result<Ipv4Addr, Ipv6Addr> as SchemaWrite>::type_meta())
    }

    fn size_of(src: &IpAddr) -> WriteResult<usize> {
        size_of_made::<Result<Ipv4Addr, Ipv6Addr>, IpAddr>(src)
    }

    fn write<W: Writer>(writer: &mut W, src: &IpAddr) -> WriteResult<()> {
        write_made::<Result<Ipv4Addr, Ipv6Addr>, IpAddr, W>(writer, src)
    }

    #[inline(always)]
    fn known_size() -> Option<usize> {
        None
    }

    #[inline(always)]
    fn encode_front(src: &IpAddr, dst: &mut [u8]) -> Option<usize> {
        encode_made::<Result<Ipv4Addr, Ipv6Addr>, IpAddr>(src, dst)
    }

    #[inline(always)]
    fn write_at_once<W: Writer>(writer: &mut W, items: &[Self::Src]) -> Option<WriteResult<()>> {
        let _ = &*writer;
        let _items = items.len();
        None
    }

    ghost write_laws = { made_write_laws (λ x. IsSame (ip_parts x) (ip_parts x)) ip_parts ⟦<Result<Ipv4Addr, Ipv6Addr> as SchemaWrite>⟧.write_laws };
}

impl SchemaWrite for SocketAddrV4 {
    type Src = SocketAddrV4;

    ghost Value = { ⟦<([u8; 4], u16) as SchemaWrite>⟧.Value };

    ghost model = { λ x. ⟦<([u8; 4], u16) as SchemaWrite>⟧.model (socket_v4_parts x) };

    ghost is_valid = { λ x. IsSame (socket_v4_parts x) (socket_v4_parts x) × ⟦<([u8; 4], u16) as SchemaWrite>⟧.is_valid (socket_v4_parts x) };

    ghost writing = { reference_write ⟦<([u8; 4], u16) as SchemaWrite>⟧.writing };

    fn type_meta() -> TypeMeta {
        reference_meta(<([u8; 4], u16) as SchemaWrite>::type_meta())
    }

    fn size_of(src: &SocketAddrV4) -> WriteResult<usize> {
        size_of_made::<([u8; 4], u16), SocketAddrV4>(src)
    }

    fn write<W: Writer>(writer: &mut W, src: &SocketAddrV4) -> WriteResult<()> {
        write_made::<([u8; 4], u16), SocketAddrV4, W>(writer, src)
    }

    #[inline(always)]
    fn known_size() -> Option<usize> {
        None
    }

    #[inline(always)]
    fn encode_front(src: &SocketAddrV4, dst: &mut [u8]) -> Option<usize> {
        encode_made::<([u8; 4], u16), SocketAddrV4>(src, dst)
    }

    #[inline(always)]
    fn write_at_once<W: Writer>(writer: &mut W, items: &[Self::Src]) -> Option<WriteResult<()>> {
        let _ = &*writer;
        let _items = items.len();
        None
    }

    ghost write_laws = { made_write_laws (λ x. IsSame (socket_v4_parts x) (socket_v4_parts x)) socket_v4_parts
        ⟦<([u8; 4], u16) as SchemaWrite>⟧.write_laws };
}

impl SchemaWrite for SocketAddrV6 {
    type Src = SocketAddrV6;

    ghost Value = { ⟦<([u8; 16], u16) as SchemaWrite>⟧.Value };

    ghost model = { λ x. ⟦<([u8; 16], u16) as SchemaWrite>⟧.model (socket_v6_parts x) };

    ghost is_valid = { λ x. IsSame (socket_v6_written x) (socket_v6_written x) × ⟦<([u8; 16], u16) as SchemaWrite>⟧.is_valid (socket_v6_written x) };

    ghost writing = { unscoped_write (reference_write ⟦<([u8; 16], u16) as SchemaWrite>⟧.writing) };

    fn type_meta() -> TypeMeta {
        reference_meta(<([u8; 16], u16) as SchemaWrite>::type_meta())
    }

    fn size_of(src: &SocketAddrV6) -> WriteResult<usize> {
        size_of_made::<([u8; 16], u16), SocketAddrV6>(src)
    }

    fn write<W: Writer>(writer: &mut W, src: &SocketAddrV6) -> WriteResult<()> {
        write_made::<([u8; 16], u16), SocketAddrV6, W>(writer, src)
    }

    #[inline(always)]
    fn known_size() -> Option<usize> {
        None
    }

    #[inline(always)]
    fn encode_front(src: &SocketAddrV6, dst: &mut [u8]) -> Option<usize> {
        encode_made::<([u8; 16], u16), SocketAddrV6>(src, dst)
    }

    #[inline(always)]
    fn write_at_once<W: Writer>(writer: &mut W, items: &[Self::Src]) -> Option<WriteResult<()>> {
        let _ = &*writer;
        let _items = items.len();
        None
    }

    ghost write_laws = { unscoped_write_laws ⟦<([u8; 16], u16) as SchemaWrite>⟧.model socket_v6_parts socket_v6_written (λ y c. c)
        ⟦<([u8; 16], u16) as SchemaWrite>⟧.write_laws };
}

impl SchemaWrite for SocketAddr {
    type Src = SocketAddr;

    ghost Value = { ⟦<Result<SocketAddrV4, SocketAddrV6> as SchemaWrite>⟧.Value };

    ghost model = { λ x. ⟦<Result<SocketAddrV4, SocketAddrV6> as SchemaWrite>⟧.model (socket_parts x) };

    ghost is_valid = { λ x. IsSame (socket_parts x) (socket_parts x) ×
        ⟦<Result<SocketAddrV4, SocketAddrV6> as SchemaWrite>⟧.is_valid (socket_parts x) };

    ghost writing = { reference_write ⟦<Result<SocketAddrV4, SocketAddrV6> as SchemaWrite>⟧.writing };

    fn type_meta() -> TypeMeta {
        reference_meta(<Result<SocketAddrV4, SocketAddrV6> as SchemaWrite>::type_meta())
    }

    fn size_of(src: &SocketAddr) -> WriteResult<usize> {
        size_of_made::<Result<SocketAddrV4, SocketAddrV6>, SocketAddr>(src)
    }

    fn write<W: Writer>(writer: &mut W, src: &SocketAddr) -> WriteResult<()> {
        write_made::<Result<SocketAddrV4, SocketAddrV6>, SocketAddr, W>(writer, src)
    }

    #[inline(always)]
    fn known_size() -> Option<usize> {
        None
    }

    #[inline(always)]
    fn encode_front(src: &SocketAddr, dst: &mut [u8]) -> Option<usize> {
        encode_made::<Result<SocketAddrV4, SocketAddrV6>, SocketAddr>(src, dst)
    }

    #[inline(always)]
    fn write_at_once<W: Writer>(writer: &mut W, items: &[Self::Src]) -> Option<WriteResult<()>> {
        let _ = &*writer;
        let _items = items.len();
        None
    }

    ghost write_laws = { made_write_laws (λ x. IsSame (socket_parts x) (socket_parts x)) socket_parts
        ⟦<Result<SocketAddrV4, SocketAddrV6> as SchemaWrite>⟧.write_laws };
}

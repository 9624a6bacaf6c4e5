//! Written by `tools/templates`: schemas of floats, of times and of addresses.
ghost use Rattle.std.proofs.Common.{lit≤};
ghost use Rattle.std.specs.Net.Addr.{ipv4_octets, ipv6_octets};
ghost use Rattle.std.specs.Prelude.{[], ◌<◌, ◌^◌, to_bits, true};
ghost use Rattle.wincode_base.specs.ArrayLaws.{array_read_laws};
ghost use Rattle.wincode_base.specs.LeafLaws.{number_read_laws};
ghost use Rattle.wincode_base.specs.Leaves.{number_read};
ghost use Rattle.wincode_base.specs.Made.{
  AreBits,
  AreTime,
  IsMadeOf,
  IsSame,
  clock_parts,
  duration_parts,
  ip_parts,
  is_overflow,
  made_read,
  socket_parts,
  socket_v4_parts,
  socket_v6_parts,
};
ghost use Rattle.wincode_base.specs.MadeLaws.{made_read_laws, one_float, one_same, one_time};
ghost use Rattle.wincode_base.specs.PairLaws.{pair_read_laws, windowed_read_laws};
ghost use Rattle.wincode_base.specs.TagLaws.{result_read_laws};
ghost use lib.Ieee.{binary32, binary64};

use crate::schema::SchemaRead;
use crate::schema::made::floats::add_floats;
use crate::schema::made::{decode_made, read_made};
use std::alloc::Global;
use std::net::{IpAddr, Ipv4Addr, Ipv6Addr, SocketAddr, SocketAddrV4, SocketAddrV6};
use std::time::{Duration, SystemTime, UNIX_EPOCH};
use wincode_base::error::ReadResult;
use wincode_base::meta::TypeMeta;
use wincode_base::sizes::reference_meta;
use wincode_io::{Lending, Reader};

impl<L: Lending> SchemaRead<L> for f32 {
    type Dst = f32;

    ghost Value = { ⟦<u32 as SchemaRead<L>>⟧.Value };

    ghost model = { λ x. ⟦<u32 as SchemaRead<L>>⟧.model (to_bits binary32 x) };

    ghost is_valid = { IsMadeOf ⟦<u32 as SchemaRead<L>>⟧.model (AreBits binary32) ⟦<u32 as SchemaRead<L>>⟧.is_valid };

    ghost reading = { made_read ⟦<u32 as SchemaRead<L>>⟧.model (AreBits binary32) [] ⟦<u32 as SchemaRead<L>>⟧.reading };

    fn type_meta() -> TypeMeta {
        reference_meta(<u32 as SchemaRead<L>>::type_meta())
    }

    fn prealloc_size() -> usize {
        <u32 as SchemaRead<L>>::prealloc_size()
    }

    fn read<R: Reader<L>>(alloc: Global, reader: &mut R, dst: &mut Option<f32>) -> ReadResult<()> {
        read_made::<L, u32, f32, R>(alloc, reader, dst)
    }

    fn read_at_once<R: Reader<L>>(
        _alloc: Global,
        reader: &mut R,
        n: usize,
        into: &mut Vec<Self::Dst>,
    ) -> Option<ReadResult<()>> {
        if add_floats::<L, u32, f32, R>(reader, n, into) {
            Some(Ok(()))
        } else {
            None
        }
    }

    #[inline(always)]
    fn blank() -> Option<f32> {
        Some(0.0)
    }

    #[inline(always)]
    fn decode(bytes: &[u8], place: &mut f32) -> bool {
        decode_made::<L, u32, f32>(bytes, place)
    }

    ghost read_laws = { made_read_laws ⟦<u32 as SchemaRead<L>>⟧.model (AreBits binary32) [] ⟦<u32 as SchemaRead<L>>⟧.reading
        (one_float binary32) (number_read_laws 4 true (lit≤ tt)) };
}

impl<L: Lending> SchemaRead<L> for f64 {
    type Dst = f64;

    ghost Value = { ⟦<u64 as SchemaRead<L>>⟧.Value };

    ghost model = { λ x. ⟦<u64 as SchemaRead<L>>⟧.model (to_bits binary64 x) };

    ghost is_valid = { IsMadeOf ⟦<u64 as SchemaRead<L>>⟧.model (AreBits binary64) ⟦<u64 as SchemaRead<L>>⟧.is_valid };

    ghost reading = { made_read ⟦<u64 as SchemaRead<L>>⟧.model (AreBits binary64) [] ⟦<u64 as SchemaRead<L>>⟧.reading };

    fn type_meta() -> TypeMeta {
        reference_meta(<u64 as SchemaRead<L>>::type_meta())
    }

    fn prealloc_size() -> usize {
        <u64 as SchemaRead<L>>::prealloc_size()
    }

    fn read<R: Reader<L>>(alloc: Global, reader: &mut R, dst: &mut Option<f64>) -> ReadResult<()> {
        read_made::<L, u64, f64, R>(alloc, reader, dst)
    }

    fn read_at_once<R: Reader<L>>(
        _alloc: Global,
        reader: &mut R,
        n: usize,
        into: &mut Vec<Self::Dst>,
    ) -> Option<ReadResult<()>> {
        if add_floats::<L, u64, f64, R>(reader, n, into) {
            Some(Ok(()))
        } else {
            None
        }
    }

    #[inline(always)]
    fn blank() -> Option<f64> {
        Some(0.0)
    }

    #[inline(always)]
    fn decode(bytes: &[u8], place: &mut f64) -> bool {
        decode_made::<L, u64, f64>(bytes, place)
    }

    ghost read_laws = { made_read_laws ⟦<u64 as SchemaRead<L>>⟧.model (AreBits binary64) [] ⟦<u64 as SchemaRead<L>>⟧.reading
        (one_float binary64) (number_read_laws 8 true (lit≤ tt)) };
}

impl<L: Lending> SchemaRead<L> for Duration {
    type Dst = Duration;

    ghost Value = { ⟦<(u64, u32) as SchemaRead<L>>⟧.Value };

    ghost model = { λ x. ⟦<(u64, u32) as SchemaRead<L>>⟧.model (duration_parts x) };

    ghost is_valid = { IsMadeOf ⟦<(u64, u32) as SchemaRead<L>>⟧.model (AreTime (2 ^ 64)) ⟦<(u64, u32) as SchemaRead<L>>⟧.is_valid };

    ghost reading = { made_read ⟦<(u64, u32) as SchemaRead<L>>⟧.model (AreTime (2 ^ 64)) is_overflow ⟦<(u64, u32) as SchemaRead<L>>⟧.reading };

    fn type_meta() -> TypeMeta {
        reference_meta(<(u64, u32) as SchemaRead<L>>::type_meta())
    }

    fn prealloc_size() -> usize {
        <(u64, u32) as SchemaRead<L>>::prealloc_size()
    }

    fn read<R: Reader<L>>(
        alloc: Global,
        reader: &mut R,
        dst: &mut Option<Duration>,
    ) -> ReadResult<()> {
        read_made::<L, (u64, u32), Duration, R>(alloc, reader, dst)
    }

    #[inline(always)]
    fn read_at_once<R: Reader<L>>(
        alloc: Global,
        reader: &mut R,
        n: usize,
        into: &mut Vec<Self::Dst>,
    ) -> Option<ReadResult<()>> {
        let _ = (alloc, n);
        let _ = &*reader;
        let _ = &*into;
        None
    }

    #[inline(always)]
    fn blank() -> Option<Duration> {
        Some(Duration::ZERO)
    }

    #[inline(always)]
    fn decode(bytes: &[u8], place: &mut Duration) -> bool {
        decode_made::<L, (u64, u32), Duration>(bytes, place)
    }

    ghost read_laws = { made_read_laws ⟦<(u64, u32) as SchemaRead<L>>⟧.model (AreTime (2 ^ 64)) is_overflow ⟦<(u64, u32) as SchemaRead<L>>⟧.reading
        (one_time (2 ^ 64)) (windowed_read_laws (pair_read_laws (number_read_laws 8 true (lit≤ tt)) (number_read_laws 4 true (lit≤ tt)))) };
}

impl<L: Lending> SchemaRead<L> for SystemTime {
    type Dst = SystemTime;

    ghost Value = { ⟦<(u64, u32) as SchemaRead<L>>⟧.Value };

    ghost model = { λ x. ⟦<(u64, u32) as SchemaRead<L>>⟧.model (clock_parts x) };

    ghost is_valid = { IsMadeOf ⟦<(u64, u32) as SchemaRead<L>>⟧.model (AreTime (2 ^ 63)) ⟦<(u64, u32) as SchemaRead<L>>⟧.is_valid };

    ghost reading = { made_read ⟦<(u64, u32) as SchemaRead<L>>⟧.model (AreTime (2 ^ 63)) is_overflow ⟦<(u64, u32) as SchemaRead<L>>⟧.reading };

    fn type_meta() -> TypeMeta {
        reference_meta(<(u64, u32) as SchemaRead<L>>::type_meta())
    }

    fn prealloc_size() -> usize {
        <(u64, u32) as SchemaRead<L>>::prealloc_size()
    }

    fn read<R: Reader<L>>(
        alloc: Global,
        reader: &mut R,
        dst: &mut Option<SystemTime>,
    ) -> ReadResult<()> {
        read_made::<L, (u64, u32), SystemTime, R>(alloc, reader, dst)
    }

    #[inline(always)]
    fn read_at_once<R: Reader<L>>(
        alloc: Global,
        reader: &mut R,
        n: usize,
        into: &mut Vec<Self::Dst>,
    ) -> Option<ReadResult<()>> {
        let _ = (alloc, n);
        let _ = &*reader;
        let _ = &*into;
        None
    }

    #[inline(always)]
    fn blank() -> Option<SystemTime> {
        Some(UNIX_EPOCH)
    }

    #[inline(always)]
    fn decode(bytes: &[u8], place: &mut SystemTime) -> bool {
        decode_made::<L, (u64, u32), SystemTime>(bytes, place)
    }

    ghost read_laws = { made_read_laws ⟦<(u64, u32) as SchemaRead<L>>⟧.model (AreTime (2 ^ 63)) is_overflow ⟦<(u64, u32) as SchemaRead<L>>⟧.reading
        (one_time (2 ^ 63)) (windowed_read_laws (pair_read_laws (number_read_laws 8 true (lit≤ tt)) (number_read_laws 4 true (lit≤ tt)))) };
}

impl<L: Lending> SchemaRead<L> for Ipv4Addr {
    type Dst = Ipv4Addr;

    ghost Value = { ⟦<[u8; 4] as SchemaRead<L>>⟧.Value };

    ghost model = { λ x. ⟦<[u8; 4] as SchemaRead<L>>⟧.model (ipv4_octets x) };

    ghost is_valid = { IsMadeOf ⟦<[u8; 4] as SchemaRead<L>>⟧.model IsSame ⟦<[u8; 4] as SchemaRead<L>>⟧.is_valid };

    ghost reading = { made_read ⟦<[u8; 4] as SchemaRead<L>>⟧.model IsSame [] ⟦<[u8; 4] as SchemaRead<L>>⟧.reading };

    fn type_meta() -> TypeMeta {
        reference_meta(<[u8; 4] as SchemaRead<L>>::type_meta())
    }

    fn prealloc_size() -> usize {
        <[u8; 4] as SchemaRead<L>>::prealloc_size()
    }

    fn read<R: Reader<L>>(
        alloc: Global,
        reader: &mut R,
        dst: &mut Option<Ipv4Addr>,
    ) -> ReadResult<()> {
        read_made::<L, [u8; 4], Ipv4Addr, R>(alloc, reader, dst)
    }

    #[inline(always)]
    fn read_at_once<R: Reader<L>>(
        alloc: Global,
        reader: &mut R,
        n: usize,
        into: &mut Vec<Self::Dst>,
    ) -> Option<ReadResult<()>> {
        let _ = (alloc, n);
        let _ = &*reader;
        let _ = &*into;
        None
    }

    #[inline(always)]
    fn blank() -> Option<Ipv4Addr> {
        Some(Ipv4Addr::UNSPECIFIED)
    }

    #[inline(always)]
    fn decode(bytes: &[u8], place: &mut Ipv4Addr) -> bool {
        decode_made::<L, [u8; 4], Ipv4Addr>(bytes, place)
    }

    ghost read_laws = { made_read_laws ⟦<[u8; 4] as SchemaRead<L>>⟧.model IsSame [] ⟦<[u8; 4] as SchemaRead<L>>⟧.reading (one_same
        ⟦<[u8; 4] as SchemaRead<L>>⟧.model) (windowed_read_laws
        (array_read_laws 4 (λ v. v < 256 ^ 1) (number_read 1 true) (number_read_laws 1 true (lit≤ tt)))) };
}

impl<L: Lending> SchemaRead<L> for Ipv6Addr {
    type Dst = Ipv6Addr;

    ghost Value = { ⟦<[u8; 16] as SchemaRead<L>>⟧.Value };

    ghost model = { λ x. ⟦<[u8; 16] as SchemaRead<L>>⟧.model (ipv6_octets x) };

    ghost is_valid = { IsMadeOf ⟦<[u8; 16] as SchemaRead<L>>⟧.model IsSame ⟦<[u8; 16] as SchemaRead<L>>⟧.is_valid };

    ghost reading = { made_read ⟦<[u8; 16] as SchemaRead<L>>⟧.model IsSame [] ⟦<[u8; 16] as SchemaRead<L>>⟧.reading };

    fn type_meta() -> TypeMeta {
        reference_meta(<[u8; 16] as SchemaRead<L>>::type_meta())
    }

    fn prealloc_size() -> usize {
        <[u8; 16] as SchemaRead<L>>::prealloc_size()
    }

    fn read<R: Reader<L>>(
        alloc: Global,
        reader: &mut R,
        dst: &mut Option<Ipv6Addr>,
    ) -> ReadResult<()> {
        read_made::<L, [u8; 16], Ipv6Addr, R>(alloc, reader, dst)
    }

    #[inline(always)]
    fn read_at_once<R: Reader<L>>(
        alloc: Global,
        reader: &mut R,
        n: usize,
        into: &mut Vec<Self::Dst>,
    ) -> Option<ReadResult<()>> {
        let _ = (alloc, n);
        let _ = &*reader;
        let _ = &*into;
        None
    }

    #[inline(always)]
    fn blank() -> Option<Ipv6Addr> {
        Some(Ipv6Addr::UNSPECIFIED)
    }

    #[inline(always)]
    fn decode(bytes: &[u8], place: &mut Ipv6Addr) -> bool {
        decode_made::<L, [u8; 16], Ipv6Addr>(bytes, place)
    }

    ghost read_laws = { made_read_laws ⟦<[u8; 16] as SchemaRead<L>>⟧.model IsSame [] ⟦<[u8; 16] as SchemaRead<L>>⟧.reading (one_same
        ⟦<[u8; 16] as SchemaRead<L>>⟧.model) (windowed_read_laws
        (array_read_laws 16 (λ v. v < 256 ^ 1) (number_read 1 true) (number_read_laws 1 true (lit≤ tt)))) };
}

impl<L: Lending> SchemaRead<L> for IpAddr {
    type Dst = IpAddr;

    ghost Value = { ⟦<Result<Ipv4Addr, Ipv6Addr> as SchemaRead<L>>⟧.Value };

    ghost model = { λ x. ⟦<Result<Ipv4Addr, Ipv6Addr> as SchemaRead<L>>⟧.model (ip_parts x) };

    ghost is_valid = { IsMadeOf ⟦<Result<Ipv4Addr, Ipv6Addr> as SchemaRead<L>>⟧.model IsSame
        ⟦<Result<Ipv4Addr, Ipv6Addr> as SchemaRead<L>>⟧.is_valid };

    ghost reading = { made_read ⟦<Result<Ipv4Addr, Ipv6Addr> as SchemaRead<L>>⟧.model IsSame []
        ⟦<Result<Ipv4Addr, Ipv6Addr> as SchemaRead<L>>⟧.reading };

    fn type_meta() -> TypeMeta {
        reference_meta(<Result<Ipv4Addr, Ipv6Addr> as SchemaRead<L>>::type_meta())
    }

    fn prealloc_size() -> usize {
        <Result<Ipv4Addr, Ipv6Addr> as SchemaRead<L>>::prealloc_size()
    }

    fn read<R: Reader<L>>(
        alloc: Global,
        reader: &mut R,
        dst: &mut Option<IpAddr>,
    ) -> ReadResult<()> {
        read_made::<L, Result<Ipv4Addr, Ipv6Addr>, IpAddr, R>(alloc, reader, dst)
    }

    #[inline(always)]
    fn read_at_once<R: Reader<L>>(
        alloc: Global,
        reader: &mut R,
        n: usize,
        into: &mut Vec<Self::Dst>,
    ) -> Option<ReadResult<()>> {
        let _ = (alloc, n);
        let _ = &*reader;
        let _ = &*into;
        None
    }

    #[inline(always)]
    fn blank() -> Option<IpAddr> {
        Some(IpAddr::V4(Ipv4Addr::UNSPECIFIED))
    }

    #[inline(always)]
    fn decode(bytes: &[u8], place: &mut IpAddr) -> bool {
        decode_made::<L, Result<Ipv4Addr, Ipv6Addr>, IpAddr>(bytes, place)
    }

    ghost read_laws = { made_read_laws ⟦<Result<Ipv4Addr, Ipv6Addr> as SchemaRead<L>>⟧.model IsSame []
        ⟦<Result<Ipv4Addr, Ipv6Addr> as SchemaRead<L>>⟧.reading (one_same ⟦<Result<Ipv4Addr, Ipv6Addr> as SchemaRead<L>>⟧.model)
        (result_read_laws 4 (lit≤ tt) ⟦<Ipv4Addr as SchemaRead<L>>⟧.is_valid ⟦<Ipv6Addr as SchemaRead<L>>⟧.is_valid
        ⟦<Ipv4Addr as SchemaRead<L>>⟧.reading ⟦<Ipv6Addr as SchemaRead<L>>⟧.reading (made_read_laws ⟦<[u8; 4] as SchemaRead<L>>⟧.model IsSame []
        ⟦<[u8; 4] as SchemaRead<L>>⟧.reading (one_same ⟦<[u8; 4] as SchemaRead<L>>⟧.model) (windowed_read_laws
        (array_read_laws 4 (λ v. v < 256 ^ 1) (number_read 1 true) (number_read_laws 1 true (lit≤ tt))))) (made_read_laws
        ⟦<[u8; 16] as SchemaRead<L>>⟧.model IsSame [] ⟦<[u8; 16] as SchemaRead<L>>⟧.reading (one_same ⟦<[u8; 16] as SchemaRead<L>>⟧.model)
        (windowed_read_laws (array_read_laws 16 (λ v. v < 256 ^ 1) (number_read 1 true) (number_read_laws 1 true (lit≤ tt)))))) };
}

impl<L: Lending> SchemaRead<L> for SocketAddrV4 {
    type Dst = SocketAddrV4;

    ghost Value = { ⟦<([u8; 4], u16) as SchemaRead<L>>⟧.Value };

    ghost model = { λ x. ⟦<([u8; 4], u16) as SchemaRead<L>>⟧.model (socket_v4_parts x) };

    ghost is_valid = { IsMadeOf ⟦<([u8; 4], u16) as SchemaRead<L>>⟧.model IsSame ⟦<([u8; 4], u16) as SchemaRead<L>>⟧.is_valid };

    ghost reading = { made_read ⟦<([u8; 4], u16) as SchemaRead<L>>⟧.model IsSame [] ⟦<([u8; 4], u16) as SchemaRead<L>>⟧.reading };

    fn type_meta() -> TypeMeta {
        reference_meta(<([u8; 4], u16) as SchemaRead<L>>::type_meta())
    }

    fn prealloc_size() -> usize {
        <([u8; 4], u16) as SchemaRead<L>>::prealloc_size()
    }

    fn read<R: Reader<L>>(
        alloc: Global,
        reader: &mut R,
        dst: &mut Option<SocketAddrV4>,
    ) -> ReadResult<()> {
        read_made::<L, ([u8; 4], u16), SocketAddrV4, R>(alloc, reader, dst)
    }

    #[inline(always)]
    fn read_at_once<R: Reader<L>>(
        alloc: Global,
        reader: &mut R,
        n: usize,
        into: &mut Vec<Self::Dst>,
    ) -> Option<ReadResult<()>> {
        let _ = (alloc, n);
        let _ = &*reader;
        let _ = &*into;
        None
    }

    #[inline(always)]
    fn blank() -> Option<SocketAddrV4> {
        Some(SocketAddrV4::new(Ipv4Addr::UNSPECIFIED, 0))
    }

    #[inline(always)]
    fn decode(bytes: &[u8], place: &mut SocketAddrV4) -> bool {
        decode_made::<L, ([u8; 4], u16), SocketAddrV4>(bytes, place)
    }

    ghost read_laws = { made_read_laws ⟦<([u8; 4], u16) as SchemaRead<L>>⟧.model IsSame [] ⟦<([u8; 4], u16) as SchemaRead<L>>⟧.reading (one_same
        ⟦<([u8; 4], u16) as SchemaRead<L>>⟧.model) (windowed_read_laws (pair_read_laws (windowed_read_laws
        (array_read_laws 4 (λ v. v < 256 ^ 1) (number_read 1 true) (number_read_laws 1 true (lit≤ tt)))) (number_read_laws 2 true (lit≤ tt)))) };
}

impl<L: Lending> SchemaRead<L> for SocketAddrV6 {
    type Dst = SocketAddrV6;

    ghost Value = { ⟦<([u8; 16], u16) as SchemaRead<L>>⟧.Value };

    ghost model = { λ x. ⟦<([u8; 16], u16) as SchemaRead<L>>⟧.model (socket_v6_parts x) };

    ghost is_valid = { IsMadeOf ⟦<([u8; 16], u16) as SchemaRead<L>>⟧.model IsSame ⟦<([u8; 16], u16) as SchemaRead<L>>⟧.is_valid };

    ghost reading = { made_read ⟦<([u8; 16], u16) as SchemaRead<L>>⟧.model IsSame [] ⟦<([u8; 16], u16) as SchemaRead<L>>⟧.reading };

    fn type_meta() -> TypeMeta {
        reference_meta(<([u8; 16], u16) as SchemaRead<L>>::type_meta())
    }

    fn prealloc_size() -> usize {
        <([u8; 16], u16) as SchemaRead<L>>::prealloc_size()
    }

    fn read<R: Reader<L>>(
        alloc: Global,
        reader: &mut R,
        dst: &mut Option<SocketAddrV6>,
    ) -> ReadResult<()> {
        read_made::<L, ([u8; 16], u16), SocketAddrV6, R>(alloc, reader, dst)
    }

    #[inline(always)]
    fn read_at_once<R: Reader<L>>(
        alloc: Global,
        reader: &mut R,
        n: usize,
        into: &mut Vec<Self::Dst>,
    ) -> Option<ReadResult<()>> {
        let _ = (alloc, n);
        let _ = &*reader;
        let _ = &*into;
        None
    }

    #[inline(always)]
    fn blank() -> Option<SocketAddrV6> {
        Some(SocketAddrV6::new(Ipv6Addr::UNSPECIFIED, 0, 0, 0))
    }

    #[inline(always)]
    fn decode(bytes: &[u8], place: &mut SocketAddrV6) -> bool {
        decode_made::<L, ([u8; 16], u16), SocketAddrV6>(bytes, place)
    }

    ghost read_laws = { made_read_laws ⟦<([u8; 16], u16) as SchemaRead<L>>⟧.model IsSame [] ⟦<([u8; 16], u16) as SchemaRead<L>>⟧.reading (one_same
        ⟦<([u8; 16], u16) as SchemaRead<L>>⟧.model) (windowed_read_laws (pair_read_laws (windowed_read_laws
        (array_read_laws 16 (λ v. v < 256 ^ 1) (number_read 1 true) (number_read_laws 1 true (lit≤ tt)))) (number_read_laws 2 true (lit≤ tt)))) };
}

impl<L: Lending> SchemaRead<L> for SocketAddr {
    type Dst = SocketAddr;

    ghost Value = { ⟦<Result<SocketAddrV4, SocketAddrV6> as SchemaRead<L>>⟧.Value };

    ghost model = { λ x. ⟦<Result<SocketAddrV4, SocketAddrV6> as SchemaRead<L>>⟧.model (socket_parts x) };

    ghost is_valid = { IsMadeOf ⟦<Result<SocketAddrV4, SocketAddrV6> as SchemaRead<L>>⟧.model IsSame
        ⟦<Result<SocketAddrV4, SocketAddrV6> as SchemaRead<L>>⟧.is_valid };

    ghost reading = { made_read ⟦<Result<SocketAddrV4, SocketAddrV6> as SchemaRead<L>>⟧.model IsSame []
        ⟦<Result<SocketAddrV4, SocketAddrV6> as SchemaRead<L>>⟧.reading };

    fn type_meta() -> TypeMeta {
        reference_meta(<Result<SocketAddrV4, SocketAddrV6> as SchemaRead<L>>::type_meta())
    }

    fn prealloc_size() -> usize {
        <Result<SocketAddrV4, SocketAddrV6> as SchemaRead<L>>::prealloc_size()
    }

    fn read<R: Reader<L>>(
        alloc: Global,
        reader: &mut R,
        dst: &mut Option<SocketAddr>,
    ) -> ReadResult<()> {
        read_made::<L, Result<SocketAddrV4, SocketAddrV6>, SocketAddr, R>(alloc, reader, dst)
    }

    #[inline(always)]
    fn read_at_once<R: Reader<L>>(
        alloc: Global,
        reader: &mut R,
        n: usize,
        into: &mut Vec<Self::Dst>,
    ) -> Option<ReadResult<()>> {
        let _ = (alloc, n);
        let _ = &*reader;
        let _ = &*into;
        None
    }

    #[inline(always)]
    fn blank() -> Option<SocketAddr> {
        Some(SocketAddr::V6(SocketAddrV6::new(Ipv6Addr::UNSPECIFIED, 0, 0, 0)))
    }

    #[inline(always)]
    fn decode(bytes: &[u8], place: &mut SocketAddr) -> bool {
        decode_made::<L, Result<SocketAddrV4, SocketAddrV6>, SocketAddr>(bytes, place)
    }

    ghost read_laws = { made_read_laws ⟦<Result<SocketAddrV4, SocketAddrV6> as SchemaRead<L>>⟧.model IsSame []
        ⟦<Result<SocketAddrV4, SocketAddrV6> as SchemaRead<L>>⟧.reading (one_same ⟦<Result<SocketAddrV4, SocketAddrV6> as SchemaRead<L>>⟧.model)
        (result_read_laws 4 (lit≤ tt) ⟦<SocketAddrV4 as SchemaRead<L>>⟧.is_valid ⟦<SocketAddrV6 as SchemaRead<L>>⟧.is_valid
        ⟦<SocketAddrV4 as SchemaRead<L>>⟧.reading ⟦<SocketAddrV6 as SchemaRead<L>>⟧.reading (made_read_laws
        ⟦<([u8; 4], u16) as SchemaRead<L>>⟧.model IsSame [] ⟦<([u8; 4], u16) as SchemaRead<L>>⟧.reading (one_same
        ⟦<([u8; 4], u16) as SchemaRead<L>>⟧.model) (windowed_read_laws (pair_read_laws (windowed_read_laws
        (array_read_laws 4 (λ v. v < 256 ^ 1) (number_read 1 true) (number_read_laws 1 true (lit≤ tt)))) (number_read_laws 2 true (lit≤ tt)))))
        (made_read_laws ⟦<([u8; 16], u16) as SchemaRead<L>>⟧.model IsSame [] ⟦<([u8; 16], u16) as SchemaRead<L>>⟧.reading (one_same
        ⟦<([u8; 16], u16) as SchemaRead<L>>⟧.model) (windowed_read_laws (pair_read_laws (windowed_read_laws
        (array_read_laws 16 (λ v. v < 256 ^ 1) (number_read 1 true) (number_read_laws 1 true (lit≤ tt)))) (number_read_laws 2 true (lit≤ tt)))))) };
}

//! Of which parts floats, times and addresses are made.
ghost use Rattle.std.specs.Net.Addr.{ipv4_octets, ipv6_octets};
ghost use Rattle.std.specs.Prelude.{◌≡◌, ◌^◌, to_bits};
ghost use Rattle.wincode_base.specs.Made.{AreBits, AreTime, IsSame, clock_parts, duration_parts, ip_parts, socket_parts, socket_v4_parts, socket_v6_written};
ghost use lib.Ieee.{binary32, binary64};

use crate::schema::made::ToParts;
use std::net::{IpAddr, Ipv4Addr, Ipv6Addr, SocketAddr, SocketAddrV4, SocketAddrV6};
use std::num;
use std::time::{Duration, SystemTime, UNIX_EPOCH};

const LAST_SEC: u64 = 0x7fff_ffff_ffff_ffff;

/// The bits of a float, which make it again.
fn bits_of_f32(x: f32) -> u32
    ensures bits { result ≡ to_bits binary32 x }
    ensures sound { AreBits binary32 (to_bits binary32 x) (to_bits binary32 x) }
{
    num::f32_to_bits_with_nan(x)
}

/// The bits of a float, which make it again.
fn bits_of_f64(x: f64) -> u64
    ensures bits { result ≡ to_bits binary64 x }
    ensures sound { AreBits binary64 (to_bits binary64 x) (to_bits binary64 x) }
{
    num::f64_to_bits_with_nan(x)
}

/// A NaN has one pattern.
impl ToParts<u32> for f32 {
    ghost parts = { to_bits binary32 };

    ghost sound = { λ x. AreBits binary32 (to_bits binary32 x) (to_bits binary32 x) };

    fn to_parts(&self) -> u32 {
        bits_of_f32(*self)
    }
}

/// A NaN has one pattern.
impl ToParts<u64> for f64 {
    ghost parts = { to_bits binary64 };

    ghost sound = { λ x. AreBits binary64 (to_bits binary64 x) (to_bits binary64 x) };

    fn to_parts(&self) -> u64 {
        bits_of_f64(*self)
    }
}

impl ToParts<(u64, u32)> for Duration {
    ghost parts = { duration_parts };

    ghost sound = { λ d. AreTime (2 ^ 64) (duration_parts d) (duration_parts d) };

    fn to_parts(&self) -> (u64, u32) {
        (self.as_secs(), self.subsec_nanos())
    }
}

/// The span of time since 1970, of fewer than 2^63 seconds.
impl ToParts<(u64, u32)> for SystemTime {
    ghost parts = { clock_parts };

    ghost sound = { λ t. AreTime (2 ^ 63) (clock_parts t) (clock_parts t) };

    fn to_parts(&self) -> (u64, u32) {
        match self.duration_since(UNIX_EPOCH) {
            Ok(since) if since.as_secs() <= LAST_SEC => (since.as_secs(), since.subsec_nanos()),
            Ok(_) => (LAST_SEC, 999_999_999),
            Err(_) => unreachable!(),
        }
    }
}

impl ToParts<[u8; 4]> for Ipv4Addr {
    ghost parts = { ipv4_octets };

    ghost sound = { λ x. IsSame (ipv4_octets x) (ipv4_octets x) };

    fn to_parts(&self) -> [u8; 4] {
        self.octets()
    }
}

impl ToParts<[u8; 16]> for Ipv6Addr {
    ghost parts = { ipv6_octets };

    ghost sound = { λ x. IsSame (ipv6_octets x) (ipv6_octets x) };

    fn to_parts(&self) -> [u8; 16] {
        self.octets()
    }
}

impl ToParts<Result<Ipv4Addr, Ipv6Addr>> for IpAddr {
    ghost parts = { ip_parts };

    ghost sound = { λ x. IsSame (ip_parts x) (ip_parts x) };

    fn to_parts(&self) -> Result<Ipv4Addr, Ipv6Addr> {
        match self {
            IpAddr::V4(address) => Ok(*address),
            IpAddr::V6(address) => Err(*address),
        }
    }
}

impl ToParts<([u8; 4], u16)> for SocketAddrV4 {
    ghost parts = { socket_v4_parts };

    ghost sound = { λ x. IsSame (socket_v4_parts x) (socket_v4_parts x) };

    fn to_parts(&self) -> ([u8; 4], u16) {
        let octets = self.ip().octets();
        (octets, self.port())
    }
}

/// Its flow label and its scope aren't written.
impl ToParts<([u8; 16], u16)> for SocketAddrV6 {
    ghost parts = { socket_v6_written };

    ghost sound = { λ x. IsSame (socket_v6_written x) (socket_v6_written x) };

    fn to_parts(&self) -> ([u8; 16], u16) {
        let octets = self.ip().octets();
        (octets, self.port())
    }
}

impl ToParts<Result<SocketAddrV4, SocketAddrV6>> for SocketAddr {
    ghost parts = { socket_parts };

    ghost sound = { λ x. IsSame (socket_parts x) (socket_parts x) };

    fn to_parts(&self) -> Result<SocketAddrV4, SocketAddrV6> {
        match self {
            SocketAddr::V4(address) => Ok(*address),
            SocketAddr::V6(address) => Err(*address),
        }
    }
}

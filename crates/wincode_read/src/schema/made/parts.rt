//! Of which parts floats, times and addresses are made.
ghost use Rattle.std.specs.Net.Addr.{ipv4_octets, ipv6_octets};
ghost use Rattle.std.specs.Prelude.{◌≡◌, [], ◌^◌, to_bits};
ghost use Rattle.wincode_base.specs.Made.{AreBits, AreTime, IsSame, clock_parts, duration_parts, ip_parts, is_overflow, socket_parts, socket_v4_parts, socket_v6_parts};
ghost use lib.Ieee.{binary32, binary64};

use crate::schema::made::FromParts;
use std::net::{IpAddr, Ipv4Addr, Ipv6Addr, SocketAddr, SocketAddrV4, SocketAddrV6};
use std::num;
use std::time::{Duration, SystemTime, UNIX_EPOCH};
use wincode_base::error::{ReadError, ReadResult};
use wincode_io::Lending;

const NANOS_PER_SEC: u32 = 1_000_000_000;

/// Every pattern of a NaN makes the one value that a NaN is.
impl<L: Lending> FromParts<L, u32> for f32 {
    ghost parts = { to_bits binary32 };

    ghost made = { AreBits binary32 };

    ghost text = { [] };

    fn from_parts(of: u32) -> ReadResult<f32> {
        Ok(num::f32_from_bits_with_nan(of))
    }
}

/// Every pattern of a NaN makes the one value that a NaN is.
impl<L: Lending> FromParts<L, u64> for f64 {
    ghost parts = { to_bits binary64 };

    ghost made = { AreBits binary64 };

    ghost text = { [] };

    fn from_parts(of: u64) -> ReadResult<f64> {
        Ok(num::f64_from_bits_with_nan(of))
    }
}

/// Nanoseconds past a second carry over.
impl<L: Lending> FromParts<L, (u64, u32)> for Duration {
    ghost parts = { duration_parts };

    ghost made = { AreTime (2 ^ 64) };

    ghost text = { is_overflow };

    fn from_parts(of: (u64, u32)) -> ReadResult<Duration> {
        let (secs, nanos) = of;
        match secs.checked_add((nanos / NANOS_PER_SEC) as u64) {
            Some(_) => Ok(Duration::new(secs, nanos)),
            None => Err(ReadError::Custom("overflow")),
        }
    }
}

/// The span of time since 1970, of fewer than 2^63 seconds.
impl<L: Lending> FromParts<L, (u64, u32)> for SystemTime {
    ghost parts = { clock_parts };

    ghost made = { AreTime (2 ^ 63) };

    ghost text = { is_overflow };

    fn from_parts(of: (u64, u32)) -> ReadResult<SystemTime> {
        let (secs, nanos) = of;
        let Some(_) = secs.checked_add((nanos / NANOS_PER_SEC) as u64) else {
            return Err(ReadError::Custom("overflow"));
        };
        match UNIX_EPOCH.checked_add(Duration::new(secs, nanos)) {
            Some(time) => Ok(time),
            None => Err(ReadError::Custom("overflow")),
        }
    }
}

/// The address of these octets.
fn ipv6_of(octets: [u8; 16]) -> Ipv6Addr
    ensures { ipv6_octets result ≡ octets }
{
    Ipv6Addr::from_octets(octets)
}

/// The address with these octets and this port.
fn socket_v4_of(of: ([u8; 4], u16)) -> SocketAddrV4
    ensures { socket_v4_parts result ≡ of }
{
    let (octets, port) = of;
    SocketAddrV4::new(Ipv4Addr::from_octets(octets), port)
}

/// The same. What isn't written is 0.
fn socket_v6_of(of: ([u8; 16], u16)) -> SocketAddrV6
    ensures { socket_v6_parts result ≡ of }
{
    let (octets, port) = of;
    SocketAddrV6::new(ipv6_of(octets), port, 0, 0)
}

impl<L: Lending> FromParts<L, [u8; 4]> for Ipv4Addr {
    ghost parts = { ipv4_octets };

    ghost made = { IsSame };

    ghost text = { [] };

    fn from_parts(of: [u8; 4]) -> ReadResult<Ipv4Addr> {
        Ok(Ipv4Addr::from_octets(of))
    }
}

impl<L: Lending> FromParts<L, [u8; 16]> for Ipv6Addr {
    ghost parts = { ipv6_octets };

    ghost made = { IsSame };

    ghost text = { [] };

    fn from_parts(of: [u8; 16]) -> ReadResult<Ipv6Addr> {
        Ok(ipv6_of(of))
    }
}

/// The number of an address's kind is 0 or 1, as that of a result's side.
impl<L: Lending> FromParts<L, Result<Ipv4Addr, Ipv6Addr>> for IpAddr {
    ghost parts = { ip_parts };

    ghost made = { IsSame };

    ghost text = { [] };

    fn from_parts(of: Result<Ipv4Addr, Ipv6Addr>) -> ReadResult<IpAddr> {
        match of {
            Ok(address) => Ok(IpAddr::V4(address)),
            Err(address) => Ok(IpAddr::V6(address)),
        }
    }
}

impl<L: Lending> FromParts<L, ([u8; 4], u16)> for SocketAddrV4 {
    ghost parts = { socket_v4_parts };

    ghost made = { IsSame };

    ghost text = { [] };

    fn from_parts(of: ([u8; 4], u16)) -> ReadResult<SocketAddrV4> {
        Ok(socket_v4_of(of))
    }
}

impl<L: Lending> FromParts<L, ([u8; 16], u16)> for SocketAddrV6 {
    ghost parts = { socket_v6_parts };

    ghost made = { IsSame };

    ghost text = { [] };

    fn from_parts(of: ([u8; 16], u16)) -> ReadResult<SocketAddrV6> {
        Ok(socket_v6_of(of))
    }
}

impl<L: Lending> FromParts<L, Result<SocketAddrV4, SocketAddrV6>> for SocketAddr {
    ghost parts = { socket_parts };

    ghost made = { IsSame };

    ghost text = { [] };

    fn from_parts(of: Result<SocketAddrV4, SocketAddrV6>) -> ReadResult<SocketAddr> {
        match of {
            Ok(address) => Ok(SocketAddr::V4(address)),
            Err(address) => Ok(SocketAddr::V6(address)),
        }
    }
}

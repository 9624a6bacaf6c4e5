//! Written by `tools/templates`: limits of numbers other than 0, floats, times and addresses, which have none but of a socket, and of what is as what it holds.
use crate::limits::Limited;
use std::cmp::Reverse;
use std::net::{IpAddr, Ipv4Addr, Ipv6Addr, SocketAddr, SocketAddrV4, SocketAddrV6};
use std::num::{
    NonZeroI8, NonZeroI16, NonZeroI32, NonZeroI64, NonZeroI128, NonZeroIsize, NonZeroU8,
    NonZeroU16, NonZeroU32, NonZeroU64, NonZeroU128, NonZeroUsize, Saturating, Wrapping,
};
use std::ops::{Range, RangeFrom, RangeInclusive, RangeTo};
use std::time::{Duration, SystemTime};

impl Limited for NonZeroU8 {
    fn counts() -> usize {
        <u8 as Limited>::counts()
    }

    fn has_no_limits() -> bool {
        <u8 as Limited>::has_no_limits()
    }

    fn is_within(_src: &NonZeroU8) -> bool {
        true
    }
}

impl Limited for NonZeroU16 {
    fn counts() -> usize {
        <u16 as Limited>::counts()
    }

    fn has_no_limits() -> bool {
        <u16 as Limited>::has_no_limits()
    }

    fn is_within(_src: &NonZeroU16) -> bool {
        true
    }
}

impl Limited for NonZeroU32 {
    fn counts() -> usize {
        <u32 as Limited>::counts()
    }

    fn has_no_limits() -> bool {
        <u32 as Limited>::has_no_limits()
    }

    fn is_within(_src: &NonZeroU32) -> bool {
        true
    }
}

impl Limited for NonZeroU64 {
    fn counts() -> usize {
        <u64 as Limited>::counts()
    }

    fn has_no_limits() -> bool {
        <u64 as Limited>::has_no_limits()
    }

    fn is_within(_src: &NonZeroU64) -> bool {
        true
    }
}

impl Limited for NonZeroU128 {
    fn counts() -> usize {
        <u128 as Limited>::counts()
    }

    fn has_no_limits() -> bool {
        <u128 as Limited>::has_no_limits()
    }

    fn is_within(_src: &NonZeroU128) -> bool {
        true
    }
}

impl Limited for NonZeroUsize {
    fn counts() -> usize {
        <usize as Limited>::counts()
    }

    fn has_no_limits() -> bool {
        <usize as Limited>::has_no_limits()
    }

    fn is_within(_src: &NonZeroUsize) -> bool {
        true
    }
}

impl Limited for NonZeroI8 {
    fn counts() -> usize {
        <i8 as Limited>::counts()
    }

    fn has_no_limits() -> bool {
        <i8 as Limited>::has_no_limits()
    }

    fn is_within(_src: &NonZeroI8) -> bool {
        true
    }
}

impl Limited for NonZeroI16 {
    fn counts() -> usize {
        <i16 as Limited>::counts()
    }

    fn has_no_limits() -> bool {
        <i16 as Limited>::has_no_limits()
    }

    fn is_within(_src: &NonZeroI16) -> bool {
        true
    }
}

impl Limited for NonZeroI32 {
    fn counts() -> usize {
        <i32 as Limited>::counts()
    }

    fn has_no_limits() -> bool {
        <i32 as Limited>::has_no_limits()
    }

    fn is_within(_src: &NonZeroI32) -> bool {
        true
    }
}

impl Limited for NonZeroI64 {
    fn counts() -> usize {
        <i64 as Limited>::counts()
    }

    fn has_no_limits() -> bool {
        <i64 as Limited>::has_no_limits()
    }

    fn is_within(_src: &NonZeroI64) -> bool {
        true
    }
}

impl Limited for NonZeroI128 {
    fn counts() -> usize {
        <i128 as Limited>::counts()
    }

    fn has_no_limits() -> bool {
        <i128 as Limited>::has_no_limits()
    }

    fn is_within(_src: &NonZeroI128) -> bool {
        true
    }
}

impl Limited for NonZeroIsize {
    fn counts() -> usize {
        <isize as Limited>::counts()
    }

    fn has_no_limits() -> bool {
        <isize as Limited>::has_no_limits()
    }

    fn is_within(_src: &NonZeroIsize) -> bool {
        true
    }
}

impl Limited for f32 {
    fn counts() -> usize {
        <u32 as Limited>::counts()
    }

    fn has_no_limits() -> bool {
        <u32 as Limited>::has_no_limits()
    }

    fn is_within(_src: &f32) -> bool {
        true
    }
}

impl Limited for f64 {
    fn counts() -> usize {
        <u64 as Limited>::counts()
    }

    fn has_no_limits() -> bool {
        <u64 as Limited>::has_no_limits()
    }

    fn is_within(_src: &f64) -> bool {
        true
    }
}

impl Limited for Duration {
    fn counts() -> usize {
        <(u64, u32) as Limited>::counts()
    }

    fn has_no_limits() -> bool {
        <(u64, u32) as Limited>::has_no_limits()
    }

    fn is_within(_src: &Duration) -> bool {
        true
    }
}

impl Limited for SystemTime {
    fn counts() -> usize {
        <(u64, u32) as Limited>::counts()
    }

    fn has_no_limits() -> bool {
        <(u64, u32) as Limited>::has_no_limits()
    }

    fn is_within(_src: &SystemTime) -> bool {
        true
    }
}

impl Limited for Ipv4Addr {
    fn counts() -> usize {
        <[u8; 4] as Limited>::counts()
    }

    fn has_no_limits() -> bool {
        <[u8; 4] as Limited>::has_no_limits()
    }

    fn is_within(_src: &Ipv4Addr) -> bool {
        true
    }
}

impl Limited for Ipv6Addr {
    fn counts() -> usize {
        <[u8; 16] as Limited>::counts()
    }

    fn has_no_limits() -> bool {
        <[u8; 16] as Limited>::has_no_limits()
    }

    fn is_within(_src: &Ipv6Addr) -> bool {
        true
    }
}

impl Limited for IpAddr {
    fn counts() -> usize {
        <Result<Ipv4Addr, Ipv6Addr> as Limited>::counts()
    }

    fn has_no_limits() -> bool {
        <Result<Ipv4Addr, Ipv6Addr> as Limited>::has_no_limits()
    }

    fn is_within(_src: &IpAddr) -> bool {
        true
    }
}

impl Limited for SocketAddrV4 {
    fn counts() -> usize {
        <([u8; 4], u16) as Limited>::counts()
    }

    fn has_no_limits() -> bool {
        <([u8; 4], u16) as Limited>::has_no_limits()
    }

    fn is_within(_src: &SocketAddrV4) -> bool {
        true
    }
}

impl Limited for SocketAddrV6 {
    fn counts() -> usize {
        <([u8; 16], u16) as Limited>::counts()
    }

    /// An address reads back that has no flow label and no scope, since neither is written.
    fn is_within(src: &SocketAddrV6) -> bool {
        src.flowinfo() == 0 && src.scope_id() == 0
    }
}

impl Limited for SocketAddr {
    fn counts() -> usize {
        <Result<SocketAddrV4, SocketAddrV6> as Limited>::counts()
    }

    fn is_within(src: &SocketAddr) -> bool {
        match src {
            SocketAddr::V4(_) => true,
            SocketAddr::V6(address) => <SocketAddrV6 as Limited>::is_within(address),
        }
    }
}

impl<T: Limited> Limited for Wrapping<T> {
    fn counts() -> usize {
        T::counts()
    }

    fn has_no_limits() -> bool {
        T::has_no_limits()
    }

    fn is_within(src: &Self::Src) -> bool {
        T::is_within(&src.0)
    }
}

impl<T: Limited> Limited for Saturating<T> {
    fn counts() -> usize {
        T::counts()
    }

    fn has_no_limits() -> bool {
        T::has_no_limits()
    }

    fn is_within(src: &Self::Src) -> bool {
        T::is_within(&src.0)
    }
}

impl<T: Limited> Limited for Reverse<T> {
    fn counts() -> usize {
        T::counts()
    }

    fn has_no_limits() -> bool {
        T::has_no_limits()
    }

    fn is_within(src: &Self::Src) -> bool {
        T::is_within(&src.0)
    }
}

impl<T: Limited> Limited for RangeFrom<T> {
    fn counts() -> usize {
        T::counts()
    }

    fn has_no_limits() -> bool {
        T::has_no_limits()
    }

    fn is_within(src: &Self::Src) -> bool {
        T::is_within(&src.start)
    }
}

impl<T: Limited> Limited for RangeTo<T> {
    fn counts() -> usize {
        T::counts()
    }

    fn has_no_limits() -> bool {
        T::has_no_limits()
    }

    fn is_within(src: &Self::Src) -> bool {
        T::is_within(&src.end)
    }
}

impl<T: Limited> Limited for Range<T> {
    fn counts() -> usize {
        <(T, T) as Limited>::counts()
    }

    fn has_no_limits() -> bool {
        T::has_no_limits()
    }

    fn is_within(src: &Self::Src) -> bool {
        T::is_within(&src.start) && T::is_within(&src.end)
    }
}

impl<T: Limited> Limited for RangeInclusive<T> {
    fn counts() -> usize {
        <(T, T) as Limited>::counts()
    }

    fn has_no_limits() -> bool {
        T::has_no_limits()
    }

    fn is_within(src: &Self::Src) -> bool {
        T::is_within(src.start()) && T::is_within(src.end())
    }
}

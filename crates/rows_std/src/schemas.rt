//! The schemas by their names.
use std::alloc::Global;
use std::borrow::{CowSlice, CowStr};
use std::boxed::BoxedStr;
use std::cmp::Reverse;
use std::ffi::CString;
use std::net::{IpAddr, Ipv4Addr, Ipv6Addr, SocketAddr, SocketAddrV4, SocketAddrV6};
use std::num::{
    NonZeroI8, NonZeroI16, NonZeroI32, NonZeroI64, NonZeroI128, NonZeroIsize, NonZeroU8,
    NonZeroU16, NonZeroU32, NonZeroU64, NonZeroU128, NonZeroUsize, Saturating, Wrapping,
};
use std::ops::{Bound, Range, RangeFrom, RangeInclusive, RangeTo};
use std::path::PathBuf;
use std::rc::RcStr;
use std::sync::{Arc, ArcStr};
use std::test::Fail;
use std::time::{Duration, SystemTime};
use testkit_schemas::asked::AskedReader;
use testkit_schemas::rows::read_as;
use wincode::containers::ArcSlice;
use wincode::io::Lifetime;
use wincode::len::BincodeLen;
use wincode::{RoundTrip, SchemaGet};

/// What reading the type from the bytes answers; and ` asked N` behind it, where a value was read and the reader was asked
/// for N bytes, which are more than the value has.
fn row<'a, T: RoundTrip<Lifetime<'a>>>(alloc: Global, bytes: &'a [u8]) -> Result<String, Fail>
where
    T::Src: Drop,
{
    let answer = read_as::<T>(alloc, bytes)?;
    let mut reader = AskedReader::new(bytes);
    let is_read = <T as SchemaGet<Lifetime<'a>>>::get(alloc, &mut reader).is_ok();
    let taken = bytes.len().saturating_sub(reader.left());
    let asked = reader.furthest();
    if is_read && asked != taken {
        Ok(format!(in alloc; "{answer} asked {asked}")?)
    } else {
        Ok(answer)
    }
}

/// What reading the type of the name answers.
pub fn answer(alloc: Global, name: &str, bytes: &[u8]) -> Result<String, Fail> {
    match name {
        "NonZeroU8" => row::<NonZeroU8>(alloc, bytes),
        "NonZeroU16" => row::<NonZeroU16>(alloc, bytes),
        "NonZeroU32" => row::<NonZeroU32>(alloc, bytes),
        "NonZeroU64" => row::<NonZeroU64>(alloc, bytes),
        "NonZeroU128" => row::<NonZeroU128>(alloc, bytes),
        "NonZeroUsize" => row::<NonZeroUsize>(alloc, bytes),
        "NonZeroI8" => row::<NonZeroI8>(alloc, bytes),
        "NonZeroI16" => row::<NonZeroI16>(alloc, bytes),
        "NonZeroI32" => row::<NonZeroI32>(alloc, bytes),
        "NonZeroI64" => row::<NonZeroI64>(alloc, bytes),
        "NonZeroI128" => row::<NonZeroI128>(alloc, bytes),
        "NonZeroIsize" => row::<NonZeroIsize>(alloc, bytes),
        "Vec<NonZeroU16>" => row::<Vec<NonZeroU16>>(alloc, bytes),
        _ => other_answer(alloc, name, bytes),
    }
}

/// So, by further schemas.
fn other_answer(alloc: Global, name: &str, bytes: &[u8]) -> Result<String, Fail> {
    match name {
        "f32" => row::<f32>(alloc, bytes),
        "f64" => row::<f64>(alloc, bytes),
        "Vec<f32>" => row::<Vec<f32>>(alloc, bytes),
        "Vec<f64>" => row::<Vec<f64>>(alloc, bytes),
        "Wrapping<u32>" => row::<Wrapping<u32>>(alloc, bytes),
        "Wrapping<i8>" => row::<Wrapping<i8>>(alloc, bytes),
        "Vec<Wrapping<u32>>" => row::<Vec<Wrapping<u32>>>(alloc, bytes),
        "Saturating<u16>" => row::<Saturating<u16>>(alloc, bytes),
        "Reverse<u16>" => row::<Reverse<u16>>(alloc, bytes),
        "Reverse<bool>" => row::<Reverse<bool>>(alloc, bytes),
        "Reverse<String>" => row::<Reverse<String>>(alloc, bytes),
        "Arc<u32>" => row::<Arc<u32>>(alloc, bytes),
        "Arc<String>" => row::<Arc<String>>(alloc, bytes),
        _ => more_answer(alloc, name, bytes),
    }
}

/// So, by further schemas.
fn more_answer(alloc: Global, name: &str, bytes: &[u8]) -> Result<String, Fail> {
    match name {
        "Box<str>" => row::<BoxedStr>(alloc, bytes),
        "Rc<str>" => row::<RcStr>(alloc, bytes),
        "Arc<str>" => row::<ArcStr>(alloc, bytes),
        "Cow<str>" => row::<CowStr<'_>>(alloc, bytes),
        "PathBuf" => row::<PathBuf>(alloc, bytes),
        "Duration" => row::<Duration>(alloc, bytes),
        "SystemTime" => row::<SystemTime>(alloc, bytes),
        "Vec<Duration>" => row::<Vec<Duration>>(alloc, bytes),
        "Ipv4Addr" => row::<Ipv4Addr>(alloc, bytes),
        "Ipv6Addr" => row::<Ipv6Addr>(alloc, bytes),
        "IpAddr" => row::<IpAddr>(alloc, bytes),
        "SocketAddrV4" => row::<SocketAddrV4>(alloc, bytes),
        "SocketAddrV6" => row::<SocketAddrV6>(alloc, bytes),
        "SocketAddr" => row::<SocketAddr>(alloc, bytes),
        "Range<u16>" => row::<Range<u16>>(alloc, bytes),
        "Range<bool>" => row::<Range<bool>>(alloc, bytes),
        "Range<String>" => row::<Range<String>>(alloc, bytes),
        "RangeInclusive<u16>" => row::<RangeInclusive<u16>>(alloc, bytes),
        "RangeInclusive<bool>" => row::<RangeInclusive<bool>>(alloc, bytes),
        "RangeFrom<u16>" => row::<RangeFrom<u16>>(alloc, bytes),
        "RangeTo<u16>" => row::<RangeTo<u16>>(alloc, bytes),
        _ => last_answer(alloc, name, bytes),
    }
}

/// So, by further schemas.
fn last_answer(alloc: Global, name: &str, bytes: &[u8]) -> Result<String, Fail> {
    match name {
        "Arc<[u16]>" => row::<ArcSlice<u16, BincodeLen<4_194_304>>>(alloc, bytes),
        "Cow<[u16]>" => row::<CowSlice<'_, u16>>(alloc, bytes),
        "CString" => row::<CString>(alloc, bytes),
        "Bound<u16>" => row::<Bound<u16>>(alloc, bytes),
        "Bound<bool>" => row::<Bound<bool>>(alloc, bytes),
        _ => Err(Fail::from("a type")),
    }
}

//! What an instrument measured: floats, times, addresses and other types of std's.
mod schemas;

use std::collections::BTreeMap;
use std::ffi::CString;
use std::net::{Ipv4Addr, Ipv6Addr, SocketAddr};
use std::num::{NonZeroU32, Wrapping};
use std::ops::{Bound, Range};
use std::sync::{Arc, ArcSlice};
use std::time::Duration;
use wincode::containers;
use wincode::len::BincodeLen;

/// What an instrument measured.
#[derive(Debug, Drop)]
pub struct Measured {
    pub by: NonZeroU32,
    pub behind: Duration,
    pub degrees: f64,
    pub places: Vec<f32>,
}

/// Where it may be asked for, and what it said.
#[derive(Drop)]
pub enum Answer {
    Told(Arc<Measured>),
    Elsewhere(SocketAddr),
    Between(Range<u64>),
}

/// Where an instrument stands: a key of maps.
#[derive(Debug, Drop, PartialEq, Eq, PartialOrd, Ord)]
pub struct Place {
    pub by: NonZeroU32,
    pub at: Ipv4Addr,
    pub behind: Ipv6Addr,
}

/// What was counted at each place, and within which bounds.
#[derive(Drop)]
pub struct Counts<T> {
    pub name: CString,
    pub sum: Wrapping<T>,
    pub from: Bound<T>,
    pub between: Range<T>,
}

/// The sums of all places.
#[derive(Drop)]
pub struct Sums {
    pub of: BTreeMap<Place, u64>,
    // wincode: with = containers::ArcSlice<u16, BincodeLen<4194304>>
    pub shared: ArcSlice<u16>,
}

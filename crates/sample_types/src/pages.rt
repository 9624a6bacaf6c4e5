//! Structs with type parameters.
mod schemas;

use std::collections::BTreeMap;
use wincode::containers;
use wincode::len::ShortU16Len;

/// One thing and another.
#[derive(Debug, Drop, PartialEq, Eq)]
pub struct Pair<A, B> {
    pub first: A,
    pub second: B,
}

/// What stands on a page, and where the next one is.
#[derive(Debug, Drop)]
pub struct Page<T> {
    pub items: Vec<T>,
    pub next: Option<u64>,
    // wincode: with = containers::Vec<Option<T>, ShortU16Len>
    pub others: Vec<Option<T>>,
    pub both: (T, u8),
    pub named: BTreeMap<u32, T>,
}

/// Something by itself.
#[derive(Debug, Drop, PartialEq, Eq)]
pub struct Alone<T>(pub T);

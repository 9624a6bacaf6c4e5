//! Structs whose texts and bytes stand in what was read.
mod schemas;

use std::collections::{BTreeMap, BTreeSet};

/// A number with a name.
#[derive(Debug, Clone, Copy, PartialEq, Eq, PartialOrd, Ord, Hash)]
pub struct Label<'a> {
    pub number: u64,
    pub name: &'a str,
}

/// Labels, and what stands under them.
#[derive(Debug, Drop)]
pub struct Sheet<'a> {
    pub title: Label<'a>,
    pub labels: Vec<Label<'a>>,
    pub by_number: BTreeMap<u16, Label<'a>>,
    pub picture: &'a [u8],
    pub last: Option<Label<'a>>,
    pub counts: BTreeMap<Label<'a>, u32>,
    pub left_out: BTreeSet<Label<'a>>,
}

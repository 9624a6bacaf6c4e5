//! An enum that is a key of maps, and a struct of maps, sets and heaps.
mod schemas;

use crate::marks::{Mark, Range};
use std::collections::{BTreeMap, BTreeSet, BinaryHeap, HashMap, HashSet};

/// What is counted.
// wincode: tag_encoding = u16
#[derive(Debug, Drop, PartialEq, Eq, PartialOrd, Ord, Hash)]
pub enum Kind {
    Plain,
    Written(String),
    Placed {
        east: i16,
        north: i16,
        is_high: bool,
    },
}

/// What was counted.
#[derive(Debug, Drop)]
pub struct Tally {
    pub by_kind: BTreeMap<Kind, u64>,
    pub by_mark: HashMap<Mark, u32>,
    pub ranges: BTreeSet<Range>,
    pub words: HashSet<String>,
    pub waiting: BinaryHeap<u32>,
}

//! Structs and enums that are keys of maps, in a struct of maps, sets and heaps.
use crate::encoded::{is_encoded, is_no_tag, reads_as, twice};
use sample_keys::kinds::{Kind, Tally};
use sample_keys::marks::{Mark, Range};
use std::alloc::Global;
use std::collections::{BTreeMap, BTreeSet, BinaryHeap, HashMap, HashSet};
use std::test::Fail;

/// The encoding of 5 plain ones and 6 of `a`, 7 by another mark, from 3 to 4, `d`, and 8.
const TALLY: [u8; 95] = [
    2, 0, 0, 0, 0, 0, 0, 0, 0, 0, 5, 0, 0, 0, 0, 0, 0, 0, 1, 0, 1, 0, 0, 0, 0, 0, 0, 0, 97, 6, 0,
    0, 0, 0, 0, 0, 0, 1, 0, 0, 0, 0, 0, 0, 0, 9, 7, 0, 0, 0, 1, 0, 0, 0, 0, 0, 0, 0, 3, 0, 0, 0, 4,
    0, 0, 0, 1, 0, 0, 0, 0, 0, 0, 0, 1, 0, 0, 0, 0, 0, 0, 0, 100, 1, 0, 0, 0, 0, 0, 0, 0, 8, 0, 0,
    0,
];

fn kinds(alloc: Global) -> Result<BTreeMap<Kind, u64>, Fail> {
    let mut by_kind = BTreeMap::new(alloc);
    by_kind.insert(Kind::Written(String::from_str(alloc, "a")?), 6u64)?;
    by_kind.insert(Kind::Plain, 5u64)?;
    Ok(by_kind)
}

fn tally(alloc: Global) -> Result<Tally, Fail> {
    let mut by_mark = HashMap::new(alloc);
    by_mark.insert(Mark::Other, 7u32)?;
    let mut ranges = BTreeSet::new(alloc);
    ranges.insert(Range { from: 3, to: 4 })?;
    let mut words = HashSet::new(alloc);
    words.insert(String::from_str(alloc, "d")?)?;
    let mut waiting = BinaryHeap::new(alloc);
    waiting.push(8u32)?;
    Ok(Tally {
        by_kind: kinds(alloc)?,
        by_mark,
        ranges,
        words,
        waiting,
    })
}

#[test]
fn a_tally(rt: HostRuntime) -> Result<(), Fail> {
    let alloc = rt.alloc();
    is_encoded::<Tally>(alloc, &tally(alloc)?, TALLY.as_slice())?;
    let list = twice(alloc, TALLY.as_slice())?;
    reads_as::<Vec<Tally>>(alloc, list.as_slice())
}

#[test]
fn kinds_by_themselves(rt: HostRuntime) -> Result<(), Fail> {
    let alloc = rt.alloc();
    is_encoded::<Kind>(alloc, &Kind::Plain, [0u8, 0].as_slice())?;
    let placed = Kind::Placed {
        east: 1,
        north: -1,
        is_high: true,
    };
    is_encoded::<Kind>(alloc, &placed, [2u8, 0, 1, 0, 255, 255, 1].as_slice())?;
    assert!(rt; is_no_tag::<Kind>(alloc, [3u8, 0].as_slice(), 3));
    Ok(())
}

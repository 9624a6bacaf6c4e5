//! Collections of more than a mebi of items.
use crate::many::keeps_all;
use std::alloc::Global;
use std::collections::{BTreeSet, BinaryHeap, HashSet, LinkedList, VecDeque};
use std::test::Fail;
use wincode::deserialize;

/// One item more than a mebi.
const COUNT: usize = 1_048_577;

/// The length of a list of so many items.
const LENGTH: [u8; 8] = [1, 0, 16, 0, 0, 0, 0, 0];

/// A list of so many items, of this many bytes in all, each of which behind the length is 1.
fn alike(alloc: Global, size: usize) -> Result<Vec<u8>, Fail> {
    let mut bytes = Vec::from_slice(alloc, LENGTH.as_slice())?;
    bytes.resize(size, 1)?;
    Ok(bytes)
}

#[test]
fn bytes(rt: HostRuntime) -> Result<(), Fail> {
    let alloc = rt.alloc();
    assert!(rt; keeps_all::<_, Vec<u8>>(alloc, alike(alloc, 8 + COUNT)?.as_slice())?);
    Ok(())
}

#[test]
fn forms(rt: HostRuntime) -> Result<(), Fail> {
    let alloc = rt.alloc();
    assert!(rt; keeps_all::<_, Vec<u16>>(alloc, alike(alloc, 8 + COUNT * 2)?.as_slice())?);
    Ok(())
}

/// Items without bytes.
#[test]
fn lists(rt: HostRuntime) -> Result<(), Fail> {
    let alloc = rt.alloc();
    let list: Vec<()> = deserialize(alloc, LENGTH.as_slice())?;
    assert!(rt; list.len() == COUNT);
    Ok(())
}

/// Items of no one size.
#[test]
fn options(rt: HostRuntime) -> Result<(), Fail> {
    let alloc = rt.alloc();
    assert!(rt; keeps_all::<_, Vec<Option<()>>>(alloc, alike(alloc, 8 + COUNT)?.as_slice())?);
    Ok(())
}

#[test]
fn queues(rt: HostRuntime) -> Result<(), Fail> {
    let alloc = rt.alloc();
    let queue: VecDeque<()> = deserialize(alloc, LENGTH.as_slice())?;
    assert!(rt; queue.len() == COUNT);
    Ok(())
}

#[test]
fn lists_of_links(rt: HostRuntime) -> Result<(), Fail> {
    let alloc = rt.alloc();
    let list: LinkedList<()> = deserialize(alloc, LENGTH.as_slice())?;
    assert!(rt; list.len() == COUNT);
    Ok(())
}

#[test]
fn heaps(rt: HostRuntime) -> Result<(), Fail> {
    let alloc = rt.alloc();
    let heap: BinaryHeap<()> = deserialize(alloc, LENGTH.as_slice())?;
    assert!(rt; heap.len() == COUNT);
    Ok(())
}

/// Items that are gathered: so are the pairs of maps, of which so many take a test too long.
#[test]
fn ordered_sets(rt: HostRuntime) -> Result<(), Fail> {
    let alloc = rt.alloc();
    let set: BTreeSet<()> = deserialize(alloc, LENGTH.as_slice())?;
    assert!(rt; set.len() == 1);
    Ok(())
}

#[test]
fn hashed_sets(rt: HostRuntime) -> Result<(), Fail> {
    let alloc = rt.alloc();
    let set: HashSet<()> = deserialize(alloc, LENGTH.as_slice())?;
    assert!(rt; set.len() == 1);
    Ok(())
}

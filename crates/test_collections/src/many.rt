//! Collections of many items, read and written again. An item is its place, behind other bytes.

use std::alloc::Global;
use std::collections::{BTreeMap, BTreeSet, BinaryHeap, HashMap, HashSet, LinkedList, VecDeque};
use std::test::Fail;
use wincode::io::Lifetime;
use wincode::len::{BincodeLen, NO_LIMIT};
use wincode::{SchemaGet, SchemaRead, SchemaWrite, containers};

type Len = BincodeLen<NO_LIMIT>;

/// A list of `n` items, each of them the head, and its place in four bytes below 128.
fn numbered(alloc: Global, n: usize, head: &[u8]) -> Result<Vec<u8>, Fail> {
    let mut bytes = Vec::from_slice(alloc, (n as u64).to_le_bytes().as_slice())?;
    for place in 0..n {
        let low = (place % 128) as u8;
        let middle = (place / 128 % 128) as u8;
        let high = (place / 16384 % 128) as u8;
        bytes.extend_from_slice(head)?;
        bytes.extend_from_slice(&[low, middle, high, 0])?;
    }
    Ok(bytes)
}

/// Whether a collection of these items, no two of which are the same, is written with as many as were read.
pub fn keeps_all<'a, U: Drop, T: SchemaWrite<Src = U> + SchemaRead<Lifetime<'a>, Dst = U>>(
    alloc: Global,
    bytes: &'a [u8],
) -> Result<bool, Fail> {
    let mut reader = bytes;
    let value = <T as SchemaGet<Lifetime<'a>>>::get(alloc, &mut reader)?;
    let mut written = Vec::new(alloc);
    T::write(&mut written, &value)?;
    Ok(written.len() == bytes.len() && written.get(..8) == bytes.get(..8))
}

/// So of each kind of list of the item.
fn lists_keep_all<'a, U: Drop, T: SchemaWrite<Src = U> + SchemaRead<Lifetime<'a>, Dst = U>>(
    alloc: Global,
    bytes: &'a [u8],
) -> Result<bool, Fail> {
    let all = [
        keeps_all::<_, Vec<T>>(alloc, bytes)?,
        keeps_all::<_, VecDeque<T>>(alloc, bytes)?,
        keeps_all::<_, LinkedList<T>>(alloc, bytes)?,
        keeps_all::<_, containers::Vec<T, Len>>(alloc, bytes)?,
        keeps_all::<_, containers::VecDeque<T, Len>>(alloc, bytes)?,
        keeps_all::<_, containers::BoxedSlice<T, Len>>(alloc, bytes)?,
        keeps_all::<_, containers::RcSlice<T, Len>>(alloc, bytes)?,
    ];
    Ok(all == [true; 7])
}

/// How many numbers a collection of each kind has: the second is past what two bytes count.
const MANY: [usize; 2] = [2_000, 66_000];

#[test]
fn lists_of_many_numbers(rt: HostRuntime) -> Result<(), Fail> {
    let alloc = rt.alloc();
    for n in MANY {
        assert!(rt; lists_keep_all::<_, u32>(alloc, numbered(alloc, n, &[])?.as_slice())?);
    }
    Ok(())
}

#[test]
fn ordered_maps_of_many_numbers(rt: HostRuntime) -> Result<(), Fail> {
    let alloc = rt.alloc();
    for n in MANY {
        assert!(rt; keeps_all::<_, BTreeMap<u32, ()>>(alloc, numbered(alloc, n, &[])?.as_slice())?);
    }
    Ok(())
}

#[test]
fn hashed_maps_of_many_numbers(rt: HostRuntime) -> Result<(), Fail> {
    let alloc = rt.alloc();
    for n in MANY {
        assert!(rt; keeps_all::<_, HashMap<u32, ()>>(alloc, numbered(alloc, n, &[])?.as_slice())?);
    }
    Ok(())
}

#[test]
fn ordered_sets_of_many_numbers(rt: HostRuntime) -> Result<(), Fail> {
    let alloc = rt.alloc();
    for n in MANY {
        assert!(rt; keeps_all::<_, BTreeSet<u32>>(alloc, numbered(alloc, n, &[])?.as_slice())?);
    }
    Ok(())
}

#[test]
fn hashed_sets_of_many_numbers(rt: HostRuntime) -> Result<(), Fail> {
    let alloc = rt.alloc();
    for n in MANY {
        assert!(rt; keeps_all::<_, HashSet<u32>>(alloc, numbered(alloc, n, &[])?.as_slice())?);
    }
    Ok(())
}

#[test]
fn heaps_of_many_numbers(rt: HostRuntime) -> Result<(), Fail> {
    let alloc = rt.alloc();
    for n in MANY {
        let list = numbered(alloc, n, &[])?;
        let plain = keeps_all::<_, BinaryHeap<u32>>(alloc, list.as_slice())?;
        let other = keeps_all::<_, containers::BinaryHeap<u32, Len>>(alloc, list.as_slice())?;
        assert!(rt; [plain, other] == [true; 2]);
    }
    Ok(())
}

/// Texts of four bytes.
fn texts(alloc: Global) -> Result<Vec<u8>, Fail> {
    numbered(alloc, 2_000, &4u64.to_le_bytes())
}

#[test]
fn lists_of_many_texts(rt: HostRuntime) -> Result<(), Fail> {
    let alloc = rt.alloc();
    assert!(rt; lists_keep_all::<_, String>(alloc, texts(alloc)?.as_slice())?);
    Ok(())
}

#[test]
fn collections_of_many_texts(rt: HostRuntime) -> Result<(), Fail> {
    let alloc = rt.alloc();
    let list = texts(alloc)?;
    let bytes = list.as_slice();
    let map = keeps_all::<_, BTreeMap<String, ()>>(alloc, bytes)?;
    let set = keeps_all::<_, HashSet<String>>(alloc, bytes)?;
    let heap = keeps_all::<_, BinaryHeap<String>>(alloc, bytes)?;
    assert!(rt; [map, set, heap] == [true; 3]);
    Ok(())
}

//! Maps and heaps, by their values in Rust.

use std::alloc::Global;
use std::collections::{BTreeMap, BinaryHeap, HashMap};
use std::test::Fail;
use testkit_schemas::square::Square;
use wincode::len::ShortU16Len;
use wincode::serde::Serialize;
use wincode::{SchemaWrite, containers, deserialize, serialize};

/// In one order or the other.
#[test]
fn hashed_maps_are_written(rt: HostRuntime) -> Result<(), Fail> {
    let alloc = rt.alloc();
    let mut pairs = HashMap::new(alloc);
    for (key, value) in [(1u8, 2u8), (3, 4)] {
        pairs.insert(key, value)?;
    }
    let text = serialize(alloc, &pairs)?;
    let one = [2u8, 0, 0, 0, 0, 0, 0, 0, 1, 2, 3, 4];
    let other = [2u8, 0, 0, 0, 0, 0, 0, 0, 3, 4, 1, 2];
    let is_written = text.as_slice() == one.as_slice() || text.as_slice() == other.as_slice();
    let back: HashMap<u8, u8> = deserialize(alloc, text.as_slice())?;
    let found = (is_written, back.len(), back.get(&1), back.get(&3));
    assert!(rt; found == (true, 2, Some(&2), Some(&4)));
    Ok(())
}

#[test]
fn heaps_are_written(rt: HostRuntime) -> Result<(), Fail> {
    let alloc = rt.alloc();
    let mut heap = BinaryHeap::new(alloc);
    for item in [4u8, 6] {
        heap.push(item)?;
    }
    let mut short = Vec::new(alloc);
    <containers::BinaryHeap<u8, ShortU16Len> as SchemaWrite>::write(&mut short, &heap)?;
    assert!(rt;
        short.as_slice() == [2u8, 4, 6].as_slice() || short.as_slice() == [2u8, 6, 4].as_slice()
    );
    Ok(())
}

/// The encoding of a map with the keys below `n`, each of which has a value with this encoding.
fn map_of(alloc: Global, n: u64, value: &[u8]) -> Result<Vec<u8>, Fail> {
    let mut bytes = Vec::new(alloc);
    bytes.extend_from_slice(n.to_le_bytes().as_slice())?;
    for key in 0..n {
        bytes.extend_from_slice(key.to_le_bytes().as_slice())?;
        bytes.extend_from_slice(value)?;
    }
    Ok(bytes)
}

/// Whether a map with the keys below `n` and this value is written so.
fn is_written_so<V: SchemaWrite<Src = V> + Copy>(
    alloc: Global,
    n: u64,
    value: V,
    encoded: &[u8],
) -> Result<bool, Fail> {
    let mut pairs = BTreeMap::new(alloc);
    for key in 0..n {
        pairs.insert(key, value)?;
    }
    let bytes = <BTreeMap<u64, V> as Serialize>::serialize(alloc, &pairs)?;
    let due = map_of(alloc, n, encoded)?;
    Ok(bytes.as_slice() == due.as_slice())
}

/// Pairs of 9, 16, 41, 64 and 65 bytes, and of no one size.
#[test]
fn long_maps_are_written(rt: HostRuntime) -> Result<(), Fail> {
    let alloc = rt.alloc();
    for n in [
        0u64, 1, 15, 16, 17, 24, 25, 63, 64, 65, 113, 114, 128, 129, 1000,
    ] {
        let all = [
            is_written_so(alloc, n, true, [1u8].as_slice())?,
            is_written_so(alloc, n, 7u64, [7u8, 0, 0, 0, 0, 0, 0, 0].as_slice())?,
            is_written_so(alloc, n, [7u8; 33], [7u8; 33].as_slice())?,
            is_written_so(alloc, n, [7u8; 56], [7u8; 56].as_slice())?,
            is_written_so(alloc, n, [7u8; 57], [7u8; 57].as_slice())?,
            is_written_so(alloc, n, Some(7u8), [1u8, 7].as_slice())?,
        ];
        assert!(rt; all == [true; 6]);
    }
    Ok(())
}

#[test]
fn a_key_of_its_own(rt: HostRuntime) -> Result<(), Fail> {
    let alloc = rt.alloc();
    let bytes = [2u8, 0, 0, 0, 0, 0, 0, 0, 2, 1, 7, 1, 3, 8];
    let ordered: BTreeMap<Square, u8> = deserialize(alloc, bytes.as_slice())?;
    let hashed: HashMap<Square, u8> = deserialize(alloc, bytes.as_slice())?;
    let first = ordered.get(&Square { row: 2, column: 1 });
    let second = hashed.get(&Square { row: 1, column: 3 });
    assert!(rt; (first, second) == (Some(&7), Some(&8)));
    Ok(())
}

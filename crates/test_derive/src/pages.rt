//! Structs with type parameters.
use crate::encoded::{is_encoded, reads_as};
use sample_types::pages::{Alone, Page, Pair};
use std::collections::BTreeMap;
use std::test::Fail;

/// The encoding of the items 1 and 2, no next page, 3 and nothing behind a short length, both 4 and 5, and 9
/// by the name 8.
const PAGE: [u8; 30] = [
    2, 0, 0, 0, 0, 0, 0, 0, 1, 2, 0, 2, 1, 3, 0, 4, 5, 1, 0, 0, 0, 0, 0, 0, 0, 8, 0, 0, 0, 9,
];

#[test]
fn a_page(rt: HostRuntime) -> Result<(), Fail> {
    let alloc = rt.alloc();
    let mut named = BTreeMap::new(alloc);
    named.insert(8u32, 9u8)?;
    let page = Page {
        items: vec![in alloc; 1u8, 2]?,
        next: None,
        others: vec![in alloc; Some(3u8), None]?,
        both: (4, 5),
        named,
    };
    is_encoded::<Page<u8>>(alloc, &page, PAGE.as_slice())
}

#[test]
fn pairs(rt: HostRuntime) -> Result<(), Fail> {
    let alloc = rt.alloc();
    let pair = Pair {
        first: 7u8,
        second: 258u16,
    };
    is_encoded::<Alone<Pair<u8, u16>>>(alloc, &Alone(pair), [7u8, 2, 1].as_slice())?;
    let list = [1u8, 0, 0, 0, 0, 0, 0, 0, 7, 2, 1];
    reads_as::<Vec<Alone<Pair<u8, u16>>>>(alloc, list.as_slice())?;
    let map = [1u8, 0, 0, 0, 0, 0, 0, 0, 7, 2, 1];
    reads_as::<BTreeMap<u8, Alone<u16>>>(alloc, map.as_slice())
}

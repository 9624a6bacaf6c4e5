//! Keys of maps, items of sets and of heaps: what has parts may be one where its parts may.

use crate::kept::is_kept;
use std::alloc::Global;
use std::collections::{BTreeSet, BinaryHeap, HashSet, VecDeque};
use std::test::Fail;
use wincode::io::Lifetime;
use wincode::len::ShortU16Len;
use wincode::{containers, deserialize, rewrite, serialize};

/// A result, a box and a set.
type Parts = (Result<u8, u16>, Box<u32>, BTreeSet<u8>);

fn parts(alloc: Global, side: Result<u8, u16>, number: u32, item: u8) -> Result<Parts, Fail> {
    let mut set = BTreeSet::new(alloc);
    set.insert(item)?;
    Ok((side, Box::new(alloc, number)?, set))
}

/// They are in order by the side, then by the number, and then by the set.
#[test]
fn keys_with_parts(rt: HostRuntime) -> Result<(), Fail> {
    let alloc = rt.alloc();
    let mut keys = BTreeSet::new(alloc);
    for (side, number, item) in [
        (Err(258u16), 1u32, 0u8),
        (Ok(7u8), 258, 3),
        (Ok(7), 258, 1),
        (Ok(7), 2, 9),
    ] {
        keys.insert(parts(alloc, side, number, item)?)?;
    }
    let due = [
        4u8, 0, 0, 0, 0, 0, 0, 0, 0, 0, 0, 0, 7, 2, 0, 0, 0, 1, 0, 0, 0, 0, 0, 0, 0, 9, 0, 0, 0, 0,
        7, 2, 1, 0, 0, 1, 0, 0, 0, 0, 0, 0, 0, 1, 0, 0, 0, 0, 7, 2, 1, 0, 0, 1, 0, 0, 0, 0, 0, 0,
        0, 3, 1, 0, 0, 0, 2, 1, 1, 0, 0, 0, 1, 0, 0, 0, 0, 0, 0, 0, 0,
    ];
    assert!(rt; is_kept::<BTreeSet<Parts>>(alloc, &keys, due.as_slice())?);
    Ok(())
}

type Twelve = (u8, u8, u8, u8, u8, u8, u8, u8, u8, u8, u8, u8);

#[test]
fn long_tuples_are_keys(rt: HostRuntime) -> Result<(), Fail> {
    let alloc = rt.alloc();
    let mut set = BTreeSet::new(alloc);
    for last in [12u8, 0] {
        set.insert((
            1u8, 2u8, 3u8, 4u8, 5u8, 6u8, 7u8, 8u8, 9u8, 10u8, 11u8, last,
        ))?;
    }
    let due = [
        2u8, 0, 0, 0, 0, 0, 0, 0, 1, 2, 3, 4, 5, 6, 7, 8, 9, 10, 11, 0, 1, 2, 3, 4, 5, 6, 7, 8, 9,
        10, 11, 12,
    ];
    assert!(rt; is_kept::<BTreeSet<Twelve>>(alloc, &set, due.as_slice())?);
    Ok(())
}

type Hashed = HashSet<(u16, bool, char, VecDeque<u8>)>;

#[test]
fn keys_that_are_hashed(rt: HostRuntime) -> Result<(), Fail> {
    let alloc = rt.alloc();
    let mut queue = VecDeque::new(alloc);
    queue.push_back(8u8)?;
    queue.push_front(7)?;
    let mut set = HashSet::new(alloc);
    set.insert((258u16, true, 'é', queue))?;
    let due = [
        1u8, 0, 0, 0, 0, 0, 0, 0, 2, 1, 1, 195, 169, 2, 0, 0, 0, 0, 0, 0, 0, 7, 8,
    ];
    assert!(rt; is_kept::<Hashed>(alloc, &set, due.as_slice())?);
    Ok(())
}

/// The greatest comes first.
#[test]
fn items_of_heaps(rt: HostRuntime) -> Result<(), Fail> {
    let alloc = rt.alloc();
    let due = [
        2u8, 0, 0, 0, 0, 0, 0, 0, 1, 0, 0, 0, 0, 0, 0, 0, 98, 1, 0, 0, 0, 0, 0, 0, 0, 99, 1, 0, 0,
        0, 0, 0, 0, 0, 97, 0, 0, 0, 0, 0, 0, 0, 0,
    ];
    let mut heap: BinaryHeap<(String, String)> = deserialize(alloc, due.as_slice())?;
    let text = serialize(alloc, &heap)?;
    for (first, second) in [("b", "c"), ("a", "")] {
        let greatest = heap.pop();
        assert!(rt;
            matches!(
                &greatest,
                Some((name, note)) if name.as_str() == first && note.as_str() == second
            )
        );
    }
    assert!(rt; (text.as_slice(), heap.len()) == (due.as_slice(), 0));
    Ok(())
}

/// Lists of bytes behind a short length.
type ShortHeap = containers::BinaryHeap<containers::Vec<u8, ShortU16Len>, ShortU16Len>;

#[test]
fn lists_in_heaps(rt: HostRuntime) -> Result<(), Fail> {
    let lists = [2u8, 2, 98, 99, 1, 97];
    let mut reader = lists.as_slice();
    let text = rewrite::<Lifetime, _, ShortHeap>(rt.alloc(), &mut reader)?;
    assert!(rt; text.as_slice() == lists.as_slice());
    Ok(())
}

//! Maps, sets and heaps.
use super::scattered;
use crate::answering;
use crate::asking::Asked;
use std::alloc::Global;
use std::collections::{BTreeMap, BTreeSet, BinaryHeap, HashMap, HashSet};
use std::test::Fail;
use testkit_schemas::block::Block;
use testkit_schemas::square::Square;
use wincode::containers;
use wincode::len::ShortU16Len;

/// What the schema of the name answers.
pub fn answer(alloc: Global, asked: Asked, name: &str, bytes: &[u8]) -> Result<String, Fail> {
    match name {
        "BTreeMap<u8,u8>" => answering::answer::<BTreeMap<u8, u8>>(alloc, asked, bytes),
        "BTreeMap<String,u8>" => answering::answer::<BTreeMap<String, u8>>(alloc, asked, bytes),
        "BTreeMap<u8,Vec<bool>>" => answering::answer::<BTreeMap<u8, Vec<bool>>>(
            alloc, asked, bytes,
        ),
        "BTreeMap<u8,bool>" => answering::answer::<BTreeMap<u8, bool>>(alloc, asked, bytes),
        "BTreeMap<bool,u8>" => answering::answer::<BTreeMap<bool, u8>>(alloc, asked, bytes),
        "BTreeMap<Square,u8>" => answering::answer::<BTreeMap<Square, u8>>(alloc, asked, bytes),
        "BTreeMap<[Block;2],[Block;2]>" => answering::answer::<BTreeMap<[Block; 2], [Block; 2]>>(
            alloc, asked, bytes,
        ),
        "Vec<BTreeMap<u8,bool>>" => answering::answer::<Vec<BTreeMap<u8, bool>>>(
            alloc, asked, bytes,
        ),
        _ => other_answer(alloc, asked, name, bytes),
    }
}

/// So, by further schemas.
fn other_answer(alloc: Global, asked: Asked, name: &str, bytes: &[u8]) -> Result<String, Fail> {
    match name {
        "BTreeSet<u8>" => answering::answer::<BTreeSet<u8>>(alloc, asked, bytes),
        "BTreeSet<bool>" => answering::answer::<BTreeSet<bool>>(alloc, asked, bytes),
        "BTreeSet<(u8,bool)>" => answering::answer::<BTreeSet<(u8, bool)>>(alloc, asked, bytes),
        "BTreeSet<Option<i8>>" => answering::answer::<BTreeSet<Option<i8>>>(alloc, asked, bytes),
        "BTreeSet<Vec<u8>>" => answering::answer::<BTreeSet<Vec<u8>>>(alloc, asked, bytes),
        _ => more_answer(alloc, asked, name, bytes),
    }
}

/// So, by further schemas.
fn more_answer(alloc: Global, asked: Asked, name: &str, bytes: &[u8]) -> Result<String, Fail> {
    match name {
        "HashMap<u8,bool>" => answering::answer::<HashMap<u8, bool>>(alloc, asked, bytes),
        "HashMap<Square,u8>" => answering::answer::<HashMap<Square, u8>>(alloc, asked, bytes),
        "HashSet<bool>" => answering::answer::<HashSet<bool>>(alloc, asked, bytes),
        "HashSet<Square>" => answering::answer::<HashSet<Square>>(alloc, asked, bytes),
        "BinaryHeap<bool>" => answering::answer::<BinaryHeap<bool>>(alloc, asked, bytes),
        "BinaryHeap<()>" => answering::answer::<BinaryHeap<()>>(alloc, asked, bytes),
        "BinaryHeap<(u8,Option<char>)>" => answering::answer::<BinaryHeap<(u8, Option<char>)>>(
            alloc, asked, bytes,
        ),
        "ShortHeap<u8>" => answering::answer::<containers::BinaryHeap<u8, ShortU16Len>>(
            alloc, asked, bytes,
        ),
        "ShortHeap<bool>" => answering::answer::<containers::BinaryHeap<bool, ShortU16Len>>(
            alloc, asked, bytes,
        ),
        _ => scattered::answer(alloc, asked, name, bytes),
    }
}

//! Maps, sets and heaps whose items may be written in any order.
use super::parts;
use crate::answering;
use crate::asking::Asked;
use std::alloc::Global;
use std::collections::{BinaryHeap, HashMap, HashSet};
use std::test::Fail;
use testkit_schemas::rows::{digits_of, outcome};
use wincode::io::Lifetime;
use wincode::{RoundTrip, rewrite};

/// The text of a list with its items in order, where each has so many bytes.
fn in_order(alloc: Global, text: &[u8], size: usize) -> Result<Vec<u8>, Fail> {
    let (length, rest) = text.split_at_checked(8).ok_or("a length")?;
    let mut items = Vec::new(alloc);
    for item in rest.chunks(size.max(1)) {
        items.push(item)?;
    }
    items.sort()?;
    let mut sorted = Vec::from_slice(alloc, length)?;
    for item in &items {
        sorted.extend_from_slice(*item)?;
    }
    Ok(sorted)
}

/// What reading answers, with the items of the text, each of so many bytes, in order.
fn read_in_order<'a, T: RoundTrip<Lifetime<'a>>>(
    alloc: Global,
    bytes: &'a [u8],
    size: usize,
) -> Result<String, Fail>
where
    T::Src: Drop,
{
    let mut reader = bytes;
    let text = rewrite::<Lifetime<'a>, &'a [u8], T>(alloc, &mut reader);
    let left = reader.len();
    match text {
        Ok(text) => {
            let sorted = in_order(alloc, text.as_slice(), size)?;
            let digits = digits_of(alloc, sorted.as_slice())?;
            Ok(format!(in alloc; "ok {left} sorted:{digits}")?)
        }
        refused => outcome(alloc, refused, left),
    }
}

/// What the schema answers, whose items have so many bytes each.
fn scattered<'a, T: RoundTrip<Lifetime<'a>>>(
    alloc: Global,
    asked: Asked,
    bytes: &'a [u8],
    size: usize,
) -> Result<String, Fail>
where
    T::Src: Drop,
{
    match asked {
        Asked::Read => read_in_order::<T>(alloc, bytes, size),
        _ => answering::answer::<T>(alloc, asked, bytes),
    }
}

/// What the schema of the name answers.
pub fn answer(alloc: Global, asked: Asked, name: &str, bytes: &[u8]) -> Result<String, Fail> {
    match name {
        "HashMap<u8,u8>" => scattered::<HashMap<u8, u8>>(alloc, asked, bytes, 2),
        "HashSet<u8>" => scattered::<HashSet<u8>>(alloc, asked, bytes, 1),
        "BinaryHeap<u8>" => scattered::<BinaryHeap<u8>>(alloc, asked, bytes, 1),
        _ => parts::answer(alloc, asked, name, bytes),
    }
}

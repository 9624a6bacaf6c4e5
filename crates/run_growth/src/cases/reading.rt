//! Reading: want of memory leaves the destination, and the reader where the schema says.
use super::{Ending, Unlike};
use std::alloc::Global;
use std::collections::{BTreeMap, BTreeSet, BinaryHeap, HashMap, HashSet, LinkedList, VecDeque};
use std::rc::Rc;
use wincode::io::Lifetime;
use wincode::len::ShortU16Len;
use wincode::{ReadError, SchemaRead, containers, deserialize};

/// Reads by the schema, and tells how it ended: with memory, with so many bytes left; or without, with
/// one of the numbers in `behind` left, and nothing in the destination.
fn read<'a, T: SchemaRead<Lifetime<'a>>>(
    alloc: Global,
    bytes: &'a [u8],
    left: usize,
    behind: &[usize],
) -> Result<Ending, Unlike> {
    let mut reader = bytes;
    let mut dst = None;
    match T::read(alloc, &mut reader, &mut dst) {
        Ok(()) if dst.is_some() && reader.len() == left => Ok(Ending::Ample),
        Err(ReadError::OutOfMemory) if dst.is_none() && behind.contains(&reader.len()) => Ok(
            Ending::Refused,
        ),
        _ => Err(Unlike::Reading),
    }
}

/// One growth, behind the length, the items' window or the value that is boxed.
fn one_growth(alloc: Global) -> Result<Ending, Unlike> {
    let text = [2u8, 0, 0, 0, 0, 0, 0, 0, 195, 169, 9];
    let string = read::<String>(alloc, text.as_slice(), 1, &[3])?;
    let list = read::<Vec<u8>>(alloc, text.as_slice(), 1, &[1])?;
    let number = [1u8, 2, 3, 4, 5];
    let boxed = read::<Box<u32>>(alloc, number.as_slice(), 1, &[1])?;
    let shared = read::<Rc<u32>>(alloc, number.as_slice(), 1, &[1])?;
    Ok(string.and(list).and(boxed).and(shared))
}

/// One growth of a text of 70,000 bytes, behind its length.
fn long_text(alloc: Global) -> Result<Ending, Unlike> {
    let mut text = [97u8; 70_009];
    text[..8].copy_from_slice(&70_000u64.to_le_bytes());
    read::<String>(alloc, text.as_slice(), 1, &[70_001])
}

/// Growths of lists of items of one size, all behind the window.
fn lists(alloc: Global) -> Result<Ending, Unlike> {
    let two = [2u8, 0, 0, 0, 0, 0, 0, 0, 5, 0, 6, 0, 9];
    let queue = read::<VecDeque<u16>>(alloc, two.as_slice(), 1, &[1])?;
    let linked = read::<LinkedList<u16>>(alloc, two.as_slice(), 1, &[1])?;
    let short = [2u8, 5, 0, 6, 0, 9];
    type Boxed = containers::BoxedSlice<u16, ShortU16Len>;
    let boxed = read::<Boxed>(alloc, short.as_slice(), 1, &[1])?;
    type Shared = containers::RcSlice<u16, ShortU16Len>;
    let shared = read::<Shared>(alloc, short.as_slice(), 1, &[1])?;
    Ok(queue.and(linked).and(boxed).and(shared))
}

/// So behind a length by a scheme of choice.
fn lists_of_choice(alloc: Global) -> Result<Ending, Unlike> {
    let two = [2u8, 5, 0, 6, 0, 9];
    let list = read::<containers::Vec<u16, ShortU16Len>>(alloc, two.as_slice(), 1, &[1])?;
    let queue = read::<containers::VecDeque<u16, ShortU16Len>>(alloc, two.as_slice(), 1, &[1])?;
    let heap = read::<containers::BinaryHeap<u16, ShortU16Len>>(alloc, two.as_slice(), 1, &[1])?;
    Ok(list.and(queue).and(heap))
}

/// Two numbers behind one that is there: refused, the list holds that one, and all bytes stay.
fn added_numbers(alloc: Global) -> Result<Ending, Unlike> {
    let Ok(mut list) = Vec::from_slice(alloc, &[7u16]) else {
        return Ok(Ending::Refused);
    };
    let mut reader = [5u8, 0, 6, 0, 9].as_slice();
    let answer = <u16 as SchemaRead<Lifetime>>::read_items(alloc, &mut reader, 2, &mut list);
    match answer {
        Ok(()) if reader.len() == 1 && list.as_slice() == [7u16, 5, 6].as_slice() => Ok(
            Ending::Ample,
        ),
        Err(ReadError::OutOfMemory) if reader.len() == 5 && list.as_slice() == [7u16].as_slice() =>
            Ok(Ending::Refused),
        _ => Err(Unlike::Reading),
    }
}

/// Two texts, one after the other, for a list that is empty: refused, it is empty.
fn added_texts(alloc: Global) -> Result<Ending, Unlike> {
    let mut reader = [1u8, 0, 0, 0, 0, 0, 0, 0, 97, 1, 0, 0, 0, 0, 0, 0, 0, 98, 9].as_slice();
    let mut list = Vec::new(alloc);
    let answer = <String as SchemaRead<Lifetime>>::read_items(alloc, &mut reader, 2, &mut list);
    match answer {
        Ok(()) if reader.len() == 1 && list.len() == 2 => Ok(Ending::Ample),
        Err(ReadError::OutOfMemory) if list.is_empty() => Ok(Ending::Refused),
        _ => Err(Unlike::Reading),
    }
}

/// Growths of what stands in options, results, tuples, arrays and lists.
fn inside(alloc: Global) -> Result<Ending, Unlike> {
    let some = [1u8, 1, 0, 0, 0, 0, 0, 0, 0, 97];
    let option = read::<Option<String>>(alloc, some.as_slice(), 0, &[1])?;
    let pair = read::<(u8, String)>(alloc, some.as_slice(), 0, &[1])?;
    let array = read::<[String; 1]>(alloc, &some[1..], 0, &[1])?;
    let error = [1u8, 0, 0, 0, 1, 0, 0, 0, 0, 0, 0, 0, 97];
    let result = read::<Result<u8, String>>(alloc, error.as_slice(), 0, &[1])?;
    let lists = [
        2u8, 0, 0, 0, 0, 0, 0, 0, 1, 0, 0, 0, 0, 0, 0, 0, 97, 1, 0, 0, 0, 0, 0, 0, 0, 98,
    ];
    let texts = read::<Vec<String>>(alloc, lists.as_slice(), 0, &[18, 10, 1])?;
    let two = read::<Box<[String; 2]>>(alloc, &lists[8..], 0, &[10, 1, 0])?;
    Ok(option.and(pair).and(array).and(result).and(texts).and(two))
}

/// Insertions, behind the window of all pairs or items.
fn inserted(alloc: Global) -> Result<Ending, Unlike> {
    let pairs = [2u8, 0, 0, 0, 0, 0, 0, 0, 1, 2, 3, 4, 9];
    let map = read::<BTreeMap<u8, u8>>(alloc, pairs.as_slice(), 1, &[1])?;
    let hashed = read::<HashMap<u8, u8>>(alloc, pairs.as_slice(), 1, &[1])?;
    let items = [4u8, 0, 0, 0, 0, 0, 0, 0, 1, 2, 3, 4, 9];
    let set = read::<BTreeSet<u8>>(alloc, items.as_slice(), 1, &[1])?;
    let hashed_set = read::<HashSet<u8>>(alloc, items.as_slice(), 1, &[1])?;
    let heap = read::<BinaryHeap<u8>>(alloc, items.as_slice(), 1, &[1])?;
    Ok(map.and(hashed).and(set).and(hashed_set).and(heap))
}

/// The same by the call that most programs make.
fn deserialized(alloc: Global) -> Result<Ending, Unlike> {
    let text = [1u8, 0, 0, 0, 0, 0, 0, 0, 97];
    match deserialize::<&[u8; 9], String>(alloc, &text) {
        Ok(found) if found.as_str() == "a" => Ok(Ending::Ample),
        Err(ReadError::OutOfMemory) => Ok(Ending::Refused),
        _ => Err(Unlike::Reading),
    }
}

pub fn all(alloc: Global) -> Result<Ending, Unlike> {
    let one = one_growth(alloc)?.and(long_text(alloc)?);
    let parts = inside(alloc)?;
    let gathered = inserted(alloc)?;
    let listed = one.and(lists(alloc)?).and(parts);
    let chosen = listed.and(lists_of_choice(alloc)?);
    let added = added_numbers(alloc)?.and(added_texts(alloc)?);
    Ok(chosen.and(gathered).and(added).and(deserialized(alloc)?))
}

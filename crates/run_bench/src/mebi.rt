//! One more than a mebi of pairs of maps, and of tokens of a text: a test, which is interpreted, takes too long for so many.
use crate::timing::Failure;
use std::alloc::Global;
use std::collections::{BTreeMap, HashMap};
use wincode::{deserialize, serialize};
use wincode_derive_text::tokens_of;

/// One more than a mebi.
pub const COUNT: u32 = 1_048_577;

/// The pair of a number: its first two bytes, and its third. A key is there more than once, and its last pair counts.
fn pair_of(number: u32) -> (u16, u8) {
    let [first, second, third, _] = number.to_le_bytes();
    (u16::from_le_bytes([first, second]), third)
}

/// So many pairs, encoded: as a list of pairs is, so is a map.
fn encoded_pairs(alloc: Global) -> Result<Vec<u8>, Failure> {
    let mut pairs = Vec::new(alloc);
    for number in 0..COUNT {
        pairs.push(pair_of(number))?;
    }
    Ok(serialize(alloc, &pairs)?)
}

/// Whether of so many encoded pairs an ordered map is read.
pub fn are_ordered_pairs_kept(alloc: Global) -> Result<bool, Failure> {
    let mut map = BTreeMap::new(alloc);
    for number in 0..COUNT {
        let (key, value) = pair_of(number);
        map.insert(key, value)?;
    }
    let bytes = encoded_pairs(alloc)?;
    let read: BTreeMap<u16, u8> = deserialize(alloc, bytes.as_slice())?;
    Ok(map.len() == 65_536 && read.iter().eq(map.iter()))
}

/// Whether of so many encoded pairs a hashed map is read.
pub fn are_hashed_pairs_kept(alloc: Global) -> Result<bool, Failure> {
    let mut map = HashMap::new(alloc);
    for number in 0..COUNT {
        let (key, value) = pair_of(number);
        map.insert(key, value)?;
    }
    let bytes = encoded_pairs(alloc)?;
    let read: HashMap<u16, u8> = deserialize(alloc, bytes.as_slice())?;
    Ok(read.len() == 65_536 && map.iter().all(|(key, value)| read.get(key) == Some(value)))
}

/// Whether a text of so many tokens has as many.
pub fn are_tokens_kept(alloc: Global) -> Result<bool, Failure> {
    let mut text = String::new(alloc);
    for _ in 0..COUNT {
        text.push(';')?;
    }
    match tokens_of(alloc, text.as_str()) {
        Ok(tokens) => Ok(tokens.len() == COUNT as usize),
        Err(_) => Err(Failure::Read),
    }
}

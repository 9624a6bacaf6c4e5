//! Lists of each kind, behind lengths of each scheme.
use super::lengths;
use crate::answering;
use crate::asking::Asked;
use std::alloc::Global;
use std::collections::{LinkedList, VecDeque};
use std::test::Fail;
use testkit_schemas::block::Block;

/// What the schema of the name answers.
pub fn answer(alloc: Global, asked: Asked, name: &str, bytes: &[u8]) -> Result<String, Fail> {
    match name {
        "Vec<u8>" => answering::answer::<Vec<u8>>(alloc, asked, bytes),
        "Vec<u64>" => answering::answer::<Vec<u64>>(alloc, asked, bytes),
        "Vec<Vec<u64>>" => answering::answer::<Vec<Vec<u64>>>(alloc, asked, bytes),
        "Vec<String>" => answering::answer::<Vec<String>>(alloc, asked, bytes),
        "Vec<bool>" => answering::answer::<Vec<bool>>(alloc, asked, bytes),
        "Vec<Vec<bool>>" => answering::answer::<Vec<Vec<bool>>>(alloc, asked, bytes),
        "Vec<(u16,bool)>" => answering::answer::<Vec<(u16, bool)>>(alloc, asked, bytes),
        "Vec<[(u8,bool);2]>" => answering::answer::<Vec<[(u8, bool); 2]>>(alloc, asked, bytes),
        "Vec<()>" => answering::answer::<Vec<()>>(alloc, asked, bytes),
        "Vec<Block>" => answering::answer::<Vec<Block>>(alloc, asked, bytes),
        "Block" => answering::answer::<Block>(alloc, asked, bytes),
        _ => other_answer(alloc, asked, name, bytes),
    }
}

/// So, by further schemas.
fn other_answer(alloc: Global, asked: Asked, name: &str, bytes: &[u8]) -> Result<String, Fail> {
    match name {
        "VecDeque<u8>" => answering::answer::<VecDeque<u8>>(alloc, asked, bytes),
        "VecDeque<u16>" => answering::answer::<VecDeque<u16>>(alloc, asked, bytes),
        "VecDeque<bool>" => answering::answer::<VecDeque<bool>>(alloc, asked, bytes),
        "LinkedList<u8>" => answering::answer::<LinkedList<u8>>(alloc, asked, bytes),
        "LinkedList<bool>" => answering::answer::<LinkedList<bool>>(alloc, asked, bytes),
        "Vec<Option<u8>>" => answering::answer::<Vec<Option<u8>>>(alloc, asked, bytes),
        "Vec<Result<u8,u8>>" => answering::answer::<Vec<Result<u8, u8>>>(alloc, asked, bytes),
        _ => lengths::answer(alloc, asked, name, bytes),
    }
}

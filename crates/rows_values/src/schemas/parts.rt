//! Options, results, boxes, arrays and tuples.
use super::tuples;
use crate::answering;
use crate::asking::Asked;
use std::alloc::Global;
use std::rc::Rc;
use std::test::Fail;
use testkit_schemas::block::Block;

/// What the schema of the name answers.
pub fn answer(alloc: Global, asked: Asked, name: &str, bytes: &[u8]) -> Result<String, Fail> {
    match name {
        "Option<u8>" => answering::answer::<Option<u8>>(alloc, asked, bytes),
        "Option<u16>" => answering::answer::<Option<u16>>(alloc, asked, bytes),
        "Option<Vec<u8>>" => answering::answer::<Option<Vec<u8>>>(alloc, asked, bytes),
        "Option<(u8,u8)>" => answering::answer::<Option<(u8, u8)>>(alloc, asked, bytes),
        "Option<Option<u8>>" => answering::answer::<Option<Option<u8>>>(alloc, asked, bytes),
        "Result<u8,u8>" => answering::answer::<Result<u8, u8>>(alloc, asked, bytes),
        "Result<u8,u16>" => answering::answer::<Result<u8, u16>>(alloc, asked, bytes),
        "Result<u16,u16>" => answering::answer::<Result<u16, u16>>(alloc, asked, bytes),
        "Result<u16,(bool,bool)>" => answering::answer::<Result<u16, (bool, bool)>>(
            alloc, asked, bytes,
        ),
        _ => other_answer(alloc, asked, name, bytes),
    }
}

/// So, by further schemas.
fn other_answer(alloc: Global, asked: Asked, name: &str, bytes: &[u8]) -> Result<String, Fail> {
    match name {
        "Box<u8>" => answering::answer::<Box<u8>>(alloc, asked, bytes),
        "Box<u32>" => answering::answer::<Box<u32>>(alloc, asked, bytes),
        "Rc<u8>" => answering::answer::<Rc<u8>>(alloc, asked, bytes),
        "Rc<u16>" => answering::answer::<Rc<u16>>(alloc, asked, bytes),
        "Rc<u32>" => answering::answer::<Rc<u32>>(alloc, asked, bytes),
        "[bool;3]" => answering::answer::<[bool; 3]>(alloc, asked, bytes),
        "[u64;2]" => answering::answer::<[u64; 2]>(alloc, asked, bytes),
        "[String;2]" => answering::answer::<[String; 2]>(alloc, asked, bytes),
        "[String;0]" => answering::answer::<[String; 0]>(alloc, asked, bytes),
        "[();5]" => answering::answer::<[(); 5]>(alloc, asked, bytes),
        "[u8;0]" => answering::answer::<[u8; 0]>(alloc, asked, bytes),
        "[u16;3]" => answering::answer::<[u16; 3]>(alloc, asked, bytes),
        _ => more_answer(alloc, asked, name, bytes),
    }
}

/// So, by further schemas.
fn more_answer(alloc: Global, asked: Asked, name: &str, bytes: &[u8]) -> Result<String, Fail> {
    match name {
        "[[u8;2];3]" => answering::answer::<[[u8; 2]; 3]>(alloc, asked, bytes),
        "[[u8;32];2]" => answering::answer::<[[u8; 32]; 2]>(alloc, asked, bytes),
        "[Block;3]" => answering::answer::<[Block; 3]>(alloc, asked, bytes),
        "[Block;4]" => answering::answer::<[Block; 4]>(alloc, asked, bytes),
        "[Vec<Vec<bool>>;1]" => answering::answer::<[Vec<Vec<bool>>; 1]>(alloc, asked, bytes),
        "([Block;2],[Block;2])" => answering::answer::<([Block; 2], [Block; 2])>(
            alloc, asked, bytes,
        ),
        _ => tuples::answer(alloc, asked, name, bytes),
    }
}

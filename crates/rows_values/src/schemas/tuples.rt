//! Tuples, each length once.
use super::tagged;
use crate::answering;
use crate::asking::Asked;
use std::alloc::Global;
use std::test::Fail;

/// What the schema of the name answers.
pub fn answer(alloc: Global, asked: Asked, name: &str, bytes: &[u8]) -> Result<String, Fail> {
    match name {
        "(u16,bool)" => answering::answer::<(u16, bool)>(alloc, asked, bytes),
        "(bool,u16)" => answering::answer::<(bool, u16)>(alloc, asked, bytes),
        "(String,u8)" => answering::answer::<(String, u8)>(alloc, asked, bytes),
        "(u8,String)" => answering::answer::<(u8, String)>(alloc, asked, bytes),
        "(u64,bool)" => answering::answer::<(u64, bool)>(alloc, asked, bytes),
        "(u64,bool,[u8;32])" => answering::answer::<(u64, bool, [u8; 32])>(alloc, asked, bytes),
        "((),u8)" => answering::answer::<((), u8)>(alloc, asked, bytes),
        "(Vec<u64>,bool)" => answering::answer::<(Vec<u64>, bool)>(alloc, asked, bytes),
        "(u8,Vec<bool>,u8)" => answering::answer::<(u8, Vec<bool>, u8)>(alloc, asked, bytes),
        "(u8,[Result<bool,bool>;2])" => answering::answer::<(u8, [Result<bool, bool>; 2])>(
            alloc, asked, bytes,
        ),
        "message-like" => answering::answer::<(u64, Vec<u8>, Option<String>)>(alloc, asked, bytes),
        _ => other_answer(alloc, asked, name, bytes),
    }
}

/// So, by further schemas.
fn other_answer(alloc: Global, asked: Asked, name: &str, bytes: &[u8]) -> Result<String, Fail> {
    match name {
        "(u8,u8)" => answering::answer::<(u8, u8)>(alloc, asked, bytes),
        "(u8,u8,u8)" => answering::answer::<(u8, u8, u8)>(alloc, asked, bytes),
        "(u8,u8,u8,u8)" => answering::answer::<(u8, u8, u8, u8)>(alloc, asked, bytes),
        "(u8,u8,u8,u8,u8)" => answering::answer::<(u8, u8, u8, u8, u8)>(alloc, asked, bytes),
        "(u8,u8,u8,u8,u8,u8)" => answering::answer::<(u8, u8, u8, u8, u8, u8)>(alloc, asked, bytes),
        "(u8,u8,u8,u8,u8,u8,u8)" => answering::answer::<(u8, u8, u8, u8, u8, u8, u8)>(
            alloc, asked, bytes,
        ),
        "(u8,u8,u8,u8,u8,u8,u8,u8)" => answering::answer::<(u8, u8, u8, u8, u8, u8, u8, u8)>(
            alloc, asked, bytes,
        ),
        "(u8,u8,u8,u8,u8,u8,u8,u8,u8)" => answering::answer::<(u8, u8, u8, u8, u8, u8, u8, u8, u8)>(
            alloc, asked, bytes,
        ),
        "(u8,u8,u8,u8,u8,u8,u8,u8,u8,u8)" => answering::answer::<Ten>(alloc, asked, bytes),
        "(u8,u8,u8,u8,u8,u8,u8,u8,u8,u8,u8)" => answering::answer::<Eleven>(alloc, asked, bytes),
        "(u8,u8,u8,u8,u8,u8,u8,u8,u8,u8,u8,u8)" => answering::answer::<Twelve>(alloc, asked, bytes),
        _ => tagged::answer(alloc, asked, name, bytes),
    }
}

type Ten = (u8, u8, u8, u8, u8, u8, u8, u8, u8, u8);

type Eleven = (u8, u8, u8, u8, u8, u8, u8, u8, u8, u8, u8);

type Twelve = (u8, u8, u8, u8, u8, u8, u8, u8, u8, u8, u8, u8);

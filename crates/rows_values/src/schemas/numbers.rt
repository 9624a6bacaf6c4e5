//! Numbers, booleans and texts.
use super::lists;
use crate::answering;
use crate::asking::Asked;
use std::alloc::Global;
use std::test::Fail;
use wincode::len::ShortU16;

/// What the schema of the name answers.
pub fn answer(alloc: Global, asked: Asked, name: &str, bytes: &[u8]) -> Result<String, Fail> {
    match name {
        "u8" => answering::answer::<u8>(alloc, asked, bytes),
        "u16" => answering::answer::<u16>(alloc, asked, bytes),
        "u32" => answering::answer::<u32>(alloc, asked, bytes),
        "u64" => answering::answer::<u64>(alloc, asked, bytes),
        "u128" => answering::answer::<u128>(alloc, asked, bytes),
        "usize" => answering::answer::<usize>(alloc, asked, bytes),
        "i8" => answering::answer::<i8>(alloc, asked, bytes),
        "i16" => answering::answer::<i16>(alloc, asked, bytes),
        "i32" => answering::answer::<i32>(alloc, asked, bytes),
        "i64" => answering::answer::<i64>(alloc, asked, bytes),
        "i128" => answering::answer::<i128>(alloc, asked, bytes),
        "isize" => answering::answer::<isize>(alloc, asked, bytes),
        _ => other_answer(alloc, asked, name, bytes),
    }
}

/// So, by further schemas.
fn other_answer(alloc: Global, asked: Asked, name: &str, bytes: &[u8]) -> Result<String, Fail> {
    match name {
        "bool" => answering::answer::<bool>(alloc, asked, bytes),
        "unit" => answering::answer::<()>(alloc, asked, bytes),
        "char" => answering::answer::<char>(alloc, asked, bytes),
        "String" => answering::answer::<String>(alloc, asked, bytes),
        "str" => answering::answer::<&str>(alloc, asked, bytes),
        "bytes" => answering::answer::<&[u8]>(alloc, asked, bytes),
        "ShortU16" => answering::answer::<ShortU16>(alloc, asked, bytes),
        _ => lists::answer(alloc, asked, name, bytes),
    }
}

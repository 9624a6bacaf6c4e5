//! Lists behind lengths of each scheme.
use super::maps;
use crate::answering;
use crate::asking::Asked;
use std::alloc::Global;
use std::test::Fail;
use testkit_schemas::byte_len::ByteLen;
use wincode::containers;
use wincode::containers::Pod;
use wincode::len::{BincodeLen, ShortU16Len};

/// What the schema of the name answers.
pub fn answer(alloc: Global, asked: Asked, name: &str, bytes: &[u8]) -> Result<String, Fail> {
    match name {
        "Short<u8>" => answering::answer::<containers::Vec<u8, ShortU16Len>>(alloc, asked, bytes),
        "Short<u16>" => answering::answer::<containers::Vec<u16, ShortU16Len>>(alloc, asked, bytes),
        "Short<u64>" => answering::answer::<containers::Vec<u64, ShortU16Len>>(alloc, asked, bytes),
        "Short<()>" => answering::answer::<containers::Vec<(), ShortU16Len>>(alloc, asked, bytes),
        "Short<bool>" => answering::answer::<containers::Vec<bool, ShortU16Len>>(
            alloc, asked, bytes,
        ),
        "Short<[u8;32]>" => answering::answer::<containers::Vec<[u8; 32], ShortU16Len>>(
            alloc, asked, bytes,
        ),
        "Short<Pod32>" => answering::answer::<containers::Vec<Pod<[u8; 32]>, ShortU16Len>>(
            alloc, asked, bytes,
        ),
        "Four<()>" => answering::answer::<containers::Vec<(), BincodeLen<4>>>(alloc, asked, bytes),
        "Three<u8>" => answering::answer::<containers::Vec<u8, BincodeLen<3>>>(alloc, asked, bytes),
        "Byte<u16>" => answering::answer::<containers::Vec<u16, ByteLen>>(alloc, asked, bytes),
        "ByteQueue<u16>" => answering::answer::<containers::VecDeque<u16, ByteLen>>(
            alloc, asked, bytes,
        ),
        _ => other_answer(alloc, asked, name, bytes),
    }
}

/// So, by further schemas.
fn other_answer(alloc: Global, asked: Asked, name: &str, bytes: &[u8]) -> Result<String, Fail> {
    match name {
        "ShortQueue<u16>" => answering::answer::<containers::VecDeque<u16, ShortU16Len>>(
            alloc, asked, bytes,
        ),
        "ShortQueue<bool>" => answering::answer::<containers::VecDeque<bool, ShortU16Len>>(
            alloc, asked, bytes,
        ),
        "ShortBox<u8>" => answering::answer::<containers::BoxedSlice<u8, ShortU16Len>>(
            alloc, asked, bytes,
        ),
        "ShortBox<u16>" => answering::answer::<containers::BoxedSlice<u16, ShortU16Len>>(
            alloc, asked, bytes,
        ),
        "ShortBox<bool>" => answering::answer::<containers::BoxedSlice<bool, ShortU16Len>>(
            alloc, asked, bytes,
        ),
        "ShortRc<u8>" => answering::answer::<containers::RcSlice<u8, ShortU16Len>>(
            alloc, asked, bytes,
        ),
        "ShortRc<u16>" => answering::answer::<containers::RcSlice<u16, ShortU16Len>>(
            alloc, asked, bytes,
        ),
        "ShortRc<bool>" => answering::answer::<containers::RcSlice<bool, ShortU16Len>>(
            alloc, asked, bytes,
        ),
        "Elem<u16>" => answering::answer::<containers::Elem<u16>>(alloc, asked, bytes),
        "Elem<u32>" => answering::answer::<containers::Elem<u32>>(alloc, asked, bytes),
        _ => maps::answer(alloc, asked, name, bytes),
    }
}

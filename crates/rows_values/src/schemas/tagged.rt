//! Options and results behind a tag of each size.
use super::views;
use crate::answering;
use crate::asking::Asked;
use std::alloc::Global;
use std::test::Fail;
use wincode::containers;

/// What the schema of the name answers.
pub fn answer(alloc: Global, asked: Asked, name: &str, bytes: &[u8]) -> Result<String, Fail> {
    match name {
        "TagOption<u8,u8>" => answering::answer::<containers::Option<u8, u8>>(alloc, asked, bytes),
        "TagOption<u8,u16>" => answering::answer::<containers::Option<u8, u16>>(
            alloc, asked, bytes,
        ),
        "TagOption<u8,u32>" => answering::answer::<containers::Option<u8, u32>>(
            alloc, asked, bytes,
        ),
        "TagOption<u8,u64>" => answering::answer::<containers::Option<u8, u64>>(
            alloc, asked, bytes,
        ),
        "TagOption<u16,u64>" => answering::answer::<containers::Option<u16, u64>>(
            alloc, asked, bytes,
        ),
        "TagResult<u8,u16,u8>" => answering::answer::<containers::Result<u8, u16, u8>>(
            alloc, asked, bytes,
        ),
        "TagResult<u16,u16,u16>" => answering::answer::<containers::Result<u16, u16, u16>>(
            alloc, asked, bytes,
        ),
        "TagResult<u8,u16,u16>" => answering::answer::<containers::Result<u8, u16, u16>>(
            alloc, asked, bytes,
        ),
        "TagResult<u8,u8,u32>" => answering::answer::<containers::Result<u8, u8, u32>>(
            alloc, asked, bytes,
        ),
        "TagResult<u8,u8,u64>" => answering::answer::<containers::Result<u8, u8, u64>>(
            alloc, asked, bytes,
        ),
        "Vec<TagResult<u8,u8,u16>>" => answering::answer::<Vec<containers::Result<u8, u8, u16>>>(
            alloc, asked, bytes,
        ),
        _ => views::answer(alloc, asked, name, bytes),
    }
}

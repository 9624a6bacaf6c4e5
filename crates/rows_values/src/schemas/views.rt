//! Views and forms.
use crate::answering;
use crate::asking::Asked;
use std::alloc::Global;
use std::test::Fail;
use wincode::containers::Pod;
use wincode::io::{Ref, SliceRef};

/// What the schema of the name answers.
pub fn answer(alloc: Global, asked: Asked, name: &str, bytes: &[u8]) -> Result<String, Fail> {
    match name {
        "Ref<u16>" => answering::answer::<Ref<'_, u16>>(alloc, asked, bytes),
        "Ref<u32>" => answering::answer::<Ref<'_, u32>>(alloc, asked, bytes),
        "SliceRef<u16>" => answering::answer::<SliceRef<'_, u16>>(alloc, asked, bytes),
        "SliceRef<u32>" => answering::answer::<SliceRef<'_, u32>>(alloc, asked, bytes),
        "SliceRef<u64>" => answering::answer::<SliceRef<'_, u64>>(alloc, asked, bytes),
        "SliceRef<[u8;3]>" => answering::answer::<SliceRef<'_, [u8; 3]>>(alloc, asked, bytes),
        "SliceRef<[u16;0]>" => answering::answer::<SliceRef<'_, [u16; 0]>>(alloc, asked, bytes),
        "Pod<i16>" => answering::answer::<Pod<i16>>(alloc, asked, bytes),
        "Pod<u32>" => answering::answer::<Pod<u32>>(alloc, asked, bytes),
        "Pod<[u16;2]>" => answering::answer::<Pod<[u16; 2]>>(alloc, asked, bytes),
        "Pod<[u32;0]>" => answering::answer::<Pod<[u32; 0]>>(alloc, asked, bytes),
        _ => Err(Fail::from("a type")),
    }
}

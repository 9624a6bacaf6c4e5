//! Lists that rows as data can't say: how they are made, and lengths past their schemes.

use crate::kept::is_kept;
use std::alloc::Global;
use std::collections::{BinaryHeap, LinkedList, VecDeque};
use std::test::Fail;
use testkit_schemas::byte_len::ByteLen;
use wincode::len::{BincodeLen, ShortU16Len};
use wincode::{SchemaWrite, WriteError, containers, serialize};

#[test]
fn lists_past_their_limit_are_written(rt: HostRuntime) -> Result<(), Fail> {
    let alloc = rt.alloc();
    type Bytes = containers::Vec<u8, BincodeLen<3>>;
    let items = Vec::from_slice(alloc, &[1u8, 2, 3, 4])?;
    let mut text = Vec::new(alloc);
    <Bytes as SchemaWrite>::write(&mut text, &items)?;
    assert!(rt; text.as_slice() == [4u8, 0, 0, 0, 0, 0, 0, 0, 1, 2, 3, 4].as_slice());
    Ok(())
}

/// Whether the writing of a value was refused since its length is past the short ones, and nothing was written.
fn is_past_u16<T: SchemaWrite>(alloc: Global, value: &T::Src) -> bool {
    let size = T::size_of(value);
    let mut text = Vec::new(alloc);
    let long = T::write(&mut text, value);
    matches!(&size, Err(WriteError::LengthEncodingOverflow("u16::MAX")))
        && matches!(&long, Err(WriteError::LengthEncodingOverflow("u16::MAX")))
        && text.is_empty()
}

#[test]
fn lists_past_u16(rt: HostRuntime) -> Result<(), Fail> {
    let alloc = rt.alloc();
    let many = vec![in alloc; 0u8; 65536]?;
    let list = is_past_u16::<containers::Vec<u8, ShortU16Len>>(alloc, &many);
    let many = many.into_boxed_slice();
    let slice = is_past_u16::<containers::BoxedSlice<u8, ShortU16Len>>(alloc, &many);
    assert!(rt; [list, slice] == [true; 2]);
    Ok(())
}

/// So of what stands in a list.
#[test]
fn items_past_u16(rt: HostRuntime) -> Result<(), Fail> {
    let alloc = rt.alloc();
    type Pair = (u8, containers::Vec<u8, ShortU16Len>);
    let pairs = vec![in alloc; (3u8, vec![in alloc; 0u8; 65536]?)]?;
    let size = <Vec<Pair> as SchemaWrite>::size_of(&pairs);
    assert!(rt; matches!(&size, Err(WriteError::LengthEncodingOverflow("u16::MAX"))));
    Ok(())
}

#[test]
fn queues_and_heaps_past_u16(rt: HostRuntime) -> Result<(), Fail> {
    let alloc = rt.alloc();
    let mut queue = VecDeque::new(alloc);
    let mut heap = BinaryHeap::new(alloc);
    for _ in 0..65536 {
        queue.push_back(0u8)?;
        heap.push(0u8)?;
    }
    let is_queue_past = is_past_u16::<containers::VecDeque<u8, ShortU16Len>>(alloc, &queue);
    let is_heap_past = is_past_u16::<containers::BinaryHeap<u8, ShortU16Len>>(alloc, &heap);
    assert!(rt; [is_queue_past, is_heap_past] == [true; 2]);
    Ok(())
}

#[test]
fn lists_behind_lengths_of_a_byte(rt: HostRuntime) -> Result<(), Fail> {
    let alloc = rt.alloc();
    type Numbers = containers::Vec<u16, ByteLen>;
    let many = vec![in alloc; 0u16; 256]?;
    let size = <Numbers as SchemaWrite>::size_of(&many);
    let is_size = matches!(&size, Err(WriteError::Custom("a length past 255")));
    let mut text = Vec::new(alloc);
    let long = <Numbers as SchemaWrite>::write(&mut text, &many);
    let is_long = matches!(&long, Err(WriteError::Custom("a length past 255")));
    assert!(rt; (is_size, is_long, text.len()) == (true, true, 0));
    Ok(())
}

#[test]
fn lists_of_links(rt: HostRuntime) -> Result<(), Fail> {
    let alloc = rt.alloc();
    let mut linked = LinkedList::new(alloc);
    for item in [2u8, 3, 4] {
        linked.push_back(item)?;
    }
    let due = [3u8, 0, 0, 0, 0, 0, 0, 0, 2, 3, 4];
    assert!(rt; is_kept::<LinkedList<u8>>(alloc, &linked, due.as_slice())?);
    Ok(())
}

/// The encoding of the twenty numbers from this one on.
fn twenty_from(alloc: Global, first: u64) -> Result<Vec<u8>, Fail> {
    let mut bytes = Vec::from_slice(alloc, &20u64.to_le_bytes())?;
    for i in 0u64..20 {
        bytes.extend_from_slice(&first.wrapping_add(i).to_le_bytes())?;
    }
    Ok(bytes)
}

#[test]
fn a_queue_that_wraps_round(rt: HostRuntime) -> Result<(), Fail> {
    let alloc = rt.alloc();
    let mut queue = VecDeque::new(alloc);
    for item in 0u64..20 {
        queue.push_back(item)?;
    }
    for turn in 0u64..50 {
        let front = queue.pop_front();
        queue.push_back(turn + 20)?;
        let text = serialize(alloc, &queue)?;
        let due = twenty_from(alloc, turn + 1)?;
        assert!(rt; (front, text.as_slice()) == (Some(turn), due.as_slice()));
    }
    Ok(())
}

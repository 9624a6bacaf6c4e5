//! Many items at once: what is written, and the memory of a list.

use std::test::Fail;
use wincode::io::SliceWriter;
use wincode::{SchemaWrite, deserialize, serialize};

#[test]
fn many_items_written(rt: HostRuntime) -> Result<(), Fail> {
    let mut out = vec![in rt.alloc(); 7u8]?;
    <u16 as SchemaWrite>::write_items(&mut out, &[1, 515])?;
    assert!(rt; out.as_slice() == [7, 1, 0, 3, 2].as_slice());
    Ok(())
}

#[test]
fn many_items_without_room(rt: HostRuntime) -> Result<(), Fail> {
    let mut bytes = [0u8; 3];
    let mut short = SliceWriter::new(&mut bytes);
    let answer = <u16 as SchemaWrite>::write_items(&mut short, &[1, 515]);
    let text = format!(in rt.alloc(); "{answer:?}")?;
    let found = (text.as_str(), short.written().len());
    assert!(rt; found == ("Err(Io(WriteSizeLimit(4)))", 0));
    Ok(())
}

#[test]
fn memory_of_lists_is_their_own(rt: HostRuntime) -> Result<(), Fail> {
    let alloc = rt.alloc();
    let list = vec![in alloc; 5u32; 100_000]?;
    let text = serialize(alloc, &list)?;
    let back: Vec<u32> = deserialize(alloc, text.as_slice())?;
    let found = (text.capacity(), back.len(), back.capacity());
    assert!(rt; found == (400_008, 100_000, 100_000));
    Ok(())
}

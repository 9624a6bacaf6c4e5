//! An entry, whose schema `wincode_derive` wrote.
use example_schemas::entry::Entry;
use std::test::Fail;
use wincode::{deserialize, serialize};

/// The entry 258 with the tags 7 and 9.
const TEXT: [u8; 18] = [2, 1, 0, 0, 0, 0, 0, 0, 2, 0, 0, 0, 0, 0, 0, 0, 7, 9];

#[test]
fn an_entry_written(rt: HostRuntime) -> Result<(), Fail> {
    let entry = Entry {
        id: 258,
        tags: vec![in rt.alloc(); 7u8, 9]?,
    };
    assert!(rt; serialize(rt.alloc(), &entry)?.as_slice() == TEXT.as_slice());
    Ok(())
}

#[test]
fn an_entry_read(rt: HostRuntime) -> Result<(), Fail> {
    let back: Entry = deserialize(rt.alloc(), TEXT.as_slice())?;
    let again = serialize(rt.alloc(), &back)?;
    let parts = (back.id, back.tags.as_slice());
    assert!(rt; (parts, again.as_slice()) == ((258, [7u8, 9].as_slice()), TEXT.as_slice()));
    Ok(())
}

//! Labels, whose names stand in what was read.
use example_schemas::label::Label;
use std::alloc::Global;
use std::test::Fail;
use wincode::{ReadResult, deserialize, serialize};

/// The label in front of the bytes.
fn label_of<'a>(alloc: Global, bytes: &'a [u8]) -> ReadResult<Label<'a>> {
    deserialize(alloc, bytes)
}

#[test]
fn a_label(rt: HostRuntime) -> Result<(), Fail> {
    let alloc = rt.alloc();
    let bytes = [7u8, 0, 0, 0, 0, 0, 0, 0, 2, 0, 0, 0, 0, 0, 0, 0, 97, 98, 9];
    let label = label_of(alloc, bytes.as_slice())?;
    let text = serialize(alloc, &label)?;
    let wanted = (7, "ab", &bytes[..18]);
    assert!(rt; (label.number, label.name, text.as_slice()) == wanted);
    Ok(())
}

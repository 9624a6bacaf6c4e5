//! Structs with borrowed fields.
use crate::encoded::{is_encoded, reads_as, twice};
use sample_keys::label::{Label, Sheet};
use std::alloc::Global;
use std::collections::{BTreeMap, BTreeSet};
use std::test::Fail;
use wincode::{ReadResult, deserialize};

/// The encoding of number 5 with the name `a`.
const LABEL: [u8; 17] = [5, 0, 0, 0, 0, 0, 0, 0, 1, 0, 0, 0, 0, 0, 0, 0, 97];

/// That of a sheet: this label; a list of it; it at 258; the bytes 1 and 2; none; number 4 with the name `b`, seen 7
/// times, and this label, seen 6 times; and this one left out.
const SHEET: [u8; 155] = [
    5, 0, 0, 0, 0, 0, 0, 0, 1, 0, 0, 0, 0, 0, 0, 0, 97, 1, 0, 0, 0, 0, 0, 0, 0, 5, 0, 0, 0, 0, 0,
    0, 0, 1, 0, 0, 0, 0, 0, 0, 0, 97, 1, 0, 0, 0, 0, 0, 0, 0, 2, 1, 5, 0, 0, 0, 0, 0, 0, 0, 1, 0,
    0, 0, 0, 0, 0, 0, 97, 2, 0, 0, 0, 0, 0, 0, 0, 1, 2, 0, 2, 0, 0, 0, 0, 0, 0, 0, 4, 0, 0, 0, 0,
    0, 0, 0, 1, 0, 0, 0, 0, 0, 0, 0, 98, 7, 0, 0, 0, 5, 0, 0, 0, 0, 0, 0, 0, 1, 0, 0, 0, 0, 0, 0,
    0, 97, 6, 0, 0, 0, 1, 0, 0, 0, 0, 0, 0, 0, 5, 0, 0, 0, 0, 0, 0, 0, 1, 0, 0, 0, 0, 0, 0, 0, 97,
];

const ONE: Label<'static> = Label {
    number: 5,
    name: "a",
};

const OTHER: Label<'static> = Label {
    number: 4,
    name: "b",
};

/// The labels in front of the bytes.
fn labels_of<'a>(alloc: Global, bytes: &'a [u8]) -> ReadResult<Vec<Label<'a>>> {
    deserialize(alloc, bytes)
}

#[test]
fn labels(rt: HostRuntime) -> Result<(), Fail> {
    let alloc = rt.alloc();
    is_encoded::<Label>(alloc, &ONE, LABEL.as_slice())?;
    let list = twice(alloc, LABEL.as_slice())?;
    reads_as::<Vec<Label>>(alloc, list.as_slice())?;
    let back = labels_of(alloc, list.as_slice())?;
    assert!(rt; back.as_slice() == [ONE, ONE].as_slice());
    Ok(())
}

/// A sheet of these labels.
fn sheet<'a>(
    alloc: Global,
    one: Label<'a>,
    other: Label<'a>,
    picture: &'a [u8],
) -> Result<Sheet<'a>, Fail> {
    let mut by_number = BTreeMap::new(alloc);
    by_number.insert(258u16, one)?;
    let mut counts = BTreeMap::new(alloc);
    counts.insert(one, 6u32)?;
    counts.insert(other, 7)?;
    let mut left_out = BTreeSet::new(alloc);
    left_out.insert(one)?;
    Ok(Sheet {
        title: one,
        labels: vec![in alloc; one]?,
        by_number,
        picture,
        last: None,
        counts,
        left_out,
    })
}

#[test]
fn a_sheet(rt: HostRuntime) -> Result<(), Fail> {
    let alloc = rt.alloc();
    let picture = [1u8, 2];
    let sheet = sheet(alloc, ONE, OTHER, picture.as_slice())?;
    is_encoded::<Sheet>(alloc, &sheet, SHEET.as_slice())
}

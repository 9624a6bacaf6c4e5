//! An enum whose cases hold nothing, a struct and named fields.
use crate::encoded::{is_encoded, is_no_tag, reads_as, twice};
use sample_types::note::Note;
use sample_types::signal::Signal;
use std::test::Fail;
use wincode::copy_front;
use wincode::io::Lifetime;

/// The encoding of number 2, the text `a` and the marks 5 and 6.
const NOTE: [u8; 20] = [2, 0, 0, 0, 0, 0, 0, 0, 1, 0, 0, 0, 0, 0, 0, 0, 97, 2, 5, 6];

/// That of what has this note.
const NOTED: [u8; 21] = [
    8, 2, 0, 0, 0, 0, 0, 0, 0, 1, 0, 0, 0, 0, 0, 0, 0, 97, 2, 5, 6,
];

/// That of what is named `a`, with the mark 5, at 6.
const NAMED: [u8; 21] = [
    21, 1, 0, 0, 0, 0, 0, 0, 0, 97, 1, 5, 0, 6, 0, 0, 0, 0, 0, 0, 0,
];

#[test]
fn a_note(rt: HostRuntime) -> Result<(), Fail> {
    let alloc = rt.alloc();
    let note = Note {
        id: 2,
        text: String::from_str(alloc, "a")?,
        marks: vec![in alloc; 5u8, 6]?,
    };
    is_encoded::<Note>(alloc, &note, NOTE.as_slice())?;
    let mut reader = NOTE.as_slice();
    let text = copy_front::<Lifetime<'_>, &[u8], Note>(alloc, &mut reader)?;
    assert!(rt; text.as_slice() == NOTE.as_slice());
    Ok(())
}

#[test]
fn signals(rt: HostRuntime) -> Result<(), Fail> {
    let alloc = rt.alloc();
    is_encoded::<Signal>(alloc, &Signal::Start, [5u8].as_slice())?;
    let moved = [13u8, 1, 0, 0, 0, 254, 255];
    is_encoded::<Signal>(alloc, &Signal::Moved(1, -2), moved.as_slice())?;
    let named = Signal::Named {
        name: String::from_str(alloc, "a")?,
        marks: vec![in alloc; 5u16]?,
        at: 6,
    };
    is_encoded::<Signal>(alloc, &named, NAMED.as_slice())?;
    reads_as::<Signal>(alloc, NOTED.as_slice())?;
    let list = twice(alloc, NOTED.as_slice())?;
    reads_as::<Vec<Signal>>(alloc, list.as_slice())?;
    assert!(rt; is_no_tag::<Signal>(alloc, [6u8].as_slice(), 6));
    Ok(())
}

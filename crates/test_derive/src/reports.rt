//! A struct of more than 12 fields.
use crate::encoded::is_encoded;
use sample_types::note::Note;
use sample_types::pages::{Alone, Page, Pair};
use sample_types::report::Report;
use sample_types::signal::Signal;
use std::alloc::Global;
use std::collections::BTreeMap;
use std::test::Fail;

/// The encoding of number 7, named `b`, with a note, a move, 9, a place, a seal, a letter, 258, a page of 3, of which 2 is
/// next, nothing else and both 4 and 1, the pair of 9 and what is so, what is not open, and 5 and 6.
const REPORT: [u8; 126] = [
    7, 0, 0, 0, 1, 0, 0, 0, 0, 0, 0, 0, 98, 1, 0, 0, 0, 0, 0, 0, 0, 2, 0, 0, 0, 0, 0, 0, 0, 1, 0,
    0, 0, 0, 0, 0, 0, 97, 2, 5, 6, 13, 1, 0, 0, 0, 254, 255, 0, 0, 0, 0, 9, 1, 0, 0, 0, 255, 255,
    255, 255, 1, 2, 3, 4, 195, 169, 2, 1, 0, 0, 0, 0, 0, 0, 1, 0, 0, 0, 0, 0, 0, 0, 1, 0, 0, 0, 0,
    0, 0, 0, 3, 0, 1, 2, 0, 0, 0, 0, 0, 0, 0, 1, 0, 4, 0, 1, 0, 0, 0, 0, 0, 0, 0, 0, 9, 1, 0, 5, 0,
    0, 0, 6, 0, 0, 0,
];

fn page(alloc: Global) -> Result<Page<u16>, Fail> {
    Ok(Page {
        items: vec![in alloc; 3u16]?,
        next: Some(2),
        others: vec![in alloc; None]?,
        both: (4, 1),
        named: BTreeMap::new(alloc),
    })
}

fn note(alloc: Global) -> Result<Note, Fail> {
    Ok(Note {
        id: 2,
        text: String::from_str(alloc, "a")?,
        marks: vec![in alloc; 5u8, 6]?,
    })
}

fn report(alloc: Global) -> Result<Report, Fail> {
    Ok(Report {
        number: 7,
        title: String::from_str(alloc, "b")?,
        notes: vec![in alloc; note(alloc)?]?,
        signal: Box::new(alloc, Signal::Moved(1, -2))?,
        outcome: Ok(9),
        place: (1, -1),
        seal: [1, 2, 3, 4],
        letter: 'é',
        weight: 258,
        pages: vec![in alloc; page(alloc)?]?,
        pair: Pair {
            first: 9,
            second: Alone(true),
        },
        is_open: false,
        begun: 5,
        ended: 6,
    })
}

#[test]
fn a_report(rt: HostRuntime) -> Result<(), Fail> {
    let alloc = rt.alloc();
    is_encoded::<Report>(alloc, &report(alloc)?, REPORT.as_slice())
}

//! The recipes of docs/USING.md.
use example_schemas::recipes::{
    Damaged, counts_of, counts_to_bytes, few_of, join_lines, put_two_texts, set_first, settings_of,
    split_lines, sum_of, take_two_texts, there_and_back, total_length, two_texts,
};
use std::collections::BTreeMap;
use std::test::Fail;
use wincode::ReadError;
use wincode::io::StdSource;

#[test]
fn values_there_and_back(rt: HostRuntime) -> Result<(), Fail> {
    let alloc = rt.alloc();
    let numbers = vec![in alloc; 1u64, 2]?;
    assert!(rt; there_and_back(alloc, &numbers)? == numbers);
    Ok(())
}

#[test]
fn counts_there_and_back(rt: HostRuntime) -> Result<(), Fail> {
    let alloc = rt.alloc();
    let mut counts = BTreeMap::new(alloc);
    counts.insert(String::from_str(alloc, "b")?, 2u64)?;
    counts.insert(String::from_str(alloc, "a")?, 1)?;
    let bytes = counts_to_bytes(alloc, &counts)?;
    let back = counts_of(alloc, bytes.as_slice())?;
    assert!(rt; (bytes.get(16), back.len()) == (Some(&b'a'), 2));
    Ok(())
}

/// The line 7 of `a` and the line 8 of nothing.
const LINES: [u8; 33] = [
    7, 0, 0, 0, 0, 0, 0, 0, 1, 0, 0, 0, 0, 0, 0, 0, 97, 8, 0, 0, 0, 0, 0, 0, 0, 0, 0, 0, 0, 0, 0,
    0, 0,
];

#[test]
fn lines_of_a_file(rt: HostRuntime) -> Result<(), Fail> {
    let alloc = rt.alloc();
    let lines = vec![in alloc;
        (7u64, String::from_str(alloc, "a")?),
        (8, String::new(alloc)),
    ]?;
    let bytes = join_lines(alloc, lines.as_slice())?;
    let is_split = split_lines(alloc, &LINES)? == lines;
    let none = split_lines(alloc, &[])?.len();
    assert!(rt; (bytes.as_slice(), is_split, none) == (LINES.as_slice(), true, 0));
    Ok(())
}

#[test]
fn lines_that_are_cut_off(rt: HostRuntime) -> Result<(), Fail> {
    let alloc = rt.alloc();
    let total = total_length(alloc, StdSource::new(LINES.as_slice()))?;
    let is_refused = total_length(alloc, StdSource::new(&LINES[..32])).is_err();
    let is_cut = split_lines(alloc, &LINES[..32]).is_err();
    assert!(rt; (total, is_refused, is_cut) == (1, true, true));
    Ok(())
}

/// The settings 3, a flag and the name `a`; a byte more; and another flag.
#[test]
fn settings_of_a_file(rt: HostRuntime) -> Result<(), Fail> {
    let alloc = rt.alloc();
    let mut bytes = [3u8, 0, 0, 0, 1, 1, 0, 0, 0, 0, 0, 0, 0, 97, 0];
    let first = settings_of(alloc, &bytes[..14])?.0;
    let is_longer = matches!(&settings_of(alloc, &bytes), Err(Damaged::Longer(1)));
    bytes[4] = 2;
    let text = match settings_of(alloc, &bytes) {
        Err(damaged) => format!(in alloc; "{damaged}")?,
        Ok(_) => String::new(alloc),
    };
    let wanted = "at position 5: Invalid bool encoding: 2";
    assert!(rt; (first, is_longer, text.as_str()) == (3, true, wanted));
    Ok(())
}

#[test]
fn numbers_and_views(rt: HostRuntime) -> Result<(), Fail> {
    let alloc = rt.alloc();
    let mut bytes = [2u8, 0, 0, 0, 0, 0, 0, 0, 1, 0, 0, 0, 2, 0, 0, 0];
    let before = sum_of(alloc, bytes.as_slice())?;
    set_first(bytes.as_mut_slice())?;
    let after = sum_of(alloc, bytes.as_slice())?;
    assert!(rt; (before, after) == (3, 9));
    Ok(())
}

#[test]
fn few_numbers(rt: HostRuntime) -> Result<(), Fail> {
    let alloc = rt.alloc();
    let few = few_of(alloc, &[2, 0, 0, 0, 0, 0, 0, 0, 7, 0, 0, 0])?;
    let many = few_of(alloc, &[1, 2, 0, 0, 0, 0, 0, 0]);
    let is_past = matches!(
        &many,
        Err(ReadError::PreallocationSizeLimit {
            needed: 1026,
            limit: 1024
        })
    );
    assert!(rt; (few.as_slice(), is_past) == ([7u16, 0].as_slice(), true));
    Ok(())
}

#[test]
fn borrowed_texts(rt: HostRuntime) -> Result<(), Fail> {
    let alloc = rt.alloc();
    let mut bytes = Vec::new(alloc);
    put_two_texts(&mut bytes, "a", "b")?;
    let are_there = two_texts(alloc, bytes.as_slice())? == ("a", "b");
    bytes.push(9)?;
    let mut reader = bytes.as_slice();
    let taken = take_two_texts(alloc, &mut reader)?;
    assert!(rt; (are_there, taken, reader) == (true, ("a", "b"), [9u8].as_slice()));
    Ok(())
}

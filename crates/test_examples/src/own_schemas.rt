//! Structs and an enum: what they are written as, and that it is copied from a reader as it was read. And a type that is
//! written as another.
use crate::copied::{copied_as, list_copied_as};
use example_schemas::change::Change;
use example_schemas::transfer::{Account, Day, Payment, Transfer};
use example_schemas::turn::Turn;
use std::alloc::Global;
use std::test::Fail;
use testkit_schemas::rows::{bytes_of, outcome};
use wincode::io::{Lending, Lifetime, Reader};
use wincode::serde::{Deserialize, Serialize};
use wincode::{By, ReadResult, copy_front, serialize};

/// A key of 32 bytes of 1, one of 32 bytes of 2, the number 3, and the note `a`.
const TRANSFER: &str = concat!(
    "0101010101010101010101010101010101010101010101010101010101010101",
    "0202020202020202020202020202020202020202020202020202020202020202",
    "0300000000000000",
    "01010000000000000061"
);

/// Day 7, on which 5 went to a key of 32 bytes of 2.
const DAY: &str = concat!(
    "07000000",
    "0100000000000000",
    "0202020202020202020202020202020202020202020202020202020202020202",
    "0500000000000000"
);

#[test]
fn a_transfer_written(rt: HostRuntime) -> Result<(), Fail> {
    let alloc = rt.alloc();
    let transfer = Transfer {
        from: [1; 32],
        to: [2; 32],
        amount: 3,
        memo: Some(String::from_str(alloc, "a")?),
    };
    assert!(rt; serialize(alloc, &transfer)? == bytes_of(alloc, TRANSFER)?);
    Ok(())
}

#[test]
fn a_day_written(rt: HostRuntime) -> Result<(), Fail> {
    let alloc = rt.alloc();
    let payment = Payment {
        to: Account([2; 32]),
        amount: 5,
    };
    let day = Day {
        number: 7,
        paid: vec![in alloc; payment]?,
    };
    assert!(rt; serialize(alloc, &day)? == bytes_of(alloc, DAY)?);
    Ok(())
}

#[test]
fn changes_written(rt: HostRuntime) -> Result<(), Fail> {
    let alloc = rt.alloc();
    for (change, digits) in [
        (Change::Closed(5), "000000000500000000000000"),
        (
            Change::Named(String::from_str(alloc, "a")?),
            "01000000010000000000000061",
        ),
    ] {
        let text = serialize(alloc, &change)?;
        assert!(rt; text == bytes_of(alloc, digits)?, "{digits}");
    }
    Ok(())
}

/// What copying the value of this name from the front of the bytes answers.
fn copied(alloc: Global, name: &str, bytes: &[u8]) -> Result<String, Fail> {
    match name {
        "Transfer" => transfer_copied(alloc, bytes),
        "Day" => copied_as::<Day>(alloc, bytes),
        "Turns" => list_copied_as::<By<Turn>>(alloc, bytes),
        _ => copied_as::<Change>(alloc, bytes),
    }
}

/// So of a transfer.
fn transfer_copied(alloc: Global, bytes: &[u8]) -> Result<String, Fail> {
    let mut reader = bytes;
    let text = copy_transfer(alloc, &mut reader);
    let left = reader.len();
    outcome(alloc, text, left)
}

/// A transfer from any reader.
fn copy_transfer<L: Lending, R: Reader<L>>(
    alloc: Global,
    reader: &mut R,
) -> wincode::Result<Vec<u8>> {
    copy_front::<L, R, Transfer>(alloc, reader)
}

/// A schema, bytes, and how copying a value of it from their front ends, with how many bytes are left.
const COPIED: [(&str, &str, &str); 6] = [
    ("Change", "0200000009", "err InvalidTagEncoding(2) 1"),
    ("Change", "0000000009", "err Io(ReadSizeLimit(8)) 1"),
    (
        "Day",
        "070000000100000000000000ff",
        "err Io(ReadSizeLimit(40)) 1",
    ),
    ("Transfer", "01", "err Io(ReadSizeLimit(32)) 1"),
    (
        "Turns",
        "020000000000000000020101",
        "err InvalidBoolEncoding(2) 2",
    ),
    (
        "Turns",
        "03000000000000000001",
        "err Io(ReadSizeLimit(3)) 2",
    ),
];

#[test]
fn encodings_copied(rt: HostRuntime) -> Result<(), Fail> {
    let alloc = rt.alloc();
    for (name, digits) in [
        ("Transfer", TRANSFER),
        ("Day", DAY),
        ("Change", "000000000500000000000000"),
        ("Change", "01000000010000000000000061"),
        ("Turns", "0300000000000000010001"),
    ] {
        let wanted = format!(in alloc; "ok 0 {digits}")?;
        let bytes = bytes_of(alloc, digits)?;
        assert!(rt; copied(alloc, name, bytes.as_slice())? == wanted, "{name}");
    }
    Ok(())
}

#[test]
fn what_is_no_encoding_is_not_copied(rt: HostRuntime) -> Result<(), Fail> {
    let alloc = rt.alloc();
    for (name, digits, wanted) in COPIED {
        let bytes = bytes_of(alloc, digits)?;
        assert!(rt; copied(alloc, name, bytes.as_slice())?.as_str() == wanted);
    }
    Ok(())
}

/// The turns in front of the bytes.
fn turns_of<'a>(alloc: Global, bytes: &'a [u8]) -> ReadResult<Vec<Turn>> {
    <Vec<By<Turn>> as Deserialize<Lifetime<'a>>>::deserialize(alloc, bytes)
}

/// Right, left and right.
const TURNS: [u8; 11] = [3, 0, 0, 0, 0, 0, 0, 0, 1, 0, 1];

#[test]
fn turns_written_as_flags(rt: HostRuntime) -> Result<(), Fail> {
    let alloc = rt.alloc();
    let turns = vec![in alloc; Turn::Right, Turn::Left, Turn::Right]?;
    let text = <Vec<By<Turn>> as Serialize>::serialize(alloc, &turns)?;
    let is_back = turns_of(alloc, &TURNS)? == turns;
    assert!(rt; (text.as_slice(), is_back) == (TURNS.as_slice(), true));
    Ok(())
}

#[test]
fn a_turn_written_as_a_flag(rt: HostRuntime) -> Result<(), Fail> {
    let text = <By<Turn> as Serialize>::serialize(rt.alloc(), &Turn::Left)?;
    assert!(rt; text.as_slice() == [0u8].as_slice());
    Ok(())
}

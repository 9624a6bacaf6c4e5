//! What the calls answer: bytes that are checked, texts that describe no type, pages of lines, and texts.
use crate::exports::{
    wincode_check, wincode_check_exact, wincode_explain, wincode_layout, wincode_message,
};
use crate::report::{Page, Report};
use std::test::Fail;

const NO_REPORT: Report = Report {
    length: 9,
    parts: 9,
    behind: 9,
    place: 9,
    first: 9,
    second: 9,
    depth: 9,
};

const NO_PAGE: Page = Page {
    length: 9,
    lines: 9,
    behind: 9,
};

/// A type, bytes, the number of what is found; and how many bytes the parts have, how many parts these are, how many bytes
/// are behind, how many were read, and the two numbers of the refusal.
const CHECKED: [(&str, &[u8], i32, [usize; 6]); 14] = [
    ("u8", &[7], 0, [1, 1, 0, 1, 0, 0]),
    ("u8", &[7, 8, 9], 0, [1, 1, 2, 1, 0, 0]),
    ("()", &[], 0, [0, 1, 0, 0, 0, 0]),
    ("u16", &[7], 1, [0, 0, 1, 0, 2, 0]),
    ("(u8, bool)", &[7, 2], 9, [1, 1, 1, 2, 2, 0]),
    ("Option<u8>", &[3, 1], 8, [1, 1, 1, 1, 3, 0]),
    ("char", &[128], 11, [0, 0, 1, 0, 128, 0]),
    (
        "String",
        &[2, 0, 0, 0, 0, 0, 0, 0, 97, 255],
        5,
        [0, 0, 10, 10, 1, 1],
    ),
    (
        "String",
        &[1, 0, 0, 0, 0, 0, 0, 0, 195],
        5,
        [0, 0, 9, 9, 0, 0],
    ),
    (
        "Vec<u64>",
        &[1, 0, 8, 0, 0, 0, 0, 0],
        7,
        [0, 0, 8, 8, 4_194_312, 4_194_304],
    ),
    (
        "Vec<u64>",
        &[0, 0, 0, 0, 0, 0, 0, 32],
        7,
        [0, 0, 8, 8, usize::MAX, 4_194_304],
    ),
    ("short Vec<u8>", &[255, 255, 4], 16, [0, 0, 3, 0, 0, 0]),
    ("u8,", &[7], -2, [0, 0, 0, 2, 0, 0]),
    ("", &[], -2, [0, 0, 0, 0, 0, 0]),
];

#[test]
fn bytes_are_checked(rt: HostRuntime) -> Result<(), Fail> {
    for (words, bytes, number, numbers) in CHECKED {
        let mut report = NO_REPORT;
        let found = wincode_check(rt.alloc(), words.as_bytes(), bytes, &mut report);
        assert!(rt; found == number, "{words}");
        let [length, parts, behind, place, first, second] = numbers;
        assert!(rt;
            (report.length, report.parts, report.behind) == (length, parts, behind),
            "{words}"
        );
        assert!(rt;
            (report.place, report.first, report.second) == (place, first, second),
            "{words}"
        );
    }
    Ok(())
}

/// A type, bytes, and how many items deep the part is that is refused of them.
const DEPTHS: [(&str, &[u8], usize); 13] = [
    ("bool", &[1], 0),
    ("(u8, bool)", &[7, 2], 0),
    ("([u16; 0], bool)", &[2], 0),
    ("Vec<u64>", &[7], 0),
    ("Vec<u64>", &[1, 0, 0, 0, 0, 0, 0, 0], 1),
    (
        "Vec<Vec<bool>>",
        &[1, 0, 0, 0, 0, 0, 0, 0, 2, 0, 0, 0, 0, 0, 0, 0, 1, 2],
        2,
    ),
    (
        "Vec<(u8, Vec<bool>)>",
        &[1, 0, 0, 0, 0, 0, 0, 0, 5, 1, 0, 0],
        1,
    ),
    ("Vec<(u8, [u16; 2])>", &[1, 0, 0, 0, 0, 0, 0, 0, 5], 1),
    ("[[bool; 2]; 2]", &[1, 0, 1, 2], 2),
    ("[[u16; 2]; 2]", &[0, 0], 2),
    (
        "BTreeMap<u8, Option<bool>>",
        &[1, 0, 0, 0, 0, 0, 0, 0, 3, 1, 2],
        1,
    ),
    (
        "Option<BTreeSet<char>>",
        &[1, 1, 0, 0, 0, 0, 0, 0, 0, 128],
        1,
    ),
    (
        "enum u8 { 4: [Result<u8, bool>; 1] }",
        &[4, 1, 0, 0, 0, 2],
        1,
    ),
];

#[test]
fn depths_of_refusals(rt: HostRuntime) -> Result<(), Fail> {
    for (words, bytes, depth) in DEPTHS {
        let mut report = NO_REPORT;
        let _ = wincode_check(rt.alloc(), words.as_bytes(), bytes, &mut report);
        assert!(rt; report.depth == depth, "{words}");
    }
    Ok(())
}

#[test]
fn bytes_behind_a_value_are_refused(rt: HostRuntime) -> Result<(), Fail> {
    for (bytes, number, first) in [
        ([7u8].as_slice(), 0, 0usize),
        (&[7, 8, 9], 15, 2),
        (&[], 1, 1),
    ] {
        let mut report = NO_REPORT;
        assert!(rt; wincode_check_exact(rt.alloc(), b"u8", bytes, &mut report) == number);
        assert!(rt; report.first == first);
    }
    Ok(())
}

#[test]
fn a_type_that_is_too_deep_or_no_text(rt: HostRuntime) -> Result<(), Fail> {
    let mut deep = Vec::new(rt.alloc());
    for _ in 0..128 {
        deep.extend_from_slice(b"Box<")?;
    }
    deep.push(b'u')?;
    let mut report = NO_REPORT;
    assert!(rt; wincode_check(rt.alloc(), deep.as_slice(), &[], &mut report) == -3);
    assert!(rt; wincode_check(rt.alloc(), &[117, 56, 255], &[], &mut report) == -1);
    assert!(rt; report.place == 2);
    Ok(())
}

/// The lines of the bytes 7, 1, 0, 5 as `(u8, Option<u16>)`.
const LINES: &[u8] = b"0: 07 .0 u8 7\n1: 01 .1 tag 1\n2: 0005 .1 u16 1280\n";

#[test]
fn pages_of_lines(rt: HostRuntime) -> Result<(), Fail> {
    for room in 0..LINES.len() + 2 {
        let mut from = 0usize;
        let mut seen = Vec::new(rt.alloc());
        for _ in 0..4 {
            let mut bytes = Vec::from_elem(rt.alloc(), 255u8, room)?;
            let (mut report, mut page) = (NO_REPORT, NO_PAGE);
            let text = b"(u8, Option<u16>)";
            let found = wincode_explain(
                rt.alloc(),
                text,
                &[7, 1, 0, 5],
                from,
                bytes.as_mut_slice(),
                &mut report,
                &mut page,
            );
            assert!(rt; (found, report.parts, report.length) == (0, 3, 4));
            let (lines, left) = bytes.as_slice().split_at(page.length.min(room));
            seen.extend_from_slice(lines)?;
            assert!(rt; left.iter().all(|byte| *byte == 255));
            assert!(rt; seen.len().checked_add(page.behind) == Some(LINES.len()));
            from = from.saturating_add(page.lines);
        }
        let whole = match room {
            0..=13 => 0,
            14 => 14,
            15..=19 => 29,
            _ => LINES.len(),
        };
        assert!(rt; seen.as_slice() == LINES.get(..whole).unwrap_or(LINES));
    }
    Ok(())
}

#[test]
fn texts_of_refusals(rt: HostRuntime) -> Result<(), Fail> {
    for (number, first, second, text) in [
        (1, 8, 0, "Attempting to read 8 bytes"),
        (5, 3, 1, "invalid utf-8 sequence of 1 bytes from index 3"),
        (5, 3, 0, "incomplete utf-8 byte sequence from index 3"),
        (
            7,
            9,
            4,
            "Encoded sequence length exceeded preallocation limit of 4 bytes (needed 9 bytes)",
        ),
        (8, 7, 0, "Invalid tag encoding: 7"),
        (9, 2, 0, "Invalid bool encoding: 2"),
        (11, 128, 0, "Invalid char lead: 128"),
        (14, 0, 0, "Out of memory"),
        (
            16,
            0,
            0,
            "Sequence length would overflow length encoding scheme: u16::MAX",
        ),
        (0, 0, 0, ""),
        (99, 1, 2, ""),
    ] {
        let (mut room, mut length) = ([255u8; 100], 0usize);
        assert!(rt;
            wincode_message(rt.alloc(), number, first, second, &mut room, &mut length) == 0
        );
        assert!(rt; room.get(..length).unwrap_or(&[]) == text.as_bytes());
        let mut little = [255u8; 2];
        let found = wincode_message(rt.alloc(), number, first, second, &mut little, &mut length);
        assert!(rt; (found, length) == (if text.is_empty() { 0 } else { -6 }, text.len()));
        assert!(rt; little == [255, 255]);
    }
    Ok(())
}

#[test]
fn layouts_of_declared_types(rt: HostRuntime) -> Result<(), Fail> {
    let source = b"pub struct Account { pub id: u64, pub owner: [u8; 32] }";
    for (text, number, layout) in [
        (
            "Vec<Account>",
            0,
            "Vec<struct { id: u64, owner: [u8; 32] }>",
        ),
        ("u8", 0, "u8"),
        ("Other", -2, ""),
    ] {
        let (mut room, mut length) = ([255u8; 100], 0usize);
        let found = wincode_layout(rt.alloc(), source, text.as_bytes(), &mut room, &mut length);
        assert!(rt; found == number);
        let shown = if number == 0 { length } else { 0 };
        assert!(rt; room.get(..shown).unwrap_or(&[]) == layout.as_bytes());
    }
    Ok(())
}

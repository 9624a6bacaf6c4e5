//! What is printed of bytes that are explained.
use std::alloc::Global;
use std::test::Fail;
use wincode_describe::{Described, explained_lines};

/// The lines of the bytes by the type.
fn lines(alloc: Global, text: &str, bytes: &[u8]) -> Result<String, Fail> {
    let described = Described::parse(alloc, text)?;
    Ok(explained_lines(alloc, &described, bytes)?.1)
}

/// A type, bytes and their lines.
const ROWS: [(&str, &[u8], &str); 29] = [
    (
        "(Option<u8>, u8)",
        &[2, 5],
        "0: 02 .0 tag 2\n1: .0 refused: Invalid tag encoding: 2\n",
    ),
    ("u16", &[2, 1, 9], "0: 0201 u16 258\n"),
    ("i8", &[255], "0: ff i8 -1\n"),
    (
        "(u8, i16)",
        &[7, 254, 255],
        "0: 07 .0 u8 7\n1: feff .1 i16 -2\n",
    ),
    (
        "(bool, bool)",
        &[0, 1],
        "0: 00 .0 flag false\n1: 01 .1 flag true\n",
    ),
    ("bool", &[2], "0: refused: Invalid bool encoding: 2\n"),
    ("char", &[0xe2, 0x82, 0xac], "0: e282ac char '€'\n"),
    ("()", &[5], "0:  nothing\n"),
    (
        "String",
        &[2, 0, 0, 0, 0, 0, 0, 0, 104, 105],
        "0: 0200000000000000 length 2\n8: 6869 text \"hi\"\n",
    ),
    (
        "Vec<u8>",
        &[1, 0, 0, 0, 0, 0, 0, 0, 9],
        "0: 0100000000000000 length 1\n8: 09 bytes 1\n",
    ),
    (
        "short Vec<u16>",
        &[2, 1, 0, 2, 0],
        "0: 02 length 2\n1: 0100 [0] u16 1\n3: 0200 [1] u16 2\n",
    ),
    ("Option<u8>", &[0], "0: 00 tag 0\n"),
    ("Option<u8>", &[1, 5], "0: 01 tag 1\n1: 05 u8 5\n"),
    (
        "Option<u8>",
        &[2, 5],
        "0: 02 tag 2\n1: refused: Invalid tag encoding: 2\n",
    ),
    (
        "Result<u8, bool>",
        &[1, 0, 0, 0, 1],
        "0: 01000000 tag 1\n4: 01 flag true\n",
    ),
    ("Box<u8>", &[3], "0: 03 u8 3\n"),
    (
        "[u16; 2]",
        &[1, 0, 2, 0],
        "0: 0100 [0] u16 1\n2: 0200 [1] u16 2\n",
    ),
    (
        "[bool; 2]",
        &[1, 2],
        "0: 01 [0] flag true\n1: [1] refused: Invalid bool encoding: 2\n",
    ),
    (
        "struct { a: u8, b: (bool, u8) }",
        &[1, 1, 2],
        "0: 01 .a u8 1\n1: 01 .b.0 flag true\n2: 02 .b.1 u8 2\n",
    ),
    (
        "BTreeSet<u8>",
        &[1, 0, 0, 0, 0, 0, 0, 0, 4],
        "0: 0100000000000000 length 1\n8: 04 [0] u8 4\n",
    ),
    (
        "BTreeMap<u8, bool>",
        &[1, 0, 0, 0, 0, 0, 0, 0, 4, 0],
        "0: 0100000000000000 length 1\n8: 04 [0].0 u8 4\n9: 00 [0].1 flag false\n",
    ),
    (
        "enum u16 { 3: u8, 5: bool }",
        &[5, 0, 1],
        "0: 0500 tag 5\n2: 01 flag true\n",
    ),
    (
        "enum u8 { 3: u8 }",
        &[4, 1],
        "0: 04 tag 4\n1: refused: Invalid tag encoding: 4\n",
    ),
    (
        "(String, bool)",
        &[1, 0, 0, 0, 0, 0, 0, 0, 97, 1],
        "0: 0100000000000000 .0 length 1\n8: 61 .0 text \"a\"\n9: 01 .1 flag true\n",
    ),
    (
        "(String, bool)",
        &[1, 0, 0, 0, 0, 0, 0, 0, 97, 2],
        "0: 0100000000000000 .0 length 1\n8: 61 .0 text \"a\"\n9: .1 refused: Invalid bool encoding: 2\n",
    ),
    (
        "(Vec<u8>, u16)",
        &[2, 0, 0, 0, 0, 0, 0, 0, 8, 9, 7, 0],
        "0: 0200000000000000 .0 length 2\n8: 0809 .0 bytes 2\n10: 0700 .1 u16 7\n",
    ),
    (
        "Vec<(short Vec<u8>, bool)>",
        &[2, 0, 0, 0, 0, 0, 0, 0, 1, 9, 1, 0, 3],
        "0: 0200000000000000 length 2\n8: 01 [0].0 length 1\n9: 09 [0].0 bytes 1\n10: 01 [0].1 flag true\n11: 00 [1].0 length 0\n12:  [1].0 bytes 0\n12: [1].1 refused: Invalid bool encoding: 3\n",
    ),
    (
        "enum u8 { 4: (String, u8), 5: u8 }",
        &[4, 1, 0, 0, 0, 0, 0, 0, 0, 97],
        "0: 04 tag 4\n1: 0100000000000000 .0 length 1\n9: 61 .0 text \"a\"\n10: .1 refused: Attempting to read 1 bytes\n",
    ),
    (
        "Result<String, (u8, [bool; 2])>",
        &[1, 0, 0, 0, 7, 1, 2],
        "0: 01000000 tag 1\n4: 07 .0 u8 7\n5: 01 .1[0] flag true\n6: .1[1] refused: Invalid bool encoding: 2\n",
    ),
];

#[test]
fn each_kind_of_part(rt: HostRuntime) -> Result<(), Fail> {
    let alloc = rt.alloc();
    for (text, bytes, printed) in ROWS {
        let lines = lines(alloc, text, bytes)?;
        assert!(rt; lines.as_str() == printed);
    }
    Ok(())
}

/// A type of std's, bytes and their lines.
const STD_ROWS: [(&str, &[u8], &str); 20] = [
    ("f32", &[0, 0, 0x48, 0x41], "0: 00004841 f32 12.5\n"),
    (
        "f64",
        &[0x9a, 0x99, 0x99, 0x99, 0x99, 0x99, 0xb9, 0x3f],
        "0: 9a9999999999b93f f64 0.1\n",
    ),
    ("f32", &[1, 0, 0xc0, 0xff], "0: 0100c0ff f32 NaN\n"),
    ("f32", &[1, 0], "0: refused: Attempting to read 4 bytes\n"),
    ("NonZeroU16", &[2, 1, 9], "0: 0201 u16 258\n"),
    ("NonZeroI8", &[255], "0: ff i8 -1\n"),
    ("NonZeroU16", &[0, 0], "0: refused: Custom error: zero\n"),
    (
        "(u8, NonZeroI16)",
        &[7, 0, 0],
        "0: 07 .0 u8 7\n1: .1 refused: Custom error: zero\n",
    ),
    (
        "Duration",
        &[1, 0, 0, 0, 0, 0, 0, 0, 0, 0x65, 0xcd, 0x1d],
        "0: 01000000000000000065cd1d Duration 1.5s\n",
    ),
    (
        "Duration",
        &[7, 0, 0, 0, 0, 0, 0, 0, 255, 255, 255, 255],
        "0: 0700000000000000ffffffff Duration 11.294967295s\n",
    ),
    (
        "Duration",
        &[255, 255, 255, 255, 255, 255, 255, 255, 0, 0xca, 0x9a, 0x3b],
        "0: refused: Custom error: overflow\n",
    ),
    (
        "SystemTime",
        &[2, 0, 0, 0, 0, 0, 0, 0, 0, 0, 0, 0],
        "0: 020000000000000000000000 SystemTime 2s since 1970\n",
    ),
    (
        "SystemTime",
        &[0, 0, 0, 0, 0, 0, 0, 128, 0, 0, 0, 0],
        "0: refused: Custom error: overflow\n",
    ),
    (
        "Ipv6Addr",
        &[
            0x20, 1, 0x0d, 0xb8, 0, 0, 0x12, 0x34, 0, 0, 0, 0, 0x89, 0xab, 0xcd, 0xef,
        ],
        "0: 20010db8000012340000000089abcdef Ipv6Addr 2001:db8:0:1234::89ab:cdef\n",
    ),
    (
        "IpAddr",
        &[0, 0, 0, 0, 127, 0, 0, 1],
        "0: 00000000 tag 0\n4: 7f000001 Ipv4Addr 127.0.0.1\n",
    ),
    (
        "SocketAddrV4",
        &[127, 0, 0, 1, 80, 0],
        "0: 7f0000015000 SocketAddrV4 127.0.0.1:80\n",
    ),
    (
        "SocketAddr",
        &[
            1, 0, 0, 0, 0, 0, 0, 0, 0, 0, 0, 0, 0, 0, 0, 0, 0, 0, 0, 1, 80, 0,
        ],
        "0: 01000000 tag 1\n4: 00000000000000000000000000000001.. (18 bytes) SocketAddrV6 [::1]:80\n",
    ),
    (
        "SocketAddrV4",
        &[127, 0, 0, 1, 80],
        "0: refused: Attempting to read 6 bytes\n",
    ),
    ("Range<u8>", &[1, 2], "0: 01 .start u8 1\n1: 02 .end u8 2\n"),
    (
        "Vec<NonZeroU16>",
        &[2, 0, 0, 0, 0, 0, 0, 0, 1, 0, 0, 0],
        "0: 0200000000000000 length 2\n8: 0100 [0] u16 1\n10: [1] refused: Custom error: zero\n",
    ),
];

#[test]
fn types_of_std(rt: HostRuntime) -> Result<(), Fail> {
    let alloc = rt.alloc();
    for (text, bytes, printed) in STD_ROWS {
        let lines = lines(alloc, text, bytes)?;
        assert!(rt; lines.as_str() == printed);
    }
    Ok(())
}

/// A short length of two and of three bytes, before so many bytes.
#[test]
fn short_lengths(rt: HostRuntime) -> Result<(), Fail> {
    let alloc = rt.alloc();
    for (head, n, printed) in [
        (&[0x7fu8][..], 127usize, "0: 7f length 127\n1: "),
        (&[0x80, 0x01], 128, "0: 8001 length 128\n2: "),
        (&[0xff, 0x7f], 16383, "0: ff7f length 16383\n2: "),
        (&[0x80, 0x80, 0x01], 16384, "0: 808001 length 16384\n3: "),
    ] {
        let mut bytes = Vec::from_slice(alloc, head)?;
        for _ in 0..n {
            bytes.push(1)?;
        }
        let text = lines(alloc, "short Vec<u8>", bytes.as_slice())?;
        assert!(rt; text.as_str().starts_with(printed));
        let end = format!(in alloc; "01010101010101010101010101010101.. ({n} bytes) bytes {n}\n")?;
        assert!(rt; text.as_str().ends_with(end.as_str()));
    }
    Ok(())
}

/// An enum of a source file that doesn't say how wide its tags are has tags of four bytes.
#[test]
fn a_declared_enum(rt: HostRuntime) -> Result<(), Fail> {
    let alloc = rt.alloc();
    let source = "enum Level { Low, High(u8) }";
    let described = Described::parse_with(alloc, source, "Level")?;
    let (_, text) = explained_lines(alloc, &described, &[1, 0, 0, 0, 5])?;
    assert!(rt; text.as_str() == "0: 01000000 tag 1\n4: 05 .0 u8 5\n");
    let (_, text) = explained_lines(alloc, &described, &[1, 5])?;
    assert!(rt; text.as_str() == "0: refused: Attempting to read 4 bytes\n");
    Ok(())
}

/// Text that isn't UTF-8 is refused where its length stands.
#[test]
fn no_text(rt: HostRuntime) -> Result<(), Fail> {
    let alloc = rt.alloc();
    let text = lines(alloc, "(u8, String)", &[7, 1, 0, 0, 0, 0, 0, 0, 0, 255])?;
    assert!(rt; text.as_str().starts_with("0: 07 .0 u8 7\n1: .1 refused: "));
    Ok(())
}

/// Parts of 15, 16 and 17 bytes.
#[test]
fn parts_about_as_long_as_are_printed(rt: HostRuntime) -> Result<(), Fail> {
    let alloc = rt.alloc();
    for (n, printed) in [
        (15usize, "0: 000000000000000000000000000000 bytes 15\n"),
        (16, "0: 00000000000000000000000000000000 bytes 16\n"),
        (
            17,
            "0: 00000000000000000000000000000000.. (17 bytes) bytes 17\n",
        ),
    ] {
        let bytes = [0u8; 17];
        let kind = format!(in alloc; "[u8; {n}]")?;
        let text = lines(alloc, kind.as_str(), &bytes)?;
        assert!(rt; text.as_str() == printed);
    }
    Ok(())
}

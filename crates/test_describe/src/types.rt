//! Types as text: what is written parses as itself, and what is refused.
ghost use Rattle.wincode_describe.specs.Forms.{seen};
ghost use Rattle.wincode_describe.specs.Readers.{Makes};
ghost use Rattle.wincode_describe.specs.Spelled.{IsType};

use std::alloc::Global;
use std::test::Fail;
use wincode_describe::{DescribeResult, Described};

/// What is written of each is the second text, which parses as itself.
const WRITTEN: [(&str, &str); 48] = [
    ("u8", "u8"),
    (" u128 ", "u128"),
    ("isize", "isize"),
    ("bool", "bool"),
    ("char", "char"),
    ("()", "()"),
    ("( )", "()"),
    ("String", "String"),
    ("Vec<u8>", "Vec<u8>"),
    ("VecDeque< u64 >", "Vec<u64>"),
    ("short Vec<u8>", "short Vec<u8>"),
    ("short  Vec <String>", "short Vec<String>"),
    ("BTreeMap<u64, Vec<u8>>", "BTreeMap<u64, Vec<u8>>"),
    ("HashMap<u8,(u8,u8)>", "BTreeMap<u8, (u8, u8)>"),
    ("HashSet<i16>", "BTreeSet<i16>"),
    ("Option<Option<u8>>", "Option<Option<u8>>"),
    ("Result<(),String>", "Result<(), String>"),
    ("Rc<u64>", "Box<u64>"),
    ("[u8;32]", "[u8; 32]"),
    ("[[u16; 2]; 3]", "[[u16; 2]; 3]"),
    (
        "Vec<(u64, Option<String>, [u8; 32])>",
        "Vec<(u64, Option<String>, [u8; 32])>",
    ),
    ("(u8, u8,)", "(u8, u8)"),
    (
        "struct{id:u64,name:String,}",
        "struct { id: u64, name: String }",
    ),
    (
        "enum u32 { 0: u64, 7: String }",
        "enum u32 { 0: u64, 7: String }",
    ),
    ("Arc<u64>", "Box<u64>"),
    ("BoxedStr", "String"),
    ("CowStr", "String"),
    ("PathBuf", "String"),
    ("RcStr", "Box<String>"),
    ("ArcStr", "Box<String>"),
    ("Box<str>", "String"),
    ("Vec<Rc<str>>", "Vec<Box<String>>"),
    ("Cow<'a, str>", "String"),
    ("Cow<[u8]>", "Vec<u8>"),
    ("CowSlice<u16>", "Vec<u16>"),
    ("Vec<Wrapping<u8>>", "Vec<u8>"),
    ("Reverse<(u8, Saturating<i16>)>", "(u8, i16)"),
    ("RangeFrom<RangeTo<u8>>", "u8"),
    ("Range<u64>", "struct { start: u64, end: u64 }"),
    ("f32", "f32"),
    ("NonZeroU8", "NonZeroU8"),
    ("Vec<NonZeroIsize>", "Vec<NonZeroIsize>"),
    ("(Duration, SystemTime)", "(Duration, SystemTime)"),
    ("Ipv6Addr", "Ipv6Addr"),
    ("IpAddr", "Result<Ipv4Addr, Ipv6Addr>"),
    ("SocketAddrV6", "SocketAddrV6"),
    ("SocketAddr", "Result<SocketAddrV4, SocketAddrV6>"),
    (
        "RangeInclusive<(u8, String)>",
        "struct { start: (u8, String), end: (u8, String) }",
    ),
];

#[test]
fn are_written_as_they_are_parsed(rt: HostRuntime) -> Result<(), Fail> {
    let alloc = rt.alloc();
    for (text, written) in WRITTEN {
        let described = Described::parse(alloc, text)?;
        let again = format!(in alloc; "{described}")?;
        assert!(rt; again.as_str() == written);
        let parsed = Described::parse(alloc, written)?;
        let once_more = format!(in alloc; "{parsed}")?;
        assert!(rt; once_more.as_str() == written);
    }
    Ok(())
}

/// What is written of a description, parsed: the same description.
fn parsed_again(alloc: Global, described: &Described) -> DescribeResult<Described>
    requires { IsType 128 (seen described.now) }
    ensures { Makes seen (seen described.now) result }
{
    let text = format!(in alloc; "{described}")?;
    Described::parse(alloc, text.as_str())
}

#[test]
fn are_parsed_as_they_are_written(rt: HostRuntime) -> Result<(), Fail> {
    let alloc = rt.alloc();
    let described = Described::Option(Box::new(alloc, Described::ByteArray(3))?);
    let again = parsed_again(alloc, &described)?;
    let text = format!(in alloc; "{again}")?;
    assert!(rt; text.as_str() == "Option<[u8; 3]>");
    Ok(())
}

/// Each is refused so.
const REFUSED: [(&str, &str); 18] = [
    ("", "a type is wanted at byte 0"),
    ("u7", "a type is wanted at byte 0"),
    ("Vec u8", "`<` is wanted at byte 4"),
    ("Vec<u8", "`>` is wanted at byte 6"),
    ("Vec<u8>>", "the end of the type is wanted at byte 7"),
    ("(u8)", "`,` is wanted at byte 3"),
    ("(u8, u8", "`,` or `)` is wanted at byte 7"),
    (
        "[u8; x]",
        "how many items the array has is wanted at byte 5",
    ),
    ("[u8, 2]", "`;` is wanted at byte 3"),
    ("short String", "`Vec` is wanted at byte 6"),
    ("Option<str>", "a type is wanted at byte 7"),
    ("Cow<u8>", "`str` or `[` is wanted at byte 4"),
    ("Range<u8, u8>", "`>` is wanted at byte 8"),
    ("struct { : u8 }", "a field is wanted at byte 9"),
    ("struct { #[a] : u8 }", "a field is wanted at byte 14"),
    (
        "enum i8 { 0: u8 }",
        "`u8`, `u16`, `u32` or `u64` is wanted at byte 5",
    ),
    (
        "enum u8 { 256: u8 }",
        "a tag that its size has is wanted at byte 10",
    ),
    (
        "enum u8 { 1: u8, 1: u8 }",
        "a tag that no other case has is wanted at byte 10",
    ),
];

#[test]
fn are_refused_with_their_byte(rt: HostRuntime) -> Result<(), Fail> {
    let alloc = rt.alloc();
    for (text, printed) in REFUSED {
        match Described::parse(alloc, text) {
            Ok(_) => return Err(Fail::from("parsed")),
            Err(error) => {
                assert!(rt; format!(in alloc; "{error}")?.as_str() == printed);
            }
        }
    }
    Ok(())
}

/// So many options, one in the other, of a byte.
fn deep(alloc: std::alloc::Global, levels: usize) -> Result<String, Fail> {
    let mut text = String::new(alloc);
    for _ in 0..levels {
        text.push_str("Option<")?;
    }
    text.push_str("u8")?;
    for _ in 0..levels {
        text.push_str(">")?;
    }
    Ok(text)
}

#[test]
fn are_parsed_up_to_a_depth(rt: HostRuntime) -> Result<(), Fail> {
    let alloc = rt.alloc();
    let most = deep(alloc, 127)?;
    assert!(rt; Described::parse(alloc, most.as_str()).is_ok());
    let more = deep(alloc, 128)?;
    match Described::parse(alloc, more.as_str()) {
        Ok(_) => Err(Fail::from("parsed")),
        Err(error) => {
            let printed = format!(in alloc; "{error}")?;
            assert!(rt; printed.as_str() == "the type at byte 896 is more than 128 levels deep");
            Ok(())
        }
    }
}

/// Declarations that name types.
const SOURCE: &str = "
use std::alloc::Global;

/// An account, and whose it is.
#[derive(Debug, Drop)]
pub struct Account {
    pub id: u64,
    // wincode: with = containers::Vec<Owner, ShortU16Len>
    owners: Vec<Owner>,
    state: State,
}

struct Owner(String, [u8; 4]);

struct Nothing;

// wincode: tag_encoding = u8
enum State {
    Open,
    // wincode: tag = 7
    Closed(u16),
    Moved { to: u64, when: Option<u32> },
}

// wincode: tag_encoding = u8
enum Twice {
    First,
}

// wincode: tag_encoding = u64
enum Twice {
    Second,
}

struct Page<T> {
    items: Vec<T>,
}

struct Odd {
    file: File,
}

struct One {
    other: Other,
}

struct Other {
    one: Vec<One>,
}

struct Ring {
    next: Option<Ring>,
}

enum Level {
    Low,
    High(u8),
}

mod inner {
    pub struct Seal(pub u8);
}

pub(crate) struct Seal(pub [u8; 4], #[allow(dead_code)] pub(crate) u16);

struct Marks(
    // wincode: with = containers::Vec<u8, ShortU16Len>
    Vec<u8>,
    /* what is left */ (Braces, Brackets)
);

struct Braces {}

struct Brackets();

struct Files {
    // wincode: with = File<u8>
    files: Vec<u8>,
}

enum Kind {
    #[allow(dead_code)]
    Plain,
    #[doc = \"behind\"]
    Marked(Marks, #[allow(unused)] Option<Seal>)
}

struct Visit {
    at: SystemTime,
    took: Duration,
    from: Option<SocketAddrV4>,
    share: f64,
    pages: Range<NonZeroU32>,
    name: BoxedStr,
    count: Arc<Wrapping<u16>>,
}
";

/// A type by these declarations, and what it is.
const DECLARED: [(&str, &str); 11] = [
    ("Owner", "struct { 0: String, 1: [u8; 4] }"),
    ("Option<Nothing>", "Option<()>"),
    (
        "State",
        "enum u8 { 0: (), 7: struct { 0: u16 }, 2: struct { to: u64, when: Option<u32> } }",
    ),
    (
        "Vec<Account>",
        "Vec<struct { id: u64, owners: short Vec<struct { 0: String, 1: [u8; 4] }>, state: enum u8 { 0: (), 7: struct { 0: u16 }, 2: struct { to: u64, when: Option<u32> } } }>",
    ),
    ("containers::Vec<u8, BincodeLen>", "Vec<u8>"),
    ("Level", "enum u32 { 0: (), 1: struct { 0: u8 } }"),
    ("Seal", "struct { 0: [u8; 4], 1: u16 }"),
    ("Twice", "enum u8 { 0: () }"),
    ("Marks", "struct { 0: short Vec<u8>, 1: ((), ()) }"),
    (
        "Kind",
        "enum u32 { 0: (), 1: struct { 0: struct { 0: short Vec<u8>, 1: ((), ()) }, 1: Option<struct { 0: [u8; 4], 1: u16 }> } }",
    ),
    (
        "Visit",
        "struct { at: SystemTime, took: Duration, from: Option<SocketAddrV4>, share: f64, pages: struct { start: NonZeroU32, end: NonZeroU32 }, name: String, count: Box<u16> }",
    ),
];

#[test]
fn are_named_by_declarations(rt: HostRuntime) -> Result<(), Fail> {
    let alloc = rt.alloc();
    for (text, written) in DECLARED {
        let described = Described::parse_with(alloc, SOURCE, text)?;
        let again = format!(in alloc; "{described}")?;
        assert!(rt; again.as_str() == written);
        let parsed = Described::parse(alloc, written)?;
        let once_more = format!(in alloc; "{parsed}")?;
        assert!(rt; once_more.as_str() == written);
    }
    Ok(())
}

/// What these declarations don't name, or what no type describes.
const UNDECLARED: [(&str, &str); 7] = [
    ("Vec<Person>", "a type is wanted at byte 4"),
    ("Page", "a type without parameters is wanted at byte 0"),
    ("(u8, Odd)", "`File` describes no type"),
    ("Files", "`File<u8>` describes no type"),
    (
        "Vec<One>",
        "the type at byte 4 is more than 128 levels deep",
    ),
    (
        "Ring",
        "52:18: `Ring.next`: a type that has itself for a part has no schema",
    ),
    (
        "containers::Vec<u8, U>",
        "`ShortU16Len` or `BincodeLen` is wanted at byte 20",
    ),
];

#[test]
fn are_refused_by_declarations(rt: HostRuntime) -> Result<(), Fail> {
    let alloc = rt.alloc();
    for (text, printed) in UNDECLARED {
        match Described::parse_with(alloc, SOURCE, text) {
            Ok(_) => return Err(Fail::from("parsed")),
            Err(error) => {
                assert!(rt; format!(in alloc; "{error}")?.as_str() == printed);
            }
        }
    }
    Ok(())
}

/// A declaration that has the name of one of std's types would be taken for that.
#[test]
fn no_declaration_has_a_name_of_std(rt: HostRuntime) -> Result<(), Fail> {
    let alloc = rt.alloc();
    match Described::parse_with(alloc, "struct Duration(u64);", "Vec<Duration>") {
        Ok(_) => Err(Fail::from("parsed")),
        Err(error) => {
            assert!(rt;
                format!(in alloc; "{error}")?.as_str()
                    == "`a declaration with the name of one of std's types` describes no type"
            );
            Ok(())
        }
    }
}

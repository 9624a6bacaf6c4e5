//! A description as the text of its type.
ghost use Rattle.std.specs.Prelude.{◌≡◌, ◌++◌, Some};
ghost use Rattle.std.specs.Fmt.{DisplaysOnOk};
ghost use Rattle.wincode_describe.specs.Forms.{seen, seen_cases};
ghost use Rattle.wincode_describe.specs.Written.{nonzero_name, std_name, integer_name, list_name, tag_name, written};

use crate::described::{Cases, Described, Integer, LengthScheme, StdType, TagSize};
use std::fmt::{self, Display, Formatter, Write};

/// The word of an integer.
pub(crate) fn integer_word(integer: Integer) -> &'static str
    ensures { result.now ≡ integer_name integer }
{
    match integer {
        Integer::U8 => "u8",
        Integer::U16 => "u16",
        Integer::U32 => "u32",
        Integer::U64 => "u64",
        Integer::U128 => "u128",
        Integer::Usize => "usize",
        Integer::I8 => "i8",
        Integer::I16 => "i16",
        Integer::I32 => "i32",
        Integer::I64 => "i64",
        Integer::I128 => "i128",
        Integer::Isize => "isize",
    }
}

/// The word of the type of an integer that isn't 0.
fn nonzero_word(integer: Integer) -> &'static str
    ensures { result.now ≡ nonzero_name integer }
{
    match integer {
        Integer::U8 => "NonZeroU8",
        Integer::U16 => "NonZeroU16",
        Integer::U32 => "NonZeroU32",
        Integer::U64 => "NonZeroU64",
        Integer::U128 => "NonZeroU128",
        Integer::Usize => "NonZeroUsize",
        Integer::I8 => "NonZeroI8",
        Integer::I16 => "NonZeroI16",
        Integer::I32 => "NonZeroI32",
        Integer::I64 => "NonZeroI64",
        Integer::I128 => "NonZeroI128",
        Integer::Isize => "NonZeroIsize",
    }
}

/// The word of a type of std's.
pub(crate) fn std_word(kind: StdType) -> &'static str
    ensures { result.now ≡ std_name kind }
{
    match kind {
        StdType::F32 => "f32",
        StdType::F64 => "f64",
        StdType::Duration => "Duration",
        StdType::SystemTime => "SystemTime",
        StdType::Ipv4Addr => "Ipv4Addr",
        StdType::Ipv6Addr => "Ipv6Addr",
        StdType::SocketAddrV4 => "SocketAddrV4",
        StdType::SocketAddrV6 => "SocketAddrV6",
    }
}

/// The word of a list.
fn list_word(scheme: LengthScheme) -> &'static str
    ensures { result.now ≡ list_name scheme }
{
    match scheme {
        LengthScheme::Eight => "Vec",
        LengthScheme::Short => "short Vec",
    }
}

/// The word of a tag.
fn tag_word(size: TagSize) -> &'static str
    ensures { result.now ≡ tag_name size }
{
    match size {
        TagSize::U8 => "u8",
        TagSize::U16 => "u16",
        TagSize::U32 => "u32",
        TagSize::U64 => "u64",
    }
}

/// A type between these two texts.
#[cycle(printing)]
fn between<W: Write>(
    f: &mut Formatter<W>,
    opening: &str,
    content: &Described,
    closing: &str,
) -> fmt::Result
    ensures { DisplaysOnOk W.write_str_gives f.old result (Some (opening.now ++ (written (seen content.now) ++ closing.now))) f.new }
{
    f.write_str(opening)?;
    content.fmt(f)?;
    f.write_str(closing)
}

/// The type as `Described::parse` reads it.
impl Display for Described {
    ghost output = { λ described. Some (written (seen described)) };

    #[cycle(printing)]
    fn fmt<W: Write>(&self, f: &mut Formatter<W>) -> fmt::Result {
        match self {
            Described::Integer(integer) => f.write_str(integer_word(*integer)),
            Described::NonZero(integer) => f.write_str(nonzero_word(*integer)),
            Described::Std(kind) => f.write_str(std_word(*kind)),
            Described::Bool => f.write_str("bool"),
            Described::Char => f.write_str("char"),
            Described::Unit => f.write_str("()"),
            Described::Text => f.write_str("String"),
            Described::ByteList(scheme) => {
                f.write_str(list_word(*scheme))?;
                f.write_str("<u8>")
            }
            Described::ByteArray(n) => write!(f, "[u8; {n}]"),
            Described::Option(content) => between(f, "Option<", content, ">"),
            Described::Result(one, other) => {
                between(f, "Result<", one, ", ")?;
                between(f, "", other, ">")
            }
            Described::Boxed(content) => between(f, "Box<", content, ">"),
            Described::List(scheme, item) => {
                f.write_str(list_word(*scheme))?;
                between(f, "<", item, ">")
            }
            Described::Set(item) => between(f, "BTreeSet<", item, ">"),
            Described::Map(pair) => between(f, "BTreeMap<", pair, ">"),
            Described::Array(n, item) => {
                between(f, "[", item, "; ")?;
                write!(f, "{n}]")
            }
            Described::Tuple(members) => between(f, "(", members, ")"),
            Described::Struct(fields) => between(f, "struct { ", fields, " }"),
            Described::Joined(first, second) => {
                between(f, "", first, ", ")?;
                (**second).fmt(f)
            }
            Described::Field(name, content) => {
                f.write_str(name.as_str())?;
                between(f, ": ", content, "")
            }
            Described::Enum(size, cases) => {
                f.write_str("enum ")?;
                f.write_str(tag_word(*size))?;
                f.write_str(" { ")?;
                (**cases).fmt(f)?;
                f.write_str(" }")
            }
        }
    }
}

impl Display for Cases {
    ghost output = { λ cases. Some (written (seen_cases cases)) };

    #[cycle(printing)]
    fn fmt<W: Write>(&self, f: &mut Formatter<W>) -> fmt::Result {
        match self {
            Cases::Last(tag, content) => {
                write!(f, "{tag}: ")?;
                (**content).fmt(f)
            }
            Cases::Case(tag, content, others) => {
                write!(f, "{tag}: ")?;
                (**content).fmt(f)?;
                f.write_str(", ")?;
                (**others).fmt(f)
            }
        }
    }
}

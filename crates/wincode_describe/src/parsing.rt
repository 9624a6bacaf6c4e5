//! The text of a type, as a Rust programmer writes it, to its description.
ghost use Rattle.std.specs.Prelude.{◌≡◌, ◌<◌, ◌/◌, [], false, None, option_map, length, IfErr, IfOk};
ghost use Rattle.std.specs.Fmt.{decimal};
ghost use Rattle.std.specs.String.{string_bytes};
ghost use Rattle.wincode_describe.specs.Forms.{Both, Choice, Form, Group, LastCase, Named, OneCase, Record, seen, seen_cases};
ghost use Rattle.wincode_describe.specs.Phrases.{left, pieces, Reads};
ghost use Rattle.wincode_describe.specs.Sources.{next_number};
ghost use Rattle.wincode_describe.specs.Readers.{
  IsKnownAs,
  IsRefusedOf,
  Makes,
  Parses,
  array_by,
  array_form,
  braced_by,
  container_by,
  cow_by,
  declared_as,
  declared_enum,
  declared_struct,
  enum_by,
  found_as,
  goes_on,
  greatest_of,
  has_tag,
  held_form,
  item_by,
  known_form,
  list_form,
  one_by,
  opening_of,
  pair_form,
  plain_of,
  range_form,
  readers,
  rounded_by,
  scheme_of,
  schemed,
  shape_by,
  short_by,
  std_plain_of,
  struct_by,
  tag_of,
  text_by,
  two_by,
  type_among,
  type_in,
  type_of,
};
ghost use Rattle.wincode_describe.specs.Spelled.{IsType};
ghost use Rattle.wincode_describe.specs.Written.{written};
ghost use Rattle.wincode_describe.specs.declared.described.TagSize.TheVariants.{U32};

use crate::declared::{Found, declaration_in, declared_tag, fault_of, refuse_names};
use crate::described::{Cases, Described, Integer, LengthScheme, StdType, TagSize};
use crate::error::{DescribeError, DescribeResult, wanted};
use crate::tokens::{Tokens, said_by, text_tokens};
use crate::upcoming::copied;
use std::alloc::Global;
use wincode_derive_text::{Token, tokens_of};

/// How many levels a type may have, where each further member of a tuple, a struct or an enum is one more.
pub const MAX_DEPTH: usize = 128;

impl Described {
    /// Reads a type as a Rust programmer writes it: `Vec<(u64, Option<String>, [u8; 32])>`. An error says what was
    /// wanted and at which byte of the text.
    pub fn parse(alloc: Global, text: &str) -> DescribeResult<Described>
        ensures ok { (form : Form) → IsType MAX_DEPTH form → text.now ≡ written form → Makes seen form result }
        ensures known { IfOk result (λ d. IsKnownAs (type_of text.now MAX_DEPTH) (seen d)) }
        ensures refused { IfErr result (IsRefusedOf (type_of text.now MAX_DEPTH)) }
    {
        whole_type(alloc, &[], text, MAX_DEPTH)
    }

    /// As `parse`, where the structs and enums that a Rust source file declares have their names: `Vec<Account>`. A
    /// struct is `struct { .. }`, where a field without a name has its number; an enum is one of cases by their tags. What
    /// `// wincode: with = ..` says stands for the field's type, as in `wincode_derive`. A declared type that has the name of
    /// one of std's is refused, since the name stands for that one.
    pub fn parse_with(alloc: Global, source: &str, text: &str) -> DescribeResult<Described>
        ensures ok { IfOk result (λ d. (form : Form) → IsType MAX_DEPTH form → text.now ≡ written form → seen d ≡ form) }
        ensures known { IfOk result (λ d. IsKnownAs (type_in source.now text.now MAX_DEPTH) (seen d)) }
    {
        let source = tokens_of(alloc, source)?;
        refuse_names(alloc, source.as_slice())?;
        whole_type(alloc, source.as_slice(), text, MAX_DEPTH)
    }
}

/// What holds one type.
#[derive(Clone, Copy)]
enum Holder {
    Option,
    Boxed,
    /// A box that several hold: of a text it holds a `String`, where `Box` is one itself.
    Shared,
    Set,
    List,
    /// What adds nothing to what it holds.
    Bare,
}

/// What holds two types.
#[derive(Clone, Copy)]
enum Pair {
    Result,
    Map,
}

/// What is a type by its word, made of others.
#[derive(Clone, Copy)]
enum Known {
    SharedText,
    IpAddr,
    SocketAddr,
}

/// What is to stand behind a word.
#[derive(Clone, Copy)]
enum Opening {
    Struct,
    Enum,
    ShortList,
    One(Holder),
    Two(Pair),
    Container,
    Range,
    Cow,
    /// Nothing.
    Known(Known),
    /// Nothing: it may be the name of a declared type.
    Name,
}

/// The type of a word that has no parts.
fn plain(word: &str) -> Option<Described>
    ensures { option_map seen result ≡ plain_of word.now }
{
    let integer = match word {
        "bool" => return Some(Described::Bool),
        "char" => return Some(Described::Char),
        "String" | "BoxedStr" | "CowStr" | "PathBuf" => return Some(Described::Text),
        "u8" => Integer::U8,
        "u16" => Integer::U16,
        "u32" => Integer::U32,
        "u64" => Integer::U64,
        "u128" => Integer::U128,
        "usize" => Integer::Usize,
        "i8" => Integer::I8,
        "i16" => Integer::I16,
        "i32" => Integer::I32,
        "i64" => Integer::I64,
        "i128" => Integer::I128,
        "isize" => Integer::Isize,
        _ => return std_plain(word),
    };
    Some(Described::Integer(integer))
}

/// So, of std's types.
fn std_plain(word: &str) -> Option<Described>
    ensures { option_map seen result ≡ std_plain_of word.now }
{
    let described = match word {
        "f32" => Described::Std(StdType::F32),
        "f64" => Described::Std(StdType::F64),
        "Duration" => Described::Std(StdType::Duration),
        "SystemTime" => Described::Std(StdType::SystemTime),
        "Ipv4Addr" => Described::Std(StdType::Ipv4Addr),
        "Ipv6Addr" => Described::Std(StdType::Ipv6Addr),
        "SocketAddrV4" => Described::Std(StdType::SocketAddrV4),
        "SocketAddrV6" => Described::Std(StdType::SocketAddrV6),
        "NonZeroU8" => Described::NonZero(Integer::U8),
        "NonZeroU16" => Described::NonZero(Integer::U16),
        "NonZeroU32" => Described::NonZero(Integer::U32),
        "NonZeroU64" => Described::NonZero(Integer::U64),
        "NonZeroU128" => Described::NonZero(Integer::U128),
        "NonZeroUsize" => Described::NonZero(Integer::Usize),
        "NonZeroI8" => Described::NonZero(Integer::I8),
        "NonZeroI16" => Described::NonZero(Integer::I16),
        "NonZeroI32" => Described::NonZero(Integer::I32),
        "NonZeroI64" => Described::NonZero(Integer::I64),
        "NonZeroI128" => Described::NonZero(Integer::I128),
        "NonZeroIsize" => Described::NonZero(Integer::Isize),
        _ => return None,
    };
    Some(described)
}

/// What is to stand behind a word that is no type by itself.
fn opened_by(word: &str) -> Opening
    ensures { result ≡ opening_of word.now }
{
    match word {
        "struct" => Opening::Struct,
        "enum" => Opening::Enum,
        "short" => Opening::ShortList,
        "Result" => Opening::Two(Pair::Result),
        "BTreeMap" | "HashMap" => Opening::Two(Pair::Map),
        "Option" => Opening::One(Holder::Option),
        "Box" => Opening::One(Holder::Boxed),
        "Rc" | "Arc" => Opening::One(Holder::Shared),
        "BTreeSet" | "HashSet" => Opening::One(Holder::Set),
        "Vec" | "VecDeque" | "LinkedList" | "BinaryHeap" | "CowSlice" => Opening::One(Holder::List),
        "Wrapping" | "Saturating" | "Reverse" | "RangeFrom" | "RangeTo" => {
            Opening::One(Holder::Bare)
        }
        "Range" | "RangeInclusive" => Opening::Range,
        "Cow" => Opening::Cow,
        "RcStr" | "ArcStr" => Opening::Known(Known::SharedText),
        "IpAddr" => Opening::Known(Known::IpAddr),
        "SocketAddr" => Opening::Known(Known::SocketAddr),
        "containers" => Opening::Container,
        _ => Opening::Name,
    }
}

/// The tag scheme of a word.
pub(crate) fn tag_size(word: &str) -> Option<TagSize>
    ensures { result ≡ tag_of word.now }
{
    match word {
        "u8" => Some(TagSize::U8),
        "u16" => Some(TagSize::U16),
        "u32" => Some(TagSize::U32),
        "u64" => Some(TagSize::U64),
        _ => None,
    }
}

/// How a list's length is written, by the word of its scheme.
fn length_scheme(word: &str) -> Option<LengthScheme>
    ensures { result ≡ scheme_of word.now }
{
    match word {
        "ShortU16Len" => Some(LengthScheme::Short),
        "BincodeLen" => Some(LengthScheme::Eight),
        _ => None,
    }
}

/// The greatest tag of a scheme.
fn greatest_tag(size: TagSize) -> usize
    ensures { result ≡ greatest_of size }
{
    match size {
        TagSize::U8 => 255,
        TagSize::U16 => 65535,
        TagSize::U32 => 4294967295,
        TagSize::U64 => usize::MAX,
    }
}

/// A list of such items; of bytes, all of which are one part.
fn list(alloc: Global, scheme: LengthScheme, item: Described) -> DescribeResult<Described>
    ensures { Makes seen (list_form scheme (seen item)) result }
{
    match item {
        Described::Integer(Integer::U8) => Ok(Described::ByteList(scheme)),
        item => Ok(Described::List(scheme, Box::new(alloc, item)?)),
    }
}

/// An array of such items; of bytes, all of which are one part.
fn array(alloc: Global, n: usize, item: Described) -> DescribeResult<Described>
    ensures { Makes seen (array_form n (seen item)) result }
{
    match item {
        Described::Integer(Integer::U8) => Ok(Described::ByteArray(n)),
        item => Ok(Described::Array(n, Box::new(alloc, item)?)),
    }
}

/// What holds one type, with that type.
fn held(alloc: Global, holder: Holder, part: Described) -> DescribeResult<Described>
    ensures { Makes seen (held_form holder (seen part)) result }
{
    match holder {
        Holder::Option => Ok(Described::Option(Box::new(alloc, part)?)),
        Holder::Boxed | Holder::Shared => Ok(Described::Boxed(Box::new(alloc, part)?)),
        Holder::Set => Ok(Described::Set(Box::new(alloc, part)?)),
        Holder::List => list(alloc, LengthScheme::Eight, part),
        Holder::Bare => Ok(part),
    }
}

/// What is a type by its word, made of others.
fn known_type(alloc: Global, known: Known) -> DescribeResult<Described>
    ensures { Makes seen (known_form known) result }
{
    match known {
        Known::SharedText => Ok(Described::Boxed(Box::new(alloc, Described::Text)?)),
        Known::IpAddr => {
            let four = Described::Std(StdType::Ipv4Addr);
            paired(alloc, Pair::Result, four, Described::Std(StdType::Ipv6Addr))
        }
        Known::SocketAddr => {
            let four = Described::Std(StdType::SocketAddrV4);
            paired(
                alloc,
                Pair::Result,
                four,
                Described::Std(StdType::SocketAddrV6),
            )
        }
    }
}

/// What holds a `str`, which stands at that byte, behind it.
fn text_at(
    alloc: Global,
    tokens: &mut Tokens,
    holder: Holder,
    at: usize,
) -> DescribeResult<Described>
    ensures { Reads [] seen (text_by holder (left tokens.old)) result (left tokens.new) }
{
    let text = match holder {
        Holder::Boxed => Described::Text,
        Holder::Shared => known_type(alloc, Known::SharedText)?,
        _ => return Err(wanted("a type", at)),
    };
    tokens.expect(">", "`>`")?;
    Ok(text)
}

/// Two parts, one after the other.
fn joined(alloc: Global, first: Described, others: Described) -> DescribeResult<Described>
    ensures { Makes seen (Both (seen first) (seen others)) result }
{
    Ok(Described::Joined(Box::new(alloc, first)?, Box::new(alloc, others)?))
}

/// What holds two types, with those types.
fn paired(
    alloc: Global,
    pair: Pair,
    first: Described,
    second: Described,
) -> DescribeResult<Described>
    ensures { Makes seen (pair_form pair (seen first) (seen second)) result }
{
    match pair {
        Pair::Result => { Ok(Described::Result(Box::new(alloc, first)?, Box::new(alloc, second)?)) }
        Pair::Map => {
            let pair = joined(alloc, first, second)?;
            Ok(Described::Map(Box::new(alloc, pair)?))
        }
    }
}

/// A tuple of a first member and the others.
fn tuple(alloc: Global, first: Described, others: Described) -> DescribeResult<Described>
    ensures { Makes seen (Group (Both (seen first) (seen others))) result }
{
    let members = joined(alloc, first, others)?;
    Ok(Described::Tuple(Box::new(alloc, members)?))
}

/// A field of a struct.
fn field(alloc: Global, name: String, content: Described) -> DescribeResult<Described>
    ensures { Makes seen (Named (string_bytes name) (seen content)) result }
{
    Ok(Described::Field(name, Box::new(alloc, content)?))
}

/// A field without a name, at this place.
fn numbered_field(alloc: Global, place: usize, content: Described) -> DescribeResult<Described>
    ensures { Makes seen (Named (decimal place) (seen content)) result }
{
    let name = format!(in alloc; "{place}")?;
    field(alloc, name, content)
}

/// The place behind this one.
fn next_place(place: usize) -> Option<usize>
    ensures { result ≡ next_number place }
{
    place.checked_add(1)
}

/// A struct of these fields.
fn structure(alloc: Global, fields: Described) -> DescribeResult<Described>
    ensures { Makes seen (Record (seen fields)) result }
{
    Ok(Described::Struct(Box::new(alloc, fields)?))
}

/// An enum of these cases.
fn choice(alloc: Global, size: TagSize, cases: Cases) -> DescribeResult<Described>
    ensures { Makes seen (Choice size (seen_cases cases)) result }
{
    Ok(Described::Enum(size, Box::new(alloc, cases)?))
}

/// The last case of an enum.
fn last_case(alloc: Global, tag: usize, content: Described) -> DescribeResult<Cases>
    ensures { Makes seen_cases (LastCase tag (seen content)) result }
{
    Ok(Cases::Last(tag, Box::new(alloc, content)?))
}

/// A case in front of others.
fn one_case(alloc: Global, tag: usize, content: Described, others: Cases) -> DescribeResult<Cases>
    ensures { Makes seen_cases (OneCase tag (seen content) (seen_cases others)) result }
{
    Ok(Cases::Case(tag, Box::new(alloc, content)?, Box::new(alloc, others)?))
}

/// Whether a case has the tag.
#[cycle(naming)]
pub(crate) fn has_case(cases: &Cases, tag: usize) -> bool
    ensures { result ≡ has_tag (seen_cases cases.now) tag }
{
    match cases {
        Cases::Last(named, _) => *named == tag,
        Cases::Case(named, _, others) => *named == tag || has_case(others, tag),
    }
}

/// Whether a list in brackets goes on here, behind a comma, or is closed.
fn goes_on(tokens: &mut Tokens, closing: &str, what: &'static str) -> DescribeResult<bool>
    requires { 0 < length closing.now }
    ensures { Reads [] (λ b. b) (goes_on closing.now (left tokens.old)) result (left tokens.new) }
{
    let goes_on = tokens.takes(",");
    if tokens.takes(closing) {
        return Ok(false);
    }
    if !goes_on {
        return Err(wanted(what, tokens.place()));
    }
    Ok(true)
}

/// The type that all of the text is.
#[cycle(parsing)]
fn whole_type(
    alloc: Global,
    source: &[Token],
    text: &str,
    levels: usize,
) -> DescribeResult<Described>
    ensures { Parses (pieces source.now) (type_among (pieces source.now) text.now levels) result }
{
    let all = text_tokens(alloc, text)?;
    let mut tokens = Tokens::new(all.as_slice(), text.len());
    let described = type_at(alloc, source, &mut tokens, levels)?;
    if tokens.is_empty() {
        Ok(described)
    } else {
        Err(wanted("the end of the type", tokens.place()))
    }
}

/// The type that begins here.
#[cycle(parsing)]
fn type_at(
    alloc: Global,
    source: &[Token],
    tokens: &mut Tokens,
    levels: usize,
) -> DescribeResult<Described>
    ensures { Reads (pieces source.now) seen ((readers (pieces source.now) levels).types (left tokens.old))
        result (left tokens.new) }
{
    let at = tokens.place();
    let Some(below) = levels.checked_sub(1) else {
        return Err(DescribeError::TooDeep { at });
    };
    if tokens.takes("(") {
        return tuple_at(alloc, source, tokens, below);
    }
    if tokens.takes("[") {
        return array_at(alloc, source, tokens, below);
    }
    let word = tokens.word(alloc, "a type")?;
    if let Some(described) = plain(word.as_str()) {
        return Ok(described);
    }
    match opened_by(word.as_str()) {
        Opening::Struct => struct_at(alloc, source, tokens, below),
        Opening::Enum => enum_at(alloc, source, tokens, below),
        Opening::ShortList => short_at(alloc, source, tokens, below),
        Opening::Two(pair) => two_at(alloc, source, tokens, pair, below),
        Opening::One(holder) => one_at(alloc, source, tokens, holder, below),
        Opening::Container => container_at(alloc, source, tokens, below),
        Opening::Range => range_at(alloc, source, tokens, below),
        Opening::Cow => cow_at(alloc, source, tokens, below),
        Opening::Known(known) => known_type(alloc, known),
        Opening::Name => named_type(alloc, source, word.as_str(), at, below),
    }
}

/// The members of a tuple, behind its bracket.
#[cycle(parsing)]
fn tuple_at(
    alloc: Global,
    source: &[Token],
    tokens: &mut Tokens,
    levels: usize,
) -> DescribeResult<Described>
    ensures { Reads (pieces source.now) seen ((readers (pieces source.now) levels).tuple (left tokens.old))
        result (left tokens.new) }
{
    if tokens.takes(")") {
        return Ok(Described::Unit);
    }
    let first = type_at(alloc, source, tokens, levels)?;
    tokens.expect(",", "`,`")?;
    let Some(below) = levels.checked_sub(1) else {
        return Err(DescribeError::TooDeep { at: tokens.place() });
    };
    let others = members_at(alloc, source, tokens, below)?;
    tuple(alloc, first, others)
}

/// The members of a tuple from one on, and its closing bracket.
#[cycle(parsing)]
fn members_at(
    alloc: Global,
    source: &[Token],
    tokens: &mut Tokens,
    levels: usize,
) -> DescribeResult<Described>
    ensures { Reads (pieces source.now) seen ((readers (pieces source.now) levels).members (left tokens.old))
        result (left tokens.new) }
{
    let first = type_at(alloc, source, tokens, levels)?;
    if !goes_on(tokens, ")", "`,` or `)`")? {
        return Ok(first);
    }
    let Some(below) = levels.checked_sub(1) else {
        return Err(DescribeError::TooDeep { at: tokens.place() });
    };
    let others = members_at(alloc, source, tokens, below)?;
    joined(alloc, first, others)
}

/// An array, behind its bracket.
#[cycle(parsing)]
fn array_at(
    alloc: Global,
    source: &[Token],
    tokens: &mut Tokens,
    levels: usize,
) -> DescribeResult<Described>
    ensures { Reads (pieces source.now) seen (array_by (readers (pieces source.now) levels).types (left tokens.old)) result
        (left tokens.new) }
{
    let item = type_at(alloc, source, tokens, levels)?;
    tokens.expect(";", "`;`")?;
    let n = tokens.number("how many items the array has")?;
    tokens.expect("]", "`]`")?;
    array(alloc, n, item)
}

/// A list behind a short length, behind its first word.
#[cycle(parsing)]
fn short_at(
    alloc: Global,
    source: &[Token],
    tokens: &mut Tokens,
    levels: usize,
) -> DescribeResult<Described>
    ensures { Reads (pieces source.now) seen (short_by (readers (pieces source.now) levels).types (left tokens.old)) result
        (left tokens.new) }
{
    let at = tokens.place();
    let word = tokens.word(alloc, "`Vec`")?;
    if word.as_str() != "Vec" {
        return Err(wanted("`Vec`", at));
    }
    tokens.expect("<", "`<`")?;
    let item = type_at(alloc, source, tokens, levels)?;
    tokens.expect(">", "`>`")?;
    list(alloc, LengthScheme::Short, item)
}

/// A type of one part, behind its word.
#[cycle(parsing)]
fn one_at(
    alloc: Global,
    source: &[Token],
    tokens: &mut Tokens,
    holder: Holder,
    levels: usize,
) -> DescribeResult<Described>
    ensures { Reads (pieces source.now) seen (one_by (readers (pieces source.now) levels).types holder (left tokens.old))
        result (left tokens.new) }
{
    tokens.expect("<", "`<`")?;
    let at = tokens.place();
    if tokens.takes_word("str") {
        return text_at(alloc, tokens, holder, at);
    }
    let part = type_at(alloc, source, tokens, levels)?;
    tokens.expect(">", "`>`")?;
    held(alloc, holder, part)
}

/// A type of two parts, behind its word.
#[cycle(parsing)]
fn two_at(
    alloc: Global,
    source: &[Token],
    tokens: &mut Tokens,
    pair: Pair,
    levels: usize,
) -> DescribeResult<Described>
    ensures { Reads (pieces source.now) seen (two_by (readers (pieces source.now) levels).types (pair_form pair) (left tokens.old))
        result (left tokens.new) }
{
    tokens.expect("<", "`<`")?;
    let first = type_at(alloc, source, tokens, levels)?;
    tokens.expect(",", "`,`")?;
    let second = type_at(alloc, source, tokens, levels)?;
    tokens.expect(">", "`>`")?;
    paired(alloc, pair, first, second)
}

/// A struct, behind its word.
#[cycle(parsing)]
fn struct_at(
    alloc: Global,
    source: &[Token],
    tokens: &mut Tokens,
    levels: usize,
) -> DescribeResult<Described>
    ensures { Reads (pieces source.now) seen (struct_by (readers (pieces source.now) levels).fields (left tokens.old)) result
        (left tokens.new) }
{
    tokens.expect("{", "`{`")?;
    let fields = fields_at(alloc, source, tokens, levels)?;
    structure(alloc, fields)
}

/// The fields of a struct from one on, and its closing bracket.
#[cycle(parsing)]
fn fields_at(
    alloc: Global,
    source: &[Token],
    tokens: &mut Tokens,
    levels: usize,
) -> DescribeResult<Described>
    ensures { Reads (pieces source.now) seen ((readers (pieces source.now) levels).fields (left tokens.old))
        result (left tokens.new) }
{
    let Some(below) = levels.checked_sub(1) else {
        return Err(DescribeError::TooDeep { at: tokens.place() });
    };
    let note = tokens.takes_head();
    let name = tokens.word(alloc, "a field")?;
    tokens.expect(":", "`:`")?;
    let content = content_at(alloc, source, tokens, note, below)?;
    let field = field(alloc, name, content)?;
    if !goes_on(tokens, "}", "`,` or `}`")? {
        return Ok(field);
    }
    let others = fields_at(alloc, source, tokens, below)?;
    joined(alloc, field, others)
}

/// An enum, behind its word.
#[cycle(parsing)]
fn enum_at(
    alloc: Global,
    source: &[Token],
    tokens: &mut Tokens,
    levels: usize,
) -> DescribeResult<Described>
    ensures { Reads (pieces source.now) seen (enum_by (readers (pieces source.now) levels).cases (left tokens.old)) result
        (left tokens.new) }
{
    let at = tokens.place();
    let word = tokens.word(alloc, "`u8`, `u16`, `u32` or `u64`")?;
    let Some(size) = tag_size(word.as_str()) else {
        return Err(wanted("`u8`, `u16`, `u32` or `u64`", at));
    };
    tokens.expect("{", "`{`")?;
    let cases = cases_at(alloc, source, tokens, greatest_tag(size), levels)?;
    choice(alloc, size, cases)
}

/// The cases of an enum from one on, and its closing bracket.
#[cycle(parsing)]
fn cases_at(
    alloc: Global,
    source: &[Token],
    tokens: &mut Tokens,
    greatest: usize,
    levels: usize,
) -> DescribeResult<Cases>
    ensures { Reads (pieces source.now) seen_cases ((readers (pieces source.now) levels).cases greatest (left tokens.old)) result
        (left tokens.new) }
{
    let at = tokens.place();
    let Some(below) = levels.checked_sub(1) else {
        return Err(DescribeError::TooDeep { at });
    };
    let tag = tokens.number("a tag")?;
    if tag > greatest {
        return Err(wanted("a tag that its size has", at));
    }
    tokens.expect(":", "`:`")?;
    let content = type_at(alloc, source, tokens, below)?;
    if !goes_on(tokens, "}", "`,` or `}`")? {
        return last_case(alloc, tag, content);
    }
    let others = cases_at(alloc, source, tokens, greatest, below)?;
    if has_case(&others, tag) {
        return Err(wanted("a tag that no other case has", at));
    }
    one_case(alloc, tag, content, others)
}

/// `containers::Vec<T, ShortU16Len>`, behind its first word.
#[cycle(parsing)]
fn container_at(
    alloc: Global,
    source: &[Token],
    tokens: &mut Tokens,
    levels: usize,
) -> DescribeResult<Described>
    ensures { Reads (pieces source.now) seen (container_by (readers (pieces source.now) levels).types (left tokens.old)) result
        (left tokens.new) }
{
    tokens.expect("::", "`::`")?;
    let at = tokens.place();
    let word = tokens.word(alloc, "`Vec`")?;
    if word.as_str() != "Vec" {
        return Err(wanted("`Vec`", at));
    }
    tokens.expect("<", "`<`")?;
    let item = type_at(alloc, source, tokens, levels)?;
    tokens.expect(",", "`,`")?;
    schemed_list(alloc, tokens, item)
}

/// A list of such items, behind whose comma its scheme of length stands.
fn schemed_list(alloc: Global, tokens: &mut Tokens, item: Described) -> DescribeResult<Described>
    ensures { Reads [] seen (schemed (seen item) (left tokens.old)) result (left tokens.new) }
{
    let at = tokens.place();
    let word = tokens.word(alloc, "`ShortU16Len` or `BincodeLen`")?;
    let Some(scheme) = length_scheme(word.as_str()) else {
        return Err(wanted("`ShortU16Len` or `BincodeLen`", at));
    };
    tokens.expect(">", "`>`")?;
    list(alloc, scheme, item)
}

/// A range of two bounds, behind its word: a struct of both. Within a range there is half of the levels, since its type
/// stands there twice.
#[cycle(parsing)]
fn range_at(
    alloc: Global,
    source: &[Token],
    tokens: &mut Tokens,
    levels: usize,
) -> DescribeResult<Described>
    ensures { Reads (pieces source.now) seen
        (item_by (readers (pieces source.now) (levels / 2)).types range_form (left tokens.old)) result (left tokens.new) }
{
    tokens.expect("<", "`<`")?;
    let bound = type_at(alloc, source, tokens, levels / 2)?;
    tokens.expect(">", "`>`")?;
    range(alloc, bound)
}

/// A range of two bounds of this type.
fn range(alloc: Global, bound: Described) -> DescribeResult<Described>
    ensures { Makes seen (range_form (seen bound)) result }
{
    let end = copied(alloc, &bound)?;
    let start = field(alloc, String::from_str(alloc, "start")?, bound)?;
    let end = field(alloc, String::from_str(alloc, "end")?, end)?;
    let fields = joined(alloc, start, end)?;
    structure(alloc, fields)
}

/// `Cow<'_, str>` or `Cow<'_, [T]>`, behind its word, also without the lifetime.
#[cycle(parsing)]
fn cow_at(
    alloc: Global,
    source: &[Token],
    tokens: &mut Tokens,
    levels: usize,
) -> DescribeResult<Described>
    ensures { Reads (pieces source.now) seen (cow_by (readers (pieces source.now) levels).types (left tokens.old)) result
        (left tokens.new) }
{
    tokens.expect("<", "`<`")?;
    tokens.pass_lifetime()?;
    if tokens.takes_word("str") {
        tokens.expect(">", "`>`")?;
        return Ok(Described::Text);
    }
    tokens.expect("[", "`str` or `[`")?;
    let item = type_at(alloc, source, tokens, levels)?;
    tokens.expect("]", "`]`")?;
    tokens.expect(">", "`>`")?;
    list(alloc, LengthScheme::Eight, item)
}

/// The type of a field, or the schema that a comment line says of it.
#[cycle(parsing)]
fn content_at(
    alloc: Global,
    source: &[Token],
    tokens: &mut Tokens,
    note: Option<&str>,
    levels: usize,
) -> DescribeResult<Described>
    ensures { note.entry ≡ None → Reads (pieces source.now) seen ((readers (pieces source.now) levels).types (left tokens.old))
        result (left tokens.new) }
{
    let Some(note) = note else {
        return type_at(alloc, source, tokens, levels);
    };
    tokens.skip_type();
    let schema = said_by(note, "with");
    match whole_type(alloc, source, schema, levels) {
        Err(DescribeError::Wanted { .. }) => {
            Err(DescribeError::Undescribed(String::from_str(alloc, schema)?))
        }
        answer => answer,
    }
}

/// The fields without names from one on, which has this place, and their closing bracket.
#[cycle(parsing)]
fn numbered_at(
    alloc: Global,
    source: &[Token],
    tokens: &mut Tokens,
    place: usize,
    levels: usize,
) -> DescribeResult<Described>
    ensures { Reads (pieces source.now) seen ((readers (pieces source.now) levels).numbered place (left tokens.old))
        result (left tokens.new) }
{
    let Some(below) = levels.checked_sub(1) else {
        return Err(DescribeError::TooDeep { at: tokens.place() });
    };
    let note = tokens.takes_head();
    let content = content_at(alloc, source, tokens, note, below)?;
    let field = numbered_field(alloc, place, content)?;
    if !goes_on(tokens, ")", "`,` or `)`")? {
        return Ok(field);
    }
    let Some(next) = next_place(place) else {
        return Err(DescribeError::TooDeep { at: tokens.place() });
    };
    let others = numbered_at(alloc, source, tokens, next, below)?;
    joined(alloc, field, others)
}

/// The fields of a declaration, behind their brace.
#[cycle(parsing)]
fn braced_at(
    alloc: Global,
    source: &[Token],
    tokens: &mut Tokens,
    levels: usize,
) -> DescribeResult<Described>
    ensures { Reads (pieces source.now) seen (braced_by (readers (pieces source.now) levels) (left tokens.old))
        result (left tokens.new) }
{
    if tokens.takes("}") {
        return Ok(Described::Unit);
    }
    let fields = fields_at(alloc, source, tokens, levels)?;
    structure(alloc, fields)
}

/// The fields without names of a declaration, behind their bracket.
#[cycle(parsing)]
fn rounded_at(
    alloc: Global,
    source: &[Token],
    tokens: &mut Tokens,
    levels: usize,
) -> DescribeResult<Described>
    ensures { Reads (pieces source.now) seen (rounded_by (readers (pieces source.now) levels) (left tokens.old))
        result (left tokens.new) }
{
    if tokens.takes(")") {
        return Ok(Described::Unit);
    }
    let fields = numbered_at(alloc, source, tokens, 0, levels)?;
    structure(alloc, fields)
}

/// The fields of a declaration, if brackets stand there.
#[cycle(parsing)]
fn shape_at(
    alloc: Global,
    source: &[Token],
    tokens: &mut Tokens,
    levels: usize,
) -> DescribeResult<Option<Described>>
    ensures { Reads (pieces source.now) (option_map seen) (shape_by (readers (pieces source.now) levels) (left tokens.old))
        result (left tokens.new) }
{
    if tokens.takes("{") {
        let fields = braced_at(alloc, source, tokens, levels)?;
        return Ok(Some(fields));
    }
    if tokens.takes("(") {
        let fields = rounded_at(alloc, source, tokens, levels)?;
        return Ok(Some(fields));
    }
    Ok(None)
}

/// What a case holds that is declared, behind its name.
#[cycle(parsing)]
fn held_at(
    alloc: Global,
    source: &[Token],
    tokens: &mut Tokens,
    levels: usize,
) -> DescribeResult<Described>
    ensures { Reads (pieces source.now) seen ((readers (pieces source.now) levels).held (left tokens.old))
        result (left tokens.new) }
{
    let Some(below) = levels.checked_sub(1) else {
        return Err(DescribeError::TooDeep { at: tokens.place() });
    };
    let shape = shape_at(alloc, source, tokens, below)?;
    match shape {
        Some(fields) => Ok(fields),
        None => Ok(Described::Unit),
    }
}

/// The tag of the case at this place, or that which a comment line says.
fn tag_at(note: Option<&str>, place: usize) -> usize
    ensures { note.entry ≡ None → result ≡ place }
{
    match note {
        Some(note) => said_by(note, "tag").parse::<usize>().unwrap_or(place),
        None => place,
    }
}

/// The cases of an enum that is declared from one on, which has this place, and their closing brace.
#[cycle(parsing)]
fn variants_at(
    alloc: Global,
    source: &[Token],
    tokens: &mut Tokens,
    place: usize,
    levels: usize,
) -> DescribeResult<Cases>
    ensures { Reads (pieces source.now) seen_cases ((readers (pieces source.now) levels).variants place (left tokens.old))
        result (left tokens.new) }
{
    let Some(below) = levels.checked_sub(1) else {
        return Err(DescribeError::TooDeep { at: tokens.place() });
    };
    let note = tokens.takes_head();
    tokens.word(alloc, "a case")?;
    let content = held_at(alloc, source, tokens, below)?;
    let tag = tag_at(note, place);
    if !goes_on(tokens, "}", "`,` or `}`")? {
        return last_case(alloc, tag, content);
    }
    let Some(next) = next_place(place) else {
        return Err(DescribeError::TooDeep { at: tokens.place() });
    };
    let others = variants_at(alloc, source, tokens, next, below)?;
    one_case(alloc, tag, content, others)
}

/// A struct that is declared, behind its name.
#[cycle(parsing)]
fn declared_struct(
    alloc: Global,
    source: &[Token],
    tokens: &mut Tokens,
    levels: usize,
) -> DescribeResult<Described>
    ensures { Reads (pieces source.now) seen (declared_struct (readers (pieces source.now) levels) (left tokens.old))
        result (left tokens.new) }
{
    let shape = shape_at(alloc, source, tokens, levels)?;
    match shape {
        Some(fields) => Ok(fields),
        None => {
            tokens.expect(";", "`{`, `(` or `;`")?;
            Ok(Described::Unit)
        }
    }
}

/// An enum that is declared, behind its name, whose tags have this size.
#[cycle(parsing)]
fn declared_enum(
    alloc: Global,
    source: &[Token],
    tokens: &mut Tokens,
    size: TagSize,
    levels: usize,
) -> DescribeResult<Described>
    ensures { size ≡ U32 → Reads (pieces source.now) seen (declared_enum (readers (pieces source.now) levels) (left tokens.old))
        result (left tokens.new) }
{
    tokens.expect("{", "`{`")?;
    let cases = variants_at(alloc, source, tokens, 0, levels)?;
    choice(alloc, size, cases)
}

/// The type that is declared there, where a comment line may say how wide its tags are.
#[cycle(parsing)]
fn found_type(
    alloc: Global,
    source: &[Token],
    found: Found<'_>,
    size: TagSize,
    levels: usize,
) -> DescribeResult<Described>
    ensures { found.entry.is_noted ≡ false → Parses (pieces source.now)
        (found_as (readers (pieces source.now) levels) (found.entry.is_struct, left found.entry.tokens)) result }
{
    let mut tokens = found.tokens;
    if found.is_struct {
        return declared_struct(alloc, source, &mut tokens, levels);
    }
    let size = if found.is_noted { size } else { TagSize::U32 };
    declared_enum(alloc, source, &mut tokens, size, levels)
}

/// The type that is declared by that name, which stands at that byte of the text.
#[cycle(parsing)]
fn named_type(
    alloc: Global,
    source: &[Token],
    name: &str,
    at: usize,
    levels: usize,
) -> DescribeResult<Described>
    ensures { Parses (pieces source.now)
        (declared_as (pieces source.now) (readers (pieces source.now) levels) name.now) result }
{
    let size = declared_tag(alloc, source, name, at)?;
    let Some(found) = declaration_in(source, name) else {
        return Err(wanted("a type", at));
    };
    match found_type(alloc, source, found, size, levels) {
        Ok(described) => Ok(described),
        Err(error) => Err(fault_of(alloc, source, (name, at), error)),
    }
}

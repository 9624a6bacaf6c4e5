//! What a source declares: where the declaration of a name stands, and what is wrong with it.
ghost use Rattle.std.specs.Prelude.{◌≡◌, option_map};
ghost use Rattle.wincode_describe.specs.Phrases.{left, pieces};
ghost use Rattle.wincode_describe.specs.Sources.{IsFound, begun_by, declaration_of, depth_behind, is_struct_word};

use crate::described::TagSize;
use crate::error::{DescribeError, DescribeResult, wanted};
use crate::parsing::tag_size;
use crate::tokens::{Tokens, closes, opens};
use std::alloc::Global;
use wincode_derive_text::{Declaration, DeclaredShape, Kind, Token, declarations_of};

/// A declaration in a source.
#[derive(Clone, Copy)]
pub(crate) struct Found<'a> {
    /// Whether it is that of a struct; else it is an enum's.
    pub(crate) is_struct: bool,
    /// Whether a comment line that says something stands in front of it, outside of brackets.
    pub(crate) is_noted: bool,
    /// What stands behind its name.
    pub(crate) tokens: Tokens<'a>,
}

/// Whether the word is `struct`, or else `enum`.
fn is_struct_word(word: &str) -> Option<bool>
    ensures { result ≡ is_struct_word word.now }
{
    match word {
        "struct" => Some(true),
        "enum" => Some(false),
        _ => None,
    }
}

/// In how many brackets what stands behind this sign is.
fn depth_behind(depth: usize, sign: &str) -> Option<usize>
    ensures { result ≡ depth_behind depth sign.now }
{
    if opens(sign) {
        depth.checked_add(1)
    } else if closes(sign) {
        Some(depth.saturating_sub(1))
    } else {
        Some(depth)
    }
}

/// The declaration of this name that begins there, in so many brackets, if one does.
fn begun_by<'a>(tokens: &Tokens<'a>, name: &str, depth: usize) -> Option<(bool, Tokens<'a>)>
    ensures { option_map (λ f. (f.0, left f.1)) result ≡ begun_by name.now depth (left tokens.now) }
{
    if depth > 0 {
        return None;
    }
    let (keyword, named) = tokens.first_word()?;
    let is_struct = is_struct_word(keyword)?;
    let (declared, behind) = named.first_word()?;
    if declared == name {
        Some((is_struct, behind))
    } else {
        None
    }
}

/// The first declaration of this name that stands in no brackets, if there is one.
pub(crate) fn declaration_in<'a>(source: &'a [Token], name: &str) -> Option<Found<'a>>
    ensures { IsFound (declaration_of name.now 0 (pieces source.now)) result }
{
    let mut tokens = Tokens::new(source, 0);
    let mut depth = 0usize;
    let mut is_noted = false;
    while !tokens.is_empty() {
        if let Some((is_struct, behind)) = begun_by(&tokens, name, depth) {
            return Some(Found {
                is_struct,
                is_noted,
                tokens: behind,
            });
        }
        let Some(behind) = depth_behind(depth, tokens.sign()) else {
            return None;
        };
        is_noted = is_noted || tokens.is_noted_at(depth);
        depth = behind;
        tokens = tokens.behind();
    }
    None
}

/// The first declaration of that name, if there is one.
fn declaration(alloc: Global, source: &[Token], name: &str) -> DescribeResult<Option<Declaration>> {
    if source.is_empty() || name.is_empty() {
        return Ok(None);
    }
    let mut names = Vec::new(alloc);
    names.push(String::from_str(alloc, name)?)?;
    let mut declarations = declarations_of(alloc, source, names.as_slice())?;
    declarations.truncate(1);
    Ok(declarations.pop())
}

/// Refuses a name that isn't declared, and what is declared with faults, or is no described type. How wide the tags are
/// of what is declared, if it is an enum.
pub(crate) fn declared_tag(
    alloc: Global,
    source: &[Token],
    name: &str,
    at: usize,
) -> DescribeResult<TagSize> {
    let Some(declaration) = declaration(alloc, source, name)? else {
        return Err(wanted("a type", at));
    };
    if !declaration.generics.is_none() {
        return Err(wanted("a type without parameters", at));
    }
    match &declaration.shape {
        DeclaredShape::Struct(_) => Ok(TagSize::U32),
        DeclaredShape::Enum(cases) if cases.counts.is_some() => {
            let text = String::from_str(alloc, "an enum with counts")?;
            Err(DescribeError::Undescribed(text))
        }
        DeclaredShape::Enum(cases) => Ok(tag_size(cases.tag.as_str()).unwrap_or(TagSize::U32)),
    }
}

/// The names of std's types that a source file may declare for its own.
const STD_NAMES: [&str; 16] = [
    "Wrapping",
    "Saturating",
    "Reverse",
    "Range",
    "RangeInclusive",
    "RangeFrom",
    "RangeTo",
    "Cow",
    "Duration",
    "SystemTime",
    "IpAddr",
    "Ipv4Addr",
    "Ipv6Addr",
    "SocketAddr",
    "SocketAddrV4",
    "SocketAddrV6",
];

/// Refuses a file that declares a type of such a name.
pub(crate) fn refuse_names(alloc: Global, source: &[Token]) -> DescribeResult<()> {
    if source.is_empty() {
        return Ok(());
    }
    let mut names = Vec::new(alloc);
    for name in &STD_NAMES {
        names.push(String::from_str(alloc, name)?)?;
    }
    if declarations_of(alloc, source, names.as_slice())?.is_empty() {
        return Ok(());
    }
    let text = String::from_str(alloc, "a declaration with the name of one of std's types")?;
    Err(DescribeError::Undescribed(text))
}

/// What is said where no type is described by what stands at that byte of the source, in the declaration of this name:
/// the word that stands there, or else the name.
fn undescribed(alloc: Global, source: &[Token], name: &str, at: usize) -> DescribeError {
    let text = match source.iter().find(|token| token.at == at) {
        Some(token) if token.kind == Kind::Word => token.text.as_str(),
        _ => name,
    };
    match String::from_str(alloc, text) {
        Ok(text) => DescribeError::Undescribed(text),
        Err(_) => DescribeError::OutOfMemory,
    }
}

/// A fault in the declaration of this name, where the name stands at that byte of the text.
pub(crate) fn fault_of(
    alloc: Global,
    source: &[Token],
    (name, at): (&str, usize),
    error: DescribeError,
) -> DescribeError {
    match error {
        DescribeError::TooDeep { .. } => DescribeError::TooDeep { at },
        DescribeError::Wanted { at: place, .. } => undescribed(alloc, source, name, place),
        error => error,
    }
}

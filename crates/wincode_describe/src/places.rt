//! The place of each part in its type: `[3].1`, or the names of fields.
ghost use Rattle.std.specs.Prelude.{◌≡◌, map, IfOk};
ghost use Rattle.std.specs.String.{string_bytes};
ghost use Rattle.wincode_describe.specs.Parts.{seen};
ghost use Rattle.wincode_describe.specs.Places.{
  Walked,
  is_full,
  one_part,
  number_of,
  last_number,
  items_walk,
  type_walks,
  case_walk,
  places,
};

use crate::described::{Cases, Described};
use crate::shown::Shown;
use std::alloc::{AllocError, Global};

/// Whether all parts have their place, and the one behind them too.
fn is_full(parts: &[Shown], places: &[String]) -> bool
    ensures { result ≡ is_full (map seen parts.now) (map string_bytes places.now) }
{
    places.len() > parts.len()
}

/// A part stands there.
fn add_place(
    alloc: Global,
    parts: &[Shown],
    place: &str,
    places: &mut Vec<String>,
) -> Result<(), AllocError>
    ensures { Walked (one_part (map seen parts.now)) place.now places.old.items places.new.items result }
{
    if !is_full(parts, places.as_slice()) {
        places.push(String::from_str(alloc, place)?)?;
    }
    Ok(())
}

/// The place of each part, in order, and of what stands behind them, if anything does. Where a part was refused, that is
/// its place; where it was a tag that names nothing, that of the option, result or enum.
pub fn places_of(
    alloc: Global,
    described: &Described,
    parts: &[Shown],
) -> Result<Vec<String>, AllocError>
    ensures { IfOk result (λ found. map string_bytes found.items ≡ places described.now (map seen parts.now)) }
{
    let mut places = Vec::new(alloc);
    walk(alloc, described, parts, "", &mut places)?;
    Ok(places)
}

/// The number of a part: of a length its items, of a tag the tag.
pub(crate) fn number_of(part: &Shown) -> Option<usize>
    ensures { result ≡ number_of (seen part.now) }
{
    match part {
        Shown::Length { count, .. } => Some(*count),
        Shown::Tag { tag, .. } => Some(*tag),
        _ => None,
    }
}

/// The number of the last part that has a place.
fn last_number(parts: &[Shown], places: &[String]) -> Option<usize>
    ensures { result ≡ last_number (map seen parts.now) (map string_bytes places.now) }
{
    let last = places.len().checked_sub(1)?;
    match parts.get(last) {
        Some(part) => number_of(part),
        None => None,
    }
}

/// The places of the type's parts, where the type stands at a place.
#[cycle(walking)]
fn walk(
    alloc: Global,
    described: &Described,
    parts: &[Shown],
    place: &str,
    places: &mut Vec<String>,
) -> Result<(), AllocError>
    ensures { Walked (type_walks (map seen parts.now) described.now).whole place.now places.old.items places.new.items result }
{
    match described {
        Described::Option(content) => {
            add_place(alloc, parts, place, places)?;
            match last_number(parts, places.as_slice()) {
                Some(0) | None => Ok(()),
                Some(1) => walk(alloc, content, parts, place, places),
                Some(_) => add_place(alloc, parts, place, places),
            }
        }
        Described::Result(one, other) => {
            add_place(alloc, parts, place, places)?;
            match last_number(parts, places.as_slice()) {
                Some(0) => walk(alloc, one, parts, place, places),
                Some(1) => walk(alloc, other, parts, place, places),
                Some(_) => add_place(alloc, parts, place, places),
                None => Ok(()),
            }
        }
        Described::Boxed(content) => walk(alloc, content, parts, place, places),
        Described::List(_, item) | Described::Set(item) | Described::Map(item) => {
            add_place(alloc, parts, place, places)?;
            match last_number(parts, places.as_slice()) {
                Some(count) => walk_items(alloc, item, count, parts, place, places),
                None => Ok(()),
            }
        }
        Described::Array(n, item) => walk_items(alloc, item, *n, parts, place, places),
        Described::Tuple(members) | Described::Struct(members) => {
            walk_members(alloc, members, 0, parts, place, places)
        }
        Described::Joined(first, second) => {
            walk_members(alloc, first, 0, parts, place, places)?;
            walk_members(alloc, second, 1, parts, place, places)
        }
        Described::Field(name, content) => {
            let field = format!(in alloc; "{place}.{name}")?;
            walk(alloc, content, parts, field.as_str(), places)
        }
        Described::Enum(_, cases) => {
            add_place(alloc, parts, place, places)?;
            match last_number(parts, places.as_slice()) {
                Some(tag) => walk_case(alloc, cases, tag, parts, place, places),
                None => Ok(()),
            }
        }
        Described::Text | Described::ByteList(_) => {
            add_place(alloc, parts, place, places)?;
            add_place(alloc, parts, place, places)
        }
        _ => add_place(alloc, parts, place, places),
    }
}

/// The places of so many items.
#[cycle(walking)]
fn walk_items(
    alloc: Global,
    item: &Described,
    n: usize,
    parts: &[Shown],
    place: &str,
    places: &mut Vec<String>,
) -> Result<(), AllocError>
    ensures { Walked (items_walk (map seen parts.now) (type_walks (map seen parts.now) item.now).whole n) place.now places.old.items places.new.items result }
{
    for i in 0..n {
        if is_full(parts, places.as_slice()) {
            return Ok(());
        }
        let inner = format!(in alloc; "{place}[{i}]")?;
        walk(alloc, item, parts, inner.as_str(), places)?;
    }
    Ok(())
}

/// The places of members, from one on.
#[cycle(walking)]
fn walk_members(
    alloc: Global,
    members: &Described,
    number: usize,
    parts: &[Shown],
    place: &str,
    places: &mut Vec<String>,
) -> Result<(), AllocError>
    ensures { Walked ((type_walks (map seen parts.now) members.now).member number) place.now places.old.items places.new.items result }
{
    match members {
        Described::Joined(first, others) => {
            walk_members(alloc, first, number, parts, place, places)?;
            walk_members(
                alloc,
                others,
                number.saturating_add(1),
                parts,
                place,
                places,
            )
        }
        Described::Field(..) => walk(alloc, members, parts, place, places),
        _ => {
            let member = format!(in alloc; "{place}.{number}")?;
            walk(alloc, members, parts, member.as_str(), places)
        }
    }
}

/// The places of the case with the tag.
#[cycle(walking)]
fn walk_case(
    alloc: Global,
    cases: &Cases,
    tag: usize,
    parts: &[Shown],
    place: &str,
    places: &mut Vec<String>,
) -> Result<(), AllocError>
    ensures { Walked (case_walk (map seen parts.now) cases.now tag) place.now places.old.items places.new.items result }
{
    match cases {
        Cases::Last(named, content) => {
            if *named == tag {
                walk(alloc, content, parts, place, places)
            } else {
                add_place(alloc, parts, place, places)
            }
        }
        Cases::Case(named, content, others) => {
            if *named == tag {
                walk(alloc, content, parts, place, places)
            } else {
                walk_case(alloc, others, tag, parts, place, places)
            }
        }
    }
}

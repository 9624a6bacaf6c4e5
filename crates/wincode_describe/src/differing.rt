//! Where two types differ, and bytes that show it. What it finds is a guess, which whoever asks tries by reading.
use crate::described::{Cases, Described, LengthScheme, TagSize};
use crate::likeness::{Likeness, case_of, head_at, is_row, likeness_of, list_in, opened, wider};
use crate::lines::push_front;
use crate::parts::{integer_size, std_size};
use crate::sizes::{prealloc_size, tag_bytes};
use std::alloc::{AllocError, Global};
use wincode_base::len::PREALLOCATION_LIMIT;

/// How many bytes are put together at the most to show a difference.
const MOST: usize = 65536;

/// What a change does.
#[derive(Debug, Clone, Copy, PartialEq, Eq)]
pub enum ChangeKind {
    /// A field has another name, which stands nowhere in the bytes.
    Renamed,
    /// The new type reads more there.
    Extended,
    /// The new type may read less there, or as other parts.
    Differs,
}

/// A place where two types are written in two ways.
#[derive(Debug, Drop)]
pub struct Change {
    pub kind: ChangeKind,
    /// The place in the old type, as of a part of its value, with `[]` for each item and `{3}` for what stands behind the
    /// tag 3; empty for the whole.
    pub place: String,
    /// What was, and what is there now.
    pub why: String,
    /// Bytes that the old type reads, and the new one refuses or reads as other parts; none, where none are known.
    pub witness: Option<Vec<u8>>,
}

/// The changes that are known so far, and the bytes of what stands before the place that is looked at.
#[derive(Drop)]
struct Found {
    alloc: Global,
    /// Whether members are looked at as they stand in a row, however they are nested.
    is_by_rows: bool,
    before: Vec<u8>,
    changes: Vec<Change>,
}

/// So many bytes that are 0.
fn push_zeros(bytes: &mut Vec<u8>, n: usize) -> Result<(), AllocError> {
    for _ in 0..n {
        if bytes.len() >= MOST {
            return Ok(());
        }
        bytes.push(0)?;
    }
    Ok(())
}

/// A length.
fn push_count(bytes: &mut Vec<u8>, scheme: LengthScheme, n: usize) -> Result<(), AllocError> {
    let size = match scheme {
        LengthScheme::Eight => 8,
        LengthScheme::Short => 1,
    };
    push_front(bytes, &n.to_le_bytes(), size)
}

/// A tag.
fn push_tag(bytes: &mut Vec<u8>, size: TagSize, tag: usize) -> Result<(), AllocError> {
    push_front(bytes, &tag.to_le_bytes(), tag_bytes(size))
}

/// So many values that are as small as can be.
#[cycle(smallest)]
fn push_items(bytes: &mut Vec<u8>, item: &Described, n: usize) -> Result<(), AllocError> {
    for _ in 0..n {
        let before = bytes.len();
        if before >= MOST {
            return Ok(());
        }
        push_smallest(bytes, item)?;
        if bytes.len() <= before {
            return Ok(());
        }
    }
    Ok(())
}

/// A value of the type that is as small as can be: numbers are 0, or 1 where they may not be, lists are empty, options are none.
#[cycle(smallest)]
fn push_smallest(bytes: &mut Vec<u8>, described: &Described) -> Result<(), AllocError> {
    match described {
        Described::Integer(integer) => push_zeros(bytes, integer_size(*integer)),
        Described::NonZero(integer) => {
            bytes.push(1)?;
            push_zeros(bytes, integer_size(*integer).saturating_sub(1))
        }
        Described::Std(kind) => push_zeros(bytes, std_size(*kind)),
        Described::Bool | Described::Char | Described::Option(_) => push_zeros(bytes, 1),
        Described::Unit => Ok(()),
        Described::ByteList(scheme) | Described::List(scheme, _) => push_count(bytes, *scheme, 0),
        Described::Text | Described::Set(_) | Described::Map(_) => push_zeros(bytes, 8),
        Described::ByteArray(n) => push_zeros(bytes, *n),
        Described::Result(one, _) => {
            push_zeros(bytes, 4)?;
            push_smallest(bytes, one)
        }
        Described::Boxed(content)
        | Described::Tuple(content)
        | Described::Struct(content)
        | Described::Field(_, content) => push_smallest(bytes, content),
        Described::Array(n, item) => push_items(bytes, item, *n),
        Described::Joined(first, second) => {
            push_smallest(bytes, first)?;
            push_smallest(bytes, second)
        }
        Described::Enum(size, cases) => push_case(bytes, *size, cases),
    }
}

/// The first case of an enum.
#[cycle(smallest)]
fn push_case(bytes: &mut Vec<u8>, size: TagSize, cases: &Cases) -> Result<(), AllocError> {
    match cases {
        Cases::Last(tag, content) | Cases::Case(tag, content, _) => {
            push_tag(bytes, size, *tag)?;
            push_smallest(bytes, content)
        }
    }
}

impl Found {
    /// A change of which no bytes are known.
    fn tell(&mut self, kind: ChangeKind, place: &str, why: String) -> Result<(), AllocError> {
        let place = String::from_str(self.alloc, place)?;
        let change = Change {
            kind,
            place,
            why,
            witness: None,
        };
        Ok(self.changes.push(change)?)
    }

    /// A difference, which the bytes so far may show with these behind them.
    fn differ(&mut self, place: &str, why: String, behind: Vec<u8>) -> Result<(), AllocError> {
        let place = String::from_str(self.alloc, place)?;
        let mut witness = Vec::from_slice(self.alloc, self.before.as_slice())?;
        witness.extend_from_slice(behind.as_slice())?;
        let change = Change {
            kind: ChangeKind::Differs,
            place,
            why,
            witness: Some(witness),
        };
        Ok(self.changes.push(change)?)
    }

    /// One type in the place of another.
    fn replace(&mut self, old: &Described, new: &Described, place: &str) -> Result<(), AllocError> {
        let why = format!(in self.alloc; "`{old}` became `{new}`")?;
        let mut behind = Vec::new(self.alloc);
        push_smallest(&mut behind, old)?;
        self.differ(place, why, behind)
    }

    /// The last member, behind which these came.
    fn gain(
        &mut self,
        last: &Described,
        more: &Described,
        number: usize,
        place: &str,
    ) -> Result<(), AllocError> {
        let why = format!(in self.alloc; "`{more}` came behind it")?;
        let mut behind = Vec::new(self.alloc);
        push_smallest(&mut behind, last)?;
        let place = member_at(self.alloc, last, number, place)?;
        self.differ(place.as_str(), why, behind)
    }

    /// These members, which are gone.
    fn lose(&mut self, members: &Described, number: usize, place: &str) -> Result<(), AllocError> {
        let why = format!(in self.alloc; "`{members}` is gone")?;
        let mut behind = Vec::new(self.alloc);
        push_smallest(&mut behind, members)?;
        let place = member_at(self.alloc, members, number, place)?;
        self.differ(place.as_str(), why, behind)
    }

    /// This type, which is gone.
    fn lose_at(&mut self, old: &Described, place: &str) -> Result<(), AllocError> {
        let why = format!(in self.alloc; "`{old}` is gone")?;
        let mut behind = Vec::new(self.alloc);
        push_smallest(&mut behind, old)?;
        self.differ(place, why, behind)
    }

    /// Goes on behind a member to the others, which stand behind what was told of it, from this change on; how many bytes
    /// stood before it.
    fn pass(
        &mut self,
        start: usize,
        member: &Described,
        others: &Described,
    ) -> Result<usize, AllocError> {
        let mut tail = Vec::new(self.alloc);
        push_smallest(&mut tail, others)?;
        self.end_with(start, tail.as_slice())?;
        let size = self.before.len();
        push_smallest(&mut self.before, member)?;
        Ok(size)
    }

    /// These bytes stand behind what was told from this change on.
    fn end_with(&mut self, start: usize, tail: &[u8]) -> Result<(), AllocError> {
        for change in self.changes.iter_mut().skip(start) {
            if let Some(witness) = &mut change.witness {
                witness.extend_from_slice(tail)?;
            }
        }
        Ok(())
    }
}

/// The members of a tuple or the fields of a struct, or the type itself.
fn members_in(described: &Described) -> &Described {
    match described {
        Described::Boxed(content) | Described::Tuple(content) | Described::Struct(content) => {
            members_in(content)
        }
        _ => described,
    }
}

/// The place of the first of these members.
fn member_at(
    alloc: Global,
    members: &Described,
    number: usize,
    place: &str,
) -> Result<String, AllocError> {
    match members {
        Described::Joined(first, _) => member_at(alloc, first, number, place),
        Described::Field(name, _) => format!(in alloc; "{place}.{name}"),
        _ => format!(in alloc; "{place}.{number}"),
    }
}

/// Whether it is an array of so many items.
fn is_array_of(described: &Described, n: usize) -> bool {
    match described {
        Described::Array(count, _) => *count == n,
        _ => false,
    }
}

/// How wide the tag of an enum or a result is.
fn tag_size(described: &Described) -> Option<TagSize> {
    match described {
        Described::Enum(size, _) => Some(*size),
        Described::Result(..) => Some(TagSize::U32),
        _ => None,
    }
}

/// What stands behind this tag in an enum or a result, if it names something.
fn behind_tag(described: &Described, tag: usize) -> Option<&Described> {
    match described {
        Described::Enum(_, cases) => case_of(cases, tag),
        Described::Result(one, other) => match tag {
            0 => Some(one),
            1 => Some(other),
            _ => None,
        },
        _ => None,
    }
}

/// What differs between two types that stand at one place.
#[cycle(searching)]
fn search(
    found: &mut Found,
    old: &Described,
    new: &Described,
    place: &str,
) -> Result<(), AllocError> {
    let is_row_of_parts = match old {
        Described::Tuple(_) | Described::Struct(_) => true,
        Described::Array(n, item) => is_row(*n, item) && !is_array_of(opened(new), *n),
        _ => false,
    };
    if found.is_by_rows && is_row_of_parts {
        return search_row(found, old, new, place);
    }
    search_part(found, old, new, place)
}

/// So, of types that aren't looked at as a row.
#[cycle(searching)]
fn search_part(
    found: &mut Found,
    old: &Described,
    new: &Described,
    place: &str,
) -> Result<(), AllocError> {
    match old {
        Described::Boxed(content) => search(found, content, new, place),
        Described::Tuple(members) | Described::Struct(members) => {
            search_members(found, members, members_in(new), 0, place)
        }
        Described::Field(_, content) => search(found, content, opened(new), place),
        Described::Option(content) => match opened(new) {
            Described::Option(other) => search_option(found, content, other, place),
            _ => found.replace(old, new, place),
        },
        Described::Result(one, other) => match tag_size(opened(new)) {
            Some(TagSize::U32) => {
                search_case(found, (TagSize::U32, 0), one, opened(new), place)?;
                search_case(found, (TagSize::U32, 1), other, opened(new), place)?;
                tell_new(found, opened(new), old, place)
            }
            _ => found.replace(old, new, place),
        },
        Described::List(scheme, item) => match list_in(opened(new)) {
            Some((other, content)) if *scheme == other => {
                search_list(found, *scheme, item, content, place)
            }
            _ => found.replace(old, new, place),
        },
        Described::Set(item) | Described::Map(item) => match list_in(opened(new)) {
            Some((LengthScheme::Eight, content)) => {
                search_list(found, LengthScheme::Eight, item, content, place)
            }
            _ => found.replace(old, new, place),
        },
        Described::Array(n, item) => match opened(new) {
            Described::Array(other, content) if *n == *other => {
                search_array(found, *n, item, content, place)
            }
            _ => found.replace(old, new, place),
        },
        Described::Enum(size, cases) => match tag_size(opened(new)) {
            Some(other) if *size == other => {
                search_cases(found, *size, cases, opened(new), place)?;
                tell_new(found, opened(new), old, place)
            }
            _ => found.replace(old, new, place),
        },
        _ => match likeness_of(old, new) {
            Likeness::Unlike => found.replace(old, new, place),
            Likeness::Reads => {
                let why = format!(in found.alloc; "`{old}` became `{new}`")?;
                found.tell(ChangeKind::Extended, place, why)
            }
            Likeness::Same => Ok(()),
        },
    }
}

/// So, of members from one on.
#[cycle(searching)]
fn search_members(
    found: &mut Found,
    old: &Described,
    new: &Described,
    number: usize,
    place: &str,
) -> Result<(), AllocError> {
    let Described::Joined(first, others) = old else {
        return search_last(found, old, new, number, place);
    };
    let (one, more) = match new {
        Described::Joined(one, more) => (&**one, Some(&**more)),
        _ => (new, None),
    };
    let start = found.changes.len();
    search_member(found, first, one, number, place)?;
    let size = found.pass(start, first, others)?;
    let next = number.saturating_add(1);
    match more {
        Some(more) => search_members(found, others, more, next, place)?,
        None => found.lose(others, next, place)?,
    }
    found.before.truncate(size);
    Ok(())
}

/// So, of the last member.
#[cycle(searching)]
fn search_last(
    found: &mut Found,
    old: &Described,
    new: &Described,
    number: usize,
    place: &str,
) -> Result<(), AllocError> {
    match new {
        Described::Joined(one, more) => {
            search_member(found, old, one, number, place)?;
            found.gain(old, more, number, place)
        }
        _ => search_member(found, old, new, number, place),
    }
}

/// So, of a member.
#[cycle(searching)]
fn search_member(
    found: &mut Found,
    old: &Described,
    new: &Described,
    number: usize,
    place: &str,
) -> Result<(), AllocError> {
    match old {
        Described::Field(name, content) => {
            search_field(found, name.as_str(), content, new, place)
        }
        _ => {
            let member = format!(in found.alloc; "{place}.{number}")?;
            search(found, old, new, member.as_str())
        }
    }
}

/// So, of a field, and whether it has another name.
#[cycle(searching)]
fn search_field(
    found: &mut Found,
    name: &str,
    content: &Described,
    new: &Described,
    place: &str,
) -> Result<(), AllocError> {
    let field = format!(in found.alloc; "{place}.{name}")?;
    let Described::Field(other, inner) = new else {
        return search(found, content, new, field.as_str());
    };
    if name != other.as_str() && likeness_of(content, inner) != Likeness::Unlike {
        let why = format!(in found.alloc; "renamed: {name} -> {other}")?;
        found.tell(ChangeKind::Renamed, place, why)?;
    }
    search(found, content, inner, field.as_str())
}

/// So, of an option's value.
#[cycle(searching)]
fn search_option(
    found: &mut Found,
    old: &Described,
    new: &Described,
    place: &str,
) -> Result<(), AllocError> {
    let size = found.before.len();
    found.before.push(1)?;
    search(found, old, new, place)?;
    found.before.truncate(size);
    Ok(())
}

/// So, of the items of a list.
#[cycle(searching)]
fn search_list(
    found: &mut Found,
    scheme: LengthScheme,
    old: &Described,
    new: &Described,
    place: &str,
) -> Result<(), AllocError> {
    let size = found.before.len();
    push_count(&mut found.before, scheme, 1)?;
    let item = format!(in found.alloc; "{place}[]")?;
    match old {
        Described::Joined(..) if found.is_by_rows => search_row(found, old, new, item.as_str())?,
        Described::Joined(..) => search_members(found, old, members_in(new), 0, item.as_str())?,
        _ => search(found, old, new, item.as_str())?,
    }
    found.before.truncate(size);
    let (counted, counts) = (prealloc_size(old), prealloc_size(new));
    match wider(scheme, counted, counts) {
        Likeness::Same => Ok(()),
        Likeness::Reads => {
            let why = format!(in found.alloc;
                "an item counts {counts} in place of {counted}, so a list may be longer"
            )?;
            found.tell(ChangeKind::Extended, place, why)
        }
        Likeness::Unlike => {
            let why = format!(in found.alloc;
                "an item counts {counts} in place of {counted}, so a long list is refused"
            )?;
            let mut behind = Vec::new(found.alloc);
            let n = PREALLOCATION_LIMIT
                .checked_div(counts)
                .unwrap_or(0)
                .saturating_add(1);
            push_count(&mut behind, scheme, n)?;
            push_items(&mut behind, old, n)?;
            found.differ(place, why, behind)
        }
    }
}

/// So, of the items of an array.
#[cycle(searching)]
fn search_array(
    found: &mut Found,
    n: usize,
    old: &Described,
    new: &Described,
    place: &str,
) -> Result<(), AllocError> {
    let start = found.changes.len();
    let item = format!(in found.alloc; "{place}[]")?;
    search(found, old, new, item.as_str())?;
    let mut tail = Vec::new(found.alloc);
    push_items(&mut tail, old, n.saturating_sub(1))?;
    found.end_with(start, tail.as_slice())
}

/// So, of what stands behind the tags of an enum.
#[cycle(searching)]
fn search_cases(
    found: &mut Found,
    size: TagSize,
    cases: &Cases,
    new: &Described,
    place: &str,
) -> Result<(), AllocError> {
    match cases {
        Cases::Last(tag, content) => search_case(found, (size, *tag), content, new, place),
        Cases::Case(tag, content, more) => {
            search_case(found, (size, *tag), content, new, place)?;
            search_cases(found, size, more, new, place)
        }
    }
}

/// So, of what stands behind one tag.
#[cycle(searching)]
fn search_case(
    found: &mut Found,
    (size, tag): (TagSize, usize),
    content: &Described,
    new: &Described,
    place: &str,
) -> Result<(), AllocError> {
    let before = found.before.len();
    push_tag(&mut found.before, size, tag)?;
    match behind_tag(new, tag) {
        Some(other) => {
            let case = format!(in found.alloc; "{place}{{{tag}}}")?;
            search(found, content, other, case.as_str())?;
        }
        None => {
            let why = format!(in found.alloc; "the case {tag} is gone")?;
            let mut behind = Vec::new(found.alloc);
            push_smallest(&mut behind, content)?;
            found.differ(place, why, behind)?;
        }
    }
    found.before.truncate(before);
    Ok(())
}

/// The case of this tag, which is new where the old type doesn't have it.
fn tell_case(
    found: &mut Found,
    tag: usize,
    old: &Described,
    place: &str,
) -> Result<(), AllocError> {
    if behind_tag(old, tag).is_some() {
        return Ok(());
    }
    let why = format!(in found.alloc; "the case {tag} is new")?;
    found.tell(ChangeKind::Extended, place, why)
}

/// Those of these cases that are new.
fn tell_cases(
    found: &mut Found,
    cases: &Cases,
    old: &Described,
    place: &str,
) -> Result<(), AllocError> {
    match cases {
        Cases::Last(tag, _) => tell_case(found, *tag, old, place),
        Cases::Case(tag, _, more) => {
            tell_case(found, *tag, old, place)?;
            tell_cases(found, more, old, place)
        }
    }
}

/// The cases of an enum or the sides of a result that are new.
fn tell_new(
    found: &mut Found,
    new: &Described,
    old: &Described,
    place: &str,
) -> Result<(), AllocError> {
    match new {
        Described::Enum(_, cases) => tell_cases(found, cases, old, place),
        Described::Result(..) => {
            tell_case(found, 0, old, place)?;
            tell_case(found, 1, old, place)
        }
        _ => Ok(()),
    }
}

/// What differs between the types that stand in a row in the two, and those that came behind them.
#[cycle(searching)]
fn search_row(
    found: &mut Found,
    old: &Described,
    new: &Described,
    place: &str,
) -> Result<(), AllocError> {
    let end = match old {
        Described::Joined(..) => walk_members(found, old, (new, 0), 0, place)?,
        _ => walk(found, old, new, 0, place)?,
    };
    match head_at(new, end) {
        Ok(more) => {
            let why = format!(in found.alloc; "`{more}` came behind it")?;
            let mut behind = Vec::new(found.alloc);
            push_smallest(&mut behind, old)?;
            found.differ(place, why, behind)
        }
        Err(_) => Ok(()),
    }
}

/// So, of those that stand in the new type from one place on; where they end.
#[cycle(searching)]
fn walk(
    found: &mut Found,
    old: &Described,
    new: &Described,
    at: usize,
    place: &str,
) -> Result<usize, AllocError> {
    match old {
        Described::Boxed(content) | Described::Field(_, content) => {
            walk(found, content, new, at, place)
        }
        Described::Tuple(members) | Described::Struct(members) => {
            walk_members(found, members, (new, at), 0, place)
        }
        Described::Array(n, item) if is_row(*n, item) => {
            walk_items(found, *n, item, (new, at), place)
        }
        _ => {
            match head_at(new, at) {
                Ok(head) => search_part(found, old, head, place)?,
                Err(_) => found.lose_at(old, place)?,
            }
            Ok(at.saturating_add(1))
        }
    }
}

/// So, of members from one on.
#[cycle(searching)]
fn walk_members(
    found: &mut Found,
    old: &Described,
    (new, at): (&Described, usize),
    number: usize,
    place: &str,
) -> Result<usize, AllocError> {
    let member = member_at(found.alloc, old, number, place)?;
    let Described::Joined(first, others) = old else {
        return walk(found, old, new, at, member.as_str());
    };
    let start = found.changes.len();
    let middle = walk(found, first, new, at, member.as_str())?;
    let size = found.pass(start, first, others)?;
    let end = walk_members(
        found,
        others,
        (new, middle),
        number.saturating_add(1),
        place,
    )?;
    found.before.truncate(size);
    Ok(end)
}

/// So, of the items of an array.
#[cycle(searching)]
fn walk_items(
    found: &mut Found,
    n: usize,
    item: &Described,
    (new, at): (&Described, usize),
    place: &str,
) -> Result<usize, AllocError> {
    let size = found.before.len();
    let mut end = at;
    for i in 0..n {
        let start = found.changes.len();
        let one = format!(in found.alloc; "{place}[{i}]")?;
        end = walk(found, item, new, end, one.as_str())?;
        let mut tail = Vec::new(found.alloc);
        push_items(&mut tail, item, n.saturating_sub(i).saturating_sub(1))?;
        found.end_with(start, tail.as_slice())?;
        push_smallest(&mut found.before, item)?;
    }
    found.before.truncate(size);
    Ok(end)
}

/// Where the two types differ, in the order of the old type's parts; of each difference bytes that may show it. By rows,
/// members are looked at as they stand in a row, however they are nested.
pub(crate) fn changes_of(
    alloc: Global,
    old: &Described,
    new: &Described,
    is_by_rows: bool,
) -> Result<Vec<Change>, AllocError> {
    let mut found = Found {
        alloc,
        is_by_rows,
        before: Vec::new(alloc),
        changes: Vec::new(alloc),
    };
    search(&mut found, old, new, "")?;
    Ok(found.changes)
}

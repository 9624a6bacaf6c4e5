//! What the encodings of one type are to those of another, as far as their forms tell.
ghost use Rattle.std.specs.Prelude.{◌≡◌, ◌+◌, true, length, min, IfSome, MatchResult};
ghost use Rattle.wincode_base.specs.Tags.{result_read};
ghost use Rattle.wincode_describe.specs.Compared.{
  IsLike,
  IsWider,
  AreLike,
  AreNamed,
  AreSides,
  StandsAt,
  Takes,
  both,
  heads,
  is_row,
  repeated,
  row_read,
  side_at,
};
ghost use Rattle.wincode_describe.specs.ShownGrammars.{shown_read, chosen_read};
ghost use Rattle.wincode_describe.specs.Types.{described_read, cases_read, list_of, result_shown, scheme_of, tag_bytes};

use crate::described::{Cases, Described, LengthScheme, TagSize};
use crate::parsing::has_case;
use crate::sizes::prealloc_size;

/// An array of more items, or of items in which more types stand in a row, is likened to arrays of as many items alone.
const ROW: usize = 64;

/// What the encodings of one type, the old one, are to those of another, the new one.
#[derive(Debug, Clone, Copy, PartialEq, Eq)]
pub enum Likeness {
    /// They are the same, with the same parts.
    Same,
    /// Each is one of the new type, with the same parts.
    Reads,
    /// Nothing is known of them.
    Unlike,
}

impl Likeness {
    /// What is known where this is known of one part, and the other of another part.
    fn and(self, other: Likeness) -> Likeness
        ensures { result ≡ both self other }
    {
        match self {
            Likeness::Same => other,
            Likeness::Reads => match other {
                Likeness::Same | Likeness::Reads => Likeness::Reads,
                Likeness::Unlike => Likeness::Unlike,
            },
            Likeness::Unlike => Likeness::Unlike,
        }
    }
}

/// The type without what adds no bytes around it: a box, a tuple, a struct, the name of a field.
pub(crate) fn opened(described: &Described) -> &Described
    ensures { IsLike Likeness.Same (described_read result.now) (described_read described.now) }
{
    match described {
        Described::Boxed(content)
        | Described::Tuple(content)
        | Described::Struct(content)
        | Described::Field(_, content) => opened(content),
        _ => described,
    }
}

/// What stands behind this tag, if it names a case.
pub(crate) fn case_of(cases: &Cases, tag: usize) -> Option<&Described>
    ensures { IfSome result (λ d. IsLike Likeness.Same (described_read d.now) ((cases_read cases.now).case tag)) }
{
    match cases {
        Cases::Last(named, content) => { if *named == tag { Some(content) } else { None } }
        Cases::Case(named, content, others) => {
            if *named == tag {
                Some(content)
            } else {
                case_of(others, tag)
            }
        }
    }
}

/// Whether each of the first cases has a tag that one of the others has.
fn are_named(cases: &Cases, others: &Cases) -> bool
    ensures { result ≡ true → AreNamed cases.now others.now }
{
    match cases {
        Cases::Last(tag, _) => has_case(others, *tag),
        Cases::Case(tag, _, more) => has_case(others, *tag) && are_named(more, others),
    }
}

/// The side of a result that this tag names, if it names one.
fn side_of<'a>(one: &'a Described, other: &'a Described, tag: usize) -> Option<&'a Described>
    ensures { IfSome result (λ d. IsLike Likeness.Same (described_read d.now) (side_at (described_read one.now) (described_read other.now) tag)) }
{
    match tag {
        0 => Some(one),
        1 => Some(other),
        _ => None,
    }
}

/// Whether each tag is one of a result's, 0 or 1.
fn are_sides(cases: &Cases) -> bool
    ensures { result ≡ true → AreSides cases.now }
{
    match cases {
        Cases::Last(tag, _) => *tag < 2,
        Cases::Case(tag, _, more) => *tag < 2 && are_sides(more),
    }
}

/// A list and its items, if it is one: a list, a set or a map.
pub(crate) fn list_in(described: &Described) -> Option<(LengthScheme, &Described)>
    ensures { IfSome result (λ p. IsLike Likeness.Same (list_of p.0 (described_read p.1.now)) (described_read described.now)) }
{
    match described {
        Described::List(scheme, item) => Some((*scheme, item)),
        Described::Set(item) | Described::Map(item) => Some((LengthScheme::Eight, item)),
        _ => None,
    }
}

/// Which lengths are read where an item counts so much, and where it counts that.
pub(crate) fn wider(scheme: LengthScheme, old: usize, new: usize) -> Likeness
    ensures { IsWider result (scheme_of scheme) old new }
{
    match scheme {
        LengthScheme::Short => Likeness::Same,
        LengthScheme::Eight if old == new => Likeness::Same,
        LengthScheme::Eight if new < old => Likeness::Reads,
        LengthScheme::Eight => Likeness::Unlike,
    }
}

/// Of types that have no parts.
#[tactic(auto, using(crate::proofs::Likes::nonzero_like))]
fn leaf_likeness(old: &Described, new: &Described) -> Likeness
    ensures { IsLike result (described_read old.now) (described_read new.now) }
{
    match old {
        Described::Integer(integer) => match new {
            Described::Integer(other) if *integer == *other => Likeness::Same,
            _ => Likeness::Unlike,
        },
        Described::NonZero(integer) => match new {
            Described::NonZero(other) if *integer == *other => Likeness::Same,
            Described::Integer(other) if *integer == *other => Likeness::Reads,
            _ => Likeness::Unlike,
        },
        Described::Std(kind) => match new {
            Described::Std(other) if *kind == *other => Likeness::Same,
            _ => Likeness::Unlike,
        },
        Described::Bool => match new {
            Described::Bool => Likeness::Same,
            _ => Likeness::Unlike,
        },
        Described::Char => match new {
            Described::Char => Likeness::Same,
            _ => Likeness::Unlike,
        },
        Described::Unit => match new {
            Described::Unit => Likeness::Same,
            _ => Likeness::Unlike,
        },
        Described::Text => match new {
            Described::Text => Likeness::Same,
            _ => Likeness::Unlike,
        },
        Described::ByteList(scheme) => match new {
            Described::ByteList(other) if *scheme == *other => Likeness::Same,
            _ => Likeness::Unlike,
        },
        Described::ByteArray(n) => match new {
            Described::ByteArray(other) if *n == *other => Likeness::Same,
            _ => Likeness::Unlike,
        },
        _ => Likeness::Unlike,
    }
}

/// How many types stand in a row in a value of the type, up to `usize::MAX`.
fn row_length(described: &Described) -> usize
    ensures { result ≡ min (length (heads described.now)) 18446744073709551615 }
{
    match described {
        Described::Boxed(content)
        | Described::Tuple(content)
        | Described::Struct(content)
        | Described::Field(_, content) => row_length(content),
        Described::Joined(first, second) => row_length(first).saturating_add(row_length(second)),
        Described::Array(n, item) => {
            let width = row_length(item);
            if *n <= ROW && width <= ROW {
                (*n).saturating_mul(width)
            } else {
                1
            }
        }
        _ => 1,
    }
}

/// Whether an array of so many items is a row of what they hold.
pub(crate) fn is_row(n: usize, item: &Described) -> bool
    ensures { result ≡ is_row n (length (heads item.now)) }
{
    n <= ROW && row_length(item) <= ROW
}

/// The type at this place of those that stand in a row in a value of the type, or how far the place is behind them.
#[cycle(placing)]
pub(crate) fn head_at(described: &Described, i: usize) -> Result<&Described, usize>
    ensures { MatchResult result (λ d. StandsAt i (heads described.now) d.now) (λ left. i ≡ length (heads described.now) + left) }
{
    match described {
        Described::Boxed(content)
        | Described::Tuple(content)
        | Described::Struct(content)
        | Described::Field(_, content) => head_at(content, i),
        Described::Joined(first, second) => match head_at(first, i) {
            Ok(head) => Ok(head),
            Err(left) => head_at(second, left),
        },
        Described::Array(n, item) if is_row(*n, item) => item_head_at(*n, item, i),
        _ => match i.checked_sub(1) {
            None => Ok(described),
            Some(left) => Err(left),
        },
    }
}

/// So, of those that stand in so many items.
#[cycle(placing)]
fn item_head_at(n: usize, item: &Described, i: usize) -> Result<&Described, usize>
    ensures { MatchResult result (λ d. StandsAt i (repeated n (heads item.now)) d.now) (λ left. i ≡ length (repeated n (heads item.now)) + left) }
{
    if row_length(item) == 0 {
        return Err(i);
    }
    let mut place = i;
    for _i in 0..n {
        match head_at(item, place) {
            Ok(head) => return Ok(head),
            Err(left) => place = left,
        }
    }
    Err(place)
}

/// What the encodings of the old type are to those of the new one. `Same`: they are the same, with the same parts;
/// `Reads`: each is one of the new type, with the same parts. Names say nothing, nor does it matter how members stand in
/// tuples and structs. It looks at the forms alone.
#[cycle(likening)]
pub fn likeness_of(old: &Described, new: &Described) -> Likeness
    ensures { IsLike result (described_read old.now) (described_read new.now) }
{
    let (answer, end) = row_likeness(old, new, 0);
    match head_at(new, end) {
        Ok(_) => Likeness::Unlike,
        Err(_) => answer,
    }
}

/// What they are to those that stand in the new type from one place on, and where these end.
#[cycle(likening)]
fn row_likeness(old: &Described, new: &Described, at: usize) -> (Likeness, usize)
    ensures { Takes result.0 (described_read old.now) (heads new.now) at result.1 }
{
    match old {
        Described::Boxed(content)
        | Described::Tuple(content)
        | Described::Struct(content)
        | Described::Field(_, content) => row_likeness(content, new, at),
        Described::Joined(first, second) => {
            let (one, middle) = row_likeness(first, new, at);
            let (other, end) = row_likeness(second, new, middle);
            (one.and(other), end)
        }
        Described::Array(n, item) if is_row(*n, item) => items_likeness(*n, item, new, at),
        _ => {
            let (Ok(head), Some(next)) = (head_at(new, at), at.checked_add(1)) else {
                return (Likeness::Unlike, at);
            };
            (head_likeness(old, head), next)
        }
    }
}

/// So, of so many items.
#[cycle(likening)]
fn items_likeness(n: usize, item: &Described, new: &Described, at: usize) -> (Likeness, usize)
    ensures { Takes result.0 (row_read (repeated n (heads item.now))) (heads new.now) at result.1 }
{
    let mut answer = Likeness::Same;
    let mut end = at;
    if row_length(item) == 0 {
        return (answer, end);
    }
    for _i in 0..n {
        let (one, next) = row_likeness(item, new, end);
        answer = answer.and(one);
        end = next;
    }
    (answer, end)
}

/// What they are to those of one of them.
#[cycle(likening)]
fn head_likeness(old: &Described, new: &Described) -> Likeness
    ensures { IsLike result (described_read old.now) (described_read new.now) }
{
    match old {
        Described::Option(content) => match new {
            Described::Option(other) => likeness_of(content, other),
            _ => Likeness::Unlike,
        },
        Described::Result(one, other) => match new {
            Described::Result(first, second) => {
                likeness_of(one, first).and(likeness_of(other, second))
            }
            Described::Enum(TagSize::U32, cases) => result_likeness(old, cases),
            _ => Likeness::Unlike,
        },
        Described::List(scheme, item) => list_likeness(*scheme, item, new),
        Described::Set(item) | Described::Map(item) => {
            list_likeness(LengthScheme::Eight, item, new)
        }
        Described::Array(n, item) => match new {
            Described::Array(other, content) if *n == *other => likeness_of(item, content),
            _ => Likeness::Unlike,
        },
        Described::Enum(size, cases) => enum_likeness(*size, cases, new),
        _ => leaf_likeness(old, new),
    }
}

/// So, of a list of such items.
#[cycle(likening)]
fn list_likeness(scheme: LengthScheme, item: &Described, new: &Described) -> Likeness
    ensures { IsLike result (list_of scheme (described_read item.now)) (described_read new.now) }
{
    let Some((other, content)) = list_in(new) else {
        return Likeness::Unlike;
    };
    if scheme != other {
        return Likeness::Unlike;
    }
    let wider = wider(scheme, prealloc_size(item), prealloc_size(content));
    wider.and(likeness_of(item, content))
}

/// So, of a result and an enum of such cases.
#[cycle(likening)]
fn result_likeness(old: &Described, cases: &Cases) -> Likeness
    ensures { IsLike result (described_read old.now) (chosen_read 4 (cases_read cases.now)) }
{
    let Described::Result(one, other) = old else {
        return Likeness::Unlike;
    };
    let (Some(first), Some(second)) = (case_of(cases, 0), case_of(cases, 1)) else {
        return Likeness::Unlike;
    };
    let answer = likeness_of(one, first).and(likeness_of(other, second));
    if are_sides(cases) {
        answer
    } else {
        answer.and(Likeness::Reads)
    }
}

/// So, of an enum of such cases and a result of such sides.
#[cycle(likening)]
fn sides_likeness(cases: &Cases, one: &Described, other: &Described) -> Likeness
    ensures { IsLike result (chosen_read 4 (cases_read cases.now)) (shown_read result_shown (result_read 4 (described_read one.now) (described_read other.now))) }
{
    let answer = side_likeness(cases, one, other);
    if has_case(cases, 0) && has_case(cases, 1) {
        answer
    } else {
        answer.and(Likeness::Reads)
    }
}

/// So, of what stands behind the tag of each of these cases, and the sides of a result.
#[cycle(likening)]
fn side_likeness(cases: &Cases, one: &Described, other: &Described) -> Likeness
    ensures { AreLike result cases.now (side_at (described_read one.now) (described_read other.now)) }
{
    match cases {
        Cases::Last(tag, content) => match side_of(one, other, *tag) {
            Some(side) => likeness_of(content, side),
            None => Likeness::Unlike,
        },
        Cases::Case(tag, content, more) => match side_of(one, other, *tag) {
            Some(side) => likeness_of(content, side).and(side_likeness(more, one, other)),
            None => Likeness::Unlike,
        },
    }
}

/// So, of an enum of such cases.
#[cycle(likening)]
fn enum_likeness(size: TagSize, cases: &Cases, new: &Described) -> Likeness
    ensures { IsLike result (chosen_read (tag_bytes size) (cases_read cases.now)) (described_read new.now) }
{
    match new {
        Described::Enum(other, others) if size == *other => named_likeness(size, cases, others),
        Described::Result(one, other) if size == TagSize::U32 => sides_likeness(cases, one, other),
        _ => Likeness::Unlike,
    }
}

/// So, of enums of such cases.
#[cycle(likening)]
fn named_likeness(size: TagSize, cases: &Cases, others: &Cases) -> Likeness
    ensures { IsLike result (chosen_read (tag_bytes size) (cases_read cases.now)) (chosen_read (tag_bytes size) (cases_read others.now)) }
{
    let answer = cases_likeness(cases, others);
    if are_named(others, cases) {
        answer
    } else {
        answer.and(Likeness::Reads)
    }
}

/// So, of what stands behind the tag of each of these cases.
#[cycle(likening)]
fn cases_likeness(cases: &Cases, others: &Cases) -> Likeness
    ensures { AreLike result cases.now (cases_read others.now).case }
{
    match cases {
        Cases::Last(tag, content) => match case_of(others, *tag) {
            Some(other) => likeness_of(content, other),
            None => Likeness::Unlike,
        },
        Cases::Case(tag, content, more) => match case_of(others, *tag) {
            Some(other) => likeness_of(content, other).and(cases_likeness(more, others)),
            None => Likeness::Unlike,
        },
    }
}

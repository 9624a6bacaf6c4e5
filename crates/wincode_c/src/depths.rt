//! How many items deep the part is that was refused: of how many lists, sets, maps and arrays it stands in an item.
ghost use Rattle.std.specs.Prelude.{◌≤◌, ◌+◌};
ghost use Rattle.wincode_c.specs.Depths.{nested, nested_cases};
ghost use Rattle.wincode_c.specs.Fronts.{TookFront, none_given, both_given};

use crate::checking::{Counted, count_read};
use std::alloc::Global;
use wincode_base::error::{ReadError, ReadResult};
use wincode_describe::described::{Cases, Described};
use wincode_describe::{PartSink, Shown, part_size, show_parts};
use wincode_io::{Lifetime, TrustedSliceReader};

/// The first part: the number that it has, of a length its items, of a tag the tag, and how many bytes.
#[derive(Clone, Copy, Drop)]
struct Front {
    number: Option<usize>,
    size: usize,
    is_there: bool,
}

/// Whatever part comes second is refused.
impl PartSink for Front {
    ghost took = { TookFront };

    ghost sink_laws = { record { none = none_given; joins = both_given } };

    fn add(&mut self, part: Shown) -> ReadResult<()> {
        if self.is_there {
            return Err(ReadError::OutOfMemory);
        }
        self.is_there = true;
        self.size = part_size(&part);
        self.number = match part {
            Shown::Length { count, .. } => Some(count),
            Shown::Tag { tag, .. } => Some(tag),
            _ => None,
        };
        Ok(())
    }
}

/// The number of the first part of what stands at the front of the bytes by the type, and what is behind that part.
fn numbered<'a>(
    alloc: Global,
    described: &Described,
    bytes: &'a [u8],
) -> Option<(usize, &'a [u8])> {
    let mut front = Front {
        number: None,
        size: 0,
        is_there: false,
    };
    let mut reader = TrustedSliceReader::<Lifetime>::new(bytes);
    let _ = show_parts::<Lifetime, TrustedSliceReader<Lifetime>, Front>(
        alloc,
        described,
        &mut reader,
        &mut front,
    );
    Some((front.number?, bytes.get(front.size..)?))
}

/// How many parts a value of the type at the front of the bytes has, and what is behind it, if one is there.
fn whole<'a>(alloc: Global, described: &Described, bytes: &'a [u8]) -> Option<(usize, &'a [u8])> {
    let mut reader = TrustedSliceReader::<Lifetime>::new(bytes);
    let (counted, refused) = count_read::<Lifetime, TrustedSliceReader<Lifetime>>(
        alloc,
        described,
        &mut reader,
    );
    match refused {
        None => Some((counted.parts, bytes.get(counted.bytes..)?)),
        Some(_) => None,
    }
}

/// How many items deep the part is behind so many parts of what stands at the front of the bytes by the type.
#[cycle(depths)]
pub(crate) fn depth_at(alloc: Global, described: &Described, bytes: &[u8], parts: usize) -> usize
    ensures { result ≤ nested described.now }
{
    match described {
        Described::Boxed(content)
        | Described::Tuple(content)
        | Described::Struct(content)
        | Described::Field(_, content) => depth_at(alloc, content, bytes, parts),
        Described::Joined(first, second) => match whole(alloc, first, bytes) {
            Some((passed, rest)) if passed <= parts => {
                depth_at(alloc, second, rest, parts - passed)
            }
            _ => depth_at(alloc, first, bytes, parts),
        },
        Described::Array(n, item) => item_depth(alloc, item, *n, bytes, parts),
        Described::List(_, _)
        | Described::Set(_)
        | Described::Map(_)
        | Described::Option(_)
        | Described::Result(_, _)
        | Described::Enum(_, _) => {
            let (Some(left), Some((number, rest))) = (
                parts.checked_sub(1),
                numbered(alloc, described, bytes),
            ) else {
                return 0;
            };
            depth_behind(alloc, described, number, rest, left)
        }
        _ => 0,
    }
}

/// So, of the part behind so many parts that stand behind a length or a tag.
#[cycle(depths)]
fn depth_behind(
    alloc: Global,
    described: &Described,
    number: usize,
    bytes: &[u8],
    parts: usize,
) -> usize
    ensures { result ≤ nested described.now }
{
    match described {
        Described::List(_, item) | Described::Set(item) | Described::Map(item) => {
            item_depth(alloc, item, number, bytes, parts)
        }
        Described::Option(content) => match number {
            1 => depth_at(alloc, content, bytes, parts),
            _ => 0,
        },
        Described::Result(one, other) => match number {
            0 => depth_at(alloc, one, bytes, parts),
            1 => depth_at(alloc, other, bytes, parts),
            _ => 0,
        },
        Described::Enum(_, cases) => case_depth(alloc, cases, number, bytes, parts),
        _ => 0,
    }
}

/// So, of the case with the tag.
#[cycle(depths)]
fn case_depth(alloc: Global, cases: &Cases, tag: usize, bytes: &[u8], parts: usize) -> usize
    ensures { result ≤ nested_cases cases.now }
{
    match cases {
        Cases::Last(named, content) => {
            if *named == tag {
                depth_at(alloc, content, bytes, parts)
            } else {
                0
            }
        }
        Cases::Case(named, content, others) => {
            if *named == tag {
                depth_at(alloc, content, bytes, parts)
            } else {
                case_depth(alloc, others, tag, bytes, parts)
            }
        }
    }
}

/// So, of the part behind so many parts of so many items.
#[cycle(depths)]
fn item_depth(alloc: Global, item: &Described, n: usize, bytes: &[u8], parts: usize) -> usize
    ensures { result ≤ nested item.now + 1 }
{
    let (mut rest, mut left) = (bytes, parts);
    for _ in 0..n {
        match whole(alloc, item, rest) {
            Some((passed, behind)) if passed <= left => {
                rest = behind;
                left -= passed;
            }
            _ => return depth_at(alloc, item, rest, left).saturating_add(1),
        }
    }
    0
}

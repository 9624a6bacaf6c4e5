//! Reading a value of a described type, shown in parts.
ghost use Rattle.std.specs.Prelude.{◌≡◌, map};
ghost use Rattle.wincode_base.specs.Outcomes.{GetOutcome};
ghost use Rattle.wincode_describe.specs.Parts.{seen};
ghost use Rattle.wincode_base.specs.Arrays.{array_read};
ghost use Rattle.wincode_base.specs.InWindow.{windowed_read};
ghost use Rattle.wincode_base.specs.ItemSizes.{item_size};
ghost use Rattle.wincode_base.specs.Lists.{run_read};
ghost use Rattle.wincode_describe.specs.ShownGrammars.{ShowOutcome, shown_read, joined, chosen_read};
ghost use Rattle.wincode_describe.specs.Types.{described_read, cases_read, list_of, option_shown, tag_bytes};
ghost use Rattle.wincode_base.specs.Tags.{option_read};

use crate::described::{Cases, Described, LengthScheme, TagSize};
use crate::leaves::{
    read_case_tag, read_length, show_byte_array, show_bytes, show_character, show_flag,
    show_integer, show_nonzero, show_nothing, show_std, show_text,
};
use crate::shown::Shown;
use crate::sink::PartSink;
use crate::sizes::{prealloc_size, tag_bytes, type_meta};
use crate::windows;
use std::alloc::Global;
use wincode_base::error::{ReadResult, invalid_tag_encoding, read_length_encoding_overflow};
use wincode_base::meta::TypeMeta;
use wincode_base::sizes::{ItemSize, times_meta};
use wincode_base::tag::read_tag;
use wincode_io::{Lending, ReadWindow, Reader};

/// Reads a value of the type from the front of what the reader has, and shows its parts, in order. Refused, those that
/// were read before stay.
#[cycle(showing)]
pub fn show_parts<L: Lending, R: Reader<L>, S: PartSink>(
    alloc: Global,
    described: &Described,
    reader: &mut R,
    shown: &mut S,
) -> ReadResult<()>
    ensures { ShowOutcome S.took (described_read described.now) (R.state reader.old) (R.state reader.new) shown.old shown.new result }
{
    match described {
        Described::Integer(integer) => show_integer::<L, R, S>(alloc, *integer, reader, shown),
        Described::NonZero(integer) => show_nonzero::<L, R, S>(alloc, *integer, reader, shown),
        Described::Std(kind) => show_std::<L, R, S>(alloc, *kind, reader, shown),
        Described::Bool => show_flag::<L, R, S>(alloc, reader, shown),
        Described::Char => show_character::<L, R, S>(alloc, reader, shown),
        Described::Unit => show_nothing::<L, R, S>(alloc, reader, shown),
        Described::Text => show_text::<L, R, S>(alloc, reader, shown),
        Described::ByteList(scheme) => show_bytes::<L, R, S>(alloc, *scheme, reader, shown),
        Described::ByteArray(n) => show_byte_array::<L, R, S>(alloc, *n, reader, shown),
        Described::Option(content) => show_option::<L, R, S>(alloc, content, reader, shown),
        Described::Result(one, other) => {
            let side = read_tag::<u32, L, R>(reader)?;
            shown.add(Shown::Tag { size: 4, tag: side })?;
            match side {
                0 => show_parts::<L, R, S>(alloc, one, reader, shown),
                1 => show_parts::<L, R, S>(alloc, other, reader, shown),
                _ => Err(invalid_tag_encoding(side)),
            }
        }
        Described::Boxed(content) => show_parts::<L, R, S>(alloc, content, reader, shown),
        Described::List(scheme, item) => show_list::<L, R, S>(alloc, *scheme, item, reader, shown),
        Described::Set(item) | Described::Map(item) => {
            show_list::<L, R, S>(alloc, LengthScheme::Eight, item, reader, shown)
        }
        Described::Array(n, item) => show_array::<L, R, S>(alloc, *n, item, reader, shown),
        Described::Tuple(parts) | Described::Struct(parts) => {
            show_whole::<L, R, S>(alloc, parts, reader, shown)
        }
        Described::Joined(first, second) => {
            show_parts::<L, R, S>(alloc, first, reader, shown)?;
            show_parts::<L, R, S>(alloc, second, reader, shown)
        }
        Described::Field(_, content) => show_parts::<L, R, S>(alloc, content, reader, shown),
        Described::Enum(size, cases) => show_enum::<L, R, S>(alloc, *size, cases, reader, shown),
    }
}

/// A tag of one byte, and then the value, if there is one.
#[cycle(showing)]
fn show_option<L: Lending, R: Reader<L>, S: PartSink>(
    alloc: Global,
    content: &Described,
    reader: &mut R,
    shown: &mut S,
) -> ReadResult<()>
    ensures { ShowOutcome S.took (shown_read option_shown (option_read 1 (described_read content.now))) (R.state reader.old) (R.state reader.new) shown.old shown.new result }
{
    let tag = read_tag::<u8, L, R>(reader)?;
    shown.add(Shown::Tag { size: 1, tag })?;
    match tag {
        0 => Ok(()),
        1 => show_parts::<L, R, S>(alloc, content, reader, shown),
        _ => Err(invalid_tag_encoding(tag)),
    }
}

/// Parts through one window of their size, where they have one.
#[cycle(showing)]
fn show_whole<L: Lending, R: Reader<L>, S: PartSink>(
    alloc: Global,
    parts: &Described,
    reader: &mut R,
    shown: &mut S,
) -> ReadResult<()>
    ensures { ShowOutcome S.took (windowed_read (described_read parts.now)) (R.state reader.old) (R.state reader.new) shown.old shown.new result }
{
    match type_meta(parts) {
        TypeMeta::Static { size, .. } => {
            let mut window = reader.as_trusted_for(size)?;
            windows::show_parts::<L, S>(alloc, parts, &mut window, shown)
        }
        TypeMeta::Dynamic => show_parts::<L, R, S>(alloc, parts, reader, shown),
    }
}

/// So many items, one after another.
#[cycle(showing)]
fn show_items<L: Lending, R: Reader<L>, S: PartSink>(
    alloc: Global,
    n: usize,
    item: &Described,
    reader: &mut R,
    shown: &mut S,
) -> ReadResult<()>
    ensures { ShowOutcome S.took (shown_read joined (array_read n (described_read item.now)))
        (R.state reader.old) (R.state reader.new) shown.old shown.new result }
{
    for _i in 0..n {
        show_parts::<L, R, S>(alloc, item, reader, shown)?;
    }
    Ok(())
}

/// So many items, through one window of all of them where they have one size.
#[cycle(showing)]
fn show_array<L: Lending, R: Reader<L>, S: PartSink>(
    alloc: Global,
    n: usize,
    item: &Described,
    reader: &mut R,
    shown: &mut S,
) -> ReadResult<()>
    ensures { ShowOutcome S.took (shown_read joined (windowed_read (array_read n (described_read item.now)))) (R.state reader.old) (R.state reader.new) shown.old shown.new result }
{
    match times_meta(n, type_meta(item)) {
        TypeMeta::Static { size, .. } => {
            let mut window = reader.as_trusted_for(size)?;
            windows::show_items::<L, S>(alloc, n, item, &mut window, shown)
        }
        TypeMeta::Dynamic => show_items::<L, R, S>(alloc, n, item, reader, shown),
    }
}

/// So many items of a list, through one window of all of them where they have one size.
#[cycle(showing)]
fn show_run<L: Lending, R: Reader<L>, S: PartSink>(
    alloc: Global,
    n: usize,
    item: &Described,
    reader: &mut R,
    shown: &mut S,
) -> ReadResult<()>
    ensures { ShowOutcome S.took (shown_read joined (run_read n (item_size (described_read item.now).meta) (described_read item.now)))
        (R.state reader.old) (R.state reader.new) shown.old shown.new result }
{
    let size = ItemSize::of(type_meta(item));
    if let ItemSize::Unknown = size {
        return show_items::<L, R, S>(alloc, n, item, reader, shown);
    }
    match size.times(n) {
        Some(total) => {
            let mut window = reader.as_trusted_for(total)?;
            windows::show_items::<L, S>(alloc, n, item, &mut window, shown)
        }
        None => Err(read_length_encoding_overflow("usize::MAX")),
    }
}

/// A length, and then so many items.
#[cycle(showing)]
fn show_list<L: Lending, R: Reader<L>, S: PartSink>(
    alloc: Global,
    scheme: LengthScheme,
    item: &Described,
    reader: &mut R,
    shown: &mut S,
) -> ReadResult<()>
    ensures { ShowOutcome S.took (list_of scheme (described_read item.now)) (R.state reader.old) (R.state reader.new) shown.old shown.new result }
{
    let count = read_length::<L, R>(scheme, prealloc_size(item), reader)?;
    shown.add(Shown::Length { scheme, count })?;
    show_run::<L, R, S>(alloc, count, item, reader, shown)
}

/// A tag, and then what it names.
#[cycle(showing)]
fn show_enum<L: Lending, R: Reader<L>, S: PartSink>(
    alloc: Global,
    size: TagSize,
    cases: &Cases,
    reader: &mut R,
    shown: &mut S,
) -> ReadResult<()>
    ensures { ShowOutcome S.took (chosen_read (tag_bytes size) (cases_read cases.now)) (R.state reader.old) (R.state reader.new) shown.old shown.new result }
{
    let tag = read_case_tag::<L, R>(size, reader)?;
    shown.add(Shown::Tag {
        size: tag_bytes(size),
        tag,
    })?;
    show_case::<L, R, S>(alloc, cases, tag, reader, shown)
}

/// What stands behind the tag.
#[cycle(showing)]
fn show_case<L: Lending, R: Reader<L>, S: PartSink>(
    alloc: Global,
    cases: &Cases,
    tag: usize,
    reader: &mut R,
    shown: &mut S,
) -> ReadResult<()>
    ensures { ShowOutcome S.took ((cases_read cases.now).case tag) (R.state reader.old) (R.state reader.new) shown.old shown.new result }
{
    match cases {
        Cases::Last(named, content) => {
            if *named == tag {
                show_parts::<L, R, S>(alloc, content, reader, shown)
            } else {
                Err(invalid_tag_encoding(tag))
            }
        }
        Cases::Case(named, content, others) => {
            if *named == tag {
                show_parts::<L, R, S>(alloc, content, reader, shown)
            } else {
                show_case::<L, R, S>(alloc, others, tag, reader, shown)
            }
        }
    }
}

/// Reads a value of the type from the front of what the reader has, and gives its parts, in order; the reader has exactly
/// the rest. It is refused as the type's schema refuses it, and leaves the reader where the schema leaves it; memory for
/// the parts may be refused too, as `OutOfMemory`.
pub fn read_described<L: Lending, R: Reader<L>>(
    alloc: Global,
    described: &Described,
    reader: &mut R,
) -> ReadResult<Vec<Shown>>
    ensures { GetOutcome (described_read described.now) (λ shown. map seen shown.items) (R.state reader.old) (R.state reader.new) result }
{
    let mut shown = Vec::new(alloc);
    show_parts::<L, R, Vec<Shown>>(alloc, described, reader, &mut shown)?;
    Ok(shown)
}

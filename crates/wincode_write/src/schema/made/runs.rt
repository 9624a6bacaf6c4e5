//! Many items of which each is written as its parts: some parts are put side by side, and then written by their schema.
ghost use Rattle.std.specs.Prelude.{◌≡◌, ◌<◌, length, map, IfSome, IsNone, IsTrue};
ghost use Rattle.wincode_base.specs.Lists.{items_write};
ghost use Rattle.wincode_base.specs.Outcomes.{IsEncoded, WriteOutcome};
ghost use Rattle.wincode_base.specs.Strings.{reference_write};
ghost use Rattle.wincode_io.specs.Joins.{Each};

use crate::schema::SchemaWrite;
use crate::schema::made::{ToParts, encode_made};
use wincode_base::error::WriteResult;
use wincode_io::Writer;

/// How many parts are put side by side at a time.
pub(crate) const RUN: usize = 16;

/// How many bytes of their encodings are put together at a time.
const BLOCK: usize = 512;

/// Puts the parts of each item over those in the place with its number, of which there are as many.
#[inline(always)]
fn put_parts<A: SchemaWrite, T: ToParts<A>>(items: &[T], places: &mut [A::Src])
where
    A::Src: Copy,
    requires { length places.old ≡ length items.now }
    ensures parts { places.new ≡ map T.parts items.now }
    ensures sound { Each T.sound items.now }
{
    for i in 0..items.len() {
        places[i] = items[i].to_parts();
    }
}

/// Writes each item as its parts, as many at a time as the block has places.
fn write_runs<A: SchemaWrite, T: ToParts<A>, W: Writer>(
    writer: &mut W,
    items: &[T],
    block: &mut [A::Src],
) -> WriteResult<()>
where
    A::Src: Copy,
    requires { 0 < length block.old }
    ensures { WriteOutcome (items_write (reference_write A.writing)) (W.state writer.old) (W.state writer.new) (map (λ x. A.model (T.parts x)) items.now)
        (Each (λ x. T.sound x × A.is_valid (T.parts x)) items.now) result }
{
    let mut rest = items;
    while !rest.is_empty() {
        let (run, more) = rest.split_at(rest.len().min(block.len()));
        let parts = &mut block[..run.len()];
        put_parts::<A, T>(run, parts);
        A::write_items::<W>(writer, parts)?;
        rest = more;
    }
    Ok(())
}

/// Puts an encoding of each item's parts, one after another, over all of the bytes, where each has so many and they are as
/// many; or answers `false`, and may have put any bytes there.
#[inline(always)]
fn put_made<A: SchemaWrite, T: ToParts<A>>(items: &[T], size: usize, dst: &mut [u8]) -> bool
where
    A::Src: Drop,
    ensures { IsTrue result → IsEncoded (items_write (reference_write A.writing)) (map (λ x. A.model (T.parts x)) items.now) dst.new
        × Each (λ x. T.sound x × A.is_valid (T.parts x)) items.now }
{
    if items.len().checked_mul(size) != Some(dst.len()) {
        return false;
    }
    for i in 0..items.len() {
        let at = i * size;
        if encode_made::<A, T>(&items[i], &mut dst[at..at + size]) != Some(size) {
            return false;
        }
    }
    true
}

/// Writes each item as its parts, which have so many bytes: a block of 512 at a time, for which the writer has room at hand,
/// and where it hasn't, as the parts' schema writes them.
#[inline(always)]
fn write_blocks<A: SchemaWrite, T: ToParts<A>, W: Writer>(
    writer: &mut W,
    items: &[T],
    size: usize,
    block: &mut [A::Src],
) -> WriteResult<()>
where
    A::Src: Copy,
    requires block { 0 < length block.old }
    requires size { 0 < size }
    ensures { WriteOutcome (items_write (reference_write A.writing)) (W.state writer.old) (W.state writer.new) (map (λ x. A.model (T.parts x)) items.now)
        (Each (λ x. T.sound x × A.is_valid (T.parts x)) items.now) result }
{
    let mut bytes = [0; BLOCK];
    let mut rest = items;
    while !rest.is_empty() {
        let room = writer.room_at_hand().min(BLOCK);
        let (run, more) = rest.split_at(rest.len().min(room / size));
        let forms = &mut bytes[..run.len() * size];
        if run.is_empty() || !put_made::<A, T>(run, size, forms) {
            return write_runs::<A, T, W>(writer, rest, block);
        }
        writer.write_ready(forms);
        rest = more;
    }
    Ok(())
}

/// Writes each item as its parts, where these have one size and there are more than fit the block; else answers `None`, and
/// has written nothing.
pub(crate) fn write_made_at_once<A: SchemaWrite, T: ToParts<A>, W: Writer>(
    writer: &mut W,
    items: &[T],
    block: &mut [A::Src],
) -> Option<WriteResult<()>>
where
    A::Src: Copy,
    requires { 0 < length block.old }
    ensures done { IfSome result (λ r. WriteOutcome (items_write (reference_write A.writing)) (W.state writer.old) (W.state writer.new)
        (map (λ x. A.model (T.parts x)) items.now) (Each (λ x. T.sound x × A.is_valid (T.parts x)) items.now) r) }
    ensures left { IsNone result → W.state writer.new ≡ W.state writer.old }
{
    let size = A::known_size()?;
    if size == 0 || items.len() <= block.len() {
        return None;
    }
    Some(write_blocks::<A, T, W>(writer, items, size, block))
}

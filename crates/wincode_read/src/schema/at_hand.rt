//! Values from bytes that are at hand. What is not given here is read the long way, which says why.
ghost use Rattle.std.specs.Prelude.{◌≡◌, ◌≤◌, [], ◌∷◌, ◌++◌, List, length, false, IsTrue, IfSome, IfErr, OnOk};
ghost use Rattle.wincode_base.specs.Lists.{items_read};
ghost use Rattle.wincode_base.specs.Outcomes.{Gives, Adds, SchemaReadRefused};
ghost use Rattle.wincode_io.specs.Readers.{IsShown};

use crate::schema::{SchemaGet, SchemaRead};
use std::alloc::Global;
use wincode_base::error::{ReadError, ReadResult};
use wincode_base::meta::TypeMeta;
use wincode_io::{Lending, Reader};

/// The first bytes at hand, as many as `n` values have of which so much is known; none where fewer are at
/// hand, or where the values may differ in size.
#[inline(always)]
pub(crate) fn front_at_hand<L: Lending, R: Reader<L>>(
    reader: &R,
    n: usize,
    meta: TypeMeta,
) -> Option<&[u8]>
    ensures { IfSome result (λ b. (length b.now ≤ (R.state reader.now).ready) × IsShown (length b.now) (R.state reader.now) b.now) }
{
    let TypeMeta::Static { size, .. } = meta else {
        return None;
    };
    let total = n.checked_mul(size)?;
    let bytes = reader.at_hand();
    if total <= bytes.len() {
        Some(&bytes[..total])
    } else {
        None
    }
}

/// The value that reads from all of the bytes, where its schema decodes it.
#[inline(always)]
pub(crate) fn decoded<L: Lending, T: SchemaRead<L>>(bytes: &[u8]) -> Option<T::Dst>
    ensures { IfSome result (λ d. T.reading.reads bytes.now (T.model d)) }
{
    let mut value = T::blank()?;
    if T::decode(bytes, &mut value) {
        Some(value)
    } else {
        None
    }
}

/// Reads the value at the front over that in the place, where its bytes are at hand and its schema decodes it. Where this
/// answers that it did not, the reader is as it was, and any value may be in the place.
#[inline(always)]
pub(crate) fn read_over<L: Lending, T: SchemaRead<L>, R: Reader<L>>(
    reader: &mut R,
    place: &mut T::Dst,
) -> bool
    ensures read { IsTrue result → Gives T.reading.reads (R.state reader.old) (R.state reader.new) (T.model place.new) }
    ensures left { result ≡ false → R.state reader.new ≡ R.state reader.old }
{
    let Some(bytes) = front_at_hand::<L, R>(reader, 1, T::type_meta()) else {
        return false;
    };
    let size = bytes.len();
    if !T::decode(bytes, place) {
        return false;
    }
    reader.consume_unchecked(size);
    true
}

/// Adds the value that reads from all of the bytes to the list, where its schema decodes it; else the list is as it was.
/// It is put together first and then moved: so it is known that none of the bytes lies where a part of it is put.
#[inline(always)]
pub(crate) fn add_decoded<L: Lending, T: SchemaRead<L>>(
    bytes: &[u8],
    into: &mut Vec<T::Dst>,
) -> bool
    ensures added { IsTrue result → (d : T.Dst) × T.reading.reads bytes.now (T.model d) × (into.new.items ≡ into.old.items ++ d ∷ []) }
    ensures left { result ≡ false → into.new.items ≡ into.old.items }
{
    match decoded::<L, T>(bytes) {
        Some(value) => into.push(value).is_ok(),
        None => false,
    }
}

/// Adds `n` values to the list, where their bytes are at hand and their schema decodes them. Else the reader and the
/// list are as they were.
#[inline(always)]
pub(crate) fn add_at_hand<L: Lending, T: SchemaRead<L>, R: Reader<L>>(
    reader: &mut R,
    n: usize,
    into: &mut Vec<T::Dst>,
) -> bool
    ensures added { IsTrue result → Adds n T.reading.reads T.model (R.state reader.old) (R.state reader.new) into.old.items into.new.items }
    ensures left { result ≡ false → R.state reader.new ≡ R.state reader.old }
    ensures same { result ≡ false → into.new.items ≡ into.old.items }
{
    let before = into.len();
    let Some(bytes) = front_at_hand::<L, R>(reader, n, T::type_meta()) else {
        return false;
    };
    let total = bytes.len();
    if !T::take_items(bytes, n, into) {
        into.truncate(before);
        return false;
    }
    reader.consume_unchecked(total);
    true
}

/// Reads `n` values, one after another, each of which is added to the list before the next is read. Refused, the list
/// holds those before.
pub(crate) fn add_each<L: Lending, T: SchemaRead<L>, R: Reader<L>>(
    alloc: Global,
    reader: &mut R,
    n: usize,
    into: &mut Vec<T::Dst>,
) -> ReadResult<()>
    ensures ok { OnOk result (Adds n T.reading.reads T.model (R.state reader.old) (R.state reader.new) into.old.items into.new.items) }
    ensures err { IfErr result (SchemaReadRefused (items_read n T.reading) (R.state reader.old) (R.state reader.new)) }
    ensures kept { (ds : List T.Dst) × (into.new.items ≡ into.old.items ++ ds) }
{
    for _i in 0..n {
        let item = T::get(alloc, reader)?;
        if into.push(item).is_err() {
            return Err(ReadError::OutOfMemory);
        }
    }
    Ok(())
}

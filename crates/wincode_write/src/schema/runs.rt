//! Items of no one size are put together, one after another, over the front of bytes.
ghost use Rattle.std.specs.Prelude.{◌≤◌, length, take, map, IfSome};
ghost use Rattle.wincode_io.specs.Joins.{Each};
ghost use Rattle.wincode_base.specs.Lists.{items_write, list_write};
ghost use Rattle.wincode_base.specs.Outcomes.{IsEncoded};

use crate::schema::SchemaWrite;
use wincode_base::len::SeqLen;
use wincode_base::meta::TypeMeta;

/// Puts encodings of the first items, one after another, over the front of the bytes, up to one that isn't put there;
/// gives how many items these are, and how many bytes.
#[inline(always)]
pub(crate) fn encode_first<T: SchemaWrite>(items: &[T::Src], dst: &mut [u8]) -> (usize, usize)
    ensures count { result.0 ≤ length items.now }
    ensures within { result.1 ≤ length dst.new }
    ensures encoded { IsEncoded (items_write T.writing) (map T.model (take result.0 items.now)) (take result.1 dst.new) }
    ensures is_valid { Each T.is_valid (take result.0 items.now) }
{
    let mut filled = 0;
    for (i, item) in items.iter().enumerate() {
        match T::encode_front(item, &mut dst[filled..]) {
            Some(size) => filled += size,
            None => return (i, filled),
        }
    }
    (items.len(), filled)
}

/// Puts an encoding of each item, one after another, over the front of the bytes, and gives how many they have; or
/// answers `None`.
#[inline(always)]
pub(crate) fn encode_each<T: SchemaWrite>(items: &[T::Src], dst: &mut [u8]) -> Option<usize>
    ensures { IfSome result (λ n. (n ≤ length dst.new) × IsEncoded (items_write T.writing) (map T.model items.now) (take n dst.new) × Each T.is_valid items.now) }
{
    if let TypeMeta::Static { size, .. } = T::type_meta() {
        let total = items.len().checked_mul(size)?;
        if total <= dst.len() && T::put_items(items, &mut dst[..total]) {
            return Some(total);
        }
        return None;
    }
    let (count, filled) = encode_first::<T>(items, dst);
    if count < items.len() {
        return None;
    }
    Some(filled)
}

/// Puts the length of a list, and then its items, over the front of the bytes, and gives how many they have; or answers
/// `None`.
#[inline]
pub fn encode_list<Len: SeqLen, T: SchemaWrite, const COUNT: usize>(
    items: &[T::Src],
    dst: &mut [u8],
) -> Option<usize>
    ensures { IfSome result (λ n. (n ≤ length dst.new) × IsEncoded (list_write Len.scheme COUNT T.writing) (map T.model items.now) (take n dst.new) × Each T.is_valid items.now) }
{
    let length = Len::encode(items.len(), dst)?;
    let behind = encode_each::<T>(items, &mut dst[length..])?;
    Some(length + behind)
}

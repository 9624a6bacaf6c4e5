//! Lists: items that are added to one, and a list that is read and written at once and item by item. Only the schemas of
//! the rows are asked, since each takes the compiler as long as many of the others.
use crate::answering::value_of;
use std::alloc::Global;
use std::test::Fail;
use testkit_schemas::rows::digits_of;
use testkit_schemas::single::Single;
use wincode::io::Lifetime;
use wincode::{ReadResult, RoundTrip, SchemaGet, SchemaRead, SchemaWrite};

/// The text of a list that is written by `write_items`.
fn text_of_items<T: SchemaWrite>(alloc: Global, list: &[T::Src]) -> Result<String, Fail> {
    let mut out = Vec::new(alloc);
    T::write_items(&mut out, list)?;
    digits_of(alloc, out.as_slice())
}

/// A list of the first value of the bytes, to which so many are added, and what then is left.
fn many_items<'a, T: RoundTrip<Lifetime<'a>>>(
    alloc: Global,
    bytes: &'a [u8],
    n: usize,
) -> Result<String, Fail>
where
    T::Src: Drop,
{
    let mut reader = bytes;
    let first = <T as SchemaGet<Lifetime<'a>>>::get(alloc, &mut reader)?;
    let mut list = Vec::new(alloc);
    list.push(first)?;
    let answer = T::read_items(alloc, &mut reader, n, &mut list);
    let text = text_of_items::<T>(alloc, list.as_slice())?;
    told(alloc, answer, reader.len(), text.as_str())
}

/// How reading items ended, how many bytes are left, and the text of the list.
fn told(alloc: Global, answer: ReadResult<()>, left: usize, text: &str) -> Result<String, Fail> {
    Ok(match answer {
        Ok(()) => format!(in alloc; "ok {left} {text}")?,
        Err(error) => format!(in alloc; "err {error:?} {left} {text}")?,
    })
}

/// The text of a list of so many items, each of as many bytes as the first byte says: they change from one to the
/// next.
pub fn spread_list(alloc: Global, n: usize, size: &[u8]) -> Result<Vec<u8>, Fail> {
    let size = *size.first().ok_or("a size")?;
    let mut text = Vec::from_slice(alloc, (n as u64).to_le_bytes().as_slice())?;
    let mut seed = 1u64;
    for _ in 0..n.saturating_mul(size as usize) {
        seed = seed.wrapping_mul(0x9E37_79B9_7F4A_7C15).wrapping_add(1);
        text.push((seed >> 56) as u8)?;
    }
    Ok(text)
}

/// Whether what is read by the one schema is written by the other as the text that it was read from.
fn is_rewritten<'a, R: RoundTrip<Lifetime<'a>>, W: SchemaWrite<Src = R::Src>>(
    alloc: Global,
    text: &'a [u8],
) -> Result<bool, Fail>
where
    R::Src: Drop,
{
    let value = value_of::<R>(alloc, text)?;
    let mut again = Vec::new(alloc);
    W::write(&mut again, &value)?;
    Ok(again.as_slice() == text)
}

/// Whether a list is read at once and item by item, and what was read the one way is written the other way as
/// the text that it was read from.
fn all_at_once<'a, T: RoundTrip<Lifetime<'a>>>(
    alloc: Global,
    text: &'a [u8],
) -> Result<String, Fail>
where
    T::Src: Drop,
{
    let one_by_one = is_rewritten::<Vec<T>, Vec<Single<T>>>(alloc, text)?;
    let together = is_rewritten::<Vec<Single<T>>, Vec<T>>(alloc, text)?;
    if one_by_one && together {
        Ok(format!(in alloc; "ok {}", text.len())?)
    } else {
        Ok(format!(in alloc; "unlike")?)
    }
}

/// What `many_items` answers of the schema of the name.
pub fn items(alloc: Global, name: &str, bytes: &[u8], n: usize) -> Result<String, Fail> {
    match name {
        "u8" => many_items::<u8>(alloc, bytes, n),
        "u16" => many_items::<u16>(alloc, bytes, n),
        "u64" => many_items::<u64>(alloc, bytes, n),
        "bool" => many_items::<bool>(alloc, bytes, n),
        _ => Err(Fail::from("a type")),
    }
}

/// What `all_at_once` answers of the schema of the name.
pub fn at_once(alloc: Global, name: &str, text: &[u8]) -> Result<String, Fail> {
    match name {
        "u8" => all_at_once::<u8>(alloc, text),
        "u16" => all_at_once::<u16>(alloc, text),
        "u32" => all_at_once::<u32>(alloc, text),
        "u64" => all_at_once::<u64>(alloc, text),
        "u128" => all_at_once::<u128>(alloc, text),
        "usize" => all_at_once::<usize>(alloc, text),
        "i8" => all_at_once::<i8>(alloc, text),
        "i16" => all_at_once::<i16>(alloc, text),
        "i32" => all_at_once::<i32>(alloc, text),
        "i64" => all_at_once::<i64>(alloc, text),
        "i128" => all_at_once::<i128>(alloc, text),
        "isize" => all_at_once::<isize>(alloc, text),
        _ => Err(Fail::from("a type")),
    }
}

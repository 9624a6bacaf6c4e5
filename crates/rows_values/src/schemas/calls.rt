//! The calls that most programs make, of types that are their own schema.
use std::alloc::Global;
use std::test::Fail;
use testkit_schemas::rows::digits_of;
use wincode::io::Lifetime;
use wincode::{RoundTrip, deserialize, serialize, serialize_into, serialized_size};

/// What the calls answer of the value in front of the bytes.
fn called<'a, T: RoundTrip<Lifetime<'a>, Src = T> + Drop>(
    alloc: Global,
    bytes: &'a [u8],
) -> Result<String, Fail> {
    let value = match deserialize::<&[u8], T>(alloc, bytes) {
        Ok(value) => value,
        Err(error) => return Ok(format!(in alloc; "err {error:?}")?),
    };
    let text = serialize(alloc, &value)?;
    let mut behind = vec![in alloc; 7u8]?;
    serialize_into(&mut behind, &value)?;
    let size = serialized_size(&value)?;
    if behind.as_slice().split_first() != Some((&7, text.as_slice())) {
        return Ok(format!(in alloc; "unlike")?);
    }
    let digits = digits_of(alloc, text.as_slice())?;
    Ok(format!(in alloc; "ok {size} {digits}")?)
}

/// So, of the type of the name.
pub fn answer(alloc: Global, name: &str, bytes: &[u8]) -> Result<String, Fail> {
    match name {
        "u16" => called::<u16>(alloc, bytes),
        "u64" => called::<u64>(alloc, bytes),
        "bool" => called::<bool>(alloc, bytes),
        "String" => called::<String>(alloc, bytes),
        "Vec<u8>" => called::<Vec<u8>>(alloc, bytes),
        "Vec<u64>" => called::<Vec<u64>>(alloc, bytes),
        "Vec<Vec<u64>>" => called::<Vec<Vec<u64>>>(alloc, bytes),
        "(Vec<u64>,bool)" => called::<(Vec<u64>, bool)>(alloc, bytes),
        "[u64;2]" => called::<[u64; 2]>(alloc, bytes),
        _ => Err(Fail::from("a type")),
    }
}

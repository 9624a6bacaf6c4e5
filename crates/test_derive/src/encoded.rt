//! What is tried of each schema, whatever it is of.
use std::alloc::Global;
use std::test::Fail;
use wincode::io::Lifetime;
use wincode::serde::{Deserialize, Serialize};
use wincode::{ReadError, SchemaRead, SchemaWrite};

/// Whether each front of the bytes that is not all of them is refused.
fn are_fronts_refused<'a, T: SchemaRead<Lifetime<'a>>>(alloc: Global, bytes: &'a [u8]) -> bool {
    for n in 0..bytes.len() {
        if <T as Deserialize<Lifetime<'a>>>::deserialize(alloc, &bytes[..n]).is_ok() {
            return false;
        }
    }
    true
}

/// Fails where the encoding that is read as `T` is written as other bytes, or a front of it is read too.
pub fn reads_as<'a, T: SchemaWrite + SchemaRead<Lifetime<'a>, Dst = T::Src>>(
    alloc: Global,
    bytes: &'a [u8],
) -> Result<(), Fail> {
    let value = <T as Deserialize<Lifetime<'a>>>::deserialize(alloc, bytes)?;
    let text = <T as Serialize>::serialize(alloc, &value)?;
    if text.as_slice() != bytes {
        return Err(Fail::from("what was read is written as other bytes"));
    }
    if !are_fronts_refused::<T>(alloc, bytes) {
        return Err(Fail::from("a front of the encoding is read"));
    }
    Ok(())
}

/// The same, and fails where the value isn't written as these bytes.
pub fn is_encoded<'a, T: SchemaWrite + SchemaRead<Lifetime<'a>, Dst = T::Src>>(
    alloc: Global,
    value: &T::Src,
    bytes: &'a [u8],
) -> Result<(), Fail> {
    let text = <T as Serialize>::serialize(alloc, value)?;
    if text.as_slice() != bytes || text.len() as u64 != <T as Serialize>::serialized_size(value)? {
        return Err(Fail::from("the value is written as other bytes"));
    }
    reads_as::<T>(alloc, bytes)
}

/// The encoding of a list of twice the value that these bytes encode.
pub fn twice(alloc: Global, bytes: &[u8]) -> Result<Vec<u8>, Fail> {
    let mut list = Vec::from_slice(alloc, [2u8, 0, 0, 0, 0, 0, 0, 0].as_slice())?;
    list.extend_from_slice(bytes)?;
    list.extend_from_slice(bytes)?;
    Ok(list)
}

/// Whether the tag in front of the bytes is refused, as that of no case.
pub fn is_no_tag<'a, T: SchemaRead<Lifetime<'a>>>(
    alloc: Global,
    bytes: &'a [u8],
    tag: usize,
) -> bool {
    match <T as Deserialize<Lifetime<'a>>>::deserialize(alloc, bytes) {
        Err(ReadError::InvalidTagEncoding(refused)) => refused == tag,
        _ => false,
    }
}

//! What values of one type are written as, and that they are read again.

use std::alloc::Global;
use std::test::Fail;
use wincode::io::Lifetime;
use wincode::{SchemaRead, SchemaWrite, deserialize, serialize};

/// Whether the value is written as these bytes, and they are read as it.
pub fn is_kept<'a, T: SchemaWrite<Src = T> + SchemaRead<Lifetime<'a>, Dst = T> + Drop + PartialEq>(
    alloc: Global,
    value: &T,
    due: &'a [u8],
) -> Result<bool, Fail> {
    let text = serialize(alloc, value)?;
    if text.as_slice() != due {
        return Ok(false);
    }
    let back = deserialize::<&'a [u8], T>(alloc, due)?;
    Ok(back == *value)
}

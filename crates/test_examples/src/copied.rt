//! What copying a value of a schema answers.
use std::alloc::Global;
use std::test::Fail;
use testkit_schemas::rows::outcome;
use wincode::io::Lifetime;
use wincode::{OneText, RoundTrip, copy_front};

/// What copying the value of a schema from the front of the bytes answers, and how many are left.
pub fn copied_as<'a, T: RoundTrip<Lifetime<'a>> + OneText<Lifetime<'a>>>(
    alloc: Global,
    bytes: &'a [u8],
) -> Result<String, Fail>
where
    T::Src: Drop,
{
    let mut reader = bytes;
    let text = copy_front::<Lifetime<'a>, &'a [u8], T>(alloc, &mut reader);
    let left = reader.len();
    outcome(alloc, text, left)
}

/// So of a list of items by the schema.
pub fn list_copied_as<'a, T: RoundTrip<Lifetime<'a>> + OneText<Lifetime<'a>>>(
    alloc: Global,
    bytes: &'a [u8],
) -> Result<String, Fail>
where
    T::Src: Drop,
{
    copied_as::<Vec<T>>(alloc, bytes)
}

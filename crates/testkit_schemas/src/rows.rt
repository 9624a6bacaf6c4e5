//! What tests of several crates share: bytes as digits of base 16, and outcomes as text.
use std::alloc::Global;
use std::test::Fail;
pub use testkit_io::digits::{bytes_of, digits_of};
use wincode::io::Lifetime;
use wincode::{Error, RoundTrip, rewrite};

/// What reading answered, as the table has it.
pub fn outcome(alloc: Global, text: wincode::Result<Vec<u8>>, left: usize) -> Result<String, Fail> {
    match text {
        Ok(text) => {
            let digits = digits_of(alloc, text.as_slice())?;
            Ok(format!(in alloc; "ok {left} {digits}")?)
        }
        Err(Error::ReadError(error)) => Ok(format!(in alloc; "err {error:?} {left}")?),
        Err(Error::WriteError(_)) => Err(Fail::from("unwritten")),
    }
}

/// What reading these bytes answers, and what is left of them: the encoding that the value has, or the error.
pub fn read_as<'a, T: RoundTrip<Lifetime<'a>>>(
    alloc: Global,
    bytes: &'a [u8],
) -> Result<String, Fail>
where
    T::Src: Drop,
{
    let mut reader = bytes;
    let text = rewrite::<Lifetime<'a>, &'a [u8], T>(alloc, &mut reader);
    let left = reader.len();
    outcome(alloc, text, left)
}

/// The error as text.
pub fn printed<E: std::error::Error>(alloc: Global, error: E) -> Result<String, Fail> {
    Ok(format!(in alloc; "{error}")?)
}

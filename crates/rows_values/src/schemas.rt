//! The schemas by their names. Each module passes on a name that it doesn't have.
pub mod calls;
mod lengths;
mod lists;
mod maps;
mod numbers;
mod parts;
mod scattered;
mod tagged;
mod tuples;
mod views;

use crate::asking::Asked;
use std::alloc::Global;
use std::test::Fail;

/// What the schema of the name answers.
pub fn answer(alloc: Global, asked: Asked, name: &str, bytes: &[u8]) -> Result<String, Fail> {
    numbers::answer(alloc, asked, name, bytes)
}

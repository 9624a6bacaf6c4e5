//! What somebody noted, with a field that has a schema of its own.
mod schemas;

use wincode::containers;
use wincode::len::ShortU16Len;

/// What somebody noted.
#[derive(Debug, Drop)]
pub struct Note {
    pub id: u64,
    pub text: String,
    // wincode: with = containers::Vec<u8, ShortU16Len>
    pub marks: Vec<u8>,
}

//! A message of the repository's own, whose schema `wincode_derive` wrote: a field of it has a schema of its choice.
mod schemas;

use wincode::containers;
use wincode::len::ShortU16Len;

/// A number with tags, which stand behind a short length, and perhaps a note.
#[derive(Debug, Drop)]
pub struct Message {
    pub id: u64,
    // wincode: with = containers::Vec<u8, ShortU16Len>
    pub tags: Vec<u8>,
    pub note: Option<String>,
}

//! What is signalled, by tags of its own choice in one byte.
mod schemas;

use crate::note::Note;
use wincode::containers;
use wincode::len::ShortU16Len;

/// What is signalled.
// wincode: tag_encoding = u8
#[derive(Debug, Drop)]
pub enum Signal {
    // wincode: tag = 5
    Start,
    // wincode: tag = 8
    Noted(Note),
    // wincode: tag = 13
    Moved(u32, i16),
    // wincode: tag = 21
    Named {
        name: String,
        // wincode: with = containers::Vec<u16, ShortU16Len>
        marks: Vec<u16>,
        at: u64,
    },
}

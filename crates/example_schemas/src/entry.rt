//! A struct whose schema `wincode_derive` wrote.
mod schemas;

/// A number with tags.
#[derive(Debug, Drop)]
pub struct Entry {
    pub id: u64,
    pub tags: Vec<u8>,
}

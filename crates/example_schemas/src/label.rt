//! A struct with a borrowed field, whose schema `wincode_derive` wrote: what it borrows is the reader's own bytes.
mod schemas;

/// A number with a name that stands in what was read.
#[derive(Debug, Clone, Copy, PartialEq)]
pub struct Label<'a> {
    pub number: u64,
    pub name: &'a str,
}

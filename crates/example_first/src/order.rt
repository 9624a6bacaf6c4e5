//! What the program keeps in a file; its schema stands in `schemas`, as `wincode_derive` wrote it.
mod schemas;

/// What somebody ordered.
#[derive(Debug, Drop, PartialEq)]
pub struct Order {
    pub id: u64,
    pub paid: bool,
    pub buyer: String,
    pub items: Vec<u32>,
}

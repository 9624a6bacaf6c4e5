//! An enum of two cases whose schema `wincode_derive` wrote: a tag of four bytes, 0 for the first case and 1 for the
//! second, and then what the case holds.
mod schemas;

/// What became of an account.
#[derive(Debug, Drop)]
pub enum Change {
    Closed(u64),
    Named(String),
}

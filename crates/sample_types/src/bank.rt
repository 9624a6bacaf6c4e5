//! An enum whose cases hold arrays, texts, options and nothing, in whatever order.
mod schemas;

/// What is asked of a bank.
#[derive(Debug, Drop)]
pub enum Request {
    Status,
    Open {
        lamports: u64,
        space: u64,
        owner: [u8; 32],
    },
    Sealed([u8; 32], u8),
    Named(String),
    Limited(Option<u64>),
    Close,
    Paid(u64, String),
    Ended,
}

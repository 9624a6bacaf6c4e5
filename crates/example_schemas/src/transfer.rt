//! Structs in structs, whose schemas `wincode_derive` wrote.
mod schemas;

/// A key, as the bytes that it is made of.
#[derive(Debug, Clone, Copy, PartialEq)]
pub struct Account(pub [u8; 32]);

/// An amount that goes from one key to another.
#[derive(Debug, Drop)]
pub struct Transfer {
    pub from: [u8; 32],
    pub to: [u8; 32],
    pub amount: u64,
    pub memo: Option<String>,
}

/// An amount to a key.
#[derive(Debug, Drop)]
pub struct Payment {
    pub to: Account,
    pub amount: u64,
}

/// What was paid in a day.
#[derive(Debug, Drop)]
pub struct Day {
    pub number: u32,
    pub paid: Vec<Payment>,
}

//! An enum of three cases with two schemas, which differ in their tags alone; and one of cases that hold nothing. A
//! schema that is none of the enum's own is declared as a type of its own, with the same cases.
mod schemas;

/// What happened.
#[derive(Debug, Drop)]
pub enum Event {
    Named { name: String, id: u64 },
    Blob(String, Vec<u8>),
    Empty,
}

/// An event with the tags 0, 1 and 2, in one byte. It counts what an event takes in memory: 8 bytes for its case and 24
/// for each field of a blob.
// wincode: from = Event
// wincode: tag_encoding = u8
// wincode: counts = 56
pub enum EventU8 {
    Named { name: String, id: u64 },
    Blob(String, Vec<u8>),
    Empty,
}

/// An event with the tags 5, 8 and 13, in four bytes, which counts the same.
// wincode: from = Event
// wincode: counts = 56
pub enum EventU32 {
    // wincode: tag = 5
    Named { name: String, id: u64 },
    // wincode: tag = 8
    Blob(String, Vec<u8>),
    // wincode: tag = 13
    Empty,
}

/// One of three.
#[derive(Debug, Clone, Copy, PartialEq)]
pub enum Mark {
    A,
    B,
    C,
}

/// A mark as its tag alone: 0, 1 or 2, in one byte.
// wincode: from = Mark
// wincode: tag_encoding = u8
pub enum MarkU8 {
    A,
    B,
    C,
}

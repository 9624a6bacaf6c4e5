//! Structs and enums of few parts.
mod schemas;

/// How far something goes, and from where.
#[derive(Debug, Clone, Copy, PartialEq, Eq)]
pub struct Span(pub u16, pub i64);

/// From one number to another.
#[derive(Debug, Clone, Copy, PartialEq, Eq, PartialOrd, Ord, Hash)]
pub struct Range {
    pub from: u32,
    pub to: u32,
}

/// That something is there.
#[derive(Debug, Clone, Copy, PartialEq, Eq)]
pub struct Marker;

/// A mark, which holds nothing.
// wincode: tag_encoding = u8
#[derive(Debug, Clone, Copy, PartialEq, Eq, PartialOrd, Ord, Hash)]
pub enum Mark {
    Plus,
    Minus,
    // wincode: tag = 9
    Other,
}

/// What has one case.
// wincode: tag_encoding = u64
#[derive(Debug, Clone, Copy, PartialEq)]
pub enum Only {
    Marked(Mark),
}

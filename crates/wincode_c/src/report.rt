//! What a call found.

/// What a call found of bytes, which it read by a type.
#[repr(C)]
#[derive(Debug, Clone, Copy, Drop)]
pub struct Report {
    /// How many bytes the value has; of a refusal, how many stand before the part that was refused: its offset.
    pub length: usize,
    /// How many parts these bytes are.
    pub parts: usize,
    /// How many bytes are behind them.
    pub behind: usize,
    /// How many bytes the reader took. Of a refusal it may have gone past the part that was refused.
    pub place: usize,
    /// The first number that the refusal's text has, or 0.
    pub first: usize,
    /// The second one, or 0.
    pub second: usize,
    /// Of a refusal, how many items deep the part that was refused is: of how many lists, sets, maps and arrays it stands in
    /// an item.
    pub depth: usize,
}

/// What a call put into the room for lines.
#[repr(C)]
#[derive(Debug, Clone, Copy, Drop)]
pub struct Page {
    /// How many bytes it put there.
    pub length: usize,
    /// How many lines these are.
    pub lines: usize,
    /// How many bytes of lines are behind them.
    pub behind: usize,
}

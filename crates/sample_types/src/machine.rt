//! What a machine does: thirteen cases, one of which owns memory. The schema's parts have six cases each: two are full, and
//! the last has one.
mod schemas;

/// What a machine does next.
// wincode: tag_encoding = u8
#[derive(Debug, Drop)]
pub enum Step {
    Nop,
    Halt,
    Load(u32),
    Store(u32),
    Push(u64),
    Pop,
    Add,
    Jump(u32),
    Call(u32),
    Return,
    Read,
    Write,
    Log(String),
}

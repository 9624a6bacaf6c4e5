//! An enum of many cases with a type parameter.
mod schemas;

/// What is answered.
#[derive(Debug, Drop)]
pub enum Answer<T> {
    Nothing,
    One(T),
    Late { tries: u32, last: Option<T> },
    Busy,
    Refused(String),
    Many(Vec<T>),
    Closed,
    Moved([u8; 4], u16),
    Ended,
}

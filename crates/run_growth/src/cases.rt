//! Calls that take memory, each with what it may answer, and calls that take none.
pub mod reading;
pub mod sinks;
pub mod streaming;
pub mod without;
pub mod writing;

/// What answered otherwise than it is said to.
#[derive(Debug, Drop)]
pub enum Unlike {
    Reading,
    Writing,
    Printing,
}

/// Whether memory was there.
#[derive(Clone, Copy, PartialEq)]
pub enum Ending {
    Ample,
    Refused,
}

impl Ending {
    /// Refused, where one of the two is.
    pub fn and(self, other: Ending) -> Ending {
        match self {
            Ending::Ample => other,
            Ending::Refused => Ending::Refused,
        }
    }
}

//! Why nothing is written.
use std::alloc::{AllocError, AllocFailed, Global};
use thiserror::Error;
use wincode_derive_text::{DeriveError, DeriveResult, shown};

/// Why nothing is written, or what stands there isn't what would be.
#[derive(Debug, Drop, Error)]
pub enum Failure {
    #[error("wincode_derive: {0}; `wincode_derive --help` says what there is\n")]
    Usage(String),
    /// What is wrong with the declarations, a line each with those that show where.
    #[error("{0}")]
    Refused(String),
    /// What would be written otherwise, a line each.
    #[error("{0}")]
    Different(String),
    #[error("wincode_derive: {0} can't be read\n")]
    Unread(String),
    #[error("wincode_derive: {0} can't be written\n")]
    Unwritten(String),
    #[error("wincode_derive: out of memory\n")]
    OutOfMemory,
}

pub type Outcome<T> = Result<T, Failure>;

impl From<AllocError> for Failure {
    fn from(_refused: AllocError) -> Failure {
        Failure::OutOfMemory
    }
}

impl<T: Drop> From<AllocFailed<T>> for Failure {
    fn from(_refused: AllocFailed<T>) -> Failure {
        Failure::OutOfMemory
    }
}

impl Failure {
    /// Wrong arguments.
    pub fn usage(what: String) -> Failure {
        Failure::Usage(what)
    }

    /// The status with which the program ends.
    pub fn status(&self) -> u8 {
        match self {
            Failure::Usage(_) | Failure::Unread(_) => 2,
            _ => 1,
        }
    }
}

/// An answer, where what is wrong with the declarations of a file is shown in its lines.
pub fn told<T: Drop>(
    alloc: Global,
    (file, source): (&str, &str),
    answer: DeriveResult<T>,
) -> Outcome<T> {
    match answer {
        Ok(answer) => Ok(answer),
        Err(DeriveError::OutOfMemory) => Err(Failure::OutOfMemory),
        Err(error) => match shown(alloc, file, source, &error) {
            Ok(text) => Err(Failure::Refused(text)),
            Err(_) => Err(Failure::OutOfMemory),
        },
    }
}

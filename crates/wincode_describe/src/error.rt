//! Why a text describes no type.
ghost use Rattle.std.specs.Prelude.{◌≡◌};
ghost use Rattle.wincode_describe.specs.declared.error.DescribeError.TheVariants.{OutOfMemory};

use std::alloc::{AllocError, AllocFailed};
use thiserror::Error;
use wincode_derive_text::DeriveError;

/// Why a text describes no type.
#[derive(Debug, Drop, Error)]
pub enum DescribeError {
    /// Something else is wanted at this byte of the text.
    #[error("{what} is wanted at byte {at}")]
    Wanted { what: &'static str, at: usize },
    /// The type at this byte is too deep.
    #[error("the type at byte {at} is more than 128 levels deep")]
    TooDeep { at: usize },
    /// A field or a case of a declared type has a type that can't be described.
    #[error("`{0}` describes no type")]
    Undescribed(String),
    /// A declaration can't be read.
    #[error(transparent)]
    Declaration(DeriveError),
    /// A growth for the type was refused.
    #[error("out of memory")]
    OutOfMemory,
}

pub type DescribeResult<T> = Result<T, DescribeError>;

impl From<AllocError> for DescribeError {
    ghost from_gives = { λ refused made. made ≡ OutOfMemory };

    fn from(_refused: AllocError) -> DescribeError {
        DescribeError::OutOfMemory
    }
}

impl From<DeriveError> for DescribeError {
    fn from(error: DeriveError) -> DescribeError {
        match error {
            DeriveError::OutOfMemory => DescribeError::OutOfMemory,
            error => DescribeError::Declaration(error),
        }
    }
}

impl<T: Drop> From<AllocFailed<T>> for DescribeError {
    ghost from_gives = { λ refused made. made ≡ OutOfMemory };

    fn from(_refused: AllocFailed<T>) -> DescribeError {
        DescribeError::OutOfMemory
    }
}

/// Something else is wanted there.
pub(crate) fn wanted(what: &'static str, at: usize) -> DescribeError {
    DescribeError::Wanted { what, at }
}

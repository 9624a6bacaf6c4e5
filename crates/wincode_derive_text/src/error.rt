//! What is wrong with declarations, and where.
ghost use Rattle.std.specs.Prelude.{◌≡◌};
ghost use Rattle.wincode_derive_text.specs.declared.error.DeriveError.TheVariants.{OutOfMemory};

use std::alloc::{AllocError, AllocFailed, Global};
use std::fmt::{self, Display, Formatter, Write};
use thiserror::Error;

/// Where something begins in a source file: its line, and its column in characters, both counted from 1.
#[derive(Debug, Clone, Copy, PartialEq)]
pub struct Spot {
    pub line: usize,
    pub column: usize,
}

impl Spot {
    /// Whether it stands in front of the other.
    pub fn is_before(&self, other: &Spot) -> bool {
        self.line < other.line || (self.line == other.line && self.column < other.column)
    }
}

/// What can't be read or has no schema, and where it stands.
#[derive(Debug, Drop)]
pub struct Fault {
    pub spot: Spot,
    pub message: String,
}

/// What is wrong with a source file, in the order of the file: a line each, `LINE:COLUMN: MESSAGE`.
#[derive(Debug, Drop)]
pub struct Faults {
    pub all: Vec<Fault>,
}

impl Display for Faults {
    fn fmt<W: Write>(&self, f: &mut Formatter<W>) -> fmt::Result {
        for (i, fault) in self.all.iter().enumerate() {
            if i > 0 {
                f.write_str("\n")?;
            }
            let Spot { line, column } = fault.spot;
            let message = fault.message.as_str();
            write!(f, "{line}:{column}: {message}")?;
        }
        Ok(())
    }
}

/// Why no schemas are written.
#[derive(Debug, Drop, Error)]
pub enum DeriveError {
    /// What stands in the file can't be read, or has no schema.
    #[error("{0}")]
    Refused(Faults),
    /// A declaration whose schema can't be written, by the line of its keyword.
    #[error("{line}:1: no schema for {what}")]
    Unsupported { line: usize, what: &'static str },
    /// A type that was asked for and isn't declared.
    #[error("no struct or enum `{0}` is declared outside of functions and modules")]
    Undeclared(String),
    /// Nothing is declared of which a schema could be written.
    #[error("no struct and no enum is declared outside of functions and modules")]
    Empty,
    #[error("out of memory")]
    OutOfMemory,
}

pub type DeriveResult<T> = Result<T, DeriveError>;

impl From<AllocError> for DeriveError {
    ghost from_gives = { λ refused made. made ≡ OutOfMemory };

    fn from(_refused: AllocError) -> DeriveError {
        DeriveError::OutOfMemory
    }
}

impl<T: Drop> From<AllocFailed<T>> for DeriveError {
    ghost from_gives = { λ refused made. made ≡ OutOfMemory };

    fn from(_refused: AllocFailed<T>) -> DeriveError {
        DeriveError::OutOfMemory
    }
}

/// What stands there is refused.
pub fn refused(alloc: Global, spot: Spot, message: String) -> DeriveError {
    let mut all = Vec::new(alloc);
    match all.push(Fault { spot, message }) {
        Ok(()) => DeriveError::Refused(Faults { all }),
        Err(_) => DeriveError::OutOfMemory,
    }
}

/// As `refused`, of a message that names nothing.
pub fn refused_as(alloc: Global, spot: Spot, message: &str) -> DeriveError {
    match String::from_str(alloc, message) {
        Ok(message) => refused(alloc, spot, message),
        Err(_) => DeriveError::OutOfMemory,
    }
}

/// What is declared on this line has no schema.
pub fn unsupported(line: usize, what: &'static str) -> DeriveError {
    DeriveError::Unsupported { line, what }
}

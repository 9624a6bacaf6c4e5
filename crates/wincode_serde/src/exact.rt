//! The value of exactly some bytes.
ghost use Rattle.std.specs.Prelude.{◌≡◌};
ghost use Rattle.wincode_serde.specs.declared.exact.ExactError.TheVariants.{Read};

use thiserror::Error;
use wincode_base::error::ReadError;

/// Why bytes are not exactly one value.
#[derive(Debug, Drop, Error)]
pub enum ExactError {
    /// No value stands in front of them: what `deserialize` answers.
    #[error(transparent)]
    Read(ReadError),
    /// So many of them, at least one, stand behind the value in front.
    #[error("{0} bytes are left behind the value")]
    Behind(usize),
}

impl From<ReadError> for ExactError {
    ghost from_gives = { λ error made. made ≡ Read error };

    fn from(error: ReadError) -> ExactError {
        ExactError::Read(error)
    }
}

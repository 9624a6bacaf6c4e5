//! The numbers of refusals.
ghost use Rattle.std.specs.Prelude.{◌≡◌, pos};
ghost use Rattle.wincode_c.specs.Refusals.{number_of, first_of, second_of};

use wincode_base::error::ReadError;
use wincode_io::ReadError as ReaderError;

/// What the short scheme's greatest number is called in a refusal; the other scheme's is `usize::MAX`.
const U16_MAX: &str = "u16::MAX";

/// The number of a refusal.
pub(crate) fn number_of(error: &ReadError) -> i32
    ensures { result ≡ pos (number_of error.now) }
{
    match error {
        ReadError::Io(ReaderError::ReadSizeLimit(_)) => 1,
        ReadError::Io(ReaderError::UnsupportedZeroCopy) => 2,
        ReadError::Io(ReaderError::Io(_)) => 3,
        ReadError::Io(ReaderError::OutOfMemory) => 4,
        ReadError::InvalidUtf8Encoding(_) => 5,
        ReadError::PointerSizedReadError => 6,
        ReadError::PreallocationSizeLimit { .. } => 7,
        ReadError::InvalidTagEncoding(_) => 8,
        ReadError::InvalidBoolEncoding(_) => 9,
        ReadError::LengthEncodingOverflow(most) => {
            if most.len() == U16_MAX.len() { 16 } else { 10 }
        }
        ReadError::InvalidCharLead(_) => 11,
        ReadError::Custom(_) => 12,
        ReadError::UnalignedPointerRead => 13,
        ReadError::OutOfMemory => 14,
    }
}

/// The numbers that the refusal's text has.
pub(crate) fn numbers_of(error: &ReadError) -> (usize, usize)
    ensures { result ≡ (first_of error.now, second_of error.now) }
{
    match error {
        ReadError::Io(ReaderError::ReadSizeLimit(wanted)) => (*wanted, 0),
        ReadError::InvalidUtf8Encoding(error) => {
            (error.valid_up_to(), error.error_len().unwrap_or(0))
        }
        ReadError::PreallocationSizeLimit { needed, limit } => (*needed, *limit),
        ReadError::InvalidTagEncoding(tag) => (*tag, 0),
        ReadError::InvalidBoolEncoding(byte) => (*byte as usize, 0),
        ReadError::InvalidCharLead(byte) => (*byte as usize, 0),
        _ => (0, 0),
    }
}

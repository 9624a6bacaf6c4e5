//! Why reading or writing a value is refused.
ghost use Rattle.std.specs.Prelude.{◌≡◌};
ghost use Rattle.wincode_base.specs.declared.error.Error.TheVariants.{WriteError as EitherWrite, ReadError as EitherRead};
ghost use Rattle.wincode_base.specs.declared.error.ReadError.TheVariants.{Io as ReadIo, InvalidUtf8Encoding as ReadUtf8, OutOfMemory as ReadMemory};
ghost use Rattle.wincode_base.specs.declared.error.WriteError.TheVariants.{Io as WriteIo, InvalidUtf8Encoding as WriteUtf8, OutOfMemory as WriteMemory};

use std::alloc::{AllocError, AllocFailed};
use std::str::Utf8Error;
use thiserror::Error;
use wincode_io as io;

/// Either of the two errors.
#[derive(Debug, Drop, Error)]
pub enum Error {
    #[error(transparent)]
    WriteError(WriteError),
    #[error(transparent)]
    ReadError(ReadError),
}

pub type Result<T> = std::result::Result<T, Error>;

impl From<WriteError> for Error {
    ghost from_gives = { λ error made. made ≡ EitherWrite error };

    fn from(error: WriteError) -> Error {
        Error::WriteError(error)
    }
}

impl From<ReadError> for Error {
    ghost from_gives = { λ error made. made ≡ EitherRead error };

    fn from(error: ReadError) -> Error {
        Error::ReadError(error)
    }
}

/// Memory that one of std's collections was refused. So one `?` serves for them and for this crate.
impl From<AllocError> for Error {
    ghost from_gives = { λ refused made. made ≡ EitherWrite WriteMemory };

    fn from(_refused: AllocError) -> Error {
        Error::WriteError(WriteError::OutOfMemory)
    }
}

impl<T: Drop> From<AllocFailed<T>> for Error {
    ghost from_gives = { λ refused made. made ≡ EitherWrite WriteMemory };

    fn from(_refused: AllocFailed<T>) -> Error {
        Error::WriteError(WriteError::OutOfMemory)
    }
}

/// Why a value is not read.
#[derive(Debug, Drop, Error)]
pub enum ReadError {
    /// The reader refused: too few bytes, a borrow that it does not lend, its memory or its device.
    #[error(transparent)]
    Io(io::ReadError),
    /// Bytes of text that are not UTF-8.
    #[error(transparent)]
    InvalidUtf8Encoding(Utf8Error),
    /// For schemas of the caller's whose number does not fit a pointer.
    #[error("Could not cast integer type to pointer sized type")]
    PointerSizedReadError,
    /// A length times the number that its items count is over the limit, both in bytes.
    #[error("Encoded sequence length exceeded preallocation limit of {limit} bytes (needed {needed} bytes)")]
    PreallocationSizeLimit { needed: usize, limit: usize },
    /// A tag that names no case.
    #[error("Invalid tag encoding: {0}")]
    InvalidTagEncoding(usize),
    /// A byte for a `bool` that is neither 0 nor 1.
    #[error("Invalid bool encoding: {0}")]
    InvalidBoolEncoding(u8),
    /// A length past what its scheme writes, or a size in bytes past `usize::MAX`.
    #[error("Sequence length would overflow length encoding scheme: {0}")]
    LengthEncodingOverflow(&'static str),
    /// A first byte that no `char` has.
    #[error("Invalid char lead: {0}")]
    InvalidCharLead(u8),
    /// A refusal of a schema of the caller's.
    #[error("Custom error: {0}")]
    Custom(&'static str),
    /// For schemas of the caller's that cast bytes.
    #[error("Zero-copy read would be unaligned")]
    UnalignedPointerRead,
    /// A growth for the value was refused.
    #[error("Out of memory")]
    OutOfMemory,
}

pub type ReadResult<T> = std::result::Result<T, ReadError>;

impl From<io::ReadError> for ReadError {
    ghost from_gives = { λ error made. made ≡ ReadIo error };

    fn from(error: io::ReadError) -> ReadError {
        ReadError::Io(error)
    }
}

impl From<Utf8Error> for ReadError {
    ghost from_gives = { λ error made. made ≡ ReadUtf8 error };

    fn from(error: Utf8Error) -> ReadError {
        ReadError::InvalidUtf8Encoding(error)
    }
}

/// Memory that one of std's collections was refused. So one `?` serves for them and for this crate.
impl From<AllocError> for ReadError {
    ghost from_gives = { λ refused made. made ≡ ReadMemory };

    fn from(_refused: AllocError) -> ReadError {
        ReadError::OutOfMemory
    }
}

impl<T: Drop> From<AllocFailed<T>> for ReadError {
    ghost from_gives = { λ refused made. made ≡ ReadMemory };

    fn from(_refused: AllocFailed<T>) -> ReadError {
        ReadError::OutOfMemory
    }
}

/// Why a value is not written.
#[derive(Debug, Drop, Error)]
pub enum WriteError {
    /// The writer refused: too little room, its memory or its device.
    #[error(transparent)]
    Io(io::WriteError),
    /// For schemas of the caller's that write text.
    #[error(transparent)]
    InvalidUtf8Encoding(Utf8Error),
    /// A length that its scheme does not write, or a size in bytes past `usize::MAX`.
    #[error("Sequence length would overflow length encoding scheme: {0}")]
    LengthEncodingOverflow(&'static str),
    /// A refusal of a schema of the caller's.
    #[error("Custom error: {0}")]
    Custom(&'static str),
    /// A growth for the text was refused.
    #[error("Out of memory")]
    OutOfMemory,
}

pub type WriteResult<T> = std::result::Result<T, WriteError>;

impl From<io::WriteError> for WriteError {
    ghost from_gives = { λ error made. made ≡ WriteIo error };

    fn from(error: io::WriteError) -> WriteError {
        WriteError::Io(error)
    }
}

impl From<Utf8Error> for WriteError {
    ghost from_gives = { λ error made. made ≡ WriteUtf8 error };

    fn from(error: Utf8Error) -> WriteError {
        WriteError::InvalidUtf8Encoding(error)
    }
}

/// Memory that one of std's collections was refused. So one `?` serves for them and for this crate.
impl From<AllocError> for WriteError {
    ghost from_gives = { λ refused made. made ≡ WriteMemory };

    fn from(_refused: AllocError) -> WriteError {
        WriteError::OutOfMemory
    }
}

impl<T: Drop> From<AllocFailed<T>> for WriteError {
    ghost from_gives = { λ refused made. made ≡ WriteMemory };

    fn from(_refused: AllocFailed<T>) -> WriteError {
        WriteError::OutOfMemory
    }
}

/// A cast of bytes at the wrong alignment.
#[cold]
pub fn unaligned_pointer_read() -> ReadError
    ensures { result ≡ ReadError.UnalignedPointerRead }
{
    ReadError::UnalignedPointerRead
}

/// A list that would need `needed` bytes where `limit` are admitted.
#[cold]
pub fn preallocation_size_limit(needed: usize, limit: usize) -> ReadError
    ensures { result ≡ ReadError.PreallocationSizeLimit needed limit }
{
    ReadError::PreallocationSizeLimit { needed, limit }
}

/// A length to read past `max_length`.
#[cold]
pub fn read_length_encoding_overflow(max_length: &'static str) -> ReadError
    ensures { result ≡ ReadError.LengthEncodingOverflow max_length.entry }
{
    ReadError::LengthEncodingOverflow(max_length)
}

/// A length to write past `max_length`.
#[cold]
pub fn write_length_encoding_overflow(max_length: &'static str) -> WriteError
    ensures { result ≡ WriteError.LengthEncodingOverflow max_length.entry }
{
    WriteError::LengthEncodingOverflow(max_length)
}

/// A number that does not fit a pointer.
#[cold]
pub fn pointer_sized_decode_error() -> ReadError
    ensures { result ≡ ReadError.PointerSizedReadError }
{
    ReadError::PointerSizedReadError
}

/// A byte that is no `bool`.
#[cold]
pub fn invalid_bool_encoding(byte: u8) -> ReadError
    ensures { result ≡ ReadError.InvalidBoolEncoding byte }
{
    ReadError::InvalidBoolEncoding(byte)
}

/// A tag that names no case.
#[cold]
pub fn invalid_tag_encoding(tag: usize) -> ReadError
    ensures { result ≡ ReadError.InvalidTagEncoding tag }
{
    ReadError::InvalidTagEncoding(tag)
}

/// Bytes that are not UTF-8.
#[cold]
pub fn invalid_utf8_encoding(error: Utf8Error) -> ReadError
    ensures { result ≡ ReadError.InvalidUtf8Encoding error }
{
    ReadError::InvalidUtf8Encoding(error)
}

/// A first byte that no `char` has.
#[cold]
pub fn invalid_char_lead(val: u8) -> ReadError
    ensures { result ≡ ReadError.InvalidCharLead val }
{
    ReadError::InvalidCharLead(val)
}

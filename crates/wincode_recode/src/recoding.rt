//! Recoding: a value read from bytes and written again.
ghost use Rattle.std.specs.Prelude.{◌≡◌, IfOk, IfErr, IsTrue, MatchOption};
ghost use Rattle.wincode_recode.specs.Recoding.{Reread, RereadRefused, IsRecodedAs, IsKept, RecodeAsRefused, RecodeInputRefused, IsRecoded, RecodeRefused, status_of};
ghost use Rattle.wincode_recode.specs.Shapes.{IsKnown, word_of};

use std::alloc::Global;
use std::collections::BTreeMap;
use std::io;
use thiserror::Error;
use wincode::io::Input;
use wincode::len::ShortU16Len;
use wincode::serde::{Deserialize, Serialize};
use wincode::{ReadError, RoundTrip, WriteError, containers};

/// Why a value is not recoded. But for `Output`, nothing was written, unless it was written as it was read.
#[derive(Debug, Drop, Error)]
pub enum RelayError {
    /// The shape's word is not known; nothing was read.
    #[error("unknown shape")]
    UnknownShape,
    /// Reading the input failed.
    #[error(transparent)]
    Input(io::Error),
    /// No front of the input is an encoding of the shape, or memory for its value was refused.
    #[error(transparent)]
    Read(ReadError),
    /// Memory for what is to be written was refused, or it is more than the writer counts.
    #[error(transparent)]
    Write(WriteError),
    /// Writing the output failed; a part of the encoding may have gone out.
    #[error(transparent)]
    Output(io::Error),
    /// Memory for the input was refused.
    #[error("Out of memory")]
    OutOfMemory,
}

impl RelayError {
    /// The status with which the program ends: 2 for an unknown shape, else 1.
    pub fn status(&self) -> u8
        ensures { result ≡ status_of self.now }
    {
        match self {
            RelayError::UnknownShape => 2,
            _ => 1,
        }
    }
}

/// The shapes that are known, each of which names a schema.
#[derive(Clone, Copy)]
pub enum KnownShape {
    Nested,
    Text,
    Short,
    Record,
    Pairs,
}

impl KnownShape {
    /// The shape that the word names, if it names one.
    pub fn of(word: &str) -> Option<KnownShape>
        ensures { MatchOption result (IsKnown word.now → ⊥) (λ shape. word.now ≡ word_of shape) }
    {
        match word {
            "nested" => Some(KnownShape::Nested),
            "text" => Some(KnownShape::Text),
            "short" => Some(KnownShape::Short),
            "record" => Some(KnownShape::Record),
            "pairs" => Some(KnownShape::Pairs),
            _ => None,
        }
    }
}

/// Reads one value by the schema from the front of the bytes, and forms its encoding again.
fn recode_by<I: Input, T: RoundTrip<I::Lends>>(
    alloc: Global,
    bytes: I,
) -> Result<Vec<u8>, RelayError>
where
    T::Src: Drop,
    ensures ok { IfOk result (λ text. IsTrue (I.begins bytes).is_known
        → Reread T.SchemaRead.model T.SchemaRead.reading T.SchemaWrite.model T.SchemaWrite.writing (I.begins bytes).rest text.items) }
    ensures err { IfErr result (RereadRefused T.SchemaRead.model T.SchemaRead.reading T.SchemaWrite.model T.SchemaWrite.writing (I.begins bytes)) }
{
    let value = match <T as Deserialize<I::Lends>>::deserialize::<I>(alloc, bytes) {
        Ok(value) => value,
        Err(error) => return Err(RelayError::Read(error)),
    };
    match <T as Serialize>::serialize(alloc, &value) {
        Ok(text) => Ok(text),
        Err(error) => Err(RelayError::Write(error)),
    }
}

/// Reads one value of the shape from the front of the input, and forms its encoding again. What follows the
/// value is never looked at.
pub fn recode_input<I: Input>(
    alloc: Global,
    shape: KnownShape,
    input: I,
) -> Result<Vec<u8>, RelayError>
    ensures ok { IfOk result (λ text. IsTrue (I.begins input).is_known → IsRecodedAs shape (I.begins input).rest text.items) }
    ensures kept { IfOk result (λ text. IsTrue (I.begins input).is_known → IsKept shape (I.begins input).rest text.items) }
    ensures err { IfErr result (RecodeInputRefused shape (I.begins input)) }
{
    match shape {
        KnownShape::Nested => recode_by::<I, Vec<Vec<u64>>>(alloc, input),
        KnownShape::Text => recode_by::<I, String>(alloc, input),
        KnownShape::Short => recode_by::<I, containers::Vec<u8, ShortU16Len>>(alloc, input),
        KnownShape::Record => recode_by::<I, (u64, bool, [u8; 32])>(alloc, input),
        KnownShape::Pairs => recode_by::<I, BTreeMap<u8, u8>>(alloc, input),
    }
}

/// As `recode_input`, of bytes in memory.
pub fn recode_as(alloc: Global, shape: KnownShape, bytes: &[u8]) -> Result<Vec<u8>, RelayError>
    ensures ok { IfOk result (λ text. IsRecodedAs shape bytes.now text.items) }
    ensures kept { IfOk result (λ text. IsKept shape bytes.now text.items) }
    ensures err { IfErr result (RecodeAsRefused shape bytes.now) }
{
    recode_input::<&[u8]>(alloc, shape, bytes)
}

/// Reads one value of the shape that the word names from the front of the bytes, and forms its encoding again.
/// What follows the value is never looked at.
pub fn recode(alloc: Global, shape: &str, bytes: &[u8]) -> Result<Vec<u8>, RelayError>
    ensures ok { IfOk result (λ text. IsRecoded shape.now bytes.now text.items) }
    ensures err { IfErr result (RecodeRefused shape.now bytes.now) }
{
    match KnownShape::of(shape) {
        Some(known) => recode_as(alloc, known, bytes),
        None => Err(RelayError::UnknownShape),
    }
}

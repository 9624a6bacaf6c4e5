//! What a schema keeps beyond reading and writing.
ghost use Rattle.std.specs.Prelude.{◌≡◌};
ghost use Rattle.wincode_base.specs.Grammar.{ReadsBack};
ghost use Rattle.wincode.specs.OneText.{IsOneText};

mod numbers;
mod one_text;
mod owned;
mod round_trip;
mod std_types;
mod texts;
mod tuples;

use crate::io::Lending;
use crate::schema::{SchemaRead, SchemaWrite};

/// Each value has one encoding: two encodings that read as one value are the same. So of two encodings the values are
/// equal exactly where the encodings are. Maps, sets and heaps take their items in any order, so they don't have it; nor do
/// `f32` and `f64`, since every pattern of a NaN reads as the one value that a NaN is, nor `Duration` and `SystemTime`, since
/// nanoseconds past a second carry over.
pub trait OneText<L: Lending>: SchemaRead<L> {
    ghost one_text: { IsOneText Self.reading };
}

/// Reading asks for no borrow, so every reader serves it.
pub trait SchemaReadOwned<L: Lending>: SchemaRead<L> {
    ghost owned: { Self.reading.borrow ≡ 0 };
}

/// What is written reads back: an encoding of a value whose lengths are within their limits reads as it.
pub trait RoundTrip<L: Lending>: SchemaWrite + SchemaRead<L, Dst = Self::Src> {
    ghost reads_back: { ReadsBack Self.SchemaWrite.is_valid Self.SchemaWrite.model Self.SchemaWrite.writing Self.SchemaRead.model Self.SchemaRead.reading };
}

//! The calls that most programs make, as methods of every schema.
ghost use Rattle.wincode_base.specs.Outcomes.{GetOutcome, ReadOutcome};

use crate::io::{Lending, Reader};
use crate::markers::SchemaReadOwned;
use crate::schema::{SchemaGet, SchemaRead};
use std::alloc::Global;
use wincode_base::error::ReadResult;
pub use wincode_serde::serde::{Deserialize, Serialize};

/// A value from a reader, for every schema that asks for no borrow.
pub trait DeserializeOwned<L: Lending>: SchemaReadOwned<L> {
    /// The value in front of what the reader has, of which exactly the rest is left. It is refused as
    /// `get` is, and never for a borrow.
    fn deserialize_from<R: Reader<L>>(alloc: Global, reader: &mut R) -> ReadResult<Self::Dst>
        ensures { GetOutcome (record Self.SchemaRead.reading { borrow = 0 }) Self.SchemaRead.model (R.state reader.old) (R.state reader.new) result };

    /// As `deserialize_from`, and puts the value into the destination. Refused, the destination is as it
    /// was.
    fn deserialize_from_into<R: Reader<L>>(
        alloc: Global,
        reader: &mut R,
        dst: &mut Option<Self::Dst>,
    ) -> ReadResult<()>
        ensures { ReadOutcome (record Self.SchemaRead.reading { borrow = 0 }) Self.SchemaRead.model (R.state reader.old) (R.state reader.new) dst.old dst.new result };
}

impl<L: Lending, T: SchemaReadOwned<L>> DeserializeOwned<L> for T {
    fn deserialize_from<R: Reader<L>>(alloc: Global, reader: &mut R) -> ReadResult<T::Dst> {
        T::get(alloc, reader)
    }

    fn deserialize_from_into<R: Reader<L>>(
        alloc: Global,
        reader: &mut R,
        dst: &mut Option<T::Dst>,
    ) -> ReadResult<()> {
        T::read(alloc, reader, dst)
    }
}

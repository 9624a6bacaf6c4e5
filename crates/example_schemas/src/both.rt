//! The same bytes read by two readers.
ghost use Rattle.std.specs.Prelude.{◌≡◌, ℕ, ◌^◌, ◌<◌, length, IfOk, IfErr, IsTrue};
ghost use Rattle.example_schemas.specs.Fronts.{Agree, IsExcused};

use std::alloc::Global;
use wincode::io::{Lending, Reader};
use wincode::{ReadResult, SchemaReadOwned, deserialize_from};

/// What two readers answered.
#[derive(Drop)]
pub struct Both<T> {
    pub first: ReadResult<T>,
    pub second: ReadResult<T>,
}

/// Reads a value from two readers that have the same bytes, as a slice and a reader of a source have them, in
/// whatever pieces they come. Where both give a value it is the same, and the same bytes are left. Where one
/// alone gives a value, the other was refused for memory or by its device.
pub fn read_both<L: Lending, R: Reader<L>, Q: Reader<L>, T: SchemaReadOwned<L, Dst = T>>(
    alloc: Global,
    one: &mut R,
    other: &mut Q,
) -> Both<T>
    requires is_known { IsTrue (R.state one.old).is_known × IsTrue (Q.state other.old).is_known }
    requires same { (R.state one.old).rest ≡ (Q.state other.old).rest }
    requires fits { length (R.state one.old).rest < 2 ^ 64 }
    ensures agree { IfOk result.first (λ v. IfOk result.second (λ w. Agree T.SchemaRead.model v w (R.state one.new).rest (Q.state other.new).rest)) }
    ensures second { IfOk result.first (λ v. IfErr result.second (IsExcused T.SchemaRead.reading.takes_no_memory (Q.state other.new))) }
    ensures first { IfOk result.second (λ w. IfErr result.first (IsExcused T.SchemaRead.reading.takes_no_memory (R.state one.new))) }
{
    let first = deserialize_from::<L, R, T>(alloc, one);
    let second = deserialize_from::<L, Q, T>(alloc, other);
    Both { first, second }
}

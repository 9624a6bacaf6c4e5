//! Calls for every schema that reads what it writes: a value is read, and written again.
ghost use Rattle.std.specs.Prelude.{◌≡◌, ◌++◌, IfOk, IfErr, IsTrue};
ghost use Rattle.wincode.specs.Rewriting.{Rewritten, IsNotRewritten};

use crate::io::{Lending, Reader};
use crate::markers::OneText;
use crate::schema::{RoundTrip, SchemaGet};
use std::alloc::Global;
use wincode_base::error::Result;

/// Reads a value from the front of what the reader has, and gives an encoding of it: what is written reads
/// as what was read. Refused by `ReadError`, it is as `get`; by `WriteError`, the value was read, and there is
/// no memory for its encoding, or more than `usize::MAX` bytes of it.
pub fn rewrite<L: Lending, R: Reader<L>, T: RoundTrip<L>>(
    alloc: Global,
    reader: &mut R,
) -> Result<Vec<u8>>
where
    T::Src: Drop,
    ensures ok { IfOk result (λ text. IsTrue (R.state reader.old).is_known → Rewritten T.SchemaRead.model T.SchemaRead.reading.reads (R.state reader.old) (R.state reader.new) text.items) }
    ensures err { IfErr result (IsNotRewritten T.SchemaRead.model T.SchemaRead.reading T.SchemaWrite.model T.SchemaWrite.writing (R.state reader.old) (R.state reader.new)) }
{
    let value = T::get(alloc, reader)?;
    let mut text = Vec::new(alloc);
    T::write(&mut text, &value)?;
    Ok(text)
}

/// Reads one value from the front of what the reader has, and gives its encoding, which is exactly the bytes that
/// were read. It is refused as `rewrite` is.
pub fn copy_front<L: Lending, R: Reader<L>, T: RoundTrip<L> + OneText<L>>(
    alloc: Global,
    reader: &mut R,
) -> Result<Vec<u8>>
where
    T::Src: Drop,
    ensures ok { IfOk result (λ text. IsTrue (R.state reader.old).is_known → (R.state reader.old).rest ≡ text.items ++ (R.state reader.new).rest) }
    ensures value { IfOk result (λ text. IsTrue (R.state reader.old).is_known → Rewritten T.SchemaRead.model T.SchemaRead.reading.reads (R.state reader.old) (R.state reader.new) text.items) }
    ensures err { IfErr result (IsNotRewritten T.SchemaRead.model T.SchemaRead.reading T.SchemaWrite.model T.SchemaWrite.writing (R.state reader.old) (R.state reader.new)) }
{
    rewrite::<L, R, T>(alloc, reader)
}

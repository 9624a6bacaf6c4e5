//! Passing values on: each is read from a reader and written to a writer before the next is read.
ghost use Rattle.std.specs.Prelude.{◌≡◌, map, length, OnOk, IfOk, IfErr, List};
ghost use Rattle.wincode_io.specs.Joins.{AreItems};
ghost use Rattle.wincode_base.specs.Lengths.{IsLength, length_read, length_write};
ghost use Rattle.wincode_base.specs.Lists.{items_write, list_write, reads_list};
ghost use Rattle.wincode_recode.specs.Passing.{Passed, NotPassed, ItemNotPassed, ListNotPassed, IsPassedAs, NotPassedAs, AreSound, RelayTells, unwritten};
ghost use Rattle.wincode_io.specs.Writers.{IsSameWriter};

use crate::recoding::{KnownShape, RelayError};
use std::alloc::Global;
use std::collections::BTreeMap;
use wincode::io::{self, Lending, Reader, Writer};
use wincode::len::{BincodeLen, PREALLOCATION_LIMIT, SeqLen, ShortU16Len};
use wincode::{RoundTrip, SchemaGet, SchemaRead, SchemaWrite, WriteError, containers};

/// Why it was not written: the output failed, or else memory was refused.
pub fn unwritten(error: WriteError) -> RelayError
    ensures { result ≡ unwritten error }
{
    match error {
        WriteError::Io(io::WriteError::Io(failure)) => RelayError::Output(failure),
        other => RelayError::Write(other),
    }
}

/// Reads a value, and writes it.
fn pass_value<L: Lending, R: Reader<L>, W: Writer, T: RoundTrip<L>>(
    alloc: Global,
    reader: &mut R,
    writer: &mut W,
) -> Result<(), RelayError>
where
    T::Src: Drop,
    ensures ok { OnOk result ((value : T.Src) × Passed T.SchemaRead.model T.SchemaRead.reading.reads T.SchemaWrite.model T.SchemaWrite.writing
        (R.state reader.old) (R.state reader.new) (W.state writer.old) (W.state writer.new) value) }
    ensures err { IfErr result (NotPassed T.SchemaRead.model T.SchemaRead.reading T.SchemaWrite.model T.SchemaWrite.writing
        (R.state reader.old) (R.state reader.new) (W.state writer.old) (W.state writer.new)) }
{
    let value = match <T as SchemaGet<L>>::get(alloc, reader) {
        Ok(value) => value,
        Err(error) => return Err(RelayError::Read(error)),
    };
    match <T as SchemaWrite>::write(writer, &value) {
        Ok(()) => Ok(()),
        Err(error) => Err(unwritten(error)),
    }
}

/// Reads a length of items that count so much each, and writes it.
fn pass_length<L: Lending, R: Reader<L>, W: Writer, Len: SeqLen>(
    reader: &mut R,
    writer: &mut W,
    prealloc: usize,
) -> Result<usize, RelayError>
    ensures ok { IfOk result (Passed (λ n. n) (IsLength Len.scheme prealloc) (λ n. n) (length_write Len.scheme)
        (R.state reader.old) (R.state reader.new) (W.state writer.old) (W.state writer.new)) }
    ensures err { IfErr result (NotPassed (λ n. n) (length_read Len.scheme prealloc) (λ n. n) (length_write Len.scheme)
        (R.state reader.old) (R.state reader.new) (W.state writer.old) (W.state writer.new)) }
{
    let len = match Len::read::<L, R>(reader, prealloc) {
        Ok(len) => len,
        Err(error) => return Err(RelayError::Read(error)),
    };
    match Len::write(writer, len) {
        Ok(()) => Ok(len),
        Err(error) => Err(unwritten(error)),
    }
}

/// Passes `n` values on, one after another.
fn pass_items<L: Lending, R: Reader<L>, W: Writer, T: RoundTrip<L>>(
    alloc: Global,
    reader: &mut R,
    writer: &mut W,
    n: usize,
) -> Result<(), RelayError>
where
    T::Src: Drop,
    ensures ok { OnOk result ((values : List T.Src) × (length values ≡ n) × Passed (map T.SchemaRead.model) (AreItems n T.SchemaRead.reading.reads)
        (map T.SchemaWrite.model) (items_write T.SchemaWrite.writing)
        (R.state reader.old) (R.state reader.new) (W.state writer.old) (W.state writer.new) values) }
    ensures err { IfErr result (ItemNotPassed n T.SchemaRead.model T.SchemaRead.reading T.SchemaWrite.model T.SchemaWrite.writing
        (R.state reader.old) (R.state reader.new) (W.state writer.old) (W.state writer.new)) }
{
    for _i in 0..n {
        pass_value::<L, R, W, T>(alloc, reader, writer)?;
    }
    Ok(())
}

/// Passes a list on: its length, and then item by item.
fn pass_list<L: Lending, R: Reader<L>, W: Writer, Len: SeqLen, T: RoundTrip<L>>(
    alloc: Global,
    reader: &mut R,
    writer: &mut W,
) -> Result<(), RelayError>
where
    T::Src: Drop,
    ensures ok { OnOk result ((values : List T.Src) × Passed (map T.SchemaRead.model) (reads_list Len.scheme T.SchemaRead.reading)
        (map T.SchemaWrite.model) (list_write Len.scheme 24 T.SchemaWrite.writing)
        (R.state reader.old) (R.state reader.new) (W.state writer.old) (W.state writer.new) values) }
    ensures err { IfErr result (ListNotPassed Len.scheme T.SchemaRead.model T.SchemaRead.reading T.SchemaWrite.model T.SchemaWrite.writing
        (R.state reader.old) (R.state reader.new) (W.state writer.old) (W.state writer.new)) }
{
    let n = pass_length::<L, R, W, Len>(reader, writer, <T as SchemaRead<L>>::prealloc_size())?;
    pass_items::<L, R, W, T>(alloc, reader, writer, n)
}

/// Passes a value of the shape on: of lists in lists one list after another, and any other as a whole.
pub fn pass_as<L: Lending, R: Reader<L>, W: Writer>(
    alloc: Global,
    shape: KnownShape,
    reader: &mut R,
    writer: &mut W,
) -> Result<(), RelayError>
    ensures ok { OnOk result (IsPassedAs shape (R.state reader.old) (W.state writer.old) (W.state writer.new)) }
    ensures err { IfErr result (NotPassedAs shape (R.state reader.old) (W.state writer.old) (W.state writer.new)) }
    ensures sound { OnOk result (IsSameWriter (W.state writer.old) (W.state writer.new)
        × AreSound (R.state reader.old) (R.state reader.new) (W.state writer.old) (W.state writer.new)) }
    ensures told { IfErr result (λ e. IsSameWriter (W.state writer.old) (W.state writer.new)
        × RelayTells (R.state reader.old) (R.state reader.new) (W.state writer.old) (W.state writer.new) e) }
{
    match shape {
        KnownShape::Nested => pass_list::<L, R, W, BincodeLen<PREALLOCATION_LIMIT>, Vec<u64>>(
            alloc, reader, writer,
        ),
        KnownShape::Text => pass_value::<L, R, W, String>(alloc, reader, writer),
        KnownShape::Short => pass_value::<L, R, W, containers::Vec<u8, ShortU16Len>>(
            alloc, reader, writer,
        ),
        KnownShape::Record => pass_value::<L, R, W, (u64, bool, [u8; 32])>(alloc, reader, writer),
        KnownShape::Pairs => pass_value::<L, R, W, BTreeMap<u8, u8>>(alloc, reader, writer),
    }
}

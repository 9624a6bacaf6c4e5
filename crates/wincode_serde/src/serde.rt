//! The calls that most programs make, as methods of every schema.
ghost use Rattle.std.specs.Prelude.{◌≡◌, IfOk, IfErr, OnOk, OnErr};
ghost use Rattle.wincode_base.specs.Outcomes.{FrontReadRefused, IsSized, Wrote, SizeRefused, IsSerialized, SerializeRefused, SerializeIntoRefused};
ghost use Rattle.wincode_io.specs.Readers.{memory, shared};
ghost use Rattle.wincode_io.specs.Writers.{finished};
ghost use Rattle.wincode_serde.specs.Serde.{IsInFront, HoldsFront, ExactRefused};

use crate::exact::ExactError;
use std::alloc::Global;
use wincode_base::error::{ReadResult, WriteError, WriteResult};
use wincode_io::{Input, Lending, Reader, TrustedSliceReaderZeroCopy, WriteWindow, Writer};
use wincode_read::{SchemaGet, SchemaRead};
use wincode_write::SchemaWrite;

/// A value to bytes, for every schema that writes.
pub trait Serialize: SchemaWrite {
    /// The bytes of the value, exactly those of one of its encodings. It is refused as `size_of` refuses, or
    /// as `OutOfMemory` where the one growth for them is refused.
    fn serialize(alloc: Global, src: &Self::Src) -> WriteResult<Vec<u8>>
        ensures ok { IfOk result (λ v. IsSerialized Self.SchemaWrite.writing (Self.SchemaWrite.model src.now) v.items) }
        ensures value { OnOk result (Self.SchemaWrite.is_valid src.now) }
        ensures err { IfErr result (SerializeRefused Self.SchemaWrite.writing (Self.SchemaWrite.model src.now)) };

    /// Writes the value, and then ends the piece of writing by `finish`. A refused write has added what
    /// the schema's grammar says.
    fn serialize_into<W: Writer>(writer: &mut W, src: &Self::Src) -> WriteResult<()>
        ensures ok { OnOk result (Wrote Self.SchemaWrite.writing (finished W.buffers (W.state writer.old)) (W.state writer.new) (Self.SchemaWrite.model src.now)) }
        ensures value { OnOk result (Self.SchemaWrite.is_valid src.now) }
        ensures err { IfErr result (SerializeIntoRefused W.buffers Self.SchemaWrite.writing (W.state writer.old) (W.state writer.new) (Self.SchemaWrite.model src.now)) };

    /// The length, in bytes, of the value's encodings.
    fn serialized_size(src: &Self::Src) -> WriteResult<u64>
        ensures ok { IfOk result (IsSized Self.SchemaWrite.writing (Self.SchemaWrite.model src.now)) }
        ensures err { IfErr result (SizeRefused Self.SchemaWrite.writing (Self.SchemaWrite.model src.now)) };
}

impl<T: SchemaWrite> Serialize for T {
    fn serialize(alloc: Global, src: &T::Src) -> WriteResult<Vec<u8>> {
        let size = T::size_of(src)?;
        let mut bytes = match Vec::with_capacity(alloc, size) {
            Ok(bytes) => bytes,
            Err(_) => return Err(WriteError::OutOfMemory),
        };
        let mut window = WriteWindow::new(&mut bytes, size);
        T::write(&mut window, src)?;
        Ok(bytes)
    }

    fn serialize_into<W: Writer>(writer: &mut W, src: &T::Src) -> WriteResult<()> {
        T::write(writer, src)?;
        writer.finish()?;
        Ok(())
    }

    fn serialized_size(src: &T::Src) -> WriteResult<u64> {
        Ok(T::size_of(src)? as u64)
    }
}

/// A value from bytes, for every schema that reads. What follows the value is looked at by `deserialize_exact` alone.
pub trait Deserialize<L: Lending>: SchemaRead<L> {
    /// The value at the front of the bytes. It is refused as `read` of a reader of the bytes is.
    fn deserialize<I: Input<Lends = L>>(alloc: Global, bytes: I) -> ReadResult<Self::Dst>
        ensures ok { IfOk result (λ v. IsInFront Self.SchemaRead.reading.reads (I.begins bytes) (Self.SchemaRead.model v)) }
        ensures err { IfErr result (FrontReadRefused Self.SchemaRead.reading (I.begins bytes)) };

    /// As `deserialize`, and puts the value into the destination. Refused, the destination is as it was.
    fn deserialize_into<I: Input<Lends = L>>(
        alloc: Global,
        bytes: I,
        dst: &mut Option<Self::Dst>,
    ) -> ReadResult<()>
        ensures ok { OnOk result (HoldsFront Self.SchemaRead.reading.reads Self.SchemaRead.model (I.begins bytes) dst.new) }
        ensures err { IfErr result (FrontReadRefused Self.SchemaRead.reading (I.begins bytes)) }
        ensures same { OnErr result (dst.new ≡ dst.old) };

    /// The value of exactly these bytes. It is refused as `deserialize` is, or as `Behind` of how many bytes are left
    /// behind the value in front.
    fn deserialize_exact(alloc: Global, bytes: L::Bytes) -> Result<Self::Dst, ExactError>
        ensures ok { IfOk result (λ v. Self.SchemaRead.reading.reads (L.held bytes) (Self.SchemaRead.model v)) }
        ensures err { IfErr result (ExactRefused Self.SchemaRead.reading (memory shared (L.held bytes))) };
}

impl<L: Lending, T: SchemaRead<L>> Deserialize<L> for T {
    fn deserialize<I: Input<Lends = L>>(alloc: Global, bytes: I) -> ReadResult<T::Dst> {
        let mut reader = bytes.reader();
        T::get(alloc, &mut reader)
    }

    fn deserialize_into<I: Input<Lends = L>>(
        alloc: Global,
        bytes: I,
        dst: &mut Option<T::Dst>,
    ) -> ReadResult<()> {
        let mut reader = bytes.reader();
        T::read(alloc, &mut reader, dst)
    }

    fn deserialize_exact(alloc: Global, bytes: L::Bytes) -> Result<T::Dst, ExactError> {
        let mut reader = TrustedSliceReaderZeroCopy::<L>::new(bytes);
        let value = <T as SchemaGet<L>>::get(alloc, &mut reader)?;
        let behind = reader.at_hand().len();
        if behind > 0 {
            return Err(ExactError::Behind(behind));
        }
        Ok(value)
    }
}

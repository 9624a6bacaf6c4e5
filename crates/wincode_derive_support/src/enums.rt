//! Enums of a user's own as one of their cases.
ghost use Rattle.std.specs.Prelude.{◌≡◌, ◌≤◌, true, length, take, IfSome, IfOk, IfErr};
ghost use Rattle.wincode_base.specs.Leaves.{number_write};
ghost use Rattle.wincode_base.specs.Outcomes.{ReadOutcome, WriteOutcome, IsEncoded, IsSized, SizeRefused};
ghost use Rattle.wincode_base.specs.Tags.{greatest_tag};
ghost use Rattle.wincode_derive_support.specs.Sums.{IsTagged, enum_write};

use crate::sums::CasesWrite;
use std::alloc::Global;
use wincode::io::{Lending, Reader, Writer};
use wincode::{ReadResult, SchemaGet, SchemaRead, SchemaWrite, TagCode, WriteResult, write_tag};
use wincode_base::sizes::checked_sum;

/// The schema of an enum, which is its own or another type, and the enum as one of its cases. That is a result: `Ok`
/// of what the first holds, `Err(Ok(..))` of what the second holds, and so on; the last is `Err(Err(..))`.
pub trait EnumParts {
    /// The enum.
    type Src: Drop;

    type Parts: Drop;

    ghost parts: { Self.Src → Self.Parts };

    /// The value that these are the parts of.
    fn make(made_of: Self::Parts) -> Self::Src
        ensures { parts result ≡ made_of };
}

/// Reads an enum, by the schema of its parts.
pub fn read_enum<L: Lending, S: SchemaRead<L>, T: EnumParts<Parts = S::Dst>, R: Reader<L>>(
    alloc: Global,
    reader: &mut R,
    dst: &mut Option<T::Src>,
) -> ReadResult<()>
    ensures { ReadOutcome S.reading (λ x. S.model (T.parts x)) (R.state reader.old) (R.state reader.new) dst.old dst.new result }
{
    let parts = S::get(alloc, reader)?;
    *dst = Some(T::make(parts));
    Ok(())
}

/// An enum by its cases, each of which is sized and written by reference to what it holds.
pub trait EnumShape: EnumParts {
    type Tag: TagCode;

    type Cases: CasesWrite<Src = Self::Parts>;

    /// The tag of its case.
    fn tag(src: &Self::Src) -> usize
        ensures own { IsTagged Self.Tag.TagCode.size Self.Cases.CasesWrite.tag Self.Cases.CasesWrite.own (Self.Cases.CasesWrite.model (Self.EnumParts.parts src.now)) }
        ensures is { result ≡ Self.Cases.CasesWrite.tag (Self.Cases.CasesWrite.model (Self.EnumParts.parts src.now)) };

    /// The size of what its case holds, in bytes.
    fn part_size(src: &Self::Src) -> WriteResult<usize>
        ensures ok { IfOk result (IsSized Self.Cases.CasesWrite.part (Self.Cases.CasesWrite.model (Self.EnumParts.parts src.now))) }
        ensures err { IfErr result (SizeRefused Self.Cases.CasesWrite.part (Self.Cases.CasesWrite.model (Self.EnumParts.parts src.now))) };

    /// Writes what its case holds.
    fn write_part<W: Writer>(writer: &mut W, src: &Self::Src) -> WriteResult<()>
        ensures { Self.Cases.CasesWrite.answer W.Content W.Kept W.put W.room (W.state writer.old) (W.state writer.new) (Self.EnumParts.parts src.now) result };

    /// Puts an encoding of what its case holds over the front of the bytes, and gives how many it has; or answers `None`,
    /// as where there are fewer, and may have put any bytes there.
    fn encode_part(src: &Self::Src, dst: &mut [u8]) -> Option<usize>
        ensures { let C = Self.Cases.CasesWrite in let x = Self.EnumParts.parts src.now in
            IfSome result (λ n. (n ≤ length dst.new) × IsEncoded C.part (C.model x) (take n dst.new) × C.is_valid x) };
}

/// The size of an enum, in bytes: that of its tag and of what its case holds.
pub fn size_of_enum<T: EnumShape>(src: &T::Src) -> WriteResult<usize>
    ensures ok { let C = T.Cases.CasesWrite in let v = C.model (T.EnumParts.parts src.now) in
        IfOk result (IsSized (enum_write T.Tag.TagCode.size C.tag C.own C.part) v) }
    ensures err { let C = T.Cases.CasesWrite in let v = C.model (T.EnumParts.parts src.now) in
        IfErr result (SizeRefused (enum_write T.Tag.TagCode.size C.tag C.own C.part) v) }
{
    let _tag = T::tag(src);
    checked_sum(<T::Tag as TagCode>::tag_size(), T::part_size(src)?)
}

/// Writes an enum: its tag, and then what its case holds.
pub fn write_enum<T: EnumShape, W: Writer>(writer: &mut W, src: &T::Src) -> WriteResult<()>
    ensures { let C = T.Cases.CasesWrite in let k = T.Tag.TagCode.size in let x = T.EnumParts.parts src.now in
        WriteOutcome (enum_write k C.tag C.own C.part) (W.state writer.old) (W.state writer.new) (C.model x) (IsTagged k C.tag C.own (C.model x) × C.is_valid x) result }
{
    let tag = T::tag(src);
    write_tag::<T::Tag, W>(writer, tag)?;
    T::write_part::<W>(writer, src)
}

/// Puts a tag over the front of the bytes, and gives how many it has; or answers `None`, where there are fewer.
#[inline(always)]
fn encode_tag<Tag: TagCode>(tag: usize, dst: &mut [u8]) -> Option<usize>
    requires { tag ≤ greatest_tag Tag.size }
    ensures { IfSome result (λ n. (n ≤ length dst.new) × IsEncoded (number_write Tag.size true) tag (take n dst.new)) }
{
    match Tag::tag_size() {
        1 => <u8 as SchemaWrite>::encode_front(&(tag as u8), dst),
        2 => <u16 as SchemaWrite>::encode_front(&(tag as u16), dst),
        4 => <u32 as SchemaWrite>::encode_front(&(tag as u32), dst),
        _ => <u64 as SchemaWrite>::encode_front(&(tag as u64), dst),
    }
}

/// Puts an encoding of an enum over the front of the bytes, and gives how many it has; or answers `None`, as where there
/// are fewer, and may have put any bytes there.
#[inline(always)]
pub fn encode_enum<T: EnumShape>(src: &T::Src, dst: &mut [u8]) -> Option<usize>
    ensures { let C = T.Cases.CasesWrite in let k = T.Tag.TagCode.size in let x = T.EnumParts.parts src.now in
        IfSome result (λ n. (n ≤ length dst.new) × IsEncoded (enum_write k C.tag C.own C.part) (C.model x) (take n dst.new)
        × (IsTagged k C.tag C.own (C.model x) × C.is_valid x)) }
{
    let tag = T::tag(src);
    let front = encode_tag::<T::Tag>(tag, dst)?;
    let part = T::encode_part(src, &mut dst[front..])?;
    Some(front + part)
}

//! Parts without parts: each is read by its schema.
ghost use Rattle.std.specs.Prelude.{◌≡◌, ◌∷◌, [], true};
ghost use Rattle.wincode_base.specs.Leaves.{number_read};
ghost use Rattle.wincode_base.specs.Lengths.{length_read};
ghost use Rattle.wincode_base.specs.Lists.{list_read};
ghost use Rattle.wincode_base.specs.Outcomes.{GetOutcome};
ghost use Rattle.wincode_describe.specs.Parts.{Bytes, seen};
ghost use Rattle.wincode_describe.specs.declared.described.Described.TheVariants as Described;
ghost use Rattle.wincode_describe.specs.declared.described.StdType.TheVariants.{SocketAddrV4, SocketAddrV6};
ghost use Rattle.wincode_describe.specs.ShownGrammars.{ShowOutcome, shown_read};
ghost use Rattle.wincode_describe.specs.Types.{
  described_read,
  scheme_of,
  tag_bytes,
  integer_read,
  natural_shown,
  nonzero_read,
  socket_read,
  std_read,
  time_read,
  zero_shown,
};

use crate::comparing::is_same_part;
use crate::described::{Integer, LengthScheme, StdType, TagSize};
use crate::shown::Shown;
use crate::sink::PartSink;
use std::alloc::Global;
use wincode_base::error::{ReadError, ReadResult};
use wincode_base::len::{BincodeLen, PREALLOCATION_LIMIT, SeqLen, ShortU16Len};
use wincode_base::tag::read_tag;
use wincode_io::{Lending, ReadWindow, Reader};
use wincode_read::schema::from_items::get_list;
use wincode_read::schema::{SchemaGet, read_bytes};

/// The length of a list.
pub(crate) fn read_length<L: Lending, R: Reader<L>>(
    scheme: LengthScheme,
    prealloc: usize,
    reader: &mut R,
) -> ReadResult<usize>
    ensures { GetOutcome (length_read (scheme_of scheme) prealloc) (λ n. n) (R.state reader.old) (R.state reader.new) result }
{
    match scheme {
        LengthScheme::Eight => {
            <BincodeLen<PREALLOCATION_LIMIT> as SeqLen>::read::<L, R>(reader, prealloc)
        }
        LengthScheme::Short => <ShortU16Len as SeqLen>::read::<L, R>(reader, prealloc),
    }
}

/// A tag.
pub(crate) fn read_case_tag<L: Lending, R: Reader<L>>(
    size: TagSize,
    reader: &mut R,
) -> ReadResult<usize>
    ensures { GetOutcome (number_read (tag_bytes size) true) (λ t. t) (R.state reader.old) (R.state reader.new) result }
{
    match size {
        TagSize::U8 => read_tag::<u8, L, R>(reader),
        TagSize::U16 => read_tag::<u16, L, R>(reader),
        TagSize::U32 => read_tag::<u32, L, R>(reader),
        TagSize::U64 => read_tag::<u64, L, R>(reader),
    }
}

/// An unsigned number of up to eight bytes, as a part.
fn get_natural<L: Lending, R: Reader<L>>(
    integer: Integer,
    size: TagSize,
    reader: &mut R,
) -> ReadResult<Shown>
    ensures { GetOutcome (shown_read (natural_shown integer) (number_read (tag_bytes size) true)) (λ part. seen part ∷ []) (R.state reader.old) (R.state reader.new) result }
{
    let value = read_case_tag::<L, R>(size, reader)? as u128;
    Ok(Shown::Natural { integer, value })
}

/// An integer, as a part.
fn get_integer<L: Lending, R: Reader<L>>(
    alloc: Global,
    integer: Integer,
    reader: &mut R,
) -> ReadResult<Shown>
    ensures { GetOutcome (integer_read integer) (λ part. seen part ∷ []) (R.state reader.old) (R.state reader.new) result }
{
    match integer {
        Integer::U8 => get_natural::<L, R>(integer, TagSize::U8, reader),
        Integer::U16 => get_natural::<L, R>(integer, TagSize::U16, reader),
        Integer::U32 => get_natural::<L, R>(integer, TagSize::U32, reader),
        Integer::U64 => get_natural::<L, R>(integer, TagSize::U64, reader),
        Integer::Usize => {
            let value = <usize as SchemaGet<L>>::get::<R>(alloc, reader)? as u128;
            Ok(Shown::Natural { integer, value })
        }
        Integer::U128 => {
            let value = <u128 as SchemaGet<L>>::get::<R>(alloc, reader)?;
            Ok(Shown::Natural { integer, value })
        }
        Integer::I8 => {
            let value = <i8 as SchemaGet<L>>::get::<R>(alloc, reader)? as i128;
            Ok(Shown::Signed { integer, value })
        }
        Integer::I16 => {
            let value = <i16 as SchemaGet<L>>::get::<R>(alloc, reader)? as i128;
            Ok(Shown::Signed { integer, value })
        }
        Integer::I32 => {
            let value = <i32 as SchemaGet<L>>::get::<R>(alloc, reader)? as i128;
            Ok(Shown::Signed { integer, value })
        }
        Integer::I64 => {
            let value = <i64 as SchemaGet<L>>::get::<R>(alloc, reader)? as i128;
            Ok(Shown::Signed { integer, value })
        }
        Integer::Isize => {
            let value = <isize as SchemaGet<L>>::get::<R>(alloc, reader)? as i128;
            Ok(Shown::Signed { integer, value })
        }
        Integer::I128 => {
            let value = <i128 as SchemaGet<L>>::get::<R>(alloc, reader)?;
            Ok(Shown::Signed { integer, value })
        }
    }
}

/// An integer.
pub(crate) fn show_integer<L: Lending, R: Reader<L>, S: PartSink>(
    alloc: Global,
    integer: Integer,
    reader: &mut R,
    shown: &mut S,
) -> ReadResult<()>
    ensures { ShowOutcome S.took (integer_read integer) (R.state reader.old) (R.state reader.new) shown.old shown.new result }
{
    let part = get_integer::<L, R>(alloc, integer, reader)?;
    shown.add(part)
}

/// The 0 of an integer, as a part.
fn zero_of(integer: Integer) -> Shown
    ensures { seen result ∷ [] ≡ zero_shown integer }
{
    match integer {
        Integer::U8 | Integer::U16 | Integer::U32 | Integer::U64 | Integer::U128 | Integer::Usize =>
            Shown::Natural { integer, value: 0 },
        Integer::I8 | Integer::I16 | Integer::I32 | Integer::I64 | Integer::I128 | Integer::Isize =>
            Shown::Signed { integer, value: 0 },
    }
}

/// An integer that isn't 0, as a part.
fn get_nonzero<L: Lending, R: Reader<L>>(
    alloc: Global,
    integer: Integer,
    reader: &mut R,
) -> ReadResult<Shown>
    ensures { GetOutcome (nonzero_read integer) (λ part. seen part ∷ []) (R.state reader.old) (R.state reader.new) result }
{
    let part = get_integer::<L, R>(alloc, integer, reader)?;
    if is_same_part(&part, &zero_of(integer)) {
        return Err(ReadError::Custom("zero"));
    }
    Ok(part)
}

/// An integer that isn't 0.
pub(crate) fn show_nonzero<L: Lending, R: Reader<L>, S: PartSink>(
    alloc: Global,
    integer: Integer,
    reader: &mut R,
    shown: &mut S,
) -> ReadResult<()>
    ensures { ShowOutcome S.took (nonzero_read integer) (R.state reader.old) (R.state reader.new) shown.old shown.new result }
{
    let part = get_nonzero::<L, R>(alloc, integer, reader)?;
    shown.add(part)
}

/// Seconds and nanoseconds, as a part. Nanoseconds past a second carry over, and the seconds are then below the limit.
fn get_time<L: Lending, R: Reader<L>>(
    alloc: Global,
    kind: StdType,
    limit: u128,
    reader: &mut R,
) -> ReadResult<Shown>
    ensures { GetOutcome (time_read kind limit) (λ part. seen part ∷ []) (R.state reader.old) (R.state reader.new) result }
{
    let (seconds, nanos) = <(u64, u32) as SchemaGet<L>>::get::<R>(alloc, reader)?;
    let whole = seconds as u128 + (nanos / 1_000_000_000) as u128;
    if whole >= limit {
        return Err(ReadError::Custom("overflow"));
    }
    let number = seconds as u128 + nanos as u128 * 18446744073709551616;
    Ok(Shown::Std { kind, number })
}

/// The address of a socket whose host has four octets, as a part.
fn get_socket_v4<L: Lending, R: Reader<L>>(alloc: Global, reader: &mut R) -> ReadResult<Shown>
    ensures { GetOutcome (socket_read SocketAddrV4 4) (λ part. seen part ∷ []) (R.state reader.old) (R.state reader.new) result }
{
    let (octets, port) = <([u8; 4], u16) as SchemaGet<L>>::get::<R>(alloc, reader)?;
    let host = u32::from_le_bytes(octets) as u128;
    let kind = StdType::SocketAddrV4;
    Ok(Shown::Socket { kind, host, port })
}

/// So, of sixteen.
fn get_socket_v6<L: Lending, R: Reader<L>>(alloc: Global, reader: &mut R) -> ReadResult<Shown>
    ensures { GetOutcome (socket_read SocketAddrV6 16) (λ part. seen part ∷ []) (R.state reader.old) (R.state reader.new) result }
{
    let (octets, port) = <([u8; 16], u16) as SchemaGet<L>>::get::<R>(alloc, reader)?;
    let host = u128::from_le_bytes(octets);
    let kind = StdType::SocketAddrV6;
    Ok(Shown::Socket { kind, host, port })
}

/// A value of a type of std's, as a part.
fn get_std<L: Lending, R: Reader<L>>(
    alloc: Global,
    kind: StdType,
    reader: &mut R,
) -> ReadResult<Shown>
    ensures { GetOutcome (std_read kind) (λ part. seen part ∷ []) (R.state reader.old) (R.state reader.new) result }
{
    match kind {
        StdType::F32 => {
            let number = <u32 as SchemaGet<L>>::get::<R>(alloc, reader)? as u128;
            Ok(Shown::Std { kind, number })
        }
        StdType::F64 => {
            let number = <u64 as SchemaGet<L>>::get::<R>(alloc, reader)? as u128;
            Ok(Shown::Std { kind, number })
        }
        StdType::Duration => get_time::<L, R>(
            alloc,
            StdType::Duration,
            18446744073709551616,
            reader,
        ),
        StdType::SystemTime => get_time::<L, R>(
            alloc,
            StdType::SystemTime,
            9223372036854775808,
            reader,
        ),
        StdType::Ipv4Addr => {
            let octets = <[u8; 4] as SchemaGet<L>>::get::<R>(alloc, reader)?;
            let number = u32::from_le_bytes(octets) as u128;
            Ok(Shown::Std { kind, number })
        }
        StdType::Ipv6Addr => {
            let octets = <[u8; 16] as SchemaGet<L>>::get::<R>(alloc, reader)?;
            let number = u128::from_le_bytes(octets);
            Ok(Shown::Std { kind, number })
        }
        StdType::SocketAddrV4 => get_socket_v4::<L, R>(alloc, reader),
        StdType::SocketAddrV6 => get_socket_v6::<L, R>(alloc, reader),
    }
}

/// A value of a type of std's.
pub(crate) fn show_std<L: Lending, R: Reader<L>, S: PartSink>(
    alloc: Global,
    kind: StdType,
    reader: &mut R,
    shown: &mut S,
) -> ReadResult<()>
    ensures { ShowOutcome S.took (std_read kind) (R.state reader.old) (R.state reader.new) shown.old shown.new result }
{
    let part = get_std::<L, R>(alloc, kind, reader)?;
    shown.add(part)
}

/// A flag.
pub(crate) fn show_flag<L: Lending, R: Reader<L>, S: PartSink>(
    alloc: Global,
    reader: &mut R,
    shown: &mut S,
) -> ReadResult<()>
    ensures { ShowOutcome S.took (described_read Described.Bool) (R.state reader.old) (R.state reader.new) shown.old shown.new result }
{
    let value = <bool as SchemaGet<L>>::get::<R>(alloc, reader)?;
    shown.add(Shown::Flag(value))
}

/// A character.
pub(crate) fn show_character<L: Lending, R: Reader<L>, S: PartSink>(
    alloc: Global,
    reader: &mut R,
    shown: &mut S,
) -> ReadResult<()>
    ensures { ShowOutcome S.took (described_read Described.Char) (R.state reader.old) (R.state reader.new) shown.old shown.new result }
{
    let value = <char as SchemaGet<L>>::get::<R>(alloc, reader)?;
    shown.add(Shown::Character(value))
}

/// A value without bytes.
pub(crate) fn show_nothing<L: Lending, R: Reader<L>, S: PartSink>(
    alloc: Global,
    reader: &mut R,
    shown: &mut S,
) -> ReadResult<()>
    ensures { ShowOutcome S.took (described_read Described.Unit) (R.state reader.old) (R.state reader.new) shown.old shown.new result }
{
    <() as SchemaGet<L>>::get::<R>(alloc, reader)?;
    shown.add(Shown::Nothing)
}

/// A text: its length, and then its bytes.
pub(crate) fn show_text<L: Lending, R: Reader<L>, S: PartSink>(
    alloc: Global,
    reader: &mut R,
    shown: &mut S,
) -> ReadResult<()>
    ensures { ShowOutcome S.took (described_read Described.Text) (R.state reader.old) (R.state reader.new) shown.old shown.new result }
{
    let text = <String as SchemaGet<L>>::get::<R>(alloc, reader)?;
    let count = text.len();
    let scheme = LengthScheme::Eight;
    shown.add(Shown::Length { scheme, count })?;
    shown.add(Shown::Text(text))
}

/// The bytes behind a length.
fn get_bytes<L: Lending, R: Reader<L>>(
    alloc: Global,
    scheme: LengthScheme,
    reader: &mut R,
) -> ReadResult<Vec<u8>>
    ensures { GetOutcome (list_read (scheme_of scheme) 24 (number_read 1 true)) (λ v. v.items) (R.state reader.old) (R.state reader.new) result }
{
    match scheme {
        LengthScheme::Eight => {
            get_list::<Vec<u8>, BincodeLen<PREALLOCATION_LIMIT>, L, u8, R>(alloc, reader)
        }
        LengthScheme::Short => { get_list::<Vec<u8>, ShortU16Len, L, u8, R>(alloc, reader) }
    }
}

/// Bytes: how many they are, and then all of them.
pub(crate) fn show_bytes<L: Lending, R: Reader<L>, S: PartSink>(
    alloc: Global,
    scheme: LengthScheme,
    reader: &mut R,
    shown: &mut S,
) -> ReadResult<()>
    ensures { ShowOutcome S.took (described_read (Described.ByteList scheme)) (R.state reader.old) (R.state reader.new) shown.old shown.new result }
{
    let bytes = get_bytes::<L, R>(alloc, scheme, reader)?;
    let count = bytes.len();
    shown.add(Shown::Length { scheme, count })?;
    shown.add(Shown::Bytes(bytes))
}

/// So many bytes through a window of them.
fn get_array<L: Lending, R: Reader<L>>(
    alloc: Global,
    n: usize,
    reader: &mut R,
) -> ReadResult<Vec<u8>>
    ensures { GetOutcome (described_read (Described.ByteArray n)) (λ v. Bytes v.items ∷ []) (R.state reader.old) (R.state reader.new) result }
{
    let mut window = reader.as_trusted_for(n)?;
    let mut bytes = Vec::new(alloc);
    read_bytes::<L, ReadWindow<L>>(&mut window, n, &mut bytes)?;
    Ok(bytes)
}

/// So many bytes, without their number.
pub(crate) fn show_byte_array<L: Lending, R: Reader<L>, S: PartSink>(
    alloc: Global,
    n: usize,
    reader: &mut R,
    shown: &mut S,
) -> ReadResult<()>
    ensures { ShowOutcome S.took (described_read (Described.ByteArray n)) (R.state reader.old) (R.state reader.new) shown.old shown.new result }
{
    let bytes = get_array::<L, R>(alloc, n, reader)?;
    shown.add(Shown::Bytes(bytes))
}

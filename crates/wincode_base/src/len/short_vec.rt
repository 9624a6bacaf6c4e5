//! Numbers below 2 to the 16 in one to three bytes, as lengths and as values.
ghost use Rattle.std.specs.Prelude.{◌≡◌, ◌≤◌, length, take, IfSome, IfOk, IfErr, OnOk, MatchOption};
ghost use Rattle.wincode_io.specs.ShortNumbers.{short_encoding, BeginsShort, BeginsNoShort};
ghost use Rattle.wincode_io.specs.Writers.{Added, BytesWriteRefused};
ghost use Rattle.wincode_base.specs.Lengths.{LengthSizeRefused};
ghost use Rattle.wincode_base.specs.Outcomes.{GetOutcome};
ghost use Rattle.wincode_base.specs.Short.{short_read, short_scheme};
ghost use Rattle.wincode_base.specs.ShortLaws.{short_scheme_laws};

use crate::error::{
    ReadResult, WriteResult, read_length_encoding_overflow, write_length_encoding_overflow,
};
use crate::front::put_front;
use crate::len::SeqLen;
use wincode_io as io;
use wincode_io::{Lending, Reader, Writer};

/// A number below 2 to the 16 in groups of seven bits, the lowest first, with 128 added to each but the
/// last: n is `[n]` below 128, `[128 + n mod 128, n div 128]` below 16384, and from there on
/// `[128 + n mod 128, 128 + (n div 128) mod 128, n div 16384]`. Only these bytes are read as n. It is
/// a value, and as a length scheme it writes and reads lengths so.
#[derive(Drop)]
pub struct ShortU16(pub u16);

/// The same, by the name of a length scheme.
pub type ShortU16Len = ShortU16;

/// The short number that these bytes begin with; none where they begin with none.
fn short_in_front(bytes: &[u8]) -> Option<u16>
    ensures { MatchOption result (BeginsNoShort bytes.now) (BeginsShort bytes.now) }
{
    let (&first, bytes) = bytes.split_first()?;
    let first = first as u16;
    if first < 128 {
        return Some(first);
    }
    let (&second, bytes) = bytes.split_first()?;
    let second = second as u16;
    if second == 0 {
        return None;
    }
    if second < 128 {
        return Some(first - 128 + 128 * second);
    }
    let (&third, _) = bytes.split_first()?;
    if third == 0 || third > 3 {
        return None;
    }
    Some(first - 128 + 128 * (second - 128 + 128 * third as u16))
}

/// The length of a short number, in bytes.
pub fn short_size(value: u16) -> usize
    ensures { result ≡ length (short_encoding value) }
{
    if value < 128 {
        1
    } else if value < 16384 {
        2
    } else {
        3
    }
}

/// The short number that the reader has in front, which is then gone. Refused, all bytes stay.
pub fn take_short<L: Lending, R: Reader<L>>(reader: &mut R) -> ReadResult<u16>
    ensures { GetOutcome short_read (λ n. n) (R.state reader.old) (R.state reader.new) result }
{
    let bytes = reader.fill_buf(3)?;
    match short_in_front(bytes) {
        Some(value) => {
            reader.consume_unchecked(short_size(value));
            Ok(value)
        }
        None => Err(read_length_encoding_overflow("u16::MAX")),
    }
}

/// Writes a short number, in one piece.
pub fn write_short<W: Writer>(writer: &mut W, value: u16) -> io::WriteResult<()>
    ensures ok { OnOk result (Added (short_encoding value) (W.state writer.old) (W.state writer.new)) }
    ensures err { IfErr result (BytesWriteRefused (length (short_encoding value)) (W.state writer.old) (W.state writer.new)) }
{
    if value < 128 {
        return writer.write(&[value as u8]);
    }
    let low = (128 + value % 128) as u8;
    let high = value / 128;
    if high < 128 {
        return writer.write(&[low, high as u8]);
    }
    writer.write(&[low, (128 + high % 128) as u8, (high / 128) as u8])
}

/// Puts a short number over the front of the bytes, and gives how many it has; or answers `None`, where there are
/// fewer.
fn put_short(value: u16, dst: &mut [u8]) -> Option<usize>
    ensures { IfSome result (λ n. (n ≤ length dst.new) × (take n dst.new ≡ short_encoding value)) }
{
    if value < 128 {
        return put_front(&[value as u8], dst);
    }
    let low = (128 + value % 128) as u8;
    let high = value / 128;
    if high < 128 {
        return put_front(&[low, high as u8], dst);
    }
    put_front(&[low, (128 + high % 128) as u8, (high / 128) as u8], dst)
}

/// The length as a short number. A length past `u16::MAX` is `LengthEncodingOverflow`.
pub fn short_of(len: usize) -> WriteResult<u16>
    ensures ok { IfOk result (λ n. n ≡ len) }
    ensures err { IfErr result (LengthSizeRefused short_scheme len) }
{
    if len > 65535 {
        return Err(write_length_encoding_overflow("u16::MAX"));
    }
    Ok(len as u16)
}

impl SeqLen for ShortU16 {
    ghost scheme = { short_scheme };

    /// It has no limit of its own. Where no short number stands in front, it is
    /// `LengthEncodingOverflow`, and all bytes stay.
    fn read<L: Lending, R: Reader<L>>(reader: &mut R, _prealloc: usize) -> ReadResult<usize> {
        let value = take_short::<L, R>(reader)?;
        Ok(value as usize)
    }

    fn write<W: Writer>(writer: &mut W, len: usize) -> WriteResult<()> {
        let value = short_of(len)?;
        write_short::<W>(writer, value)?;
        Ok(())
    }

    fn write_bytes_needed(len: usize) -> WriteResult<usize> {
        let value = short_of(len)?;
        Ok(short_size(value))
    }

    fn encode(len: usize, dst: &mut [u8]) -> Option<usize> {
        if len > 65535 {
            return None;
        }
        put_short(len as u16, dst)
    }

    ghost scheme_laws = { short_scheme_laws };
}

//! Schemas of characters and of texts.
ghost use Rattle.std.proofs.Common.{lit≤};
ghost use Rattle.std.specs.Char.{IsScalar};
ghost use Rattle.std.specs.Prelude.{⊤, ◌≡◌, ℕ, ◌≤◌, true, false, List, length, take, IsUtf8, string_bytes, IfOk, IfErr, IfSome, IfNone};
ghost use Rattle.wincode_io.specs.Readers.{StaysSound, Arrays, IsPeeked};
ghost use Rattle.wincode_base.specs.Outcomes.{Gives, PieceReadRefused, ReadOutcome, GetOutcome};
ghost use Rattle.wincode_base.specs.Strings.{char_read, announced, str_read, body_read, StrBytesReadRefused};
ghost use Rattle.wincode_base.specs.StringLaws.{char_read_laws, str_read_laws};

mod c_strings;
mod cows;
mod texts;

use crate::schema::SchemaRead;
use crate::schema::as_forms::decode_form;
use std::alloc::Global;
use std::str;
use wincode_base::error::{ReadError, ReadResult, invalid_char_lead, invalid_utf8_encoding};
use wincode_base::len::{BincodeLen, PREALLOCATION_LIMIT, SeqLen};
use wincode_base::meta::TypeMeta;
use wincode_io::{Lending, Reader};

/// The first byte, which stays.
fn peek_lead<L: Lending, R: Reader<L>>(reader: &mut R) -> ReadResult<u8>
    ensures ok { IfOk result (λ b. StaysSound (R.state reader.old) (R.state reader.new) × IsPeeked (R.state reader.old) b) }
    ensures err { IfErr result (PieceReadRefused 1 (R.state reader.old) (R.state reader.new)) }
{
    let lead = reader.peek()?;
    Ok(*lead)
}

/// The first character, which is then gone. Refused, all bytes stay.
fn take_char<L: Lending, R: Reader<L>>(reader: &mut R) -> ReadResult<char>
    ensures { GetOutcome char_read (λ c. c) (R.state reader.old) (R.state reader.new) result }
{
    let lead = peek_lead::<L, R>(reader)?;
    let count = announced(lead);
    if count == 0 {
        return Err(invalid_char_lead(lead));
    }
    let bytes = reader.fill_exact(count)?;
    let text = str::from_utf8(bytes)?;
    match text.chars().next() {
        Some(found) => {
            reader.consume_unchecked(count);
            Ok(found)
        }
        None => unreachable!(),
    }
}

impl<L: Lending> SchemaRead<L> for char {
    type Dst = char;

    ghost Value = { ℕ };

    ghost model = { λ c. c };

    ghost is_valid = { IsScalar };

    ghost reading = { char_read };

    fn type_meta() -> TypeMeta {
        TypeMeta::Dynamic
    }

    fn prealloc_size() -> usize {
        4
    }

    /// A refused `char` consumes nothing. No byte at all is `ReadSizeLimit(1)`, a byte that begins no
    /// character is `InvalidCharLead`, fewer bytes than the first announces are `ReadSizeLimit` of
    /// their number, and bytes that are not UTF-8 are `InvalidUtf8Encoding`.
    fn read<R: Reader<L>>(
        _alloc: Global,
        reader: &mut R,
        dst: &mut Option<char>,
    ) -> ReadResult<()> {
        *dst = Some(take_char::<L, R>(reader)?);
        Ok(())
    }

    #[inline(always)]
    fn read_at_once<R: Reader<L>>(
        alloc: Global,
        reader: &mut R,
        n: usize,
        into: &mut Vec<Self::Dst>,
    ) -> Option<ReadResult<()>> {
        let _ = (alloc, n);
        let _ = &*reader;
        let _ = &*into;
        None
    }

    #[inline(always)]
    fn blank() -> Option<Self::Dst> {
        None
    }

    #[inline(always)]
    fn decode(bytes: &[u8], place: &mut Self::Dst) -> bool {
        let _ = bytes.len();
        let _ = &*place;
        false
    }

    ghost read_laws = { char_read_laws };
}

/// A copy of the next `n` bytes, which stay and are at hand. Too few are refused before memory is
/// asked for.
#[inline(always)]
fn copy_bytes<L: Lending, R: Reader<L>>(
    alloc: Global,
    reader: &mut R,
    n: usize,
) -> ReadResult<Vec<u8>>
    ensures ok { IfOk result (λ v. Arrays n (R.state reader.old) (R.state reader.new) v.items) }
    ensures err { IfErr result (StrBytesReadRefused ⊥ ⊤ n (R.state reader.old) (R.state reader.new)) }
{
    let bytes = reader.fill_exact(n)?;
    match Vec::from_slice(alloc, bytes) {
        Ok(copy) => Ok(copy),
        Err(_) => Err(ReadError::OutOfMemory),
    }
}

/// The text of the next `n` bytes, which are then gone.
#[inline(always)]
fn take_text<L: Lending, R: Reader<L>>(
    alloc: Global,
    reader: &mut R,
    n: usize,
) -> ReadResult<String>
    ensures { GetOutcome (body_read n 0 false) (λ s. string_bytes s) (R.state reader.old) (R.state reader.new) result }
{
    let bytes = copy_bytes::<L, R>(alloc, reader, n)?;
    reader.consume_unchecked(n);
    match String::from_utf8(bytes) {
        Ok(text) => Ok(text),
        Err(error) => Err(invalid_utf8_encoding(error.utf8_error())),
    }
}

/// The text at the front of the bytes, behind its length, and how many bytes both have; or none of it, where memory for
/// it is refused. Where not all of its bytes are there, they are over the limit or no text, which `get_text` tells, there
/// is no answer.
#[inline(always)]
fn front_text(alloc: Global, bytes: &[u8]) -> Option<Option<(String, usize)>>
    ensures { IfSome result (λ found. IfSome found (λ t. (t.1 ≤ length bytes.now) × (str_read 24 0 false).reads (take t.1 bytes.now) (string_bytes t.0))) }
{
    if bytes.len() < 8 {
        return None;
    }
    let (front, rest) = bytes.split_at(8);
    let mut length = 0u64;
    if !decode_form(front, &mut length) {
        return None;
    }
    let n = length as usize;
    if n > PREALLOCATION_LIMIT || n > rest.len() {
        return None;
    }
    let text = str::from_utf8(&rest[..n]).ok()?;
    let Ok(copy) = String::from_str(alloc, text) else {
        return Some(None);
    };
    Some(Some((copy, 8 + n)))
}

/// Why the next `n` bytes are refused, for which there was no memory.
fn refused_bytes<L: Lending, R: Reader<L>>(reader: &mut R, n: usize) -> ReadError
    ensures { StrBytesReadRefused ⊥ ⊤ n (R.state reader.old) (R.state reader.new) result }
{
    match reader.fill_exact(n) {
        Ok(_) => ReadError::OutOfMemory,
        Err(error) => ReadError::Io(error),
    }
}

/// Refuses the text in front, for which there was no memory, behind its length.
#[inline(never)]
fn refuse_text<L: Lending, R: Reader<L>>(reader: &mut R) -> ReadResult<String>
    ensures { GetOutcome (str_read 24 0 false) (λ s. string_bytes s) (R.state reader.old) (R.state reader.new) result }
{
    let n = BincodeLen::<PREALLOCATION_LIMIT>::read::<L, R>(reader, 1)?;
    Err(refused_bytes::<L, R>(reader, n))
}

/// The text at the front, behind its length, where all of it is at hand; it is refused where memory for it is. Else
/// the reader is as it was.
#[inline(always)]
fn text_at_hand<L: Lending, R: Reader<L>>(
    alloc: Global,
    reader: &mut R,
) -> Option<ReadResult<String>>
    ensures some { IfSome result (GetOutcome (str_read 24 0 false) (λ s. string_bytes s) (R.state reader.old) (R.state reader.new)) }
    ensures none { IfNone result (R.state reader.new ≡ R.state reader.old) }
{
    match front_text(alloc, reader.at_hand())? {
        Some((text, size)) => {
            reader.consume_unchecked(size);
            Some(Ok(text))
        }
        None => Some(refuse_text::<L, R>(reader)),
    }
}

/// A text behind its length.
#[inline(never)]
fn get_text<L: Lending, R: Reader<L>>(alloc: Global, reader: &mut R) -> ReadResult<String>
    ensures { GetOutcome (str_read 24 0 false) (λ s. string_bytes s) (R.state reader.old) (R.state reader.new) result }
{
    let n = BincodeLen::<PREALLOCATION_LIMIT>::read::<L, R>(reader, 1)?;
    take_text::<L, R>(alloc, reader, n)
}

impl<L: Lending> SchemaRead<L> for String {
    type Dst = String;

    ghost Value = { List ℕ };

    ghost model = { λ s. string_bytes s };

    ghost is_valid = { IsUtf8 };

    ghost reading = { str_read 24 0 false };

    fn type_meta() -> TypeMeta {
        TypeMeta::Dynamic
    }

    fn prealloc_size() -> usize {
        24
    }

    /// Its length is read and held against the limit, its bytes are brought to hand, memory is asked
    /// for, the bytes are consumed, and then they are looked at. Too few bytes or no memory leave the
    /// reader behind the length, bytes that are not UTF-8 behind them.
    #[inline(always)]
    fn read<R: Reader<L>>(
        alloc: Global,
        reader: &mut R,
        dst: &mut Option<String>,
    ) -> ReadResult<()> {
        let text = match text_at_hand::<L, R>(alloc, reader) {
            Some(answer) => answer?,
            None => get_text::<L, R>(alloc, reader)?,
        };
        *dst = Some(text);
        Ok(())
    }

    #[inline(always)]
    fn read_at_once<R: Reader<L>>(
        alloc: Global,
        reader: &mut R,
        n: usize,
        into: &mut Vec<Self::Dst>,
    ) -> Option<ReadResult<()>> {
        let _ = (alloc, n);
        let _ = &*reader;
        let _ = &*into;
        None
    }

    #[inline(always)]
    fn blank() -> Option<Self::Dst> {
        None
    }

    #[inline(always)]
    fn decode(bytes: &[u8], place: &mut Self::Dst) -> bool {
        let _ = bytes.len();
        let _ = &*place;
        false
    }

    ghost read_laws = { str_read_laws 24 0 false (lit≤ tt) };
}

/// The text of the next `n` bytes, lent; they are then gone.
fn borrow_text<L: Lending, R: Reader<L>>(reader: &mut R, n: usize) -> ReadResult<L::Text>
    ensures { GetOutcome (body_read n 1 true) (λ s. L.held_text s) (R.state reader.old) (R.state reader.new) result }
{
    let bytes = reader.borrow_exact(n)?;
    match L::text(bytes) {
        Ok(text) => Ok(text),
        Err(error) => Err(invalid_utf8_encoding(error)),
    }
}

/// A lent text behind its length.
fn lend_text<L: Lending, R: Reader<L>>(reader: &mut R) -> ReadResult<L::Text>
    ensures { GetOutcome (str_read 16 1 true) (λ s. L.held_text s) (R.state reader.old) (R.state reader.new) result }
{
    let n = BincodeLen::<PREALLOCATION_LIMIT>::read::<L, R>(reader, 1)?;
    borrow_text::<L, R>(reader, n)
}

/// A `&str` is lent by the reader, for as long as the reader's bytes live.
impl<'s, L: Lending> SchemaRead<L> for &'s str {
    type Dst = L::Text;

    ghost Value = { List ℕ };

    ghost model = { λ s. L.held_text s };

    ghost is_valid = { IsUtf8 };

    ghost reading = { str_read 16 1 true };

    fn type_meta() -> TypeMeta
        ensures { result ≡ (str_read 16 1 true).meta }
    {
        TypeMeta::Dynamic
    }

    fn prealloc_size() -> usize
        ensures { result ≡ 16 }
    {
        16
    }

    /// Its length is read and held against the limit, its bytes are borrowed, and then they are
    /// looked at. A refused borrow leaves the reader behind the length, bytes that are not UTF-8
    /// behind them.
    fn read<R: Reader<L>>(
        _alloc: Global,
        reader: &mut R,
        dst: &mut Option<L::Text>,
    ) -> ReadResult<()>
        ensures { ReadOutcome (str_read 16 1 true) (λ s. L.held_text s) (R.state reader.old) (R.state reader.new) dst.old dst.new result }
    {
        *dst = Some(lend_text::<L, R>(reader)?);
        Ok(())
    }

    ghost read_laws = { str_read_laws 16 1 true (lit≤ tt) };
}

/// How many bytes a character has whose first byte this is; 0 where it is the first byte of none.
fn announced(lead: u8) -> usize
    ensures { result ≡ announced lead }
{
    match lead {
        0..=0x7F => 1,
        0xC2..=0xDF => 2,
        0xE0..=0xEF => 3,
        0xF0..=0xF4 => 4,
        _ => 0,
    }
}

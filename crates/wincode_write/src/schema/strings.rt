//! Schemas of characters and of texts.
ghost use Rattle.std.specs.Char.{IsScalar};
ghost use Rattle.std.specs.Prelude.{◌≡◌, ℕ, ◌<◌, ◌≤◌, List, length, take, IsUtf8, string_bytes, IfSome, IfOk, IfErr};
ghost use Rattle.wincode_base.specs.Outcomes.{SizeRefused, IsEncoded, WriteOutcome};
ghost use Rattle.wincode_base.specs.Strings.{char_write, str_write};
ghost use Rattle.wincode_base.specs.StringLaws.{char_write_laws, str_write_laws};

mod c_strings;
mod cows;
mod texts;

use crate::schema::SchemaWrite;
use std::str;
use wincode_base::error::WriteResult;
use wincode_base::front::put_front;
use wincode_base::len::{BincodeLen, PREALLOCATION_LIMIT, SeqLen};
use wincode_base::meta::TypeMeta;
use wincode_base::sizes::checked_sum;
use wincode_io::Writer;

/// A `char` is the bytes of its UTF-8, with no length before them.
impl SchemaWrite for char {
    type Src = char;

    ghost Value = { ℕ };

    ghost model = { λ c. c };

    ghost is_valid = { IsScalar };

    ghost writing = { char_write };

    fn type_meta() -> TypeMeta {
        TypeMeta::Dynamic
    }

    fn size_of(src: &char) -> WriteResult<usize> {
        let value = *src;
        Ok(value.len_utf8())
    }

    fn write<W: Writer>(writer: &mut W, src: &char) -> WriteResult<()> {
        let value = *src;
        let mut room = [0; 4];
        let text = value.encode_utf8(&mut room);
        writer.write(text.as_bytes())?;
        Ok(())
    }

    #[inline(always)]
    fn write_at_once<W: Writer>(writer: &mut W, items: &[Self::Src]) -> Option<WriteResult<()>> {
        let _ = &*writer;
        let _items = items.len();
        None
    }

    #[inline(always)]
    fn known_size() -> Option<usize> {
        None
    }

    #[inline(always)]
    fn encode_front(src: &Self::Src, dst: &mut [u8]) -> Option<usize> {
        let _ = src;
        let _len = dst.len();
        None
    }

    ghost write_laws = { char_write_laws };
}

/// Writes the length of a text, and then its bytes.
#[inline(always)]
fn write_text<W: Writer>(writer: &mut W, text: &str) -> WriteResult<()>
    ensures { WriteOutcome (str_write 24) (W.state writer.old) (W.state writer.new) text.now (Unit {0}) result }
{
    BincodeLen::<PREALLOCATION_LIMIT>::write::<W>(writer, text.len())?;
    writer.write(text.as_bytes())?;
    Ok(())
}

/// Puts the length of a text, and then its bytes, over the front of the bytes, where there are as many.
#[inline(always)]
fn encode_text(text: &str, dst: &mut [u8]) -> Option<usize>
    ensures { IfSome result (λ n. (n ≤ length dst.new) × IsEncoded (str_write 24) text.now (take n dst.new)) }
{
    let length = BincodeLen::<PREALLOCATION_LIMIT>::encode(text.len(), dst)?;
    let behind = put_front(text.as_bytes(), &mut dst[length..])?;
    Some(length + behind)
}

/// A `String` is how many bytes it has, and then its bytes.
impl SchemaWrite for String {
    type Src = String;

    ghost Value = { List ℕ };

    ghost model = { λ s. string_bytes s };

    ghost is_valid = { λ s. IsUtf8 (string_bytes s) };

    ghost writing = { str_write 24 };

    fn type_meta() -> TypeMeta {
        TypeMeta::Dynamic
    }

    #[inline(always)]
    fn size_of(src: &String) -> WriteResult<usize> {
        checked_sum(8, src.as_str().len())
    }

    #[inline(always)]
    fn write<W: Writer>(writer: &mut W, src: &String) -> WriteResult<()> {
        write_text::<W>(writer, src.as_str())
    }

    #[inline(always)]
    fn encode_front(src: &String, dst: &mut [u8]) -> Option<usize> {
        encode_text(src.as_str(), dst)
    }

    #[inline(always)]
    fn write_at_once<W: Writer>(writer: &mut W, items: &[Self::Src]) -> Option<WriteResult<()>> {
        let _ = &*writer;
        let _items = items.len();
        None
    }

    #[inline(always)]
    fn known_size() -> Option<usize> {
        None
    }

    ghost write_laws = { str_write_laws 24 (λ s. IsUtf8 (string_bytes s)) (λ s. string_bytes s) };
}

/// A `&str` is written as a `String`.
impl<'a> SchemaWrite for &'a str {
    type Src = &'a str;

    ghost Value = { List ℕ };

    ghost model = { λ s. s.now };

    ghost is_valid = { λ s. IsUtf8 s.now };

    ghost writing = { str_write 16 };

    fn type_meta() -> TypeMeta
        ensures { result ≡ (str_write 16).meta }
    {
        TypeMeta::Dynamic
    }

    #[inline(always)]
    fn size_of(src: &&'a str) -> WriteResult<usize> {
        checked_sum(8, src.len())
    }

    #[inline(always)]
    fn write<W: Writer>(writer: &mut W, src: &&'a str) -> WriteResult<()> {
        write_text::<W>(writer, *src)
    }

    #[inline(always)]
    fn encode_front(src: &&'a str, dst: &mut [u8]) -> Option<usize> {
        encode_text(*src, dst)
    }

    ghost write_laws = { str_write_laws 16 (λ s. IsUtf8 s.now) (λ s. s.now) };
}

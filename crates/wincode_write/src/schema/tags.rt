//! Schemas of a tag and then what it names.
ghost use Rattle.std.specs.Option.{option_map};
ghost use Rattle.std.specs.Prelude.{Option, Result, IfOk, IfErr};
ghost use Rattle.std.specs.Result.{result_map_both};
ghost use Rattle.wincode_base.specs.Outcomes.{IsSized, SizeRefused, WriteOutcome};
ghost use Rattle.wincode_base.specs.TagLaws.{option_write_laws, result_write_laws};
ghost use Rattle.wincode_base.specs.Tags.{option_write, IfPart, result_write, IfSide};

use crate::schema::SchemaWrite;
use crate::schema::tuples::encode_front_members_2;
use crate::tag::write_tag;
use wincode_base::error::WriteResult;
use wincode_base::meta::TypeMeta;
use wincode_base::sizes::{checked_sum, result_meta};
use wincode_base::tag::TagCode;
use wincode_io::Writer;

/// The size of a tag and then the value, if there is one.
pub fn size_of_option<Tag: TagCode, T: SchemaWrite>(src: &Option<T::Src>) -> WriteResult<usize>
    ensures ok { IfOk result (IsSized (option_write Tag.size T.writing) (option_map T.model src.now)) }
    ensures err { IfErr result (SizeRefused (option_write Tag.size T.writing) (option_map T.model src.now)) }
{
    match src {
        None => Ok(Tag::tag_size()),
        Some(part) => checked_sum(Tag::tag_size(), T::size_of(part)?),
    }
}

/// Writes a tag, 0 for `None` and 1 for `Some`, and then the value, if there is one.
pub fn write_option<Tag: TagCode, T: SchemaWrite, W: Writer>(
    writer: &mut W,
    src: &Option<T::Src>,
) -> WriteResult<()>
    ensures { WriteOutcome (option_write Tag.size T.writing) (W.state writer.old) (W.state writer.new) (option_map T.model src.now) (IfPart T.is_valid src.now) result }
{
    match src {
        None => write_tag::<Tag, W>(writer, 0),
        Some(part) => {
            write_tag::<Tag, W>(writer, 1)?;
            T::write::<W>(writer, part)
        }
    }
}

/// The size of a tag and then the side that it names.
pub fn size_of_result<Tag: TagCode, T: SchemaWrite, E: SchemaWrite>(
    src: &Result<T::Src, E::Src>,
) -> WriteResult<usize>
    ensures ok { IfOk result (IsSized (result_write Tag.size T.writing E.writing) (result_map_both T.model E.model src.now)) }
    ensures err { IfErr result (SizeRefused (result_write Tag.size T.writing E.writing) (result_map_both T.model E.model src.now)) }
{
    match src {
        Ok(value) => checked_sum(Tag::tag_size(), T::size_of(value)?),
        Err(error) => checked_sum(Tag::tag_size(), E::size_of(error)?),
    }
}

/// Writes a tag, 0 for `Ok` and 1 for `Err`, and then the value or the error.
pub fn write_result<Tag: TagCode, T: SchemaWrite, E: SchemaWrite, W: Writer>(
    writer: &mut W,
    src: &Result<T::Src, E::Src>,
) -> WriteResult<()>
    ensures { WriteOutcome (result_write Tag.size T.writing E.writing) (W.state writer.old) (W.state writer.new) (result_map_both T.model E.model src.now)
        (IfSide T.is_valid E.is_valid src.now) result }
{
    match src {
        Ok(value) => {
            write_tag::<Tag, W>(writer, 0)?;
            T::write::<W>(writer, value)
        }
        Err(error) => {
            write_tag::<Tag, W>(writer, 1)?;
            E::write::<W>(writer, error)
        }
    }
}

/// An `Option` is a byte, 0 for `None` and 1 for `Some`, and then the value, if there is one.
impl<T: SchemaWrite> SchemaWrite for Option<T> {
    type Src = Option<T::Src>;

    ghost Value = { Option T.Value };

    ghost model = { option_map T.model };

    ghost is_valid = { IfPart T.is_valid };

    ghost writing = { option_write 1 T.writing };

    fn type_meta() -> TypeMeta {
        TypeMeta::Dynamic
    }

    fn size_of(src: &Option<T::Src>) -> WriteResult<usize> {
        size_of_option::<u8, T>(src)
    }

    fn write<W: Writer>(writer: &mut W, src: &Option<T::Src>) -> WriteResult<()> {
        write_option::<u8, T, W>(writer, src)
    }

    #[inline(always)]
    fn encode_front(src: &Option<T::Src>, dst: &mut [u8]) -> Option<usize> {
        match src {
            None => u8::encode_front(&0, dst),
            Some(part) => encode_front_members_2::<u8, T>(&1, part, dst),
        }
    }

    #[inline(always)]
    fn write_at_once<W: Writer>(writer: &mut W, items: &[Self::Src]) -> Option<WriteResult<()>> {
        let _ = &*writer;
        let _items = items.len();
        None
    }

    #[inline(always)]
    fn known_size() -> Option<usize> {
        None
    }

    ghost write_laws = { option_write_laws 1 T.is_valid T.model T.writing T.write_laws };
}

/// A `Result` is a number of four bytes, 0 for `Ok` and 1 for `Err`, and then the value or the error.
impl<T: SchemaWrite, E: SchemaWrite> SchemaWrite for Result<T, E> {
    type Src = Result<T::Src, E::Src>;

    ghost Value = { Result T.Value E.Value };

    ghost model = { result_map_both T.model E.model };

    ghost is_valid = { IfSide T.is_valid E.is_valid };

    ghost writing = { result_write 4 T.writing E.writing };

    fn type_meta() -> TypeMeta {
        result_meta(4, T::type_meta(), E::type_meta())
    }

    fn size_of(src: &Result<T::Src, E::Src>) -> WriteResult<usize> {
        size_of_result::<u32, T, E>(src)
    }

    fn write<W: Writer>(writer: &mut W, src: &Result<T::Src, E::Src>) -> WriteResult<()> {
        write_result::<u32, T, E, W>(writer, src)
    }

    #[inline(always)]
    fn encode_front(src: &Result<T::Src, E::Src>, dst: &mut [u8]) -> Option<usize> {
        match src {
            Ok(value) => encode_front_members_2::<u32, T>(&0, value, dst),
            Err(error) => encode_front_members_2::<u32, E>(&1, error, dst),
        }
    }

    #[inline(always)]
    fn write_at_once<W: Writer>(writer: &mut W, items: &[Self::Src]) -> Option<WriteResult<()>> {
        let _ = &*writer;
        let _items = items.len();
        None
    }

    #[inline(always)]
    fn known_size() -> Option<usize> {
        None
    }

    ghost write_laws = { result_write_laws 4 T.is_valid E.is_valid T.model E.model T.writing E.writing T.write_laws E.write_laws };
}

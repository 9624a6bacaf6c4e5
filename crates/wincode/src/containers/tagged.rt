//! `Option` and `Result` behind a tag by a scheme of choice.
ghost use Rattle.std.specs.Prelude.{◌≡◌, Option, Result};
ghost use Rattle.std.specs.Option.{option_map};
ghost use Rattle.std.specs.Result.{result_map_both};
ghost use Rattle.wincode_base.specs.Tags.{option_read, option_write, IfPart, result_read, result_write, IfSide};
ghost use Rattle.wincode_base.specs.TagLaws.{some_bytes, option_read_laws, option_write_laws, option_reads_back, result_read_laws, result_write_laws, result_reads_back};

use crate::io::{Lending, Reader, Writer};
use crate::schema::{RoundTrip, SchemaRead, SchemaWrite};
use crate::tag::TagCode;
use std::alloc::Global;
use std::marker::PhantomData;
use std::{option, result};
use wincode_base::error::{ReadResult, WriteResult};
use wincode_base::meta::TypeMeta;
use wincode_base::sizes::result_meta;
use wincode_read::schema::tags::{get_option, get_result};
use wincode_write::schema::tags::{size_of_option, size_of_result, write_option, write_result};

/// An `Option` is such a tag, 0 for `None` and 1 for `Some`, and then the value, if there is one.
pub struct Option<T, Tag>(PhantomData<(T, Tag)>);

impl<T: SchemaWrite, Tag: TagCode> SchemaWrite for Option<T, Tag> {
    type Src = option::Option<T::Src>;

    ghost Value = { Option T.Value };

    ghost model = { option_map T.model };

    ghost is_valid = { IfPart T.is_valid };

    ghost writing = { option_write Tag.size T.writing };

    fn type_meta() -> TypeMeta {
        TypeMeta::Dynamic
    }

    fn size_of(src: &option::Option<T::Src>) -> WriteResult<usize> {
        size_of_option::<Tag, T>(src)
    }

    fn write<W: Writer>(writer: &mut W, src: &option::Option<T::Src>) -> WriteResult<()> {
        write_option::<Tag, T, W>(writer, src)
    }

    #[inline(always)]
    fn write_at_once<W: Writer>(
        writer: &mut W,
        items: &[Self::Src],
    ) -> option::Option<WriteResult<()>> {
        let _ = &*writer;
        let _items = items.len();
        None
    }

    #[inline(always)]
    fn known_size() -> option::Option<usize> {
        None
    }

    #[inline(always)]
    fn encode_front(src: &Self::Src, dst: &mut [u8]) -> option::Option<usize> {
        let _ = src;
        let _len = dst.len();
        None
    }

    ghost write_laws = { option_write_laws Tag.size T.is_valid T.model T.writing T.write_laws };
}

impl<L: Lending, T: SchemaRead<L>, Tag: TagCode> SchemaRead<L> for Option<T, Tag> {
    type Dst = option::Option<T::Dst>;

    ghost Value = { Option T.Value };

    ghost model = { option_map T.model };

    ghost is_valid = { IfPart T.is_valid };

    ghost reading = { option_read Tag.size T.reading };

    fn type_meta() -> TypeMeta {
        TypeMeta::Dynamic
    }

    fn prealloc_size() -> usize {
        T::prealloc_size()
    }

    /// A tag that is neither 0 nor 1 is consumed, and is `InvalidTagEncoding`; fewer bytes than a tag
    /// has stay. A refused value leaves the reader behind its tag, at the least.
    fn read<R: Reader<L>>(
        alloc: Global,
        reader: &mut R,
        dst: &mut option::Option<option::Option<T::Dst>>,
    ) -> ReadResult<()> {
        *dst = Some(get_option::<Tag, L, T, R>(alloc, reader)?);
        Ok(())
    }

    #[inline(always)]
    fn read_at_once<R: Reader<L>>(
        alloc: Global,
        reader: &mut R,
        n: usize,
        into: &mut Vec<Self::Dst>,
    ) -> option::Option<ReadResult<()>> {
        let _ = (alloc, n);
        let _ = &*reader;
        let _ = &*into;
        None
    }

    #[inline(always)]
    fn blank() -> option::Option<Self::Dst> {
        None
    }

    #[inline(always)]
    fn decode(bytes: &[u8], place: &mut Self::Dst) -> bool {
        let _ = bytes.len();
        let _ = &*place;
        false
    }

    ghost read_laws = { option_read_laws Tag.size (some_bytes Tag.tag_law) T.is_valid T.reading T.read_laws };
}

impl<L: Lending, T: RoundTrip<L>, Tag: TagCode> RoundTrip<L> for Option<T, Tag>
where
    T::Src: Drop,
{
    ghost reads_back = { option_reads_back Tag.size T.SchemaWrite.is_valid T.SchemaWrite.model T.SchemaWrite.writing T.SchemaRead.model T.SchemaRead.reading T.reads_back };
}

/// A `Result` is such a tag, 0 for `Ok` and 1 for `Err`, and then the value or the error.
pub struct Result<T, E, Tag>(PhantomData<(T, E, Tag)>);

impl<T: SchemaWrite, E: SchemaWrite, Tag: TagCode> SchemaWrite for Result<T, E, Tag> {
    type Src = result::Result<T::Src, E::Src>;

    ghost Value = { Result T.Value E.Value };

    ghost model = { result_map_both T.model E.model };

    ghost is_valid = { IfSide T.is_valid E.is_valid };

    ghost writing = { result_write Tag.size T.writing E.writing };

    fn type_meta() -> TypeMeta {
        result_meta(Tag::tag_size(), T::type_meta(), E::type_meta())
    }

    fn size_of(src: &result::Result<T::Src, E::Src>) -> WriteResult<usize> {
        size_of_result::<Tag, T, E>(src)
    }

    fn write<W: Writer>(writer: &mut W, src: &result::Result<T::Src, E::Src>) -> WriteResult<()> {
        write_result::<Tag, T, E, W>(writer, src)
    }

    #[inline(always)]
    fn write_at_once<W: Writer>(
        writer: &mut W,
        items: &[Self::Src],
    ) -> option::Option<WriteResult<()>> {
        let _ = &*writer;
        let _items = items.len();
        None
    }

    #[inline(always)]
    fn known_size() -> option::Option<usize> {
        None
    }

    #[inline(always)]
    fn encode_front(src: &Self::Src, dst: &mut [u8]) -> option::Option<usize> {
        let _ = src;
        let _len = dst.len();
        None
    }

    ghost write_laws = { result_write_laws Tag.size T.is_valid E.is_valid T.model E.model T.writing E.writing T.write_laws E.write_laws };
}

impl<L: Lending, T: SchemaRead<L>, E: SchemaRead<L>, Tag: TagCode> SchemaRead<L>
    for Result<T, E, Tag> {
    type Dst = result::Result<T::Dst, E::Dst>;

    ghost Value = { Result T.Value E.Value };

    ghost model = { result_map_both T.model E.model };

    ghost is_valid = { IfSide T.is_valid E.is_valid };

    ghost reading = { result_read Tag.size T.reading E.reading };

    fn type_meta() -> TypeMeta {
        result_meta(Tag::tag_size(), T::type_meta(), E::type_meta())
    }

    fn prealloc_size() -> usize {
        T::prealloc_size().max(E::prealloc_size())
    }

    /// A tag that is neither 0 nor 1 is consumed, and is `InvalidTagEncoding`; fewer bytes than a tag
    /// has stay. A refused side leaves the reader behind its tag, at the least.
    fn read<R: Reader<L>>(
        alloc: Global,
        reader: &mut R,
        dst: &mut option::Option<result::Result<T::Dst, E::Dst>>,
    ) -> ReadResult<()> {
        *dst = Some(get_result::<Tag, L, T, E, R>(alloc, reader)?);
        Ok(())
    }

    #[inline(always)]
    fn read_at_once<R: Reader<L>>(
        alloc: Global,
        reader: &mut R,
        n: usize,
        into: &mut Vec<Self::Dst>,
    ) -> option::Option<ReadResult<()>> {
        let _ = (alloc, n);
        let _ = &*reader;
        let _ = &*into;
        None
    }

    #[inline(always)]
    fn blank() -> option::Option<Self::Dst> {
        None
    }

    #[inline(always)]
    fn decode(bytes: &[u8], place: &mut Self::Dst) -> bool {
        let _ = bytes.len();
        let _ = &*place;
        false
    }

    ghost read_laws = { result_read_laws Tag.size (some_bytes Tag.tag_law) T.is_valid E.is_valid T.reading E.reading T.read_laws E.read_laws };
}

impl<L: Lending, T: RoundTrip<L>, E: RoundTrip<L>, Tag: TagCode> RoundTrip<L> for Result<T, E, Tag>
where
    T::Src: Drop,
    E::Src: Drop,
{
    ghost reads_back = { result_reads_back Tag.size T.SchemaWrite.is_valid E.SchemaWrite.is_valid T.SchemaWrite.model
        T.SchemaWrite.writing T.SchemaRead.model T.SchemaRead.reading E.SchemaWrite.model E.SchemaWrite.writing
        E.SchemaRead.model E.SchemaRead.reading T.reads_back E.reads_back };
}

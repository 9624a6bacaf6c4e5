//! Schemas of a tag and then what it names.
ghost use Rattle.std.proofs.Common.{lit≤};
ghost use Rattle.std.specs.Option.{option_map};
ghost use Rattle.std.specs.Prelude.{◌≡◌, ◌≤◌, length, take, Option, Result, IsTrue, IfSome, IfNone};
ghost use Rattle.std.specs.Result.{result_map_both};
ghost use Rattle.wincode_base.specs.Outcomes.{Gives, GetOutcome};
ghost use Rattle.wincode_base.specs.TagLaws.{option_read_laws, result_read_laws};
ghost use Rattle.wincode_base.specs.Tags.{option_read, IfPart, result_read, IfSide};

use crate::schema::as_forms::decode_form;
use crate::schema::at_hand::decoded;
use crate::schema::{SchemaGet, SchemaRead};
use std::alloc::Global;
use wincode_base::error::{ReadResult, invalid_tag_encoding};
use wincode_base::meta::TypeMeta;
use wincode_base::sizes::result_meta;
use wincode_base::tag::{TagCode, read_tag};
use wincode_io::{Lending, Reader};

/// A tag, and then what it names.
pub fn get_option<Tag: TagCode, L: Lending, T: SchemaRead<L>, R: Reader<L>>(
    alloc: Global,
    reader: &mut R,
) -> ReadResult<Option<T::Dst>>
    ensures { GetOutcome (option_read Tag.size T.reading) (option_map T.model) (R.state reader.old) (R.state reader.new) result }
{
    let tag = read_tag::<Tag, L, R>(reader)?;
    match tag {
        0 => Ok(None),
        1 => {
            let value = T::get(alloc, reader)?;
            Ok(Some(value))
        }
        _ => Err(invalid_tag_encoding(tag)),
    }
}

/// The option in front of the bytes, whose tag is one byte, and how many bytes it has; none where its value isn't there
/// whole, or its schema doesn't decode it.
#[inline(always)]
fn decoded_option<L: Lending, T: SchemaRead<L>>(bytes: &[u8]) -> Option<(Option<T::Dst>, usize)>
    ensures { IfSome result (λ d. (d.1 ≤ length bytes.now) × (option_read 1 T.reading).reads (take d.1 bytes.now) (option_map T.model d.0)) }
{
    let (tag, behind) = bytes.split_first()?;
    match tag {
        0 => Some((None, 1)),
        1 => {
            let TypeMeta::Static { size, .. } = T::type_meta() else {
                return None;
            };
            let value = decoded::<L, T>(behind.get(..size)?)?;
            Some((Some(value), 1 + size))
        }
        _ => None,
    }
}

/// The option at the front, where its bytes are at hand and its schema decodes its value. Else the reader is as it was.
#[inline(always)]
fn option_at_hand<L: Lending, T: SchemaRead<L>, R: Reader<L>>(
    reader: &mut R,
) -> Option<Option<T::Dst>>
    ensures some { IfSome result (λ d. Gives (option_read 1 T.reading).reads (R.state reader.old) (R.state reader.new) (option_map T.model d)) }
    ensures none { IfNone result (R.state reader.new ≡ R.state reader.old) }
{
    let (value, size) = decoded_option::<L, T>(reader.at_hand())?;
    reader.consume_unchecked(size);
    Some(value)
}

/// A tag, and then the side that it names.
pub fn get_result<Tag: TagCode, L: Lending, T: SchemaRead<L>, E: SchemaRead<L>, R: Reader<L>>(
    alloc: Global,
    reader: &mut R,
) -> ReadResult<Result<T::Dst, E::Dst>>
    ensures { GetOutcome (result_read Tag.size T.reading E.reading) (result_map_both T.model E.model) (R.state reader.old) (R.state reader.new) result }
{
    let side = read_tag::<Tag, L, R>(reader)?;
    match side {
        0 => {
            let value = T::get(alloc, reader)?;
            Ok(Ok(value))
        }
        1 => {
            let error = E::get(alloc, reader)?;
            Ok(Err(error))
        }
        _ => Err(invalid_tag_encoding(side)),
    }
}

/// Puts the side that the number in front names into the place, where its bytes are all that stand behind.
#[inline(always)]
fn decode_result<L: Lending, T: SchemaRead<L>, E: SchemaRead<L>>(
    bytes: &[u8],
    place: &mut Result<T::Dst, E::Dst>,
) -> bool
    ensures { IsTrue result → (result_read 4 T.reading E.reading).reads bytes.now (result_map_both T.model E.model place.new) }
{
    if bytes.len() < 4 {
        return false;
    }
    let (front, back) = bytes.split_at(4);
    let mut side = 0u32;
    if !decode_form(front, &mut side) {
        return false;
    }
    match side {
        0 => {
            let Some(value) = decoded::<L, T>(back) else {
                return false;
            };
            *place = Ok(value);
            true
        }
        1 => {
            let Some(error) = decoded::<L, E>(back) else {
                return false;
            };
            *place = Err(error);
            true
        }
        _ => false,
    }
}

impl<L: Lending, T: SchemaRead<L>> SchemaRead<L> for Option<T> {
    type Dst = Option<T::Dst>;

    ghost Value = { Option T.Value };

    ghost model = { option_map T.model };

    ghost is_valid = { IfPart T.is_valid };

    ghost reading = { option_read 1 T.reading };

    fn type_meta() -> TypeMeta {
        TypeMeta::Dynamic
    }

    fn prealloc_size() -> usize {
        T::prealloc_size()
    }

    /// A byte that is neither 0 nor 1 is consumed, and is `InvalidTagEncoding`. A refused value leaves
    /// the reader behind its tag, at the least.
    fn read<R: Reader<L>>(
        alloc: Global,
        reader: &mut R,
        dst: &mut Option<Option<T::Dst>>,
    ) -> ReadResult<()> {
        if let Some(value) = option_at_hand::<L, T, R>(reader) {
            *dst = Some(value);
            return Ok(());
        }
        *dst = Some(get_option::<u8, L, T, R>(alloc, reader)?);
        Ok(())
    }

    #[inline(always)]
    fn read_at_once<R: Reader<L>>(
        alloc: Global,
        reader: &mut R,
        n: usize,
        into: &mut Vec<Self::Dst>,
    ) -> Option<ReadResult<()>> {
        let _ = (alloc, n);
        let _ = &*reader;
        let _ = &*into;
        None
    }

    #[inline(always)]
    fn blank() -> Option<Self::Dst> {
        None
    }

    #[inline(always)]
    fn decode(bytes: &[u8], place: &mut Self::Dst) -> bool {
        let _ = bytes.len();
        let _ = &*place;
        false
    }

    ghost read_laws = { option_read_laws 1 (lit≤ tt) T.is_valid T.reading T.read_laws };
}

impl<L: Lending, T: SchemaRead<L>, E: SchemaRead<L>> SchemaRead<L> for Result<T, E> {
    type Dst = Result<T::Dst, E::Dst>;

    ghost Value = { Result T.Value E.Value };

    ghost model = { result_map_both T.model E.model };

    ghost is_valid = { IfSide T.is_valid E.is_valid };

    ghost reading = { result_read 4 T.reading E.reading };

    fn type_meta() -> TypeMeta {
        result_meta(4, T::type_meta(), E::type_meta())
    }

    fn prealloc_size() -> usize {
        T::prealloc_size().max(E::prealloc_size())
    }

    /// A number that is neither 0 nor 1 is consumed, and is `InvalidTagEncoding`; fewer than four
    /// bytes stay. A refused side leaves the reader behind the number, at the least.
    fn read<R: Reader<L>>(
        alloc: Global,
        reader: &mut R,
        dst: &mut Option<Result<T::Dst, E::Dst>>,
    ) -> ReadResult<()> {
        *dst = Some(get_result::<u32, L, T, E, R>(alloc, reader)?);
        Ok(())
    }

    #[inline(always)]
    fn blank() -> Option<Result<T::Dst, E::Dst>> {
        let value = T::blank()?;
        Some(Ok(value))
    }

    #[inline(always)]
    fn decode(bytes: &[u8], place: &mut Result<T::Dst, E::Dst>) -> bool {
        decode_result::<L, T, E>(bytes, place)
    }

    #[inline(always)]
    fn read_at_once<R: Reader<L>>(
        alloc: Global,
        reader: &mut R,
        n: usize,
        into: &mut Vec<Self::Dst>,
    ) -> Option<ReadResult<()>> {
        let _ = (alloc, n);
        let _ = &*reader;
        let _ = &*into;
        None
    }

    ghost read_laws = { result_read_laws 4 (lit≤ tt) T.is_valid E.is_valid T.reading E.reading T.read_laws E.read_laws };
}

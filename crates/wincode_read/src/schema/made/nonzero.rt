//! Written by `tools/templates`: numbers other than 0.
ghost use Rattle.std.proofs.Common.{lit≤};
ghost use Rattle.std.specs.Int.{w8, w16, w32, w64, w128};
ghost use Rattle.std.specs.Int.NonZero.{
  non_zero_u8_get,
  non_zero_u16_get,
  non_zero_u32_get,
  non_zero_u64_get,
  non_zero_u128_get,
  non_zero_usize_get,
  non_zero_i8_get,
  non_zero_i16_get,
  non_zero_i32_get,
  non_zero_i64_get,
  non_zero_i128_get,
  non_zero_isize_get,
};
ghost use Rattle.std.specs.Prelude.{false, pos, refl, true};
ghost use Rattle.wincode_base.specs.LeafLaws.{number_read_laws, signed_read_laws};
ghost use Rattle.wincode_base.specs.Made.{IsMadeOf, IsNot, is_zero, made_read};
ghost use Rattle.wincode_base.specs.MadeLaws.{made_read_laws, one_number};

use crate::schema::SchemaRead;
use crate::schema::made::{FromParts, decode_made, read_made};
use std::alloc::Global;
use std::num::{
    NonZeroI8, NonZeroI16, NonZeroI32, NonZeroI64, NonZeroI128, NonZeroIsize, NonZeroU8,
    NonZeroU16, NonZeroU32, NonZeroU64, NonZeroU128, NonZeroUsize,
};
use wincode_base::error::{ReadError, ReadResult};
use wincode_base::meta::TypeMeta;
use wincode_base::sizes::reference_meta;
use wincode_io::{Lending, Reader};

impl<L: Lending> FromParts<L, u8> for NonZeroU8 {
    ghost parts = { non_zero_u8_get };

    ghost made = { IsNot 0 };

    ghost text = { is_zero };

    fn from_parts(of: u8) -> ReadResult<NonZeroU8> {
        match NonZeroU8::new(of) {
            Some(number) => Ok(number),
            None => Err(ReadError::Custom("zero")),
        }
    }
}

impl<L: Lending> SchemaRead<L> for NonZeroU8 {
    type Dst = NonZeroU8;

    ghost Value = { ⟦<u8 as SchemaRead<L>>⟧.Value };

    ghost model = { λ x. ⟦<u8 as SchemaRead<L>>⟧.model (non_zero_u8_get x) };

    ghost is_valid = { IsMadeOf ⟦<u8 as SchemaRead<L>>⟧.model (IsNot 0) ⟦<u8 as SchemaRead<L>>⟧.is_valid };

    ghost reading = { made_read ⟦<u8 as SchemaRead<L>>⟧.model (IsNot 0) is_zero ⟦<u8 as SchemaRead<L>>⟧.reading };

    fn type_meta() -> TypeMeta {
        reference_meta(<u8 as SchemaRead<L>>::type_meta())
    }

    fn prealloc_size() -> usize {
        <u8 as SchemaRead<L>>::prealloc_size()
    }

    fn read<R: Reader<L>>(
        alloc: Global,
        reader: &mut R,
        dst: &mut Option<NonZeroU8>,
    ) -> ReadResult<()> {
        read_made::<L, u8, NonZeroU8, R>(alloc, reader, dst)
    }

    #[inline(always)]
    fn read_at_once<R: Reader<L>>(
        alloc: Global,
        reader: &mut R,
        n: usize,
        into: &mut Vec<Self::Dst>,
    ) -> Option<ReadResult<()>> {
        let _ = (alloc, n);
        let _ = &*reader;
        let _ = &*into;
        None
    }

    #[inline(always)]
    fn blank() -> Option<NonZeroU8> {
        Some(NonZeroU8::MIN)
    }

    #[inline(always)]
    fn decode(bytes: &[u8], place: &mut NonZeroU8) -> bool {
        decode_made::<L, u8, NonZeroU8>(bytes, place)
    }

    ghost read_laws = { made_read_laws ⟦<u8 as SchemaRead<L>>⟧.model (IsNot 0) is_zero ⟦<u8 as SchemaRead<L>>⟧.reading
        (one_number (λ v. v) 0) (number_read_laws 1 true (lit≤ tt)) };
}

impl<L: Lending> FromParts<L, u16> for NonZeroU16 {
    ghost parts = { non_zero_u16_get };

    ghost made = { IsNot 0 };

    ghost text = { is_zero };

    fn from_parts(of: u16) -> ReadResult<NonZeroU16> {
        match NonZeroU16::new(of) {
            Some(number) => Ok(number),
            None => Err(ReadError::Custom("zero")),
        }
    }
}

impl<L: Lending> SchemaRead<L> for NonZeroU16 {
    type Dst = NonZeroU16;

    ghost Value = { ⟦<u16 as SchemaRead<L>>⟧.Value };

    ghost model = { λ x. ⟦<u16 as SchemaRead<L>>⟧.model (non_zero_u16_get x) };

    ghost is_valid = { IsMadeOf ⟦<u16 as SchemaRead<L>>⟧.model (IsNot 0) ⟦<u16 as SchemaRead<L>>⟧.is_valid };

    ghost reading = { made_read ⟦<u16 as SchemaRead<L>>⟧.model (IsNot 0) is_zero ⟦<u16 as SchemaRead<L>>⟧.reading };

    fn type_meta() -> TypeMeta {
        reference_meta(<u16 as SchemaRead<L>>::type_meta())
    }

    fn prealloc_size() -> usize {
        <u16 as SchemaRead<L>>::prealloc_size()
    }

    fn read<R: Reader<L>>(
        alloc: Global,
        reader: &mut R,
        dst: &mut Option<NonZeroU16>,
    ) -> ReadResult<()> {
        read_made::<L, u16, NonZeroU16, R>(alloc, reader, dst)
    }

    #[inline(always)]
    fn read_at_once<R: Reader<L>>(
        alloc: Global,
        reader: &mut R,
        n: usize,
        into: &mut Vec<Self::Dst>,
    ) -> Option<ReadResult<()>> {
        let _ = (alloc, n);
        let _ = &*reader;
        let _ = &*into;
        None
    }

    #[inline(always)]
    fn blank() -> Option<NonZeroU16> {
        Some(NonZeroU16::MIN)
    }

    #[inline(always)]
    fn decode(bytes: &[u8], place: &mut NonZeroU16) -> bool {
        decode_made::<L, u16, NonZeroU16>(bytes, place)
    }

    ghost read_laws = { made_read_laws ⟦<u16 as SchemaRead<L>>⟧.model (IsNot 0) is_zero ⟦<u16 as SchemaRead<L>>⟧.reading
        (one_number (λ v. v) 0) (number_read_laws 2 true (lit≤ tt)) };
}

impl<L: Lending> FromParts<L, u32> for NonZeroU32 {
    ghost parts = { non_zero_u32_get };

    ghost made = { IsNot 0 };

    ghost text = { is_zero };

    fn from_parts(of: u32) -> ReadResult<NonZeroU32> {
        match NonZeroU32::new(of) {
            Some(number) => Ok(number),
            None => Err(ReadError::Custom("zero")),
        }
    }
}

impl<L: Lending> SchemaRead<L> for NonZeroU32 {
    type Dst = NonZeroU32;

    ghost Value = { ⟦<u32 as SchemaRead<L>>⟧.Value };

    ghost model = { λ x. ⟦<u32 as SchemaRead<L>>⟧.model (non_zero_u32_get x) };

    ghost is_valid = { IsMadeOf ⟦<u32 as SchemaRead<L>>⟧.model (IsNot 0) ⟦<u32 as SchemaRead<L>>⟧.is_valid };

    ghost reading = { made_read ⟦<u32 as SchemaRead<L>>⟧.model (IsNot 0) is_zero ⟦<u32 as SchemaRead<L>>⟧.reading };

    fn type_meta() -> TypeMeta {
        reference_meta(<u32 as SchemaRead<L>>::type_meta())
    }

    fn prealloc_size() -> usize {
        <u32 as SchemaRead<L>>::prealloc_size()
    }

    fn read<R: Reader<L>>(
        alloc: Global,
        reader: &mut R,
        dst: &mut Option<NonZeroU32>,
    ) -> ReadResult<()> {
        read_made::<L, u32, NonZeroU32, R>(alloc, reader, dst)
    }

    #[inline(always)]
    fn read_at_once<R: Reader<L>>(
        alloc: Global,
        reader: &mut R,
        n: usize,
        into: &mut Vec<Self::Dst>,
    ) -> Option<ReadResult<()>> {
        let _ = (alloc, n);
        let _ = &*reader;
        let _ = &*into;
        None
    }

    #[inline(always)]
    fn blank() -> Option<NonZeroU32> {
        Some(NonZeroU32::MIN)
    }

    #[inline(always)]
    fn decode(bytes: &[u8], place: &mut NonZeroU32) -> bool {
        decode_made::<L, u32, NonZeroU32>(bytes, place)
    }

    ghost read_laws = { made_read_laws ⟦<u32 as SchemaRead<L>>⟧.model (IsNot 0) is_zero ⟦<u32 as SchemaRead<L>>⟧.reading
        (one_number (λ v. v) 0) (number_read_laws 4 true (lit≤ tt)) };
}

impl<L: Lending> FromParts<L, u64> for NonZeroU64 {
    ghost parts = { non_zero_u64_get };

    ghost made = { IsNot 0 };

    ghost text = { is_zero };

    fn from_parts(of: u64) -> ReadResult<NonZeroU64> {
        match NonZeroU64::new(of) {
            Some(number) => Ok(number),
            None => Err(ReadError::Custom("zero")),
        }
    }
}

impl<L: Lending> SchemaRead<L> for NonZeroU64 {
    type Dst = NonZeroU64;

    ghost Value = { ⟦<u64 as SchemaRead<L>>⟧.Value };

    ghost model = { λ x. ⟦<u64 as SchemaRead<L>>⟧.model (non_zero_u64_get x) };

    ghost is_valid = { IsMadeOf ⟦<u64 as SchemaRead<L>>⟧.model (IsNot 0) ⟦<u64 as SchemaRead<L>>⟧.is_valid };

    ghost reading = { made_read ⟦<u64 as SchemaRead<L>>⟧.model (IsNot 0) is_zero ⟦<u64 as SchemaRead<L>>⟧.reading };

    fn type_meta() -> TypeMeta {
        reference_meta(<u64 as SchemaRead<L>>::type_meta())
    }

    fn prealloc_size() -> usize {
        <u64 as SchemaRead<L>>::prealloc_size()
    }

    fn read<R: Reader<L>>(
        alloc: Global,
        reader: &mut R,
        dst: &mut Option<NonZeroU64>,
    ) -> ReadResult<()> {
        read_made::<L, u64, NonZeroU64, R>(alloc, reader, dst)
    }

    #[inline(always)]
    fn read_at_once<R: Reader<L>>(
        alloc: Global,
        reader: &mut R,
        n: usize,
        into: &mut Vec<Self::Dst>,
    ) -> Option<ReadResult<()>> {
        let _ = (alloc, n);
        let _ = &*reader;
        let _ = &*into;
        None
    }

    #[inline(always)]
    fn blank() -> Option<NonZeroU64> {
        Some(NonZeroU64::MIN)
    }

    #[inline(always)]
    fn decode(bytes: &[u8], place: &mut NonZeroU64) -> bool {
        decode_made::<L, u64, NonZeroU64>(bytes, place)
    }

    ghost read_laws = { made_read_laws ⟦<u64 as SchemaRead<L>>⟧.model (IsNot 0) is_zero ⟦<u64 as SchemaRead<L>>⟧.reading
        (one_number (λ v. v) 0) (number_read_laws 8 true (lit≤ tt)) };
}

impl<L: Lending> FromParts<L, u128> for NonZeroU128 {
    ghost parts = { non_zero_u128_get };

    ghost made = { IsNot 0 };

    ghost text = { is_zero };

    fn from_parts(of: u128) -> ReadResult<NonZeroU128> {
        match NonZeroU128::new(of) {
            Some(number) => Ok(number),
            None => Err(ReadError::Custom("zero")),
        }
    }
}

impl<L: Lending> SchemaRead<L> for NonZeroU128 {
    type Dst = NonZeroU128;

    ghost Value = { ⟦<u128 as SchemaRead<L>>⟧.Value };

    ghost model = { λ x. ⟦<u128 as SchemaRead<L>>⟧.model (non_zero_u128_get x) };

    ghost is_valid = { IsMadeOf ⟦<u128 as SchemaRead<L>>⟧.model (IsNot 0) ⟦<u128 as SchemaRead<L>>⟧.is_valid };

    ghost reading = { made_read ⟦<u128 as SchemaRead<L>>⟧.model (IsNot 0) is_zero ⟦<u128 as SchemaRead<L>>⟧.reading };

    fn type_meta() -> TypeMeta {
        reference_meta(<u128 as SchemaRead<L>>::type_meta())
    }

    fn prealloc_size() -> usize {
        <u128 as SchemaRead<L>>::prealloc_size()
    }

    fn read<R: Reader<L>>(
        alloc: Global,
        reader: &mut R,
        dst: &mut Option<NonZeroU128>,
    ) -> ReadResult<()> {
        read_made::<L, u128, NonZeroU128, R>(alloc, reader, dst)
    }

    #[inline(always)]
    fn read_at_once<R: Reader<L>>(
        alloc: Global,
        reader: &mut R,
        n: usize,
        into: &mut Vec<Self::Dst>,
    ) -> Option<ReadResult<()>> {
        let _ = (alloc, n);
        let _ = &*reader;
        let _ = &*into;
        None
    }

    #[inline(always)]
    fn blank() -> Option<NonZeroU128> {
        Some(NonZeroU128::MIN)
    }

    #[inline(always)]
    fn decode(bytes: &[u8], place: &mut NonZeroU128) -> bool {
        decode_made::<L, u128, NonZeroU128>(bytes, place)
    }

    ghost read_laws = { made_read_laws ⟦<u128 as SchemaRead<L>>⟧.model (IsNot 0) is_zero ⟦<u128 as SchemaRead<L>>⟧.reading
        (one_number (λ v. v) 0) (number_read_laws 16 true (lit≤ tt)) };
}

impl<L: Lending> FromParts<L, usize> for NonZeroUsize {
    ghost parts = { non_zero_usize_get };

    ghost made = { IsNot 0 };

    ghost text = { is_zero };

    fn from_parts(of: usize) -> ReadResult<NonZeroUsize> {
        match NonZeroUsize::new(of) {
            Some(number) => Ok(number),
            None => Err(ReadError::Custom("zero")),
        }
    }
}

impl<L: Lending> SchemaRead<L> for NonZeroUsize {
    type Dst = NonZeroUsize;

    ghost Value = { ⟦<usize as SchemaRead<L>>⟧.Value };

    ghost model = { λ x. ⟦<usize as SchemaRead<L>>⟧.model (non_zero_usize_get x) };

    ghost is_valid = { IsMadeOf ⟦<usize as SchemaRead<L>>⟧.model (IsNot 0) ⟦<usize as SchemaRead<L>>⟧.is_valid };

    ghost reading = { made_read ⟦<usize as SchemaRead<L>>⟧.model (IsNot 0) is_zero ⟦<usize as SchemaRead<L>>⟧.reading };

    fn type_meta() -> TypeMeta {
        reference_meta(<usize as SchemaRead<L>>::type_meta())
    }

    fn prealloc_size() -> usize {
        <usize as SchemaRead<L>>::prealloc_size()
    }

    fn read<R: Reader<L>>(
        alloc: Global,
        reader: &mut R,
        dst: &mut Option<NonZeroUsize>,
    ) -> ReadResult<()> {
        read_made::<L, usize, NonZeroUsize, R>(alloc, reader, dst)
    }

    #[inline(always)]
    fn read_at_once<R: Reader<L>>(
        alloc: Global,
        reader: &mut R,
        n: usize,
        into: &mut Vec<Self::Dst>,
    ) -> Option<ReadResult<()>> {
        let _ = (alloc, n);
        let _ = &*reader;
        let _ = &*into;
        None
    }

    #[inline(always)]
    fn blank() -> Option<NonZeroUsize> {
        Some(NonZeroUsize::MIN)
    }

    #[inline(always)]
    fn decode(bytes: &[u8], place: &mut NonZeroUsize) -> bool {
        decode_made::<L, usize, NonZeroUsize>(bytes, place)
    }

    ghost read_laws = { made_read_laws ⟦<usize as SchemaRead<L>>⟧.model (IsNot 0) is_zero ⟦<usize as SchemaRead<L>>⟧.reading
        (one_number (λ v. v) 0) (number_read_laws 8 false (lit≤ tt)) };
}

impl<L: Lending> FromParts<L, i8> for NonZeroI8 {
    ghost parts = { non_zero_i8_get };

    ghost made = { IsNot (pos 0) };

    ghost text = { is_zero };

    fn from_parts(of: i8) -> ReadResult<NonZeroI8> {
        match NonZeroI8::new(of) {
            Some(number) => Ok(number),
            None => Err(ReadError::Custom("zero")),
        }
    }
}

impl<L: Lending> SchemaRead<L> for NonZeroI8 {
    type Dst = NonZeroI8;

    ghost Value = { ⟦<i8 as SchemaRead<L>>⟧.Value };

    ghost model = { λ x. ⟦<i8 as SchemaRead<L>>⟧.model (non_zero_i8_get x) };

    ghost is_valid = { IsMadeOf ⟦<i8 as SchemaRead<L>>⟧.model (IsNot (pos 0)) ⟦<i8 as SchemaRead<L>>⟧.is_valid };

    ghost reading = { made_read ⟦<i8 as SchemaRead<L>>⟧.model (IsNot (pos 0)) is_zero ⟦<i8 as SchemaRead<L>>⟧.reading };

    fn type_meta() -> TypeMeta {
        reference_meta(<i8 as SchemaRead<L>>::type_meta())
    }

    fn prealloc_size() -> usize {
        <i8 as SchemaRead<L>>::prealloc_size()
    }

    fn read<R: Reader<L>>(
        alloc: Global,
        reader: &mut R,
        dst: &mut Option<NonZeroI8>,
    ) -> ReadResult<()> {
        read_made::<L, i8, NonZeroI8, R>(alloc, reader, dst)
    }

    #[inline(always)]
    fn read_at_once<R: Reader<L>>(
        alloc: Global,
        reader: &mut R,
        n: usize,
        into: &mut Vec<Self::Dst>,
    ) -> Option<ReadResult<()>> {
        let _ = (alloc, n);
        let _ = &*reader;
        let _ = &*into;
        None
    }

    #[inline(always)]
    fn blank() -> Option<NonZeroI8> {
        Some(NonZeroI8::MIN)
    }

    #[inline(always)]
    fn decode(bytes: &[u8], place: &mut NonZeroI8) -> bool {
        decode_made::<L, i8, NonZeroI8>(bytes, place)
    }

    ghost read_laws = { made_read_laws ⟦<i8 as SchemaRead<L>>⟧.model (IsNot (pos 0)) is_zero ⟦<i8 as SchemaRead<L>>⟧.reading
        (one_number (λ v. v) (pos 0)) (signed_read_laws w8 refl true (lit≤ tt)) };
}

impl<L: Lending> FromParts<L, i16> for NonZeroI16 {
    ghost parts = { non_zero_i16_get };

    ghost made = { IsNot (pos 0) };

    ghost text = { is_zero };

    fn from_parts(of: i16) -> ReadResult<NonZeroI16> {
        match NonZeroI16::new(of) {
            Some(number) => Ok(number),
            None => Err(ReadError::Custom("zero")),
        }
    }
}

impl<L: Lending> SchemaRead<L> for NonZeroI16 {
    type Dst = NonZeroI16;

    ghost Value = { ⟦<i16 as SchemaRead<L>>⟧.Value };

    ghost model = { λ x. ⟦<i16 as SchemaRead<L>>⟧.model (non_zero_i16_get x) };

    ghost is_valid = { IsMadeOf ⟦<i16 as SchemaRead<L>>⟧.model (IsNot (pos 0)) ⟦<i16 as SchemaRead<L>>⟧.is_valid };

    ghost reading = { made_read ⟦<i16 as SchemaRead<L>>⟧.model (IsNot (pos 0)) is_zero ⟦<i16 as SchemaRead<L>>⟧.reading };

    fn type_meta() -> TypeMeta {
        reference_meta(<i16 as SchemaRead<L>>::type_meta())
    }

    fn prealloc_size() -> usize {
        <i16 as SchemaRead<L>>::prealloc_size()
    }

    fn read<R: Reader<L>>(
        alloc: Global,
        reader: &mut R,
        dst: &mut Option<NonZeroI16>,
    ) -> ReadResult<()> {
        read_made::<L, i16, NonZeroI16, R>(alloc, reader, dst)
    }

    #[inline(always)]
    fn read_at_once<R: Reader<L>>(
        alloc: Global,
        reader: &mut R,
        n: usize,
        into: &mut Vec<Self::Dst>,
    ) -> Option<ReadResult<()>> {
        let _ = (alloc, n);
        let _ = &*reader;
        let _ = &*into;
        None
    }

    #[inline(always)]
    fn blank() -> Option<NonZeroI16> {
        Some(NonZeroI16::MIN)
    }

    #[inline(always)]
    fn decode(bytes: &[u8], place: &mut NonZeroI16) -> bool {
        decode_made::<L, i16, NonZeroI16>(bytes, place)
    }

    ghost read_laws = { made_read_laws ⟦<i16 as SchemaRead<L>>⟧.model (IsNot (pos 0)) is_zero ⟦<i16 as SchemaRead<L>>⟧.reading
        (one_number (λ v. v) (pos 0)) (signed_read_laws w16 refl true (lit≤ tt)) };
}

impl<L: Lending> FromParts<L, i32> for NonZeroI32 {
    ghost parts = { non_zero_i32_get };

    ghost made = { IsNot (pos 0) };

    ghost text = { is_zero };

    fn from_parts(of: i32) -> ReadResult<NonZeroI32> {
        match NonZeroI32::new(of) {
            Some(number) => Ok(number),
            None => Err(ReadError::Custom("zero")),
        }
    }
}

impl<L: Lending> SchemaRead<L> for NonZeroI32 {
    type Dst = NonZeroI32;

    ghost Value = { ⟦<i32 as SchemaRead<L>>⟧.Value };

    ghost model = { λ x. ⟦<i32 as SchemaRead<L>>⟧.model (non_zero_i32_get x) };

    ghost is_valid = { IsMadeOf ⟦<i32 as SchemaRead<L>>⟧.model (IsNot (pos 0)) ⟦<i32 as SchemaRead<L>>⟧.is_valid };

    ghost reading = { made_read ⟦<i32 as SchemaRead<L>>⟧.model (IsNot (pos 0)) is_zero ⟦<i32 as SchemaRead<L>>⟧.reading };

    fn type_meta() -> TypeMeta {
        reference_meta(<i32 as SchemaRead<L>>::type_meta())
    }

    fn prealloc_size() -> usize {
        <i32 as SchemaRead<L>>::prealloc_size()
    }

    fn read<R: Reader<L>>(
        alloc: Global,
        reader: &mut R,
        dst: &mut Option<NonZeroI32>,
    ) -> ReadResult<()> {
        read_made::<L, i32, NonZeroI32, R>(alloc, reader, dst)
    }

    #[inline(always)]
    fn read_at_once<R: Reader<L>>(
        alloc: Global,
        reader: &mut R,
        n: usize,
        into: &mut Vec<Self::Dst>,
    ) -> Option<ReadResult<()>> {
        let _ = (alloc, n);
        let _ = &*reader;
        let _ = &*into;
        None
    }

    #[inline(always)]
    fn blank() -> Option<NonZeroI32> {
        Some(NonZeroI32::MIN)
    }

    #[inline(always)]
    fn decode(bytes: &[u8], place: &mut NonZeroI32) -> bool {
        decode_made::<L, i32, NonZeroI32>(bytes, place)
    }

    ghost read_laws = { made_read_laws ⟦<i32 as SchemaRead<L>>⟧.model (IsNot (pos 0)) is_zero ⟦<i32 as SchemaRead<L>>⟧.reading
        (one_number (λ v. v) (pos 0)) (signed_read_laws w32 refl true (lit≤ tt)) };
}

impl<L: Lending> FromParts<L, i64> for NonZeroI64 {
    ghost parts = { non_zero_i64_get };

    ghost made = { IsNot (pos 0) };

    ghost text = { is_zero };

    fn from_parts(of: i64) -> ReadResult<NonZeroI64> {
        match NonZeroI64::new(of) {
            Some(number) => Ok(number),
            None => Err(ReadError::Custom("zero")),
        }
    }
}

impl<L: Lending> SchemaRead<L> for NonZeroI64 {
    type Dst = NonZeroI64;

    ghost Value = { ⟦<i64 as SchemaRead<L>>⟧.Value };

    ghost model = { λ x. ⟦<i64 as SchemaRead<L>>⟧.model (non_zero_i64_get x) };

    ghost is_valid = { IsMadeOf ⟦<i64 as SchemaRead<L>>⟧.model (IsNot (pos 0)) ⟦<i64 as SchemaRead<L>>⟧.is_valid };

    ghost reading = { made_read ⟦<i64 as SchemaRead<L>>⟧.model (IsNot (pos 0)) is_zero ⟦<i64 as SchemaRead<L>>⟧.reading };

    fn type_meta() -> TypeMeta {
        reference_meta(<i64 as SchemaRead<L>>::type_meta())
    }

    fn prealloc_size() -> usize {
        <i64 as SchemaRead<L>>::prealloc_size()
    }

    fn read<R: Reader<L>>(
        alloc: Global,
        reader: &mut R,
        dst: &mut Option<NonZeroI64>,
    ) -> ReadResult<()> {
        read_made::<L, i64, NonZeroI64, R>(alloc, reader, dst)
    }

    #[inline(always)]
    fn read_at_once<R: Reader<L>>(
        alloc: Global,
        reader: &mut R,
        n: usize,
        into: &mut Vec<Self::Dst>,
    ) -> Option<ReadResult<()>> {
        let _ = (alloc, n);
        let _ = &*reader;
        let _ = &*into;
        None
    }

    #[inline(always)]
    fn blank() -> Option<NonZeroI64> {
        Some(NonZeroI64::MIN)
    }

    #[inline(always)]
    fn decode(bytes: &[u8], place: &mut NonZeroI64) -> bool {
        decode_made::<L, i64, NonZeroI64>(bytes, place)
    }

    ghost read_laws = { made_read_laws ⟦<i64 as SchemaRead<L>>⟧.model (IsNot (pos 0)) is_zero ⟦<i64 as SchemaRead<L>>⟧.reading
        (one_number (λ v. v) (pos 0)) (signed_read_laws w64 refl true (lit≤ tt)) };
}

impl<L: Lending> FromParts<L, i128> for NonZeroI128 {
    ghost parts = { non_zero_i128_get };

    ghost made = { IsNot (pos 0) };

    ghost text = { is_zero };

    fn from_parts(of: i128) -> ReadResult<NonZeroI128> {
        match NonZeroI128::new(of) {
            Some(number) => Ok(number),
            None => Err(ReadError::Custom("zero")),
        }
    }
}

impl<L: Lending> SchemaRead<L> for NonZeroI128 {
    type Dst = NonZeroI128;

    ghost Value = { ⟦<i128 as SchemaRead<L>>⟧.Value };

    ghost model = { λ x. ⟦<i128 as SchemaRead<L>>⟧.model (non_zero_i128_get x) };

    ghost is_valid = { IsMadeOf ⟦<i128 as SchemaRead<L>>⟧.model (IsNot (pos 0)) ⟦<i128 as SchemaRead<L>>⟧.is_valid };

    ghost reading = { made_read ⟦<i128 as SchemaRead<L>>⟧.model (IsNot (pos 0)) is_zero ⟦<i128 as SchemaRead<L>>⟧.reading };

    fn type_meta() -> TypeMeta {
        reference_meta(<i128 as SchemaRead<L>>::type_meta())
    }

    fn prealloc_size() -> usize {
        <i128 as SchemaRead<L>>::prealloc_size()
    }

    fn read<R: Reader<L>>(
        alloc: Global,
        reader: &mut R,
        dst: &mut Option<NonZeroI128>,
    ) -> ReadResult<()> {
        read_made::<L, i128, NonZeroI128, R>(alloc, reader, dst)
    }

    #[inline(always)]
    fn read_at_once<R: Reader<L>>(
        alloc: Global,
        reader: &mut R,
        n: usize,
        into: &mut Vec<Self::Dst>,
    ) -> Option<ReadResult<()>> {
        let _ = (alloc, n);
        let _ = &*reader;
        let _ = &*into;
        None
    }

    #[inline(always)]
    fn blank() -> Option<NonZeroI128> {
        Some(NonZeroI128::MIN)
    }

    #[inline(always)]
    fn decode(bytes: &[u8], place: &mut NonZeroI128) -> bool {
        decode_made::<L, i128, NonZeroI128>(bytes, place)
    }

    ghost read_laws = { made_read_laws ⟦<i128 as SchemaRead<L>>⟧.model (IsNot (pos 0)) is_zero ⟦<i128 as SchemaRead<L>>⟧.reading
        (one_number (λ v. v) (pos 0)) (signed_read_laws w128 refl true (lit≤ tt)) };
}

impl<L: Lending> FromParts<L, isize> for NonZeroIsize {
    ghost parts = { non_zero_isize_get };

    ghost made = { IsNot (pos 0) };

    ghost text = { is_zero };

    fn from_parts(of: isize) -> ReadResult<NonZeroIsize> {
        match NonZeroIsize::new(of) {
            Some(number) => Ok(number),
            None => Err(ReadError::Custom("zero")),
        }
    }
}

impl<L: Lending> SchemaRead<L> for NonZeroIsize {
    type Dst = NonZeroIsize;

    ghost Value = { ⟦<isize as SchemaRead<L>>⟧.Value };

    ghost model = { λ x. ⟦<isize as SchemaRead<L>>⟧.model (non_zero_isize_get x) };

    ghost is_valid = { IsMadeOf ⟦<isize as SchemaRead<L>>⟧.model (IsNot (pos 0)) ⟦<isize as SchemaRead<L>>⟧.is_valid };

    ghost reading = { made_read ⟦<isize as SchemaRead<L>>⟧.model (IsNot (pos 0)) is_zero ⟦<isize as SchemaRead<L>>⟧.reading };

    fn type_meta() -> TypeMeta {
        reference_meta(<isize as SchemaRead<L>>::type_meta())
    }

    fn prealloc_size() -> usize {
        <isize as SchemaRead<L>>::prealloc_size()
    }

    fn read<R: Reader<L>>(
        alloc: Global,
        reader: &mut R,
        dst: &mut Option<NonZeroIsize>,
    ) -> ReadResult<()> {
        read_made::<L, isize, NonZeroIsize, R>(alloc, reader, dst)
    }

    #[inline(always)]
    fn read_at_once<R: Reader<L>>(
        alloc: Global,
        reader: &mut R,
        n: usize,
        into: &mut Vec<Self::Dst>,
    ) -> Option<ReadResult<()>> {
        let _ = (alloc, n);
        let _ = &*reader;
        let _ = &*into;
        None
    }

    #[inline(always)]
    fn blank() -> Option<NonZeroIsize> {
        Some(NonZeroIsize::MIN)
    }

    #[inline(always)]
    fn decode(bytes: &[u8], place: &mut NonZeroIsize) -> bool {
        decode_made::<L, isize, NonZeroIsize>(bytes, place)
    }

    ghost read_laws = { made_read_laws ⟦<isize as SchemaRead<L>>⟧.model (IsNot (pos 0)) is_zero ⟦<isize as SchemaRead<L>>⟧.reading
        (one_number (λ v. v) (pos 0)) (signed_read_laws w64 refl false (lit≤ tt)) };
}

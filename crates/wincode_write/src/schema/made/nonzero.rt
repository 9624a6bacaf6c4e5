//! Written by `tools/templates`: numbers other than 0.
ghost use Rattle.std.specs.Int.NonZero.{
  non_zero_u8_get,
  non_zero_u16_get,
  non_zero_u32_get,
  non_zero_u64_get,
  non_zero_u128_get,
  non_zero_usize_get,
  non_zero_i8_get,
  non_zero_i16_get,
  non_zero_i32_get,
  non_zero_i64_get,
  non_zero_i128_get,
  non_zero_isize_get,
};
ghost use Rattle.std.specs.Prelude.{pos};
ghost use Rattle.wincode_base.specs.Made.{IsNot};
ghost use Rattle.wincode_base.specs.MadeLaws.{made_write_laws};
ghost use Rattle.wincode_base.specs.Strings.{reference_write};

use crate::schema::SchemaWrite;
use crate::schema::made::{ToParts, encode_made, size_of_made, write_made};
use std::num::{
    NonZeroI8, NonZeroI16, NonZeroI32, NonZeroI64, NonZeroI128, NonZeroIsize, NonZeroU8,
    NonZeroU16, NonZeroU32, NonZeroU64, NonZeroU128, NonZeroUsize,
};
use wincode_base::error::WriteResult;
use wincode_base::meta::TypeMeta;
use wincode_base::sizes::reference_meta;
use wincode_io::Writer;

impl ToParts<u8> for NonZeroU8 {
    ghost parts = { non_zero_u8_get };

    ghost sound = { λ x. IsNot 0 (non_zero_u8_get x) (non_zero_u8_get x) };

    fn to_parts(&self) -> u8 {
        self.get()
    }
}

impl SchemaWrite for NonZeroU8 {
    type Src = NonZeroU8;

    ghost Value = { ⟦<u8 as SchemaWrite>⟧.Value };

    ghost model = { λ x. ⟦<u8 as SchemaWrite>⟧.model (non_zero_u8_get x) };

    ghost is_valid = { λ x. IsNot 0 (non_zero_u8_get x) (non_zero_u8_get x) × ⟦<u8 as SchemaWrite>⟧.is_valid (non_zero_u8_get x) };

    ghost writing = { reference_write ⟦<u8 as SchemaWrite>⟧.writing };

    fn type_meta() -> TypeMeta {
        reference_meta(<u8 as SchemaWrite>::type_meta())
    }

    fn size_of(src: &NonZeroU8) -> WriteResult<usize> {
        size_of_made::<u8, NonZeroU8>(src)
    }

    fn write<W: Writer>(writer: &mut W, src: &NonZeroU8) -> WriteResult<()> {
        write_made::<u8, NonZeroU8, W>(writer, src)
    }

    #[inline(always)]
    fn known_size() -> Option<usize> {
        Some(1)
    }

    #[inline(always)]
    fn encode_front(src: &NonZeroU8, dst: &mut [u8]) -> Option<usize> {
        encode_made::<u8, NonZeroU8>(src, dst)
    }

    #[inline(always)]
    fn write_at_once<W: Writer>(writer: &mut W, items: &[Self::Src]) -> Option<WriteResult<()>> {
        let _ = &*writer;
        let _items = items.len();
        None
    }

    ghost write_laws = { made_write_laws (λ x. IsNot 0 (non_zero_u8_get x) (non_zero_u8_get x)) non_zero_u8_get ⟦<u8 as SchemaWrite>⟧.write_laws };
}

impl ToParts<u16> for NonZeroU16 {
    ghost parts = { non_zero_u16_get };

    ghost sound = { λ x. IsNot 0 (non_zero_u16_get x) (non_zero_u16_get x) };

    fn to_parts(&self) -> u16 {
        self.get()
    }
}

impl SchemaWrite for NonZeroU16 {
    type Src = NonZeroU16;

    ghost Value = { ⟦<u16 as SchemaWrite>⟧.Value };

    ghost model = { λ x. ⟦<u16 as SchemaWrite>⟧.model (non_zero_u16_get x) };

    ghost is_valid = { λ x. IsNot 0 (non_zero_u16_get x) (non_zero_u16_get x) × ⟦<u16 as SchemaWrite>⟧.is_valid (non_zero_u16_get x) };

    ghost writing = { reference_write ⟦<u16 as SchemaWrite>⟧.writing };

    fn type_meta() -> TypeMeta {
        reference_meta(<u16 as SchemaWrite>::type_meta())
    }

    fn size_of(src: &NonZeroU16) -> WriteResult<usize> {
        size_of_made::<u16, NonZeroU16>(src)
    }

    fn write<W: Writer>(writer: &mut W, src: &NonZeroU16) -> WriteResult<()> {
        write_made::<u16, NonZeroU16, W>(writer, src)
    }

    #[inline(always)]
    fn known_size() -> Option<usize> {
        Some(2)
    }

    #[inline(always)]
    fn encode_front(src: &NonZeroU16, dst: &mut [u8]) -> Option<usize> {
        encode_made::<u16, NonZeroU16>(src, dst)
    }

    #[inline(always)]
    fn write_at_once<W: Writer>(writer: &mut W, items: &[Self::Src]) -> Option<WriteResult<()>> {
        let _ = &*writer;
        let _items = items.len();
        None
    }

    ghost write_laws = { made_write_laws (λ x. IsNot 0 (non_zero_u16_get x) (non_zero_u16_get x)) non_zero_u16_get
        ⟦<u16 as SchemaWrite>⟧.write_laws };
}

impl ToParts<u32> for NonZeroU32 {
    ghost parts = { non_zero_u32_get };

    ghost sound = { λ x. IsNot 0 (non_zero_u32_get x) (non_zero_u32_get x) };

    fn to_parts(&self) -> u32 {
        self.get()
    }
}

impl SchemaWrite for NonZeroU32 {
    type Src = NonZeroU32;

    ghost Value = { ⟦<u32 as SchemaWrite>⟧.Value };

    ghost model = { λ x. ⟦<u32 as SchemaWrite>⟧.model (non_zero_u32_get x) };

    ghost is_valid = { λ x. IsNot 0 (non_zero_u32_get x) (non_zero_u32_get x) × ⟦<u32 as SchemaWrite>⟧.is_valid (non_zero_u32_get x) };

    ghost writing = { reference_write ⟦<u32 as SchemaWrite>⟧.writing };

    fn type_meta() -> TypeMeta {
        reference_meta(<u32 as SchemaWrite>::type_meta())
    }

    fn size_of(src: &NonZeroU32) -> WriteResult<usize> {
        size_of_made::<u32, NonZeroU32>(src)
    }

    fn write<W: Writer>(writer: &mut W, src: &NonZeroU32) -> WriteResult<()> {
        write_made::<u32, NonZeroU32, W>(writer, src)
    }

    #[inline(always)]
    fn known_size() -> Option<usize> {
        Some(4)
    }

    #[inline(always)]
    fn encode_front(src: &NonZeroU32, dst: &mut [u8]) -> Option<usize> {
        encode_made::<u32, NonZeroU32>(src, dst)
    }

    #[inline(always)]
    fn write_at_once<W: Writer>(writer: &mut W, items: &[Self::Src]) -> Option<WriteResult<()>> {
        let _ = &*writer;
        let _items = items.len();
        None
    }

    ghost write_laws = { made_write_laws (λ x. IsNot 0 (non_zero_u32_get x) (non_zero_u32_get x)) non_zero_u32_get
        ⟦<u32 as SchemaWrite>⟧.write_laws };
}

impl ToParts<u64> for NonZeroU64 {
    ghost parts = { non_zero_u64_get };

    ghost sound = { λ x. IsNot 0 (non_zero_u64_get x) (non_zero_u64_get x) };

    fn to_parts(&self) -> u64 {
        self.get()
    }
}

impl SchemaWrite for NonZeroU64 {
    type Src = NonZeroU64;

    ghost Value = { ⟦<u64 as SchemaWrite>⟧.Value };

    ghost model = { λ x. ⟦<u64 as SchemaWrite>⟧.model (non_zero_u64_get x) };

    ghost is_valid = { λ x. IsNot 0 (non_zero_u64_get x) (non_zero_u64_get x) × ⟦<u64 as SchemaWrite>⟧.is_valid (non_zero_u64_get x) };

    ghost writing = { reference_write ⟦<u64 as SchemaWrite>⟧.writing };

    fn type_meta() -> TypeMeta {
        reference_meta(<u64 as SchemaWrite>::type_meta())
    }

    fn size_of(src: &NonZeroU64) -> WriteResult<usize> {
        size_of_made::<u64, NonZeroU64>(src)
    }

    fn write<W: Writer>(writer: &mut W, src: &NonZeroU64) -> WriteResult<()> {
        write_made::<u64, NonZeroU64, W>(writer, src)
    }

    #[inline(always)]
    fn known_size() -> Option<usize> {
        Some(8)
    }

    #[inline(always)]
    fn encode_front(src: &NonZeroU64, dst: &mut [u8]) -> Option<usize> {
        encode_made::<u64, NonZeroU64>(src, dst)
    }

    #[inline(always)]
    fn write_at_once<W: Writer>(writer: &mut W, items: &[Self::Src]) -> Option<WriteResult<()>> {
        let _ = &*writer;
        let _items = items.len();
        None
    }

    ghost write_laws = { made_write_laws (λ x. IsNot 0 (non_zero_u64_get x) (non_zero_u64_get x)) non_zero_u64_get
        ⟦<u64 as SchemaWrite>⟧.write_laws };
}

impl ToParts<u128> for NonZeroU128 {
    ghost parts = { non_zero_u128_get };

    ghost sound = { λ x. IsNot 0 (non_zero_u128_get x) (non_zero_u128_get x) };

    fn to_parts(&self) -> u128 {
        self.get()
    }
}

impl SchemaWrite for NonZeroU128 {
    type Src = NonZeroU128;

    ghost Value = { ⟦<u128 as SchemaWrite>⟧.Value };

    ghost model = { λ x. ⟦<u128 as SchemaWrite>⟧.model (non_zero_u128_get x) };

    ghost is_valid = { λ x. IsNot 0 (non_zero_u128_get x) (non_zero_u128_get x) × ⟦<u128 as SchemaWrite>⟧.is_valid (non_zero_u128_get x) };

    ghost writing = { reference_write ⟦<u128 as SchemaWrite>⟧.writing };

    fn type_meta() -> TypeMeta {
        reference_meta(<u128 as SchemaWrite>::type_meta())
    }

    fn size_of(src: &NonZeroU128) -> WriteResult<usize> {
        size_of_made::<u128, NonZeroU128>(src)
    }

    fn write<W: Writer>(writer: &mut W, src: &NonZeroU128) -> WriteResult<()> {
        write_made::<u128, NonZeroU128, W>(writer, src)
    }

    #[inline(always)]
    fn known_size() -> Option<usize> {
        Some(16)
    }

    #[inline(always)]
    fn encode_front(src: &NonZeroU128, dst: &mut [u8]) -> Option<usize> {
        encode_made::<u128, NonZeroU128>(src, dst)
    }

    #[inline(always)]
    fn write_at_once<W: Writer>(writer: &mut W, items: &[Self::Src]) -> Option<WriteResult<()>> {
        let _ = &*writer;
        let _items = items.len();
        None
    }

    ghost write_laws = { made_write_laws (λ x. IsNot 0 (non_zero_u128_get x) (non_zero_u128_get x)) non_zero_u128_get
        ⟦<u128 as SchemaWrite>⟧.write_laws };
}

impl ToParts<usize> for NonZeroUsize {
    ghost parts = { non_zero_usize_get };

    ghost sound = { λ x. IsNot 0 (non_zero_usize_get x) (non_zero_usize_get x) };

    fn to_parts(&self) -> usize {
        self.get()
    }
}

impl SchemaWrite for NonZeroUsize {
    type Src = NonZeroUsize;

    ghost Value = { ⟦<usize as SchemaWrite>⟧.Value };

    ghost model = { λ x. ⟦<usize as SchemaWrite>⟧.model (non_zero_usize_get x) };

    ghost is_valid = { λ x. IsNot 0 (non_zero_usize_get x) (non_zero_usize_get x) × ⟦<usize as SchemaWrite>⟧.is_valid (non_zero_usize_get x) };

    ghost writing = { reference_write ⟦<usize as SchemaWrite>⟧.writing };

    fn type_meta() -> TypeMeta {
        reference_meta(<usize as SchemaWrite>::type_meta())
    }

    fn size_of(src: &NonZeroUsize) -> WriteResult<usize> {
        size_of_made::<usize, NonZeroUsize>(src)
    }

    fn write<W: Writer>(writer: &mut W, src: &NonZeroUsize) -> WriteResult<()> {
        write_made::<usize, NonZeroUsize, W>(writer, src)
    }

    #[inline(always)]
    fn known_size() -> Option<usize> {
        Some(8)
    }

    #[inline(always)]
    fn encode_front(src: &NonZeroUsize, dst: &mut [u8]) -> Option<usize> {
        encode_made::<usize, NonZeroUsize>(src, dst)
    }

    #[inline(always)]
    fn write_at_once<W: Writer>(writer: &mut W, items: &[Self::Src]) -> Option<WriteResult<()>> {
        let _ = &*writer;
        let _items = items.len();
        None
    }

    ghost write_laws = { made_write_laws (λ x. IsNot 0 (non_zero_usize_get x) (non_zero_usize_get x)) non_zero_usize_get
        ⟦<usize as SchemaWrite>⟧.write_laws };
}

impl ToParts<i8> for NonZeroI8 {
    ghost parts = { non_zero_i8_get };

    ghost sound = { λ x. IsNot (pos 0) (non_zero_i8_get x) (non_zero_i8_get x) };

    fn to_parts(&self) -> i8 {
        self.get()
    }
}

impl SchemaWrite for NonZeroI8 {
    type Src = NonZeroI8;

    ghost Value = { ⟦<i8 as SchemaWrite>⟧.Value };

    ghost model = { λ x. ⟦<i8 as SchemaWrite>⟧.model (non_zero_i8_get x) };

    ghost is_valid = { λ x. IsNot (pos 0) (non_zero_i8_get x) (non_zero_i8_get x) × ⟦<i8 as SchemaWrite>⟧.is_valid (non_zero_i8_get x) };

    ghost writing = { reference_write ⟦<i8 as SchemaWrite>⟧.writing };

    fn type_meta() -> TypeMeta {
        reference_meta(<i8 as SchemaWrite>::type_meta())
    }

    fn size_of(src: &NonZeroI8) -> WriteResult<usize> {
        size_of_made::<i8, NonZeroI8>(src)
    }

    fn write<W: Writer>(writer: &mut W, src: &NonZeroI8) -> WriteResult<()> {
        write_made::<i8, NonZeroI8, W>(writer, src)
    }

    #[inline(always)]
    fn known_size() -> Option<usize> {
        Some(1)
    }

    #[inline(always)]
    fn encode_front(src: &NonZeroI8, dst: &mut [u8]) -> Option<usize> {
        encode_made::<i8, NonZeroI8>(src, dst)
    }

    #[inline(always)]
    fn write_at_once<W: Writer>(writer: &mut W, items: &[Self::Src]) -> Option<WriteResult<()>> {
        let _ = &*writer;
        let _items = items.len();
        None
    }

    ghost write_laws = { made_write_laws (λ x. IsNot (pos 0) (non_zero_i8_get x) (non_zero_i8_get x)) non_zero_i8_get
        ⟦<i8 as SchemaWrite>⟧.write_laws };
}

impl ToParts<i16> for NonZeroI16 {
    ghost parts = { non_zero_i16_get };

    ghost sound = { λ x. IsNot (pos 0) (non_zero_i16_get x) (non_zero_i16_get x) };

    fn to_parts(&self) -> i16 {
        self.get()
    }
}

impl SchemaWrite for NonZeroI16 {
    type Src = NonZeroI16;

    ghost Value = { ⟦<i16 as SchemaWrite>⟧.Value };

    ghost model = { λ x. ⟦<i16 as SchemaWrite>⟧.model (non_zero_i16_get x) };

    ghost is_valid = { λ x. IsNot (pos 0) (non_zero_i16_get x) (non_zero_i16_get x) × ⟦<i16 as SchemaWrite>⟧.is_valid (non_zero_i16_get x) };

    ghost writing = { reference_write ⟦<i16 as SchemaWrite>⟧.writing };

    fn type_meta() -> TypeMeta {
        reference_meta(<i16 as SchemaWrite>::type_meta())
    }

    fn size_of(src: &NonZeroI16) -> WriteResult<usize> {
        size_of_made::<i16, NonZeroI16>(src)
    }

    fn write<W: Writer>(writer: &mut W, src: &NonZeroI16) -> WriteResult<()> {
        write_made::<i16, NonZeroI16, W>(writer, src)
    }

    #[inline(always)]
    fn known_size() -> Option<usize> {
        Some(2)
    }

    #[inline(always)]
    fn encode_front(src: &NonZeroI16, dst: &mut [u8]) -> Option<usize> {
        encode_made::<i16, NonZeroI16>(src, dst)
    }

    #[inline(always)]
    fn write_at_once<W: Writer>(writer: &mut W, items: &[Self::Src]) -> Option<WriteResult<()>> {
        let _ = &*writer;
        let _items = items.len();
        None
    }

    ghost write_laws = { made_write_laws (λ x. IsNot (pos 0) (non_zero_i16_get x) (non_zero_i16_get x)) non_zero_i16_get
        ⟦<i16 as SchemaWrite>⟧.write_laws };
}

impl ToParts<i32> for NonZeroI32 {
    ghost parts = { non_zero_i32_get };

    ghost sound = { λ x. IsNot (pos 0) (non_zero_i32_get x) (non_zero_i32_get x) };

    fn to_parts(&self) -> i32 {
        self.get()
    }
}

impl SchemaWrite for NonZeroI32 {
    type Src = NonZeroI32;

    ghost Value = { ⟦<i32 as SchemaWrite>⟧.Value };

    ghost model = { λ x. ⟦<i32 as SchemaWrite>⟧.model (non_zero_i32_get x) };

    ghost is_valid = { λ x. IsNot (pos 0) (non_zero_i32_get x) (non_zero_i32_get x) × ⟦<i32 as SchemaWrite>⟧.is_valid (non_zero_i32_get x) };

    ghost writing = { reference_write ⟦<i32 as SchemaWrite>⟧.writing };

    fn type_meta() -> TypeMeta {
        reference_meta(<i32 as SchemaWrite>::type_meta())
    }

    fn size_of(src: &NonZeroI32) -> WriteResult<usize> {
        size_of_made::<i32, NonZeroI32>(src)
    }

    fn write<W: Writer>(writer: &mut W, src: &NonZeroI32) -> WriteResult<()> {
        write_made::<i32, NonZeroI32, W>(writer, src)
    }

    #[inline(always)]
    fn known_size() -> Option<usize> {
        Some(4)
    }

    #[inline(always)]
    fn encode_front(src: &NonZeroI32, dst: &mut [u8]) -> Option<usize> {
        encode_made::<i32, NonZeroI32>(src, dst)
    }

    #[inline(always)]
    fn write_at_once<W: Writer>(writer: &mut W, items: &[Self::Src]) -> Option<WriteResult<()>> {
        let _ = &*writer;
        let _items = items.len();
        None
    }

    ghost write_laws = { made_write_laws (λ x. IsNot (pos 0) (non_zero_i32_get x) (non_zero_i32_get x)) non_zero_i32_get
        ⟦<i32 as SchemaWrite>⟧.write_laws };
}

impl ToParts<i64> for NonZeroI64 {
    ghost parts = { non_zero_i64_get };

    ghost sound = { λ x. IsNot (pos 0) (non_zero_i64_get x) (non_zero_i64_get x) };

    fn to_parts(&self) -> i64 {
        self.get()
    }
}

impl SchemaWrite for NonZeroI64 {
    type Src = NonZeroI64;

    ghost Value = { ⟦<i64 as SchemaWrite>⟧.Value };

    ghost model = { λ x. ⟦<i64 as SchemaWrite>⟧.model (non_zero_i64_get x) };

    ghost is_valid = { λ x. IsNot (pos 0) (non_zero_i64_get x) (non_zero_i64_get x) × ⟦<i64 as SchemaWrite>⟧.is_valid (non_zero_i64_get x) };

    ghost writing = { reference_write ⟦<i64 as SchemaWrite>⟧.writing };

    fn type_meta() -> TypeMeta {
        reference_meta(<i64 as SchemaWrite>::type_meta())
    }

    fn size_of(src: &NonZeroI64) -> WriteResult<usize> {
        size_of_made::<i64, NonZeroI64>(src)
    }

    fn write<W: Writer>(writer: &mut W, src: &NonZeroI64) -> WriteResult<()> {
        write_made::<i64, NonZeroI64, W>(writer, src)
    }

    #[inline(always)]
    fn known_size() -> Option<usize> {
        Some(8)
    }

    #[inline(always)]
    fn encode_front(src: &NonZeroI64, dst: &mut [u8]) -> Option<usize> {
        encode_made::<i64, NonZeroI64>(src, dst)
    }

    #[inline(always)]
    fn write_at_once<W: Writer>(writer: &mut W, items: &[Self::Src]) -> Option<WriteResult<()>> {
        let _ = &*writer;
        let _items = items.len();
        None
    }

    ghost write_laws = { made_write_laws (λ x. IsNot (pos 0) (non_zero_i64_get x) (non_zero_i64_get x)) non_zero_i64_get
        ⟦<i64 as SchemaWrite>⟧.write_laws };
}

impl ToParts<i128> for NonZeroI128 {
    ghost parts = { non_zero_i128_get };

    ghost sound = { λ x. IsNot (pos 0) (non_zero_i128_get x) (non_zero_i128_get x) };

    fn to_parts(&self) -> i128 {
        self.get()
    }
}

impl SchemaWrite for NonZeroI128 {
    type Src = NonZeroI128;

    ghost Value = { ⟦<i128 as SchemaWrite>⟧.Value };

    ghost model = { λ x. ⟦<i128 as SchemaWrite>⟧.model (non_zero_i128_get x) };

    ghost is_valid = { λ x. IsNot (pos 0) (non_zero_i128_get x) (non_zero_i128_get x) × ⟦<i128 as SchemaWrite>⟧.is_valid (non_zero_i128_get x) };

    ghost writing = { reference_write ⟦<i128 as SchemaWrite>⟧.writing };

    fn type_meta() -> TypeMeta {
        reference_meta(<i128 as SchemaWrite>::type_meta())
    }

    fn size_of(src: &NonZeroI128) -> WriteResult<usize> {
        size_of_made::<i128, NonZeroI128>(src)
    }

    fn write<W: Writer>(writer: &mut W, src: &NonZeroI128) -> WriteResult<()> {
        write_made::<i128, NonZeroI128, W>(writer, src)
    }

    #[inline(always)]
    fn known_size() -> Option<usize> {
        Some(16)
    }

    #[inline(always)]
    fn encode_front(src: &NonZeroI128, dst: &mut [u8]) -> Option<usize> {
        encode_made::<i128, NonZeroI128>(src, dst)
    }

    #[inline(always)]
    fn write_at_once<W: Writer>(writer: &mut W, items: &[Self::Src]) -> Option<WriteResult<()>> {
        let _ = &*writer;
        let _items = items.len();
        None
    }

    ghost write_laws = { made_write_laws (λ x. IsNot (pos 0) (non_zero_i128_get x) (non_zero_i128_get x)) non_zero_i128_get
        ⟦<i128 as SchemaWrite>⟧.write_laws };
}

impl ToParts<isize> for NonZeroIsize {
    ghost parts = { non_zero_isize_get };

    ghost sound = { λ x. IsNot (pos 0) (non_zero_isize_get x) (non_zero_isize_get x) };

    fn to_parts(&self) -> isize {
        self.get()
    }
}

impl SchemaWrite for NonZeroIsize {
    type Src = NonZeroIsize;

    ghost Value = { ⟦<isize as SchemaWrite>⟧.Value };

    ghost model = { λ x. ⟦<isize as SchemaWrite>⟧.model (non_zero_isize_get x) };

    ghost is_valid = { λ x. IsNot (pos 0) (non_zero_isize_get x) (non_zero_isize_get x) × ⟦<isize as SchemaWrite>⟧.is_valid (non_zero_isize_get x) };

    ghost writing = { reference_write ⟦<isize as SchemaWrite>⟧.writing };

    fn type_meta() -> TypeMeta {
        reference_meta(<isize as SchemaWrite>::type_meta())
    }

    fn size_of(src: &NonZeroIsize) -> WriteResult<usize> {
        size_of_made::<isize, NonZeroIsize>(src)
    }

    fn write<W: Writer>(writer: &mut W, src: &NonZeroIsize) -> WriteResult<()> {
        write_made::<isize, NonZeroIsize, W>(writer, src)
    }

    #[inline(always)]
    fn known_size() -> Option<usize> {
        Some(8)
    }

    #[inline(always)]
    fn encode_front(src: &NonZeroIsize, dst: &mut [u8]) -> Option<usize> {
        encode_made::<isize, NonZeroIsize>(src, dst)
    }

    #[inline(always)]
    fn write_at_once<W: Writer>(writer: &mut W, items: &[Self::Src]) -> Option<WriteResult<()>> {
        let _ = &*writer;
        let _items = items.len();
        None
    }

    ghost write_laws = { made_write_laws (λ x. IsNot (pos 0) (non_zero_isize_get x) (non_zero_isize_get x)) non_zero_isize_get
        ⟦<isize as SchemaWrite>⟧.write_laws };
}

//! Written by `tools/templates`: schemas of integers of one width.
ghost use Rattle.std.specs.Int.{w8, w16, w32, w64, w128};
ghost use Rattle.std.specs.Prelude.{◌≡◌, ℕ, ℤ, ◌<◌, ◌^◌, FitsSigned, true, length, map, IfSome, IsSome, IsNone};
ghost use Rattle.wincode_io.specs.Joins.{Each};
ghost use Rattle.wincode_base.specs.AsForms.{WrittenAtOnce};
ghost use Rattle.wincode_base.specs.LeafLaws.{number_write_laws, signed_write_laws};
ghost use Rattle.wincode_base.specs.Leaves.{number_write, signed_write};

use crate::schema::SchemaWrite;
use crate::schema::as_forms::{encode_form, write_all};
use wincode_base::error::WriteResult;
use wincode_base::meta::TypeMeta;
use wincode_io::Writer;

impl SchemaWrite for u16 {
    type Src = u16;

    ghost Value = { ℕ };

    ghost model = { λ v. v };

    ghost is_valid = { λ v. v < 256 ^ 2 };

    ghost writing = { number_write 2 true };

    fn type_meta() -> TypeMeta {
        TypeMeta::Static {
            size: 2,
            zero_copy: true,
        }
    }

    fn size_of(_src: &u16) -> WriteResult<usize> {
        Ok(2)
    }

    fn write<W: Writer>(writer: &mut W, src: &u16) -> WriteResult<()> {
        writer.write(&src.to_le_bytes())?;
        Ok(())
    }

    /// All at once: refused, nothing is written.
    #[inline(always)]
    fn write_at_once<W: Writer>(writer: &mut W, items: &[u16]) -> Option<WriteResult<()>>
        ensures always { IsSome result }
        ensures done { IfSome result (λ r. WrittenAtOnce 2 (length items.now) (number_write 2 true)
            (W.state writer.old) (W.state writer.new) (map (λ v. v) items.now) (Each (λ v. v < 256 ^ 2) items.now) r) }
        ensures left { IsNone result → W.state writer.new ≡ W.state writer.old }
    {
        Some(write_all::<u16, W>(writer, items))
    }

    #[inline(always)]
    fn known_size() -> Option<usize> {
        Some(2)
    }

    #[inline(always)]
    fn encode_front(src: &u16, dst: &mut [u8]) -> Option<usize> {
        encode_form::<u16>(src, dst)
    }

    ghost write_laws = { number_write_laws 2 true };
}

impl SchemaWrite for u32 {
    type Src = u32;

    ghost Value = { ℕ };

    ghost model = { λ v. v };

    ghost is_valid = { λ v. v < 256 ^ 4 };

    ghost writing = { number_write 4 true };

    fn type_meta() -> TypeMeta {
        TypeMeta::Static {
            size: 4,
            zero_copy: true,
        }
    }

    fn size_of(_src: &u32) -> WriteResult<usize> {
        Ok(4)
    }

    fn write<W: Writer>(writer: &mut W, src: &u32) -> WriteResult<()> {
        writer.write(&src.to_le_bytes())?;
        Ok(())
    }

    /// All at once: refused, nothing is written.
    #[inline(always)]
    fn write_at_once<W: Writer>(writer: &mut W, items: &[u32]) -> Option<WriteResult<()>>
        ensures always { IsSome result }
        ensures done { IfSome result (λ r. WrittenAtOnce 4 (length items.now) (number_write 4 true)
            (W.state writer.old) (W.state writer.new) (map (λ v. v) items.now) (Each (λ v. v < 256 ^ 4) items.now) r) }
        ensures left { IsNone result → W.state writer.new ≡ W.state writer.old }
    {
        Some(write_all::<u32, W>(writer, items))
    }

    #[inline(always)]
    fn known_size() -> Option<usize> {
        Some(4)
    }

    #[inline(always)]
    fn encode_front(src: &u32, dst: &mut [u8]) -> Option<usize> {
        encode_form::<u32>(src, dst)
    }

    ghost write_laws = { number_write_laws 4 true };
}

impl SchemaWrite for u64 {
    type Src = u64;

    ghost Value = { ℕ };

    ghost model = { λ v. v };

    ghost is_valid = { λ v. v < 256 ^ 8 };

    ghost writing = { number_write 8 true };

    fn type_meta() -> TypeMeta {
        TypeMeta::Static {
            size: 8,
            zero_copy: true,
        }
    }

    fn size_of(_src: &u64) -> WriteResult<usize> {
        Ok(8)
    }

    fn write<W: Writer>(writer: &mut W, src: &u64) -> WriteResult<()> {
        writer.write(&src.to_le_bytes())?;
        Ok(())
    }

    /// All at once: refused, nothing is written.
    #[inline(always)]
    fn write_at_once<W: Writer>(writer: &mut W, items: &[u64]) -> Option<WriteResult<()>>
        ensures always { IsSome result }
        ensures done { IfSome result (λ r. WrittenAtOnce 8 (length items.now) (number_write 8 true)
            (W.state writer.old) (W.state writer.new) (map (λ v. v) items.now) (Each (λ v. v < 256 ^ 8) items.now) r) }
        ensures left { IsNone result → W.state writer.new ≡ W.state writer.old }
    {
        Some(write_all::<u64, W>(writer, items))
    }

    #[inline(always)]
    fn known_size() -> Option<usize> {
        Some(8)
    }

    #[inline(always)]
    fn encode_front(src: &u64, dst: &mut [u8]) -> Option<usize> {
        encode_form::<u64>(src, dst)
    }

    ghost write_laws = { number_write_laws 8 true };
}

impl SchemaWrite for u128 {
    type Src = u128;

    ghost Value = { ℕ };

    ghost model = { λ v. v };

    ghost is_valid = { λ v. v < 256 ^ 16 };

    ghost writing = { number_write 16 true };

    fn type_meta() -> TypeMeta {
        TypeMeta::Static {
            size: 16,
            zero_copy: true,
        }
    }

    fn size_of(_src: &u128) -> WriteResult<usize> {
        Ok(16)
    }

    fn write<W: Writer>(writer: &mut W, src: &u128) -> WriteResult<()> {
        writer.write(&src.to_le_bytes())?;
        Ok(())
    }

    /// All at once: refused, nothing is written.
    #[inline(always)]
    fn write_at_once<W: Writer>(writer: &mut W, items: &[u128]) -> Option<WriteResult<()>>
        ensures always { IsSome result }
        ensures done { IfSome result (λ r. WrittenAtOnce 16 (length items.now) (number_write 16 true)
            (W.state writer.old) (W.state writer.new) (map (λ v. v) items.now) (Each (λ v. v < 256 ^ 16) items.now) r) }
        ensures left { IsNone result → W.state writer.new ≡ W.state writer.old }
    {
        Some(write_all::<u128, W>(writer, items))
    }

    #[inline(always)]
    fn known_size() -> Option<usize> {
        Some(16)
    }

    #[inline(always)]
    fn encode_front(src: &u128, dst: &mut [u8]) -> Option<usize> {
        encode_form::<u128>(src, dst)
    }

    ghost write_laws = { number_write_laws 16 true };
}

impl SchemaWrite for i8 {
    type Src = i8;

    ghost Value = { ℤ };

    ghost model = { λ v. v };

    ghost is_valid = { FitsSigned w8 };

    ghost writing = { signed_write w8 true };

    fn type_meta() -> TypeMeta {
        TypeMeta::Static {
            size: 1,
            zero_copy: true,
        }
    }

    fn size_of(_src: &i8) -> WriteResult<usize> {
        Ok(1)
    }

    fn write<W: Writer>(writer: &mut W, src: &i8) -> WriteResult<()> {
        writer.write(&src.to_le_bytes())?;
        Ok(())
    }

    /// All at once: refused, nothing is written.
    #[inline(always)]
    fn write_at_once<W: Writer>(writer: &mut W, items: &[i8]) -> Option<WriteResult<()>>
        ensures always { IsSome result }
        ensures done { IfSome result (λ r. WrittenAtOnce 1 (length items.now) (signed_write w8 true)
            (W.state writer.old) (W.state writer.new) (map (λ v. v) items.now) (Each (FitsSigned w8) items.now) r) }
        ensures left { IsNone result → W.state writer.new ≡ W.state writer.old }
    {
        Some(write_all::<i8, W>(writer, items))
    }

    #[inline(always)]
    fn known_size() -> Option<usize> {
        Some(1)
    }

    #[inline(always)]
    fn encode_front(src: &i8, dst: &mut [u8]) -> Option<usize> {
        encode_form::<i8>(src, dst)
    }

    ghost write_laws = { signed_write_laws w8 true };
}

impl SchemaWrite for i16 {
    type Src = i16;

    ghost Value = { ℤ };

    ghost model = { λ v. v };

    ghost is_valid = { FitsSigned w16 };

    ghost writing = { signed_write w16 true };

    fn type_meta() -> TypeMeta {
        TypeMeta::Static {
            size: 2,
            zero_copy: true,
        }
    }

    fn size_of(_src: &i16) -> WriteResult<usize> {
        Ok(2)
    }

    fn write<W: Writer>(writer: &mut W, src: &i16) -> WriteResult<()> {
        writer.write(&src.to_le_bytes())?;
        Ok(())
    }

    /// All at once: refused, nothing is written.
    #[inline(always)]
    fn write_at_once<W: Writer>(writer: &mut W, items: &[i16]) -> Option<WriteResult<()>>
        ensures always { IsSome result }
        ensures done { IfSome result (λ r. WrittenAtOnce 2 (length items.now) (signed_write w16 true)
            (W.state writer.old) (W.state writer.new) (map (λ v. v) items.now) (Each (FitsSigned w16) items.now) r) }
        ensures left { IsNone result → W.state writer.new ≡ W.state writer.old }
    {
        Some(write_all::<i16, W>(writer, items))
    }

    #[inline(always)]
    fn known_size() -> Option<usize> {
        Some(2)
    }

    #[inline(always)]
    fn encode_front(src: &i16, dst: &mut [u8]) -> Option<usize> {
        encode_form::<i16>(src, dst)
    }

    ghost write_laws = { signed_write_laws w16 true };
}

impl SchemaWrite for i32 {
    type Src = i32;

    ghost Value = { ℤ };

    ghost model = { λ v. v };

    ghost is_valid = { FitsSigned w32 };

    ghost writing = { signed_write w32 true };

    fn type_meta() -> TypeMeta {
        TypeMeta::Static {
            size: 4,
            zero_copy: true,
        }
    }

    fn size_of(_src: &i32) -> WriteResult<usize> {
        Ok(4)
    }

    fn write<W: Writer>(writer: &mut W, src: &i32) -> WriteResult<()> {
        writer.write(&src.to_le_bytes())?;
        Ok(())
    }

    /// All at once: refused, nothing is written.
    #[inline(always)]
    fn write_at_once<W: Writer>(writer: &mut W, items: &[i32]) -> Option<WriteResult<()>>
        ensures always { IsSome result }
        ensures done { IfSome result (λ r. WrittenAtOnce 4 (length items.now) (signed_write w32 true)
            (W.state writer.old) (W.state writer.new) (map (λ v. v) items.now) (Each (FitsSigned w32) items.now) r) }
        ensures left { IsNone result → W.state writer.new ≡ W.state writer.old }
    {
        Some(write_all::<i32, W>(writer, items))
    }

    #[inline(always)]
    fn known_size() -> Option<usize> {
        Some(4)
    }

    #[inline(always)]
    fn encode_front(src: &i32, dst: &mut [u8]) -> Option<usize> {
        encode_form::<i32>(src, dst)
    }

    ghost write_laws = { signed_write_laws w32 true };
}

impl SchemaWrite for i64 {
    type Src = i64;

    ghost Value = { ℤ };

    ghost model = { λ v. v };

    ghost is_valid = { FitsSigned w64 };

    ghost writing = { signed_write w64 true };

    fn type_meta() -> TypeMeta {
        TypeMeta::Static {
            size: 8,
            zero_copy: true,
        }
    }

    fn size_of(_src: &i64) -> WriteResult<usize> {
        Ok(8)
    }

    fn write<W: Writer>(writer: &mut W, src: &i64) -> WriteResult<()> {
        writer.write(&src.to_le_bytes())?;
        Ok(())
    }

    /// All at once: refused, nothing is written.
    #[inline(always)]
    fn write_at_once<W: Writer>(writer: &mut W, items: &[i64]) -> Option<WriteResult<()>>
        ensures always { IsSome result }
        ensures done { IfSome result (λ r. WrittenAtOnce 8 (length items.now) (signed_write w64 true)
            (W.state writer.old) (W.state writer.new) (map (λ v. v) items.now) (Each (FitsSigned w64) items.now) r) }
        ensures left { IsNone result → W.state writer.new ≡ W.state writer.old }
    {
        Some(write_all::<i64, W>(writer, items))
    }

    #[inline(always)]
    fn known_size() -> Option<usize> {
        Some(8)
    }

    #[inline(always)]
    fn encode_front(src: &i64, dst: &mut [u8]) -> Option<usize> {
        encode_form::<i64>(src, dst)
    }

    ghost write_laws = { signed_write_laws w64 true };
}

impl SchemaWrite for i128 {
    type Src = i128;

    ghost Value = { ℤ };

    ghost model = { λ v. v };

    ghost is_valid = { FitsSigned w128 };

    ghost writing = { signed_write w128 true };

    fn type_meta() -> TypeMeta {
        TypeMeta::Static {
            size: 16,
            zero_copy: true,
        }
    }

    fn size_of(_src: &i128) -> WriteResult<usize> {
        Ok(16)
    }

    fn write<W: Writer>(writer: &mut W, src: &i128) -> WriteResult<()> {
        writer.write(&src.to_le_bytes())?;
        Ok(())
    }

    /// All at once: refused, nothing is written.
    #[inline(always)]
    fn write_at_once<W: Writer>(writer: &mut W, items: &[i128]) -> Option<WriteResult<()>>
        ensures always { IsSome result }
        ensures done { IfSome result (λ r. WrittenAtOnce 16 (length items.now) (signed_write w128 true)
            (W.state writer.old) (W.state writer.new) (map (λ v. v) items.now) (Each (FitsSigned w128) items.now) r) }
        ensures left { IsNone result → W.state writer.new ≡ W.state writer.old }
    {
        Some(write_all::<i128, W>(writer, items))
    }

    #[inline(always)]
    fn known_size() -> Option<usize> {
        Some(16)
    }

    #[inline(always)]
    fn encode_front(src: &i128, dst: &mut [u8]) -> Option<usize> {
        encode_form::<i128>(src, dst)
    }

    ghost write_laws = { signed_write_laws w128 true };
}

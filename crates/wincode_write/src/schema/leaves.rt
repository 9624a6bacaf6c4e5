//! Schemas without parts.
ghost use Rattle.std.specs.Int.{w64};
ghost use Rattle.std.specs.Prelude.{IsSome, ◌≡◌, ℕ, ℤ, ◌<◌, ◌^◌, FitsSigned, Bool, true, false, length, map, IfSome, IsNone};
ghost use Rattle.wincode_io.specs.Joins.{Each};
ghost use Rattle.wincode_base.specs.AsForms.{WrittenAtOnce};
ghost use Rattle.wincode_base.specs.LeafLaws.{bool_write_laws, unit_write_laws, number_write_laws, signed_write_laws};
ghost use Rattle.wincode_base.specs.Leaves.{number_write, signed_write, bool_write, unit_write};

mod numbers;

use crate::schema::SchemaWrite;
use crate::schema::as_forms::encode_form;
use std::marker::PhantomData;
use wincode_base::error::WriteResult;
use wincode_base::meta::TypeMeta;
use wincode_io::Writer;

/// Writes bytes as they are, all or nothing.
fn write_bytes<W: Writer>(writer: &mut W, items: &[u8]) -> WriteResult<()>
    ensures { WrittenAtOnce 1 (length items.now) (number_write 1 true)
        (W.state writer.old) (W.state writer.new) (map (λ v. v) items.now) (Each (λ v. v < 256 ^ 1) items.now) result }
{
    writer.write(items)?;
    Ok(())
}

impl SchemaWrite for u8 {
    type Src = u8;

    ghost Value = { ℕ };

    ghost model = { λ v. v };

    ghost is_valid = { λ v. v < 256 ^ 1 };

    ghost writing = { number_write 1 true };

    fn type_meta() -> TypeMeta {
        TypeMeta::Static {
            size: 1,
            zero_copy: true,
        }
    }

    fn size_of(_src: &u8) -> WriteResult<usize> {
        Ok(1)
    }

    fn write<W: Writer>(writer: &mut W, src: &u8) -> WriteResult<()> {
        writer.write(&src.to_le_bytes())?;
        Ok(())
    }

    /// All at once: refused, nothing is written.
    #[inline(always)]
    fn write_at_once<W: Writer>(writer: &mut W, items: &[u8]) -> Option<WriteResult<()>>
        ensures always { IsSome result }
        ensures done { IfSome result (λ r. WrittenAtOnce 1 (length items.now) (number_write 1 true)
            (W.state writer.old) (W.state writer.new) (map (λ v. v) items.now) (Each (λ v. v < 256 ^ 1) items.now) r) }
        ensures left { IsNone result → W.state writer.new ≡ W.state writer.old }
    {
        Some(write_bytes::<W>(writer, items))
    }

    #[inline(always)]
    fn known_size() -> Option<usize> {
        Some(1)
    }

    #[inline(always)]
    fn encode_front(src: &u8, dst: &mut [u8]) -> Option<usize> {
        encode_form::<u8>(src, dst)
    }

    ghost write_laws = { number_write_laws 1 true };
}

impl SchemaWrite for usize {
    type Src = usize;

    ghost Value = { ℕ };

    ghost model = { λ v. v };

    ghost is_valid = { λ v. v < 256 ^ 8 };

    ghost writing = { number_write 8 false };

    fn type_meta() -> TypeMeta {
        TypeMeta::Static {
            size: 8,
            zero_copy: false,
        }
    }

    fn size_of(_src: &usize) -> WriteResult<usize> {
        Ok(8)
    }

    fn write<W: Writer>(writer: &mut W, src: &usize) -> WriteResult<()> {
        writer.write(&src.to_le_bytes())?;
        Ok(())
    }

    #[inline(always)]
    fn known_size() -> Option<usize> {
        Some(8)
    }

    #[inline(always)]
    fn encode_front(src: &usize, dst: &mut [u8]) -> Option<usize> {
        u64::encode_front(&(*src as u64), dst)
    }

    #[inline(always)]
    fn write_at_once<W: Writer>(writer: &mut W, items: &[Self::Src]) -> Option<WriteResult<()>> {
        let _ = &*writer;
        let _items = items.len();
        None
    }

    ghost write_laws = { number_write_laws 8 false };
}

impl SchemaWrite for isize {
    type Src = isize;

    ghost Value = { ℤ };

    ghost model = { λ v. v };

    ghost is_valid = { FitsSigned w64 };

    ghost writing = { signed_write w64 false };

    fn type_meta() -> TypeMeta {
        TypeMeta::Static {
            size: 8,
            zero_copy: false,
        }
    }

    fn size_of(_src: &isize) -> WriteResult<usize> {
        Ok(8)
    }

    fn write<W: Writer>(writer: &mut W, src: &isize) -> WriteResult<()> {
        writer.write(&src.to_le_bytes())?;
        Ok(())
    }

    #[inline(always)]
    fn known_size() -> Option<usize> {
        Some(8)
    }

    #[inline(always)]
    fn encode_front(src: &isize, dst: &mut [u8]) -> Option<usize> {
        i64::encode_front(&(*src as i64), dst)
    }

    #[inline(always)]
    fn write_at_once<W: Writer>(writer: &mut W, items: &[Self::Src]) -> Option<WriteResult<()>> {
        let _ = &*writer;
        let _items = items.len();
        None
    }

    ghost write_laws = { signed_write_laws w64 false };
}

impl SchemaWrite for bool {
    type Src = bool;

    ghost Value = { Bool };

    ghost model = { λ v. v };

    ghost is_valid = { λ v. Unit {0} };

    ghost writing = { bool_write };

    fn type_meta() -> TypeMeta {
        TypeMeta::Static {
            size: 1,
            zero_copy: false,
        }
    }

    fn size_of(_src: &bool) -> WriteResult<usize> {
        Ok(1)
    }

    fn write<W: Writer>(writer: &mut W, src: &bool) -> WriteResult<()> {
        let byte = if *src { 1 } else { 0 };
        writer.write(&[byte])?;
        Ok(())
    }

    #[inline(always)]
    fn known_size() -> Option<usize> {
        Some(1)
    }

    #[inline(always)]
    fn encode_front(src: &bool, dst: &mut [u8]) -> Option<usize> {
        if *src {
            let size = u8::encode_front(&1, dst)?;
            Some(size)
        } else {
            let size = u8::encode_front(&0, dst)?;
            Some(size)
        }
    }

    #[inline(always)]
    fn write_at_once<W: Writer>(writer: &mut W, items: &[Self::Src]) -> Option<WriteResult<()>> {
        let _ = &*writer;
        let _items = items.len();
        None
    }

    ghost write_laws = { bool_write_laws };
}

impl SchemaWrite for () {
    type Src = ();

    ghost Value = { Unit };

    ghost model = { λ _. tt };

    ghost is_valid = { λ _. Unit {0} };

    ghost writing = { unit_write };

    fn type_meta() -> TypeMeta {
        TypeMeta::Static {
            size: 0,
            zero_copy: true,
        }
    }

    fn size_of(_src: &()) -> WriteResult<usize> {
        Ok(0)
    }

    fn write<W: Writer>(writer: &mut W, _src: &()) -> WriteResult<()> {
        // No effect at run time: the proof reads what it holds from this use of it.
        let _ = &*writer;
        Ok(())
    }

    #[inline(always)]
    fn known_size() -> Option<usize> {
        Some(0)
    }

    #[inline(always)]
    fn encode_front(_src: &(), dst: &mut [u8]) -> Option<usize> {
        let _len = dst.len();
        Some(0)
    }

    #[inline(always)]
    fn write_at_once<W: Writer>(writer: &mut W, items: &[Self::Src]) -> Option<WriteResult<()>> {
        let _ = &*writer;
        let _items = items.len();
        None
    }

    ghost write_laws = { unit_write_laws };
}

impl<T> SchemaWrite for PhantomData<T> {
    type Src = PhantomData<T>;

    ghost Value = { Unit };

    ghost model = { λ _. tt };

    ghost is_valid = { λ _. Unit {0} };

    ghost writing = { unit_write };

    fn type_meta() -> TypeMeta {
        TypeMeta::Static {
            size: 0,
            zero_copy: true,
        }
    }

    fn size_of(_src: &PhantomData<T>) -> WriteResult<usize> {
        Ok(0)
    }

    fn write<W: Writer>(writer: &mut W, _src: &PhantomData<T>) -> WriteResult<()> {
        // No effect at run time: the proof reads what it holds from this use of it.
        let _ = &*writer;
        Ok(())
    }

    #[inline(always)]
    fn known_size() -> Option<usize> {
        Some(0)
    }

    #[inline(always)]
    fn encode_front(_src: &PhantomData<T>, dst: &mut [u8]) -> Option<usize> {
        let _len = dst.len();
        Some(0)
    }

    #[inline(always)]
    fn write_at_once<W: Writer>(writer: &mut W, items: &[Self::Src]) -> Option<WriteResult<()>> {
        let _ = &*writer;
        let _items = items.len();
        None
    }

    ghost write_laws = { unit_write_laws };
}

//! Schemas without parts.
ghost use Rattle.std.proofs.Common.{lit≤};
ghost use Rattle.std.specs.Int.{w64};
ghost use Rattle.std.specs.Prelude.{IsSome, ◌≡◌, ℕ, ℤ, ◌<◌, ◌≤◌, ◌^◌, FitsSigned, Bool, true, false, refl, IfSome, IsNone};
ghost use Rattle.wincode_base.specs.AsForms.{ReadAtOnce};
ghost use Rattle.wincode_base.specs.LeafLaws.{bool_read_laws, unit_read_laws, number_read_laws, signed_read_laws};
ghost use Rattle.wincode_base.specs.Leaves.{number_read, signed_read, bool_read, unit_read};

mod numbers;

use crate::schema::SchemaRead;
use crate::schema::as_forms::decode_form;
use std::alloc::Global;
use std::marker::PhantomData;
use wincode_base::error::{ReadError, ReadResult, invalid_bool_encoding};
use wincode_base::meta::TypeMeta;
use wincode_base::reader::take_array;
use wincode_io::bulk::add_bytes;
use wincode_io::{Lending, Reader};

/// Reads `n` bytes at once, and adds them to the list.
pub fn read_bytes<L: Lending, R: Reader<L>>(
    reader: &mut R,
    n: usize,
    into: &mut Vec<u8>,
) -> ReadResult<()>
    ensures { ReadAtOnce 1 n (number_read 1 true) (λ v. v) (R.state reader.old) (R.state reader.new) into.old.items into.new.items result }
{
    let bytes = reader.fill_exact(n)?;
    if add_bytes(bytes, into).is_err() {
        return Err(ReadError::OutOfMemory);
    }
    reader.consume_unchecked(n);
    Ok(())
}

impl<L: Lending> SchemaRead<L> for u8 {
    type Dst = u8;

    ghost Value = { ℕ };

    ghost model = { λ v. v };

    ghost is_valid = { λ v. v < 256 ^ 1 };

    ghost reading = { number_read 1 true };

    fn type_meta() -> TypeMeta {
        TypeMeta::Static {
            size: 1,
            zero_copy: true,
        }
    }

    fn prealloc_size() -> usize {
        1
    }

    fn read<R: Reader<L>>(_alloc: Global, reader: &mut R, dst: &mut Option<u8>) -> ReadResult<()> {
        let bytes = take_array::<L, R, 1>(reader)?;
        *dst = Some(u8::from_le_bytes(bytes));
        Ok(())
    }

    /// All at once: `ReadSizeLimit(n)` where fewer are left. Refused, for memory too, all bytes stay.
    #[inline(always)]
    fn read_at_once<R: Reader<L>>(
        _alloc: Global,
        reader: &mut R,
        n: usize,
        into: &mut Vec<u8>,
    ) -> Option<ReadResult<()>>
        ensures always { IsSome result }
        ensures done { IfSome result (λ r. ReadAtOnce 1 n (number_read 1 true) (λ v. v) (R.state reader.old) (R.state reader.new) into.old.items into.new.items r) }
        ensures left { IsNone result → R.state reader.new ≡ R.state reader.old }
        ensures same { IsNone result → into.new.items ≡ into.old.items }
    {
        Some(read_bytes::<L, R>(reader, n, into))
    }

    #[inline(always)]
    fn blank() -> Option<u8> {
        Some(0)
    }

    #[inline(always)]
    fn decode(bytes: &[u8], place: &mut u8) -> bool {
        decode_form(bytes, place)
    }

    ghost read_laws = { number_read_laws 1 true (lit≤ tt) };
}

impl<L: Lending> SchemaRead<L> for usize {
    type Dst = usize;

    ghost Value = { ℕ };

    ghost model = { λ v. v };

    ghost is_valid = { λ v. v < 256 ^ 8 };

    ghost reading = { number_read 8 false };

    fn type_meta() -> TypeMeta {
        TypeMeta::Static {
            size: 8,
            zero_copy: false,
        }
    }

    fn prealloc_size() -> usize {
        8
    }

    fn read<R: Reader<L>>(
        _alloc: Global,
        reader: &mut R,
        dst: &mut Option<usize>,
    ) -> ReadResult<()> {
        let bytes = take_array::<L, R, 8>(reader)?;
        *dst = Some(usize::from_le_bytes(bytes));
        Ok(())
    }

    #[inline(always)]
    fn blank() -> Option<usize> {
        Some(0)
    }

    #[inline(always)]
    fn decode(bytes: &[u8], place: &mut usize) -> bool {
        let mut number = 0u64;
        if !decode_form(bytes, &mut number) {
            return false;
        }
        *place = number as usize;
        true
    }

    #[inline(always)]
    fn read_at_once<R: Reader<L>>(
        alloc: Global,
        reader: &mut R,
        n: usize,
        into: &mut Vec<Self::Dst>,
    ) -> Option<ReadResult<()>> {
        let _ = (alloc, n);
        let _ = &*reader;
        let _ = &*into;
        None
    }

    ghost read_laws = { number_read_laws 8 false (lit≤ tt) };
}

impl<L: Lending> SchemaRead<L> for isize {
    type Dst = isize;

    ghost Value = { ℤ };

    ghost model = { λ v. v };

    ghost is_valid = { FitsSigned w64 };

    ghost reading = { signed_read w64 false };

    fn type_meta() -> TypeMeta {
        TypeMeta::Static {
            size: 8,
            zero_copy: false,
        }
    }

    fn prealloc_size() -> usize {
        8
    }

    fn read<R: Reader<L>>(
        _alloc: Global,
        reader: &mut R,
        dst: &mut Option<isize>,
    ) -> ReadResult<()> {
        let bytes = take_array::<L, R, 8>(reader)?;
        *dst = Some(isize::from_le_bytes(bytes));
        Ok(())
    }

    #[inline(always)]
    fn blank() -> Option<isize> {
        Some(0)
    }

    #[inline(always)]
    fn decode(bytes: &[u8], place: &mut isize) -> bool {
        let mut number = 0i64;
        if !decode_form(bytes, &mut number) {
            return false;
        }
        *place = number as isize;
        true
    }

    #[inline(always)]
    fn read_at_once<R: Reader<L>>(
        alloc: Global,
        reader: &mut R,
        n: usize,
        into: &mut Vec<Self::Dst>,
    ) -> Option<ReadResult<()>> {
        let _ = (alloc, n);
        let _ = &*reader;
        let _ = &*into;
        None
    }

    ghost read_laws = { signed_read_laws w64 refl false (lit≤ tt) };
}

impl<L: Lending> SchemaRead<L> for bool {
    type Dst = bool;

    ghost Value = { Bool };

    ghost model = { λ v. v };

    ghost is_valid = { λ v. Unit {0} };

    ghost reading = { bool_read };

    fn type_meta() -> TypeMeta {
        TypeMeta::Static {
            size: 1,
            zero_copy: false,
        }
    }

    fn prealloc_size() -> usize {
        1
    }

    /// A byte that is neither 0 nor 1 is consumed, and is `InvalidBoolEncoding`.
    fn read<R: Reader<L>>(
        _alloc: Global,
        reader: &mut R,
        dst: &mut Option<bool>,
    ) -> ReadResult<()> {
        let bytes = take_array::<L, R, 1>(reader)?;
        let byte = bytes[0];
        if byte > 1 {
            return Err(invalid_bool_encoding(byte));
        }
        *dst = Some(byte == 1);
        Ok(())
    }

    #[inline(always)]
    fn blank() -> Option<bool> {
        Some(false)
    }

    #[inline(always)]
    fn decode(bytes: &[u8], place: &mut bool) -> bool {
        if bytes.len() != 1 {
            return false;
        }
        let byte = bytes[0];
        *place = byte == 1;
        byte <= 1
    }

    #[inline(always)]
    fn read_at_once<R: Reader<L>>(
        alloc: Global,
        reader: &mut R,
        n: usize,
        into: &mut Vec<Self::Dst>,
    ) -> Option<ReadResult<()>> {
        let _ = (alloc, n);
        let _ = &*reader;
        let _ = &*into;
        None
    }

    ghost read_laws = { bool_read_laws };
}

#[tactic(auto, using(wincode_base::proofs::Integers::unit_puts))]
impl<L: Lending> SchemaRead<L> for () {
    type Dst = ();

    ghost Value = { Unit };

    ghost model = { λ _. tt };

    ghost is_valid = { λ _. Unit {0} };

    ghost reading = { unit_read };

    fn type_meta() -> TypeMeta {
        TypeMeta::Static {
            size: 0,
            zero_copy: true,
        }
    }

    fn prealloc_size() -> usize {
        1
    }

    fn read<R: Reader<L>>(_alloc: Global, _reader: &mut R, dst: &mut Option<()>) -> ReadResult<()> {
        *dst = Some(());
        Ok(())
    }

    #[inline(always)]
    fn blank() -> Option<()> {
        Some(())
    }

    #[inline(always)]
    fn decode(bytes: &[u8], _place: &mut ()) -> bool {
        bytes.is_empty()
    }

    #[inline(always)]
    fn read_at_once<R: Reader<L>>(
        alloc: Global,
        reader: &mut R,
        n: usize,
        into: &mut Vec<Self::Dst>,
    ) -> Option<ReadResult<()>> {
        let _ = (alloc, n);
        let _ = &*reader;
        let _ = &*into;
        None
    }

    ghost read_laws = { unit_read_laws };
}

#[tactic(auto, using(wincode_base::proofs::Integers::unit_puts))]
impl<L: Lending, T> SchemaRead<L> for PhantomData<T> {
    type Dst = PhantomData<T>;

    ghost Value = { Unit };

    ghost model = { λ _. tt };

    ghost is_valid = { λ _. Unit {0} };

    ghost reading = { unit_read };

    fn type_meta() -> TypeMeta {
        TypeMeta::Static {
            size: 0,
            zero_copy: true,
        }
    }

    fn prealloc_size() -> usize {
        1
    }

    fn read<R: Reader<L>>(
        _alloc: Global,
        _reader: &mut R,
        dst: &mut Option<PhantomData<T>>,
    ) -> ReadResult<()> {
        *dst = Some(PhantomData);
        Ok(())
    }

    #[inline(always)]
    fn blank() -> Option<PhantomData<T>> {
        Some(PhantomData)
    }

    #[inline(always)]
    fn decode(bytes: &[u8], _place: &mut PhantomData<T>) -> bool {
        bytes.is_empty()
    }

    #[inline(always)]
    fn read_at_once<R: Reader<L>>(
        alloc: Global,
        reader: &mut R,
        n: usize,
        into: &mut Vec<Self::Dst>,
    ) -> Option<ReadResult<()>> {
        let _ = (alloc, n);
        let _ = &*reader;
        let _ = &*into;
        None
    }

    ghost read_laws = { unit_read_laws };
}

//! Written by `tools/templates`: schemas of integers of one width.
ghost use Rattle.std.proofs.Common.{lit≤};
ghost use Rattle.std.specs.Int.{w8, w16, w32, w64, w128};
ghost use Rattle.std.specs.Prelude.{◌≡◌, ℕ, ℤ, ◌<◌, ◌≤◌, ◌^◌, FitsSigned, true, refl, IfSome, IsSome, IsNone};
ghost use Rattle.wincode_base.specs.AsForms.{ReadAtOnce};
ghost use Rattle.wincode_base.specs.LeafLaws.{number_read_laws, signed_read_laws};
ghost use Rattle.wincode_base.specs.Leaves.{number_read, signed_read};

use crate::schema::SchemaRead;
use crate::schema::as_forms::{decode_form, read_all};
use std::alloc::Global;
use wincode_base::error::ReadResult;
use wincode_base::meta::TypeMeta;
use wincode_base::reader::take_array;
use wincode_io::{Lending, Reader};

impl<L: Lending> SchemaRead<L> for u16 {
    type Dst = u16;

    ghost Value = { ℕ };

    ghost model = { λ v. v };

    ghost is_valid = { λ v. v < 256 ^ 2 };

    ghost reading = { number_read 2 true };

    fn type_meta() -> TypeMeta {
        TypeMeta::Static {
            size: 2,
            zero_copy: true,
        }
    }

    fn prealloc_size() -> usize {
        2
    }

    fn read<R: Reader<L>>(_alloc: Global, reader: &mut R, dst: &mut Option<u16>) -> ReadResult<()> {
        let bytes = take_array::<L, R, 2>(reader)?;
        *dst = Some(u16::from_le_bytes(bytes));
        Ok(())
    }

    /// All at once: `ReadSizeLimit` of the size of all where fewer bytes are left. Refused, for memory
    /// too, all bytes stay.
    #[inline(always)]
    fn read_at_once<R: Reader<L>>(
        _alloc: Global,
        reader: &mut R,
        n: usize,
        into: &mut Vec<u16>,
    ) -> Option<ReadResult<()>>
        ensures always { IsSome result }
        ensures done { IfSome result (λ r. ReadAtOnce 2 n (number_read 2 true) (λ v. v) (R.state reader.old) (R.state reader.new) into.old.items into.new.items r) }
        ensures left { IsNone result → R.state reader.new ≡ R.state reader.old }
        ensures same { IsNone result → into.new.items ≡ into.old.items }
    {
        Some(read_all::<L, R, u16>(reader, n, into))
    }

    #[inline(always)]
    fn blank() -> Option<u16> {
        Some(0)
    }

    #[inline(always)]
    fn decode(bytes: &[u8], place: &mut u16) -> bool {
        decode_form(bytes, place)
    }

    ghost read_laws = { number_read_laws 2 true (lit≤ tt) };
}

impl<L: Lending> SchemaRead<L> for u32 {
    type Dst = u32;

    ghost Value = { ℕ };

    ghost model = { λ v. v };

    ghost is_valid = { λ v. v < 256 ^ 4 };

    ghost reading = { number_read 4 true };

    fn type_meta() -> TypeMeta {
        TypeMeta::Static {
            size: 4,
            zero_copy: true,
        }
    }

    fn prealloc_size() -> usize {
        4
    }

    fn read<R: Reader<L>>(_alloc: Global, reader: &mut R, dst: &mut Option<u32>) -> ReadResult<()> {
        let bytes = take_array::<L, R, 4>(reader)?;
        *dst = Some(u32::from_le_bytes(bytes));
        Ok(())
    }

    /// All at once: `ReadSizeLimit` of the size of all where fewer bytes are left. Refused, for memory
    /// too, all bytes stay.
    #[inline(always)]
    fn read_at_once<R: Reader<L>>(
        _alloc: Global,
        reader: &mut R,
        n: usize,
        into: &mut Vec<u32>,
    ) -> Option<ReadResult<()>>
        ensures always { IsSome result }
        ensures done { IfSome result (λ r. ReadAtOnce 4 n (number_read 4 true) (λ v. v) (R.state reader.old) (R.state reader.new) into.old.items into.new.items r) }
        ensures left { IsNone result → R.state reader.new ≡ R.state reader.old }
        ensures same { IsNone result → into.new.items ≡ into.old.items }
    {
        Some(read_all::<L, R, u32>(reader, n, into))
    }

    #[inline(always)]
    fn blank() -> Option<u32> {
        Some(0)
    }

    #[inline(always)]
    fn decode(bytes: &[u8], place: &mut u32) -> bool {
        decode_form(bytes, place)
    }

    ghost read_laws = { number_read_laws 4 true (lit≤ tt) };
}

impl<L: Lending> SchemaRead<L> for u64 {
    type Dst = u64;

    ghost Value = { ℕ };

    ghost model = { λ v. v };

    ghost is_valid = { λ v. v < 256 ^ 8 };

    ghost reading = { number_read 8 true };

    fn type_meta() -> TypeMeta {
        TypeMeta::Static {
            size: 8,
            zero_copy: true,
        }
    }

    fn prealloc_size() -> usize {
        8
    }

    fn read<R: Reader<L>>(_alloc: Global, reader: &mut R, dst: &mut Option<u64>) -> ReadResult<()> {
        let bytes = take_array::<L, R, 8>(reader)?;
        *dst = Some(u64::from_le_bytes(bytes));
        Ok(())
    }

    /// All at once: `ReadSizeLimit` of the size of all where fewer bytes are left. Refused, for memory
    /// too, all bytes stay.
    #[inline(always)]
    fn read_at_once<R: Reader<L>>(
        _alloc: Global,
        reader: &mut R,
        n: usize,
        into: &mut Vec<u64>,
    ) -> Option<ReadResult<()>>
        ensures always { IsSome result }
        ensures done { IfSome result (λ r. ReadAtOnce 8 n (number_read 8 true) (λ v. v) (R.state reader.old) (R.state reader.new) into.old.items into.new.items r) }
        ensures left { IsNone result → R.state reader.new ≡ R.state reader.old }
        ensures same { IsNone result → into.new.items ≡ into.old.items }
    {
        Some(read_all::<L, R, u64>(reader, n, into))
    }

    #[inline(always)]
    fn blank() -> Option<u64> {
        Some(0)
    }

    #[inline(always)]
    fn decode(bytes: &[u8], place: &mut u64) -> bool {
        decode_form(bytes, place)
    }

    ghost read_laws = { number_read_laws 8 true (lit≤ tt) };
}

impl<L: Lending> SchemaRead<L> for u128 {
    type Dst = u128;

    ghost Value = { ℕ };

    ghost model = { λ v. v };

    ghost is_valid = { λ v. v < 256 ^ 16 };

    ghost reading = { number_read 16 true };

    fn type_meta() -> TypeMeta {
        TypeMeta::Static {
            size: 16,
            zero_copy: true,
        }
    }

    fn prealloc_size() -> usize {
        16
    }

    fn read<R: Reader<L>>(
        _alloc: Global,
        reader: &mut R,
        dst: &mut Option<u128>,
    ) -> ReadResult<()> {
        let bytes = take_array::<L, R, 16>(reader)?;
        *dst = Some(u128::from_le_bytes(bytes));
        Ok(())
    }

    /// All at once: `ReadSizeLimit` of the size of all where fewer bytes are left. Refused, for memory
    /// too, all bytes stay.
    #[inline(always)]
    fn read_at_once<R: Reader<L>>(
        _alloc: Global,
        reader: &mut R,
        n: usize,
        into: &mut Vec<u128>,
    ) -> Option<ReadResult<()>>
        ensures always { IsSome result }
        ensures done { IfSome result (λ r. ReadAtOnce 16 n (number_read 16 true) (λ v. v) (R.state reader.old) (R.state reader.new) into.old.items into.new.items r) }
        ensures left { IsNone result → R.state reader.new ≡ R.state reader.old }
        ensures same { IsNone result → into.new.items ≡ into.old.items }
    {
        Some(read_all::<L, R, u128>(reader, n, into))
    }

    #[inline(always)]
    fn blank() -> Option<u128> {
        Some(0)
    }

    #[inline(always)]
    fn decode(bytes: &[u8], place: &mut u128) -> bool {
        decode_form(bytes, place)
    }

    ghost read_laws = { number_read_laws 16 true (lit≤ tt) };
}

impl<L: Lending> SchemaRead<L> for i8 {
    type Dst = i8;

    ghost Value = { ℤ };

    ghost model = { λ v. v };

    ghost is_valid = { FitsSigned w8 };

    ghost reading = { signed_read w8 true };

    fn type_meta() -> TypeMeta {
        TypeMeta::Static {
            size: 1,
            zero_copy: true,
        }
    }

    fn prealloc_size() -> usize {
        1
    }

    fn read<R: Reader<L>>(_alloc: Global, reader: &mut R, dst: &mut Option<i8>) -> ReadResult<()> {
        let bytes = take_array::<L, R, 1>(reader)?;
        *dst = Some(i8::from_le_bytes(bytes));
        Ok(())
    }

    /// All at once: `ReadSizeLimit` of the size of all where fewer bytes are left. Refused, for memory
    /// too, all bytes stay.
    #[inline(always)]
    fn read_at_once<R: Reader<L>>(
        _alloc: Global,
        reader: &mut R,
        n: usize,
        into: &mut Vec<i8>,
    ) -> Option<ReadResult<()>>
        ensures always { IsSome result }
        ensures done { IfSome result (λ r. ReadAtOnce 1 n (signed_read w8 true) (λ v. v) (R.state reader.old) (R.state reader.new) into.old.items into.new.items r) }
        ensures left { IsNone result → R.state reader.new ≡ R.state reader.old }
        ensures same { IsNone result → into.new.items ≡ into.old.items }
    {
        Some(read_all::<L, R, i8>(reader, n, into))
    }

    #[inline(always)]
    fn blank() -> Option<i8> {
        Some(0)
    }

    #[inline(always)]
    fn decode(bytes: &[u8], place: &mut i8) -> bool {
        decode_form(bytes, place)
    }

    ghost read_laws = { signed_read_laws w8 refl true (lit≤ tt) };
}

impl<L: Lending> SchemaRead<L> for i16 {
    type Dst = i16;

    ghost Value = { ℤ };

    ghost model = { λ v. v };

    ghost is_valid = { FitsSigned w16 };

    ghost reading = { signed_read w16 true };

    fn type_meta() -> TypeMeta {
        TypeMeta::Static {
            size: 2,
            zero_copy: true,
        }
    }

    fn prealloc_size() -> usize {
        2
    }

    fn read<R: Reader<L>>(_alloc: Global, reader: &mut R, dst: &mut Option<i16>) -> ReadResult<()> {
        let bytes = take_array::<L, R, 2>(reader)?;
        *dst = Some(i16::from_le_bytes(bytes));
        Ok(())
    }

    /// All at once: `ReadSizeLimit` of the size of all where fewer bytes are left. Refused, for memory
    /// too, all bytes stay.
    #[inline(always)]
    fn read_at_once<R: Reader<L>>(
        _alloc: Global,
        reader: &mut R,
        n: usize,
        into: &mut Vec<i16>,
    ) -> Option<ReadResult<()>>
        ensures always { IsSome result }
        ensures done { IfSome result (λ r. ReadAtOnce 2 n (signed_read w16 true) (λ v. v) (R.state reader.old) (R.state reader.new) into.old.items into.new.items r) }
        ensures left { IsNone result → R.state reader.new ≡ R.state reader.old }
        ensures same { IsNone result → into.new.items ≡ into.old.items }
    {
        Some(read_all::<L, R, i16>(reader, n, into))
    }

    #[inline(always)]
    fn blank() -> Option<i16> {
        Some(0)
    }

    #[inline(always)]
    fn decode(bytes: &[u8], place: &mut i16) -> bool {
        decode_form(bytes, place)
    }

    ghost read_laws = { signed_read_laws w16 refl true (lit≤ tt) };
}

impl<L: Lending> SchemaRead<L> for i32 {
    type Dst = i32;

    ghost Value = { ℤ };

    ghost model = { λ v. v };

    ghost is_valid = { FitsSigned w32 };

    ghost reading = { signed_read w32 true };

    fn type_meta() -> TypeMeta {
        TypeMeta::Static {
            size: 4,
            zero_copy: true,
        }
    }

    fn prealloc_size() -> usize {
        4
    }

    fn read<R: Reader<L>>(_alloc: Global, reader: &mut R, dst: &mut Option<i32>) -> ReadResult<()> {
        let bytes = take_array::<L, R, 4>(reader)?;
        *dst = Some(i32::from_le_bytes(bytes));
        Ok(())
    }

    /// All at once: `ReadSizeLimit` of the size of all where fewer bytes are left. Refused, for memory
    /// too, all bytes stay.
    #[inline(always)]
    fn read_at_once<R: Reader<L>>(
        _alloc: Global,
        reader: &mut R,
        n: usize,
        into: &mut Vec<i32>,
    ) -> Option<ReadResult<()>>
        ensures always { IsSome result }
        ensures done { IfSome result (λ r. ReadAtOnce 4 n (signed_read w32 true) (λ v. v) (R.state reader.old) (R.state reader.new) into.old.items into.new.items r) }
        ensures left { IsNone result → R.state reader.new ≡ R.state reader.old }
        ensures same { IsNone result → into.new.items ≡ into.old.items }
    {
        Some(read_all::<L, R, i32>(reader, n, into))
    }

    #[inline(always)]
    fn blank() -> Option<i32> {
        Some(0)
    }

    #[inline(always)]
    fn decode(bytes: &[u8], place: &mut i32) -> bool {
        decode_form(bytes, place)
    }

    ghost read_laws = { signed_read_laws w32 refl true (lit≤ tt) };
}

impl<L: Lending> SchemaRead<L> for i64 {
    type Dst = i64;

    ghost Value = { ℤ };

    ghost model = { λ v. v };

    ghost is_valid = { FitsSigned w64 };

    ghost reading = { signed_read w64 true };

    fn type_meta() -> TypeMeta {
        TypeMeta::Static {
            size: 8,
            zero_copy: true,
        }
    }

    fn prealloc_size() -> usize {
        8
    }

    fn read<R: Reader<L>>(_alloc: Global, reader: &mut R, dst: &mut Option<i64>) -> ReadResult<()> {
        let bytes = take_array::<L, R, 8>(reader)?;
        *dst = Some(i64::from_le_bytes(bytes));
        Ok(())
    }

    /// All at once: `ReadSizeLimit` of the size of all where fewer bytes are left. Refused, for memory
    /// too, all bytes stay.
    #[inline(always)]
    fn read_at_once<R: Reader<L>>(
        _alloc: Global,
        reader: &mut R,
        n: usize,
        into: &mut Vec<i64>,
    ) -> Option<ReadResult<()>>
        ensures always { IsSome result }
        ensures done { IfSome result (λ r. ReadAtOnce 8 n (signed_read w64 true) (λ v. v) (R.state reader.old) (R.state reader.new) into.old.items into.new.items r) }
        ensures left { IsNone result → R.state reader.new ≡ R.state reader.old }
        ensures same { IsNone result → into.new.items ≡ into.old.items }
    {
        Some(read_all::<L, R, i64>(reader, n, into))
    }

    #[inline(always)]
    fn blank() -> Option<i64> {
        Some(0)
    }

    #[inline(always)]
    fn decode(bytes: &[u8], place: &mut i64) -> bool {
        decode_form(bytes, place)
    }

    ghost read_laws = { signed_read_laws w64 refl true (lit≤ tt) };
}

impl<L: Lending> SchemaRead<L> for i128 {
    type Dst = i128;

    ghost Value = { ℤ };

    ghost model = { λ v. v };

    ghost is_valid = { FitsSigned w128 };

    ghost reading = { signed_read w128 true };

    fn type_meta() -> TypeMeta {
        TypeMeta::Static {
            size: 16,
            zero_copy: true,
        }
    }

    fn prealloc_size() -> usize {
        16
    }

    fn read<R: Reader<L>>(
        _alloc: Global,
        reader: &mut R,
        dst: &mut Option<i128>,
    ) -> ReadResult<()> {
        let bytes = take_array::<L, R, 16>(reader)?;
        *dst = Some(i128::from_le_bytes(bytes));
        Ok(())
    }

    /// All at once: `ReadSizeLimit` of the size of all where fewer bytes are left. Refused, for memory
    /// too, all bytes stay.
    #[inline(always)]
    fn read_at_once<R: Reader<L>>(
        _alloc: Global,
        reader: &mut R,
        n: usize,
        into: &mut Vec<i128>,
    ) -> Option<ReadResult<()>>
        ensures always { IsSome result }
        ensures done { IfSome result (λ r. ReadAtOnce 16 n (signed_read w128 true) (λ v. v) (R.state reader.old) (R.state reader.new) into.old.items into.new.items r) }
        ensures left { IsNone result → R.state reader.new ≡ R.state reader.old }
        ensures same { IsNone result → into.new.items ≡ into.old.items }
    {
        Some(read_all::<L, R, i128>(reader, n, into))
    }

    #[inline(always)]
    fn blank() -> Option<i128> {
        Some(0)
    }

    #[inline(always)]
    fn decode(bytes: &[u8], place: &mut i128) -> bool {
        decode_form(bytes, place)
    }

    ghost read_laws = { signed_read_laws w128 refl true (lit≤ tt) };
}

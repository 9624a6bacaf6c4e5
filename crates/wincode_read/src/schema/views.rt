//! Schemas of views, and of bytes that the reader lends.
//!
//! One form is viewed by `Ref` and `RefMut`. Forms behind their number, which is eight bytes, are viewed by
//! `SliceRef` and `SliceRefMut`, and bytes behind theirs are lent as `&[u8]` and `&mut [u8]`. Reading
//! copies nothing and takes no memory, so that no limit stands against the number. The reader has to lend
//! its bytes, shared, or for writing where the view writes. Where the bytes behind the number are too few
//! it is `ReadSizeLimit` of their size, where they aren't lent `UnsupportedZeroCopy`, where their size is
//! past `usize::MAX` `LengthEncodingOverflow`; then the reader stands behind the number.
ghost use Rattle.std.proofs.Common.{lit≤};
ghost use Rattle.std.specs.Prelude.{◌≡◌, ℕ, ◌<◌, ◌^◌, List, false, true, max};
ghost use Rattle.wincode_io.specs.Joins.{Each};
ghost use Rattle.wincode_io.specs.Readers.{shared, for_writing};
ghost use Rattle.wincode_io.specs.Viewed.{value_seen, values_seen};
ghost use Rattle.wincode_base.specs.LeafLaws.{number_read_laws};
ghost use Rattle.wincode_base.specs.Leaves.{number_read};
ghost use Rattle.wincode_base.specs.Outcomes.{ReadOutcome, GetOutcome};
ghost use Rattle.wincode_base.specs.ViewLaws.{counts_some, form_read_laws, lent_read_laws};
ghost use Rattle.wincode_base.specs.Views.{form_item_read, view_read, lent_read, lent_run, forms_read};
ghost use Rattle.wincode_base.specs.declared.meta.TypeMeta.TheVariants.{Dynamic};

use crate::schema::SchemaRead;
use std::alloc::Global;
use wincode_base::error::{ReadResult, read_length_encoding_overflow};
use wincode_base::meta::TypeMeta;
use wincode_base::reader::take_number;
use wincode_base::sizes::form_meta;
use wincode_io as io;
use wincode_io::{Borrowed, Lending, Reader, SliceView, View, ZeroCopy, total_size};

/// A view of the next form, which is then gone.
fn lend_form<L: Lending, B: Borrowed<L>, T: ZeroCopy, R: Reader<L>>(
    reader: &mut R,
) -> ReadResult<View<B::Lent, T>>
    ensures { GetOutcome (view_read T.is_valid T.size T.form B.borrow) (λ v. value_seen v) (R.state reader.old) (R.state reader.new) result }
{
    let Some(size) = T::form_size() else {
        return Err(io::ReadError::ReadSizeLimit(usize::MAX).into());
    };
    let bytes = B::borrow::<R>(reader, size)?;
    Ok(View::<B::Lent, T>::over(bytes))
}

/// A view of the next `n` forms, which are then gone.
fn lend_run<L: Lending, B: Borrowed<L>, T: ZeroCopy, R: Reader<L>>(
    reader: &mut R,
    n: usize,
) -> ReadResult<SliceView<B::Lent, T>>
    ensures { GetOutcome (lent_run B.borrow T.size (form_item_read T.is_valid T.size T.form) n) (λ v. values_seen v) (R.state reader.old) (R.state reader.new) result }
{
    let Some(total) = total_size::<T>(n) else {
        return Err(read_length_encoding_overflow("usize::MAX"));
    };
    let bytes = B::borrow::<R>(reader, total)?;
    Ok(SliceView::<B::Lent, T>::over(bytes, n))
}

/// A view of the forms behind their number.
pub(crate) fn lend_forms<L: Lending, B: Borrowed<L>, T: ZeroCopy, R: Reader<L>>(
    reader: &mut R,
) -> ReadResult<SliceView<B::Lent, T>>
    ensures { GetOutcome (forms_read T.is_valid T.size T.form B.borrow) (λ v. values_seen v) (R.state reader.old) (R.state reader.new) result }
{
    let n = take_number::<L, R>(reader)? as usize;
    lend_run::<L, B, T, R>(reader, n)
}

/// A `Ref` or a `RefMut` is one form, viewed where it lies.
impl<L: Lending, B: Borrowed<L>, T: ZeroCopy> SchemaRead<L> for View<B, T> {
    type Dst = View<B::Lent, T>;

    ghost Value = { T };

    ghost model = { λ v. value_seen v };

    ghost is_valid = { T.is_valid };

    ghost reading = { view_read T.is_valid T.size T.form B.borrow };

    fn type_meta() -> TypeMeta {
        form_meta::<T>(false)
    }

    fn prealloc_size() -> usize {
        8
    }

    fn read<R: Reader<L>>(
        _alloc: Global,
        reader: &mut R,
        dst: &mut Option<View<B::Lent, T>>,
    ) -> ReadResult<()> {
        *dst = Some(lend_form::<L, B, T, R>(reader)?);
        Ok(())
    }

    #[inline(always)]
    fn read_at_once<R: Reader<L>>(
        alloc: Global,
        reader: &mut R,
        n: usize,
        into: &mut Vec<Self::Dst>,
    ) -> Option<ReadResult<()>> {
        let _ = (alloc, n);
        let _ = &*reader;
        let _ = &*into;
        None
    }

    #[inline(always)]
    fn blank() -> Option<Self::Dst> {
        None
    }

    #[inline(always)]
    fn decode(bytes: &[u8], place: &mut Self::Dst) -> bool {
        let _ = bytes.len();
        let _ = &*place;
        false
    }

    ghost read_laws = { form_read_laws T.byte_form false 8 B.borrow (lit≤ tt) };
}

/// A `SliceRef` or a `SliceRefMut` is forms behind their number, viewed where they lie.
impl<L: Lending, B: Borrowed<L>, T: ZeroCopy> SchemaRead<L> for SliceView<B, T> {
    type Dst = SliceView<B::Lent, T>;

    ghost Value = { List T };

    ghost model = { λ v. values_seen v };

    ghost is_valid = { Each T.is_valid };

    ghost reading = { forms_read T.is_valid T.size T.form B.borrow };

    fn type_meta() -> TypeMeta {
        TypeMeta::Dynamic
    }

    fn prealloc_size() -> usize {
        16
    }

    fn read<R: Reader<L>>(
        _alloc: Global,
        reader: &mut R,
        dst: &mut Option<SliceView<B::Lent, T>>,
    ) -> ReadResult<()> {
        *dst = Some(lend_forms::<L, B, T, R>(reader)?);
        Ok(())
    }

    #[inline(always)]
    fn read_at_once<R: Reader<L>>(
        alloc: Global,
        reader: &mut R,
        n: usize,
        into: &mut Vec<Self::Dst>,
    ) -> Option<ReadResult<()>> {
        let _ = (alloc, n);
        let _ = &*reader;
        let _ = &*into;
        None
    }

    #[inline(always)]
    fn blank() -> Option<Self::Dst> {
        None
    }

    #[inline(always)]
    fn decode(bytes: &[u8], place: &mut Self::Dst) -> bool {
        let _ = bytes.len();
        let _ = &*place;
        false
    }

    ghost read_laws = { lent_read_laws B.borrow T.size T.is_valid (form_item_read T.is_valid T.size T.form)
        (form_read_laws T.byte_form true (max T.size 1) 0 (counts_some T.size)) };
}

/// The bytes behind their number.
fn lend_bytes<L: Lending, B: Borrowed<L>, R: Reader<L>>(reader: &mut R) -> ReadResult<B::Lent>
    ensures { GetOutcome (lent_read B.borrow 1 (number_read 1 true)) (λ s. B.Lent.holds s) (R.state reader.old) (R.state reader.new) result }
{
    let view = lend_forms::<L, B, u8, R>(reader)?;
    Ok(view.into_bytes())
}

/// A `&[u8]` is bytes behind their number, lent by the reader for as long as its bytes live.
impl<'s, L: Lending> SchemaRead<L> for &'s [u8] {
    type Dst = L::Bytes;

    ghost Value = { List ℕ };

    ghost model = { λ s. L.Bytes.holds s };

    ghost is_valid = { Each (λ v. v < 256 ^ 1) };

    ghost reading = { lent_read shared 1 (number_read 1 true) };

    fn type_meta() -> TypeMeta
        ensures { result ≡ Dynamic }
    {
        TypeMeta::Dynamic
    }

    fn prealloc_size() -> usize
        ensures { result ≡ 16 }
    {
        16
    }

    fn read<R: Reader<L>>(
        _alloc: Global,
        reader: &mut R,
        dst: &mut Option<L::Bytes>,
    ) -> ReadResult<()>
        ensures { ReadOutcome (lent_read shared 1 (number_read 1 true)) (λ s. L.Bytes.holds s) (R.state reader.old) (R.state reader.new) dst.old dst.new result }
    {
        *dst = Some(lend_bytes::<L, &'s [u8], R>(reader)?);
        Ok(())
    }

    ghost read_laws = { lent_read_laws shared 1 (λ v. v < 256 ^ 1) (number_read 1 true) (number_read_laws 1 true (lit≤ tt)) };
}

/// A `&mut [u8]` is bytes behind their number, lent by the reader for writing.
impl<'s, L: Lending> SchemaRead<L> for &'s mut [u8] {
    type Dst = L::BytesMut;

    ghost Value = { List ℕ };

    ghost model = { λ s. L.BytesMut.holds s };

    ghost is_valid = { Each (λ v. v < 256 ^ 1) };

    ghost reading = { lent_read for_writing 1 (number_read 1 true) };

    fn type_meta() -> TypeMeta
        ensures { result ≡ Dynamic }
    {
        TypeMeta::Dynamic
    }

    fn prealloc_size() -> usize
        ensures { result ≡ 16 }
    {
        16
    }

    fn read<R: Reader<L>>(
        _alloc: Global,
        reader: &mut R,
        dst: &mut Option<L::BytesMut>,
    ) -> ReadResult<()>
        ensures { ReadOutcome (lent_read for_writing 1 (number_read 1 true)) (λ s. L.BytesMut.holds s) (R.state reader.old) (R.state reader.new) dst.old dst.new result }
    {
        *dst = Some(lend_bytes::<L, &'s mut [u8], R>(reader)?);
        Ok(())
    }

    ghost read_laws = { lent_read_laws for_writing 1 (λ v. v < 256 ^ 1) (number_read 1 true) (number_read_laws 1 true (lit≤ tt)) };
}

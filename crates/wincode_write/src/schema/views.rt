//! Schemas of views that are shared: one form by itself, forms behind their number through one window of the
//! whole.
ghost use Rattle.std.specs.Prelude.{◌<◌, List, false, true, max};
ghost use Rattle.wincode_io.specs.Joins.{Each};
ghost use Rattle.wincode_io.specs.Viewed.{value_seen, values_seen};
ghost use Rattle.wincode_base.specs.ViewLaws.{form_write_laws, lent_write_laws};
ghost use Rattle.wincode_base.specs.Views.{form_item_write, form_write, forms_write};
ghost use Rattle.wincode_base.specs.declared.meta.TypeMeta.TheVariants.{Dynamic};

use crate::schema::SchemaWrite;
use crate::schema::to_items::{ToItems, size_of_list, write_list};
use wincode_base::error::{WriteResult, write_length_encoding_overflow};
use wincode_base::len::{BincodeLen, NO_LIMIT};
use wincode_base::meta::TypeMeta;
use wincode_base::parts::Pod;
use wincode_base::sizes::{ItemSize, form_meta};
use wincode_io::{Held, SharedBytes, SliceView, View, Writer, ZeroCopy, see_bytes};

/// A `Ref` is written as the form that it views.
impl<B: SharedBytes, T: ZeroCopy> SchemaWrite for View<B, T> {
    type Src = View<B, T>;

    ghost Value = { T };

    ghost model = { λ v. value_seen v };

    ghost is_valid = { λ v. T.is_valid (value_seen v) };

    ghost writing = { form_write T.is_valid T.size T.form false 8 };

    fn type_meta() -> TypeMeta {
        form_meta::<T>(false)
    }

    fn size_of(src: &View<B, T>) -> WriteResult<usize> {
        Ok(src.as_bytes().len())
    }

    fn write<W: Writer>(writer: &mut W, src: &View<B, T>) -> WriteResult<()> {
        let bytes = src.as_bytes();
        see_bytes(bytes);
        writer.write(bytes)?;
        Ok(())
    }

    #[inline(always)]
    fn write_at_once<W: Writer>(writer: &mut W, items: &[Self::Src]) -> Option<WriteResult<()>> {
        let _ = &*writer;
        let _items = items.len();
        None
    }

    #[inline(always)]
    fn known_size() -> Option<usize> {
        None
    }

    #[inline(always)]
    fn encode_front(src: &Self::Src, dst: &mut [u8]) -> Option<usize> {
        let _ = src;
        let _len = dst.len();
        None
    }

    ghost write_laws = { form_write_laws T.byte_form (λ v. value_seen v) false 8 };
}

/// The forms that it views, all at once.
impl<B: Held, T: ZeroCopy> ToItems<Pod<T>> for SliceView<B, T> {
    ghost listed = { λ v. values_seen v };

    ghost sound = { λ v. Unit {0} };

    fn count(&self) -> usize {
        self.len()
    }

    fn add_sizes(&self, before: usize) -> WriteResult<usize> {
        match before.checked_add(self.as_bytes().len()) {
            Some(sum) => Ok(sum),
            None => Err(write_length_encoding_overflow("usize::MAX")),
        }
    }

    fn write_to<W: Writer>(&self, writer: &mut W) -> WriteResult<()> {
        let bytes = self.as_bytes();
        see_bytes(bytes);
        if self.len() == 0 {
            return Ok(());
        }
        writer.write(bytes)?;
        Ok(())
    }
}

/// A `SliceRef` is written as the list of the forms that it views.
impl<B: SharedBytes, T: ZeroCopy> SchemaWrite for SliceView<B, T> {
    type Src = SliceView<B, T>;

    ghost Value = { List T };

    ghost model = { λ v. values_seen v };

    ghost is_valid = { λ v. Each T.is_valid (values_seen v) };

    ghost writing = { forms_write T.is_valid T.size T.form };

    fn type_meta() -> TypeMeta {
        TypeMeta::Dynamic
    }

    fn size_of(src: &SliceView<B, T>) -> WriteResult<usize> {
        size_of_list::<BincodeLen<NO_LIMIT>, Pod<T>, SliceView<B, T>, 16>(src)
    }

    fn write<W: Writer>(writer: &mut W, src: &SliceView<B, T>) -> WriteResult<()> {
        let size = ItemSize::of(Pod::<T>::type_meta());
        write_list::<BincodeLen<NO_LIMIT>, Pod<T>, SliceView<B, T>, W, 16>(writer, src, size)
    }

    #[inline(always)]
    fn write_at_once<W: Writer>(writer: &mut W, items: &[Self::Src]) -> Option<WriteResult<()>> {
        let _ = &*writer;
        let _items = items.len();
        None
    }

    #[inline(always)]
    fn known_size() -> Option<usize> {
        None
    }

    #[inline(always)]
    fn encode_front(src: &Self::Src, dst: &mut [u8]) -> Option<usize> {
        let _ = src;
        let _len = dst.len();
        None
    }

    ghost write_laws = { lent_write_laws (λ v. values_seen v) T.is_valid
        (form_item_write T.is_valid T.size T.form) (form_write_laws T.byte_form (λ v. v) true (max T.size 1)) };
}

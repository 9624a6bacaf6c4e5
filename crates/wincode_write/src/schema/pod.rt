//! The schema of a value that has a byte form.
ghost use Rattle.std.specs.Prelude.{IsSome, ◌≡◌, true, length, map, IfSome, IsNone};
ghost use Rattle.wincode_io.specs.Joins.{Each};
ghost use Rattle.wincode_base.specs.AsForms.{WrittenAtOnce};
ghost use Rattle.wincode_base.specs.ViewLaws.{form_write_laws};
ghost use Rattle.wincode_base.specs.Views.{form_prealloc, form_write};

use crate::schema::SchemaWrite;
use crate::schema::as_forms::encode_form;
use wincode_base::error::{WriteResult, write_length_encoding_overflow};
use wincode_base::meta::TypeMeta;
use wincode_base::parts::Pod;
use wincode_base::sizes::form_meta;
use wincode_io as io;
use wincode_io::bulk::write_forms;
use wincode_io::{Writer, ZeroCopy};

/// Writes the forms of the values, one after another, all or nothing.
fn write_pods<T: ZeroCopy, W: Writer>(writer: &mut W, items: &[T]) -> WriteResult<()>
    ensures { WrittenAtOnce T.size (length items.now) (form_write T.is_valid T.size T.form true (form_prealloc T.size)) (W.state writer.old) (W.state writer.new) (map (λ v. v) items.now)
        (Each T.is_valid items.now) result }
{
    if items.is_empty() {
        return Ok(());
    }
    write_forms(writer, items)?;
    Ok(())
}

impl<T: ZeroCopy> SchemaWrite for Pod<T> {
    type Src = T;

    ghost Value = { T };

    ghost model = { λ v. v };

    ghost is_valid = { T.is_valid };

    ghost writing = { form_write T.is_valid T.size T.form true (form_prealloc T.size) };

    fn type_meta() -> TypeMeta {
        form_meta::<T>(true)
    }

    fn size_of(_src: &T) -> WriteResult<usize> {
        match T::form_size() {
            Some(size) => Ok(size),
            None => Err(write_length_encoding_overflow("usize::MAX")),
        }
    }

    fn write<W: Writer>(writer: &mut W, src: &T) -> WriteResult<()> {
        let Some(size) = T::form_size() else {
            return Err(io::WriteError::WriteSizeLimit(usize::MAX).into());
        };
        writer.make_room(size)?;
        writer.write_ready_t(src);
        Ok(())
    }

    /// All at once: refused, nothing is written.
    #[inline(always)]
    fn write_at_once<W: Writer>(writer: &mut W, items: &[T]) -> Option<WriteResult<()>>
        ensures always { IsSome result }
        ensures done { IfSome result (λ r. WrittenAtOnce T.size (length items.now) (form_write T.is_valid T.size T.form true (form_prealloc T.size))
            (W.state writer.old) (W.state writer.new) (map (λ v. v) items.now) (Each T.is_valid items.now) r) }
        ensures left { IsNone result → W.state writer.new ≡ W.state writer.old }
    {
        Some(write_pods::<T, W>(writer, items))
    }

    #[inline(always)]
    fn encode_front(src: &T, dst: &mut [u8]) -> Option<usize> {
        encode_form::<T>(src, dst)
    }

    #[inline(always)]
    fn known_size() -> Option<usize> {
        None
    }

    ghost write_laws = { form_write_laws T.byte_form (λ v. v) true (form_prealloc T.size) };
}

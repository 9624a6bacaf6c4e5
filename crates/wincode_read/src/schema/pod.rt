//! The schema of a value that has a byte form.
ghost use Rattle.std.specs.Prelude.{IsSome, ◌≡◌, true, IfSome, IsNone};
ghost use Rattle.wincode_base.specs.AsForms.{ReadAtOnce};
ghost use Rattle.wincode_base.specs.Outcomes.{GetOutcome};
ghost use Rattle.wincode_base.specs.ViewLaws.{form_prealloc_some, form_read_laws};
ghost use Rattle.wincode_base.specs.Views.{form_prealloc, pod_read};

use crate::schema::SchemaRead;
use crate::schema::as_forms::{decode_form, read_all};
use std::alloc::Global;
use wincode_base::error::{ReadResult, read_length_encoding_overflow};
use wincode_base::meta::TypeMeta;
use wincode_base::parts::Pod;
use wincode_base::sizes::form_meta;
use wincode_io as io;
use wincode_io::{Lending, Reader, ZeroCopy, see_bytes};

/// The value of the next form, which is then gone.
fn take_form<L: Lending, T: ZeroCopy, R: Reader<L>>(reader: &mut R) -> ReadResult<T>
    ensures { GetOutcome (pod_read T.is_valid T.size T.form) (λ v. v) (R.state reader.old) (R.state reader.new) result }
{
    let Some(size) = T::form_size() else {
        return Err(io::ReadError::ReadSizeLimit(usize::MAX).into());
    };
    let bytes = reader.fill_exact(size)?;
    see_bytes(bytes);
    let value = T::of_form(bytes);
    reader.consume_unchecked(size);
    Ok(value)
}

/// Reads `n` values at once, and adds them to the list.
fn read_pods<L: Lending, T: ZeroCopy, R: Reader<L>>(
    reader: &mut R,
    n: usize,
    into: &mut Vec<T>,
) -> ReadResult<()>
    ensures { ReadAtOnce T.size n (pod_read T.is_valid T.size T.form) (λ v. v) (R.state reader.old) (R.state reader.new) into.old.items into.new.items result }
{
    match T::form_size() {
        Some(_) => read_all::<L, R, T>(reader, n, into),
        None if n == 0 => Ok(()),
        None => Err(read_length_encoding_overflow("usize::MAX")),
    }
}

impl<L: Lending, T: ZeroCopy> SchemaRead<L> for Pod<T> {
    type Dst = T;

    ghost Value = { T };

    ghost model = { λ v. v };

    ghost is_valid = { T.is_valid };

    ghost reading = { pod_read T.is_valid T.size T.form };

    fn type_meta() -> TypeMeta {
        form_meta::<T>(true)
    }

    fn prealloc_size() -> usize {
        match T::form_size() {
            Some(size) => size.max(1),
            None => usize::MAX,
        }
    }

    fn read<R: Reader<L>>(_alloc: Global, reader: &mut R, dst: &mut Option<T>) -> ReadResult<()> {
        *dst = Some(take_form::<L, T, R>(reader)?);
        Ok(())
    }

    /// All at once: `ReadSizeLimit` of the size of all where fewer bytes are left. Refused, for memory
    /// too, all bytes stay. Where `usize` can't count the bytes of one it is `LengthEncodingOverflow`.
    #[inline(always)]
    fn read_at_once<R: Reader<L>>(
        _alloc: Global,
        reader: &mut R,
        n: usize,
        into: &mut Vec<T>,
    ) -> Option<ReadResult<()>>
        ensures always { IsSome result }
        ensures done { IfSome result (λ r. ReadAtOnce T.size n (pod_read T.is_valid T.size T.form) (λ v. v) (R.state reader.old) (R.state reader.new) into.old.items into.new.items r) }
        ensures left { IsNone result → R.state reader.new ≡ R.state reader.old }
        ensures same { IsNone result → into.new.items ≡ into.old.items }
    {
        Some(read_pods::<L, T, R>(reader, n, into))
    }

    /// That of zeros, where a form has at most 64 bytes.
    #[inline(always)]
    fn blank() -> Option<T> {
        match T::form_size() {
            Some(size) if size <= 64 => Some(T::of_form(&[0u8; 64][..size])),
            _ => None,
        }
    }

    #[inline(always)]
    fn decode(bytes: &[u8], place: &mut T) -> bool {
        decode_form(bytes, place)
    }

    ghost read_laws = { form_read_laws T.byte_form true (form_prealloc T.size) 0 (form_prealloc_some T.size) };
}

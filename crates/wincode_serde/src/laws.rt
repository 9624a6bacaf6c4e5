//! Edits of forms where they stand: what the whole buffer is afterwards.
//!
//! A refusal comes before any edit: the bytes are then as they were. Neither call takes memory.
ghost use Rattle.std.specs.Prelude.{◌≡◌, ℕ, ◌*◌, ◌<◌, length, IfErr, OnOk, OnErr, IsTrue, ◌↔◌};
ghost use Rattle.std.specs.List.{All};
ghost use Rattle.wincode_io.specs.Edits.{all_edited, in_places, in_first};
ghost use Rattle.wincode_serde.specs.Edits.{EditedInPlace, EditRefused, EditedFirst, FirstEditRefused};

use wincode_base::error::{ReadError, ReadResult, read_length_encoding_overflow};
use wincode_io::{self as io, RefMut, SliceRefMut, ZeroCopy, see_bytes, size_of_form, total_size};

/// Whether each edit names one of `n` places.
fn are_within<T: ZeroCopy>(edits: &[(usize, T)], n: usize) -> bool
    ensures { IsTrue result ↔ All (λ e. e.0 < n) edits.now }
{
    edits.iter().all(|e| e.0 < n)
}

/// Puts each value's form in its place, one after another, in the `n` forms.
fn edit_forms<T: ZeroCopy>(forms: &mut [u8], n: usize, edits: &[(usize, T)])
    requires sized { length forms.old ≡ n * T.size }
    requires within { All (λ e. e.0 < n) edits.now }
    ensures forms { forms.new ≡ all_edited T.size forms.old (in_places T.form edits.now) }
    ensures is_valid { All (λ e. T.is_valid e.1) edits.now }
{
    let mut view = SliceRefMut::<'_, T>::new(forms, n);
    for (i, value) in edits {
        view.set(*i, *value);
    }
}

/// Puts each value's form over the form, one after another.
fn edit_form<T: ZeroCopy>(form: &mut [u8], values: &[T])
    requires { length form.old ≡ T.size }
    ensures form { form.new ≡ all_edited T.size form.old (in_first T.form values.now) }
    ensures is_valid { All T.is_valid values.now }
{
    let mut view = RefMut::<'_, T>::new(form);
    for value in values {
        view.set(*value);
    }
}

/// Puts each value's form in its place, one after another, in the forms that stand behind their number,
/// as a `SliceRefMut` reads them. It is refused as that is; where an edit names a place that there
/// isn't it is `Custom("index")`.
pub fn edit_in_place<T: ZeroCopy>(bytes: &mut [u8], edits: &[(usize, T)]) -> ReadResult<()>
    ensures ok { OnOk result (EditedInPlace T.size T.form T.value bytes.old edits.now bytes.new) }
    ensures err { IfErr result (EditRefused T.size bytes.old edits.now) }
    ensures same { OnErr result (bytes.new ≡ bytes.old) }
{
    see_bytes(bytes);
    if bytes.len() < 8 {
        return Err(io::ReadError::ReadSizeLimit(8).into());
    }
    let n = u64::of_form(&bytes[..8]) as usize;
    let Some(total) = total_size::<T>(n) else {
        return Err(read_length_encoding_overflow("usize::MAX"));
    };
    if bytes.len() - 8 < total {
        return Err(io::ReadError::ReadSizeLimit(total).into());
    }
    if !are_within(edits, n) {
        return Err(ReadError::Custom("index"));
    }
    edit_forms(&mut bytes[8..8 + total], n, edits);
    Ok(())
}

/// Puts each value's form over the bytes that the buffer begins with, one after another, as a view of
/// `from_bytes_mut` sets it; they read as the last of the values then. Where there are fewer bytes it is `ReadSizeLimit` of the form's size in
/// bytes, or of `usize::MAX` where the size is more.
pub fn edit_one<T: ZeroCopy>(bytes: &mut [u8], values: &[T]) -> ReadResult<()>
    ensures ok { OnOk result (EditedFirst T.size T.form T.value bytes.old values.now bytes.new) }
    ensures err { IfErr result (FirstEditRefused T.size bytes.old) }
    ensures same { OnErr result (bytes.new ≡ bytes.old) }
{
    T::from_bytes(bytes)?;
    // No effect at run time: the proof learns from it that the length fits `usize`.
    let _len = bytes.len();
    let size = size_of_form::<T>();
    edit_form(&mut bytes[..size], values);
    Ok(())
}

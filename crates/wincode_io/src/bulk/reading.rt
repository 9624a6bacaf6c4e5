//! Many values at once, from their bytes.
ghost use Rattle.std.specs.Prelude.{◌≡◌, ℕ, ◌*◌, ◌<◌, [], ◌++◌, length, slice_index, OnOk, OnErr};
ghost use Rattle.wincode_io.specs.Forms.{values};

use crate::zero_copy::ZeroCopy;
use std::alloc::AllocError;

/// Adds the values of the `n` forms that the bytes are, one after another: one growth, and one pass.
/// Refused, the list holds what it held.
pub fn add_forms<T: ZeroCopy>(bytes: &[u8], n: usize, into: &mut Vec<T>) -> Result<(), AllocError>
    requires { length bytes.now ≡ n * T.size }
    ensures ok { OnOk result (into.new.items ≡ into.old.items ++ values T.value T.size n bytes.now) }
    ensures err { OnErr result (into.new.items ≡ into.old.items) }
    ensures small { (i : ℕ) → slice_index bytes.now i < 256 }
{
    let before = into.len();
    into.reserve(n)?;
    let added = match T::form_size() {
        Some(size) if size > 0 => into.extend(
            bytes.chunks_exact(size).map(
                |form: &[u8]| -> T
                    requires { length form.now ≡ T.size }
                    ensures { result ≡ T.value form.now }
                { T::of_form(form) },
            ),
        ),
        Some(_) => into.extend((0..n).map(
            |_i: usize| -> T
                requires { T.size ≡ 0 }
                ensures { result ≡ T.value [] }
            { T::of_form(&[]) },
        )),
        None => Ok(()),
    };
    if added.is_err() {
        into.truncate(before);
        return Err(AllocError);
    }
    Ok(())
}

/// Adds the bytes to the list: one growth, and one copy. Refused, the list holds what it held.
pub fn add_bytes(bytes: &[u8], into: &mut Vec<u8>) -> Result<(), AllocError>
    ensures ok { OnOk result (into.new.items ≡ into.old.items ++ bytes.now) }
    ensures err { OnErr result (into.new.items ≡ into.old.items) }
    ensures small { (i : ℕ) → slice_index bytes.now i < 256 }
{
    into.extend_from_slice(bytes)
}

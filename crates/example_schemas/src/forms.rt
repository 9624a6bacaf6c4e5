//! Byte forms: a type of a caller's own, and forms that are put into a buffer through views.
ghost use Rattle.std.specs.Prelude.{◌≡◌, ℕ, ◌*◌, ◌<◌, ◌≤◌, ◌++◌, List, length, drop, min, OnOk, IfErr};
ghost use Rattle.std.proofs.Common.{refl};
ghost use Rattle.wincode_io.specs.Forms.{edited};
ghost use Rattle.wincode_io.specs.FormLaws.{number_form, array_form, wrapped_form};
ghost use Rattle.wincode_io.specs.Writers.{byte_limit};
ghost use Rattle.wincode_io.specs.declared.error.ReadError.TheVariants.{ReadSizeLimit};

use wincode_io::{ReadResult, RefMut, SliceRefMut, ZeroCopy, size_of_form};

/// Thirty-two bytes under a name.
#[derive(Clone, Copy)]
pub struct Address(pub [u8; 32]);

impl ZeroCopy for Address {
    ghost is_valid = { λ v. ⟦<[u8; 32] as ZeroCopy>⟧.is_valid v.0 };

    ghost size = { ⟦<[u8; 32] as ZeroCopy>⟧.size };

    ghost form = { λ v. ⟦<[u8; 32] as ZeroCopy>⟧.form v.0 };

    ghost value = { λ b. record { 0 = ⟦<[u8; 32] as ZeroCopy>⟧.value b } };

    fn form_size() -> Option<usize> {
        <[u8; 32]>::form_size()
    }

    fn of_form(bytes: &[u8]) -> Address {
        Address(<[u8; 32]>::of_form(bytes))
    }

    fn put_form(&self, dst: &mut [u8]) {
        self.0.put_form(dst);
    }

    ghost byte_form = { wrapped_form (λ x. record { 0 = x }) (λ y. y.0) (λ x. refl) (λ y. refl) (array_form 32 (number_form 1)) };
}

/// Puts the form of the value over the one that is there.
pub fn replace_whole<T: ZeroCopy>(form: &mut [u8], value: T)
    requires { length form.old ≡ T.size }
    ensures { form.new ≡ T.form value }
{
    let mut view = RefMut::<'_, T>::new(form);
    view.set(value);
}

/// Puts the form of the value over the bytes that the buffer begins with. Where there are fewer it is
/// `ReadSizeLimit` of the form's size in bytes, or of `usize::MAX` where the size is more, and the buffer
/// is as it was.
pub fn replace_first<T: ZeroCopy>(bytes: &mut [u8], value: T) -> ReadResult<()>
    ensures done { OnOk result ((T.size ≤ length bytes.old) × (bytes.new ≡ T.form value ++ drop T.size bytes.old)) }
    ensures err { IfErr result (λ e. (length bytes.old < T.size) × (e ≡ ReadSizeLimit (min T.size byte_limit)) × (bytes.new ≡ bytes.old)) }
{
    T::from_bytes(bytes)?;
    let _len = bytes.len();
    let size = size_of_form::<T>();
    replace_whole(&mut bytes[..size], value);
    Ok(())
}

/// Puts the form of the value over form `i` of `n`.
pub fn replace_at<T: ZeroCopy>(forms: &mut [u8], n: usize, i: usize, value: T)
    requires sized { length forms.old ≡ n * T.size }
    requires within { i < n }
    ensures { forms.new ≡ edited T.size forms.old i (T.form value) }
{
    let mut view = SliceRefMut::<'_, T>::new(forms, n);
    view.set(i, value);
}

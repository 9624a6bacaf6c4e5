//! Types whose values have byte forms of one size.
ghost use Rattle.std.specs.Prelude.{◌≡◌, ℕ, ◌+◌, ◌-◌, ◌*◌, ◌^◌, ◌<◌, ◌≤◌, ◌++◌, List, length, take, drop, MatchOption, IfOk, IfErr, min};
ghost use Rattle.std.specs.List.{All, flat_map};
ghost use Rattle.wincode_io.specs.Forms.{IsByteForm, part, values};
ghost use Rattle.wincode_io.specs.Writers.{byte_limit};
ghost use Rattle.wincode_io.specs.Places.{placed};
ghost use Rattle.wincode_io.specs.CursorWriters.{cursor_put};

mod arrays;
mod numbers;

use super::error::{ReadError, ReadResult};
use super::view::{Ref, RefMut, View};

/// A type whose values stand as bytes of one size: every value as one list of that many bytes, and every
/// such list is the form of one value.
///
/// An implementation writes `form_size`, `of_form` and `put_form`.
pub trait ZeroCopy: Copy {
    // What each value of the type is.
    ghost is_valid: { Self → Type 0 };

    // How many bytes a form has.
    ghost size: { ℕ };

    // The bytes of a value.
    ghost form: { Self → List ℕ };

    // The value of so many bytes.
    ghost value: { List ℕ → Self };

    ghost byte_form: { IsByteForm is_valid size form value };

    /// How many bytes a form has; `None` where `usize` can't count them, as an array's alone may be.
    fn form_size() -> Option<usize>
        ensures { MatchOption result (byte_limit < size) (λ s. s ≡ size) };

    /// The value of a form.
    fn of_form(bytes: &[u8]) -> Self
        requires { length bytes.now ≡ size }
        ensures { result ≡ value bytes.now };

    /// Puts the form of the value over `dst`.
    fn put_form(&self, dst: &mut [u8])
        requires { length dst.old ≡ size }
        ensures form { dst.new ≡ form self.now }
        ensures is_valid { is_valid self.now };

    /// A view of the form that the bytes begin with; those behind it are left out. Where there are fewer
    /// it is `ReadSizeLimit` of the form's size in bytes, or of `usize::MAX` where the size is more.
    final fn from_bytes<'de>(bytes: &'de [u8]) -> ReadResult<Ref<'de, Self>>
        ensures ok { IfOk result (λ r. (size ≤ length bytes.now) × (r.bytes.now ≡ take size bytes.now)) }
        ensures err { IfErr result (λ e. (length bytes.now < size) × (e ≡ ReadError.ReadSizeLimit (min size byte_limit))) }
    {
        let Some(size) = Self::form_size() else {
            return Err(ReadError::ReadSizeLimit(usize::MAX));
        };
        if bytes.len() < size {
            return Err(ReadError::ReadSizeLimit(size));
        }
        Ok(View::<&'de [u8], Self>::over(&bytes[..size]))
    }

    /// A view for writing of the form that the bytes begin with; those behind it are left out, and stay.
    /// It is refused as `from_bytes` is.
    final fn from_bytes_mut<'de>(bytes: &'de mut [u8]) -> ReadResult<RefMut<'de, Self>>
        ensures ok { IfOk result (λ r. (size ≤ length bytes.old) × (r.bytes.now ≡ take size bytes.old)) }
        ensures err { IfErr result (λ e. (length bytes.old < size) × (e ≡ ReadError.ReadSizeLimit (min size byte_limit))) }
    {
        let Some(size) = Self::form_size() else {
            return Err(ReadError::ReadSizeLimit(usize::MAX));
        };
        if bytes.len() < size {
            return Err(ReadError::ReadSizeLimit(size));
        }
        Ok(View::<&'de mut [u8], Self>::new(&mut bytes[..size]))
    }
}

/// How many bytes a form has, where `usize` counts them.
pub fn size_of_form<T: ZeroCopy>() -> usize
    requires { T.size ≤ byte_limit }
    ensures { result ≡ T.size }
{
    T::form_size().unwrap()
}

/// How many bytes `n` forms have; `None` where `usize` can't count them.
#[tactic(auto, using(crate::proofs::FormSteps::some_fits))]
pub fn total_size<T: ZeroCopy>(n: usize) -> Option<usize>
    ensures { MatchOption result (byte_limit < n * T.size) (λ t. t ≡ n * T.size) }
{
    if n == 0 {
        return Some(0);
    }
    match T::form_size() {
        Some(size) => n.checked_mul(size),
        None => None,
    }
}

/// The value of form `i` of the `n` forms that the bytes are, one after another.
#[tactic(auto, using(crate::proofs::FormSteps::place_fits, crate::proofs::FormSteps::size_fits))]
pub fn form_at<T: ZeroCopy>(bytes: &[u8], n: usize, i: usize) -> T
    requires sized { length bytes.now ≡ n * T.size }
    requires within { i < n }
    ensures { result ≡ T.value (part T.size bytes.now i) }
{
    // No effect at run time: the proof learns from it that the length fits `usize`.
    let _len = bytes.len();
    let size = size_of_form::<T>();
    let at = i * size;
    T::of_form(&bytes[at..at + size])
}

/// The size of one of some forms, which `len` bytes hold.
#[tactic(auto, using(crate::proofs::FormSteps::size_fits))]
fn size_within<T: ZeroCopy>(n: usize, len: usize) -> usize
    requires total { len ≡ n * T.size }
    requires some { 0 < n }
    ensures { result ≡ T.size }
{
    size_of_form::<T>()
}

/// Puts the forms of the values, one after another, over `dst`, which has as many bytes as they.
#[tactic(auto, using(crate::proofs::FormSteps::place_fits, crate::proofs::FormSteps::size_fits))]
pub(crate) fn put_forms<T: ZeroCopy>(values: &[T], dst: &mut [u8])
    requires { length dst.old ≡ length values.now * T.size }
    ensures forms { dst.new ≡ flat_map T.form values.now }
    ensures is_valid { All T.is_valid values.now }
{
    if values.is_empty() {
        return;
    }
    let size = size_within::<T>(values.len(), dst.len());
    for (i, value) in values.iter().enumerate() {
        let at = i * size;
        value.put_form(&mut dst[at..at + size]);
    }
}

/// Puts the values of the forms that the bytes are, one after another, into `dst`, which has as many items.
#[tactic(auto, using(crate::proofs::FormSteps::place_fits, crate::proofs::FormSteps::size_fits, crate::specs::JoinedForms::are_values), unfolding(crate::specs::Forms::values))]
pub fn read_forms<T: ZeroCopy>(bytes: &[u8], dst: &mut [T])
    requires { length bytes.now ≡ length dst.old * T.size }
    ensures { dst.new ≡ values T.value T.size (length dst.old) bytes.now }
{
    if dst.is_empty() {
        return;
    }
    let size = size_within::<T>(dst.len(), bytes.len());
    for (i, value) in dst.iter_mut().enumerate() {
        let at = i * size;
        *value = T::of_form(&bytes[at..at + size]);
    }
}

/// Puts the form of a value over the bytes from `at` on.
pub(crate) fn put_form_at<T: ZeroCopy>(bytes: &mut [u8], at: usize, src: &T)
    requires { at + T.size ≤ length bytes.old }
    ensures bytes { bytes.new ≡ take at bytes.old ++ (T.form src.now ++ drop (at + T.size) bytes.old) }
    ensures long { length (T.form src.now) ≡ T.size }
    ensures is_valid { T.is_valid src.now }
{
    // No effect at run time: the proof learns from it that the length fits `usize`.
    let _len = bytes.len();
    let end = at + size_of_form::<T>();
    src.put_form(&mut bytes[at..end]);
}

/// Puts the form of a value over the slice at `position`, and gives the position behind it: that of
/// `cursor_put`.
#[tactic(auto, using(crate::proofs::CursorSteps::put_some, crate::proofs::CursorSteps::put_none, crate::proofs::CursorSteps::no_gap))]
pub(crate) fn put_form_in_slice<T: ZeroCopy>(bytes: &mut [u8], position: usize, src: &T) -> usize
    requires { T.size ≤ length bytes.old - position }
    ensures place { placed bytes.new result ≡ cursor_put (placed bytes.old position) (T.form src.now) }
    ensures long { length (T.form src.now) ≡ T.size }
    ensures is_valid { T.is_valid src.now }
{
    // No effect at run time: the proof learns from it that the length fits `usize`.
    let _len = bytes.len();
    let size = size_of_form::<T>();
    if size == 0 {
        src.put_form(&mut []);
        return position;
    }
    put_form_at(bytes, position, src);
    position + size
}

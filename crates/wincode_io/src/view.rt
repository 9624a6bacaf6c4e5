//! Views of forms that stand in bytes: they give a form's value, and put another in its place.
ghost use Rattle.std.specs.Prelude.{◌≡◌, ℕ, ◌*◌, ◌<◌, ◌≤◌, length, take, drop};
ghost use Rattle.wincode_io.specs.Forms.{edited, part};

use super::lending::Held;
use super::zero_copy::{ZeroCopy, form_at, size_of_form};
use std::marker::PhantomData;

/// A view of one form, in bytes of the type `B`.
#[derive(Drop)]
pub struct View<B: Held, T: ZeroCopy> {
    bytes: B,
    of: PhantomData<T>,
    ghost is_form: { length (B.holds bytes) ≡ T.size },
}

/// A view of one form.
pub type Ref<'de, T> = View<&'de [u8], T>;

/// A view of one form, for writing.
pub type RefMut<'de, T> = View<&'de mut [u8], T>;

impl<B: Held, T: ZeroCopy> View<B, T> {
    /// A view of these bytes, which are a form.
    pub fn over(bytes: B) -> View<B, T>
        requires { length (B.holds bytes) ≡ T.size }
        ensures { result.bytes ≡ bytes }
    {
        View {
            bytes,
            of: PhantomData,
        }
    }

    /// The value of the form.
    pub fn get(&self) -> T
        ensures { result ≡ T.value (B.holds self.now.bytes) }
    {
        T::of_form(self.as_bytes())
    }

    /// The bytes of the form.
    pub fn as_bytes(&self) -> &[u8]
        ensures value { result.now ≡ B.holds self.now.bytes }
        ensures size { length result.now ≡ T.size }
    {
        self.bytes.as_held()
    }
}

impl<'de, T: ZeroCopy> View<&'de mut [u8], T> {
    /// A view of these bytes, which are a form.
    pub fn new(bytes: &'de mut [u8]) -> RefMut<'de, T>
        requires { length bytes.old ≡ T.size }
        ensures same_reference { result.bytes.ghost_name ≡ bytes.entry.ghost_name }
        ensures bytes { result.bytes.now ≡ bytes.old }
    {
        View {
            bytes,
            of: PhantomData,
        }
    }

    /// Puts the form of `value` in the place of the one that is there.
    pub fn set(&mut self, value: T)
        ensures same_reference { self.new.bytes.ghost_name ≡ self.old.bytes.ghost_name }
        ensures form { self.new.bytes.now ≡ T.form value }
        ensures is_valid { T.is_valid value }
    {
        let bytes = &mut *self.bytes;
        // No effect at run time: the proof learns from it that the length fits `usize`.
        let _len = bytes.len();
        value.put_form(bytes);
    }
}

/// A view of forms one after another, in bytes of the type `B`.
#[derive(Drop)]
pub struct SliceView<B: Held, T: ZeroCopy> {
    forms: B,
    n: usize,
    of: PhantomData<T>,
    ghost holds_forms: { length (B.holds forms) ≡ n * T.size },
}

/// A view of forms one after another.
pub type SliceRef<'de, T> = SliceView<&'de [u8], T>;

/// A view of forms one after another, for writing.
pub type SliceRefMut<'de, T> = SliceView<&'de mut [u8], T>;

impl<B: Held, T: ZeroCopy> SliceView<B, T> {
    /// A view of these bytes, which are `n` forms, one after another.
    pub fn over(forms: B, n: usize) -> SliceView<B, T>
        requires { length (B.holds forms) ≡ n * T.size }
        ensures forms { result.forms ≡ forms }
        ensures n { result.n ≡ n }
    {
        SliceView {
            forms,
            n,
            of: PhantomData,
        }
    }

    /// How many forms there are.
    pub fn len(&self) -> usize
        ensures { result ≡ self.now.n }
    {
        self.n
    }

    /// The value of form `i`, of those from 0 to `len() - 1`.
    pub fn get(&self, i: usize) -> T
        requires { i < self.now.n }
        ensures { result ≡ T.value (part T.size (B.holds self.now.forms) i) }
    {
        form_at::<T>(self.as_bytes(), self.n, i)
    }

    /// The bytes of the forms, one after another.
    pub fn as_bytes(&self) -> &[u8]
        ensures value { result.now ≡ B.holds self.now.forms }
        ensures size { length result.now ≡ self.now.n * T.size }
    {
        self.forms.as_held()
    }

    /// The bytes of the forms, in place of the view.
    pub fn into_bytes(self) -> B
        ensures { result ≡ self.forms }
    {
        self.forms
    }
}

impl<'de, T: ZeroCopy> SliceView<&'de [u8], T> {
    /// A view of these bytes, which are `n` forms, one after another.
    pub fn new(forms: &'de [u8], n: usize) -> SliceRef<'de, T>
        requires { length forms.now ≡ n * T.size }
        ensures forms { result.forms.now ≡ forms.now }
        ensures n { result.n ≡ n }
    {
        SliceView {
            forms,
            n,
            of: PhantomData,
        }
    }
}

impl<'de, T: ZeroCopy> SliceView<&'de mut [u8], T> {
    /// A view of these bytes, which are `n` forms, one after another.
    pub fn new(forms: &'de mut [u8], n: usize) -> SliceRefMut<'de, T>
        requires { length forms.old ≡ n * T.size }
        ensures same_reference { result.forms.ghost_name ≡ forms.entry.ghost_name }
        ensures forms { result.forms.now ≡ forms.old }
        ensures n { result.n ≡ n }
    {
        SliceView {
            forms,
            n,
            of: PhantomData,
        }
    }

    /// Puts the form of `value` in the place of form `i`, of those from 0 to `len() - 1`; the others stay.
    #[tactic(auto, using(crate::proofs::FormSteps::place_fits, crate::proofs::FormSteps::size_fits))]
    pub fn set(&mut self, i: usize, value: T)
        requires { i < self.old.n }
        ensures same_reference { self.new.forms.ghost_name ≡ self.old.forms.ghost_name }
        ensures n { self.new.n ≡ self.old.n }
        ensures forms { self.new.forms.now ≡ edited T.size self.old.forms.now i (T.form value) }
        ensures is_valid { T.is_valid value }
    {
        let forms = &mut *self.forms;
        // No effect at run time: the proof learns from it that the length fits `usize`.
        let _len = forms.len();
        let size = size_of_form::<T>();
        let at = i * size;
        value.put_form(&mut forms[at..at + size]);
    }
}

//! What a reader may lend: a lifetime, as a type.
ghost use Rattle.std.specs.Prelude.{◌≡◌, ℕ, ◌≤◌, List, length, take, drop, IsUtf8, MatchResult, slice_range};
ghost use Rattle.std.proofs.Common.{refl};
ghost use Rattle.wincode_io.specs.Texts.{IsUtf8Fault};

use std::mem;
use std::str::{self, Utf8Error};

/// Bytes that were lent, shared or for writing.
pub trait Held {
    // The bytes that they hold.
    ghost holds: { Self → List ℕ };

    /// The bytes, as a slice.
    fn as_held(&self) -> &[u8]
        ensures { result.now ≡ holds self.now };
}

impl<'a> Held for &'a [u8] {
    ghost holds = { λ s. s.now };

    fn as_held(&self) -> &[u8] {
        *self
    }
}

impl<'a> Held for &'a mut [u8] {
    ghost holds = { λ s. s.now };

    fn as_held(&self) -> &[u8] {
        &**self
    }
}

/// The bytes that a reader may lend, shared or for writing.
///
/// It stands in bounds in place of a lifetime: Rust's `Reader<'de>` is `Reader<L>` here, for any
/// `L: Lending`, and `Reader<Lifetime<'de>>` at a concrete reader over borrowed bytes.
pub trait Lending {
    type Bytes: Copy + Drop + Held;

    type BytesMut: Drop + Held;

    type Text: Drop;

    // The bytes that lent bytes hold.
    ghost held: { Self.Bytes → List ℕ };

    ghost held_mut: { Self.BytesMut → List ℕ };

    // The bytes of a lent text.
    ghost held_text: { Self.Text → List ℕ };

    /// The lent bytes, as a slice.
    fn bytes_of(bytes: &Self::Bytes) -> &[u8]
        ensures { result.now ≡ held bytes.now };

    /// The bytes lent for writing, as a slice.
    fn bytes_of_mut(bytes: &Self::BytesMut) -> &[u8]
        ensures { result.now ≡ held_mut bytes.now };

    /// The lent bytes from a place to an end.
    fn part(bytes: &Self::Bytes, place: usize, end: usize) -> Self::Bytes
        requires order { place ≤ end }
        requires within { end ≤ length (held bytes.now) }
        ensures { held result ≡ slice_range (held bytes.now) place end };

    /// Cuts the first `n` bytes off those that are lent for writing.
    fn take_front_mut(bytes: &mut Self::BytesMut, n: usize) -> Self::BytesMut
        requires { n ≤ length (held_mut bytes.old) }
        ensures front { held_mut result ≡ take n (held_mut bytes.old) }
        ensures rest { held_mut bytes.new ≡ drop n (held_mut bytes.old) };

    /// Bytes that were lent for writing, shared from now on.
    fn share(bytes: Self::BytesMut) -> Self::Bytes
        ensures { held result ≡ held_mut bytes };

    /// The lent bytes as a text, where they are UTF-8; else the error of exactly these bytes.
    fn text(bytes: Self::Bytes) -> Result<Self::Text, Utf8Error>
        ensures { MatchResult result (λ t. (held_text t ≡ held bytes) × IsUtf8 (held bytes)) (λ e. IsUtf8Fault (held bytes) e) };

    // What lent bytes hold is what is said of them here.
    ghost same_held: { (s : Self.Bytes) → held s ≡ Self.Bytes.holds s };

    ghost same_held_mut: { (s : Self.BytesMut) → held_mut s ≡ Self.BytesMut.holds s };
}

/// The lifetime `'a`, as a type: what is lent are slices that live for it.
pub struct Lifetime<'a>(&'a u8);

impl<'a> Lending for Lifetime<'a> {
    type Bytes = &'a [u8];

    type BytesMut = &'a mut [u8];

    type Text = &'a str;

    ghost held = { λ s. s.now };

    ghost held_mut = { λ s. s.now };

    ghost held_text = { λ s. s.now };

    fn bytes_of<'s>(bytes: &'s &'a [u8]) -> &'s [u8] {
        *bytes
    }

    fn bytes_of_mut<'s>(bytes: &'s &'a mut [u8]) -> &'s [u8] {
        &**bytes
    }

    fn part<'s>(bytes: &'s &'a [u8], place: usize, end: usize) -> &'a [u8] {
        let all = *bytes;
        &all[place..end]
    }

    fn take_front_mut(bytes: &mut &'a mut [u8], n: usize) -> &'a mut [u8] {
        let all = mem::take(bytes);
        let (front, rest) = all.split_at_mut(n);
        *bytes = rest;
        front
    }

    fn share(bytes: &'a mut [u8]) -> &'a [u8] {
        bytes
    }

    fn text(bytes: &'a [u8]) -> Result<&'a str, Utf8Error> {
        str::from_utf8(bytes)
    }

    ghost same_held = { λ s. refl };

    ghost same_held_mut = { λ s. refl };
}

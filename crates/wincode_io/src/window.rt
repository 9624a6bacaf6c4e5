//! Windows: readers of a part of another reader's bytes.
ghost use Rattle.std.specs.Prelude.{◌≡◌, ◌≤◌, take, drop, length, slice_range};

mod counted;
mod reading;

use super::lending::Lending;
pub use counted::CountedSliceReader;
use std::marker::Model;

/// A window that lends shared bytes: those from a place to an end of its parent's uncut bytes. To
/// contracts it is the bytes that it has left.
#[derive(Drop)]
pub struct TrustedSliceReaderZeroCopy<L: Lending> {
    all: L::Bytes,
    place: usize,
    end: usize,
}

impl<L: Lending> Model for TrustedSliceReaderZeroCopy<L> {
    ghost use Rattle.std.specs.Prelude.{ℕ, List, ◌≤◌, length, slice_range};

    ghost Value = { List ℕ };

    ghost view = { λ w. slice_range (L.held w.all) w.place w.end };

    ghost invariant = { λ w. (w.place ≤ w.end) × (w.end ≤ length (L.held w.all)) };
}

impl<L: Lending> TrustedSliceReaderZeroCopy<L> {
    /// A window of these bytes.
    pub fn new(bytes: L::Bytes) -> Self
        ensures { result ≡ L.held bytes }
    {
        let end = L::bytes_of(&bytes).len();
        Self::within(bytes, 0, end)
    }

    /// A window of the bytes from a place to an end of these.
    pub(crate) fn within(all: L::Bytes, place: usize, end: usize) -> Self
        requires order { place ≤ end }
        requires within { end ≤ length (L.held all) }
        ensures { result ≡ slice_range (L.held all) place end }
    {
        TrustedSliceReaderZeroCopy { all, place, end }
    }
}

/// A window that lends its bytes for writing, or shared: those from a place on. It cuts them only to
/// lend, or to hand out a window. To contracts it is the bytes that it has left.
#[derive(Drop)]
pub struct TrustedSliceReaderZeroCopyMut<L: Lending> {
    all: L::BytesMut,
    place: usize,
}

impl<L: Lending> Model for TrustedSliceReaderZeroCopyMut<L> {
    ghost use Rattle.std.specs.Prelude.{ℕ, List, ◌≤◌, length, drop};

    ghost Value = { List ℕ };

    ghost view = { λ w. drop w.place (L.held_mut w.all) };

    ghost invariant = { λ w. w.place ≤ length (L.held_mut w.all) };
}

impl<L: Lending> TrustedSliceReaderZeroCopyMut<L> {
    /// A window of these bytes.
    pub fn new(bytes: L::BytesMut) -> Self
        ensures { result ≡ L.held_mut bytes }
    {
        TrustedSliceReaderZeroCopyMut {
            all: bytes,
            place: 0,
        }
    }

    /// The next `n` bytes, cut off, with those that were read before.
    fn cut(&mut self, n: usize) -> L::BytesMut
        requires { n ≤ length self.old }
        ensures front { L.held_mut result ≡ take n self.old }
        ensures rest { self.new ≡ drop n self.old }
    {
        let place = self.place;
        self.place = 0;
        L::take_front_mut(&mut self.all, place);
        L::take_front_mut(&mut self.all, n)
    }
}

/// A window that lends nothing: the bytes from a place to an end of its parent's uncut bytes. To
/// contracts it is the bytes that it has left.
#[derive(Drop)]
pub struct TrustedSliceReader<L: Lending> {
    all: L::Bytes,
    place: usize,
    end: usize,
}

impl<L: Lending> Model for TrustedSliceReader<L> {
    ghost use Rattle.std.specs.Prelude.{ℕ, List, ◌≤◌, length, slice_range};

    ghost Value = { List ℕ };

    ghost view = { λ w. slice_range (L.held w.all) w.place w.end };

    ghost invariant = { λ w. (w.place ≤ w.end) × (w.end ≤ length (L.held w.all)) };
}

impl<L: Lending> TrustedSliceReader<L> {
    /// A window of these bytes.
    pub fn new(bytes: L::Bytes) -> Self
        ensures { result ≡ L.held bytes }
    {
        let end = L::bytes_of(&bytes).len();
        Self::within(bytes, 0, end)
    }

    /// A window of the bytes from a place to an end of these.
    pub(crate) fn within(all: L::Bytes, place: usize, end: usize) -> Self
        requires order { place ≤ end }
        requires within { end ≤ length (L.held all) }
        ensures { result ≡ slice_range (L.held all) place end }
    {
        TrustedSliceReader { all, place, end }
    }
}

/// The bytes from a place to an end, as a slice.
fn between<L: Lending>(all: &L::Bytes, place: usize, end: usize) -> &[u8]
    requires order { place ≤ end }
    requires within { end ≤ length (L.held all.now) }
    ensures { result.now ≡ slice_range (L.held all.now) place end }
{
    let bytes = L::bytes_of(all);
    &bytes[place..end]
}

/// A window of a reader's next bytes, which lends what that reader lends.
#[derive(Drop)]
pub enum ReadWindow<L: Lending> {
    /// It lends shared bytes.
    Shared(TrustedSliceReaderZeroCopy<L>),
    /// It lends bytes for writing, or shared.
    Writing(TrustedSliceReaderZeroCopyMut<L>),
    /// It lends nothing.
    Plain(TrustedSliceReader<L>),
    /// It lends nothing, and shares its bytes with the reader, which counts those that do.
    Counted(CountedSliceReader),
}

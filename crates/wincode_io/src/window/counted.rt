//! Windows that share the bytes of the reader that gave them.
ghost use Rattle.std.specs.Prelude.{◌≡◌, ◌≤◌, vec_len, slice_range};
ghost use Rattle.std.specs.Arc.{arc_value};

use std::marker::Model;
use std::sync::Arc;

/// A window that lends nothing, and shares the bytes with the reader that gave it: those from a place to
/// an end. They are freed when the last of those that share them is. To contracts it is the bytes that it
/// has left.
#[derive(Drop)]
pub struct CountedSliceReader {
    pub(super) all: Arc<Vec<u8>>,
    pub(super) place: usize,
    pub(super) end: usize,
}

impl Model for CountedSliceReader {
    ghost use Rattle.std.specs.Prelude.{ℕ, List, ◌≤◌, vec_len, slice_range};
    ghost use Rattle.std.specs.Arc.{arc_value};

    ghost Value = { List ℕ };

    ghost view = { λ w. slice_range (arc_value w.all).items w.place w.end };

    ghost invariant = { λ w. (w.place ≤ w.end) × (w.end ≤ vec_len (arc_value w.all)) };
}

impl CountedSliceReader {
    /// A window of the bytes from a place to an end of these.
    pub(crate) fn within(all: Arc<Vec<u8>>, place: usize, end: usize) -> Self
        requires order { place ≤ end }
        requires within { end ≤ vec_len (arc_value all) }
        ensures { result ≡ slice_range (arc_value all).items place end }
    {
        CountedSliceReader { all, place, end }
    }

    /// The bytes that it has left.
    pub(crate) fn unread(&self) -> &[u8]
        ensures { result.now ≡ self.now }
    {
        let (place, end) = (self.place, self.end);
        let bytes = self.all.as_slice();
        &bytes[place..end]
    }
}

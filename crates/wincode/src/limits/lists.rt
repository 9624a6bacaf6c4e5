//! Limits of lists, maps, sets and heaps: the length's, of so much as an item counts, and those of each item.
ghost use Rattle.std.specs.Prelude.{◌≡◌, false, IsTrue, map};
ghost use Rattle.wincode_io.specs.Joins.{Each};
ghost use Rattle.wincode_base.specs.Lists.{ListFits};

use crate::containers;
use crate::len::{BincodeLen, PREALLOCATION_LIMIT};
use crate::limits::{Limited, LimitedLen};
use crate::schema::tuples::Members2;
use std::borrow::CowSlice;
use std::boxed::BoxedSlice;
use std::collections::{BTreeMap, BTreeSet, BinaryHeap, HashMap, HashSet, LinkedList, VecDeque};
use std::ffi::CString;
use std::hash::Hash;
use std::rc::RcSlice;
use std::sync::ArcSlice;
use wincode_write::schema::to_items::ToItems;

/// The lengths of plain lists.
type PlainLen = BincodeLen<PREALLOCATION_LIMIT>;

/// Items that are gone over, of which each may have limits.
pub trait AllWithin<T: Limited>: ToItems<T> {
    /// Whether each item is within its limits.
    fn all_within(&self) -> bool
        ensures within { IsTrue result → Each T.is_valid (Self.ToItems.listed self.now) → Each T.writing.fits (map T.model (Self.ToItems.listed self.now)) }
        ensures past { result ≡ false → Each T.writing.fits (map T.model (Self.ToItems.listed self.now)) → ⊥ };
}

/// Whether a list of these items is within its limits. Items without limits aren't gone over.
#[inline]
pub(crate) fn list_is_within<Len: LimitedLen, T: Limited, C: AllWithin<T>>(src: &C) -> bool
    ensures within { IsTrue result → Each T.is_valid (C.listed src.now) → ListFits Len.scheme T.writing (map T.model (C.listed src.now)) }
    ensures past { result ≡ false → ListFits Len.scheme T.writing (map T.model (C.listed src.now)) → ⊥ }
{
    if !Len::admits(src.count(), T::counts()) {
        return false;
    }
    if T::has_no_limits() {
        return true;
    }
    src.all_within()
}

impl<'a, U: 'a, T: Limited<Src = U>> AllWithin<T> for &'a [U] {
    fn all_within(&self) -> bool {
        let items: &[U] = *self;
        for item in items {
            if !T::is_within(item) {
                return false;
            }
        }
        true
    }
}

impl<U, T: Limited<Src = U>> AllWithin<T> for VecDeque<U> {
    fn all_within(&self) -> bool {
        let (front, back) = self.as_slices();
        AllWithin::<T>::all_within(&front) && AllWithin::<T>::all_within(&back)
    }
}

impl<U, T: Limited<Src = U>> AllWithin<T> for LinkedList<U> {
    fn all_within(&self) -> bool {
        for item in self {
            if !T::is_within(item) {
                return false;
            }
        }
        true
    }
}

impl<U: Ord, T: Limited<Src = U>> AllWithin<T> for BinaryHeap<U> {
    fn all_within(&self) -> bool {
        AllWithin::<T>::all_within(&self.as_slice())
    }
}

impl<A: Ord, B, K: Limited<Src = A>, V: Limited<Src = B>> AllWithin<Members2<K, V>>
    for BTreeMap<A, B> {
    fn all_within(&self) -> bool {
        for (key, value) in self {
            if !K::is_within(key) {
                return false;
            }
            if !V::is_within(value) {
                return false;
            }
        }
        true
    }
}

impl<A: Eq + Hash, B, K: Limited<Src = A>, V: Limited<Src = B>> AllWithin<Members2<K, V>>
    for HashMap<A, B> {
    fn all_within(&self) -> bool {
        for (key, value) in self {
            if !K::is_within(key) {
                return false;
            }
            if !V::is_within(value) {
                return false;
            }
        }
        true
    }
}

impl<A: Ord, K: Limited<Src = A>> AllWithin<K> for BTreeSet<A> {
    fn all_within(&self) -> bool {
        for key in self {
            if !K::is_within(key) {
                return false;
            }
        }
        true
    }
}

impl<A: Eq + Hash, K: Limited<Src = A>> AllWithin<K> for HashSet<A> {
    fn all_within(&self) -> bool {
        for key in self {
            if !K::is_within(key) {
                return false;
            }
        }
        true
    }
}

impl<T: Limited> Limited for Vec<T> {
    fn counts() -> usize {
        24
    }

    fn has_no_limits() -> bool {
        false
    }

    fn is_within(src: &Vec<T::Src>) -> bool {
        list_is_within::<PlainLen, T, &[T::Src]>(&src.as_slice())
    }
}

impl<'s, U: 's, T: Limited<Src = U>> Limited for CowSlice<'s, T> {
    fn counts() -> usize
        ensures { result ≡ 24 }
    {
        24
    }

    fn is_within(src: &CowSlice<'s, U>) -> bool {
        list_is_within::<PlainLen, T, &[U]>(&src.as_slice())
    }
}

impl Limited for CString {
    fn counts() -> usize {
        24
    }

    fn has_no_limits() -> bool {
        false
    }

    fn is_within(src: &CString) -> bool {
        list_is_within::<PlainLen, u8, &[u8]>(&src.as_bytes())
    }
}

impl<T: Limited> Limited for VecDeque<T> {
    fn counts() -> usize {
        24
    }

    fn has_no_limits() -> bool {
        false
    }

    fn is_within(src: &VecDeque<T::Src>) -> bool {
        list_is_within::<PlainLen, T, VecDeque<T::Src>>(src)
    }
}

impl<T: Limited> Limited for LinkedList<T> {
    fn counts() -> usize {
        24
    }

    fn has_no_limits() -> bool {
        false
    }

    fn is_within(src: &LinkedList<T::Src>) -> bool {
        list_is_within::<PlainLen, T, LinkedList<T::Src>>(src)
    }
}

impl<K: Limited + Ord, V: Limited> Limited for BTreeMap<K, V>
where
    K::Src: Ord,
{
    fn counts() -> usize {
        24
    }

    fn has_no_limits() -> bool {
        false
    }

    fn is_within(src: &BTreeMap<K::Src, V::Src>) -> bool {
        list_is_within::<PlainLen, Members2<K, V>, BTreeMap<K::Src, V::Src>>(src)
    }
}

impl<K: Limited + Eq + Hash, V: Limited> Limited for HashMap<K, V>
where
    K::Src: Eq + Hash,
{
    fn counts() -> usize {
        24
    }

    fn has_no_limits() -> bool {
        false
    }

    fn is_within(src: &HashMap<K::Src, V::Src>) -> bool {
        list_is_within::<PlainLen, Members2<K, V>, HashMap<K::Src, V::Src>>(src)
    }
}

impl<K: Limited + Ord> Limited for BTreeSet<K>
where
    K::Src: Ord,
{
    fn counts() -> usize {
        24
    }

    fn has_no_limits() -> bool {
        false
    }

    fn is_within(src: &BTreeSet<K::Src>) -> bool {
        list_is_within::<PlainLen, K, BTreeSet<K::Src>>(src)
    }
}

impl<K: Limited + Eq + Hash> Limited for HashSet<K>
where
    K::Src: Eq + Hash,
{
    fn counts() -> usize {
        24
    }

    fn has_no_limits() -> bool {
        false
    }

    fn is_within(src: &HashSet<K::Src>) -> bool {
        list_is_within::<PlainLen, K, HashSet<K::Src>>(src)
    }
}

impl<T: Limited + Ord> Limited for BinaryHeap<T>
where
    T::Src: Ord,
{
    fn counts() -> usize {
        24
    }

    fn has_no_limits() -> bool {
        false
    }

    fn is_within(src: &BinaryHeap<T::Src>) -> bool {
        list_is_within::<PlainLen, T, BinaryHeap<T::Src>>(src)
    }
}

impl<T: Limited, Len: LimitedLen> Limited for containers::Vec<T, Len> {
    fn counts() -> usize {
        24
    }

    fn is_within(src: &Vec<T::Src>) -> bool {
        list_is_within::<Len, T, &[T::Src]>(&src.as_slice())
    }
}

impl<T: Limited, Len: LimitedLen> Limited for containers::VecDeque<T, Len> {
    fn counts() -> usize {
        24
    }

    fn is_within(src: &VecDeque<T::Src>) -> bool {
        list_is_within::<Len, T, VecDeque<T::Src>>(src)
    }
}

impl<T: Limited, Len: LimitedLen> Limited for containers::BoxedSlice<T, Len> {
    fn counts() -> usize {
        16
    }

    fn is_within(src: &BoxedSlice<T::Src>) -> bool {
        list_is_within::<Len, T, &[T::Src]>(&src.as_slice())
    }
}

impl<T: Limited, Len: LimitedLen> Limited for containers::RcSlice<T, Len> {
    fn counts() -> usize {
        16
    }

    fn is_within(src: &RcSlice<T::Src>) -> bool {
        list_is_within::<Len, T, &[T::Src]>(&src.as_slice())
    }
}

impl<T: Limited, Len: LimitedLen> Limited for containers::ArcSlice<T, Len> {
    fn counts() -> usize {
        16
    }

    fn is_within(src: &ArcSlice<T::Src>) -> bool {
        list_is_within::<Len, T, &[T::Src]>(&src.as_slice())
    }
}

impl<T: Limited, Len: LimitedLen> Limited for containers::BinaryHeap<T, Len>
where
    T::Src: Ord,
{
    fn counts() -> usize {
        24
    }

    fn is_within(src: &BinaryHeap<T::Src>) -> bool {
        list_is_within::<Len, T, BinaryHeap<T::Src>>(src)
    }
}

//! What is written reads back: every schema that reads and writes.
ghost use Rattle.std.specs.BinaryHeap.{heap_items};
ghost use Rattle.std.specs.CStr.{c_string_bytes};
ghost use Rattle.std.specs.Cow.{cow_slice_items, cow_str_bytes};
ghost use Rattle.std.specs.Prelude.{◌<◌, true, false, string_bytes, Option, Result, ◌^◌, max};
ghost use Rattle.wincode_io.specs.Readers.{shared};
ghost use Rattle.wincode_io.specs.Viewed.{value_seen, values_seen};
ghost use Rattle.wincode_base.specs.ArrayLaws.{array_reads_back};
ghost use Rattle.wincode_base.specs.BackLaws.{map_reads_back, set_reads_back, hash_map_reads_back, hash_set_reads_back, heap_reads_back};
ghost use Rattle.wincode_base.specs.BoundLaws.{bound_reads_back};
ghost use Rattle.wincode_base.specs.BoxedLaws.{boxed_reads_back};
ghost use Rattle.wincode_base.specs.CStrings.{c_string_reads_back};
ghost use Rattle.wincode_base.specs.LeafLaws.{bool_reads_back, unit_reads_back, number_reads_back};
ghost use Rattle.wincode_base.specs.Leaves.{number_read, number_write};
ghost use Rattle.wincode_base.specs.LengthLaws.{bincode_laws};
ghost use Rattle.wincode_base.specs.Lengths.{bincode, preallocation_limit};
ghost use Rattle.wincode_base.specs.ListLaws.{list_reads_back};
ghost use Rattle.wincode_base.specs.PairLaws.{windowed_reads_back};
ghost use Rattle.wincode_base.specs.ShortLaws.{short_reads_back};
ghost use Rattle.wincode_base.specs.ItemSizes.{item_size, pair_size};
ghost use Rattle.wincode_base.specs.TagLaws.{option_reads_back, result_reads_back};
ghost use Rattle.wincode_base.specs.StringLaws.{char_reads_back, str_reads_back};
ghost use Rattle.wincode_base.specs.ViewLaws.{form_reads_back, lent_reads_back, lent_reads_back_model};
ghost use Rattle.wincode_base.specs.Views.{form_prealloc, form_item_read, form_item_write};

use crate::markers::RoundTrip;
use std::borrow::{CowSlice, CowStr};
use std::collections::{BTreeMap, BTreeSet, BinaryHeap, HashMap, HashSet, LinkedList, VecDeque};
use std::ffi::CString;
use std::hash::Hash;
use std::marker::PhantomData;
use std::ops::Bound;
use std::rc::Rc;
use std::str;
use std::sync::Arc;
use wincode_base::len::ShortU16;
use wincode_base::parts::Pod;
use wincode_io::{Lending, Lifetime, SliceView, View, ZeroCopy};
use wincode_read::{Key, SchemaRead, Told};
use wincode_write::SchemaWrite;

impl<L: Lending> RoundTrip<L> for bool {
    ghost reads_back = { bool_reads_back };
}

impl<L: Lending> RoundTrip<L> for () {
    ghost reads_back = { unit_reads_back };
}

impl<L: Lending, T> RoundTrip<L> for PhantomData<T> {
    ghost reads_back = { unit_reads_back };
}

impl<L: Lending> RoundTrip<L> for char {
    ghost reads_back = { char_reads_back };
}

impl<L: Lending> RoundTrip<L> for String {
    ghost reads_back = { str_reads_back 24 0 false (λ s. string_bytes s) };
}

impl<'s, L: Lending> RoundTrip<L> for CowStr<'s> {
    ghost reads_back = { str_reads_back 24 0 false (λ t. cow_str_bytes t) };
}

impl<'s, L: Lending, T: RoundTrip<L>> RoundTrip<L> for CowSlice<'s, T>
where
    T: 's,
    T::Src: 's + Drop,
    <T as SchemaRead<L>>::Dst: 's,
{
    ghost reads_back = { list_reads_back (bincode preallocation_limit) (bincode_laws preallocation_limit) 24 (λ c. cow_slice_items c) T.SchemaWrite.is_valid
        T.SchemaWrite.model T.SchemaWrite.writing T.SchemaRead.model T.SchemaRead.reading T.reads_back };
}

impl<L: Lending> RoundTrip<L> for CString {
    ghost reads_back = { c_string_reads_back c_string_bytes };
}

impl<L: Lending, T: RoundTrip<L>> RoundTrip<L> for Bound<T>
where
    T::Src: Drop,
{
    ghost reads_back = { bound_reads_back T.SchemaWrite.is_valid T.SchemaWrite.model T.SchemaWrite.writing T.SchemaRead.model T.SchemaRead.reading T.reads_back };
}

impl<'a> RoundTrip<Lifetime<'a>> for &'a str {
    ghost reads_back = { str_reads_back 16 1 true (λ s. s.now) };
}

impl<L: Lending, T: RoundTrip<L>> RoundTrip<L> for Box<T>
where
    T::Src: Drop,
{
    ghost reads_back = { boxed_reads_back (λ held. held.value) T.SchemaWrite.is_valid T.SchemaWrite.model
        T.SchemaWrite.writing T.SchemaRead.model T.SchemaRead.reading T.reads_back };
}

impl<L: Lending, T: RoundTrip<L>> RoundTrip<L> for Rc<T>
where
    T::Src: Drop,
{
    ghost reads_back = { boxed_reads_back (λ held. held.value) T.SchemaWrite.is_valid T.SchemaWrite.model
        T.SchemaWrite.writing T.SchemaRead.model T.SchemaRead.reading T.reads_back };
}

impl<L: Lending, T: RoundTrip<L>> RoundTrip<L> for Arc<T>
where
    T::Src: Drop,
{
    ghost reads_back = { boxed_reads_back (λ held. held.value) T.SchemaWrite.is_valid T.SchemaWrite.model
        T.SchemaWrite.writing T.SchemaRead.model T.SchemaRead.reading T.reads_back };
}

impl<L: Lending, T: RoundTrip<L>> RoundTrip<L> for Option<T>
where
    T::Src: Drop,
{
    ghost reads_back = { option_reads_back 1 T.SchemaWrite.is_valid T.SchemaWrite.model T.SchemaWrite.writing T.SchemaRead.model T.SchemaRead.reading T.reads_back };
}

impl<L: Lending, T: RoundTrip<L>, E: RoundTrip<L>> RoundTrip<L> for Result<T, E>
where
    T::Src: Drop,
    E::Src: Drop,
{
    ghost reads_back = { result_reads_back 4 T.SchemaWrite.is_valid E.SchemaWrite.is_valid T.SchemaWrite.model
        T.SchemaWrite.writing T.SchemaRead.model T.SchemaRead.reading E.SchemaWrite.model E.SchemaWrite.writing
        E.SchemaRead.model E.SchemaRead.reading T.reads_back E.reads_back };
}

impl<L: Lending, T: RoundTrip<L>, const N: usize> RoundTrip<L> for [T; N]
where
    T::Src: Drop,
{
    ghost reads_back = { windowed_reads_back (array_reads_back N T.SchemaWrite.is_valid T.SchemaWrite.model T.SchemaWrite.writing T.SchemaRead.model T.SchemaRead.reading T.reads_back) };
}

impl<L: Lending, T: RoundTrip<L>> RoundTrip<L> for Vec<T>
where
    T::Src: Drop,
{
    ghost reads_back = { list_reads_back (bincode preallocation_limit) (bincode_laws preallocation_limit) 24 (λ v. v.items)
        T.SchemaWrite.is_valid T.SchemaWrite.model T.SchemaWrite.writing T.SchemaRead.model T.SchemaRead.reading
        T.reads_back };
}

impl<L: Lending, T: RoundTrip<L>> RoundTrip<L> for VecDeque<T>
where
    T::Src: Drop,
{
    ghost reads_back = { list_reads_back (bincode preallocation_limit) (bincode_laws preallocation_limit) 24 (λ q. q.items)
        T.SchemaWrite.is_valid T.SchemaWrite.model T.SchemaWrite.writing T.SchemaRead.model T.SchemaRead.reading
        T.reads_back };
}

impl<L: Lending, T: RoundTrip<L>> RoundTrip<L> for LinkedList<T>
where
    T::Src: Drop,
{
    ghost reads_back = { list_reads_back (bincode preallocation_limit) (bincode_laws preallocation_limit) 24 (λ l. l)
        T.SchemaWrite.is_valid T.SchemaWrite.model T.SchemaWrite.writing T.SchemaRead.model T.SchemaRead.reading
        T.reads_back };
}

impl<L: Lending, K: RoundTrip<L> + Key<L> + Ord, V: RoundTrip<L>> RoundTrip<L> for BTreeMap<K, V>
where
    K::Src: Ord + Drop,
    V::Src: Drop,
{
    ghost reads_back = { map_reads_back (pair_size K.SchemaRead.reading.meta V.SchemaRead.reading.meta) K.Src.cmp K.Src.Ord.total K.SchemaWrite.is_valid V.SchemaWrite.is_valid
        K.SchemaWrite.model K.SchemaWrite.writing K.SchemaRead.model K.SchemaRead.reading
        V.SchemaWrite.model V.SchemaWrite.writing V.SchemaRead.model V.SchemaRead.reading K.reads_back V.reads_back };
}

impl<L: Lending, K: RoundTrip<L> + Key<L> + Eq + Hash, V: RoundTrip<L>> RoundTrip<L>
    for HashMap<K, V>
where
    K::Src: Eq + Hash + Drop,
    V::Src: Drop,
{
    ghost reads_back = { hash_map_reads_back (pair_size K.SchemaRead.reading.meta V.SchemaRead.reading.meta) K.Src.eq K.Src.Eq.laws K.SchemaWrite.is_valid V.SchemaWrite.is_valid
        K.SchemaWrite.model K.SchemaWrite.writing K.SchemaRead.model K.SchemaRead.reading
        V.SchemaWrite.model V.SchemaWrite.writing V.SchemaRead.model V.SchemaRead.reading K.reads_back V.reads_back };
}

impl<L: Lending, K: RoundTrip<L> + Key<L> + Ord> RoundTrip<L> for BTreeSet<K>
where
    K::Src: Ord + Drop,
{
    ghost reads_back = { set_reads_back (item_size K.SchemaRead.reading.meta) K.Src.cmp K.Src.Ord.total K.SchemaWrite.is_valid
        K.SchemaWrite.model K.SchemaWrite.writing K.SchemaRead.model K.SchemaRead.reading K.reads_back };
}

impl<L: Lending, K: RoundTrip<L> + Key<L> + Eq + Hash> RoundTrip<L> for HashSet<K>
where
    K::Src: Eq + Hash + Drop,
{
    ghost reads_back = { hash_set_reads_back (item_size K.SchemaRead.reading.meta) K.Src.eq K.Src.Eq.laws K.SchemaWrite.is_valid
        K.SchemaWrite.model K.SchemaWrite.writing K.SchemaRead.model K.SchemaRead.reading K.reads_back };
}

impl<L: Lending, T: RoundTrip<L> + Told<L> + Ord> RoundTrip<L> for BinaryHeap<T>
where
    T::Src: Ord + Drop,
{
    ghost reads_back = { heap_reads_back (item_size T.SchemaRead.reading.meta) (bincode preallocation_limit) (bincode_laws preallocation_limit) heap_items T.told T.SchemaWrite.is_valid
        T.SchemaWrite.model T.SchemaWrite.writing T.SchemaRead.model T.SchemaRead.reading T.reads_back };
}

impl<L: Lending, T: ZeroCopy> RoundTrip<L> for Pod<T> {
    ghost reads_back = { form_reads_back (λ v. v) true (form_prealloc T.size) 0 };
}

impl<'a, T: ZeroCopy> RoundTrip<Lifetime<'a>> for View<&'a [u8], T> {
    ghost reads_back = { form_reads_back (λ v. value_seen v) false 8 shared };
}

impl<'a, T: ZeroCopy> RoundTrip<Lifetime<'a>> for SliceView<&'a [u8], T> {
    ghost reads_back = { lent_reads_back shared T.size (λ v. values_seen v) T.is_valid
        (form_item_write T.is_valid T.size T.form) (form_item_read T.is_valid T.size T.form)
        (form_reads_back (λ v. v) true (max T.size 1) 0) };
}

impl<'a> RoundTrip<Lifetime<'a>> for &'a [u8] {
    ghost reads_back = { lent_reads_back_model shared 1 (λ s. s.now) (λ v. v < 256 ^ 1) (number_write 1 true) (number_read 1 true)
        (number_reads_back 1 true) };
}

impl<L: Lending> RoundTrip<L> for ShortU16 {
    ghost reads_back = { short_reads_back (λ v. v.0) };
}

//! No borrow: every schema whose values hold what they were read from.
ghost use Rattle.std.specs.Prelude.{refl};
ghost use Rattle.wincode.specs.OneTextLaws.{both_owned};

use crate::containers::{self, Pod};
use crate::io::{Lending, ZeroCopy};
use crate::len::{SeqLen, ShortU16};
use crate::markers::SchemaReadOwned;
use crate::tag::TagCode;
use std::borrow::{CowSlice, CowStr};
use std::collections::{BTreeMap, BTreeSet, BinaryHeap, HashMap, HashSet, LinkedList, VecDeque};
use std::ffi::CString;
use std::hash::Hash;
use std::marker::PhantomData;
use std::ops::Bound;
use std::rc::Rc;
use std::sync::Arc;
use wincode_read::Key;

impl<L: Lending> SchemaReadOwned<L> for bool {
    ghost owned = { refl };
}

impl<L: Lending> SchemaReadOwned<L> for char {
    ghost owned = { refl };
}

impl<L: Lending> SchemaReadOwned<L> for () {
    ghost owned = { refl };
}

impl<L: Lending, T> SchemaReadOwned<L> for PhantomData<T> {
    ghost owned = { refl };
}

impl<L: Lending> SchemaReadOwned<L> for String {
    ghost owned = { refl };
}

impl<'s, L: Lending> SchemaReadOwned<L> for CowStr<'s> {
    ghost owned = { refl };
}

impl<L: Lending> SchemaReadOwned<L> for CString {
    ghost owned = { refl };
}

impl<'s, L: Lending, T: SchemaReadOwned<L>> SchemaReadOwned<L> for CowSlice<'s, T>
where
    T: 's,
    T::Dst: 's,
{
    ghost owned = { T.owned };
}

impl<L: Lending, T: SchemaReadOwned<L>> SchemaReadOwned<L> for Bound<T> {
    ghost owned = { T.owned };
}

impl<L: Lending> SchemaReadOwned<L> for ShortU16 {
    ghost owned = { refl };
}

impl<L: Lending, T: SchemaReadOwned<L>> SchemaReadOwned<L> for Option<T> {
    ghost owned = { T.owned };
}

impl<L: Lending, T: SchemaReadOwned<L>, E: SchemaReadOwned<L>> SchemaReadOwned<L> for Result<T, E> {
    ghost owned = { both_owned T.owned E.owned };
}

impl<L: Lending, T: SchemaReadOwned<L>, Tag: TagCode> SchemaReadOwned<L>
    for containers::Option<T, Tag> {
    ghost owned = { T.owned };
}

impl<L: Lending, T: SchemaReadOwned<L>, E: SchemaReadOwned<L>, Tag: TagCode> SchemaReadOwned<L>
    for containers::Result<T, E, Tag> {
    ghost owned = { both_owned T.owned E.owned };
}

impl<L: Lending, T: SchemaReadOwned<L>> SchemaReadOwned<L> for Box<T> {
    ghost owned = { T.owned };
}

impl<L: Lending, T: SchemaReadOwned<L>> SchemaReadOwned<L> for Rc<T> {
    ghost owned = { T.owned };
}

impl<L: Lending, T: SchemaReadOwned<L>> SchemaReadOwned<L> for Arc<T> {
    ghost owned = { T.owned };
}

impl<L: Lending, T: SchemaReadOwned<L>> SchemaReadOwned<L> for Vec<T> {
    ghost owned = { T.owned };
}

impl<L: Lending, T: SchemaReadOwned<L>> SchemaReadOwned<L> for VecDeque<T> {
    ghost owned = { T.owned };
}

impl<L: Lending, T: SchemaReadOwned<L>> SchemaReadOwned<L> for LinkedList<T> {
    ghost owned = { T.owned };
}

impl<L: Lending, T: SchemaReadOwned<L>, Len: SeqLen> SchemaReadOwned<L>
    for containers::Vec<T, Len> {
    ghost owned = { T.owned };
}

impl<L: Lending, T: SchemaReadOwned<L>, Len: SeqLen> SchemaReadOwned<L>
    for containers::VecDeque<T, Len> {
    ghost owned = { T.owned };
}

impl<L: Lending, T: SchemaReadOwned<L>, Len: SeqLen> SchemaReadOwned<L>
    for containers::BoxedSlice<T, Len> {
    ghost owned = { T.owned };
}

impl<L: Lending, T: SchemaReadOwned<L>, Len: SeqLen> SchemaReadOwned<L>
    for containers::RcSlice<T, Len> {
    ghost owned = { T.owned };
}

impl<L: Lending, T: SchemaReadOwned<L>, Len: SeqLen> SchemaReadOwned<L>
    for containers::ArcSlice<T, Len> {
    ghost owned = { T.owned };
}

impl<L: Lending, T: SchemaReadOwned<L>> SchemaReadOwned<L> for containers::Elem<T> {
    ghost owned = { T.owned };
}

impl<L: Lending, T: SchemaReadOwned<L>, const N: usize> SchemaReadOwned<L> for [T; N] {
    ghost owned = { T.owned };
}

impl<L: Lending, K: SchemaReadOwned<L> + Key<L> + Ord, V: SchemaReadOwned<L>> SchemaReadOwned<L>
    for BTreeMap<K, V>
where
    K::Dst: Ord,
{
    ghost owned = { both_owned K.owned V.owned };
}

impl<L: Lending, K: SchemaReadOwned<L> + Key<L> + Ord> SchemaReadOwned<L> for BTreeSet<K>
where
    K::Dst: Ord,
{
    ghost owned = { K.owned };
}

impl<L: Lending, K: SchemaReadOwned<L> + Key<L> + Eq + Hash, V: SchemaReadOwned<L>> SchemaReadOwned<
    L,
> for HashMap<K, V>
where
    K::Dst: Eq + Hash,
{
    ghost owned = { both_owned K.owned V.owned };
}

impl<L: Lending, K: SchemaReadOwned<L> + Key<L> + Eq + Hash> SchemaReadOwned<L> for HashSet<K>
where
    K::Dst: Eq + Hash,
{
    ghost owned = { K.owned };
}

impl<L: Lending, T: SchemaReadOwned<L> + Ord> SchemaReadOwned<L> for BinaryHeap<T>
where
    T::Dst: Ord,
{
    ghost owned = { T.owned };
}

impl<L: Lending, T: SchemaReadOwned<L> + Ord, Len: SeqLen> SchemaReadOwned<L>
    for containers::BinaryHeap<T, Len>
where
    T::Dst: Ord,
{
    ghost owned = { T.owned };
}

impl<L: Lending, T: ZeroCopy> SchemaReadOwned<L> for Pod<T> {
    ghost owned = { refl };
}

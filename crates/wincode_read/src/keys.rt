//! What keys of maps and items of heaps keep beyond their schemas.
ghost use Rattle.std.specs.Prelude.{refl, string_bytes};
ghost use Rattle.wincode_base.specs.KeyLaws.{nat_alike, bool_alike, str_alike, pair_alike, option_alike, result_alike, items_alike};
ghost use Rattle.wincode_base.specs.KeyLaws.{nat_decidable, bool_decidable, unit_decidable, items_decidable, pair_decidable, option_decidable, result_told};
ghost use Rattle.wincode_base.specs.Keys.{IsAlike, IsDecidable};

mod numbers;
mod std_types;
mod tuples;

use crate::schema::SchemaRead;
use std::collections::{BTreeMap, BTreeSet, LinkedList, VecDeque};
use std::marker::PhantomData;
use std::rc::Rc;
use std::sync::Arc;
use wincode_io::{Lending, Lifetime};

/// Keys of maps and items of sets: where the same is seen of two, they are equal. So an encoding reads as one
/// map alone.
pub trait Key<L: Lending>: SchemaRead<L>
where
    Self::Dst: Eq,
{
    ghost alike: { IsAlike Self.Dst.eq Self.model };
}

/// Items of heaps that are read back: what is seen of them can be told apart.
pub trait Told<L: Lending>: SchemaRead<L> {
    ghost told: { IsDecidable Self.Value };
}

impl<L: Lending> Key<L> for bool {
    ghost alike = { bool_alike };
}

impl<L: Lending> Key<L> for char {
    ghost alike = { nat_alike };
}

impl<L: Lending> Key<L> for String {
    ghost alike = { λ x y. str_alike (string_bytes x) (string_bytes y) };
}

impl<L: Lending> Key<L> for () {
    ghost alike = { λ x y e. refl };
}

impl<L: Lending, T: Key<L>> Key<L> for Option<T>
where
    T::Dst: Eq,
{
    ghost alike = { option_alike T.alike };
}

impl<L: Lending, T: Key<L>> Key<L> for Vec<T>
where
    T::Dst: Eq,
{
    ghost alike = { λ x y. items_alike T.alike x.items y.items };
}

impl<L: Lending, T: Key<L>, const N: usize> Key<L> for [T; N]
where
    T::Dst: Eq,
{
    ghost alike = { items_alike T.alike };
}

impl<L: Lending, T: Key<L>, E: Key<L>> Key<L> for Result<T, E>
where
    T::Dst: Eq,
    E::Dst: Eq,
{
    ghost alike = { result_alike T.alike E.alike };
}

impl<L: Lending, T: Key<L>> Key<L> for Box<T>
where
    T::Dst: Eq,
{
    ghost alike = { λ x y. T.alike x.value y.value };
}

impl<L: Lending, T: Key<L>> Key<L> for Rc<T>
where
    T::Dst: Eq,
{
    ghost alike = { λ x y. T.alike x.value y.value };
}

impl<L: Lending, T: Key<L>> Key<L> for Arc<T>
where
    T::Dst: Eq,
{
    ghost alike = { λ x y. T.alike x.value y.value };
}

impl<L: Lending, T: Key<L>> Key<L> for VecDeque<T>
where
    T::Dst: Eq,
{
    ghost alike = { λ x y. items_alike T.alike x.items y.items };
}

impl<L: Lending, T: Key<L>> Key<L> for LinkedList<T>
where
    T::Dst: Eq,
{
    ghost alike = { items_alike T.alike };
}

impl<L: Lending, K: Key<L> + Ord> Key<L> for BTreeSet<K>
where
    K::Dst: Ord,
{
    ghost alike = { λ x y. items_alike K.alike x.keys y.keys };
}

impl<L: Lending, K: Key<L> + Ord, V: Key<L>> Key<L> for BTreeMap<K, V>
where
    K::Dst: Ord,
    V::Dst: Eq,
{
    ghost alike = { λ x y. items_alike (pair_alike K.alike V.alike) x.entries y.entries };
}

impl<L: Lending, T> Key<L> for PhantomData<T> {
    ghost alike = { λ x y e. refl };
}

impl<'a> Key<Lifetime<'a>> for &'a str {
    ghost alike = { λ x y. str_alike x.now y.now };
}

impl<L: Lending> Told<L> for bool {
    ghost told = { bool_decidable };
}

impl<L: Lending> Told<L> for char {
    ghost told = { nat_decidable };
}

impl<L: Lending> Told<L> for String {
    ghost told = { items_decidable nat_decidable };
}

impl<L: Lending> Told<L> for () {
    ghost told = { unit_decidable };
}

impl<L: Lending, T: Told<L>> Told<L> for Option<T> {
    ghost told = { option_decidable T.told };
}

impl<L: Lending, T: Told<L>> Told<L> for Vec<T> {
    ghost told = { items_decidable T.told };
}

impl<L: Lending, T: Told<L>, const N: usize> Told<L> for [T; N] {
    ghost told = { items_decidable T.told };
}

impl<L: Lending, T: Told<L>, E: Told<L>> Told<L> for Result<T, E> {
    ghost told = { result_told T.told E.told };
}

impl<L: Lending, T: Told<L>> Told<L> for Box<T> {
    ghost told = { T.told };
}

impl<L: Lending, T: Told<L>> Told<L> for Rc<T> {
    ghost told = { T.told };
}

impl<L: Lending, T: Told<L>> Told<L> for Arc<T> {
    ghost told = { T.told };
}

impl<L: Lending, T: Told<L>> Told<L> for VecDeque<T> {
    ghost told = { items_decidable T.told };
}

impl<L: Lending, T: Told<L>> Told<L> for LinkedList<T> {
    ghost told = { items_decidable T.told };
}

impl<L: Lending, K: Key<L> + Told<L> + Ord> Told<L> for BTreeSet<K>
where
    K::Dst: Ord,
{
    ghost told = { items_decidable K.told };
}

impl<L: Lending, K: Key<L> + Told<L> + Ord, V: Told<L>> Told<L> for BTreeMap<K, V>
where
    K::Dst: Ord,
{
    ghost told = { items_decidable (pair_decidable K.told V.told) };
}

impl<L: Lending, T> Told<L> for PhantomData<T> {
    ghost told = { unit_decidable };
}

impl<'a> Told<Lifetime<'a>> for &'a str {
    ghost told = { items_decidable nat_decidable };
}

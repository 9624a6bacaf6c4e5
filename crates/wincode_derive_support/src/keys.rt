//! Maps, sets and heaps as schemas whose laws of reading another's can name, and what they ask of their keys.
ghost use Rattle.std.proofs.Common.{ap};
ghost use Rattle.std.specs.BinaryHeap.{heap_items};
ghost use Rattle.std.specs.Bool.{beq};
ghost use Rattle.std.specs.Cmp.{IsEquivalence, IsTotalOrder, on_equiv, on_total, and_equiv, then_total, both_tied};
ghost use Rattle.std.specs.Cmp.{nat_eq_equiv, nat_cmp_total, unsigned_ties, bool_eq_equiv, bool_cmp_total};
ghost use Rattle.std.specs.Cmp.Lexicographic.{pointwise, slice_cmp, lists_equiv, lists_total, lists_ties, nat_list_eq_equiv, nat_list_cmp_total, texts_ties};
ghost use Rattle.std.specs.List.Sorted.{IsPermutation};
ghost use Rattle.std.specs.Ordering.{nat_cmp, bool_cmp, is_eq, ordering_then};
ghost use Rattle.std.specs.Prelude.{◌≡◌, ◌&&◌, ℕ, Bool, List, map, nat_eq, string_bytes};
ghost use Rattle.std.specs.declared.cmp.Ordering.{Ordering};
ghost use Rattle.wincode_collect.specs.Collections.{IsSetOf, IsMapOf, IsHashSetOf, IsHashMapOf};
ghost use Rattle.wincode_collect.specs.Seen.{sees, HashSetSeen, HashMapSeen, hash_set_sees, hash_map_sees, heap_sees, Made};
ghost use Rattle.wincode_derive_support.specs.Keys.{bool_ties};
ghost use Rattle.wincode_io.specs.Joins.{Each};
ghost use Rattle.wincode_base.specs.ArrayLaws.{array_read_laws};
ghost use Rattle.wincode_base.specs.Arrays.{IsArray, array_read};
ghost use Rattle.wincode_base.specs.Gathered.{gathered_read};
ghost use Rattle.wincode_base.specs.GatheredLaws.{map_read_laws, set_read_laws, hash_map_read_laws, hash_set_read_laws, bag_read_laws};
ghost use Rattle.wincode_base.specs.Grammar.{ReadGrammar, ReadLaws};
ghost use Rattle.wincode_base.specs.ItemSizes.{item_size, pair_size};
ghost use Rattle.wincode_base.specs.KeyLaws.{nat_alike, bool_alike, str_alike, pair_alike, items_alike, both_true};
ghost use Rattle.wincode_base.specs.Keys.{IsAlike};
ghost use Rattle.wincode_base.specs.LengthLaws.{bincode_laws};
ghost use Rattle.wincode_base.specs.Lengths.{bincode, preallocation_limit};
ghost use Rattle.wincode_base.specs.InWindow.{windowed_read};
ghost use Rattle.wincode_base.specs.PairLaws.{pair_read_laws, windowed_read_laws};
ghost use Rattle.wincode_base.specs.Pairs.{pair_read};

mod numbers;
mod std_types;

use crate::laws::Lawful;
use std::collections::{BTreeMap, BTreeSet, BinaryHeap, HashMap, HashSet};
use std::hash::Hash;
use wincode::containers;
use wincode::io::Lending;
use wincode::len::SeqLen;

/// What a map or a set asks of its keys, as data: the laws of reading, as in `Lawful`, and those of `==` and of the
/// order.
pub trait LawfulKey<L: Lending> {
    type Dst;

    // What contracts see of a value, which are its values, and the grammar, as in `SchemaRead`.
    ghost Value: { Type 0 };

    ghost model: { Self.Dst → Value };

    ghost is_valid: { Value → Type 0 };

    ghost reading: { ReadGrammar Value };

    ghost read_laws: { ReadLaws is_valid reading };

    // `==`, by which keys are told apart, of those of which the same is seen too.
    ghost equal: { Self.Dst → Self.Dst → Bool };

    ghost equivalence: { IsEquivalence equal };

    ghost alike: { IsAlike equal model };

    // The order.
    ghost order: { Self.Dst → Self.Dst → Ordering };

    ghost order_total: { IsTotalOrder order };

    ghost order_ties: { (x y : Self.Dst) → equal x y ≡ is_eq (order x y) };
}

impl<L: Lending> LawfulKey<L> for char {
    type Dst = char;

    ghost Value = { ⟦<char as Lawful<L>>⟧.Value };

    ghost model = { ⟦<char as Lawful<L>>⟧.model };

    ghost is_valid = { ⟦<char as Lawful<L>>⟧.is_valid };

    ghost reading = { ⟦<char as Lawful<L>>⟧.reading };

    ghost read_laws = { ⟦<char as Lawful<L>>⟧.read_laws };

    ghost equal = { nat_eq };

    ghost equivalence = { nat_eq_equiv };

    ghost alike = { nat_alike };

    ghost order = { nat_cmp };

    ghost order_total = { nat_cmp_total };

    ghost order_ties = { unsigned_ties };
}

impl<L: Lending> LawfulKey<L> for bool {
    type Dst = bool;

    ghost Value = { ⟦<bool as Lawful<L>>⟧.Value };

    ghost model = { ⟦<bool as Lawful<L>>⟧.model };

    ghost is_valid = { ⟦<bool as Lawful<L>>⟧.is_valid };

    ghost reading = { ⟦<bool as Lawful<L>>⟧.reading };

    ghost read_laws = { ⟦<bool as Lawful<L>>⟧.read_laws };

    ghost equal = { beq };

    ghost equivalence = { bool_eq_equiv };

    ghost alike = { bool_alike };

    ghost order = { bool_cmp };

    ghost order_total = { bool_cmp_total };

    ghost order_ties = { bool_ties };
}

impl<L: Lending> LawfulKey<L> for String {
    type Dst = String;

    ghost Value = { ⟦<String as Lawful<L>>⟧.Value };

    ghost model = { ⟦<String as Lawful<L>>⟧.model };

    ghost is_valid = { ⟦<String as Lawful<L>>⟧.is_valid };

    ghost reading = { ⟦<String as Lawful<L>>⟧.reading };

    ghost read_laws = { ⟦<String as Lawful<L>>⟧.read_laws };

    ghost equal = { λ x y. pointwise nat_eq (string_bytes x) (string_bytes y) };

    ghost equivalence = { on_equiv string_bytes nat_list_eq_equiv };

    ghost alike = { λ x y. str_alike (string_bytes x) (string_bytes y) };

    ghost order = { λ x y. slice_cmp nat_cmp (string_bytes x) (string_bytes y) };

    ghost order_total = { on_total string_bytes nat_list_cmp_total };

    ghost order_ties = { λ x y. texts_ties (string_bytes x) (string_bytes y) };
}

impl<L: Lending, A: LawfulKey<L>, B: LawfulKey<L>> LawfulKey<L> for (A, B) {
    type Dst = (A::Dst, B::Dst);

    ghost Value = { A.Value × B.Value };

    ghost model = { λ t. (A.model t.0, B.model t.1) };

    ghost is_valid = { λ v. A.is_valid v.0 × B.is_valid v.1 };

    ghost reading = { windowed_read (pair_read A.reading B.reading) };

    ghost read_laws = { windowed_read_laws (pair_read_laws A.read_laws B.read_laws) };

    ghost equal = { λ x y. A.equal x.0 y.0 && B.equal x.1 y.1 };

    ghost equivalence = { and_equiv (on_equiv (λ t. t.0) A.equivalence) (on_equiv (λ t. t.1) B.equivalence) };

    ghost alike = { pair_alike A.alike B.alike };

    ghost order = { λ x y. ordering_then (A.order x.0 y.0) (B.order x.1 y.1) };

    ghost order_total = { then_total (on_total (λ t. t.0) A.order_total) (on_total (λ t. t.1) B.order_total) };

    ghost order_ties = { λ x y. both_tied _ _ (A.order x.0 y.0) (B.order x.1 y.1) (A.order_ties x.0 y.0) (B.order_ties x.1 y.1) };
}

impl<L: Lending, A: LawfulKey<L>, B: LawfulKey<L>, C: LawfulKey<L>> LawfulKey<L> for (A, B, C) {
    type Dst = (A::Dst, B::Dst, C::Dst);

    ghost Value = { A.Value × (B.Value × C.Value) };

    ghost model = { λ t. (A.model t.0, (B.model t.1, C.model t.2)) };

    ghost is_valid = { λ v. A.is_valid v.0 × (B.is_valid v.1.0 × C.is_valid v.1.1) };

    ghost reading = { windowed_read (pair_read A.reading (pair_read B.reading C.reading)) };

    ghost read_laws = { windowed_read_laws (pair_read_laws A.read_laws (pair_read_laws B.read_laws C.read_laws)) };

    ghost equal = { λ x y. (A.equal x.0 y.0 && B.equal x.1 y.1) && C.equal x.2 y.2 };

    ghost equivalence = { and_equiv (and_equiv (on_equiv (λ t. t.0) A.equivalence) (on_equiv (λ t. t.1) B.equivalence)) (on_equiv (λ t. t.2) C.equivalence) };

    ghost alike = { λ x y e. both_true (both_true (A.alike x.0 y.0 (ap (λ t. t.0) e)) (B.alike x.1 y.1 (ap (λ t. t.1.0) e))) (C.alike x.2 y.2 (ap (λ t. t.1.1) e)) };

    ghost order = { λ x y. ordering_then (ordering_then (A.order x.0 y.0) (B.order x.1 y.1)) (C.order x.2 y.2) };

    ghost order_total = { then_total (then_total (on_total (λ t. t.0) A.order_total) (on_total (λ t. t.1) B.order_total)) (on_total (λ t. t.2) C.order_total) };

    ghost order_ties = { λ x y. both_tied _ _ (ordering_then (A.order x.0 y.0) (B.order x.1 y.1)) (C.order x.2 y.2)
        (both_tied _ _ (A.order x.0 y.0) (B.order x.1 y.1) (A.order_ties x.0 y.0) (B.order_ties x.1 y.1)) (C.order_ties x.2 y.2) };
}

impl<L: Lending, T: LawfulKey<L>, const N: usize> LawfulKey<L> for [T; N] {
    type Dst = [T::Dst; N];

    ghost Value = { List T.Value };

    ghost model = { λ xs. map T.model xs };

    ghost is_valid = { IsArray N T.is_valid };

    ghost reading = { windowed_read (array_read N T.reading) };

    ghost read_laws = { windowed_read_laws (array_read_laws N T.is_valid T.reading T.read_laws) };

    ghost equal = { pointwise T.equal };

    ghost equivalence = { lists_equiv T.equivalence };

    ghost alike = { items_alike T.alike };

    ghost order = { slice_cmp T.order };

    ghost order_total = { lists_total T.order_total };

    ghost order_ties = { lists_ties T.order T.order_ties };
}

impl<L: Lending, K: LawfulKey<L> + Ord, V: Lawful<L>> Lawful<L> for BTreeMap<K, V>
where
    K::Dst: Ord,
{
    type Dst = BTreeMap<K::Dst, V::Dst>;

    ghost Value = { List (K.Value × V.Value) };

    ghost model = { λ m. map (sees K.model V.model) m.entries };

    ghost is_valid = { Each (λ v. K.is_valid v.0 × V.is_valid v.1) };

    ghost reading = { gathered_read (sees K.model V.model) (Made (IsMapOf K.order) (map (sees K.model V.model))) (bincode preallocation_limit)
        (pair_size K.reading.meta V.reading.meta) (pair_read K.reading V.reading) };

    ghost read_laws = { map_read_laws (bincode preallocation_limit) (bincode_laws preallocation_limit)
        (pair_size K.reading.meta V.reading.meta) K.model V.model K.read_laws V.read_laws K.order K.order_total K.equal K.order_ties K.alike };
}

impl<L: Lending, K: LawfulKey<L> + Eq + Hash, V: Lawful<L>> Lawful<L> for HashMap<K, V>
where
    K::Dst: Eq + Hash,
{
    type Dst = HashMap<K::Dst, V::Dst>;

    ghost Value = { HashMapSeen K.Dst K.Value V.Value };

    ghost model = { λ m. hash_map_sees K.equal K.model V.model m.entries };

    ghost is_valid = { λ v. Unit {0} };

    ghost reading = { gathered_read (sees K.model V.model) (Made (IsHashMapOf K.equal) (hash_map_sees K.equal K.model V.model)) (bincode preallocation_limit)
        (pair_size K.reading.meta V.reading.meta) (pair_read K.reading V.reading) };

    ghost read_laws = { hash_map_read_laws (bincode preallocation_limit) (bincode_laws preallocation_limit)
        (pair_size K.reading.meta V.reading.meta) K.model V.model K.read_laws V.read_laws K.equal K.equivalence K.alike };
}

impl<L: Lending, K: LawfulKey<L> + Ord> Lawful<L> for BTreeSet<K>
where
    K::Dst: Ord,
{
    type Dst = BTreeSet<K::Dst>;

    ghost Value = { List K.Value };

    ghost model = { λ s. map K.model s.keys };

    ghost is_valid = { Each K.is_valid };

    ghost reading = { gathered_read K.model (Made (IsSetOf K.order) (map K.model)) (bincode preallocation_limit) (item_size K.reading.meta) K.reading };

    ghost read_laws = { set_read_laws (bincode preallocation_limit) (bincode_laws preallocation_limit)
        (item_size K.reading.meta) K.model K.read_laws K.order K.order_total K.equal K.order_ties K.alike };
}

impl<L: Lending, K: LawfulKey<L> + Eq + Hash> Lawful<L> for HashSet<K>
where
    K::Dst: Eq + Hash,
{
    type Dst = HashSet<K::Dst>;

    ghost Value = { HashSetSeen K.Dst K.Value };

    ghost model = { λ s. hash_set_sees K.equal K.model s.keys };

    ghost is_valid = { λ v. Unit {0} };

    ghost reading = { gathered_read K.model (Made (IsHashSetOf K.equal) (hash_set_sees K.equal K.model)) (bincode preallocation_limit) (item_size K.reading.meta) K.reading };

    ghost read_laws = { hash_set_read_laws (bincode preallocation_limit) (bincode_laws preallocation_limit) (item_size K.reading.meta) K.model K.read_laws K.equal K.equivalence K.alike };
}

impl<L: Lending, T: Lawful<L> + Ord> Lawful<L> for BinaryHeap<T>
where
    T::Dst: Ord,
{
    type Dst = BinaryHeap<T::Dst>;

    ghost Value = { (T.Value → Bool) → ℕ };

    ghost model = { λ h. heap_sees T.model (heap_items h) };

    ghost is_valid = { λ v. Unit {0} };

    ghost reading = { gathered_read T.model (Made IsPermutation (heap_sees T.model)) (bincode preallocation_limit) (item_size T.reading.meta) T.reading };

    ghost read_laws = { bag_read_laws (bincode preallocation_limit) (bincode_laws preallocation_limit) (item_size T.reading.meta) T.model T.read_laws };
}

impl<L: Lending, T: Lawful<L>, Len: SeqLen> Lawful<L> for containers::BinaryHeap<T, Len>
where
    T::Dst: Ord,
{
    type Dst = BinaryHeap<T::Dst>;

    ghost Value = { (T.Value → Bool) → ℕ };

    ghost model = { λ h. heap_sees T.model (heap_items h) };

    ghost is_valid = { λ v. Unit {0} };

    ghost reading = { gathered_read T.model (Made IsPermutation (heap_sees T.model)) Len.scheme (item_size T.reading.meta) T.reading };

    ghost read_laws = { bag_read_laws Len.scheme Len.scheme_laws (item_size T.reading.meta) T.model T.read_laws };
}

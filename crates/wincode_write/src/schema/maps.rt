//! Schemas of maps and sets, behind a length of eight bytes.
//!
//! A map is written as the list of its pairs, a set as the list of its items, and what `lists` says of windows and
//! refusals holds here; a pair has one size where key and value have one. `BTreeMap` and `BTreeSet`
//! are written in the order of their keys, the others in the order in which they are gone over, which may be any.
ghost use Rattle.std.specs.BTreeMap.{IsOrdered};
ghost use Rattle.std.specs.HashMap.{IsUnique};
ghost use Rattle.std.specs.List.{IsDistinct};
ghost use Rattle.std.specs.List.Sorted.{IsStrictlySortedBy};
ghost use Rattle.std.specs.Prelude.{List, map};
ghost use Rattle.wincode_collect.specs.Seen.{sees};
ghost use Rattle.wincode_io.specs.Joins.{Each};
ghost use Rattle.wincode_base.specs.Gathered.{scattered_write_of, scattered_write};
ghost use Rattle.wincode_base.specs.Lengths.{bincode, preallocation_limit};
ghost use Rattle.wincode_base.specs.ListLaws.{list_write_laws_of, list_write_laws};
ghost use Rattle.wincode_base.specs.Lists.{list_write_of, list_write};
ghost use Rattle.wincode_base.specs.PairLaws.{pair_write_laws};
ghost use Rattle.wincode_base.specs.Pairs.{pair_write};
ghost use Rattle.wincode_base.specs.ScatteredLaws.{scattered_write_laws_of, scattered_write_laws, sounder_laws};
ghost use Rattle.wincode_base.specs.ItemSizes.{pair_size};

use crate::schema::SchemaWrite;
use crate::schema::to_items::{size_of_list, write_list};
use std::collections::{BTreeMap, BTreeSet, HashMap, HashSet};
use std::hash::Hash;
use wincode_base::error::WriteResult;
use wincode_base::len::{BincodeLen, PREALLOCATION_LIMIT};
use wincode_base::meta::TypeMeta;
use wincode_base::parts::Members2;
use wincode_base::sizes::ItemSize;
use wincode_io::Writer;

/// A `BTreeMap` is the list of its pairs, in the order of their keys.
impl<K: SchemaWrite + Ord, V: SchemaWrite> SchemaWrite for BTreeMap<K, V>
where
    K::Src: Ord,
{
    type Src = BTreeMap<K::Src, V::Src>;

    ghost Value = { List (K.Value × V.Value) };

    ghost model = { λ m. map (sees K.model V.model) m.entries };

    ghost is_valid = { λ m. IsOrdered K.Src.cmp m × Each (λ e. K.is_valid e.0 × V.is_valid e.1) m.entries };

    ghost writing = { list_write_of (bincode preallocation_limit) 24 (pair_size K.writing.meta V.writing.meta) (pair_write K.writing V.writing) };

    fn type_meta() -> TypeMeta {
        TypeMeta::Dynamic
    }

    fn size_of(src: &BTreeMap<K::Src, V::Src>) -> WriteResult<usize> {
        size_of_list::<
            BincodeLen<PREALLOCATION_LIMIT>,
            Members2<K, V>,
            BTreeMap<K::Src, V::Src>,
            24,
        >(src)
    }

    fn write<W: Writer>(writer: &mut W, src: &BTreeMap<K::Src, V::Src>) -> WriteResult<()> {
        let size = ItemSize::of_pair(K::type_meta(), V::type_meta());
        write_list::<
            BincodeLen<PREALLOCATION_LIMIT>,
            Members2<K, V>,
            BTreeMap<K::Src, V::Src>,
            W,
            24,
        >(writer, src, size)
    }

    #[inline(always)]
    fn write_at_once<W: Writer>(writer: &mut W, items: &[Self::Src]) -> Option<WriteResult<()>> {
        let _ = &*writer;
        let _items = items.len();
        None
    }

    #[inline(always)]
    fn known_size() -> Option<usize> {
        None
    }

    #[inline(always)]
    fn encode_front(src: &Self::Src, dst: &mut [u8]) -> Option<usize> {
        let _ = src;
        let _len = dst.len();
        None
    }

    ghost write_laws = { sounder_laws (IsOrdered K.Src.cmp) (list_write_laws_of (bincode preallocation_limit) 24 (pair_size K.writing.meta V.writing.meta) (λ m. m.entries)
        (λ e. K.is_valid e.0 × V.is_valid e.1) (sees K.model V.model)
        (pair_write K.writing V.writing) (pair_write_laws K.write_laws V.write_laws)) };
}

/// A `HashMap` is some list of its pairs, seen as a finite map.
impl<K: SchemaWrite + Eq + Hash, V: SchemaWrite> SchemaWrite for HashMap<K, V>
where
    K::Src: Eq + Hash,
{
    type Src = HashMap<K::Src, V::Src>;

    ghost Value = { List (K.Value × V.Value) };

    ghost model = { λ m. map (sees K.model V.model) m.entries };

    ghost is_valid = { λ m. IsUnique K.Src.eq m × Each (λ e. K.is_valid e.0 × V.is_valid e.1) m.entries };

    ghost writing = { scattered_write_of (bincode preallocation_limit) (pair_size K.writing.meta V.writing.meta) (pair_write K.writing V.writing) };

    fn type_meta() -> TypeMeta {
        TypeMeta::Dynamic
    }

    fn size_of(src: &HashMap<K::Src, V::Src>) -> WriteResult<usize> {
        size_of_list::<
            BincodeLen<PREALLOCATION_LIMIT>,
            Members2<K, V>,
            HashMap<K::Src, V::Src>,
            24,
        >(src)
    }

    fn write<W: Writer>(writer: &mut W, src: &HashMap<K::Src, V::Src>) -> WriteResult<()> {
        let size = ItemSize::of_pair(K::type_meta(), V::type_meta());
        write_list::<
            BincodeLen<PREALLOCATION_LIMIT>,
            Members2<K, V>,
            HashMap<K::Src, V::Src>,
            W,
            24,
        >(writer, src, size)
    }

    #[inline(always)]
    fn write_at_once<W: Writer>(writer: &mut W, items: &[Self::Src]) -> Option<WriteResult<()>> {
        let _ = &*writer;
        let _items = items.len();
        None
    }

    #[inline(always)]
    fn known_size() -> Option<usize> {
        None
    }

    #[inline(always)]
    fn encode_front(src: &Self::Src, dst: &mut [u8]) -> Option<usize> {
        let _ = src;
        let _len = dst.len();
        None
    }

    ghost write_laws = { sounder_laws (IsUnique K.Src.eq) (scattered_write_laws_of (bincode preallocation_limit) (pair_size K.writing.meta V.writing.meta) (λ m. m.entries)
        (pair_write_laws K.write_laws V.write_laws)) };
}

/// A `BTreeSet` is the list of its items, in their order.
impl<K: SchemaWrite + Ord> SchemaWrite for BTreeSet<K>
where
    K::Src: Ord,
{
    type Src = BTreeSet<K::Src>;

    ghost Value = { List K.Value };

    ghost model = { λ s. map K.model s.keys };

    ghost is_valid = { λ s. IsStrictlySortedBy K.Src.cmp s.keys × Each K.is_valid s.keys };

    ghost writing = { list_write (bincode preallocation_limit) 24 K.writing };

    fn type_meta() -> TypeMeta {
        TypeMeta::Dynamic
    }

    fn size_of(src: &BTreeSet<K::Src>) -> WriteResult<usize> {
        size_of_list::<BincodeLen<PREALLOCATION_LIMIT>, K, BTreeSet<K::Src>, 24>(src)
    }

    fn write<W: Writer>(writer: &mut W, src: &BTreeSet<K::Src>) -> WriteResult<()> {
        let size = ItemSize::of(K::type_meta());
        write_list::<BincodeLen<PREALLOCATION_LIMIT>, K, BTreeSet<K::Src>, W, 24>(writer, src, size)
    }

    #[inline(always)]
    fn write_at_once<W: Writer>(writer: &mut W, items: &[Self::Src]) -> Option<WriteResult<()>> {
        let _ = &*writer;
        let _items = items.len();
        None
    }

    #[inline(always)]
    fn known_size() -> Option<usize> {
        None
    }

    #[inline(always)]
    fn encode_front(src: &Self::Src, dst: &mut [u8]) -> Option<usize> {
        let _ = src;
        let _len = dst.len();
        None
    }

    ghost write_laws = { sounder_laws (λ s. IsStrictlySortedBy K.Src.cmp s.keys) (list_write_laws (bincode preallocation_limit) 24 (λ s. s.keys) K.is_valid K.model K.writing K.write_laws) };
}

/// A `HashSet` is some list of its items, seen as a set.
impl<K: SchemaWrite + Eq + Hash> SchemaWrite for HashSet<K>
where
    K::Src: Eq + Hash,
{
    type Src = HashSet<K::Src>;

    ghost Value = { List K.Value };

    ghost model = { λ s. map K.model s.keys };

    ghost is_valid = { λ s. IsDistinct K.Src.eq s.keys × Each K.is_valid s.keys };

    ghost writing = { scattered_write (bincode preallocation_limit) K.writing };

    fn type_meta() -> TypeMeta {
        TypeMeta::Dynamic
    }

    fn size_of(src: &HashSet<K::Src>) -> WriteResult<usize> {
        size_of_list::<BincodeLen<PREALLOCATION_LIMIT>, K, HashSet<K::Src>, 24>(src)
    }

    fn write<W: Writer>(writer: &mut W, src: &HashSet<K::Src>) -> WriteResult<()> {
        let size = ItemSize::of(K::type_meta());
        write_list::<BincodeLen<PREALLOCATION_LIMIT>, K, HashSet<K::Src>, W, 24>(writer, src, size)
    }

    #[inline(always)]
    fn write_at_once<W: Writer>(writer: &mut W, items: &[Self::Src]) -> Option<WriteResult<()>> {
        let _ = &*writer;
        let _items = items.len();
        None
    }

    #[inline(always)]
    fn known_size() -> Option<usize> {
        None
    }

    #[inline(always)]
    fn encode_front(src: &Self::Src, dst: &mut [u8]) -> Option<usize> {
        let _ = src;
        let _len = dst.len();
        None
    }

    ghost write_laws = { sounder_laws (λ s. IsDistinct K.Src.eq s.keys) (scattered_write_laws (bincode preallocation_limit) (λ s. s.keys) K.write_laws) };
}

//! Schemas of maps and sets, behind a length of eight bytes.
//!
//! A map is read as the list of its pairs, a set as the list of its items, and what `lists` says of
//! windows, refusals and places holds here; a pair has one size where key and value have one. Where a value
//! is refused, the reader stands as a list of pairs leaves it.
//!
//! The pairs or items may come in any order, and as often as they like: of equal keys the first stays, with
//! the last value. An insertion that gets no memory is `OutOfMemory`. A pair counts as much as its key and its
//! value together against the limit.
ghost use Rattle.std.specs.Prelude.{List, map};
ghost use Rattle.wincode_collect.specs.Collections.{IsSetOf, IsMapOf, IsHashSetOf, IsHashMapOf};
ghost use Rattle.wincode_collect.specs.Seen.{sees, HashSetSeen, HashMapSeen, hash_set_sees, hash_map_sees, Made};
ghost use Rattle.wincode_io.specs.Joins.{Each};
ghost use Rattle.wincode_base.specs.Gathered.{gathered_read};
ghost use Rattle.wincode_base.specs.GatheredLaws.{map_read_laws, set_read_laws, hash_map_read_laws, hash_set_read_laws};
ghost use Rattle.wincode_base.specs.LengthLaws.{bincode_laws};
ghost use Rattle.wincode_base.specs.Lengths.{bincode, preallocation_limit};
ghost use Rattle.wincode_base.specs.Pairs.{pair_read};
ghost use Rattle.wincode_base.specs.ItemSizes.{item_size, pair_size};

use crate::keys::Key;
use crate::schema::SchemaRead;
use crate::schema::from_items::{get_list, get_list_of};
use std::alloc::Global;
use std::collections::{BTreeMap, BTreeSet, HashMap, HashSet};
use std::hash::Hash;
use wincode_base::error::ReadResult;
use wincode_base::len::{BincodeLen, PREALLOCATION_LIMIT};
use wincode_base::meta::TypeMeta;
use wincode_base::parts::Members2;
use wincode_base::sizes::ItemSize;
use wincode_io::{Lending, Reader};

impl<L: Lending, K: Key<L> + Ord, V: SchemaRead<L>> SchemaRead<L> for BTreeMap<K, V>
where
    K::Dst: Ord,
{
    type Dst = BTreeMap<K::Dst, V::Dst>;

    ghost Value = { List (K.Value × V.Value) };

    ghost model = { λ m. map (sees K.model V.model) m.entries };

    ghost is_valid = { Each (λ v. K.is_valid v.0 × V.is_valid v.1) };

    ghost reading = { gathered_read (sees K.model V.model) (Made (IsMapOf K.Dst.cmp) (map (sees K.model V.model))) (bincode preallocation_limit) (pair_size K.reading.meta V.reading.meta)
        (pair_read K.reading V.reading) };

    fn type_meta() -> TypeMeta {
        TypeMeta::Dynamic
    }

    fn prealloc_size() -> usize {
        24
    }

    fn read<R: Reader<L>>(
        alloc: Global,
        reader: &mut R,
        dst: &mut Option<BTreeMap<K::Dst, V::Dst>>,
    ) -> ReadResult<()> {
        let size = ItemSize::of_pair(K::type_meta(), V::type_meta());
        *dst = Some(get_list_of::<
            BTreeMap<K::Dst, V::Dst>,
            BincodeLen<PREALLOCATION_LIMIT>,
            L,
            Members2<K, V>,
            R,
        >(alloc, reader, size)?);
        Ok(())
    }

    #[inline(always)]
    fn read_at_once<R: Reader<L>>(
        alloc: Global,
        reader: &mut R,
        n: usize,
        into: &mut Vec<Self::Dst>,
    ) -> Option<ReadResult<()>> {
        let _ = (alloc, n);
        let _ = &*reader;
        let _ = &*into;
        None
    }

    #[inline(always)]
    fn blank() -> Option<Self::Dst> {
        None
    }

    #[inline(always)]
    fn decode(bytes: &[u8], place: &mut Self::Dst) -> bool {
        let _ = bytes.len();
        let _ = &*place;
        false
    }

    ghost read_laws = { map_read_laws (bincode preallocation_limit) (bincode_laws preallocation_limit)
        (pair_size K.reading.meta V.reading.meta) K.model V.model K.read_laws V.read_laws K.Dst.cmp K.Dst.Ord.total K.Dst.eq K.Dst.matches_eq K.alike };
}

impl<L: Lending, K: Key<L> + Eq + Hash, V: SchemaRead<L>> SchemaRead<L> for HashMap<K, V>
where
    K::Dst: Eq + Hash,
{
    type Dst = HashMap<K::Dst, V::Dst>;

    ghost Value = { HashMapSeen K.Dst K.Value V.Value };

    ghost model = { λ m. hash_map_sees K.Dst.eq K.model V.model m.entries };

    ghost is_valid = { λ v. Unit {0} };

    ghost reading = { gathered_read (sees K.model V.model) (Made (IsHashMapOf K.Dst.eq) (hash_map_sees K.Dst.eq K.model V.model)) (bincode preallocation_limit)
        (pair_size K.reading.meta V.reading.meta) (pair_read K.reading V.reading) };

    fn type_meta() -> TypeMeta {
        TypeMeta::Dynamic
    }

    fn prealloc_size() -> usize {
        24
    }

    fn read<R: Reader<L>>(
        alloc: Global,
        reader: &mut R,
        dst: &mut Option<HashMap<K::Dst, V::Dst>>,
    ) -> ReadResult<()> {
        let size = ItemSize::of_pair(K::type_meta(), V::type_meta());
        *dst = Some(get_list_of::<
            HashMap<K::Dst, V::Dst>,
            BincodeLen<PREALLOCATION_LIMIT>,
            L,
            Members2<K, V>,
            R,
        >(alloc, reader, size)?);
        Ok(())
    }

    #[inline(always)]
    fn read_at_once<R: Reader<L>>(
        alloc: Global,
        reader: &mut R,
        n: usize,
        into: &mut Vec<Self::Dst>,
    ) -> Option<ReadResult<()>> {
        let _ = (alloc, n);
        let _ = &*reader;
        let _ = &*into;
        None
    }

    #[inline(always)]
    fn blank() -> Option<Self::Dst> {
        None
    }

    #[inline(always)]
    fn decode(bytes: &[u8], place: &mut Self::Dst) -> bool {
        let _ = bytes.len();
        let _ = &*place;
        false
    }

    ghost read_laws = { hash_map_read_laws (bincode preallocation_limit) (bincode_laws preallocation_limit)
        (pair_size K.reading.meta V.reading.meta) K.model V.model K.read_laws V.read_laws K.Dst.eq K.Dst.Eq.laws K.alike };
}

impl<L: Lending, K: Key<L> + Ord> SchemaRead<L> for BTreeSet<K>
where
    K::Dst: Ord,
{
    type Dst = BTreeSet<K::Dst>;

    ghost Value = { List K.Value };

    ghost model = { λ s. map K.model s.keys };

    ghost is_valid = { Each K.is_valid };

    ghost reading = { gathered_read K.model (Made (IsSetOf K.Dst.cmp) (map K.model)) (bincode preallocation_limit) (item_size K.reading.meta) K.reading };

    fn type_meta() -> TypeMeta {
        TypeMeta::Dynamic
    }

    fn prealloc_size() -> usize {
        24
    }

    fn read<R: Reader<L>>(
        alloc: Global,
        reader: &mut R,
        dst: &mut Option<BTreeSet<K::Dst>>,
    ) -> ReadResult<()> {
        *dst = Some(get_list::<BTreeSet<K::Dst>, BincodeLen<PREALLOCATION_LIMIT>, L, K, R>(
            alloc, reader,
        )?);
        Ok(())
    }

    #[inline(always)]
    fn read_at_once<R: Reader<L>>(
        alloc: Global,
        reader: &mut R,
        n: usize,
        into: &mut Vec<Self::Dst>,
    ) -> Option<ReadResult<()>> {
        let _ = (alloc, n);
        let _ = &*reader;
        let _ = &*into;
        None
    }

    #[inline(always)]
    fn blank() -> Option<Self::Dst> {
        None
    }

    #[inline(always)]
    fn decode(bytes: &[u8], place: &mut Self::Dst) -> bool {
        let _ = bytes.len();
        let _ = &*place;
        false
    }

    ghost read_laws = { set_read_laws (bincode preallocation_limit) (bincode_laws preallocation_limit)
        (item_size K.reading.meta) K.model K.read_laws K.Dst.cmp K.Dst.Ord.total K.Dst.eq K.Dst.matches_eq K.alike };
}

impl<L: Lending, K: Key<L> + Eq + Hash> SchemaRead<L> for HashSet<K>
where
    K::Dst: Eq + Hash,
{
    type Dst = HashSet<K::Dst>;

    ghost Value = { HashSetSeen K.Dst K.Value };

    ghost model = { λ s. hash_set_sees K.Dst.eq K.model s.keys };

    ghost is_valid = { λ v. Unit {0} };

    ghost reading = { gathered_read K.model (Made (IsHashSetOf K.Dst.eq) (hash_set_sees K.Dst.eq K.model)) (bincode preallocation_limit) (item_size K.reading.meta) K.reading };

    fn type_meta() -> TypeMeta {
        TypeMeta::Dynamic
    }

    fn prealloc_size() -> usize {
        24
    }

    fn read<R: Reader<L>>(
        alloc: Global,
        reader: &mut R,
        dst: &mut Option<HashSet<K::Dst>>,
    ) -> ReadResult<()> {
        *dst = Some(get_list::<HashSet<K::Dst>, BincodeLen<PREALLOCATION_LIMIT>, L, K, R>(
            alloc, reader,
        )?);
        Ok(())
    }

    #[inline(always)]
    fn read_at_once<R: Reader<L>>(
        alloc: Global,
        reader: &mut R,
        n: usize,
        into: &mut Vec<Self::Dst>,
    ) -> Option<ReadResult<()>> {
        let _ = (alloc, n);
        let _ = &*reader;
        let _ = &*into;
        None
    }

    #[inline(always)]
    fn blank() -> Option<Self::Dst> {
        None
    }

    #[inline(always)]
    fn decode(bytes: &[u8], place: &mut Self::Dst) -> bool {
        let _ = bytes.len();
        let _ = &*place;
        false
    }

    ghost read_laws = { hash_set_read_laws (bincode preallocation_limit) (bincode_laws preallocation_limit) (item_size K.reading.meta) K.model K.read_laws K.Dst.eq K.Dst.Eq.laws K.alike };
}

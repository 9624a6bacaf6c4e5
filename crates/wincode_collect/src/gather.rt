//! Collections that are made of a list, one item after another.
ghost use Rattle.std.specs.Prelude.{◌≡◌, List, [], ◌∷◌, ◌++◌, IfOk, OnOk};
ghost use Rattle.std.specs.BinaryHeap.{heap_items};
ghost use Rattle.std.specs.List.Sorted.{IsPermutation};
ghost use Rattle.wincode_collect.specs.Collections.{IsSetOf, IsMapOf, IsHashSetOf, IsHashMapOf};

use std::alloc::{AllocError, Global};
use std::collections::{BTreeMap, BTreeSet, BinaryHeap, HashMap, HashSet, LinkedList, VecDeque};
use std::hash::Hash;

/// A collection that is made of a list, one item after another.
pub trait Gather<T>: Drop + Sized {
    // It is made of these, in order.
    ghost made: { List T → Self → Type 0 };

    /// An empty one, with memory for `n` items where it keeps them in one piece or in a table.
    fn empty(alloc: Global, n: usize) -> Result<Self, AllocError>
        ensures { IfOk result (made []) };

    /// Adds an item behind those that are there.
    fn add(&mut self, item: T) -> Result<(), AllocError>
        ensures { OnOk result ((items : List T) → made items self.old → made (items ++ (item ∷ [])) self.new) };
}

impl<T: Drop> Gather<T> for VecDeque<T> {
    ghost made = { λ items queue. queue.items ≡ items };

    fn empty(alloc: Global, n: usize) -> Result<VecDeque<T>, AllocError> {
        VecDeque::with_capacity(alloc, n)
    }

    fn add(&mut self, item: T) -> Result<(), AllocError> {
        self.push_back(item)?;
        Ok(())
    }
}

impl<T: Drop> Gather<T> for LinkedList<T> {
    ghost made = { λ items list. list ≡ items };

    fn empty(alloc: Global, _n: usize) -> Result<LinkedList<T>, AllocError> {
        Ok(LinkedList::new(alloc))
    }

    fn add(&mut self, last: T) -> Result<(), AllocError> {
        self.push_back(last)?;
        Ok(())
    }
}

/// It holds each item as often as the list does.
impl<T: Ord + Drop> Gather<T> for BinaryHeap<T> {
    ghost made = { λ items heap. IsPermutation items (heap_items heap) };

    fn empty(alloc: Global, n: usize) -> Result<BinaryHeap<T>, AllocError> {
        BinaryHeap::with_capacity(alloc, n)
    }

    fn add(&mut self, item: T) -> Result<(), AllocError> {
        self.push(item)?;
        Ok(())
    }
}

/// Of equal keys the first stays, with the last value.
impl<K: Ord + Drop, V: Drop> Gather<(K, V)> for BTreeMap<K, V> {
    ghost made = { λ pairs m. IsMapOf K.cmp pairs m.entries };

    fn empty(alloc: Global, _n: usize) -> Result<BTreeMap<K, V>, AllocError> {
        Ok(BTreeMap::new(alloc))
    }

    fn add(&mut self, entry: (K, V)) -> Result<(), AllocError> {
        let (key, value) = entry;
        self.insert(key, value)?;
        Ok(())
    }
}

/// Of equal items the first stays.
impl<K: Ord + Drop> Gather<K> for BTreeSet<K> {
    ghost made = { λ items set. IsSetOf K.cmp items set.keys };

    fn empty(alloc: Global, _n: usize) -> Result<BTreeSet<K>, AllocError> {
        Ok(BTreeSet::new(alloc))
    }

    fn add(&mut self, item: K) -> Result<(), AllocError> {
        self.insert(item)?;
        Ok(())
    }
}

/// Of equal keys the first stays, with the last value.
impl<K: Eq + Hash + Drop, V: Drop> Gather<(K, V)> for HashMap<K, V> {
    ghost made = { λ pairs m. IsHashMapOf K.eq pairs m.entries };

    fn empty(alloc: Global, n: usize) -> Result<HashMap<K, V>, AllocError> {
        HashMap::with_capacity(alloc, n)
    }

    fn add(&mut self, pair: (K, V)) -> Result<(), AllocError> {
        let (key, value) = pair;
        self.insert(key, value)?;
        Ok(())
    }
}

/// Of equal items the first stays.
impl<K: Eq + Hash + Drop> Gather<K> for HashSet<K> {
    ghost made = { λ items set. IsHashSetOf K.eq items set.keys };

    fn empty(alloc: Global, n: usize) -> Result<HashSet<K>, AllocError> {
        HashSet::with_capacity(alloc, n)
    }

    fn add(&mut self, item: K) -> Result<(), AllocError> {
        self.insert(item)?;
        Ok(())
    }
}

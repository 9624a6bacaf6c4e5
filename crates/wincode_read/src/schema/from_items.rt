//! Reading items, one after another, and lists behind their length.
ghost use Rattle.std.specs.Arc.{arc_slice_items};
ghost use Rattle.std.specs.BinaryHeap.{heap_items};
ghost use Rattle.std.specs.Box.{boxed_slice_items};
ghost use Rattle.std.specs.List.Sorted.{IsPermutation};
ghost use Rattle.std.specs.Prelude.{◌≡◌, List};
ghost use Rattle.std.specs.Rc.{rc_slice_items};
ghost use Rattle.wincode_collect.specs.Collections.{IsSetOf, IsMapOf, IsHashSetOf, IsHashMapOf};
ghost use Rattle.wincode_base.specs.Lists.{items_read, run_read, list_read_of, list_read};
ghost use Rattle.wincode_base.specs.Outcomes.{MakeOutcome};
ghost use Rattle.wincode_base.specs.ItemSizes.{IsReadItemSize};

use crate::schema::{SchemaGet, SchemaRead};
use std::alloc::Global;
use std::boxed::BoxedSlice;
use std::collections::{BTreeMap, BTreeSet, BinaryHeap, HashMap, HashSet, LinkedList, VecDeque};
use std::hash::Hash;
use std::rc::RcSlice;
use std::sync::ArcSlice;
use wincode_base::error::{ReadError, ReadResult, read_length_encoding_overflow};
use wincode_base::len::SeqLen;
use wincode_base::sizes::ItemSize;
use wincode_collect::Gather;
use wincode_io::{Lending, ReadWindow, Reader};

/// What items are read into: a collection that is made of them in order.
pub trait FromItems<L: Lending, T: SchemaRead<L>>: Drop + Sized {
    // It is made of these, in order.
    ghost made: { List T.Dst → Self → Type 0 };

    /// Reads `n` items, one after another.
    fn from_items<R: Reader<L>>(alloc: Global, reader: &mut R, n: usize) -> ReadResult<Self>
        ensures { MakeOutcome (items_read n T.reading) T.model made (R.state reader.old) (R.state reader.new) result };
}

/// Its items are read by the schema's `read_items`.
impl<L: Lending, U: Drop, T: SchemaRead<L, Dst = U>> FromItems<L, T> for Vec<U> {
    ghost made = { λ ds v. v.items ≡ ds };

    fn from_items<R: Reader<L>>(alloc: Global, reader: &mut R, n: usize) -> ReadResult<Vec<U>> {
        let mut items = Vec::new(alloc);
        T::read_items::<R>(alloc, reader, n, &mut items)?;
        Ok(items)
    }
}

impl<L: Lending, U: Drop, T: SchemaRead<L, Dst = U>> FromItems<L, T> for BoxedSlice<U> {
    ghost made = { λ ds b. boxed_slice_items b ≡ ds };

    fn from_items<R: Reader<L>>(
        alloc: Global,
        reader: &mut R,
        n: usize,
    ) -> ReadResult<BoxedSlice<U>> {
        let items = <Vec<U> as FromItems<L, T>>::from_items::<R>(alloc, reader, n)?;
        Ok(items.into_boxed_slice())
    }
}

/// Its memory is asked for once more when all items are there.
impl<L: Lending, U: Drop, T: SchemaRead<L, Dst = U>> FromItems<L, T> for RcSlice<U> {
    ghost made = { λ ds r. rc_slice_items r ≡ ds };

    fn from_items<R: Reader<L>>(alloc: Global, reader: &mut R, n: usize) -> ReadResult<RcSlice<U>> {
        let items = <Vec<U> as FromItems<L, T>>::from_items::<R>(alloc, reader, n)?;
        match RcSlice::from_vec(items) {
            Ok(shared) => Ok(shared),
            Err(_) => Err(ReadError::OutOfMemory),
        }
    }
}

/// The same.
impl<L: Lending, U: Drop, T: SchemaRead<L, Dst = U>> FromItems<L, T> for ArcSlice<U> {
    ghost made = { λ ds a. arc_slice_items a ≡ ds };

    fn from_items<R: Reader<L>>(
        alloc: Global,
        reader: &mut R,
        n: usize,
    ) -> ReadResult<ArcSlice<U>> {
        let items = <Vec<U> as FromItems<L, T>>::from_items::<R>(alloc, reader, n)?;
        match ArcSlice::from_vec(items) {
            Ok(shared) => Ok(shared),
            Err(_) => Err(ReadError::OutOfMemory),
        }
    }
}

/// Reads `n` items, each of which is added to the collection before the next is read.
fn gather_items<C: Gather<T::Dst>, L: Lending, T: SchemaRead<L>, R: Reader<L>>(
    alloc: Global,
    reader: &mut R,
    n: usize,
) -> ReadResult<C>
    ensures { MakeOutcome (items_read n T.reading) T.model C.made (R.state reader.old) (R.state reader.new) result }
{
    let mut gathered = match C::empty(alloc, n) {
        Ok(gathered) => gathered,
        Err(_) => return Err(ReadError::OutOfMemory),
    };
    for _i in 0..n {
        let item = T::get(alloc, reader)?;
        if gathered.add(item).is_err() {
            return Err(ReadError::OutOfMemory);
        }
    }
    Ok(gathered)
}

/// It is made of a vector, and keeps its memory.
impl<L: Lending, U: Drop, T: SchemaRead<L, Dst = U>> FromItems<L, T> for VecDeque<U> {
    ghost made = { λ ds q. q.items ≡ ds };

    fn from_items<R: Reader<L>>(
        alloc: Global,
        reader: &mut R,
        n: usize,
    ) -> ReadResult<VecDeque<U>> {
        let items = <Vec<U> as FromItems<L, T>>::from_items::<R>(alloc, reader, n)?;
        Ok(VecDeque::from(items))
    }
}

impl<L: Lending, U: Drop, T: SchemaRead<L, Dst = U>> FromItems<L, T> for LinkedList<U> {
    ghost made = { λ ds l. l ≡ ds };

    fn from_items<R: Reader<L>>(
        alloc: Global,
        reader: &mut R,
        n: usize,
    ) -> ReadResult<LinkedList<U>> {
        gather_items::<LinkedList<U>, L, T, R>(alloc, reader, n)
    }
}

impl<L: Lending, U: Ord + Drop, T: SchemaRead<L, Dst = U>> FromItems<L, T> for BinaryHeap<U> {
    ghost made = { λ ds h. IsPermutation ds (heap_items h) };

    fn from_items<R: Reader<L>>(
        alloc: Global,
        reader: &mut R,
        n: usize,
    ) -> ReadResult<BinaryHeap<U>> {
        gather_items::<BinaryHeap<U>, L, T, R>(alloc, reader, n)
    }
}

impl<L: Lending, A: Ord + Drop, B: Drop, T: SchemaRead<L, Dst = (A, B)>> FromItems<L, T>
    for BTreeMap<A, B> {
    ghost made = { λ ds m. IsMapOf A.cmp ds m.entries };

    fn from_items<R: Reader<L>>(
        alloc: Global,
        reader: &mut R,
        n: usize,
    ) -> ReadResult<BTreeMap<A, B>> {
        gather_items::<BTreeMap<A, B>, L, T, R>(alloc, reader, n)
    }
}

impl<L: Lending, A: Eq + Hash + Drop, B: Drop, T: SchemaRead<L, Dst = (A, B)>> FromItems<L, T>
    for HashMap<A, B> {
    ghost made = { λ ds m. IsHashMapOf A.eq ds m.entries };

    fn from_items<R: Reader<L>>(
        alloc: Global,
        reader: &mut R,
        n: usize,
    ) -> ReadResult<HashMap<A, B>> {
        gather_items::<HashMap<A, B>, L, T, R>(alloc, reader, n)
    }
}

impl<L: Lending, A: Ord + Drop, T: SchemaRead<L, Dst = A>> FromItems<L, T> for BTreeSet<A> {
    ghost made = { λ ds s. IsSetOf A.cmp ds s.keys };

    fn from_items<R: Reader<L>>(
        alloc: Global,
        reader: &mut R,
        n: usize,
    ) -> ReadResult<BTreeSet<A>> {
        gather_items::<BTreeSet<A>, L, T, R>(alloc, reader, n)
    }
}

impl<L: Lending, A: Eq + Hash + Drop, T: SchemaRead<L, Dst = A>> FromItems<L, T> for HashSet<A> {
    ghost made = { λ ds s. IsHashSetOf A.eq ds s.keys };

    fn from_items<R: Reader<L>>(alloc: Global, reader: &mut R, n: usize) -> ReadResult<HashSet<A>> {
        gather_items::<HashSet<A>, L, T, R>(alloc, reader, n)
    }
}

/// Reads `n` items of this size, through one window of all of them where it is known.
#[inline]
fn get_run<C: FromItems<L, T>, L: Lending, T: SchemaRead<L>, R: Reader<L>>(
    alloc: Global,
    reader: &mut R,
    n: usize,
    size: ItemSize,
) -> ReadResult<C>
    requires size { IsReadItemSize T.reading size }
    ensures { MakeOutcome (run_read n size T.reading) T.model C.made (R.state reader.old) (R.state reader.new) result }
{
    if let ItemSize::Unknown = size {
        return C::from_items::<R>(alloc, reader, n);
    }
    match size.times(n) {
        Some(total) => {
            let mut window = reader.as_trusted_for(total)?;
            C::from_items::<ReadWindow<L>>(alloc, &mut window, n)
        }
        None => Err(read_length_encoding_overflow("usize::MAX")),
    }
}

/// Reads a list behind its length, of items of this size. Where the size is known, one window of all
/// items is taken before memory for them is asked for.
#[inline]
pub(crate) fn get_list_of<
    C: FromItems<L, T>,
    Len: SeqLen,
    L: Lending,
    T: SchemaRead<L>,
    R: Reader<L>,
>(alloc: Global, reader: &mut R, size: ItemSize) -> ReadResult<C>
    requires size { IsReadItemSize T.reading size }
    ensures { MakeOutcome (list_read_of Len.scheme 1 size T.reading) T.model C.made (R.state reader.old) (R.state reader.new) result }
{
    let n = Len::read::<L, R>(reader, T::prealloc_size())?;
    get_run::<C, L, T, R>(alloc, reader, n, size)
}

/// Reads a list behind its length.
#[inline]
pub fn get_list<C: FromItems<L, T>, Len: SeqLen, L: Lending, T: SchemaRead<L>, R: Reader<L>>(
    alloc: Global,
    reader: &mut R,
) -> ReadResult<C>
    ensures { MakeOutcome (list_read Len.scheme 1 T.reading) T.model C.made (R.state reader.old) (R.state reader.new) result }
{
    get_list_of::<C, Len, L, T, R>(alloc, reader, ItemSize::of(T::type_meta()))
}

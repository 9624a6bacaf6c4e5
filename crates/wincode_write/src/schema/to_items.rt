//! Writing items, one after another, and lists behind their length.
ghost use Rattle.std.specs.BTreeMap.{IsOrdered};
ghost use Rattle.std.specs.BinaryHeap.{heap_items};
ghost use Rattle.std.specs.HashMap.{IsUnique};
ghost use Rattle.std.specs.List.{IsDistinct};
ghost use Rattle.std.specs.List.Sorted.{IsStrictlySortedBy};
ghost use Rattle.std.specs.Prelude.{◌≡◌, ◌+◌, ◌≤◌, List, [], ◌∷◌, ◌++◌, ◌⊎◌, length, map, take, IfSome, IsNone, IsTrue, IfOk, IfErr};
ghost use Rattle.wincode_io.specs.Joins.{Each, total};
ghost use Rattle.wincode_base.specs.Lengths.{HasEncoding, LengthSizeRefused};
ghost use Rattle.wincode_base.specs.Lists.{item_write, items_write, each_write, parts_write, list_write_of, list_write, SizesRefused};
ghost use Rattle.wincode_base.specs.Outcomes.{IsSized, IsEncoded, SizeRefused, WriteOutcome, Wrote, WriteRefused, Stopped};
ghost use Rattle.wincode_base.specs.declared.meta.TypeMeta.TheVariants.{Dynamic};
ghost use Rattle.wincode_collect.specs.Seen.{sees};
ghost use Rattle.wincode_base.specs.Pairs.{pair_write};
ghost use Rattle.wincode_base.specs.ItemSizes.{IsWriteItemSize};

use crate::schema::SchemaWrite;
use crate::schema::encoded::{short_size, write_item};
use crate::schema::runs::encode_first;
use crate::schema::tuples::{encode_front_members_2, size_of_members_2};
use std::collections::{BTreeMap, BTreeSet, BinaryHeap, HashMap, HashSet, LinkedList, VecDeque};
use std::hash::Hash;
use wincode_base::error::{WriteResult, write_length_encoding_overflow};
use wincode_base::len::SeqLen;
use wincode_base::meta::TypeMeta;
use wincode_base::parts::{Member, Members2};
use wincode_base::sizes::{ItemSize, checked_sum, joined_size};
use wincode_io::{WriteWindow, Writer};

/// How many bytes of pairs are put together at a time.
const BLOCK: usize = 1024;

/// How many bytes of other encodings are put together at a time.
const RUN: usize = 2048;

/// How many items go as their schema writes them, once two that follow each other were not put together.
const APART: usize = 64;

/// The longest byte form, in bytes, of which many are written by the schema's own `write_items`.
const SMALL: usize = 16;

/// How many items are written one by one, where a block for them costs more.
const FEW: usize = 4;

/// Items that are gone over in order, by reference.
pub trait ToItems<T: SchemaWrite> {
    // Its items, in that order.
    ghost listed: { Self → List T.Src };

    // What holds of each such collection.
    ghost sound: { Self → Type 0 };

    /// How many there are.
    fn count(&self) -> usize
        ensures count { result ≡ length (listed self.now) }
        ensures sound { sound self.now };

    /// Their sizes, added to the size of what stands before them.
    fn add_sizes(&self, before: usize) -> WriteResult<usize>
        ensures ok { IfOk result (λ n. Each T.writing.can (map T.model (listed self.now)) × (n ≡ before + total T.writing.size (map T.model (listed self.now)))) }
        ensures err { IfErr result (SizesRefused before T.writing (map T.model (listed self.now))) };

    /// Writes them, one after another.
    fn write_to<W: Writer>(&self, writer: &mut W) -> WriteResult<()>
        ensures { WriteOutcome (items_write T.writing) (W.state writer.old) (W.state writer.new) (map T.model (listed self.now)) (Each T.is_valid (listed self.now)) result };
}

/// The sizes of `n` items, added to the size of what stands before them, where they are known without
/// looking at the items.
#[inline(always)]
fn sizes_alike<T: SchemaWrite>(before: usize, n: usize) -> Option<WriteResult<usize>>
    ensures { IfSome result (λ r. (items : List T.Src) → length items ≡ n
        → IfOk r (λ m. Each T.writing.can (map T.model items) × (m ≡ before + total T.writing.size (map T.model items)))
        × IfErr r (SizesRefused before T.writing (map T.model items))) }
{
    let size = T::known_size()?;
    match n.checked_mul(size) {
        Some(total) => Some(checked_sum(before, total)),
        None => Some(Err(write_length_encoding_overflow("usize::MAX"))),
    }
}

/// Writes items, each as its schema writes it.
pub(crate) fn write_apart<T: SchemaWrite, W: Writer>(
    writer: &mut W,
    items: &[T::Src],
) -> WriteResult<()>
    ensures { WriteOutcome (each_write T.writing) (W.state writer.old) (W.state writer.new) (map T.model items.now) (Each T.is_valid items.now) result }
{
    for item in items {
        T::write(writer, item)?;
    }
    Ok(())
}

/// As `write_at_once` of the schema, of items of at most 16 bytes each.
#[inline(always)]
fn write_short<T: SchemaWrite, W: Writer>(
    writer: &mut W,
    items: &[T::Src],
) -> Option<WriteResult<()>>
    ensures done { IfSome result (λ r. WriteOutcome (items_write T.writing) (W.state writer.old) (W.state writer.new) (map T.model items.now) (Each T.is_valid items.now) r) }
    ensures left { IsNone result → W.state writer.new ≡ W.state writer.old }
{
    // No effect at run time: the proof reads what it holds from this use of it.
    let _ = &*writer;
    match T::type_meta() {
        TypeMeta::Static { size, .. } if size <= SMALL => T::write_at_once::<W>(writer, items),
        _ => None,
    }
}

/// Whether the items are byte forms, of at most 16 bytes each.
#[inline(always)]
fn is_short_form<T: SchemaWrite>() -> bool {
    match T::type_meta() {
        TypeMeta::Static { size, zero_copy } => zero_copy && size <= SMALL,
        TypeMeta::Dynamic => false,
    }
}

/// Short ones go at once where their schema writes them so. More than a few that are put together are written a block at a
/// time, for which the writer has room at hand, and others as their schema writes them, those too whose form is as short as
/// in memory.
impl<'a, U: 'a, T: SchemaWrite<Src = U>> ToItems<T> for &'a [U] {
    ghost listed = { λ s. s.now };

    ghost sound = { λ s. Unit {0} };

    fn count(&self) -> usize {
        self.len()
    }

    #[inline]
    fn add_sizes(&self, before: usize) -> WriteResult<usize> {
        let items: &[U] = *self;
        if let Some(sum) = sizes_alike::<T>(before, items.len()) {
            return sum;
        }
        let mut sum = before;
        for item in items {
            sum = joined_size(Ok(sum), T::size_of(item))?;
        }
        Ok(sum)
    }

    fn write_to<W: Writer>(&self, writer: &mut W) -> WriteResult<()> {
        let items: &[U] = *self;
        if let Some(result) = write_short::<T, W>(writer, items) {
            return result;
        }
        if items.len() <= FEW || is_short_form::<T>() {
            return T::write_items::<W>(writer, items);
        }
        let mut block = [0; RUN];
        let mut rest = items;
        let mut apart = 1;
        while !rest.is_empty() {
            let room = writer.room_at_hand().min(RUN);
            let (count, filled) = encode_first::<T>(rest, &mut block[..room]);
            if count == 0 {
                let (run, more) = rest.split_at(rest.len().min(apart));
                T::write_items::<W>(writer, run)?;
                rest = more;
                apart = APART;
            } else {
                writer.write_ready(&block[..filled]);
                let (_written, more) = rest.split_at(count);
                rest = more;
                apart = 1;
            }
        }
        Ok(())
    }
}

/// From front to back, wherever they lie in memory.
impl<U, T: SchemaWrite<Src = U>> ToItems<T> for VecDeque<U> {
    ghost listed = { λ q. q.items };

    ghost sound = { λ q. Unit {0} };

    fn count(&self) -> usize {
        self.len()
    }

    fn add_sizes(&self, before: usize) -> WriteResult<usize> {
        let (front, back) = self.as_slices();
        let sum = ToItems::<T>::add_sizes(&front, before)?;
        ToItems::<T>::add_sizes(&back, sum)
    }

    fn write_to<W: Writer>(&self, writer: &mut W) -> WriteResult<()> {
        let (front, back) = self.as_slices();
        ToItems::<T>::write_to::<W>(&front, writer)?;
        ToItems::<T>::write_to::<W>(&back, writer)
    }
}

impl<U, T: SchemaWrite<Src = U>> ToItems<T> for LinkedList<U> {
    ghost listed = { λ l. l };

    ghost sound = { λ l. Unit {0} };

    fn count(&self) -> usize {
        self.len()
    }

    fn add_sizes(&self, before: usize) -> WriteResult<usize> {
        let mut sum = before;
        for item in self {
            sum = joined_size(Ok(sum), T::size_of(item))?;
        }
        Ok(sum)
    }

    fn write_to<W: Writer>(&self, writer: &mut W) -> WriteResult<()> {
        for item in self {
            write_item::<T, W>(writer, item)?;
        }
        Ok(())
    }
}

/// In the order in which the heap keeps them.
impl<U: Ord, T: SchemaWrite<Src = U>> ToItems<T> for BinaryHeap<U> {
    ghost listed = { heap_items };

    ghost sound = { λ h. Unit {0} };

    fn count(&self) -> usize {
        self.as_slice().len()
    }

    fn add_sizes(&self, before: usize) -> WriteResult<usize> {
        ToItems::<T>::add_sizes(&self.as_slice(), before)
    }

    fn write_to<W: Writer>(&self, writer: &mut W) -> WriteResult<()> {
        ToItems::<T>::write_to::<W>(&self.as_slice(), writer)
    }
}

/// In the order of the keys.
impl<A: Ord, B, K: SchemaWrite<Src = A>, V: SchemaWrite<Src = B>> ToItems<Members2<K, V>>
    for BTreeMap<A, B> {
    ghost listed = { λ m. m.entries };

    ghost sound = { IsOrdered A.cmp };

    fn count(&self) -> usize {
        self.len()
    }

    fn add_sizes(&self, before: usize) -> WriteResult<usize> {
        if let Some(sum) = sizes_alike::<Members2<K, V>>(before, self.len()) {
            return sum;
        }
        let mut sum = before;
        for (key, value) in self {
            sum = joined_size(Ok(sum), size_of_members_2::<K, V>(key, value))?;
        }
        Ok(sum)
    }

    fn write_to<W: Writer>(&self, writer: &mut W) -> WriteResult<()> {
        if let Some(size) = short_size::<Members2<K, V>>() {
            return write_sorted::<K, V, W>(writer, self, size);
        }
        for (key, value) in self {
            write_pair::<K, V, W>(writer, key, value)?;
        }
        Ok(())
    }
}

impl<A: Eq + Hash, B, K: SchemaWrite<Src = A>, V: SchemaWrite<Src = B>> ToItems<Members2<K, V>>
    for HashMap<A, B> {
    ghost listed = { λ m. m.entries };

    ghost sound = { IsUnique A.eq };

    fn count(&self) -> usize {
        self.len()
    }

    fn add_sizes(&self, before: usize) -> WriteResult<usize> {
        if let Some(sum) = sizes_alike::<Members2<K, V>>(before, self.len()) {
            return sum;
        }
        let mut sum = before;
        for (key, value) in self {
            sum = joined_size(Ok(sum), size_of_members_2::<K, V>(key, value))?;
        }
        Ok(sum)
    }

    fn write_to<W: Writer>(&self, writer: &mut W) -> WriteResult<()> {
        for (key, value) in self {
            write_pair::<K, V, W>(writer, key, value)?;
        }
        Ok(())
    }
}

/// In order.
impl<A: Ord, K: SchemaWrite<Src = A>> ToItems<K> for BTreeSet<A> {
    ghost listed = { λ s. s.keys };

    ghost sound = { λ s. IsStrictlySortedBy A.cmp s.keys };

    fn count(&self) -> usize {
        self.len()
    }

    fn add_sizes(&self, before: usize) -> WriteResult<usize> {
        let mut sum = before;
        for key in self {
            sum = joined_size(Ok(sum), K::size_of(key))?;
        }
        Ok(sum)
    }

    fn write_to<W: Writer>(&self, writer: &mut W) -> WriteResult<()> {
        for key in self {
            write_item::<K, W>(writer, key)?;
        }
        Ok(())
    }
}

impl<A: Eq + Hash, K: SchemaWrite<Src = A>> ToItems<K> for HashSet<A> {
    ghost listed = { λ s. s.keys };

    ghost sound = { λ s. IsDistinct A.eq s.keys };

    fn count(&self) -> usize {
        self.len()
    }

    fn add_sizes(&self, before: usize) -> WriteResult<usize> {
        let mut sum = before;
        for key in self {
            sum = joined_size(Ok(sum), K::size_of(key))?;
        }
        Ok(sum)
    }

    fn write_to<W: Writer>(&self, writer: &mut W) -> WriteResult<()> {
        for key in self {
            write_item::<K, W>(writer, key)?;
        }
        Ok(())
    }
}

/// Writes pairs of one size of so many bytes, in the order of their keys, a block at a time.
#[inline(always)]
fn write_sorted<K: SchemaWrite, V: SchemaWrite, W: Writer>(
    writer: &mut W,
    pairs: &BTreeMap<K::Src, V::Src>,
    size: usize,
) -> WriteResult<()>
where
    K::Src: Ord,
    requires one_size { (pair_write K.writing V.writing).meta ≡ Dynamic → ⊥ }
    requires size { size ≤ 1024 }
    ensures { WriteOutcome (items_write (pair_write K.writing V.writing)) (W.state writer.old) (W.state writer.new) (map (sees K.model V.model) pairs.now.entries)
        (Each (λ e. K.is_valid e.0 × V.is_valid e.1) pairs.now.entries) result }
{
    let mut block = [0; BLOCK];
    let mut filled = 0;
    for (key, value) in pairs {
        filled = put_pair::<K, V, W>(writer, key, value, &mut block, filled, size)?;
    }
    writer.write(&block[..filled])?;
    Ok(())
}

/// Puts a pair behind those at the front of the block, and answers how much of it is then filled. It is written
/// once it has no place for one more, and, with the pair behind it, where that is not put together.
#[inline(always)]
fn put_pair<K: SchemaWrite, V: SchemaWrite, W: Writer>(
    writer: &mut W,
    key: &K::Src,
    value: &V::Src,
    block: &mut [u8; BLOCK],
    filled: usize,
    size: usize,
) -> WriteResult<usize>
    requires one_size { (pair_write K.writing V.writing).meta ≡ Dynamic → ⊥ }
    requires fits { filled + size ≤ 1024 }
    ensures place { IfOk result (λ n. n + size ≤ 1024) }
    ensures ok { let items = items_write (pair_write K.writing V.writing) in
        IfOk result (λ n. (es : List (K.Src × V.Src)) → IsEncoded items (map (sees K.model V.model) es) (take filled block.old) → Each (λ e. K.is_valid e.0 × V.is_valid e.1) es
        → (K.is_valid key.now × V.is_valid value.now)
        × (((n ≡ 0) × Wrote items (W.state writer.old) (W.state writer.new) (map (sees K.model V.model) (es ++ ((key.now, value.now) ∷ []))))
        ⊎ ((W.state writer.new ≡ W.state writer.old) × IsEncoded items (map (sees K.model V.model) (es ++ ((key.now, value.now) ∷ []))) (take n block.new)))) }
    ensures err { let items = items_write (pair_write K.writing V.writing) in
        IfErr result (λ x. (es : List (K.Src × V.Src)) → IsEncoded items (map (sees K.model V.model) es) (take filled block.old) → Each (λ e. K.is_valid e.0 × V.is_valid e.1) es
        → WriteRefused items (W.state writer.old) (W.state writer.new) (map (sees K.model V.model) (es ++ ((key.now, value.now) ∷ []))) x
        × Stopped items (W.state writer.old) (W.state writer.new) (map (sees K.model V.model) (es ++ ((key.now, value.now) ∷ []))) x) }
{
    if !encode_pair::<K, V>(key, value, &mut block[filled..filled + size]) {
        write_behind::<K, V, W>(writer, &block[..filled], key, value)?;
        return Ok(0);
    }
    let behind = filled + size;
    if BLOCK - behind >= size {
        return Ok(behind);
    }
    writer.write(&block[..behind])?;
    Ok(0)
}

/// Writes what was put together of pairs, and then a pair that was not.
#[inline(always)]
fn write_behind<K: SchemaWrite, V: SchemaWrite, W: Writer>(
    writer: &mut W,
    bytes: &[u8],
    key: &K::Src,
    value: &V::Src,
) -> WriteResult<()>
    requires one_size { (pair_write K.writing V.writing).meta ≡ Dynamic → ⊥ }
    ensures { let items = items_write (pair_write K.writing V.writing) in
        (es : List (K.Src × V.Src)) → IsEncoded items (map (sees K.model V.model) es) bytes.now → Each (λ e. K.is_valid e.0 × V.is_valid e.1) es
        → WriteOutcome items (W.state writer.old) (W.state writer.new) (map (sees K.model V.model) (es ++ ((key.now, value.now) ∷ []))) (K.is_valid key.now × V.is_valid value.now) result }
{
    writer.write(bytes)?;
    write_pair::<K, V, W>(writer, key, value)
}

/// Puts an encoding of a key, and then of its value, over all of the bytes; or answers `false`.
#[inline(always)]
fn encode_pair<K: SchemaWrite, V: SchemaWrite>(key: &K::Src, value: &V::Src, dst: &mut [u8]) -> bool
    ensures { IsTrue result → IsEncoded (pair_write K.writing V.writing) (K.model key.now, V.model value.now) dst.new × (K.is_valid key.now × V.is_valid value.now) }
{
    match encode_front_members_2::<K, V>(key, value, dst) {
        Some(size) => size == dst.len(),
        None => false,
    }
}

/// Writes a key, and then its value, through no window of their own.
#[inline(always)]
fn write_pair<K: SchemaWrite, V: SchemaWrite, W: Writer>(
    writer: &mut W,
    key: &K::Src,
    value: &V::Src,
) -> WriteResult<()>
    ensures { WriteOutcome (item_write (pair_write K.writing V.writing)) (W.state writer.old) (W.state writer.new) (K.model key.now, V.model value.now)
        (K.is_valid key.now × V.is_valid value.now) result }
{
    write_members::<&Member<K>, &Member<V>, W>(writer, &(key, value))
}

/// Writes a pair, through no window of its own.
#[inline(always)]
fn write_members<A: SchemaWrite, B: SchemaWrite, W: Writer>(
    writer: &mut W,
    src: &(A::Src, B::Src),
) -> WriteResult<()>
    ensures { let members = ⟦<Members2<A, B> as SchemaWrite>⟧ in
        WriteOutcome (item_write members.writing) (W.state writer.old) (W.state writer.new) (members.model src.now) (members.is_valid src.now) result }
{
    write_item::<Members2<A, B>, W>(writer, src)
}

/// The size of a list of these items, in bytes. `COUNT` is what a list counts against the limit of a
/// list of lists.
#[inline]
pub fn size_of_list<Len: SeqLen, T: SchemaWrite, C: ToItems<T>, const COUNT: usize>(
    src: &C,
) -> WriteResult<usize>
    ensures ok { IfOk result (IsSized (list_write Len.scheme COUNT T.writing) (map T.model (C.listed src.now))) }
    ensures err { IfErr result (SizeRefused (list_write Len.scheme COUNT T.writing) (map T.model (C.listed src.now))) }
    ensures unencoded { (HasEncoding Len.scheme (length (C.listed src.now)) → ⊥) → IfErr result (LengthSizeRefused Len.scheme (length (C.listed src.now))) }
{
    let length = Len::write_bytes_needed(src.count())?;
    src.add_sizes(length)
}

/// Writes the length of a list, and then its items.
#[inline]
fn write_parts<Len: SeqLen, T: SchemaWrite, C: ToItems<T>, W: Writer, const COUNT: usize>(
    writer: &mut W,
    src: &C,
) -> WriteResult<()>
    ensures outcome { WriteOutcome (parts_write Len.scheme COUNT T.writing) (W.state writer.old) (W.state writer.new) (map T.model (C.listed src.now)) (Each T.is_valid (C.listed src.now)) result }
    ensures sound { C.sound src.now }
{
    Len::write::<W>(writer, src.count())?;
    src.write_to::<W>(writer)
}

/// Writes a list of items of this size, through one window of all of it where the size is known: then
/// it asks for the length's encoding, for the total and for the room, in this order.
#[inline]
pub fn write_list<Len: SeqLen, T: SchemaWrite, C: ToItems<T>, W: Writer, const COUNT: usize>(
    writer: &mut W,
    src: &C,
    size: ItemSize,
) -> WriteResult<()>
    requires size { IsWriteItemSize T.writing size }
    ensures outcome { WriteOutcome (list_write_of Len.scheme COUNT size T.writing) (W.state writer.old) (W.state writer.new) (map T.model (C.listed src.now))
        (Each T.is_valid (C.listed src.now)) result }
    ensures sound { C.sound src.now }
{
    if let ItemSize::Unknown = size {
        return write_parts::<Len, T, C, W, COUNT>(writer, src);
    }
    let n = src.count();
    let length = Len::write_bytes_needed(n)?;
    let total = match size.times_behind(length, n) {
        Some(total) => total,
        None => return Err(write_length_encoding_overflow("usize::MAX")),
    };
    writer.make_room(total)?;
    let mut window = WriteWindow::new(writer, total);
    write_parts::<Len, T, C, WriteWindow<'_, W>, COUNT>(&mut window, src)?;
    window.finish()?;
    Ok(())
}

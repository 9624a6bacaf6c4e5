//! How values of a type are read.
ghost use Rattle.std.specs.Prelude.{◌≡◌, ◌++◌, List, length, map, IfSome, IsNone, IsTrue};
ghost use Rattle.wincode_io.specs.Joins.{AreItems};
ghost use Rattle.wincode_base.specs.Grammar.{ReadGrammar, ReadLaws};
ghost use Rattle.wincode_base.specs.Lists.{AddOutcome};
ghost use Rattle.wincode_base.specs.Outcomes.{ReadOutcome, GetOutcome};

mod arrays;
mod as_forms;
mod at_hand;
mod bounds;
mod boxes;
pub mod from_items;
mod heaps;
mod in_window;
mod leaves;
mod lists;
mod made;
mod maps;
mod pod;
mod short;
mod strings;
pub mod tags;
mod tuples;
mod views;
mod wrapped;

use crate::schema::at_hand::{add_at_hand, add_decoded, add_each, read_over};
pub use crate::schema::leaves::read_bytes;
use std::alloc::Global;
use wincode_base::error::{ReadError, ReadResult};
use wincode_base::meta::TypeMeta;
use wincode_io::{Lending, Reader};

/// Reads values of a type.
pub trait SchemaRead<L: Lending> {
    type Dst: Drop;

    // What contracts see of a value.
    ghost Value: { Type 0 };

    ghost model: { Self.Dst → Value };

    // Which are its values.
    ghost is_valid: { Value → Type 0 };

    ghost reading: { ReadGrammar Value };

    /// The size that every encoding has, or none.
    fn type_meta() -> TypeMeta
        ensures { result ≡ reading.meta };

    /// What each value counts, in bytes, against the limit of a list of them; at least 1.
    fn prealloc_size() -> usize
        ensures { result ≡ reading.prealloc };

    /// Reads one value into the destination, where a front of what the reader has reads as it, and
    /// leaves exactly the rest. Refused, the destination is as it was, and the reader has an end of
    /// what it had.
    fn read<R: Reader<L>>(
        alloc: Global,
        reader: &mut R,
        dst: &mut Option<Self::Dst>,
    ) -> ReadResult<()>
        ensures { ReadOutcome reading model (R.state reader.old) (R.state reader.new) dst.old dst.new result };

    /// Reads `n` values at once and adds them to the list, and gives what this answers; or answers `None`, and has read
    /// nothing.
    #[inline(always)]
    fn read_at_once<R: Reader<L>>(
        alloc: Global,
        reader: &mut R,
        n: usize,
        into: &mut Vec<Self::Dst>,
    ) -> Option<ReadResult<()>>
        ensures done { IfSome result (λ r. AddOutcome n reading model (R.state reader.old) (R.state reader.new) into.old.items into.new.items r) }
        ensures left { IsNone result → R.state reader.new ≡ R.state reader.old }
        ensures same { IsNone result → into.new.items ≡ into.old.items }
    {
        let _ = (alloc, n);
        let _ = &*reader;
        let _ = &*into;
        None
    }

    /// Some value to begin with, where the schema decodes values over others. What it is does not matter.
    #[inline(always)]
    fn blank() -> Option<Self::Dst> {
        None
    }

    /// Puts the value that reads from all of the bytes into the place, and answers whether it did: a
    /// schema need not, and says nothing of why. Where it did not, any value may be there.
    #[inline(always)]
    fn decode(bytes: &[u8], place: &mut Self::Dst) -> bool
        ensures { IsTrue result → reading.reads bytes.now (model place.new) }
    {
        let _ = bytes.len();
        let _ = &*place;
        false
    }

    /// As `decode`, a value for each place, whose encodings stand one after another.
    #[inline(always)]
    final fn take_over(bytes: &[u8], places: &mut [Self::Dst]) -> bool
        ensures { IsTrue result → AreItems (length places.old) reading.reads bytes.now (map model places.new) }
    {
        let TypeMeta::Static { size, .. } = Self::type_meta() else {
            return false;
        };
        match places.len().checked_mul(size) {
            Some(total) if total == bytes.len() => (),
            _ => return false,
        }
        for i in 0..places.len() {
            let at = i * size;
            if !Self::decode(&bytes[at..at + size], &mut places[i]) {
                return false;
            }
        }
        true
    }

    /// As `take_over`, and adds the `n` values to the list; where it answers that it did not, any
    /// number of values may have been added.
    #[inline(always)]
    final fn take_items(bytes: &[u8], n: usize, into: &mut Vec<Self::Dst>) -> bool
        ensures { (ds : List Self.Dst) × (into.new.items ≡ into.old.items ++ ds) × (IsTrue result → AreItems n reading.reads bytes.now (map model ds)) }
    {
        let TypeMeta::Static { size, .. } = Self::type_meta() else {
            return false;
        };
        let mut rest = bytes;
        for _i in 0..n {
            if rest.len() < size {
                return false;
            }
            let (front, back) = rest.split_at(size);
            if !add_decoded::<L, Self>(front, into) {
                return false;
            }
            rest = back;
        }
        rest.is_empty()
    }

    /// Reads `n` values, one after another, and adds them to the list. Refused, the list holds what it
    /// held, and the reader has an end of what it had.
    final fn read_items<R: Reader<L>>(
        alloc: Global,
        reader: &mut R,
        n: usize,
        into: &mut Vec<Self::Dst>,
    ) -> ReadResult<()>
        ensures { AddOutcome n reading model (R.state reader.old) (R.state reader.new) into.old.items into.new.items result }
    {
        if let Some(result) = Self::read_at_once::<R>(alloc, reader, n, into) {
            return result;
        }
        let before = into.len();
        if into.reserve(n).is_err() {
            return Err(ReadError::OutOfMemory);
        }
        if add_at_hand::<L, Self, R>(reader, n, into) {
            return Ok(());
        }
        match add_each::<L, Self, R>(alloc, reader, n, into) {
            Ok(()) => Ok(()),
            Err(error) => {
                into.truncate(before);
                Err(error)
            }
        }
    }

    ghost read_laws: { ReadLaws is_valid reading };
}

/// `get`, for every schema. It is no method of `SchemaRead`, which an implementation has to meet at its
/// own types: beside an error that names a lifetime, the borrow checker takes no array whose length is
/// a parameter.
pub trait SchemaGet<L: Lending>: SchemaRead<L> {
    /// As `read`, and gives the value: by one look at the bytes at hand, where they are all there and its schema decodes it.
    fn get<R: Reader<L>>(alloc: Global, reader: &mut R) -> ReadResult<Self::Dst>
        ensures { GetOutcome Self.SchemaRead.reading Self.SchemaRead.model (R.state reader.old) (R.state reader.new) result };
}

impl<L: Lending, T: SchemaRead<L>> SchemaGet<L> for T {
    #[inline(always)]
    fn get<R: Reader<L>>(alloc: Global, reader: &mut R) -> ReadResult<T::Dst> {
        if let Some(mut value) = T::blank() {
            if read_over::<L, T, R>(reader, &mut value) {
                return Ok(value);
            }
        }
        let mut dst = None;
        T::read(alloc, reader, &mut dst)?;
        match dst {
            Some(value) => Ok(value),
            None => unreachable!(),
        }
    }
}

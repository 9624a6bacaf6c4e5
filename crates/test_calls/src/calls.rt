//! The calls that most programs make: each kind of input, and the end of a piece of writing.
ghost use Rattle.std.specs.Prelude.{ℕ, ◌-◌, min, List, length, ◌++◌, true, vec_capacity};
ghost use Rattle.wincode_io.specs.Writers.{in_memory, byte_limit};
ghost use Rattle.wincode_io.specs.WriterLaws.{append_laws, min_right};

use crate::values::{NESTED, nested};
use std::alloc::Global;
use std::collections::{BTreeMap, BinaryHeap, HashMap, LinkedList, VecDeque};
use std::test::Fail;
use wincode::io::{self, Input, Trace, WriteResult, Writer, ZeroCopy};
use wincode::{ReadResult, SchemaRead, SchemaWrite, WriteError, deserialize, serialize_into};

/// Whether the bytes are read as this value.
fn is_read<I: Input, T: SchemaRead<I::Lends, Dst = T> + Drop + PartialEq>(
    alloc: Global,
    bytes: I,
    due: &T,
) -> ReadResult<bool> {
    let value = deserialize::<I, T>(alloc, bytes)?;
    Ok(value == *due)
}

/// A slice, a vector, an array and a slice for writing.
#[test]
fn inputs_of_each_kind(rt: HostRuntime) -> Result<(), Fail> {
    let alloc = rt.alloc();
    let bytes = [1u8, 0, 0, 0, 0, 0, 0, 0, 3, 2, 9];
    let due = vec![in alloc; 515u16]?;
    let mut owned = Vec::from_slice(alloc, bytes.as_slice())?;
    let slice = is_read(alloc, bytes.as_slice(), &due)?;
    let vector = is_read(alloc, &owned, &due)?;
    let array = is_read(alloc, &bytes, &due)?;
    let lent = is_read(alloc, owned.as_mut_slice(), &due)?;
    assert!(rt; [slice, vector, array, lent] == [true; 4]);
    Ok(())
}

/// Appends to a vector, counts calls of `finish`, and refuses them all if it is told to.
#[derive(Drop)]
struct Ending {
    bytes: Vec<u8>,
    ended: usize,
    /// A byte for each of these calls.
    ends: Trace,
    refuses: bool,
}

impl Writer for Ending {
    ghost Content = { List ℕ };

    ghost put = { λ s a. s ++ a };

    ghost room = { λ s. byte_limit - length s };

    ghost Kept = { Unit };

    ghost state = { λ c. record (in_memory c.bytes.items tt (min (vec_capacity c.bytes - length c.bytes.items) (byte_limit - length c.bytes.items))) { finishes = length c.ends.bytes } };

    ghost buffers = { true };

    fn make_room(&mut self, n: usize) -> WriteResult<()> {
        if usize::MAX - self.bytes.len() < n {
            return Err(io::WriteError::WriteSizeLimit(n));
        }
        if self.bytes.reserve(n).is_err() {
            return Err(io::WriteError::OutOfMemory);
        }
        Ok(())
    }

    fn write_ready(&mut self, src: &[u8]) {
        self.bytes.write_ready(src);
    }

    fn write_ready_t<T: ZeroCopy>(&mut self, src: &T) {
        self.bytes.write_ready_t(src);
    }

    fn finish(&mut self) -> WriteResult<()> {
        self.ended = self.ended.saturating_add(1);
        self.ends.note(&[0]);
        if self.refuses {
            Err(io::WriteError::OutOfMemory)
        } else {
            Ok(())
        }
    }

    ghost writer_laws = { append_laws };

    ghost ready_room = { λ c. min_right (vec_capacity c.bytes - length c.bytes.items) (byte_limit - length c.bytes.items) };
}

#[test]
fn a_piece_of_writing_ends_once(rt: HostRuntime) -> Result<(), Fail> {
    let alloc = rt.alloc();
    let lists = nested(alloc)?;
    for refuses in [false, true] {
        let mut writer = Ending {
            bytes: Vec::new(alloc),
            ended: 0,
            ends: Trace::new(),
            refuses,
        };
        let answer = serialize_into(&mut writer, &lists);
        let is_refused = matches!(&answer, Err(WriteError::Io(io::WriteError::OutOfMemory)));
        let found = (
            writer.ended,
            writer.bytes.as_slice(),
            answer.is_ok(),
            is_refused,
        );
        assert!(rt; found == (1, NESTED.as_slice(), !refuses, refuses));
    }
    Ok(())
}

/// Whether no piece of writing ends in the writing of the value by its schema, and one does by the call.
fn ends_once<T: SchemaWrite<Src = T>>(alloc: Global, value: &T) -> Result<bool, Fail> {
    let mut writer = Ending {
        bytes: Vec::new(alloc),
        ended: 0,
        ends: Trace::new(),
        refuses: false,
    };
    T::write(&mut writer, value)?;
    let by_schema = writer.ended;
    serialize_into(&mut writer, value)?;
    Ok(by_schema == 0 && writer.ended == 1)
}

#[test]
fn parts_end_no_piece_of_writing(rt: HostRuntime) -> Result<(), Fail> {
    let alloc = rt.alloc();
    for (letter, side) in [(Some('c'), Ok(7u8)), (None, Err(258u16))] {
        let text = String::from_str(alloc, "ab")?;
        let parts = (text, [1u8, 2, 3], letter, side, Box::new(alloc, 258u32)?);
        assert!(rt; ends_once(alloc, &parts)?);
    }
    Ok(())
}

/// So of a map of queues.
fn map_ends_once(alloc: Global) -> Result<bool, Fail> {
    let mut map = BTreeMap::new(alloc);
    for item in [1u8, 2] {
        let mut queue = VecDeque::new(alloc);
        queue.push_back(item)?;
        map.insert(item, queue)?;
    }
    ends_once(alloc, &map)
}

/// So of a hashed map of lists.
fn hashed_map_ends_once(alloc: Global) -> Result<bool, Fail> {
    let mut hashed = HashMap::new(alloc);
    for item in [1u8, 2] {
        let mut list = LinkedList::new(alloc);
        list.push_back(Some(item))?;
        hashed.insert(item, list)?;
    }
    ends_once(alloc, &hashed)
}

/// So of a heap.
fn heap_ends_once(alloc: Global) -> Result<bool, Fail> {
    let mut heap = BinaryHeap::new(alloc);
    for item in [1u8, 2] {
        heap.push(item)?;
    }
    ends_once(alloc, &heap)
}

/// A map of queues, a hashed map of lists, a heap, and a list of lists.
#[test]
fn collections_end_no_piece_of_writing(rt: HostRuntime) -> Result<(), Fail> {
    let alloc = rt.alloc();
    let map = map_ends_once(alloc)?;
    let hashed = hashed_map_ends_once(alloc)?;
    let heap = heap_ends_once(alloc)?;
    let lists = ends_once(alloc, &nested(alloc)?)?;
    assert!(rt; [map, hashed, heap, lists] == [true; 4]);
    Ok(())
}

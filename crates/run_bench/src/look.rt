//! Looking at a value, so that no run can leave it out.
use crate::made::{Record, Sample};
use example_schemas::event::Event;
use example_schemas::message::Message;
use std::collections::{BTreeMap, HashMap, VecDeque};
use std::num;

/// A value that is looked at.
pub trait Look {
    /// Something of the last part of the value, and of each part that has a length of its own.
    fn look(&self) -> u64;

    /// The lengths that the value and its parts have of their own, added. What is of one size has none.
    fn lengths(&self) -> u64 {
        0
    }
}

/// Something of the last item, and of each that has a length of its own.
pub fn look_at_all<T: Look>(items: &[T]) -> u64 {
    let last = match items.last() {
        Some(last) => last.look(),
        None => 0,
    };
    last.wrapping_add(lengths_of(items))
}

/// How many items there are, and the lengths that they have of their own, added.
fn lengths_of<T: Look>(items: &[T]) -> u64 {
    let mut sum = items.len() as u64;
    for item in items {
        sum = sum.wrapping_add(item.lengths());
    }
    sum
}

/// What is seen of the values, added.
pub fn seen_of<T: Look>(values: &[T]) -> u64 {
    let mut sum = 0u64;
    for value in values {
        sum = sum.wrapping_add(value.look());
    }
    sum
}

impl Look for u8 {
    fn look(&self) -> u64 {
        u64::from(*self)
    }
}

impl Look for u32 {
    fn look(&self) -> u64 {
        u64::from(*self)
    }
}

impl Look for u64 {
    fn look(&self) -> u64 {
        *self
    }
}

impl Look for f64 {
    fn look(&self) -> u64 {
        num::saturating_f64_to_u64(*self)
    }
}

impl Look for [u8; 32] {
    fn look(&self) -> u64 {
        u64::from(self[31])
    }
}

impl Look for Sample {
    fn look(&self) -> u64 {
        self.number
            .wrapping_add(u64::from(self.is_marked))
            .wrapping_add(u64::from_le_bytes(self.bytes))
    }
}

impl Look for Record {
    fn look(&self) -> u64 {
        self.0
            .wrapping_add(u64::from(self.1))
            .wrapping_add(self.2.look())
    }
}

impl<A: Look, B: Look> Look for (A, B) {
    fn look(&self) -> u64 {
        self.0.look().wrapping_add(self.1.look())
    }

    fn lengths(&self) -> u64 {
        self.0.lengths().wrapping_add(self.1.lengths())
    }
}

impl<T: Look> Look for Option<T> {
    fn look(&self) -> u64 {
        match self {
            Some(value) => value.look().wrapping_add(1),
            None => 0,
        }
    }

    fn lengths(&self) -> u64 {
        match self {
            Some(value) => value.lengths().wrapping_add(1),
            None => 0,
        }
    }
}

impl<T: Look, E: Look> Look for Result<T, E> {
    fn look(&self) -> u64 {
        match self {
            Ok(value) => value.look().wrapping_add(1),
            Err(error) => error.look(),
        }
    }

    fn lengths(&self) -> u64 {
        match self {
            Ok(value) => value.lengths(),
            Err(error) => error.lengths(),
        }
    }
}

impl Look for String {
    fn look(&self) -> u64 {
        look_at_all(self.as_bytes())
    }

    fn lengths(&self) -> u64 {
        self.len() as u64
    }
}

impl<T: Look> Look for Vec<T> {
    fn look(&self) -> u64 {
        look_at_all(self.as_slice())
    }

    fn lengths(&self) -> u64 {
        lengths_of(self.as_slice())
    }
}

impl Look for VecDeque<u64> {
    fn look(&self) -> u64 {
        match self.back() {
            Some(last) => last.wrapping_add(self.len() as u64),
            None => 0,
        }
    }
}

impl Look for BTreeMap<u64, u64> {
    fn look(&self) -> u64 {
        match self.last_key_value() {
            Some((_, value)) => value.wrapping_add(self.len() as u64),
            None => 0,
        }
    }
}

impl Look for HashMap<u64, u64> {
    fn look(&self) -> u64 {
        self.len() as u64
    }
}

impl Look for Event {
    fn look(&self) -> u64 {
        match self {
            Event::Named { name, id } => name.look().wrapping_add(*id),
            Event::Blob(name, bytes) => name.look().wrapping_add(bytes.look()),
            Event::Empty => 1,
        }
    }

    fn lengths(&self) -> u64 {
        match self {
            Event::Named { name, id: _ } => name.lengths(),
            Event::Blob(name, bytes) => name.lengths().wrapping_add(bytes.len() as u64),
            Event::Empty => 1,
        }
    }
}

impl Look for Message {
    fn look(&self) -> u64 {
        self.id
            .wrapping_add(self.tags.look())
            .wrapping_add(self.note.look())
    }
}

//! What is read and written, made of numbers, so that no two values of a list are alike.
ghost use Rattle.std.proofs.Common.{ap};

use crate::timing::Failure;
use example_schemas::event::Event;
use example_schemas::message::Message;
use std::alloc::Global;
use std::collections::{BTreeMap, HashMap, VecDeque};
use std::num;
use wincode::io::Writer;
use wincode::schema::tuples::{encode_front_members_3, size_of_members_3, write_members_3};
use wincode::{Shape, WriteResult};

/// What is made of a number. What has a length takes the first of these lengths, and its parts those behind it.
pub trait Made: Drop {
    fn made(alloc: Global, number: u64, lengths: &[u64]) -> Result<Self, Failure>;
}

/// The first of the lengths, and those behind it.
fn outer(lengths: &[u64]) -> (u64, &[u64]) {
    match lengths {
        [first, rest @ ..] => (*first, rest),
        [] => (0, lengths),
    }
}

/// A number, a boolean and bytes.
pub type Record = (u64, bool, [u8; 32]);

/// A small struct of one size.
#[derive(Debug, Drop)]
pub struct Sample {
    pub number: u64,
    pub is_marked: bool,
    pub bytes: [u8; 8],
}

impl Shape for Sample {
    type Parts = (u64, bool, [u8; 8]);

    type As = (u64, bool, [u8; 8]);

    ghost parts = { λ s. (s.number, s.is_marked, s.bytes) };

    ghost parts_tell = { λ x y same. ap (λ p. record { number = p.0; is_marked = p.1; bytes = p.2 }) same };

    fn make(made_of: Self::Parts) -> Sample {
        let (number, is_marked, bytes) = made_of;
        Sample {
            number,
            is_marked,
            bytes,
        }
    }

    fn parts_size(&self) -> WriteResult<usize> {
        size_of_members_3::<u64, bool, [u8; 8]>(&self.number, &self.is_marked, &self.bytes)
    }

    fn write_parts<W: Writer>(&self, writer: &mut W) -> WriteResult<()> {
        write_members_3::<u64, bool, [u8; 8], W>(writer, &self.number, &self.is_marked, &self.bytes)
    }

    fn encode_parts(&self, dst: &mut [u8]) -> Option<usize> {
        encode_front_members_3::<u64, bool, [u8; 8]>(
            &self.number,
            &self.is_marked,
            &self.bytes,
            dst,
        )
    }
}

impl Made for Sample {
    fn made(_alloc: Global, number: u64, _lengths: &[u64]) -> Result<Sample, Failure> {
        Ok(Sample {
            number,
            is_marked: number % 3 == 0,
            bytes: number.wrapping_mul(7).to_le_bytes(),
        })
    }
}

impl Made for u8 {
    fn made(_alloc: Global, number: u64, _lengths: &[u64]) -> Result<u8, Failure> {
        Ok((number % 256) as u8)
    }
}

impl Made for u32 {
    fn made(_alloc: Global, number: u64, _lengths: &[u64]) -> Result<u32, Failure> {
        Ok((number % 4_294_967_296) as u32)
    }
}

impl Made for u64 {
    fn made(_alloc: Global, number: u64, _lengths: &[u64]) -> Result<u64, Failure> {
        Ok(number)
    }
}

impl Made for f64 {
    fn made(_alloc: Global, number: u64, _lengths: &[u64]) -> Result<f64, Failure> {
        Ok(num::nearest_u64_to_f64(number))
    }
}

/// Bytes that follow each other from the number's lowest on.
impl Made for [u8; 32] {
    fn made(_alloc: Global, number: u64, _lengths: &[u64]) -> Result<[u8; 32], Failure> {
        let mut bytes = [0u8; 32];
        let mut next = number;
        for byte in bytes.iter_mut() {
            *byte = (next % 256) as u8;
            next = next.wrapping_add(1);
        }
        Ok(bytes)
    }
}

impl Made for Record {
    fn made(alloc: Global, number: u64, lengths: &[u64]) -> Result<Record, Failure> {
        let bytes = <[u8; 32]>::made(alloc, number, lengths)?;
        Ok((number, number % 2 == 1, bytes))
    }
}

impl<A: Made, B: Made> Made for (A, B) {
    fn made(alloc: Global, number: u64, lengths: &[u64]) -> Result<(A, B), Failure> {
        let first = A::made(alloc, number, lengths)?;
        Ok((first, B::made(alloc, number, lengths)?))
    }
}

/// Every second one is there.
impl Made for Option<u64> {
    fn made(_alloc: Global, number: u64, _lengths: &[u64]) -> Result<Option<u64>, Failure> {
        Ok((number % 2 == 1).then_some(number))
    }
}

/// Every second one is an error.
impl Made for Result<u64, u64> {
    fn made(_alloc: Global, number: u64, _lengths: &[u64]) -> Result<Result<u64, u64>, Failure> {
        if number % 2 == 1 {
            Ok(Ok(number))
        } else {
            Ok(Err(number))
        }
    }
}

/// Letters that follow each other in the alphabet from the one that the number names.
impl Made for String {
    fn made(alloc: Global, number: u64, lengths: &[u64]) -> Result<String, Failure> {
        let mut text = String::new(alloc);
        for i in 0..outer(lengths).0 {
            let letter = b'a' + (number.wrapping_add(i) % 26) as u8;
            text.push(char::from(letter))?;
        }
        Ok(text)
    }
}

/// Items made of the numbers from this one on.
impl<T: Made> Made for Vec<T> {
    fn made(alloc: Global, number: u64, lengths: &[u64]) -> Result<Vec<T>, Failure> {
        let (count, inner) = outer(lengths);
        let mut list = Vec::new(alloc);
        for i in 0..count {
            list.push(T::made(alloc, number.wrapping_add(i), inner)?)?;
        }
        Ok(list)
    }
}

impl Made for VecDeque<u64> {
    fn made(alloc: Global, number: u64, lengths: &[u64]) -> Result<VecDeque<u64>, Failure> {
        let mut queue = VecDeque::new(alloc);
        for i in 0..outer(lengths).0 {
            queue.push_back(number.wrapping_add(i))?;
        }
        Ok(queue)
    }
}

/// Numbers in their order, each with one of its own.
impl Made for BTreeMap<u64, u64> {
    fn made(alloc: Global, number: u64, lengths: &[u64]) -> Result<BTreeMap<u64, u64>, Failure> {
        let mut pairs = BTreeMap::new(alloc);
        for i in 0..outer(lengths).0 {
            pairs.insert(number.wrapping_add(i), i)?;
        }
        Ok(pairs)
    }
}

impl Made for HashMap<u64, u64> {
    fn made(alloc: Global, number: u64, lengths: &[u64]) -> Result<HashMap<u64, u64>, Failure> {
        let mut pairs: HashMap<u64, u64> = HashMap::new(alloc);
        for i in 0..outer(lengths).0 {
            pairs.insert(number.wrapping_add(i), i)?;
        }
        Ok(pairs)
    }
}

/// Each case in turn.
impl Made for Event {
    fn made(alloc: Global, number: u64, _lengths: &[u64]) -> Result<Event, Failure> {
        if number % 3 == 2 {
            return Ok(Event::Empty);
        }
        let name = String::made(alloc, number, &[8])?;
        if number % 3 == 0 {
            return Ok(Event::Named { name, id: number });
        }
        Ok(Event::Blob(name, Vec::made(alloc, number, &[8])?))
    }
}

/// With four to seven tags, and every second one with a note.
impl Made for Message {
    fn made(alloc: Global, number: u64, _lengths: &[u64]) -> Result<Message, Failure> {
        let tags = Vec::made(alloc, number, &[4 + number % 4])?;
        let note = if number % 2 == 1 {
            Some(String::made(alloc, number, &[8])?)
        } else {
            None
        };
        Ok(Message {
            id: number,
            tags,
            note,
        })
    }
}

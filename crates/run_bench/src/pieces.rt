//! Values whose bytes come in pieces: in large ones, and a byte at a time.
ghost use Rattle.std.specs.Prelude.{[], false};
ghost use Rattle.std.specs.declared.io.ErrorKind.TheVariants.{Other};

use crate::arguments::Asked;
use crate::look::Look;
use crate::made::Made;
use crate::timing::{Failure, Rows, Unit, Work};
use crate::values::{Copying, end_of};
use std::alloc::Global;
use std::io;
use std::marker::PhantomData;
use std::rt::Clock;
use wincode::io::{Lifetime, Source, StreamReader};
use wincode::serde::Serialize;
use wincode::{ReadError, SchemaGet, SchemaRead, SchemaWrite};

/// The bytes of a slice, in pieces of at most this size.
#[derive(Drop)]
struct InPieces<'a> {
    rest: &'a [u8],
    size: usize,
}

impl Source for InPieces<'_> {
    ghost state = { λ p. record { coming = []; failures = 0; last = Other; is_known = false } };

    fn read_some(&mut self, buf: &mut [u8]) -> io::Result<usize> {
        let n = self.size.min(self.rest.len()).min(buf.len());
        let (piece, rest) = self.rest.split_at(n);
        buf[..n].copy_from_slice(piece);
        self.rest = rest;
        Ok(n)
    }
}

/// Reads a value whose bytes come in pieces.
#[derive(Drop)]
struct ReadingPieces<'a, S> {
    text: &'a [u8],
    size: usize,
    of: PhantomData<S>,
}

impl<T: Look, S: SchemaRead<Lifetime<'static>, Dst = T>> Work for ReadingPieces<'_, S> {
    fn run(&self, alloc: Global) -> Result<u64, Failure> {
        let (rest, size) = (self.text, self.size);
        let mut reader = StreamReader::new(alloc, InPieces { rest, size }).map_err(
            ReadError::from,
        )?;
        let value = <S as SchemaGet<Lifetime<'static>>>::get(alloc, &mut reader)?;
        Ok(value.look())
    }
}

/// Times a value of these lengths whose bytes come in large pieces, and one at a time, where the case was asked for.
pub fn time_pieces<
    T: Made + Look,
    S: SchemaWrite<Src = T> + SchemaRead<Lifetime<'static>, Dst = T>,
>(
    rt: &(impl Clock + Print + AllocGlobal),
    asked: &Asked,
    name: &str,
    lengths: &[u64],
) -> Result<(), Failure> {
    if !asked.has(name) {
        return Ok(());
    }
    let value = T::made(rt.alloc(), asked.first(), lengths)?;
    let bytes = <S as Serialize>::serialize(rt.alloc(), &value)?;
    let text = bytes.as_slice();
    let rows = Rows::beside(rt, name, Unit::Microseconds, &Copying(text), end_of(text))?;
    for (done, size) in [("in large pieces", 65_536), ("a byte at a time", 1)] {
        let of = PhantomData;
        let reading = ReadingPieces::<S> { text, size, of };
        rows.time(rt, done, &reading, value.look())?;
    }
    Ok(())
}

/// Asks a source for a byte at a time, to its end, and adds them.
#[derive(Drop)]
struct Asking<'a>(&'a [u8]);

impl Work for Asking<'_> {
    fn run(&self, _alloc: Global) -> Result<u64, Failure> {
        let (rest, size) = (self.0, 1);
        let mut pieces = InPieces { rest, size };
        let mut sum = 0u64;
        for _i in 0..self.0.len() {
            let mut byte = [0u8];
            let count = pieces.read_some(byte.as_mut_slice())?;
            sum = sum
                .wrapping_add(u64::from(byte[0]))
                .wrapping_add(count as u64);
        }
        Ok(sum)
    }
}

/// Times a source that is asked for so many bytes, one at a time, where the case was asked for.
pub fn time_asking(
    rt: &(impl Clock + Print + AllocGlobal),
    asked: &Asked,
    name: &str,
    count: u64,
) -> Result<(), Failure> {
    if !asked.has(name) {
        return Ok(());
    }
    let list = Vec::<u8>::made(rt.alloc(), asked.first(), &[count])?;
    let bytes = list.as_slice();
    let mut due = bytes.len() as u64;
    for byte in bytes {
        due = due.wrapping_add(u64::from(*byte));
    }
    let rows = Rows::beside(rt, name, Unit::Microseconds, &Copying(bytes), end_of(bytes))?;
    rows.time(rt, "asked for", &Asking(bytes), due)
}

//! Small values, each of which is read from a slice of its own, serialized, and written over one slice.
use crate::arguments::Asked;
use crate::look::{Look, look_at_all, seen_of};
use crate::made::Made;
use crate::timing::{Failure, Rows, Unit, Work};
use std::alloc::Global;
use std::marker::PhantomData;
use std::rt::Clock;
use wincode::io::{Lifetime, SliceWriter};
use wincode::serde::{Deserialize, Serialize};
use wincode::{SchemaRead, SchemaWrite};

/// How many values a run takes.
const VALUES: u64 = 10_000;

/// Copies each encoding into a new vector.
#[derive(Drop)]
struct CopyingEach<'a>(&'a [Vec<u8>]);

impl Work for CopyingEach<'_> {
    fn run(&self, alloc: Global) -> Result<u64, Failure> {
        let mut sum = 0u64;
        for text in self.0 {
            let bytes = Vec::from_slice(alloc, text.as_slice())?;
            sum = sum.wrapping_add(bytes.look());
        }
        Ok(sum)
    }
}

/// Reads each value from its encoding.
#[derive(Drop)]
struct ReadingEach<'a, S> {
    texts: &'a [Vec<u8>],
    of: PhantomData<S>,
}

impl<'a, T: Look, S: SchemaRead<Lifetime<'a>, Dst = T>> Work for ReadingEach<'a, S> {
    fn run(&self, alloc: Global) -> Result<u64, Failure> {
        let mut sum = 0u64;
        for text in self.texts {
            let value = <S as Deserialize<Lifetime<'a>>>::deserialize(alloc, text.as_slice())?;
            sum = sum.wrapping_add(value.look());
        }
        Ok(sum)
    }
}

/// Serializes each value into a new vector.
#[derive(Drop)]
struct SerializingEach<'a, T, S> {
    values: &'a [T],
    of: PhantomData<S>,
}

impl<T, S: SchemaWrite<Src = T>> Work for SerializingEach<'_, T, S> {
    fn run(&self, alloc: Global) -> Result<u64, Failure> {
        let mut sum = 0u64;
        for value in self.values {
            let bytes = <S as Serialize>::serialize(alloc, value)?;
            sum = sum.wrapping_add(bytes.look());
        }
        Ok(sum)
    }
}

/// Writes the value over the front of the slice, and looks at what was written.
fn write_over<S: SchemaWrite>(slice: &mut [u8], value: &S::Src) -> Result<u64, Failure> {
    let mut writer = SliceWriter::new(slice);
    S::write(&mut writer, value)?;
    Ok(look_at_all(writer.written()))
}

/// Writes each value over one slice of so many bytes.
#[derive(Drop)]
struct OverwritingEach<'a, T, S> {
    values: &'a [T],
    size: usize,
    of: PhantomData<S>,
}

impl<T, S: SchemaWrite<Src = T>> Work for OverwritingEach<'_, T, S> {
    fn run(&self, alloc: Global) -> Result<u64, Failure> {
        let mut room = vec![in alloc; 0u8; self.size]?;
        let mut sum = 0u64;
        for value in self.values {
            sum = sum.wrapping_add(write_over::<S>(room.as_mut_slice(), value)?);
        }
        Ok(sum)
    }
}

/// The encodings of the values.
fn encodings<S: SchemaWrite>(alloc: Global, values: &[S::Src]) -> Result<Vec<Vec<u8>>, Failure> {
    let mut texts = Vec::new(alloc);
    for value in values {
        texts.push(<S as Serialize>::serialize(alloc, value)?)?;
    }
    Ok(texts)
}

/// Times values, each by itself, beside a copy of each one's encoding, where the case was asked for. None has an
/// encoding of more bytes than this size; the encodings are put into the vector.
pub fn time_each<'a, T: Made + Look, S: SchemaWrite<Src = T> + SchemaRead<Lifetime<'a>, Dst = T>>(
    rt: &(impl Clock + Print + AllocGlobal),
    asked: &Asked,
    name: &str,
    size: usize,
    texts: &'a mut Vec<Vec<u8>>,
) -> Result<(), Failure> {
    if !asked.has(name) {
        return Ok(());
    }
    let list = Vec::<T>::made(rt.alloc(), asked.first(), &[VALUES])?;
    let values = list.as_slice();
    *texts = encodings::<S>(rt.alloc(), values)?;
    let texts: &'a Vec<Vec<u8>> = texts;
    let texts: &'a [Vec<u8>] = texts.as_slice();
    let (seen, end, of) = (seen_of(values), seen_of(texts), PhantomData);
    let rows = Rows::beside(rt, name, Unit::TenthsEach(VALUES), &CopyingEach(texts), end)?;
    rows.time(rt, "read", &ReadingEach::<S> { texts, of }, seen)?;
    let of = PhantomData;
    let serializing = SerializingEach::<T, S> { values, of };
    rows.time(rt, "serialized", &serializing, end)?;
    let of = PhantomData;
    let overwriting = OverwritingEach::<T, S> { values, size, of };
    rows.time(rt, "written over a slice", &overwriting, end)
}

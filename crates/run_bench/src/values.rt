//! One value that is read and written beside a copy of its encoding.
use crate::arguments::Asked;
use crate::look::Look;
use crate::made::Made;
use crate::timing::{Failure, Rows, Unit, Work};
use std::alloc::Global;
use std::marker::PhantomData;
use std::rt::Clock;
use wincode::io::Lifetime;
use wincode::serde::{Deserialize, Serialize};
use wincode::{SchemaRead, SchemaWrite};

/// What is seen of bytes at their end: the last one, and how many they are.
pub fn end_of(bytes: &[u8]) -> u64 {
    let last = match bytes.last() {
        Some(last) => u64::from(*last),
        None => 0,
    };
    last.wrapping_add(bytes.len() as u64)
}

/// Copies bytes into a new vector.
#[derive(Drop)]
pub struct Copying<'a>(pub &'a [u8]);

impl Work for Copying<'_> {
    fn run(&self, alloc: Global) -> Result<u64, Failure> {
        let bytes = Vec::from_slice(alloc, self.0)?;
        Ok(end_of(bytes.as_slice()))
    }
}

/// Reads a value by the schema `S`.
#[derive(Drop)]
pub struct Reading<'a, S> {
    pub text: &'a [u8],
    pub of: PhantomData<S>,
}

impl<'a, T: Look, S: SchemaRead<Lifetime<'a>, Dst = T>> Work for Reading<'a, S> {
    fn run(&self, alloc: Global) -> Result<u64, Failure> {
        let value = <S as Deserialize<Lifetime<'a>>>::deserialize(alloc, self.text)?;
        Ok(value.look())
    }
}

/// Writes a value by the schema `S` into a new vector.
#[derive(Drop)]
pub struct Writing<'a, T, S> {
    pub value: &'a T,
    pub of: PhantomData<S>,
}

impl<T, S: SchemaWrite<Src = T>> Work for Writing<'_, T, S> {
    fn run(&self, alloc: Global) -> Result<u64, Failure> {
        let bytes = <S as Serialize>::serialize(alloc, self.value)?;
        Ok(end_of(bytes.as_slice()))
    }
}

/// Times a value's reading and writing by the schema `S` beside a copy of its encoding, where the case was asked for.
/// The value has these lengths; its encoding is put into the vector.
pub fn time_value<'a, T: Made + Look, S: SchemaWrite<Src = T> + SchemaRead<Lifetime<'a>, Dst = T>>(
    rt: &(impl Clock + Print + AllocGlobal),
    asked: &Asked,
    name: &str,
    lengths: &[u64],
    text: &'a mut Vec<u8>,
) -> Result<(), Failure> {
    if !asked.has(name) {
        return Ok(());
    }
    let value = T::made(rt.alloc(), asked.first(), lengths)?;
    *text = <S as Serialize>::serialize(rt.alloc(), &value)?;
    let text: &'a Vec<u8> = text;
    let text: &'a [u8] = text.as_slice();
    let end = end_of(text);
    let rows = Rows::beside(rt, name, Unit::Microseconds, &Copying(text), end)?;
    let of = PhantomData;
    rows.time(rt, "read", &Reading::<S> { text, of }, value.look())?;
    let writing = Writing::<T, S> {
        value: &value,
        of: PhantomData,
    };
    rows.time(rt, "written", &writing, end)
}

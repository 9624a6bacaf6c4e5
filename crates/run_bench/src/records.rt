//! Records that are read one after another from one slice, and written one after another to one vector.
use crate::arguments::Asked;
use crate::look::look_at_all;
use crate::made::{Made, Record};
use crate::timing::{Failure, Rows, Unit, Work};
use crate::values::{Copying, end_of};
use std::alloc::Global;
use std::rt::Clock;
use wincode::io::Lifetime;
use wincode::{SchemaGet, SchemaWrite};

const RECORDS: u64 = 50_000;

/// How many bytes the encoding of a record has.
const RECORD_SIZE: usize = 41;

/// The number, the boolean, and one of the bytes, which the place chooses, so that all must be there.
fn look_at(record: &Record, place: usize) -> u64 {
    record
        .0
        .wrapping_add(u64::from(record.1))
        .wrapping_add(u64::from(record.2[place % 32]))
}

/// What is seen of the records, added.
fn seen_of(records: &[Record]) -> u64 {
    let mut sum = 0u64;
    for (place, record) in records.iter().enumerate() {
        sum = sum.wrapping_add(look_at(record, place));
    }
    sum
}

/// Reads so many records from one slice.
#[derive(Drop)]
struct ReadingRecords<'a> {
    text: &'a [u8],
    count: usize,
}

impl Work for ReadingRecords<'_> {
    fn run(&self, alloc: Global) -> Result<u64, Failure> {
        let mut reader = self.text;
        let mut sum = 0u64;
        for place in 0..self.count {
            let record = <Record as SchemaGet<Lifetime>>::get(alloc, &mut reader)?;
            sum = sum.wrapping_add(look_at(&record, place));
        }
        Ok(sum)
    }
}

/// The encodings of the records, one after another.
fn joined(alloc: Global, records: &[Record]) -> Result<Vec<u8>, Failure> {
    let mut bytes = Vec::with_capacity(alloc, records.len().saturating_mul(RECORD_SIZE))?;
    for record in records {
        <Record as SchemaWrite>::write(&mut bytes, record)?;
    }
    Ok(bytes)
}

/// Writes records to one vector.
#[derive(Drop)]
struct WritingRecords<'a>(&'a [Record]);

impl Work for WritingRecords<'_> {
    fn run(&self, alloc: Global) -> Result<u64, Failure> {
        let bytes = joined(alloc, self.0)?;
        Ok(look_at_all(bytes.as_slice()))
    }
}

/// Times records one by one beside a copy of their encodings.
pub fn time_records(rt: &(impl Clock + Print + AllocGlobal), asked: &Asked) -> Result<(), Failure> {
    let name = "records one by one";
    if !asked.has(name) {
        return Ok(());
    }
    let list = Vec::<Record>::made(rt.alloc(), asked.first(), &[RECORDS])?;
    let records = list.as_slice();
    let bytes = joined(rt.alloc(), records)?;
    let text = bytes.as_slice();
    let rows = Rows::beside(rt, name, Unit::Microseconds, &Copying(text), end_of(text))?;
    let count = records.len();
    rows.time(
        rt,
        "read",
        &ReadingRecords { text, count },
        seen_of(records),
    )?;
    rows.time(rt, "written", &WritingRecords(records), look_at_all(text))
}

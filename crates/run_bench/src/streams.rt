//! Values of a file that are read as they come, beside the file read whole and its bytes read then.
use crate::arguments::Asked;
use crate::cases::LongLen;
use crate::look::{Look, seen_of};
use crate::made::{Made, Record};
use crate::timing::{Failure, Rows, Unit, Work};
use crate::values::{Copying, Reading, end_of};
use std::alloc::Global;
use std::marker::PhantomData;
use std::rt::{Clock, Env, Files};
use std::{env, fs};
use wincode::io::{Lifetime, StdSource, StreamReader};
use wincode::serde::Serialize;
use wincode::{
    Messages, ReadError, SchemaGet, SchemaRead, SchemaReadOwned, SchemaWrite, containers,
};

/// What the file is called that the values stand in, behind the folder for such.
pub const FILE: &str = "/run_bench.values";

/// Lists of numbers, with a limit that holds 64 mebibytes of them.
type Lists = containers::Vec<Vec<u64>, LongLen>;

/// How many lists there are and how many numbers each has: some 64 mebibytes.
const LISTS: [(&str, [u64; 2]); 3] = [
    ("streamed lists of 10 numbers", [762_600, 10]),
    ("streamed lists of 1000 numbers", [8_322, 1_000]),
    ("streamed lists of 100,000 numbers", [84, 100_000]),
];

/// How many records there are: some 64 mebibytes.
const RECORDS: [u64; 1] = [1_636_800];

/// How many messages of 64 kibibytes there are, and how many numbers each has behind its length.
const MESSAGES: [u64; 2] = [1_024, 8_191];

/// The file that the values stand in.
#[derive(Drop)]
pub struct Stored<'a, R> {
    pub rt: &'a R,
    pub path: &'a str,
}

/// Reads all of the file.
impl<R: Files + AllocGlobal> Work for Stored<'_, R> {
    fn run(&self, _alloc: Global) -> Result<u64, Failure> {
        let bytes = fs::read(self.rt, self.path)?;
        Ok(end_of(bytes.as_slice()))
    }
}

/// Reads one value from the file as it comes.
#[derive(Drop)]
struct ReadingStream<'a, R, S> {
    stored: &'a Stored<'a, R>,
    of: PhantomData<S>,
}

impl<R: Files, T: Look, S: SchemaRead<Lifetime<'static>, Dst = T>> Work
    for ReadingStream<'_, R, S> {
    fn run(&self, alloc: Global) -> Result<u64, Failure> {
        let file = fs::open(self.stored.rt, self.stored.path)?;
        let mut reader = StreamReader::new(alloc, StdSource::new(file)).map_err(ReadError::from)?;
        let value = <S as SchemaGet<Lifetime<'static>>>::get(alloc, &mut reader)?;
        Ok(value.look())
    }
}

/// Reads the values of the file, one after another, to its end.
#[derive(Drop)]
pub struct ReadingMessages<'a, R, S> {
    pub stored: &'a Stored<'a, R>,
    pub of: PhantomData<S>,
}

impl<R: Files, T: Look, S: SchemaReadOwned<Lifetime<'static>, Dst = T>> Work
    for ReadingMessages<'_, R, S> {
    fn run(&self, alloc: Global) -> Result<u64, Failure> {
        let file = fs::open(self.stored.rt, self.stored.path)?;
        let mut messages = Messages::<_, S>::new(alloc, StdSource::new(file))?;
        let mut sum = 0u64;
        for _i in 0..u64::MAX {
            match messages.next() {
                Some(value) => sum = sum.wrapping_add(value?.look()),
                None => break,
            }
        }
        Ok(sum)
    }
}

/// Writes the bytes into the file, and times it read whole beside a copy of them.
fn time_file<'a, R: Clock + Files + Print + AllocGlobal>(
    stored: &Stored<'_, R>,
    name: &'a str,
    text: &[u8],
) -> Result<Rows<'a>, Failure> {
    let rt = stored.rt;
    fs::write(rt, stored.path, text)?;
    let end = end_of(text);
    let rows = Rows::beside(rt, name, Unit::Microseconds, &Copying(text), end)?;
    rows.time(rt, "file read whole", stored, end)?;
    Ok(rows)
}

/// Times one value of the file, read whole and read as it comes, where the case was asked for.
fn time_lists<R: Clock + Files + Print + AllocGlobal>(
    stored: &Stored<'_, R>,
    asked: &Asked,
    name: &str,
    lengths: &[u64],
) -> Result<(), Failure> {
    if !asked.has(name) {
        return Ok(());
    }
    let rt = stored.rt;
    let lists = Vec::<Vec<u64>>::made(rt.alloc(), asked.first(), lengths)?;
    let bytes = <Lists as Serialize>::serialize(rt.alloc(), &lists)?;
    let text = bytes.as_slice();
    let rows = time_file(stored, name, text)?;
    let due = lists.look();
    let of = PhantomData;
    rows.time(rt, "then read from it", &Reading::<Lists> { text, of }, due)?;
    let of = PhantomData;
    let streaming = ReadingStream::<_, Lists> { stored, of };
    rows.time(rt, "read as they come", &streaming, due)
}

/// Times the values of the file, one after another, beside the file read whole, where the case was asked for.
fn time_messages<
    T: Made + Look,
    S: SchemaWrite<Src = T> + SchemaReadOwned<Lifetime<'static>, Dst = T>,
    R: Clock + Files + Print + AllocGlobal,
>(stored: &Stored<'_, R>, asked: &Asked, name: &str, lengths: &[u64]) -> Result<(), Failure> {
    if !asked.has(name) {
        return Ok(());
    }
    let rt = stored.rt;
    let values = Vec::<T>::made(rt.alloc(), asked.first(), lengths)?;
    let mut bytes = Vec::new(rt.alloc());
    for value in values.as_slice() {
        S::write(&mut bytes, value)?;
    }
    let rows = time_file(stored, name, bytes.as_slice())?;
    let of = PhantomData;
    let reading = ReadingMessages::<_, S> { stored, of };
    rows.time(
        rt,
        "read as they come",
        &reading,
        seen_of(values.as_slice()),
    )
}

/// Times each case that was asked for.
fn time_all<R: Clock + Files + Print + AllocGlobal>(
    stored: &Stored<'_, R>,
    asked: &Asked,
) -> Result<(), Failure> {
    for (name, lengths) in LISTS {
        time_lists(stored, asked, name, lengths.as_slice())?;
    }
    time_messages::<Record, Record, R>(stored, asked, "streamed records", &RECORDS)?;
    time_messages::<Vec<u64>, Vec<u64>, R>(stored, asked, "streamed messages", &MESSAGES)
}

/// Times each case that was asked for, by a file in the folder for such, which is removed afterwards.
pub fn time_streams(
    rt: &(impl Clock + Env + Files + Print + AllocGlobal),
    asked: &Asked,
) -> Result<(), Failure> {
    let mut path = env::temp_dir(rt)?.into_string();
    path.push_str(FILE)?;
    let path = path.as_str();
    let timed = time_all(&Stored { rt, path }, asked);
    let _ = fs::remove_file(rt, path);
    timed
}

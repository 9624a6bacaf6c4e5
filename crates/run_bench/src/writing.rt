//! Values that are written to a file as they go, beside the way through a vector; and small messages, through a writer's
//! buffer and into a vector.
use crate::arguments::Asked;
use crate::cases::LongLen;
use crate::made::{Made, Record};
use crate::timing::{Failure, Rows, Unit, Work};
use crate::values::{Copying, end_of};
use std::alloc::Global;
use std::marker::PhantomData;
use std::rt::{Clock, Env, Files};
use std::time::Instant;
use std::{env, fs, io};
use wincode::io::{Sink, StdSink, StreamWriter, Unfinished, Writer};
use wincode::{SchemaWrite, WriteError, containers, serialize_into};

/// What the file is called that is written, behind the folder for such.
const FILE: &str = "/run_bench.written";

/// A list of numbers, with a limit that holds 64 mebibytes of them.
type Numbers = containers::Vec<u64, LongLen>;

/// One list of 64 mebibytes of numbers.
const NUMBERS: [u64; 2] = [1, 8_388_608];

/// How many records there are: some 64 mebibytes.
const RECORDS: [u64; 1] = [1_636_800];

/// A message of 40 bytes.
type Small = (u64, [u8; 32]);

/// How many messages a run takes.
const MESSAGES: u64 = 200_000;

/// How many records have a gibibyte of encodings.
const LARGE: u64 = 26_188_826;

/// The file that is written.
#[derive(Drop)]
struct Target<'a, R> {
    rt: &'a R,
    path: &'a str,
}

/// Writes the values, one after another.
fn write_values<S: SchemaWrite, W: Writer>(
    writer: &mut W,
    values: &[S::Src],
) -> Result<(), Failure> {
    for value in values {
        S::write(writer, value)?;
    }
    Ok(())
}

/// Ends the writing; how many bytes were written.
fn finished<K: Sink>(writer: &mut StreamWriter<K>) -> Result<u64, Failure> {
    writer.finish().map_err(WriteError::from)?;
    Ok(writer.position() as u64)
}

/// Writes the values into a vector, and that to the file.
#[derive(Drop)]
struct ThroughVector<'a, R, T, S> {
    target: &'a Target<'a, R>,
    values: &'a [T],
    of: PhantomData<S>,
}

impl<R: Files + AllocGlobal, T, S: SchemaWrite<Src = T>> Work for ThroughVector<'_, R, T, S> {
    fn run(&self, alloc: Global) -> Result<u64, Failure> {
        let mut bytes = Vec::new(alloc);
        write_values::<S, Vec<u8>>(&mut bytes, self.values)?;
        fs::write(self.target.rt, self.target.path, bytes.as_slice())?;
        Ok(bytes.len() as u64)
    }
}

/// Writes the values to the file as they go.
#[derive(Drop)]
struct AsTheyGo<'a, R, T, S> {
    target: &'a Target<'a, R>,
    values: &'a [T],
    of: PhantomData<S>,
}

impl<R: Files, T, S: SchemaWrite<Src = T>> Work for AsTheyGo<'_, R, T, S> {
    fn run(&self, alloc: Global) -> Result<u64, Failure> {
        let file = fs::create(self.target.rt, self.target.path)?;
        let mut writer = StreamWriter::new(alloc, StdSink::new(file)).map_err(WriteError::from)?;
        write_values::<S, StreamWriter<StdSink<R::File>>>(&mut writer, self.values)?;
        finished(&mut writer)
    }
}

/// Times the values written to the file both ways beside a copy of their encodings, where the case was asked for, and
/// looks whether the file has them then.
fn time_to_file<T: Made, S: SchemaWrite<Src = T>, R: Clock + Files + Print + AllocGlobal>(
    target: &Target<'_, R>,
    asked: &Asked,
    name: &str,
    lengths: &[u64],
) -> Result<(), Failure> {
    if !asked.has(name) {
        return Ok(());
    }
    let rt = target.rt;
    let list = Vec::<T>::made(rt.alloc(), asked.first(), lengths)?;
    let values = list.as_slice();
    let mut bytes = Vec::new(rt.alloc());
    write_values::<S, Vec<u8>>(&mut bytes, values)?;
    let text = bytes.as_slice();
    let (size, of) = (text.len() as u64, PhantomData);
    let rows = Rows::beside(rt, name, Unit::Microseconds, &Copying(text), end_of(text))?;
    let through = ThroughVector::<_, T, S> { target, values, of };
    rows.time(rt, "through a vector", &through, size)?;
    let of = PhantomData;
    let going = AsTheyGo::<_, T, S> { target, values, of };
    rows.time(rt, "as they go", &going, size)?;
    if fs::read(rt, target.path)?.as_slice() == text {
        Ok(())
    } else {
        Err(Failure::Different)
    }
}

/// Serializes each message into the writer.
fn serialize_each<W: Writer>(writer: &mut W, messages: &[Small]) -> Result<(), Failure> {
    for message in messages {
        serialize_into::<Small, W>(writer, message)?;
    }
    Ok(())
}

/// Serializes each message into one vector.
#[derive(Drop)]
struct IntoVector<'a>(&'a [Small]);

impl Work for IntoVector<'_> {
    fn run(&self, alloc: Global) -> Result<u64, Failure> {
        let mut bytes = Vec::new(alloc);
        serialize_each::<Vec<u8>>(&mut bytes, self.0)?;
        Ok(bytes.len() as u64)
    }
}

/// Serializes each message through one buffer, to a sink that does nothing.
#[derive(Drop)]
struct ThroughBuffer<'a>(&'a [Small]);

impl Work for ThroughBuffer<'_> {
    fn run(&self, alloc: Global) -> Result<u64, Failure> {
        let mut writer = StreamWriter::new(alloc, StdSink::new(io::sink())).map_err(
            WriteError::from,
        )?;
        serialize_each::<Unfinished<_>>(&mut Unfinished::new(&mut writer), self.0)?;
        finished(&mut writer)
    }
}

/// Times small messages, each serialized by itself, beside a copy of their encodings, where the case was asked for.
fn time_messages(rt: &(impl Clock + Print + AllocGlobal), asked: &Asked) -> Result<(), Failure> {
    let name = "messages of 40 bytes";
    if !asked.has(name) {
        return Ok(());
    }
    let list = Vec::<Small>::made(rt.alloc(), asked.first(), &[MESSAGES])?;
    let messages = list.as_slice();
    let mut bytes = Vec::new(rt.alloc());
    serialize_each::<Vec<u8>>(&mut bytes, messages)?;
    let text = bytes.as_slice();
    let size = text.len() as u64;
    let unit = Unit::TenthsEach(MESSAGES);
    let rows = Rows::beside(rt, name, unit, &Copying(text), end_of(text))?;
    rows.time(rt, "into a vector", &IntoVector(messages), size)?;
    rows.time(rt, "through a buffer", &ThroughBuffer(messages), size)
}

/// Where the file stands.
fn path_of(rt: &(impl Env + AllocGlobal)) -> Result<String, Failure> {
    let mut path = env::temp_dir(rt)?.into_string();
    path.push_str(FILE)?;
    Ok(path)
}

/// Times the cases of a file that were asked for.
fn time_files<R: Clock + Files + Print + AllocGlobal>(
    target: &Target<'_, R>,
    asked: &Asked,
) -> Result<(), Failure> {
    time_to_file::<Vec<u64>, Numbers, R>(target, asked, "numbers to a file", &NUMBERS)?;
    time_to_file::<Record, Record, R>(target, asked, "records to a file", &RECORDS)
}

/// Times each case that was asked for, by a file in the folder for such, which is removed afterwards.
pub fn time_writing(
    rt: &(impl Clock + Env + Files + Print + AllocGlobal),
    asked: &Asked,
) -> Result<(), Failure> {
    let path = path_of(rt)?;
    let path = path.as_str();
    let timed = time_files(&Target { rt, path }, asked);
    let _ = fs::remove_file(rt, path);
    timed?;
    time_messages(rt, asked)
}

/// Makes so many records, and writes each before the next is made.
fn write_made<W: Writer>(alloc: Global, writer: &mut W, count: u64) -> Result<(), Failure> {
    for number in 0..count {
        let record = Record::made(alloc, number, &[])?;
        <Record as SchemaWrite>::write(writer, &record)?;
    }
    Ok(())
}

/// Writes a gibibyte of records to the file; how many bytes those are.
fn written<R: Files + AllocGlobal>(target: &Target<'_, R>) -> Result<u64, Failure> {
    let alloc = target.rt.alloc();
    let file = fs::create(target.rt, target.path)?;
    let mut writer = StreamWriter::new(alloc, StdSink::new(file)).map_err(WriteError::from)?;
    write_made::<StreamWriter<StdSink<R::File>>>(alloc, &mut writer, LARGE)?;
    finished(&mut writer)
}

/// Writes a gibibyte of records to a file in the folder for such, which is removed afterwards, and prints how long
/// that took.
pub fn write_large(rt: &(impl Clock + Env + Files + Print + AllocGlobal)) -> Result<(), Failure> {
    let path = path_of(rt)?;
    let path = path.as_str();
    let start = Instant::now(rt)?;
    let size = written(&Target { rt, path });
    let taken = start.elapsed(rt)?.as_millis();
    let _ = fs::remove_file(rt, path);
    let size = size?;
    println!(rt; "{size} bytes of records were written in {taken} milliseconds")?;
    Ok(())
}

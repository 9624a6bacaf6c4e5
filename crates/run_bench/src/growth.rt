//! How the time of an item changes as there are more of them: twice as many a step, up to a gibibyte of encodings.
use crate::look::{Look, seen_of};
use crate::made::{Made, Record};
use crate::streams::{FILE, ReadingMessages, Stored};
use crate::timing::{Failure, least_of};
use crate::values::{Reading, Writing, end_of};
use std::marker::PhantomData;
use std::rt::{Clock, Env, Files};
use std::{env, fs};
use wincode::io::Lifetime;
use wincode::len::BincodeLen;
use wincode::serde::Serialize;
use wincode::{SchemaRead, SchemaReadOwned, SchemaWrite, containers};

/// How many items there are at the first step.
const FIRST: u64 = 1_000;

/// How many steps there are up to a gibibyte: of numbers, of texts of 20 bytes, of records, and of messages of 10 numbers.
const STEPS: [u32; 4] = [18, 16, 15, 14];

/// How many items are gone over by all runs of a step together, where there are more than three runs.
const ITEMS: u64 = 8_000_000;

/// A length with a limit that holds more than a gibibyte.
type Length = BincodeLen<10_000_000_000>;

/// The times of an item at a step, in picoseconds. What isn't written has no time of writing.
#[derive(Clone, Copy)]
struct Times {
    read: u128,
    written: Option<u128>,
}

/// How often a step is run.
fn runs_of(count: u64) -> u64 {
    (ITEMS / count.max(1)).clamp(3, 40)
}

/// The picoseconds of an item.
fn each_of(nanoseconds: u128, count: u64) -> u128 {
    nanoseconds.saturating_mul(1000) / u128::from(count.max(1))
}

/// Prints a time of a step, and how many hundredths of that of the second step it is.
fn print_time(
    rt: &impl Print,
    (count, name): (u64, &str),
    done: &str,
    now: u128,
    second: u128,
) -> Result<(), Failure> {
    let hundredths = now.saturating_mul(100) / second.max(1);
    println!(rt;
        "{count} {name} {done}: {now} picoseconds each, {hundredths} hundredths of the second step"
    )?;
    Ok(())
}

/// Prints the times of a step beside those of the second one.
fn print_step(rt: &impl Print, row: (u64, &str), now: Times, second: Times) -> Result<(), Failure> {
    print_time(rt, row, "read", now.read, second.read)?;
    match (now.written, second.written) {
        (Some(written), Some(before)) => print_time(rt, row, "written", written, before),
        _ => Ok(()),
    }
}

/// Times a list of so many items, and prints its row. The encoding is put into the vector.
fn time_step<
    'a,
    T: Made + Look,
    S: SchemaWrite<Src = Vec<T>> + SchemaRead<Lifetime<'a>, Dst = Vec<T>>,
>(
    rt: &(impl Clock + Print + AllocGlobal),
    name: &str,
    lengths: &[u64; 2],
    text: &'a mut Vec<u8>,
    second: Option<Times>,
) -> Result<Times, Failure> {
    let count = lengths[0];
    let runs = runs_of(count);
    let value = Vec::<T>::made(rt.alloc(), 1, lengths.as_slice())?;
    *text = <S as Serialize>::serialize(rt.alloc(), &value)?;
    let text: &'a Vec<u8> = text;
    let text: &'a [u8] = text.as_slice();
    let of = PhantomData;
    let reading = Reading::<S> { text, of };
    let read = least_of(rt, rt.alloc(), runs, &reading, value.look())?;
    let writing = Writing::<Vec<T>, S> {
        value: &value,
        of: PhantomData,
    };
    let written = least_of(rt, rt.alloc(), runs, &writing, end_of(text))?;
    let now = Times {
        read: each_of(read, count),
        written: Some(each_of(written, count)),
    };
    print_step(rt, (count, name), now, second.unwrap_or(now))?;
    Ok(now)
}

/// A case: its schema, its name, how long an item is that has a length, and how many steps it has.
macro_rules! grow {
    ($rt:expr, $schema:ty, $name:expr, $inner:expr, $steps:expr) => {
        let mut second = None;
        for step in 0..$steps {
            let lengths = [FIRST.wrapping_shl(step), $inner];
            let text = &mut Vec::new($rt.alloc());
            let now = time_step::<_, $schema>($rt, $name, &lengths, text, second)?;
            if step == 1 {
                second = Some(now);
            }
        }
    };
}

/// Times a step of messages that are read from the file as they come, and prints its row.
fn time_messages<
    T: Made + Look,
    S: SchemaWrite<Src = T> + SchemaReadOwned<Lifetime<'static>, Dst = T>,
    R: Clock + Files + Print + AllocGlobal,
>(
    stored: &Stored<'_, R>,
    name: &str,
    lengths: &[u64; 2],
    second: Option<Times>,
) -> Result<Times, Failure> {
    let rt = stored.rt;
    let count = lengths[0];
    let values = Vec::<T>::made(rt.alloc(), 1, lengths.as_slice())?;
    let mut bytes = Vec::new(rt.alloc());
    for value in values.as_slice() {
        S::write(&mut bytes, value)?;
    }
    fs::write(rt, stored.path, bytes.as_slice())?;
    let reading = ReadingMessages::<_, S> {
        stored,
        of: PhantomData,
    };
    let due = seen_of(values.as_slice());
    let read = each_of(
        least_of(rt, rt.alloc(), runs_of(count), &reading, due)?,
        count,
    );
    let now = Times {
        read,
        written: None,
    };
    print_step(rt, (count, name), now, second.unwrap_or(now))?;
    Ok(now)
}

/// Messages of ten numbers, that are read from a file as they come.
fn grow_messages<R: Clock + Files + Print + AllocGlobal>(
    stored: &Stored<'_, R>,
) -> Result<(), Failure> {
    let mut second = None;
    for step in 0..STEPS[3] {
        let lengths = [FIRST.wrapping_shl(step), 10];
        let now = time_messages::<Vec<u64>, Vec<u64>, R>(stored, "messages", &lengths, second)?;
        if step == 1 {
            second = Some(now);
        }
    }
    Ok(())
}

/// Times lists of numbers, of texts and of records, and messages of a file in the folder for such, which is removed
/// afterwards.
pub fn time_growth(rt: &(impl Clock + Env + Files + Print + AllocGlobal)) -> Result<(), Failure> {
    grow!(rt, containers::Vec<u64, Length>, "numbers", 0, STEPS[0]);
    grow!(rt, containers::Vec<String, Length>, "texts", 20, STEPS[1]);
    grow!(rt, containers::Vec<Record, Length>, "records", 0, STEPS[2]);
    let mut path = env::temp_dir(rt)?.into_string();
    path.push_str(FILE)?;
    let path = path.as_str();
    let timed = grow_messages(&Stored { rt, path });
    let _ = fs::remove_file(rt, path);
    timed
}

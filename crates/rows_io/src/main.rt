//! Readers and writers as data: each line of the input makes one over some bytes and goes on by steps, as
//! `KIND|BYTES|STEPS`, and is printed with what each step answers behind it, as `KIND|BYTES|STEPS|ANSWERS`. A line
//! that begins with `#` is a title, and is printed as it is. So `stdout` is the table of all rows, and `stdin` its
//! first three columns: a new row is a line in each.
//!
//! Bytes are digits of base 16, or `fixed N`, N bytes each unlike its neighbours, `zeros N` or `ones N`. Steps and
//! answers stand between `;`. What a call gives is digits again, or `fixed N` where it is that; `ok` where it gives
//! nothing; `err ERROR`.
//!
//! Readers: `slice`, `mut slice`, `cursor P`, and the windows by themselves, `shared window`, `writing window` and
//! `plain window`. Steps: `fill_buf N`, `fill_exact N`, `peek`, `consume N`, `borrow N`, `borrow_mut N`, `copy N`,
//! `u16`, `u16s N`, `u64`, `u64s N` (forms, and what then is in their destination); `window N` goes on in a window,
//! `end` ends it. Last comes what is left, and a cursor's position.
//!
//! Writers: `vec`, `slice`, `cursor slice P`, `cursor array P` (of 3 bytes), `cursor vec P`, `cursor mut vec P`, and
//! `place P N`, a window of N bytes from P on. Steps: `write BYTES`, `room N`, `finish`, `window N BYTES`,
//! `parts BYTES`, `within N OUTER,INNER,AFTER` (the callers of `testkit_io::writers`), `u8`, `u16`, `u16s`,
//! `u64`, `u64s` (the numbers 258, and 1 and 515). Last come the bytes, and a position or a room.
#![tactic(auto)]

mod inputs;
mod reading;
mod writing;

use std::alloc::Global;
use std::io::{BufRead, BufReader};
use std::test::Fail;

/// What the steps of a row answer.
fn answer(alloc: Global, kind: &str, bytes: &str, steps: &str) -> Result<String, Fail> {
    let mut given = inputs::bytes_of(alloc, bytes)?;
    let mut held = given.clone()?;
    match reading::answer(alloc, kind, given.as_slice(), held.as_mut_slice(), steps)? {
        Some(answers) => Ok(answers),
        None => writing::answer(alloc, kind, &mut given, steps),
    }
}

/// The line, and behind it what it answers, unless it is a title.
fn answered(alloc: Global, line: &str) -> Result<String, Fail> {
    if line.starts_with("#") {
        return Ok(format!(in alloc; "{line}")?);
    }
    let (kind, rest) = line.split_once('|').ok_or("a kind")?;
    let (bytes, steps) = rest.split_once('|').ok_or("steps")?;
    let answers = answer(alloc, kind, bytes, steps)?;
    Ok(format!(in alloc; "{line}|{answers}")?)
}

fn main(rt: HostRuntime) -> Result<(), Fail> {
    for line in BufReader::new(rt.alloc(), rt.reader())?.lines(rt.alloc()) {
        let text = answered(rt.alloc(), line?.as_str())?;
        println!(rt; "{text}")?;
    }
    Ok(())
}

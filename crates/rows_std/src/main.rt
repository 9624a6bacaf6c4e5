//! Rows of std's types: each line of the input is `TYPE|DIGITS`, a type and bytes in base 16, and is printed with what
//! reading the type from the bytes answers behind it, as `TYPE|DIGITS|ANSWER`: `ok LEFT TEXT`, how many bytes are left, and
//! the value written again, behind which ` asked N` stands where the reader was asked for more bytes than the value has; or
//! `err ERROR LEFT`. A line that begins with `#` is a title, and is printed as it is. So
//! `stdout` is the table of all rows, and `stdin` its first two columns: a new row is a line in each.
//!
//! Most rows are those that `tools/std_rows` made, of which `stdout` has each `ok` as bincode answered it, and an error of
//! this library for each `err`.
#![tactic(auto)]

mod schemas;

use std::alloc::Global;
use std::io::{BufRead, BufReader};
use std::test::Fail;
use testkit_schemas::rows::bytes_of;

/// The line, and behind it what it answers, unless it is a title.
fn answered(alloc: Global, line: &str) -> Result<String, Fail> {
    if line.starts_with("#") {
        return Ok(format!(in alloc; "{line}")?);
    }
    let (name, digits) = line.split_once('|').ok_or("a row")?;
    let bytes = bytes_of(alloc, digits)?;
    let found = schemas::answer(alloc, name, bytes.as_slice())?;
    Ok(format!(in alloc; "{line}|{found}")?)
}

fn main(rt: HostRuntime) -> Result<(), Fail> {
    for line in BufReader::new(rt.alloc(), rt.reader())?.lines(rt.alloc()) {
        let text = answered(rt.alloc(), line?.as_str())?;
        println!(rt; "{text}")?;
    }
    Ok(())
}

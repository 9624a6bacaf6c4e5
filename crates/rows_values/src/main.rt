//! Worked rows as data: each line of the input asks one thing of a type's schema, as `CALL|TYPE|DIGITS`, and is
//! printed with the answer behind it, as `CALL|TYPE|DIGITS|ANSWER`. The digits are the bytes in base 16. A line
//! that begins with `#` is a title, and is printed as it is. So `stdout` is the table of all rows, and `stdin`
//! its first three columns: a new row is a line in each.
//!
//! The calls, with their answers; LEFT is how many bytes were left, TEXT is what was written, in base 16:
//!
//! - `read`: `ok LEFT TEXT`, the value written again; or `err ERROR LEFT`. Of what may be written in any order
//!   the text is `sorted:`, and then its items in order.
//! - `furthest`: whether a value is read, LEFT, and how many bytes from the front the reader was asked for at the
//!   most, by a reader that lends nothing: no more than the value needs.
//! - `room N`: the value is written into a slice of N bytes: `ok TEXT`, or `err ERROR TEXT`.
//! - `size`: `size_of` of the value: `ok SIZE`.
//! - `meta`: what the schema announces in reading, in writing, and `prealloc_size`.
//! - `items N`: a list of one value, to which N are added by `read_items`: `ok LEFT TEXT` or `err ERROR LEFT TEXT`,
//!   where the text is that of the whole list by `write_items`.
//! - `at once N`: a list of N values of bytes that change from one to the next, each of the size that the one digit
//!   pair says, read and written at once and item by item: `ok SIZE`, where all agree.
//! - `calls`: `deserialize`, `serialize`, `serialize_into` behind a byte, `serialized_size`: `ok SIZE TEXT`.
//! - `shown`: the value's `Debug` text, or the error's, and LEFT, through each reader and a window of it; where
//!   readers differ, each by its name.
//! - `tag`, `tag room N`, `scheme`: a tag read and written again, so into N bytes, a tag scheme's size and
//!   greatest tag.
//! - `length`, `length of N`: a length that is read; one that is written, and its `write_bytes_needed`.
#![tactic(auto)]

mod answering;
mod asking;
mod lengths;
mod listing;
mod schemas;
mod showing;
mod tagging;

use asking::{Call, Row};
use listing::spread_list;
use std::alloc::Global;
use std::io::{BufRead, BufReader};
use std::test::Fail;
use testkit_schemas::rows::bytes_of;

/// What a row answers.
fn answer(alloc: Global, row: &Row<'_>) -> Result<String, Fail> {
    let digits = bytes_of(alloc, row.digits)?;
    let bytes = match row.call {
        Call::AtOnce(n) => spread_list(alloc, n, digits.as_slice())?,
        _ => digits,
    };
    let input = bytes.as_slice();
    match row.call {
        Call::Schema(asked) => schemas::answer(alloc, asked, row.name, input),
        Call::Items(n) => listing::items(alloc, row.name, input, n),
        Call::AtOnce(_) => listing::at_once(alloc, row.name, input),
        Call::Calls => schemas::calls::answer(alloc, row.name, input),
        Call::Shown => showing::shown(alloc, row.name, input),
        Call::Tag(room) => tagging::tag(alloc, row.name, input, room),
        Call::Scheme => tagging::scheme(alloc, row.name),
        Call::Length => lengths::read(alloc, row.name, input),
        Call::LengthOf(len) => lengths::written(alloc, row.name, len),
    }
}

/// The line, and behind it what it answers, unless it is a title.
fn answered(alloc: Global, line: &str) -> Result<String, Fail> {
    if line.starts_with("#") {
        return Ok(format!(in alloc; "{line}")?);
    }
    let row = Row::of(line).ok_or("a row")?;
    let found = answer(alloc, &row)?;
    Ok(format!(in alloc; "{line}|{found}")?)
}

fn main(rt: HostRuntime) -> Result<(), Fail> {
    for line in BufReader::new(rt.alloc(), rt.reader())?.lines(rt.alloc()) {
        let text = answered(rt.alloc(), line?.as_str())?;
        println!(rt; "{text}")?;
    }
    Ok(())
}

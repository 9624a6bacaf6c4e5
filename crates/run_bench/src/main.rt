//! Times reading and writing beside a copy of as many bytes.
//!
//! Without arguments it prints one fixed line. With `--time` it prints a table, a row for each measurement: the
//! least time of 40 runs, in microseconds, or in tenths of a nanosecond for each of many small values, and
//! how many hundredths of the copy of as many bytes in the same run that is. `--time WORD..` times the
//! cases alone whose names have one of the words in them. Each run looks at what it made, and what it reads
//! and writes is made of a number that depends on the arguments, so that no run can leave anything out. Where values
//! are read as they come or written as they go, they stand in a file in the folder for such, which is removed afterwards.
//!
//! With `--growth` it doubles how many items a value has, from a thousand up to a gibibyte, and prints the time of an item.
//! With `--many` it reads back maps of more than a mebi of pairs, and as many tokens, which takes a test too long. With
//! `--large` it writes a gibibyte of records through a writer's buffer to such a file, and prints how long that took.
#![tactic(auto)]

mod arguments;
mod cases;
mod each;
mod growth;
mod look;
mod made;
mod mebi;
mod pieces;
mod records;
mod streams;
mod timing;
mod values;
mod writing;

use arguments::{asked_by, is_asked};
use cases::time_cases;
use growth::time_growth;
use mebi::{COUNT, are_hashed_pairs_kept, are_ordered_pairs_kept, are_tokens_kept};
use timing::Failure;
use writing::write_large;

/// Whether more than a mebi of pairs and of tokens are kept.
fn keep_many(rt: &(impl Print + AllocGlobal)) -> Result<(), Failure> {
    let alloc = rt.alloc();
    if !are_ordered_pairs_kept(alloc)?
        || !are_hashed_pairs_kept(alloc)?
        || !are_tokens_kept(alloc)?
    {
        return Err(Failure::Different);
    }
    println!(rt; "{COUNT} pairs of each map were read back, and as many tokens of a text")?;
    Ok(())
}

fn main(rt: HostRuntime) -> Result<(), Failure> {
    if let Some(asked) = asked_by(&rt)? {
        return time_cases(&rt, &asked);
    }
    if is_asked(&rt, "--growth")? {
        return time_growth(&rt);
    }
    if is_asked(&rt, "--many")? {
        return keep_many(&rt);
    }
    if is_asked(&rt, "--large")? {
        return write_large(&rt);
    }
    println!(rt; "run_bench --time prints how long lists take")?;
    Ok(())
}

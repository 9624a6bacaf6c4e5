//! Every call that takes memory, with its memory refused: run by `refuse_each_growth`, which refuses
//! the first growth of a run, then the second, and so on. A refused call answers `OutOfMemory` and
//! leaves what it is said to leave; any other answer ends the program with status 1. So does a refusal of a
//! call that takes no memory. Without a refused growth it prints one fixed line.
#![tactic(auto)]

mod cases;

use cases::{Ending, Unlike};
use std::alloc::Global;

/// How all cases ended: with memory, or one of them for want of it.
fn all(alloc: Global) -> Result<Ending, Unlike> {
    cases::without::all(alloc)?;
    let reading = cases::reading::all(alloc)?;
    let streaming = cases::streaming::all(alloc)?;
    let writing = cases::writing::all(alloc)?;
    let sinks = cases::sinks::all(alloc)?;
    Ok(reading.and(streaming).and(writing).and(sinks))
}

fn main(rt: HostRuntime) -> Result<(), Unlike> {
    let line = match all(rt.alloc())? {
        Ending::Ample => "no growth was refused",
        Ending::Refused => "a growth was refused",
    };
    println!(rt; "{line}").map_err(|_| Unlike::Printing)
}

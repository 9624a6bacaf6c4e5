//! A ledger in a file: `example_ledger FILE [ACCOUNT AMOUNT]..` takes the file up where its last whole entry ends, appends
//! an entry for each account and amount, and prints the sum of all. Without arguments it shows how: it makes a ledger, cuts
//! it off within its last entry as a crash would, takes it up three times through one open file, and removes it.
//!
//! What was appended is in the file when the program ends; where it is killed before, the file has a beginning of it. Where
//! an append is refused, the file keeps the whole entries of it.
#![tactic(auto)]

mod ledger;

use ledger::{Entry, Fault, append, cut, opened, sum, take_up};
use std::alloc::Global;
use std::fs::File;
use std::process::ExitCode;
use std::rt::Env;
use std::{env, fs};

/// The ledger that is made without arguments.
const PATH: &str = "ledger.bin";

/// Takes the ledger up and appends the entries to this file. Where they are refused, as by a full disk, it takes the same
/// file up again, so that whole entries alone are left.
fn add(rt: &HostRuntime, file: &mut File, entries: &[Entry]) -> Result<(), Fault> {
    let alloc = rt.alloc();
    let dropped = take_up(alloc, file)?;
    if let Err(refused) = append(alloc, file, entries) {
        take_up(alloc, file)?;
        return Err(refused.into());
    }
    let (count, total) = sum(alloc, file)?;
    println!(rt; "{dropped} bytes dropped, {count} entries, sum {total}")?;
    Ok(())
}

/// Adds the entries to the ledger at this path.
fn go_on(rt: &HostRuntime, path: &str, entries: &[Entry]) -> Result<(), Fault> {
    add(rt, &mut opened(rt, path)?, entries)
}

/// The entries of accounts and amounts in turn.
fn entries_of(alloc: Global, words: &[String]) -> Result<Vec<Entry>, Fault> {
    let mut entries = Vec::new(alloc);
    for pair in words.chunks(2) {
        let [account, amount] = pair else {
            return Err(Fault::Usage);
        };
        let Ok(amount) = amount.as_str().parse::<i64>() else {
            return Err(Fault::Usage);
        };
        entries.push((String::from_str(alloc, account.as_str())?, amount))?;
    }
    Ok(entries)
}

/// Makes a ledger, cuts it off within its last entry, and goes on with it, all through one open file.
fn show(rt: &HostRuntime) -> Result<(), Fault> {
    let alloc = rt.alloc();
    let first = [("Ada", 10), ("Bob", 20), ("Cleo", 30)];
    let mut entries = Vec::new(alloc);
    for (account, amount) in first {
        entries.push((String::from_str(alloc, account)?, amount))?;
    }
    go_on(rt, PATH, entries.as_slice())?;
    cut(&opened(rt, PATH)?, 5)?;
    let mut file = opened(rt, PATH)?;
    add(rt, &mut file, &[])?;
    add(rt, &mut file, &[(String::from_str(alloc, "Dan")?, -4)])?;
    add(rt, &mut file, &[])?;
    fs::remove_file(rt, PATH)?;
    Ok(())
}

fn run(rt: &HostRuntime) -> Result<(), Fault> {
    let alloc = rt.alloc();
    let mut words = Vec::new(alloc);
    for word in env::args(rt)?.skip(1) {
        words.push(word)?;
    }
    match words.as_slice() {
        [] => show(rt),
        [path, pairs @ ..] => go_on(rt, path.as_str(), entries_of(alloc, pairs)?.as_slice()),
    }
}

fn main(rt: HostRuntime) -> ExitCode {
    match run(&rt) {
        Ok(()) => ExitCode::SUCCESS,
        Err(fault) => {
            let _ = eprintln!(rt; "{fault}");
            ExitCode::FAILURE
        }
    }
}

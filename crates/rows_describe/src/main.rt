//! Types compared, as rows: each line of the input is an old and a new type, between them ` => `. It is answered by the
//! answer, and then each change: `~` of a new name, `+` of more that is read, `-` of a difference, its place, and where a
//! witness shows it `=` and that in hexadecimal.
//!
//! A line `random N => SEED` compares N pairs of types, of which the second is the first changed at one place, and reads 50
//! inputs of each by both types: it is answered by the answers that came, and fails where an input contradicts one. The last
//! line may be given alone with another N, as 20000.
#![tactic(auto)]

mod random;

use random::answer_pairs;
use std::alloc::Global;
use std::io;
use std::test::Fail;
use wincode_describe::{Answer, ChangeKind, Described, compare};

/// The word of an answer.
fn word_of(answer: Answer) -> &'static str {
    match answer {
        Answer::Same => "same",
        Answer::Reads => "reads",
        Answer::Differs => "differs",
        Answer::MayDiffer => "may differ",
    }
}

/// The sign of a kind of change.
fn sign_of(kind: ChangeKind) -> &'static str {
    match kind {
        ChangeKind::Renamed => "~",
        ChangeKind::Extended => "+",
        ChangeKind::Differs => "-",
    }
}

/// What is answered of two types.
fn answer(alloc: Global, old: &str, new: &str) -> Result<String, Fail> {
    let comparison = compare(
        alloc,
        &Described::parse(alloc, old)?,
        &Described::parse(alloc, new)?,
    )?;
    let mut line = String::from_str(alloc, word_of(comparison.answer))?;
    for change in comparison.changes.iter() {
        let sign = sign_of(change.kind);
        let place = change.place.as_str();
        let begin = format!(in alloc; " {sign}{place}")?;
        line.push_str(begin.as_str())?;
        if let Some(bytes) = &change.witness {
            line.push_str("=")?;
            for byte in bytes {
                let digits = format!(in alloc; "{byte:02x}")?;
                line.push_str(digits.as_str())?;
            }
        }
    }
    Ok(line)
}

/// What is answered of so many pairs of types at random.
fn answer_random(alloc: Global, pairs: &str, seed: &str) -> Result<String, Fail> {
    let (Ok(pairs), Ok(seed)) = (pairs.parse::<usize>(), seed.parse::<u64>()) else {
        return Err(Fail::from("no number"));
    };
    let came = answer_pairs(alloc, pairs, seed)?;
    let mut line = format!(in alloc; "no input contradicts {pairs} answers:")?;
    for answer in [Answer::Same, Answer::Reads, Answer::Differs] {
        if came.contains(&answer) {
            line.push_str(" ")?;
            line.push_str(word_of(answer))?;
        }
    }
    Ok(line)
}

/// The answer to a row.
fn answer_row(alloc: Global, row: &str) -> Result<String, Fail> {
    let Some((old, new)) = row.split_once(" => ") else {
        return Err(Fail::from("a row without ` => `"));
    };
    match old.strip_prefix("random ") {
        Some(pairs) => answer_random(alloc, pairs, new),
        None => answer(alloc, old, new),
    }
}

fn main(rt: HostRuntime) -> Result<(), Fail> {
    let input = io::read_to_string(rt.alloc(), rt.reader())?;
    for row in input.lines() {
        let said = answer_row(rt.alloc(), row)?;
        println!(rt; "{said}")?;
    }
    Ok(())
}

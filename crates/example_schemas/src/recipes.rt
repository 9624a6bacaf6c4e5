//! Recipes: a few lines for each thing that users do. docs/USING.md shows them.
use std::alloc::Global;
use std::collections::BTreeMap;
use thiserror::Error;
use wincode::io::SliceRef;
use wincode::laws::edit_in_place;
use wincode::prelude::*;
use wincode::schema::tuples::write_members_2;

/// A list of numbers to bytes and back.
pub fn there_and_back(alloc: Global, numbers: &Vec<u64>) -> wincode::Result<Vec<u64>> {
    let bytes = serialize(alloc, numbers)?;
    Ok(deserialize(alloc, &bytes)?)
}

/// A line of a log.
pub type Line = (u64, String);

/// The lines, one after another, with nothing between them.
pub fn join_lines(alloc: Global, lines: &[Line]) -> WriteResult<Vec<u8>> {
    let mut bytes = Vec::new(alloc);
    for line in lines {
        <Line as SchemaWrite>::write(&mut bytes, line)?;
    }
    Ok(bytes)
}

/// The lines that the bytes are. The end is where no byte is left; each line has a byte or more.
pub fn split_lines(alloc: Global, bytes: &[u8]) -> ReadResult<Vec<Line>> {
    let mut lines = Vec::new(alloc);
    let mut rest = bytes;
    for _ in 0..bytes.len() {
        if rest.is_empty() {
            break;
        }
        lines.push(<Line as SchemaGet<Lifetime>>::get(alloc, &mut rest)?)?;
    }
    Ok(lines)
}

/// How many bytes the texts of a log have together. The log is read as it comes, a line at a time.
pub fn total_length<S: Source + Drop>(alloc: Global, source: S) -> ReadResult<u64> {
    let mut lines = Messages::<S, Line>::new(alloc, source)?;
    let mut total = 0u64;
    for _ in 0..u64::MAX {
        let Some(line) = lines.next() else {
            break;
        };
        total = total.saturating_add(line?.1.len() as u64);
    }
    Ok(total)
}

/// What a file of settings holds: a version, a flag and a name.
pub type Settings = (u32, bool, String);

/// Why a file is refused, and where reading stopped.
#[derive(Debug, Drop, Error)]
pub enum Damaged {
    #[error("at position {position}: {error}")]
    At { position: usize, error: ReadError },
    #[error("{0} bytes behind the settings")]
    Longer(usize),
}

/// The settings that the bytes are, all of them.
pub fn settings_of(alloc: Global, bytes: &[u8]) -> Result<Settings, Damaged> {
    let mut cursor = Cursor::new(bytes);
    let settings = match <Settings as SchemaGet<Lifetime>>::get(alloc, &mut cursor) {
        Ok(settings) => settings,
        Err(error) => {
            let position = cursor.position();
            return Err(Damaged::At { position, error });
        }
    };
    match bytes.len().saturating_sub(cursor.position()) {
        0 => Ok(settings),
        more => Err(Damaged::Longer(more)),
    }
}

/// A list of at most 1,024 bytes of items: a longer one is refused before memory is asked for.
pub type Few = containers::Vec<u16, BincodeLen<1024>>;

/// A few numbers.
pub fn few_of(alloc: Global, bytes: &[u8]) -> ReadResult<Vec<u16>> {
    <Few as Deserialize<Lifetime>>::deserialize(alloc, bytes)
}

/// The sum of numbers that are looked at where they lie.
pub fn sum_of(alloc: Global, bytes: &[u8]) -> ReadResult<u64> {
    let numbers: SliceRef<u32> = deserialize(alloc, bytes)?;
    let mut sum = 0u64;
    for i in 0..numbers.len() {
        sum = sum.saturating_add(u64::from(numbers.get(i)));
    }
    Ok(sum)
}

/// Puts 7 into the first place of a list of numbers, in its bytes.
pub fn set_first(bytes: &mut [u8]) -> ReadResult<()> {
    edit_in_place::<u32>(bytes, &[(0, 7)])
}

/// How often each word came, to bytes: in the order of the words, whatever the order they came in.
pub fn counts_to_bytes(alloc: Global, counts: &BTreeMap<String, u64>) -> WriteResult<Vec<u8>> {
    serialize(alloc, counts)
}

/// How often each word came.
pub fn counts_of(alloc: Global, bytes: &[u8]) -> ReadResult<BTreeMap<String, u64>> {
    deserialize(alloc, bytes)
}

/// Two texts that stand in the bytes.
pub fn two_texts<'a>(alloc: Global, bytes: &'a [u8]) -> ReadResult<(&'a str, &'a str)> {
    deserialize(alloc, bytes)
}

/// Two values of what any lender lends, each by a type parameter of its own.
pub fn get_two<L: Lending, A: SchemaRead<L>, B: SchemaRead<L>, R: Reader<L>>(
    alloc: Global,
    reader: &mut R,
) -> ReadResult<(A::Dst, B::Dst)> {
    <(A, B) as SchemaGet<L>>::get(alloc, reader)
}

/// Two texts, and the reader stands behind them.
pub fn take_two_texts<'a>(alloc: Global, reader: &mut &'a [u8]) -> ReadResult<(&'a str, &'a str)> {
    get_two::<Lifetime, &str, &str, &[u8]>(alloc, reader)
}

/// Two texts, written as a tuple of them.
pub fn put_two_texts(text: &mut Vec<u8>, first: &str, second: &str) -> WriteResult<()> {
    write_members_2::<&str, &str, Vec<u8>>(text, &first, &second)
}

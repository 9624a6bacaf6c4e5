//! The cases, in the order of their rows: the schema, the name, and how many of what, from the outermost in.
use crate::arguments::Asked;
use crate::each::time_each;
use crate::made::{Record, Sample};
use crate::pieces::{time_asking, time_pieces};
use crate::records::time_records;
use crate::streams::time_streams;
use crate::timing::Failure;
use crate::values::time_value;
use crate::writing::time_writing;
use example_schemas::event::EventU8;
use example_schemas::message::Message;
use std::collections::{BTreeMap, HashMap, VecDeque};
use std::rt::{Clock, Env, Files};
use wincode::len::BincodeLen;
use wincode::{By, containers};

/// A length with a limit that holds what the default's doesn't.
pub type LongLen = BincodeLen<100_000_000>;

type LongNumbers = containers::Vec<u64, LongLen>;

type LongBytes = containers::Vec<u8, LongLen>;

type LongRecords = containers::Vec<Record, LongLen>;

type Nested = Vec<Vec<Vec<Vec<u32>>>>;

/// Arrays that are read and written as their forms.
type Forms = Vec<containers::Pod<[u8; 32]>>;

type Sorted = BTreeMap<u64, u64>;

type Hashed = HashMap<u64, u64>;

/// Lists of so many numbers show how the time grows with the bytes.
const MILLIONS: [(&str, u64); 4] = [
    ("a million numbers", 1_000_000),
    ("2 million numbers", 2_000_000),
    ("4 million numbers", 4_000_000),
    ("8 million numbers", 8_000_000),
];

/// A row of the table of cases whose values are read and written by themselves.
macro_rules! case {
    ($rt:expr, $asked:expr, $schema:ty, $name:expr, $lengths:expr) => {
        time_value::<_, $schema>($rt, $asked, $name, &$lengths, &mut Vec::new($rt.alloc()))?
    };
}

/// Numbers: in lists, in lists of lists, in a queue, bytes, and floats.
fn time_numbers(rt: &(impl Clock + Print + AllocGlobal), asked: &Asked) -> Result<(), Failure> {
    case!(rt, asked, Vec<u64>, "numbers", [500_000]);
    for (name, count) in MILLIONS {
        case!(rt, asked, LongNumbers, name, [count]);
    }
    case!(rt, asked, Vec<u8>, "bytes", [4_000_000]);
    case!(rt, asked, LongBytes, "more bytes", [16_000_000]);
    case!(rt, asked, Vec<Vec<u64>>, "lists of numbers", [1_000, 1_000]);
    case!(rt, asked, Nested, "nested four deep", [20, 20, 20, 20]);
    case!(rt, asked, VecDeque<u64>, "queue", [500_000]);
    case!(rt, asked, Vec<f64>, "floats", [500_000]);
    Ok(())
}

/// Texts and maps.
fn time_texts(rt: &(impl Clock + Print + AllocGlobal), asked: &Asked) -> Result<(), Failure> {
    case!(rt, asked, String, "one text", [4_000_000]);
    case!(rt, asked, Vec<String>, "texts", [100_000, 20]);
    case!(rt, asked, Vec<String>, "more texts", [100_000, 4]);
    case!(rt, asked, Vec<(u64, String)>, "records with a text", [50_000, 20]);
    case!(rt, asked, Sorted, "sorted pairs", [100_000]);
    case!(rt, asked, Hashed, "hashed pairs", [100_000]);
    Ok(())
}

/// Lists of what has parts. Both sides of the results have one size.
fn time_parts(rt: &(impl Clock + Print + AllocGlobal), asked: &Asked) -> Result<(), Failure> {
    case!(rt, asked, Vec<Record>, "records in a list", [50_000]);
    case!(rt, asked, LongRecords, "more records", [200_000]);
    case!(rt, asked, Vec<[u8; 32]>, "arrays", [50_000]);
    case!(rt, asked, Forms, "arrays as forms", [50_000]);
    case!(rt, asked, Vec<(u64, u32)>, "pairs", [100_000]);
    case!(rt, asked, Vec<Option<u64>>, "options", [100_000]);
    case!(rt, asked, Vec<Result<u64, u64>>, "results", [100_000]);
    case!(rt, asked, Vec<EventU8>, "events", [50_000]);
    Ok(())
}

/// Small messages, and small structs by their shape, each by itself.
fn time_small(rt: &(impl Clock + Print + AllocGlobal), asked: &Asked) -> Result<(), Failure> {
    let alloc = rt.alloc();
    time_each::<_, Message>(rt, asked, "messages", 64, &mut Vec::new(alloc))?;
    time_each::<_, By<Sample>>(rt, asked, "small structs", 17, &mut Vec::new(alloc))
}

/// 160,000 bytes of each kind, in pieces.
fn time_all_pieces(rt: &(impl Clock + Print + AllocGlobal), asked: &Asked) -> Result<(), Failure> {
    time_asking(rt, asked, "bytes in pieces", 160_000)?;
    time_pieces::<_, Vec<u8>>(rt, asked, "bytes in pieces", &[160_000])?;
    time_pieces::<_, Vec<String>>(rt, asked, "texts in pieces", &[8_000, 12])?;
    time_pieces::<_, Sorted>(rt, asked, "sorted pairs in pieces", &[10_000])
}

/// Times each case that was asked for.
pub fn time_cases(
    rt: &(impl Clock + Env + Files + Print + AllocGlobal),
    asked: &Asked,
) -> Result<(), Failure> {
    time_numbers(rt, asked)?;
    time_texts(rt, asked)?;
    time_parts(rt, asked)?;
    time_records(rt, asked)?;
    time_small(rt, asked)?;
    time_streams(rt, asked)?;
    time_writing(rt, asked)?;
    time_all_pieces(rt, asked)
}

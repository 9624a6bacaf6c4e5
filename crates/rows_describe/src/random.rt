//! Pairs of types at random, and inputs that are read by both.
use std::alloc::{AllocError, Global};
use std::test::Fail;
use wincode_describe::described::{Cases, Integer, LengthScheme, StdType, TagSize};
use wincode_describe::{Answer, Described, are_same_parts, compare, explain};
use wincode_io::Lifetime;

/// How many inputs are read for a pair of types.
const INPUTS: usize = 50;

/// How deep a type is at the most.
const DEPTH: usize = 4;

/// The types without parts.
const LEAVES: [&str; 26] = [
    "u8",
    "u16",
    "u32",
    "u64",
    "u128",
    "usize",
    "i8",
    "i16",
    "i32",
    "i64",
    "i128",
    "isize",
    "bool",
    "char",
    "()",
    "String",
    "Vec<u8>",
    "short Vec<u8>",
    "[u8; 2]",
    "[u8; 0]",
    "f32",
    "f64",
    "NonZeroU16",
    "NonZeroI8",
    "Duration",
    "Ipv4Addr",
];

/// Numbers at random, of which one is another than its seed gives.
#[derive(Drop)]
struct Draws {
    state: u64,
    drawn: u64,
    changed: u64,
}

impl Draws {
    /// Of this seed, where the number drawn at this place is another.
    fn new(seed: u64, changed: u64) -> Draws {
        Draws {
            state: seed.wrapping_mul(0x9E37_79B9_7F4A_7C15).wrapping_add(1),
            drawn: 0,
            changed,
        }
    }

    /// The next number, below this one.
    fn below(&mut self, n: u64) -> u64 {
        self.state = self
            .state
            .wrapping_mul(6364136223846793005)
            .wrapping_add(1442695040888963407);
        let mut drawn = self.state >> 33;
        if self.drawn == self.changed {
            drawn = drawn.wrapping_mul(7).wrapping_add(3);
        }
        self.drawn = self.drawn.saturating_add(1);
        drawn.checked_rem(n).unwrap_or(0)
    }
}

/// The next byte, below this number.
fn byte_below(draws: &mut Draws, n: u64) -> u8 {
    draws.below(n).to_le_bytes()[0]
}

/// A type without parts.
fn push_leaf(draws: &mut Draws, text: &mut String) -> Result<(), AllocError> {
    let i = draws.below(26) as usize;
    text.push_str(LEAVES.get(i).copied().unwrap_or("u8"))
}

/// A type of at most so many levels.
#[cycle(types)]
fn push_type(draws: &mut Draws, levels: usize, text: &mut String) -> Result<(), AllocError> {
    let Some(below) = levels.checked_sub(1) else {
        return push_leaf(draws, text);
    };
    match draws.below(12) {
        0 => push_held(draws, "Option<", below, text),
        1 => push_held(draws, "Box<", below, text),
        2 => push_held(draws, "Vec<", below, text),
        3 => push_held(draws, "short Vec<", below, text),
        4 => push_held(draws, "BTreeSet<", below, text),
        5 => push_pair(draws, "BTreeMap<", ">", below, text),
        6 => push_pair(draws, "Result<", ">", below, text),
        7 => push_pair(draws, "(", ")", below, text),
        8 => push_array(draws, below, text),
        9 => push_struct(draws, below, text),
        10 => push_enum(draws, below, text),
        _ => push_leaf(draws, text),
    }
}

/// A type that holds another.
#[cycle(types)]
fn push_held(
    draws: &mut Draws,
    word: &str,
    levels: usize,
    text: &mut String,
) -> Result<(), AllocError> {
    text.push_str(word)?;
    push_type(draws, levels, text)?;
    text.push_str(">")
}

/// A type that holds two others.
#[cycle(types)]
fn push_pair(
    draws: &mut Draws,
    word: &str,
    end: &str,
    levels: usize,
    text: &mut String,
) -> Result<(), AllocError> {
    text.push_str(word)?;
    push_type(draws, levels, text)?;
    text.push_str(", ")?;
    push_type(draws, levels, text)?;
    text.push_str(end)
}

/// An array.
#[cycle(types)]
fn push_array(draws: &mut Draws, levels: usize, text: &mut String) -> Result<(), AllocError> {
    text.push_str("[")?;
    push_type(draws, levels, text)?;
    text.push_str(match draws.below(4) {
        0 => "; 0]",
        1 => "; 1]",
        2 => "; 2]",
        _ => "; 3]",
    })
}

/// A struct of one to three fields.
#[cycle(types)]
fn push_struct(draws: &mut Draws, levels: usize, text: &mut String) -> Result<(), AllocError> {
    text.push_str(if draws.below(2) == 0 {
        "struct { a: "
    } else {
        "struct { z: "
    })?;
    push_type(draws, levels, text)?;
    for name in [", b: ", ", c: "] {
        if draws.below(2) == 0 {
            text.push_str(name)?;
            push_type(draws, levels, text)?;
        }
    }
    text.push_str(" }")
}

/// An enum of one to three cases.
#[cycle(types)]
fn push_enum(draws: &mut Draws, levels: usize, text: &mut String) -> Result<(), AllocError> {
    text.push_str(match draws.below(6) {
        0 => "enum u16 { 1: ",
        1 => "enum u32 { 1: ",
        2 => "enum u64 { 1: ",
        _ => "enum u8 { 1: ",
    })?;
    push_type(draws, levels, text)?;
    for tag in [", 0: ", ", 3: "] {
        if draws.below(2) == 0 {
            text.push_str(tag)?;
            push_type(draws, levels, text)?;
        }
    }
    text.push_str(" }")
}

/// How many bytes an integer has.
fn integer_size(integer: Integer) -> usize {
    match integer {
        Integer::U8 | Integer::I8 => 1,
        Integer::U16 | Integer::I16 => 2,
        Integer::U32 | Integer::I32 => 4,
        Integer::U64 | Integer::I64 | Integer::Usize | Integer::Isize => 8,
        Integer::U128 | Integer::I128 => 16,
    }
}

/// How many bytes a tag has.
fn tag_bytes(size: TagSize) -> usize {
    match size {
        TagSize::U8 => 1,
        TagSize::U16 => 2,
        TagSize::U32 => 4,
        TagSize::U64 => 8,
    }
}

/// So many bytes at random.
fn push_bytes(draws: &mut Draws, n: usize, bytes: &mut Vec<u8>) -> Result<(), AllocError> {
    for _ in 0..n {
        let byte = if draws.below(3) == 0 {
            0
        } else {
            byte_below(draws, 256)
        };
        bytes.push(byte)?;
    }
    Ok(())
}

/// A number in so many bytes, the lowest first.
fn push_number(n: u64, size: usize, bytes: &mut Vec<u8>) -> Result<(), AllocError> {
    for (i, byte) in n.to_le_bytes().iter().enumerate() {
        if i < size {
            bytes.push(*byte)?;
        }
    }
    Ok(())
}

/// How many bytes a value of a type of std's has.
fn std_size(kind: StdType) -> usize {
    match kind {
        StdType::F32 | StdType::Ipv4Addr => 4,
        StdType::F64 => 8,
        StdType::Duration | StdType::SystemTime => 12,
        StdType::Ipv6Addr => 16,
        StdType::SocketAddrV4 => 6,
        StdType::SocketAddrV6 => 18,
    }
}

/// A length below 3.
fn push_length(
    draws: &mut Draws,
    scheme: LengthScheme,
    bytes: &mut Vec<u8>,
) -> Result<u64, AllocError> {
    let n = draws.below(3);
    let size = match scheme {
        LengthScheme::Eight => 8,
        LengthScheme::Short => 1,
    };
    push_number(n, size, bytes)?;
    Ok(n)
}

/// So many letters.
fn push_letters(draws: &mut Draws, n: u64, bytes: &mut Vec<u8>) -> Result<(), AllocError> {
    for _ in 0..n {
        bytes.push(byte_below(draws, 128))?;
    }
    Ok(())
}

/// So many values of the type.
#[cycle(values)]
fn push_values(
    draws: &mut Draws,
    described: &Described,
    n: u64,
    bytes: &mut Vec<u8>,
) -> Result<(), AllocError> {
    for _ in 0..n {
        push_value(draws, described, bytes)?;
    }
    Ok(())
}

/// A value of the type.
#[cycle(values)]
fn push_value(
    draws: &mut Draws,
    described: &Described,
    bytes: &mut Vec<u8>,
) -> Result<(), AllocError> {
    match described {
        Described::Integer(integer) | Described::NonZero(integer) => {
            push_bytes(draws, integer_size(*integer), bytes)
        }
        Described::Std(kind) => push_bytes(draws, std_size(*kind), bytes),
        Described::Bool => {
            let flag = draws.below(2);
            push_number(flag, 1, bytes)
        }
        Described::Char => push_letters(draws, 1, bytes),
        Described::Unit => Ok(()),
        Described::Text => {
            let n = push_length(draws, LengthScheme::Eight, bytes)?;
            push_letters(draws, n, bytes)
        }
        Described::ByteList(scheme) => {
            let n = push_length(draws, *scheme, bytes)?;
            push_letters(draws, n, bytes)
        }
        Described::ByteArray(n) => push_bytes(draws, (*n).min(8), bytes),
        Described::Option(content) => {
            let n = draws.below(2);
            push_number(n, 1, bytes)?;
            push_values(draws, content, n, bytes)
        }
        Described::Result(one, other) => {
            let tag = draws.below(2);
            push_number(tag, 4, bytes)?;
            push_value(draws, if tag == 0 { one } else { other }, bytes)
        }
        Described::List(scheme, item) => {
            let n = push_length(draws, *scheme, bytes)?;
            push_values(draws, item, n, bytes)
        }
        Described::Set(item) | Described::Map(item) => {
            let n = push_length(draws, LengthScheme::Eight, bytes)?;
            push_values(draws, item, n, bytes)
        }
        Described::Array(n, item) => push_values(draws, item, (*n as u64).min(8), bytes),
        Described::Boxed(content)
        | Described::Tuple(content)
        | Described::Struct(content)
        | Described::Field(_, content) => push_value(draws, content, bytes),
        Described::Joined(first, second) => {
            push_value(draws, first, bytes)?;
            push_value(draws, second, bytes)
        }
        Described::Enum(size, cases) => push_case(draws, *size, cases, bytes),
    }
}

/// A case of an enum: the last, or, one time in two, the first of several.
#[cycle(values)]
fn push_case(
    draws: &mut Draws,
    size: TagSize,
    cases: &Cases,
    bytes: &mut Vec<u8>,
) -> Result<(), AllocError> {
    match cases {
        Cases::Last(tag, content) => {
            push_number(*tag as u64, tag_bytes(size), bytes)?;
            push_value(draws, content, bytes)
        }
        Cases::Case(tag, content, others) => {
            if draws.below(2) == 0 {
                push_number(*tag as u64, tag_bytes(size), bytes)?;
                push_value(draws, content, bytes)
            } else {
                push_case(draws, size, others, bytes)
            }
        }
    }
}

/// An input: a value of the type, of which one time in four one byte is another.
fn input_of(
    alloc: Global,
    draws: &mut Draws,
    described: &Described,
) -> Result<Vec<u8>, AllocError> {
    let mut bytes = Vec::new(alloc);
    push_value(draws, described, &mut bytes)?;
    if draws.below(4) == 0 {
        let at = draws.below(bytes.len() as u64) as usize;
        let byte = byte_below(draws, 256);
        if let Some(there) = bytes.get_mut(at) {
            *there = byte;
        }
    }
    Ok(bytes)
}

/// Whether what the one type accepts the other accepts, with the same parts.
fn is_read_so(alloc: Global, old: &Described, new: &Described, bytes: &[u8]) -> bool {
    let was = explain::<Lifetime>(alloc, old, bytes);
    if was.refused.is_some() {
        return true;
    }
    let is = explain::<Lifetime>(alloc, new, bytes);
    is.refused.is_none() && are_same_parts(was.parts.as_slice(), is.parts.as_slice())
}

/// Whether no input contradicts the answer.
fn holds(
    alloc: Global,
    draws: &mut Draws,
    answer: Answer,
    (old, new): (&Described, &Described),
) -> Result<bool, AllocError> {
    for i in 0..INPUTS {
        let bytes = input_of(alloc, draws, if i < 25 { old } else { new })?;
        let input = bytes.as_slice();
        let is_read = match answer {
            Answer::Same => is_read_so(alloc, old, new, input)
                && is_read_so(alloc, new, old, input),
            Answer::Reads => is_read_so(alloc, old, new, input),
            Answer::Differs | Answer::MayDiffer => true,
        };
        if !is_read {
            return Ok(false);
        }
    }
    Ok(true)
}

/// A pair of types of this seed, and what is answered of it; refused where an input contradicts it.
fn answer_pair(alloc: Global, seed: u64) -> Result<Answer, Fail> {
    let mut choice = Draws::new(seed.wrapping_add(77), u64::MAX);
    let changed = choice.below(12);
    let mut old = String::new(alloc);
    push_type(&mut Draws::new(seed, u64::MAX), DEPTH, &mut old)?;
    let mut new = String::new(alloc);
    push_type(&mut Draws::new(seed, changed), DEPTH, &mut new)?;
    let was = Described::parse(alloc, old.as_str())?;
    let is = Described::parse(alloc, new.as_str())?;
    let answer = compare(alloc, &was, &is)?.answer;
    if holds(alloc, &mut choice, answer, (&was, &is))? {
        Ok(answer)
    } else {
        Err(Fail::from("an input contradicts the answer"))
    }
}

/// The answers to so many pairs from this seed on.
pub fn answer_pairs(alloc: Global, pairs: usize, seed: u64) -> Result<Vec<Answer>, Fail> {
    let mut answers = Vec::new(alloc);
    for i in 0..pairs {
        answers.push(answer_pair(alloc, seed.wrapping_add(i as u64))?)?;
    }
    Ok(answers)
}

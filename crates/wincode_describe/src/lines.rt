//! What is printed of bytes that are explained or checked.
ghost use Rattle.std.specs.List.{slice_get};
ghost use Rattle.std.specs.Prelude.{
  ◌≡◌,
  ◌+◌,
  ◌≤◌,
  List,
  [],
  ◌++◌,
  length,
  map,
  slice_range,
  MatchOption,
  IfOk,
  OnOk,
  is_none,
};
ghost use Rattle.std.specs.String.{string_bytes};
ghost use Rattle.wincode_describe.specs.Explained.{Explains};
ghost use Rattle.wincode_describe.specs.Lines.{
  IsLine,
  IsRefusal,
  AreLines,
  Prints,
  Tells,
  TellsSource,
  IsVerdict,
  TellsChecked,
  TellsCheckedSource,
  spaced,
  end_of,
};
ghost use Rattle.wincode_describe.specs.Parts.{Part, seen};
ghost use Rattle.wincode_describe.specs.Spans.{AreSpans};

use crate::described::{Described, LengthScheme, StdType};
use crate::explaining::{Checked, Explained, check, check_read, explain};
use crate::parts::part_size;
use crate::places::places_of;
use crate::printing::{integer_word, std_word};
use crate::shown::Shown;
use crate::spans::{Span, spans};
use crate::streaming::{bytes_left, explain_source};
use std::alloc::{AllocError, Global};
use std::net::{Ipv4Addr, Ipv6Addr};
use std::num;
use wincode_base::error::{ReadError, ReadResult};
use wincode_base::len::{BincodeLen, PREALLOCATION_LIMIT, SeqLen, ShortU16Len};
use wincode_io::{Lifetime, Source, StreamReader};

/// How many bytes of a part are printed.
const PRINTED: usize = 16;

/// The bytes in hexadecimal; of more than are printed, the first and their number.
fn hexadecimal(alloc: Global, bytes: &[u8]) -> Result<String, AllocError> {
    let mut text = String::new(alloc);
    for byte in bytes.iter().take(PRINTED) {
        let digits = format!(in alloc; "{byte:02x}")?;
        text.push_str(digits.as_str())?;
    }
    if bytes.len() > PRINTED {
        let n = bytes.len();
        let number = format!(in alloc; ".. ({n} bytes)")?;
        text.push_str(number.as_str())?;
    }
    Ok(text)
}

/// Seconds, with what is left of nanoseconds behind a point.
fn time_text(alloc: Global, seconds: u64, nanos: u32) -> Result<String, AllocError> {
    let whole = seconds as u128 + (nanos / 1_000_000_000) as u128;
    let left = nanos % 1_000_000_000;
    if left == 0 {
        return format!(in alloc; "{whole}s");
    }
    let digits = format!(in alloc; "{left:09}")?;
    let digits = digits.as_str().trim_end_matches('0');
    format!(in alloc; "{whole}.{digits}s")
}

/// What a value of a type of std's is, as text; of the address of a socket, with its port.
fn std_text(alloc: Global, kind: StdType, number: u128, port: u16) -> Result<String, AllocError> {
    let word = std_word(kind);
    let octets = number.to_le_bytes();
    let [a, b, c, d, e, f, g, h, i, j, k, l, ..] = octets;
    let low = u64::from_le_bytes([a, b, c, d, e, f, g, h]);
    match kind {
        StdType::F32 => {
            let value = num::f32_from_bits_with_nan(u32::from_le_bytes([a, b, c, d]));
            format!(in alloc; "{word} {value}")
        }
        StdType::F64 => {
            let value = num::f64_from_bits_with_nan(low);
            format!(in alloc; "{word} {value}")
        }
        StdType::Duration => {
            let value = time_text(alloc, low, u32::from_le_bytes([i, j, k, l]))?;
            format!(in alloc; "{word} {value}")
        }
        StdType::SystemTime => {
            let value = time_text(alloc, low, u32::from_le_bytes([i, j, k, l]))?;
            format!(in alloc; "{word} {value} since 1970")
        }
        StdType::Ipv4Addr => {
            let value = Ipv4Addr::from_octets([a, b, c, d]);
            format!(in alloc; "{word} {value}")
        }
        StdType::Ipv6Addr => {
            let value = Ipv6Addr::from_octets(octets);
            format!(in alloc; "{word} {value}")
        }
        StdType::SocketAddrV4 => {
            let host = Ipv4Addr::from_octets([a, b, c, d]);
            format!(in alloc; "{word} {host}:{port}")
        }
        StdType::SocketAddrV6 => {
            let host = Ipv6Addr::from_octets(octets);
            format!(in alloc; "{word} [{host}]:{port}")
        }
    }
}

/// What a part is, as text.
fn value_text(alloc: Global, part: &Shown) -> Result<String, AllocError> {
    match part {
        Shown::Natural { integer, value } => {
            let word = integer_word(*integer);
            format!(in alloc; "{word} {value}")
        }
        Shown::Signed { integer, value } => {
            let word = integer_word(*integer);
            format!(in alloc; "{word} {value}")
        }
        Shown::Std { kind, number } => std_text(alloc, *kind, *number, 0),
        Shown::Socket { kind, host, port } => std_text(alloc, *kind, *host, *port),
        Shown::Flag(flag) => format!(in alloc; "flag {flag}"),
        Shown::Character(character) => format!(in alloc; "char {character:?}"),
        Shown::Text(text) => format!(in alloc; "text {text:?}"),
        Shown::Bytes(bytes) => {
            let n = bytes.len();
            format!(in alloc; "bytes {n}")
        }
        Shown::Length { count, .. } => format!(in alloc; "length {count}"),
        Shown::Tag { tag, .. } => format!(in alloc; "tag {tag}"),
        Shown::Nothing => String::from_str(alloc, "nothing"),
    }
}

/// The place with that number, or none.
fn place_at(places: &[String], i: usize) -> &str
    ensures { MatchOption (slice_get places.now i) (result.now ≡ []) (λ place. result.now ≡ string_bytes place) }
{
    match places.get(i) {
        Some(place) => place.as_str(),
        None => "",
    }
}

/// The bytes of a part.
fn bytes_at(bytes: &[u8], span: Span) -> &[u8]
    ensures { span.offset + span.size ≤ length bytes.now
        → result.now ≡ slice_range bytes.now span.offset (span.offset + span.size) }
{
    match span.offset.checked_add(span.size) {
        Some(end) => match bytes.get(span.offset..end) {
            Some(part) => part,
            None => &[],
        },
        None => &[],
    }
}

/// Where the parts end.
fn end_of(spans: &[Span]) -> usize
    ensures { (parts : List Part) → AreSpans 0 parts spans.now → result ≡ end_of parts }
{
    match spans.last() {
        Some(span) => span.offset.saturating_add(span.size),
        None => 0,
    }
}

/// A space and the place, if it isn't that of the whole.
fn push_place(text: &mut String, place: &str) -> Result<(), AllocError>
    ensures { OnOk result (string_bytes text.new ≡ string_bytes text.old ++ spaced place.now) }
{
    if !place.is_empty() {
        text.push_str(" ")?;
        text.push_str(place)?;
    }
    Ok(())
}

/// A line of a part that stands there and has these bytes.
pub(crate) fn push_line(
    alloc: Global,
    text: &mut String,
    offset: usize,
    bytes: &[u8],
    place: &str,
    part: &Shown,
) -> Result<(), AllocError>
    ensures { OnOk result (IsLine offset place.now (string_bytes text.old) (string_bytes text.new)) }
{
    let digits = hexadecimal(alloc, bytes)?;
    let value = value_text(alloc, part)?;
    let begin = format!(in alloc; "{offset}: {digits}")?;
    text.push_str(begin.as_str())?;
    push_place(text, place)?;
    text.push_str(" ")?;
    text.push_str(value.as_str())?;
    text.push_str("\n")
}

/// The line of a refusal.
pub(crate) fn push_refusal(
    alloc: Global,
    text: &mut String,
    at: usize,
    place: &str,
    error: &ReadError,
) -> Result<(), AllocError>
    ensures { OnOk result (IsRefusal at place.now (string_bytes text.old) (string_bytes text.new)) }
{
    let begin = format!(in alloc; "{at}:")?;
    text.push_str(begin.as_str())?;
    push_place(text, place)?;
    let end = format!(in alloc; " refused: {error}\n")?;
    text.push_str(end.as_str())
}

/// A line for each part, of those places.
fn part_lines(
    alloc: Global,
    parts: &[Shown],
    places: &[String],
    spans: &[Span],
    bytes: &[u8],
) -> Result<String, AllocError>
    ensures { length parts.now ≡ length spans.now
        → IfOk result (λ text. AreLines (map (λ s. s.offset) spans.now) (map string_bytes places.now) (length spans.now) (string_bytes text)) }
{
    let mut text = String::new(alloc);
    for (i, span) in spans.iter().enumerate() {
        let Some(part) = parts.get(i) else {
            return Ok(text);
        };
        let front = bytes_at(bytes, *span);
        push_line(
            alloc,
            &mut text,
            span.offset,
            front,
            place_at(places, i),
            part,
        )?;
    }
    Ok(text)
}

/// A line for each part that was explained: its offset, its bytes in hexadecimal, the first 16 where there are more, its
/// place in the type and its value. A refusal is the last line: the offset behind the parts that were read, the place and
/// the error.
fn lines_of(
    alloc: Global,
    described: &Described,
    explained: &Explained,
    spans: &[Span],
    bytes: &[u8],
) -> Result<String, AllocError>
    ensures { AreSpans 0 (map seen explained.now.parts.items) spans.now
        → IfOk result (λ text. Prints described.now (map seen explained.now.parts.items) explained.now.refused (string_bytes text)) }
{
    let parts = explained.parts.as_slice();
    let found = places_of(alloc, described, parts)?;
    let places = found.as_slice();
    let mut text = part_lines(alloc, parts, places, spans, bytes)?;
    match &explained.refused {
        None => Ok(text),
        Some(error) => {
            let place = place_at(places, parts.len());
            push_refusal(alloc, &mut text, end_of(spans), place, error)?;
            Ok(text)
        }
    }
}

/// What was explained of bytes, and where its parts stand.
fn explain_spans(
    alloc: Global,
    described: &Described,
    bytes: &[u8],
) -> Result<(Explained, Vec<Span>), AllocError>
    ensures { IfOk result (λ found. Explains described.now bytes.now (map seen found.0.parts.items) found.0.refused
        × AreSpans 0 (map seen found.0.parts.items) found.1.items) }
{
    let explained = explain::<Lifetime>(alloc, described, bytes);
    let spans = spans(alloc, explained.parts.as_slice())?;
    Ok((explained, spans))
}

/// A line for each part of the value at the front of the bytes: its offset, its bytes in hexadecimal, the first 16 where
/// there are more, its place in the type and its value. A refusal is the last line: the offset behind the parts that were
/// read, the place and the error. And whether a value was read.
pub fn explained_lines(
    alloc: Global,
    described: &Described,
    bytes: &[u8],
) -> Result<(bool, String), AllocError>
    ensures { IfOk result (λ told. Tells described.now bytes.now told.0 (string_bytes told.1)) }
{
    let (explained, spans) = explain_spans(alloc, described, bytes)?;
    let lines = lines_of(alloc, described, &explained, spans.as_slice(), bytes)?;
    Ok((explained.refused.is_none(), lines))
}

/// What one line says of what was checked, behind which so many bytes are left; and whether a value was read.
fn line_of(alloc: Global, checked: &Checked, left: usize) -> Result<(bool, String), AllocError>
    ensures { IfOk result (λ told. (told.0 ≡ is_none checked.now.refused) × IsVerdict checked.now.bytes left checked.now.refused (string_bytes told.1)) }
{
    let bytes = checked.bytes;
    match &checked.refused {
        None => {
            let line = format!(in alloc; "ok, {bytes} bytes, {left} left")?;
            Ok((true, line))
        }
        Some(error) => {
            let mut line = format!(in alloc; "refused at {bytes}: ")?;
            let why = format!(in alloc; "{error}")?;
            line.push_str(why.as_str())?;
            Ok((false, line))
        }
    }
}

/// One line: `ok, N bytes, M left`, or the refusal with its offset; and whether a value was read. No part of the value is
/// kept.
pub fn checked_line(
    alloc: Global,
    described: &Described,
    bytes: &[u8],
) -> Result<(bool, String), AllocError>
    ensures { IfOk result (λ told. TellsChecked described.now bytes.now told.0 (string_bytes told.1)) }
{
    let checked = check::<Lifetime>(alloc, described, bytes);
    let left = bytes.len().saturating_sub(checked.bytes);
    line_of(alloc, &checked, left)
}

/// Adds the first so many of these bytes.
pub(crate) fn push_front(bytes: &mut Vec<u8>, front: &[u8], size: usize) -> Result<(), AllocError> {
    for byte in front.iter().take(size) {
        bytes.push(*byte)?;
    }
    Ok(())
}

/// Adds the bytes of a length, as its scheme puts them together.
fn push_length(bytes: &mut Vec<u8>, scheme: LengthScheme, count: usize) -> Result<(), AllocError> {
    let mut room = [0u8; 8];
    let size = match scheme {
        LengthScheme::Eight => BincodeLen::<PREALLOCATION_LIMIT>::encode(count, &mut room),
        LengthScheme::Short => ShortU16Len::encode(count, &mut room),
    };
    push_front(bytes, &room, size.unwrap_or(0))
}

/// Adds the bytes of a part.
pub(crate) fn push_bytes(bytes: &mut Vec<u8>, part: &Shown) -> Result<(), AllocError> {
    let size = part_size(part);
    match part {
        Shown::Natural { value, .. } => push_front(bytes, &value.to_le_bytes(), size),
        Shown::Signed { value, .. } => push_front(bytes, &value.to_le_bytes(), size),
        Shown::Std { number, .. } => push_front(bytes, &number.to_le_bytes(), size),
        Shown::Socket { host, port, .. } => {
            push_front(bytes, &host.to_le_bytes(), size.saturating_sub(2))?;
            push_front(bytes, &port.to_le_bytes(), 2)
        }
        Shown::Flag(flag) => push_front(bytes, &[*flag as u8], size),
        Shown::Character(character) => {
            let mut room = [0u8; 4];
            push_front(bytes, character.encode_utf8(&mut room).as_bytes(), size)
        }
        Shown::Text(text) => push_front(bytes, text.as_bytes(), size),
        Shown::Bytes(content) => push_front(bytes, content.as_slice(), size),
        Shown::Length { scheme, count } => push_length(bytes, *scheme, *count),
        Shown::Tag { tag, .. } => push_front(bytes, &tag.to_le_bytes(), size),
        Shown::Nothing => Ok(()),
    }
}

/// As `explained_lines`, of what comes of the source, of which no more is read than the value needs and a buffer holds.
pub fn explained_source_lines<S: Source + Drop>(
    alloc: Global,
    described: &Described,
    source: S,
) -> ReadResult<(bool, String)>
    ensures { IfOk result (λ told. TellsSource described.now (S.state source) told.0 (string_bytes told.1)) }
{
    let explained = explain_source(alloc, described, source);
    let mut bytes = Vec::new(alloc);
    for part in explained.parts.iter() {
        push_bytes(&mut bytes, part)?;
    }
    let spans = spans(alloc, explained.parts.as_slice())?;
    let lines = lines_of(
        alloc,
        described,
        &explained,
        spans.as_slice(),
        bytes.as_slice(),
    )?;
    Ok((explained.refused.is_none(), lines))
}

/// As `checked_line`, of what comes of the source. All of it is read, through a buffer, and none of it kept.
pub fn checked_source_line<S: Source + Drop>(
    alloc: Global,
    described: &Described,
    source: S,
) -> ReadResult<(bool, String)>
    ensures { IfOk result (λ told. TellsCheckedSource described.now (S.state source) told.0 (string_bytes told.1)) }
{
    let mut reader = StreamReader::new(alloc, source)?;
    let checked = check_read::<Lifetime, StreamReader<S>>(alloc, described, &mut reader);
    let left = match &checked.refused {
        None => bytes_left::<Lifetime, StreamReader<S>>(&mut reader)?,
        Some(_) => 0,
    };
    Ok(line_of(alloc, &checked, left)?)
}

/// What can be written in a type, a line each with an example.
pub const TYPES: &str = "\
integers      u8 to u128, i8 to i128, usize, isize
flags         bool
floats        f32, f64
not 0         NonZeroU8 to NonZeroU128, NonZeroI8 to NonZeroI128, NonZeroUsize, NonZeroIsize
times         Duration, SystemTime
addresses     Ipv4Addr, Ipv6Addr, IpAddr, SocketAddrV4, SocketAddrV6, SocketAddr
characters    char
texts         String, also as PathBuf, BoxedStr, CowStr; RcStr, ArcStr
nothing       ()
lists         Vec<u64>, also as VecDeque, LinkedList, BinaryHeap, CowSlice
short lists   short Vec<u8>, behind a length of one to three bytes
maps          BTreeMap<u64, String>, also as HashMap
sets          BTreeSet<u32>, also as HashSet
options       Option<u16>
results       Result<u64, String>
boxes         Box<u64>, also as Rc, Arc
ranges        Range<u64>, RangeInclusive<u64>
wrappers      Wrapping<u64>, Saturating, Reverse, RangeFrom, RangeTo
arrays        [u8; 32]
tuples        (u64, bool, [u8; 32])
structs       struct { id: u64, name: String }
enums         enum u32 { 0: u64, 1: String }, tags of u8, u16, u32 or u64
";

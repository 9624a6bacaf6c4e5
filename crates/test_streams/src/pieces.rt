//! Values in pieces of many sizes, beside the same values in a slice.
use example_schemas::both::read_both;
use example_schemas::faults::Pieces;
use example_schemas::front::read_front;
use std::alloc::Global;
use std::collections::BTreeMap;
use std::io::ErrorKind;
use std::process::Abort;
use std::test::Fail;
use testkit_schemas::rows::{outcome, read_as};
use wincode::io::{self, Lifetime, Reader, StdSource, StreamReader};
use wincode::len::ShortU16Len;
use wincode::{
    ReadError, RoundTrip, SchemaGet, containers, deserialize, deserialize_from, rewrite, serialize,
};

const SIZES: [usize; 6] = [1, 2, 3, 7, 8192, 65536];

type Short = containers::Vec<u8, ShortU16Len>;

/// The bytes in pieces of this size, with an empty one behind each.
pub fn in_pieces(
    alloc: Global,
    bytes: &[u8],
    size: usize,
    fails: Option<ErrorKind>,
) -> Result<Pieces, Fail> {
    let mut pieces = Vec::new(alloc);
    for piece in bytes.chunks(size.max(1)) {
        pieces.push(Vec::from_slice(alloc, piece)?)?;
        pieces.push(Vec::new(alloc))?;
    }
    Ok(Pieces::new(alloc, pieces, fails))
}

/// How many bytes a reader has left.
pub fn left(reader: &mut StreamReader<Pieces>) -> Result<usize, Fail> {
    let rest = <StreamReader<Pieces> as Reader<Lifetime>>::fill_buf(reader, 1_000_000)?;
    Ok(rest.len())
}

/// Adds the bytes with the one at this place changed in three ways.
fn add_changed(
    alloc: Global,
    bytes: &[u8],
    place: usize,
    rows: &mut Vec<Vec<u8>>,
) -> Result<(), Fail> {
    for change in [1u8, 127, 255] {
        let mut changed = Vec::from_slice(alloc, bytes)?;
        if let Some(byte) = changed.get_mut(place) {
            *byte ^= change;
        }
        rows.push(changed)?;
    }
    Ok(())
}

/// The bytes, each front of them, and with each byte changed.
fn rows_of(alloc: Global, bytes: &[u8]) -> Result<Vec<Vec<u8>>, Fail> {
    let mut rows = vec![in alloc; Vec::from_slice(alloc, bytes)?]?;
    for place in 0..bytes.len() {
        rows.push(Vec::from_slice(alloc, &bytes[..place])?)?;
        add_changed(alloc, bytes, place, &mut rows)?;
    }
    Ok(rows)
}

/// The first size of pieces in which these bytes answer otherwise than a slice of them, if there is one.
fn first_unlike<'a, T: RoundTrip<Lifetime<'a>>>(
    alloc: Global,
    bytes: &'a [u8],
) -> Result<Option<String>, Fail>
where
    T::Src: Drop,
{
    let wanted = read_as::<T>(alloc, bytes)?;
    for size in SIZES {
        let mut reader = StreamReader::new(alloc, in_pieces(alloc, bytes, size, None)?)?;
        let text = rewrite::<Lifetime<'a>, StreamReader<Pieces>, T>(alloc, &mut reader);
        let found = outcome(alloc, text, left(&mut reader)?)?;
        if found != wanted {
            return Ok(Some(format!(in alloc; "{size}: {found}, not {wanted}")?));
        }
    }
    Ok(None)
}

/// So of any of the rows.
fn unlike<'a, T: RoundTrip<Lifetime<'a>>>(
    alloc: Global,
    rows: &'a [Vec<u8>],
) -> Result<Option<String>, Fail>
where
    T::Src: Drop,
{
    for row in rows {
        let found = first_unlike::<T>(alloc, row.as_slice())?;
        if found.is_some() {
            return Ok(found);
        }
    }
    Ok(None)
}

/// The numbers, of eight bytes each, and then three bytes more.
fn numbers(alloc: Global, numbers: &[u64]) -> Result<Vec<u8>, Fail> {
    let mut bytes = Vec::new(alloc);
    for number in numbers {
        bytes.extend_from_slice(&number.to_le_bytes())?;
    }
    bytes.extend_from_slice(&[7, 8, 9])?;
    Ok(bytes)
}

/// A list of three lists.
#[test]
fn lists_of_lists(rt: HostRuntime) -> Result<(), Fail> {
    let alloc = rt.alloc();
    let bytes = numbers(alloc, &[3, 2, 1, 2, 0, 1, 3])?;
    let rows = rows_of(alloc, bytes.as_slice())?;
    assert!(rt; unlike::<Vec<Vec<u64>>>(alloc, rows.as_slice())? == None);
    Ok(())
}

#[test]
fn texts(rt: HostRuntime) -> Result<(), Fail> {
    let alloc = rt.alloc();
    let bytes = [
        9u8, 0, 0, 0, 0, 0, 0, 0, 99, 97, 102, 0xc3, 0xa9, 32, 0xe2, 0x82, 0xac, 7, 8, 9,
    ];
    let rows = rows_of(alloc, bytes.as_slice())?;
    assert!(rt; unlike::<String>(alloc, rows.as_slice())? == None);
    Ok(())
}

/// Items of one size.
#[test]
fn pairs(rt: HostRuntime) -> Result<(), Fail> {
    let alloc = rt.alloc();
    let bytes = [2u8, 0, 0, 0, 0, 0, 0, 0, 7, 0, 1, 9, 2, 0, 7, 8, 9];
    let rows = rows_of(alloc, bytes.as_slice())?;
    assert!(rt; unlike::<Vec<(u16, bool)>>(alloc, rows.as_slice())? == None);
    Ok(())
}

#[test]
fn maps(rt: HostRuntime) -> Result<(), Fail> {
    let alloc = rt.alloc();
    let bytes = [
        2u8, 0, 0, 0, 0, 0, 0, 0, 3, 5, 0, 0, 0, 0, 0, 0, 0, 116, 104, 114, 101, 101, 4, 0, 0, 0,
        0, 0, 0, 0, 0,
    ];
    let rows = rows_of(alloc, bytes.as_slice())?;
    assert!(rt; unlike::<BTreeMap<u8, String>>(alloc, rows.as_slice())? == None);
    Ok(())
}

#[test]
fn short_lengths(rt: HostRuntime) -> Result<(), Fail> {
    let alloc = rt.alloc();
    for bytes in [[3u8, 1, 2, 3, 255, 9], [0x81, 0x01, 1, 2, 3, 255]] {
        let rows = rows_of(alloc, bytes.as_slice())?;
        assert!(rt; unlike::<Short>(alloc, rows.as_slice())? == None);
    }
    Ok(())
}

/// The numbers below this one.
fn below(alloc: Global, end: u64) -> Result<Vec<u64>, Fail> {
    let mut list = Vec::new(alloc);
    for i in 0..end {
        list.push(i)?;
    }
    Ok(list)
}

/// A list of lists that is larger than the buffer many times over.
fn large_value(alloc: Global) -> Result<Vec<Vec<u64>>, Fail> {
    let mut value = Vec::new(alloc);
    for n in [0u64, 1, 100, 1023, 1024, 1025, 5000, 20000] {
        value.push(below(alloc, n)?)?;
    }
    Ok(value)
}

/// Such a list in pieces of so many bytes, and what follows it.
fn large_lists_in_pieces(rt: &(impl Abort + AllocGlobal), sizes: &[usize]) -> Result<(), Fail> {
    let alloc = rt.alloc();
    let value = large_value(alloc)?;
    let mut text = serialize(alloc, &value)?;
    text.extend_from_slice(&[7, 8, 9])?;
    for size in sizes {
        let source = in_pieces(alloc, text.as_slice(), *size, None)?;
        let (read, mut reader) = read_front::<Lifetime, Pieces, Vec<Vec<u64>>>(alloc, source)?;
        let rest = left(&mut reader)?;
        assert!(rt; (read.as_slice(), rest) == (value.as_slice(), 3));
    }
    Ok(())
}

#[test]
fn large_lists_in_small_pieces(rt: HostRuntime) -> Result<(), Fail> {
    large_lists_in_pieces(&rt, &[1, 2, 3, 7])
}

#[test]
fn large_lists_in_pieces_as_large_as_the_buffer(rt: HostRuntime) -> Result<(), Fail> {
    large_lists_in_pieces(&rt, &[8191, 8192, 8193, 65536])
}

/// Reads a list of lists from a source that fails where these bytes end: none where it failed.
fn lists_before_a_failure(
    alloc: Global,
    bytes: &[u8],
    size: usize,
) -> Result<Option<Vec<Vec<u64>>>, Fail> {
    let mut reader = StreamReader::new(
        alloc,
        in_pieces(alloc, bytes, size, Some(ErrorKind::TimedOut))?,
    )?;
    match deserialize_from::<Lifetime, _, Vec<Vec<u64>>>(alloc, &mut reader) {
        Ok(lists) => Ok(Some(lists)),
        Err(ReadError::Io(io::ReadError::Io(e))) if e.kind() == ErrorKind::TimedOut => Ok(None),
        Err(_) => Err(Fail::from("refused otherwise")),
    }
}

/// The source fails where its bytes end: what needs no more than came is read.
#[test]
fn a_failure_behind_each_byte(rt: HostRuntime) -> Result<(), Fail> {
    let alloc = rt.alloc();
    let bytes = numbers(alloc, &[2, 1, 1, 0])?;
    let due = vec![in alloc; vec![in alloc; 1u64]?, Vec::new(alloc)]?;
    for n in 0..=32usize {
        for size in [1usize, 3, 64] {
            let front = bytes.get(..n).ok_or("a front")?;
            let lists = lists_before_a_failure(alloc, front, size)?;
            let is_whole = matches!(&lists, Some(lists) if *lists == due);
            assert!(rt; (is_whole, lists.is_none()) == (n == 32, n < 32));
        }
    }
    Ok(())
}

/// A short length asks for three bytes, and is read from fewer only where no more will come.
#[test]
fn a_failure_behind_a_short_length(rt: HostRuntime) -> Result<(), Fail> {
    let alloc = rt.alloc();
    let late = Some(ErrorKind::TimedOut);
    let rows: [(&[u8], Option<ErrorKind>, bool); 3] = [
        (&[3, 1, 2, 3], late, true),
        (&[0], late, false),
        (&[0], None, true),
    ];
    for (bytes, fails, is_read) in rows {
        let mut reader = StreamReader::new(alloc, in_pieces(alloc, bytes, 2, fails)?)?;
        let answer = <Short as SchemaGet<Lifetime>>::get(alloc, &mut reader);
        assert!(rt; answer.is_ok() == is_read);
    }
    Ok(())
}

#[test]
fn over_a_slice_of_std(rt: HostRuntime) -> Result<(), Fail> {
    let alloc = rt.alloc();
    let source = StdSource::new([3u8, 1, 2, 3, 255].as_slice());
    let mut reader = StreamReader::new(alloc, source)?;
    let mut bytes: &[u8] = &[3u8, 1, 2, 3, 255];
    let both = read_both::<Lifetime, &[u8], StreamReader<StdSource<&[u8]>>, u16>(
        alloc,
        &mut bytes,
        &mut reader,
    );
    let is_first = matches!(&both.first, Ok(259));
    let is_second = matches!(&both.second, Ok(259));
    assert!(rt; (is_first, is_second, reader.unread()) == (true, true, bytes));
    Ok(())
}

#[test]
fn a_reader_of_std_is_an_input(rt: HostRuntime) -> Result<(), Fail> {
    let alloc = rt.alloc();
    let reader = StreamReader::new(alloc, StdSource::new([9u8, 1].as_slice()))?;
    let read: u16 = deserialize(alloc, reader)?;
    assert!(rt; read == 265);
    Ok(())
}

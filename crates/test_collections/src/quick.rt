//! Lists of items that are decoded from the bytes at hand, and of items that are put together before they are written,
//! beside the same items that are read and written one by one. One type of item stands for each kind and each class of
//! sizes; other numbers are rows of data.

use std::alloc::Global;
use std::test::Fail;
use testkit_schemas::single::Single;
use wincode::io::{Lifetime, SliceWriter};
use wincode::len::ShortU16Len;
use wincode::{RoundTrip, SchemaWrite, containers, rewrite};

type Byte = Single<u8>;

type Flag = Single<bool>;

type Short = Single<u16>;

type Nested = (bool, (u16, u16));

type NestedApart = (Flag, (Short, Short));

type Twelve = (bool, u8, bool, u8, bool, u8, bool, u8, u8, u8, u8, u8);

/// One member that is read and written by itself keeps all from being put together.
type TwelveApart = (bool, u8, bool, u8, bool, u8, bool, u8, u8, u8, u8, Byte);

type Record = (u64, bool, [u8; 32]);

type RecordApart = (Single<u64>, Flag, [Byte; 32]);

/// How many bytes of items a long list has at the least: more than are put together at a time.
const LONG: usize = 2100;

/// The last byte in front of each edge of a block, and the two behind it.
const EDGES: [usize; 10] = [0, 7, 8, 9, 1031, 1032, 1033, 2055, 2056, 2057];

/// As many of the item behind their number, and two bytes more.
fn list_of(alloc: Global, n: usize, item: &[u8]) -> Result<Vec<u8>, Fail> {
    let mut bytes = Vec::from_slice(alloc, (n as u64).to_le_bytes().as_slice())?;
    for _i in 0..n {
        bytes.extend_from_slice(item)?;
    }
    bytes.extend_from_slice(&[1, 0])?;
    Ok(bytes)
}

/// Adds the list with the byte at this place changed, and the front of it up to there.
fn add_at(alloc: Global, list: &[u8], place: usize, rows: &mut Vec<Vec<u8>>) -> Result<(), Fail> {
    let mut changed = Vec::from_slice(alloc, list)?;
    if let Some(byte) = changed.get_mut(place) {
        *byte = 2;
    }
    rows.push(changed)?;
    rows.push(Vec::from_slice(alloc, list.get(..place).ok_or("a front")?)?)?;
    Ok(())
}

/// So at each place.
fn add_each(alloc: Global, list: &[u8], rows: &mut Vec<Vec<u8>>) -> Result<(), Fail> {
    for place in 0..list.len() {
        add_at(alloc, list, place, rows)?;
    }
    Ok(())
}

/// So at the edges of blocks.
fn add_edges(alloc: Global, list: &[u8], rows: &mut Vec<Vec<u8>>) -> Result<(), Fail> {
    for place in EDGES {
        add_at(alloc, list, place, rows)?;
    }
    Ok(())
}

/// Lists of so many of the item; a list of 6 with each byte changed, and each front; and a long list so at the edges of
/// blocks.
fn lists_of(alloc: Global, item: &[u8]) -> Result<Vec<Vec<u8>>, Fail> {
    let mut rows = Vec::new(alloc);
    for n in [0, 1, 4, 5, 24, 25, 31, 32, 33, 48, 49, 1000] {
        rows.push(list_of(alloc, n, item)?)?;
    }
    let list = list_of(alloc, 6, item)?;
    add_each(alloc, list.as_slice(), &mut rows)?;
    let count = LONG.checked_div(item.len()).unwrap_or(0).saturating_add(1);
    let list = list_of(alloc, count, item)?;
    add_edges(alloc, list.as_slice(), &mut rows)?;
    Ok(rows)
}

/// What reading answers: how many bytes are left, the error, and the encoding of the value.
fn answer<'a, T: RoundTrip<Lifetime<'a>>>(
    alloc: Global,
    bytes: &'a [u8],
) -> Result<(usize, String, Vec<u8>), Fail>
where
    T::Src: Drop,
{
    let mut reader = bytes;
    let text = rewrite::<Lifetime<'a>, &'a [u8], T>(alloc, &mut reader);
    let left = reader.len();
    match text {
        Ok(text) => Ok((left, String::new(alloc), text)),
        Err(error) => Ok((left, format!(in alloc; "{error:?}")?, Vec::new(alloc))),
    }
}

/// Whether both read each of the lists alike, by these schemas of an item.
fn are_alike<'a, T: RoundTrip<Lifetime<'a>>, S: RoundTrip<Lifetime<'a>>>(
    alloc: Global,
    rows: &'a [Vec<u8>],
) -> Result<bool, Fail>
where
    T::Src: Drop,
    S::Src: Drop,
{
    for row in rows {
        let one = answer::<Vec<T>>(alloc, row.as_slice())?;
        let other = answer::<Vec<S>>(alloc, row.as_slice())?;
        if one.0 != other.0 || one.1 != other.1 || one.2 != other.2 {
            return Ok(false);
        }
    }
    Ok(true)
}

/// Whether lists are read alike at once and item by item.
fn are_alike_singly<'a, T: RoundTrip<Lifetime<'a>>>(
    alloc: Global,
    rows: &'a [Vec<u8>],
) -> Result<bool, Fail>
where
    T::Src: Drop,
{
    are_alike::<T, Single<T>>(alloc, rows)
}

/// Bytes, flags and units.
#[test]
fn leaves_are_read_alike(rt: HostRuntime) -> Result<(), Fail> {
    let alloc = rt.alloc();
    let all = lists_of(alloc, &[1])?;
    let rows = all.as_slice();
    let bytes = are_alike_singly::<u8>(alloc, rows)?;
    let flags = are_alike_singly::<bool>(alloc, rows)?;
    let units = are_alike_singly::<()>(alloc, rows)?;
    assert!(rt; [bytes, flags, units] == [true; 3]);
    Ok(())
}

#[test]
fn numbers_are_read_alike(rt: HostRuntime) -> Result<(), Fail> {
    let alloc = rt.alloc();
    let all = lists_of(alloc, &[7, 0, 0, 255, 0, 1, 128, 3])?;
    let rows = all.as_slice();
    let short = are_alike_singly::<u16>(alloc, rows)?;
    let long = are_alike_singly::<usize>(alloc, rows)?;
    assert!(rt; [short, long] == [true; 2]);
    Ok(())
}

/// Items of 41 bytes, which are written several at a time.
#[test]
fn records_are_read_alike(rt: HostRuntime) -> Result<(), Fail> {
    let alloc = rt.alloc();
    let all = lists_of(
        alloc,
        &[
            8, 7, 6, 5, 4, 3, 0, 1, 1, 31, 30, 29, 28, 27, 26, 25, 24, 23, 22, 21, 20, 19, 18, 17,
            16, 15, 14, 13, 12, 11, 10, 9, 8, 7, 6, 5, 4, 3, 2, 1, 0,
        ],
    )?;
    assert!(rt; are_alike::<Record, RecordApart>(alloc, all.as_slice())?);
    Ok(())
}

/// Bytes, numbers in arrays in arrays, and one form.
#[test]
fn arrays_are_read_alike(rt: HostRuntime) -> Result<(), Fail> {
    let alloc = rt.alloc();
    let all = lists_of(
        alloc,
        &[
            9, 8, 7, 6, 5, 4, 3, 2, 1, 0, 255, 254, 253, 252, 251, 250, 1,
        ],
    )?;
    let rows = all.as_slice();
    let bytes = are_alike::<[u8; 17], [Byte; 17]>(alloc, rows)?;
    let numbers = are_alike::<[[u16; 2]; 2], [[Short; 2]; 2]>(alloc, rows)?;
    let forms = are_alike_singly::<containers::Pod<u32>>(alloc, rows)?;
    assert!(rt; [bytes, numbers, forms] == [true; 3]);
    Ok(())
}

#[test]
fn arrays_of_flags_are_read_alike(rt: HostRuntime) -> Result<(), Fail> {
    let alloc = rt.alloc();
    let all = lists_of(alloc, &[1, 0, 1])?;
    assert!(rt; are_alike::<[bool; 3], [Flag; 3]>(alloc, all.as_slice())?);
    Ok(())
}

/// Each is read by one look at its bytes, where these are at hand.
#[test]
fn options_are_read_alike(rt: HostRuntime) -> Result<(), Fail> {
    let alloc = rt.alloc();
    let all = lists_of(alloc, &[1, 7, 0, 0, 1, 0])?;
    assert!(rt; are_alike::<Option<u16>, Option<Short>>(alloc, all.as_slice())?);
    Ok(())
}

/// More bytes than are put together for one item.
#[test]
fn large_items_are_read_alike(rt: HostRuntime) -> Result<(), Fail> {
    let alloc = rt.alloc();
    let all = lists_of(alloc, &[7; 65])?;
    assert!(rt; are_alike_singly::<[u8; 65]>(alloc, all.as_slice())?);
    Ok(())
}

#[test]
fn pairs_are_read_alike(rt: HostRuntime) -> Result<(), Fail> {
    let alloc = rt.alloc();
    let all = lists_of(alloc, &[1, 0, 1, 9, 8])?;
    assert!(rt; are_alike::<Nested, NestedApart>(alloc, all.as_slice())?);
    Ok(())
}

/// Each length of tuples is read by the next shorter one.
#[test]
fn long_tuples_are_read_alike(rt: HostRuntime) -> Result<(), Fail> {
    let alloc = rt.alloc();
    let all = lists_of(alloc, &[1, 2, 1, 3, 1, 5, 1, 7, 8, 9, 10, 11])?;
    assert!(rt; are_alike::<Twelve, TwelveApart>(alloc, all.as_slice())?);
    Ok(())
}

#[test]
fn results_are_read_alike(rt: HostRuntime) -> Result<(), Fail> {
    let alloc = rt.alloc();
    let all = lists_of(alloc, &[0, 0, 0, 0, 9, 8, 1, 0, 0, 0, 1, 0])?;
    assert!(rt;
        are_alike::<Result<u16, [bool; 2]>, Result<Short, [Flag; 2]>>(alloc, all.as_slice())?
    );
    Ok(())
}

/// What writing the value into so many bytes answers: what was written, and the error.
fn written_into<T: SchemaWrite>(
    alloc: Global,
    value: &T::Src,
    room: usize,
) -> Result<(Vec<u8>, String), Fail> {
    let mut bytes = vec![in alloc; 0u8; room]?;
    let mut writer = SliceWriter::new(bytes.as_mut_slice());
    let outcome = T::write(&mut writer, value);
    let written = Vec::from_slice(alloc, writer.written())?;
    match outcome {
        Ok(()) => Ok((written, String::new(alloc))),
        Err(error) => Ok((written, format!(in alloc; "{error:?}")?)),
    }
}

/// Whether both write the value alike into each room up to that of its encoding and one byte more, and into a vector
/// without room at hand.
fn are_written_alike<U, T: SchemaWrite<Src = U>, S: SchemaWrite<Src = U>>(
    alloc: Global,
    value: &U,
) -> Result<bool, Fail> {
    let mut bytes = Vec::new(alloc);
    T::write(&mut bytes, value)?;
    let mut apart = Vec::new(alloc);
    S::write(&mut apart, value)?;
    if bytes != apart {
        return Ok(false);
    }
    for room in 0..bytes.len() + 2 {
        let one = written_into::<T>(alloc, value, room)?;
        let other = written_into::<S>(alloc, value, room)?;
        if one.0 != other.0 || one.1 != other.1 {
            return Ok(false);
        }
    }
    Ok(true)
}

/// So many texts of 0 to 6 bytes.
fn texts_of(alloc: Global, count: usize) -> Result<Vec<String>, Fail> {
    let mut texts = Vec::new(alloc);
    for i in 0..count {
        let letters = "quicker";
        texts.push(String::from_str(alloc, &letters[..i % 7])?)?;
    }
    Ok(texts)
}

/// Texts, by themselves and in boxes.
#[test]
fn texts_are_read_alike(rt: HostRuntime) -> Result<(), Fail> {
    let alloc = rt.alloc();
    let all = lists_of(alloc, &[2, 0, 0, 0, 0, 0, 0, 0, 104, 105])?;
    let rows = all.as_slice();
    let plain = are_alike_singly::<String>(alloc, rows)?;
    let boxed = are_alike_singly::<Box<String>>(alloc, rows)?;
    assert!(rt; [plain, boxed] == [true; 2]);
    Ok(())
}

/// Texts behind a flag, and in options.
#[test]
fn texts_in_others_are_read_alike(rt: HostRuntime) -> Result<(), Fail> {
    let alloc = rt.alloc();
    let all = lists_of(alloc, &[1, 1, 0, 0, 0, 0, 0, 0, 0, 7])?;
    let rows = all.as_slice();
    let pairs = are_alike::<(bool, String), (Flag, Single<String>)>(alloc, rows)?;
    let options = are_alike_singly::<Option<String>>(alloc, rows)?;
    assert!(rt; [pairs, options] == [true; 2]);
    Ok(())
}

/// Lists behind a short length.
#[test]
fn lists_are_read_alike(rt: HostRuntime) -> Result<(), Fail> {
    let alloc = rt.alloc();
    let all = lists_of(alloc, &[2, 7, 8])?;
    assert!(rt; are_alike_singly::<containers::Vec<u8, ShortU16Len>>(alloc, all.as_slice())?);
    Ok(())
}

/// Lists on one side of a result.
#[test]
fn lists_in_results_are_read_alike(rt: HostRuntime) -> Result<(), Fail> {
    let alloc = rt.alloc();
    let all = lists_of(
        alloc,
        &[0, 0, 0, 0, 9, 1, 0, 0, 0, 2, 0, 0, 0, 0, 0, 0, 0, 7, 8],
    )?;
    assert!(rt; are_alike_singly::<Result<u8, Vec<u8>>>(alloc, all.as_slice())?);
    Ok(())
}

/// Into each room.
#[test]
fn items_of_no_one_size_are_refused_alike(rt: HostRuntime) -> Result<(), Fail> {
    let alloc = rt.alloc();
    for count in [0, 1, 4, 5, 33, 100] {
        let texts = texts_of(alloc, count)?;
        assert!(rt; are_written_alike::<_, Vec<String>, Vec<Single<String>>>(alloc, &texts)?);
    }
    Ok(())
}

/// So of lists in a list.
#[test]
fn lists_of_texts_are_refused_alike(rt: HostRuntime) -> Result<(), Fail> {
    let alloc = rt.alloc();
    let mut nested = Vec::new(alloc);
    for count in [3, 90, 1] {
        nested.push(texts_of(alloc, count)?)?;
    }
    assert!(rt;
        are_written_alike::<_, Vec<Vec<String>>, Vec<Single<Vec<Single<String>>>>>(alloc, &nested)?
    );
    Ok(())
}

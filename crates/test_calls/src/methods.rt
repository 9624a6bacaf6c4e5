//! The calls as methods of schemas, and from a reader: each call once, and that a value takes its own bytes alone.
use std::alloc::Global;
use std::test::Fail;
use wincode::io::{self, Cursor, Lending, Lifetime, Reader};
use wincode::len::ShortU16Len;
use wincode::serde::{Deserialize, DeserializeOwned, Serialize};
use wincode::{ReadError, SchemaReadOwned, containers, deserialize_from};

/// The schema behind whose length of one byte bytes stand.
type Short = containers::Vec<u8, ShortU16Len>;

#[test]
fn values_as_methods_of_their_schema(rt: HostRuntime) -> Result<(), Fail> {
    let alloc = rt.alloc();
    let bytes = vec![in alloc; 7u8, 8, 9]?;
    let text = <Short as Serialize>::serialize(alloc, &bytes)?;
    let size = <Short as Serialize>::serialized_size(&bytes)?;
    let mut out = vec![in alloc; 1u8]?;
    <Short as Serialize>::serialize_into(&mut out, &bytes)?;
    let due = ([3u8, 7, 8, 9].as_slice(), 4, [1u8, 3, 7, 8, 9].as_slice());
    assert!(rt; (text.as_slice(), size, out.as_slice()) == due);
    Ok(())
}

#[test]
fn values_read_by_their_schema(rt: HostRuntime) -> Result<(), Fail> {
    let text = [3u8, 7, 8, 9].as_slice();
    let back = <Short as Deserialize<Lifetime>>::deserialize(rt.alloc(), text)?;
    assert!(rt; back.as_slice() == [7u8, 8, 9].as_slice());
    Ok(())
}

/// A refused one leaves the destination.
#[test]
fn values_read_into_a_destination(rt: HostRuntime) -> Result<(), Fail> {
    let alloc = rt.alloc();
    let mut dst = None;
    for (text, is_read) in [
        ([3u8, 7, 8, 9].as_slice(), true),
        ([3u8, 7].as_slice(), false),
    ] {
        let answer = <Short as Deserialize<Lifetime>>::deserialize_into(alloc, text, &mut dst);
        let is_there = matches!(&dst, Some(list) if list.as_slice() == [7u8, 8, 9].as_slice());
        assert!(rt; (answer.is_ok(), is_there) == (is_read, true));
    }
    Ok(())
}

/// Two values, one after the other, from any reader.
fn take_two<L: Lending, R: Reader<L>, T: SchemaReadOwned<L>>(
    alloc: Global,
    reader: &mut R,
) -> Result<(T::Dst, Option<T::Dst>), ReadError> {
    let first = <T as DeserializeOwned<L>>::deserialize_from(alloc, reader)?;
    let mut second = None;
    <T as DeserializeOwned<L>>::deserialize_from_into(alloc, reader, &mut second)?;
    Ok((first, second))
}

#[test]
fn values_from_a_reader(rt: HostRuntime) -> Result<(), Fail> {
    let mut reader = [1u8, 0, 0, 0, 0, 0, 0, 0, 3, 2, 5].as_slice();
    let list: Vec<u16> = deserialize_from(rt.alloc(), &mut reader)?;
    let found = (list.as_slice(), reader);
    assert!(rt; found == ([515].as_slice(), [5u8].as_slice()));
    Ok(())
}

#[test]
fn two_values_from_a_cursor(rt: HostRuntime) -> Result<(), Fail> {
    let alloc = rt.alloc();
    let mut cursor = Cursor::new([1u8, 0, 2, 0, 3].as_slice());
    let (first, second) = take_two::<Lifetime, Cursor<&[u8]>, u16>(alloc, &mut cursor)?;
    let position = cursor.position();
    let refused = take_two::<Lifetime, Cursor<&[u8]>, u16>(alloc, &mut cursor);
    let is_refused = matches!(
        &refused,
        Err(ReadError::Io(io::ReadError::ReadSizeLimit(2)))
    );
    assert!(rt; (first, second, position, is_refused) == (1, Some(2), 4, true));
    Ok(())
}

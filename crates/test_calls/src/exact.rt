//! The value of exactly some bytes.
use std::alloc::Global;
use std::collections::BTreeMap;
use std::test::Fail;
use wincode::io::{Input, Lending, ReadError as Refusal};
use wincode::{ExactError, ReadError, SchemaRead, deserialize_exact};

/// How many bytes are left behind the value: 0 behind one of exactly these bytes, none where no value is in front.
fn behind<I: Input, T: SchemaRead<I::Lends, Dst = T> + Drop>(
    alloc: Global,
    bytes: I,
) -> Option<usize>
where
    I::Lends: Lending<Bytes = I>,
{
    match deserialize_exact::<I, T>(alloc, bytes) {
        Ok(_value) => Some(0),
        Err(ExactError::Behind(size)) => Some(size),
        Err(ExactError::Read(_)) => None,
    }
}

/// So many of the bytes, or all where there are fewer.
fn front(bytes: &[u8], size: usize) -> &[u8] {
    match bytes.get(..size) {
        Some(front) => front,
        None => bytes,
    }
}

/// A text of three letters, and two bytes behind it.
const BYTES: [u8; 13] = [3, 0, 0, 0, 0, 0, 0, 0, 97, 98, 99, 0, 1];

#[test]
fn of_each_length(rt: HostRuntime) -> Result<(), Fail> {
    let alloc = rt.alloc();
    for (size, due) in [
        (0, None),
        (7, None),
        (8, None),
        (10, None),
        (11, Some(0)),
        (12, Some(1)),
        (13, Some(2)),
    ] {
        let bytes = front(&BYTES, size);
        let text = behind::<_, String>(alloc, bytes);
        let lent = behind::<_, &str>(alloc, bytes);
        let list = behind::<_, Vec<u8>>(alloc, bytes);
        assert!(rt; [text, lent, list] == [due; 3]);
    }
    Ok(())
}

/// Units and numbers.
#[test]
fn of_one_size(rt: HostRuntime) -> Result<(), Fail> {
    let alloc = rt.alloc();
    for (size, due) in [(0, Some(0)), (1, Some(1)), (13, Some(13))] {
        assert!(rt; behind::<_, ()>(alloc, front(&BYTES, size)) == due);
    }
    for (size, due) in [(1, None), (2, Some(0)), (9, Some(7))] {
        assert!(rt; behind::<_, u16>(alloc, front(&BYTES, size)) == due);
    }
    Ok(())
}

#[test]
fn is_refused_as_any_read(rt: HostRuntime) -> Result<(), Fail> {
    let alloc = rt.alloc();
    let flag = matches!(
        deserialize_exact::<_, bool>(alloc, [2, 1].as_slice()),
        Err(ExactError::Read(ReadError::InvalidBoolEncoding(2)))
    );
    let number = matches!(
        deserialize_exact::<_, u32>(alloc, [2, 1].as_slice()),
        Err(ExactError::Read(ReadError::Io(Refusal::ReadSizeLimit(4))))
    );
    assert!(rt; [flag, number] == [true; 2]);
    Ok(())
}

#[test]
fn a_map_of_exactly_these_bytes(rt: HostRuntime) -> Result<(), Fail> {
    let bytes = [1, 0, 0, 0, 0, 0, 0, 0, 9, 1].as_slice();
    let map: BTreeMap<u8, bool> = deserialize_exact(rt.alloc(), bytes)?;
    assert!(rt; map.get(&9) == Some(&true));
    Ok(())
}

#[test]
fn what_is_left_is_printed(rt: HostRuntime) -> Result<(), Fail> {
    let refused = format!(in rt.alloc(); "{}", ExactError::Behind(4))?;
    assert!(rt; refused.as_str() == "4 bytes are left behind the value");
    Ok(())
}

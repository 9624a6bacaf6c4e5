//! Events by two tag schemes, and marks: what they are written as, and how they are read and refused.
use crate::copied::{copied_as, list_copied_as};
use example_schemas::event::{Event, EventU8, EventU32, Mark, MarkU8};
use std::alloc::Global;
use std::test::Fail;
use testkit_schemas::rows::bytes_of;
use testkit_schemas::single::Single;
use wincode::io::{Lifetime, SliceWriter};
use wincode::serde::Serialize;
use wincode::{SchemaRead, SchemaWrite, TypeMeta};

/// An event, and its encoding by one byte and by four.
fn events(alloc: Global) -> Result<[(Event, &'static str, &'static str); 3], Fail> {
    let named = Event::Named {
        name: String::from_str(alloc, "a")?,
        id: 1,
    };
    let blob = Event::Blob(String::new(alloc), vec![in alloc; 9u8]?);
    Ok([
        (
            named,
            "000100000000000000610100000000000000",
            "050000000100000000000000610100000000000000",
        ),
        (
            blob,
            "010000000000000000010000000000000009",
            "080000000000000000000000010000000000000009",
        ),
        (Event::Empty, "02", "0d000000"),
    ])
}

/// Whether the event is written as these bytes, as many as `size_of` says.
fn is_written<S: SchemaWrite<Src = Event>>(
    alloc: Global,
    event: &Event,
    digits: &str,
) -> Result<bool, Fail> {
    let text = <S as Serialize>::serialize(alloc, event)?;
    Ok(text == bytes_of(alloc, digits)? && S::size_of(event)? == text.len())
}

#[test]
fn events_written(rt: HostRuntime) -> Result<(), Fail> {
    let alloc = rt.alloc();
    for (event, short, long) in events(alloc)? {
        assert!(rt; is_written::<EventU8>(alloc, &event, short)?, "{short}");
        assert!(rt; is_written::<EventU32>(alloc, &event, long)?, "{long}");
    }
    Ok(())
}

/// What writing the events into so many bytes answers: what was written, and the error.
fn written_into<S: SchemaWrite<Src = Event>>(
    alloc: Global,
    events: &Vec<Event>,
    room: usize,
) -> Result<(Vec<u8>, String), Fail> {
    let mut bytes = vec![in alloc; 0u8; room]?;
    let mut writer = SliceWriter::new(bytes.as_mut_slice());
    let outcome = <Vec<S> as SchemaWrite>::write(&mut writer, events);
    let written = Vec::from_slice(alloc, writer.written())?;
    match outcome {
        Ok(()) => Ok((written, String::new(alloc))),
        Err(error) => Ok((written, format!(in alloc; "{error:?}")?)),
    }
}

/// Whether the events are written into each room as they are one by one, and have so many bytes.
fn are_written_alike<S: SchemaWrite<Src = Event>>(
    alloc: Global,
    events: &Vec<Event>,
    size: usize,
) -> Result<bool, Fail> {
    for room in 0..size.saturating_add(2) {
        let one = written_into::<S>(alloc, events, room)?;
        let other = written_into::<Single<S>>(alloc, events, room)?;
        let is_whole = one.0.len() == size && one.1.is_empty();
        if one.0 != other.0 || one.1 != other.1 || is_whole != (room >= size) {
            return Ok(false);
        }
    }
    Ok(true)
}

/// In a list each is put together before it is written: into each room, beside the same written part by part.
#[test]
fn lists_of_events_are_written_alike(rt: HostRuntime) -> Result<(), Fail> {
    let alloc = rt.alloc();
    let mut list = Vec::new(alloc);
    for (event, _, _) in events(alloc)? {
        list.push(event)?;
    }
    assert!(rt; are_written_alike::<EventU8>(alloc, &list, 45)?);
    assert!(rt; are_written_alike::<EventU32>(alloc, &list, 54)?);
    Ok(())
}

/// A schema, bytes, and how copying a value of it from their front ends, with how many bytes are left.
const ROWS: [(&str, &str, &str); 16] = [
    (
        "EventU8",
        "000100000000000000610100000000000000ff",
        "ok 1 000100000000000000610100000000000000",
    ),
    (
        "EventU8",
        "010000000000000000010000000000000009",
        "ok 0 010000000000000000010000000000000009",
    ),
    ("EventU8", "0202", "ok 1 02"),
    ("EventU8", "03", "err InvalidTagEncoding(3) 0"),
    ("EventU8", "", "err Io(ReadSizeLimit(1)) 0"),
    ("EventU8", "0001", "err Io(ReadSizeLimit(8)) 1"),
    (
        "EventU32",
        "050000000100000000000000610100000000000000",
        "ok 0 050000000100000000000000610100000000000000",
    ),
    ("EventU32", "0d000000", "ok 0 0d000000"),
    ("EventU32", "06000000", "err InvalidTagEncoding(6) 0"),
    ("EventU32", "00000000", "err InvalidTagEncoding(0) 0"),
    ("EventU32", "0d0000", "err Io(ReadSizeLimit(4)) 3"),
    (
        "Vec<MarkU8>",
        "0300000000000000020001",
        "ok 0 0300000000000000020001",
    ),
    (
        "Vec<MarkU8>",
        "0200000000000000010709",
        "err InvalidTagEncoding(7) 1",
    ),
    (
        "Vec<MarkU8>",
        "020000000000000001",
        "err Io(ReadSizeLimit(2)) 1",
    ),
    (
        "Vec<EventU8>",
        "02000000000000000201ff",
        "err Io(ReadSizeLimit(8)) 1",
    ),
    (
        "Vec<EventU8>",
        "9324010000000000",
        "err PreallocationSizeLimit { needed: 4194344, limit: 4194304 } 0",
    ),
];

/// What copying the front of the bytes answers.
fn copied(alloc: Global, name: &str, bytes: &[u8]) -> Result<String, Fail> {
    match name {
        "EventU8" => copied_as::<EventU8>(alloc, bytes),
        "EventU32" => copied_as::<EventU32>(alloc, bytes),
        "Vec<MarkU8>" => list_copied_as::<MarkU8>(alloc, bytes),
        _ => list_copied_as::<EventU8>(alloc, bytes),
    }
}

#[test]
fn events_and_marks_copied(rt: HostRuntime) -> Result<(), Fail> {
    let alloc = rt.alloc();
    for (name, digits, wanted) in &ROWS {
        let bytes = bytes_of(alloc, *digits)?;
        let found = copied(alloc, *name, bytes.as_slice())?;
        assert!(rt; found.as_str() == *wanted);
    }
    Ok(())
}

#[test]
fn sizes_of_events(rt: HostRuntime) {
    let metas = (
        <EventU8 as SchemaRead<Lifetime>>::type_meta(),
        <EventU32 as SchemaWrite>::type_meta(),
    );
    let counted = (
        <EventU8 as SchemaRead<Lifetime>>::prealloc_size(),
        <EventU32 as SchemaRead<Lifetime>>::prealloc_size(),
    );
    let wanted = (TypeMeta::Dynamic, TypeMeta::Dynamic);
    assert!(rt; (metas, counted) == (wanted, (56, 56)));
}

#[test]
fn sizes_of_marks(rt: HostRuntime) {
    let byte = TypeMeta::Static {
        size: 1,
        zero_copy: false,
    };
    let metas = (
        <MarkU8 as SchemaRead<Lifetime>>::type_meta(),
        <MarkU8 as SchemaWrite>::type_meta(),
    );
    let counted = <MarkU8 as SchemaRead<Lifetime>>::prealloc_size();
    assert!(rt; (metas, counted) == ((byte, byte), 1));
}

#[test]
fn marks_written(rt: HostRuntime) -> Result<(), Fail> {
    for (mark, tag) in [(Mark::A, 0u8), (Mark::B, 1), (Mark::C, 2)] {
        let text = <MarkU8 as Serialize>::serialize(rt.alloc(), &mark)?;
        assert!(rt; text.as_slice() == [tag].as_slice());
    }
    Ok(())
}

//! Messages, and what marks schemas whose values have one encoding.
use crate::copied::copied_as;
use example_schemas::message::Message;
use std::test::Fail;
use testkit_schemas::rows::bytes_of;
use wincode::io::Lifetime;
use wincode::{SchemaRead, serialize, serialized_size};

/// The encoding of number 1 with the tags 2 and 3 and the note `a`.
const TEXT: [u8; 21] = [
    1, 0, 0, 0, 0, 0, 0, 0, 2, 2, 3, 1, 1, 0, 0, 0, 0, 0, 0, 0, 97,
];

#[test]
fn a_message(rt: HostRuntime) -> Result<(), Fail> {
    let alloc = rt.alloc();
    let message = Message {
        id: 1,
        tags: vec![in alloc; 2u8, 3]?,
        note: Some(String::from_str(alloc, "a")?),
    };
    let text = serialize(alloc, &message)?;
    let size = serialized_size(&message)?;
    let counted = <Message as SchemaRead<Lifetime>>::prealloc_size();
    assert!(rt; (text.as_slice(), size, counted) == (TEXT.as_slice(), 21, 56));
    Ok(())
}

/// The bytes of a message, and how rewriting them ends, with how many bytes are left.
const ROWS: [(&str, &str); 6] = [
    (
        "010000000000000002020301010000000000000061ff",
        "ok 1 010000000000000002020301010000000000000061",
    ),
    ("07000000000000000000", "ok 0 07000000000000000000"),
    (
        "0100000000000000",
        "err LengthEncodingOverflow(\"u16::MAX\") 0",
    ),
    (
        "0100000000000000800009",
        "err LengthEncodingOverflow(\"u16::MAX\") 3",
    ),
    ("0100000000000000020203", "err Io(ReadSizeLimit(1)) 0"),
    ("010000000000000000020707", "err InvalidTagEncoding(2) 2"),
];

#[test]
fn messages_read_and_written(rt: HostRuntime) -> Result<(), Fail> {
    let alloc = rt.alloc();
    for (digits, wanted) in &ROWS {
        let bytes = bytes_of(alloc, *digits)?;
        let found = copied_as::<Message>(alloc, bytes.as_slice())?;
        assert!(rt; found.as_str() == *wanted);
    }
    Ok(())
}

//! What can't be written or read is refused by its schema's own error, through each call and what it stands in.
use std::alloc::Global;
use std::collections::LinkedList;
use std::rc::Rc;
use testkit_schemas::refusing::Refusing;
use wincode::io::{Lifetime, SliceWriter};
use wincode::{
    ReadError, SchemaRead, SchemaWrite, WriteError, serialize, serialize_into, serialized_size,
};

/// Whether the answer is the refusal of the schema.
fn is_its_own<T>(answer: &Result<T, WriteError>) -> bool {
    matches!(answer, Err(WriteError::Custom("refusing")))
}

#[test]
fn refusals_of_a_schema_pass_through(rt: HostRuntime) {
    let size = serialized_size(&Refusing);
    let text = serialize(rt.alloc(), &Refusing);
    let behind = <(u8, Refusing) as SchemaWrite>::size_of(&(7, Refusing));
    let mut room = [9u8; 4];
    let mut writer = SliceWriter::new(&mut room);
    let written = serialize_into(&mut writer, &Refusing);
    let sizes = [is_its_own(&size), is_its_own(&behind)];
    let texts = [is_its_own(&text), is_its_own(&written)];
    assert!(rt; (sizes, texts, writer.written().len()) == ([true; 2], [true; 2], 0));
}

/// Whether reading by the schema is refused by its part, and leaves the destination.
fn is_refused<'a, T: SchemaRead<Lifetime<'a>>>(alloc: Global, bytes: &'a [u8]) -> bool {
    let mut reader = bytes;
    let mut dst = None;
    let answer = T::read(alloc, &mut reader, &mut dst);
    dst.is_none() && matches!(&answer, Err(ReadError::Custom("refusing")))
}

#[test]
fn parts_that_refuse(rt: HostRuntime) {
    let alloc = rt.alloc();
    let one = [1u8, 0, 0, 0, 0, 0, 0, 0].as_slice();
    let all = [
        is_refused::<Vec<Refusing>>(alloc, one),
        is_refused::<LinkedList<Refusing>>(alloc, one),
        is_refused::<[Refusing; 32]>(alloc, one),
        is_refused::<Box<Refusing>>(alloc, one),
        is_refused::<Rc<Refusing>>(alloc, one),
        is_refused::<Option<Refusing>>(alloc, one),
        is_refused::<Result<u8, Refusing>>(alloc, one),
        is_refused::<(u8, Refusing, u8)>(alloc, one),
    ];
    assert!(rt; all == [true; 8]);
}

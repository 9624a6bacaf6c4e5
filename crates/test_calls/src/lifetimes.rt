//! Values with several borrowed parts. A call whose one type argument is a tuple of them is not taken, and
//! so each part stands as a type argument of its own: `deserialize` of a value of the input's own lifetime, a
//! generic step for reading, and the writing of a tuple's members by reference.
use std::alloc::Global;
use std::test::Fail;
use wincode::io::{Lending, Lifetime, Reader};
use wincode::schema::tuples::write_members_2;
use wincode::{ReadResult, SchemaGet, SchemaRead, WriteResult, deserialize, serialize};

/// Both encodings live as long as the bytes.
fn lent_texts<'a>(alloc: Global, bytes: &'a [u8]) -> ReadResult<(&'a str, &'a str)> {
    deserialize(alloc, bytes)
}

/// Two members, one after the other, of what any lender lends.
fn get_two<L: Lending, A: SchemaRead<L>, B: SchemaRead<L>, R: Reader<L>>(
    alloc: Global,
    reader: &mut R,
) -> ReadResult<(A::Dst, B::Dst)> {
    <(A, B) as SchemaGet<L>>::get(alloc, reader)
}

/// By a generic step, which takes each member by a type parameter of its own.
fn texts_by_a_step<'a>(alloc: Global, bytes: &'a [u8]) -> ReadResult<(&'a str, &'a str)> {
    let mut reader = bytes;
    get_two::<Lifetime, &str, &str, &[u8]>(alloc, &mut reader)
}

fn written_reference(alloc: Global) -> WriteResult<Vec<u8>> {
    serialize(alloc, &&7u8)
}

/// Members are written by reference, each by a type parameter of its own.
fn written_texts(alloc: Global) -> WriteResult<Vec<u8>> {
    let mut out = Vec::new(alloc);
    write_members_2::<&str, &str, Vec<u8>>(&mut out, &"a", &"é")?;
    Ok(out)
}

/// Two texts of a letter.
const BYTES: [u8; 19] = [1, 0, 0, 0, 0, 0, 0, 0, 97, 2, 0, 0, 0, 0, 0, 0, 0, 195, 169];

#[test]
fn several_borrowed_parts(rt: HostRuntime) -> Result<(), Fail> {
    let alloc = rt.alloc();
    let (first, second) = lent_texts(alloc, BYTES.as_slice())?;
    let (third, fourth) = texts_by_a_step(alloc, BYTES.as_slice())?;
    assert!(rt; [first, second, third, fourth] == ["a", "é", "a", "é"]);
    Ok(())
}

#[test]
fn several_borrowed_parts_written(rt: HostRuntime) -> Result<(), Fail> {
    let alloc = rt.alloc();
    let reference = written_reference(alloc)?;
    let texts = written_texts(alloc)?;
    let found = [reference.as_slice(), texts.as_slice()];
    assert!(rt; found == [[7u8].as_slice(), BYTES.as_slice()]);
    Ok(())
}

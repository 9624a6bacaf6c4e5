//! Tuples, by their values in Rust, and what a refusal leaves.
use crate::values::is_kept;
use std::alloc::Global;
use std::test::Fail;
use testkit_schemas::refusing::Refusing;
use wincode::io::Lifetime;
use wincode::{ReadError, SchemaGet, SchemaRead, SchemaWrite};

#[test]
fn a_list_and_a_flag(rt: HostRuntime) -> Result<(), Fail> {
    let alloc = rt.alloc();
    let pair = (vec![in alloc; 1u64, 2, 3]?, true);
    let due = [
        3u8, 0, 0, 0, 0, 0, 0, 0, 1, 0, 0, 0, 0, 0, 0, 0, 2, 0, 0, 0, 0, 0, 0, 0, 3, 0, 0, 0, 0, 0,
        0, 0, 1,
    ];
    assert!(rt; is_kept::<(Vec<u64>, bool)>(alloc, &pair, due.as_slice())?);
    Ok(())
}

#[test]
fn a_member_that_refuses(rt: HostRuntime) -> Result<(), Fail> {
    let mut dst = Some((7u8, 8u8, ()));
    let mut bytes = [1u8, 2, 3].as_slice();
    let refused = <(u8, u8, Refusing) as SchemaRead<Lifetime>>::read(
        rt.alloc(),
        &mut bytes,
        &mut dst,
    );
    let is_refused = matches!(&refused, Err(ReadError::Custom("refusing")));
    assert!(rt; (is_refused, dst, bytes) == (true, Some((7, 8, ())), [3u8].as_slice()));
    Ok(())
}

/// A list of five such items: their number, and then five times these bytes.
fn five(alloc: Global, item: &[u8]) -> Result<Vec<u8>, Fail> {
    let mut bytes = vec![in alloc; 5u8, 0, 0, 0, 0, 0, 0, 0]?;
    for _i in 0..5 {
        bytes.extend_from_slice(item)?;
    }
    Ok(bytes)
}

/// Whether a list of what is read of the bytes is written as the same.
fn is_rewritten<'a, U: Drop, T: SchemaWrite<Src = U> + SchemaRead<Lifetime<'a>, Dst = U>>(
    alloc: Global,
    bytes: &'a [u8],
) -> Result<bool, Fail> {
    let mut reader = bytes;
    let value = <Vec<T> as SchemaGet<Lifetime<'a>>>::get(alloc, &mut reader)?;
    let mut text = Vec::new(alloc);
    <Vec<T> as SchemaWrite>::write(&mut text, &value)?;
    Ok(text.as_slice() == bytes)
}

type Seven = (u8, u8, u8, u8, u8, u8, String);

/// Seven members of no one size, which are put together before they are written.
#[test]
fn lists_of_tuples_with_a_text(rt: HostRuntime) -> Result<(), Fail> {
    let alloc = rt.alloc();
    let bytes = five(alloc, &[1, 2, 3, 4, 5, 6, 1, 0, 0, 0, 0, 0, 0, 0, 97])?;
    assert!(rt; is_rewritten::<_, Seven>(alloc, bytes.as_slice())?);
    Ok(())
}

type Twelve = (u8, bool, u8, u8, String, u8, u8, u8, u8, u8, u8, String);

/// So of twelve: each length puts the next shorter one behind its first member.
#[test]
fn lists_of_long_tuples_with_texts(rt: HostRuntime) -> Result<(), Fail> {
    let alloc = rt.alloc();
    let bytes = five(
        alloc,
        &[
            9, 1, 2, 3, 1, 0, 0, 0, 0, 0, 0, 0, 97, 4, 5, 6, 7, 8, 9, 2, 0, 0, 0, 0, 0, 0, 0, 98,
            99,
        ],
    )?;
    assert!(rt; is_rewritten::<_, Twelve>(alloc, bytes.as_slice())?);
    Ok(())
}

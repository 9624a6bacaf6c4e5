//! An enum with a type parameter, one with a lifetime, and a struct that holds no value of its parameter.
use crate::encoded::{is_encoded, is_no_tag, reads_as};
use sample_types::shapes::{Found, Id, Token};
use std::marker::PhantomData;
use std::test::Fail;
use wincode::{deserialize, serialize};

#[test]
fn what_is_found(rt: HostRuntime) -> Result<(), Fail> {
    let alloc = rt.alloc();
    is_encoded::<Found<u16>>(alloc, &Found::Nothing, [0u8, 0, 0, 0].as_slice())?;
    is_encoded::<Found<u16>>(alloc, &Found::One(258), [1u8, 0, 0, 0, 2, 1].as_slice())?;
    let many = Found::Many {
        items: vec![in alloc; 3u16]?,
        more: true,
    };
    let bytes = [2u8, 0, 0, 0, 1, 0, 0, 0, 0, 0, 0, 0, 3, 0, 1];
    is_encoded::<Found<u16>>(alloc, &many, bytes.as_slice())?;
    reads_as::<Found<String>>(alloc, [0u8, 0, 0, 0].as_slice())?;
    assert!(rt; is_no_tag::<Found<u16>>(alloc, [3u8, 0, 0, 0].as_slice(), 3));
    Ok(())
}

#[test]
fn tokens(rt: HostRuntime) -> Result<(), Fail> {
    let alloc = rt.alloc();
    let bytes = [0u8, 0, 0, 0, 1, 0, 0, 0, 0, 0, 0, 0, 97];
    let word = serialize(alloc, &Token::Word("a"))?;
    assert!(rt; word.as_slice() == bytes.as_slice());
    let token: Token<'_> = deserialize(alloc, bytes.as_slice())?;
    assert!(rt; matches!(&token, Token::Word("a")));
    let number: Token<'_> = deserialize(alloc, [1u8, 0, 0, 0, 5, 0, 0, 0, 0, 0, 0, 0].as_slice())?;
    assert!(rt; matches!(&number, Token::Number(5)));
    Ok(())
}

#[test]
fn ids(rt: HostRuntime) -> Result<(), Fail> {
    let alloc = rt.alloc();
    let id = Id {
        number: 5,
        kind: PhantomData,
    };
    is_encoded::<Id<u8>>(alloc, &id, [5u8, 0, 0, 0, 0, 0, 0, 0].as_slice())
}

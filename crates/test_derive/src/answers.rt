//! An enum of nine cases with a type parameter.
use crate::encoded::{is_encoded, is_no_tag, reads_as};
use sample_types::answers::Answer;
use std::test::Fail;

#[test]
fn answers_of_numbers(rt: HostRuntime) -> Result<(), Fail> {
    let alloc = rt.alloc();
    is_encoded::<Answer<u16>>(alloc, &Answer::Nothing, [0u8, 0, 0, 0].as_slice())?;
    is_encoded::<Answer<u16>>(alloc, &Answer::One(258), [1u8, 0, 0, 0, 2, 1].as_slice())?;
    let late = Answer::Late {
        tries: 9,
        last: Some(5),
    };
    let bytes = [2u8, 0, 0, 0, 9, 0, 0, 0, 1, 5, 0];
    is_encoded::<Answer<u16>>(alloc, &late, bytes.as_slice())?;
    let many = Answer::Many(vec![in alloc; 3u16]?);
    let bytes = [5u8, 0, 0, 0, 1, 0, 0, 0, 0, 0, 0, 0, 3, 0];
    is_encoded::<Answer<u16>>(alloc, &many, bytes.as_slice())?;
    let moved = Answer::Moved([1, 2, 3, 4], 7);
    let bytes = [7u8, 0, 0, 0, 1, 2, 3, 4, 7, 0];
    is_encoded::<Answer<u16>>(alloc, &moved, bytes.as_slice())?;
    is_encoded::<Answer<u16>>(alloc, &Answer::Ended, [8u8, 0, 0, 0].as_slice())?;
    assert!(rt; is_no_tag::<Answer<u16>>(alloc, [9u8, 0, 0, 0].as_slice(), 9));
    Ok(())
}

/// Texts in the place of the numbers: a list of nothing, one text and a busy one.
#[test]
fn answers_of_texts(rt: HostRuntime) -> Result<(), Fail> {
    let alloc = rt.alloc();
    let bytes = [
        3u8, 0, 0, 0, 0, 0, 0, 0, 0, 0, 0, 0, 5, 0, 0, 0, 1, 0, 0, 0, 0, 0, 0, 0, 1, 0, 0, 0, 0, 0,
        0, 0, 97, 3, 0, 0, 0,
    ];
    reads_as::<Vec<Answer<String>>>(alloc, bytes.as_slice())
}

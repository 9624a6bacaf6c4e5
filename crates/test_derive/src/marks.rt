//! Structs of few fields, and enums whose cases hold little.
use crate::encoded::{is_encoded, is_no_tag, reads_as};
use sample_keys::marks::{Mark, Marker, Only, Range, Span};
use std::test::Fail;
use wincode::{SchemaWrite, TypeMeta};

#[test]
fn small_structs(rt: HostRuntime) -> Result<(), Fail> {
    let alloc = rt.alloc();
    let span = [2u8, 1, 255, 255, 255, 255, 255, 255, 255, 255];
    is_encoded::<Span>(alloc, &Span(258, -1), span.as_slice())?;
    is_encoded::<Marker>(alloc, &Marker, [].as_slice())?;
    let range = [1u8, 0, 0, 0, 2, 0, 0, 0];
    is_encoded::<Range>(alloc, &Range { from: 1, to: 2 }, range.as_slice())?;
    let size = TypeMeta::Static {
        size: 8,
        zero_copy: false,
    };
    assert!(rt; <Range as SchemaWrite>::type_meta() == size);
    let list = [
        2u8, 0, 0, 0, 0, 0, 0, 0, 1, 0, 0, 0, 2, 0, 0, 0, 3, 0, 0, 0, 4, 0, 0, 0,
    ];
    reads_as::<Vec<Range>>(alloc, list.as_slice())
}

#[test]
fn marks(rt: HostRuntime) -> Result<(), Fail> {
    let alloc = rt.alloc();
    for (mark, tag) in [(Mark::Plus, [0u8]), (Mark::Minus, [1]), (Mark::Other, [9])] {
        is_encoded::<Mark>(alloc, &mark, tag.as_slice())?;
    }
    assert!(rt; is_no_tag::<Mark>(alloc, [2u8].as_slice(), 2));
    let only = [0u8, 0, 0, 0, 0, 0, 0, 0, 9];
    is_encoded::<Only>(alloc, &Only::Marked(Mark::Other), only.as_slice())?;
    let other = [1u8, 0, 0, 0, 0, 0, 0, 0, 9];
    assert!(rt; is_no_tag::<Only>(alloc, other.as_slice(), 1));
    Ok(())
}

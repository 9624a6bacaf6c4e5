//! An enum whose cases hold arrays, texts, options and nothing, in whatever order.
use crate::encoded::{is_encoded, is_no_tag, reads_as, twice};
use sample_types::bank::Request;
use std::test::Fail;

/// The encoding of what is opened with 1 and 2, by 32 sevens.
const OPEN: [u8; 52] = [
    1, 0, 0, 0, 1, 0, 0, 0, 0, 0, 0, 0, 2, 0, 0, 0, 0, 0, 0, 0, 7, 7, 7, 7, 7, 7, 7, 7, 7, 7, 7, 7,
    7, 7, 7, 7, 7, 7, 7, 7, 7, 7, 7, 7, 7, 7, 7, 7, 7, 7, 7, 7,
];

/// That of 32 nines, which are sealed with 3.
const SEALED: [u8; 37] = [
    2, 0, 0, 0, 9, 9, 9, 9, 9, 9, 9, 9, 9, 9, 9, 9, 9, 9, 9, 9, 9, 9, 9, 9, 9, 9, 9, 9, 9, 9, 9, 9,
    9, 9, 9, 9, 3,
];

/// That of 6 which is paid to `b`.
const PAID: [u8; 21] = [
    6, 0, 0, 0, 6, 0, 0, 0, 0, 0, 0, 0, 1, 0, 0, 0, 0, 0, 0, 0, 98,
];

/// That of the text `a`, behind this tag.
const fn named(tag: u8) -> [u8; 13] {
    [tag, 0, 0, 0, 1, 0, 0, 0, 0, 0, 0, 0, 97]
}

#[test]
fn requests(rt: HostRuntime) -> Result<(), Fail> {
    let alloc = rt.alloc();
    is_encoded::<Request>(alloc, &Request::Status, [0u8, 0, 0, 0].as_slice())?;
    let open = Request::Open {
        lamports: 1,
        space: 2,
        owner: [7; 32],
    };
    is_encoded::<Request>(alloc, &open, OPEN.as_slice())?;
    is_encoded::<Request>(alloc, &Request::Sealed([9; 32], 3), SEALED.as_slice())?;
    let text = Request::Named(String::from_str(alloc, "a")?);
    is_encoded::<Request>(alloc, &text, named(3).as_slice())?;
    let limit = [4u8, 0, 0, 0, 1, 5, 0, 0, 0, 0, 0, 0, 0];
    is_encoded::<Request>(alloc, &Request::Limited(Some(5)), limit.as_slice())?;
    is_encoded::<Request>(alloc, &Request::Limited(None), [4u8, 0, 0, 0, 0].as_slice())?;
    let paid = Request::Paid(6, String::from_str(alloc, "b")?);
    is_encoded::<Request>(alloc, &paid, PAID.as_slice())?;
    is_encoded::<Request>(alloc, &Request::Ended, [7u8, 0, 0, 0].as_slice())?;
    let list = twice(alloc, PAID.as_slice())?;
    reads_as::<Vec<Request>>(alloc, list.as_slice())?;
    assert!(rt; is_no_tag::<Request>(alloc, [8u8, 0, 0, 0].as_slice(), 8));
    Ok(())
}

//! Boxes, counted values, options and results, by their values in Rust.

use crate::values::is_kept;
use std::rc::Rc;
use std::test::Fail;
use wincode::io::Lifetime;
use wincode::{SchemaGet, serialize};

#[test]
fn parts_written(rt: HostRuntime) -> Result<(), Fail> {
    let alloc = rt.alloc();
    let refused: Result<u8, u16> = Err(258);
    let parts = (Box::new(alloc, 258u32)?, Rc::new(alloc, 7u8)?, refused);
    let due = [2u8, 1, 0, 0, 7, 1, 0, 0, 0, 2, 1];
    assert!(rt; is_kept::<(Box<u32>, Rc<u8>, Result<u8, u16>)>(alloc, &parts, due.as_slice())?);
    Ok(())
}

#[test]
fn a_lent_part(rt: HostRuntime) -> Result<(), Fail> {
    let alloc = rt.alloc();
    let text = serialize(alloc, &Some("ab"))?;
    let due = [1u8, 2, 0, 0, 0, 0, 0, 0, 0, 97, 98].as_slice();
    let mut bytes = text.as_slice();
    let part = <Option<&str> as SchemaGet<Lifetime>>::get(alloc, &mut bytes)?;
    assert!(rt; (text.as_slice(), part) == (due, Some("ab")));
    Ok(())
}

//! Options and results behind tags, by their values in Rust.
use std::test::Fail;
use wincode::io::Lifetime;
use wincode::{SchemaGet, containers};

#[test]
fn options_and_results_behind_tags(rt: HostRuntime) -> Result<(), Fail> {
    let alloc = rt.alloc();
    let mut reader = [1u8, 0, 0, 0, 9, 1, 0, 5, 0].as_slice();
    let nine = <containers::Option<u8, u32> as SchemaGet<Lifetime>>::get(alloc, &mut reader)?;
    let five = <containers::Result<u16, u16, u16> as SchemaGet<Lifetime>>::get(alloc, &mut reader)?;
    assert!(rt; (nine, five, reader.len()) == (Some(9), Err(5), 0));
    Ok(())
}

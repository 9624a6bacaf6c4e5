//! An enum of thirteen cases.
use crate::encoded::{is_encoded, is_no_tag};
use sample_types::machine::Step;
use std::test::Fail;

#[test]
fn steps(rt: HostRuntime) -> Result<(), Fail> {
    let alloc = rt.alloc();
    is_encoded::<Step>(alloc, &Step::Nop, [0u8].as_slice())?;
    is_encoded::<Step>(alloc, &Step::Load(258), [2u8, 2, 1, 0, 0].as_slice())?;
    let push = [4u8, 1, 0, 0, 0, 0, 0, 0, 0];
    is_encoded::<Step>(alloc, &Step::Push(1), push.as_slice())?;
    is_encoded::<Step>(alloc, &Step::Call(5), [8u8, 5, 0, 0, 0].as_slice())?;
    is_encoded::<Step>(alloc, &Step::Write, [11u8].as_slice())?;
    let log = Step::Log(String::from_str(alloc, "a")?);
    is_encoded::<Step>(alloc, &log, [12u8, 1, 0, 0, 0, 0, 0, 0, 0, 97].as_slice())?;
    assert!(rt; is_no_tag::<Step>(alloc, [13u8].as_slice(), 13));
    assert!(rt; is_no_tag::<Step>(alloc, [255u8].as_slice(), 255));
    Ok(())
}

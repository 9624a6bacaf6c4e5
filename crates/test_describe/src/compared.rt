//! Types compared: what an answer promises, and what is printed.
ghost use Rattle.std.specs.Prelude.{◌≡◌, IfOk};
ghost use Rattle.wincode_describe.specs.Compared.{ReadsAs};
ghost use Rattle.wincode_describe.specs.declared.comparing.Answer.TheVariants.{Reads};

use std::alloc::{AllocError, Global};
use std::test::Fail;
use wincode_describe::{Answer, Described, compare, compared_lines};

/// What is answered of two types; where it is that the new one reads what the old one wrote, it does.
fn answer(alloc: Global, old: &Described, new: &Described) -> Result<Answer, AllocError>
    ensures { IfOk result (λ answer. answer ≡ Reads → ReadsAs old.now new.now) }
{
    Ok(compare(alloc, old, new)?.answer)
}

#[test]
fn is_answered(rt: HostRuntime) -> Result<(), Fail> {
    let alloc = rt.alloc();
    let old = Described::parse(alloc, "Vec<enum u8 { 0: u8 }>")?;
    let new = Described::parse(alloc, "Vec<enum u8 { 0: u8, 9: bool }>")?;
    assert!(rt; answer(alloc, &old, &new)? == Answer::Reads);
    assert!(rt; answer(alloc, &new, &old)? == Answer::Differs);
    assert!(rt; answer(alloc, &old, &old)? == Answer::Same);
    Ok(())
}

#[test]
fn is_printed(rt: HostRuntime) -> Result<(), Fail> {
    let alloc = rt.alloc();
    let old = Described::parse(alloc, "struct { id: u16, tags: Vec<u8> }")?;
    let new = Described::parse(alloc, "struct { key: u16, tags: Vec<u8>, paid: bool }")?;
    let (answer, text) = compared_lines(alloc, &old, &new)?;
    assert!(rt; answer == Answer::Differs);
    assert!(rt; text.as_str() == CHANGES);
    Ok(())
}

/// What is printed of the two structs.
const CHANGES: &str = "\
differs
renamed: id -> key
.tags: `paid: bool` came behind it
  witness: 00 00 00 00 00 00 00 00 00 00
  old:
0: 0000 .id u16 0
2: 0000000000000000 .tags length 0
10:  .tags bytes 0
  new:
0: 0000 .key u16 0
2: 0000000000000000 .tags length 0
10:  .tags bytes 0
10: .paid refused: Attempting to read 1 bytes
";

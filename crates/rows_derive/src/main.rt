//! What `wincode_derive` says of declarations that it writes no schemas of, as rows: the input has the text of a source
//! file, and behind a line `----` the next. Each is answered by the faults in it, with their places and lines, or by
//! `written` where there is none, and a line `----` stands between two answers.
#![tactic(auto)]

use std::alloc::Global;
use std::io;
use std::test::Fail;
use wincode_derive_text::{module_of, shown};

/// What is said of the declarations of a source file.
fn answer(alloc: Global, source: &str) -> Result<String, Fail> {
    match module_of(alloc, source, ("a_crate", ""), &[]) {
        Ok(_) => Ok(String::from_str(alloc, "written\n")?),
        Err(error) => match shown(alloc, "a.rt", source, &error) {
            Ok(text) => Ok(text),
            Err(_) => Ok(String::from_str(alloc, "out of memory\n")?),
        },
    }
}

fn main(rt: HostRuntime) -> Result<(), Fail> {
    let alloc = rt.alloc();
    let input = io::read_to_string(alloc, rt.reader())?;
    for (i, source) in input.split("----\n").enumerate() {
        if i > 0 {
            print!(rt; "----\n")?;
        }
        let said = answer(alloc, source)?;
        print!(rt; "{said}")?;
    }
    Ok(())
}

//! What the arguments ask for.
use crate::failing::{Failure, Outcome};
use std::alloc::Global;

/// What `--help` prints.
pub const HELP: &str = "\
wincode_derive [--check] FILE.rt [TYPE..]     writes the schemas of the structs and enums that a source file of a crate
                                              declares, of all or of these, into its module `schemas`
wincode_derive --print CRATE::MODULE [TYPE..] reads the declarations from standard input, and prints the module
  --check      says whether what stands there is what would be written, but for its layout, and writes nothing
  --version    says which version it is of
  --           what stands behind it is no option
Of FILE.rt, which stands below the folder `src` of its crate, the module is FILE/schemas.rt, and that of lib.rt and
main.rt is schemas.rt; lines of proofs are written below the crate's folder `proofs`.
Status 0: it was written, or is what would be; 1: it isn't, and why is said; 2: wrong arguments, or no such file.
";

/// What `--version` prints.
pub const VERSION: &str = "wincode_derive, after wincode 0.2.5\n";

/// What is to be done.
#[derive(Debug, Clone, Copy, PartialEq)]
pub enum Mode {
    Write,
    Check,
    Print,
    Help,
    Version,
}

/// What is asked: of a file or a module, and of these types.
#[derive(Debug, Drop)]
pub struct Command {
    pub mode: Mode,
    /// The file or the module, and the types.
    pub words: Vec<String>,
}

/// What an option asks for.
fn mode_of(option: &str) -> Option<Mode> {
    match option {
        "--check" => Some(Mode::Check),
        "--print" => Some(Mode::Print),
        "--help" | "-h" => Some(Mode::Help),
        "--version" | "-V" => Some(Mode::Version),
        _ => None,
    }
}

/// One option behind another.
fn both(alloc: Global, before: Mode, option: &str) -> Outcome<Mode> {
    let Some(mode) = mode_of(option) else {
        return Err(Failure::usage(format!(in alloc; "there is no option `{option}`")?));
    };
    match (before, mode) {
        (Mode::Help, _) | (_, Mode::Help) => Ok(Mode::Help),
        (Mode::Version, _) | (_, Mode::Version) => Ok(Mode::Version),
        (Mode::Write, _) => Ok(mode),
        _ if before == mode => Ok(mode),
        _ => Err(Failure::usage(String::from_str(
            alloc,
            "`--check` and `--print` don't go together",
        )?)),
    }
}

impl Command {
    /// What these words ask for.
    pub fn of(alloc: Global, arguments: Vec<String>) -> Outcome<Command> {
        let mut mode = Mode::Write;
        let mut words = Vec::new(alloc);
        let mut are_words = false;
        for word in arguments {
            if are_words || !word.starts_with('-') {
                words.push(word)?;
            } else if word.as_str() == "--" {
                are_words = true;
            } else {
                mode = both(alloc, mode, word.as_str())?;
            }
        }
        let is_told = mode == Mode::Help || mode == Mode::Version;
        if words.is_empty() && !is_told {
            let what = if mode == Mode::Print {
                "a module"
            } else {
                "a file"
            };
            return Err(Failure::usage(format!(in alloc; "{what} is wanted")?));
        }
        Ok(Command { mode, words })
    }
}

#[cfg(test)]
mod tests {
    use super::*;
    use std::test::Fail;

    /// Arguments, and what they ask for.
    const ROWS: [(&str, &str); 15] = [
        ("src/a.rt", "Write src/a.rt"),
        ("src/a.rt Note Signal", "Write src/a.rt Note Signal"),
        ("--check src/a.rt", "Check src/a.rt"),
        ("src/a.rt --check Note", "Check src/a.rt Note"),
        ("--print a::b", "Print a::b"),
        ("--print --print a::b", "Print a::b"),
        ("--help", "Help"),
        ("-h --check", "Help"),
        ("--version src/a.rt", "Version src/a.rt"),
        ("-- --check", "Write --check"),
        ("", "a file is wanted"),
        ("--print", "a module is wanted"),
        (
            "--check --print a",
            "`--check` and `--print` don't go together",
        ),
        (
            "--print a --check",
            "`--check` and `--print` don't go together",
        ),
        ("--chekc src/a.rt", "there is no option `--chekc`"),
    ];

    fn asked(alloc: Global, command: &Command) -> Result<String, Fail> {
        let mode = command.mode;
        let mut said = format!(in alloc; "{mode:?}")?;
        for word in command.words.as_slice() {
            said.push(' ')?;
            said.push_str(word.as_str())?;
        }
        Ok(said)
    }

    #[test]
    fn arguments(rt: HostRuntime) -> Result<(), Fail> {
        let alloc = rt.alloc();
        for (words, wanted) in &ROWS {
            let mut arguments = Vec::new(alloc);
            for word in words.split(' ').filter(|word| !word.is_empty()) {
                arguments.push(String::from_str(alloc, word)?)?;
            }
            let outcome = Command::of(alloc, arguments);
            let said = match &outcome {
                Ok(command) => asked(alloc, command)?,
                Err(Failure::Usage(what)) => String::from_str(alloc, what.as_str())?,
                Err(_) => String::from_str(alloc, "another failure")?,
            };
            assert_eq!(rt; said.as_str(), *wanted);
        }
        Ok(())
    }
}

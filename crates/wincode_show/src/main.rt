//! `wincode_show SHAPE`: reads a value from standard input and writes it again to standard output; `wincode_show relay
//! --stream SHAPE`: so, as the input comes, and of lists in lists list by list; `wincode_show explain TYPE [FILE]` and
//! `wincode_show check TYPE [FILE]`: shows bytes by their type, and says whether they begin with a value of it;
//! `wincode_show compare OLD NEW` says whether a type reads what was written of another;
//! `wincode_show --help` says all.
#![tactic(auto)]

mod asking;
mod comparing;

use asking::{Asked, Command, Fault, HELP, Question, print};
use comparing::{Named, compared, layout_lines};
use std::fs::File;
use std::io::ErrorKind;
use std::process::ExitCode;
use std::rt::{Env, Files};
use std::{env, fs, io};
use wincode::io::{StdSink, StdSource, StreamReader, StreamWriter};
use wincode_describe::TYPES;
use wincode_recode::{RelayError, relay, relay_stream};

/// Why the arguments aren't known: no memory for them, or one that is no text.
fn unread(error: io::Error) -> RelayError {
    match error.kind() {
        ErrorKind::OutOfMemory => RelayError::OutOfMemory,
        _ => RelayError::UnknownShape,
    }
}

/// The text of a source file, if there is one.
fn source_of(rt: &(impl Files + AllocGlobal), path: Option<&str>) -> Result<String, Fault> {
    match path {
        None => Ok(String::new(rt.alloc())),
        Some(path) => fs::read_to_string(rt, path).map_err(Fault::Unread),
    }
}

/// Explains or checks the bytes of a file, or of standard input; whether a value was read.
fn look(
    rt: &(impl Files + Input + Print + AllocGlobal),
    is_check: bool,
    words: &[String],
) -> Result<bool, Fault> {
    let alloc = rt.alloc();
    let asked = Asked::of(words)?;
    let source = source_of(rt, asked.types)?;
    let question = Question::of(alloc, is_check, &asked, source.as_str())?;
    let output = io::writer(rt);
    let (_output, answer) = match asked.file {
        None => question.answer(alloc, rt.reader(), output),
        Some(path) => match File::open(rt, path) {
            Ok(file) => question.answer(alloc, file, output),
            Err(error) => (output, Err(Fault::Unread(error))),
        },
    };
    answer
}

/// Compares two types, and prints what changed; the status.
fn weigh(rt: &(impl Files + Print + AllocGlobal), words: &[String]) -> Result<u8, Fault> {
    let (old, new) = Named::both(words)?;
    let was = source_of(rt, old.types)?;
    let is = source_of(rt, new.types)?;
    let (status, text) = compared(rt.alloc(), (&old, was.as_str()), (&new, is.as_str()))?;
    print(&mut io::writer(rt), text.as_str())?;
    Ok(status)
}

/// Prints the types that a source file declares.
fn lay_out(rt: &(impl Files + Print + AllocGlobal), path: &str) -> Result<bool, Fault> {
    let source = source_of(rt, Some(path))?;
    let lines = layout_lines(rt.alloc(), path, source.as_str())?;
    print(&mut io::writer(rt), lines.as_str())?;
    Ok(true)
}

/// The words behind the program's name.
fn words_of(rt: &(impl Env + AllocGlobal)) -> Result<Vec<String>, Fault> {
    let mut words = Vec::new(rt.alloc());
    for word in env::args(rt).map_err(unread)?.skip(1) {
        words.push(word)?;
    }
    Ok(words)
}

/// Prints a text of the program's own.
fn tell(rt: &impl Print, text: &str) -> Result<bool, Fault> {
    print(&mut io::writer(rt), text)?;
    Ok(true)
}

/// Reads a value of the shape from standard input, and writes it to standard output.
fn recode(rt: &(impl Input + Print + AllocGlobal), shape: &str) -> Result<bool, Fault> {
    relay(rt.alloc(), shape, &mut rt.reader(), &mut io::writer(rt))?;
    Ok(true)
}

/// So, without all of the input in memory, and of lists in lists one list at a time.
fn recode_stream(rt: &(impl Input + Print + AllocGlobal), shape: &str) -> Result<bool, Fault> {
    let Ok(mut reader) = StreamReader::new(rt.alloc(), StdSource::new(rt.reader())) else {
        return Err(Fault::from(RelayError::OutOfMemory));
    };
    let Ok(mut writer) = StreamWriter::new(rt.alloc(), StdSink::new(io::writer(rt))) else {
        return Err(Fault::from(RelayError::OutOfMemory));
    };
    relay_stream(rt.alloc(), shape, &mut reader, &mut writer)?;
    Ok(true)
}

/// The status where a value was read, or none was.
fn status_of(is_read: bool) -> u8 {
    if is_read { 0 } else { 1 }
}

/// Does what the arguments say; the status.
fn run(rt: &(impl Env + Files + Input + Print + AllocGlobal)) -> Result<u8, Fault> {
    let words = words_of(rt)?;
    let is_read = match Command::of(words.as_slice())? {
        Command::Explain(words) => look(rt, false, words)?,
        Command::Check(words) => look(rt, true, words)?,
        Command::Compare(words) => return weigh(rt, words),
        Command::Layout(path) => lay_out(rt, path)?,
        Command::Types => tell(rt, TYPES)?,
        Command::Help => tell(rt, HELP)?,
        Command::Recode(shape) => recode(rt, shape)?,
        Command::RecodeStream(shape) => recode_stream(rt, shape)?,
    };
    Ok(status_of(is_read))
}

/// Runs, prints why it failed, and gives the status.
fn status(rt: &(impl Env + Files + Input + Print + Eprint + AllocGlobal)) -> u8 {
    match run(rt) {
        Ok(status) => status,
        Err(fault) => {
            let _ = eprintln!(rt; "{fault}");
            fault.status()
        }
    }
}

fn main(rt: HostRuntime) -> ExitCode {
    ExitCode::from(status(&rt))
}

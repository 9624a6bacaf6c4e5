//! `wincode_derive FILE.rt [TYPE..]`: writes the schemas of the structs and enums that a source file declares, as its
//! module `schemas`, and the lines of proofs that it leaves; `--check`: says whether what stands there is what would be
//! written, but for its layout; `--print CRATE::MODULE [TYPE..]`: reads the declarations from standard input, and prints
//! the module; `--help` says all.
#![tactic(auto)]

mod arguments;
mod failing;
mod places;

use arguments::{Command, HELP, Mode, VERSION};
use failing::{Failure, Outcome, told};
use places::Place;
use std::process::ExitCode;
use std::rt::{Env, Files};
use std::{env, fs, io};
use wincode_derive_text::{Answers, answers_of, has_schemas, module_of};

/// Whether a character is of the text and not of its layout.
fn is_of_text(c: char) -> bool {
    !c.is_whitespace() && c != ',' && c != '{' && c != '}' && c != '|'
}

/// Whether two modules are the same but for their layout.
fn are_same(one: &str, other: &str) -> bool {
    one.chars()
        .filter(|c| is_of_text(*c))
        .eq(other.chars().filter(|c| is_of_text(*c)))
}

/// A file's text.
fn text_of(rt: &(impl Files + AllocGlobal), path: &str) -> Outcome<String> {
    match fs::read_to_string(rt, path) {
        Ok(text) => Ok(text),
        Err(_) => Err(Failure::Unread(String::from_str(rt.alloc(), path)?)),
    }
}

/// Writes a file, and the folder that it stands in.
fn write(rt: &(impl Files + AllocGlobal), path: &str, text: &str) -> Outcome<()> {
    if let Some((folder, _)) = path.rsplit_once('/') {
        let _ = fs::create_dir_all(rt, folder);
    }
    match fs::write(rt, path, text) {
        Ok(()) => Ok(()),
        Err(_) => Err(Failure::Unwritten(String::from_str(rt.alloc(), path)?)),
    }
}

/// A file that is to stand there.
#[derive(Drop)]
struct Output {
    path: String,
    text: String,
}

/// Says of a file what isn't as it would be written.
fn put_difference(
    rt: &(impl Files + AllocGlobal),
    said: &mut String,
    output: &Output,
) -> Outcome<()> {
    let path = output.path.as_str();
    let what = match fs::read_to_string(rt, path) {
        Ok(present) if are_same(present.as_str(), output.text.as_str()) => return Ok(()),
        Ok(_) => "is not what would be written",
        Err(_) => "would be written, and isn't there",
    };
    let line = format!(in rt.alloc(); "{path} {what}\n")?;
    said.push_str(line.as_str())?;
    Ok(())
}

/// The names in a folder, or none where there is no such folder.
fn names_in(rt: &(impl Files + AllocGlobal + Clone + Drop), folder: &str) -> Outcome<Vec<String>> {
    let alloc = rt.alloc();
    let mut names = Vec::new(alloc);
    let Ok(entries) = fs::read_dir(rt, folder) else {
        return Ok(names);
    };
    for entry in entries {
        if let Ok(entry) = entry {
            names.push(String::from_str(alloc, entry.file_name())?)?;
        }
    }
    Ok(names)
}

/// Adds the proof files two folders below that stand there and aren't among these.
fn add_stale(
    rt: &(impl Files + AllocGlobal + Clone + Drop),
    stale: &mut Vec<String>,
    folder: &str,
    outputs: &[Output],
) -> Outcome<()> {
    let alloc = rt.alloc();
    for name in names_in(rt, folder)? {
        let name = name.as_str();
        let path = format!(in alloc; "{folder}/{name}/Answers.antt")?;
        let is_wanted = outputs
            .iter()
            .any(|output| output.path.as_str() == path.as_str());
        if !is_wanted && fs::metadata(rt, path.as_str()).is_ok() {
            stale.push(path)?;
        }
    }
    Ok(())
}

/// The proof files of a module that no declaration needs any more.
fn stale_below(
    rt: &(impl Files + AllocGlobal + Clone + Drop),
    folder: &str,
    outputs: &[Output],
) -> Outcome<Vec<String>> {
    let alloc = rt.alloc();
    let mut stale = Vec::new(alloc);
    for name in names_in(rt, folder)? {
        let name = name.as_str();
        let inside = format!(in alloc; "{folder}/{name}")?;
        add_stale(rt, &mut stale, inside.as_str(), outputs)?;
    }
    Ok(stale)
}

/// Removes a proof file, and the folders that are then empty.
fn remove(rt: &(impl Files + AllocGlobal), path: &str) -> Outcome<()> {
    if fs::remove_file(rt, path).is_err() {
        return Err(Failure::Unwritten(String::from_str(rt.alloc(), path)?));
    }
    let mut folder = path;
    for _ in 0..3 {
        let Some((above, _)) = folder.rsplit_once('/') else {
            break;
        };
        folder = above;
        if fs::remove_dir(rt, folder).is_err() {
            break;
        }
    }
    Ok(())
}

/// Writes what is to stand there, and removes what isn't.
fn write_all(rt: &(impl Files + AllocGlobal), outputs: &[Output], stale: &[String]) -> Outcome<()> {
    for output in outputs {
        write(rt, output.path.as_str(), output.text.as_str())?;
    }
    for path in stale {
        remove(rt, path.as_str())?;
    }
    Ok(())
}

/// Says what isn't as it would be written.
fn check_all(rt: &(impl Files + AllocGlobal), outputs: &[Output], stale: &[String]) -> Outcome<()> {
    let alloc = rt.alloc();
    let mut said = String::new(alloc);
    for output in outputs {
        put_difference(rt, &mut said, output)?;
    }
    for path in stale {
        let path = path.as_str();
        let line = format!(in alloc; "{path} belongs to no declaration any more\n")?;
        said.push_str(line.as_str())?;
    }
    if said.is_empty() {
        Ok(())
    } else {
        Err(Failure::Different(said))
    }
}

/// The files of a module, and of its proofs.
fn outputs_of(
    rt: &impl AllocGlobal,
    place: &Place,
    module: String,
    answers: Vec<Answers>,
) -> Outcome<Vec<Output>> {
    let alloc = rt.alloc();
    let (folder, inside) = (place.folder.as_str(), place.inside.as_str());
    let mut outputs = Vec::new(alloc);
    outputs.push(Output {
        path: format!(in alloc; "{folder}/src/{inside}schemas.rt")?,
        text: module,
    })?;
    for answer in answers {
        let Answers {
            name,
            function,
            text,
        } = answer;
        let path = format!(in alloc;
            "{folder}/proofs/{inside}schemas/{name}EnumShape/{function}/Answers.antt"
        )?;
        outputs.push(Output { path, text })?;
    }
    Ok(outputs)
}

/// The place of a source file.
fn place_of(rt: &(impl Files + AllocGlobal), file: &str) -> Outcome<Place> {
    match fs::canonicalize(rt, file) {
        Ok(whole) => Place::of_file(rt.alloc(), file, whole.as_str()),
        Err(_) => Err(Failure::Unread(String::from_str(rt.alloc(), file)?)),
    }
}

/// What to say of a source file that names no module `schemas`.
fn unnamed(rt: &impl AllocGlobal, file: &str, before: Failure) -> Outcome<Failure> {
    let alloc = rt.alloc();
    let line = format!(in alloc;
        "{file}: there is no `mod schemas;` in it: write it, since the schemas go into that module\n"
    )?;
    match before {
        Failure::Refused(text) => {
            let text = text.as_str();
            let line = line.as_str();
            Ok(Failure::Refused(format!(in alloc; "{text}{line}")?))
        }
        other => Ok(other),
    }
}

/// The module of a source file, and its proofs.
fn written_of(
    rt: &impl AllocGlobal,
    (file, source): (&str, &str),
    place: &Place,
    names: &[String],
) -> Outcome<Vec<Output>> {
    let alloc = rt.alloc();
    let words = (place.krate.as_str(), place.path.as_str());
    let is_named = told(alloc, (file, source), has_schemas(alloc, source))?;
    let module = told(
        alloc,
        (file, source),
        module_of(alloc, source, words, names),
    );
    let module = match module {
        Ok(module) if is_named => module,
        Ok(_) => return Err(unnamed(rt, file, Failure::Refused(String::new(alloc)))?),
        Err(failure) if is_named => return Err(failure),
        Err(failure) => return Err(unnamed(rt, file, failure)?),
    };
    let answers = told(
        alloc,
        (file, source),
        answers_of(alloc, source, words, names),
    )?;
    outputs_of(rt, place, module, answers)
}

/// Writes or compares the module of a source file, and its proof files.
fn derive_file(
    rt: &(impl Files + AllocGlobal + Clone + Drop),
    mode: Mode,
    file: &str,
    names: &[String],
) -> Outcome<()> {
    let alloc = rt.alloc();
    let source = text_of(rt, file)?;
    let place = place_of(rt, file)?;
    let outputs = written_of(rt, (file, source.as_str()), &place, names)?;
    let outputs = outputs.as_slice();
    let (folder, inside) = (place.folder.as_str(), place.inside.as_str());
    let proofs = format!(in alloc; "{folder}/proofs/{inside}schemas")?;
    let stale = stale_below(rt, proofs.as_str(), outputs)?;
    if mode == Mode::Check {
        check_all(rt, outputs, stale.as_slice())
    } else {
        write_all(rt, outputs, stale.as_slice())
    }
}

/// Prints a text.
fn tell(rt: &(impl Print + AllocGlobal), text: &str) -> Outcome<()> {
    match print!(rt; "{text}") {
        Ok(()) => Ok(()),
        Err(_) => Err(Failure::Unwritten(String::from_str(rt.alloc(), "standard output")?)),
    }
}

/// Prints the module of the declarations on standard input.
fn derive_input(
    rt: &(impl Input + Print + AllocGlobal),
    module: &str,
    names: &[String],
) -> Outcome<()> {
    let alloc = rt.alloc();
    let place = Place::of_module(alloc, module)?;
    let Ok(source) = io::read_to_string(alloc, rt.reader()) else {
        return Err(Failure::Unread(String::from_str(alloc, "standard input")?));
    };
    let words = (place.krate.as_str(), place.path.as_str());
    let source = source.as_str();
    let module = module_of(alloc, source, words, names);
    let module = told(alloc, ("standard input", source), module)?;
    tell(rt, module.as_str())
}

/// The words behind the program's name.
fn words_of(rt: &(impl Env + AllocGlobal)) -> Outcome<Vec<String>> {
    let alloc = rt.alloc();
    let Ok(arguments) = env::args(rt) else {
        return Err(Failure::usage(String::from_str(alloc, "an argument is no text")?));
    };
    let mut words = Vec::new(alloc);
    for word in arguments.skip(1) {
        words.push(word)?;
    }
    Ok(words)
}

/// Does what the arguments say.
fn run(rt: &(impl Env + Files + Input + Print + AllocGlobal + Clone + Drop)) -> Outcome<()> {
    let command = Command::of(rt.alloc(), words_of(rt)?)?;
    match (command.mode, command.words.as_slice()) {
        (Mode::Help, _) => tell(rt, HELP),
        (Mode::Version, _) => tell(rt, VERSION),
        (Mode::Print, [module, names @ ..]) => derive_input(rt, module.as_str(), names),
        (mode, [file, names @ ..]) => derive_file(rt, mode, file.as_str(), names),
        (_, []) => Ok(()),
    }
}

/// Runs, prints why it failed, and gives the status.
fn status(rt: &(impl Env + Files + Input + Print + Eprint + AllocGlobal + Clone + Drop)) -> u8 {
    match run(rt) {
        Ok(()) => 0,
        Err(failure) => {
            let _ = eprint!(rt; "{failure}");
            failure.status()
        }
    }
}

fn main(rt: HostRuntime) -> ExitCode {
    ExitCode::from(status(&rt))
}

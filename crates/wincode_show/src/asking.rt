//! What is asked of bytes by their type: their parts, a line each, or whether they begin with a value.
use std::alloc::{AllocError, AllocFailed, Global};
use std::io::{self, ErrorKind, Read, Write};
use thiserror::Error;
use wincode::ReadError;
use wincode::io::StdSource;
use wincode_derive_text::shown;
use wincode_describe::{
    DescribeError, Described, PrintError, checked_line, checked_source_line, print_source_lines,
};
use wincode_recode::{KnownShape, RelayError, gather};

/// What `--help` prints.
pub const HELP: &str = "\
wincode_show SHAPE                          reads a value from standard input and writes it to standard output
wincode_show relay --stream SHAPE           so, as the input comes: nested list by list, any other as one value in memory
wincode_show explain [OPTIONS] TYPE [FILE]  the parts of the value at the front, a line each
wincode_show check [OPTIONS] TYPE [FILE]    one line: ok, N bytes, M left; or the refusal with its offset
wincode_show compare OLD NEW                whether NEW reads what was written of OLD: same, reads, differs or may differ
wincode_show layout SOURCE                  the types that this Rust source declares, a line each, as OLD or NEW may be given
wincode_show types                          what can be written in a type, with an example each
Without a file the bytes are read from standard input. OLD and NEW are types. The options, which stand before a type, are:
  --stream                                  check reads the bytes as they come, as explain does
  --types SOURCE                            structs and enums have the names that this Rust source gives them
A shape stands for a type: nested for Vec<Vec<u64>>, text for String, short for short Vec<u8>, record for
(u64, bool, [u8; 32]) and pairs for BTreeMap<u8, u8>. Status 0: a value was read; 1: none was, or a fault of memory, input
or output; 2: no such command, shape, type or file. Of compare 0: same; 1: reads, or such a fault; 2: else.
";

/// Why nothing was printed.
#[derive(Debug, Drop, Error)]
pub enum Fault {
    #[error("no such command: wincode_show --help says which there are")]
    Usage,
    #[error(transparent)]
    Relay(RelayError),
    #[error(transparent)]
    Type(DescribeError),
    /// What is wrong with the declarations, a line each with those that show where.
    #[error("{0}")]
    Declared(String),
    #[error("the input can't be read: {0}")]
    Unread(io::Error),
    /// What comes of the input can't be counted to its end.
    #[error(transparent)]
    Uncounted(ReadError),
    #[error("the output can't be written: {0}")]
    Unwritten(io::Error),
    #[error("Out of memory")]
    OutOfMemory,
}

impl Fault {
    /// The status with which the program ends.
    pub fn status(&self) -> u8 {
        match self {
            Fault::Relay(error) => error.status(),
            Fault::Usage | Fault::Type(_) | Fault::Declared(_) | Fault::Unread(_) => 2,
            Fault::Uncounted(_) | Fault::Unwritten(_) | Fault::OutOfMemory => 1,
        }
    }
}

impl From<RelayError> for Fault {
    fn from(error: RelayError) -> Fault {
        Fault::Relay(error)
    }
}

impl From<DescribeError> for Fault {
    fn from(error: DescribeError) -> Fault {
        Fault::Type(error)
    }
}

impl From<ReadError> for Fault {
    fn from(error: ReadError) -> Fault {
        Fault::Uncounted(error)
    }
}

impl From<AllocError> for Fault {
    fn from(_refused: AllocError) -> Fault {
        Fault::OutOfMemory
    }
}

impl<T: Drop> From<AllocFailed<T>> for Fault {
    fn from(_refused: AllocFailed<T>) -> Fault {
        Fault::OutOfMemory
    }
}

/// What the program is asked to do.
#[derive(Clone, Copy, Drop)]
pub enum Command<'a> {
    /// The parts of a value, as the words behind it say.
    Explain(&'a [String]),
    /// Whether there is a value, as the words behind it say.
    Check(&'a [String]),
    /// Two types, as the words behind it say.
    Compare(&'a [String]),
    /// The types that this source file declares.
    Layout(&'a str),
    Types,
    Help,
    /// A value of this shape, from the input to the output.
    Recode(&'a str),
    /// So, as the input comes.
    RecodeStream(&'a str),
}

impl<'a> Command<'a> {
    /// What these words ask.
    pub fn of(words: &'a [String]) -> Result<Command<'a>, Fault> {
        let [command, others @ ..] = words else {
            return Err(Fault::Usage);
        };
        match (command.as_str(), others) {
            ("explain", _) => Ok(Command::Explain(others)),
            ("check", _) => Ok(Command::Check(others)),
            ("compare", _) => Ok(Command::Compare(others)),
            ("layout", [path]) => Ok(Command::Layout(path.as_str())),
            ("types", []) => Ok(Command::Types),
            ("--help", []) => Ok(Command::Help),
            (shape, []) => Ok(Command::Recode(shape)),
            ("relay", [option, shape]) if option.as_str() == "--stream" => {
                Ok(Command::RecodeStream(shape.as_str()))
            }
            _ => Err(Fault::Usage),
        }
    }
}

/// The words behind `explain` or `check`.
#[derive(Clone, Copy, Drop)]
pub struct Asked<'a> {
    is_stream: bool,
    /// The source file whose declarations name types, if one is given.
    pub types: Option<&'a str>,
    text: &'a str,
    /// The file of the bytes, or none for standard input.
    pub file: Option<&'a str>,
}

impl<'a> Asked<'a> {
    /// What these words ask.
    pub fn of(words: &'a [String]) -> Result<Asked<'a>, Fault> {
        let mut is_stream = false;
        let mut types = None;
        let mut others = words;
        for _ in 0..words.len() {
            match others {
                [option, more @ ..] if option.as_str() == "--stream" => {
                    is_stream = true;
                    others = more;
                }
                [option, path, more @ ..] if option.as_str() == "--types" => {
                    types = Some(path.as_str());
                    others = more;
                }
                _ => break,
            }
        }
        let (text, file) = match others {
            [text] => (text.as_str(), None),
            [text, file] => (text.as_str(), Some(file.as_str())),
            _ => return Err(Fault::Usage),
        };
        Ok(Asked {
            is_stream,
            types,
            text,
            file,
        })
    }
}

/// What is asked of bytes.
#[derive(Drop)]
pub struct Question {
    is_check: bool,
    is_stream: bool,
    described: Described,
}

/// The type that a shape's word stands for, or the text itself.
fn type_of(text: &str) -> &str {
    match KnownShape::of(text) {
        Some(KnownShape::Nested) => "Vec<Vec<u64>>",
        Some(KnownShape::Text) => "String",
        Some(KnownShape::Short) => "short Vec<u8>",
        Some(KnownShape::Record) => "(u64, bool, [u8; 32])",
        Some(KnownShape::Pairs) => "BTreeMap<u8, u8>",
        None => text,
    }
}

/// Why a type can't be read, told with the file of its declarations where these are wrong.
pub fn untyped(alloc: Global, (file, source): (&str, &str), error: DescribeError) -> Fault {
    let DescribeError::Declaration(error) = error else {
        return Fault::Type(error);
    };
    match shown(alloc, file, source, &error) {
        Ok(mut text) => {
            let _ = text.pop();
            Fault::Declared(text)
        }
        Err(_) => Fault::OutOfMemory,
    }
}

/// The type of this text, where the declarations of this source, of a file if there is one, name types.
pub fn described_by(
    alloc: Global,
    file: Option<&str>,
    source: &str,
    text: &str,
) -> Result<Described, Fault> {
    match Described::parse_with(alloc, source, type_of(text)) {
        Ok(described) => Ok(described),
        Err(error) => Err(untyped(alloc, (file.unwrap_or(""), source), error)),
    }
}

impl Question {
    /// What is asked, where these declarations name types.
    pub fn of(
        alloc: Global,
        is_check: bool,
        asked: &Asked,
        source: &str,
    ) -> Result<Question, Fault> {
        let described = described_by(alloc, asked.types, source, asked.text)?;
        Ok(Question {
            is_check,
            is_stream: asked.is_stream,
            described,
        })
    }

    /// Prints whether a value stands at the front of the input, on one line; and answers so.
    fn check<R: Read + Drop, W: Write>(
        &self,
        alloc: Global,
        mut input: R,
        output: &mut W,
    ) -> Result<bool, Fault> {
        let (is_ok, mut line) = if self.is_stream {
            checked_source_line(alloc, &self.described, StdSource::new(input))?
        } else {
            let bytes = gather(alloc, &mut input)?;
            checked_line(alloc, &self.described, bytes.as_slice())?
        };
        line.push('\n')?;
        print(output, line.as_str())?;
        Ok(is_ok)
    }

    /// Prints what is answered of the input, where its parts are asked for each as it comes; and whether a value was read.
    /// The output comes back.
    pub fn answer<R: Read + Drop, W: Write + Drop>(
        &self,
        alloc: Global,
        input: R,
        mut output: W,
    ) -> (W, Result<bool, Fault>) {
        if self.is_check {
            let answer = self.check(alloc, input, &mut output);
            return (output, answer);
        }
        let source = StdSource::new(input);
        let (output, answer) = print_source_lines(alloc, &self.described, source, output);
        (output, ended(answer))
    }
}

/// How printing lines ended. A closed pipe ends quietly, before a value was read.
fn ended(answer: Result<bool, PrintError>) -> Result<bool, Fault> {
    match answer {
        Ok(is_read) => Ok(is_read),
        Err(PrintError::Output(error)) => match error.kind() {
            ErrorKind::BrokenPipe => Ok(false),
            _ => Err(Fault::Unwritten(error)),
        },
        Err(PrintError::OutOfMemory) => Err(Fault::OutOfMemory),
    }
}

/// Prints the text. A closed pipe ends quietly.
pub fn print<W: Write>(output: &mut W, text: &str) -> Result<(), Fault> {
    match output.write_all(text.as_bytes()) {
        Ok(()) => Ok(()),
        Err(error) => match error.kind() {
            ErrorKind::BrokenPipe => Ok(()),
            _ => Err(Fault::Unwritten(error)),
        },
    }
}

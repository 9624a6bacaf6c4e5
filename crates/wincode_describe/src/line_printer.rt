//! Lines of parts, each written as soon as its part is there.
ghost use Rattle.std.specs.Prelude.{IfOk};
ghost use Rattle.wincode_describe.specs.Explained.{SaysRead, SaysSource};

use crate::described::Described;
use crate::lines::{push_bytes, push_line, push_refusal};
use crate::parts::part_size;
use crate::reading::show_parts;
use crate::shown::Shown;
use crate::sink::PartSink;
use crate::upcoming::Upcoming;
use std::alloc::{AllocError, Global};
use std::io::{self, Write};
use thiserror::Error;
use wincode_base::error::{ReadError, ReadResult};
use wincode_io::{Lending, Lifetime, Reader, Source, StreamReader};

/// Why lines weren't written to their end.
#[derive(Debug, Drop, Error)]
pub enum PrintError {
    #[error(transparent)]
    Output(io::Error),
    #[error("Out of memory")]
    OutOfMemory,
}

impl From<io::Error> for PrintError {
    fn from(error: io::Error) -> PrintError {
        PrintError::Output(error)
    }
}

impl From<AllocError> for PrintError {
    fn from(_refused: AllocError) -> PrintError {
        PrintError::OutOfMemory
    }
}

/// Writes a line for each part that it takes.
#[derive(Debug, Drop)]
pub(crate) struct LinePrinter<W: Write + Drop> {
    alloc: Global,
    upcoming: Upcoming,
    /// Where the next part begins.
    at: usize,
    output: W,
    /// Why a part wasn't taken, if one wasn't.
    failure: Option<PrintError>,
}

impl<W: Write + Drop> LinePrinter<W> {
    /// Writes the line of a part.
    fn print(&mut self, part: &Shown) -> Result<(), PrintError> {
        let alloc = self.alloc;
        let mut bytes = Vec::new(alloc);
        push_bytes(&mut bytes, part)?;
        let Some(end) = self.at.checked_add(part_size(part)) else {
            return Err(PrintError::OutOfMemory);
        };
        let mut line = String::new(alloc);
        let place = self.upcoming.place();
        push_line(alloc, &mut line, self.at, bytes.as_slice(), place, part)?;
        self.output.write_all(line.as_bytes())?;
        self.at = end;
        self.upcoming.pass(alloc, part)?;
        Ok(())
    }

    /// Writes the line of a refusal.
    fn print_refusal(&mut self, error: &ReadError) -> Result<(), PrintError> {
        let mut line = String::new(self.alloc);
        let place = self.upcoming.place();
        push_refusal(self.alloc, &mut line, self.at, place, error)?;
        self.output.write_all(line.as_bytes())?;
        Ok(())
    }
}

impl<W: Write + Drop> PartSink for LinePrinter<W> {
    ghost took = { λ s xs t. Unit {0} };

    ghost sink_laws = { record { none = λ s. tt; joins = λ s t u xs ys one other. tt } };

    fn add(&mut self, part: Shown) -> ReadResult<()> {
        match self.print(&part) {
            Ok(()) => Ok(()),
            Err(failure) => {
                self.failure = Some(failure);
                Err(ReadError::OutOfMemory)
            }
        }
    }
}

/// What is explained of what the reader has goes to the printer, and behind it the line of a refusal; whether a value was
/// read.
fn print_read<L: Lending, R: Reader<L>, W: Write + Drop>(
    alloc: Global,
    described: &Described,
    reader: &mut R,
    printer: &mut LinePrinter<W>,
) -> Result<bool, PrintError>
    ensures { IfOk result (SaysRead described.now (R.state reader.old) (R.state reader.new)) }
{
    let answer = show_parts::<L, R, LinePrinter<W>>(alloc, described, reader, printer);
    if let Some(failure) = printer.failure.take() {
        return Err(failure);
    }
    match answer {
        Ok(()) => Ok(true),
        Err(error) => {
            printer.print_refusal(&error)?;
            Ok(false)
        }
    }
}

/// So, of what comes of the source.
fn print_source<S: Source + Drop, W: Write + Drop>(
    alloc: Global,
    described: &Described,
    source: S,
    printer: &mut LinePrinter<W>,
) -> Result<bool, PrintError>
    ensures { IfOk result (SaysSource described.now (S.state source)) }
{
    match StreamReader::new(alloc, source) {
        Ok(mut reader) => {
            print_read::<Lifetime, StreamReader<S>, W>(alloc, described, &mut reader, printer)
        }
        Err(error) => {
            printer.print_refusal(&ReadError::Io(error))?;
            Ok(false)
        }
    }
}

/// Writes the lines of `explained_source_lines` to the output, each as soon as its part was read, and says whether a value
/// was read. No part is kept, and the output comes back. Where a line can't be written, or memory for one is refused, that
/// is the error, and no line is written behind it.
pub fn print_source_lines<S: Source + Drop, W: Write + Drop>(
    alloc: Global,
    described: &Described,
    source: S,
    output: W,
) -> (W, Result<bool, PrintError>)
    ensures { IfOk result.1 (SaysSource described.now (S.state source)) }
{
    let upcoming = match Upcoming::of(alloc, described) {
        Ok(upcoming) => upcoming,
        Err(_) => return (output, Err(PrintError::OutOfMemory)),
    };
    let mut printer = LinePrinter {
        alloc,
        upcoming,
        at: 0,
        output,
        failure: None,
    };
    let answer = print_source(alloc, described, source, &mut printer);
    let LinePrinter { output, .. } = printer;
    (output, answer)
}

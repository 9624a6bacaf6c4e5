//! The type that a text describes.
ghost use Rattle.std.specs.Prelude.{◌≡◌, ℕ, List, IfOk, IfErr, IsUtf8};
ghost use Rattle.wincode_describe.specs.declared.error.DescribeError.TheVariants.{OutOfMemory as NoMemory};
ghost use Rattle.wincode_c.specs.declared.typed.Untyped.TheVariants.{OutOfMemory};
ghost use Rattle.wincode_c.specs.Reports.{IsOfText, IsTextBy, IsTextOf, Untypes, FaultReported, fault_number, fault_place};

use crate::report::Report;
use std::alloc::Global;
use std::str;
use wincode_describe::{DescribeError, Described};

/// Why a text describes no type.
#[derive(Clone, Copy, Drop)]
pub(crate) enum Untyped {
    /// It isn't UTF-8 from this byte on.
    NoText(usize),
    /// Something else is wanted at this byte.
    Wanted(usize),
    /// The type at this byte is too deep.
    TooDeep(usize),
    /// Memory for the type was refused.
    OutOfMemory,
}

impl Untyped {
    /// The fault's number, which is below 0, and the byte of the text.
    pub(crate) fn number(self) -> (i32, usize)
        ensures { result ≡ (fault_number self, fault_place self) }
    {
        match self {
            Untyped::NoText(place) => (-1, place),
            Untyped::Wanted(place) => (-2, place),
            Untyped::TooDeep(place) => (-3, place),
            Untyped::OutOfMemory => (-4, 0),
        }
    }

    /// Reports the byte of the text, and gives the fault's number.
    pub(crate) fn reported(self, report: &mut Report) -> i32
        ensures { FaultReported self report.new result }
    {
        let (number, place) = self.number();
        report.length = 0;
        report.parts = 0;
        report.behind = 0;
        report.place = place;
        report.first = 0;
        report.second = 0;
        report.depth = 0;
        number
    }
}

/// The type that the text describes.
pub(crate) fn described_by(alloc: Global, text: &[u8]) -> Result<Described, Untyped>
    ensures ok { IfOk result (IsTextOf text.now) }
    ensures err { IfErr result (Untypes text.now) }
{
    let words = words_of(text)?;
    match Described::parse(alloc, words) {
        Ok(described) => Ok(described),
        Err(error) => Err(fault_of(&error)),
    }
}

/// The type that the text describes, where what the source declares has its name.
pub(crate) fn declared_by(alloc: Global, source: &[u8], text: &[u8]) -> Result<Described, Untyped>
    ensures ok { IfOk result (IsTextBy source.now text.now) }
{
    let declarations = words_of(source)?;
    let words = words_of(text)?;
    match Described::parse_with(alloc, declarations, words) {
        Ok(described) => Ok(described),
        Err(error) => Err(fault_of(&error)),
    }
}

/// The bytes as a text.
fn words_of(text: &[u8]) -> Result<&str, Untyped>
    ensures ok { IfOk result (λ words. (words.now ≡ text.now) × IsUtf8 text.now) }
    ensures err { IfErr result (λ f. (IsUtf8 text.now → ⊥) × IsOfText text.now f) }
{
    match str::from_utf8(text) {
        Ok(words) => Ok(words),
        Err(error) => Err(Untyped::NoText(error.valid_up_to())),
    }
}

/// Why the text describes no type.
fn fault_of(error: &DescribeError) -> Untyped
    ensures memory { error.now ≡ NoMemory → result ≡ OutOfMemory }
    ensures text { (text : List ℕ) → IsUtf8 text → IsOfText text result }
{
    match error {
        DescribeError::Wanted { at, .. } => Untyped::Wanted(*at),
        DescribeError::TooDeep { at } => Untyped::TooDeep(*at),
        DescribeError::OutOfMemory => Untyped::OutOfMemory,
        _ => Untyped::Wanted(0),
    }
}

//! Bytes explained by a type, part by part, and checked without their parts.
ghost use Rattle.std.specs.Prelude.{map};
ghost use Rattle.wincode_describe.specs.Explained.{Explains, ExplainsRead, Checks, ChecksRead};
ghost use Rattle.wincode_describe.specs.Parts.{seen};

use crate::described::Described;
use crate::reading::show_parts;
use crate::shown::Shown;
use crate::sink::PartsSize;
use std::alloc::Global;
use wincode_base::error::ReadError;
use wincode_io::{Lending, ReadWindow, Reader, TrustedSliceReader};

/// What was read of bytes by a type.
#[derive(Debug, Drop)]
pub struct Explained {
    /// The parts, in order: of the value at the front, or those that stand before what was refused.
    pub parts: Vec<Shown>,
    /// Why no value was read, if none was.
    pub refused: Option<ReadError>,
}

/// What was read of bytes by a type, without its parts.
#[derive(Debug, Drop)]
pub struct Checked {
    /// How many bytes the parts have: of the value at the front, or those that stand before what was refused.
    pub bytes: usize,
    /// Why no value was read, if none was.
    pub refused: Option<ReadError>,
}

/// Reads a value of the type from the front of what the reader has, and gives its parts; refused, it gives those that
/// stand before what was refused. The parts' bytes, joined in order, are a front of what the reader had; of a value,
/// those that were read. The reader is left as by `read_described`.
pub fn explain_read<L: Lending, R: Reader<L>>(
    alloc: Global,
    described: &Described,
    reader: &mut R,
) -> Explained
    ensures { ExplainsRead described.now (R.state reader.old) (R.state reader.new) (map seen result.parts.items) result.refused }
{
    let mut parts = Vec::new(alloc);
    match show_parts::<L, R, Vec<Shown>>(alloc, described, reader, &mut parts) {
        Ok(()) => Explained {
            parts,
            refused: None,
        },
        Err(error) => Explained {
            parts,
            refused: Some(error),
        },
    }
}

/// As `explain_read`, but no part is kept: it gives how many bytes they have. More than `usize::MAX` are refused as
/// `OutOfMemory`.
pub fn check_read<L: Lending, R: Reader<L>>(
    alloc: Global,
    described: &Described,
    reader: &mut R,
) -> Checked
    ensures { ChecksRead described.now (R.state reader.old) (R.state reader.new) result.bytes result.refused }
{
    let mut parts = PartsSize { bytes: 0 };
    match show_parts::<L, R, PartsSize>(alloc, described, reader, &mut parts) {
        Ok(()) => Checked {
            bytes: parts.bytes,
            refused: None,
        },
        Err(error) => Checked {
            bytes: parts.bytes,
            refused: Some(error),
        },
    }
}

/// Reads a value of the type from the front of the bytes, and gives its parts; refused, it gives those that stand before
/// what was refused. The parts' bytes, joined in order, are a front of the bytes: of a value, those that were read.
pub fn explain<L: Lending>(alloc: Global, described: &Described, bytes: L::Bytes) -> Explained
    ensures { Explains described.now (L.held bytes) (map seen result.parts.items) result.refused }
{
    let mut window = ReadWindow::<L>::Plain(TrustedSliceReader::new(bytes));
    explain_read::<L, ReadWindow<L>>(alloc, described, &mut window)
}

/// As `explain`, but no part is kept: it gives how many bytes they have.
pub fn check<L: Lending>(alloc: Global, described: &Described, bytes: L::Bytes) -> Checked
    ensures { Checks described.now (L.held bytes) result.bytes result.refused }
{
    let mut window = ReadWindow::<L>::Plain(TrustedSliceReader::new(bytes));
    check_read::<L, ReadWindow<L>>(alloc, described, &mut window)
}

//! Relaying: a value read from an input, and written again to an output.
ghost use Rattle.std.specs.Prelude.{IfOk, IfErr, OnOk, IfSome, ◌≡◌};
ghost use Rattle.wincode_recode.specs.Recoding.{IsRelayed, RelayRefused, GatherRefused};

use crate::recoding::{KnownShape, RelayError, recode_as};
use std::alloc::Global;
use std::io::{Read, Write};

/// All that the input gives.
pub fn gather<R: Read>(alloc: Global, input: &mut R) -> Result<Vec<u8>, RelayError>
    ensures ok { IfOk result (λ v. IfSome (R.remaining input.old) (λ all. v.items ≡ all)) }
    ensures err { IfErr result GatherRefused }
{
    let mut bytes = Vec::new(alloc);
    let mut piece = [0u8; 4096];
    loop {
        let n = input.read(&mut piece).map_err(RelayError::Input)?;
        if n == 0 {
            return Ok(bytes);
        }
        if bytes.extend_from_slice(&piece[..n]).is_err() {
            return Err(RelayError::OutOfMemory);
        }
    }
}

/// Reads all input, recodes it as `recode` does, and writes the encoding. Nothing is written before the
/// whole encoding is there. The shape is looked at first.
pub fn relay<R: Read, W: Write>(
    alloc: Global,
    shape: &str,
    input: &mut R,
    output: &mut W,
) -> Result<(), RelayError>
    ensures ok { OnOk result (IsRelayed shape.now (R.remaining input.old) (W.contents output.old) (W.contents output.new)) }
    ensures err { IfErr result (RelayRefused shape.now (R.remaining input.old) (R.remaining input.new) (W.contents output.old) (W.contents output.new)) }
{
    let Some(known) = KnownShape::of(shape) else {
        return Err(RelayError::UnknownShape);
    };
    let bytes = gather(alloc, input)?;
    let text = recode_as(alloc, known, bytes.as_slice())?;
    output
        .write_all(text.as_slice())
        .map_err(RelayError::Output)?;
    Ok(())
}

//! Why no schemas are written, as a compiler says it.
use crate::error::{DeriveError, DeriveResult, Fault, Spot};
use std::alloc::Global;

/// Appends the line of that number, and a caret below the column.
fn put_line(out: &mut String, source: &str, spot: Spot) -> DeriveResult<()> {
    let Some(line) = source.lines().nth(spot.line.saturating_sub(1)) else {
        return Ok(());
    };
    out.push_str(line)?;
    out.push('\n')?;
    for c in line.chars().take(spot.column.saturating_sub(1)) {
        out.push(if c == '\t' { '\t' } else { ' ' })?;
    }
    out.push_str("^\n")?;
    Ok(())
}

/// Appends a fault: its place and what it is, the line, and a caret.
fn put_fault(
    alloc: Global,
    out: &mut String,
    (file, source): (&str, &str),
    fault: &Fault,
) -> DeriveResult<()> {
    let Spot { line, column } = fault.spot;
    let message = fault.message.as_str();
    let first = format!(in alloc; "{file}:{line}:{column}: {message}\n")?;
    out.push_str(first.as_str())?;
    put_line(out, source, fault.spot)
}

/// Why no schemas of a file are written: `FILE:LINE:COLUMN: MESSAGE`, the line, and a caret below the column, of each
/// fault in it.
pub fn shown(alloc: Global, file: &str, source: &str, error: &DeriveError) -> DeriveResult<String> {
    let mut out = String::new(alloc);
    match error {
        DeriveError::Refused(faults) => {
            for fault in faults.all.as_slice() {
                put_fault(alloc, &mut out, (file, source), fault)?;
            }
        }
        DeriveError::OutOfMemory => out.push_str("out of memory\n")?,
        other => {
            let line = format!(in alloc; "{file}: {other}\n")?;
            out.push_str(line.as_str())?;
        }
    }
    Ok(out)
}

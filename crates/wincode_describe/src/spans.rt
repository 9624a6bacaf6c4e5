//! Where the parts of a value stand.
ghost use Rattle.std.specs.Prelude.{map, IfOk};
ghost use Rattle.wincode_describe.specs.Parts.{seen};
ghost use Rattle.wincode_describe.specs.Spans.{AreSpans};

use crate::parts::part_size;
use crate::shown::Shown;
use std::alloc::{AllocError, Global};

/// Where a part stands: behind so many bytes, and how many it has.
#[derive(Debug, Clone, Copy, PartialEq, Eq)]
pub struct Span {
    pub offset: usize,
    pub size: usize,
}

/// Where each part stands: the first behind no byte, each other where the one before it ends. It is refused where memory
/// is, or where the bytes can't be counted.
pub fn spans(alloc: Global, parts: &[Shown]) -> Result<Vec<Span>, AllocError>
    ensures { IfOk result (λ spans. AreSpans 0 (map seen parts.now) spans.items) }
{
    let mut spans = Vec::new(alloc);
    let mut offset = 0usize;
    for part in parts {
        let size = part_size(part);
        spans.push(Span { offset, size })?;
        match offset.checked_add(size) {
            Some(end) => offset = end,
            None => return Err(AllocError),
        }
    }
    Ok(spans)
}

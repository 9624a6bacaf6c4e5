//! Where the parts of a value go.
ghost use Rattle.std.specs.Prelude.{◌≡◌, ◌+◌, ◌++◌, ◌∷◌, [], List, OnOk, IfErr};
ghost use Rattle.wincode_describe.specs.ShownGrammars.{SinkLaws};
ghost use Rattle.wincode_describe.specs.SinkLaws.{parts_size, none_more, more_joins, none_counted, more_counted};
ghost use Rattle.wincode_describe.specs.declared.shown.Shown.{Shown};

use crate::parts::part_size;
use crate::shown::Shown;
use wincode_base::error::{ReadError, ReadResult};

/// Takes the parts of a value, in the order in which they stand.
pub trait PartSink {
    // It took these parts, in order, and is then the other.
    ghost took: { Self → List Shown → Self → Type 0 };

    ghost sink_laws: { SinkLaws took };

    /// Takes a part. It is `OutOfMemory` where it can't, and then it is as it was.
    fn add(&mut self, part: Shown) -> ReadResult<()>
        ensures ok { OnOk result (took self.old (part ∷ []) self.new) }
        ensures err { IfErr result (λ e. (e ≡ ReadError.OutOfMemory) × took self.old [] self.new) };
}

/// All parts are kept.
impl PartSink for Vec<Shown> {
    ghost took = { λ s xs t. t.items ≡ s.items ++ xs };

    ghost sink_laws = { record { none = λ s. none_more s.items; joins = λ s t u xs ys. more_joins s.items t.items u.items xs ys } };

    fn add(&mut self, part: Shown) -> ReadResult<()> {
        match self.push(part) {
            Ok(()) => Ok(()),
            Err(_) => Err(ReadError::OutOfMemory),
        }
    }
}

/// How many bytes the parts have that it took.
#[derive(Debug, Clone, Copy, Drop)]
pub struct PartsSize {
    pub bytes: usize,
}

/// No part is kept. A part with which the bytes can't be counted any more is `OutOfMemory`.
impl PartSink for PartsSize {
    ghost took = { λ s xs t. t.bytes ≡ s.bytes + parts_size xs };

    ghost sink_laws = { record { none = λ s. none_counted s.bytes; joins = λ s t u xs ys. more_counted s.bytes t.bytes u.bytes xs ys } };

    fn add(&mut self, part: Shown) -> ReadResult<()> {
        match self.bytes.checked_add(part_size(&part)) {
            Some(bytes) => {
                self.bytes = bytes;
                Ok(())
            }
            None => Err(ReadError::OutOfMemory),
        }
    }
}

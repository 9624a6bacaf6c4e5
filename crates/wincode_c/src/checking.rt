//! Bytes that are read by a type, of which the parts are counted and not kept.
ghost use Rattle.std.specs.Prelude.{◌≡◌, ◌+◌, length};
ghost use Rattle.wincode_c.specs.CountLaws.{none_counted, more_counted};
ghost use Rattle.wincode_c.specs.Counts.{Counts};
ghost use Rattle.wincode_c.specs.Reports.{IsTold, Reports};
ghost use Rattle.wincode_describe.specs.SinkLaws.{parts_size};

use crate::depths::depth_at;
use crate::refusals::{number_of, numbers_of};
use crate::report::Report;
use std::alloc::Global;
use wincode_base::error::{ReadError, ReadResult};
use wincode_describe::{Described, PartSink, Shown, part_size, show_parts};
use wincode_io::{Lending, Lifetime, Reader, TrustedSliceReader};

/// How many parts were taken, and how many bytes they have.
#[derive(Clone, Copy, Drop)]
pub(crate) struct Counted {
    pub(crate) parts: usize,
    pub(crate) bytes: usize,
}

/// No part is kept. A part with which they or their bytes can't be counted any more is `OutOfMemory`.
impl PartSink for Counted {
    ghost took = { λ s xs t. (t.bytes ≡ s.bytes + parts_size xs) × (t.parts ≡ s.parts + length xs) };

    ghost sink_laws = { record {
      none = λ s. none_counted s.bytes s.parts;
      joins = λ s t u xs ys. more_counted s.bytes t.bytes u.bytes s.parts t.parts u.parts xs ys;
    } };

    fn add(&mut self, part: Shown) -> ReadResult<()> {
        let Some(bytes) = self.bytes.checked_add(part_size(&part)) else {
            return Err(ReadError::OutOfMemory);
        };
        let Some(parts) = self.parts.checked_add(1) else {
            return Err(ReadError::OutOfMemory);
        };
        self.bytes = bytes;
        self.parts = parts;
        Ok(())
    }
}

/// Reads a value of the type from the front of what the reader has, and counts its parts; or those that stand before what
/// was refused, and why.
pub(crate) fn count_read<L: Lending, R: Reader<L>>(
    alloc: Global,
    described: &Described,
    reader: &mut R,
) -> (Counted, Option<ReadError>)
    ensures { Counts described.now (R.state reader.old) (R.state reader.new) result.0 result.1 }
{
    let mut counted = Counted { parts: 0, bytes: 0 };
    match show_parts::<L, R, Counted>(alloc, described, reader, &mut counted) {
        Ok(()) => (counted, None),
        Err(error) => (counted, Some(error)),
    }
}

/// The number of the refusal, and the numbers of its text; 0 where nothing was refused.
fn told_of(refused: &Option<ReadError>) -> (i32, usize, usize)
    ensures { IsTold refused.now result.0 result.1 result.2 }
{
    match refused {
        None => (0, 0, 0),
        Some(error) => {
            let (first, second) = numbers_of(error);
            (number_of(error), first, second)
        }
    }
}

/// Reads the bytes by the type, reports what was found, and gives the number of the refusal, or 0.
pub(crate) fn check_by(
    alloc: Global,
    described: &Described,
    bytes: &[u8],
    report: &mut Report,
) -> i32
    ensures { Reports described.now bytes.now report.new result }
{
    let mut reader = TrustedSliceReader::<Lifetime>::new(bytes);
    let (counted, refused) = count_read::<Lifetime, TrustedSliceReader<Lifetime>>(
        alloc,
        described,
        &mut reader,
    );
    let (number, first, second) = told_of(&refused);
    report.length = counted.bytes;
    report.parts = counted.parts;
    report.behind = bytes.len().saturating_sub(counted.bytes);
    report.place = bytes.len().saturating_sub(reader.at_hand().len());
    report.first = first;
    report.second = second;
    report.depth = match &refused {
        None => 0,
        Some(_) => depth_at(alloc, described, bytes, counted.parts),
    };
    number
}

//! What is written as its parts, by their schema.
ghost use Rattle.std.specs.Prelude.{◌≡◌, ◌≤◌, length, take, IfSome, IfOk, IfErr};
ghost use Rattle.wincode_base.specs.Outcomes.{IsSized, IsEncoded, SizeRefused, WriteOutcome};
ghost use Rattle.wincode_base.specs.Strings.{reference_write};

mod nonzero;
mod parts;
pub(crate) mod runs;
mod schemas;

use crate::schema::SchemaWrite;
use wincode_base::error::WriteResult;
use wincode_io::Writer;

/// What is made of parts, whose schema is `A`.
pub(crate) trait ToParts<A: SchemaWrite> {
    // Its own parts.
    ghost parts: { Self → A.Src };

    // What is known of a value.
    ghost sound: { Self → Type 0 };

    fn to_parts(&self) -> A::Src
        ensures parts { result ≡ parts self.now }
        ensures sound { sound self.now };
}

/// The size of the parts.
pub(crate) fn size_of_made<A: SchemaWrite, T: ToParts<A>>(src: &T) -> WriteResult<usize>
where
    A::Src: Drop,
    ensures ok { IfOk result (IsSized (reference_write A.writing) (A.model (T.parts src.now))) }
    ensures err { IfErr result (SizeRefused (reference_write A.writing) (A.model (T.parts src.now))) }
{
    let parts = src.to_parts();
    A::size_of(&parts)
}

/// Writes the parts.
pub(crate) fn write_made<A: SchemaWrite, T: ToParts<A>, W: Writer>(
    writer: &mut W,
    src: &T,
) -> WriteResult<()>
where
    A::Src: Drop,
    ensures { WriteOutcome (reference_write A.writing) (W.state writer.old) (W.state writer.new) (A.model (T.parts src.now))
        (T.sound src.now × A.is_valid (T.parts src.now)) result }
{
    let parts = src.to_parts();
    A::write::<W>(writer, &parts)
}

/// Puts an encoding of the parts over the front of the bytes, and gives how many it has.
#[inline(always)]
pub(crate) fn encode_made<A: SchemaWrite, T: ToParts<A>>(src: &T, dst: &mut [u8]) -> Option<usize>
where
    A::Src: Drop,
    ensures { IfSome result (λ n. (n ≤ length dst.new) × IsEncoded (reference_write A.writing) (A.model (T.parts src.now)) (take n dst.new)
        × (T.sound src.now × A.is_valid (T.parts src.now))) }
{
    let parts = src.to_parts();
    A::encode_front(&parts, dst)
}

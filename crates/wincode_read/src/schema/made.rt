//! What is made of parts that may make nothing: a schema of it reads the parts by theirs.
ghost use Rattle.std.specs.Prelude.{List, ℕ, IfOk, IfErr, IsTrue};
ghost use Rattle.wincode_base.specs.Made.{MakeNothing, made_read};
ghost use Rattle.wincode_base.specs.Outcomes.{GetOutcome, ReadOutcome};

pub(crate) mod floats;
mod nonzero;
mod parts;
mod schemas;

use crate::schema::at_hand::decoded;
use crate::schema::{SchemaGet, SchemaRead};
use std::alloc::Global;
use wincode_base::error::ReadResult;
use wincode_io::{Lending, Reader};

/// What is made of parts, whose schema is `A`.
pub(crate) trait FromParts<L: Lending, A: SchemaRead<L>>: Drop {
    // Its own parts.
    ghost parts: { Self → A.Dst };

    // Which parts make what has which parts of its own.
    ghost made: { A.Dst → A.Dst → Type 0 };

    // The text of the error where parts make nothing.
    ghost text: { List ℕ };

    /// What the parts make; or `Custom`, where they make nothing.
    fn from_parts(of: A::Dst) -> ReadResult<Self>
        ensures ok { IfOk result (λ x. made of (parts x)) }
        ensures err { IfErr result (MakeNothing A.model made text of) };
}

/// What the parts make that are read.
fn get_made<L: Lending, A: SchemaRead<L>, T: FromParts<L, A>, R: Reader<L>>(
    alloc: Global,
    reader: &mut R,
) -> ReadResult<T>
    ensures { GetOutcome (made_read A.model T.made T.text A.reading) (λ x. A.model (T.parts x)) (R.state reader.old) (R.state reader.new) result }
{
    let parts = A::get(alloc, reader)?;
    T::from_parts(parts)
}

/// So, into the destination.
pub(crate) fn read_made<L: Lending, A: SchemaRead<L>, T: FromParts<L, A>, R: Reader<L>>(
    alloc: Global,
    reader: &mut R,
    dst: &mut Option<T>,
) -> ReadResult<()>
    ensures { ReadOutcome (made_read A.model T.made T.text A.reading) (λ x. A.model (T.parts x)) (R.state reader.old) (R.state reader.new) dst.old dst.new result }
{
    *dst = Some(get_made::<L, A, T, R>(alloc, reader)?);
    Ok(())
}

/// Puts what is made of the parts that all of the bytes are into the place, and answers whether it did.
#[inline(always)]
pub(crate) fn decode_made<L: Lending, A: SchemaRead<L>, T: FromParts<L, A>>(
    bytes: &[u8],
    place: &mut T,
) -> bool
    ensures { IsTrue result → (made_read A.model T.made T.text A.reading).reads bytes.now (A.model (T.parts place.new)) }
{
    let Some(parts) = decoded::<L, A>(bytes) else {
        return false;
    };
    match T::from_parts(parts) {
        Ok(made) => {
            *place = made;
            true
        }
        Err(_) => false,
    }
}

//! Schemas of tuples. A tuple is its members, one after another, with nothing between them.
//!
//! Where all members have one size, the tuple is read through one window of the sum, in bytes: fewer bytes are
//! `Io(ReadSizeLimit)` of the sum, and stay; where a member is refused, the bytes of the whole tuple are gone.
//! Other tuples go member by member, and a refusal leaves what is behind the members before it.
ghost use Rattle.std.specs.Prelude.{◌≡◌, ◌++◌, ℕ, List, IfSome};
ghost use Rattle.wincode_base.specs.InWindow.{windowed_read};
ghost use Rattle.wincode_base.specs.Outcomes.{ReadOutcome};
ghost use Rattle.wincode_base.specs.PairLaws.{pair_read_laws};
ghost use Rattle.wincode_base.specs.Pairs.{pair_read};

mod longer;
mod shorter;

use crate::schema::in_window::get_in_window;
use crate::schema::tuples::shorter::decode_2;
use crate::schema::{SchemaGet, SchemaRead};
use std::alloc::Global;
use wincode_base::error::ReadResult;
use wincode_base::meta::TypeMeta;
use wincode_base::parts::{Members2, Members4, Members7};
use wincode_base::sizes::pair_meta;
use wincode_io::{Lending, Reader};

/// What is made of its members, given as pairs in pairs.
trait FromPairs<P> {
    // The pairs.
    ghost pairs: { Self → P };

    /// The same members, without the pairs.
    fn from_pairs(from: P) -> Self
        ensures { pairs result ≡ from };
}

/// As `read_in_window`, for what is made of what `T` reads.
#[inline]
fn read_pairs<L: Lending, T: SchemaRead<L>, D: FromPairs<T::Dst> + Drop, R: Reader<L>>(
    alloc: Global,
    reader: &mut R,
    dst: &mut Option<D>,
) -> ReadResult<()>
    ensures { ReadOutcome (windowed_read T.reading) (λ d. T.model (D.pairs d)) (R.state reader.old) (R.state reader.new) dst.old dst.new result }
{
    *dst = Some(D::from_pairs(get_in_window::<L, T, R>(alloc, reader)?));
    Ok(())
}

/// Puts the value of a first member over that in the place; the bytes behind it. Or answers `None`, and any value may be
/// there.
#[inline(always)]
fn decode_first<'a, L: Lending, T: SchemaRead<L>>(
    bytes: &'a [u8],
    place: &mut T::Dst,
) -> Option<&'a [u8]>
    ensures { IfSome result (λ rest. (front : List ℕ) × T.reading.reads front (T.model place.new) × (bytes.now ≡ front ++ rest.now)) }
{
    match T::type_meta() {
        TypeMeta::Static { size, .. } if size <= bytes.len() => {
            let (front, back) = bytes.split_at(size);
            if T::decode(front, place) {
                Some(back)
            } else {
                None
            }
        }
        _ => None,
    }
}

/// As `read_pairs`, of three members and what stands behind them.
#[inline]
fn read_after_3<
    L: Lending,
    A: SchemaRead<L>,
    B: SchemaRead<L>,
    C: SchemaRead<L>,
    O: SchemaRead<L>,
    Made: FromPairs<(A::Dst, (B::Dst, (C::Dst, O::Dst)))> + Drop,
    R: Reader<L>,
>(alloc: Global, reader: &mut R, dst: &mut Option<Made>) -> ReadResult<()>
    ensures { ReadOutcome (windowed_read (pair_read A.reading (pair_read B.reading (pair_read C.reading O.reading))))
        (λ d. let p = Made.pairs d in (A.model p.0, (B.model p.1.0, (C.model p.1.1.0, O.model p.1.1.1))))
        (R.state reader.old) (R.state reader.new) dst.old dst.new result }
{
    read_pairs::<L, Members4<A, B, C, O>, Made, R>(alloc, reader, dst)
}

/// As `read_pairs`, of six members and what stands behind them.
#[inline]
fn read_after_6<
    L: Lending,
    A: SchemaRead<L>,
    B: SchemaRead<L>,
    C: SchemaRead<L>,
    D: SchemaRead<L>,
    E: SchemaRead<L>,
    F: SchemaRead<L>,
    O: SchemaRead<L>,
    Made: FromPairs<
        (
            A::Dst,
            (B::Dst, (C::Dst, (D::Dst, (E::Dst, (F::Dst, O::Dst))))),
        ),
    >
        + Drop,
    R: Reader<L>,
>(alloc: Global, reader: &mut R, dst: &mut Option<Made>) -> ReadResult<()>
    ensures { ReadOutcome (windowed_read (pair_read A.reading (pair_read B.reading (pair_read C.reading (pair_read D.reading (pair_read E.reading
        (pair_read F.reading O.reading)))))))
        (λ d. let p = Made.pairs d in (
          A.model p.0,
          (
            B.model p.1.0,
            (
              C.model p.1.1.0,
              (
                D.model p.1.1.1.0,
                (
                  E.model p.1.1.1.1.0,
                  (F.model p.1.1.1.1.1.0, O.model p.1.1.1.1.1.1),
                ),
              ),
            ),
          ),
        )) (R.state reader.old) (R.state reader.new) dst.old dst.new result }
{
    read_pairs::<L, Members7<A, B, C, D, E, F, O>, Made, R>(alloc, reader, dst)
}

impl<L: Lending, A: SchemaRead<L>, B: SchemaRead<L>> SchemaRead<L> for Members2<A, B> {
    type Dst = (A::Dst, B::Dst);

    ghost Value = { A.Value × B.Value };

    ghost model = { λ t. (A.model t.0, B.model t.1) };

    ghost is_valid = { λ v. A.is_valid v.0 × B.is_valid v.1 };

    ghost reading = { pair_read A.reading B.reading };

    fn type_meta() -> TypeMeta {
        pair_meta(A::type_meta(), B::type_meta())
    }

    fn prealloc_size() -> usize {
        A::prealloc_size().saturating_add(B::prealloc_size())
    }

    #[inline]
    fn read<R: Reader<L>>(
        alloc: Global,
        reader: &mut R,
        dst: &mut Option<(A::Dst, B::Dst)>,
    ) -> ReadResult<()> {
        let first = A::get(alloc, reader)?;
        let second = B::get(alloc, reader)?;
        *dst = Some((first, second));
        Ok(())
    }

    #[inline(always)]
    fn blank() -> Option<(A::Dst, B::Dst)> {
        let first = A::blank()?;
        let second = B::blank()?;
        Some((first, second))
    }

    #[inline(always)]
    fn decode(bytes: &[u8], place: &mut (A::Dst, B::Dst)) -> bool {
        decode_2::<L, A, B>(bytes, &mut place.0, &mut place.1)
    }

    #[inline(always)]
    fn read_at_once<R: Reader<L>>(
        alloc: Global,
        reader: &mut R,
        n: usize,
        into: &mut Vec<Self::Dst>,
    ) -> Option<ReadResult<()>> {
        let _ = (alloc, n);
        let _ = &*reader;
        let _ = &*into;
        None
    }

    ghost read_laws = { pair_read_laws A.read_laws B.read_laws };
}

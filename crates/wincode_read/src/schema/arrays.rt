//! Schemas of arrays. An array is its items, one after another, with no length before them.
//!
//! Where the items have one size, the array is read through one window of its size, in bytes: fewer bytes are
//! `Io(ReadSizeLimit)` of that size, and stay; where an item is refused, the bytes of the whole array are gone.
ghost use Rattle.std.specs.Prelude.{◌≡◌, List, map, MatchResult};
ghost use Rattle.wincode_base.specs.ArrayLaws.{array_read_laws};
ghost use Rattle.wincode_base.specs.Arrays.{IsArray, array_read};
ghost use Rattle.wincode_base.specs.InWindow.{windowed_read};
ghost use Rattle.wincode_base.specs.Outcomes.{Gives, SchemaReadRefused, ReadOutcome};
ghost use Rattle.wincode_base.specs.PairLaws.{windowed_read_laws};

use crate::schema::in_window::read_in_window;
use crate::schema::{SchemaGet, SchemaRead};
use std::alloc::Global;
use std::marker::PhantomData;
use wincode_base::error::{ReadError, ReadResult};
use wincode_base::meta::TypeMeta;
use wincode_base::parts::Items;
use wincode_base::sizes::times_meta;
use wincode_collect::{ItemSource, Sourced};
use wincode_io::{Lending, Reader};

/// The items that a schema reads, one after another.
#[derive(Drop)]
struct Reading<'r, L, T, R> {
    alloc: Global,
    reader: &'r mut R,
    of: PhantomData<(L, T)>,
}

impl<'r, L: Lending, T: SchemaRead<L>, R: Reader<L>> ItemSource<T::Dst, ReadError>
    for Reading<'r, L, T, R> {
    ghost gives = { λ s r t. (t.reader.ghost_name ≡ s.reader.ghost_name)
        × MatchResult r (λ v. Gives T.reading.reads (R.state s.reader.now) (R.state t.reader.now) (T.model v))
        (SchemaReadRefused T.reading (R.state s.reader.now) (R.state t.reader.now)) };

    fn next(&mut self) -> Result<T::Dst, ReadError> {
        T::get(self.alloc, self.reader)
    }
}

/// Reads N items, one after another, into the destination.
fn read_array<L: Lending, T: SchemaRead<L>, R: Reader<L>, const N: usize>(
    alloc: Global,
    reader: &mut R,
    dst: &mut Option<[T::Dst; N]>,
) -> ReadResult<()>
    ensures { ReadOutcome (array_read N T.reading) (λ xs. map T.model xs) (R.state reader.old) (R.state reader.new) dst.old dst.new result }
{
    let mut sourced = Sourced::new(Reading::<L, T, R> {
        alloc,
        reader,
        of: PhantomData,
    });
    let result = sourced.fill(dst);
    let Reading {
        alloc: _,
        reader,
        of: _,
    } = sourced.into_inner();
    // No effect at run time. The proof reads what `reader` holds from this use of it.
    let _ = &*reader;
    result
}

/// There is no value to begin with.
#[derive(Drop)]
struct NoBlank;

/// Values to begin with, one after another.
#[derive(Drop)]
struct Blanks<L, T> {
    of: PhantomData<(L, T)>,
}

impl<L: Lending, T: SchemaRead<L>> ItemSource<T::Dst, NoBlank> for Blanks<L, T> {
    ghost gives = { λ s r t. Unit {0} };

    #[inline(always)]
    fn next(&mut self) -> Result<T::Dst, NoBlank> {
        match T::blank() {
            Some(value) => Ok(value),
            None => Err(NoBlank),
        }
    }
}

impl<L: Lending, T: SchemaRead<L>, const N: usize> SchemaRead<L> for Items<T, N> {
    type Dst = [T::Dst; N];

    ghost Value = { List T.Value };

    ghost model = { λ xs. map T.model xs };

    ghost is_valid = { IsArray N T.is_valid };

    ghost reading = { array_read N T.reading };

    fn type_meta() -> TypeMeta {
        times_meta(N, T::type_meta())
    }

    fn prealloc_size() -> usize {
        N.saturating_mul(T::prealloc_size()).max(1)
    }

    fn read<R: Reader<L>>(
        alloc: Global,
        reader: &mut R,
        dst: &mut Option<[T::Dst; N]>,
    ) -> ReadResult<()> {
        read_array::<L, T, R, N>(alloc, reader, dst)
    }

    #[inline(always)]
    fn blank() -> Option<[T::Dst; N]> {
        let mut places = None;
        let mut blanks = Sourced::new(Blanks::<L, T> { of: PhantomData });
        let _ = blanks.fill(&mut places);
        places
    }

    #[inline(always)]
    fn decode(bytes: &[u8], place: &mut [T::Dst; N]) -> bool {
        T::take_over(bytes, place.as_mut_slice())
    }

    #[inline(always)]
    fn read_at_once<R: Reader<L>>(
        alloc: Global,
        reader: &mut R,
        n: usize,
        into: &mut Vec<Self::Dst>,
    ) -> Option<ReadResult<()>> {
        let _ = (alloc, n);
        let _ = &*reader;
        let _ = &*into;
        None
    }

    ghost read_laws = { array_read_laws N T.is_valid T.reading T.read_laws };
}

impl<L: Lending, T: SchemaRead<L>, const N: usize> SchemaRead<L> for [T; N] {
    type Dst = [T::Dst; N];

    ghost Value = { List T.Value };

    ghost model = { λ xs. map T.model xs };

    ghost is_valid = { IsArray N T.is_valid };

    ghost reading = { windowed_read ⟦<Items<T, N> as SchemaRead<L>>⟧.reading };

    fn type_meta() -> TypeMeta {
        <Items<T, N> as SchemaRead<L>>::type_meta()
    }

    fn prealloc_size() -> usize {
        <Items<T, N> as SchemaRead<L>>::prealloc_size()
    }

    fn read<R: Reader<L>>(
        alloc: Global,
        reader: &mut R,
        dst: &mut Option<[T::Dst; N]>,
    ) -> ReadResult<()> {
        read_in_window::<L, Items<T, N>, R>(alloc, reader, dst)
    }

    fn read_at_once<R: Reader<L>>(
        alloc: Global,
        reader: &mut R,
        n: usize,
        into: &mut Vec<[T::Dst; N]>,
    ) -> Option<ReadResult<()>> {
        let _ = (alloc, n);
        let _ = &*reader;
        let _ = &*into;
        None
    }

    #[inline(always)]
    fn blank() -> Option<[T::Dst; N]> {
        <Items<T, N> as SchemaRead<L>>::blank()
    }

    #[inline(always)]
    fn decode(bytes: &[u8], place: &mut [T::Dst; N]) -> bool {
        <Items<T, N> as SchemaRead<L>>::decode(bytes, place)
    }

    ghost read_laws = { windowed_read_laws (array_read_laws N T.is_valid T.reading T.read_laws) };
}

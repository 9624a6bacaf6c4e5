//! Types of a user's own that are written and read as another, a tuple say, without a grammar or a law of
//! their own.
ghost use Rattle.std.specs.Prelude.{◌≡◌, ◌≤◌, length, take, IfSome, IfOk, IfErr};
ghost use Rattle.wincode_base.specs.Outcomes.{IsSized, IsEncoded, SizeRefused, WriteOutcome};
ghost use Rattle.wincode_base.specs.PairLaws.{write_laws_by, reads_back_by};

use crate::io::{Lending, Reader, Writer};
use crate::markers::{OneText, SchemaReadOwned};
use crate::schema::{RoundTrip, SchemaGet, SchemaRead, SchemaWrite};
use std::alloc::Global;
use std::marker::PhantomData;
use wincode_base::error::{ReadResult, WriteResult};
use wincode_base::meta::TypeMeta;

/// What is written and read as its parts, by the schema `As` of these. A struct says what its parts are, in
/// order, how it is made of them, and sizes and writes them by `size_of_members_N` and `write_members_N`.
pub trait Shape: Drop {
    type Parts: Drop;

    type As: SchemaWrite<Src = Self::Parts>;

    // Its parts.
    ghost parts: { Self → Self.Parts };

    // They are all that there is of it: values with the same parts are the same.
    ghost parts_tell: { (x y : Self) → parts x ≡ parts y → x ≡ y };

    /// The value that these are the parts of.
    fn make(made_of: Self::Parts) -> Self
        ensures { parts result ≡ made_of };

    /// The size of its parts, as `As` has it.
    fn parts_size(&self) -> WriteResult<usize>
        ensures ok { IfOk result (IsSized Self.As.SchemaWrite.writing (Self.As.SchemaWrite.model (parts self.now))) }
        ensures err { IfErr result (SizeRefused Self.As.SchemaWrite.writing (Self.As.SchemaWrite.model (parts self.now))) };

    /// Writes its parts, as `As` does.
    fn write_parts<W: Writer>(&self, writer: &mut W) -> WriteResult<()>
        ensures { WriteOutcome Self.As.SchemaWrite.writing (W.state writer.old) (W.state writer.new) (Self.As.SchemaWrite.model (parts self.now))
            (Self.As.SchemaWrite.is_valid (parts self.now)) result };

    /// Puts an encoding of its parts over the front of the bytes, as `As` does, and gives how many it has; or
    /// answers `None`, as where there are fewer, and may have put any bytes there.
    #[inline(always)]
    fn encode_parts(&self, dst: &mut [u8]) -> Option<usize>
        ensures { IfSome result (λ n. (n ≤ length dst.new) × IsEncoded Self.As.SchemaWrite.writing (Self.As.SchemaWrite.model (parts self.now)) (take n dst.new)
            × Self.As.SchemaWrite.is_valid (parts self.now)) }
    {
        let _ = &*self;
        let _len = dst.len();
        None
    }
}

/// The schema of a type that has a shape: that of its parts.
pub struct By<T>(PhantomData<T>);

impl<T: Shape> SchemaWrite for By<T> {
    type Src = T;

    ghost Value = { T.As.SchemaWrite.Value };

    ghost model = { λ x. T.As.SchemaWrite.model (T.parts x) };

    ghost is_valid = { λ x. T.As.SchemaWrite.is_valid (T.parts x) };

    ghost writing = { T.As.SchemaWrite.writing };

    fn type_meta() -> TypeMeta {
        <T::As as SchemaWrite>::type_meta()
    }

    fn size_of(src: &T) -> WriteResult<usize> {
        src.parts_size()
    }

    fn write<W: Writer>(writer: &mut W, src: &T) -> WriteResult<()> {
        src.write_parts::<W>(writer)
    }

    #[inline(always)]
    fn encode_front(src: &T, dst: &mut [u8]) -> Option<usize> {
        src.encode_parts(dst)
    }

    #[inline(always)]
    fn write_at_once<W: Writer>(writer: &mut W, items: &[Self::Src]) -> Option<WriteResult<()>> {
        let _ = &*writer;
        let _items = items.len();
        None
    }

    #[inline(always)]
    fn known_size() -> Option<usize> {
        None
    }

    ghost write_laws = { write_laws_by T.parts T.As.SchemaWrite.write_laws };
}

impl<L: Lending, T: Shape> SchemaRead<L> for By<T>
where
    T::As: SchemaRead<L, Dst = T::Parts>,
{
    type Dst = T;

    ghost Value = { T.As.SchemaRead.Value };

    ghost model = { λ x. T.As.SchemaRead.model (T.parts x) };

    ghost is_valid = { T.As.SchemaRead.is_valid };

    ghost reading = { T.As.SchemaRead.reading };

    fn type_meta() -> TypeMeta {
        <T::As as SchemaRead<L>>::type_meta()
    }

    fn prealloc_size() -> usize {
        <T::As as SchemaRead<L>>::prealloc_size()
    }

    fn read<R: Reader<L>>(alloc: Global, reader: &mut R, dst: &mut Option<T>) -> ReadResult<()> {
        let parts = <T::As as SchemaGet<L>>::get(alloc, reader)?;
        *dst = Some(T::make(parts));
        Ok(())
    }

    #[inline(always)]
    fn blank() -> Option<T> {
        let parts = <T::As as SchemaRead<L>>::blank()?;
        Some(T::make(parts))
    }

    #[inline(always)]
    fn decode(bytes: &[u8], place: &mut T) -> bool {
        let Some(mut parts) = <T::As as SchemaRead<L>>::blank() else {
            return false;
        };
        if !<T::As as SchemaRead<L>>::decode(bytes, &mut parts) {
            return false;
        }
        *place = T::make(parts);
        true
    }

    #[inline(always)]
    fn read_at_once<R: Reader<L>>(
        alloc: Global,
        reader: &mut R,
        n: usize,
        into: &mut Vec<Self::Dst>,
    ) -> Option<ReadResult<()>> {
        let _ = (alloc, n);
        let _ = &*reader;
        let _ = &*into;
        None
    }

    ghost read_laws = { T.As.SchemaRead.read_laws };
}

impl<L: Lending, T: Shape> RoundTrip<L> for By<T>
where
    T::As: RoundTrip<L>,
{
    ghost reads_back = { reads_back_by T.parts T.As.reads_back };
}

impl<L: Lending, T: Shape> OneText<L> for By<T>
where
    T::As: SchemaRead<L, Dst = T::Parts> + OneText<L>,
{
    ghost one_text = { T.As.one_text };
}

impl<L: Lending, T: Shape> SchemaReadOwned<L> for By<T>
where
    T::As: SchemaRead<L, Dst = T::Parts> + SchemaReadOwned<L>,
{
    ghost owned = { T.As.owned };
}

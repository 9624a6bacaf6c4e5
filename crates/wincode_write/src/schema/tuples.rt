//! Schemas of tuples. A tuple is its members, one after another, with nothing between them.
//!
//! Where all members have one size, the tuple is written through one window of the sum, in bytes: less room is
//! `Io(WriteSizeLimit)` of the sum, and nothing is written. Other tuples go member by member, and a refusal
//! leaves what the members before it wrote.
ghost use Rattle.std.specs.Prelude.{◌≡◌};
ghost use Rattle.wincode_base.specs.PairLaws.{pair_write_laws, write_laws_by};
ghost use Rattle.wincode_base.specs.Pairs.{pair_write};

mod fronts;
mod longer;
mod shorter;

use crate::schema::SchemaWrite;
pub use crate::schema::tuples::fronts::{
    encode_front_members_2, encode_front_members_3, encode_front_members_4, encode_front_members_5,
    encode_front_members_6, encode_front_members_7, encode_front_members_8, encode_front_members_9,
    encode_front_members_10, encode_front_members_11, encode_front_members_12,
};
pub use crate::schema::tuples::longer::{
    size_of_members_9, size_of_members_10, size_of_members_11, size_of_members_12, write_members_9,
    write_members_10, write_members_11, write_members_12,
};
pub use crate::schema::tuples::shorter::{
    size_of_members_2, size_of_members_3, size_of_members_4, size_of_members_5, size_of_members_6,
    size_of_members_7, size_of_members_8, write_members_2, write_members_3, write_members_4,
    write_members_5, write_members_6, write_members_7, write_members_8,
};
use wincode_base::error::WriteResult;
use wincode_base::meta::TypeMeta;
use wincode_base::parts::{Member, Members2};
use wincode_base::sizes::{joined_size, pair_meta};
use wincode_io::Writer;

impl<A: SchemaWrite, B: SchemaWrite> SchemaWrite for Members2<A, B> {
    type Src = (A::Src, B::Src);

    ghost Value = { A.Value × B.Value };

    ghost model = { λ t. (A.model t.0, B.model t.1) };

    ghost is_valid = { λ t. A.is_valid t.0 × B.is_valid t.1 };

    ghost writing = { pair_write A.writing B.writing };

    fn type_meta() -> TypeMeta {
        pair_meta(A::type_meta(), B::type_meta())
    }

    fn size_of(src: &(A::Src, B::Src)) -> WriteResult<usize> {
        joined_size(A::size_of(&src.0), B::size_of(&src.1))
    }

    fn write<W: Writer>(writer: &mut W, src: &(A::Src, B::Src)) -> WriteResult<()> {
        A::write(writer, &src.0)?;
        B::write(writer, &src.1)
    }

    #[inline(always)]
    fn known_size() -> Option<usize> {
        match (A::known_size(), B::known_size()) {
            (Some(a), Some(b)) => a.checked_add(b),
            _ => None,
        }
    }

    #[inline(always)]
    fn encode_front(src: &(A::Src, B::Src), dst: &mut [u8]) -> Option<usize> {
        let first = A::encode_front(&src.0, dst)?;
        let second = B::encode_front(&src.1, &mut dst[first..])?;
        Some(first + second)
    }

    #[inline(always)]
    fn write_at_once<W: Writer>(writer: &mut W, items: &[Self::Src]) -> Option<WriteResult<()>> {
        let _ = &*writer;
        let _items = items.len();
        None
    }

    ghost write_laws = { pair_write_laws A.write_laws B.write_laws };
}

impl<'a, U: 'a, T: SchemaWrite<Src = U>> SchemaWrite for &'a Member<T> {
    type Src = &'a U;

    ghost Value = { T.Value };

    ghost model = { λ r. T.model r.now };

    ghost is_valid = { λ r. T.is_valid r.now };

    ghost writing = { T.writing };

    fn type_meta() -> TypeMeta
        ensures { result ≡ T.writing.meta }
    {
        T::type_meta()
    }

    fn size_of(src: &&'a U) -> WriteResult<usize> {
        T::size_of(*src)
    }

    fn write<W: Writer>(writer: &mut W, src: &&'a U) -> WriteResult<()> {
        T::write::<W>(writer, *src)
    }

    fn write_at_once<W: Writer>(writer: &mut W, items: &[&'a U]) -> Option<WriteResult<()>> {
        let _ = &*writer;
        let _items = items.len();
        None
    }

    #[inline(always)]
    fn encode_front(src: &&'a U, dst: &mut [u8]) -> Option<usize> {
        T::encode_front(*src, dst)
    }

    #[inline(always)]
    fn known_size() -> Option<usize> {
        None
    }

    ghost write_laws = { write_laws_by (λ r. r.now) T.write_laws };
}

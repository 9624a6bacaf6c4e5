//! Schemas of arrays. An array is its items, one after another, with no length before them.
//!
//! Where the items have one size, the array is written through one window of its size, in bytes: less room is
//! `Io(WriteSizeLimit)` of that size, and nothing is written.
ghost use Rattle.std.specs.Prelude.{List, map};
ghost use Rattle.wincode_base.specs.ArrayLaws.{array_write_laws};
ghost use Rattle.wincode_base.specs.Arrays.{IsArray, array_write};
ghost use Rattle.wincode_base.specs.InWindow.{windowed_write};
ghost use Rattle.wincode_base.specs.PairLaws.{windowed_write_laws};

use crate::schema::SchemaWrite;
use crate::schema::in_window::write_in_window;
use crate::schema::runs::encode_each;
use crate::schema::to_items::{ToItems, write_apart};
use wincode_base::error::WriteResult;
use wincode_base::meta::TypeMeta;
use wincode_base::parts::Items;
use wincode_base::sizes::times_meta;
use wincode_io::Writer;

impl<T: SchemaWrite, const N: usize> SchemaWrite for Items<T, N> {
    type Src = [T::Src; N];

    ghost Value = { List T.Value };

    ghost model = { λ xs. map T.model xs };

    ghost is_valid = { λ xs. IsArray N T.is_valid xs };

    ghost writing = { array_write N T.writing };

    fn type_meta() -> TypeMeta {
        times_meta(N, T::type_meta())
    }

    fn size_of(src: &[T::Src; N]) -> WriteResult<usize> {
        ToItems::<T>::add_sizes(&src.as_slice(), 0)
    }

    fn write<W: Writer>(writer: &mut W, src: &[T::Src; N]) -> WriteResult<()> {
        match times_meta(N, T::type_meta()) {
            TypeMeta::Static { .. } => T::write_items::<W>(writer, src.as_slice()),
            TypeMeta::Dynamic => write_apart::<T, W>(writer, src.as_slice()),
        }
    }

    fn known_size() -> Option<usize> {
        None
    }

    #[inline(always)]
    fn encode_front(src: &[T::Src; N], dst: &mut [u8]) -> Option<usize> {
        encode_each::<T>(src.as_slice(), dst)
    }

    #[inline(always)]
    fn write_at_once<W: Writer>(writer: &mut W, items: &[Self::Src]) -> Option<WriteResult<()>> {
        let _ = &*writer;
        let _items = items.len();
        None
    }

    ghost write_laws = { array_write_laws N T.is_valid T.model T.writing T.write_laws };
}

impl<T: SchemaWrite, const N: usize> SchemaWrite for [T; N] {
    type Src = [T::Src; N];

    ghost Value = { List T.Value };

    ghost model = { λ xs. map T.model xs };

    ghost is_valid = { λ xs. IsArray N T.is_valid xs };

    ghost writing = { windowed_write ⟦<Items<T, N> as SchemaWrite>⟧.writing };

    fn type_meta() -> TypeMeta {
        <Items<T, N> as SchemaWrite>::type_meta()
    }

    fn size_of(src: &[T::Src; N]) -> WriteResult<usize> {
        <Items<T, N> as SchemaWrite>::size_of(src)
    }

    fn write<W: Writer>(writer: &mut W, src: &[T::Src; N]) -> WriteResult<()> {
        write_in_window::<Items<T, N>, W>(writer, src)
    }

    fn write_at_once<W: Writer>(writer: &mut W, items: &[[T::Src; N]]) -> Option<WriteResult<()>> {
        let _ = &*writer;
        let _items = items.len();
        None
    }

    fn known_size() -> Option<usize> {
        None
    }

    #[inline(always)]
    fn encode_front(src: &[T::Src; N], dst: &mut [u8]) -> Option<usize> {
        <Items<T, N> as SchemaWrite>::encode_front(src, dst)
    }

    ghost write_laws = { windowed_write_laws ⟦<Items<T, N> as SchemaWrite>⟧.write_laws };
}

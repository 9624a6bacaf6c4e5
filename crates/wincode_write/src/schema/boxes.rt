//! What is held in memory of its own: the encoding of what is held.
ghost use Rattle.wincode_base.specs.Boxed.{boxed_write};
ghost use Rattle.wincode_base.specs.BoxedLaws.{boxed_write_laws};

use crate::schema::SchemaWrite;
use std::rc::Rc;
use std::sync::Arc;
use wincode_base::error::WriteResult;
use wincode_base::meta::TypeMeta;
use wincode_base::sizes::reference_meta;
use wincode_io::Writer;

/// A `Box` is written and read as what it holds.
impl<T: SchemaWrite> SchemaWrite for Box<T> {
    type Src = Box<T::Src>;

    ghost Value = { T.Value };

    ghost model = { λ held. T.model held.value };

    ghost is_valid = { λ held. T.is_valid held.value };

    ghost writing = { boxed_write T.writing };

    fn type_meta() -> TypeMeta {
        reference_meta(T::type_meta())
    }

    fn size_of(src: &Box<T::Src>) -> WriteResult<usize> {
        T::size_of(src.as_ref())
    }

    fn write<W: Writer>(writer: &mut W, src: &Box<T::Src>) -> WriteResult<()> {
        T::write::<W>(writer, src.as_ref())
    }

    #[inline(always)]
    fn encode_front(src: &Box<T::Src>, dst: &mut [u8]) -> Option<usize> {
        T::encode_front(src.as_ref(), dst)
    }

    #[inline(always)]
    fn write_at_once<W: Writer>(writer: &mut W, items: &[Self::Src]) -> Option<WriteResult<()>> {
        let _ = &*writer;
        let _items = items.len();
        None
    }

    #[inline(always)]
    fn known_size() -> Option<usize> {
        None
    }

    ghost write_laws = { boxed_write_laws T.is_valid T.model (λ held. held.value) T.writing T.write_laws };
}

/// An `Rc` is written and read as what it holds.
impl<T: SchemaWrite> SchemaWrite for Rc<T> {
    type Src = Rc<T::Src>;

    ghost Value = { T.Value };

    ghost model = { λ held. T.model held.value };

    ghost is_valid = { λ held. T.is_valid held.value };

    ghost writing = { boxed_write T.writing };

    fn type_meta() -> TypeMeta {
        reference_meta(T::type_meta())
    }

    fn size_of(src: &Rc<T::Src>) -> WriteResult<usize> {
        T::size_of(src.as_ref())
    }

    fn write<W: Writer>(writer: &mut W, src: &Rc<T::Src>) -> WriteResult<()> {
        T::write::<W>(writer, src.as_ref())
    }

    #[inline(always)]
    fn encode_front(src: &Rc<T::Src>, dst: &mut [u8]) -> Option<usize> {
        T::encode_front(src.as_ref(), dst)
    }

    #[inline(always)]
    fn write_at_once<W: Writer>(writer: &mut W, items: &[Self::Src]) -> Option<WriteResult<()>> {
        let _ = &*writer;
        let _items = items.len();
        None
    }

    #[inline(always)]
    fn known_size() -> Option<usize> {
        None
    }

    ghost write_laws = { boxed_write_laws T.is_valid T.model (λ held. held.value) T.writing T.write_laws };
}

/// An `Arc` is written and read as what it holds.
impl<T: SchemaWrite> SchemaWrite for Arc<T> {
    type Src = Arc<T::Src>;

    ghost Value = { T.Value };

    ghost model = { λ held. T.model held.value };

    ghost is_valid = { λ held. T.is_valid held.value };

    ghost writing = { boxed_write T.writing };

    fn type_meta() -> TypeMeta {
        reference_meta(T::type_meta())
    }

    fn size_of(src: &Arc<T::Src>) -> WriteResult<usize> {
        T::size_of(src.as_ref())
    }

    fn write<W: Writer>(writer: &mut W, src: &Arc<T::Src>) -> WriteResult<()> {
        T::write::<W>(writer, src.as_ref())
    }

    #[inline(always)]
    fn encode_front(src: &Arc<T::Src>, dst: &mut [u8]) -> Option<usize> {
        T::encode_front(src.as_ref(), dst)
    }

    #[inline(always)]
    fn write_at_once<W: Writer>(writer: &mut W, items: &[Self::Src]) -> Option<WriteResult<()>> {
        let _ = &*writer;
        let _items = items.len();
        None
    }

    #[inline(always)]
    fn known_size() -> Option<usize> {
        None
    }

    ghost write_laws = { boxed_write_laws T.is_valid T.model (λ held. held.value) T.writing T.write_laws };
}

//! What is held in memory of its own, which is asked for once its value is read.
ghost use Rattle.wincode_base.specs.Boxed.{boxed_read};
ghost use Rattle.wincode_base.specs.BoxedLaws.{boxed_read_laws};

use crate::schema::{SchemaGet, SchemaRead};
use std::alloc::Global;
use std::rc::Rc;
use std::sync::Arc;
use wincode_base::error::{ReadError, ReadResult};
use wincode_base::meta::TypeMeta;
use wincode_base::sizes::reference_meta;
use wincode_io::{Lending, Reader};

impl<L: Lending, T: SchemaRead<L>> SchemaRead<L> for Box<T> {
    type Dst = Box<T::Dst>;

    ghost Value = { T.Value };

    ghost model = { λ held. T.model held.value };

    ghost is_valid = { T.is_valid };

    ghost reading = { boxed_read T.reading };

    fn type_meta() -> TypeMeta {
        reference_meta(T::type_meta())
    }

    fn prealloc_size() -> usize {
        8
    }

    /// Memory is asked for once the value was read. Where there is none, it is `OutOfMemory`, and the
    /// value's bytes are gone.
    fn read<R: Reader<L>>(
        alloc: Global,
        reader: &mut R,
        dst: &mut Option<Box<T::Dst>>,
    ) -> ReadResult<()> {
        let content = T::get(alloc, reader)?;
        match Box::new(alloc, content) {
            Ok(held) => {
                *dst = Some(held);
                Ok(())
            }
            Err(_) => Err(ReadError::OutOfMemory),
        }
    }

    #[inline(always)]
    fn read_at_once<R: Reader<L>>(
        alloc: Global,
        reader: &mut R,
        n: usize,
        into: &mut Vec<Self::Dst>,
    ) -> Option<ReadResult<()>> {
        let _ = (alloc, n);
        let _ = &*reader;
        let _ = &*into;
        None
    }

    #[inline(always)]
    fn blank() -> Option<Self::Dst> {
        None
    }

    #[inline(always)]
    fn decode(bytes: &[u8], place: &mut Self::Dst) -> bool {
        let _ = bytes.len();
        let _ = &*place;
        false
    }

    ghost read_laws = { boxed_read_laws T.is_valid T.reading T.read_laws };
}

impl<L: Lending, T: SchemaRead<L>> SchemaRead<L> for Rc<T> {
    type Dst = Rc<T::Dst>;

    ghost Value = { T.Value };

    ghost model = { λ held. T.model held.value };

    ghost is_valid = { T.is_valid };

    ghost reading = { boxed_read T.reading };

    fn type_meta() -> TypeMeta {
        reference_meta(T::type_meta())
    }

    fn prealloc_size() -> usize {
        8
    }

    /// Memory is asked for once the value was read. Where there is none, it is `OutOfMemory`, and the
    /// value's bytes are gone.
    fn read<R: Reader<L>>(
        alloc: Global,
        reader: &mut R,
        dst: &mut Option<Rc<T::Dst>>,
    ) -> ReadResult<()> {
        let shared = T::get(alloc, reader)?;
        match Rc::new(alloc, shared) {
            Ok(held) => {
                *dst = Some(held);
                Ok(())
            }
            Err(_) => Err(ReadError::OutOfMemory),
        }
    }

    #[inline(always)]
    fn read_at_once<R: Reader<L>>(
        alloc: Global,
        reader: &mut R,
        n: usize,
        into: &mut Vec<Self::Dst>,
    ) -> Option<ReadResult<()>> {
        let _ = (alloc, n);
        let _ = &*reader;
        let _ = &*into;
        None
    }

    #[inline(always)]
    fn blank() -> Option<Self::Dst> {
        None
    }

    #[inline(always)]
    fn decode(bytes: &[u8], place: &mut Self::Dst) -> bool {
        let _ = bytes.len();
        let _ = &*place;
        false
    }

    ghost read_laws = { boxed_read_laws T.is_valid T.reading T.read_laws };
}

impl<L: Lending, T: SchemaRead<L>> SchemaRead<L> for Arc<T> {
    type Dst = Arc<T::Dst>;

    ghost Value = { T.Value };

    ghost model = { λ held. T.model held.value };

    ghost is_valid = { T.is_valid };

    ghost reading = { boxed_read T.reading };

    fn type_meta() -> TypeMeta {
        reference_meta(T::type_meta())
    }

    fn prealloc_size() -> usize {
        8
    }

    /// Memory is asked for once the value was read. Where there is none, it is `OutOfMemory`, and the
    /// value's bytes are gone.
    fn read<R: Reader<L>>(
        alloc: Global,
        reader: &mut R,
        dst: &mut Option<Arc<T::Dst>>,
    ) -> ReadResult<()> {
        let shared = T::get(alloc, reader)?;
        match Arc::new(alloc, shared) {
            Ok(held) => {
                *dst = Some(held);
                Ok(())
            }
            Err(_) => Err(ReadError::OutOfMemory),
        }
    }

    #[inline(always)]
    fn read_at_once<R: Reader<L>>(
        alloc: Global,
        reader: &mut R,
        n: usize,
        into: &mut Vec<Self::Dst>,
    ) -> Option<ReadResult<()>> {
        let _ = (alloc, n);
        let _ = &*reader;
        let _ = &*into;
        None
    }

    #[inline(always)]
    fn blank() -> Option<Self::Dst> {
        None
    }

    #[inline(always)]
    fn decode(bytes: &[u8], place: &mut Self::Dst) -> bool {
        let _ = bytes.len();
        let _ = &*place;
        false
    }

    ghost read_laws = { boxed_read_laws T.is_valid T.reading T.read_laws };
}

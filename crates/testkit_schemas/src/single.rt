//! A schema that reads and writes as another does, many items one by one.
use std::alloc::Global;
use std::marker::PhantomData;
use wincode::io::{Lending, Reader, Writer};
use wincode::{ReadResult, RoundTrip, SchemaRead, SchemaWrite, TypeMeta, WriteResult};

/// As `T`. It inherits `read_items` and `write_items`, which go item by item.
pub struct Single<T>(PhantomData<T>);

impl<T: SchemaWrite> SchemaWrite for Single<T> {
    type Src = T::Src;

    ghost Value = { T.Value };

    ghost model = { T.model };

    ghost is_valid = { T.is_valid };

    ghost writing = { T.writing };

    fn type_meta() -> TypeMeta {
        T::type_meta()
    }

    fn size_of(src: &T::Src) -> WriteResult<usize> {
        T::size_of(src)
    }

    fn write<W: Writer>(writer: &mut W, src: &T::Src) -> WriteResult<()> {
        T::write::<W>(writer, src)
    }

    ghost write_laws = { T.write_laws };
}

impl<L: Lending, T: SchemaRead<L>> SchemaRead<L> for Single<T> {
    type Dst = T::Dst;

    ghost Value = { T.Value };

    ghost model = { T.model };

    ghost is_valid = { T.is_valid };

    ghost reading = { T.reading };

    fn type_meta() -> TypeMeta {
        T::type_meta()
    }

    fn prealloc_size() -> usize {
        T::prealloc_size()
    }

    fn read<R: Reader<L>>(
        alloc: Global,
        reader: &mut R,
        dst: &mut Option<T::Dst>,
    ) -> ReadResult<()> {
        T::read::<R>(alloc, reader, dst)
    }

    ghost read_laws = { T.read_laws };
}

impl<L: Lending, T: RoundTrip<L>> RoundTrip<L> for Single<T>
where
    T::Src: Drop,
{
    ghost reads_back = { T.reads_back };
}

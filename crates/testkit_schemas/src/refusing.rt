//! A schema that refuses every input and its one value, as a member of others.
ghost use Rattle.testkit_schemas.specs.Refusing.{nothing_read, nothing_read_laws, nothing_write, nothing_write_laws};

use std::alloc::Global;
use wincode::io::{Lending, Reader, Writer};
use wincode::{ReadError, ReadResult, SchemaRead, SchemaWrite, TypeMeta, WriteError, WriteResult};

/// What can't be read and can't be written.
pub struct Refusing;

impl SchemaWrite for Refusing {
    type Src = Refusing;

    ghost Value = { Unit };

    ghost model = { λ _. tt };

    ghost is_valid = { λ _. Unit {0} };

    ghost writing = { nothing_write };

    fn type_meta() -> TypeMeta {
        TypeMeta::Dynamic
    }

    /// It is `Custom`.
    fn size_of(_src: &Refusing) -> WriteResult<usize> {
        Err(WriteError::Custom("refusing"))
    }

    /// It is `Custom`, and nothing is written.
    fn write<W: Writer>(writer: &mut W, _src: &Refusing) -> WriteResult<()> {
        let _ = &*writer;
        Err(WriteError::Custom("refusing"))
    }

    ghost write_laws = { nothing_write_laws };
}

impl<L: Lending> SchemaRead<L> for Refusing {
    type Dst = ();

    ghost Value = { Unit };

    ghost model = { λ _. tt };

    ghost is_valid = { λ _. Unit {0} };

    ghost reading = { nothing_read };

    fn type_meta() -> TypeMeta {
        TypeMeta::Dynamic
    }

    fn prealloc_size() -> usize {
        1
    }

    /// It is `Custom`, and the reader stays.
    fn read<R: Reader<L>>(_alloc: Global, reader: &mut R, _dst: &mut Option<()>) -> ReadResult<()> {
        let _ = &*reader;
        Err(ReadError::Custom("refusing"))
    }

    ghost read_laws = { nothing_read_laws };
}

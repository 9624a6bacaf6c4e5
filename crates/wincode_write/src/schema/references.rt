//! The schema of references.
ghost use Rattle.wincode_base.specs.Strings.{reference_write};
ghost use Rattle.wincode_base.specs.StringLaws.{reference_write_laws};

use crate::schema::SchemaWrite;
use wincode_base::error::WriteResult;
use wincode_base::meta::TypeMeta;
use wincode_io::Writer;

/// A reference is written as its value. It is no list of bytes, whatever its value is.
impl<'a, U: 'a, T: SchemaWrite<Src = U>> SchemaWrite for &'a T {
    type Src = &'a U;

    ghost Value = { T.Value };

    ghost model = { λ r. T.model r.now };

    ghost is_valid = { λ r. T.is_valid r.now };

    ghost writing = { reference_write T.writing };

    fn type_meta() -> TypeMeta {
        match T::type_meta() {
            TypeMeta::Static { size, .. } => TypeMeta::Static {
                size,
                zero_copy: false,
            },
            TypeMeta::Dynamic => TypeMeta::Dynamic,
        }
    }

    fn size_of(src: &&'a U) -> WriteResult<usize> {
        T::size_of(*src)
    }

    fn write<W: Writer>(writer: &mut W, src: &&'a U) -> WriteResult<()> {
        T::write::<W>(writer, *src)
    }

    fn write_at_once<W: Writer>(writer: &mut W, items: &[&'a U]) -> Option<WriteResult<()>> {
        let _ = &*writer;
        let _items = items.len();
        None
    }

    #[inline(always)]
    fn encode_front(src: &&'a U, dst: &mut [u8]) -> Option<usize> {
        T::encode_front(*src, dst)
    }

    #[inline(always)]
    fn known_size() -> Option<usize> {
        None
    }

    ghost write_laws = { reference_write_laws T.is_valid T.model (λ r. r.now) T.writing T.write_laws };
}

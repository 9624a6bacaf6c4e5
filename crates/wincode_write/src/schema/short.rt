//! Numbers below 2 to the 16 in one to three bytes, as values.
ghost use Rattle.std.specs.Prelude.{ℕ, ◌<◌, ◌^◌};
ghost use Rattle.wincode_base.specs.Short.{short_write};
ghost use Rattle.wincode_base.specs.ShortLaws.{short_write_laws};

use crate::schema::SchemaWrite;
use wincode_base::error::WriteResult;
use wincode_base::len::short_vec::{short_size, write_short};
use wincode_base::len::{SeqLen, ShortU16};
use wincode_base::meta::TypeMeta;
use wincode_io::Writer;

impl SchemaWrite for ShortU16 {
    type Src = ShortU16;

    ghost Value = { ℕ };

    ghost model = { λ v. v.0 };

    ghost is_valid = { λ v. v.0 < 2 ^ 16 };

    ghost writing = { short_write };

    fn type_meta() -> TypeMeta {
        TypeMeta::Dynamic
    }

    fn size_of(src: &ShortU16) -> WriteResult<usize> {
        Ok(short_size(src.0))
    }

    fn write<W: Writer>(writer: &mut W, src: &ShortU16) -> WriteResult<()> {
        write_short::<W>(writer, src.0)?;
        Ok(())
    }

    #[inline(always)]
    fn write_at_once<W: Writer>(writer: &mut W, items: &[Self::Src]) -> Option<WriteResult<()>> {
        let _ = &*writer;
        let _items = items.len();
        None
    }

    #[inline(always)]
    fn known_size() -> Option<usize> {
        None
    }

    #[inline(always)]
    fn encode_front(src: &Self::Src, dst: &mut [u8]) -> Option<usize> {
        let _ = src;
        let _len = dst.len();
        None
    }

    ghost write_laws = { short_write_laws (λ v. v.0 < 2 ^ 16) (λ v. v.0) };
}

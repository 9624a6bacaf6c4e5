//! A text that is lent or owned is written as a `String`.
ghost use Rattle.std.specs.Cow.{cow_str_bytes};
ghost use Rattle.std.specs.Prelude.{◌≡◌, List, ℕ, IsUtf8};
ghost use Rattle.wincode_base.specs.Strings.{str_write};
ghost use Rattle.wincode_base.specs.StringLaws.{str_write_laws};

use crate::schema::SchemaWrite;
use crate::schema::strings::{encode_text, write_text};
use std::borrow::CowStr;
use wincode_base::error::WriteResult;
use wincode_base::meta::TypeMeta;
use wincode_base::sizes::checked_sum;
use wincode_io::Writer;

impl<'s> SchemaWrite for CowStr<'s> {
    type Src = CowStr<'s>;

    ghost Value = { List ℕ };

    ghost model = { λ t. cow_str_bytes t };

    ghost is_valid = { λ t. IsUtf8 (cow_str_bytes t) };

    ghost writing = { str_write 24 };

    fn type_meta() -> TypeMeta
        ensures { result ≡ (str_write 24).meta }
    {
        TypeMeta::Dynamic
    }

    fn size_of(src: &CowStr<'s>) -> WriteResult<usize> {
        checked_sum(8, src.as_str().len())
    }

    fn write<W: Writer>(writer: &mut W, src: &CowStr<'s>) -> WriteResult<()> {
        write_text::<W>(writer, src.as_str())
    }

    #[inline(always)]
    fn encode_front(src: &CowStr<'s>, dst: &mut [u8]) -> Option<usize> {
        encode_text(src.as_str(), dst)
    }

    ghost write_laws = { str_write_laws 24 (λ t. IsUtf8 (cow_str_bytes t)) (λ t. cow_str_bytes t) };
}

//! Written by `tools/templates`: texts, which are written as a `String`.
ghost use Rattle.std.specs.Arc.{arc_str_bytes};
ghost use Rattle.std.specs.Box.{boxed_str_bytes};
ghost use Rattle.std.specs.Path.{path_buf_bytes};
ghost use Rattle.std.specs.Prelude.{List, ℕ, IsUtf8};
ghost use Rattle.std.specs.Rc.{rc_str_bytes};
ghost use Rattle.wincode_base.specs.Boxed.{boxed_write};
ghost use Rattle.wincode_base.specs.BoxedLaws.{boxed_write_laws};
ghost use Rattle.wincode_base.specs.Strings.{str_write};
ghost use Rattle.wincode_base.specs.StringLaws.{str_write_laws};

use crate::schema::SchemaWrite;
use crate::schema::strings::{encode_text, write_text};
use std::boxed::BoxedStr;
use std::path::PathBuf;
use std::rc::RcStr;
use std::sync::ArcStr;
use wincode_base::error::WriteResult;
use wincode_base::meta::TypeMeta;
use wincode_base::sizes::checked_sum;
use wincode_io::Writer;

impl SchemaWrite for BoxedStr {
    type Src = BoxedStr;

    ghost Value = { List ℕ };

    ghost model = { λ t. boxed_str_bytes t };

    ghost is_valid = { λ t. IsUtf8 (boxed_str_bytes t) };

    ghost writing = { str_write 24 };

    fn type_meta() -> TypeMeta {
        TypeMeta::Dynamic
    }

    fn size_of(src: &Self::Src) -> WriteResult<usize> {
        checked_sum(8, src.as_str().len())
    }

    fn write<W: Writer>(writer: &mut W, src: &Self::Src) -> WriteResult<()> {
        write_text::<W>(writer, src.as_str())
    }

    #[inline(always)]
    fn encode_front(src: &Self::Src, dst: &mut [u8]) -> Option<usize> {
        encode_text(src.as_str(), dst)
    }

    #[inline(always)]
    fn write_at_once<W: Writer>(writer: &mut W, items: &[Self::Src]) -> Option<WriteResult<()>> {
        let _ = &*writer;
        let _items = items.len();
        None
    }

    #[inline(always)]
    fn known_size() -> Option<usize> {
        None
    }

    ghost write_laws = { str_write_laws 24 (λ t. IsUtf8 (boxed_str_bytes t)) (λ t. boxed_str_bytes t) };
}

impl SchemaWrite for PathBuf {
    type Src = PathBuf;

    ghost Value = { List ℕ };

    ghost model = { λ t. path_buf_bytes t };

    ghost is_valid = { λ t. IsUtf8 (path_buf_bytes t) };

    ghost writing = { str_write 24 };

    fn type_meta() -> TypeMeta {
        TypeMeta::Dynamic
    }

    fn size_of(src: &Self::Src) -> WriteResult<usize> {
        checked_sum(8, src.to_string_lossy().len())
    }

    fn write<W: Writer>(writer: &mut W, src: &Self::Src) -> WriteResult<()> {
        write_text::<W>(writer, src.to_string_lossy())
    }

    #[inline(always)]
    fn encode_front(src: &Self::Src, dst: &mut [u8]) -> Option<usize> {
        encode_text(src.to_string_lossy(), dst)
    }

    #[inline(always)]
    fn write_at_once<W: Writer>(writer: &mut W, items: &[Self::Src]) -> Option<WriteResult<()>> {
        let _ = &*writer;
        let _items = items.len();
        None
    }

    #[inline(always)]
    fn known_size() -> Option<usize> {
        None
    }

    ghost write_laws = { str_write_laws 24 (λ t. IsUtf8 (path_buf_bytes t)) (λ t. path_buf_bytes t) };
}

impl SchemaWrite for RcStr {
    type Src = RcStr;

    ghost Value = { List ℕ };

    ghost model = { λ t. rc_str_bytes t };

    ghost is_valid = { λ t. IsUtf8 (rc_str_bytes t) };

    ghost writing = { boxed_write (str_write 24) };

    fn type_meta() -> TypeMeta {
        TypeMeta::Dynamic
    }

    fn size_of(src: &Self::Src) -> WriteResult<usize> {
        checked_sum(8, src.as_str().len())
    }

    fn write<W: Writer>(writer: &mut W, src: &Self::Src) -> WriteResult<()> {
        write_text::<W>(writer, src.as_str())
    }

    #[inline(always)]
    fn encode_front(src: &Self::Src, dst: &mut [u8]) -> Option<usize> {
        encode_text(src.as_str(), dst)
    }

    #[inline(always)]
    fn write_at_once<W: Writer>(writer: &mut W, items: &[Self::Src]) -> Option<WriteResult<()>> {
        let _ = &*writer;
        let _items = items.len();
        None
    }

    #[inline(always)]
    fn known_size() -> Option<usize> {
        None
    }

    ghost write_laws = { boxed_write_laws (λ b. IsUtf8 b) (λ b. b) (λ t. rc_str_bytes t) (str_write 24) (str_write_laws 24 (λ b. IsUtf8 b) (λ b. b)) };
}

impl SchemaWrite for ArcStr {
    type Src = ArcStr;

    ghost Value = { List ℕ };

    ghost model = { λ t. arc_str_bytes t };

    ghost is_valid = { λ t. IsUtf8 (arc_str_bytes t) };

    ghost writing = { boxed_write (str_write 24) };

    fn type_meta() -> TypeMeta {
        TypeMeta::Dynamic
    }

    fn size_of(src: &Self::Src) -> WriteResult<usize> {
        checked_sum(8, src.as_str().len())
    }

    fn write<W: Writer>(writer: &mut W, src: &Self::Src) -> WriteResult<()> {
        write_text::<W>(writer, src.as_str())
    }

    #[inline(always)]
    fn encode_front(src: &Self::Src, dst: &mut [u8]) -> Option<usize> {
        encode_text(src.as_str(), dst)
    }

    #[inline(always)]
    fn write_at_once<W: Writer>(writer: &mut W, items: &[Self::Src]) -> Option<WriteResult<()>> {
        let _ = &*writer;
        let _items = items.len();
        None
    }

    #[inline(always)]
    fn known_size() -> Option<usize> {
        None
    }

    ghost write_laws = { boxed_write_laws (λ b. IsUtf8 b) (λ b. b) (λ t. arc_str_bytes t) (str_write 24) (str_write_laws 24 (λ b. IsUtf8 b) (λ b. b)) };
}

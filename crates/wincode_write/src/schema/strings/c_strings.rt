//! C strings, which are written as the list of their bytes, without the 0 behind them.
ghost use Rattle.std.specs.CStr.{c_string_bytes};
ghost use Rattle.std.specs.Prelude.{List, ℕ};
ghost use Rattle.wincode_base.specs.CStrings.{AreBytes, IsText, bytes_seen, c_string_write, c_string_write_laws};

use crate::schema::SchemaWrite;
use crate::schema::runs::encode_list;
use crate::schema::to_items::{size_of_list, write_list};
use std::ffi::CString;
use wincode_base::error::WriteResult;
use wincode_base::len::{BincodeLen, PREALLOCATION_LIMIT};
use wincode_base::meta::TypeMeta;
use wincode_base::sizes::ItemSize;
use wincode_io::Writer;

impl SchemaWrite for CString {
    type Src = CString;

    ghost Value = { List ℕ };

    ghost model = { λ c. bytes_seen (c_string_bytes c) };

    ghost is_valid = { λ c. IsText (c_string_bytes c) (c_string_bytes c) × AreBytes (c_string_bytes c) };

    ghost writing = { c_string_write };

    fn type_meta() -> TypeMeta {
        TypeMeta::Dynamic
    }

    fn size_of(src: &CString) -> WriteResult<usize> {
        size_of_list::<BincodeLen<PREALLOCATION_LIMIT>, u8, &[u8], 24>(&src.as_bytes())
    }

    fn write<W: Writer>(writer: &mut W, src: &CString) -> WriteResult<()> {
        let bytes = src.as_bytes();
        let size = ItemSize::of(<u8 as SchemaWrite>::type_meta());
        write_list::<BincodeLen<PREALLOCATION_LIMIT>, u8, &[u8], W, 24>(writer, &bytes, size)
    }

    #[inline]
    fn encode_front(src: &CString, dst: &mut [u8]) -> Option<usize> {
        encode_list::<BincodeLen<PREALLOCATION_LIMIT>, u8, 24>(src.as_bytes(), dst)
    }

    #[inline(always)]
    fn write_at_once<W: Writer>(writer: &mut W, items: &[Self::Src]) -> Option<WriteResult<()>> {
        let _ = &*writer;
        let _items = items.len();
        None
    }

    #[inline(always)]
    fn known_size() -> Option<usize> {
        None
    }

    ghost write_laws = { c_string_write_laws c_string_bytes };
}

//! C strings, which are read as the list of their bytes.
ghost use Rattle.std.specs.CStr.{c_string_bytes};
ghost use Rattle.std.specs.Prelude.{List, ℕ};
ghost use Rattle.wincode_base.specs.CStrings.{AreBytes, IsText, bytes_seen, c_string_read, c_string_read_laws};
ghost use Rattle.wincode_base.specs.Made.{IsMadeOf};
ghost use Rattle.wincode_base.specs.Outcomes.{GetOutcome};

use crate::schema::{SchemaGet, SchemaRead};
use std::alloc::{AllocError, Global};
use std::ffi::{CString, NulError};
use wincode_base::error::{ReadError, ReadResult};
use wincode_base::meta::TypeMeta;
use wincode_io::{Lending, Reader};

/// The bytes, and a 0 behind them.
fn get_c_string<L: Lending, R: Reader<L>>(alloc: Global, reader: &mut R) -> ReadResult<CString>
    ensures { GetOutcome c_string_read (λ c. bytes_seen (c_string_bytes c)) (R.state reader.old) (R.state reader.new) result }
{
    let bytes = <Vec<u8> as SchemaGet<L>>::get(alloc, reader)?;
    let made: Result<Result<CString, NulError>, AllocError> = CString::new(alloc, bytes);
    match made {
        Ok(Ok(text)) => Ok(text),
        Ok(Err(_)) => Err(ReadError::Custom("nul")),
        Err(_) => Err(ReadError::OutOfMemory),
    }
}

impl<L: Lending> SchemaRead<L> for CString {
    type Dst = CString;

    ghost Value = { List ℕ };

    ghost model = { λ c. bytes_seen (c_string_bytes c) };

    ghost is_valid = { IsMadeOf bytes_seen IsText AreBytes };

    ghost reading = { c_string_read };

    fn type_meta() -> TypeMeta {
        TypeMeta::Dynamic
    }

    fn prealloc_size() -> usize {
        24
    }

    /// A 0 among the bytes, which are gone, is `Custom("nul")`. Memory is asked for once more when they are all there.
    fn read<R: Reader<L>>(
        alloc: Global,
        reader: &mut R,
        dst: &mut Option<CString>,
    ) -> ReadResult<()> {
        *dst = Some(get_c_string::<L, R>(alloc, reader)?);
        Ok(())
    }

    #[inline(always)]
    fn read_at_once<R: Reader<L>>(
        alloc: Global,
        reader: &mut R,
        n: usize,
        into: &mut Vec<Self::Dst>,
    ) -> Option<ReadResult<()>> {
        let _ = (alloc, n);
        let _ = &*reader;
        let _ = &*into;
        None
    }

    #[inline(always)]
    fn blank() -> Option<Self::Dst> {
        None
    }

    #[inline(always)]
    fn decode(bytes: &[u8], place: &mut Self::Dst) -> bool {
        let _ = bytes.len();
        let _ = &*place;
        false
    }

    ghost read_laws = { c_string_read_laws };
}

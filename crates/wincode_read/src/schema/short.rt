//! Numbers below 2 to the 16 in one to three bytes, as values.
ghost use Rattle.std.specs.Prelude.{ℕ, ◌<◌, ◌^◌};
ghost use Rattle.wincode_base.specs.Short.{short_read};
ghost use Rattle.wincode_base.specs.ShortLaws.{short_read_laws};

use crate::schema::SchemaRead;
use std::alloc::Global;
use wincode_base::error::ReadResult;
use wincode_base::len::short_vec::take_short;
use wincode_base::len::{SeqLen, ShortU16};
use wincode_base::meta::TypeMeta;
use wincode_io::{Lending, Reader};

impl<L: Lending> SchemaRead<L> for ShortU16 {
    type Dst = ShortU16;

    ghost Value = { ℕ };

    ghost model = { λ v. v.0 };

    ghost is_valid = { λ n. n < 2 ^ 16 };

    ghost reading = { short_read };

    fn type_meta() -> TypeMeta {
        TypeMeta::Dynamic
    }

    fn prealloc_size() -> usize {
        2
    }

    /// Where no short number stands in front, it is `LengthEncodingOverflow`, and all bytes stay.
    fn read<R: Reader<L>>(
        _alloc: Global,
        reader: &mut R,
        dst: &mut Option<ShortU16>,
    ) -> ReadResult<()> {
        *dst = Some(ShortU16(take_short::<L, R>(reader)?));
        Ok(())
    }

    #[inline(always)]
    fn read_at_once<R: Reader<L>>(
        alloc: Global,
        reader: &mut R,
        n: usize,
        into: &mut Vec<Self::Dst>,
    ) -> Option<ReadResult<()>> {
        let _ = (alloc, n);
        let _ = &*reader;
        let _ = &*into;
        None
    }

    #[inline(always)]
    fn blank() -> Option<Self::Dst> {
        None
    }

    #[inline(always)]
    fn decode(bytes: &[u8], place: &mut Self::Dst) -> bool {
        let _ = bytes.len();
        let _ = &*place;
        false
    }

    ghost read_laws = { short_read_laws };
}

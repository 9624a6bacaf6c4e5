//! Written by `tools/templates`: texts, which are read as a `String`.
ghost use Rattle.std.proofs.Common.{lit≤};
ghost use Rattle.std.specs.Arc.{arc_str_bytes};
ghost use Rattle.std.specs.Box.{boxed_str_bytes};
ghost use Rattle.std.specs.Path.{path_buf_bytes};
ghost use Rattle.std.specs.Prelude.{List, ℕ, IsUtf8, false};
ghost use Rattle.std.specs.Rc.{rc_str_bytes};
ghost use Rattle.wincode_base.specs.Boxed.{boxed_read};
ghost use Rattle.wincode_base.specs.BoxedLaws.{boxed_read_laws};
ghost use Rattle.wincode_base.specs.Strings.{str_read};
ghost use Rattle.wincode_base.specs.StringLaws.{str_read_laws};

use crate::schema::{SchemaGet, SchemaRead};
use std::alloc::Global;
use std::boxed::BoxedStr;
use std::path::PathBuf;
use std::rc::RcStr;
use std::sync::ArcStr;
use wincode_base::error::{ReadError, ReadResult};
use wincode_base::meta::TypeMeta;
use wincode_io::{Lending, Reader};

impl<L: Lending> SchemaRead<L> for BoxedStr {
    type Dst = BoxedStr;

    ghost Value = { List ℕ };

    ghost model = { λ t. boxed_str_bytes t };

    ghost is_valid = { IsUtf8 };

    ghost reading = { str_read 24 0 false };

    fn type_meta() -> TypeMeta {
        TypeMeta::Dynamic
    }

    fn prealloc_size() -> usize {
        24
    }

    fn read<R: Reader<L>>(
        alloc: Global,
        reader: &mut R,
        dst: &mut Option<BoxedStr>,
    ) -> ReadResult<()> {
        let text = <String as SchemaGet<L>>::get(alloc, reader)?;
        *dst = Some(text.into_boxed_str());
        Ok(())
    }

    #[inline(always)]
    fn read_at_once<R: Reader<L>>(
        alloc: Global,
        reader: &mut R,
        n: usize,
        into: &mut Vec<Self::Dst>,
    ) -> Option<ReadResult<()>> {
        let _ = (alloc, n);
        let _ = &*reader;
        let _ = &*into;
        None
    }

    #[inline(always)]
    fn blank() -> Option<Self::Dst> {
        None
    }

    #[inline(always)]
    fn decode(bytes: &[u8], place: &mut Self::Dst) -> bool {
        let _ = bytes.len();
        let _ = &*place;
        false
    }

    ghost read_laws = { str_read_laws 24 0 false (lit≤ tt) };
}

impl<L: Lending> SchemaRead<L> for PathBuf {
    type Dst = PathBuf;

    ghost Value = { List ℕ };

    ghost model = { λ t. path_buf_bytes t };

    ghost is_valid = { IsUtf8 };

    ghost reading = { str_read 24 0 false };

    fn type_meta() -> TypeMeta {
        TypeMeta::Dynamic
    }

    fn prealloc_size() -> usize {
        24
    }

    fn read<R: Reader<L>>(
        alloc: Global,
        reader: &mut R,
        dst: &mut Option<PathBuf>,
    ) -> ReadResult<()> {
        let text = <String as SchemaGet<L>>::get(alloc, reader)?;
        *dst = Some(PathBuf::from(text));
        Ok(())
    }

    #[inline(always)]
    fn read_at_once<R: Reader<L>>(
        alloc: Global,
        reader: &mut R,
        n: usize,
        into: &mut Vec<Self::Dst>,
    ) -> Option<ReadResult<()>> {
        let _ = (alloc, n);
        let _ = &*reader;
        let _ = &*into;
        None
    }

    #[inline(always)]
    fn blank() -> Option<Self::Dst> {
        None
    }

    #[inline(always)]
    fn decode(bytes: &[u8], place: &mut Self::Dst) -> bool {
        let _ = bytes.len();
        let _ = &*place;
        false
    }

    ghost read_laws = { str_read_laws 24 0 false (lit≤ tt) };
}

impl<L: Lending> SchemaRead<L> for RcStr {
    type Dst = RcStr;

    ghost Value = { List ℕ };

    ghost model = { λ t. rc_str_bytes t };

    ghost is_valid = { IsUtf8 };

    ghost reading = { boxed_read (str_read 24 0 false) };

    fn type_meta() -> TypeMeta {
        TypeMeta::Dynamic
    }

    fn prealloc_size() -> usize {
        8
    }

    /// Memory is asked for once the text was read. Where there is none, it is `OutOfMemory`, and the text's bytes are
    /// gone.
    fn read<R: Reader<L>>(
        alloc: Global,
        reader: &mut R,
        dst: &mut Option<RcStr>,
    ) -> ReadResult<()> {
        let text = <String as SchemaGet<L>>::get(alloc, reader)?;
        match RcStr::from_string(text) {
            Ok(shared) => {
                *dst = Some(shared);
                Ok(())
            }
            Err(_) => Err(ReadError::OutOfMemory),
        }
    }

    #[inline(always)]
    fn read_at_once<R: Reader<L>>(
        alloc: Global,
        reader: &mut R,
        n: usize,
        into: &mut Vec<Self::Dst>,
    ) -> Option<ReadResult<()>> {
        let _ = (alloc, n);
        let _ = &*reader;
        let _ = &*into;
        None
    }

    #[inline(always)]
    fn blank() -> Option<Self::Dst> {
        None
    }

    #[inline(always)]
    fn decode(bytes: &[u8], place: &mut Self::Dst) -> bool {
        let _ = bytes.len();
        let _ = &*place;
        false
    }

    ghost read_laws = { boxed_read_laws IsUtf8 (str_read 24 0 false) (str_read_laws 24 0 false (lit≤ tt)) };
}

impl<L: Lending> SchemaRead<L> for ArcStr {
    type Dst = ArcStr;

    ghost Value = { List ℕ };

    ghost model = { λ t. arc_str_bytes t };

    ghost is_valid = { IsUtf8 };

    ghost reading = { boxed_read (str_read 24 0 false) };

    fn type_meta() -> TypeMeta {
        TypeMeta::Dynamic
    }

    fn prealloc_size() -> usize {
        8
    }

    /// Memory is asked for once the text was read. Where there is none, it is `OutOfMemory`, and the text's bytes are
    /// gone.
    fn read<R: Reader<L>>(
        alloc: Global,
        reader: &mut R,
        dst: &mut Option<ArcStr>,
    ) -> ReadResult<()> {
        let text = <String as SchemaGet<L>>::get(alloc, reader)?;
        match ArcStr::from_string(text) {
            Ok(shared) => {
                *dst = Some(shared);
                Ok(())
            }
            Err(_) => Err(ReadError::OutOfMemory),
        }
    }

    #[inline(always)]
    fn read_at_once<R: Reader<L>>(
        alloc: Global,
        reader: &mut R,
        n: usize,
        into: &mut Vec<Self::Dst>,
    ) -> Option<ReadResult<()>> {
        let _ = (alloc, n);
        let _ = &*reader;
        let _ = &*into;
        None
    }

    #[inline(always)]
    fn blank() -> Option<Self::Dst> {
        None
    }

    #[inline(always)]
    fn decode(bytes: &[u8], place: &mut Self::Dst) -> bool {
        let _ = bytes.len();
        let _ = &*place;
        false
    }

    ghost read_laws = { boxed_read_laws IsUtf8 (str_read 24 0 false) (str_read_laws 24 0 false (lit≤ tt)) };
}

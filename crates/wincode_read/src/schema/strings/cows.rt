//! A text that is lent or owned is read owned.
ghost use Rattle.std.proofs.Common.{lit≤};
ghost use Rattle.std.specs.Cow.{cow_str_bytes};
ghost use Rattle.std.specs.Prelude.{◌≡◌, List, ℕ, IsUtf8, false};
ghost use Rattle.wincode_base.specs.Outcomes.{ReadOutcome};
ghost use Rattle.wincode_base.specs.Strings.{str_read};
ghost use Rattle.wincode_base.specs.StringLaws.{str_read_laws};

use crate::schema::{SchemaGet, SchemaRead};
use std::alloc::Global;
use std::borrow::CowStr;
use wincode_base::error::ReadResult;
use wincode_base::meta::TypeMeta;
use wincode_io::{Lending, Reader};

impl<'s, L: Lending> SchemaRead<L> for CowStr<'s> {
    type Dst = CowStr<'s>;

    ghost Value = { List ℕ };

    ghost model = { λ t. cow_str_bytes t };

    ghost is_valid = { IsUtf8 };

    ghost reading = { str_read 24 0 false };

    fn type_meta() -> TypeMeta
        ensures { result ≡ (str_read 24 0 false).meta }
    {
        TypeMeta::Dynamic
    }

    fn prealloc_size() -> usize
        ensures { result ≡ 24 }
    {
        24
    }

    fn read<R: Reader<L>>(
        alloc: Global,
        reader: &mut R,
        dst: &mut Option<CowStr<'s>>,
    ) -> ReadResult<()>
        ensures { ReadOutcome (str_read 24 0 false) (λ t. cow_str_bytes t) (R.state reader.old) (R.state reader.new) dst.old dst.new result }
    {
        let text = <String as SchemaGet<L>>::get(alloc, reader)?;
        *dst = Some(CowStr::Owned(text));
        Ok(())
    }

    ghost read_laws = { str_read_laws 24 0 false (lit≤ tt) };
}

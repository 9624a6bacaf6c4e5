//! Written by `tools/templates`: what texts keep beyond reading and writing.
ghost use Rattle.std.specs.Arc.{arc_str_bytes};
ghost use Rattle.std.specs.Box.{boxed_str_bytes};
ghost use Rattle.std.specs.Path.{path_buf_bytes};
ghost use Rattle.std.specs.Prelude.{IsUtf8, false, refl};
ghost use Rattle.std.specs.Rc.{rc_str_bytes};
ghost use Rattle.wincode_base.specs.BoxedLaws.{boxed_reads_back};
ghost use Rattle.wincode_base.specs.Strings.{str_read, str_write};
ghost use Rattle.wincode_base.specs.StringLaws.{str_reads_back};
ghost use Rattle.wincode.specs.OneTextLaws.{boxed_one_text, str_one_text};

use crate::io::Lending;
use crate::markers::{OneText, RoundTrip, SchemaReadOwned};
use std::boxed::BoxedStr;
use std::path::PathBuf;
use std::rc::RcStr;
use std::sync::ArcStr;

impl<L: Lending> OneText<L> for BoxedStr {
    ghost one_text = { str_one_text 24 0 false };
}

impl<L: Lending> SchemaReadOwned<L> for BoxedStr {
    ghost owned = { refl };
}

impl<L: Lending> RoundTrip<L> for BoxedStr {
    ghost reads_back = { str_reads_back 24 0 false (λ t. boxed_str_bytes t) };
}

impl<L: Lending> OneText<L> for PathBuf {
    ghost one_text = { str_one_text 24 0 false };
}

impl<L: Lending> SchemaReadOwned<L> for PathBuf {
    ghost owned = { refl };
}

impl<L: Lending> RoundTrip<L> for PathBuf {
    ghost reads_back = { str_reads_back 24 0 false (λ t. path_buf_bytes t) };
}

impl<L: Lending> OneText<L> for RcStr {
    ghost one_text = { boxed_one_text (str_one_text 24 0 false) };
}

impl<L: Lending> SchemaReadOwned<L> for RcStr {
    ghost owned = { refl };
}

impl<L: Lending> RoundTrip<L> for RcStr {
    ghost reads_back = { boxed_reads_back (λ t. rc_str_bytes t) (λ b. IsUtf8 b) (λ b. b) (str_write 24) (λ b. b) (str_read 24 0 false) (str_reads_back 24 0 false (λ b. b)) };
}

impl<L: Lending> OneText<L> for ArcStr {
    ghost one_text = { boxed_one_text (str_one_text 24 0 false) };
}

impl<L: Lending> SchemaReadOwned<L> for ArcStr {
    ghost owned = { refl };
}

impl<L: Lending> RoundTrip<L> for ArcStr {
    ghost reads_back = { boxed_reads_back (λ t. arc_str_bytes t) (λ b. IsUtf8 b) (λ b. b) (str_write 24) (λ b. b) (str_read 24 0 false) (str_reads_back 24 0 false (λ b. b)) };
}

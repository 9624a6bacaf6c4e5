//! Written by `tools/templates`: what integers keep beyond reading and writing.
ghost use Rattle.std.specs.Int.{w8, w16, w32, w64, w128};
ghost use Rattle.std.specs.Prelude.{false, refl, true};
ghost use Rattle.wincode_base.specs.LeafLaws.{number_reads_back, signed_reads_back};
ghost use Rattle.wincode.specs.OneTextLaws.{number_one_text, signed_one_text};

use crate::io::Lending;
use crate::markers::{OneText, RoundTrip, SchemaReadOwned};

impl<L: Lending> OneText<L> for u8 {
    ghost one_text = { number_one_text 1 true };
}

impl<L: Lending> SchemaReadOwned<L> for u8 {
    ghost owned = { refl };
}

impl<L: Lending> RoundTrip<L> for u8 {
    ghost reads_back = { number_reads_back 1 true };
}

impl<L: Lending> OneText<L> for u16 {
    ghost one_text = { number_one_text 2 true };
}

impl<L: Lending> SchemaReadOwned<L> for u16 {
    ghost owned = { refl };
}

impl<L: Lending> RoundTrip<L> for u16 {
    ghost reads_back = { number_reads_back 2 true };
}

impl<L: Lending> OneText<L> for u32 {
    ghost one_text = { number_one_text 4 true };
}

impl<L: Lending> SchemaReadOwned<L> for u32 {
    ghost owned = { refl };
}

impl<L: Lending> RoundTrip<L> for u32 {
    ghost reads_back = { number_reads_back 4 true };
}

impl<L: Lending> OneText<L> for u64 {
    ghost one_text = { number_one_text 8 true };
}

impl<L: Lending> SchemaReadOwned<L> for u64 {
    ghost owned = { refl };
}

impl<L: Lending> RoundTrip<L> for u64 {
    ghost reads_back = { number_reads_back 8 true };
}

impl<L: Lending> OneText<L> for u128 {
    ghost one_text = { number_one_text 16 true };
}

impl<L: Lending> SchemaReadOwned<L> for u128 {
    ghost owned = { refl };
}

impl<L: Lending> RoundTrip<L> for u128 {
    ghost reads_back = { number_reads_back 16 true };
}

impl<L: Lending> OneText<L> for usize {
    ghost one_text = { number_one_text 8 false };
}

impl<L: Lending> SchemaReadOwned<L> for usize {
    ghost owned = { refl };
}

impl<L: Lending> RoundTrip<L> for usize {
    ghost reads_back = { number_reads_back 8 false };
}

impl<L: Lending> OneText<L> for i8 {
    ghost one_text = { signed_one_text w8 true };
}

impl<L: Lending> SchemaReadOwned<L> for i8 {
    ghost owned = { refl };
}

impl<L: Lending> RoundTrip<L> for i8 {
    ghost reads_back = { signed_reads_back w8 true };
}

impl<L: Lending> OneText<L> for i16 {
    ghost one_text = { signed_one_text w16 true };
}

impl<L: Lending> SchemaReadOwned<L> for i16 {
    ghost owned = { refl };
}

impl<L: Lending> RoundTrip<L> for i16 {
    ghost reads_back = { signed_reads_back w16 true };
}

impl<L: Lending> OneText<L> for i32 {
    ghost one_text = { signed_one_text w32 true };
}

impl<L: Lending> SchemaReadOwned<L> for i32 {
    ghost owned = { refl };
}

impl<L: Lending> RoundTrip<L> for i32 {
    ghost reads_back = { signed_reads_back w32 true };
}

impl<L: Lending> OneText<L> for i64 {
    ghost one_text = { signed_one_text w64 true };
}

impl<L: Lending> SchemaReadOwned<L> for i64 {
    ghost owned = { refl };
}

impl<L: Lending> RoundTrip<L> for i64 {
    ghost reads_back = { signed_reads_back w64 true };
}

impl<L: Lending> OneText<L> for i128 {
    ghost one_text = { signed_one_text w128 true };
}

impl<L: Lending> SchemaReadOwned<L> for i128 {
    ghost owned = { refl };
}

impl<L: Lending> RoundTrip<L> for i128 {
    ghost reads_back = { signed_reads_back w128 true };
}

impl<L: Lending> OneText<L> for isize {
    ghost one_text = { signed_one_text w64 false };
}

impl<L: Lending> SchemaReadOwned<L> for isize {
    ghost owned = { refl };
}

impl<L: Lending> RoundTrip<L> for isize {
    ghost reads_back = { signed_reads_back w64 false };
}

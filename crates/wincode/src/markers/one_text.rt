//! One encoding for each value: every schema but those of maps, sets and heaps, which take their items in any order.
ghost use Rattle.std.specs.Prelude.{true, false, max};
ghost use Rattle.wincode_io.specs.Readers.{shared, for_writing};
ghost use Rattle.wincode_base.specs.Lengths.{bincode, preallocation_limit};
ghost use Rattle.wincode_base.specs.Views.{form_prealloc, ViewReadRefused, PodReadRefused};
ghost use Rattle.wincode.specs.OneTextLaws.{number_one_text, bool_one_text, unit_one_text, char_one_text, str_one_text, short_one_text};
ghost use Rattle.wincode.specs.OneTextLaws.{windowed_one_text, array_one_text, list_one_text, option_one_text, result_one_text};
ghost use Rattle.wincode.specs.OneTextLaws.{bound_one_text, boxed_one_text, c_string_one_text, form_one_text, lent_one_text};

use crate::containers::{self, Pod};
use crate::io::{Borrowed, Lending, SliceView, View, ZeroCopy};
use crate::len::{SeqLen, ShortU16};
use crate::markers::OneText;
use crate::tag::TagCode;
use std::borrow::{CowSlice, CowStr};
use std::collections::{LinkedList, VecDeque};
use std::ffi::CString;
use std::marker::PhantomData;
use std::ops::Bound;
use std::rc::Rc;
use std::sync::Arc;

impl<L: Lending> OneText<L> for bool {
    ghost one_text = { bool_one_text };
}

impl<L: Lending> OneText<L> for char {
    ghost one_text = { char_one_text };
}

impl<L: Lending> OneText<L> for () {
    ghost one_text = { unit_one_text };
}

impl<L: Lending, T> OneText<L> for PhantomData<T> {
    ghost one_text = { unit_one_text };
}

impl<L: Lending> OneText<L> for String {
    ghost one_text = { str_one_text 24 0 false };
}

impl<'s, L: Lending> OneText<L> for &'s str {
    ghost one_text = { str_one_text 16 1 true };
}

impl<'s, L: Lending> OneText<L> for CowStr<'s> {
    ghost one_text = { str_one_text 24 0 false };
}

impl<L: Lending> OneText<L> for CString {
    ghost one_text = { c_string_one_text };
}

impl<'s, L: Lending, T: OneText<L>> OneText<L> for CowSlice<'s, T>
where
    T: 's,
    T::Dst: 's,
{
    ghost one_text = { list_one_text (bincode preallocation_limit) 24 T.one_text };
}

impl<L: Lending, T: OneText<L>> OneText<L> for Bound<T> {
    ghost one_text = { bound_one_text T.one_text };
}

impl<L: Lending> OneText<L> for ShortU16 {
    ghost one_text = { short_one_text };
}

impl<L: Lending, T: OneText<L>> OneText<L> for Option<T> {
    ghost one_text = { option_one_text 1 T.one_text };
}

impl<L: Lending, T: OneText<L>, E: OneText<L>> OneText<L> for Result<T, E> {
    ghost one_text = { result_one_text 4 T.one_text E.one_text };
}

impl<L: Lending, T: OneText<L>, Tag: TagCode> OneText<L> for containers::Option<T, Tag> {
    ghost one_text = { option_one_text Tag.size T.one_text };
}

impl<L: Lending, T: OneText<L>, E: OneText<L>, Tag: TagCode> OneText<L>
    for containers::Result<T, E, Tag> {
    ghost one_text = { result_one_text Tag.size T.one_text E.one_text };
}

impl<L: Lending, T: OneText<L>> OneText<L> for Box<T> {
    ghost one_text = { boxed_one_text T.one_text };
}

impl<L: Lending, T: OneText<L>> OneText<L> for Rc<T> {
    ghost one_text = { boxed_one_text T.one_text };
}

impl<L: Lending, T: OneText<L>> OneText<L> for Arc<T> {
    ghost one_text = { boxed_one_text T.one_text };
}

impl<L: Lending, T: OneText<L>> OneText<L> for Vec<T> {
    ghost one_text = { list_one_text (bincode preallocation_limit) 24 T.one_text };
}

impl<L: Lending, T: OneText<L>> OneText<L> for VecDeque<T> {
    ghost one_text = { list_one_text (bincode preallocation_limit) 24 T.one_text };
}

impl<L: Lending, T: OneText<L>> OneText<L> for LinkedList<T> {
    ghost one_text = { list_one_text (bincode preallocation_limit) 24 T.one_text };
}

impl<L: Lending, T: OneText<L>, Len: SeqLen> OneText<L> for containers::Vec<T, Len> {
    ghost one_text = { list_one_text Len.scheme 24 T.one_text };
}

impl<L: Lending, T: OneText<L>, Len: SeqLen> OneText<L> for containers::VecDeque<T, Len> {
    ghost one_text = { list_one_text Len.scheme 24 T.one_text };
}

impl<L: Lending, T: OneText<L>, Len: SeqLen> OneText<L> for containers::BoxedSlice<T, Len> {
    ghost one_text = { list_one_text Len.scheme 16 T.one_text };
}

impl<L: Lending, T: OneText<L>, Len: SeqLen> OneText<L> for containers::RcSlice<T, Len> {
    ghost one_text = { list_one_text Len.scheme 16 T.one_text };
}

impl<L: Lending, T: OneText<L>, Len: SeqLen> OneText<L> for containers::ArcSlice<T, Len> {
    ghost one_text = { list_one_text Len.scheme 16 T.one_text };
}

impl<L: Lending, T: OneText<L>> OneText<L> for containers::Elem<T> {
    ghost one_text = { T.one_text };
}

impl<L: Lending, T: OneText<L>, const N: usize> OneText<L> for [T; N] {
    ghost one_text = { windowed_one_text (array_one_text N T.one_text) };
}

impl<L: Lending, T: ZeroCopy> OneText<L> for Pod<T> {
    ghost one_text = { form_one_text T.is_valid T.size T.form true (form_prealloc T.size) 0 (PodReadRefused T.size) };
}

impl<L: Lending, B: Borrowed<L>, T: ZeroCopy> OneText<L> for View<B, T> {
    ghost one_text = { form_one_text T.is_valid T.size T.form false 8 B.borrow (ViewReadRefused B.borrow T.size) };
}

impl<L: Lending, B: Borrowed<L>, T: ZeroCopy> OneText<L> for SliceView<B, T> {
    ghost one_text = { lent_one_text B.borrow T.size (form_one_text T.is_valid T.size T.form true (max T.size 1) 0 (ViewReadRefused 0 T.size)) };
}

impl<'s, L: Lending> OneText<L> for &'s [u8] {
    ghost one_text = { lent_one_text shared 1 (number_one_text 1 true) };
}

impl<'s, L: Lending> OneText<L> for &'s mut [u8] {
    ghost one_text = { lent_one_text for_writing 1 (number_one_text 1 true) };
}

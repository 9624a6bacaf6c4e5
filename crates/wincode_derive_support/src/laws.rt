//! The laws of reading where a quote names them.
//!
//! `SchemaRead` has its laws below its functions, so the schema of a struct can't take those of its fields' tuple by a
//! quote. `Lawful` has them once more, as data: `⟦<Fields as Lawful<L>>⟧.read_laws`.
ghost use Rattle.std.proofs.Common.{lit≤};
ghost use Rattle.std.specs.Arc.{arc_slice_items};
ghost use Rattle.std.specs.Char.{IsScalar};
ghost use Rattle.std.specs.Box.{boxed_slice_items};
ghost use Rattle.std.specs.Prelude.{◌≡◌, ℕ, ◌<◌, ◌^◌, Bool, true, false, List, map, IsUtf8, max, Result, string_bytes};
ghost use Rattle.std.specs.Rc.{rc_slice_items};
ghost use Rattle.std.specs.Result.{result_map_both};
ghost use Rattle.wincode_io.specs.Joins.{Each};
ghost use Rattle.wincode_io.specs.Readers.{shared, for_writing};
ghost use Rattle.wincode_io.specs.Viewed.{value_seen, values_seen};
ghost use Rattle.wincode_base.specs.ArrayLaws.{array_read_laws};
ghost use Rattle.wincode_base.specs.Arrays.{IsArray, array_read};
ghost use Rattle.wincode_base.specs.Boxed.{boxed_read};
ghost use Rattle.wincode_base.specs.BoxedLaws.{boxed_read_laws};
ghost use Rattle.wincode_base.specs.Grammar.{ReadGrammar, ReadLaws, ReadRefusal};
ghost use Rattle.wincode_base.specs.InWindow.{windowed_read};
ghost use Rattle.wincode_base.specs.Keys.{IsAlike};
ghost use Rattle.wincode_base.specs.LeafLaws.{bool_read_laws, unit_read_laws, number_read_laws};
ghost use Rattle.wincode_base.specs.Leaves.{number_read, bool_read, unit_read};
ghost use Rattle.wincode_base.specs.LengthLaws.{bincode_laws};
ghost use Rattle.wincode_base.specs.Lengths.{bincode, preallocation_limit};
ghost use Rattle.wincode_base.specs.ListLaws.{list_read_laws};
ghost use Rattle.wincode_base.specs.Lists.{list_read};
ghost use Rattle.wincode_base.specs.PairLaws.{windowed_read_laws};
ghost use Rattle.wincode_base.specs.Short.{short_read};
ghost use Rattle.wincode_base.specs.ShortLaws.{short_read_laws};
ghost use Rattle.wincode_base.specs.StringLaws.{char_read_laws, str_read_laws};
ghost use Rattle.wincode_base.specs.Strings.{char_read, str_read};
ghost use Rattle.wincode_base.specs.Tags.{IfSide, sides_tag, sides_read, counted_read};
ghost use Rattle.wincode_base.specs.ViewLaws.{counts_some, form_prealloc_some, form_read_laws, lent_read_laws};
ghost use Rattle.wincode_base.specs.Views.{form_item_read, form_prealloc, pod_read, view_read, lent_read, forms_read};
ghost use Rattle.wincode.specs.OneText.{IsOneText};
ghost use Rattle.wincode_derive_support.specs.SumLaws.{CaseLaws, last_case_laws, case_laws, counted_case_laws, enum_read_laws};
ghost use Rattle.wincode_derive_support.specs.Sums.{sides_own, CaseReadRefused, IsNameless, enum_read};

mod ends;
mod numbers;
mod std_types;
mod tags;
mod tuples;

use crate::sums::{Case, Counted, Last, OneOf};
use std::boxed::BoxedSlice;
use std::collections::{LinkedList, VecDeque};
use std::marker::PhantomData;
use std::rc::{Rc, RcSlice};
use std::sync::ArcSlice;
use wincode::containers::{self, Pod};
use wincode::io::{Borrowed, Lending, SliceView, View, ZeroCopy};
use wincode::len::{SeqLen, ShortU16};
use wincode::{Key, OneText, SchemaRead, SchemaReadOwned, SchemaWrite, TagCode};

/// Schemas whose laws of reading another's can name.
pub trait Lawful<L: Lending> {
    type Dst;

    // What contracts see of a value, which are its values, and the grammar, as in `SchemaRead`.
    ghost Value: { Type 0 };

    ghost model: { Self.Dst → Value };

    ghost is_valid: { Value → Type 0 };

    ghost reading: { ReadGrammar Value };

    ghost read_laws: { ReadLaws is_valid reading };
}

/// The same of cases.
pub trait LawfulCases<L: Lending> {
    type Dst;

    // As in `CasesRead`.
    ghost Value: { Type 0 };

    ghost model: { Self.Dst → Value };

    ghost is_valid: { Value → Type 0 };

    ghost tag: { Value → ℕ };

    ghost own: { Value → Type 0 };

    ghost part: { ReadGrammar Value };

    ghost refused: { ℕ → ReadRefusal };

    ghost case_laws: { CaseLaws tag own is_valid part };
}

/// What is read has one encoding, of a tuple of fields: every schema has it that is written too and has `OneText`.
pub trait FieldsOneText<L: Lending>: SchemaWrite + SchemaRead<L, Dst = Self::Src> {
    ghost fields_one_text: { IsOneText Self.SchemaRead.reading };
}

impl<L: Lending, T: SchemaWrite + SchemaRead<L, Dst = T::Src> + OneText<L>> FieldsOneText<L> for T
where
    T::Src: Drop,
{
    ghost fields_one_text = { T.one_text };
}

/// Reading asks for no borrow, of a tuple of fields: every schema has it that is written too and has
/// `SchemaReadOwned`.
pub trait FieldsReadOwned<L: Lending>: SchemaWrite + SchemaRead<L, Dst = Self::Src> {
    ghost fields_owned: { Self.SchemaRead.reading.borrow ≡ 0 };
}

impl<L: Lending, T: SchemaWrite + SchemaRead<L, Dst = T::Src> + SchemaReadOwned<L>> FieldsReadOwned<
    L,
> for T
where
    T::Src: Drop,
{
    ghost fields_owned = { T.owned };
}

/// Where the same is seen of two, they are equal, of fields as pairs in pairs, as a derived `eq` compares them: every
/// schema has it that is written too and has `Key`.
pub trait FieldsKey<L: Lending>: SchemaWrite + SchemaRead<L, Dst = Self::Src>
where
    Self::Src: Eq,
{
    ghost fields_alike: { IsAlike Self.Src.eq Self.SchemaRead.model };
}

impl<L: Lending, T: SchemaWrite + SchemaRead<L, Dst = T::Src> + Key<L>> FieldsKey<L> for T
where
    T::Src: Drop + Eq,
{
    ghost fields_alike = { T.alike };
}

impl<L: Lending, const TAG: usize, A: Lawful<L>> LawfulCases<L> for Last<TAG, A> {
    type Dst = A::Dst;

    ghost Value = { A.Value };

    ghost model = { A.model };

    ghost is_valid = { A.is_valid };

    ghost tag = { λ v. TAG };

    ghost own = { λ v. Unit {0} };

    ghost part = { A.reading };

    ghost refused = { CaseReadRefused TAG A.reading IsNameless };

    ghost case_laws = { last_case_laws TAG A.read_laws };
}

impl<L: Lending, const TAG: usize, A: Lawful<L>, Rest: LawfulCases<L>> LawfulCases<L>
    for Case<TAG, A, Rest> {
    type Dst = Result<A::Dst, Rest::Dst>;

    ghost Value = { Result A.Value Rest.Value };

    ghost model = { result_map_both A.model Rest.model };

    ghost is_valid = { IfSide A.is_valid Rest.is_valid };

    ghost tag = { sides_tag (λ v. TAG) Rest.tag };

    ghost own = { sides_own TAG Rest.tag Rest.own };

    ghost part = { sides_read A.reading Rest.part };

    ghost refused = { CaseReadRefused TAG A.reading Rest.refused };

    ghost case_laws = { case_laws TAG A.read_laws Rest.case_laws };
}

impl<L: Lending, const BYTES: usize, C: LawfulCases<L>> LawfulCases<L> for Counted<BYTES, C> {
    type Dst = C::Dst;

    ghost Value = { C.Value };

    ghost model = { C.model };

    ghost is_valid = { C.is_valid };

    ghost tag = { C.tag };

    ghost own = { C.own };

    ghost part = { counted_read (max BYTES 1) C.part };

    ghost refused = { C.refused };

    ghost case_laws = { counted_case_laws BYTES C.case_laws };
}

impl<L: Lending, Tag: TagCode, C: LawfulCases<L>> Lawful<L> for OneOf<Tag, C> {
    type Dst = C::Dst;

    ghost Value = { C.Value };

    ghost model = { C.model };

    ghost is_valid = { C.is_valid };

    ghost reading = { enum_read Tag.size C.tag C.own C.part C.refused };

    ghost read_laws = { enum_read_laws Tag.size C.case_laws };
}

impl<L: Lending> Lawful<L> for bool {
    type Dst = bool;

    ghost Value = { Bool };

    ghost model = { λ v. v };

    ghost is_valid = { λ v. Unit {0} };

    ghost reading = { bool_read };

    ghost read_laws = { bool_read_laws };
}

impl<L: Lending> Lawful<L> for char {
    type Dst = char;

    ghost Value = { ℕ };

    ghost model = { λ c. c };

    ghost is_valid = { IsScalar };

    ghost reading = { char_read };

    ghost read_laws = { char_read_laws };
}

impl<L: Lending> Lawful<L> for () {
    type Dst = ();

    ghost Value = { Unit };

    ghost model = { λ _. tt };

    ghost is_valid = { λ _. Unit {0} };

    ghost reading = { unit_read };

    ghost read_laws = { unit_read_laws };
}

impl<L: Lending, T> Lawful<L> for PhantomData<T> {
    type Dst = PhantomData<T>;

    ghost Value = { Unit };

    ghost model = { λ _. tt };

    ghost is_valid = { λ _. Unit {0} };

    ghost reading = { unit_read };

    ghost read_laws = { unit_read_laws };
}

impl<L: Lending> Lawful<L> for ShortU16 {
    type Dst = ShortU16;

    ghost Value = { ℕ };

    ghost model = { λ v. v.0 };

    ghost is_valid = { λ n. n < 2 ^ 16 };

    ghost reading = { short_read };

    ghost read_laws = { short_read_laws };
}

impl<L: Lending> Lawful<L> for String {
    type Dst = String;

    ghost Value = { List ℕ };

    ghost model = { λ s. string_bytes s };

    ghost is_valid = { IsUtf8 };

    ghost reading = { str_read 24 0 false };

    ghost read_laws = { str_read_laws 24 0 false (lit≤ tt) };
}

impl<'s, L: Lending> Lawful<L> for &'s str {
    type Dst = L::Text;

    ghost Value = { List ℕ };

    ghost model = { λ s. L.held_text s };

    ghost is_valid = { IsUtf8 };

    ghost reading = { str_read 16 1 true };

    ghost read_laws = { str_read_laws 16 1 true (lit≤ tt) };
}

impl<'s, L: Lending> Lawful<L> for &'s [u8] {
    type Dst = L::Bytes;

    ghost Value = { List ℕ };

    ghost model = { λ s. L.Bytes.holds s };

    ghost is_valid = { Each (λ v. v < 256 ^ 1) };

    ghost reading = { lent_read shared 1 (number_read 1 true) };

    ghost read_laws = { lent_read_laws shared 1 (λ v. v < 256 ^ 1) (number_read 1 true) (number_read_laws 1 true (lit≤ tt)) };
}

impl<'s, L: Lending> Lawful<L> for &'s mut [u8] {
    type Dst = L::BytesMut;

    ghost Value = { List ℕ };

    ghost model = { λ s. L.BytesMut.holds s };

    ghost is_valid = { Each (λ v. v < 256 ^ 1) };

    ghost reading = { lent_read for_writing 1 (number_read 1 true) };

    ghost read_laws = { lent_read_laws for_writing 1 (λ v. v < 256 ^ 1) (number_read 1 true) (number_read_laws 1 true (lit≤ tt)) };
}

impl<L: Lending, T: Lawful<L>> Lawful<L> for Vec<T> {
    type Dst = Vec<T::Dst>;

    ghost Value = { List T.Value };

    ghost model = { λ v. map T.model v.items };

    ghost is_valid = { Each T.is_valid };

    ghost reading = { list_read (bincode preallocation_limit) 24 T.reading };

    ghost read_laws = { list_read_laws (bincode preallocation_limit) (bincode_laws preallocation_limit) 24 (lit≤ tt) T.is_valid T.reading T.read_laws };
}

impl<L: Lending, T: Lawful<L>> Lawful<L> for VecDeque<T> {
    type Dst = VecDeque<T::Dst>;

    ghost Value = { List T.Value };

    ghost model = { λ q. map T.model q.items };

    ghost is_valid = { Each T.is_valid };

    ghost reading = { list_read (bincode preallocation_limit) 24 T.reading };

    ghost read_laws = { list_read_laws (bincode preallocation_limit) (bincode_laws preallocation_limit) 24 (lit≤ tt) T.is_valid T.reading T.read_laws };
}

impl<L: Lending, T: Lawful<L>> Lawful<L> for LinkedList<T> {
    type Dst = LinkedList<T::Dst>;

    ghost Value = { List T.Value };

    ghost model = { λ l. map T.model l };

    ghost is_valid = { Each T.is_valid };

    ghost reading = { list_read (bincode preallocation_limit) 24 T.reading };

    ghost read_laws = { list_read_laws (bincode preallocation_limit) (bincode_laws preallocation_limit) 24 (lit≤ tt) T.is_valid T.reading T.read_laws };
}

impl<L: Lending, T: Lawful<L>, Len: SeqLen> Lawful<L> for containers::Vec<T, Len> {
    type Dst = Vec<T::Dst>;

    ghost Value = { List T.Value };

    ghost model = { λ v. map T.model v.items };

    ghost is_valid = { Each T.is_valid };

    ghost reading = { list_read Len.scheme 24 T.reading };

    ghost read_laws = { list_read_laws Len.scheme Len.scheme_laws 24 (lit≤ tt) T.is_valid T.reading T.read_laws };
}

impl<L: Lending, T: Lawful<L>, Len: SeqLen> Lawful<L> for containers::VecDeque<T, Len> {
    type Dst = VecDeque<T::Dst>;

    ghost Value = { List T.Value };

    ghost model = { λ q. map T.model q.items };

    ghost is_valid = { Each T.is_valid };

    ghost reading = { list_read Len.scheme 24 T.reading };

    ghost read_laws = { list_read_laws Len.scheme Len.scheme_laws 24 (lit≤ tt) T.is_valid T.reading T.read_laws };
}

impl<L: Lending, T: Lawful<L>, Len: SeqLen> Lawful<L> for containers::BoxedSlice<T, Len> {
    type Dst = BoxedSlice<T::Dst>;

    ghost Value = { List T.Value };

    ghost model = { λ b. map T.model (boxed_slice_items b) };

    ghost is_valid = { Each T.is_valid };

    ghost reading = { list_read Len.scheme 16 T.reading };

    ghost read_laws = { list_read_laws Len.scheme Len.scheme_laws 16 (lit≤ tt) T.is_valid T.reading T.read_laws };
}

impl<L: Lending, T: Lawful<L>, Len: SeqLen> Lawful<L> for containers::RcSlice<T, Len> {
    type Dst = RcSlice<T::Dst>;

    ghost Value = { List T.Value };

    ghost model = { λ r. map T.model (rc_slice_items r) };

    ghost is_valid = { Each T.is_valid };

    ghost reading = { list_read Len.scheme 16 T.reading };

    ghost read_laws = { list_read_laws Len.scheme Len.scheme_laws 16 (lit≤ tt) T.is_valid T.reading T.read_laws };
}

impl<L: Lending, T: Lawful<L>, Len: SeqLen> Lawful<L> for containers::ArcSlice<T, Len> {
    type Dst = ArcSlice<T::Dst>;

    ghost Value = { List T.Value };

    ghost model = { λ a. map T.model (arc_slice_items a) };

    ghost is_valid = { Each T.is_valid };

    ghost reading = { list_read Len.scheme 16 T.reading };

    ghost read_laws = { list_read_laws Len.scheme Len.scheme_laws 16 (lit≤ tt) T.is_valid T.reading T.read_laws };
}

impl<L: Lending, T: Lawful<L>> Lawful<L> for containers::Elem<T> {
    type Dst = T::Dst;

    ghost Value = { T.Value };

    ghost model = { T.model };

    ghost is_valid = { T.is_valid };

    ghost reading = { T.reading };

    ghost read_laws = { T.read_laws };
}

impl<L: Lending, T: Lawful<L>> Lawful<L> for Box<T> {
    type Dst = Box<T::Dst>;

    ghost Value = { T.Value };

    ghost model = { λ held. T.model held.value };

    ghost is_valid = { T.is_valid };

    ghost reading = { boxed_read T.reading };

    ghost read_laws = { boxed_read_laws T.is_valid T.reading T.read_laws };
}

impl<L: Lending, T: Lawful<L>> Lawful<L> for Rc<T> {
    type Dst = Rc<T::Dst>;

    ghost Value = { T.Value };

    ghost model = { λ held. T.model held.value };

    ghost is_valid = { T.is_valid };

    ghost reading = { boxed_read T.reading };

    ghost read_laws = { boxed_read_laws T.is_valid T.reading T.read_laws };
}

impl<L: Lending, T: Lawful<L>, const N: usize> Lawful<L> for [T; N] {
    type Dst = [T::Dst; N];

    ghost Value = { List T.Value };

    ghost model = { λ xs. map T.model xs };

    ghost is_valid = { IsArray N T.is_valid };

    ghost reading = { windowed_read (array_read N T.reading) };

    ghost read_laws = { windowed_read_laws (array_read_laws N T.is_valid T.reading T.read_laws) };
}

impl<L: Lending, T: ZeroCopy> Lawful<L> for Pod<T> {
    type Dst = T;

    ghost Value = { T };

    ghost model = { λ v. v };

    ghost is_valid = { T.is_valid };

    ghost reading = { pod_read T.is_valid T.size T.form };

    ghost read_laws = { form_read_laws T.byte_form true (form_prealloc T.size) 0 (form_prealloc_some T.size) };
}

impl<L: Lending, B: Borrowed<L>, T: ZeroCopy> Lawful<L> for View<B, T> {
    type Dst = View<B::Lent, T>;

    ghost Value = { T };

    ghost model = { λ v. value_seen v };

    ghost is_valid = { T.is_valid };

    ghost reading = { view_read T.is_valid T.size T.form B.borrow };

    ghost read_laws = { form_read_laws T.byte_form false 8 B.borrow (lit≤ tt) };
}

impl<L: Lending, B: Borrowed<L>, T: ZeroCopy> Lawful<L> for SliceView<B, T> {
    type Dst = SliceView<B::Lent, T>;

    ghost Value = { List T };

    ghost model = { λ v. values_seen v };

    ghost is_valid = { Each T.is_valid };

    ghost reading = { forms_read T.is_valid T.size T.form B.borrow };

    ghost read_laws = { lent_read_laws B.borrow T.size T.is_valid (form_item_read T.is_valid T.size T.form) (form_read_laws T.byte_form true (max T.size 1) 0 (counts_some T.size)) };
}

//! Keys of maps and items of heaps: a list, an option or a result behind a scheme of choice may be one where its
//! parts may.
ghost use Rattle.std.specs.Arc.{arc_slice_items};
ghost use Rattle.std.specs.Box.{boxed_slice_items};
ghost use Rattle.std.specs.Rc.{rc_slice_items};
ghost use Rattle.wincode_base.specs.KeyLaws.{items_alike, option_alike, result_alike, items_decidable, option_decidable, result_told};

use super::{ArcSlice, BoxedSlice, Elem, Option, RcSlice, Result, Vec, VecDeque};
use crate::io::Lending;
use crate::len::SeqLen;
use crate::tag::TagCode;
use wincode_read::{Key, Told};

impl<L: Lending, T: Key<L>, Len: SeqLen> Key<L> for Vec<T, Len>
where
    T::Dst: Eq,
{
    ghost alike = { λ x y. items_alike T.alike x.items y.items };
}

impl<L: Lending, T: Key<L>, Len: SeqLen> Key<L> for VecDeque<T, Len>
where
    T::Dst: Eq,
{
    ghost alike = { λ x y. items_alike T.alike x.items y.items };
}

impl<L: Lending, T: Key<L>, Len: SeqLen> Key<L> for BoxedSlice<T, Len>
where
    T::Dst: Eq,
{
    ghost alike = { λ x y. items_alike T.alike (boxed_slice_items x) (boxed_slice_items y) };
}

impl<L: Lending, T: Key<L>, Len: SeqLen> Key<L> for RcSlice<T, Len>
where
    T::Dst: Eq,
{
    ghost alike = { λ x y. items_alike T.alike (rc_slice_items x) (rc_slice_items y) };
}

impl<L: Lending, T: Key<L>, Len: SeqLen> Key<L> for ArcSlice<T, Len>
where
    T::Dst: Eq,
{
    ghost alike = { λ x y. items_alike T.alike (arc_slice_items x) (arc_slice_items y) };
}

impl<L: Lending, T: Key<L>, Tag: TagCode> Key<L> for Option<T, Tag>
where
    T::Dst: Eq,
{
    ghost alike = { option_alike T.alike };
}

impl<L: Lending, T: Key<L>, E: Key<L>, Tag: TagCode> Key<L> for Result<T, E, Tag>
where
    T::Dst: Eq,
    E::Dst: Eq,
{
    ghost alike = { result_alike T.alike E.alike };
}

impl<L: Lending, T: Key<L>> Key<L> for Elem<T>
where
    T::Dst: Eq,
{
    ghost alike = { T.alike };
}

impl<L: Lending, T: Told<L>, Len: SeqLen> Told<L> for Vec<T, Len> {
    ghost told = { items_decidable T.told };
}

impl<L: Lending, T: Told<L>, Len: SeqLen> Told<L> for VecDeque<T, Len> {
    ghost told = { items_decidable T.told };
}

impl<L: Lending, T: Told<L>, Len: SeqLen> Told<L> for BoxedSlice<T, Len> {
    ghost told = { items_decidable T.told };
}

impl<L: Lending, T: Told<L>, Len: SeqLen> Told<L> for RcSlice<T, Len> {
    ghost told = { items_decidable T.told };
}

impl<L: Lending, T: Told<L>, Len: SeqLen> Told<L> for ArcSlice<T, Len> {
    ghost told = { items_decidable T.told };
}

impl<L: Lending, T: Told<L>, Tag: TagCode> Told<L> for Option<T, Tag> {
    ghost told = { option_decidable T.told };
}

impl<L: Lending, T: Told<L>, E: Told<L>, Tag: TagCode> Told<L> for Result<T, E, Tag> {
    ghost told = { result_told T.told E.told };
}

impl<L: Lending, T: Told<L>> Told<L> for Elem<T> {
    ghost told = { T.told };
}

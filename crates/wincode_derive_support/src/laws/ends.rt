//! The laws of reading ends of ranges, C strings, and texts and items that are lent or owned.
ghost use Rattle.std.proofs.Common.{lit≤};
ghost use Rattle.std.specs.CStr.{c_string_bytes};
ghost use Rattle.std.specs.Cow.{cow_slice_items, cow_str_bytes};
ghost use Rattle.std.specs.Prelude.{IsUtf8, List, map, false, ℕ};
ghost use Rattle.std.specs.Range.Bound.{bound_map};
ghost use Rattle.std.specs.declared.ops.Bound.{Bound};
ghost use Rattle.wincode_io.specs.Joins.{Each};
ghost use Rattle.wincode_base.specs.BoundLaws.{bound_read_laws};
ghost use Rattle.wincode_base.specs.Bounds.{bound_read, IfBound};
ghost use Rattle.wincode_base.specs.CStrings.{AreBytes, IsText, bytes_seen, c_string_read, c_string_read_laws};
ghost use Rattle.wincode_base.specs.LengthLaws.{bincode_laws};
ghost use Rattle.wincode_base.specs.Lengths.{bincode, preallocation_limit};
ghost use Rattle.wincode_base.specs.ListLaws.{list_read_laws};
ghost use Rattle.wincode_base.specs.Lists.{list_read};
ghost use Rattle.wincode_base.specs.Made.{IsMadeOf};
ghost use Rattle.wincode_base.specs.StringLaws.{str_read_laws};
ghost use Rattle.wincode_base.specs.Strings.{str_read};

use crate::laws::Lawful;
use std::borrow::{CowSlice, CowStr};
use std::ffi::CString;
use std::ops::Bound;
use wincode::io::Lending;

impl<L: Lending, T: Lawful<L>> Lawful<L> for Bound<T> {
    type Dst = Bound<T::Dst>;

    ghost Value = { Bound T.Value };

    ghost model = { bound_map T.model };

    ghost is_valid = { IfBound T.is_valid };

    ghost reading = { bound_read T.reading };

    ghost read_laws = { bound_read_laws T.is_valid T.reading T.read_laws };
}

impl<L: Lending> Lawful<L> for CString {
    type Dst = CString;

    ghost Value = { List ℕ };

    ghost model = { λ c. bytes_seen (c_string_bytes c) };

    ghost is_valid = { IsMadeOf bytes_seen IsText AreBytes };

    ghost reading = { c_string_read };

    ghost read_laws = { c_string_read_laws };
}

impl<'s, L: Lending> Lawful<L> for CowStr<'s> {
    type Dst = CowStr<'s>;

    ghost Value = { List ℕ };

    ghost model = { λ t. cow_str_bytes t };

    ghost is_valid = { IsUtf8 };

    ghost reading = { str_read 24 0 false };

    ghost read_laws = { str_read_laws 24 0 false (lit≤ tt) };
}

impl<'s, L: Lending, T: Lawful<L>> Lawful<L> for CowSlice<'s, T>
where
    T: 's,
    T::Dst: 's,
{
    type Dst = CowSlice<'s, T::Dst>;

    ghost Value = { List T.Value };

    ghost model = { λ c. map T.model (cow_slice_items c) };

    ghost is_valid = { Each T.is_valid };

    ghost reading = { list_read (bincode preallocation_limit) 24 T.reading };

    ghost read_laws = { list_read_laws (bincode preallocation_limit) (bincode_laws preallocation_limit) 24 (lit≤ tt) T.is_valid T.reading T.read_laws };
}

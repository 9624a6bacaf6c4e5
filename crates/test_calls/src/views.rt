//! Views, forms and bytes that are lent: what they give, and what edits leave.
ghost use Rattle.std.specs.Prelude.{◌≡◌, length, IfOk};

use std::alloc::Global;
use std::test::Fail;
use testkit_schemas::rows::{bytes_of, digits_of};
use wincode::containers::Pod;
use wincode::io::{self, Cursor, Lifetime, Ref, RefMut, SliceRef, SliceRefMut, ZeroCopy};
use wincode::laws::{edit_in_place, edit_one};
use wincode::len::ShortU16Len;
use wincode::{
    ReadError, ReadResult, SchemaGet, SchemaRead, SchemaWrite, TypeMeta, containers, deserialize,
    deserialize_mut,
};

#[test]
fn views_give_what_was_lent(rt: HostRuntime) -> Result<(), Fail> {
    let alloc = rt.alloc();
    let bytes = [2u8, 0, 0, 0, 0, 0, 0, 0, 1, 0, 4, 3];
    let view: SliceRef<'_, u16> = deserialize(alloc, bytes.as_slice())?;
    if view.len() != 2 {
        return Err(Fail::from("two forms"));
    }
    let one: Ref<'_, u16> = deserialize(alloc, &bytes[10..])?;
    assert!(rt; (view.get(0), view.get(1), one.get()) == (1, 772, 772));
    Ok(())
}

#[test]
fn bytes_that_are_lent(rt: HostRuntime) -> Result<(), Fail> {
    let alloc = rt.alloc();
    let lent: &[u8] = deserialize(alloc, &[3u8, 0, 0, 0, 0, 0, 0, 0, 7, 8, 9, 1])?;
    let lists: Vec<&[u8]> = deserialize(
        alloc,
        &[1u8, 0, 0, 0, 0, 0, 0, 0, 1, 0, 0, 0, 0, 0, 0, 0, 7],
    )?;
    let is_one = lists.len() == 1 && lists[0] == [7u8].as_slice();
    assert!(rt; (lent, is_one) == ([7u8, 8, 9].as_slice(), true));
    Ok(())
}

/// Where a cursor stands behind a read that is refused as what can't be lent: none where it ends otherwise.
fn unlent<'s, T: SchemaRead<Lifetime<'s>>>(alloc: Global, bytes: &'s [u8]) -> Option<usize> {
    let mut cursor = Cursor::new(bytes);
    match T::get(alloc, &mut cursor) {
        Err(ReadError::Io(io::ReadError::UnsupportedZeroCopy)) => Some(cursor.position()),
        _ => None,
    }
}

/// The length of a list of one form of two bytes, or of one byte, and behind it two bytes.
const ONE: [u8; 10] = [1, 0, 0, 0, 0, 0, 0, 0, 1, 0];

#[test]
fn borrows_that_are_not_lent(rt: HostRuntime) {
    let alloc = rt.alloc();
    let behind = [
        unlent::<SliceRef<'_, u16>>(alloc, &ONE),
        unlent::<SliceRefMut<'_, u16>>(alloc, &ONE),
        unlent::<&[u8]>(alloc, &ONE),
        unlent::<&mut [u8]>(alloc, &ONE),
    ];
    let before = [
        unlent::<Ref<'_, u16>>(alloc, &ONE),
        unlent::<RefMut<'_, u16>>(alloc, &ONE),
    ];
    assert!(rt; (behind, before) == ([Some(8); 4], [Some(0); 2]));
}

#[test]
fn a_slice_lends_nothing_to_change(rt: HostRuntime) {
    let mut reader = ONE.as_slice();
    let shared = <&mut [u8] as SchemaGet<Lifetime>>::get(rt.alloc(), &mut reader);
    let is_refused = matches!(
        &shared,
        Err(ReadError::Io(io::ReadError::UnsupportedZeroCopy))
    );
    assert!(rt; (is_refused, reader.len()) == (true, 2));
}

/// What a view gives is the value that was set.
fn set_and_get<T: ZeroCopy>(view: &mut RefMut<'_, T>, value: T) -> T
    ensures { result ≡ value }
{
    view.set(value);
    view.get()
}

/// So of a view that was read.
fn set_first(alloc: Global, bytes: &mut [u8], value: u16) -> ReadResult<u16>
    ensures { IfOk result (λ v. v ≡ value) }
{
    let mut view: RefMut<'_, u16> = deserialize_mut(alloc, &mut *bytes)?;
    Ok(set_and_get(&mut view, value))
}

#[test]
fn sets_stand_in_the_bytes(rt: HostRuntime) -> Result<(), Fail> {
    let mut forms = [2u8, 0, 0, 0, 0, 0, 0, 0, 1, 0, 2, 0];
    let mut view: SliceRefMut<'_, u16> = deserialize_mut(rt.alloc(), forms.as_mut_slice())?;
    if view.len() != 2 {
        return Err(Fail::from("two forms"));
    }
    view.set(1, 772);
    view.set(1, 772);
    let (first, second) = (view.get(0), view.get(1));
    let due = [2u8, 0, 0, 0, 0, 0, 0, 0, 1, 0, 4, 3];
    assert!(rt; (first, second, forms) == (1, 772, due));
    Ok(())
}

/// Sets a form, and changes the second byte of the list behind it.
fn change_both(alloc: Global, bytes: &mut [u8]) -> Result<(), Fail> {
    let (mut form, lent): (RefMut<'_, u16>, &mut [u8]) = deserialize_mut(alloc, &mut *bytes)?;
    form.set(772);
    match lent.get_mut(1) {
        Some(last) => *last = 9,
        None => return Err(Fail::from("two bytes")),
    }
    Ok(())
}

#[test]
fn a_form_and_bytes_are_changed(rt: HostRuntime) -> Result<(), Fail> {
    let alloc = rt.alloc();
    let mut bytes = [1u8, 0, 2, 0, 0, 0, 0, 0, 0, 0, 5, 6];
    change_both(alloc, bytes.as_mut_slice())?;
    let changed = bytes;
    let first = set_first(alloc, bytes.as_mut_slice(), 515)?;
    let due = [
        [4u8, 3, 2, 0, 0, 0, 0, 0, 0, 0, 5, 9],
        [3, 2, 2, 0, 0, 0, 0, 0, 0, 0, 5, 9],
    ];
    assert!(rt; ([changed, bytes], first) == (due, 515));
    Ok(())
}

/// Forms behind their number, edits, and how they end with the bytes that are there then.
type Edited = (&'static str, &'static [(usize, u16)], &'static str);

const EDITED: [Edited; 5] = [
    (
        "030000000000000001000200030063",
        &[(2, 258), (0, 515), (2, 1)],
        "Ok(()) 030000000000000003020200010063",
    ),
    (
        "030000000000000003020200010063",
        &[(0, 9), (3, 1)],
        "Err(Custom(\"index\")) 030000000000000003020200010063",
    ),
    (
        "030000000000000003020200010063",
        &[],
        "Ok(()) 030000000000000003020200010063",
    ),
    (
        "0200000000000000010002",
        &[(0, 7)],
        "Err(Io(ReadSizeLimit(4))) 0200000000000000010002",
    ),
    (
        "02000000000000",
        &[],
        "Err(Io(ReadSizeLimit(8))) 02000000000000",
    ),
];

#[test]
fn edits_stand_in_the_bytes(rt: HostRuntime) -> Result<(), Fail> {
    let alloc = rt.alloc();
    for (digits, edits, wanted) in EDITED {
        let mut bytes = bytes_of(alloc, digits)?;
        let answer = edit_in_place::<u16>(bytes.as_mut_slice(), edits);
        let found = format!(in alloc; "{answer:?} {}", digits_of(alloc, bytes.as_slice())?)?;
        assert!(rt; found.as_str() == wanted);
    }
    Ok(())
}

#[test]
fn edits_of_other_forms(rt: HostRuntime) -> Result<(), Fail> {
    let mut arrays = [2u8, 0, 0, 0, 0, 0, 0, 0, 1, 0, 2, 0, 3, 0, 4, 0];
    edit_in_place::<[u16; 2]>(&mut arrays, &[(1, [772, 5])])?;
    let mut vast = [0u8, 0, 0, 0, 0, 0, 0, 128];
    let over = edit_in_place::<u64>(&mut vast, &[]);
    let is_over = matches!(&over, Err(ReadError::LengthEncodingOverflow("usize::MAX")));
    let due = [2u8, 0, 0, 0, 0, 0, 0, 0, 1, 0, 2, 0, 4, 3, 5, 0];
    assert!(rt; (arrays, is_over) == (due, true));
    Ok(())
}

#[test]
fn edits_of_one_form(rt: HostRuntime) -> Result<(), Fail> {
    let mut one = [1u8, 0, 9];
    edit_one::<u16>(&mut one, &[258, 515])?;
    let edited = one;
    let few = edit_one::<u32>(&mut one, &[1]);
    let is_short = matches!(&few, Err(ReadError::Io(io::ReadError::ReadSizeLimit(4))));
    assert!(rt; (edited, is_short, one) == ([3, 2, 9], true, [3, 2, 9]));
    Ok(())
}

/// A list of bytes, and one of arrays, each behind a short length.
type Forms = (
    containers::Vec<Pod<u8>, ShortU16Len>,
    containers::Vec<Pod<[u8; 32]>, ShortU16Len>,
);

#[test]
fn lists_of_forms_read_back(rt: HostRuntime) -> Result<(), Fail> {
    let alloc = rt.alloc();
    for n in [0usize, 1, 2, 127, 128, 300] {
        let value = (vec![in alloc; 5u8; n]?, vec![in alloc; [9u8; 32]; n]?);
        let mut text = Vec::new(alloc);
        <Forms as SchemaWrite>::write(&mut text, &value)?;
        let mut reader = text.as_slice();
        let back = <Forms as SchemaGet<Lifetime>>::get(alloc, &mut reader)?;
        assert!(rt; reader.is_empty() && back == value, "{n}");
    }
    Ok(())
}

/// What a schema announces, and what it counts.
fn announced<'s, T: SchemaRead<Lifetime<'s>>>() -> (TypeMeta, usize) {
    (T::type_meta(), T::prealloc_size())
}

#[test]
fn sizes_of_views(rt: HostRuntime) {
    let found = [
        announced::<RefMut<'_, u32>>(),
        announced::<SliceRefMut<'_, u32>>(),
        announced::<&mut [u8]>(),
    ];
    let four = TypeMeta::Static {
        size: 4,
        zero_copy: false,
    };
    let list = (TypeMeta::Dynamic, 16);
    assert!(rt; found == [(four, 8), list, list]);
}

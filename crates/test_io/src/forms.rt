//! Byte forms through readers, writers and views: what no row of `rows_io` says.
use std::alloc::Global;
use std::test::Fail;
use testkit_io::counted::{Counted, Finishing};
use wincode_io::{
    Lifetime, ReadError, Reader, SliceRef, SliceRefMut, SliceWriter, WriteError, WriteResult,
    WriteWindow, Writer, ZeroCopy,
};

// The forms of 258, 1 and 515 as `u64`, and a byte more.
const NUMBERS: [u8; 25] = [
    2, 1, 0, 0, 0, 0, 0, 0, 1, 0, 0, 0, 0, 0, 0, 0, 3, 2, 0, 0, 0, 0, 0, 0, 9,
];

// What is read from these bytes, where they are what is written for the value.
fn back<T: ZeroCopy>(alloc: Global, value: T, bytes: &[u8]) -> Result<Option<T>, Fail> {
    let mut written = Vec::new(alloc);
    written.write_t(&value)?;
    let mut read = None;
    if written.as_slice() == bytes {
        let mut reader = bytes;
        Reader::<Lifetime>::copy_into_t(&mut reader, &mut read)?;
    }
    Ok(read)
}

// Writes the three numbers, and then nothing.
fn write_numbers<W: Writer>(writer: &mut W) -> WriteResult<()> {
    writer.write_t(&258u64)?;
    writer.write_slice_t(&[1u64, 515])?;
    writer.write_slice_t::<u64>(&[])
}

fn refused_size(answer: WriteResult<()>) -> Option<usize> {
    match answer {
        Err(WriteError::WriteSizeLimit(n)) => Some(n),
        _ => None,
    }
}

/// Other numbers are rows of `rows_values`.
#[test]
fn numbers_have_forms(rt: HostRuntime) -> Result<(), Fail> {
    let alloc = rt.alloc();
    let signed = back(alloc, -2i32, &[254, 255, 255, 255])?;
    let form = [0, 0, 0, 0, 0, 0, 0, 0, 1, 0, 0, 0, 0, 0, 0, 0];
    let wide = back(alloc, 1u128 << 64, &form)?;
    assert!(rt; (signed, wide) == (Some(-2), Some(1 << 64)));
    Ok(())
}

#[test]
fn arrays_have_forms(rt: HostRuntime) -> Result<(), Fail> {
    let alloc = rt.alloc();
    let numbers = back(alloc, [1u16, 515], &[1, 0, 3, 2])?;
    let nested = back(alloc, [[1u8, 2], [3, 4], [5, 6]], &[1, 2, 3, 4, 5, 6])?;
    let none = back(alloc, [0u64; 0], &[])?;
    let wanted = (Some([1, 515]), Some([[1, 2], [3, 4], [5, 6]]), Some([]));
    assert!(rt; (numbers, nested, none) == wanted);
    Ok(())
}

#[test]
fn a_refused_form_stays(rt: HostRuntime) {
    let mut short = [1u8, 2].as_slice();
    let mut number = Some(7u32);
    let refused = Reader::<Lifetime>::copy_into_t(&mut short, &mut number);
    let is_short = matches!(&refused, Err(ReadError::ReadSizeLimit(4)));
    assert!(rt; (is_short, short, number) == (true, [1u8, 2].as_slice(), Some(7)));
}

#[test]
fn a_window_takes_forms(rt: HostRuntime) -> Result<(), Fail> {
    let mut slice = [0u8; 30];
    let mut writer = SliceWriter::new(&mut slice);
    writer.make_room(25)?;
    let mut window = WriteWindow::new(&mut writer, 25);
    write_numbers(&mut window)?;
    let one = refused_size(window.write_t(&1u16));
    let two = refused_size(window.write_slice_t(&[1u16, 2]));
    assert!(rt; (one, two, writer.written()) == (Some(2), Some(4), &NUMBERS[..24]));
    Ok(())
}

#[test]
fn room_is_left_behind_a_form(rt: HostRuntime) -> Result<(), Fail> {
    let mut slice = [0u8; 30];
    let mut writer = SliceWriter::new(&mut slice);
    write_numbers(&mut writer)?;
    writer.write_t(&[1u8, 2])?;
    assert!(rt; (writer.written().len(), writer.room()) == (26, 4));
    Ok(())
}

#[test]
fn writers_that_count_take_forms(rt: HostRuntime) -> Result<(), Fail> {
    let mut counted = Counted::new(Vec::new(rt.alloc()), 2);
    counted.write_t(&258u64)?;
    counted.write_slice_t(&[1u64, 515])?;
    let is_failure = matches!(&counted.write_t(&1u8), Err(WriteError::Io(_)));
    let after = (counted.bytes(), counted.failures());
    assert!(rt; (is_failure, after) == (true, (&NUMBERS[..24], 1)));
    Ok(())
}

#[test]
fn writers_that_finish_take_forms(rt: HostRuntime) -> Result<(), Fail> {
    let mut finishing = Finishing::new(Vec::new(rt.alloc()));
    write_numbers(&mut finishing)?;
    assert!(rt; finishing.bytes() == &NUMBERS[..24]);
    Ok(())
}

#[test]
fn views_give_and_set(rt: HostRuntime) -> Result<(), Fail> {
    let mut bytes = [1u8, 0, 0, 0, 9];
    let mut view = u32::from_bytes_mut(&mut bytes)?;
    let before = view.get();
    view.set(258);
    let after = view.get();
    let shared = u32::from_bytes(&bytes)?.get();
    assert!(rt; (before, after, shared, bytes) == (1, 258, 258, [2, 1, 0, 0, 9]));
    Ok(())
}

#[test]
fn views_of_too_few_bytes(rt: HostRuntime) {
    let mut bytes = [2u8, 1, 0, 0, 9];
    let shared = u32::from_bytes(&bytes[..3]);
    let is_short = matches!(&shared, Err(ReadError::ReadSizeLimit(4)));
    let for_writing = u64::from_bytes_mut(&mut bytes);
    let is_shorter = matches!(&for_writing, Err(ReadError::ReadSizeLimit(8)));
    assert!(rt; (is_short, is_shorter, bytes) == (true, true, [2, 1, 0, 0, 9]));
}

#[test]
fn views_leave_what_is_behind(rt: HostRuntime) -> Result<(), Fail> {
    let mut behind = [1u8, 0, 5, 6, 7, 8, 9];
    u16::from_bytes_mut(&mut behind)?.set(772);
    let is_refused = <[u8; 32]>::from_bytes_mut(&mut behind).is_err();
    assert!(rt; (is_refused, behind) == (true, [4, 3, 5, 6, 7, 8, 9]));
    Ok(())
}

#[test]
fn views_of_many_forms(rt: HostRuntime) {
    let mut forms = [1u8, 0, 2, 0, 3, 0];
    let mut view = SliceRefMut::<'_, u16>::new(&mut forms, 3);
    let before = (view.len(), view.get(1));
    view.set(1, 772);
    let after = (view.get(0), view.get(1), view.get(2));
    assert!(rt; (before, after, forms) == ((3, 2), (1, 772, 3), [1, 0, 4, 3, 3, 0]));
}

#[test]
fn views_of_many_arrays(rt: HostRuntime) {
    let view = SliceRef::<'_, [u8; 2]>::new(&[1, 0, 4, 3, 3, 0], 3);
    assert!(rt; (view.len(), view.get(1)) == (3, [4, 3]));
}

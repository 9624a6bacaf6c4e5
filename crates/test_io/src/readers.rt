//! Readers and their windows: what no row of `rows_io` says.

use std::test::Fail;
use testkit_io::readers::{pairs, skips};
use wincode_io::{
    Cursor, Held, Input, Lending, Lifetime, ReadError, ReadResult, Reader, copy_into_array,
    fill_array,
};

/// The first byte of an input, lent by it.
fn first_lent<I: Input + Reader<I::Lends> + Drop>(
    mut input: I,
) -> ReadResult<<I::Lends as Lending>::Bytes> {
    input.borrow_exact(1)
}

#[test]
fn arrays(rt: HostRuntime) -> Result<(), Fail> {
    let mut reader = [1u8, 2, 3, 4, 5, 6, 7].as_slice();
    let filled = fill_array::<Lifetime, &[u8], 3>(&mut reader)?;
    let mut array = [0; 1];
    copy_into_array::<Lifetime, &[u8], 1>(&mut reader, &mut array)?;
    let left = [2u8, 3, 4, 5, 6, 7].as_slice();
    assert!(rt; (filled, array, reader) == ([1, 2, 3], [1], left));
    Ok(())
}

#[test]
fn two_pairs(rt: HostRuntime) -> Result<(), Fail> {
    let bytes = [1u8, 2, 3, 4, 5, 6, 7];
    let mut reader = &bytes[1..];
    let of_slice = pairs::<Lifetime, &[u8]>(&mut reader)?;
    let mut cursor = Cursor::new_at(bytes.as_slice(), 1);
    let of_cursor = pairs::<Lifetime, Cursor<&[u8]>>(&mut cursor)?;
    let short = pairs::<Lifetime, Cursor<&[u8]>>(&mut cursor);
    let is_short = matches!(&short, Err(ReadError::ReadSizeLimit(6)));
    let after = (reader.len(), is_short, cursor.position());
    let due = ([2, 3], [4, 5]);
    assert!(rt; (of_slice, of_cursor, after) == (due, due, (0, true, 7)));
    Ok(())
}

/// Borrows from a window of bytes for writing: each is gone from it, and what is set stands in the bytes.
#[test]
fn bytes_for_writing(rt: HostRuntime) -> Result<(), Fail> {
    let mut held = [1u8, 2, 3, 4, 5];
    let mut reader = held.as_mut_slice();
    reader.borrow_exact_mut(1)?[0] = 10;
    let mut window = reader.as_trusted_for(3)?;
    window.borrow_exact_mut(1)?[0] = 20;
    let is_next = window.borrow_exact(1)? == [3u8].as_slice();
    let is_short = matches!(
        &window.borrow_exact_mut(2),
        Err(ReadError::ReadSizeLimit(2))
    );
    drop(window);
    let is_last = reader.borrow_exact(1)? == [5u8].as_slice();
    assert!(rt; (is_next, is_short, is_last, held) == (true, true, true, [10, 20, 3, 4, 5]));
    Ok(())
}

#[test]
fn either_input_lends(rt: HostRuntime) -> Result<(), Fail> {
    let mut held = [10u8, 20];
    let is_of_writing = first_lent(held.as_mut_slice())? == [10u8].as_slice();
    let of_shared = first_lent(held.as_slice())?;
    assert!(rt; (is_of_writing, of_shared) == (true, [10u8].as_slice()));
    Ok(())
}

#[test]
fn lent_bytes_are_cut(rt: HostRuntime) -> Result<(), Fail> {
    let bytes = [1u8, 2, 3];
    let mut reader = bytes.as_slice();
    reader.fill(2)?;
    let at_hand = reader.at_hand().len();
    reader.consume_unchecked(1);
    let part = <Lifetime as Lending>::part(&reader, 1, 2);
    let of_part = (<Lifetime as Lending>::bytes_of(&part), part.as_held());
    let last = [3u8].as_slice();
    assert!(rt; (at_hand, reader, of_part) == (3, &bytes[1..], (last, last)));
    Ok(())
}

#[test]
fn lent_bytes_are_shared(rt: HostRuntime) {
    let mut held = [1u8, 2, 3];
    let mut writing = held.as_mut_slice();
    let front = <Lifetime as Lending>::take_front_mut(&mut writing, 2);
    let rest = (
        <Lifetime as Lending>::bytes_of_mut(&writing),
        writing.as_held(),
    );
    let shared = <Lifetime as Lending>::share(front);
    let last = [3u8].as_slice();
    assert!(rt; (rest, shared) == ((last, last), [1u8, 2].as_slice()));
}

#[test]
fn a_cursor_is_moved(rt: HostRuntime) {
    let bytes = [1u8, 2, 3];
    let mut cursor = Cursor::new(bytes.as_slice());
    let first = cursor.position();
    cursor.set_position(2);
    let skipped = (skips(&mut cursor, 1), skips(&mut cursor, 1));
    let positions = (first, cursor.position());
    let wanted = ((true, false), (0, 3), bytes.as_slice());
    assert!(rt; (skipped, positions, cursor.into_inner()) == wanted);
}

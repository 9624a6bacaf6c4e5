//! Writers and their windows: what no row of `rows_io` says.
use std::alloc::{AllocError, Global};
use std::test::Fail;
use testkit_io::counted::{Counted, Finishing};
use testkit_io::writers::{
    grow_at, overwrite_at, overwrite_front, overwrite_on, write_both, write_in_parts,
    write_in_window, write_within,
};
use wincode_io::{
    Cursor, SliceWriter, TrustedSliceWriter, WriteError, WriteResult, WriteWindow, Writer,
};

// More bytes than any allocator gives.
const TOO_MANY: usize = 1 << 62;

fn refused_length(answer: WriteResult<()>) -> Option<usize> {
    match answer {
        Err(WriteError::WriteSizeLimit(n)) => Some(n),
        _ => None,
    }
}

#[test]
fn a_writer_is_finished_once_each(rt: HostRuntime) -> Result<(), Fail> {
    let mut writer = Finishing::new(Vec::new(rt.alloc()));
    writer.write(&[1, 2])?;
    write_in_window(&mut writer, 4, &[3])?;
    let before = writer.finished();
    writer.finish()?;
    writer.finish()?;
    let after = (writer.finished(), writer.bytes());
    assert!(rt; (before, after) == (0, (2, [1u8, 2, 3].as_slice())));
    Ok(())
}

#[test]
fn slice_window(rt: HostRuntime) -> Result<(), Fail> {
    let mut slice = [0u8; 4];
    let mut writer = SliceWriter::new(&mut slice);
    let too_long = refused_length(writer.make_room(5));
    writer.make_room(3)?;
    let mut window = WriteWindow::new(&mut writer, 3);
    window.write(&[7, 8])?;
    let past_it = refused_length(window.write(&[9, 9]));
    window.finish()?;
    let after = (writer.written(), writer.room());
    assert!(rt; (too_long, past_it, after) == (Some(5), Some(2), ([7u8, 8].as_slice(), 2)));
    Ok(())
}

#[test]
fn refused_growth(rt: HostRuntime) -> Result<(), Fail> {
    let mut vector = vec![in rt.alloc(); 1u8, 2]?;
    let is_refused = matches!(&vector.make_room(TOO_MANY), Err(WriteError::OutOfMemory));
    assert!(rt; (is_refused, vector.as_slice()) == (true, [1u8, 2].as_slice()));
    Ok(())
}

/// Positions of a cursor, and how many bytes behind each are more than any allocator gives.
const PAST_MEMORY: [(usize, usize); 4] = [
    (0, TOO_MANY),
    (TOO_MANY, 1),
    (TOO_MANY * 2, 1),
    (usize::MAX - 1, 1),
];

#[test]
fn refused_growth_of_a_cursor(rt: HostRuntime) -> Result<(), Fail> {
    for (position, n) in PAST_MEMORY {
        let mut cursor = Cursor::new_at(vec![in rt.alloc(); 1u8, 2]?, position);
        let is_refused = matches!(&cursor.make_room(n), Err(WriteError::OutOfMemory));
        let after = cursor.position();
        let vector = cursor.into_inner();
        let wanted = (true, position, [1u8, 2].as_slice());
        assert!(rt; (is_refused, after, vector.as_slice()) == wanted);
    }
    Ok(())
}

#[test]
fn refused_growth_of_a_lent_vector(rt: HostRuntime) -> Result<(), Fail> {
    let mut vector = vec![in rt.alloc(); 1u8, 2]?;
    for (position, n) in PAST_MEMORY {
        let mut cursor = Cursor::new_at(&mut vector, position);
        let answer = write_in_window(&mut cursor, n, &[7]);
        let is_refused = matches!(&answer, Err(WriteError::OutOfMemory));
        let after = cursor.position();
        let wanted = (true, position, [1u8, 2].as_slice());
        assert!(rt; (is_refused, after, vector.as_slice()) == wanted);
    }
    Ok(())
}

#[test]
fn nothing_fails_in_a_window(rt: HostRuntime) -> Result<(), Fail> {
    let mut device = Counted::new(Vec::new(rt.alloc()), 1);
    write_within(&mut device, &[1], &[2], &[3, 4], 0)?;
    let before = device.failures();
    let is_first = matches!(&device.write(&[5]), Err(WriteError::Io(_)));
    let between = device.failures();
    let is_second = matches!(
        &write_in_window(&mut device, 2, &[5]),
        Err(WriteError::Io(_))
    );
    let counted = (before, between, device.failures());
    let wanted = (true, true, (0, 1, 2), [1u8, 2, 3, 4].as_slice());
    assert!(rt; (is_first, is_second, counted, device.bytes()) == wanted);
    Ok(())
}

#[test]
fn buffers_by_function(rt: HostRuntime) -> Result<(), Fail> {
    let mut slice = [0u8; 5];
    overwrite_front(&mut slice, &[1])?;
    overwrite_at(&mut slice, 1, &[2])?;
    let mut at = 2usize;
    overwrite_on(&mut slice, &mut at, &[3], &[4])?;
    assert!(rt; (slice, at) == ([1, 2, 3, 4, 0], 4));
    Ok(())
}

#[test]
fn a_vector_grows_by_function(rt: HostRuntime) -> Result<(), Fail> {
    let mut vector = vec![in rt.alloc(); 1u8]?;
    grow_at(&mut vector, 2, &[3])?;
    assert!(rt; vector.as_slice() == [1u8, 0, 3].as_slice());
    Ok(())
}

/// What a writer has room for before it needs memory; of one with a device none is known.
#[test]
fn room_is_at_hand(rt: HostRuntime) -> Result<(), Fail> {
    let mut vector: Vec<u8> = Vec::with_capacity(rt.alloc(), 9)?;
    let empty = vector.room_at_hand();
    vector.write(&[1, 2])?;
    let begun = vector.room_at_hand();
    vector.make_room(5)?;
    let mut window = WriteWindow::new(&mut vector, 5);
    window.write(&[3])?;
    let of_window = window.room_at_hand();
    assert!(rt; (empty, begun, of_window) == (9, 7, 4));
    Ok(())
}

/// So of cursors over nine bytes of memory, of which three are written.
#[test]
fn room_of_cursors_is_at_hand(rt: HostRuntime) -> Result<(), Fail> {
    let mut vector: Vec<u8> = Vec::with_capacity(rt.alloc(), 9)?;
    vector.write(&[1, 2, 3])?;
    let cursor = Cursor::new_at(vector, 4);
    let within = cursor.room_at_hand();
    let mut vector = cursor.into_inner();
    let past = Cursor::new_at(&mut vector, 10).room_at_hand();
    assert!(rt; (within, past) == (5, 0));
    Ok(())
}

/// So of slices.
#[test]
fn room_of_slices_is_at_hand(rt: HostRuntime) -> Result<(), Fail> {
    let mut slice = [0u8; 4];
    let mut writer = SliceWriter::new(&mut slice);
    writer.write(&[1])?;
    let of_slice = writer.room_at_hand();
    let mut at = 1usize;
    let of_trusted = TrustedSliceWriter::new(&mut slice, &mut at, 2).room_at_hand();
    let of_cursor = Cursor::new_at(&mut slice, 3).room_at_hand();
    let past = Cursor::new_at(slice.as_mut_slice(), 5).room_at_hand();
    assert!(rt; (of_slice, of_trusted, of_cursor, past) == (3, 2, 1, 0));
    Ok(())
}

#[test]
fn no_room_of_a_device_is_at_hand(rt: HostRuntime) {
    let device = Counted::new(Vec::new(rt.alloc()), 1);
    assert!(rt; device.room_at_hand() == 0);
}

//! An array made in the bytes where it lies, of items of which any may be missing.
ghost use Rattle.std.specs.Prelude.{◌≡◌, ◌≤◌, Option, length, MatchResult};
ghost use Rattle.std.specs.Bool.{MatchBool};
ghost use Rattle.std.specs.Mem.Slots.{slots_len, slots_items, slots_filled, SamePlaces, IsFull};
ghost use Rattle.std.specs.Mem.Slots.Ownership.{Filled};
ghost use Rattle.wincode_collect.specs.Calls.{GaveEach, Stops};

use core::slots::Slots;
use std::alloc::AllocError;
use std::mem::{ManuallyDrop, align_of};

/// Items one after another, of which any may be the first that is missing.
pub(crate) trait Fill<T> {
    // what a call may answer, and where it leads
    ghost gives: { Self → Option T → Self → Type 0 };

    fn next(&mut self) -> Option<T>
        ensures { gives self.old result self.new };
}

/// The next N items, in the bytes that a `None` of an array leaves free.
pub(crate) fn filled<T: Drop, F: Fill<T>, const N: usize>(f: &mut F) -> Result<[T; N], AllocError>
    requires { T }
    ensures { MatchResult result (λ ys. (length ys ≡ N) × GaveEach F.gives f.old ys f.new) (λ _. Stops F.gives f.old N f.new) }
{
    let mut room: Option<ManuallyDrop<[T; N]>> = None;
    let ptr = unsafe { (&raw mut room as *mut u8).add(align_of::<T>()) } as *mut T;
    let (row, is_full) = put_all(unsafe { Slots::from_raw_parts(ptr, N) }, f);
    let _parts = unsafe { row.into_raw_parts() };
    if is_full {
        Ok(unsafe { (ptr as *mut [T; N]).read() })
    } else {
        Err(AllocError)
    }
}

/// Fills the places in order. Where an item is missing, those before it are dropped.
fn put_all<T: Drop, F: Fill<T>>(mut row: Slots<T>, f: &mut F) -> (Slots<T>, bool)
    ensures places { SamePlaces row result.0 }
    ensures items { MatchBool result.1 (IsFull result.0 × GaveEach F.gives f.old (slots_items result.0) f.new) (Stops F.gives f.old (slots_len row) f.new) }
{
    let count = row.len();
    let mut i = 0;
    while i < count {
        match f.next() {
            Some(item) => row.put(i, item),
            None => {
                drop_first(&mut row, i);
                return (row, false);
            }
        }
        i += 1;
    }
    (row, true)
}

fn drop_first<T: Drop>(row: &mut Slots<T>, count: usize)
    requires { (count ≤ slots_len row.old) × Filled (slots_filled row.old) 0 count }
    ensures { SamePlaces row.old row.new }
{
    let mut i = 0;
    while i < count {
        drop(row.take(i));
        i += 1;
    }
}

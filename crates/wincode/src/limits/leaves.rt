//! Limits of what has no parts: texts alone have one, and bytes that are lent.
ghost use Rattle.std.specs.Prelude.{◌≡◌};

use crate::containers::Pod;
use crate::io::{SharedBytes, SliceView, View, ZeroCopy};
use crate::len::{BincodeLen, NO_LIMIT, PREALLOCATION_LIMIT, ShortU16};
use crate::limits::lists::list_is_within;
use crate::limits::{Limited, LimitedLen};
use std::borrow::CowStr;
use std::marker::PhantomData;
use wincode_write::schema::to_items::ToItems;

impl Limited for bool {
    fn counts() -> usize {
        1
    }

    fn has_no_limits() -> bool {
        true
    }

    fn is_within(_src: &bool) -> bool {
        true
    }
}

impl Limited for () {
    fn counts() -> usize {
        1
    }

    fn has_no_limits() -> bool {
        true
    }

    fn is_within(_src: &()) -> bool {
        true
    }
}

impl<T> Limited for PhantomData<T> {
    fn counts() -> usize {
        1
    }

    fn has_no_limits() -> bool {
        true
    }

    fn is_within(_src: &PhantomData<T>) -> bool {
        true
    }
}

impl Limited for char {
    fn counts() -> usize {
        4
    }

    fn has_no_limits() -> bool {
        true
    }

    fn is_within(_src: &char) -> bool {
        true
    }
}

impl Limited for ShortU16 {
    fn counts() -> usize {
        2
    }

    fn has_no_limits() -> bool {
        true
    }

    fn is_within(_src: &ShortU16) -> bool {
        true
    }
}

impl Limited for String {
    fn counts() -> usize {
        24
    }

    fn has_no_limits() -> bool {
        false
    }

    fn is_within(src: &String) -> bool {
        src.len() <= PREALLOCATION_LIMIT
    }
}

impl<'s> Limited for CowStr<'s> {
    fn counts() -> usize
        ensures { result ≡ 24 }
    {
        24
    }

    fn is_within(src: &CowStr<'s>) -> bool {
        src.as_str().len() <= PREALLOCATION_LIMIT
    }
}

impl<'a> Limited for &'a str {
    fn counts() -> usize
        ensures { result ≡ 16 }
    {
        16
    }

    fn is_within(src: &&'a str) -> bool {
        src.len() <= PREALLOCATION_LIMIT
    }
}

impl<'a> Limited for &'a [u8] {
    fn counts() -> usize
        ensures { result ≡ 16 }
    {
        16
    }

    fn is_within(src: &&'a [u8]) -> bool {
        list_is_within::<BincodeLen<NO_LIMIT>, u8, &[u8]>(src)
    }
}

impl<T: ZeroCopy> Limited for Pod<T> {
    fn counts() -> usize {
        match T::form_size() {
            Some(size) => size.max(1),
            None => usize::MAX,
        }
    }

    fn has_no_limits() -> bool {
        true
    }

    fn is_within(_src: &T) -> bool {
        true
    }
}

impl<B: SharedBytes, T: ZeroCopy> Limited for View<B, T> {
    fn counts() -> usize {
        8
    }

    fn has_no_limits() -> bool {
        true
    }

    fn is_within(_src: &View<B, T>) -> bool {
        true
    }
}

impl<B: SharedBytes, T: ZeroCopy> Limited for SliceView<B, T> {
    fn counts() -> usize {
        16
    }

    fn has_no_limits() -> bool {
        false
    }

    fn is_within(src: &SliceView<B, T>) -> bool {
        let count = ToItems::<Pod<T>>::count(src);
        match T::form_size() {
            Some(size) => BincodeLen::<NO_LIMIT>::admits(count, size.max(1)),
            None => count == 0,
        }
    }
}

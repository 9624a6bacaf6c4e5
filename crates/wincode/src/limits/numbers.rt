//! Written by `tools/templates`: limits of integers, which have none.
use crate::limits::Limited;

impl Limited for u8 {
    fn counts() -> usize {
        1
    }

    fn has_no_limits() -> bool {
        true
    }

    fn is_within(_src: &u8) -> bool {
        true
    }
}

impl Limited for u16 {
    fn counts() -> usize {
        2
    }

    fn has_no_limits() -> bool {
        true
    }

    fn is_within(_src: &u16) -> bool {
        true
    }
}

impl Limited for u32 {
    fn counts() -> usize {
        4
    }

    fn has_no_limits() -> bool {
        true
    }

    fn is_within(_src: &u32) -> bool {
        true
    }
}

impl Limited for u64 {
    fn counts() -> usize {
        8
    }

    fn has_no_limits() -> bool {
        true
    }

    fn is_within(_src: &u64) -> bool {
        true
    }
}

impl Limited for u128 {
    fn counts() -> usize {
        16
    }

    fn has_no_limits() -> bool {
        true
    }

    fn is_within(_src: &u128) -> bool {
        true
    }
}

impl Limited for usize {
    fn counts() -> usize {
        8
    }

    fn has_no_limits() -> bool {
        true
    }

    fn is_within(_src: &usize) -> bool {
        true
    }
}

impl Limited for i8 {
    fn counts() -> usize {
        1
    }

    fn has_no_limits() -> bool {
        true
    }

    fn is_within(_src: &i8) -> bool {
        true
    }
}

impl Limited for i16 {
    fn counts() -> usize {
        2
    }

    fn has_no_limits() -> bool {
        true
    }

    fn is_within(_src: &i16) -> bool {
        true
    }
}

impl Limited for i32 {
    fn counts() -> usize {
        4
    }

    fn has_no_limits() -> bool {
        true
    }

    fn is_within(_src: &i32) -> bool {
        true
    }
}

impl Limited for i64 {
    fn counts() -> usize {
        8
    }

    fn has_no_limits() -> bool {
        true
    }

    fn is_within(_src: &i64) -> bool {
        true
    }
}

impl Limited for i128 {
    fn counts() -> usize {
        16
    }

    fn has_no_limits() -> bool {
        true
    }

    fn is_within(_src: &i128) -> bool {
        true
    }
}

impl Limited for isize {
    fn counts() -> usize {
        8
    }

    fn has_no_limits() -> bool {
        true
    }

    fn is_within(_src: &isize) -> bool {
        true
    }
}

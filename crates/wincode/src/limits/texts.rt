//! Written by `tools/templates`: limits of texts.
use crate::len::PREALLOCATION_LIMIT;
use crate::limits::Limited;
use std::boxed::BoxedStr;
use std::path::PathBuf;
use std::rc::RcStr;
use std::sync::ArcStr;

impl Limited for BoxedStr {
    fn counts() -> usize {
        24
    }

    fn has_no_limits() -> bool {
        false
    }

    fn is_within(src: &BoxedStr) -> bool {
        src.as_str().len() <= PREALLOCATION_LIMIT
    }
}

impl Limited for PathBuf {
    fn counts() -> usize {
        24
    }

    fn has_no_limits() -> bool {
        false
    }

    fn is_within(src: &PathBuf) -> bool {
        src.to_string_lossy().len() <= PREALLOCATION_LIMIT
    }
}

impl Limited for RcStr {
    fn counts() -> usize {
        8
    }

    fn has_no_limits() -> bool {
        false
    }

    fn is_within(src: &RcStr) -> bool {
        src.as_str().len() <= PREALLOCATION_LIMIT
    }
}

impl Limited for ArcStr {
    fn counts() -> usize {
        8
    }

    fn has_no_limits() -> bool {
        false
    }

    fn is_within(src: &ArcStr) -> bool {
        src.as_str().len() <= PREALLOCATION_LIMIT
    }
}

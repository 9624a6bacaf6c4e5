//! Limits of what has a part or more, that are those of its parts.
use crate::containers::{self, Elem};
use crate::limits::Limited;
use crate::limits::lists::AllWithin;
use crate::schema::tuples::Members2;
use crate::tag::TagCode;
use std::ops::Bound;
use std::rc::Rc;
use std::sync::Arc;

impl<T: Limited> Limited for Box<T> {
    fn counts() -> usize {
        8
    }

    fn has_no_limits() -> bool {
        T::has_no_limits()
    }

    fn is_within(src: &Box<T::Src>) -> bool {
        T::is_within(src.as_ref())
    }
}

impl<T: Limited> Limited for Rc<T> {
    fn counts() -> usize {
        8
    }

    fn has_no_limits() -> bool {
        T::has_no_limits()
    }

    fn is_within(src: &Rc<T::Src>) -> bool {
        T::is_within(src.as_ref())
    }
}

impl<T: Limited> Limited for Arc<T> {
    fn counts() -> usize {
        8
    }

    fn has_no_limits() -> bool {
        T::has_no_limits()
    }

    fn is_within(src: &Arc<T::Src>) -> bool {
        T::is_within(src.as_ref())
    }
}

impl<T: Limited> Limited for Elem<T> {
    fn counts() -> usize {
        T::counts()
    }

    fn has_no_limits() -> bool {
        T::has_no_limits()
    }

    fn is_within(src: &T::Src) -> bool {
        T::is_within(src)
    }
}

impl<T: Limited> Limited for Option<T> {
    fn counts() -> usize {
        T::counts()
    }

    fn has_no_limits() -> bool {
        T::has_no_limits()
    }

    fn is_within(src: &Option<T::Src>) -> bool {
        match src {
            None => true,
            Some(part) => T::is_within(part),
        }
    }
}

impl<T: Limited> Limited for Bound<T> {
    fn counts() -> usize {
        T::counts()
    }

    fn has_no_limits() -> bool {
        T::has_no_limits()
    }

    fn is_within(src: &Bound<T::Src>) -> bool {
        match src {
            Bound::Unbounded => true,
            Bound::Included(value) => T::is_within(value),
            Bound::Excluded(value) => T::is_within(value),
        }
    }
}

impl<T: Limited, E: Limited> Limited for Result<T, E> {
    fn counts() -> usize {
        T::counts().max(E::counts())
    }

    fn has_no_limits() -> bool {
        T::has_no_limits() && E::has_no_limits()
    }

    fn is_within(src: &Result<T::Src, E::Src>) -> bool {
        match src {
            Ok(value) => T::is_within(value),
            Err(error) => E::is_within(error),
        }
    }
}

impl<T: Limited, Tag: TagCode> Limited for containers::Option<T, Tag> {
    fn counts() -> usize {
        T::counts()
    }

    fn has_no_limits() -> bool {
        T::has_no_limits()
    }

    fn is_within(src: &Option<T::Src>) -> bool {
        <Option<T> as Limited>::is_within(src)
    }
}

impl<T: Limited, E: Limited, Tag: TagCode> Limited for containers::Result<T, E, Tag> {
    fn counts() -> usize {
        <Result<T, E> as Limited>::counts()
    }

    fn has_no_limits() -> bool {
        <Result<T, E> as Limited>::has_no_limits()
    }

    fn is_within(src: &Result<T::Src, E::Src>) -> bool {
        <Result<T, E> as Limited>::is_within(src)
    }
}

impl<T: Limited, const N: usize> Limited for [T; N] {
    fn counts() -> usize {
        N.saturating_mul(T::counts()).max(1)
    }

    fn has_no_limits() -> bool {
        T::has_no_limits()
    }

    fn is_within(src: &[T::Src; N]) -> bool {
        if T::has_no_limits() {
            return true;
        }
        AllWithin::<T>::all_within(&src.as_slice())
    }
}

impl<A: Limited, B: Limited> Limited for Members2<A, B> {
    fn counts() -> usize {
        A::counts().saturating_add(B::counts())
    }

    fn has_no_limits() -> bool {
        A::has_no_limits() && B::has_no_limits()
    }

    fn is_within(src: &(A::Src, B::Src)) -> bool {
        A::is_within(&src.0) && B::is_within(&src.1)
    }
}

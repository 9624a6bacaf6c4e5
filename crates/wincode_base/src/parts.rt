//! What stands for a schema and holds no value: members of a tuple, items of an array, a value as its form.

use std::marker::PhantomData;
use wincode_io::ZeroCopy;

/// The schema of N items that goes item by item, through no window.
pub struct Items<T, const N: usize> {
    of: PhantomData<T>,
}

/// Two members, one after the other, through no window of their own. More are pairs in pairs.
pub struct Members2<A, B>(PhantomData<(A, B)>);

/// A member, which is written by reference.
pub struct Member<T>(PhantomData<T>);

pub type Members3<A, B, C> = Members2<A, Members2<B, C>>;

pub type Members4<A, B, C, D> = Members2<A, Members3<B, C, D>>;

pub type Members5<A, B, C, D, E> = Members2<A, Members4<B, C, D, E>>;

pub type Members6<A, B, C, D, E, F> = Members2<A, Members5<B, C, D, E, F>>;

pub type Members7<A, B, C, D, E, F, G> = Members2<A, Members6<B, C, D, E, F, G>>;

pub type Members8<A, B, C, D, E, F, G, H> = Members2<A, Members7<B, C, D, E, F, G, H>>;

pub type Members9<A, B, C, D, E, F, G, H, I> = Members2<A, Members8<B, C, D, E, F, G, H, I>>;

pub type Members10<A, B, C, D, E, F, G, H, I, J> = Members2<A, Members9<B, C, D, E, F, G, H, I, J>>;

pub type Members11<A, B, C, D, E, F, G, H, I, J, K> = Members2<
    A,
    Members10<B, C, D, E, F, G, H, I, J, K>,
>;

pub type Members12<A, B, C, D, E, F, G, H, I, J, K, M> = Members2<
    A,
    Members11<B, C, D, E, F, G, H, I, J, K, M>,
>;

/// A value as its form. A form whose size is past `usize::MAX` is refused as of a size of `usize::MAX`.
pub struct Pod<T: ZeroCopy>(PhantomData<T>);

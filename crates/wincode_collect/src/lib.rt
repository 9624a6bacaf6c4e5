//! Many items put together: arrays of any length, made item by item from a source that may fail, and collections that
//! are made of a list, one item after another.
//!
//! - `array`: an array in the bytes where it lies. It is the one module of the library that walks over a raw pointer,
//!   with a proof by hand.
//! - `gather`: `Gather`, by which queues, lists, heaps, maps and sets are made of a list.
//!
//! What a map, a set or a heap is after so many items is said by `specs/Collections.antt`.
#![tactic(auto)]

mod array;
mod gather;

pub use array::{ItemSource, Sourced, array_of};
pub use gather::Gather;

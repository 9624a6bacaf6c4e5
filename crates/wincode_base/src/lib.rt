//! What reading and writing share: errors, length and tag schemes, sizes of schemas, and the definitions that the
//! contracts of both cite.
//!
//! - `error`: why a value is not read or not written.
//! - `len`, `tag`: how the lengths of lists and the tags of enums are read and written; a scheme of one's own is an
//!   implementation of `SeqLen` or `TagCode`.
//! - `meta`, `sizes`: the size that all values of a type have, and that of a whole by those of its parts.
//! - `parts`: what stands for members, items and forms, and holds no value.
//! - `reader`, `front`: a few bytes taken from a reader, or put over the front of others.
//!
//! The grammars of all schemas and their laws stand in `specs/`: begin with `Grammar` and `Outcomes`.
#![tactic(auto)]

pub mod error;
pub mod front;
pub mod len;
pub mod meta;
pub mod parts;
pub mod reader;
pub mod sizes;
pub mod tag;

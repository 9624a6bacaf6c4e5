//! Values to bytes and back, in the default layout of bincode 1:
//!
//! ```
//! let bytes = serialize(alloc, &numbers)?;
//! let again: Vec<u64> = deserialize(alloc, &bytes)?;
//! ```
//!
//! - `serialize`, `deserialize` and their like are the calls; `serde` has them as methods of every schema.
//! - `schema`, `len`, `tag`, `meta`, `error`, `io`: what schemas are made of, and what is read from and written to.
//! - `containers`: lists with a length scheme of choice, options and results with a tag of choice, and more.
//! - `messages`: the values of a file, a pipe or a socket, one after another; `logs`: how a log is gone on with that was cut.
//! - `exact`: why bytes are not exactly one value.
//! - `limits`: values that are written where they read back.
//! - `markers`: `RoundTrip`, `OneText`, `SchemaReadOwned`, which a generic call may ask for.
//! - `rewriting`: `rewrite` and `copy_front`, two calls that ask for them.
//! - `shape`: a type that is read and written as another.
//! - `laws`: edits of values in a buffer.
//!
//! `use wincode::prelude::*` brings what most programs need. docs/USING.md says which call to take, and has recipes.
#![tactic(auto)]

mod calls;
pub mod containers;
pub mod len;
pub mod limits;
pub mod logs;
pub mod markers;
pub mod messages;
pub mod prelude;
pub mod rewriting;
pub mod schema;
pub mod serde;
pub mod shape;
pub mod tag;

/// The version of this library, as CHANGELOG.md has it.
pub const VERSION: &str = "0.1.0";

pub use calls::{
    deserialize, deserialize_exact, deserialize_from, deserialize_mut, serialize, serialize_into,
    serialize_limited, serialized_size,
};
pub use limits::{LimitError, Limited, LimitedLen, LimitedShape};
pub use logs::{append_message, whole_length};
pub use markers::{OneText, RoundTrip, SchemaReadOwned};
pub use messages::Messages;
pub use rewriting::{copy_front, rewrite};
pub use shape::{By, Shape};
pub use wincode_base::error::{Error, ReadError, ReadResult, Result, WriteError, WriteResult};
pub use wincode_base::meta::TypeMeta;
pub use wincode_base::tag::{TagCode, read_tag};
pub use wincode_base::{error, meta};
pub use wincode_io as io;
pub use wincode_io::ZeroCopy;
pub use wincode_read::{Key, SchemaGet, SchemaRead, Told};
pub use wincode_serde::exact::ExactError;
pub use wincode_serde::{exact, laws};
pub use wincode_write::{SchemaWrite, write_tag};

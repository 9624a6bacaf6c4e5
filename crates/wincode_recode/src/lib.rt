//! A value read from an input and written again to an output, as one of five shapes: what `wincode_show SHAPE` and
//! `wincode_show relay --stream SHAPE` do.
//!
//! - `recoding`: the shapes, and bytes in memory recoded.
//! - `relaying`: all of an input recoded, and written to an output.
//! - `passing`: values passed on from a reader to a writer, one after another.
//! - `streaming`: a source relayed as it comes.
#![tactic(auto)]

mod passing;
mod recoding;
mod relaying;
mod streaming;

pub use recoding::{KnownShape, RelayError, recode, recode_as, recode_input};
pub use relaying::{gather, relay};
pub use streaming::relay_stream;

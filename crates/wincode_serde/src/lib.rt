//! The calls of every schema that need no more than its trait: a value to bytes and back, and edits in a buffer.
//!
//! - `serde`: `Serialize` and `Deserialize`, methods of every schema.
//! - `exact`: why bytes are not exactly one value.
//! - `laws`: edits of values where they stand.
#![tactic(auto)]

pub mod exact;
pub mod laws;
pub mod serde;

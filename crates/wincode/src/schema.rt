//! Schemas: how values of a type are read and written.
pub mod tuples;

pub use crate::markers::RoundTrip;
pub use wincode_read::{SchemaGet, SchemaRead};
pub use wincode_write::SchemaWrite;

//! How the tag is written and read that says which case of a value stands behind it.
pub use wincode_base::tag::{TagCode, read_tag};
pub use wincode_write::tag::write_tag;

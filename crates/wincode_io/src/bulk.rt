//! Many values at once: from bytes to a list, and from a list to a writer.
mod reading;
mod writing;

pub use reading::{add_bytes, add_forms};
pub use writing::write_forms;

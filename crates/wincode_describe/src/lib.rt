//! Types as values, by which bytes of any type are read, checked and explained.
//!
//! - `described`: `Described`, a type; `parsing` and `printing` have its text, `declared` what a source declares.
//! - `reading`, `windows`: a value of a described type read part by part, from any reader.
//! - `shown`, `sink`, `parts`, `spans`: the parts, where they go, their bytes, and where each stands.
//! - `explaining`, `streaming`: the parts of bytes in memory, or of bytes as they come.
//! - `lines`, `places`: what is printed of them; `line_printer`, `upcoming`: so, each line as its part comes.
//! - `comparing`, `likeness`, `differing`: two types compared; what is known of them, and where they differ.
//!
//! The grammar of a described type is made of those of the schemas: `specs/Types.antt`.
#![tactic(auto)]

pub mod comparing;
mod declared;
pub mod described;
pub mod differing;
pub mod error;
pub mod explaining;
mod leaves;
pub mod likeness;
mod line_printer;
pub mod lines;
pub mod parsing;
pub mod parts;
mod places;
mod printing;
pub mod reading;
pub mod shown;
pub mod sink;
mod sizes;
pub mod spans;
pub mod streaming;
mod tokens;
mod upcoming;
mod windows;

pub use comparing::{Answer, Comparison, are_same_parts, compare, compared_lines};
pub use described::Described;
pub use differing::{Change, ChangeKind};
pub use error::{DescribeError, DescribeResult};
pub use explaining::{Checked, Explained, check, check_read, explain, explain_read};
pub use line_printer::{PrintError, print_source_lines};
pub use lines::{
    TYPES, checked_line, checked_source_line, explained_lines, explained_source_lines,
};
pub use parts::part_size;
pub use reading::{read_described, show_parts};
pub use shown::Shown;
pub use sink::{PartSink, PartsSize};
pub use sizes::{prealloc_size, type_meta};
pub use streaming::{bytes_left, explain_source};

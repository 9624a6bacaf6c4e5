//! Schemas of structs and enums, written out from their declarations, as text.
//!
//! - `tokens`, `notes`, `groups`: a source file as tokens, its comment lines and its brackets.
//! - `parsing`, `heads`, `types`, `imports`, `needs`, `declarations`: what it declares.
//! - `error`, `report`, `showing`: what is refused, where it stands, and how it is said.
//! - `structs`, `enums`, `parts`, `lent`: the templates.
//! - `names`: what the module calls the file's own names that are the same as its own.
//! - `laws`, `inside`: the law of a generic type, put together of those of its parts.
//! - `module`, `answers`: the whole module `schemas`, and the lines of proofs that it leaves.
//! - `printing`: text in the layout of `rt fmt`.
//!
//! `wincode_derive` is the program. What is written stands on `wincode_derive_support`.
#![tactic(auto)]

mod answers;
mod declarations;
mod enums;
pub mod error;
mod groups;
mod heads;
mod imports;
mod inside;
mod laws;
mod lent;
mod module;
mod names;
mod needs;
mod notes;
mod parsing;
mod parts;
mod printing;
mod report;
mod showing;
mod structs;
mod tokens;
mod types;

pub use answers::{Answers, answers_of};
pub use declarations::{Declaration, DeclaredShape, Field, Fields, Generics, Naming, Variant};
pub use error::{DeriveError, DeriveResult, Fault, Faults, Spot};
pub use module::module_of;
pub use notes::{Note, note_of};
pub use parsing::{declarations_of, has_schemas};
pub use showing::shown;
pub use tokens::{Kind, Token, tokens_of};

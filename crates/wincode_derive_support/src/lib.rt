//! What schemas of structs and enums stand on that are written out from their declarations, by `wincode_derive` or by
//! hand.
//!
//! - `sums`: one of several cases behind its tag.
//! - `splits`: cases in two parts, for enums of many.
//! - `enums`: an enum as one of its cases, sized and written by reference.
//! - `laws`, `keys`: the laws of reading, and of keys of maps, where another schema can name them.
//! - `lent`: structs with borrowed fields.
#![tactic(auto)]

pub mod enums;
pub mod keys;
pub mod laws;
pub mod lent;
pub mod splits;
pub mod sums;

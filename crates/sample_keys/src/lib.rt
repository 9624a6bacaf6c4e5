//! Structs and enums that are keys of maps, maps of them, small ones and ones of borrowed fields, with the schemas that
//! `wincode_derive` wrote of their declarations.
#![tactic(auto)]

pub mod kinds;
pub mod label;
pub mod marks;

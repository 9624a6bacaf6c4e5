//! Structs and enums of one another, generic ones, and ones of many fields and of many cases, with the schemas that
//! `wincode_derive` wrote of their declarations.
#![tactic(auto)]

pub mod answers;
pub mod bank;
pub mod machine;
pub mod note;
pub mod pages;
pub mod report;
pub mod shapes;
pub mod signal;
pub mod weather;

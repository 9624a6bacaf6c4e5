//! How values of a type are read.
//!
//! - `schema`: the traits `SchemaRead` and `SchemaGet`; its modules have the schemas of std's types, by kind.
//! - `schema::from_items`: what every list, map and set is read by.
//! - `schema::at_hand`, `schema::in_window`: what has one size is read from the bytes that are there, or through one
//!   window.
//! - `schema::tuples`, `schema::leaves`: `tools/templates` writes most of these.
//! - `keys`: what keys of maps and items of heaps keep beyond their schemas.
//!
//! A schema says what it reads by its grammar, `reading`, which is made of the combinators of `wincode_base`.
#![tactic(auto)]

mod keys;
pub mod schema;

pub use keys::{Key, Told};
pub use schema::{SchemaGet, SchemaRead};

//! How values of a type are written.
//!
//! - `schema`: the trait `SchemaWrite`; its modules have the schemas of std's types, by kind.
//! - `schema::to_items`: what every list, map and set is written by.
//! - `schema::runs`, `schema::encoded`: what is put together beforehand, and then written by one call of the writer.
//! - `schema::in_window`: what has one size goes through one window of it.
//! - `schema::tuples`, `schema::leaves`: `tools/templates` writes most of these.
//! - `tag`: `write_tag`.
//!
//! A schema says what it writes by its grammar, `writing`, which is made of the combinators of `wincode_base`.
#![tactic(auto)]

pub mod schema;
pub mod tag;

pub use schema::SchemaWrite;
pub use tag::write_tag;

//! A C interface to the inspector: bytes of any described type, checked before another program's reader sees them.
//!
//! - `exports`: what other programs call.
//! - `report`: what a call found; `refusals`, `messages`: the numbers of refusals, and their texts.
//! - `typed`: the type that a text describes.
//! - `checking`: bytes read by a type, of which the parts are counted; `depths`: in how many items a refused part stands;
//!   `explaining`, `pages`: their lines, as many as fit.
#![tactic(auto)]

mod checking;
mod depths;
mod explaining;
pub mod exports;
mod messages;
mod pages;
mod refusals;
pub mod report;
#[cfg(test)]
mod tests;
mod typed;

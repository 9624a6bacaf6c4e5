//! Recipes, schemas of a user's own, from declarations and by shape, byte forms, values read from streams, and devices
//! that fail.
#![tactic(auto)]

pub mod both;
pub mod change;
pub mod entry;
pub mod event;
pub mod faults;
pub mod forms;
pub mod front;
pub mod label;
pub mod limits;
pub mod message;
pub mod recipes;
pub mod transfer;
pub mod turn;

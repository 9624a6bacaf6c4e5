//! Uses of the readers and writers of `wincode_io`, with what they leave.
#![tactic(auto)]

pub mod counted;
pub mod digits;
pub mod few;
pub mod readers;
pub mod writers;

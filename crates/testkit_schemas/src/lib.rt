//! Schemas, a key and a length scheme of a caller's own, by the contracts of `wincode` alone, and what tests
//! share.
#![tactic(auto)]

pub mod asked;
pub mod block;
pub mod byte_len;
pub mod refusing;
pub mod rows;
pub mod single;
pub mod square;

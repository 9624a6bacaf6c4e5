//! A struct of more fields than a tuple has, of many kinds: what other modules declare among them, and structs with
//! type parameters.
mod schemas;

use crate::note::Note;
use crate::pages::{Alone, Page, Pair};
use crate::signal::Signal;

/// What was sent, and what became of it.
#[derive(Debug, Drop)]
pub struct Report {
    pub number: u32,
    pub title: String,
    pub notes: Vec<Note>,
    pub signal: Box<Signal>,
    pub outcome: Result<u8, String>,
    pub place: (i32, i32),
    pub seal: [u8; 4],
    pub letter: char,
    pub weight: usize,
    pub pages: Vec<Page<u16>>,
    pub pair: Pair<u8, Alone<bool>>,
    pub is_open: bool,
    pub begun: u32,
    pub ended: u32,
}

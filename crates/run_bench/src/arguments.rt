//! What the program is asked for by its arguments.
use crate::timing::Failure;
use std::env;
use std::rt::Env;

/// Which cases are to be timed.
#[derive(Drop)]
pub struct Asked {
    words: Vec<String>,
    first: u64,
}

impl Asked {
    /// Whether a case of this name is to be timed: where no words were given, each is.
    pub fn has(&self, name: &str) -> bool {
        self.words.is_empty() || self.words.iter().any(|word| name.contains(word.as_str()))
    }

    /// The first of the numbers that values are made of. It is the number of the words, which no compiler knows.
    pub fn first(&self) -> u64 {
        self.first
    }
}

/// Whether one of the arguments is this word.
pub fn is_asked(rt: &(impl Env + AllocGlobal), word: &str) -> Result<bool, Failure> {
    for argument in env::args(rt)?.skip(1) {
        if argument.as_str() == word {
            return Ok(true);
        }
    }
    Ok(false)
}

/// The words beside `--time`; `None` where no argument is `--time`.
pub fn asked_by(rt: &(impl Env + AllocGlobal)) -> Result<Option<Asked>, Failure> {
    let mut words = Vec::new(rt.alloc());
    let mut is_timed = false;
    for word in env::args(rt)?.skip(1) {
        if word.as_str() == "--time" {
            is_timed = true;
        } else {
            words.push(word)?;
        }
    }
    if !is_timed {
        return Ok(None);
    }
    let first = words.len() as u64;
    Ok(Some(Asked { words, first }))
}

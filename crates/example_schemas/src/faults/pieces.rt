//! A source of pieces that are given.
ghost use Rattle.std.specs.Prelude.{◌≡◌, ℕ, ◌<◌, true, [], ◌++◌, List, MatchOption, vec_len};
ghost use Rattle.wincode_io.specs.Sources.{SourceState};
ghost use Rattle.example_schemas.specs.Pieces.{joined, kind_of};

use std::alloc::Global;
use std::collections::VecDeque;
use std::io::{self, ErrorKind, Read};
use std::marker::Model;
use wincode::io::Source;

/// Gives its pieces in order, without the empty ones, and cuts one that is longer than the buffer.
/// After the last it ends, or fails each time with a kind of the caller's. The count of its failures stays at `usize::MAX`.
#[derive(Drop)]
pub struct Pieces {
    piece: Vec<u8>,
    place: usize,
    later: VecDeque<Vec<u8>>,
    fails: Option<ErrorKind>,
    failures: usize,
}

impl Model for Pieces {
    ghost use Rattle.std.specs.Prelude.{◌≤◌, Option, true, drop, ◌++◌, vec_len};
    ghost use Rattle.std.specs.declared.io.ErrorKind.{ErrorKind};
    ghost use Rattle.wincode_io.specs.Sources.{SourceState};
    ghost use Rattle.example_schemas.specs.Pieces.{joined, kind_of};

    ghost Value = { SourceState × Option ErrorKind };

    // The bytes that are left, and whether it fails behind them.
    ghost view = { λ p. (record { coming = drop p.place p.piece.items ++ joined p.later.items; failures = p.failures; last = kind_of p.fails; is_known = true }, p.fails) };

    ghost invariant = { λ p. p.place ≤ vec_len p.piece };
}

impl Pieces {
    /// A source of these pieces, which has not failed, and which ends behind them, or fails with this kind.
    pub fn new(alloc: Global, pieces: Vec<Vec<u8>>, fails: Option<ErrorKind>) -> Pieces
        ensures { result ≡ (record { coming = joined pieces.items; failures = 0; last = kind_of fails; is_known = true }, fails) }
    {
        Pieces {
            piece: Vec::new(alloc),
            place: 0,
            later: VecDeque::from_vec(pieces),
            fails,
            failures: 0,
        }
    }
}

impl Source for Pieces {
    ghost state = { λ p. p.0 };

    fn read_some(&mut self, buf: &mut [u8]) -> io::Result<usize> {
        if buf.is_empty() {
            return Ok(0);
        }
        if self.place == self.piece.len() {
            match next_piece(&mut self.later) {
                Some(piece) => {
                    self.piece = piece;
                    self.place = 0;
                }
                None => {
                    let Some(kind) = self.fails else {
                        return Ok(0);
                    };
                    self.failures = self.failures.saturating_add(1);
                    return Err(io::Error::from(kind));
                }
            }
        }
        let place = self.place;
        let piece = self.piece.as_slice();
        let mut left = &piece[place..];
        let n = left.read(buf)?;
        self.place = place + n;
        Ok(n)
    }
}

/// The next piece that isn't empty, with none of those before it left.
fn next_piece(later: &mut VecDeque<Vec<u8>>) -> Option<Vec<u8>>
    ensures { MatchOption result ((joined later.old.items ≡ []) × (joined later.new.items ≡ [])) (λ v. (joined later.old.items ≡ v.items ++ joined later.new.items) × (0 < vec_len v)) }
{
    while let Some(piece) = later.pop_front() {
        if !piece.is_empty() {
            return Some(piece);
        }
    }
    None
}

//! A type that is read and written as another, by its shape: it has no grammar and no law of its own.
ghost use Rattle.std.specs.Prelude.{◌≡◌, true, false, refl};
ghost use Rattle.std.proofs.lemmas.Bool.{true≢false, false≢true};
ghost use Rattle.example_schemas.specs.declared.turn.Turn.TheVariants.{Left, Right};

use wincode::io::Writer;
use wincode::{SchemaWrite, Shape, WriteResult};

/// Which way to go on.
#[derive(Debug, Clone, Copy, PartialEq)]
pub enum Turn {
    Left,
    Right,
}

impl Turn {
    /// The flag that stands for it, which is set for the right.
    fn flag(self) -> bool
        ensures { result ≡ ⟦<Turn as Shape>⟧.parts self }
    {
        match self {
            Turn::Left => false,
            Turn::Right => true,
        }
    }
}

impl Shape for Turn {
    type Parts = bool;

    type As = bool;

    ghost parts = { elim [ Left ↦ false | Right ↦ true ] };

    ghost parts_tell = { elim [
      | Left ↦ elim [ Left ↦ λ same. refl | Right ↦ λ same. absurd (false≢true same) ]
      | Right ↦ elim [ Left ↦ λ same. absurd (true≢false same) | Right ↦ λ same. refl ]
    ] };

    fn make(made_of: bool) -> Turn {
        if made_of { Turn::Right } else { Turn::Left }
    }

    fn parts_size(&self) -> WriteResult<usize> {
        <bool as SchemaWrite>::size_of(&self.flag())
    }

    fn write_parts<W: Writer>(&self, writer: &mut W) -> WriteResult<()> {
        <bool as SchemaWrite>::write::<W>(writer, &self.flag())
    }

    fn encode_parts(&self, dst: &mut [u8]) -> Option<usize> {
        <bool as SchemaWrite>::encode_front(&self.flag(), dst)
    }
}

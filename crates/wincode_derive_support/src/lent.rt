//! Structs with borrowed fields as schemas.
ghost use Rattle.std.specs.Prelude.{◌≡◌};

use wincode::SchemaRead;
use wincode::io::Lending;

/// A lender of a struct with borrowed fields. `T` says which struct: it is the one at the lifetime `'static`, since a
/// bound may name no other. So `Label<'s>` has a schema for every such lender, as `&'s str` has, and is read as what
/// that one lends: of `Lifetime<'a>` a `Label<'a>`.
pub trait Lends<T>: Lending {
    /// The struct, with what is lent in it.
    type Lent: Drop;

    /// Its fields.
    type Parts: Drop;

    /// The schema of its fields.
    type As: SchemaRead<Self, Dst = Self::Parts>;

    ghost parts: { Self.Lent → Self.Parts };

    /// The struct that these are the fields of.
    fn make(made_of: Self::Parts) -> Self::Lent
        ensures { parts result ≡ made_of };
}

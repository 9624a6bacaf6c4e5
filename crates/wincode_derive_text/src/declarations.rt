//! What a source file declares.
use crate::error::Spot;

/// A field: its name, or its place in a tuple, and its schema.
#[derive(Debug, Drop)]
pub struct Field {
    pub name: String,
    /// The type that is declared.
    pub value: String,
    /// The schema: what `with` says, or the type.
    pub schema: String,
    /// Whether it holds nothing, and names parameters alone: its type and its schema are then `()`.
    pub is_phantom: bool,
    /// Where its schema stands, or its type.
    pub spot: Spot,
}

/// How fields are named.
#[derive(Debug, Clone, Copy, PartialEq)]
pub enum Naming {
    /// `{ a: A }`
    Named,
    /// `(A)`
    Numbered,
    /// None at all.
    Unit,
}

/// The fields of a struct or of a case.
#[derive(Debug, Drop)]
pub struct Fields {
    pub naming: Naming,
    pub fields: Vec<Field>,
}

/// A case of an enum.
#[derive(Debug, Drop)]
pub struct Variant {
    pub name: String,
    pub tag: usize,
    pub fields: Fields,
}

/// What a type is declared over.
#[derive(Debug, Drop)]
pub struct Generics {
    /// The lifetime that it names, if it names one.
    pub lifetime: Option<String>,
    /// Its type parameters.
    pub parameters: Vec<String>,
}

impl Generics {
    /// Whether it is declared over nothing.
    pub fn is_none(&self) -> bool {
        self.lifetime.is_none() && self.parameters.is_empty()
    }
}

/// A struct or an enum.
#[derive(Debug, Drop)]
pub struct Declaration {
    pub name: String,
    /// What it is declared over.
    pub generics: Generics,
    /// The type that it is the schema of, where that is another one: what `from` says.
    pub from: Option<String>,
    pub shape: DeclaredShape,
    /// Whether it derives `Eq`.
    pub is_eq: bool,
    /// Whether it derives `Ord`.
    pub is_ord: bool,
    pub line: usize,
    /// Where its name stands.
    pub spot: Spot,
}

/// The cases of an enum.
#[derive(Debug, Drop)]
pub struct Cases {
    /// The scheme of its tags.
    pub tag: String,
    /// What a value counts against the limit of a list, in bytes; else what the largest of the cases does.
    pub counts: Option<usize>,
    pub variants: Vec<Variant>,
}

impl Declaration {
    /// The type that it is the schema of.
    pub fn src(&self) -> &str {
        match &self.from {
            Some(from) => from.as_str(),
            None => self.name.as_str(),
        }
    }
}

/// What is declared.
#[derive(Debug, Drop)]
pub enum DeclaredShape {
    Struct(Fields),
    Enum(Cases),
}

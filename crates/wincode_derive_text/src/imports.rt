//! What a file brings in by `use`, and which names it declares itself.
use crate::error::DeriveResult;
use crate::groups::{is_sign, is_word, kind_at, next, text_at};
use crate::tokens::{Kind, Token};
use std::alloc::Global;

/// A name that is brought in.
#[derive(Drop)]
struct Import {
    name: String,
    /// What it is called where it stands.
    leaf: String,
    is_std: bool,
}

/// The names of a file.
#[derive(Drop)]
pub struct Imports {
    imports: Vec<Import>,
    /// The types that it declares.
    declared: Vec<String>,
    /// Whether it brings in all of a module that isn't std's.
    has_glob: bool,
}

/// Where a name comes from.
#[derive(Debug, Clone, Copy, PartialEq)]
pub enum Origin {
    /// It is declared in the file, or brought in from elsewhere.
    Own,
    /// It is std's.
    Std,
    /// Nothing says.
    Unknown,
}

/// Whether a path that begins so is std's.
pub fn is_std(root: &str) -> bool {
    matches!(root, "std" | "core" | "alloc")
}

/// Whether the word there is the last of a path of `use`.
fn is_leaf(tokens: &[Token], at: usize) -> bool {
    is_word(tokens, next(at), "as") || matches!(text_at(tokens, next(at)), "," | "}" | ";")
}

impl Imports {
    /// Takes the word or sign of a `use` whose path begins so.
    fn take(
        &mut self,
        alloc: Global,
        tokens: &[Token],
        (at, root): (usize, &str),
    ) -> DeriveResult<()> {
        let text = text_at(tokens, at);
        if is_sign(tokens, at, "*") && !is_std(root) {
            self.has_glob = true;
        }
        if kind_at(tokens, at) != Kind::Word || !is_leaf(tokens, at) {
            return Ok(());
        }
        if is_word(tokens, at.saturating_sub(1), "as") || text == "self" {
            return Ok(());
        }
        let name = if is_word(tokens, next(at), "as") {
            text_at(tokens, next(next(at)))
        } else {
            text
        };
        self.imports.push(Import {
            name: String::from_str(alloc, name)?,
            leaf: String::from_str(alloc, text)?,
            is_std: is_std(root),
        })?;
        Ok(())
    }

    /// Where a name comes from that stands alone, or at the front of a path.
    pub fn origin(&self, name: &str) -> Origin {
        if self.declares(name) {
            return Origin::Own;
        }
        match self
            .imports
            .iter()
            .find(|import| import.name.as_str() == name)
        {
            Some(import) if import.is_std => Origin::Std,
            Some(_) => Origin::Own,
            None if self.has_glob => Origin::Unknown,
            None => Origin::Std,
        }
    }

    /// Whether the file declares a type of that name.
    pub fn declares(&self, name: &str) -> bool {
        self.declared.iter().any(|known| known.as_str() == name)
    }

    /// Whether a name is brought in by its own name.
    pub fn is_imported(&self, name: &str) -> bool {
        self.imports
            .iter()
            .any(|import| import.name.as_str() == name)
    }

    /// Whether a name is that of a module of std, which the file brings in.
    pub fn is_std_module(&self, name: &str) -> bool {
        self.is_imported(name) && self.origin(name) == Origin::Std
    }

    /// What a name is called where it stands.
    pub fn leaf<'a>(&'a self, name: &'a str) -> &'a str {
        match self
            .imports
            .iter()
            .find(|import| import.name.as_str() == name)
        {
            Some(import) => import.leaf.as_str(),
            None => name,
        }
    }
}

/// Whether a type of that name is declared where the keyword stands.
fn declares(tokens: &[Token], at: usize) -> bool {
    kind_at(tokens, at) == Kind::Word
        && matches!(
            text_at(tokens, at),
            "struct" | "enum" | "type" | "union" | "trait"
        )
        && kind_at(tokens, next(at)) == Kind::Word
}

/// The names of a file.
pub fn imports_of(alloc: Global, tokens: &[Token]) -> DeriveResult<Imports> {
    let mut imports = Imports {
        imports: Vec::new(alloc),
        declared: Vec::new(alloc),
        has_glob: false,
    };
    let mut root: Option<usize> = None;
    for at in 0..tokens.len() {
        if is_word(tokens, at, "use") && !is_word(tokens, at.saturating_sub(1), "ghost") {
            let begin = next(at);
            root = Some(if is_sign(tokens, begin, "::") {
                next(begin)
            } else {
                begin
            });
        } else if is_sign(tokens, at, ";") {
            root = None;
        } else if let Some(root) = root {
            imports.take(alloc, tokens, (at, text_at(tokens, root)))?;
        } else if declares(tokens, at) {
            let name = text_at(tokens, next(at));
            imports.declared.push(String::from_str(alloc, name)?)?;
        }
    }
    Ok(imports)
}

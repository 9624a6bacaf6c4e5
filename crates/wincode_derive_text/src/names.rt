//! Names that the written module has for itself, where a source file has them too: the module calls the file's own
//! otherwise, with a word behind that no word of the file has in it.
use crate::declarations::{Declaration, DeclaredShape, Fields, Generics, Variant};
use crate::error::DeriveResult;
use crate::groups::type_text;
use crate::imports::{Origin, imports_of};
use crate::parts::order_by_tags;
use crate::printing::{owned, put, put_use};
use crate::tokens::{Kind, Token, tokens_of};
use std::alloc::Global;

/// What the module brings in, and the parameters of its own.
const OURS: [&str; 40] = [
    "Case",
    "CasesOneText",
    "CasesRead",
    "CasesReadOwned",
    "CasesRoundTrip",
    "CasesWrite",
    "Counted",
    "EnumParts",
    "EnumShape",
    "FieldsKey",
    "FieldsOneText",
    "FieldsReadOwned",
    "Global",
    "Key",
    "L",
    "Last",
    "Lawful",
    "LawfulCases",
    "LawfulKey",
    "Lending",
    "Lends",
    "Lifetime",
    "OneOf",
    "OneText",
    "PartOneText",
    "PartReadOwned",
    "R",
    "ReadResult",
    "Reader",
    "RoundTrip",
    "SchemaGet",
    "SchemaRead",
    "SchemaReadOwned",
    "SchemaWrite",
    "SeqLen",
    "Split",
    "TypeMeta",
    "W",
    "WriteResult",
    "Writer",
];

/// Those of std's names that the module takes from std where the file has them too.
const STD: [&str; 2] = ["Option", "Result"];

/// The names that the module has for itself, and what it calls the file's own.
#[derive(Drop)]
pub struct Names {
    /// What stands behind the file's own.
    behind: String,
    /// The types for which the module has names with a word behind.
    declared: Vec<String>,
    /// `Option` and `Result`, where the file has its own.
    shadowed: Vec<&'static str>,
    /// The imports of the file's own: `Case as CaseOwn`.
    imports: Vec<String>,
}

/// What no word of the file has in it: longer than each that has `Own` in it.
fn behind_of(alloc: Global, tokens: &[Token]) -> DeriveResult<String> {
    let mut behind = owned(alloc, "Own")?;
    for token in tokens {
        let word = token.text.as_str();
        if word.contains("Own") && word.len() >= behind.len() {
            behind = format!(in alloc; "{word}Own")?;
        }
    }
    Ok(behind)
}

/// Whether a name is that of a type with a word behind it that the module has for itself.
fn is_behind(name: &str, declared: &str) -> bool {
    match name.strip_prefix(declared) {
        Some(rest) => {
            matches!(rest, "Cases" | "Fields" | "Of" | "Pairs") || rest.starts_with("From")
        }
        None => false,
    }
}

/// Whether a case holds what is borrowed.
fn is_borrowed(variant: &Variant) -> bool {
    variant
        .fields
        .fields
        .iter()
        .any(|field| field.value.as_str().contains('\''))
}

/// Lets the cases that hold what is borrowed stand in front of the others: between two of them the checker doesn't find
/// the lifetime of the second. Each has a tag of its own, so their order says nothing.
fn gather_borrowed(variants: &mut Vec<Variant>) {
    let mut place = 0usize;
    for at in 0..variants.len() {
        let is_next = match variants.get(at) {
            Some(variant) => is_borrowed(variant),
            None => false,
        };
        if is_next && at < variants.len() && place < variants.len() {
            variants.swap(place, at);
            place = place.saturating_add(1);
        }
    }
}

impl Names {
    /// Whether the module has this name for itself.
    fn is_ours(&self, name: &str) -> bool {
        OURS.iter().any(|ours| *ours == name)
            || self.shadowed.iter().any(|ours| *ours == name)
            || self
                .declared
                .iter()
                .any(|declared| is_behind(name, declared.as_str()))
    }

    /// The import of one of the file's own.
    fn bring(&mut self, alloc: Global, name: &str) -> DeriveResult<()> {
        let behind = self.behind.as_str();
        let import = format!(in alloc; "{name} as {name}{behind}")?;
        if self
            .imports
            .iter()
            .all(|known| known.as_str() != import.as_str())
        {
            self.imports.push(import)?;
        }
        Ok(())
    }

    /// One of the file's own names with what stands behind it in the module.
    fn own(&self, alloc: Global, name: &str) -> DeriveResult<String> {
        let behind = self.behind.as_str();
        Ok(format!(in alloc; "{name}{behind}")?)
    }

    /// What the module calls a name that begins a path, where it calls it otherwise.
    fn called(
        &mut self,
        alloc: Global,
        name: &str,
        parameters: &[String],
    ) -> DeriveResult<Option<String>> {
        match name {
            "self" => return Ok(Some(owned(alloc, "super")?)),
            "super" => return Ok(Some(owned(alloc, "super::super")?)),
            _ => {}
        }
        if !self.is_ours(name) {
            return Ok(None);
        }
        if parameters.iter().all(|known| known.as_str() != name) {
            self.bring(alloc, name)?;
        }
        Ok(Some(self.own(alloc, name)?))
    }

    /// A type as the module has it: its own names called otherwise, and paths from the file's module from there.
    fn seen(&mut self, alloc: Global, text: &str, parameters: &[String]) -> DeriveResult<String> {
        let mut tokens = tokens_of(alloc, text)?;
        let mut is_inside = false;
        for token in tokens.iter_mut() {
            let is_root = token.kind == Kind::Word && !is_inside;
            is_inside = token.text.as_str() == "::";
            if is_root {
                let called = self.called(alloc, token.text.as_str(), parameters)?;
                if let Some(called) = called {
                    token.text = called;
                }
            }
        }
        let count = tokens.len();
        type_text(alloc, tokens.as_slice(), 0, count)
    }

    /// Fields as the module has them.
    fn see_fields(
        &mut self,
        alloc: Global,
        fields: &mut Fields,
        parameters: &[String],
    ) -> DeriveResult<()> {
        for field in fields.fields.iter_mut() {
            field.value = self.seen(alloc, field.value.as_str(), parameters)?;
            field.schema = self.seen(alloc, field.schema.as_str(), parameters)?;
        }
        Ok(())
    }

    /// The parameters of a type as the module has them.
    fn see_parameters(&self, alloc: Global, parameters: &mut Vec<String>) -> DeriveResult<()> {
        let behind = self.behind.as_str();
        for parameter in parameters.iter_mut() {
            let name = parameter.as_str();
            if self.is_ours(name) {
                *parameter = format!(in alloc; "{name}{behind}")?;
            }
        }
        Ok(())
    }

    /// The cases of an enum as the module has them.
    fn see_cases(
        &mut self,
        alloc: Global,
        variants: &mut Vec<Variant>,
        parameters: &[String],
    ) -> DeriveResult<()> {
        for variant in variants.iter_mut() {
            self.see_fields(alloc, &mut variant.fields, parameters)?;
        }
        Ok(())
    }

    /// What is declared, and over what, as the module has it.
    fn see_shape(
        &mut self,
        alloc: Global,
        shape: &mut DeclaredShape,
        generics: &Generics,
    ) -> DeriveResult<()> {
        let parameters = generics.parameters.as_slice();
        match shape {
            DeclaredShape::Struct(fields) => self.see_fields(alloc, fields, parameters),
            DeclaredShape::Enum(cases) => {
                self.see_cases(alloc, &mut cases.variants, parameters)?;
                if generics.lifetime.is_some() {
                    gather_borrowed(&mut cases.variants);
                } else {
                    order_by_tags(&mut cases.variants);
                }
                Ok(())
            }
        }
    }

    /// A declaration as the module has it.
    fn see(&mut self, alloc: Global, declaration: &mut Declaration) -> DeriveResult<()> {
        declaration.name = self.seen(alloc, declaration.name.as_str(), &[])?;
        if let Some(from) = &declaration.from {
            declaration.from = Some(self.seen(alloc, from.as_str(), &[])?);
        }
        self.see_shape(alloc, &mut declaration.shape, &declaration.generics)?;
        self.see_parameters(alloc, &mut declaration.generics.parameters)
    }

    /// Appends what brings in the file's own names.
    pub fn put_uses(&self, alloc: Global, out: &mut String) -> DeriveResult<()> {
        let mut names = Vec::new(alloc);
        for import in self.imports.as_slice() {
            names.push(owned(alloc, import.as_str())?)?;
        }
        names.push(owned(alloc, "*")?)?;
        put_use(alloc, out, "super", names.as_slice())
    }

    /// Appends what brings in those of std's names that the file has too.
    pub fn put_shadowed(&self, out: &mut String) -> DeriveResult<()> {
        for name in self.shadowed.iter() {
            let module = if *name == "Option" {
                "option"
            } else {
                "result"
            };
            put(out, &["use std::", module, "::", *name, ";\n"])?;
        }
        Ok(())
    }
}

/// Those of std's names that a file has for its own.
fn shadowed_in(alloc: Global, tokens: &[Token]) -> DeriveResult<Vec<&'static str>> {
    let imports = imports_of(alloc, tokens)?;
    let mut shadowed = Vec::new(alloc);
    for name in &STD {
        if imports.origin(*name) == Origin::Own {
            shadowed.push(*name)?;
        }
    }
    Ok(shadowed)
}

/// The names of what is declared.
fn declared_in(alloc: Global, declarations: &[Declaration]) -> DeriveResult<Vec<String>> {
    let mut declared = Vec::new(alloc);
    for declaration in declarations {
        declared.push(owned(alloc, declaration.name.as_str())?)?;
    }
    Ok(declared)
}

/// The names of the module that is written of these declarations of a file, before it is known what they bring in.
fn own_names(alloc: Global, tokens: &[Token], declarations: &[Declaration]) -> DeriveResult<Names> {
    let behind = behind_of(alloc, tokens)?;
    let shadowed = shadowed_in(alloc, tokens)?;
    let declared = declared_in(alloc, declarations)?;
    Ok(Names {
        behind,
        declared,
        shadowed,
        imports: Vec::new(alloc),
    })
}

/// The names of the module that is written of these declarations of a file, which are then as it has them.
pub fn names_of(
    alloc: Global,
    tokens: &[Token],
    declarations: &mut Vec<Declaration>,
) -> DeriveResult<Names> {
    let mut names = own_names(alloc, tokens, declarations.as_slice())?;
    see_all(alloc, &mut names, declarations)?;
    names.imports.sort()?;
    Ok(names)
}

/// The declarations as the module has them.
fn see_all(
    alloc: Global,
    names: &mut Names,
    declarations: &mut Vec<Declaration>,
) -> DeriveResult<()> {
    for declaration in declarations.iter_mut() {
        names.see(alloc, declaration)?;
    }
    Ok(())
}

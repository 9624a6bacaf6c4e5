//! Declarations that need each other.
use crate::declarations::{Declaration, DeclaredShape, Fields};
use crate::error::DeriveResult;
use crate::groups::{is_sign, is_word};
use crate::report::Report;
use crate::tokens::{Kind, Token, tokens_of};
use std::alloc::Global;

/// A declaration that needs another, by their places.
#[derive(Clone, Copy, PartialEq)]
struct Need {
    from: usize,
    to: usize,
}

/// Whether the word there is a name of this module.
fn is_own(tokens: &[Token], at: usize) -> bool {
    at == 0
        || !is_sign(tokens, at.saturating_sub(1), "::")
        || is_word(tokens, at.saturating_sub(2), "self")
}

/// Adds what the schemas of these fields name.
fn add_fields(
    alloc: Global,
    needs: &mut Vec<Need>,
    (declarations, from): (&[Declaration], usize),
    fields: &Fields,
) -> DeriveResult<()> {
    for field in fields.fields.as_slice() {
        let tokens = tokens_of(alloc, field.schema.as_str())?;
        add_names(needs, (declarations, from), tokens.as_slice())?;
    }
    Ok(())
}

/// Adds what these tokens name.
fn add_names(
    needs: &mut Vec<Need>,
    (declarations, from): (&[Declaration], usize),
    tokens: &[Token],
) -> DeriveResult<()> {
    for (at, token) in tokens.iter().enumerate() {
        let name = token.text.as_str();
        let found = declarations
            .iter()
            .position(|declaration| declaration.name.as_str() == name);
        if let Some(to) = found {
            if token.kind == Kind::Word && is_own(tokens, at) {
                needs.push(Need { from, to })?;
            }
        }
    }
    Ok(())
}

/// Adds what a declaration needs.
fn add_needs(
    alloc: Global,
    needs: &mut Vec<Need>,
    declarations: &[Declaration],
    (from, declaration): (usize, &Declaration),
) -> DeriveResult<()> {
    match &declaration.shape {
        DeclaredShape::Struct(fields) => add_fields(alloc, needs, (declarations, from), fields),
        DeclaredShape::Enum(cases) => {
            for variant in cases.variants.as_slice() {
                add_fields(alloc, needs, (declarations, from), &variant.fields)?;
            }
            Ok(())
        }
    }
}

/// The steps by which others are reached from there, each once; the first that leads back is the last.
fn steps_from(
    alloc: Global,
    needs: &[Need],
    start: usize,
    count: usize,
) -> DeriveResult<Vec<Need>> {
    let mut steps: Vec<Need> = Vec::new(alloc);
    let mut at = start;
    for turn in 0..count {
        for need in needs {
            if need.from == at && need.to == start {
                steps.push(*need)?;
                return Ok(steps);
            }
            if need.from == at && !steps.iter().any(|step| step.to == need.to) {
                steps.push(*need)?;
            }
        }
        match steps.get(turn) {
            Some(step) => at = step.to,
            None => return Ok(Vec::new(alloc)),
        }
    }
    Ok(Vec::new(alloc))
}

/// The name of a declaration.
fn name_at(declarations: &[Declaration], at: usize) -> &str {
    match declarations.get(at) {
        Some(declaration) => declaration.name.as_str(),
        None => "",
    }
}

/// How a declaration needs itself, from the last step back: none where another in front of it is one of these.
fn circle_of(
    alloc: Global,
    declarations: &[Declaration],
    steps: &[Need],
    start: usize,
) -> DeriveResult<Option<String>> {
    let mut said = String::new(alloc);
    let mut to = start;
    for step in steps.iter().rev() {
        if step.to != to {
            continue;
        }
        if step.from < start {
            return Ok(None);
        }
        let (name, other) = (name_at(declarations, step.from), name_at(declarations, to));
        let behind = said.as_str();
        let between = if behind.is_empty() { "" } else { ", and " };
        said = format!(in alloc; "`{name}` needs `{other}`{between}{behind}")?;
        to = step.from;
        if to == start {
            return Ok(Some(said));
        }
    }
    Ok(None)
}

/// Tells of each declaration that needs itself by way of others.
pub fn tell_circles(
    alloc: Global,
    declarations: &[Declaration],
    report: &mut Report,
) -> DeriveResult<()> {
    let mut needs = Vec::new(alloc);
    for (from, declaration) in declarations.iter().enumerate() {
        add_needs(alloc, &mut needs, declarations, (from, declaration))?;
    }
    tell_of(alloc, declarations, needs.as_slice(), report)
}

/// Tells of each declaration that needs itself by these.
fn tell_of(
    alloc: Global,
    declarations: &[Declaration],
    needs: &[Need],
    report: &mut Report,
) -> DeriveResult<()> {
    for (start, declaration) in declarations.iter().enumerate() {
        let count = next_of(declarations.len());
        let steps = steps_from(alloc, needs, start, count)?;
        if let Some(circle) = circle_of(alloc, declarations, steps.as_slice(), start)? {
            let circle = circle.as_str();
            let message = format!(in alloc; "{circle}: such types have no schema")?;
            report.tell(declaration.spot, message)?;
        }
    }
    Ok(())
}

fn next_of(count: usize) -> usize {
    count.saturating_add(1)
}

//! Types over parameters in the fields of others: the schemas of what they hold in their places, whose laws are known.
use crate::declarations::{Declaration, DeclaredShape};
use crate::enums::{one_of, spelled_cases_of};
use crate::error::DeriveResult;
use crate::groups::{close_of, end_of_part, is_sign, next, type_text};
use crate::printing::{owned, put_text};
use crate::structs::{schemas_of, tuple_of};
use crate::tokens::{Kind, Token, tokens_of};
use std::alloc::Global;

/// How many types are looked into, at most.
const MOST: usize = 1000;

/// A type over parameters: which it is, and where its name and its parts stand.
#[derive(Clone, Copy)]
struct Inside {
    which: usize,
    at: usize,
    close: usize,
}

/// Whether one of these names stands there.
fn has_name(tokens: &[Token], (from, to): (usize, usize), names: &[String]) -> bool {
    tokens.iter().take(to).skip(from).any(|token| names
        .iter()
        .any(|name| name.as_str() == token.text.as_str()))
}

/// The first of these types that stands there over one of these parameters.
fn first_in(tokens: &[Token], all: &[Declaration], parameters: &[String]) -> Option<Inside> {
    for (at, token) in tokens.iter().enumerate() {
        let name = token.text.as_str();
        let found = all
            .iter()
            .position(|declaration| declaration.name.as_str() == name);
        let is_applied = is_sign(tokens, next(at), "<");
        if let (Some(which), true) = (found, is_applied) {
            let close = close_of(tokens, next(at)).unwrap_or(at);
            if has_name(tokens, (next(at), close), parameters) {
                return Some(Inside { which, at, close });
            }
        }
    }
    None
}

/// The schemas of what a type holds, as one.
fn schemas_in(alloc: Global, declaration: &Declaration) -> DeriveResult<String> {
    match &declaration.shape {
        DeclaredShape::Struct(fields) => {
            let schemas = schemas_of(alloc, fields)?;
            tuple_of(alloc, schemas.as_slice())
        }
        DeclaredShape::Enum(cases) => {
            let all = spelled_cases_of(alloc, declaration, cases)?;
            one_of(alloc, cases.tag.as_str(), all.as_str())
        }
    }
}

/// The parts between commas that stand there.
fn parts_in(
    alloc: Global,
    tokens: &[Token],
    (from, to): (usize, usize),
) -> DeriveResult<Vec<String>> {
    let mut parts = Vec::new(alloc);
    let mut at = from;
    for _ in from..to {
        if at >= to {
            break;
        }
        let end = end_of_part(tokens, at, to);
        parts.push(type_text(alloc, tokens, at, end)?)?;
        at = next(end);
    }
    Ok(parts)
}

/// A type with these parts in the places of the parameters.
fn given(
    alloc: Global,
    text: &str,
    (parameters, parts): (&[String], &[String]),
) -> DeriveResult<String> {
    let mut tokens = tokens_of(alloc, text)?;
    for token in tokens.iter_mut() {
        let name = token.text.as_str();
        let place = parameters.iter().position(|known| known.as_str() == name);
        if let (Kind::Word, Some(place)) = (token.kind, place) {
            if let Some(part) = parts.get(place) {
                token.text = owned(alloc, part.as_str())?;
            }
        }
    }
    let count = tokens.len();
    type_text(alloc, tokens.as_slice(), 0, count)
}

/// What a type holds, with its own parts in the places of its parameters.
fn held_in(
    alloc: Global,
    tokens: &[Token],
    declaration: &Declaration,
    inside: Inside,
) -> DeriveResult<String> {
    let begin = next(next(inside.at));
    let parts = parts_in(alloc, tokens, (begin, inside.close))?;
    let schemas = schemas_in(alloc, declaration)?;
    let over = (declaration.generics.parameters.as_slice(), parts.as_slice());
    given(alloc, schemas.as_str(), over)
}

/// A schema with the schemas of what this type holds in its place.
fn replaced(
    alloc: Global,
    tokens: &[Token],
    declaration: &Declaration,
    inside: Inside,
) -> DeriveResult<String> {
    let mut out = type_text(alloc, tokens, 0, inside.at)?;
    put_text(&mut out, held_in(alloc, tokens, declaration, inside))?;
    let behind = type_text(alloc, tokens, next(inside.close), tokens.len());
    put_text(&mut out, behind)?;
    Ok(out)
}

/// A schema with the schemas of what is held in the place of each of these types that stands in it over one of the
/// parameters.
pub fn looked_into(
    alloc: Global,
    all: &[Declaration],
    (text, parameters): (&str, &[String]),
) -> DeriveResult<String> {
    let mut seen = owned(alloc, text)?;
    for _ in 0..MOST {
        let tokens = tokens_of(alloc, seen.as_str())?;
        let tokens = tokens.as_slice();
        let Some(inside) = first_in(tokens, all, parameters) else {
            break;
        };
        let Some(declaration) = all.get(inside.which) else {
            break;
        };
        seen = replaced(alloc, tokens, declaration, inside)?;
    }
    Ok(seen)
}

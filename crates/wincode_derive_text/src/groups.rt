//! Brackets, and the parts between commas.
use crate::error::{DeriveError, DeriveResult, Spot, refused, unsupported};
use crate::report::Report;
use crate::tokens::{Kind, Token};
use std::alloc::Global;

pub fn text_at(tokens: &[Token], at: usize) -> &str {
    match tokens.get(at) {
        Some(token) => token.text.as_str(),
        None => "",
    }
}

pub fn kind_at(tokens: &[Token], at: usize) -> Kind {
    match tokens.get(at) {
        Some(token) => token.kind,
        None => Kind::Sign,
    }
}

/// Whether this sign stands there.
pub fn is_sign(tokens: &[Token], at: usize, sign: &str) -> bool {
    kind_at(tokens, at) == Kind::Sign && text_at(tokens, at) == sign
}

/// Whether this word stands there.
pub fn is_word(tokens: &[Token], at: usize, word: &str) -> bool {
    kind_at(tokens, at) == Kind::Word && text_at(tokens, at) == word
}

/// The line of the token, or of the last one.
pub fn line_at(tokens: &[Token], at: usize) -> usize {
    spot_at(tokens, at).line
}

/// Where the token begins, or the last one.
pub fn spot_at(tokens: &[Token], at: usize) -> Spot {
    match tokens.get(at.min(tokens.len().saturating_sub(1))) {
        Some(token) => token.spot(),
        None => Spot { line: 1, column: 1 },
    }
}

pub fn next(at: usize) -> usize {
    at.saturating_add(1)
}

/// A bracket that is opened, `(`, `[` or `{`.
fn opens(token: &Token) -> bool {
    token.kind == Kind::Sign && matches!(token.text.as_str(), "(" | "[" | "{")
}

fn closes(token: &Token) -> bool {
    token.kind == Kind::Sign && matches!(token.text.as_str(), ")" | "]" | "}")
}

/// What a bracket is closed by.
fn closing_of(open: &str) -> &str {
    match open {
        "(" => ")",
        "[" => "]",
        _ => "}",
    }
}

/// Whether a `>` is that of `->` or `=>`.
fn is_arrow(tokens: &[Token], at: usize) -> bool {
    let before = at.saturating_sub(1);
    is_sign(tokens, before, "-") || is_sign(tokens, before, "=")
}

/// How deep in brackets what stands behind a token is: in those of the first kind, and in `<` outside of those, where
/// these are no signs of comparison.
#[derive(Clone, Copy)]
struct Depth {
    brackets: usize,
    angles: usize,
}

impl Depth {
    fn behind(self, tokens: &[Token], at: usize, token: &Token) -> Depth {
        let Depth { brackets, angles } = self;
        if opens(token) {
            return Depth {
                brackets: next(brackets),
                angles,
            };
        }
        if closes(token) {
            return Depth {
                brackets: brackets.saturating_sub(1),
                angles,
            };
        }
        let angles = match (token.kind, token.text.as_str()) {
            (Kind::Sign, "<") if brackets == 0 => next(angles),
            (Kind::Sign, ">") if brackets == 0 && !is_arrow(tokens, at) => angles.saturating_sub(1),
            _ => angles,
        };
        Depth { brackets, angles }
    }

    fn is_none(self) -> bool {
        self.brackets == 0 && self.angles == 0
    }
}

/// Where the bracket is closed that is opened there, if it is: `(`, `[`, `{` or `<`.
pub fn close_of(tokens: &[Token], open: usize) -> Option<usize> {
    let mut depth = Depth {
        brackets: 0,
        angles: 0,
    };
    for (i, token) in tokens.iter().enumerate().skip(open) {
        depth = depth.behind(tokens, i, token);
        if depth.is_none() {
            return Some(i);
        }
    }
    None
}

/// As `close_of`, of a bracket that is known to be closed.
pub fn end_of_group(tokens: &[Token], open: usize) -> DeriveResult<usize> {
    match close_of(tokens, open) {
        Some(close) => Ok(close),
        None => Err(unsupported(line_at(tokens, open), "a bracket that isn't closed")),
    }
}

/// Where the part ends that begins there: at a comma outside of brackets, or at the end.
pub fn end_of_part(tokens: &[Token], from: usize, to: usize) -> usize {
    let mut depth = Depth {
        brackets: 0,
        angles: 0,
    };
    for (i, token) in tokens.iter().enumerate().take(to).skip(from) {
        if depth.is_none() && is_sign(tokens, i, ",") {
            return i;
        }
        depth = depth.behind(tokens, i, token);
    }
    to
}

/// As `end_of_part`, of a case, whose number may have signs of comparison.
pub fn end_of_case(tokens: &[Token], from: usize, to: usize) -> usize {
    let mut depth = 0usize;
    for (i, token) in tokens.iter().enumerate().take(to).skip(from) {
        if depth == 0 && is_sign(tokens, i, ",") {
            return i;
        }
        if opens(token) {
            depth = next(depth);
        } else if closes(token) {
            depth = depth.saturating_sub(1);
        }
    }
    to
}

/// Where the first of these signs stands outside of brackets, or the end.
pub fn first_of(tokens: &[Token], (from, to): (usize, usize), signs: &[&str]) -> usize {
    let mut depth = 0usize;
    for (i, token) in tokens.iter().enumerate().take(to).skip(from) {
        if depth == 0 && signs.iter().any(|sign| is_sign(tokens, i, *sign)) {
            return i;
        }
        if opens(token) {
            depth = next(depth);
        } else if closes(token) {
            depth = depth.saturating_sub(1);
        }
    }
    to
}

/// Closes the last of the brackets that are opened, or tells what is wrong with the one that stands there.
fn close_last(
    alloc: Global,
    report: &mut Report,
    (tokens, token): (&[Token], &Token),
    opened: &mut Vec<usize>,
) -> DeriveResult<()> {
    let sign = token.text.as_str();
    match opened.pop() {
        Some(open) if closing_of(text_at(tokens, open)) == sign => Ok(()),
        Some(open) => report.take(alloc, unclosed(alloc, tokens, open)?),
        None => {
            let message = format!(in alloc; "`{sign}` closes no bracket")?;
            report.tell(token.spot(), message)
        }
    }
}

/// Refuses a bracket that is not closed, or that closes none.
pub fn check_brackets(alloc: Global, tokens: &[Token], report: &mut Report) -> DeriveResult<()> {
    let mut opened: Vec<usize> = Vec::new(alloc);
    for (i, token) in tokens.iter().enumerate() {
        if opens(token) {
            opened.push(i)?;
        } else if closes(token) {
            close_last(alloc, report, (tokens, token), &mut opened)?;
        }
        if report.count() > 0 {
            return Ok(());
        }
    }
    match opened.pop() {
        Some(open) => report.take(alloc, unclosed(alloc, tokens, open)?),
        None => Ok(()),
    }
}

/// A bracket that is not closed.
fn unclosed(alloc: Global, tokens: &[Token], open: usize) -> DeriveResult<DeriveError> {
    let sign = text_at(tokens, open);
    let message = format!(in alloc; "`{sign}` is not closed")?;
    Ok(refused(alloc, spot_at(tokens, open), message))
}

/// Whether a space stands between two tokens of a type.
fn are_apart(before: &Token, after: &Token) -> bool {
    match (before.kind, after.kind) {
        (Kind::Sign, _) => matches!(before.text.as_str(), "," | ";"),
        (_, Kind::Word | Kind::Lifetime) => true,
        _ => false,
    }
}

/// The tokens as the text of a type.
pub fn type_text(alloc: Global, tokens: &[Token], from: usize, to: usize) -> DeriveResult<String> {
    let mut text = String::new(alloc);
    let mut before: Option<&Token> = None;
    for token in tokens.iter().take(to).skip(from) {
        if token.kind == Kind::Note {
            continue;
        }
        if let Some(last) = before {
            if are_apart(last, token) {
                text.push(' ')?;
            }
        }
        text.push_str(token.text.as_str())?;
        before = Some(token);
    }
    Ok(text)
}

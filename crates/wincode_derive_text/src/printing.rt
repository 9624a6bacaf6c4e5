//! Text in the layout that `rt fmt` gives.
use crate::error::{DeriveError, DeriveResult};
use std::alloc::Global;

/// The longest line.
const WIDTH: usize = 100;

/// The column from which on a line of a ghost member is broken.
const WIDE: usize = 140;

/// The longest arguments of a call that stand on its line.
const ARGUMENTS: usize = 60;

/// The longest of the arguments that stand on one line of their own.
const SHORT: usize = 10;

/// Appends each text.
pub fn put(out: &mut String, texts: &[&str]) -> DeriveResult<()> {
    for text in texts {
        out.push_str(*text)?;
    }
    Ok(())
}

/// Appends the text, if it could be said.
pub fn put_text(out: &mut String, text: DeriveResult<String>) -> DeriveResult<()> {
    let text = text?;
    out.push_str(text.as_str())?;
    Ok(())
}

/// A word of a template, and what it stands for.
#[derive(Drop)]
pub struct Word {
    name: &'static str,
    text: String,
}

/// What words of a template stand for, or why one couldn't be said, which the next template is refused for.
#[derive(Drop)]
pub struct Words {
    words: Vec<Word>,
    failure: Option<DeriveError>,
}

impl Words {
    pub fn new(alloc: Global) -> Words {
        Words {
            words: Vec::new(alloc),
            failure: None,
        }
    }

    /// Lets a word stand for the text.
    pub fn set(&mut self, name: &'static str, text: DeriveResult<String>) {
        let failure = match text {
            Ok(text) => match self.words.push(Word { name, text }) {
                Ok(()) => return,
                Err(refused) => DeriveError::from(refused),
            },
            Err(failure) => failure,
        };
        self.failure = Some(failure);
    }

    /// Appends what the word stands for, or nothing.
    fn put(&self, out: &mut String, name: &str) -> DeriveResult<()> {
        for word in self.words.as_slice() {
            if word.name == name {
                out.push_str(word.text.as_str())?;
            }
        }
        Ok(())
    }
}

/// Appends the template, with what each word between two `@` stands for in its place.
pub fn fill(out: &mut String, template: &str, words: &mut Words) -> DeriveResult<()> {
    if let Some(failure) = words.failure.take() {
        return Err(failure);
    }
    for (i, part) in template.split('@').enumerate() {
        if i % 2 == 0 {
            out.push_str(part)?;
        } else {
            words.put(out, part)?;
        }
    }
    Ok(())
}

/// The template with what its words stand for, as a text of its own.
pub fn text_of(alloc: Global, template: &str, words: &mut Words) -> DeriveResult<String> {
    let mut out = String::new(alloc);
    fill(&mut out, template, words)?;
    Ok(out)
}

/// A text of one's own.
pub fn owned(alloc: Global, text: &str) -> DeriveResult<String> {
    Ok(String::from_str(alloc, text)?)
}

/// A number in decimals.
pub fn number(alloc: Global, n: usize) -> DeriveResult<String> {
    Ok(format!(in alloc; "{n}")?)
}

/// The texts, with this between each two.
pub fn joined(alloc: Global, texts: &[String], between: &str) -> DeriveResult<String> {
    let mut out = String::new(alloc);
    for (i, text) in texts.iter().enumerate() {
        if i > 0 {
            out.push_str(between)?;
        }
        out.push_str(text.as_str())?;
    }
    Ok(out)
}

/// The text, with its widest lines broken behind a comma, or in front of a case or the law of a part: `rt fmt` gives
/// each part of these a line.
pub fn broken(alloc: Global, text: &str) -> DeriveResult<String> {
    let mut out = String::new(alloc);
    let mut column = 0usize;
    let mut last = '\n';
    let mut is_behind_space = false;
    for c in text.chars() {
        if is_behind_space
            && column >= WIDE
            && (last == ',' || c == '|' || (c == '(' && last == 's'))
        {
            out.push_str("\n        ")?;
            column = 8;
        } else if is_behind_space {
            out.push(' ')?;
            column = column.saturating_add(1);
        }
        is_behind_space = c == ' ';
        if !is_behind_space {
            out.push(c)?;
            last = c;
            column = if c == '\n' {
                0
            } else {
                column.saturating_add(1)
            };
        }
    }
    Ok(out)
}

/// Appends the text so many times.
pub fn put_times(out: &mut String, text: &str, times: usize) -> DeriveResult<()> {
    for _ in 0..times {
        out.push_str(text)?;
    }
    Ok(())
}

/// Adds the text where it is wanted.
pub fn add(
    alloc: Global,
    texts: &mut Vec<String>,
    text: &str,
    is_wanted: bool,
) -> DeriveResult<()> {
    if is_wanted {
        texts.push(String::from_str(alloc, text)?)?;
    }
    Ok(())
}

/// Whether the arguments, which take so many columns, stand on one line of their own behind so many spaces.
fn are_short(arguments: &[String], (width, indent): (usize, usize)) -> bool {
    arguments.iter().all(|argument| argument.len() <= SHORT) && width.saturating_add(indent) < WIDTH
}

/// Appends the arguments on lines of their own, behind so many spaces. On one line they take so many columns.
fn put_lines(
    out: &mut String,
    (width, indent): (usize, usize),
    arguments: &[String],
) -> DeriveResult<()> {
    let is_short = are_short(arguments, (width, indent));
    let (between, later) = if is_short { (" ", 0) } else { ("\n", indent) };
    for (i, argument) in arguments.iter().enumerate() {
        let is_last = i.saturating_add(1) == arguments.len();
        put_times(out, " ", if i == 0 { indent } else { later })?;
        put(
            out,
            &[argument.as_str(), ",", if is_last { "\n" } else { between }],
        )?;
    }
    Ok(())
}

/// Appends the arguments of a call, which stand as this line if they stand on its line, and else below it.
fn put_arguments(
    out: &mut String,
    indent: usize,
    (line, is_below): (&str, bool),
    arguments: &[String],
) -> DeriveResult<()> {
    if !is_below {
        return put(out, &[line]);
    }
    out.push('\n')?;
    let inside = indent.saturating_add(4);
    put_lines(out, (line.len(), inside), arguments)?;
    put_times(out, " ", indent)
}

/// Appends a call, which stands behind so many spaces and `before`: on one line where it is short enough, else its
/// arguments below.
pub fn put_call(
    alloc: Global,
    out: &mut String,
    indent: usize,
    (before, name, after): (&str, &str, &str),
    arguments: &[String],
) -> DeriveResult<()> {
    let line = joined(alloc, arguments, ", ")?;
    let line = line.as_str();
    let width = indent
        .saturating_add(before.len())
        .saturating_add(name.len())
        .saturating_add(line.len())
        .saturating_add(after.len())
        .saturating_add(2);
    let is_below = width > WIDTH || line.len() > ARGUMENTS;
    put_times(out, " ", indent)?;
    put(out, &[before, name, "("])?;
    put_arguments(out, indent, (line, is_below), arguments)?;
    put(out, &[")", after, "\n"])
}

/// Appends the names, with a comma behind each, on lines that are as long as they may be.
fn put_folded(out: &mut String, names: &[String]) -> DeriveResult<()> {
    let mut width = 4usize;
    for (i, name) in names.iter().enumerate() {
        let next = width.saturating_add(name.len()).saturating_add(2);
        let is_begun = i > 0 && next > WIDTH.saturating_add(1);
        let between = if is_begun {
            "\n    "
        } else if i > 0 {
            " "
        } else {
            ""
        };
        let before = if is_begun {
            4
        } else {
            width.saturating_add(between.len())
        };
        put(out, &[between, name.as_str(), ","])?;
        width = before.saturating_add(name.len()).saturating_add(1);
    }
    Ok(())
}

/// Appends an import of these names.
pub fn put_use(alloc: Global, out: &mut String, path: &str, names: &[String]) -> DeriveResult<()> {
    if names.is_empty() {
        return Ok(());
    }
    let line = joined(alloc, names, ", ")?;
    let line = line.as_str();
    if names.len() == 1 {
        return put(out, &["use ", path, "::", line, ";\n"]);
    }
    if line.len().saturating_add(path.len()).saturating_add(9) <= WIDTH {
        return put(out, &["use ", path, "::{", line, "};\n"]);
    }
    put(out, &["use ", path, "::{\n    "])?;
    put_folded(out, names)?;
    put(out, &["\n};\n"])
}

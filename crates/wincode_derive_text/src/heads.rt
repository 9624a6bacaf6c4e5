//! What stands over declarations, fields and cases: comment lines, attributes, and how visible they are.
use crate::error::{DeriveError, DeriveResult, Spot, refused};
use crate::groups::{
    close_of, end_of_group, end_of_part, is_sign, is_word, kind_at, next, spot_at, text_at,
    type_text,
};
use crate::notes::{Note, note_of, said_in};
use crate::printing::{owned, put, put_text};
use crate::report::Report;
use crate::tokens::{Kind, Token, tokens_of};
use std::alloc::Global;

/// What comment lines and attributes stand over.
#[derive(Debug, Clone, Copy, PartialEq)]
pub enum Over {
    Struct,
    Enum,
    Field,
    Case,
}

/// A schema that a comment line says, and where it stands.
#[derive(Drop)]
pub struct Schema {
    pub text: String,
    pub spot: Spot,
}

/// The comment lines and attributes over something, by their first tokens, and where it begins itself.
#[derive(Drop)]
pub struct Head {
    notes: Vec<usize>,
    attributes: Vec<usize>,
    pub at: usize,
}

/// What they say.
#[derive(Drop)]
pub struct Said {
    pub with: Option<Schema>,
    pub tag: Option<usize>,
    pub tag_encoding: Option<String>,
    pub from: Option<String>,
    pub counts: Option<usize>,
    /// Whether `Eq` is derived.
    pub is_eq: bool,
    /// Whether `Ord` is derived.
    pub is_ord: bool,
}

/// What is said, of whom.
#[derive(Clone, Copy)]
pub struct Subject<'a> {
    pub over: Over,
    /// The names of the type and of its part.
    pub name: &'a str,
    /// The type of a field, and else nothing.
    pub held: &'a str,
}

/// The attributes of the Rust crate for which there are comment lines.
const LINES: [&str; 5] = ["with", "tag", "tag_encoding", "from", "counts"];

impl Over {
    /// What it is called.
    fn name(self) -> &'static str {
        match self {
            Over::Struct => "a struct",
            Over::Enum => "an enum",
            Over::Field => "a field",
            Over::Case => "a case",
        }
    }

    /// Whether this word may be said of it.
    fn has(self, word: &str) -> bool {
        match word {
            "with" => self == Over::Field,
            "tag" => self == Over::Case,
            "tag_encoding" | "counts" => self == Over::Enum,
            _ => self == Over::Struct || self == Over::Enum,
        }
    }
}

/// What a word is said of.
fn place_of(word: &str) -> &'static str {
    match word {
        "with" => "a field",
        "tag" => "a case",
        "tag_encoding" | "counts" => "an enum",
        _ => "a struct or an enum",
    }
}

/// Whether a comment stands behind something else on its line.
pub fn is_behind(tokens: &[Token], at: usize) -> bool {
    match (tokens.get(at.wrapping_sub(1)), tokens.get(at)) {
        (Some(before), Some(token)) => before.line == token.line,
        _ => false,
    }
}

/// The end of an attribute that begins there.
fn end_of_attribute(tokens: &[Token], at: usize) -> DeriveResult<usize> {
    let open = if is_sign(tokens, next(at), "!") {
        next(next(at))
    } else {
        next(at)
    };
    Ok(next(end_of_group(tokens, open)?))
}

/// What stands over a declaration, a field or a case.
pub fn head_of(alloc: Global, tokens: &[Token], from: usize, to: usize) -> DeriveResult<Head> {
    let mut head = Head {
        notes: Vec::new(alloc),
        attributes: Vec::new(alloc),
        at: from,
    };
    for _ in from..to {
        let at = head.at;
        if at >= to {
            break;
        }
        if kind_at(tokens, at) == Kind::Note {
            if !is_behind(tokens, at) {
                head.notes.push(at)?;
            }
            head.at = next(at);
        } else if is_sign(tokens, at, "#") && !is_sign(tokens, next(at), "!") {
            head.attributes.push(at)?;
            head.at = end_of_attribute(tokens, at)?;
        } else if is_word(tokens, at, "pub")
            && is_sign(tokens, next(at), "(")
            && is_limited(tokens, at)
        {
            head.at = next(end_of_group(tokens, next(at))?);
        } else if is_word(tokens, at, "pub") {
            head.at = next(at);
        } else {
            break;
        }
    }
    Ok(head)
}

/// Whether the bracket behind `pub` says where it is visible, and is no tuple.
fn is_limited(tokens: &[Token], at: usize) -> bool {
    let inside = next(next(at));
    match text_at(tokens, inside) {
        "crate" | "self" | "super" => is_sign(tokens, next(inside), ")"),
        word => word == "in",
    }
}

/// What is wrong, of its subject.
fn wrong(alloc: Global, spot: Spot, subject: Subject<'_>, what: &str) -> DeriveError {
    let name = subject.name;
    match format!(in alloc; "`{name}`: {what}") {
        Ok(said) => refused(alloc, spot, said),
        Err(_) => DeriveError::OutOfMemory,
    }
}

/// The number that a comment line says.
fn number_of(value: &str) -> Option<usize> {
    match value.parse::<usize>() {
        Ok(number) if value.chars().all(|c| c.is_ascii_digit()) => Some(number),
        _ => None,
    }
}

/// The type that stands behind a path, if it is one.
fn is_path(tokens: &[Token]) -> bool {
    tokens.len() % 2 == 1
        && tokens.iter().enumerate().all(|(i, token)| {
            (i % 2 == 0 && token.kind == Kind::Word) || (i % 2 == 1 && token.text.as_str() == "::")
        })
}

/// A word that says nothing.
fn no_word(alloc: Global, word: &str) -> DeriveResult<String> {
    Ok(format!(in alloc; "`{word}` is none of `with`, `tag`, `tag_encoding`, `counts` and `from`")?)
}

/// A word that is said twice.
fn said_twice(alloc: Global, word: &str) -> DeriveResult<String> {
    Ok(format!(in alloc; "`{word}` is said twice")?)
}

/// A word without a value.
fn no_value(alloc: Global, word: &str) -> DeriveResult<String> {
    Ok(format!(in alloc; "`{word} =` wants a value")?)
}

/// A word that isn't said of this.
fn misplaced(alloc: Global, word: &str, over: Over) -> DeriveResult<String> {
    let (place, this) = (place_of(word), over.name());
    Ok(format!(in alloc; "`{word}` stands over {place}, and this is {this}")?)
}

impl Said {
    fn nothing() -> Said {
        Said {
            with: None,
            tag: None,
            tag_encoding: None,
            from: None,
            counts: None,
            is_eq: false,
            is_ord: false,
        }
    }

    /// Whether this was said.
    fn has(&self, word: &str) -> bool {
        match word {
            "with" => self.with.is_some(),
            "tag" => self.tag.is_some(),
            "tag_encoding" => self.tag_encoding.is_some(),
            "from" => self.from.is_some(),
            _ => self.counts.is_some(),
        }
    }

    /// Takes the type that `from` says; what is wrong with it.
    fn take_from(&mut self, alloc: Global, value: &str) -> DeriveResult<Option<&'static str>> {
        let tokens = tokens_of(alloc, value)?;
        if !is_path(tokens.as_slice()) {
            return Ok(Some("`from` wants the name of a type, or its path"));
        }
        self.from = Some(owned(alloc, value)?);
        Ok(None)
    }

    /// Takes the scheme of tags; what is wrong with it.
    fn take_encoding(&mut self, alloc: Global, value: &str) -> DeriveResult<Option<&'static str>> {
        if !matches!(value, "u8" | "u16" | "u32" | "u64") {
            return Ok(Some("the scheme of tags is `u8`, `u16`, `u32` or `u64`"));
        }
        self.tag_encoding = Some(owned(alloc, value)?);
        Ok(None)
    }

    /// Takes a tag; what is wrong with it.
    fn take_tag(&mut self, value: &str) -> Option<&'static str> {
        match number_of(value) {
            Some(number) => {
                self.tag = Some(number);
                None
            }
            None => Some("a tag is a number, such as `13`"),
        }
    }

    /// Takes what a value counts; what is wrong with it.
    fn take_counts(&mut self, value: &str) -> Option<&'static str> {
        match number_of(value) {
            Some(number) if number > 0 => {
                self.counts = Some(number);
                None
            }
            _ => Some("what a value counts is a number, at least 1"),
        }
    }

    /// Takes a value; what is wrong with it.
    fn take(
        &mut self,
        alloc: Global,
        note: Note<'_>,
        spot: Spot,
    ) -> DeriveResult<Option<&'static str>> {
        match note.word {
            "with" => {
                let text = owned(alloc, note.value)?;
                self.with = Some(Schema { text, spot });
                Ok(None)
            }
            "tag_encoding" => self.take_encoding(alloc, note.value),
            "from" => self.take_from(alloc, note.value),
            "tag" => Ok(self.take_tag(note.value)),
            _ => Ok(self.take_counts(note.value)),
        }
    }

    /// What is wrong with a comment line's word, or that it has no value.
    fn wrong_word(
        &self,
        alloc: Global,
        note: Note<'_>,
        over: Over,
    ) -> DeriveResult<Option<String>> {
        let word = note.word;
        let what = if !LINES.iter().any(|known| *known == word) {
            no_word(alloc, word)
        } else if !over.has(word) {
            misplaced(alloc, word, over)
        } else if self.has(word) {
            said_twice(alloc, word)
        } else if note.value.is_empty() {
            no_value(alloc, word)
        } else {
            return Ok(None);
        };
        Ok(Some(what?))
    }

    /// Takes what a note says of its subject, which stands there.
    fn take_note(
        &mut self,
        alloc: Global,
        (note, spot): (Note<'_>, Spot),
        subject: Subject<'_>,
    ) -> DeriveResult<()> {
        if let Some(what) = self.wrong_word(alloc, note, subject.over)? {
            return Err(wrong(alloc, spot, subject, what.as_str()));
        }
        let column = spot.column.saturating_add(note.offset);
        let inside = Spot { column, ..spot };
        match self.take(alloc, note, inside)? {
            Some(what) => Err(wrong(alloc, inside, subject, what)),
            None => Ok(()),
        }
    }

    /// Takes what a comment line says of its subject.
    fn take_line(
        &mut self,
        alloc: Global,
        token: &Token,
        subject: Subject<'_>,
    ) -> DeriveResult<()> {
        let spot = token.spot();
        if said_in(token.text.as_str()).is_none() {
            return Err(wrong(alloc, spot, subject, NEARLY));
        }
        match note_of(token.text.as_str()) {
            Some(note) => self.take_note(alloc, (note, spot), subject),
            None => {
                let what = "`wincode:` wants a word, `=` and a value";
                Err(wrong(alloc, spot, subject, what))
            }
        }
    }

    /// Takes what an attribute says, or refuses it.
    fn take_attribute(
        &mut self,
        alloc: Global,
        tokens: &[Token],
        (at, subject): (usize, Subject<'_>),
    ) -> DeriveResult<()> {
        let inside = next(next(at));
        let end = end_of_attribute(tokens, at)?;
        let spot = spot_at(tokens, at);
        match text_at(tokens, inside) {
            "derive"
                if has_word(tokens, (inside, end), "SchemaWrite")
                    || has_word(tokens, (inside, end), "SchemaRead") => {
                Err(wrong(
                    alloc,
                    spot,
                    subject,
                    "`SchemaRead` and `SchemaWrite` are derived by this program: leave them out",
                ))
            }
            "derive" => {
                self.is_eq = self.is_eq || has_word(tokens, (inside, end), "Eq");
                self.is_ord = self.is_ord || has_word(tokens, (inside, end), "Ord");
                Ok(())
            }
            "wincode" => {
                let what = line_for(alloc, tokens, (next(inside), end), subject)?;
                Err(wrong(alloc, spot, subject, what.as_str()))
            }
            "cfg" | "cfg_attr" => {
                let over = subject.over.name();
                let what = format!(in alloc;
                    "`#[cfg(..)]` on {over}: the schema would be one for all settings"
                )?;
                Err(wrong(alloc, spot, subject, what.as_str()))
            }
            _ => Ok(()),
        }
    }
}

const NEARLY: &str =
    "write `// wincode: WORD = VALUE`, with two strokes and in these letters, on a line of its own";

/// Whether a word stands there.
fn has_word(tokens: &[Token], (from, to): (usize, usize), word: &str) -> bool {
    (from..to).any(|at| is_word(tokens, at, word))
}

/// A literal without its quotes.
fn unquoted(text: &str) -> &str {
    text.trim_matches('"')
}

/// The part of a type that another stands for in a schema: what it holds, or `TYPE` where that isn't seen.
fn item_of(alloc: Global, held: &str) -> DeriveResult<String> {
    let tokens = tokens_of(alloc, held)?;
    let tokens = tokens.as_slice();
    let Some(open) = (0..tokens.len()).find(|at| is_sign(tokens, *at, "<")) else {
        return Ok(String::from_str(alloc, "TYPE")?);
    };
    let close = close_of(tokens, open).unwrap_or(tokens.len());
    let end = end_of_part(tokens, next(open), close);
    if is_sign(tokens, next(open), "[") {
        return type_text(alloc, tokens, next(next(open)), end.saturating_sub(1));
    }
    type_text(alloc, tokens, next(open), end)
}

/// A schema with what it stands for in the place of each `_`.
pub fn filled(alloc: Global, schema: &str, held: &str) -> DeriveResult<String> {
    let mut tokens = tokens_of(alloc, schema)?;
    let item = item_of(alloc, held)?;
    for token in tokens.iter_mut() {
        if token.kind == Kind::Word && token.text.as_str() == "_" {
            token.text = String::from_str(alloc, item.as_str())?;
        }
    }
    let count = tokens.len();
    type_text(alloc, tokens.as_slice(), 0, count)
}

/// The value of a comment line, whose tokens stand there.
fn value_at(
    alloc: Global,
    tokens: &[Token],
    ((from, to), held): ((usize, usize), &str),
) -> DeriveResult<String> {
    let value = type_text(alloc, tokens, from, to)?;
    filled(alloc, unquoted(value.as_str()), held)
}

/// Whether a word that has a comment line stands there, and `=` behind it.
fn says(tokens: &[Token], at: usize) -> bool {
    let word = text_at(tokens, at);
    is_sign(tokens, next(at), "=") && LINES.iter().any(|known| *known == word)
}

/// Appends the comment line that says what stands between these commas.
fn put_line(
    alloc: Global,
    out: &mut String,
    tokens: &[Token],
    ((from, to), held): ((usize, usize), &str),
) -> DeriveResult<bool> {
    if !says(tokens, from) {
        return Ok(false);
    }
    let value = value_at(alloc, tokens, ((next(next(from)), to), held));
    let between = if out.is_empty() { "" } else { " and " };
    put(
        out,
        &[between, "`// wincode: ", text_at(tokens, from), " = "],
    )?;
    put_text(out, value)?;
    out.push('`')?;
    Ok(true)
}

/// A word that no comment line says.
fn unsaid(alloc: Global, word: &str) -> DeriveResult<String> {
    Ok(format!(in alloc; "no line says what `#[wincode({word})]` does: leave it out")?)
}

/// The comment lines to write over this, which has some or none.
fn over_of(alloc: Global, lines: &str, over: &str) -> DeriveResult<String> {
    if lines.is_empty() {
        return Ok(String::from_str(alloc, "leave `#[wincode]` out")?);
    }
    Ok(format!(in alloc; "in the place of `#[wincode(..)]` write over {over} the line {lines}")?)
}

/// What to write in the place of `#[wincode(..)]`, whose bracket is opened there.
fn line_for(
    alloc: Global,
    tokens: &[Token],
    (open, end): (usize, usize),
    subject: Subject<'_>,
) -> DeriveResult<String> {
    let close = close_of(tokens, open).unwrap_or(open).min(end);
    let mut lines = String::new(alloc);
    let mut at = next(open);
    for _ in 0..close {
        if at >= close {
            break;
        }
        let to = end_of_part(tokens, at, close);
        if !put_line(alloc, &mut lines, tokens, ((at, to), subject.held))? {
            return unsaid(alloc, text_at(tokens, at));
        }
        at = next(to);
    }
    over_of(alloc, lines.as_str(), subject.over.name())
}

/// What comment lines and attributes say of their subject; what is wrong is told.
pub fn said_of(
    alloc: Global,
    tokens: &[Token],
    report: &mut Report,
    (head, subject): (&Head, Subject<'_>),
) -> DeriveResult<Said> {
    let mut said = Said::nothing();
    take_lines(alloc, tokens, report, (head, subject), &mut said)?;
    take_attributes(alloc, tokens, report, (head, subject), &mut said)?;
    Ok(said)
}

/// Takes what the comment lines say.
fn take_lines(
    alloc: Global,
    tokens: &[Token],
    report: &mut Report,
    (head, subject): (&Head, Subject<'_>),
    said: &mut Said,
) -> DeriveResult<()> {
    for at in head.notes.iter() {
        if let Some(token) = tokens.get(*at) {
            report.take_note(*at)?;
            let answer = said.take_line(alloc, token, subject);
            report.keep(alloc, answer)?;
        }
    }
    Ok(())
}

/// Takes what the attributes say.
fn take_attributes(
    alloc: Global,
    tokens: &[Token],
    report: &mut Report,
    (head, subject): (&Head, Subject<'_>),
    said: &mut Said,
) -> DeriveResult<()> {
    for at in head.attributes.iter() {
        let answer = said.take_attribute(alloc, tokens, (*at, subject));
        report.keep(alloc, answer)?;
    }
    Ok(())
}

/// Tells of each comment line that nothing has taken.
pub fn tell_untaken(alloc: Global, tokens: &[Token], report: &mut Report) -> DeriveResult<()> {
    for (i, token) in tokens.iter().enumerate() {
        if token.kind != Kind::Note || report.has_taken(i) {
            continue;
        }
        let what = if is_behind(tokens, i) {
            "a `wincode:` line stands over what it is of, and not behind it"
        } else if said_in(token.text.as_str()).is_none() {
            NEARLY
        } else {
            "this line stands over no struct, enum, field or case"
        };
        report.tell(token.spot(), String::from_str(alloc, what)?)?;
    }
    Ok(())
}

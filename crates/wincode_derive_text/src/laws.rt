//! The law of reading of fields in whose types parameters stand, put together from those of their parts.
use crate::error::{DeriveError, DeriveResult, unsupported};
use crate::parsing::{end_of_group, end_of_part, next, text_at, type_text};
use crate::printing::{Words, fill, owned, put, text_of};
use crate::tokens::{Kind, Token, tokens_of};
use std::alloc::Global;

/// A part whose own part is being written.
#[derive(Drop)]
struct Frame {
    /// Where its parts end.
    end: usize,
    /// Where what stands behind it begins.
    behind: usize,
    /// Whether its parts are put together in pairs, and how many are to come.
    pairs: usize,
    /// What is written behind its parts.
    closing: String,
}

/// The law so far, and what it is made of.
#[derive(Drop)]
struct Law {
    out: String,
    frames: Vec<Frame>,
    at: usize,
}

/// The laws of lists behind a length of choice, by their names.
const LISTS: [(&str, &str); 5] = [
    ("Vec", "list_laws"),
    ("VecDeque", "list_laws"),
    ("BoxedSlice", "slice_laws"),
    ("RcSlice", "slice_laws"),
    ("ArcSlice", "slice_laws"),
];

/// The laws of what has one part, or two, by its name.
const PARTS: [(&str, &str); 16] = [
    ("Vec", "vec_laws"),
    ("VecDeque", "vec_laws"),
    ("LinkedList", "vec_laws"),
    ("Option", "option_laws"),
    ("Box", "box_laws"),
    ("Rc", "box_laws"),
    ("Arc", "box_laws"),
    ("Result", "result_laws"),
    ("Wrapping", "same_laws"),
    ("Saturating", "same_laws"),
    ("Reverse", "same_laws"),
    ("RangeFrom", "same_laws"),
    ("RangeTo", "same_laws"),
    ("Range", "range_laws"),
    ("RangeInclusive", "range_laws"),
    ("Bound", "bound_laws"),
];

/// The laws of cases, by their names: a tag's scheme or a number stands in front of their parts.
const CASES: [(&str, &str); 5] = [
    ("OneOf", "enum_read_laws"),
    ("Case", "case_laws"),
    ("Last", "last_case_laws"),
    ("Counted", "counted_case_laws"),
    ("Split", "split_laws"),
];

/// What the laws of maps begin with and end in, by their names.
const MAPS: [(&str, &str, &str); 2] = [
    (
        "BTreeMap",
        "(map_laws @key@.model @value@.model @key@.read_laws ",
        "
            @key@.order @key@.order_total @key@.equal @key@.order_ties @key@.alike)",
    ),
    (
        "HashMap",
        "(hash_map_laws @key@.model @value@.model @key@.read_laws ",
        "
            @key@.equal @key@.equivalence @key@.alike)",
    ),
];

/// The word of a law, by that of a type.
fn word_of(table: &[(&'static str, &'static str)], name: &str) -> Option<&'static str> {
    for (known, word) in table {
        if *known == name {
            return Some(*word);
        }
    }
    None
}

/// The bytes of a scheme of tags, or what else it is.
fn bytes_of(alloc: Global, scheme: String) -> DeriveResult<String> {
    match scheme.as_str() {
        "u8" => owned(alloc, "1"),
        "u16" => owned(alloc, "2"),
        "u32" => owned(alloc, "4"),
        "u64" => owned(alloc, "8"),
        _ => Ok(scheme),
    }
}

/// Whether one of these names stands in these tokens.
fn has_name(tokens: &[Token], from: usize, to: usize, names: &[String]) -> bool {
    tokens.iter().take(to).skip(from).any(|token| names
        .iter()
        .any(|name| name.as_str() == token.text.as_str()))
}

/// How many parts stand there, with commas between them.
fn count_parts(tokens: &[Token], from: usize, to: usize) -> usize {
    let mut count = 0usize;
    let mut at = from;
    for _ in from..to {
        if at >= to {
            break;
        }
        count = next(count);
        at = next(end_of_part(tokens, at, to));
    }
    count
}

/// A parameter that stands where no law is known of.
fn unknown_at(line: usize) -> DeriveError {
    unsupported(
        line,
        "a parameter inside of a type that is none of the library's",
    )
}

/// The laws of the key that stands there.
fn key_at(alloc: Global, tokens: &[Token], (from, to): (usize, usize)) -> DeriveResult<String> {
    let key = type_text(alloc, tokens, from, to)?;
    let key = key.as_str();
    Ok(format!(in alloc; "⟦<{key} as LawfulKey<L>>⟧")?)
}

/// The laws of the value that stands there.
fn value_at(alloc: Global, tokens: &[Token], (from, to): (usize, usize)) -> DeriveResult<String> {
    let value = type_text(alloc, tokens, from, to)?;
    let value = value.as_str();
    Ok(format!(in alloc; "⟦<{value} as SchemaRead<L>>⟧")?)
}

/// The laws of the length whose scheme stands there.
fn length_at(alloc: Global, tokens: &[Token], (from, to): (usize, usize)) -> DeriveResult<String> {
    let scheme = type_text(alloc, tokens, from, to)?;
    let scheme = scheme.as_str();
    Ok(format!(in alloc; "⟦<{scheme} as SeqLen>⟧")?)
}

/// What a map's law begins with and ends in, by its name.
fn map_of(name: &str) -> Option<(&'static str, &'static str)> {
    for (known, before, after) in &MAPS {
        if *known == name {
            return Some((*before, *after));
        }
    }
    None
}

impl Law {
    /// Begins a part whose own parts end there.
    fn open(
        &mut self,
        begin: usize,
        (end, behind): (usize, usize),
        closing: String,
    ) -> DeriveResult<()> {
        self.frames.push(Frame {
            end,
            behind,
            pairs: 0,
            closing,
        })?;
        self.at = begin;
        Ok(())
    }

    /// A tuple, as pairs in pairs.
    fn open_tuple(&mut self, alloc: Global, tokens: &[Token]) -> DeriveResult<()> {
        let close = end_of_group(tokens, self.at)?;
        let pairs = count_parts(tokens, next(self.at), close);
        self.out.push_str("(windowed_read_laws (pair_read_laws ")?;
        let begin = next(self.at);
        self.open(begin, (close, next(close)), owned(alloc, "))")?)?;
        if let Some(frame) = self.frames.last_mut() {
            frame.pairs = pairs;
        }
        Ok(())
    }

    /// A list of `containers`, whose length's scheme stands behind its item.
    fn open_list(
        &mut self,
        alloc: Global,
        tokens: &[Token],
        word: &str,
        (begin, close): (usize, usize),
    ) -> DeriveResult<()> {
        let end = end_of_part(tokens, begin, close);
        let length = length_at(alloc, tokens, (next(end), close))?;
        let length = length.as_str();
        put(
            &mut self.out,
            &["(", word, " ", length, ".scheme ", length, ".scheme_laws "],
        )?;
        self.open(begin, (end, next(close)), owned(alloc, ")")?)
    }

    /// Cases, or what stands for them.
    fn open_cases(
        &mut self,
        alloc: Global,
        tokens: &[Token],
        word: &str,
        (begin, close): (usize, usize),
    ) -> DeriveResult<()> {
        let end = end_of_part(tokens, begin, close);
        let number = type_text(alloc, tokens, begin, end)?;
        let number = bytes_of(alloc, number)?;
        let number = number.as_str();
        put(&mut self.out, &["\n        (", word, " ", number, " "])?;
        self.open(next(end), (close, next(close)), owned(alloc, ")")?)
    }

    /// A map, whose key names no parameter.
    fn open_map(
        &mut self,
        alloc: Global,
        tokens: &[Token],
        (before, after): (&str, &str),
        (begin, close): (usize, usize),
    ) -> DeriveResult<()> {
        let end = end_of_part(tokens, begin, close);
        let mut words = Words::new(alloc);
        words.set("key", key_at(alloc, tokens, (begin, end)));
        words.set("value", value_at(alloc, tokens, (next(end), close)));
        fill(&mut self.out, before, &mut words)?;
        let closing = text_of(alloc, after, &mut words)?;
        self.open(next(end), (close, next(close)), closing)
    }

    /// A type with one part or two.
    fn open_parts(
        &mut self,
        alloc: Global,
        word: &str,
        (begin, close): (usize, usize),
    ) -> DeriveResult<()> {
        put(&mut self.out, &["(", word, " "])?;
        self.open(begin, (close, next(close)), owned(alloc, ")")?)
    }

    /// A type with parts of its own, which stand there, by its name.
    fn open_by_name(
        &mut self,
        alloc: Global,
        tokens: &[Token],
        (name, line): (&str, usize),
        place: (usize, usize),
    ) -> DeriveResult<()> {
        let is_container = text_at(tokens, self.at) == "containers";
        if let Some(word) = word_of(&CASES, name) {
            return self.open_cases(alloc, tokens, word, place);
        }
        let table: &[(&'static str, &'static str)] = if is_container { &LISTS } else { &PARTS };
        match word_of(table, name) {
            Some(word) if is_container => self.open_list(alloc, tokens, word, place),
            Some(word) => self.open_parts(alloc, word, place),
            None => Err(unknown_at(line)),
        }
    }

    /// What the law of a map begins with and ends in, if one stands there whose key names none of these.
    fn map_at(
        &self,
        tokens: &[Token],
        names: &[String],
        (open, close): (usize, usize),
    ) -> Option<(&'static str, &'static str)> {
        let key = end_of_part(tokens, next(open), close);
        if text_at(tokens, self.at) == "containers" || has_name(tokens, next(open), key, names) {
            return None;
        }
        map_of(text_at(tokens, open.saturating_sub(1)))
    }

    /// A type with parts of its own.
    fn open_named(
        &mut self,
        alloc: Global,
        tokens: &[Token],
        (names, line): (&[String], usize),
    ) -> DeriveResult<()> {
        let Some(open) = (self.at..tokens.len()).find(|i| text_at(tokens, *i) == "<") else {
            return Err(unknown_at(line));
        };
        let close = end_of_group(tokens, open)?;
        let place = (next(open), close);
        let name = text_at(tokens, open.saturating_sub(1));
        match self.map_at(tokens, names, (open, close)) {
            Some(around) => self.open_map(alloc, tokens, around, place),
            None => self.open_by_name(alloc, tokens, (name, line), place),
        }
    }

    /// What stands behind a part: the end of what it is a part of, or the next part.
    fn step_behind(&mut self, alloc: Global) -> DeriveResult<()> {
        let Some(mut frame) = self.frames.pop() else {
            self.at = next(self.at);
            return Ok(());
        };
        if self.at >= frame.end {
            self.out.push_str(frame.closing.as_str())?;
            self.at = frame.behind;
            return Ok(());
        }
        self.at = next(self.at);
        let between = if self.frames.is_empty() {
            "\n        "
        } else {
            " "
        };
        self.out.push_str(between)?;
        frame.pairs = frame.pairs.saturating_sub(1);
        if frame.pairs >= 2 {
            self.out.push_str("(pair_read_laws ")?;
            frame.closing = format!(in alloc; "){0}", frame.closing.as_str())?;
        }
        self.frames.push(frame)?;
        Ok(())
    }

    /// A part without parameters, up to there.
    fn put_whole(&mut self, alloc: Global, tokens: &[Token], end: usize) -> DeriveResult<()> {
        let text = type_text(alloc, tokens, self.at, end)?;
        put(
            &mut self.out,
            &["⟦<", text.as_str(), " as Lawful<L>>⟧.read_laws"],
        )?;
        self.at = end;
        Ok(())
    }

    /// A part in which parameters stand, up to there.
    fn open_part(
        &mut self,
        alloc: Global,
        (tokens, end): (&[Token], usize),
        of: (&[String], usize),
    ) -> DeriveResult<()> {
        match text_at(tokens, self.at) {
            parameter if next(self.at) == end => {
                self.at = end;
                put(&mut self.out, &[parameter, ".read_laws"])
            }
            "(" => self.open_tuple(alloc, tokens),
            "[" => Err(unsupported(of.1, "an array of a type parameter")),
            _ => self.open_named(alloc, tokens, of),
        }
    }

    /// A part, from its first token.
    fn step(
        &mut self,
        alloc: Global,
        tokens: &[Token],
        of: (&[String], usize),
    ) -> DeriveResult<()> {
        let limit = match self.frames.last() {
            Some(frame) => frame.end,
            None => tokens.len(),
        };
        let end = end_of_part(tokens, self.at, limit);
        if self.at >= end {
            return self.step_behind(alloc);
        }
        let is_cases = word_of(&CASES, text_at(tokens, self.at)).is_some();
        if is_cases || has_name(tokens, self.at, end, of.0) {
            self.open_part(alloc, (tokens, end), of)
        } else {
            self.put_whole(alloc, tokens, end)
        }
    }
}

/// The law of what these tokens say, with all its parts.
fn whole_law(alloc: Global, tokens: &[Token], of: (&[String], usize)) -> DeriveResult<Law> {
    let mut law = Law {
        out: String::new(alloc),
        frames: Vec::new(alloc),
        at: 0,
    };
    for _ in 0..tokens.len().saturating_mul(2).saturating_add(2) {
        if law.at >= tokens.len() && law.frames.is_empty() {
            break;
        }
        law.step(alloc, tokens, of)?;
    }
    Ok(law)
}

/// The law of reading of a schema in which these parameters stand, as a term.
pub fn law_of(
    alloc: Global,
    schema: &str,
    parameters: &[String],
    line: usize,
) -> DeriveResult<String> {
    let tokens = tokens_of(alloc, schema)?;
    let law = whole_law(alloc, tokens.as_slice(), (parameters, line))?;
    Ok(law.out)
}

/// A type with what each parameter has as this in its place, as `A::Src` for `A`.
pub fn seen_by(
    alloc: Global,
    text: &str,
    parameters: &[String],
    member: &str,
) -> DeriveResult<String> {
    let mut tokens = tokens_of(alloc, text)?;
    for token in tokens.iter_mut() {
        let name = token.text.as_str();
        if token.kind == Kind::Word && parameters.iter().any(|known| known.as_str() == name) {
            token.text = format!(in alloc; "{name}::{member}")?;
        }
    }
    let count = tokens.len();
    type_text(alloc, tokens.as_slice(), 0, count)
}

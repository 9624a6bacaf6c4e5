//! The tokens of a type's text, or of a source, one after another.
ghost use Rattle.std.specs.Prelude.{◌≡◌, ◌<◌, ◌==◌, if◌then◌else◌, [], length, drop, true, option_map, string_bytes};
ghost use Rattle.std.specs.Bool.{OnFalse};
ghost use Rattle.std.specs.Str.{chars};
ghost use Rattle.wincode_derive_text.specs.Splits.{tokens_in};
ghost use Rattle.wincode_describe.specs.Phrases.{HasTokens, Reads, behind_name, behind_sign, front_text, left, needed, number_front, pieces, word_front};
ghost use Rattle.wincode_describe.specs.Readers.{lifetime_front, sign_front};
ghost use Rattle.wincode_describe.specs.Sources.{
  PassesHead,
  behind_head,
  behind_inside,
  behind_pub,
  closes,
  heads,
  is_limited,
  is_noted,
  is_noted_at,
  opens,
};
ghost use Rattle.wincode_derive_text.specs.declared.tokens.Kind.TheVariants.{Sign as KindSign};
ghost use Rattle.wincode_describe.specs.declared.tokens.Over.TheVariants.{Between};

use crate::error::{DescribeError, DescribeResult, wanted};
use std::alloc::Global;
use wincode_derive_text::{DeriveError, Kind, Token, note_of, tokens_of};

/// Where a token stands among what stands in front of a field or a case.
#[derive(Clone, Copy)]
pub(crate) enum Over {
    /// In no attribute.
    Between,
    /// Where a bracket is to be opened.
    Opening,
    /// In an attribute, and in so many brackets within its own.
    Inside(usize),
}

/// Tokens, and which of them is the next.
#[derive(Clone, Copy)]
pub(crate) struct Tokens<'a> {
    tokens: &'a [Token],
    next: usize,
    /// How many bytes the text has.
    size: usize,
}

/// Whether the sign opens a bracket.
pub(crate) fn opens(sign: &str) -> bool
    ensures { result ≡ opens sign.now }
{
    matches!(sign, "(" | "[" | "{")
}

/// Whether the sign closes a bracket.
pub(crate) fn closes(sign: &str) -> bool
    ensures { result ≡ closes sign.now }
{
    matches!(sign, ")" | "]" | "}")
}

/// What a comment line says by this word, if it does.
pub(crate) fn said_by<'a>(note: &'a str, word: &str) -> &'a str {
    match note_of(note) {
        Some(said) if said.word == word => said.value,
        _ => "",
    }
}

/// Where a token stands behind this sign, which stands in an attribute.
fn behind_inside(depth: usize, sign: &str) -> Option<Over>
    ensures { result ≡ behind_inside depth sign.now }
{
    if opens(sign) {
        match depth.checked_add(1) {
            Some(deeper) => Some(Over::Inside(deeper)),
            None => None,
        }
    } else if !closes(sign) {
        Some(Over::Inside(depth))
    } else if depth > 0 {
        Some(Over::Inside(depth - 1))
    } else {
        Some(Over::Between)
    }
}

/// The tokens of a type's text.
pub(crate) fn text_tokens(alloc: Global, text: &str) -> DescribeResult<Vec<Token>>
    ensures { HasTokens (tokens_in (chars text.now)) result }
{
    match tokens_of(alloc, text) {
        Ok(tokens) => Ok(tokens),
        Err(DeriveError::OutOfMemory) => Err(DescribeError::OutOfMemory),
        Err(_) => Err(wanted("the end of a text or a comment", text.len())),
    }
}

impl<'a> Tokens<'a> {
    /// Those of a text of so many bytes, from the first on.
    pub(crate) fn new(tokens: &'a [Token], size: usize) -> Tokens<'a>
        ensures { left result ≡ pieces tokens.now }
    {
        Tokens {
            tokens,
            next: 0,
            size,
        }
    }

    /// The byte at which the next token begins.
    pub(crate) fn place(&self) -> usize {
        match self.tokens.get(self.next) {
            Some(token) => token.at,
            None => self.size,
        }
    }

    /// Whether no token is left.
    pub(crate) fn is_empty(&self) -> bool
        ensures { result ≡ (length (left self.now) == 0) }
    {
        self.next >= self.tokens.len()
    }

    /// The text of the next token, if it is of the kind, and else none.
    fn text_of(&self, kind: Kind) -> &'a str
        ensures { result.now ≡ front_text kind (left self.now) }
    {
        match self.tokens.get(self.next) {
            Some(token) if token.kind == kind => token.text.as_str(),
            _ => "",
        }
    }

    /// What stands behind the next token.
    pub(crate) fn behind(&self) -> Tokens<'a>
        ensures { left result ≡ drop 1 (left self.now) }
    {
        let mut behind = *self;
        behind.skip();
        behind
    }

    /// Goes past the next token.
    fn skip(&mut self)
        ensures { left self.new ≡ drop 1 (left self.old) }
    {
        if self.next < self.tokens.len() {
            self.next += 1;
        }
    }

    /// Takes the sign, if it is the next token.
    pub(crate) fn takes(&mut self, sign: &str) -> bool
        requires { 0 < length sign.now }
        ensures taken { behind_sign sign.now (left self.old) ≡ (if result then Some (left self.new) else None) }
        ensures kept { OnFalse result (left self.new ≡ left self.old) }
    {
        if self.text_of(Kind::Sign) != sign {
            return false;
        }
        self.skip();
        true
    }

    /// Takes the sign, which has to be the next token.
    pub(crate) fn expect(&mut self, sign: &str, what: &'static str) -> DescribeResult<()>
        requires { 0 < length sign.now }
        ensures { Reads [] (λ u. u) (sign_front sign.now (left self.old)) result
            (left self.new) }
    {
        if self.takes(sign) {
            Ok(())
        } else {
            Err(wanted(what, self.place()))
        }
    }

    /// Takes the word, if it is the next token.
    pub(crate) fn takes_word(&mut self, word: &str) -> bool
        requires { 0 < length word.now }
        ensures taken { behind_name word.now (left self.old) ≡ (if result then Some (left self.new) else None) }
        ensures kept { OnFalse result (left self.new ≡ left self.old) }
    {
        if self.text_of(Kind::Word) != word {
            return false;
        }
        self.skip();
        true
    }

    /// Passes a lifetime and the comma behind it, if a lifetime is the next token.
    pub(crate) fn pass_lifetime(&mut self) -> DescribeResult<()>
        ensures { Reads [] (λ u. u) (lifetime_front (left self.old)) result
            (left self.new) }
    {
        if self.text_of(Kind::Lifetime).is_empty() {
            return Ok(());
        }
        self.skip();
        self.expect(",", "`,`")
    }

    /// Whether `(crate)`, `(super)`, `(self)` or `(in ..)` stands there.
    fn is_limited(&self) -> bool
        ensures { result ≡ is_limited (left self.now) }
    {
        let inside = self.behind();
        let word = inside.text_of(Kind::Word);
        self.text_of(Kind::Sign) == "("
            && (word == "in"
                || (inside.behind().text_of(Kind::Sign) == ")"
                    && matches!(word, "crate" | "super" | "self")))
    }

    /// Where a token stands behind `pub`, which is of a head unless it is a field's name.
    fn behind_pub(&self) -> Option<Over>
        ensures { result ≡ behind_pub (left self.now) }
    {
        if self.is_limited() {
            Some(Over::Opening)
        } else if self.text_of(Kind::Sign) == ":" {
            None
        } else {
            Some(Over::Between)
        }
    }

    /// So, where the next token stands in no attribute.
    fn behind_between(&self) -> Option<Over>
        ensures { result ≡ behind_head Between (left self.now) }
    {
        if !self.text_of(Kind::Note).is_empty() {
            Some(Over::Between)
        } else if self.text_of(Kind::Sign) == "#" {
            Some(Over::Opening)
        } else if self.text_of(Kind::Word) == "pub" {
            self.behind().behind_pub()
        } else {
            None
        }
    }

    /// Where the token behind the next one stands, if the next one is of a head.
    fn behind_head(&self, over: Over) -> Option<Over>
        ensures { result ≡ behind_head over (left self.now) }
    {
        match over {
            Over::Between => self.behind_between(),
            Over::Opening if opens(self.text_of(Kind::Sign)) => Some(Over::Inside(0)),
            Over::Opening => None,
            Over::Inside(_) if self.is_empty() => None,
            Over::Inside(depth) => behind_inside(depth, self.text_of(Kind::Sign)),
        }
    }

    /// Whether the next token is a comment line that says something, and stands in no attribute.
    fn is_noted(&self, over: Over) -> bool
        ensures { result ≡ is_noted over (left self.now) }
    {
        match over {
            Over::Between => !self.text_of(Kind::Note).is_empty(),
            _ => false,
        }
    }

    /// Passes what stands in front of a field or a case: `pub`, attributes, and comment lines that say something of it, the
    /// last of which it gives.
    pub(crate) fn takes_head(&mut self) -> Option<&'a str>
        ensures { PassesHead (heads Between (left self.old)) result (left self.new) }
    {
        let mut note = None;
        let mut over = Over::Between;
        while let Some(behind) = self.behind_head(over) {
            if self.is_noted(over) {
                note = Some(self.text_of(Kind::Note));
            }
            over = behind;
            self.skip();
        }
        note
    }

    /// Passes the type that stands there: up to a comma outside of brackets, or to the bracket that it stands in.
    pub(crate) fn skip_type(&mut self) {
        let mut depth = 0usize;
        while !self.is_empty() {
            let sign = self.text_of(Kind::Sign);
            let is_closing = closes(sign) || sign == ">";
            if depth == 0 && (is_closing || sign == ",") {
                return;
            }
            if opens(sign) || sign == "<" {
                depth = depth.saturating_add(1);
            } else if is_closing {
                depth = depth.saturating_sub(1);
            }
            self.skip();
        }
    }

    /// The word that is the next token, and what stands behind it.
    pub(crate) fn first_word(&self) -> Option<(&'a str, Tokens<'a>)>
        ensures { option_map (λ w. (w.0.now, left w.1)) result ≡ word_front (left self.now) }
    {
        let word = self.text_of(Kind::Word);
        if word.is_empty() {
            return None;
        }
        Some((word, self.behind()))
    }

    /// The sign that is the next token, or nothing.
    pub(crate) fn sign(&self) -> &'a str
        ensures { result.now ≡ front_text KindSign (left self.now) }
    {
        self.text_of(Kind::Sign)
    }

    /// Whether the next token is a comment line that says something, outside of brackets.
    pub(crate) fn is_noted_at(&self, depth: usize) -> bool
        ensures { result ≡ is_noted_at depth (left self.now) }
    {
        depth == 0 && !self.text_of(Kind::Note).is_empty()
    }

    /// Takes the word that is the next token.
    pub(crate) fn word(&mut self, alloc: Global, what: &'static str) -> DescribeResult<String>
        ensures { Reads [] string_bytes (needed (word_front (left self.old))) result (left self.new) }
    {
        let Some((word, behind)) = self.first_word() else {
            return Err(wanted(what, self.place()));
        };
        let word = String::from_str(alloc, word)?;
        *self = behind;
        Ok(word)
    }

    /// Takes the number that is the next token.
    pub(crate) fn number(&mut self, what: &'static str) -> DescribeResult<usize>
        ensures { Reads [] (λ n. n) (needed (number_front (left self.old))) result (left self.new) }
    {
        match self.text_of(Kind::Word).parse::<usize>() {
            Ok(number) => {
                self.skip();
                Ok(number)
            }
            Err(_) => Err(wanted(what, self.place())),
        }
    }
}

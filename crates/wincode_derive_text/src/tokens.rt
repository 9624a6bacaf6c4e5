//! A source file as tokens.
ghost use Rattle.std.specs.Prelude.{◌≡◌, IfOk, IsOkUnless};
ghost use Rattle.std.specs.Str.{chars};
ghost use Rattle.std.specs.String.{string_bytes};
ghost use Rattle.wincode_derive_text.specs.Splits.{of_word, fence_behind, ended, kept, closed, begun, in_front, in_word, behind_colon, behind_slash};
ghost use Rattle.wincode_derive_text.specs.Splits.{in_quote, ends_before, in_text, passed, in_line, in_block};
ghost use Rattle.wincode_derive_text.specs.Splits.{reached, taken, Takes, TakesIfKnown, tokens_in, Splits};
ghost use Rattle.wincode_derive_text.specs.declared.error.DeriveError.TheVariants.{OutOfMemory};

use crate::error::{DeriveError, DeriveResult, Spot, refused_as};
use crate::notes::is_note;
use std::alloc::Global;

/// What a token is.
#[derive(Debug, Clone, Copy, PartialEq)]
pub enum Kind {
    /// A name, a keyword or a number.
    Word,
    /// A lifetime, with its quote.
    Lifetime,
    /// A text or a character, with its quotes.
    Literal,
    /// `::`, or a character that is none of the others.
    Sign,
    /// A comment that begins as `// wincode:` does, or nearly so: all of it.
    Note,
}

/// A token, the line and the column that it begins at, counted from 1, and the byte of the text, counted from 0.
#[derive(Debug, Drop)]
pub struct Token {
    pub kind: Kind,
    pub text: String,
    pub line: usize,
    pub column: usize,
    pub at: usize,
}

impl Token {
    /// Where it begins.
    pub fn spot(&self) -> Spot {
        Spot {
            line: self.line,
            column: self.column,
        }
    }
}

/// Where in a file the next character stands.
#[derive(Clone, Copy, PartialEq)]
enum Place {
    Between,
    Word,
    /// Behind a quote.
    Quote,
    /// Behind a quote and a letter.
    Name,
    /// Behind a quote and another character.
    Char,
    /// Behind a quote and a `\`.
    Escape,
    /// Behind these and one more.
    Escaped,
    Text,
    TextEscape,
    /// In a text that a `"` with as many `#` ends as it began with.
    Raw,
    /// Behind a `"` in such a text.
    RawEnd,
    Colon,
    Slash,
    Comment,
    Block,
    BlockStar,
    BlockSlash,
}

/// A place in a text, as a token has it.
#[derive(Clone, Copy, PartialEq)]
struct Mark {
    line: usize,
    column: usize,
    at: usize,
}

/// The tokens so far, and the one that is being read.
#[derive(Drop)]
struct Lexer {
    tokens: Vec<Token>,
    word: String,
    place: Place,
    /// Where the next character stands.
    here: Mark,
    /// Where the token that is being read begins.
    begin: Mark,
    /// How many comments round the next character are to be ended, or how many `#` are to come.
    depth: usize,
    /// How many `#` end a text that directly follows the last token; none where it isn't raw.
    fence: Option<usize>,
}

fn is_of_word(c: char) -> bool
    ensures { result ≡ of_word c }
{
    c.is_ascii_alphanumeric() || c == '_'
}

/// How many `#` end a text that directly follows that token; none where it isn't raw.
fn fence_of(kind: Kind, text: &str, fence: Option<usize>) -> DeriveResult<Option<usize>>
    ensures fence { IfOk result (λ answer. answer ≡ fence_behind kind text.now fence) }
    ensures memory { IsOkUnless result OutOfMemory }
{
    match (kind, text, fence) {
        (Kind::Word, "r" | "br" | "cr", _) => Ok(Some(0)),
        (Kind::Sign, "#", Some(count)) => {
            // (no memory has room for so many)
            let more = count.checked_add(1).ok_or(DeriveError::OutOfMemory)?;
            Ok(Some(more))
        }
        _ => Ok(None),
    }
}

impl Lexer {
    /// Ends the token that was being read.
    fn end(&mut self, alloc: Global, kind: Kind) -> DeriveResult<()>
        ensures { Takes self.old self.new result (ended kind (string_bytes self.old.word) self.old.fence) }
    {
        let fence = fence_of(kind, self.word.as_str(), self.fence)?;
        let text = String::from_str(alloc, self.word.as_str())?;
        let Mark { line, column, at } = self.begin;
        self.tokens.push(Token {
            kind,
            text,
            line,
            column,
            at,
        })?;
        self.word.clear();
        self.place = Place::Between;
        self.depth = 0;
        self.fence = fence;
        Ok(())
    }

    /// A character behind the end of a token.
    fn begin(&mut self, alloc: Global, c: char) -> DeriveResult<()>
        ensures { Takes self.old self.new result (begun self.old.fence c) }
    {
        self.word.clear();
        self.depth = 0;
        self.begin = self.here;
        self.place = match c {
            '"' if self.fence.is_some() => Place::Raw,
            '"' => Place::Text,
            '\'' => Place::Quote,
            ':' => Place::Colon,
            '/' => Place::Slash,
            _ if is_of_word(c) => Place::Word,
            _ => Place::Between,
        };
        if c.is_whitespace() {
            self.fence = None;
            return Ok(());
        }
        self.word.push(c)?;
        if self.place == Place::Between {
            self.end(alloc, Kind::Sign)?;
        }
        Ok(())
    }

    /// A character that may end a token, and then begins the next.
    fn end_and_begin(&mut self, alloc: Global, kind: Kind, c: char) -> DeriveResult<()>
        ensures { Takes self.old self.new result (in_front kind (reached self.old) c) }
    {
        self.end(alloc, kind)?;
        self.begin(alloc, c)
    }

    /// The next character behind one of a word: a quote there is the prime of a ghost name, but for that of `b'x'`.
    fn worded(&mut self, alloc: Global, c: char) -> DeriveResult<()>
        ensures { Takes self.old self.new result (in_word (reached self.old) c) }
    {
        if is_of_word(c) || c == '\'' && self.word.as_str() != "b" {
            return self.keep(c, Place::Word);
        }
        self.end_and_begin(alloc, Kind::Word, c)
    }

    /// A character that belongs to the token, and where the next then stands.
    fn keep(&mut self, c: char, place: Place) -> DeriveResult<()>
        ensures { Takes self.old self.new result (kept place (reached self.old) c) }
    {
        self.word.push(c)?;
        self.place = place;
        Ok(())
    }

    /// A character that belongs to the token, and ends it.
    fn close(&mut self, alloc: Global, c: char, kind: Kind) -> DeriveResult<()>
        ensures { Takes self.old self.new result (closed kind (reached self.old) c) }
    {
        self.word.push(c)?;
        self.end(alloc, kind)
    }

    /// The next character of a quote: of a lifetime or a character.
    fn quoted(&mut self, alloc: Global, c: char) -> DeriveResult<()>
        ensures { Takes self.old self.new result (in_quote self.old.place (reached self.old) c) }
    {
        match self.place {
            Place::Escape => self.keep(c, Place::Escaped),
            Place::Escaped if c != '\'' && c != '\n' => self.keep(c, Place::Escaped),
            _ if c == '\'' => self.close(alloc, c, Kind::Literal),
            Place::Quote if c == '\\' => self.keep(c, Place::Escape),
            Place::Quote | Place::Name if is_of_word(c) => self.keep(c, Place::Name),
            Place::Quote => self.keep(c, Place::Char),
            _ => self.end_and_begin(alloc, Kind::Lifetime, c),
        }
    }

    /// A character that ends a raw text, if no `#` are to follow it.
    fn end_before(&mut self, alloc: Global, c: char, count: usize) -> DeriveResult<()>
        ensures { Takes self.old self.new result (ends_before count (reached self.old) c) }
    {
        if count == 0 {
            return self.close(alloc, c, Kind::Literal);
        }
        self.depth = count;
        self.keep(c, Place::RawEnd)
    }

    /// The next character of a text.
    fn texted(&mut self, alloc: Global, c: char) -> DeriveResult<()>
        ensures { Takes self.old self.new result (in_text self.old.place (reached self.old) c) }
    {
        match self.place {
            Place::RawEnd if c == '#' => self.end_before(alloc, c, self.depth.saturating_sub(1)),
            Place::Raw | Place::RawEnd if c == '"' => {
                self.end_before(alloc, c, self.fence.unwrap_or(0))
            }
            Place::Raw | Place::RawEnd => self.keep(c, Place::Raw),
            Place::TextEscape => self.keep(c, Place::Text),
            _ if c == '"' => self.close(alloc, c, Kind::Literal),
            _ if c == '\\' => self.keep(c, Place::TextEscape),
            _ => self.keep(c, Place::Text),
        }
    }

    /// The end of a comment: a note, or nothing.
    fn end_comment(&mut self, alloc: Global) -> DeriveResult<()>
        ensures { TakesIfKnown self.old self.new result (passed (string_bytes self.old.word)) }
    {
        if is_note(self.word.as_str()) {
            return self.end(alloc, Kind::Note);
        }
        self.word.clear();
        self.place = Place::Between;
        self.depth = 0;
        self.fence = None;
        Ok(())
    }

    /// The next character behind a colon: another, or what stands behind the sign.
    fn coloned(&mut self, alloc: Global, c: char) -> DeriveResult<()>
        ensures { Takes self.old self.new result (behind_colon (reached self.old) c) }
    {
        if c == ':' {
            return self.close(alloc, c, Kind::Sign);
        }
        self.end_and_begin(alloc, Kind::Sign, c)
    }

    /// The next character behind a slash: a comment begins, or the slash is a sign.
    fn slashed(&mut self, alloc: Global, c: char) -> DeriveResult<()>
        ensures { Takes self.old self.new result (behind_slash (reached self.old) c) }
    {
        match c {
            '/' => self.keep(c, Place::Comment),
            '*' => {
                self.depth = 1;
                self.keep(c, Place::Block)
            }
            _ => self.end_and_begin(alloc, Kind::Sign, c),
        }
    }

    /// The next character of a comment that ends with its line.
    fn lined(&mut self, alloc: Global, c: char) -> DeriveResult<()>
        ensures { TakesIfKnown self.old self.new result (in_line (reached self.old) c) }
    {
        if c == '\n' {
            return self.end_comment(alloc);
        }
        self.keep(c, Place::Comment)
    }

    /// The next character of a comment that `*/` ends.
    fn blocked(&mut self, alloc: Global, c: char) -> DeriveResult<()>
        ensures { TakesIfKnown self.old self.new result
            (in_block self.old.place (reached self.old) c) }
    {
        match self.place {
            Place::BlockStar if c == '/' && self.depth > 1 => {
                self.depth -= 1;
                self.keep(c, Place::Block)
            }
            Place::BlockStar if c == '/' => {
                self.word.push(c)?;
                self.end_comment(alloc)
            }
            Place::BlockSlash if c == '*' => {
                // (no memory has room for the text of so many)
                self.depth = self.depth.checked_add(1).ok_or(DeriveError::OutOfMemory)?;
                self.keep(c, Place::Block)
            }
            _ if c == '*' => self.keep(c, Place::BlockStar),
            _ if c == '/' => self.keep(c, Place::BlockSlash),
            _ => self.keep(c, Place::Block),
        }
    }

    /// The next character, as where it stands has it.
    fn take(&mut self, alloc: Global, c: char) -> DeriveResult<()>
        ensures { TakesIfKnown self.old self.new result (taken (reached self.old) c) }
    {
        match self.place {
            Place::Between => self.begin(alloc, c),
            Place::Word => self.worded(alloc, c),
            Place::Colon => self.coloned(alloc, c),
            Place::Slash => self.slashed(alloc, c),
            Place::Comment => self.lined(alloc, c),
            Place::Block | Place::BlockStar | Place::BlockSlash => self.blocked(alloc, c),
            Place::Text | Place::TextEscape | Place::Raw | Place::RawEnd => self.texted(alloc, c),
            _ => self.quoted(alloc, c),
        }
    }

    /// Goes on behind a character.
    fn go_on(&mut self, c: char)
        ensures { (self.new.tokens ≡ self.old.tokens) × (reached self.new ≡ reached self.old) }
    {
        if c == '\n' {
            self.here.line = self.here.line.saturating_add(1);
            self.here.column = 1;
        } else {
            self.here.column = self.here.column.saturating_add(1);
        }
        self.here.at = self.here.at.saturating_add(c.len_utf8());
    }

    /// Reads one more character.
    fn step(&mut self, alloc: Global, c: char) -> DeriveResult<()>
        ensures { TakesIfKnown self.old self.new result (taken (reached self.old) c) }
    {
        self.take(alloc, c)?;
        self.go_on(c);
        Ok(())
    }

    /// Where the token begins that is being read.
    fn spot(&self) -> Spot {
        Spot {
            line: self.begin.line,
            column: self.begin.column,
        }
    }
}

/// The tokens of a source file. A text or a comment that isn't ended is refused, where it begins.
pub fn tokens_of(alloc: Global, source: &str) -> DeriveResult<Vec<Token>>
    ensures { Splits (tokens_in (chars source.now)) result }
{
    let first = Mark {
        line: 1,
        column: 1,
        at: 0,
    };
    let mut lexer = Lexer {
        tokens: Vec::new(alloc),
        word: String::new(alloc),
        place: Place::Between,
        here: first,
        begin: first,
        depth: 0,
        fence: None,
    };
    for c in source.chars() {
        lexer.step(alloc, c)?;
    }
    lexer.step(alloc, '\n')?;
    if lexer.place != Place::Between {
        let what = "a text or a comment begins here and has no end";
        return Err(refused_as(alloc, lexer.spot(), what));
    }
    Ok(lexer.tokens)
}

//! Comment lines that begin with `wincode:`, and what looks like one.
ghost use Rattle.std.specs.Prelude.{◌≡◌, false};
ghost use Rattle.std.specs.Str.{str_eq_ignore_ascii_case};
ghost use Rattle.wincode_derive_text.specs.Notes.{of_lead, behind_lead, has_name, may_be_note};

/// The words that stand in comment lines.
const WORDS: [&str; 5] = ["with", "tag", "tag_encoding", "counts", "from"];

fn is_of_word(c: char) -> bool {
    c.is_ascii_alphanumeric() || c == '_'
}

/// Whether a byte may stand in front of the words of a comment: a stroke, a star, `!` or white space.
fn is_of_lead(byte: u8) -> bool
    ensures { result ≡ of_lead byte }
{
    matches!(byte, b'/' | b'*' | b'!' | b' ' | 9..=13)
}

/// What stands behind all of these at the front.
fn words_of(mut comment: &[u8]) -> &[u8]
    ensures { result.now ≡ behind_lead comment.entry.now }
{
    while let [first, rest @ ..] = comment
        && is_of_lead(*first)
    {
        comment = rest;
    }
    comment
}

/// Whether two words are the same, in letters of any case.
fn is_same_word(word: &[u8], other: &[u8]) -> bool
    ensures { result ≡ str_eq_ignore_ascii_case word.now other.now }
{
    word.eq_ignore_ascii_case(other)
}

/// Whether the word `wincode` stands in front, in letters of any case.
fn begins_with_name(words: &[u8]) -> bool
    ensures { result ≡ has_name words.now }
{
    is_same_word(&words[..words.len().min(7)], b"wincode")
}

/// Whether a comment may be a note: `wincode` comes first in its words, or what isn't ASCII, and may be white space.
fn can_be_note(comment: &str) -> bool
    ensures { result ≡ may_be_note comment.now }
{
    let words = words_of(comment.as_bytes());
    match words {
        [first, ..] if *first > 127 => true,
        _ => begins_with_name(words),
    }
}

/// What a comment has behind the word `wincode`, in letters of any case, where it begins with it.
fn behind_name(comment: &str) -> Option<&str> {
    let text = comment
        .trim_start_matches(|c: char| c == '/' || c == '*' || c == '!')
        .trim();
    match text.split_at_checked(7) {
        Some((name, rest)) if name.eq_ignore_ascii_case("wincode") => Some(rest),
        _ => None,
    }
}

/// The word at the front.
fn front_word(text: &str) -> &str {
    match text.split_once(|c: char| !is_of_word(c)) {
        Some((word, _)) => word,
        None => text,
    }
}

/// Whether a comment begins as `// wincode:` does, or nearly so: with other strokes or letters, or without the colon in
/// front of one of the words.
pub fn is_note(comment: &str) -> bool
    ensures { may_be_note comment.now ≡ false → result ≡ false }
{
    if !can_be_note(comment) {
        return false;
    }
    let Some(rest) = behind_name(comment) else {
        return false;
    };
    let behind = rest.trim_start();
    if behind.starts_with(':') {
        return !behind.starts_with("::");
    }
    let word = front_word(behind);
    let Some(value) = behind.strip_prefix(word) else {
        return false;
    };
    let value = value.trim_start();
    let is_known = behind.len() < rest.len() && WORDS.iter().any(|known| *known == word);
    let is_said = value.is_empty() || value.starts_with('=') || value.starts_with(':');
    is_known && (is_said || !matches!(word, "from" | "counts"))
}

/// What stands behind `// wincode:`, where a comment is written so.
pub fn said_in(comment: &str) -> Option<&str> {
    let text = comment.strip_prefix("//")?;
    text.trim_start().strip_prefix("wincode:")
}

/// A comment line: its word, its value, and how many characters stand in front of the value.
#[derive(Clone, Copy)]
pub struct Note<'a> {
    pub word: &'a str,
    pub value: &'a str,
    pub offset: usize,
}

/// The word and the value of a comment line, where it has both and `=` between them.
pub fn note_of(comment: &str) -> Option<Note<'_>> {
    let said = said_in(comment)?;
    let (word, value) = said.split_once('=')?;
    let behind = value.trim_start().chars().count();
    Some(Note {
        word: word.trim(),
        value: value.trim(),
        offset: comment.chars().count().saturating_sub(behind),
    })
}

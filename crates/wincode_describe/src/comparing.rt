//! Whether what was written of one type is read of another, and as the same.
ghost use Rattle.std.specs.Prelude.{◌≡◌, ◌<◌, ℕ, List, true, length, map, slice_get, IfOk, IfSome};
ghost use Rattle.wincode_describe.specs.Compared.{Answers, IsUnaccepted, IsWitness};
ghost use Rattle.wincode_describe.specs.Parts.{seen};

use crate::described::Described;
use crate::differing::{Change, ChangeKind, changes_of};
use crate::explaining::explain;
use crate::likeness::{Likeness, likeness_of};
use crate::lines::explained_lines;
use crate::shown::Shown;
use std::alloc::{AllocError, Global};
use wincode_base::error::ReadError;
use wincode_io::Lifetime;

/// What the new type is to what was written of the old one.
#[derive(Debug, Clone, Copy, PartialEq, Eq)]
pub enum Answer {
    /// Every input is accepted by both types or by neither, to the same length, with the same parts.
    Same,
    /// What the old type accepts the new one accepts, to the same length, with the same parts.
    Reads,
    /// Some input that the old type accepts isn't accepted by the new one with the same parts.
    Differs,
    /// Nothing is known.
    MayDiffer,
}

/// How a new type compares to an old one.
#[derive(Debug, Drop)]
pub struct Comparison {
    pub answer: Answer,
    /// What changed, in the order of the old type's parts. Of members that are nested in another way no name is told.
    pub changes: Vec<Change>,
}

/// Whether two parts are the same.
pub(crate) fn is_same_part(one: &Shown, other: &Shown) -> bool
    ensures same { seen one.now ≡ seen other.now → result ≡ true }
    ensures other { result ≡ true → seen one.now ≡ seen other.now }
{
    match one {
        Shown::Natural { integer, value } => match other {
            Shown::Natural {
                integer: i,
                value: v,
            } => *integer == *i && *value == *v,
            _ => false,
        },
        Shown::Signed { integer, value } => match other {
            Shown::Signed {
                integer: i,
                value: v,
            } => *integer == *i && *value == *v,
            _ => false,
        },
        Shown::Std { kind, number } => match other {
            Shown::Std { kind: k, number: n } => *kind == *k && *number == *n,
            _ => false,
        },
        Shown::Socket { kind, host, port } => match other {
            Shown::Socket {
                kind: k,
                host: h,
                port: p,
            } => *kind == *k && *host == *h && *port == *p,
            _ => false,
        },
        Shown::Flag(flag) => match other {
            Shown::Flag(f) => *flag == *f,
            _ => false,
        },
        Shown::Character(character) => match other {
            Shown::Character(c) => *character == *c,
            _ => false,
        },
        Shown::Text(text) => match other {
            Shown::Text(t) => text.as_str() == t.as_str(),
            _ => false,
        },
        Shown::Bytes(bytes) => match other {
            Shown::Bytes(b) => bytes.as_slice() == b.as_slice(),
            _ => false,
        },
        Shown::Length { scheme, count } => match other {
            Shown::Length {
                scheme: s,
                count: c,
            } => *scheme == *s && *count == *c,
            _ => false,
        },
        Shown::Tag { size, tag } => match other {
            Shown::Tag { size: s, tag: t } => *size == *s && *tag == *t,
            _ => false,
        },
        Shown::Nothing => match other {
            Shown::Nothing => true,
            _ => false,
        },
    }
}

/// Whether the parts at this place are the same.
fn is_same_at(parts: &[Shown], others: &[Shown], i: usize) -> bool
    ensures same { i < length parts.now → map seen parts.now ≡ map seen others.now → result ≡ true }
    ensures other { result ≡ true → slice_get (map seen parts.now) i ≡ slice_get (map seen others.now) i }
{
    match parts.get(i) {
        Some(part) => match others.get(i) {
            Some(other) => is_same_part(part, other),
            None => false,
        },
        None => false,
    }
}

/// Whether all parts are the same, in order.
pub fn are_same_parts(parts: &[Shown], others: &[Shown]) -> bool
    ensures same { map seen parts.now ≡ map seen others.now → result ≡ true }
    ensures other { result ≡ true → map seen parts.now ≡ map seen others.now }
{
    if parts.len() != others.len() {
        return false;
    }
    for i in 0..parts.len() {
        if !is_same_at(parts, others, i) {
            return false;
        }
    }
    true
}

/// Whether it says that the bytes are no value, whatever the memory.
fn is_unaccepted(error: &ReadError) -> bool
    ensures so { result ≡ true → IsUnaccepted error.now }
    ensures other { IsUnaccepted error.now → result ≡ true }
{
    match error {
        ReadError::OutOfMemory => false,
        ReadError::Io(error) => match error {
            wincode_io::error::ReadError::ReadSizeLimit(_) => true,
            _ => false,
        },
        _ => true,
    }
}

/// Whether the old type accepts the bytes, and the new one refuses them or reads other parts.
fn is_witness(alloc: Global, old: &Described, new: &Described, bytes: &[u8]) -> bool
    ensures { result ≡ true → IsWitness old.now new.now bytes.now }
{
    let was = explain::<Lifetime>(alloc, old, bytes);
    if was.refused.is_some() {
        return false;
    }
    let is = explain::<Lifetime>(alloc, new, bytes);
    match &is.refused {
        Some(error) => is_unaccepted(error),
        None => !are_same_parts(was.parts.as_slice(), is.parts.as_slice()),
    }
}

/// The bytes, if they are a witness.
fn tried(
    alloc: Global,
    old: &Described,
    new: &Described,
    witness: Option<Vec<u8>>,
) -> Option<Vec<u8>>
    ensures { IfSome result (λ bytes. IsWitness old.now new.now bytes.items) }
{
    let bytes = witness?;
    if is_witness(alloc, old, new, bytes.as_slice()) {
        Some(bytes)
    } else {
        None
    }
}

/// Keeps the witnesses that show something; whether there is one.
fn is_shown(alloc: Global, old: &Described, new: &Described, changes: &mut [Change]) -> bool
    ensures { result ≡ true → (bytes : List ℕ) × IsWitness old.now new.now bytes }
{
    let mut is_shown = false;
    for change in changes.iter_mut() {
        change.witness = tried(alloc, old, new, change.witness.take());
        if change.witness.is_some() {
            is_shown = true;
        }
    }
    is_shown
}

/// What changed, where nothing is known of the types, and whether a witness shows it. Where none does of the members as they
/// are nested, they are looked at as they stand in a row.
fn shown_changes(
    alloc: Global,
    old: &Described,
    new: &Described,
    changes: Vec<Change>,
) -> Result<Comparison, AllocError>
    ensures { IfOk result (λ c. Answers c.answer old.now new.now) }
{
    let mut changes = changes;
    if is_shown(alloc, old, new, changes.as_mut_slice()) {
        let answer = Answer::Differs;
        return Ok(Comparison { answer, changes });
    }
    let mut others = changes_of(alloc, old, new, true)?;
    if is_shown(alloc, old, new, others.as_mut_slice()) {
        let answer = Answer::Differs;
        let changes = others;
        return Ok(Comparison { answer, changes });
    }
    let answer = Answer::MayDiffer;
    Ok(Comparison { answer, changes })
}

/// Compares a new type to an old one by their forms: `Same`, where every input is accepted by both or by neither, to the same
/// length, with the same parts at the same offsets; `Reads`, where what the old type accepts the new one accepts so; `Differs`,
/// where a witness was read by both and shows it; else `MayDiffer`. Names change no answer, nor how members are nested; but
/// `()` is a part, which stands in an enum's case and not in an option, and the bytes of `[u8; N]` are one. Its time grows
/// with the types, and with the bytes of the witnesses, of which each has some 64 KiB at the most.
pub fn compare(alloc: Global, old: &Described, new: &Described) -> Result<Comparison, AllocError>
    ensures { IfOk result (λ c. Answers c.answer old.now new.now) }
{
    let mut changes = changes_of(alloc, old, new, false)?;
    let answer = match likeness_of(old, new) {
        Likeness::Same => Answer::Same,
        Likeness::Reads => Answer::Reads,
        Likeness::Unlike => return shown_changes(alloc, old, new, changes),
    };
    if changes
        .iter()
        .any(|change| change.kind == ChangeKind::Differs)
    {
        changes.retain(|change| change.kind == ChangeKind::Extended);
    }
    Ok(Comparison { answer, changes })
}

/// The word of an answer.
fn answer_word(answer: Answer) -> &'static str {
    match answer {
        Answer::Same => "same",
        Answer::Reads => "reads",
        Answer::Differs => "differs",
        Answer::MayDiffer => "may differ",
    }
}

/// Bytes in hexadecimal, with a space between them.
fn spaced(alloc: Global, bytes: &[u8]) -> Result<String, AllocError> {
    let mut text = String::new(alloc);
    for byte in bytes {
        let digits = format!(in alloc; " {byte:02x}")?;
        text.push_str(digits.as_str())?;
    }
    Ok(text)
}

/// A change, and what its witness is by either type.
fn push_change(
    alloc: Global,
    text: &mut String,
    (old, new): (&Described, &Described),
    change: &Change,
) -> Result<(), AllocError> {
    if !change.place.is_empty() {
        text.push_str(change.place.as_str())?;
        text.push_str(": ")?;
    }
    text.push_str(change.why.as_str())?;
    text.push_str("\n")?;
    if let Some(bytes) = &change.witness {
        let digits = spaced(alloc, bytes.as_slice())?;
        let (_, was) = explained_lines(alloc, old, bytes.as_slice())?;
        let (_, is) = explained_lines(alloc, new, bytes.as_slice())?;
        let shown = format!(in alloc; "  witness:{digits}\n  old:\n{was}  new:\n{is}")?;
        text.push_str(shown.as_str())?;
    }
    Ok(())
}

/// What is printed of two types: the answer, and then a line for each change, of its place and of what changed. Behind a
/// difference that was shown stand its witness in hexadecimal, and how the old and the new type explain it.
pub fn compared_lines(
    alloc: Global,
    old: &Described,
    new: &Described,
) -> Result<(Answer, String), AllocError> {
    let comparison = compare(alloc, old, new)?;
    let word = answer_word(comparison.answer);
    let mut text = format!(in alloc; "{word}\n")?;
    for change in comparison.changes.iter() {
        push_change(alloc, &mut text, (old, new), change)?;
    }
    Ok((comparison.answer, text))
}

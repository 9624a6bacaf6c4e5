//! The lines of proof files that schemas leave: how what writes a case's fields writes the case.
use crate::declarations::{Declaration, DeclaredShape, Variant};
use crate::enums::letters_of;
use crate::error::DeriveResult;
use crate::module::{declared_at, seen_of, written_of};
use crate::printing::{Words, fill, joined, number, owned, put};
use std::alloc::Global;

const HEAD: &str = "use Rattle.@crate@.proofs.@path@schemas.@type@EnumShape.@function@.Goals as goal
";

const ANSWER: &str = "
pub returns-in-@case@ : goal.returns-in-@case@
returns-in-@case@ @given@ = rw c.in-@case@.is c.@call@.ensures
";

/// The answer of an enum of one case: no question is asked of which case it is, so that it is this one is said here.
const ONE: &str = "use Rattle.std.proofs.Common.{◌≡◌, refl}
use @declared@.TheVariants.{@case@ as @type@-@case@}
use Rattle.@crate@.proofs.@path@schemas.@type@EnumShape.@function@.Goals as goal

pub returns : goal.returns
returns @given@ =
    let e = elim c.args.src.now as (λ x. @binders@(x ≡ @type@-@case@@letters@)) [ @type@-@case@@letters@ ↦ (@parts@, refl) ] in
    let h = rw e.@count@ at c.@call@.ensures in rw e.@count@ h
";

/// A function of `EnumShape` that has answers, and the call by which it passes on a case's fields.
#[derive(Clone, Copy)]
struct Function {
    name: &'static str,
    call: &'static str,
    /// Whether it has a type parameter, so that what is given is told of it.
    is_generic: bool,
}

const FUNCTIONS: [Function; 2] = [
    Function {
        name: "write_part",
        call: "write",
        is_generic: true,
    },
    Function {
        name: "encode_part",
        call: "encode_front",
        is_generic: false,
    },
];

/// The answers of a function of an enum.
#[derive(Debug, Drop)]
pub struct Answers {
    /// The enum.
    pub name: String,
    /// The function.
    pub function: &'static str,
    /// The text of `proofs/../schemas/NAMEEnumShape/FUNCTION/Answers.antt`.
    pub text: String,
}

/// The call by which a case's fields are passed on: the first of so many fields by its name alone.
fn call_of(
    alloc: Global,
    function: Function,
    variant: &Variant,
    is_first: bool,
) -> DeriveResult<String> {
    let call = function.call;
    let n = variant.fields.fields.len();
    let (between, case) = if is_first {
        ("", "")
    } else {
        ("-in-", variant.name.as_str())
    };
    Ok(format!(in alloc; "{call}_members_{n}{between}{case}")?)
}

/// Whether no case before this place has so many fields.
fn is_first_of(variants: &[Variant], place: usize, n: usize) -> bool {
    for variant in variants.iter().take(place) {
        if variant.fields.fields.len() == n {
            return false;
        }
    }
    true
}

/// Appends the answer of a case.
fn put_answer(
    alloc: Global,
    out: &mut String,
    (function, given): (Function, &'static str),
    (variant, is_first): (&Variant, bool),
) -> DeriveResult<()> {
    let mut words = Words::new(alloc);
    words.set("given", owned(alloc, given));
    words.set("case", owned(alloc, variant.name.as_str()));
    words.set("call", call_of(alloc, function, variant, is_first));
    fill(out, ANSWER, &mut words)
}

/// Appends an answer for each case of two fields or more.
fn put_answers(
    alloc: Global,
    out: &mut String,
    function: (Function, &'static str),
    variants: &[Variant],
) -> DeriveResult<()> {
    for (i, variant) in variants.iter().enumerate() {
        let n = variant.fields.fields.len();
        if n >= 2 {
            let is_first = is_first_of(variants, i, n);
            put_answer(alloc, out, function, (variant, is_first))?;
        }
    }
    Ok(())
}

/// Each of these between two texts.
fn each_between(
    alloc: Global,
    letters: &[String],
    (before, behind): (&str, &str),
) -> DeriveResult<String> {
    let mut out = String::new(alloc);
    for letter in letters {
        put(&mut out, &[before, letter.as_str(), behind])?;
    }
    Ok(out)
}

/// Appends the answer of an enum of this one case, of two fields or more.
fn put_one(
    alloc: Global,
    out: &mut String,
    words: &mut Words,
    (function, variant): (Function, &Variant),
) -> DeriveResult<()> {
    let letters = letters_of(alloc, variant)?;
    let letters = letters.as_slice();
    words.set("case", owned(alloc, variant.name.as_str()));
    words.set("call", call_of(alloc, function, variant, true));
    words.set("binders", each_between(alloc, letters, ("(", " : _) × ")));
    words.set("letters", each_between(alloc, letters, (" ", "")));
    words.set("parts", joined(alloc, letters, ", "));
    words.set("count", number(alloc, letters.len()));
    fill(out, ONE, words)
}

/// Appends the answers of an enum of these cases.
fn put_enum_answers(
    alloc: Global,
    out: &mut String,
    words: &mut Words,
    (function, given): (Function, &'static str),
    variants: &[Variant],
) -> DeriveResult<()> {
    words.set("function", owned(alloc, function.name));
    words.set("given", owned(alloc, given));
    match variants {
        [variant] => put_one(alloc, out, words, (function, variant)),
        _ => {
            fill(out, HEAD, words)?;
            put_answers(alloc, out, (function, given), variants)
        }
    }
}

/// Whether a case has two fields or more.
fn has_members(variants: &[Variant]) -> bool {
    variants
        .iter()
        .any(|variant| variant.fields.fields.len() >= 2)
}

/// The answers of a function of an enum of these cases, which stands there as the file has it.
fn text_of(
    alloc: Global,
    function: Function,
    place: (&str, &str),
    (written, declaration): (&Declaration, &Declaration),
    variants: &[Variant],
) -> DeriveResult<String> {
    let (krate, path) = place;
    let mut words = Words::new(alloc);
    words.set("crate", owned(alloc, krate));
    words.set("path", owned(alloc, path));
    words.set("type", owned(alloc, declaration.name.as_str()));
    words.set("declared", declared_at(alloc, place, written.src()));
    let is_given = function.is_generic || !declaration.generics.parameters.is_empty();
    let given = if is_given { "g c" } else { "c" };
    let mut out = String::new(alloc);
    put_enum_answers(alloc, &mut out, &mut words, (function, given), variants)?;
    Ok(out)
}

/// Adds the answers of an enum that has some, which stands there as the file has it.
fn add_answers(
    alloc: Global,
    all: &mut Vec<Answers>,
    place: (&str, &str),
    (written, declaration): (&Declaration, &Declaration),
) -> DeriveResult<()> {
    if let DeclaredShape::Enum(cases) = &declaration.shape {
        let variants = cases.variants.as_slice();
        if !has_members(variants) {
            return Ok(());
        }
        for function in FUNCTIONS {
            let text = text_of(alloc, function, place, (written, declaration), variants)?;
            let name = owned(alloc, declaration.name.as_str())?;
            let function = function.name;
            all.push(Answers {
                name,
                function,
                text,
            })?;
        }
    }
    Ok(())
}

/// The proof files of the module that `module_of` gives, of each enum that has a case of two fields or more.
pub fn answers_of(
    alloc: Global,
    source: &str,
    place: (&str, &str),
    names: &[String],
) -> DeriveResult<Vec<Answers>> {
    let written = written_of(alloc, source, names)?;
    let (declarations, _) = seen_of(alloc, source, names)?;
    let mut all = Vec::new(alloc);
    for (it, declaration) in written.iter().zip(declarations.iter()) {
        add_answers(alloc, &mut all, place, (it, declaration))?;
    }
    Ok(all)
}

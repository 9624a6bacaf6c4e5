//! The declarations of a source file.
use crate::declarations::{
    Cases, Declaration, DeclaredShape, Field, Fields, Generics, Naming, Variant,
};
use crate::error::{DeriveError, DeriveResult, Spot, refused};
use crate::groups::{
    check_brackets, close_of, end_of_case, first_of, is_sign, is_word, kind_at, spot_at,
};
pub use crate::groups::{end_of_group, end_of_part, line_at, next, text_at, type_text};
use crate::heads::{Head, Over, Said, Schema, Subject, filled, head_of, said_of, tell_untaken};
use crate::imports::{Imports, imports_of};
use crate::laws::law_of;
use crate::needs::tell_circles;
use crate::printing::add;
use crate::report::Report;
use crate::tokens::{Kind, Token, tokens_of};
use crate::types::{Asked, Scope, check_type, unexpected};
use std::alloc::Global;

/// A file that is being read, and the declaration in it.
#[derive(Clone, Copy)]
struct Within<'a> {
    tokens: &'a [Token],
    imports: &'a Imports,
    generics: &'a Generics,
    owner: &'a str,
}

impl<'a> Within<'a> {
    /// In what a type is looked at that is asked of this subject; where the type is a schema, it stands at this base.
    fn scope(self, subject: &'a str, asked: Asked, base: Option<Spot>) -> Scope<'a> {
        Scope {
            owner: self.owner,
            subject,
            generics: self.generics,
            imports: self.imports,
            asked,
            base,
        }
    }
}

/// What is wrong, of its subject.
fn wrong(alloc: Global, spot: Spot, name: &str, what: &str) -> DeriveError {
    match format!(in alloc; "`{name}`: {what}") {
        Ok(said) => refused(alloc, spot, said),
        Err(_) => DeriveError::OutOfMemory,
    }
}

/// Something else is wanted of a subject than what stands there.
fn wanted(alloc: Global, (tokens, at): (&[Token], usize), name: &str, what: &str) -> DeriveError {
    match unexpected(alloc, tokens, at, what) {
        Ok(said) => wrong(alloc, spot_at(tokens, at), name, said.as_str()),
        Err(error) => error,
    }
}

/// Where the first token stands of a name that can't be read, at a word and what stands behind it.
fn fault_of_name(tokens: &[Token], at: usize) -> usize {
    if kind_at(tokens, at) == Kind::Word {
        next(at)
    } else {
        at
    }
}

/// Where the last token stands behind which no comment line stands.
fn without_notes(tokens: &[Token], from: usize, to: usize) -> usize {
    let mut end = to;
    for _ in from..to {
        if end <= from || kind_at(tokens, end.saturating_sub(1)) != Kind::Note {
            break;
        }
        end = end.saturating_sub(1);
    }
    end
}

/// A schema with `_` in it, which stands for no type here.
fn unfilled(alloc: Global, (subject, held): (&str, &str), schema: &Schema) -> DeriveError {
    match unfilled_text(alloc, schema.text.as_str(), held) {
        Ok(what) => wrong(alloc, schema.spot, subject, what.as_str()),
        Err(error) => error,
    }
}

/// What is said of such a schema.
fn unfilled_text(alloc: Global, text: &str, held: &str) -> DeriveResult<String> {
    let whole = filled(alloc, text, held)?;
    let whole = whole.as_str();
    Ok(format!(in alloc; "`_` stands for no type here: write `{whole}`")?)
}

/// Looks whether a schema that a comment line says can be one.
fn check_schema<'x>(
    alloc: Global,
    within: Within<'x>,
    (subject, held): (&'x str, &str),
    schema: &Schema,
) -> DeriveResult<()> {
    let spot = schema.spot;
    let Ok(tokens) = tokens_of(alloc, schema.text.as_str()) else {
        return Err(wrong(alloc, spot, subject, "a schema is wanted behind `=`"));
    };
    let tokens = tokens.as_slice();
    if tokens.iter().any(|token| token.kind == Kind::Literal) {
        return Err(wrong(alloc, spot, subject, "a schema is written without quotes"));
    }
    if tokens.iter().any(|token| token.text.as_str() == "_") {
        return Err(unfilled(alloc, (subject, held), schema));
    }
    let scope = within.scope(subject, Asked::Schema, Some(spot));
    check_type(alloc, (tokens, 0, tokens.len()), scope)
}

/// A schema whose law can't be put together.
fn lawless(alloc: Global, subject: &str, spot: Spot, what: &str) -> DeriveError {
    match format!(in alloc; "no schema for {what}") {
        Ok(what) => wrong(alloc, spot, subject, what.as_str()),
        Err(_) => DeriveError::OutOfMemory,
    }
}

/// Whether a type that the file declares stands in a schema.
fn has_own(alloc: Global, within: Within<'_>, schema: &str) -> DeriveResult<bool> {
    let tokens = tokens_of(alloc, schema)?;
    Ok(
        tokens
            .iter()
            .any(|token| within.imports.declares(token.text.as_str())),
    )
}

/// Looks whether the law of a schema in which parameters stand can be put together.
fn check_law(
    alloc: Global,
    within: Within<'_>,
    subject: &str,
    schema: &Schema,
) -> DeriveResult<()> {
    let parameters = within.generics.parameters.as_slice();
    let text = schema.text.as_str();
    if parameters.is_empty() || has_own(alloc, within, text)? {
        return Ok(());
    }
    match law_of(alloc, text, parameters, schema.spot.line) {
        Err(DeriveError::Unsupported { what, .. }) => {
            Err(lawless(alloc, subject, schema.spot, what))
        }
        Err(error) => Err(error),
        Ok(_) => Ok(()),
    }
}

/// The schema that is said of a field, if it can be one, or else the type that stands there.
fn said_or_held<'x>(
    alloc: Global,
    within: Within<'x>,
    (subject, held): (&'x str, &str),
    (with, from): (Option<Schema>, usize),
) -> DeriveResult<Schema> {
    match with {
        Some(schema) => {
            check_schema(alloc, within, (subject, held), &schema)?;
            Ok(schema)
        }
        None => Ok(Schema {
            text: String::from_str(alloc, held)?,
            spot: spot_at(within.tokens, from),
        }),
    }
}

/// The schema of a field whose type stands there, and where it stands itself.
fn schema_of<'x>(
    alloc: Global,
    within: Within<'x>,
    (subject, held): (&'x str, &str),
    (with, from, to): (Option<Schema>, usize, usize),
) -> DeriveResult<Schema> {
    let asked = if with.is_some() {
        Asked::Held
    } else {
        Asked::Own
    };
    let scope = within.scope(subject, asked, None);
    check_type(alloc, (within.tokens, from, to), scope)?;
    let schema = said_or_held(alloc, within, (subject, held), (with, from))?;
    check_law(alloc, within, subject, &schema)?;
    Ok(schema)
}

/// The name of a field, which is its place where it has one, and where its type begins.
fn name_of(
    alloc: Global,
    tokens: &[Token],
    (at, owner): (usize, &str),
    place: Option<usize>,
) -> DeriveResult<(String, usize)> {
    if let Some(place) = place {
        return Ok((format!(in alloc; "{place}")?, at));
    }
    if kind_at(tokens, at) == Kind::Word && is_sign(tokens, next(at), ":") {
        let name = String::from_str(alloc, text_at(tokens, at))?;
        return Ok((name, next(next(at))));
    }
    let at = fault_of_name(tokens, at);
    Err(wanted(alloc, (tokens, at), owner, "a field, as `name: TYPE`,"))
}

/// The field of this name that holds nothing, and whose type stands there.
fn phantom_of(alloc: Global, name: String, spot: Spot) -> DeriveResult<Field> {
    Ok(Field {
        name,
        value: String::from_str(alloc, "()")?,
        schema: String::from_str(alloc, "()")?,
        is_phantom: true,
        spot,
    })
}

/// The field of this name whose type stands there, and of which this schema is said.
fn held_of<'x>(
    alloc: Global,
    (within, subject): (Within<'x>, &'x str),
    (name, value): (String, String),
    said: (Option<Schema>, usize, usize),
) -> DeriveResult<Field> {
    let schema = schema_of(alloc, within, (subject, value.as_str()), said)?;
    Ok(Field {
        name,
        value,
        schema: schema.text,
        is_phantom: false,
        spot: schema.spot,
    })
}

/// The schema that the head of a field says, if it says one.
fn with_of(
    alloc: Global,
    report: &mut Report,
    within: Within<'_>,
    (head, subject): (&Head, Subject<'_>),
) -> DeriveResult<Option<Schema>> {
    let said = said_of(alloc, within.tokens, report, (head, subject))?;
    Ok(said.with)
}

/// The field of this name whose type stands there, with what its head says of it.
fn typed<'x>(
    alloc: Global,
    report: &mut Report,
    (within, subject): (Within<'x>, &'x str),
    (head, name): (&Head, String),
    (from, to): (usize, usize),
) -> DeriveResult<Field> {
    let value = type_text(alloc, within.tokens, from, to)?;
    let of = Subject {
        over: Over::Field,
        name: subject,
        held: value.as_str(),
    };
    let with = with_of(alloc, report, within, (head, of))?;
    if with.is_none() && is_phantom(within, (from, to)) {
        return phantom_of(alloc, name, spot_at(within.tokens, from));
    }
    held_of(alloc, (within, subject), (name, value), (with, from, to))
}

/// What a part of this one is called in what is said of it.
fn part_name(alloc: Global, part: &str, name: &str) -> DeriveResult<String> {
    Ok(format!(in alloc; "{part}.{name}")?)
}

/// A field that is declared there.
fn field_of(
    alloc: Global,
    report: &mut Report,
    (within, part): (Within<'_>, &str),
    (from, to): (usize, usize),
    place: Option<usize>,
) -> DeriveResult<Field> {
    let tokens = within.tokens;
    let to = without_notes(tokens, from, to);
    let head = head_of(alloc, tokens, from, to)?;
    let (name, begin) = name_of(alloc, tokens, (head.at, part), place)?;
    let subject = part_name(alloc, part, name.as_str())?;
    let of = (within, subject.as_str());
    typed(alloc, report, of, (&head, name), (begin, to))
}

/// Whether a type is `PhantomData` of a parameter.
fn is_phantom(within: Within<'_>, (from, to): (usize, usize)) -> bool {
    let open = first_of(within.tokens, (from, to), &["<"]);
    is_word(within.tokens, open.saturating_sub(1), "PhantomData")
        && (open..to).any(|at| {
            let name = text_at(within.tokens, at);
            within
                .generics
                .parameters
                .iter()
                .any(|known| known.as_str() == name)
        })
}

/// Whether nothing but comment lines stands there.
fn is_bare(tokens: &[Token], from: usize, to: usize) -> bool {
    (from..to).all(|at| kind_at(tokens, at) == Kind::Note)
}

/// Adds the fields in the brackets that stand there. What is wrong with one is told.
fn add_fields(
    alloc: Global,
    report: &mut Report,
    (within, part): (Within<'_>, &str),
    (open, close): (usize, usize),
    fields: &mut Fields,
) -> DeriveResult<()> {
    let is_named = fields.naming == Naming::Named;
    let mut at = next(open);
    for i in 0..within.tokens.len() {
        let end = end_of_part(within.tokens, at, close);
        if at >= close || (end == close && is_bare(within.tokens, at, close)) {
            break;
        }
        let place = if is_named { None } else { Some(i) };
        let answer = field_of(alloc, report, (within, part), (at, end), place);
        if let Some(field) = report.keep(alloc, answer)? {
            fields.fields.push(field)?;
        }
        at = next(end);
    }
    Ok(())
}

/// The fields in the brackets that are opened there, or none, and where what stands behind them begins. What is wrong
/// with one is told.
fn fields_at(
    alloc: Global,
    report: &mut Report,
    (within, part): (Within<'_>, &str),
    open: usize,
) -> DeriveResult<(Fields, usize)> {
    let naming = match text_at(within.tokens, open) {
        "{" => Naming::Named,
        "(" => Naming::Numbered,
        _ => Naming::Unit,
    };
    let mut fields = Fields {
        naming,
        fields: Vec::new(alloc),
    };
    if naming == Naming::Unit {
        return Ok((fields, open));
    }
    let close = close_of(within.tokens, open).unwrap_or(open);
    add_fields(alloc, report, (within, part), (open, close), &mut fields)?;
    Ok((fields, next(close)))
}

/// The greatest tag of a scheme.
fn greatest_tag(encoding: &str) -> usize {
    match encoding {
        "u8" => 255,
        "u16" => 65535,
        "u32" => 4294967295,
        _ => usize::MAX,
    }
}

/// What a case is called in what is said of it.
fn case_name(alloc: Global, owner: &str, name: &str) -> DeriveResult<String> {
    Ok(format!(in alloc; "{owner}::{name}")?)
}

/// Refuses what stands behind a case that ends there.
fn check_behind(
    alloc: Global,
    (tokens, part): (&[Token], &str),
    (end, to): (usize, usize),
) -> DeriveResult<()> {
    if end >= to {
        return Ok(());
    }
    if is_sign(tokens, end, "=") {
        let what = "a case with a number of its own: `// wincode: tag = N` over it says its tag";
        return Err(wrong(alloc, spot_at(tokens, end), part, what));
    }
    Err(wanted(alloc, (tokens, end), part, "`,`"))
}

/// The tag that the head of a case says, if it says one.
fn tag_of(
    alloc: Global,
    report: &mut Report,
    within: Within<'_>,
    (head, name): (&Head, &str),
) -> DeriveResult<Option<usize>> {
    let of = Subject {
        over: Over::Case,
        name,
        held: "",
    };
    let said = said_of(alloc, within.tokens, report, (head, of))?;
    Ok(said.tag)
}

/// The tag of the case whose name stands there, at this place among the others, and its fields.
fn held_by_case(
    alloc: Global,
    report: &mut Report,
    (within, part): (Within<'_>, &str),
    head: &Head,
    (to, place): (usize, usize),
) -> DeriveResult<(usize, Fields)> {
    let (tokens, at) = (within.tokens, head.at);
    let tag = tag_of(alloc, report, within, (head, part))?;
    let (fields, end) = fields_at(alloc, report, (within, part), next(at))?;
    check_case(alloc, (tokens, at), part, &fields)?;
    check_behind(alloc, (tokens, part), (end, to))?;
    Ok((tag.unwrap_or(place), fields))
}

/// A case that is declared there.
fn variant_of(
    alloc: Global,
    report: &mut Report,
    within: Within<'_>,
    (from, to): (usize, usize),
    place: usize,
) -> DeriveResult<(Variant, Spot)> {
    let tokens = within.tokens;
    let to = without_notes(tokens, from, to);
    let head = head_of(alloc, tokens, from, to)?;
    let at = head.at;
    if kind_at(tokens, at) != Kind::Word || at >= to {
        return Err(wanted(alloc, (tokens, at), within.owner, "a case"));
    }
    let part = case_name(alloc, within.owner, text_at(tokens, at))?;
    let of = (within, part.as_str());
    let (tag, fields) = held_by_case(alloc, report, of, &head, (to, place))?;
    let name = String::from_str(alloc, text_at(tokens, at))?;
    Ok((Variant { name, tag, fields }, spot_at(tokens, at)))
}

/// Refuses a case whose schema isn't written.
fn check_case(
    alloc: Global,
    (tokens, at): (&[Token], usize),
    part: &str,
    fields: &Fields,
) -> DeriveResult<()> {
    if fields.fields.len() > 12 {
        let what = "a case of more than 12 fields: give it a struct of its own";
        return Err(wrong(alloc, spot_at(tokens, at), part, what));
    }
    Ok(())
}

/// What is said of a tag past its encoding.
fn tag_past(alloc: Global, part: &str, (tag, encoding): (usize, &str)) -> DeriveResult<String> {
    Ok(format!(in alloc; "`{part}`: the tag {tag} is past its encoding, `{encoding}`")?)
}

/// What is said of a tag that another case has.
fn tag_again(alloc: Global, part: &str, (tag, other): (usize, &str)) -> DeriveResult<String> {
    Ok(format!(in alloc; "`{part}`: the tag {tag} is that of `{other}` too")?)
}

/// Refuses a tag past its encoding, and one that another case has.
fn check_tag(
    alloc: Global,
    (owner, encoding): (&str, &str),
    variants: &[Variant],
    (variant, spot): (&Variant, Spot),
) -> DeriveResult<()> {
    let tag = variant.tag;
    let part = case_name(alloc, owner, variant.name.as_str())?;
    let part = part.as_str();
    if tag > greatest_tag(encoding) {
        let message = tag_past(alloc, part, (tag, encoding))?;
        return Err(refused(alloc, spot, message));
    }
    if let Some(other) = variants.iter().find(|other| other.tag == tag) {
        let other = case_name(alloc, owner, other.name.as_str())?;
        let message = tag_again(alloc, part, (tag, other.as_str()))?;
        return Err(refused(alloc, spot, message));
    }
    Ok(())
}

/// Takes a case, if it is one, and tells what is wrong with its tag.
fn take_variant(
    alloc: Global,
    report: &mut Report,
    of: (&str, &str),
    answer: DeriveResult<(Variant, Spot)>,
    variants: &mut Vec<Variant>,
) -> DeriveResult<()> {
    if let Some((variant, spot)) = report.keep(alloc, answer)? {
        let answer = check_tag(alloc, of, variants.as_slice(), (&variant, spot));
        report.keep(alloc, answer)?;
        variants.push(variant)?;
    }
    Ok(())
}

/// Tells that there are no cases in the brackets that stand there, if there are none.
fn tell_caseless(
    alloc: Global,
    report: &mut Report,
    within: Within<'_>,
    (open, close): (usize, usize),
) -> DeriveResult<()> {
    if is_bare(within.tokens, next(open), close) {
        let spot = spot_at(within.tokens, open);
        let error = wrong(alloc, spot, within.owner, "an enum without cases");
        report.take(alloc, error)?;
    }
    Ok(())
}

/// The cases in the brackets that are opened there. What is wrong with one is told.
fn variants_at(
    alloc: Global,
    report: &mut Report,
    (within, encoding): (Within<'_>, &str),
    open: usize,
) -> DeriveResult<Vec<Variant>> {
    let tokens = within.tokens;
    let of = (within.owner, encoding);
    let close = close_of(tokens, open).unwrap_or(open);
    let mut variants: Vec<Variant> = Vec::new(alloc);
    let mut at = next(open);
    for i in 0..tokens.len() {
        let end = end_of_case(tokens, at, close);
        if at >= close || (end == close && is_bare(tokens, at, close)) {
            break;
        }
        let answer = variant_of(alloc, report, within, (at, end), i);
        take_variant(alloc, report, of, answer, &mut variants)?;
        at = next(end);
    }
    tell_caseless(alloc, report, within, (open, close))?;
    Ok(variants)
}

/// What is wrong with a parameter that has no schema, beside a lifetime or not.
fn unfit(tokens: &[Token], (from, to): (usize, usize), has_lifetime: bool) -> Option<&'static str> {
    let behind = next(from);
    match kind_at(tokens, from) {
        Kind::Word if text_at(tokens, from) == "const" => {
            Some("a parameter that is a number has no schema")
        }
        Kind::Lifetime | Kind::Word if is_sign(tokens, behind, ":") && behind < to => {
            Some("a parameter with bounds has no schema: leave them out")
        }
        Kind::Word if is_sign(tokens, behind, "=") && behind < to => {
            Some("a parameter that stands for a type by itself: leave that out")
        }
        Kind::Lifetime if has_lifetime => Some("a second lifetime has no schema"),
        Kind::Word if has_lifetime => Some("a type beside a lifetime has no schema"),
        _ => None,
    }
}

/// Takes a parameter, or refuses it.
fn take_parameter(
    alloc: Global,
    (tokens, owner): (&[Token], &str),
    generics: &mut Generics,
    (from, to): (usize, usize),
) -> DeriveResult<()> {
    if let Some(what) = unfit(tokens, (from, to), generics.lifetime.is_some()) {
        return Err(wrong(alloc, spot_at(tokens, from), owner, what));
    }
    let text = text_at(tokens, from);
    match kind_at(tokens, from) {
        Kind::Lifetime if next(from) == to => {
            generics.lifetime = Some(String::from_str(alloc, text)?);
            Ok(())
        }
        Kind::Word if next(from) == to => add(alloc, &mut generics.parameters, text, true),
        _ => {
            let at = fault_of_name(tokens, from);
            Err(wanted(alloc, (tokens, at), owner, "a parameter"))
        }
    }
}

/// Takes the parameters in the brackets that stand there. What is wrong with one is told.
fn take_parameters(
    alloc: Global,
    report: &mut Report,
    (tokens, owner): (&[Token], &str),
    (open, close): (usize, usize),
    generics: &mut Generics,
) -> DeriveResult<()> {
    let mut at = next(open);
    for _ in 0..tokens.len() {
        if at >= close {
            break;
        }
        let end = end_of_part(tokens, at, close);
        let answer = take_parameter(alloc, (tokens, owner), generics, (at, end));
        report.keep(alloc, answer)?;
        at = next(end);
    }
    Ok(())
}

/// What stands in the brackets that are opened there, or nothing, and where what stands behind them begins.
fn generics_at(
    alloc: Global,
    report: &mut Report,
    (tokens, owner): (&[Token], &str),
    open: usize,
) -> DeriveResult<(Generics, usize)> {
    let mut generics = Generics {
        lifetime: None,
        parameters: Vec::new(alloc),
    };
    if !is_sign(tokens, open, "<") {
        return Ok((generics, open));
    }
    let Some(close) = close_of(tokens, open) else {
        return Err(wrong(alloc, spot_at(tokens, open), owner, "`<` is not closed"));
    };
    take_parameters(alloc, report, (tokens, owner), (open, close), &mut generics)?;
    Ok((generics, next(close)))
}

/// Refuses the bounds of a `where` that stands there; where what stands behind it begins.
fn behind_where(
    alloc: Global,
    report: &mut Report,
    (tokens, owner): (&[Token], &str),
    at: usize,
) -> DeriveResult<usize> {
    if !is_word(tokens, at, "where") {
        return Ok(at);
    }
    let end = first_of(tokens, (next(at), tokens.len()), &["{", ";"]);
    if next(at) < end {
        let what = "a `where` with bounds has no schema: leave it out";
        let error = wrong(alloc, spot_at(tokens, next(at)), owner, what);
        report.take(alloc, error)?;
    }
    Ok(end)
}

/// The fields of a struct, which begin there or behind its `where`.
fn struct_at(
    alloc: Global,
    report: &mut Report,
    within: Within<'_>,
    open: usize,
) -> DeriveResult<Fields> {
    let of = (within.tokens, within.owner);
    let open = behind_where(alloc, report, of, open)?;
    let (fields, end) = fields_at(alloc, report, (within, within.owner), open)?;
    if fields.naming == Naming::Named {
        return Ok(fields);
    }
    let end = behind_where(alloc, report, of, end)?;
    if !is_sign(within.tokens, end, ";") {
        let what = if fields.naming == Naming::Unit {
            "`{`, `(` or `;`"
        } else {
            "`;`"
        };
        return Err(wanted(alloc, (within.tokens, end), within.owner, what));
    }
    Ok(fields)
}

/// An enum's cases, which begin there or behind its `where`, with what its head says of them.
fn cases_at(
    alloc: Global,
    report: &mut Report,
    (within, said): (Within<'_>, &Said),
    open: usize,
) -> DeriveResult<Cases> {
    let open = behind_where(alloc, report, (within.tokens, within.owner), open)?;
    if !is_sign(within.tokens, open, "{") {
        return Err(wanted(alloc, (within.tokens, open), within.owner, "`{`"));
    }
    let tag = match &said.tag_encoding {
        Some(encoding) => String::from_str(alloc, encoding.as_str())?,
        None => String::from_str(alloc, "u32")?,
    };
    let variants = variants_at(alloc, report, (within, tag.as_str()), open)?;
    Ok(Cases {
        tag,
        counts: said.counts,
        variants,
    })
}

/// Refuses what is declared where its schema isn't written beside its parameters.
fn check_written(
    alloc: Global,
    (name, spot): (&str, Spot),
    (shape, generics, said): (&DeclaredShape, &Generics, &Said),
) -> DeriveResult<()> {
    match unwritten_of(shape, generics, said) {
        Some(what) => Err(wrong(alloc, spot, name, what)),
        None => Ok(()),
    }
}

/// What isn't written of what is declared, beside its parameters.
fn unwritten_of(shape: &DeclaredShape, generics: &Generics, said: &Said) -> Option<&'static str> {
    if generics.lifetime.is_none() && generics.parameters.is_empty() {
        return None;
    }
    match shape {
        _ if said.from.is_some() => Some("a type with parameters can't be the schema of another"),
        DeclaredShape::Struct(fields) if fields.fields.len() > 12 && generics.lifetime.is_some() =>
            { Some("no schema for more than 12 fields beside a lifetime") }
        DeclaredShape::Struct(fields) if fields.fields.is_empty() && generics.lifetime.is_some() =>
            { Some("no schema for a struct without fields that has a lifetime") }
        DeclaredShape::Enum(cases) if cases.variants.len() > 8 && generics.lifetime.is_some() => {
            Some("no schema for more than 8 cases beside a lifetime")
        }
        _ => None,
    }
}

/// The shape of what is declared, which begins there.
fn shape_at(
    alloc: Global,
    report: &mut Report,
    (within, said): (Within<'_>, &Said),
    (over, open): (Over, usize),
) -> DeriveResult<DeclaredShape> {
    if over == Over::Struct {
        Ok(DeclaredShape::Struct(struct_at(alloc, report, within, open)?))
    } else {
        Ok(DeclaredShape::Enum(cases_at(alloc, report, (within, said), open)?))
    }
}

/// The name of what is declared, which stands there.
fn declared_name(alloc: Global, tokens: &[Token], at: usize) -> DeriveResult<String> {
    if kind_at(tokens, at) != Kind::Word {
        let message = unexpected(alloc, tokens, at, "a name")?;
        return Err(refused(alloc, spot_at(tokens, at), message));
    }
    Ok(String::from_str(alloc, text_at(tokens, at))?)
}

/// The shape of what is declared, which begins there. It is refused where its schema isn't written, unless more than so
/// much is wrong already.
fn checked_shape(
    alloc: Global,
    report: &mut Report,
    (within, said): (Within<'_>, &Said),
    (over, open): (Over, usize),
    (spot, count): (Spot, usize),
) -> DeriveResult<DeclaredShape> {
    let shape = shape_at(alloc, report, (within, said), (over, open))?;
    if report.count() == count {
        let name = within.owner;
        check_written(alloc, (name, spot), (&shape, within.generics, said))?;
    }
    Ok(shape)
}

/// The struct or enum whose keyword stands there. What is wrong with it is told.
fn declaration_at<'x>(
    alloc: Global,
    report: &mut Report,
    (tokens, imports): (&'x [Token], &'x Imports),
    (head, over): (&Head, Over),
) -> DeriveResult<Declaration> {
    let named = next(head.at);
    let name = declared_name(alloc, tokens, named)?;
    let spot = spot_at(tokens, named);
    let owner = name.as_str();
    let of = Subject {
        over,
        name: owner,
        held: "",
    };
    let count = report.count();
    let said = said_of(alloc, tokens, report, (head, of))?;
    let (generics, open) = generics_at(alloc, report, (tokens, owner), next(named))?;
    let within = Within {
        tokens,
        imports,
        generics: &generics,
        owner,
    };
    let at = (over, open);
    let shape = checked_shape(alloc, report, (within, &said), at, (spot, count))?;
    let line = line_at(tokens, head.at);
    Ok(declared(name, generics, (said, shape), (line, spot)))
}

/// What is declared by this name, there.
fn declared(
    name: String,
    generics: Generics,
    (said, shape): (Said, DeclaredShape),
    (line, spot): (usize, Spot),
) -> Declaration {
    Declaration {
        name,
        generics,
        from: said.from,
        shape,
        is_eq: said.is_eq,
        is_ord: said.is_ord,
        line,
        spot,
    }
}

/// Whether it is one of these, or there are none of these.
fn is_asked(names: &[String], name: &str) -> bool {
    names.is_empty() || names.iter().any(|asked| asked.as_str() == name)
}

/// Where the item's part ends that begins there: behind its brackets, or behind the token.
fn after_part(tokens: &[Token], at: usize) -> usize {
    match text_at(tokens, at) {
        "{" | "(" | "[" if kind_at(tokens, at) == Kind::Sign => {
            next(close_of(tokens, at).unwrap_or(at))
        }
        _ => next(at),
    }
}

/// Where a declaration ends whose keyword stands there.
fn after_declaration(tokens: &[Token], keyword: usize) -> usize {
    let behind = next(next(keyword));
    let open = if is_sign(tokens, behind, "<") {
        close_of(tokens, behind).unwrap_or(behind)
    } else {
        behind
    };
    let end = first_of(tokens, (open, tokens.len()), &["{", ";"]);
    after_part(tokens, end)
}

/// Takes the comment lines of a declaration that isn't asked for.
fn take_notes(
    report: &mut Report,
    tokens: &[Token],
    (from, to): (usize, usize),
) -> DeriveResult<()> {
    for (i, token) in tokens.iter().enumerate().take(to).skip(from) {
        if token.kind == Kind::Note {
            report.take_note(i)?;
        }
    }
    Ok(())
}

/// What a declaration is, whose keyword stands there.
fn declared_at(tokens: &[Token], at: usize) -> Option<Over> {
    if is_word(tokens, at, "struct") {
        Some(Over::Struct)
    } else if is_word(tokens, at, "enum") {
        Some(Over::Enum)
    } else {
        None
    }
}

/// Takes the declaration whose keyword stands there, if it is asked for; where what stands behind it begins.
fn take_declaration(
    alloc: Global,
    report: &mut Report,
    (tokens, imports, names): (&[Token], &Imports, &[String]),
    (head, over): (&Head, Over),
    (at, declarations): (usize, &mut Vec<Declaration>),
) -> DeriveResult<usize> {
    let end = after_declaration(tokens, head.at);
    if !is_asked(names, text_at(tokens, next(head.at))) {
        take_notes(report, tokens, (at, end))?;
        return Ok(end);
    }
    let answer = declaration_at(alloc, report, (tokens, imports), (head, over));
    if let Some(declaration) = report.keep(alloc, answer)? {
        declarations.push(declaration)?;
    }
    Ok(end)
}

/// Refuses the union whose keyword stands there, if one does and it is asked for.
fn refuse_union(
    alloc: Global,
    report: &mut Report,
    (tokens, names): (&[Token], &[String]),
    keyword: usize,
) -> DeriveResult<()> {
    let name = text_at(tokens, next(keyword));
    let is_union = is_word(tokens, keyword, "union")
        && kind_at(tokens, next(keyword)) == Kind::Word;
    if is_union && is_asked(names, name) {
        let spot = spot_at(tokens, keyword);
        let error = wrong(alloc, spot, name, "a union has no schema");
        report.take(alloc, error)?;
    }
    Ok(())
}

/// Takes the item that begins there, if it is a declaration; where what stands behind it begins.
fn take_item(
    alloc: Global,
    report: &mut Report,
    (tokens, imports, names): (&[Token], &Imports, &[String]),
    (at, declarations): (usize, &mut Vec<Declaration>),
) -> DeriveResult<usize> {
    let head = head_of(alloc, tokens, at, tokens.len())?;
    if let Some(over) = declared_at(tokens, head.at) {
        let file = (tokens, imports, names);
        return take_declaration(alloc, report, file, (&head, over), (at, declarations));
    }
    refuse_union(alloc, report, (tokens, names), head.at)?;
    Ok(after_part(tokens, head.at))
}

/// The structs and enums that a source file declares outside of its functions and modules, in order: those with these
/// names, or all where there are none. All that can't be read or has no schema is refused at once, each at its place,
/// and so is each comment line that says nothing of any of them.
pub fn declarations_of(
    alloc: Global,
    tokens: &[Token],
    names: &[String],
) -> DeriveResult<Vec<Declaration>> {
    let mut report = Report::new(alloc);
    check_brackets(alloc, tokens, &mut report)?;
    let mut declarations = Vec::new(alloc);
    if report.count() > 0 {
        report.end()?;
        return Ok(declarations);
    }
    let imports = imports_of(alloc, tokens)?;
    let mut at = 0usize;
    for _ in 0..tokens.len() {
        if at >= tokens.len() {
            break;
        }
        let file = (tokens, &imports, names);
        at = take_item(alloc, &mut report, file, (at, &mut declarations))?;
    }
    tell_untaken(alloc, tokens, &mut report)?;
    tell_circles(alloc, declarations.as_slice(), &mut report)?;
    report.end()?;
    Ok(declarations)
}

/// Whether a source file names the module `schemas` below it.
pub fn has_schemas(alloc: Global, source: &str) -> DeriveResult<bool> {
    let tokens = tokens_of(alloc, source)?;
    let tokens = tokens.as_slice();
    Ok((0..tokens.len()).any(|at| {
        is_word(tokens, at, "mod")
            && is_word(tokens, next(at), "schemas")
            && is_sign(tokens, next(next(at)), ";")
    }))
}

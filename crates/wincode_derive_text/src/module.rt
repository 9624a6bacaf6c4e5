//! The module with the schemas of what a source file declares.
use crate::declarations::{Cases, Declaration, DeclaredShape, Fields, Variant};
use crate::enums::{is_enum_key, put_enum};
use crate::error::{DeriveError, DeriveResult, refused};
use crate::lent::{is_lent_key, put_lent};
use crate::names::{Names, names_of};
use crate::parsing::declarations_of;
use crate::printing::{Words, add, broken, fill, joined, owned, put, put_text, put_use};
use crate::structs::{is_lawful_key, put_key, put_struct};
use crate::tokens::tokens_of;
use std::alloc::Global;

/// Which parts of the library the schemas stand on.
#[derive(Clone, Copy)]
struct Needs {
    /// Types that are read of any lender.
    owned: bool,
    enums: bool,
    /// Types with borrowed fields.
    lent: bool,
    /// Structs that are keys.
    keys: bool,
    /// Structs that are keys where their fields are.
    key_bounds: bool,
    /// Enums of more than one case.
    sides: bool,
    /// Which numbers of members tuples have, a bit for each.
    members: u16,
}

/// The laws of the order of a struct, and of its `==`.
const ORDERS: &str =
    "ghost use Rattle.@crate@.specs.contracts.@path@@type@Eq.TheImpl.Laws as @called@-eq-laws;
ghost use Rattle.@crate@.specs.contracts.@path@@type@Ord.TheImpl.Laws as @called@-ord-laws;
";

/// The laws of parts.
const LAWS: [&str; 11] = [
    "bound_laws",
    "box_laws",
    "hash_map_laws",
    "list_laws",
    "map_laws",
    "option_laws",
    "range_laws",
    "result_laws",
    "same_laws",
    "slice_laws",
    "vec_laws",
];

/// The laws of pairs.
const PAIRS: [&str; 4] = [
    "write_laws_by",
    "reads_back_by",
    "pair_read_laws",
    "windowed_read_laws",
];

/// The laws of cases.
const CASES: [&str; 4] = [
    "enum_read_laws",
    "counted_case_laws",
    "case_laws",
    "last_case_laws",
];

/// The laws of cases in two parts.
const SPLITS: [&str; 1] = ["split_laws"];

/// Of two results that are the same, what the cases of enums that are keys need.
const SIDES: [&str; 4] = ["ok_same", "err_same", "ok_not_err", "err_not_ok"];

/// The bits for the tuples in which so many fields stand, where these have functions of their own.
fn bits_of(count: usize) -> u16 {
    let mut bits = 0u16;
    let mut left = count;
    for _ in 0..count {
        if left <= 12 {
            break;
        }
        bits |= 1u16 << 12;
        left = left.saturating_sub(11);
    }
    for n in 2..13u32 {
        if left == n as usize {
            bits |= 1u16 << n;
        }
    }
    bits
}

/// The needs with those of these fields.
fn with_members(needs: Needs, fields: &Fields) -> Needs {
    let members = needs.members | bits_of(fields.fields.len());
    Needs { members, ..needs }
}

/// Whether a struct has fields, and is compared by them.
fn is_key(declaration: &Declaration, fields: &Fields) -> bool {
    declaration.is_eq
        && declaration.from.is_none()
        && declaration.generics.lifetime.is_none()
        && !fields.fields.is_empty()
        && !fields.fields.iter().any(|field| field.is_phantom)
}

/// The needs with those of an enum.
fn with_cases(needs: Needs, declaration: &Declaration, cases: &Cases) -> Needs {
    let mut all = needs;
    for variant in cases.variants.as_slice() {
        all = with_members(all, &variant.fields);
    }
    let is_lent = declaration.generics.lifetime.is_some();
    all.enums = true;
    all.owned = all.owned || !is_lent;
    all.lent = all.lent || is_lent;
    all.sides = all.sides || cases.variants.len() > 1;
    all.keys = all.keys || is_enum_key(declaration, cases);
    all
}

/// What all declarations need.
fn needs_of(alloc: Global, declarations: &[Declaration]) -> DeriveResult<Needs> {
    let mut needs = Needs {
        owned: false,
        enums: false,
        lent: false,
        keys: false,
        key_bounds: false,
        sides: false,
        members: 0,
    };
    for declaration in declarations {
        match &declaration.shape {
            DeclaredShape::Struct(fields) => {
                let is_lent = declaration.generics.lifetime.is_some();
                needs = with_members(needs, fields);
                needs.lent = needs.lent || is_lent;
                needs.owned = needs.owned || !is_lent;
                let is_lawful = is_lawful_key(declaration, fields);
                let is_lent_key = is_lent_key(alloc, declaration, fields)?;
                needs.keys = needs.keys || is_lent_key || is_key(declaration, fields);
                needs.key_bounds = needs.key_bounds || (is_key(declaration, fields) && !is_lawful);
            }
            DeclaredShape::Enum(cases) => needs = with_cases(needs, declaration, cases),
        }
    }
    Ok(needs)
}

/// Those names of these that are needed.
fn needed_of(alloc: Global, named: &[(&str, bool)]) -> DeriveResult<Vec<String>> {
    let mut names = Vec::new(alloc);
    for (name, is_needed) in named {
        add(alloc, &mut names, *name, *is_needed)?;
    }
    Ok(names)
}

/// Appends a path, with a point in front of each word.
fn put_path(out: &mut String, path: &str) -> DeriveResult<()> {
    for word in path.split("::") {
        put(out, &[".", word])?;
    }
    Ok(())
}

/// Where the checker has what a type is, that stands in this module or, by its path, elsewhere.
pub fn declared_at(alloc: Global, (krate, path): (&str, &str), src: &str) -> DeriveResult<String> {
    let mut out = String::from_str(alloc, "Rattle.")?;
    match src.split_once("::") {
        None => put(&mut out, &[krate, ".specs.declared.", path, src])?,
        Some((first, rest)) => {
            let first = if first == "crate" { krate } else { first };
            put(&mut out, &[first, ".specs.declared"])?;
            put_path(&mut out, rest)?;
        }
    }
    Ok(out)
}

/// The cases of an enum, each with the name that has that of the schema in front.
fn case_names(alloc: Global, name: &str, variants: &[Variant]) -> DeriveResult<String> {
    let mut out = String::new(alloc);
    for (i, variant) in variants.iter().enumerate() {
        let case = variant.name.as_str();
        out.push_str(if i > 0 { ", " } else { "" })?;
        put(&mut out, &[case, " as ", name, "-", case])?;
    }
    Ok(out)
}

/// Appends the line that brings in the cases of an enum, by names with that of the schema in front.
fn put_cases(
    alloc: Global,
    out: &mut String,
    place: (&str, &str),
    (name, src): (&str, &str),
    variants: &[Variant],
) -> DeriveResult<()> {
    out.push_str("ghost use ")?;
    put_text(out, declared_at(alloc, place, src))?;
    out.push_str(".TheVariants.{")?;
    put_text(out, case_names(alloc, name, variants))?;
    out.push_str("};\n")?;
    Ok(())
}

/// Appends these lines for each enum that is declared.
fn put_all_cases(
    alloc: Global,
    out: &mut String,
    place: (&str, &str),
    (written, declarations): (&[Declaration], &[Declaration]),
) -> DeriveResult<()> {
    for (it, declaration) in written.iter().zip(declarations.iter()) {
        if let DeclaredShape::Enum(cases) = &declaration.shape {
            let called = (declaration.name.as_str(), it.src());
            put_cases(alloc, out, place, called, cases.variants.as_slice())?;
        }
    }
    Ok(())
}

/// Whether its order and its `==` are those of a key.
fn is_ordered_key(declaration: &Declaration) -> bool {
    match &declaration.shape {
        DeclaredShape::Struct(fields) => is_lawful_key(declaration, fields),
        DeclaredShape::Enum(cases) => is_enum_key(declaration, cases),
    }
}

/// Appends the lines that bring in the laws of the order of a type, and of its `==`.
fn put_order(
    alloc: Global,
    out: &mut String,
    (krate, path): (&str, &str),
    (written, declaration): (&Declaration, &Declaration),
) -> DeriveResult<()> {
    let mut words = Words::new(alloc);
    words.set("crate", owned(alloc, krate));
    words.set("path", owned(alloc, path));
    words.set("type", owned(alloc, written.name.as_str()));
    words.set("called", owned(alloc, declaration.name.as_str()));
    fill(out, ORDERS, &mut words)
}

/// Appends these lines for each type that is a key.
fn put_orders(
    alloc: Global,
    out: &mut String,
    place: (&str, &str),
    (written, declarations): (&[Declaration], &[Declaration]),
) -> DeriveResult<()> {
    for (it, declaration) in written.iter().zip(declarations.iter()) {
        if is_ordered_key(declaration) {
            put_order(alloc, out, place, (it, declaration))?;
        }
    }
    Ok(())
}

/// Those of these names that stand in the module's body, each with this before it.
fn found_in(
    alloc: Global,
    names: &[&str],
    (before, body): (&str, &str),
) -> DeriveResult<Vec<String>> {
    let mut found = Vec::new(alloc);
    for name in names {
        let word = format!(in alloc; "{before}{name} ")?;
        add(alloc, &mut found, *name, body.contains(word.as_str()))?;
    }
    Ok(found)
}

/// Appends the import of those of these names that stand in the module's body, each with this before it.
fn put_ghosts(
    alloc: Global,
    out: &mut String,
    (module, names): (&str, &[&str]),
    around: (&str, &str),
) -> DeriveResult<()> {
    let found = found_in(alloc, names, around)?;
    put_ghost_use(alloc, out, module, found.as_slice())
}

/// Appends the import of these names for terms, if there are some.
fn put_ghost_use(
    alloc: Global,
    out: &mut String,
    module: &str,
    names: &[String],
) -> DeriveResult<()> {
    if names.is_empty() {
        return Ok(());
    }
    let list = joined(alloc, names, ", ")?;
    put(
        out,
        &["ghost use Rattle.", module, ".{", list.as_str(), "};\n"],
    )
}

/// Appends the import of what results and keys are made of.
fn put_prelude(alloc: Global, out: &mut String, needs: Needs, body: &str) -> DeriveResult<()> {
    let named = [
        ("◌≡◌", needs.lent || body.contains("LawfulCases<L> for")),
        ("Ok", needs.sides),
        ("Err", needs.sides),
        ("refl", body.contains("λ e. refl")),
    ];
    let names = needed_of(alloc, &named)?;
    put_ghost_use(alloc, out, "std.specs.Prelude", names.as_slice())
}

/// Appends the import of the laws that the terms of the module name.
fn put_law_uses(alloc: Global, out: &mut String, body: &str) -> DeriveResult<()> {
    let pairs = ("wincode_base.specs.PairLaws", PAIRS.as_slice());
    put_ghosts(alloc, out, pairs, ("", body))?;
    let sides = ("wincode_derive_support.specs.Keys", SIDES.as_slice());
    put_ghosts(alloc, out, sides, ("", body))?;
    let laws = ("wincode_derive_support.specs.PartLaws", LAWS.as_slice());
    put_ghosts(alloc, out, laws, ("(", body))?;
    let cases = ("wincode_derive_support.specs.SumLaws", CASES.as_slice());
    put_ghosts(alloc, out, cases, ("(", body))?;
    let splits = ("wincode_derive_support.specs.SplitLaws", SPLITS.as_slice());
    put_ghosts(alloc, out, splits, ("(", body))
}

/// Appends what the terms of the module name.
fn put_ghost_uses(
    alloc: Global,
    out: &mut String,
    (place, body): ((&str, &str), &str),
    needs: Needs,
    both: (&[Declaration], &[Declaration]),
) -> DeriveResult<()> {
    put_prelude(alloc, out, needs, body)?;
    let outcomes = "ghost use Rattle.wincode_base.specs.Outcomes.{ReadOutcome};\n";
    put_if(out, outcomes, needs.lent)?;
    put_law_uses(alloc, out, body)?;
    put_orders(alloc, out, place, both)?;
    put_all_cases(alloc, out, place, both)
}

/// Appends the line where it is needed.
fn put_if(out: &mut String, line: &str, is_needed: bool) -> DeriveResult<()> {
    if is_needed {
        out.push_str(line)?;
    }
    Ok(())
}

/// Appends the import of those of these names that are needed.
fn put_needed(
    alloc: Global,
    out: &mut String,
    path: &str,
    named: &[(&str, bool)],
) -> DeriveResult<()> {
    let names = needed_of(alloc, named)?;
    put_use(alloc, out, path, names.as_slice())
}

/// Adds the functions of so many members.
fn add_members(
    alloc: Global,
    names: &mut Vec<String>,
    function: &str,
    members: u16,
) -> DeriveResult<()> {
    for n in 2..13u32 {
        if (members >> n) & 1 == 1 {
            names.push(format!(in alloc; "{function}_members_{n}")?)?;
        }
    }
    Ok(())
}

/// Appends the import of the functions of members.
fn put_members(alloc: Global, out: &mut String, needs: Needs) -> DeriveResult<()> {
    let mut names = Vec::new(alloc);
    add_members(alloc, &mut names, "encode_front", needs.members)?;
    add_members(alloc, &mut names, "size_of", needs.members)?;
    add_members(alloc, &mut names, "write", needs.members)?;
    put_use(alloc, out, "wincode::schema::tuples", names.as_slice())
}

/// Appends what the code of the module names of readers and writers.
fn put_io(alloc: Global, out: &mut String, needs: Needs) -> DeriveResult<()> {
    let named = [
        ("Lending", needs.owned),
        ("Lifetime", needs.lent),
        ("Reader", true),
        ("Writer", true),
    ];
    put_needed(alloc, out, "wincode::io", &named)
}

/// Appends what the code of the module names.
fn put_uses(
    alloc: Global,
    out: &mut String,
    (needs, names): (Needs, &Names),
    body: &str,
) -> DeriveResult<()> {
    out.push('\n')?;
    names.put_uses(alloc, out)?;
    out.push_str("use std::alloc::Global;\n")?;
    let marker = "use std::marker::PhantomData;\n";
    put_if(out, marker, body.contains("PhantomData"))?;
    names.put_shadowed(out)?;
    put_io(alloc, out, needs)?;
    let lengths = "use wincode::len::SeqLen;\n";
    put_if(out, lengths, body.contains(" as SeqLen>"))?;
    put_members(alloc, out, needs)?;
    put_schema_uses(alloc, out, needs, body)?;
    put_derived_uses(alloc, out, needs, body)
}

/// Appends what the code of the module names of `wincode` itself.
fn put_schema_uses(alloc: Global, out: &mut String, needs: Needs, body: &str) -> DeriveResult<()> {
    let named = [
        ("Key", needs.keys),
        ("OneText", true),
        ("ReadResult", true),
        ("RoundTrip", true),
        ("SchemaGet", body.contains("SchemaGet<")),
        ("SchemaRead", true),
        ("SchemaReadOwned", needs.owned),
        ("SchemaWrite", true),
        ("TypeMeta", true),
        ("WriteResult", true),
    ];
    put_needed(alloc, out, "wincode", &named)
}

/// Appends what the module names of `wincode_derive_support`.
fn put_derived_uses(alloc: Global, out: &mut String, needs: Needs, body: &str) -> DeriveResult<()> {
    put_enums_uses(alloc, out, needs, body)?;
    let keys = "use wincode_derive_support::keys::LawfulKey;\n";
    put_if(out, keys, body.contains("LawfulKey<L>"))?;
    put_laws_uses(alloc, out, needs, body)?;
    let lent = "use wincode_derive_support::lent::Lends;\n";
    put_if(out, lent, needs.lent)?;
    put_parts_uses(alloc, out, body)?;
    put_sums_uses(alloc, out, needs, body)
}

/// Appends what enums name.
fn put_enums_uses(alloc: Global, out: &mut String, needs: Needs, body: &str) -> DeriveResult<()> {
    let named = [
        ("EnumParts", body.contains("EnumParts for")),
        ("EnumShape", needs.enums),
        ("encode_enum", needs.enums),
        ("read_enum", body.contains("read_enum::<")),
        ("size_of_enum", needs.enums),
        ("write_enum", needs.enums),
    ];
    put_needed(alloc, out, "wincode_derive_support::enums", &named)
}

/// Appends what the bounds on fields and cases name.
fn put_laws_uses(alloc: Global, out: &mut String, needs: Needs, body: &str) -> DeriveResult<()> {
    let named = [
        ("FieldsKey", needs.key_bounds),
        ("FieldsOneText", needs.owned),
        ("FieldsReadOwned", needs.owned),
        ("Lawful", needs.owned),
        ("LawfulCases", body.contains("LawfulCases<L> for")),
    ];
    put_needed(alloc, out, "wincode_derive_support::laws", &named)
}

/// Appends what the schemas of cases name.
fn put_sums_uses(alloc: Global, out: &mut String, needs: Needs, body: &str) -> DeriveResult<()> {
    let is_split = body.contains("LawfulCases<L> for");
    let named = [
        ("Case", needs.sides),
        ("CasesOneText", is_split),
        ("CasesRead", is_split),
        ("CasesReadOwned", is_split),
        ("CasesRoundTrip", is_split),
        ("CasesWrite", is_split),
        ("Counted", body.contains("Counted<")),
        ("Last", needs.enums),
        ("OneOf", needs.enums),
    ];
    put_needed(alloc, out, "wincode_derive_support::sums", &named)
}

/// Appends what the parts of enums of many cases name.
fn put_parts_uses(alloc: Global, out: &mut String, body: &str) -> DeriveResult<()> {
    let is_split = body.contains("LawfulCases<L> for");
    let named = [
        ("PartOneText", is_split),
        ("PartReadOwned", is_split),
        ("Split", is_split),
    ];
    put_needed(alloc, out, "wincode_derive_support::splits", &named)
}

/// Appends the schema of a struct that names no lifetime, and that it is a key, if it is one.
fn put_owned_struct(
    alloc: Global,
    out: &mut String,
    (all, declaration): (&[Declaration], &Declaration),
    fields: &Fields,
) -> DeriveResult<()> {
    put_struct(alloc, out, (all, declaration), fields)?;
    if is_key(declaration, fields) {
        put_key(alloc, out, declaration, fields)?;
    }
    Ok(())
}

/// Appends the schema of one declaration.
fn put_schema(
    alloc: Global,
    out: &mut String,
    all: &[Declaration],
    declaration: &Declaration,
) -> DeriveResult<()> {
    match (&declaration.shape, &declaration.generics.lifetime) {
        (DeclaredShape::Struct(fields), Some(lifetime)) => {
            put_lent(alloc, out, (declaration, lifetime.as_str()), fields)
        }
        (DeclaredShape::Struct(fields), None) => {
            put_owned_struct(alloc, out, (all, declaration), fields)
        }
        (DeclaredShape::Enum(cases), _) => put_enum(alloc, out, (all, declaration), cases),
    }
}

/// An answer, where a declaration whose schema can't be written is refused by its name, where it stands.
fn named(alloc: Global, declaration: &Declaration, answer: DeriveResult<()>) -> DeriveResult<()> {
    match answer {
        Err(DeriveError::Unsupported { what, .. }) => {
            let name = declaration.name.as_str();
            let message = format!(in alloc; "`{name}`: no schema for {what}")?;
            Err(refused(alloc, declaration.spot, message))
        }
        other => other,
    }
}

/// The declarations of a source file, as it has them: these, or all.
pub fn written_of(alloc: Global, source: &str, names: &[String]) -> DeriveResult<Vec<Declaration>> {
    let tokens = tokens_of(alloc, source)?;
    declarations_of(alloc, tokens.as_slice(), names)
}

/// The same declarations as the module has them, and what it calls their names.
pub fn seen_of(
    alloc: Global,
    source: &str,
    names: &[String],
) -> DeriveResult<(Vec<Declaration>, Names)> {
    let tokens = tokens_of(alloc, source)?;
    let mut declarations = declarations_of(alloc, tokens.as_slice(), names)?;
    let called = names_of(alloc, tokens.as_slice(), &mut declarations)?;
    Ok((declarations, called))
}

/// Refuses a name of which nothing is declared, and a file that declares nothing.
fn check_declared(alloc: Global, written: &[Declaration], names: &[String]) -> DeriveResult<()> {
    for name in names {
        if written
            .iter()
            .all(|declaration| declaration.name.as_str() != name.as_str())
        {
            return Err(DeriveError::Undeclared(owned(alloc, name.as_str())?));
        }
    }
    if written.is_empty() {
        return Err(DeriveError::Empty);
    }
    Ok(())
}

/// The schemas of all declarations.
fn body_of(alloc: Global, declarations: &[Declaration]) -> DeriveResult<String> {
    let mut body = String::new(alloc);
    for declaration in declarations {
        let answer = put_schema(alloc, &mut body, declarations, declaration);
        named(alloc, declaration, answer)?;
    }
    Ok(body)
}

/// The first line of the module, which says the names that were asked for.
fn head_line(alloc: Global, names: &[String]) -> DeriveResult<String> {
    let mut out = owned(alloc, "//! Written by `wincode_derive`")?;
    for name in names {
        put(&mut out, &[" ", name.as_str()])?;
    }
    out.push_str(": the schemas of what the module above declares.\n")?;
    Ok(out)
}

/// The module's text, with lines of any width.
fn unbroken(
    alloc: Global,
    (place, names): ((&str, &str), &[String]),
    (written, declarations): (&[Declaration], &[Declaration]),
    called: &Names,
) -> DeriveResult<String> {
    let needs = needs_of(alloc, declarations)?;
    let body = body_of(alloc, declarations)?;
    let body = body.as_str();
    let mut out = head_line(alloc, names)?;
    let both = (written, declarations);
    put_ghost_uses(alloc, &mut out, (place, body), needs, both)?;
    put_uses(alloc, &mut out, (needs, called), body)?;
    out.push_str(body)?;
    Ok(out)
}

/// The module with the schemas of what a source file declares, of these types or of all. `krate` is the crate's name,
/// and `path` the path of the file's module in it, each word with a point behind it.
pub fn module_of(
    alloc: Global,
    source: &str,
    (krate, path): (&str, &str),
    names: &[String],
) -> DeriveResult<String> {
    let written = written_of(alloc, source, names)?;
    check_declared(alloc, written.as_slice(), names)?;
    let (declarations, called) = seen_of(alloc, source, names)?;
    let both = (written.as_slice(), declarations.as_slice());
    let text = unbroken(alloc, ((krate, path), names), both, &called)?;
    broken(alloc, text.as_str())
}

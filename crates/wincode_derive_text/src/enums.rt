//! The schema of an enum.
use crate::declarations::{Cases, Declaration, Field, Fields, Generics, Naming, Variant};
use crate::error::DeriveResult;
use crate::inside::looked_into;
use crate::laws::{law_of, seen_by};
use crate::lent::{own_no_memory, put_lent_enum};
use crate::parts::Layout;
use crate::printing::{Words, fill, joined, owned, put, put_call, put_text, put_times};
use crate::structs::{
    OF, applied, are_plain_keys, bindings, bound_of, evidence_of, held_as, made_of, members,
    name_words, numbered, of_members, pairs_of_all, pairs_of_schemas, read_head, schemas_of,
    takes_of, tuple_of, tuple_of_bindings, tuple_of_schemas, tuple_of_types,
};
use std::alloc::Global;

const SCHEMAS: &str = "
type @fields@ = @schemas@;
";

/// What an enum is made of.
const PARTS: &str = "
impl@any@ EnumParts for @of@ {
    type Src = @any_src@;

    type Parts = @parts@;

    ghost parts = { elim [ @arms@ ] };

    fn make(made_of: Self::Parts) -> @any_src@ {
        match made_of {
@make@        }
    }
}
";

/// The same of what is written, where types are parameters.
const WRITTEN_PARTS: &str = "
impl@writes@ EnumParts for @self@@where_src@ {
    type Src = @src@;

    type Parts = @src_parts@;

    ghost parts = { ⟦<@of_src@ as EnumParts>⟧.parts };

    fn make(made_of: Self::Parts) -> @src@ {
        <@of_src@ as EnumParts>::make(made_of)
    }
}
";

const SHAPE: &str = "
impl@writes@ EnumShape for @self@@where_src@ {
    type Tag = @tag@;

    type Cases = @cases@;

    fn tag(src: &@src@) -> usize {
        match src {
@tags@        }
    }

    fn part_size(src: &@src@) -> WriteResult<usize> {
        match src {
@size_arms@        }
    }

    fn write_part<W: Writer>(writer: &mut W, src: &@src@) -> WriteResult<()> {
        match src {
@write_arms@        }
    }

    fn encode_part(src: &@src@, dst: &mut [u8]) -> Option<usize> {
        match src {
@front_arms@        }
    }
}
";

const WRITING: &str = "
impl@writes@ SchemaWrite for @self@@where_src@ {
    type Src = @src@;

    ghost Value = { ⟦<@fields@ as SchemaWrite>⟧.Value };

    ghost model = { λ x. ⟦<@fields@ as SchemaWrite>⟧.model @values@ };

    ghost is_valid = { λ x. ⟦<@fields@ as SchemaWrite>⟧.is_valid @values@ };

    ghost writing = { ⟦<@fields@ as SchemaWrite>⟧.writing };

    fn type_meta() -> TypeMeta {
        <@fields@ as SchemaWrite>::type_meta()
    }

    fn size_of(src: &@src@) -> WriteResult<usize> {
@size@    }

    fn write<W: Writer>(writer: &mut W, src: &@src@) -> WriteResult<()> {
@write@    }

    #[inline(always)]
    fn encode_front(src: &@src@, dst: &mut [u8]) -> Option<usize> {
@front@    }

    ghost write_laws = { write_laws_by ⟦<@self@ as EnumParts>⟧.parts ⟦<@fields@ as SchemaWrite>⟧.write_laws };
}
";

const READING: &str = "
impl@reads@ SchemaRead<L> for @self@ {
    type Dst = @dst@;

    ghost Value = { ⟦<@fields@ as SchemaRead<L>>⟧.Value };

    ghost model = { λ x. ⟦<@fields@ as SchemaRead<L>>⟧.model (⟦<@of_dst@ as EnumParts>⟧.parts x) };

    ghost is_valid = { ⟦<@fields@ as SchemaRead<L>>⟧.is_valid };

    ghost reading = { ⟦<@fields@ as SchemaRead<L>>⟧.reading };

    fn type_meta() -> TypeMeta {
        <@fields@ as SchemaRead<L>>::type_meta()
    }

    fn prealloc_size() -> usize {
        <@fields@ as SchemaRead<L>>::prealloc_size()
    }

@head@        read_enum::<L, @fields@, @of_dst@, R>(alloc, reader, dst)
    }

    ghost read_laws = { @laws@ };
}

impl@lawful@ Lawful<L> for @self@@where_dst@ {
    type Dst = @dst@;

    ghost Value = { ⟦<@fields@ as Lawful<L>>⟧.Value };

    ghost model = { λ x. ⟦<@fields@ as Lawful<L>>⟧.model (⟦<@of_dst@ as EnumParts>⟧.parts x) };

    ghost is_valid = { ⟦<@fields@ as Lawful<L>>⟧.is_valid };

    ghost reading = { ⟦<@fields@ as Lawful<L>>⟧.reading };

    ghost read_laws = { ⟦<@fields@ as Lawful<L>>⟧.read_laws };
}
";

const MARKERS: &str = "
impl@backs@ RoundTrip<L> for @self@
where
@drops@    @fields@: RoundTrip<L@bound@>,
{
    ghost reads_back = { reads_back_by ⟦<@self@ as EnumParts>⟧.parts @evidence@.reads_back };
}

impl@backs@ OneText<L> for @self@
where
@drops@    @fields@: FieldsOneText<L@bound@>,
{
    ghost one_text = { @evidence@.fields_one_text };
}

impl@backs@ SchemaReadOwned<L> for @self@
where
@drops@    @fields@: FieldsReadOwned<L@bound@>,
{
    ghost owned = { @evidence@.fields_owned };
}
";

const KEY: &str = "
impl<L: Lending> Key<L> for @type@ {
    ghost alike = { ⟦<@type@ as LawfulKey<L>>⟧.alike };
}

impl<L: Lending> LawfulKey<L> for @type@ {
    type Dst = @type@;

    ghost Value = { ⟦<@type@Cases as Lawful<L>>⟧.Value };

    ghost model = { λ x. ⟦<@type@Cases as Lawful<L>>⟧.model (⟦<@type@ as EnumParts>⟧.parts x) };

    ghost is_valid = { ⟦<@type@Cases as Lawful<L>>⟧.is_valid };

    ghost reading = { ⟦<@type@Cases as Lawful<L>>⟧.reading };

    ghost read_laws = { ⟦<@type@Cases as Lawful<L>>⟧.read_laws };

    ghost equal = { ⟦<@type@ as PartialEq>⟧.eq };

    ghost equivalence = { @type@-eq-laws.laws-law };

    ghost alike = { elim [@alike@
    ] };

    ghost order = { ⟦<@type@ as Ord>⟧.cmp };

    ghost order_total = { @type@-ord-laws.total-law };

    ghost order_ties = { @type@-ord-laws.matches_eq-law };
}
";

/// How many cases an enum may have that is a key: each is held against each.
const CASES_OF_KEY: usize = 16;

/// Types whose values are no arrays, by their names.
const NO_ARRAYS: [&str; 20] = [
    "u8", "u16", "u32", "u64", "u128", "usize", "i8", "i16", "i32", "i64", "i128", "isize", "bool",
    "char", "String", "Vec", "Option", "Box", "BTreeMap", "()",
];

/// The case of a result that stands at this place of so many, around what the case holds, in a term: `Err (Ok a)`.
pub fn sided(alloc: Global, (place, count): (usize, usize), inside: &str) -> DeriveResult<String> {
    let is_last = place.saturating_add(1) >= count;
    let errors = if is_last {
        place.saturating_sub(1)
    } else {
        place
    };
    let side = match (count > 1, is_last) {
        (false, _) => "",
        (true, true) => "Err ",
        (true, false) => "Ok ",
    };
    let mut out = String::new(alloc);
    put_times(&mut out, "Err (", errors)?;
    put(&mut out, &[side, inside])?;
    put_times(&mut out, ")", errors)?;
    Ok(out)
}

/// The types, from the last to the first: each but the last as `Result<A, ..>`.
pub fn sides_of(alloc: Global, variants: &[Variant]) -> DeriveResult<String> {
    let mut out = String::new(alloc);
    let count = variants.len();
    for (i, variant) in variants.iter().enumerate() {
        let is_last = i.saturating_add(1) >= count;
        put_side(&mut out, tuple_of_types(alloc, &variant.fields), is_last)?;
    }
    close(&mut out, count)?;
    Ok(out)
}

/// Appends a type: the last, or one that is open to those behind it.
pub fn put_side(out: &mut String, value: DeriveResult<String>, is_last: bool) -> DeriveResult<()> {
    out.push_str(if is_last { "" } else { "Result<" })?;
    put_text(out, value)?;
    out.push_str(if is_last { "" } else { ", " })?;
    Ok(())
}

/// Closes what was opened for each of so many but the last.
pub fn close(out: &mut String, count: usize) -> DeriveResult<()> {
    put_times(out, ">", count.saturating_sub(1))
}

/// A case with its tag: the last, or one that is open to those behind it.
fn case_of(alloc: Global, variant: &Variant, is_last: bool) -> DeriveResult<String> {
    let schema = tuple_of_schemas(alloc, &variant.fields, 0)?;
    let schema = schema.as_str();
    let tag = variant.tag;
    let (name, end) = if is_last {
        ("Last", ">")
    } else {
        ("Case", ", ")
    };
    Ok(format!(in alloc; "{name}<{tag}, {schema}{end}")?)
}

/// Some cases with their tags.
pub fn case_sides_of(alloc: Global, variants: &[Variant]) -> DeriveResult<String> {
    let mut out = String::new(alloc);
    for (i, variant) in variants.iter().enumerate() {
        let is_last = i.saturating_add(1) == variants.len();
        out.push_str(case_of(alloc, variant, is_last)?.as_str())?;
    }
    close(&mut out, variants.len())?;
    Ok(out)
}

/// The cases of an enum with their tags.
pub fn cases_of(alloc: Global, declaration: &Declaration, cases: &Cases) -> DeriveResult<String> {
    all_cases(alloc, (declaration, false), cases)
}

/// The same, with the cases of each part in which they stand in its place.
pub fn spelled_cases_of(
    alloc: Global,
    declaration: &Declaration,
    cases: &Cases,
) -> DeriveResult<String> {
    all_cases(alloc, (declaration, true), cases)
}

/// The cases of an enum with their tags, in parts by their names, or spelled out.
fn all_cases(alloc: Global, of: (&Declaration, bool), cases: &Cases) -> DeriveResult<String> {
    let variants = cases.variants.as_slice();
    let all = Layout::of(of.0, variants.len()).cases(alloc, of, variants)?;
    let all = all.as_str();
    match cases.counts {
        Some(counts) => Ok(format!(in alloc; "Counted<{counts}, {all}>")?),
        None => owned(alloc, all),
    }
}

/// What contracts see of a case, at this place.
fn arm_seen(
    alloc: Global,
    name: &str,
    variant: &Variant,
    (layout, place): (Layout, usize),
) -> DeriveResult<String> {
    let pattern = pattern_of(alloc, name, variant, "")?;
    let value = value_of(alloc, variant)?;
    let side = layout.sided(alloc, place, value.as_str())?;
    mapped(alloc, pattern.as_str(), side.as_str())
}

/// An arm of a term: what it gives for values of a pattern.
fn mapped(alloc: Global, pattern: &str, given: &str) -> DeriveResult<String> {
    Ok(format!(in alloc; "{pattern} ↦ {given}")?)
}

/// What contracts see of each case.
fn arms_of(
    alloc: Global,
    name: &str,
    variants: &[Variant],
    layout: Layout,
) -> DeriveResult<String> {
    let mut arms = Vec::new(alloc);
    for (i, variant) in variants.iter().enumerate() {
        arms.push(arm_seen(alloc, name, variant, (layout, i))?)?;
    }
    joined(alloc, arms.as_slice(), " | ")
}

/// What is seen of a case, by the letters of its fields, in a term.
fn value_of(alloc: Global, variant: &Variant) -> DeriveResult<String> {
    if variant.fields.fields.is_empty() {
        return owned(alloc, "tt");
    }
    let mut values = Vec::new(alloc);
    for (i, field) in variant.fields.fields.iter().enumerate() {
        values.push(value_at(alloc, field, i)?)?;
    }
    tuple_of(alloc, values.as_slice())
}

/// What is seen of a field of a case, at this place.
fn value_at(alloc: Global, field: &Field, place: usize) -> DeriveResult<String> {
    if field.is_phantom {
        return owned(alloc, "tt");
    }
    numbered(alloc, place)
}

/// A letter for each field of a case.
pub fn letters_of(alloc: Global, variant: &Variant) -> DeriveResult<Vec<String>> {
    let mut names = Vec::new(alloc);
    for (i, _) in variant.fields.fields.iter().enumerate() {
        names.push(numbered(alloc, i)?)?;
    }
    Ok(names)
}

/// `Type::Case`
fn path_of(alloc: Global, name: &str, variant: &Variant) -> DeriveResult<String> {
    let case = variant.name.as_str();
    Ok(format!(in alloc; "{name}::{case}")?)
}

/// Whether values of a type are known, by its name, to be no arrays.
fn is_no_array(value: &str) -> bool {
    let name = match value.split_once('<') {
        Some((name, _)) => name,
        None => value,
    };
    NO_ARRAYS.iter().any(|known| *known == name)
}

/// Whether a value is made of several parts of which one may be an array, which is taken by itself first.
fn is_taken(fields: &Fields) -> bool {
    fields.fields.len() >= 2
        && !fields
            .fields
            .iter()
            .all(|field| is_no_array(field.value.as_str()))
}

/// Appends the rest of an arm by which a value is made of what its case holds, which is taken by itself first.
fn put_taken(
    alloc: Global,
    out: &mut String,
    (after, path): (&str, &str),
    fields: &Fields,
) -> DeriveResult<()> {
    put(out, &["parts", after, " => {\n"])?;
    put_text(out, takes_of(alloc, fields, "parts"))?;
    put_text(out, made_of(alloc, path, fields))?;
    put(out, &["\n}\n"])
}

/// Appends the rest of an arm by which a value is made of what its case holds.
fn put_whole(
    alloc: Global,
    out: &mut String,
    (after, path): (&str, &str),
    fields: &Fields,
) -> DeriveResult<()> {
    put_text(out, tuple_of_bindings(alloc, fields))?;
    put(out, &[after, " => "])?;
    put_text(out, made_of(alloc, path, fields))?;
    put(out, &[",\n"])
}

/// Appends the arm by which a value is made of what its case holds, which stands between these: an array is taken by
/// itself before it is made part of a value.
fn put_made(
    alloc: Global,
    out: &mut String,
    (before, after): (&str, &str),
    (name, variant): (&str, &Variant),
) -> DeriveResult<()> {
    let path = path_of(alloc, name, variant)?;
    let of = (after, path.as_str());
    out.push_str(before)?;
    if is_taken(&variant.fields) {
        put_taken(alloc, out, of, &variant.fields)
    } else {
        put_whole(alloc, out, of, &variant.fields)
    }
}

/// What stands before and behind what a case holds, where the case stands at this place of so many.
pub fn side_of(place: usize, count: usize) -> (&'static str, &'static str) {
    let is_last = place.saturating_add(1) == count;
    match (place, is_last) {
        (0, true) => ("", ""),
        (_, true) => ("Err(", ")"),
        (0, false) => ("Ok(", ")"),
        _ => ("Err(rest) => match rest {\nOk(", ")"),
    }
}

/// The arms by which a value is made of its parts, a `match` for each side behind the first.
pub fn made_by_sides(alloc: Global, name: &str, variants: &[Variant]) -> DeriveResult<String> {
    let mut out = String::new(alloc);
    for (i, variant) in variants.iter().enumerate() {
        let side = side_of(i, variants.len());
        put_made(alloc, &mut out, side, (name, variant))?;
    }
    put_times(&mut out, "},\n", variants.len().saturating_sub(2))?;
    Ok(out)
}

/// What stands for the fields of a case at which nobody looks.
fn unseen_of(alloc: Global, fields: &Fields) -> DeriveResult<String> {
    match fields.naming {
        Naming::Unit => Ok(String::new(alloc)),
        Naming::Named => owned(alloc, " { .. }"),
        Naming::Numbered => unseen_numbered(alloc, fields.fields.len()),
    }
}

/// What stands for so many fields without names at which nobody looks.
fn unseen_numbered(alloc: Global, count: usize) -> DeriveResult<String> {
    let mut out = owned(alloc, if count > 0 { "(_" } else { "(" })?;
    put_times(&mut out, ", _", count.saturating_sub(1))?;
    out.push(')')?;
    Ok(out)
}

/// The arm with the tag of a case.
fn tag_arm(alloc: Global, name: &str, variant: &Variant) -> DeriveResult<String> {
    let (case, tag) = (variant.name.as_str(), variant.tag);
    let unseen = unseen_of(alloc, &variant.fields)?;
    let unseen = unseen.as_str();
    Ok(format!(in alloc; "            {name}::{case}{unseen} => {tag},\n")?)
}

/// The arms with the tag of each case.
fn tags_of(alloc: Global, name: &str, variants: &[Variant]) -> DeriveResult<String> {
    let mut out = String::new(alloc);
    for variant in variants {
        put_text(&mut out, tag_arm(alloc, name, variant))?;
    }
    Ok(out)
}

/// What the fields of a case are where they are written.
fn held_of(alloc: Global, fields: &Fields) -> DeriveResult<Vec<String>> {
    let names = bindings(alloc, fields)?;
    let mut held = Vec::new(alloc);
    for (field, name) in fields.fields.iter().zip(names.iter()) {
        held.push(held_as(alloc, field, "&()", name.as_str())?)?;
    }
    Ok(held)
}

/// The function of what a case holds, and these behind it.
fn function_of(
    alloc: Global,
    fields: &Fields,
    (function, more): (&str, &str),
) -> DeriveResult<String> {
    let schemas = schemas_of(alloc, fields)?;
    of_members(alloc, function, schemas.as_slice(), more)
}

/// The arguments of such a function: what a case holds, with this before and behind.
fn arguments_of(alloc: Global, fields: &Fields, around: (&str, &str)) -> DeriveResult<Vec<String>> {
    let names = held_of(alloc, fields)?;
    members(alloc, names.as_slice(), around)
}

/// The pattern of a case, in front of what its arm gives.
fn arm_begin(alloc: Global, name: &str, variant: &Variant) -> DeriveResult<String> {
    let path = path_of(alloc, name, variant)?;
    let mut out = made_of(alloc, path.as_str(), &variant.fields)?;
    out.push_str(" => ")?;
    Ok(out)
}

/// Appends the arm that sizes or writes what a case holds, by a call with this before what it holds, and this behind.
fn put_arm(
    alloc: Global,
    out: &mut String,
    (name, variant): (&str, &Variant),
    call: (&str, &str),
    around: (&str, &str),
) -> DeriveResult<()> {
    let pattern = arm_begin(alloc, name, variant)?;
    let function = function_of(alloc, &variant.fields, call)?;
    let arguments = arguments_of(alloc, &variant.fields, around)?;
    let call = (pattern.as_str(), function.as_str(), ",");
    put_call(alloc, out, 12, call, arguments.as_slice())
}

/// The arms that size or write what each case holds.
fn calls_of(
    alloc: Global,
    name: &str,
    variants: &[Variant],
    call: (&str, &str),
    around: (&str, &str),
) -> DeriveResult<String> {
    let mut out = String::new(alloc);
    for variant in variants {
        put_arm(alloc, &mut out, (name, variant), call, around)?;
    }
    Ok(out)
}

/// A case with what it holds, by the letters of its fields with this behind each.
fn pattern_of(alloc: Global, name: &str, variant: &Variant, behind: &str) -> DeriveResult<String> {
    let letters = letters_of(alloc, variant)?;
    let mut out = owned(alloc, name)?;
    put(&mut out, &["-", variant.name.as_str()])?;
    for letter in letters.as_slice() {
        put(&mut out, &[" ", letter.as_str(), behind])?;
    }
    Ok(out)
}

/// The letters, each with a prime.
fn primed(alloc: Global, letters: &[String]) -> DeriveResult<Vec<String>> {
    let mut others = Vec::new(alloc);
    for letter in letters {
        others.push(format!(in alloc; "{letter}'")?)?;
    }
    Ok(others)
}

/// The parts of a value of a case as pairs in pairs, by the letters of its fields.
fn parts_of(alloc: Global, variant: &Variant) -> DeriveResult<String> {
    let letters = letters_of(alloc, variant)?;
    pairs_of_all(alloc, letters.as_slice())
}

/// The parts of another value of the same case as pairs in pairs, by the same letters with primes.
fn parts_of_other(alloc: Global, variant: &Variant) -> DeriveResult<String> {
    let letters = letters_of(alloc, variant)?;
    let letters = primed(alloc, letters.as_slice())?;
    pairs_of_all(alloc, letters.as_slice())
}

/// What a law says of two values of one case: their parts as pairs in pairs, the one's and the other's.
fn both_of(alloc: Global, variant: &Variant) -> DeriveResult<String> {
    let one = parts_of(alloc, variant)?;
    let other = parts_of_other(alloc, variant)?;
    let (one, other) = (one.as_str(), other.as_str());
    Ok(format!(in alloc; "{one} {other}")?)
}

/// Why two values of one case are equal where the same is seen of them.
fn same_of(alloc: Global, variant: &Variant, is_last: bool, same: &str) -> DeriveResult<String> {
    if variant.fields.fields.is_empty() {
        return owned(alloc, "refl");
    }
    let schema = pairs_of_schemas(alloc, &variant.fields)?;
    let both = both_of(alloc, variant)?;
    let (schema, both) = (schema.as_str(), both.as_str());
    let (before, after) = if is_last {
        ("", "")
    } else {
        ("(ok_same ", ")")
    };
    Ok(format!(in alloc; "⟦<{schema} as LawfulKey<L>>⟧.alike {both} {before}{same}{after}")?)
}

/// That the same is seen of what stands behind so many others, from that it is seen of all.
fn behind(alloc: Global, depth: usize, all: &str) -> DeriveResult<String> {
    let mut out = String::new(alloc);
    put_times(&mut out, "(err_same ", depth)?;
    out.push_str(all)?;
    put_times(&mut out, ")", depth)?;
    Ok(out)
}

/// That the same is seen of the parts in which two cases stand, this of so many.
fn behind_part(alloc: Global, (part, parts): (usize, usize)) -> DeriveResult<String> {
    let same = behind(alloc, part, "e")?;
    let same = same.as_str();
    if part.saturating_add(1) < parts {
        Ok(format!(in alloc; "(ok_same {same})")?)
    } else {
        owned(alloc, same)
    }
}

/// That the same isn't seen of what stands at two places, from that it is seen of all.
fn apart_of(alloc: Global, (i, j): (usize, usize), all: &str) -> DeriveResult<String> {
    let same = behind(alloc, i.min(j), all)?;
    let apart = if i < j { "ok_not_err" } else { "err_not_ok" };
    let same = same.as_str();
    Ok(format!(in alloc; "{apart} {same}")?)
}

/// That the same is seen of the part in which two cases stand, this of so many, or of all where they stand together.
fn all_of(alloc: Global, part: (usize, usize), layout: Layout) -> DeriveResult<String> {
    if layout.is_whole() {
        owned(alloc, "e")
    } else {
        behind_part(alloc, part)
    }
}

/// Why values of two cases of one part, at these places of so many, are equal where the same is seen of them, or that
/// it isn't.
fn why_inside(
    alloc: Global,
    (one, all): (&Variant, &str),
    (i, j): (usize, usize),
    count: usize,
) -> DeriveResult<String> {
    if i != j {
        return apart_of(alloc, (i, j), all);
    }
    let same = behind(alloc, i, all)?;
    same_of(alloc, one, i.saturating_add(1) == count, same.as_str())
}

/// Why values of two cases, at these places, are equal where the same is seen of them, or that it isn't.
fn why_of(
    alloc: Global,
    ((i, one), j): ((usize, &Variant), usize),
    layout: Layout,
) -> DeriveResult<String> {
    let (part, other) = (layout.part(i), layout.part(j).0);
    if part.0 != other {
        return apart_of(alloc, (part.0, other), "e");
    }
    let all = all_of(alloc, part, layout)?;
    let ((i, count), (j, _)) = (layout.inside(i), layout.inside(j));
    why_inside(alloc, (one, all.as_str()), (i, j), count)
}

/// Why a value of this case and one of another, at these places, are equal where the same is seen of them, for values
/// of the other.
fn alike_arm(
    alloc: Global,
    (name, layout): (&str, Layout),
    one: (usize, &Variant),
    (j, other): (usize, &Variant),
) -> DeriveResult<String> {
    let pattern = pattern_of(alloc, name, other, "'")?;
    let why = why_of(alloc, (one, j), layout)?;
    let (pattern, why) = (pattern.as_str(), why.as_str());
    Ok(format!(in alloc; "{pattern} ↦ λ e. {why}")?)
}

/// Why a value of this case and one of each other one are equal where the same is seen of them.
fn alike_arms(
    alloc: Global,
    name: &str,
    (variants, layout): (&[Variant], Layout),
    one: (usize, &Variant),
) -> DeriveResult<String> {
    let mut arms = Vec::new(alloc);
    for (j, other) in variants.iter().enumerate() {
        arms.push(alike_arm(alloc, (name, layout), one, (j, other))?)?;
    }
    joined(alloc, arms.as_slice(), " | ")
}

/// Why two values of which the same is seen are equal: of a case and of each other one.
fn alike_of(
    alloc: Global,
    name: &str,
    of: (&[Variant], Layout),
    (i, one): (usize, &Variant),
) -> DeriveResult<String> {
    let pattern = pattern_of(alloc, name, one, "")?;
    let arms = alike_arms(alloc, name, of, (i, one))?;
    let (pattern, arms) = (pattern.as_str(), arms.as_str());
    Ok(format!(in alloc; "\n      | {pattern} ↦ elim [ {arms} ]")?)
}

/// Whether an enum is a key of maps: it derives what these ask, its fields are keys by their names, and it has few
/// cases.
pub fn is_enum_key(declaration: &Declaration, cases: &Cases) -> bool {
    declaration.is_eq
        && declaration.is_ord
        && declaration.from.is_none()
        && declaration.generics.is_none()
        && cases.variants.len() <= CASES_OF_KEY
        && cases
            .variants
            .iter()
            .all(|variant| are_plain_keys(&variant.fields))
}

/// Why two values of which the same is seen are equal, of each case and each other one.
fn all_alike(
    alloc: Global,
    name: &str,
    (variants, layout): (&[Variant], Layout),
) -> DeriveResult<String> {
    let mut out = String::new(alloc);
    for (i, variant) in variants.iter().enumerate() {
        let arm = alike_of(alloc, name, (variants, layout), (i, variant));
        put_text(&mut out, arm)?;
    }
    Ok(out)
}

/// Appends that an enum is a key of maps.
fn put_key(
    alloc: Global,
    out: &mut String,
    name: &str,
    of: (&[Variant], Layout),
) -> DeriveResult<()> {
    let mut words = Words::new(alloc);
    words.set("type", owned(alloc, name));
    words.set("alike", all_alike(alloc, name, of));
    fill(out, KEY, &mut words)
}

/// Sets the words of an enum's cases.
fn set_cases(alloc: Global, words: &mut Words, (declaration, cases): (&Declaration, &Cases)) {
    let name = declaration.name.as_str();
    let src = declaration.src();
    let variants = cases.variants.as_slice();
    let layout = Layout::of(declaration, variants.len());
    words.set("parts", layout.types(alloc, variants));
    words.set("arms", arms_of(alloc, name, variants, layout));
    words.set("make", layout.make(alloc, declaration, variants));
    words.set("tag", owned(alloc, cases.tag.as_str()));
    words.set("cases", cases_of(alloc, declaration, cases));
    words.set("tags", tags_of(alloc, src, variants));
    set_arms(alloc, words, src, variants);
}

/// Sets the words of the arms that size and write what each case holds.
fn set_arms(alloc: Global, words: &mut Words, src: &str, variants: &[Variant]) {
    let size = ("size_of", "");
    let write = ("write", "W");
    let front = ("encode_front", "");
    let arms = calls_of(alloc, src, variants, size, ("", ""));
    words.set("size_arms", arms);
    let arms = calls_of(alloc, src, variants, write, ("writer", ""));
    words.set("write_arms", arms);
    let arms = calls_of(alloc, src, variants, front, ("", "dst"));
    words.set("front_arms", arms);
}

/// What the bound on an enum's cases says of its values.
fn bound_of_parts(alloc: Global, declaration: &Declaration, cases: &Cases) -> DeriveResult<String> {
    let parts = types_of_parts(alloc, declaration, cases)?;
    bound_of(alloc, &declaration.generics, parts.as_str())
}

/// The types of the parts of an enum, where its parameters have values that are written.
fn written_parts(alloc: Global, declaration: &Declaration, cases: &Cases) -> DeriveResult<String> {
    let parts = types_of_parts(alloc, declaration, cases)?;
    let parameters = declaration.generics.parameters.as_slice();
    seen_by(alloc, parts.as_str(), parameters, "Src")
}

/// The types of the parts of an enum.
fn types_of_parts(alloc: Global, declaration: &Declaration, cases: &Cases) -> DeriveResult<String> {
    let variants = cases.variants.as_slice();
    Layout::of(declaration, variants.len()).types(alloc, variants)
}

/// Sets the words of what is read and written of an enum by its cases, which are these.
fn set_enum(
    alloc: Global,
    words: &mut Words,
    (all, declaration, cases): (&[Declaration], &Declaration, &Cases),
    sides: &str,
) -> DeriveResult<()> {
    let generics = &declaration.generics;
    let me = applied(alloc, declaration.name.as_str(), generics, "")?;
    let me = me.as_str();
    words.set("evidence", evidence_of(alloc, generics, sides, 2));
    words.set("bound", bound_of_parts(alloc, declaration, cases));
    words.set("src_parts", written_parts(alloc, declaration, cases));
    words.set("values", values_of(alloc, me));
    set_bodies(alloc, words, me);
    if generics.is_none() {
        set_own_cases(alloc, words, me);
        return Ok(());
    }
    words.set("schemas", one_of(alloc, cases.tag.as_str(), sides));
    words.set("laws", laws_of(alloc, (all, declaration), cases));
    Ok(())
}

/// What an enum is seen as, of `x`.
fn values_of(alloc: Global, me: &str) -> DeriveResult<String> {
    Ok(format!(in alloc; "(⟦<{me} as EnumParts>⟧.parts x)")?)
}

/// Sets the bodies by which an enum is sized and written.
fn set_bodies(alloc: Global, words: &mut Words, me: &str) {
    words.set("size", line(alloc, ("size_of_enum", me, ""), "src"));
    words.set(
        "write",
        line(alloc, ("write_enum", me, ", W"), "writer, src"),
    );
    words.set("front", line(alloc, ("encode_enum", me, ""), "src, dst"));
}

/// A call of a function of an enum, on a line of its own.
fn line(
    alloc: Global,
    (function, me, more): (&str, &str, &str),
    arguments: &str,
) -> DeriveResult<String> {
    Ok(format!(in alloc; "        {function}::<{me}{more}>({arguments})\n")?)
}

/// Sets by which schema an enum without parameters goes, and its laws.
fn set_own_cases(alloc: Global, words: &mut Words, me: &str) {
    words.set("schemas", own_schemas(alloc, me));
    words.set("laws", own_laws(alloc, me));
}

/// The schema of an enum without parameters, by its tag and its cases.
fn own_schemas(alloc: Global, me: &str) -> DeriveResult<String> {
    Ok(format!(in alloc; "OneOf<<{me} as EnumShape>::Tag, <{me} as EnumShape>::Cases>")?)
}

/// The laws of an enum without parameters: those of its cases.
fn own_laws(alloc: Global, me: &str) -> DeriveResult<String> {
    Ok(format!(in alloc; "⟦<{me}Cases as Lawful<L>>⟧.read_laws")?)
}

/// The schema of an enum with this tag and these cases.
pub fn one_of(alloc: Global, tag: &str, sides: &str) -> DeriveResult<String> {
    Ok(format!(in alloc; "OneOf<{tag}, {sides}>")?)
}

/// The laws of an enum over parameters, from those of its parts.
fn laws_of(
    alloc: Global,
    (all, declaration): (&[Declaration], &Declaration),
    cases: &Cases,
) -> DeriveResult<String> {
    let parameters = declaration.generics.parameters.as_slice();
    let sides = spelled_cases_of(alloc, declaration, cases)?;
    let schema = one_of(alloc, cases.tag.as_str(), sides.as_str())?;
    let seen = looked_into(alloc, all, (schema.as_str(), parameters))?;
    law_of(alloc, seen.as_str(), parameters, declaration.line)
}

/// Appends what an enum is made of, and how its cases are sized and written.
fn put_shape(
    alloc: Global,
    out: &mut String,
    words: &mut Words,
    generics: &Generics,
) -> DeriveResult<()> {
    let has_parameters = !generics.parameters.is_empty();
    if generics.lifetime.is_none() {
        fill(out, SCHEMAS, words)?;
    }
    if has_parameters {
        fill(out, OF, words)?;
    }
    fill(out, PARTS, words)?;
    if has_parameters {
        fill(out, WRITTEN_PARTS, words)?;
    }
    fill(out, SHAPE, words)
}

/// Whether values of all cases own no memory, as far as their types' names say.
fn is_plain(alloc: Global, variants: &[Variant]) -> DeriveResult<bool> {
    for variant in variants {
        if !own_no_memory(alloc, &variant.fields)? {
            return Ok(false);
        }
    }
    Ok(true)
}

/// The words of an enum.
fn words_of(
    alloc: Global,
    (all, declaration): (&[Declaration], &Declaration),
    cases: &Cases,
) -> DeriveResult<Words> {
    let sides = cases_of(alloc, declaration, cases)?;
    let sides = sides.as_str();
    let mut words = name_words(alloc, declaration, ("Cases", sides), true);
    set_cases(alloc, &mut words, (declaration, cases));
    set_enum(alloc, &mut words, (all, declaration, cases), sides)?;
    Ok(words)
}

/// Appends how an enum is read and written that names no lifetime.
fn put_owned(
    alloc: Global,
    out: &mut String,
    words: &mut Words,
    declaration: &Declaration,
) -> DeriveResult<()> {
    words.set("head", read_head(alloc, declaration));
    fill(out, WRITING, words)?;
    fill(out, READING, words)?;
    fill(out, MARKERS, words)
}

/// Appends how an enum is read and written, by its words.
fn put_body(
    alloc: Global,
    out: &mut String,
    words: &mut Words,
    (declaration, cases): (&Declaration, &Cases),
) -> DeriveResult<()> {
    let Some(lifetime) = &declaration.generics.lifetime else {
        return put_owned(alloc, out, words, declaration);
    };
    let is_plain = is_plain(alloc, cases.variants.as_slice())?;
    let parts = types_of_parts(alloc, declaration, cases);
    let of = (lifetime.as_str(), is_plain);
    put_lent_enum(alloc, out, (declaration, parts), of, words)
}

/// Appends the schema of an enum.
pub fn put_enum(
    alloc: Global,
    out: &mut String,
    (all, declaration): (&[Declaration], &Declaration),
    cases: &Cases,
) -> DeriveResult<()> {
    let variants = cases.variants.as_slice();
    let layout = Layout::of(declaration, variants.len());
    let mut words = words_of(alloc, (all, declaration), cases)?;
    layout.put(alloc, out, (all, declaration), variants)?;
    put_shape(alloc, out, &mut words, &declaration.generics)?;
    put_body(alloc, out, &mut words, (declaration, cases))?;
    if is_enum_key(declaration, cases) {
        put_key(alloc, out, declaration.name.as_str(), (variants, layout))?;
    }
    Ok(())
}

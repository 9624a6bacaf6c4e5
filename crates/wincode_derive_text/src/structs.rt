//! The schema of a struct.
use crate::declarations::{Declaration, Field, Fields, Generics, Naming};
use crate::error::DeriveResult;
use crate::inside::looked_into;
use crate::laws::{law_of, seen_by};
use crate::printing::{Words, add, fill, joined, number, owned, put, put_call, put_times, text_of};
use crate::tokens::tokens_of;
use std::alloc::Global;

const WRITING: &str = "
type @fields@ = @schemas@;

impl@writes@ SchemaWrite for @self@@where_src@ {
    type Src = @src@;

    ghost Value = { ⟦<@fields@ as SchemaWrite>⟧.Value };

    ghost model = { λ x. ⟦<@fields@ as SchemaWrite>⟧.model @values@ };

    ghost is_valid = { λ x. ⟦<@fields@ as SchemaWrite>⟧.is_valid @values@ };

    ghost writing = { ⟦<@fields@ as SchemaWrite>⟧.writing };

    fn type_meta() -> TypeMeta {
        <@fields@ as SchemaWrite>::type_meta()
    }

    fn size_of(src: &@src@) -> WriteResult<usize> {
@size@    }

    fn write<W: Writer>(writer: &mut W, src: &@src@) -> WriteResult<()> {
@write@    }

    #[inline(always)]
    fn encode_front(src: &@src@, dst: &mut [u8]) -> Option<usize> {
@front@    }

    ghost write_laws = { write_laws_by (λ x. @values@) ⟦<@fields@ as SchemaWrite>⟧.write_laws };
}
";

const REST: &str = "
/// The fields from the @place@th on.
struct @self@@phantom@;
";

/// What values are made of, where types are parameters.
pub const OF: &str = "
/// What values are made of.
struct @of@@phantom@;
";

const READING: &str = "
impl@reads@ SchemaRead<L> for @self@ {
    type Dst = @dst@;

    ghost Value = { ⟦<@fields@ as SchemaRead<L>>⟧.Value };

    ghost model = { λ x. ⟦<@fields@ as SchemaRead<L>>⟧.model @values@ };

    ghost is_valid = { ⟦<@fields@ as SchemaRead<L>>⟧.is_valid };

    ghost reading = { ⟦<@fields@ as SchemaRead<L>>⟧.reading };

    fn type_meta() -> TypeMeta {
        <@fields@ as SchemaRead<L>>::type_meta()
    }

    fn prealloc_size() -> usize {
        <@fields@ as SchemaRead<L>>::prealloc_size()
    }

@head@@read@    }

@decoding@    ghost read_laws = { @laws@ };
}

impl@lawful@ Lawful<L> for @self@@where_dst@ {
    type Dst = @dst@;

    ghost Value = { ⟦<@fields@ as Lawful<L>>⟧.Value };

    ghost model = { λ x. ⟦<@fields@ as Lawful<L>>⟧.model @values@ };

    ghost is_valid = { ⟦<@fields@ as Lawful<L>>⟧.is_valid };

    ghost reading = { ⟦<@fields@ as Lawful<L>>⟧.reading };

    ghost read_laws = { ⟦<@fields@ as Lawful<L>>⟧.read_laws };
}
";

/// Two arms, each proved by itself: of a `?` of many fields `search` finds no proof.
const GET: &str = "        match <@fields@ as SchemaGet<L>>::get(alloc, reader) {
            Ok(parts) => {
@takes_parts@                *dst = Some(@made@);
                Ok(())
            }
            Err(error) => Err(error),
        }
";

/// The same of many fields: what the struct is of their tuple is proved by itself.
const GET_PARTS: &str = "        read_enum::<L, @fields@, @of_dst@, R>(alloc, reader, dst)
";

const PARTS: &str = "
impl@any@ EnumParts for @of@ {
    type Src = @any_src@;

    type Parts = @types@;

    ghost parts = { λ x. @values@ };

    fn make(made_of: Self::Parts) -> @any_src@ {
@takes@        @made@
    }
}
";

const DECODING: &str = "    #[inline(always)]
    fn blank() -> Option<@dst@> {
        @bind@<@fields@ as SchemaRead<L>>::blank()?;
        Some(@made@)
    }

    #[inline(always)]
    fn decode(bytes: &[u8], place: &mut @dst@) -> bool {
        let Some(mut parts) = <@fields@ as SchemaRead<L>>::blank() else {
            return false;
        };
        if !<@fields@ as SchemaRead<L>>::decode(bytes, &mut parts) {
            return false;
        }
        @bind@parts;
        *place = @made@;
        true
    }

";

const MARKERS: &str = "
impl@backs@ RoundTrip<L> for @self@
where
@drops@    @fields@: RoundTrip<L@bound@>,
{
    ghost reads_back = { reads_back_by (λ x. @values@) @evidence@.reads_back };
}

impl@backs@ OneText<L> for @self@
where
@drops@    @fields@: FieldsOneText<L@bound@>,
{
    ghost one_text = { @evidence@.fields_one_text };
}

impl@backs@ SchemaReadOwned<L> for @self@
where
@drops@    @fields@: FieldsReadOwned<L@bound@>,
{
    ghost owned = { @evidence@.fields_owned };
}
";

const KEY: &str = "
type @pairs@ = @schemas@;

impl@backs@ Key<L> for @self@
where
@eq_drops@    @pairs@: FieldsKey<L@bound@>,
{
    ghost alike = { λ x y. @evidence@.fields_alike @one@ @other@ };
}
";

const LAWFUL_KEY: &str = "
type @pairs@ = @schemas@;

impl<L: Lending> Key<L> for @type@ {
    ghost alike = { ⟦<@type@ as LawfulKey<L>>⟧.alike };
}

impl<L: Lending> LawfulKey<L> for @type@ {
    type Dst = @type@;

    ghost Value = { ⟦<@fields@ as Lawful<L>>⟧.Value };

    ghost model = { λ x. ⟦<@fields@ as Lawful<L>>⟧.model @values@ };

    ghost is_valid = { ⟦<@fields@ as Lawful<L>>⟧.is_valid };

    ghost reading = { ⟦<@fields@ as Lawful<L>>⟧.reading };

    ghost read_laws = { ⟦<@fields@ as Lawful<L>>⟧.read_laws };

    ghost equal = { ⟦<@type@ as PartialEq>⟧.eq };

    ghost equivalence = { @type@-eq-laws.laws-law };

    ghost alike = { λ x y. ⟦<@pairs@ as LawfulKey<L>>⟧.alike @one@ @other@ };

    ghost order = { ⟦<@type@ as Ord>⟧.cmp };

    ghost order_total = { @type@-ord-laws.total-law };

    ghost order_ties = { @type@-ord-laws.matches_eq-law };
}
";

const LONG_HEAD: &str = "    fn read<R: Reader<L>>(
        alloc: Global,
        reader: &mut R,
        dst: &mut Option<@type@>,
    ) -> ReadResult<()> {
";

const SHORT_HEAD: &str =
    "    fn read<R: Reader<L>>(alloc: Global, reader: &mut R, dst: &mut Option<@type@>) -> ReadResult<()> {
";

/// Types whose values have no one size.
const UNSIZED: [&str; 32] = [
    "String",
    "Vec",
    "VecDeque",
    "LinkedList",
    "BTreeMap",
    "BTreeSet",
    "HashMap",
    "HashSet",
    "BinaryHeap",
    "Option",
    "Box",
    "Rc",
    "Arc",
    "BoxedStr",
    "RcStr",
    "ArcStr",
    "PathBuf",
    "CString",
    "Bound",
    "IpAddr",
    "SocketAddr",
    "char",
    "ShortU16",
    "str",
    "containers::Vec",
    "containers::VecDeque",
    "containers::BoxedSlice",
    "containers::RcSlice",
    "containers::ArcSlice",
    "containers::BinaryHeap",
    "containers::Option",
    "containers::Result",
];

/// Types that are keys of maps.
const KEYS: [&str; 29] = [
    "u8",
    "u16",
    "u32",
    "u64",
    "u128",
    "usize",
    "i8",
    "i16",
    "i32",
    "i64",
    "i128",
    "isize",
    "bool",
    "char",
    "String",
    "NonZeroU8",
    "NonZeroU16",
    "NonZeroU32",
    "NonZeroU64",
    "NonZeroU128",
    "NonZeroUsize",
    "NonZeroI8",
    "NonZeroI16",
    "NonZeroI32",
    "NonZeroI64",
    "NonZeroI128",
    "NonZeroIsize",
    "Ipv4Addr",
    "Ipv6Addr",
];

/// How many fields stand in a tuple before what stands for the others.
const EACH: usize = 11;

/// More fields than so many are put together by a function of their own.
const MANY: usize = 6;

/// A letter for a place.
fn letter_of(place: usize) -> char {
    match "abcdefghijkm".chars().nth(place) {
        Some(letter) => letter,
        None => 'n',
    }
}

/// What a field is called where it stands by itself: its name, with a word behind it where the functions have that
/// name for something else, or a letter for its place.
fn binding(alloc: Global, fields: &Fields, place: usize, field: &Field) -> DeriveResult<String> {
    let name = field.name.as_str();
    if field.is_phantom {
        return owned(alloc, "_");
    }
    if fields.naming == Naming::Named {
        let mut called = owned(alloc, name)?;
        if matches!(name, "dst" | "place" | "rest" | "writer") {
            called.push_str("_field")?;
        }
        for _ in fields.fields.as_slice() {
            if is_apart(fields, called.as_str(), name) {
                break;
            }
            called.push('_')?;
        }
        return Ok(called);
    }
    numbered(alloc, place)
}

/// A letter for a place, or one with a number.
pub fn numbered(alloc: Global, place: usize) -> DeriveResult<String> {
    if place >= 12 {
        return Ok(format!(in alloc; "n{place}")?);
    }
    let mut name = String::new(alloc);
    name.push(letter_of(place))?;
    Ok(name)
}

/// Whether no other field than that of this name is called so.
fn is_apart(fields: &Fields, called: &str, name: &str) -> bool {
    fields.fields.iter().all(|field| field.name.as_str() == name || field.name.as_str() != called)
}

/// What all fields are called where they stand by themselves.
pub fn bindings(alloc: Global, fields: &Fields) -> DeriveResult<Vec<String>> {
    let mut names = Vec::new(alloc);
    for (i, field) in fields.fields.iter().enumerate() {
        names.push(binding(alloc, fields, i, field)?)?;
    }
    Ok(names)
}

/// Whether a tuple of so many ends in front of this place, and those from there on stand in brackets of their own.
fn is_split(place: usize, count: usize) -> bool {
    place > 0 && place % EACH == 0 && count.saturating_sub(place) > 1
}

/// One text, or several in brackets. Of more than 12 the last in the brackets stands for all from the 12th on, in
/// brackets of their own.
pub fn tuple_of(alloc: Global, texts: &[String]) -> DeriveResult<String> {
    if texts.len() == 1 {
        return joined(alloc, texts, ", ");
    }
    let mut out = owned(alloc, "(")?;
    let mut depth = 1usize;
    for (i, text) in texts.iter().enumerate() {
        let is_split = is_split(i, texts.len());
        let before = if is_split { "(" } else { "" };
        if is_split {
            depth = depth.saturating_add(1);
        }
        put(
            &mut out,
            &[if i > 0 { ", " } else { "" }, before, text.as_str()],
        )?;
    }
    put_times(&mut out, ")", depth)?;
    Ok(out)
}

/// Appends what stands between the names in front of this place and the one there, of so many: a comma, or the end of
/// a line and the beginning of the next, which takes the others from what is left.
fn put_between(out: &mut String, (place, count): (usize, usize), from: &str) -> DeriveResult<()> {
    if is_split(place, count) {
        let from = if place == EACH { from } else { "rest" };
        put(out, &[", rest) = ", from, ";\n        let ("])
    } else {
        put(out, &[if place > 0 { ", " } else { "" }])
    }
}

/// The names, each tuple's on a line of its own, which takes them from what is called so.
fn taken_names(alloc: Global, names: &[String], from: &str) -> DeriveResult<String> {
    let mut out = String::new(alloc);
    for (i, name) in names.iter().enumerate() {
        put_between(&mut out, (i, names.len()), from)?;
        out.push_str(name.as_str())?;
    }
    Ok(out)
}

/// The lines that take the parts of fields from what is called so, one for each tuple: a part of a part is not
/// moved at once.
pub fn takes_of(alloc: Global, fields: &Fields, from: &str) -> DeriveResult<String> {
    let names = bindings(alloc, fields)?;
    let (begin, end) = if names.len() == 1 {
        ("", "")
    } else {
        ("(", ")")
    };
    let last = if is_split(EACH, names.len()) {
        "rest"
    } else {
        from
    };
    let list = taken_names(alloc, names.as_slice(), from)?;
    let list = list.as_str();
    Ok(format!(in alloc; "        let {begin}{list}{end} = {last};\n")?)
}

/// Some of a struct's fields, and the schema of those behind them, or none.
#[derive(Drop)]
pub struct Group {
    pub from: usize,
    pub to: usize,
    pub rest: String,
}

/// The fields as their tuples have them: each but the last has a schema for those behind its own, which is named by
/// the place of the first of these, counted from 1.
pub fn groups_of(
    alloc: Global,
    declaration: &Declaration,
    count: usize,
) -> DeriveResult<Vec<Group>> {
    let mut groups = Vec::new(alloc);
    let mut from = 0usize;
    for _ in 0..count {
        let to = from.saturating_add(EACH);
        if count.saturating_sub(from) <= EACH.saturating_add(1) {
            break;
        }
        let rest = rest_of(alloc, (declaration, &declaration.generics), to, "")?;
        groups.push(Group { from, to, rest })?;
        from = to;
    }
    let rest = String::new(alloc);
    groups.push(Group {
        from,
        to: count,
        rest,
    })?;
    Ok(groups)
}

/// The name of what stands for the fields from this place on, with this behind it and over these.
fn rest_of(
    alloc: Global,
    (declaration, generics): (&Declaration, &Generics),
    from: usize,
    behind: &str,
) -> DeriveResult<String> {
    let (name, place) = (declaration.name.as_str(), from.saturating_add(1));
    let rest = format!(in alloc; "{name}From{place}{behind}")?;
    applied(alloc, rest.as_str(), generics, "")
}

/// The schemas of fields.
pub fn schemas_of(alloc: Global, fields: &Fields) -> DeriveResult<Vec<String>> {
    let mut schemas = Vec::new(alloc);
    for field in fields.fields.as_slice() {
        schemas.push(String::from_str(alloc, field.schema.as_str())?)?;
    }
    Ok(schemas)
}

/// A field behind such a beginning, or what stands for one that holds nothing.
fn named_field(alloc: Global, before: &str, field: &Field) -> DeriveResult<String> {
    if field.is_phantom {
        return owned(alloc, if before.starts_with('&') { "&()" } else { "tt" });
    }
    let mut name = owned(alloc, before)?;
    name.push_str(field.name.as_str())?;
    Ok(name)
}

/// Each field behind such a beginning, as `x.` or `&src.`.
pub fn named_fields(alloc: Global, before: &str, fields: &Fields) -> DeriveResult<Vec<String>> {
    let mut names = Vec::new(alloc);
    for field in fields.fields.as_slice() {
        names.push(named_field(alloc, before, field)?)?;
    }
    Ok(names)
}

/// Named fields, each with what it is called by itself where that is another name.
fn pairs_of(alloc: Global, fields: &Fields, names: &[String]) -> DeriveResult<String> {
    let mut parts = Vec::new(alloc);
    for (field, name) in fields.fields.iter().zip(names.iter()) {
        let mut part = owned(alloc, field.name.as_str())?;
        if field.is_phantom {
            part.push_str(": PhantomData")?;
        } else if field.name.as_str() != name.as_str() {
            put(&mut part, &[": ", name.as_str()])?;
        }
        parts.push(part)?;
    }
    joined(alloc, parts.as_slice(), ", ")
}

/// What a field is called, or this where it holds nothing.
pub fn held_as(alloc: Global, field: &Field, nothing: &str, name: &str) -> DeriveResult<String> {
    if field.is_phantom {
        return owned(alloc, nothing);
    }
    owned(alloc, name)
}

/// What is made part of a struct or a case for each field: its name, or what stands for a type.
fn held_parts(alloc: Global, fields: &Fields, names: &[String]) -> DeriveResult<Vec<String>> {
    let mut parts = Vec::new(alloc);
    for (field, name) in fields.fields.iter().zip(names.iter()) {
        parts.push(held_as(alloc, field, "PhantomData", name.as_str())?)?;
    }
    Ok(parts)
}

/// The struct or the case made of its fields, or the pattern that takes them.
pub fn made_of(alloc: Global, name: &str, fields: &Fields) -> DeriveResult<String> {
    let names = bindings(alloc, fields)?;
    match fields.naming {
        Naming::Unit => owned(alloc, name),
        Naming::Numbered => {
            let parts = held_parts(alloc, fields, names.as_slice())?;
            let list = joined(alloc, parts.as_slice(), ", ")?;
            Ok(format!(in alloc; "{name}({list})")?)
        }
        Naming::Named => {
            let list = pairs_of(alloc, fields, names.as_slice())?;
            braced(alloc, name, list.as_str())
        }
    }
}

/// The name, with this in braces behind it.
fn braced(alloc: Global, name: &str, list: &str) -> DeriveResult<String> {
    let mut out = owned(alloc, name)?;
    put(&mut out, &[" { ", list, " }"])?;
    Ok(out)
}

/// A function of the schema of fields, with these behind it: `size_of_members_3`, say, or that of the one schema.
pub fn of_members(
    alloc: Global,
    function: &str,
    schemas: &[String],
    more: &str,
) -> DeriveResult<String> {
    if schemas.len() >= 2 {
        of_many(alloc, function, schemas, more)
    } else {
        of_one(alloc, function, schemas, more)
    }
}

/// A function of the tuple of these schemas, with these behind it.
fn of_many(alloc: Global, function: &str, schemas: &[String], more: &str) -> DeriveResult<String> {
    let n = schemas.len();
    let list = joined(alloc, schemas, ", ")?;
    let list = list.as_str();
    let between = if more.is_empty() { "" } else { ", " };
    Ok(format!(in alloc; "{function}_members_{n}::<{list}{between}{more}>")?)
}

/// A function of the one of these schemas, or of nothing, with these behind it.
fn of_one(alloc: Global, function: &str, schemas: &[String], more: &str) -> DeriveResult<String> {
    let schema = tuple_of(alloc, schemas)?;
    let schema = schema.as_str();
    let (before, after) = if more.is_empty() {
        ("", "")
    } else {
        ("::<", ">")
    };
    Ok(format!(in alloc; "<{schema} as SchemaWrite>::{function}{before}{more}{after}")?)
}

/// The arguments of such a function: this before and that behind, if they are something, and between them the members, or
/// `&()` where there are none.
pub fn members(
    alloc: Global,
    names: &[String],
    (before, after): (&str, &str),
) -> DeriveResult<Vec<String>> {
    let mut arguments = Vec::new(alloc);
    add(alloc, &mut arguments, before, !before.is_empty())?;
    for name in names {
        add(alloc, &mut arguments, name.as_str(), true)?;
    }
    add(alloc, &mut arguments, "&()", names.is_empty())?;
    add(alloc, &mut arguments, after, !after.is_empty())?;
    Ok(arguments)
}

/// The first lines of `read`.
pub fn read_head(alloc: Global, declaration: &Declaration) -> DeriveResult<String> {
    let dst = applied(alloc, declaration.src(), &declaration.generics, "::Dst")?;
    let template = if dst.len() > 4 { LONG_HEAD } else { SHORT_HEAD };
    let mut words = Words::new(alloc);
    words.set("type", Ok(dst));
    text_of(alloc, template, &mut words)
}

/// The texts of the fields of a group, and this for those behind them, if there are some.
fn part_of(
    alloc: Global,
    texts: &[String],
    group: &Group,
    rest: &str,
) -> DeriveResult<Vec<String>> {
    let mut part = Vec::new(alloc);
    for text in texts.iter().take(group.to).skip(group.from) {
        add(alloc, &mut part, text.as_str(), true)?;
    }
    add(alloc, &mut part, rest, !group.rest.is_empty())?;
    Ok(part)
}

/// A function of the schema of the fields of a group.
fn function_of(
    alloc: Global,
    (function, more): (&str, &str),
    (fields, group): (&Fields, &Group),
) -> DeriveResult<String> {
    let schemas = schemas_of(alloc, fields)?;
    let part = part_of(alloc, schemas.as_slice(), group, group.rest.as_str())?;
    of_members(alloc, function, part.as_slice(), more)
}

/// The arguments of such a function: the fields of a group of `src`.
fn arguments_of(
    alloc: Global,
    around: (&str, &str),
    (fields, group): (&Fields, &Group),
) -> DeriveResult<Vec<String>> {
    let names = named_fields(alloc, "&src.", fields)?;
    let part = part_of(alloc, names.as_slice(), group, "src")?;
    members(alloc, part.as_slice(), around)
}

/// A call of a function of the schema of these fields, on a line of its own.
fn call_of(
    alloc: Global,
    call: (&str, &str),
    around: (&str, &str),
    of: (&Fields, &Group),
) -> DeriveResult<String> {
    let function = function_of(alloc, call, of)?;
    let arguments = arguments_of(alloc, around, of)?;
    let mut out = String::new(alloc);
    let call = ("", function.as_str(), "");
    put_call(alloc, &mut out, 8, call, arguments.as_slice())?;
    Ok(out)
}

/// The tuple of the fields of `x` from this place on.
pub fn values_of(alloc: Global, fields: &Fields, from: usize) -> DeriveResult<String> {
    if fields.fields.is_empty() {
        return owned(alloc, "tt");
    }
    let values = named_fields(alloc, "x.", fields)?;
    tuple_of(alloc, &values.as_slice()[from.min(values.len())..])
}

/// The tuple of the schemas of the fields from this place on.
pub fn tuple_of_schemas(alloc: Global, fields: &Fields, from: usize) -> DeriveResult<String> {
    let schemas = schemas_of(alloc, fields)?;
    tuple_of(alloc, &schemas.as_slice()[from.min(schemas.len())..])
}

/// The tuple of the types of fields.
pub fn tuple_of_types(alloc: Global, fields: &Fields) -> DeriveResult<String> {
    let types = types_of(alloc, fields)?;
    tuple_of(alloc, types.as_slice())
}

/// The tuple of what all fields are called where they stand by themselves.
pub fn tuple_of_bindings(alloc: Global, fields: &Fields) -> DeriveResult<String> {
    let names = bindings(alloc, fields)?;
    tuple_of(alloc, names.as_slice())
}

/// The fields behind such a beginning, as pairs in pairs.
pub fn pairs_of_fields(alloc: Global, before: &str, fields: &Fields) -> DeriveResult<String> {
    let names = named_fields(alloc, before, fields)?;
    pairs_of_all(alloc, names.as_slice())
}

/// The schemas of fields, as pairs in pairs.
pub fn pairs_of_schemas(alloc: Global, fields: &Fields) -> DeriveResult<String> {
    let schemas = schemas_of(alloc, fields)?;
    pairs_of_all(alloc, schemas.as_slice())
}

/// The types of fields, as pairs in pairs.
fn pairs_of_types(alloc: Global, fields: &Fields) -> DeriveResult<String> {
    let types = types_of(alloc, fields)?;
    pairs_of_all(alloc, types.as_slice())
}

/// What takes the fields that were read.
fn bind_of(alloc: Global, fields: &Fields) -> DeriveResult<String> {
    if fields.fields.is_empty() {
        return Ok(String::new(alloc));
    }
    let bound = tuple_of_bindings(alloc, fields)?;
    let bound = bound.as_str();
    Ok(format!(in alloc; "let {bound} = ")?)
}

/// One text, or several as pairs in pairs.
pub fn pairs_of_all(alloc: Global, texts: &[String]) -> DeriveResult<String> {
    let mut out = String::new(alloc);
    for (i, text) in texts.iter().enumerate() {
        let is_last = i.saturating_add(1) == texts.len();
        let (before, after) = if is_last { ("", "") } else { ("(", ", ") };
        put(&mut out, &[before, text.as_str(), after])?;
    }
    put_times(&mut out, ")", texts.len().saturating_sub(1))?;
    Ok(out)
}

/// A name with what it is declared over: `Label<'a>`, `Pair<A, B>`, or with `member`, as `::Src`, behind each.
pub fn applied(
    alloc: Global,
    name: &str,
    generics: &Generics,
    member: &str,
) -> DeriveResult<String> {
    let mut out = owned(alloc, name)?;
    if let Some(lifetime) = &generics.lifetime {
        put(&mut out, &["<", lifetime.as_str(), ">"])?;
    }
    for (i, parameter) in generics.parameters.iter().enumerate() {
        put(
            &mut out,
            &[if i == 0 { "<" } else { ", " }, parameter.as_str(), member],
        )?;
    }
    if !generics.parameters.is_empty() {
        out.push('>')?;
    }
    Ok(out)
}

/// A parameter with its bound, in which `@` stands for its name.
fn bounded(alloc: Global, name: &str, bound: &str) -> DeriveResult<String> {
    let mut out = owned(alloc, name)?;
    out.push_str(": ")?;
    for (i, part) in bound.split('@').enumerate() {
        put(&mut out, &[if i == 0 { "" } else { name }, part])?;
    }
    Ok(out)
}

/// What an `impl` is over: a lifetime, this, and each parameter with this bound.
fn parameters_of(
    alloc: Global,
    first: &str,
    generics: &Generics,
    bound: &str,
) -> DeriveResult<Vec<String>> {
    let mut all = Vec::new(alloc);
    if let Some(lifetime) = &generics.lifetime {
        add(alloc, &mut all, lifetime.as_str(), true)?;
    }
    add(alloc, &mut all, first, !first.is_empty())?;
    for parameter in generics.parameters.as_slice() {
        all.push(bounded(alloc, parameter.as_str(), bound)?)?;
    }
    Ok(all)
}

/// The parameters of an `impl`: these, and each that the type is declared over with this bound, in which `@` stands
/// for its name.
fn over(alloc: Global, first: &str, generics: &Generics, bound: &str) -> DeriveResult<String> {
    let all = parameters_of(alloc, first, generics, bound)?;
    if all.is_empty() {
        return Ok(String::new(alloc));
    }
    let list = joined(alloc, all.as_slice(), ", ")?;
    let list = list.as_str();
    Ok(format!(in alloc; "<{list}>")?)
}

/// The one field of a struct that holds nothing and names what it is declared over.
fn phantom_of(alloc: Global, generics: &Generics) -> DeriveResult<String> {
    if let Some(lifetime) = &generics.lifetime {
        let lifetime = lifetime.as_str();
        return Ok(format!(in alloc; "(PhantomData<&{lifetime} ()>)")?);
    }
    if generics.parameters.is_empty() {
        return Ok(String::new(alloc));
    }
    let all = tuple_of(alloc, generics.parameters.as_slice())?;
    let all = all.as_str();
    Ok(format!(in alloc; "(PhantomData<{all}>)")?)
}

/// Whether values of a schema may all have one size, as far as its name says.
fn may_have_one_size(schema: &str) -> bool {
    let name = match schema.split_once('<') {
        Some((name, _)) => name,
        None => schema,
    };
    !schema.starts_with('&') && UNSIZED.iter().all(|known| *known != name)
}

/// Whether a schema is that of a key by its name: of a number, a flag, a text, or an array of such.
pub fn is_plain_key(schema: &str) -> bool {
    let name = match schema.split_once(';') {
        Some((item, _)) => item.trim_start_matches('['),
        None => schema,
    };
    KEYS.iter().any(|known| *known == name)
}

/// Whether all fields are keys by their names.
pub fn are_plain_keys(fields: &Fields) -> bool {
    fields
        .fields
        .iter()
        .all(|field| is_plain_key(field.schema.as_str()))
}

/// Whether a struct is a key of maps that stand in other structs, by its name.
pub fn is_lawful_key(declaration: &Declaration, fields: &Fields) -> bool {
    declaration.is_ord
        && declaration.is_eq
        && declaration.from.is_none()
        && declaration.generics.parameters.is_empty()
        && declaration.generics.lifetime.is_none()
        && !fields.fields.is_empty()
        && are_plain_keys(fields)
}

/// The checker's name for the bound on the fields in an `impl` of a marker: that of a parameter by itself is its own,
/// others have their place among the bounds.
pub fn evidence_of(
    alloc: Global,
    generics: &Generics,
    schemas: &str,
    each: usize,
) -> DeriveResult<String> {
    for parameter in generics.parameters.as_slice() {
        if parameter.as_str() == schemas {
            return owned(alloc, schemas);
        }
    }
    let place = generics
        .parameters
        .len()
        .saturating_mul(each)
        .saturating_add(5);
    Ok(format!(in alloc; "bound-{place}")?)
}

/// What the parameters have as values of this member, a line for each.
fn drops_of(
    alloc: Global,
    generics: &Generics,
    (member, bound): (&str, &str),
) -> DeriveResult<String> {
    let mut out = String::new(alloc);
    for parameter in generics.parameters.as_slice() {
        put(
            &mut out,
            &["    ", parameter.as_str(), member, ": ", bound, ",\n"],
        )?;
    }
    Ok(out)
}

/// The same, with `where` in front of the lines if there are some.
fn where_of(alloc: Global, generics: &Generics, member: &str) -> DeriveResult<String> {
    let mut out = String::new(alloc);
    if !generics.parameters.is_empty() {
        let lines = drops_of(alloc, generics, (member, "Drop"))?;
        put(&mut out, &["\nwhere\n", lines.as_str()])?;
    }
    Ok(out)
}

/// The type that has the parts of a declared one: itself, or, where types are parameters, another over these. Behind
/// each parameter stands `member`.
fn of_parts(alloc: Global, declaration: &Declaration, member: &str) -> DeriveResult<String> {
    let generics = &declaration.generics;
    let mut of = owned(alloc, declaration.name.as_str())?;
    if !generics.parameters.is_empty() {
        of.push_str("Of")?;
    }
    applied(alloc, of.as_str(), generics, member)
}

/// Sets the words of what values are made of. Where it is bound, values of the parameters' schemas are to be let go.
pub fn set_of(alloc: Global, words: &mut Words, (declaration, is_bound): (&Declaration, bool)) {
    let generics = &declaration.generics;
    words.set("of", of_parts(alloc, declaration, ""));
    words.set("of_src", of_parts(alloc, declaration, "::Src"));
    words.set("of_dst", of_parts(alloc, declaration, "::Dst"));
    words.set("phantom", phantom_of(alloc, generics));
    words.set("any", over(alloc, "", generics, "Drop"));
    words.set("any_src", applied(alloc, declaration.src(), generics, ""));
    words.set("drops", drops_of(alloc, generics, ("::Src", "Drop")));
    if is_bound {
        words.set("where_src", where_of(alloc, generics, "::Src"));
        words.set("where_dst", where_of(alloc, generics, "::Dst"));
    }
}

/// Those parameters that stand in this.
fn parameters_in(alloc: Global, parameters: &[String], text: &str) -> DeriveResult<Vec<String>> {
    let tokens = tokens_of(alloc, text)?;
    let mut used = Vec::new(alloc);
    for name in parameters {
        let is_used = tokens
            .iter()
            .any(|token| token.text.as_str() == name.as_str());
        add(alloc, &mut used, name.as_str(), is_used)?;
    }
    Ok(used)
}

/// The lifetime, if there is one and it stands in this.
fn lifetime_in(alloc: Global, generics: &Generics, text: &str) -> DeriveResult<Option<String>> {
    match &generics.lifetime {
        Some(lifetime) if text.contains(lifetime.as_str()) => {
            Ok(Some(owned(alloc, lifetime.as_str())?))
        }
        _ => Ok(None),
    }
}

/// What stands in this of what a type is declared over.
fn used_of(alloc: Global, generics: &Generics, text: &str) -> DeriveResult<Generics> {
    let lifetime = lifetime_in(alloc, generics, text)?;
    let parameters = parameters_in(alloc, generics.parameters.as_slice(), text)?;
    Ok(Generics {
        lifetime,
        parameters,
    })
}

/// A name that begins with that of a declared type, over what stands of its parameters in these schemas.
pub fn name_over(
    alloc: Global,
    declaration: &Declaration,
    (behind, schemas): (&str, &str),
) -> DeriveResult<String> {
    let name = declaration.name.as_str();
    let used = used_of(alloc, &declaration.generics, schemas)?;
    let name = format!(in alloc; "{name}{behind}")?;
    applied(alloc, name.as_str(), &used, "")
}

/// Sets the words of the parameters of each `impl`.
pub fn set_over(alloc: Global, words: &mut Words, generics: &Generics) {
    let lending = "L: Lending";
    words.set("writes", over(alloc, "", generics, "SchemaWrite"));
    words.set("reads", over(alloc, lending, generics, "SchemaRead<L>"));
    words.set("lawful", over(alloc, lending, generics, "Lawful<L>"));
    let both = "SchemaWrite + SchemaRead<L, Dst = @::Src>";
    words.set("backs", over(alloc, lending, generics, both));
}

/// The words of a type's name and of what it is declared over. Behind the name of its parts' schemas, which are these,
/// stands this. Where it is bound, values of the parameters' schemas are to be let go.
pub fn name_words(
    alloc: Global,
    declaration: &Declaration,
    of: (&str, &str),
    is_bound: bool,
) -> Words {
    let mut words = Words::new(alloc);
    let name = declaration.name.as_str();
    let generics = &declaration.generics;
    words.set("type", owned(alloc, name));
    words.set("self", applied(alloc, name, generics, ""));
    words.set("src", applied(alloc, declaration.src(), generics, "::Src"));
    words.set("dst", applied(alloc, declaration.src(), generics, "::Dst"));
    words.set("fields", name_over(alloc, declaration, of));
    set_over(alloc, &mut words, generics);
    set_of(alloc, &mut words, (declaration, is_bound));
    words
}

/// What the bound on a tuple of fields says of its values, where types are parameters: `, Src = (A::Src, u8)`; of a
/// parameter by itself its own bound says it.
pub fn bound_of(alloc: Global, generics: &Generics, values: &str) -> DeriveResult<String> {
    let mut out = String::new(alloc);
    let parameters = generics.parameters.as_slice();
    if !parameters.is_empty()
        && parameters
            .iter()
            .all(|parameter| parameter.as_str() != values)
    {
        let values = seen_by(alloc, values, parameters, "Src")?;
        put(&mut out, &[", Src = ", values.as_str()])?;
    }
    Ok(out)
}

/// The types of fields.
pub fn types_of(alloc: Global, fields: &Fields) -> DeriveResult<Vec<String>> {
    let mut values = Vec::new(alloc);
    for field in fields.fields.as_slice() {
        values.push(owned(alloc, field.value.as_str())?)?;
    }
    Ok(values)
}

/// The laws of reading of the fields' tuple.
fn laws_of(alloc: Global, declaration: &Declaration, seen: &str) -> DeriveResult<String> {
    let parameters = declaration.generics.parameters.as_slice();
    if parameters.is_empty() {
        let name = declaration.name.as_str();
        return Ok(format!(in alloc; "⟦<{name}Fields as Lawful<L>>⟧.read_laws")?);
    }
    law_of(alloc, seen, parameters, declaration.line)
}

/// Sets the words of two values of a struct that is a key: the fields of each, as pairs in pairs.
pub fn set_sides(alloc: Global, words: &mut Words, fields: &Fields) {
    words.set("one", pairs_of_fields(alloc, "x.", fields));
    words.set("other", pairs_of_fields(alloc, "y.", fields));
}

/// Sets the words of the bound on a key's fields, whose schemas are these pairs in pairs, and their types these.
fn set_key_bound(
    alloc: Global,
    words: &mut Words,
    generics: &Generics,
    (schemas, types): (&str, &str),
) {
    words.set("evidence", evidence_of(alloc, generics, schemas, 4));
    words.set("schemas", owned(alloc, schemas));
    words.set("bound", bound_of(alloc, generics, types));
    let drop = ("::Src", "Drop + Eq");
    words.set("eq_drops", drops_of(alloc, generics, drop));
}

/// The words of a key that is a struct.
fn key_words(alloc: Global, declaration: &Declaration, fields: &Fields) -> DeriveResult<Words> {
    let schemas = pairs_of_schemas(alloc, fields)?;
    let types = pairs_of_types(alloc, fields)?;
    let schemas = schemas.as_str();
    let mut words = name_words(alloc, declaration, ("Fields", schemas), false);
    words.set("pairs", name_over(alloc, declaration, ("Pairs", schemas)));
    words.set("values", values_of(alloc, fields, 0));
    set_sides(alloc, &mut words, fields);
    let of = (schemas, types.as_str());
    set_key_bound(alloc, &mut words, &declaration.generics, of);
    Ok(words)
}

/// Appends that a struct with fields is a key of maps where these are.
pub fn put_key(
    alloc: Global,
    out: &mut String,
    declaration: &Declaration,
    fields: &Fields,
) -> DeriveResult<()> {
    let mut words = key_words(alloc, declaration, fields)?;
    let template = if is_lawful_key(declaration, fields) {
        LAWFUL_KEY
    } else {
        KEY
    };
    fill(out, template, &mut words)
}

/// Sets the words of how these fields are sized and written.
fn set_calls(alloc: Global, words: &mut Words, of: (&Fields, &Group)) {
    words.set("size", call_of(alloc, ("size_of", ""), ("", ""), of));
    words.set("write", call_of(alloc, ("write", "W"), ("writer", ""), of));
    let front = call_of(alloc, ("encode_front", ""), ("", "dst"), of);
    words.set("front", front);
}

/// Sets the words of how a struct is sized and written, by its first fields.
pub fn set_first_calls(
    alloc: Global,
    words: &mut Words,
    (declaration, fields): (&Declaration, &Fields),
) -> DeriveResult<()> {
    let groups = groups_of(alloc, declaration, fields.fields.len())?;
    if let Some(group) = groups.first() {
        set_calls(alloc, words, (fields, group));
    }
    Ok(())
}

/// Sets the words of how a struct is read.
fn set_read(alloc: Global, words: &mut Words, (declaration, fields): (&Declaration, &Fields)) {
    words.set("bound_fields", tuple_of_bindings(alloc, fields));
    words.set("bind", bind_of(alloc, fields));
    words.set("made", made_of(alloc, declaration.src(), fields));
    words.set("takes", takes_of(alloc, fields, "made_of"));
    words.set("takes_parts", takes_of(alloc, fields, "parts"));
    let template = if has_many(fields) { GET_PARTS } else { GET };
    let read = text_of(alloc, template, words);
    words.set("read", read);
    let is_decoded = has_plain(fields) && !is_long(fields);
    let decoding = text_of(alloc, if is_decoded { DECODING } else { "" }, words);
    words.set("decoding", decoding);
}

/// Whether there are more fields than `search` puts together by itself, whatever they are.
fn has_many(fields: &Fields) -> bool {
    fields.fields.len() > MANY
}

/// Whether there are more fields than a tuple has.
fn is_long(fields: &Fields) -> bool {
    fields.fields.len() > EACH.saturating_add(1)
}

/// Whether a struct has fields, and all of one size, as far as their names say.
fn has_plain(fields: &Fields) -> bool {
    !fields.fields.is_empty()
        && fields
            .fields
            .iter()
            .all(|field| may_have_one_size(field.schema.as_str()))
}

/// The words of the schema that stands for the fields of a later group, and those behind it, whose schemas are these.
fn rest_words(
    alloc: Global,
    (declaration, fields): (&Declaration, &Fields),
    (group, schemas): (&Group, &str),
    is_bound: bool,
) -> DeriveResult<Words> {
    let generics = &declaration.generics;
    let from = group.from;
    let used = used_of(alloc, generics, schemas)?;
    let mut words = Words::new(alloc);
    words.set("place", number(alloc, from.saturating_add(1)));
    words.set("self", rest_of(alloc, (declaration, generics), from, ""));
    if is_bound {
        words.set("where_src", where_of(alloc, generics, "::Src"));
    }
    words.set(
        "fields",
        rest_of(alloc, (declaration, &used), from, "Fields"),
    );
    words.set("phantom", phantom_of(alloc, generics));
    words.set("src", applied(alloc, declaration.src(), generics, "::Src"));
    words.set("writes", over(alloc, "", generics, "SchemaWrite"));
    words.set("schemas", owned(alloc, schemas));
    words.set("values", values_of(alloc, fields, from));
    set_calls(alloc, &mut words, (fields, group));
    Ok(words)
}

/// Appends the schema that stands for the fields of a later group, and those behind it, by this template.
fn put_rest(
    alloc: Global,
    out: &mut String,
    (declaration, fields): (&Declaration, &Fields),
    group: &Group,
    (template, is_bound): (&str, bool),
) -> DeriveResult<()> {
    let schemas = tuple_of_schemas(alloc, fields, group.from)?;
    let of = (group, schemas.as_str());
    let mut words = rest_words(alloc, (declaration, fields), of, is_bound)?;
    fill(out, REST, &mut words)?;
    fill(out, template, &mut words)
}

/// Appends the schemas that stand for the fields behind those of the first group, by this template.
pub fn put_rests(
    alloc: Global,
    out: &mut String,
    (declaration, fields): (&Declaration, &Fields),
    by: (&str, bool),
) -> DeriveResult<()> {
    let groups = groups_of(alloc, declaration, fields.fields.len())?;
    for group in groups.iter().skip(1) {
        put_rest(alloc, out, (declaration, fields), group, by)?;
    }
    Ok(())
}

/// The words of a struct, and whether values of its parameters' schemas are to be let go: where a type over parameters
/// stands in it.
fn words_of(
    alloc: Global,
    (all, declaration): (&[Declaration], &Declaration),
    fields: &Fields,
) -> DeriveResult<(Words, bool)> {
    let generics = &declaration.generics;
    let schemas = tuple_of_schemas(alloc, fields, 0)?;
    let schemas = schemas.as_str();
    let seen = looked_into(alloc, all, (schemas, generics.parameters.as_slice()))?;
    let is_bound = seen.as_str() != schemas;
    let mut words = name_words(alloc, declaration, ("Fields", schemas), is_bound);
    words.set("laws", laws_of(alloc, declaration, seen.as_str()));
    words.set("evidence", evidence_of(alloc, generics, schemas, 2));
    words.set("schemas", owned(alloc, schemas));
    words.set("values", values_of(alloc, fields, 0));
    Ok((words, is_bound))
}

/// What the bound on a struct's fields says of its values.
fn bound_of_types(alloc: Global, generics: &Generics, fields: &Fields) -> DeriveResult<String> {
    let types = tuple_of_types(alloc, fields)?;
    bound_of(alloc, generics, types.as_str())
}

/// The words of a struct, and whether its schema's bound says what its values are.
fn all_words_of(
    alloc: Global,
    (all, declaration): (&[Declaration], &Declaration),
    fields: &Fields,
) -> DeriveResult<(Words, bool)> {
    let (mut words, is_bound) = words_of(alloc, (all, declaration), fields)?;
    set_first_calls(alloc, &mut words, (declaration, fields))?;
    set_read(alloc, &mut words, (declaration, fields));
    words.set("head", read_head(alloc, declaration));
    words.set(
        "bound",
        bound_of_types(alloc, &declaration.generics, fields),
    );
    words.set("types", tuple_of_types(alloc, fields));
    Ok((words, is_bound))
}

/// Appends the schema of a struct.
pub fn put_struct(
    alloc: Global,
    out: &mut String,
    (all, declaration): (&[Declaration], &Declaration),
    fields: &Fields,
) -> DeriveResult<()> {
    let (mut words, is_bound) = all_words_of(alloc, (all, declaration), fields)?;
    fill(out, WRITING, &mut words)?;
    put_rests(alloc, out, (declaration, fields), (WRITING, is_bound))?;
    if has_many(fields) && !declaration.generics.parameters.is_empty() {
        fill(out, OF, &mut words)?;
    }
    if has_many(fields) {
        fill(out, PARTS, &mut words)?;
    }
    fill(out, READING, &mut words)?;
    fill(out, MARKERS, &mut words)
}

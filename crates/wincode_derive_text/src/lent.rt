//! The schema of a struct with a borrowed field.
use crate::declarations::{Declaration, Field, Fields};
use crate::error::{DeriveResult, unsupported};
use crate::printing::{Words, fill, owned, put};
use crate::structs::{
    applied, is_plain_key, made_of, name_words, pairs_of_schemas, put_rests, set_first_calls,
    set_sides, takes_of, tuple_of_schemas, tuple_of_types, values_of,
};
use crate::tokens::{Kind, tokens_of};
use std::alloc::Global;

/// The words of types whose values own no memory.
const PLAIN: [&str; 18] = [
    "u8",
    "u16",
    "u32",
    "u64",
    "u128",
    "usize",
    "i8",
    "i16",
    "i32",
    "i64",
    "i128",
    "isize",
    "bool",
    "char",
    "str",
    "Option",
    "Result",
    "PhantomData",
];

const WRITING: &str = "
type @fields@ = @schemas@;

impl@writes@ SchemaWrite for @self@ {
    type Src = @src@;

    ghost Value = { ⟦<@fields@ as SchemaWrite>⟧.Value };

    ghost model = { λ x. ⟦<@fields@ as SchemaWrite>⟧.model @values@ };

    ghost is_valid = { λ x. ⟦<@fields@ as SchemaWrite>⟧.is_valid @values@ };

    ghost writing = { ⟦<@fields@ as SchemaWrite>⟧.writing };

    fn type_meta() -> TypeMeta
        ensures { result ≡ ⟦<@fields@ as SchemaWrite>⟧.writing.meta }
    {
        <@fields@ as SchemaWrite>::type_meta()
    }

    fn size_of(src: &@src@) -> WriteResult<usize> {
@size@    }

    fn write<W: Writer>(writer: &mut W, src: &@src@) -> WriteResult<()> {
@write@    }

    #[inline(always)]
    fn encode_front(src: &@src@, dst: &mut [u8]) -> Option<usize> {
@front@    }

    ghost write_laws = { write_laws_by (λ x. @values@) ⟦<@fields@ as SchemaWrite>⟧.write_laws };
}
";

const READING: &str = "
impl<@lifetime@> Lends<@type@<'static>> for Lifetime<@lifetime@> {
    type Lent = @self@;

    type Parts = @types@;

    type As = @fields@;

    ghost parts = { λ x. @values@ };

    fn make(made_of: @types@) -> @self@ {
@take@    }
}

impl<@lifetime@, L: Lends<@type@<'static>>> SchemaRead<L> for @self@ {
    type Dst = L::Lent;

    ghost Value = { L.As.SchemaRead.Value };

    ghost model = { λ x. L.As.SchemaRead.model (L.parts x) };

    ghost is_valid = { L.As.SchemaRead.is_valid };

    ghost reading = { L.As.SchemaRead.reading };

    fn type_meta() -> TypeMeta
        ensures { result ≡ L.As.SchemaRead.reading.meta }
    {
        <L::As as SchemaRead<L>>::type_meta()
    }

    fn prealloc_size() -> usize
        ensures { result ≡ L.As.SchemaRead.reading.prealloc }
    {
        <L::As as SchemaRead<L>>::prealloc_size()
    }

    fn read<R: Reader<L>>(
        alloc: Global,
        reader: &mut R,
        dst: &mut Option<L::Lent>,
    ) -> ReadResult<()>
        ensures { ReadOutcome L.As.SchemaRead.reading (λ x. L.As.SchemaRead.model (L.parts x))
            (R.state reader.old) (R.state reader.new) dst.old dst.new result }
    {
        let parts = <L::As as SchemaGet<L>>::get(alloc, reader)?;
        *dst = Some(L::make(parts));
        Ok(())
    }

    ghost read_laws = { L.As.SchemaRead.read_laws };
}

impl<@lifetime@, L: Lends<@type@<'static>>> OneText<L> for @self@
where
    L::As: OneText<L>,
{
    ghost one_text = { L.As.one_text };
}
";

const ROUND_TRIP: &str = "
impl<@lifetime@> RoundTrip<Lifetime<@lifetime@>> for @self@
where
    @fields@: RoundTrip<Lifetime<@lifetime@>, Src = @types@>,
{
    ghost reads_back = { reads_back_by (λ x. @values@) bound-1.reads_back };
}
";

const KEY: &str = "
type @type@Pairs<@lifetime@> = @pairs@;

impl<@lifetime@> Key<Lifetime<@lifetime@>> for @self@
where
    @type@Pairs<@lifetime@>: Key<Lifetime<@lifetime@>, Dst = @pairs@>,
{
    ghost alike = { λ x y. bound-1.alike @one@ @other@ };
}
";

/// Whether a word of a type is known to own no memory: a name of these, or a number.
fn is_plain(word: &str) -> bool {
    PLAIN.iter().any(|known| *known == word) || word.chars().all(|c| c.is_ascii_digit())
}

/// Whether values of these fields own no memory, as far as their types' names say: of others no bound on their tuple
/// can be stated.
pub fn own_no_memory(alloc: Global, fields: &Fields) -> DeriveResult<bool> {
    for field in fields.fields.as_slice() {
        let tokens = tokens_of(alloc, field.value.as_str())?;
        if tokens.iter().any(|token| token.kind == Kind::Word && !is_plain(token.text.as_str())) {
            return Ok(false);
        }
    }
    Ok(true)
}

/// Whether a field is a key by its name: as in other structs, or a borrowed text.
fn is_lent_key_field(lifetime: &str, field: &Field) -> bool {
    let schema = field.schema.as_str();
    let text = match schema.strip_prefix("&") {
        Some(rest) => match rest.strip_prefix(lifetime) {
            Some(rest) => rest,
            None => schema,
        },
        None => schema,
    };
    text == " str" || is_plain_key(schema)
}

/// Whether a struct with a borrowed field is a key of maps: it derives `Eq`, and its fields are keys by their names and
/// own no memory.
pub fn is_lent_key(
    alloc: Global,
    declaration: &Declaration,
    fields: &Fields,
) -> DeriveResult<bool> {
    let Some(lifetime) = &declaration.generics.lifetime else {
        return Ok(false);
    };
    let lifetime = lifetime.as_str();
    let are_keys = fields
        .fields
        .iter()
        .all(|field| is_lent_key_field(lifetime, field));
    Ok(declaration.is_eq && are_keys && own_no_memory(alloc, fields)?)
}

/// Appends that a struct with a borrowed field is a key of maps.
fn put_lent_key(
    alloc: Global,
    out: &mut String,
    words: &mut Words,
    fields: &Fields,
) -> DeriveResult<()> {
    words.set("pairs", pairs_of_schemas(alloc, fields));
    set_sides(alloc, words, fields);
    fill(out, KEY, words)
}

/// How an enum is made of its parts.
fn take_of_enum(alloc: Global, declaration: &Declaration) -> DeriveResult<String> {
    let me = applied(alloc, declaration.name.as_str(), &declaration.generics, "")?;
    let me = me.as_str();
    Ok(format!(in alloc; "        <{me} as EnumParts>::make(made_of)\n")?)
}

/// Appends the schema of an enum that names a lifetime, of which there is what it is made of. It has these parts, and
/// may own no memory.
pub fn put_lent_enum(
    alloc: Global,
    out: &mut String,
    (declaration, parts): (&Declaration, DeriveResult<String>),
    (lifetime, is_plain): (&str, bool),
    words: &mut Words,
) -> DeriveResult<()> {
    words.set("lifetime", owned(alloc, lifetime));
    words.set("types", parts);
    words.set("take", take_of_enum(alloc, declaration));
    fill(out, WRITING, words)?;
    fill(out, READING, words)?;
    if is_plain {
        fill(out, ROUND_TRIP, words)?;
    }
    Ok(())
}

/// How a struct that names a lifetime is made of what its fields are read as.
fn take_of(alloc: Global, name: &str, fields: &Fields) -> DeriveResult<String> {
    let made = made_of(alloc, name, fields)?;
    let mut take = takes_of(alloc, fields, "made_of")?;
    put(&mut take, &["        ", made.as_str(), "\n"])?;
    Ok(take)
}

/// The words of a struct that names a lifetime.
fn words_of_lent(
    alloc: Global,
    (declaration, lifetime): (&Declaration, &str),
    fields: &Fields,
) -> DeriveResult<Words> {
    let schemas = tuple_of_schemas(alloc, fields, 0)?;
    let name = declaration.name.as_str();
    let mut words = name_words(alloc, declaration, ("Fields", schemas.as_str()), false);
    words.set("lifetime", owned(alloc, lifetime));
    words.set("types", tuple_of_types(alloc, fields));
    words.set("take", take_of(alloc, name, fields));
    words.set("schemas", Ok(schemas));
    words.set("values", values_of(alloc, fields, 0));
    set_first_calls(alloc, &mut words, (declaration, fields))?;
    Ok(words)
}

/// Appends how what borrows is read back, and that it is a key, where it owns no memory and is one.
fn put_markers(
    alloc: Global,
    out: &mut String,
    words: &mut Words,
    (declaration, fields): (&Declaration, &Fields),
) -> DeriveResult<()> {
    if own_no_memory(alloc, fields)? {
        fill(out, ROUND_TRIP, words)?;
    }
    if is_lent_key(alloc, declaration, fields)? {
        put_lent_key(alloc, out, words, fields)?;
    }
    Ok(())
}

/// Appends the schema of a struct that names a lifetime.
pub fn put_lent(
    alloc: Global,
    out: &mut String,
    (declaration, lifetime): (&Declaration, &str),
    fields: &Fields,
) -> DeriveResult<()> {
    if fields.fields.is_empty() {
        let what = "a struct without fields that has a lifetime";
        return Err(unsupported(declaration.line, what));
    }
    let mut words = words_of_lent(alloc, (declaration, lifetime), fields)?;
    fill(out, WRITING, &mut words)?;
    put_rests(alloc, out, (declaration, fields), (WRITING, false))?;
    fill(out, READING, &mut words)?;
    put_markers(alloc, out, &mut words, (declaration, fields))
}

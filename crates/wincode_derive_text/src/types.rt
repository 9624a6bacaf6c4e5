//! Which types have schemas, by their names, and what to take in the place of those that have none.
use crate::declarations::Generics;
use crate::error::{DeriveError, DeriveResult, Spot, refused};
use crate::groups::{
    close_of, end_of_part, first_of, is_sign, is_word, kind_at, next, spot_at, text_at, type_text,
};
use crate::imports::{Imports, Origin, is_std};
use crate::printing::put_text;
use crate::tokens::{Kind, Token};
use std::alloc::Global;

/// What is asked of a type.
#[derive(Debug, Clone, Copy, PartialEq)]
pub enum Asked {
    /// That it is its own schema.
    Own,
    /// That it can be held, where a schema is said for it.
    Held,
    /// That it is a schema.
    Schema,
}

/// Whose type it is, and what names stand for in it.
#[derive(Clone, Copy)]
pub struct Scope<'a> {
    /// The declared type.
    pub owner: &'a str,
    /// That and the names of its part.
    pub subject: &'a str,
    pub generics: &'a Generics,
    pub imports: &'a Imports,
    pub asked: Asked,
    /// Where the text of the tokens begins, where it isn't the file.
    pub base: Option<Spot>,
}

/// The types that have schemas, and how many parts they have.
const KNOWN: [(&str, usize); 64] = [
    ("u8", 0),
    ("u16", 0),
    ("u32", 0),
    ("u64", 0),
    ("u128", 0),
    ("usize", 0),
    ("i8", 0),
    ("i16", 0),
    ("i32", 0),
    ("i64", 0),
    ("i128", 0),
    ("isize", 0),
    ("bool", 0),
    ("char", 0),
    ("String", 0),
    ("Vec", 1),
    ("VecDeque", 1),
    ("LinkedList", 1),
    ("BinaryHeap", 1),
    ("Option", 1),
    ("Result", 2),
    ("Box", 1),
    ("Rc", 1),
    ("BTreeMap", 2),
    ("BTreeSet", 1),
    ("HashMap", 2),
    ("HashSet", 1),
    ("PhantomData", 1),
    ("f32", 0),
    ("f64", 0),
    ("Duration", 0),
    ("SystemTime", 0),
    ("Ipv4Addr", 0),
    ("Ipv6Addr", 0),
    ("IpAddr", 0),
    ("SocketAddrV4", 0),
    ("SocketAddrV6", 0),
    ("SocketAddr", 0),
    ("BoxedStr", 0),
    ("RcStr", 0),
    ("ArcStr", 0),
    ("PathBuf", 0),
    ("NonZeroU8", 0),
    ("NonZeroU16", 0),
    ("NonZeroU32", 0),
    ("NonZeroU64", 0),
    ("NonZeroU128", 0),
    ("NonZeroUsize", 0),
    ("NonZeroI8", 0),
    ("NonZeroI16", 0),
    ("NonZeroI32", 0),
    ("NonZeroI64", 0),
    ("NonZeroI128", 0),
    ("NonZeroIsize", 0),
    ("Wrapping", 1),
    ("Saturating", 1),
    ("Reverse", 1),
    ("Range", 1),
    ("RangeInclusive", 1),
    ("RangeFrom", 1),
    ("RangeTo", 1),
    ("Arc", 1),
    ("Bound", 1),
    ("CString", 0),
];

/// What to take in the place of types of std that have no schema.
const ADVICE: [(&str, &str); 11] = [
    ("str", "take `String`"),
    ("Cow", "take `String`"),
    ("CowStr", "take `String`"),
    ("OsString", "take `String`"),
    (
        "Instant",
        "keep it as a number, such as `u64` of milliseconds",
    ),
    ("Cell", "take what it holds"),
    ("RefCell", "take what it holds"),
    ("Mutex", "take what it holds"),
    ("RwLock", "take what it holds"),
    ("OnceCell", "take an `Option`"),
    ("Ordering", "keep it as an `i8`"),
];

fn advice_on(name: &str) -> Option<&'static str> {
    if name.starts_with("Atomic") {
        return Some("take the number itself");
    }
    for (known, advice) in &ADVICE {
        if *known == name {
            return Some(*advice);
        }
    }
    None
}

/// How many parts a type of std has, if it has a schema.
fn parts_of(name: &str) -> Option<usize> {
    for (known, parts) in &KNOWN {
        if *known == name {
            return Some(*parts);
        }
    }
    None
}

/// A part of a type that is being looked at.
#[derive(Clone, Copy)]
struct Part {
    from: usize,
    to: usize,
}

/// A path, where its name and its parts stand.
#[derive(Clone, Copy)]
struct Path {
    /// Its last name.
    name: usize,
    /// Where what stands behind it begins.
    behind: usize,
}

/// The type that is being looked at, and its parts that are to come.
#[derive(Drop)]
struct Walk<'a> {
    tokens: &'a [Token],
    scope: Scope<'a>,
    parts: Vec<Part>,
}

impl Walk<'_> {
    /// Where a token stands in the file.
    fn spot(&self, at: usize) -> Spot {
        let spot = spot_at(self.tokens, at);
        match self.scope.base {
            Some(base) => Spot {
                line: base.line,
                column: base.column.saturating_add(spot.column.saturating_sub(1)),
            },
            None => spot,
        }
    }

    /// What is wrong at a token.
    fn wrong(&self, alloc: Global, at: usize, what: &str) -> DeriveError {
        let subject = self.scope.subject;
        match format!(in alloc; "`{subject}`: {what}") {
            Ok(said) => refused(alloc, self.spot(at), said),
            Err(_) => DeriveError::OutOfMemory,
        }
    }

    /// A type without a schema.
    fn none(&self, alloc: Global, part: Part, advice: Option<&str>) -> DeriveError {
        match self.none_text(alloc, part, advice) {
            Ok(what) => self.wrong(alloc, part.from, what.as_str()),
            Err(error) => error,
        }
    }

    /// What is said of a type without a schema.
    fn none_text(&self, alloc: Global, part: Part, advice: Option<&str>) -> DeriveResult<String> {
        let text = type_text(alloc, self.tokens, part.from, part.to)?;
        let text = text.as_str();
        let advice = advice.unwrap_or("say one by `// wincode: with = SCHEMA`");
        Ok(format!(in alloc; "no schema for `{text}`: {advice}")?)
    }

    fn push(&mut self, from: usize, to: usize) -> DeriveResult<()> {
        self.parts.push(Part { from, to })?;
        Ok(())
    }

    /// Whether something else is asked than that a type can be held.
    fn is_strict(&self) -> bool {
        self.scope.asked != Asked::Held
    }

    /// Takes the parts between commas that stand there; how many there are.
    fn push_all(&mut self, from: usize, to: usize) -> DeriveResult<usize> {
        let mut at = from;
        let mut count = 0usize;
        for _ in from..to {
            if at >= to {
                break;
            }
            let end = end_of_part(self.tokens, at, to);
            if kind_at(self.tokens, at) != Kind::Lifetime {
                self.push(at, end)?;
                count = next(count);
            }
            at = next(end);
        }
        Ok(count)
    }

    /// A tuple, or a type in brackets.
    fn take_tuple(&mut self, alloc: Global, part: Part) -> DeriveResult<()> {
        let close = close_of(self.tokens, part.from).unwrap_or(part.to);
        self.ends(alloc, next(close), part)?;
        let count = self.push_all(next(part.from), close)?;
        let is_one = count == 1 && is_sign(self.tokens, close.saturating_sub(1), ",");
        if self.is_strict() && is_one {
            return Err(self.none(alloc, part, Some("take its member by itself")));
        }
        if self.is_strict() && count > 12 {
            let advice = "a tuple has at most 12 members: declare a struct";
            return Err(self.none(alloc, part, Some(advice)));
        }
        Ok(())
    }

    /// An array or a slice.
    fn take_array(&mut self, alloc: Global, part: Part) -> DeriveResult<()> {
        let close = close_of(self.tokens, part.from).unwrap_or(part.to);
        self.ends(alloc, next(close), part)?;
        let begin = next(part.from);
        let between = first_of(self.tokens, (begin, close), &[";"]);
        self.push(begin, between)?;
        if between >= close {
            if self.is_strict() {
                return Err(self.none(alloc, part, Some("take a `Vec`, or an array")));
            }
            return Ok(());
        }
        let length = next(between);
        if !is_name(self.tokens, length, close) {
            let what = "an array's length is a number or the name of a constant: declare one";
            return Err(self.wrong(alloc, length, what));
        }
        Ok(())
    }

    /// A borrowed type.
    fn take_borrowed(&mut self, alloc: Global, part: Part) -> DeriveResult<()> {
        let begin = next(part.from);
        let lent = behind_lifetime(self.tokens, begin);
        let at = behind_mut(self.tokens, lent);
        if !self.is_strict() {
            return self.push(at, part.to);
        }
        let advice = if at > lent {
            Some("take `&'a [u8]`, or an owned type")
        } else {
            self.advice_on_borrowed((begin, lent), (at, part.to))
        };
        match advice {
            Some(advice) => Err(self.none(alloc, part, Some(advice))),
            None => Ok(()),
        }
    }

    /// What to take for what is borrowed by the lifetime that stands there, if it has no schema.
    fn advice_on_borrowed(
        &self,
        (begin, lent): (usize, usize),
        (at, to): (usize, usize),
    ) -> Option<&'static str> {
        let is_text = is_text(self.tokens, at, to);
        if !is_text && !is_bytes(self.tokens, at, to) {
            return Some("what is borrowed is `&'a str` or `&'a [u8]`");
        }
        if begin < lent && text_at(self.tokens, begin) == "'static" {
            return Some(if is_text {
                "take `String`"
            } else {
                "take `Vec<u8>`"
            });
        }
        if begin < lent && self.names(text_at(self.tokens, begin)) {
            return None;
        }
        Some("a struct that borrows names its lifetime, as `Label<'a>` with `&'a str`")
    }

    /// Whether the declared type names this lifetime.
    fn names(&self, lifetime: &str) -> bool {
        match &self.scope.generics.lifetime {
            Some(known) => known.as_str() == lifetime,
            None => false,
        }
    }

    /// Whether it is a parameter of the declared type.
    fn is_parameter(&self, name: &str) -> bool {
        let parameters = self.scope.generics.parameters.as_slice();
        parameters.iter().any(|known| known.as_str() == name)
    }

    /// Refuses what stands behind the end of a type.
    fn ends(&self, alloc: Global, behind: usize, part: Part) -> DeriveResult<()> {
        if behind >= part.to || kind_at(self.tokens, behind) == Kind::Note {
            return Ok(());
        }
        let what = unexpected(alloc, self.tokens, behind, "the end of the type")?;
        Err(self.wrong(alloc, behind, what.as_str()))
    }

    /// The path that begins a part.
    fn path(&self, part: Part) -> Path {
        let mut name = part.from;
        for at in part.from..part.to {
            if is_sign(self.tokens, at, "::") && kind_at(self.tokens, next(at)) == Kind::Word {
                name = next(at);
            } else if at > name || kind_at(self.tokens, at) != Kind::Word {
                break;
            }
        }
        Path {
            name,
            behind: next(name),
        }
    }

    /// Whether a path ends in the declared type itself.
    fn is_owner(&self, part: Part, path: Path) -> bool {
        let is_alone = path.name == part.from
            || (is_word(self.tokens, part.from, "self")
                && path.name == part.from.saturating_add(2));
        let name = text_at(self.tokens, path.name);
        name == "Self" || (is_alone && name == self.scope.owner)
    }

    /// Whether a path is std's.
    fn is_std_path(&self, part: Part, path: Path) -> bool {
        let root = text_at(self.tokens, part.from);
        if path.name == part.from {
            return self.scope.imports.origin(root) != Origin::Own;
        }
        is_std(root) || (parts_of(root).is_none() && self.scope.imports.is_std_module(root))
    }

    /// Whether a path is that of a schema that holds nothing.
    fn is_container(&self, part: Part, path: Path) -> bool {
        path.name >= part.from.saturating_add(2)
            && is_word(self.tokens, path.name.saturating_sub(2), "containers")
    }

    /// A type by its name.
    fn take_named(&mut self, alloc: Global, part: Part) -> DeriveResult<()> {
        let path = self.path(part);
        let mut close = path.behind;
        if is_sign(self.tokens, path.behind, "<") {
            let Some(end) = close_of(self.tokens, path.behind) else {
                return Err(self.wrong(alloc, path.behind, "`<` is not closed"));
            };
            close = next(end);
        }
        if self.is_owner(part, path) {
            return Err(self.wrong(
                alloc,
                path.name,
                "a type that has itself for a part has no schema",
            ));
        }
        self.ends(alloc, close, part)?;
        let inside = (next(path.behind), close.saturating_sub(1));
        if !self.is_strict() {
            if close > path.behind {
                self.push_all(inside.0, inside.1)?;
            }
            return Ok(());
        }
        if self.is_container(part, path) {
            return self.take_container(alloc, part, inside);
        }
        if self.is_std_path(part, path) {
            return self.take_std(alloc, part, (path, close));
        }
        if self.scope.asked == Asked::Own && close > path.behind {
            self.push_all(inside.0, inside.1)?;
        }
        Ok(())
    }

    /// A schema of `containers`, whose first part is a schema.
    fn take_container(
        &mut self,
        alloc: Global,
        part: Part,
        (from, to): (usize, usize),
    ) -> DeriveResult<()> {
        if self.scope.asked == Asked::Own {
            let text = type_text(alloc, self.tokens, part.from, part.to)?;
            let text = text.as_str();
            let what = format!(in alloc;
                "`{text}` is a schema and holds nothing: write it over the field, by `// wincode: with = {text}`"
            )?;
            return Err(self.wrong(alloc, part.from, what.as_str()));
        }
        if from < to {
            let end = end_of_part(self.tokens, from, to);
            self.push(from, end)?;
        }
        Ok(())
    }

    /// A type of std, or one that nothing says where it comes from.
    fn take_std(
        &mut self,
        alloc: Global,
        part: Part,
        (path, close): (Path, usize),
    ) -> DeriveResult<()> {
        let written = text_at(self.tokens, path.name);
        let name = self.scope.imports.leaf(written);
        if self.is_parameter(written) {
            return Ok(());
        }
        let (from, to) = (next(path.behind), close.saturating_sub(1));
        let Some(wanted) = parts_of(name) else {
            return self.take_unknown(alloc, part, (path, name), (from, to));
        };
        if name == "PhantomData" {
            return Ok(());
        }
        if is_slice(self.tokens, (from, to), name) {
            return Err(self.no_slice(alloc, part, name, (from, to)));
        }
        if matches!(name, "Box" | "Rc" | "Arc") && is_text(self.tokens, from, to) {
            return Err(self.none(alloc, part, Some("take `String`")));
        }
        let count = self.push_all(from, to)?;
        if count != wanted {
            return Err(self.wrong_count(alloc, part, name, (count, wanted)));
        }
        Ok(())
    }

    /// A box or a shared part of a slice, which has no schema by that name.
    fn no_slice(
        &self,
        alloc: Global,
        part: Part,
        name: &str,
        (from, to): (usize, usize),
    ) -> DeriveError {
        let kind = match name {
            "Box" => "BoxedSlice",
            "Rc" => "RcSlice",
            _ => "ArcSlice",
        };
        match self.slice_text(alloc, kind, (from, to)) {
            Ok(advice) => self.none(alloc, part, Some(advice.as_str())),
            Err(error) => error,
        }
    }

    /// What to take in its place.
    fn slice_text(
        &self,
        alloc: Global,
        kind: &str,
        (from, to): (usize, usize),
    ) -> DeriveResult<String> {
        let item = type_text(alloc, self.tokens, next(from), to.saturating_sub(1))?;
        slice_advice(alloc, kind, item.as_str(), true)
    }

    /// A type with more or fewer parts than it has.
    fn wrong_count(
        &self,
        alloc: Global,
        part: Part,
        name: &str,
        (count, wanted): (usize, usize),
    ) -> DeriveError {
        match format!(in alloc; "`{name}` with {count} parts has no schema: it has {wanted}") {
            Ok(what) => self.wrong(alloc, part.from, what.as_str()),
            Err(_) => DeriveError::OutOfMemory,
        }
    }

    /// A type of which no schema is known.
    fn take_unknown(
        &mut self,
        alloc: Global,
        part: Part,
        (path, name): (Path, &str),
        (from, to): (usize, usize),
    ) -> DeriveResult<()> {
        let root = text_at(self.tokens, part.from);
        let origin = self.scope.imports.origin(root);
        if matches!(name, "BoxedSlice" | "RcSlice" | "ArcSlice") && origin != Origin::Own {
            let item = type_text(alloc, self.tokens, from, to)?;
            let advice = slice_advice(alloc, name, item.as_str(), false)?;
            return Err(self.none(alloc, part, Some(advice.as_str())));
        }
        let is_certain = name == "str";
        let is_imported = self.scope.imports.is_imported(root) || path.name != part.from;
        match advice_on(name) {
            Some(_) if origin == Origin::Unknown && !is_certain => Ok(()),
            None if !is_imported => Ok(()),
            advice => Err(self.none(alloc, part, advice)),
        }
    }

    /// A part that begins with a sign, or a word that stands for no type's name.
    fn take_other(&mut self, alloc: Global, part: Part) -> DeriveResult<()> {
        match text_at(self.tokens, part.from) {
            "<" => Err(self.none(alloc, part, Some("name it by a `type`"))),
            "_" => {
                let what = "`_` stands for no type here: write the type";
                Err(self.wrong(alloc, part.from, what))
            }
            "fn" | "dyn" | "impl" | "for" | "unsafe" | "extern" | "*" | "!" => {
                if self.is_strict() {
                    Err(self.none(alloc, part, None))
                } else {
                    Ok(())
                }
            }
            _ => Err(self.no_type(alloc, part.from)),
        }
    }

    /// Something stands there that is no type.
    fn no_type(&self, alloc: Global, at: usize) -> DeriveError {
        match unexpected(alloc, self.tokens, at, "a type") {
            Ok(what) => self.wrong(alloc, at, what.as_str()),
            Err(error) => error,
        }
    }

    /// Looks at a part, and takes its own.
    fn step(&mut self, alloc: Global, part: Part) -> DeriveResult<()> {
        let at = part.from;
        if part.from >= part.to {
            return Err(self.wrong(alloc, at, "a type is wanted"));
        }
        match (kind_at(self.tokens, at), text_at(self.tokens, at)) {
            (Kind::Sign, "(") => self.take_tuple(alloc, part),
            (Kind::Sign, "[") => self.take_array(alloc, part),
            (Kind::Sign, "&") => self.take_borrowed(alloc, part),
            (Kind::Word, "_" | "fn" | "dyn" | "impl" | "for" | "unsafe" | "extern")
            | (Kind::Sign, _) => self.take_other(alloc, part),
            (Kind::Word, _) => self.take_named(alloc, part),
            (Kind::Note, _) => Ok(()),
            _ => Err(self.no_type(alloc, at)),
        }
    }
}

/// Where what stands behind a lifetime begins, if one stands there.
fn behind_lifetime(tokens: &[Token], at: usize) -> usize {
    if kind_at(tokens, at) == Kind::Lifetime {
        next(at)
    } else {
        at
    }
}

/// Where what stands behind `mut` begins, if it stands there.
fn behind_mut(tokens: &[Token], at: usize) -> usize {
    if is_word(tokens, at, "mut") {
        next(at)
    } else {
        at
    }
}

/// Whether `str` stands there.
fn is_text(tokens: &[Token], from: usize, to: usize) -> bool {
    is_word(tokens, from, "str") && next(from) == to
}

/// Whether `[u8]` stands there.
fn is_bytes(tokens: &[Token], from: usize, to: usize) -> bool {
    is_sign(tokens, from, "[")
        && is_word(tokens, next(from), "u8")
        && is_sign(tokens, next(next(from)), "]")
        && from.saturating_add(3) == to
}

/// Whether what stands there is a number or a name, or the path of one.
fn is_name(tokens: &[Token], from: usize, to: usize) -> bool {
    from < to
        && (from..to).all(|at| {
            kind_at(tokens, at) == Kind::Word && (next(at) == to || is_sign(tokens, next(at), "::"))
                || is_sign(tokens, at, "::")
                    && kind_at(tokens, next(at)) == Kind::Word
                    && next(at) < to
        })
        && kind_at(tokens, to.saturating_sub(1)) == Kind::Word
}

/// Whether what stands there is a slice in a box.
fn is_slice(tokens: &[Token], (from, to): (usize, usize), name: &str) -> bool {
    matches!(name, "Box" | "Rc" | "Arc")
        && is_sign(tokens, from, "[")
        && first_of(tokens, (next(from), to.saturating_sub(1)), &[";"]) == to.saturating_sub(1)
}

/// The comment line that says the schema of a slice that is owned.
fn slice_line(alloc: Global, kind: &str, item: &str) -> DeriveResult<String> {
    Ok(format!(in alloc; "`// wincode: with = containers::{kind}<{item}, BincodeLen<4194304>>`")?)
}

/// What the advice begins with: to write a line over a slice, or first to give it another name.
fn renamed(alloc: Global, kind: &str, item: &str, is_renamed: bool) -> DeriveResult<String> {
    if is_renamed {
        Ok(format!(in alloc; "take `{kind}<{item}>`, and over it ")?)
    } else {
        Ok(String::from_str(alloc, "write over it ")?)
    }
}

/// What to write for a slice that is owned, by another name or by its own.
fn slice_advice(alloc: Global, kind: &str, item: &str, is_renamed: bool) -> DeriveResult<String> {
    let mut out = renamed(alloc, kind, item, is_renamed)?;
    put_text(&mut out, slice_line(alloc, kind, item))?;
    Ok(out)
}

/// What is said of a name that isn't of ASCII letters.
fn not_ascii(alloc: Global, text: &str) -> DeriveResult<String> {
    Ok(format!(in alloc; "`{text}`: names are of ASCII letters, digits and `_`")?)
}

/// What is said of a name that is a keyword.
fn keyword(alloc: Global, name: &str) -> DeriveResult<String> {
    Ok(format!(in alloc; "`r#{name}`: choose a name that is no keyword")?)
}

/// That something else is wanted than this, or than the end of the file.
fn wanted_text(alloc: Global, wanted: &str, text: Option<&str>) -> DeriveResult<String> {
    match text {
        Some(text) => Ok(format!(in alloc; "{wanted} is wanted, and here is `{text}`")?),
        None => Ok(format!(in alloc; "{wanted} is wanted, and the file ends")?),
    }
}

/// That something else is wanted than what stands there.
pub fn unexpected(
    alloc: Global,
    tokens: &[Token],
    at: usize,
    wanted: &str,
) -> DeriveResult<String> {
    let text = text_at(tokens, at);
    if kind_at(tokens, at) == Kind::Sign && !text.is_ascii() {
        return not_ascii(alloc, text);
    }
    if is_raw(tokens, at) {
        return keyword(alloc, text_at(tokens, next(at)));
    }
    let here = if at < tokens.len() { Some(text) } else { None };
    wanted_text(alloc, wanted, here)
}

/// Whether the `#` of a name such as `r#type` stands there.
fn is_raw(tokens: &[Token], at: usize) -> bool {
    let before = at.saturating_sub(1);
    match (tokens.get(before), tokens.get(at), tokens.get(next(at))) {
        (Some(r), Some(hash), Some(name)) => {
            r.text.as_str() == "r"
                && hash.text.as_str() == "#"
                && name.kind == Kind::Word
                && r.at.saturating_add(1) == hash.at
                && hash.at.saturating_add(1) == name.at
        }
        _ => false,
    }
}

/// Looks whether a type is what is asked of it; the first thing that is wrong is refused.
pub fn check_type<'x>(
    alloc: Global,
    (tokens, from, to): (&'x [Token], usize, usize),
    scope: Scope<'x>,
) -> DeriveResult<()> {
    let mut walk = Walk {
        tokens,
        scope,
        parts: Vec::new(alloc),
    };
    walk.push(from, to)?;
    for _ in 0..tokens.len().saturating_add(2) {
        let Some(part) = walk.parts.pop() else {
            return Ok(());
        };
        walk.step(alloc, part)?;
    }
    Ok(())
}

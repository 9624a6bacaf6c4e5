//! Enums of many cases, which stand in parts: each has some cases whose tags follow each other, and laws of its own, so
//! that no term has more than a few cases in it.
use crate::declarations::{Declaration, Variant};
use crate::enums::{case_sides_of, close, made_by_sides, put_side, side_of, sided, sides_of};
use crate::error::DeriveResult;
use crate::inside::looked_into;
use crate::laws::{law_of, seen_by};
use crate::printing::{Words, fill, owned, put, put_text, put_times};
use crate::structs::{applied, bound_of, evidence_of, name_over, set_of, set_over};
use std::alloc::Global;

/// How many cases a part has at most.
const MOST: usize = 6;

const PART: &str = "
/// The cases from the @place@ on, by their tags.
pub struct @self@@phantom@;

type @part_cases@ = @cases@;

impl@writes@ CasesWrite for @self@@where_src@ {
    type Src = @src_sides@;

    ghost Value = { ⟦<@part_cases@ as CasesWrite>⟧.Value };

    ghost model = { ⟦<@part_cases@ as CasesWrite>⟧.model };

    ghost is_valid = { ⟦<@part_cases@ as CasesWrite>⟧.is_valid };

    ghost tag = { ⟦<@part_cases@ as CasesWrite>⟧.tag };

    ghost own = { ⟦<@part_cases@ as CasesWrite>⟧.own };

    ghost part = { ⟦<@part_cases@ as CasesWrite>⟧.part };

    ghost part_laws = { ⟦<@part_cases@ as CasesWrite>⟧.part_laws };

    ghost answer = { ⟦<@part_cases@ as CasesWrite>⟧.answer };

    ghost answers = { ⟦<@part_cases@ as CasesWrite>⟧.answers };

    fn part_meta() -> TypeMeta {
        <@part_cases@ as CasesWrite>::part_meta()
    }

    fn tag_of(src: &Self::Src) -> WriteResult<usize> {
        <@part_cases@ as CasesWrite>::tag_of(src)
    }

    fn part_size(src: &Self::Src) -> WriteResult<usize> {
        <@part_cases@ as CasesWrite>::part_size(src)
    }

    fn write_part<W: Writer>(writer: &mut W, src: &Self::Src) -> WriteResult<()> {
        <@part_cases@ as CasesWrite>::write_part::<W>(writer, src)
    }
}

impl@reads@ CasesRead<L> for @self@ {
    type Dst = @dst_sides@;

    ghost Value = { ⟦<@part_cases@ as CasesRead<L>>⟧.Value };

    ghost model = { ⟦<@part_cases@ as CasesRead<L>>⟧.model };

    ghost is_valid = { ⟦<@part_cases@ as CasesRead<L>>⟧.is_valid };

    ghost tag = { ⟦<@part_cases@ as CasesRead<L>>⟧.tag };

    ghost own = { ⟦<@part_cases@ as CasesRead<L>>⟧.own };

    ghost part = { ⟦<@part_cases@ as CasesRead<L>>⟧.part };

    ghost refused = { ⟦<@part_cases@ as CasesRead<L>>⟧.refused };

    fn part_meta() -> TypeMeta {
        <@part_cases@ as CasesRead<L>>::part_meta()
    }

    fn prealloc_size() -> usize {
        <@part_cases@ as CasesRead<L>>::prealloc_size()
    }

    fn get_case<R: Reader<L>>(alloc: Global, reader: &mut R, given: usize) -> ReadResult<Self::Dst> {
        <@part_cases@ as CasesRead<L>>::get_case::<R>(alloc, reader, given)
    }

    ghost case_laws = { @laws@ };
}

impl@lawful@ LawfulCases<L> for @self@@where_dst@ {
    type Dst = @dst_sides@;

    ghost Value = { ⟦<@part_cases@ as LawfulCases<L>>⟧.Value };

    ghost model = { ⟦<@part_cases@ as LawfulCases<L>>⟧.model };

    ghost is_valid = { ⟦<@part_cases@ as LawfulCases<L>>⟧.is_valid };

    ghost tag = { ⟦<@part_cases@ as LawfulCases<L>>⟧.tag };

    ghost own = { ⟦<@part_cases@ as LawfulCases<L>>⟧.own };

    ghost part = { ⟦<@part_cases@ as LawfulCases<L>>⟧.part };

    ghost refused = { ⟦<@part_cases@ as LawfulCases<L>>⟧.refused };

    ghost case_laws = { ⟦<@part_cases@ as LawfulCases<L>>⟧.case_laws };
}

impl@backs@ CasesRoundTrip<L> for @self@
where
@drops@    @part_cases@: CasesRoundTrip<L@bound@>,
{
    ghost back = { @evidence@.back };
}

impl@backs@ CasesOneText<L> for @self@
where
@drops@    @part_cases@: PartOneText<L@bound@>,
{
    ghost cases_one_text = { @evidence@.part_one_text };
}

impl@backs@ CasesReadOwned<L> for @self@
where
@drops@    @part_cases@: PartReadOwned<L@bound@>,
{
    ghost cases_owned = { @evidence@.part_owned };
}

impl@any@ @self@ {
    fn make(made_of: @sides@) -> @any_src@
        ensures { ⟦<@of@ as EnumParts>⟧.parts result ≡ @side@ }
    {
        match made_of {
@make@        }
    }
}
";

/// How the cases of an enum stand together, in the order of their tags.
#[derive(Clone, Copy)]
pub struct Layout {
    /// How many a part has, but the last, which may have fewer.
    each: usize,
    count: usize,
}

/// How many parts there are of so many cases.
fn parts_of(count: usize, each: usize) -> usize {
    let each = each.max(1);
    if count % each == 0 {
        count / each
    } else {
        (count / each).saturating_add(1)
    }
}

impl Layout {
    /// That of an enum: one part, where it has few cases, or names a lifetime.
    pub fn of(declaration: &Declaration, count: usize) -> Layout {
        if count <= MOST || declaration.generics.lifetime.is_some() {
            return Layout { each: count, count };
        }
        let each = parts_of(count, parts_of(count, MOST));
        Layout { each, count }
    }

    /// Whether all cases stand together.
    pub fn is_whole(self) -> bool {
        self.count <= self.each
    }

    /// How many parts there are.
    pub fn parts(self) -> usize {
        parts_of(self.count, self.each)
    }

    /// The part in which a case stands, of how many.
    pub fn part(self, place: usize) -> (usize, usize) {
        (place / self.each.max(1), self.parts())
    }

    /// Which case of its part it is, of how many.
    pub fn inside(self, place: usize) -> (usize, usize) {
        let inside = place % self.each.max(1);
        let first = place.saturating_sub(inside);
        (inside, self.each.min(self.count.saturating_sub(first)))
    }

    /// The cases of a part.
    fn slice(self, variants: &[Variant], part: usize) -> &[Variant] {
        let from = part.saturating_mul(self.each).min(variants.len());
        let to = from.saturating_add(self.each).min(variants.len());
        &variants[from..to]
    }

    /// A case in brackets, where its part has others.
    fn bracketed(self, alloc: Global, place: usize, case: &str) -> DeriveResult<String> {
        if self.inside(place).1 > 1 {
            Ok(format!(in alloc; "({case})")?)
        } else {
            owned(alloc, case)
        }
    }

    /// What stands behind so many layers of results: which part it is, and which case there.
    pub fn sided(self, alloc: Global, place: usize, inside: &str) -> DeriveResult<String> {
        let case = sided(alloc, self.inside(place), inside)?;
        if self.is_whole() {
            return Ok(case);
        }
        let case = self.bracketed(alloc, place, case.as_str())?;
        sided(alloc, self.part(place), case.as_str())
    }

    /// The types of the parts, from the last to the first: each but the last as `Result<A, ..>`.
    pub fn types(self, alloc: Global, variants: &[Variant]) -> DeriveResult<String> {
        let mut out = String::new(alloc);
        let count = self.parts();
        for part in 0..count {
            let is_last = part.saturating_add(1) >= count;
            let sides = sides_of(alloc, self.slice(variants, part));
            put_side(&mut out, sides, is_last)?;
        }
        close(&mut out, count)?;
        Ok(out)
    }

    /// The name of a part: that of its first case's place among all, counted from 1.
    fn name(self, alloc: Global, name: &str, part: usize) -> DeriveResult<String> {
        let place = part.saturating_mul(self.each).saturating_add(1);
        Ok(format!(in alloc; "{name}From{place}")?)
    }

    /// What stands in front of a part: the tag from which on others have the cases, if there are others behind it.
    fn put_bound(
        self,
        alloc: Global,
        out: &mut String,
        (variants, part): (&[Variant], usize),
    ) -> DeriveResult<()> {
        if let Some(variant) = self.slice(variants, part.saturating_add(1)).first() {
            let tag = variant.tag;
            let before = format!(in alloc; "Split<{tag}, ")?;
            out.push_str(before.as_str())?;
        }
        Ok(())
    }

    /// A part by its name.
    fn named(self, alloc: Global, declaration: &Declaration, part: usize) -> DeriveResult<String> {
        let name = self.name(alloc, declaration.name.as_str(), part)?;
        applied(alloc, name.as_str(), &declaration.generics, "")
    }

    /// The cases with their tags, or the parts in which they stand with the tags from which on each other one has the
    /// cases: by their names, or spelled out.
    pub fn cases(
        self,
        alloc: Global,
        (declaration, is_spelled): (&Declaration, bool),
        variants: &[Variant],
    ) -> DeriveResult<String> {
        if self.is_whole() {
            return case_sides_of(alloc, variants);
        }
        let mut out = String::new(alloc);
        for part in 0..self.parts() {
            self.put_bound(alloc, &mut out, (variants, part))?;
            let cases = if is_spelled {
                case_sides_of(alloc, self.slice(variants, part))
            } else {
                self.named(alloc, declaration, part)
            };
            put_text(&mut out, cases)?;
            let is_last = part.saturating_add(1) >= self.parts();
            out.push_str(if is_last { "" } else { ", " })?;
        }
        close(&mut out, self.parts())?;
        Ok(out)
    }

    /// Appends the arm by which a value is made of this part.
    fn put_made(
        self,
        alloc: Global,
        out: &mut String,
        (declaration, part): (&Declaration, usize),
    ) -> DeriveResult<()> {
        let (before, _) = side_of(part, self.parts());
        let part = self.name(alloc, declaration.name.as_str(), part)?;
        let over = applied(alloc, "", &declaration.generics, "")?;
        put(out, &[before, "parts) => ", part.as_str()])?;
        if !over.is_empty() {
            put(out, &["::", over.as_str()])?;
        }
        put(out, &["::make(parts),\n"])
    }

    /// The arms by which a value is made of its parts.
    pub fn make(
        self,
        alloc: Global,
        declaration: &Declaration,
        variants: &[Variant],
    ) -> DeriveResult<String> {
        if self.is_whole() {
            return made_by_sides(alloc, declaration.src(), variants);
        }
        let mut out = String::new(alloc);
        for part in 0..self.parts() {
            self.put_made(alloc, &mut out, (declaration, part))?;
        }
        put_times(&mut out, "},\n", self.parts().saturating_sub(2))?;
        Ok(out)
    }

    /// The words of a part.
    fn words(
        self,
        alloc: Global,
        (all, declaration): (&[Declaration], &Declaration),
        (variants, part): (&[Variant], usize),
    ) -> DeriveResult<Words> {
        let place = part.saturating_mul(self.each).saturating_add(1);
        let slice = self.slice(variants, part);
        let cases = case_sides_of(alloc, slice)?;
        let mut words = Words::new(alloc);
        words.set("place", ordinal(alloc, place));
        words.set("self", self.named(alloc, declaration, part));
        set_over(alloc, &mut words, &declaration.generics);
        set_of(alloc, &mut words, (declaration, true));
        words.set("side", sided(alloc, (part, self.parts()), "made_of"));
        words.set("make", made_by_sides(alloc, declaration.src(), slice));
        set_sides_of(alloc, &mut words, (declaration, slice))?;
        set_part_cases(alloc, &mut words, (all, declaration), (place, cases))?;
        Ok(words)
    }

    /// Appends the parts of an enum, where it has some.
    pub fn put(
        self,
        alloc: Global,
        out: &mut String,
        of: (&[Declaration], &Declaration),
        variants: &[Variant],
    ) -> DeriveResult<()> {
        if self.is_whole() {
            return Ok(());
        }
        for part in 0..self.parts() {
            let mut words = self.words(alloc, of, (variants, part))?;
            fill(out, PART, &mut words)?;
        }
        Ok(())
    }
}

/// Sets the words of the values of a part of these cases, as they are, are written and are read.
fn set_sides_of(
    alloc: Global,
    words: &mut Words,
    (declaration, slice): (&Declaration, &[Variant]),
) -> DeriveResult<()> {
    let generics = &declaration.generics;
    let parameters = generics.parameters.as_slice();
    let sides = sides_of(alloc, slice)?;
    words.set(
        "src_sides",
        seen_by(alloc, sides.as_str(), parameters, "Src"),
    );
    words.set(
        "dst_sides",
        seen_by(alloc, sides.as_str(), parameters, "Dst"),
    );
    words.set("bound", bound_of(alloc, generics, sides.as_str()));
    words.set("sides", Ok(sides));
    Ok(())
}

/// Sets the words of the cases of a part that begins at this place, and of their laws.
fn set_part_cases(
    alloc: Global,
    words: &mut Words,
    (all, declaration): (&[Declaration], &Declaration),
    (place, cases): (usize, String),
) -> DeriveResult<()> {
    let generics = &declaration.generics;
    let behind = format!(in alloc; "From{place}Cases")?;
    let name = name_over(alloc, declaration, (behind.as_str(), cases.as_str()))?;
    let laws = laws_of(alloc, (all, declaration), (name.as_str(), cases.as_str()));
    words.set("laws", laws);
    words.set("evidence", evidence_of(alloc, generics, cases.as_str(), 2));
    words.set("part_cases", Ok(name));
    words.set("cases", Ok(cases));
    Ok(())
}

/// The laws of the cases of that name: by a quote, or, where they are over parameters, from their parts'.
fn laws_of(
    alloc: Global,
    (all, declaration): (&[Declaration], &Declaration),
    (name, cases): (&str, &str),
) -> DeriveResult<String> {
    let parameters = declaration.generics.parameters.as_slice();
    if parameters.is_empty() {
        return Ok(format!(in alloc; "⟦<{name} as LawfulCases<L>>⟧.case_laws")?);
    }
    let seen = looked_into(alloc, all, (cases, parameters))?;
    law_of(alloc, seen.as_str(), parameters, declaration.line)
}

/// `1st`, `7th`.
fn ordinal(alloc: Global, place: usize) -> DeriveResult<String> {
    let behind = match (place % 100, place % 10) {
        (11 | 12 | 13, _) => "th",
        (_, 1) => "st",
        (_, 2) => "nd",
        (_, 3) => "rd",
        _ => "th",
    };
    Ok(format!(in alloc; "{place}{behind}")?)
}

/// The place of the least tag from there on.
fn least_from(variants: &[Variant], from: usize) -> usize {
    let mut least = from;
    for (at, variant) in variants.iter().enumerate() {
        let is_less = match variants.get(least) {
            Some(known) => variant.tag < known.tag,
            None => false,
        };
        if at > from && is_less {
            least = at;
        }
    }
    least
}

/// Lets the cases of an enum that stand in parts have the order of their tags, of which each has its own.
pub fn order_by_tags(variants: &mut Vec<Variant>) {
    if variants.len() <= MOST {
        return;
    }
    for at in 0..variants.len() {
        let least = least_from(variants.as_slice(), at);
        if at < variants.len() && least < variants.len() {
            variants.swap(at, least);
        }
    }
}

//! What is still to come of a type whose parts are taken one after another: where the next one stands is known before it
//! is there.
ghost use Rattle.std.specs.Prelude.{◌≡◌, IfOk};
ghost use Rattle.wincode_describe.specs.Forms.{seen, seen_cases};

use crate::described::{Cases, Described};
use crate::places::number_of;
use crate::shown::Shown;
use std::alloc::{AllocError, Global};

/// What is to come at a place.
#[derive(Debug, Drop)]
enum Awaited {
    /// A value of the type.
    Whole(Described),
    /// Members, the first of which has this number.
    Members(Described, usize),
    /// Items, from this one on, up to their number.
    Items(Described, usize, usize),
    /// One part more.
    Part,
}

/// Something that is to come, and its place.
#[derive(Debug, Drop)]
struct Frame {
    place: String,
    awaited: Awaited,
}

/// What is to come of a type: what comes next is the last.
#[derive(Debug, Drop)]
pub(crate) struct Upcoming {
    frames: Vec<Frame>,
}

/// The same type once more.
#[cycle(copying)]
pub(crate) fn copied(alloc: Global, described: &Described) -> Result<Described, AllocError>
    ensures { IfOk result (λ d. seen d ≡ seen described.now) }
{
    Ok(match described {
        Described::Integer(integer) => Described::Integer(*integer),
        Described::NonZero(integer) => Described::NonZero(*integer),
        Described::Std(kind) => Described::Std(*kind),
        Described::Bool => Described::Bool,
        Described::Char => Described::Char,
        Described::Unit => Described::Unit,
        Described::Text => Described::Text,
        Described::ByteList(scheme) => Described::ByteList(*scheme),
        Described::ByteArray(n) => Described::ByteArray(*n),
        Described::Option(content) => Described::Option(boxed(alloc, content)?),
        Described::Result(one, other) => {
            let one = boxed(alloc, one)?;
            Described::Result(one, boxed(alloc, other)?)
        }
        Described::Boxed(content) => Described::Boxed(boxed(alloc, content)?),
        Described::List(scheme, item) => Described::List(*scheme, boxed(alloc, item)?),
        Described::Set(item) => Described::Set(boxed(alloc, item)?),
        Described::Map(item) => Described::Map(boxed(alloc, item)?),
        Described::Array(n, item) => Described::Array(*n, boxed(alloc, item)?),
        Described::Tuple(members) => Described::Tuple(boxed(alloc, members)?),
        Described::Struct(fields) => Described::Struct(boxed(alloc, fields)?),
        Described::Joined(first, second) => {
            let first = boxed(alloc, first)?;
            Described::Joined(first, boxed(alloc, second)?)
        }
        Described::Field(name, content) => {
            let name = String::from_str(alloc, name.as_str())?;
            Described::Field(name, boxed(alloc, content)?)
        }
        Described::Enum(size, cases) => Described::Enum(*size, boxed_cases(alloc, cases)?),
    })
}

/// The same type once more, in a box of its own.
#[cycle(copying)]
fn boxed(alloc: Global, described: &Described) -> Result<Box<Described>, AllocError>
    ensures { IfOk result (λ d. seen d.value ≡ seen described.now) }
{
    let described = copied(alloc, described)?;
    Ok(Box::new(alloc, described)?)
}

/// The same cases once more, in a box of their own.
#[cycle(copying)]
fn boxed_cases(alloc: Global, cases: &Cases) -> Result<Box<Cases>, AllocError>
    ensures { IfOk result (λ d. seen_cases d.value ≡ seen_cases cases.now) }
{
    let cases = match cases {
        Cases::Last(tag, content) => Cases::Last(*tag, boxed(alloc, content)?),
        Cases::Case(tag, content, others) => {
            let content = boxed(alloc, content)?;
            Cases::Case(*tag, content, boxed_cases(alloc, others)?)
        }
    };
    Ok(Box::new(alloc, cases)?)
}

/// Whether a value of the type begins with a part of its own.
fn has_own_part(described: &Described) -> bool {
    match described {
        Described::Boxed(_)
        | Described::Array(..)
        | Described::Tuple(_)
        | Described::Struct(_)
        | Described::Joined(..)
        | Described::Field(..) => false,
        _ => true,
    }
}

/// Whether what is to come begins with a part at its place.
fn is_part(awaited: &Awaited) -> bool {
    match awaited {
        Awaited::Part => true,
        Awaited::Whole(described) => has_own_part(described),
        Awaited::Members(..) | Awaited::Items(..) => false,
    }
}

impl Upcoming {
    /// All of the type is to come.
    pub(crate) fn of(alloc: Global, described: &Described) -> Result<Upcoming, AllocError> {
        let mut it = Upcoming {
            frames: Vec::new(alloc),
        };
        let whole = copied(alloc, described)?;
        it.put(String::new(alloc), Awaited::Whole(whole))?;
        it.settle(alloc)?;
        Ok(it)
    }

    /// This comes next, at this place.
    fn put(&mut self, place: String, awaited: Awaited) -> Result<(), AllocError> {
        self.frames.push(Frame { place, awaited })?;
        Ok(())
    }

    /// What a type is made of comes next that has no part of its own in front.
    fn open_whole(
        &mut self,
        alloc: Global,
        place: String,
        described: Described,
    ) -> Result<(), AllocError> {
        match described {
            Described::Boxed(content) => {
                self.put(place, Awaited::Whole(Box::into_inner(content)))
            }
            Described::Array(n, item) => {
                self.put(place, Awaited::Items(Box::into_inner(item), 0, n))
            }
            Described::Tuple(parts) | Described::Struct(parts) => {
                self.put(place, Awaited::Members(Box::into_inner(parts), 0))
            }
            Described::Joined(first, second) => {
                let same = String::from_str(alloc, place.as_str())?;
                self.put(same, Awaited::Members(Box::into_inner(second), 1))?;
                self.put(place, Awaited::Members(Box::into_inner(first), 0))
            }
            Described::Field(name, content) => {
                let field = format!(in alloc; "{place}.{name}")?;
                self.put(field, Awaited::Whole(Box::into_inner(content)))
            }
            other => self.put(place, Awaited::Whole(other)),
        }
    }

    /// The members come next, the first of which has this number.
    fn open_members(
        &mut self,
        alloc: Global,
        place: String,
        members: Described,
        number: usize,
    ) -> Result<(), AllocError> {
        match members {
            Described::Joined(first, others) => {
                let same = String::from_str(alloc, place.as_str())?;
                let next = number.saturating_add(1);
                self.put(same, Awaited::Members(Box::into_inner(others), next))?;
                self.put(place, Awaited::Members(Box::into_inner(first), number))
            }
            Described::Field(name, content) => {
                let field = format!(in alloc; "{place}.{name}")?;
                self.put(field, Awaited::Whole(Box::into_inner(content)))
            }
            other => {
                let member = format!(in alloc; "{place}.{number}")?;
                self.put(member, Awaited::Whole(other))
            }
        }
    }

    /// The item with this number comes next, and then the others, if there are so many.
    fn open_items(
        &mut self,
        alloc: Global,
        place: String,
        item: Described,
        i: usize,
        n: usize,
    ) -> Result<(), AllocError> {
        if i >= n {
            return Ok(());
        }
        let inner = format!(in alloc; "{place}[{i}]")?;
        let one = copied(alloc, &item)?;
        self.put(place, Awaited::Items(item, i + 1, n))?;
        self.put(inner, Awaited::Whole(one))
    }

    /// What this is made of comes next.
    fn open(&mut self, alloc: Global, place: String, awaited: Awaited) -> Result<(), AllocError> {
        match awaited {
            Awaited::Whole(described) => self.open_whole(alloc, place, described),
            Awaited::Members(members, number) => {
                self.open_members(alloc, place, members, number)
            }
            Awaited::Items(item, i, n) => self.open_items(alloc, place, item, i, n),
            Awaited::Part => self.put(place, Awaited::Part),
        }
    }

    /// Opens what comes next until it begins with a part of its own, or nothing comes.
    fn settle(&mut self, alloc: Global) -> Result<(), AllocError> {
        for _i in 0..u64::MAX {
            let Some(frame) = self.frames.pop() else {
                return Ok(());
            };
            let Frame { place, awaited } = frame;
            if is_part(&awaited) {
                return self.put(place, awaited);
            }
            self.open(alloc, place, awaited)?;
        }
        Err(AllocError)
    }

    /// The place of what comes next, or of nothing.
    pub(crate) fn place(&self) -> &str {
        match self.frames.last() {
            Some(frame) => frame.place.as_str(),
            None => "",
        }
    }

    /// What stands behind an option's tag comes next, or what is refused.
    fn put_option(
        &mut self,
        place: String,
        content: Described,
        number: Option<usize>,
    ) -> Result<(), AllocError> {
        match number {
            Some(0) | None => Ok(()),
            Some(1) => self.put(place, Awaited::Whole(content)),
            Some(_) => self.put(place, Awaited::Part),
        }
    }

    /// What stands behind a result's tag comes next, or what is refused.
    fn put_result(
        &mut self,
        place: String,
        one: Described,
        other: Described,
        number: Option<usize>,
    ) -> Result<(), AllocError> {
        match number {
            None => Ok(()),
            Some(0) => self.put(place, Awaited::Whole(one)),
            Some(1) => self.put(place, Awaited::Whole(other)),
            Some(_) => self.put(place, Awaited::Part),
        }
    }

    /// So many items come next.
    fn put_items(
        &mut self,
        place: String,
        item: Described,
        number: Option<usize>,
    ) -> Result<(), AllocError> {
        match number {
            None => Ok(()),
            Some(n) => self.put(place, Awaited::Items(item, 0, n)),
        }
    }

    /// Of the cases the one with the tag comes next, or what is refused.
    fn put_case(&mut self, place: String, cases: Cases, tag: usize) -> Result<(), AllocError> {
        match cases {
            Cases::Last(named, content) => {
                if named == tag {
                    self.put(place, Awaited::Whole(Box::into_inner(content)))
                } else {
                    self.put(place, Awaited::Part)
                }
            }
            Cases::Case(named, content, others) => {
                if named == tag {
                    self.put(place, Awaited::Whole(Box::into_inner(content)))
                } else {
                    self.put_case(place, Box::into_inner(others), tag)
                }
            }
        }
    }

    /// What stands behind the first part of a value comes next, as that part's number says.
    fn put_behind(
        &mut self,
        place: String,
        described: Described,
        number: Option<usize>,
    ) -> Result<(), AllocError> {
        match described {
            Described::Text | Described::ByteList(_) => self.put(place, Awaited::Part),
            Described::Option(content) => {
                self.put_option(place, Box::into_inner(content), number)
            }
            Described::Result(one, other) => {
                let one = Box::into_inner(one);
                self.put_result(place, one, Box::into_inner(other), number)
            }
            Described::List(_, item) | Described::Set(item) | Described::Map(item) => {
                self.put_items(place, Box::into_inner(item), number)
            }
            Described::Enum(_, cases) => match number {
                Some(tag) => self.put_case(place, Box::into_inner(cases), tag),
                None => Ok(()),
            },
            _ => Ok(()),
        }
    }

    /// Passes the part that comes next.
    pub(crate) fn pass(&mut self, alloc: Global, part: &Shown) -> Result<(), AllocError> {
        if let Some(frame) = self.frames.pop() {
            let Frame { place, awaited } = frame;
            match awaited {
                Awaited::Whole(described) => {
                    self.put_behind(place, described, number_of(part))?;
                }
                Awaited::Part | Awaited::Members(..) | Awaited::Items(..) => {}
            }
            self.settle(alloc)?;
        }
        Ok(())
    }
}

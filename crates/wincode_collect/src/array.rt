//! Arrays of any length, made item by item from a source that may fail.
ghost use Rattle.std.specs.Prelude.{◌≡◌, ℕ, ◌<◌, ◌-◌, ◌∷◌, List, length, MatchResult, Option, Some, Result, Ok, Err, IfOk, IfErr, OnOk, OnErr};
ghost use Rattle.wincode_collect.specs.Sourced.{inner_of};
ghost use Rattle.wincode_collect.specs.Calls.{GaveEach, Stops, Gave, Failed, Attempts};

mod in_place;

use crate::array::in_place::{Fill, filled};
use core::array::empty;
use std::alloc::AllocError;
use std::mem::replace;

/// Items one after another, any of which may be refused.
pub trait ItemSource<T, E> {
    // what a call may answer, and where it leads
    ghost gives: { Self → Result T E → Self → Type 0 };

    fn next(&mut self) -> Result<T, E>
        ensures { gives self.old result self.new };
}

/// The next N items of the source, or its first refusal. It takes no memory, and what was given
/// before a refusal is dropped.
pub fn array_of<T: Drop, E: Drop, F: ItemSource<T, E>, const N: usize>(
    f: &mut F,
) -> Result<[T; N], E>
    ensures ok { IfOk result (λ ys. (length ys ≡ N) × Gave F.gives f.old ys f.new) }
    ensures err { IfErr result (λ e. Failed F.gives f.old N e f.new) }
{
    if N == 0 {
        return done(empty());
    }
    let first = f.next()?;
    array_from(first, f)
}

/// A source by value. A source that holds a reference is put in, asked for an array and taken out.
#[derive(Drop)]
pub struct Sourced<F> {
    source: F,
}

impl<F> Sourced<F> {
    pub fn new(source: F) -> Sourced<F>
        ensures { inner_of result ≡ source }
    {
        Sourced { source }
    }

    /// Puts what `array_of` answers into the destination. Refused, the destination is as it was.
    pub fn fill<T: Drop, E: Drop, const N: usize>(
        &mut self,
        dst: &mut Option<[T; N]>,
    ) -> Result<(), E>
    where
        F: ItemSource<T, E>,
        ensures ok { OnOk result ((ys : List T) × (dst.new ≡ Some ys) × (length ys ≡ N) × Gave F.gives (inner_of self.old) ys (inner_of self.new)) }
        ensures err { IfErr result (λ e. Failed F.gives (inner_of self.old) N e (inner_of self.new)) }
        ensures same { OnErr result (dst.new ≡ dst.old) }
    {
        let made = array_of(&mut self.source);
        put(dst, made)
    }

    pub fn into_inner(self) -> F
        ensures { result ≡ inner_of self }
    {
        self.source
    }
}

/// The item at hand and then the next ones of the source, or its first refusal.
fn array_from<T: Drop, E: Drop, F: ItemSource<T, E>, const N: usize>(
    first: T,
    f: &mut F,
) -> Result<[T; N], E>
    requires { 0 < N }
    ensures ok { IfOk result (λ ys. (length ys ≡ N) × ((more : List T) × (ys ≡ first ∷ more) × Gave F.gives f.old more f.new)) }
    ensures err { IfErr result (λ e. Failed F.gives f.old (N - 1) e f.new) }
{
    let mut filling = Filling::new(Attempt {
        ahead: Some(first),
        source: f,
        error: None,
    });
    let result = filling.array();
    let Attempt {
        ahead: _,
        source,
        error,
    } = filling.into_inner();
    // No effect at run time. The proof reads what `f` holds from this use of `source`.
    let _ = &*source;
    match result {
        Ok(items) => done(items),
        Err(_) => match error {
            Some(refusal) => Err(refusal),
            None => unreachable!(),
        },
    }
}

/// `Ok` of an array, which the borrow checker does not make where its length is a parameter.
fn done<T, E>(value: T) -> Result<T, E>
    ensures { result ≡ Ok value }
{
    Ok(value)
}

/// Puts a value into the destination, or gives the refusal.
fn put<A: Drop, E>(dst: &mut Option<A>, made: Result<A, E>) -> Result<(), E>
    ensures ok { OnOk result ((value : A) × (made ≡ Ok value) × (dst.new ≡ Some value)) }
    ensures err { IfErr result (λ e. (made ≡ Err e) × (dst.new ≡ dst.old)) }
{
    *dst = Some(made?);
    Ok(())
}

/// A source with an item at hand, at first, and with its refusal kept.
#[derive(Drop)]
struct Attempt<'f, T, E, F> {
    ahead: Option<T>,
    source: &'f mut F,
    error: Option<E>,
}

impl<'f, T: Drop, E: Drop, F: ItemSource<T, E>> Fill<T> for Attempt<'f, T, E, F> {
    ghost gives = { λ s r t. (t.source.ghost_name ≡ s.source.ghost_name) × Attempts F.gives s.ahead s.source.now r t.ahead t.source.now t.error };

    fn next(&mut self) -> Option<T> {
        match replace(&mut self.ahead, None) {
            Some(item) => Some(item),
            None => match self.source.next() {
                Ok(item) => Some(item),
                Err(refusal) => {
                    self.error = Some(refusal);
                    None
                }
            },
        }
    }
}

/// What fills an array, by value.
#[derive(Drop)]
struct Filling<F> {
    source: F,
}

impl<F> Filling<F> {
    fn new(source: F) -> Filling<F>
        ensures { result.source ≡ source }
    {
        Filling { source }
    }

    fn array<T: Drop, const N: usize>(&mut self) -> Result<[T; N], AllocError>
    where
        F: Fill<T>,
        requires { T }
        ensures { MatchResult result (λ ys. (length ys ≡ N) × GaveEach F.gives self.old.source ys self.new.source) (λ _. Stops F.gives self.old.source N self.new.source) }
    {
        filled(&mut self.source)
    }

    fn into_inner(self) -> F
        ensures { result ≡ self.source }
    {
        self.source
    }
}

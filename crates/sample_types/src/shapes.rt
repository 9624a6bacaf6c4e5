//! An enum with a type parameter, one with a lifetime, and a struct that holds no value of its parameter.
mod schemas;

use std::marker::PhantomData;

/// What was looked for.
#[derive(Debug, Drop)]
pub enum Found<T> {
    Nothing,
    One(T),
    Many { items: Vec<T>, more: bool },
}

/// A word of a text, or a number.
#[derive(Debug, Clone, Copy)]
pub enum Token<'a> {
    Word(&'a str),
    Number(u64),
    End,
}

/// The number of a thing of this kind.
#[derive(Debug, Drop)]
pub struct Id<T> {
    pub number: u64,
    pub kind: PhantomData<T>,
}

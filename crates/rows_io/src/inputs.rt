//! Words of a row: numbers, and bytes.
use std::alloc::Global;
use std::test::Fail;
use testkit_io::digits;

/// The number that the word is, if it is one; `max` is the greatest.
pub fn number_in(word: &str) -> Option<usize> {
    if word == "max" {
        return Some(usize::MAX);
    }
    match word.parse::<usize>() {
        Ok(number) => Some(number),
        Err(_) => None,
    }
}

/// The number that the word is.
pub fn number_of(word: &str) -> Result<usize, Fail> {
    Ok(number_in(word).ok_or("a number")?)
}

/// A word, and the number behind it, if there is one.
pub fn call_of(step: &str) -> Result<(&str, usize), Fail> {
    match step.rsplit_once(' ') {
        Some((word, number)) => Ok((word, number_of(number)?)),
        None => Ok((step, 0)),
    }
}

/// `n` bytes, each unlike its neighbours.
fn fixed(alloc: Global, n: usize) -> Result<Vec<u8>, Fail> {
    let mut bytes = Vec::new(alloc);
    let mut next = 0u8;
    for _ in 0..n {
        bytes.push(next)?;
        next = next.wrapping_add(7);
    }
    Ok(bytes)
}

/// `n` times the byte.
fn repeated(alloc: Global, byte: u8, n: usize) -> Result<Vec<u8>, Fail> {
    let mut bytes = Vec::new(alloc);
    bytes.resize(n, byte)?;
    Ok(bytes)
}

/// The bytes that the words name.
pub fn bytes_of(alloc: Global, words: &str) -> Result<Vec<u8>, Fail> {
    match words.split_once(' ') {
        Some(("fixed", n)) => fixed(alloc, number_of(n)?),
        Some(("zeros", n)) => repeated(alloc, 0, number_of(n)?),
        Some(("ones", n)) => repeated(alloc, 1, number_of(n)?),
        Some(_) => Err(Fail::from("bytes")),
        None => digits::bytes_of(alloc, words),
    }
}

/// The bytes as digits, or as `fixed N` where they are more than three of those.
pub fn words_of(alloc: Global, bytes: &[u8]) -> Result<String, Fail> {
    let n = bytes.len();
    if n > 3 && bytes == fixed(alloc, n)?.as_slice() {
        return Ok(format!(in alloc; "fixed {n}")?);
    }
    digits::digits_of(alloc, bytes)
}

//! What is shown of a value: its parts, in the order in which they stand.
use crate::described::{Integer, LengthScheme, StdType};

/// A part of a value.
#[derive(Debug, Drop)]
pub enum Shown {
    /// An unsigned number.
    Natural {
        integer: Integer,
        value: u128,
    },
    /// A signed number.
    Signed {
        integer: Integer,
        value: i128,
    },
    /// A value of a type of std's, by the number whose bytes it has, the lowest first.
    Std {
        kind: StdType,
        number: u128,
    },
    /// The address of a socket: that of a host, by the number whose bytes it has, the lowest first, and a port.
    Socket {
        kind: StdType,
        host: u128,
        port: u16,
    },
    Flag(bool),
    Character(char),
    /// The text behind its length.
    Text(String),
    /// The bytes behind their length, or of an array.
    Bytes(Vec<u8>),
    /// How many bytes or items stand behind it.
    Length {
        scheme: LengthScheme,
        count: usize,
    },
    /// A tag of `size` bytes.
    Tag {
        size: usize,
        tag: usize,
    },
    /// A value without bytes.
    Nothing,
}

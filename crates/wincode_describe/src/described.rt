//! A type as a value: one case for each kind of schema.

/// Which integer.
#[derive(Debug, Clone, Copy, PartialEq, Eq)]
pub enum Integer {
    U8,
    U16,
    U32,
    U64,
    U128,
    Usize,
    I8,
    I16,
    I32,
    I64,
    I128,
    Isize,
}

/// Which of std's types, each of which is one part of so many bytes.
#[derive(Debug, Clone, Copy, PartialEq, Eq)]
pub enum StdType {
    F32,
    F64,
    Duration,
    SystemTime,
    Ipv4Addr,
    Ipv6Addr,
    SocketAddrV4,
    SocketAddrV6,
}

/// How the length of a list is written.
#[derive(Debug, Clone, Copy, PartialEq, Eq)]
pub enum LengthScheme {
    /// Eight bytes, and what the items count is held against the limit of 4 MiB.
    Eight,
    /// One to three bytes, up to 65535.
    Short,
}

/// How many bytes a tag has.
#[derive(Debug, Clone, Copy, PartialEq, Eq)]
pub enum TagSize {
    U8,
    U16,
    U32,
    U64,
}

/// A type, as the schema that reads its values.
#[cycle(described)]
#[derive(Debug, Drop)]
pub enum Described {
    Integer(Integer),
    /// `NonZeroU8` and the others.
    NonZero(Integer),
    Std(StdType),
    Bool,
    Char,
    /// `()`
    Unit,
    /// `String`
    Text,
    /// `Vec<u8>`, of which all bytes are one part.
    ByteList(LengthScheme),
    /// `[u8; N]`, of which all bytes are one part.
    ByteArray(usize),
    Option(Box<Described>),
    Result(Box<Described>, Box<Described>),
    /// `Box<T>`
    Boxed(Box<Described>),
    /// `Vec<T>`
    List(LengthScheme, Box<Described>),
    /// `BTreeSet<T>`, as the list of its items.
    Set(Box<Described>),
    /// `BTreeMap<K, V>`, as the list of its pairs: what is held is the two of them, `Joined`.
    Map(Box<Described>),
    /// `[T; N]`
    Array(usize, Box<Described>),
    /// `(A, B)`: its members, `Joined` from the right.
    Tuple(Box<Described>),
    /// `struct { a: A, b: B }`: its fields, `Joined` from the right.
    Struct(Box<Described>),
    /// Two parts of a tuple, a struct or a map, one after the other.
    Joined(Box<Described>, Box<Described>),
    /// A field of a struct.
    Field(String, Box<Described>),
    /// A tag, and then the case that it names.
    Enum(TagSize, Box<Cases>),
}

/// The cases of an enum.
#[cycle(described)]
#[derive(Debug, Drop)]
pub enum Cases {
    /// The last case: its tag, and what stands behind it.
    Last(usize, Box<Described>),
    /// A case, and the others.
    Case(usize, Box<Described>, Box<Cases>),
}

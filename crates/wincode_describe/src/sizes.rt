//! What is known of the sizes of described types.
ghost use Rattle.std.specs.Prelude.{◌≡◌, true};
ghost use Rattle.wincode_base.specs.Tags.{sides_meta};
ghost use Rattle.wincode_describe.specs.Types.{std_read, described_read, cases_read, integer_read, tag_bytes};

use crate::described::{Cases, Described, Integer, StdType, TagSize};
use wincode_base::meta::TypeMeta;
use wincode_base::sizes::{pair_meta, reference_meta, result_meta, times_meta};

/// How many bytes a tag has.
pub(crate) fn tag_bytes(size: TagSize) -> usize
    ensures { result ≡ tag_bytes size }
{
    match size {
        TagSize::U8 => 1,
        TagSize::U16 => 2,
        TagSize::U32 => 4,
        TagSize::U64 => 8,
    }
}

/// Where every list of so many bytes is a value.
fn plain(size: usize) -> TypeMeta
    ensures { result ≡ TypeMeta.Static size true }
{
    TypeMeta::Static {
        size,
        zero_copy: true,
    }
}

/// The size of an integer.
fn integer_meta(integer: Integer) -> TypeMeta
    ensures { result ≡ (integer_read integer).meta }
{
    match integer {
        Integer::U8 | Integer::I8 => plain(1),
        Integer::U16 | Integer::I16 => plain(2),
        Integer::U32 | Integer::I32 => plain(4),
        Integer::U64 | Integer::I64 => plain(8),
        Integer::U128 | Integer::I128 => plain(16),
        Integer::Usize | Integer::Isize => TypeMeta::Static {
            size: 8,
            zero_copy: false,
        },
    }
}

/// The size of a value of a type of std's.
fn std_meta(kind: StdType) -> TypeMeta
    ensures { result ≡ (std_read kind).meta }
{
    match kind {
        StdType::F32 | StdType::Ipv4Addr => reference_meta(plain(4)),
        StdType::F64 => reference_meta(plain(8)),
        StdType::Duration | StdType::SystemTime => reference_meta(plain(12)),
        StdType::Ipv6Addr => reference_meta(plain(16)),
        StdType::SocketAddrV4 => reference_meta(plain(6)),
        StdType::SocketAddrV6 => reference_meta(plain(18)),
    }
}

/// The size of one of two cases.
fn sides_meta(one: TypeMeta, other: TypeMeta) -> TypeMeta
    ensures { result ≡ sides_meta one other }
{
    match (one, other) {
        (TypeMeta::Static { size, .. }, TypeMeta::Static { size: same, .. }) if size == same => {
            TypeMeta::Static {
                size,
                zero_copy: false,
            }
        }
        _ => TypeMeta::Dynamic,
    }
}

/// The size that every encoding of the type has, in bytes, or none.
#[cycle(sizes)]
pub fn type_meta(described: &Described) -> TypeMeta
    ensures { result ≡ (described_read described.now).meta }
{
    match described {
        Described::Integer(integer) => integer_meta(*integer),
        Described::NonZero(integer) => reference_meta(integer_meta(*integer)),
        Described::Std(kind) => std_meta(*kind),
        Described::Bool => TypeMeta::Static {
            size: 1,
            zero_copy: false,
        },
        Described::Unit => plain(0),
        Described::ByteArray(n) => plain(*n),
        Described::Char
        | Described::Text
        | Described::ByteList(_)
        | Described::Option(_)
        | Described::List(..)
        | Described::Set(_)
        | Described::Map(_) => TypeMeta::Dynamic,
        Described::Result(one, other) => result_meta(4, type_meta(one), type_meta(other)),
        Described::Boxed(content) => reference_meta(type_meta(content)),
        Described::Array(n, item) => times_meta(*n, type_meta(item)),
        Described::Tuple(parts) | Described::Struct(parts) => type_meta(parts),
        Described::Joined(first, second) => pair_meta(type_meta(first), type_meta(second)),
        Described::Field(_, content) => type_meta(content),
        Described::Enum(tag, cases) => pair_meta(plain(tag_bytes(*tag)), meta_of_cases(cases)),
    }
}

/// The size that all cases have, or none.
#[cycle(sizes)]
fn meta_of_cases(cases: &Cases) -> TypeMeta
    ensures { result ≡ (cases_read cases.now).meta }
{
    match cases {
        Cases::Last(_, content) => type_meta(content),
        Cases::Case(_, content, others) => sides_meta(type_meta(content), meta_of_cases(others)),
    }
}

/// What an integer counts.
fn integer_prealloc(integer: Integer) -> usize
    ensures { result ≡ (integer_read integer).prealloc }
{
    match integer {
        Integer::U8 | Integer::I8 => 1,
        Integer::U16 | Integer::I16 => 2,
        Integer::U32 | Integer::I32 => 4,
        Integer::U64 | Integer::I64 | Integer::Usize | Integer::Isize => 8,
        Integer::U128 | Integer::I128 => 16,
    }
}

/// What a value of a type of std's counts.
fn std_prealloc(kind: StdType) -> usize
    ensures { result ≡ (std_read kind).prealloc }
{
    match kind {
        StdType::F32 | StdType::Ipv4Addr => 4,
        StdType::F64 => 8,
        StdType::Duration | StdType::SystemTime => 12,
        StdType::Ipv6Addr => 16,
        StdType::SocketAddrV4 => 6,
        StdType::SocketAddrV6 => 18,
    }
}

/// What each value of the type counts, in bytes, against the limit of a list of them; at least 1.
#[cycle(counts)]
pub fn prealloc_size(described: &Described) -> usize
    ensures { result ≡ (described_read described.now).prealloc }
{
    match described {
        Described::Integer(integer) | Described::NonZero(integer) => integer_prealloc(*integer),
        Described::Std(kind) => std_prealloc(*kind),
        Described::Bool | Described::Unit => 1,
        Described::Char => 4,
        Described::Boxed(_) => 8,
        Described::Text
        | Described::ByteList(_)
        | Described::List(..)
        | Described::Set(_)
        | Described::Map(_) => 24,
        Described::ByteArray(n) => (*n).max(1),
        Described::Option(content) => prealloc_size(content),
        Described::Result(one, other) => prealloc_size(one).max(prealloc_size(other)),
        Described::Array(n, item) => (*n).saturating_mul(prealloc_size(item)).max(1),
        Described::Tuple(parts) | Described::Struct(parts) => prealloc_size(parts),
        Described::Joined(first, second) => {
            prealloc_size(first).saturating_add(prealloc_size(second))
        }
        Described::Field(_, content) => prealloc_size(content),
        Described::Enum(_, cases) => prealloc_of_cases(cases),
    }
}

/// What the case counts that counts most.
#[cycle(counts)]
fn prealloc_of_cases(cases: &Cases) -> usize
    ensures { result ≡ (cases_read cases.now).prealloc }
{
    match cases {
        Cases::Last(_, content) => prealloc_size(content),
        Cases::Case(_, content, others) => prealloc_size(content).max(prealloc_of_cases(others)),
    }
}

//! The bytes of parts.
ghost use Rattle.std.specs.Int.{byte_len};
ghost use Rattle.std.specs.Prelude.{◌≡◌, length};
ghost use Rattle.wincode_describe.specs.Parts.{seen, part_bytes, width_of, length_bytes, std_size};

use crate::described::{Integer, LengthScheme, StdType};
use crate::shown::Shown;

/// How many bytes an integer has.
pub(crate) fn integer_size(integer: Integer) -> usize
    ensures { result ≡ byte_len (width_of integer) }
{
    match integer {
        Integer::U8 | Integer::I8 => 1,
        Integer::U16 | Integer::I16 => 2,
        Integer::U32 | Integer::I32 => 4,
        Integer::U64 | Integer::I64 | Integer::Usize | Integer::Isize => 8,
        Integer::U128 | Integer::I128 => 16,
    }
}

/// How many bytes a value of a type of std's has.
pub(crate) fn std_size(kind: StdType) -> usize
    ensures { result ≡ std_size kind }
{
    match kind {
        StdType::F32 | StdType::Ipv4Addr => 4,
        StdType::F64 => 8,
        StdType::Duration | StdType::SystemTime => 12,
        StdType::Ipv6Addr => 16,
        StdType::SocketAddrV4 => 6,
        StdType::SocketAddrV6 => 18,
    }
}

/// How many bytes a length has.
fn length_size(scheme: LengthScheme, count: usize) -> usize
    ensures { result ≡ length (length_bytes scheme count) }
{
    match scheme {
        LengthScheme::Eight => 8,
        LengthScheme::Short if count < 128 => 1,
        LengthScheme::Short if count < 16384 => 2,
        LengthScheme::Short => 3,
    }
}

/// How many bytes a part has.
pub fn part_size(part: &Shown) -> usize
    ensures { result ≡ length (part_bytes (seen part.now)) }
{
    match part {
        Shown::Natural { integer, .. } => integer_size(*integer),
        Shown::Signed { integer, .. } => integer_size(*integer),
        Shown::Std { kind, .. } => std_size(*kind),
        Shown::Socket { kind, .. } => std_size(*kind),
        Shown::Flag(_) => 1,
        Shown::Character(c) => c.len_utf8(),
        Shown::Text(text) => text.len(),
        Shown::Bytes(bytes) => bytes.len(),
        Shown::Length { scheme, count } => length_size(*scheme, *count),
        Shown::Tag { size, .. } => *size,
        Shown::Nothing => 0,
    }
}

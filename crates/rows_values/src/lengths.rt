//! Lengths by each length scheme.
use std::alloc::Global;
use std::test::Fail;
use testkit_schemas::byte_len::ByteLen;
use testkit_schemas::rows::digits_of;
use wincode::io::Lifetime;
use wincode::len::{BincodeLen, SeqLen, ShortU16, ShortU16Len, short_vec};

/// What reading a length answers, where an item counts 1, and how many bytes are left.
fn read_as<Len: SeqLen>(alloc: Global, bytes: &[u8]) -> Result<String, Fail> {
    let mut reader = bytes;
    let answer = Len::read::<Lifetime, &[u8]>(&mut reader, 1);
    let left = reader.len();
    match answer {
        Ok(found) => Ok(format!(in alloc; "{found} {left}")?),
        Err(error) => Ok(format!(in alloc; "{error:?} {left}")?),
    }
}

/// So by the length scheme of the name.
pub fn read(alloc: Global, name: &str, bytes: &[u8]) -> Result<String, Fail> {
    match name {
        "BincodeLen<3>" => read_as::<BincodeLen<3>>(alloc, bytes),
        "ShortU16Len" => read_as::<ShortU16Len>(alloc, bytes),
        "ByteLen" => read_as::<ByteLen>(alloc, bytes),
        _ => Err(Fail::from("a length scheme")),
    }
}

/// What writing a length answers, with the text, and how many bytes are said to be needed.
fn written_as<Len: SeqLen>(alloc: Global, len: usize) -> Result<String, Fail> {
    let mut out = Vec::new(alloc);
    let answer = Len::write(&mut out, len);
    let text = digits_of(alloc, out.as_slice())?;
    let needed = Len::write_bytes_needed(len);
    Ok(format!(in alloc; "{answer:?} {text} {needed:?}")?)
}

/// So by the length scheme of the name.
pub fn written(alloc: Global, name: &str, len: usize) -> Result<String, Fail> {
    match name {
        "BincodeLen<3>" => written_as::<BincodeLen<3>>(alloc, len),
        "ShortU16Len" => written_as::<ShortU16Len>(alloc, len),
        "short_vec::ShortU16Len" => written_as::<short_vec::ShortU16Len>(alloc, len),
        "ShortU16" => written_as::<ShortU16>(alloc, len),
        "ByteLen" => written_as::<ByteLen>(alloc, len),
        _ => Err(Fail::from("a length scheme")),
    }
}

//! Each short length, as a value and as a length.
use std::alloc::Global;
use std::test::Fail;
use wincode::io::Lifetime;
use wincode::len::{SeqLen, ShortU16};
use wincode::{SchemaGet, SchemaWrite};

/// The encoding of a number by the rule: 128 added to n mod 128, and then n div 128 in its turn, up to three bytes.
fn text_by_rule(alloc: Global, n: u16) -> Result<Vec<u8>, Fail> {
    let mut text = Vec::new(alloc);
    if n >= 128 {
        text.push((128 + n % 128) as u8)?;
    }
    if n >= 16384 {
        text.push((128 + n / 128 % 128) as u8)?;
        text.push((n / 16384) as u8)?;
    } else if n >= 128 {
        text.push((n / 128) as u8)?;
    } else {
        text.push(n as u8)?;
    }
    Ok(text)
}

/// Whether a number is written and read by the rule, as a value and as a length.
fn is_by_rule(alloc: Global, n: u16) -> Result<bool, Fail> {
    let text = text_by_rule(alloc, n)?;
    let mut out = Vec::new(alloc);
    <ShortU16 as SchemaWrite>::write(&mut out, &ShortU16(n))?;
    let is_written = out == text;
    <ShortU16 as SeqLen>::write(&mut out, n as usize)?;
    let is_twice = out.strip_prefix(text.as_slice()) == Some(text.as_slice());
    let mut reader = out.as_slice();
    let value = <ShortU16 as SchemaGet<Lifetime>>::get(alloc, &mut reader)?;
    let len = <ShortU16 as SeqLen>::read::<Lifetime, &[u8]>(&mut reader, 1)?;
    let is_read = value.0 == n && len == n as usize && reader.is_empty();
    Ok(is_written && is_twice && is_read)
}

#[test]
fn each_short_length(rt: HostRuntime) -> Result<(), Fail> {
    for n in 0..=u16::MAX {
        assert!(rt; is_by_rule(rt.alloc(), n)?, "{n}");
    }
    Ok(())
}

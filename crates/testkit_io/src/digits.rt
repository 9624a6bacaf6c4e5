//! Bytes as digits of base 16.
ghost use Rattle.std.specs.Prelude.{◌<◌, IfOk};

use std::alloc::Global;
use std::test::Fail;

/// The number that a digit is.
fn digit(b: u8) -> Result<u8, Fail>
    ensures { IfOk result (λ d. d < 16) }
{
    match b {
        b'0'..=b'9' => Ok(b - b'0'),
        b'a'..=b'f' => Ok(b - b'a' + 10),
        _ => Err(Fail::from("a digit")),
    }
}

/// The bytes that these digits are.
pub fn bytes_of(alloc: Global, digits: &str) -> Result<Vec<u8>, Fail> {
    let mut bytes = Vec::new(alloc);
    for pair in digits.as_bytes().chunks_exact(2) {
        if let [high, low] = pair {
            bytes.push(digit(*high)? * 16 + digit(*low)?)?;
        }
    }
    Ok(bytes)
}

/// The digits of these bytes.
pub fn digits_of(alloc: Global, bytes: &[u8]) -> Result<String, Fail> {
    let mut digits = String::new(alloc);
    for b in bytes {
        digits.push_str(format!(in alloc; "{b:02x}")?.as_str())?;
    }
    Ok(digits)
}

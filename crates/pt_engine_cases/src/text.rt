//! Bytes as a line writes them.
use std::alloc::{AllocError, Global};

/// The bytes that a text spells: `%` and two hexadecimal digits are one.
pub fn bytes_of(alloc: Global, text: &str) -> Result<Vec<u8>, AllocError> {
    let mut parts = text.split('%');
    let mut bytes = Vec::new(alloc);
    if let Some(first) = parts.next() {
        bytes.extend_from_slice(first.as_bytes())?;
    }
    for part in parts {
        push_escaped(&mut bytes, part.as_bytes())?;
    }
    Ok(bytes)
}

/// Adds what stands behind a `%`.
fn push_escaped(bytes: &mut Vec<u8>, part: &[u8]) -> Result<(), AllocError> {
    match part {
        [high, low, rest @ ..] => {
            bytes.push((hex(*high) << 4) | hex(*low))?;
            bytes.extend_from_slice(rest)
        }
        _ => bytes.extend_from_slice(part),
    }
}

fn hex(digit: u8) -> u8 {
    match digit {
        b'0'..=b'9' => digit - b'0',
        b'a'..=b'f' => digit - b'a' + 10,
        b'A'..=b'F' => digit - b'A' + 10,
        _ => 0,
    }
}

/// Bytes as they are printed: `/` for a line feed, and `%` with two hexadecimal digits for what isn't printable.
pub fn push_bytes(text: &mut String, bytes: &[u8]) -> Result<(), AllocError> {
    for byte in bytes {
        push_byte(text, *byte)?;
    }
    Ok(())
}

fn push_byte(text: &mut String, byte: u8) -> Result<(), AllocError> {
    match byte {
        b'\n' => text.push('/'),
        b'/' | b'%' => write!(text, "%{byte:02x}"),
        b' '..=b'~' => text.push(char::from(byte)),
        _ => write!(text, "%{byte:02x}"),
    }
}

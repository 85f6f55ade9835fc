ghost use Rattle.std.specs.Prelude.{◌≡◌, ◌<◌, ◌++◌, ◌∷◌, [], IfOk, codes};
ghost use Rattle.std.specs.List.{list_all, flat_map};
ghost use Rattle.pt_value.specs.Text.{CanShow, bytes_text, hex, hex_digit, is_plain, shown};

use crate::value::{Bin, Value};
use crate::written::Written;
use std::alloc::{AllocError, Global};

impl Value {
    /// The printed text: `NULL`, a decimal number, YYYY-MM-DD, bytes in single quotes, or where one of these is a quote, a
    /// backslash or no printable ASCII, `X'..'` with their hexadecimal digits.
    pub fn show(&self, alloc: Global) -> Result<Bin, AllocError>
        requires { CanShow self.now }
        ensures { IfOk result (λ text. text ≡ shown self.now) }
    {
        match self {
            Value::Null => Bin::from_slice(alloc, b"NULL"),
            Value::Int(n) => {
                let text = format!(in alloc; "{n}")?;
                Ok(Bin::of(text.into_bytes()))
            }
            Value::Day(day) => Bin::from_slice(alloc, &Written::of(*day).text()),
            Value::Bytes(bytes) => bytes_text(alloc, bytes.items()),
        }
    }
}

/// The text of a byte string.
fn bytes_text(alloc: Global, bytes: &[u8]) -> Result<Bin, AllocError>
    ensures { IfOk result (λ text. text ≡ bytes_text bytes.now) }
{
    if are_plain(bytes) {
        return quoted(alloc, bytes);
    }
    hexadecimal(alloc, bytes)
}

/// Whether each byte stands for itself within quotes.
fn are_plain(bytes: &[u8]) -> bool
    ensures { result ≡ list_all is_plain bytes.now }
{
    bytes.iter().all(|b| is_plain(*b))
}

/// Whether a byte stands for itself within quotes.
fn is_plain(b: u8) -> bool
    ensures { result ≡ is_plain b }
{
    32 <= b && b <= 126 && b != b'\'' && b != b'\\'
}

/// The bytes in quotes.
fn quoted(alloc: Global, bytes: &[u8]) -> Result<Bin, AllocError>
    ensures { IfOk result (λ text. text ≡ 39 ∷ bytes.now ++ 39 ∷ []) }
{
    let mut text = Vec::from_slice(alloc, b"'")?;
    text.extend_from_slice(bytes)?;
    text.push(b'\'')?;
    Ok(Bin::of(text))
}

/// The bytes in hexadecimal digits.
fn hexadecimal(alloc: Global, bytes: &[u8]) -> Result<Bin, AllocError>
    ensures { IfOk result (λ text. text ≡ codes "X'" ++ flat_map hex bytes.now ++ 39 ∷ []) }
{
    let mut text = Vec::from_slice(alloc, b"X'")?;
    for b in bytes {
        text.push(hex_digit(*b / 16))?;
        text.push(hex_digit(*b % 16))?;
    }
    text.push(b'\'')?;
    Ok(Bin::of(text))
}

/// The hexadecimal digit of a number.
fn hex_digit(n: u8) -> u8
    requires { n < 16 }
    ensures { result ≡ hex_digit n }
{
    if n < 10 { b'0' + n } else { b'A' + (n - 10) }
}

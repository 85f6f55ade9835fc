ghost use Rattle.std.specs.Prelude.{◌≡◌, ◌<◌, ◌≤◌, ◌++◌, true, false, length, All, IsTrue, IfOk, IfSome, OnOk};
ghost use Rattle.pt_token.specs.Bytes.{is_hex_digit};
ghost use Rattle.pt_token.specs.declared.quoting.Quoting.TheVariants.{Escaped, Within};
ghost use Rattle.pt_token.specs.Quoting.{added, behind_byte, content, ends, hex_bytes, hex_value, is_marked, text_end};

use crate::bytes::{behind, is_digit};
use pt_value::Bin;
use std::alloc::{AllocError, Global};

/// Where the next byte stands between two quotes.
#[derive(Clone, Copy)]
pub(crate) enum Quoting {
    /// In the text.
    Within,
    /// Behind a backslash.
    Escaped,
    /// Behind a quote, which ends the text where no second one follows.
    Marked,
}

impl Quoting {
    fn behind_byte(self, mark: u8, b: u8) -> Quoting
        ensures { result ≡ behind_byte mark self b }
    {
        match self {
            Quoting::Within if b == b'\\' => Quoting::Escaped,
            Quoting::Within if b == mark => Quoting::Marked,
            _ => Quoting::Within,
        }
    }

    /// Whether the text ended before a byte.
    fn ends(self, mark: u8, b: u8) -> bool
        ensures { result ≡ ends mark self b }
    {
        self.is_marked() && b != mark
    }

    fn is_marked(self) -> bool
        ensures { result ≡ is_marked self }
    {
        matches!(self, Quoting::Marked)
    }
}

/// How many bytes there are up to and with the quote that ends a text. `None` where it is open. It takes no memory.
pub(crate) fn text_end(mark: u8, bytes: &[u8]) -> Option<usize>
    ensures value { result ≡ text_end mark Within bytes.now }
    ensures some { IfSome result (λ n. 0 < n) }
    ensures within { IfSome result (λ n. n ≤ length bytes.now) }
{
    let mut at = Quoting::Within;
    for (i, b) in bytes.iter().enumerate() {
        if at.ends(mark, *b) {
            return Some(i);
        }
        at = at.behind_byte(mark, *b);
    }
    if at.is_marked() {
        Some(bytes.len())
    } else {
        None
    }
}

/// The text that bytes between two quotes spell.
pub(crate) fn content(alloc: Global, mark: u8, bytes: &[u8]) -> Result<Bin, AllocError>
    ensures { IfOk result (λ text. text ≡ content mark Within bytes.now) }
{
    let mut text = Bin::new(alloc);
    let mut at = Quoting::Within;
    for b in bytes {
        add(&mut text, at, *b)?;
        at = at.behind_byte(mark, *b);
    }
    Ok(text)
}

/// Adds what a byte of a text stands for.
fn add(text: &mut Bin, at: Quoting, b: u8) -> Result<(), AllocError>
    ensures { OnOk result (text.new ≡ text.old ++ added at b) }
{
    match at {
        Quoting::Within if b == b'\\' => Ok(()),
        Quoting::Within => text.push(b),
        Quoting::Escaped => add_escaped(text, b),
        Quoting::Marked => Ok(()),
    }
}

fn add_escaped(text: &mut Bin, b: u8) -> Result<(), AllocError>
    ensures { OnOk result (text.new ≡ text.old ++ added Escaped b) }
{
    match b {
        b'0' => text.push(0),
        b'b' => text.push(8),
        b't' => text.push(b'\t'),
        b'n' => text.push(b'\n'),
        b'r' => text.push(b'\r'),
        b'Z' => text.push(26),
        b'%' | b'_' => {
            text.push(b'\\')?;
            text.push(b)
        }
        _ => text.push(b),
    }
}

/// The bytes that pairs of hexadecimal digits spell.
pub(crate) fn hex_bytes(alloc: Global, digits: &[u8]) -> Result<Bin, AllocError>
    requires { All (λ b. IsTrue (is_hex_digit b)) digits.now }
    ensures { IfOk result (λ bytes. bytes ≡ hex_bytes digits.now) }
{
    let mut bytes = Bin::new(alloc);
    let mut rest = digits;
    while rest.len() >= 2 {
        bytes.push(16 * hex_value(rest[0]) + hex_value(rest[1]))?;
        rest = behind(rest, 2);
    }
    Ok(bytes)
}

fn hex_value(b: u8) -> u8
    requires { IsTrue (is_hex_digit b) }
    ensures value { result ≡ hex_value b }
    ensures small { result < 16 }
{
    if is_digit(b) {
        b - b'0'
    } else if b >= b'a' {
        b - b'a' + 10
    } else {
        b - b'A' + 10
    }
}

ghost use Rattle.std.specs.Prelude.{◌≡◌, ◌<◌, ◌≤◌, length, IsTrue, IfOk, IfSome};
ghost use Rattle.pt_token.specs.Stepping.{IsPart};
ghost use Rattle.pt_token.specs.Tokens.{hex, is_hex, is_long_sign, is_short_sign, next_token, number_token, opens_hex, quoted, sign, text, word};
ghost use Rattle.std.specs.Prelude.{slice_index};

use crate::bytes::{Class, begins_word, front, is_digit, is_quote};
use crate::quoting::{content, hex_bytes, text_end};
use pt_value::Bin;
use std::alloc::{AllocError, Global};

/// A token of a piece, at the bytes from `from` up to and without `to`. Places count the bytes of the piece before them.
#[derive(Drop)]
pub struct Token {
    pub kind: TokenKind,
    pub from: usize,
    pub to: usize,
}

/// What kind of a token it is.
#[derive(Drop)]
pub enum TokenKind {
    /// Letters, digits, `_` and `$`, of which the first is no digit.
    Word,
    /// Letters, digits, `_` and `$` between backquotes.
    Quoted,
    /// Digits.
    Number,
    /// A text between quotes, with its escapes worked out.
    Text(Bin),
    /// The bytes that pairs of hexadecimal digits spell.
    Hex(Bin),
    /// One of `( ) , = < > <= >= <> != + - * %`.
    Sign,
}

/// A token at the front of bytes.
#[derive(Drop)]
pub(crate) struct Lexeme {
    pub(crate) kind: TokenKind,
    /// How many bytes it has.
    pub(crate) length: usize,
}

/// The longest token that bytes begin with. `None` where they begin with none.
#[tactic(auto, unfolding(crate::specs::Tokens::next_token))]
pub(crate) fn next_token(alloc: Global, bytes: &[u8]) -> Result<Option<Lexeme>, AllocError>
    ensures value { IfOk result (λ o. o ≡ next_token bytes.now) }
    ensures part { IfOk result (λ o. IfSome o (λ f. IsPart f bytes.now)) }
{
    if let Some(found) = hex(alloc, bytes)? {
        return Ok(Some(found));
    }
    if let Some(found) = word(bytes) {
        return Ok(Some(found));
    }
    if let Some(found) = number(bytes) {
        return Ok(Some(found));
    }
    if let Some(found) = quoted(bytes) {
        return Ok(Some(found));
    }
    if let Some(found) = text(alloc, bytes)? {
        return Ok(Some(found));
    }
    Ok(sign(bytes))
}

fn hex(alloc: Global, bytes: &[u8]) -> Result<Option<Lexeme>, AllocError>
    ensures value { IfOk result (λ o. o ≡ hex bytes.now) }
    ensures part { IfOk result (λ o. IfSome o (λ f. IsPart f bytes.now)) }
{
    if !bytes.starts_with(b"X'") && !bytes.starts_with(b"x'") {
        return Ok(None);
    }
    let digits = front(Class::HexDigit, &bytes[2..]);
    if digits.len() % 2 != 0 || byte_at(bytes, digits.len() + 2) != b'\'' {
        return Ok(None);
    }
    Ok(Some(Lexeme {
        kind: TokenKind::Hex(hex_bytes(alloc, digits)?),
        length: digits.len() + 3,
    }))
}

fn word(bytes: &[u8]) -> Option<Lexeme>
    ensures value { result ≡ word bytes.now }
    ensures part { IfSome result (λ f. IsPart f bytes.now) }
{
    if !begins_word(byte_at(bytes, 0)) {
        return None;
    }
    Some(Lexeme {
        kind: TokenKind::Word,
        length: front(Class::WordByte, bytes).len(),
    })
}

fn number(bytes: &[u8]) -> Option<Lexeme>
    ensures value { result ≡ number_token bytes.now }
    ensures part { IfSome result (λ f. IsPart f bytes.now) }
{
    if !is_digit(byte_at(bytes, 0)) {
        return None;
    }
    let length = front(Class::Digit, bytes).len();
    if length != front(Class::WordByte, bytes).len() {
        return None;
    }
    Some(Lexeme {
        kind: TokenKind::Number,
        length,
    })
}

fn quoted(bytes: &[u8]) -> Option<Lexeme>
    ensures value { result ≡ quoted bytes.now }
    ensures part { IfSome result (λ f. IsPart f bytes.now) }
{
    if !bytes.starts_with(b"`") {
        return None;
    }
    let length = front(Class::WordByte, &bytes[1..]).len();
    if length == 0 || byte_at(bytes, length + 1) != b'`' {
        return None;
    }
    Some(Lexeme {
        kind: TokenKind::Quoted,
        length: length + 2,
    })
}

fn text(alloc: Global, bytes: &[u8]) -> Result<Option<Lexeme>, AllocError>
    ensures value { IfOk result (λ o. o ≡ text bytes.now) }
    ensures part { IfOk result (λ o. IfSome o (λ f. IsPart f bytes.now)) }
{
    let mark = byte_at(bytes, 0);
    if !is_quote(mark) {
        return Ok(None);
    }
    let behind = &bytes[1..];
    match text_end(mark, behind) {
        None => Ok(None),
        Some(end) => Ok(Some(Lexeme {
            kind: TokenKind::Text(content(alloc, mark, &behind[..end - 1])?),
            length: end + 1,
        })),
    }
}

fn sign(bytes: &[u8]) -> Option<Lexeme>
    ensures value { result ≡ sign bytes.now }
    ensures part { IfSome result (λ f. IsPart f bytes.now) }
{
    if is_long_sign(bytes) {
        return Some(Lexeme {
            kind: TokenKind::Sign,
            length: 2,
        });
    }
    if is_short_sign(byte_at(bytes, 0)) {
        return Some(Lexeme {
            kind: TokenKind::Sign,
            length: 1,
        });
    }
    None
}

fn is_long_sign(bytes: &[u8]) -> bool
    ensures value { result ≡ is_long_sign bytes.now }
    ensures two { IsTrue result → 2 ≤ length bytes.now }
{
    bytes.starts_with(b"<=")
        || bytes.starts_with(b">=")
        || bytes.starts_with(b"<>")
        || bytes.starts_with(b"!=")
}

fn is_short_sign(b: u8) -> bool
    ensures { result ≡ is_short_sign b }
{
    matches!(
        b,
        b'(' | b')' | b',' | b'=' | b'<' | b'>' | b'+' | b'-' | b'*' | b'%'
    )
}

/// The byte at a place, or 0 at the end.
pub(crate) fn byte_at(bytes: &[u8], place: usize) -> u8
    ensures value { result ≡ slice_index bytes.now place }
    ensures within { (result ≡ 0 → ⊥) → place < length bytes.now }
{
    if place < bytes.len() { bytes[place] } else { 0 }
}

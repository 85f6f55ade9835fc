use crate::leaves::put_text;
use pt_token::{Token, TokenKind, tokens};
use std::alloc::{AllocError, Global};

/// The tokens of a piece, or its first fault.
pub(crate) fn tokens_text(alloc: Global, piece: &[u8]) -> Result<String, AllocError> {
    match tokens(alloc, piece) {
        Err(fault) => format!(in alloc; "{fault:?}"),
        Ok(tokens) => list_text(alloc, tokens.as_slice()),
    }
}

fn list_text(alloc: Global, tokens: &[Token]) -> Result<String, AllocError> {
    let mut text = String::new(alloc);
    for token in tokens {
        put_token(&mut text, token)?;
    }
    Ok(text)
}

/// The letter, the span, what it spells, and a space.
fn put_token(text: &mut String, token: &Token) -> Result<(), AllocError> {
    let letter = letter(&token.kind);
    let from = token.from;
    let to = token.to;
    write!(text, "{letter}{from}-{to}")?;
    put_spelled(text, &token.kind)?;
    text.push(' ')
}

fn letter(kind: &TokenKind) -> char {
    match kind {
        TokenKind::Word => 'w',
        TokenKind::Quoted => 'q',
        TokenKind::Number => 'n',
        TokenKind::Text(_) => 't',
        TokenKind::Hex(_) => 'h',
        TokenKind::Sign => 's',
    }
}

fn put_spelled(text: &mut String, kind: &TokenKind) -> Result<(), AllocError> {
    match kind {
        TokenKind::Text(bytes) | TokenKind::Hex(bytes) => put_text(text, bytes.items()),
        TokenKind::Word | TokenKind::Quoted | TokenKind::Number | TokenKind::Sign => Ok(()),
    }
}

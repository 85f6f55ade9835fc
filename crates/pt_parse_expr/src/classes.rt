ghost use Rattle.std.specs.Prelude.{◌≡◌, ◌-◌, ◌^◌, ◌≤◌, length, Contains, IfOk, Some};
ghost use Rattle.pt_token.specs.Placed.{AreQuoted, AreWordBytes, IsPlaced, signs};
ghost use Rattle.pt_token.specs.Tokens.{IsLexed};
ghost use Rattle.pt_token.specs.declared.token.TokenKind.TheVariants as kind;
ghost use Rattle.pt_parse_expr.specs.Limits.{AreStorable, IsLong, name_length};
ghost use Rattle.pt_parse_expr.specs.Symbols as spec;

use crate::alphabet::{Mark, Symbol};
use crate::digits::number;
use crate::words;
use pt_token::{Token, TokenKind};
use pt_value::{Bin, Ident};
use std::alloc::{AllocError, Global};

/// The tokens of a piece, each together with its bytes. No name among them may have more than 64 characters (`long`).
/// It takes memory for the list and for the texts, and fails where there is none.
#[tactic(auto, unfolding(crate::specs::Symbols::symbols))]
pub fn symbols(alloc: Global, piece: &[u8], tokens: &[Token]) -> Result<Vec<Symbol>, AllocError>
    requires lexed { IsLexed piece.now tokens.now }
    requires short { IsLong tokens.now → ⊥ }
    ensures symbols { IfOk result (λ v. v.items ≡ spec.symbols piece.now tokens.now) }
    ensures storable { length piece.now ≤ 2 ^ 20 → IfOk result (λ v. AreStorable v.items) }
{
    let mut symbols = Vec::new(alloc);
    for token in tokens {
        symbols.push(symbol(alloc, piece, token)?)?;
    }
    Ok(symbols)
}

/// A token together with its bytes.
#[tactic(auto, unfolding(crate::specs::Symbols::symbol))]
fn symbol(alloc: Global, piece: &[u8], token: &Token) -> Result<Symbol, AllocError>
    requires placed { IsPlaced piece.now token.now }
    requires short { name_length token.now.kind (token.now.to - token.now.from) ≤ 64 }
    ensures { IfOk result (λ s. s ≡ spec.symbol piece.now token.now) }
{
    let bytes = &piece[token.from..token.to];
    match &token.kind {
        TokenKind::Word => Ok(word(bytes)),
        TokenKind::Quoted => Ok(quoted(bytes)),
        TokenKind::Number => Ok(Symbol::Number(number(bytes))),
        TokenKind::Text(text) => Ok(Symbol::Text(Bin::from_slice(alloc, text.items())?)),
        TokenKind::Hex(text) => Ok(Symbol::Hex(Bin::from_slice(alloc, text.items())?)),
        TokenKind::Sign => Ok(Symbol::Fixed(sign(bytes))),
    }
}

/// A reserved word, or a name.
fn word(bytes: &[u8]) -> Symbol
    requires some { AreWordBytes bytes.now }
    requires short { length bytes.now ≤ 64 }
    ensures { result ≡ spec.marked (spec.reserved bytes.now) bytes.now }
{
    match words::reserved(bytes) {
        Some(mark) => Symbol::Fixed(mark),
        None => Symbol::Word(name(bytes)),
    }
}

/// The name between backquotes.
fn quoted(bytes: &[u8]) -> Symbol
    requires quoted { AreQuoted bytes.now }
    requires short { length bytes.now - 2 ≤ 64 }
    ensures { result ≡ spec.symbol_of kind.Quoted bytes.now }
{
    Symbol::Quoted(name(&bytes[1..bytes.len() - 1]))
}

/// The identifier of bytes that are one.
fn name(bytes: &[u8]) -> Ident
    requires some { AreWordBytes bytes.now }
    requires short { length bytes.now ≤ 64 }
    ensures { result ≡ bytes.now }
{
    match Ident::of(bytes) {
        Ok(name) => name,
        Err(_) => unreachable!(),
    }
}

/// The mark of bytes that are a sign.
fn sign(bytes: &[u8]) -> Mark
    requires { Contains signs bytes.now }
    ensures { Some result ≡ spec.mark_of_sign bytes.now }
{
    match words::sign(bytes) {
        Some(mark) => mark,
        None => unreachable!(),
    }
}

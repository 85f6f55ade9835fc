ghost use Rattle.std.specs.Prelude.{◌^◌, ◌≤◌, length, IfOk};
ghost use Rattle.pt_token.specs.Tokens.{IsLexed};
ghost use Rattle.pt_parse_expr.specs.Limits.{IsDeep, IsLong};
ghost use Rattle.pt_parse_expr.specs.Symbols.{symbols};

use crate::trees::{put_cond, put_expr};
use pt_ast::{Cond, Expr};
use pt_parse_expr::{ParseFault, cond, deep, expr, long};
use pt_token::{LexFault, Token, tokens};
use std::alloc::{AllocError, Global};

/// The most bytes of a piece.
const MOST_BYTES: usize = 1_048_576;

/// Why nothing is read of a piece.
#[derive(Clone, Copy)]
pub(crate) enum PieceFault {
    /// It has more than `MOST_BYTES`.
    TooLong,
    /// It has no tokens.
    Lexical(LexFault),
    /// Its tokens can't be read.
    Tokens(ParseFault),
}

/// The tokens of a piece that may be read: of one that isn't too long, where parentheses aren't deep and no name is long.
pub(crate) fn tokens_of(alloc: Global, piece: &[u8]) -> Result<Vec<Token>, PieceFault>
    ensures small { IfOk result (λ _. length piece.now ≤ 2 ^ 20) }
    ensures lexed { IfOk result (λ tokens. IsLexed piece.now tokens.items) }
    ensures shallow { IfOk result (λ tokens. IsDeep (symbols piece.now tokens.items) → ⊥) }
    ensures short { IfOk result (λ tokens. IsLong tokens.items → ⊥) }
{
    if piece.len() > MOST_BYTES {
        return Err(PieceFault::TooLong);
    }
    let tokens = tokens(alloc, piece).map_err(PieceFault::Lexical)?;
    if deep(piece, &tokens) {
        return Err(PieceFault::Tokens(ParseFault::TooDeep));
    }
    if long(&tokens) {
        return Err(PieceFault::Tokens(ParseFault::LongName));
    }
    Ok(tokens)
}

/// The longest expression from the token `at` of a piece on, and the next token; or the fault.
pub(crate) fn expr_text(alloc: Global, piece: &[u8], at: usize) -> Result<String, AllocError> {
    match longest_expr(alloc, piece, at) {
        Err(fault) => fault_text(alloc, fault),
        Ok((x, next)) => placed_expr(alloc, &x, next),
    }
}

/// The same of a condition.
pub(crate) fn cond_text(alloc: Global, piece: &[u8], at: usize) -> Result<String, AllocError> {
    match longest_cond(alloc, piece, at) {
        Err(fault) => fault_text(alloc, fault),
        Ok((c, next)) => placed_cond(alloc, &c, next),
    }
}

fn longest_expr(alloc: Global, piece: &[u8], at: usize) -> Result<(Expr, usize), PieceFault> {
    let tokens = tokens_of(alloc, piece)?;
    expr(alloc, piece, &tokens, at).map_err(PieceFault::Tokens)
}

fn longest_cond(alloc: Global, piece: &[u8], at: usize) -> Result<(Cond, usize), PieceFault> {
    let tokens = tokens_of(alloc, piece)?;
    cond(alloc, piece, &tokens, at).map_err(PieceFault::Tokens)
}

/// An expression, and the place behind it.
pub(crate) fn placed_expr(alloc: Global, x: &Expr, next: usize) -> Result<String, AllocError> {
    let mut text = String::new(alloc);
    put_expr(&mut text, x)?;
    write!(text, " {next}")?;
    Ok(text)
}

/// A condition, and the place behind it.
pub(crate) fn placed_cond(alloc: Global, c: &Cond, next: usize) -> Result<String, AllocError> {
    let mut text = String::new(alloc);
    put_cond(&mut text, c)?;
    write!(text, " {next}")?;
    Ok(text)
}

pub(crate) fn fault_text(alloc: Global, fault: PieceFault) -> Result<String, AllocError> {
    match fault {
        PieceFault::TooLong => String::from_str(alloc, "TooLong"),
        PieceFault::Lexical(fault) => format!(in alloc; "{fault:?}"),
        PieceFault::Tokens(fault) => format!(in alloc; "{fault:?}"),
    }
}

ghost use Rattle.std.specs.Prelude.{◌^◌, ◌≤◌, length, IfOk};
ghost use Rattle.pt_token.specs.Tokens.{IsLexed};
ghost use Rattle.pt_parse_expr.specs.Limits.{IsDeep, IsLong};
ghost use Rattle.pt_parse_expr.specs.Symbols.{symbols};

use pt_ast::{Cond, Expr};
use pt_parse_expr::{ParseFault, cond, deep, expr, long};
use pt_token::{LexFault, Token, tokens};
use std::alloc::Global;

/// The most bytes of a text.
const MOST_BYTES: usize = 1_048_576;

/// Why nothing is read of a text.
#[derive(Clone, Copy)]
pub enum ReadFault {
    /// It has more than `MOST_BYTES`.
    TooLong,
    Tokens(LexFault),
    Grammar(ParseFault),
}

/// The longest expression that a text begins with, and the next token.
pub fn read_expr(alloc: Global, text: &[u8]) -> Result<(Expr, usize), ReadFault> {
    let tokens = tokens_of(alloc, text)?;
    expr(alloc, text, &tokens, 0).map_err(ReadFault::Grammar)
}

/// The same of a condition.
pub fn read_cond(alloc: Global, text: &[u8]) -> Result<(Cond, usize), ReadFault> {
    let tokens = tokens_of(alloc, text)?;
    cond(alloc, text, &tokens, 0).map_err(ReadFault::Grammar)
}

/// The tokens of a text that may be read.
fn tokens_of(alloc: Global, text: &[u8]) -> Result<Vec<Token>, ReadFault>
    ensures small { IfOk result (λ _. length text.now ≤ 2 ^ 20) }
    ensures lexed { IfOk result (λ tokens. IsLexed text.now tokens.items) }
    ensures shallow { IfOk result (λ tokens. IsDeep (symbols text.now tokens.items) → ⊥) }
    ensures short { IfOk result (λ tokens. IsLong tokens.items → ⊥) }
{
    if text.len() > MOST_BYTES {
        return Err(ReadFault::TooLong);
    }
    let tokens = tokens(alloc, text).map_err(ReadFault::Tokens)?;
    if deep(text, &tokens) {
        return Err(ReadFault::Grammar(ParseFault::TooDeep));
    }
    if long(&tokens) {
        return Err(ReadFault::Grammar(ParseFault::LongName));
    }
    Ok(tokens)
}

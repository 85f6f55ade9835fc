ghost use Rattle.std.specs.Prelude.{◌≡◌, ◌^◌, ◌≤◌, length, IfOk, IfErr};
ghost use Rattle.pt_ast.specs.StorableCond.{IsStorableCond};
ghost use Rattle.pt_ast.specs.StorableExpr.{IsStorableExpr};
ghost use Rattle.pt_token.specs.Tokens.{IsLexed};
ghost use Rattle.pt_parse_expr.specs.Limits.{AreStorable, IsDeep, IsLong};
ghost use Rattle.pt_parse_expr.specs.Spelling.{IsLongest, IsReadFault, SpellsCond, SpellsExpr};
ghost use Rattle.pt_parse_expr.specs.Symbols.{symbols};

use crate::alphabet::Symbol;
use crate::classes::symbols;
use crate::fault::ParseFault;
use crate::readers::{read_cond, read_expr};
use pt_ast::{Cond, Expr};
use pt_token::Token;
use std::alloc::Global;

/// The longest expression from the token `at` on, and the next token. Tokens count from 0. The time is linear in the tokens.
pub fn expr(
    alloc: Global,
    piece: &[u8],
    tokens: &Vec<Token>,
    at: usize,
) -> Result<(Expr, usize), ParseFault>
    requires small { length piece.now ≤ 2 ^ 20 }
    requires lexed { IsLexed piece.now tokens.now.items }
    requires shallow { IsDeep (symbols piece.now tokens.now.items) → ⊥ }
    requires short { IsLong tokens.now.items → ⊥ }
    ensures longest { IfOk result (λ p. IsLongest SpellsExpr (symbols piece.now tokens.now.items) at p.0 p.1) }
    ensures fault { IfErr result (IsReadFault SpellsExpr (symbols piece.now tokens.now.items) at) }
    ensures storable { IfOk result (λ p. IsStorableExpr p.0) }
{
    match symbols(alloc, piece, tokens) {
        Err(_) => Err(ParseFault::NoMemory),
        Ok(symbols) => longest_expr(alloc, &symbols, at),
    }
}

fn longest_expr(alloc: Global, symbols: &[Symbol], at: usize) -> Result<(Expr, usize), ParseFault>
    requires shallow { IsDeep symbols.now → ⊥ }
    requires storable { AreStorable symbols.now }
    ensures longest { IfOk result (λ p. IsLongest SpellsExpr symbols.now at p.0 p.1) }
    ensures fault { IfErr result (IsReadFault SpellsExpr symbols.now at) }
    ensures storable { IfOk result (λ p. IsStorableExpr p.0) }
{
    if at > symbols.len() {
        return Err(ParseFault::Syntax);
    }
    match read_expr(alloc, symbols, at) {
        Err(_) => Err(ParseFault::NoMemory),
        Ok(None) => Err(ParseFault::Syntax),
        Ok(Some(read)) => Ok(read),
    }
}

/// The same of a condition.
pub fn cond(
    alloc: Global,
    piece: &[u8],
    tokens: &Vec<Token>,
    at: usize,
) -> Result<(Cond, usize), ParseFault>
    requires small { length piece.now ≤ 2 ^ 20 }
    requires lexed { IsLexed piece.now tokens.now.items }
    requires shallow { IsDeep (symbols piece.now tokens.now.items) → ⊥ }
    requires short { IsLong tokens.now.items → ⊥ }
    ensures longest { IfOk result (λ p. IsLongest SpellsCond (symbols piece.now tokens.now.items) at p.0 p.1) }
    ensures fault { IfErr result (IsReadFault SpellsCond (symbols piece.now tokens.now.items) at) }
    ensures storable { IfOk result (λ p. IsStorableCond p.0) }
{
    match symbols(alloc, piece, tokens) {
        Err(_) => Err(ParseFault::NoMemory),
        Ok(symbols) => longest_cond(alloc, &symbols, at),
    }
}

fn longest_cond(alloc: Global, symbols: &[Symbol], at: usize) -> Result<(Cond, usize), ParseFault>
    requires shallow { IsDeep symbols.now → ⊥ }
    requires storable { AreStorable symbols.now }
    ensures longest { IfOk result (λ p. IsLongest SpellsCond symbols.now at p.0 p.1) }
    ensures fault { IfErr result (IsReadFault SpellsCond symbols.now at) }
    ensures storable { IfOk result (λ p. IsStorableCond p.0) }
{
    if at > symbols.len() {
        return Err(ParseFault::Syntax);
    }
    match read_cond(alloc, symbols, at) {
        Err(_) => Err(ParseFault::NoMemory),
        Ok(None) => Err(ParseFault::Syntax),
        Ok(Some(read)) => Ok(read),
    }
}

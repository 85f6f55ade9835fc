ghost use Rattle.std.specs.Prelude.{◌≡◌, ◌^◌, ◌≤◌, length, IfOk, IfErr};
ghost use Rattle.pt_ast.specs.StorableStmt.{IsStorableStmt};
ghost use Rattle.pt_token.specs.Tokens.{IsLexed};
ghost use Rattle.pt_parse_expr.specs.Limits.{IsDeep};
ghost use Rattle.pt_parse_alter.specs.Spelling.{IsReading, IsRefused, IsUnspelled, SpellsStmt};

use crate::statements::statement;
use pt_ast::Stmt;
use pt_parse_ddl::finished;
use pt_parse_expr::{ParseFault, Symbol, deep, long, symbols};
use pt_token::Token;
use std::alloc::Global;

/// The change of a table that the tokens of a piece spell. The time is linear in the tokens.
///
/// # Errors
///
/// `TooDeep` where more than 64 parentheses are open at once; else `LongName` where a name has more than 64 characters; else
/// `Syntax` where no statement of this grammar is spelled. `NoMemory` where memory runs out.
pub fn parse(alloc: Global, piece: &[u8], tokens: &Vec<Token>) -> Result<Stmt, ParseFault>
    requires small { length piece.now ≤ 2 ^ 20 }
    requires lexed { IsLexed piece.now tokens.now.items }
    ensures reading { IfOk result (IsReading piece.now tokens.now.items) }
    ensures refused { IfErr result (IsRefused piece.now tokens.now.items) }
    ensures storable { IfOk result IsStorableStmt }
{
    if deep(piece, tokens) {
        return Err(ParseFault::TooDeep);
    }
    if long(tokens) {
        return Err(ParseFault::LongName);
    }
    match symbols(alloc, piece, tokens) {
        Err(_) => Err(ParseFault::NoMemory),
        Ok(symbols) => spelled(alloc, &symbols),
    }
}

/// The statement that symbols spell.
fn spelled(alloc: Global, symbols: &[Symbol]) -> Result<Stmt, ParseFault>
    requires shallow { IsDeep symbols.now → ⊥ }
    ensures spelled { IfOk result (SpellsStmt symbols.now) }
    ensures unspelled { IfErr result (IsUnspelled symbols.now) }
{
    match statement(alloc, symbols, 0) {
        Err(_) => Err(ParseFault::NoMemory),
        Ok(read) => match finished(symbols, read) {
            None => Err(ParseFault::Syntax),
            Some(read) => Ok(read),
        },
    }
}

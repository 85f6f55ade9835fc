ghost use Rattle.std.specs.Prelude.{◌≤◌, ◌^◌, length, IfOk};
ghost use Rattle.pt_ast.specs.StorableStmt.{IsStorableStmt};
ghost use Rattle.pt_token.specs.Tokens.{IsLexed};

use pt_ast::Stmt;
use pt_parse_expr::ParseFault;
use pt_token::{Token, tokens};
use std::alloc::Global;

/// The most bytes of a piece.
const MOST_BYTES: usize = 1_048_576;

/// The statement that a piece spells: a definition, or else a statement on rows, or else a change of a table.
pub(crate) fn read(alloc: Global, piece: &[u8]) -> Result<Stmt, ParseFault>
    ensures { IfOk result IsStorableStmt }
{
    if piece.len() > MOST_BYTES {
        return Err(ParseFault::Syntax);
    }
    let Ok(tokens) = tokens(alloc, piece) else {
        return Err(ParseFault::Syntax);
    };
    match pt_parse_ddl::parse(alloc, piece, &tokens) {
        Err(ParseFault::Syntax) => read_other(alloc, piece, &tokens),
        read => read,
    }
}

/// One that is no definition.
fn read_other(alloc: Global, piece: &[u8], tokens: &Vec<Token>) -> Result<Stmt, ParseFault>
    requires small { length piece.now ≤ 2 ^ 20 }
    requires lexed { IsLexed piece.now tokens.now.items }
    ensures { IfOk result IsStorableStmt }
{
    match pt_parse_dml::parse(alloc, piece, tokens) {
        Err(ParseFault::Syntax) => pt_parse_alter::parse(alloc, piece, tokens),
        read => read,
    }
}

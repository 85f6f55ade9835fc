ghost use Rattle.std.specs.Prelude.{IfSome};
ghost use Rattle.pt_ast.specs.StorableSpec.{IsStorableSpec};
ghost use Rattle.pt_ast.specs.StorableStmt.{IsStorableStmt};

use crate::told::{Asked, put_plain, put_told};
use pt_ast::{Arg, Refusal, Stmt, TableSpec};
use pt_complete::{DefFault, complete};
use pt_parse_ddl::parse;
use pt_token::tokens;
use pt_value::Ident;
use std::alloc::{AllocError, Global};

/// The most bytes of a piece.
const MOST_BYTES: usize = 1_048_576;

/// Writes what is asked of the table that a piece creates.
pub(crate) fn put_meaning(
    alloc: Global,
    out: &mut String,
    asked: Asked,
    piece: &[u8],
) -> Result<(), AllocError> {
    match read(alloc, piece) {
        Some(stmt) => {
            let told = put_created(alloc, out, asked, &stmt);
            beside(stmt, told)
        }
        None => out.push('?'),
    }
}

/// The statement that a piece spells.
fn read(alloc: Global, piece: &[u8]) -> Option<Stmt>
    ensures { IfSome result IsStorableStmt }
{
    if piece.len() > MOST_BYTES {
        return None;
    }
    let tokens = tokens(alloc, piece).ok()?;
    parse(alloc, piece, &tokens).ok()
}

/// What was made of a value, which is let go here: of any type at all, since that is cheap to prove.
pub(crate) fn beside<T: Drop, U: Drop>(value: T, made: U) -> U {
    drop(value);
    made
}

fn put_created(alloc: Global, out: &mut String, asked: Asked, stmt: &Stmt) -> Result<(), AllocError>
    requires { IsStorableStmt stmt.now }
{
    let Stmt::Create(_, table, spec) = stmt else {
        return out.push('?');
    };
    put_completed(alloc, out, asked, table, spec)
}

fn put_completed(
    alloc: Global,
    out: &mut String,
    asked: Asked,
    table: &Ident,
    spec: &TableSpec,
) -> Result<(), AllocError>
    requires { IsStorableSpec spec.now }
{
    match complete(alloc, table, spec) {
        Ok(def) => {
            let told = put_told(alloc, out, asked, table, &def);
            beside(def, told)
        }
        Err(DefFault::Refused(refusal)) => put_refusal(out, refusal),
        Err(DefFault::NoMemory) => out.push_str("no memory"),
    }
}

fn put_refusal(out: &mut String, refusal: Refusal) -> Result<(), AllocError> {
    let code = refusal.code();
    write!(out, "error {code} ")?;
    put_plain(out, refusal.name())?;
    out.push(' ')?;
    match refusal.arg() {
        Arg::Name(name) => put_plain(out, name.bytes()),
        Arg::Number(number) => write!(out, "{number}"),
        Arg::Primary => out.push_str("PRIMARY"),
        Arg::Key => out.push_str("KEY"),
    }
}

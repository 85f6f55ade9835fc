ghost use Rattle.std.specs.Prelude.{◌^◌, ◌≤◌, length};
ghost use Rattle.pt_token.specs.Tokens.{IsLexed};

use crate::statements::put_stmt;
use percent_encoding::percent_decode;
use pt_ast::Stmt;
use pt_parse_alter::{one_reading as one_reading_of_all, parse as change};
use pt_parse_ddl::{one_statement, parse as definition};
use pt_parse_dml::{one_reading, parse as on_rows};
use pt_parse_expr::ParseFault;
use pt_token::{LexFault, Token, tokens};
use std::alloc::{AllocError, Global};

/// The most bytes of a piece.
const MOST_BYTES: usize = 1_048_576;

/// Why nothing is read of a piece.
#[derive(Clone, Copy)]
enum PieceFault {
    /// It has more than `MOST_BYTES`.
    TooLong,
    /// It has no tokens.
    Lexical(LexFault),
    /// Its tokens can't be read.
    Tokens(ParseFault),
}

/// The answer to a line.
pub(crate) fn answer(alloc: Global, line: &str) -> Result<String, AllocError> {
    if line.is_empty() || line.starts_with('#') {
        return String::from_str(alloc, line);
    }
    let (word, rest) = line.split_once(' ').unwrap_or((line, ""));
    match word {
        "laws" => laws_answer(alloc),
        "rows" => rows_answer(alloc, rest),
        _ => {
            let bytes = decoded(alloc, line)?;
            piece_text(alloc, bytes.as_slice())
        }
    }
}

fn laws_answer(alloc: Global) -> Result<String, AllocError> {
    one_statement();
    one_reading();
    one_reading_of_all();
    String::from_str(alloc, "laws")
}

/// A number and a row: what is read of an INSERT of so many such rows.
fn rows_answer(alloc: Global, rest: &str) -> Result<String, AllocError> {
    let (times, row) = rest.split_once(' ').unwrap_or((rest, ""));
    let piece = insert_of(alloc, times.parse::<usize>().unwrap_or(0), row)?;
    match read(alloc, piece.as_bytes()) {
        Err(fault) => fault_text(alloc, fault),
        Ok(stmt) => {
            let text = counts_text(alloc, &stmt);
            beside(stmt, text)
        }
    }
}

fn insert_of(alloc: Global, times: usize, row: &str) -> Result<String, AllocError> {
    let mut text = String::from_str(alloc, "INSERT INTO t VALUES ")?;
    for i in 0..times {
        text.push_str(if i > 0 { "," } else { "" })?;
        text.push_str(row)?;
    }
    Ok(text)
}

/// How many rows a statement inserts, and how many values they have.
fn counts_text(alloc: Global, stmt: &Stmt) -> Result<String, AllocError> {
    let Stmt::Insert(_, new) = stmt else {
        return String::from_str(alloc, "?");
    };
    let mut values = 0usize;
    for row in new.rows.items() {
        values = values.saturating_add(row.items().len());
    }
    let rows = new.rows.items().len();
    format!(in alloc; "rows {rows} values {values}")
}

/// The bytes that a line writes.
fn decoded(alloc: Global, line: &str) -> Result<Vec<u8>, AllocError> {
    let mut bytes = Vec::new(alloc);
    percent_decode(line.as_bytes()).append_to(&mut bytes)?;
    Ok(bytes)
}

/// What a piece spells, or why it is refused.
fn piece_text(alloc: Global, piece: &[u8]) -> Result<String, AllocError> {
    match read(alloc, piece) {
        Err(fault) => fault_text(alloc, fault),
        Ok(stmt) => {
            let text = stmt_text(alloc, &stmt);
            beside(stmt, text)
        }
    }
}

/// The statement that a piece spells.
fn read(alloc: Global, piece: &[u8]) -> Result<Stmt, PieceFault> {
    if piece.len() > MOST_BYTES {
        return Err(PieceFault::TooLong);
    }
    let tokens = tokens(alloc, piece).map_err(PieceFault::Lexical)?;
    either(alloc, piece, &tokens).map_err(PieceFault::Tokens)
}

/// The definition that the tokens spell, the statement on rows, or the change of a table.
fn either(alloc: Global, piece: &[u8], tokens: &Vec<Token>) -> Result<Stmt, ParseFault>
    requires small { length piece.now ≤ 2 ^ 20 }
    requires lexed { IsLexed piece.now tokens.now.items }
{
    match definition(alloc, piece, tokens) {
        Err(ParseFault::Syntax) => no_definition(alloc, piece, tokens),
        read => read,
    }
}

/// The same of tokens that spell no definition.
fn no_definition(alloc: Global, piece: &[u8], tokens: &Vec<Token>) -> Result<Stmt, ParseFault>
    requires small { length piece.now ≤ 2 ^ 20 }
    requires lexed { IsLexed piece.now tokens.now.items }
{
    match on_rows(alloc, piece, tokens) {
        Err(ParseFault::Syntax) => change(alloc, piece, tokens),
        read => read,
    }
}

/// What was made of a value, which is let go here: of any type at all, since that is cheap to prove.
fn beside<T: Drop, U: Drop>(value: T, made: U) -> U {
    drop(value);
    made
}

fn stmt_text(alloc: Global, stmt: &Stmt) -> Result<String, AllocError> {
    let mut text = String::new(alloc);
    put_stmt(&mut text, stmt)?;
    Ok(text)
}

fn fault_text(alloc: Global, fault: PieceFault) -> Result<String, AllocError> {
    match fault {
        PieceFault::TooLong => String::from_str(alloc, "TooLong"),
        PieceFault::Lexical(fault) => format!(in alloc; "{fault:?}"),
        PieceFault::Tokens(fault) => format!(in alloc; "{fault:?}"),
    }
}

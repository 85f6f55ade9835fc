//! What tokens spell as a statement on rows: INSERT, REPLACE, UPDATE, DELETE, SELECT and EXPLAIN.
//!
//! - The grammar is a relation with one case for each right side (`IsStmt`), over the symbols of `pt_parse_expr`. Which table a
//!   statement speaks of, which rows it puts there, which values it assigns and which rows it takes are rules of their own (`IsTarget`,
//!   `AreNewRows`, `AreAssigns`, `IsTail`).
//! - `parse` gives the statement that all tokens spell (`IsReading`), and refuses exactly where there is none (`IsRefused`): first
//!   for its depth, then for a long name, then for its syntax.
//! - `one_reading` is the theorem that no symbols spell two statements, of this grammar and of the one of definitions together.
//!
//! It stands on `pt_parse_ddl` for names and lists, on `pt_parse_expr` for symbols, expressions and conditions, and on `pt_ast` for the
//! trees.
#![tactic(auto)]

mod laws;
mod piece;
mod queries;
mod rows;
mod statements;
mod tails;
mod targets;
mod updates;

pub use laws::one_reading;
pub use piece::parse;

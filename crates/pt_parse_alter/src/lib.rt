//! What tokens spell as a change of the partitions of a table: ALTER TABLE with each of its actions.
//!
//! - The grammar is a relation with one case for each right side (`IsStmt`, `IsAction`), over the symbols of `pt_parse_expr`.
//! - `parse` gives the statement that all tokens spell (`IsReading`), and refuses exactly where there is none (`IsRefused`): first
//!   for its depth, then for a long name, then for its syntax.
//! - `one_reading` is the theorem that no symbols spell two statements, of this grammar and of those of definitions and of rows together.
//!
//! It stands on `pt_parse_ddl` for names, lists and definitions of partitions, on `pt_parse_dml` for the theorem alone, on
//! `pt_parse_expr` for symbols, and on `pt_ast` for the trees.
#![tactic(auto)]

mod actions;
mod laws;
mod piece;
mod statements;

pub use laws::one_reading;
pub use piece::parse;

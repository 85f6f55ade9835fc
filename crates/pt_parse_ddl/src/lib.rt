//! What tokens spell as a definition: CREATE TABLE, CREATE TABLE LIKE, DROP TABLE and SHOW CREATE TABLE.
//!
//! - The grammar is a relation with one case for each right side (`IsStmt`), over the symbols of `pt_parse_expr`.
//! - `parse` gives the statement that all tokens spell (`IsReading`), and refuses exactly where there is none (`IsRefused`): first
//!   for its depth, then for a long name, then for its syntax.
//! - `one_statement` is the theorem that no symbols spell two statements.
//! - For parsers that stand on this crate, `Rule` is a production with its reading; `optional`, `listed` and `several` read parts of any
//!   rule, `name`, `number`, `word` and `column_names` the parts that all statements share; `PartByRule` and `PartsRule` are what changes
//!   of tables share with CREATE TABLE, and `finished` asks that nothing comes behind.
//!
//! It stands on `pt_parse_expr` for symbols and expressions, and on `pt_ast` for the trees.
#![tactic(auto)]

mod columns;
mod keys;
mod laws;
mod options;
mod partitionings;
mod partitions;
mod piece;
mod rules;
mod statements;
mod words;

pub use keys::columns as column_names;
pub use laws::one_statement;
pub use partitionings::{PartByRule, PartsRule, counted};
pub use piece::{finished, parse};
pub use rules::{Rule, listed, optional, several};
pub use words::{Keyword, NameRule, name, number, word};

//! The statements of a script, and what each of them is read as.
//!
//! - `Script` takes a script by chunks and cuts it into its statements (`statements`): the pieces of `pt_token` that aren't blank. It
//!   stops where a limit is passed (`has_excess`). What it took so far is `IsTaken`, the end `IsWhole`.
//! - `read` gives the reading of a piece (`Reads`): the statement that its tokens spell by any of the grammars, or that it is too deep,
//!   has a long name, or is no statement. What is spelled is storable, and of the kinds that `is_known` names; statements of other kinds
//!   are no statements.
//! - `refusal` is the refusal of a piece that spells no statement (`refusal_of`).
//! - `one_reading` is the theorem that a piece has one reading at most, `all_statements` that within the limits the statements are
//!   all the pieces that aren't blank.
//!
//! It stands on `pt_token` for pieces and tokens, on `pt_parse_ddl`, `pt_parse_dml` and `pt_parse_alter` for the grammars, and on
//! `pt_ast` for the trees.
#![tactic(auto)]

mod laws;
mod reading;
mod script;

pub use laws::{all_statements, one_reading};
pub use reading::{Reading, read, refusal};
pub use script::Script;

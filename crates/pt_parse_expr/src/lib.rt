//! What tokens spell an expression and a condition, and the longest reading of either.
//!
//! - `symbols` stands each token together with its bytes: a sign or a reserved word, a name, a number, a text. Which words are
//!   reserved, and what signs and the names of functions stand for, are lists of their own (`reserved_words`, `sign_marks`,
//!   `function_names`).
//! - The grammar is a relation with one case for each right side (`IsExpr`, `IsCond`). Tokens spell what it says of all of them.
//! - `expr` and `cond` give the longest reading from a token on (`IsLongest`), and `Syntax` exactly where nothing is spelled there.
//! - `read_expr` and `read_cond` do the same from a symbol on, for parsers that stand on this crate (`GivesLongest`).
//! - `deep` and `long` tell `IsDeep` and `IsLong`: more than 64 parentheses open at once, and a name of more than 64 characters.
//! - `one_reading` is the theorem that no tokens spell two trees.
//!
//! It stands on `pt_token` for tokens and on `pt_ast` for the trees.
#![tactic(auto)]

mod alphabet;
mod classes;
mod comparisons;
mod conds;
mod digits;
mod exprs;
mod fault;
mod found;
mod grammar;
mod laws;
mod limits;
mod parse;
mod readers;
mod source;
mod sums;
mod words;

pub use alphabet::{Mark, Reserved, Symbol};
pub use classes::symbols;
pub use fault::ParseFault;
pub use laws::one_reading;
pub use limits::{deep, long};
pub use parse::{cond, expr};
pub use readers::{read_cond, read_expr};
pub use source::{Reading, beside, closed, peek};

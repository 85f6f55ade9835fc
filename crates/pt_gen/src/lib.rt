//! The statements of the generated script: a table of four HASH partitions that is filled, thinned, and partitioned anew.
//!
//! - `count` is how many statements the script of so many INSERTs has, `statement` gives each of them. The script is `script`, in the
//!   terms of statements as they are read from text; its text stands beside it.
//!
//! It stands on `pt_ast`, `pt_value` and `pt_plain`.
#![tactic(auto)]

mod lists;
mod names;
mod rows;
mod script;
mod table;

pub use script::{MOST, count, statement};

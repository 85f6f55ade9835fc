//! Which expressions and conditions over a table's columns are well typed, and what they come to on the cells of a row.
//!
//! - `check` gives the kind of an expression, or its first fault from left to right (`checked`). What a node is found to be rests
//!   on what its parts are found to be (`finding`): its kind, and how far from 0 its value can be at most.
//! - `check_cond` gives the first fault of a condition (`checked_cond`).
//! - `eval` gives the value of a well-typed expression (`whole_value`), which is NULL or of its kind (`HasKind`). The definition
//!   computes with whole numbers of any size. The code has 128 bits, and nothing overflows: each number is within the bound that
//!   the check found, below 2^126.
//! - `truth` tells what a well-typed condition is of a row, in three values (`truth`).
//!
//! A column is the first one of its name, but for the case of ASCII letters. None of the calls takes memory; each calls itself
//! once for each level of its tree. It stands on `pt_value` and `pt_ast`.
#![tactic(auto)]

mod columns;
mod found;
mod kind;
mod operands;
mod running;
mod truths;
mod typing;
mod typing_cond;
mod values;

pub use kind::{CheckFault, ExprKind};
pub use truths::truth;
pub use typing::check;
pub use typing_cond::check_cond;
pub use values::eval;

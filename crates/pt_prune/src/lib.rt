//! Which spots of a table a condition keeps: neither more nor less.
//!
//! - `kept` gives, in the order of the definition, the spots that a statement with a PARTITION list and a condition has to read (`AreKept`
//!   of `pt_reach`): both levels keep the spot, and the list names it.
//!
//! A level whose column is followed through all its values has its marks from `reached_parts` of `pt_followed`; of any other the values that are left of its
//! column are placed one by one where they are at most 64, and else all parts are kept. It stands on `pt_followed`, `pt_reach`,
//! `pt_interval`, `pt_db`, `pt_place`, `pt_expr`, `pt_bounds`, `pt_hash`, `pt_ast`, `pt_value` and `pt_plain`.
#![tactic(auto)]

mod columns;
mod counts;
mod few;
mod follows;
mod levels;
mod marks;
mod placing;
mod spots;

pub use spots::kept;

//! Which partitions of a table a condition reaches, where all values of the partitioning's column are followed: RANGE and LIST over the
//! column itself, its YEAR or its TO_DAYS, and RANGE and LIST COLUMNS.
//!
//! `reached_parts` marks exactly the partitions where some row is placed that the condition leaves (`AreReached`): neither one more nor
//! one less. A row is left where the condition may hold at its cell of that column, whatever its other cells are.
//!
//! It stands on `pt_reach`, `pt_place`, `pt_expr`, `pt_bounds`, `pt_ast`, `pt_value` and `pt_plain`.
#![tactic(auto)]

mod between;
mod days;
mod entries;
mod functions;
mod marking;
mod reached;
mod sets;
mod sides;

pub use reached::reached_parts;

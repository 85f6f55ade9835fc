//! At which values of a column a condition may hold, and the set of them; and which spots of a table a condition keeps.
//!
//! - `May` defines at which values of a column a condition may hold.
//! - A `Reach` is a set of the values of a column: NULL or not, and spans of the others (`IsReach`). `Scale` is a trait with laws: the
//!   values of the columns of some kinds, along their line (`i128`, `i32` and `Bin`), and those below a constant or equal to it.
//! - A `Domain` is a `Reach` of the kind that a column has. `Domain::of` gives exactly the values of a column at which a condition may
//!   hold, `has_some` says whether some of them lie between two cells, and `values` lists them where they are few.
//! - `Kept` defines which spots are kept: where no row can meet the condition, nothing need be read. `pruning_is_sound` is a theorem: a row
//!   that stands in a named spot, and for which the condition is TRUE, stands in a kept one. They aren't computed yet.
//!
//! It stands on `pt_interval`, `pt_db`, `pt_place`, `pt_expr`, `pt_ast`, `pt_value` and `pt_plain`.
#![tactic(auto)]

mod atoms;
mod comparing;
mod conditions;
mod domain;
mod following;
mod laws;
mod listing;
mod operands;
mod reach;
mod scale;
mod searching;

pub use domain::{Domain, Side};
pub use laws::pruning_is_sound;
pub use reach::Reach;
pub use scale::Scale;

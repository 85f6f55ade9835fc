//! Which partition a value or a tuple of columns belongs to, under RANGE, LIST and their COLUMNS forms, and which bounds and lists a
//! table may have.
//!
//! - `Probe` is what is looked up: the value of an expression, or the cells of columns.
//! - `Ranges::find_range` gives the first partition whose bound is above the probe, and the first for NULL under RANGE
//!   (`range_found`). It searches by halves. `Ranges::check` gives the first position with a fault and its code (`range_fault`).
//! - `Lists::find_list` gives the first partition whose list has the probe (`list_found`), and `Lists::check` the first position with
//!   a value that stands already (`list_fault`).
//! - `one_tuple` and `one_list` are theorems about the definitions: no two tuples tie, and where no value stands twice no two
//!   lists have the same tuple.
//!
//! Positions count from 0. None of the calls takes memory. It stands on `pt_ast`, whose `specs/` have the definitions, and `pt_value`.
#![tactic(auto)]

mod compare;
mod laws;
mod lists;
mod probe;
mod ranges;

pub use laws::{one_list, one_tuple};
pub use lists::Lists;
pub use probe::Probe;
pub use ranges::Ranges;

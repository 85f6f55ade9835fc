//! Sets of the values of a column, kept as spans in rising order: what a condition leaves of a column's values.
//!
//! - `Line` is a trait with laws (`IsLine`): a total order whose values `is_value` tells, with a least value and above each but a
//!   greatest one a next one. Its lines are the whole numbers of 128 bits (`i128`), the days that DATE holds (`i32`) and byte strings
//!   of any length (`Bin`), where the next one has one more byte 0 at its end.
//! - `Spans<T>` is a set of values. Contracts see the list of its spans, each from a value on and below another or without end, and
//!   `has` of `specs/Spans` says by cases over that list which values are in the set. The clause of each other call is an equation of
//!   truths for every value: `all`, `none`, `point`, `below`, `from`, `between`, `meet`, `join`, `outside`, `join_all`.
//! - `values` gives all values in rising order, each once, and None exactly where they are more than the limit (`AreValues`);
//!   `count_up_to` tells how many there are, at most the limit (`IsCount`); `is_empty` shows a value where it is false.
//!
//! `meet`, `outside` and `join` go once over each set, and `join_all` joins by halves. Values are counted by `Line::gap`, which doesn't
//! go through them. It stands on `pt_plain` and `pt_value`.
#![tactic(auto)]

mod bytes;
mod line;
mod listing;
mod meeting;
mod numbers;
mod outside;
mod span;
mod spans;

pub use line::Line;
pub use span::Span;
pub use spans::Spans;

//! What is refused of the statements on rows by looking at the statement and the definition alone, the cells that a row is given, which rows
//! a statement takes, in which order, and what is printed of them.
//!
//! - `bad_parts` looks at a PARTITION list, `bad_columns` at the list of columns, `bad_query` at expressions, WHERE and ORDER BY, and
//!   `bad_tail` at the latter two: each gives the first refusal in the order of the statement, by the definition of its name.
//!   `bad_update` looks at the assignments of UPDATE and then at these two.
//! - `new_cells` gives the cells of a row of VALUES, or why it has none (`cells_of`); `targets` says once for all rows which columns their
//!   values are for. `updated_cells` gives the cells of a row once assignments are made, or why it is refused, and `set_targets` the columns
//!   that they set; `are_same` tells whether a value has changed.
//! - `wanted` tells whether a row is one of a query (`is_wanted`), `row_order` which of two comes first (`row_cmp`), and `arranged` and
//!   `candidates` give the rows that a statement takes, in its order.
//! - `print_row` and `select_text` print rows (`row_text`, `select_text`).
//!
//! It stands on `pt_place`, `pt_expr`, `pt_ast`, `pt_value` and `pt_plain`.
#![tactic(auto)]

mod arranging;
mod assigning;
mod assigns;
mod faults;
mod named;
mod new_row;
mod ordering;
mod printing;
mod queries;
mod values;
mod wanting;

pub use arranging::{arranged, candidates};
pub use assigning::{are_same, updated_cells};
pub use assigns::{bad_update, set_targets};
pub use faults::CellsFault;
pub use named::{Targets, bad_columns, bad_parts, targets};
pub use new_row::new_cells;
pub use ordering::{Order, order_of, row_order};
pub use printing::{print_row, select_text};
pub use queries::{bad_query, bad_tail};
pub use wanting::wanted;

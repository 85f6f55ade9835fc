//! Which definitions a table may have, and where a row belongs.
//!
//! - `place` gives the spot of a row, by the partitioning and then by the subpartitioning (`place_of`).
//! - `leaf` gives the name of a spot (`leaf_of`), and `in_set` tells whether a list of names has it (`is_in_set`).
//! - `valid` gives the first check that a definition fails, in the order of CREATE TABLE (`refusal_of`).
//! - `storable_is_placed` is a theorem: a storable definition meets what `valid` asks of it.
//! - `one_spot` is a theorem: rows that agree on a unique key of a valid definition have the same place (`OneSpot`). So one place's rows
//!   tell whether a row agrees with others (`taken_in_spot`, `TakenInSpot`).
//!
//! None of the calls takes memory. It stands on `pt_expr`, `pt_bounds`, `pt_hash`, `pt_ast`, `pt_value` and `pt_plain`.
#![tactic(auto)]

mod bounds;
mod columns;
mod fitting;
mod keys;
mod kinds;
mod laws;
mod names;
mod part_names;
mod parts;
mod placing;
mod spot;
mod used;
mod validity;
mod values;

pub use laws::{one_spot, storable_is_placed, taken_in_spot};
pub use placing::place;
pub use spot::{in_set, leaf};
pub use validity::valid;

// What `pt_complete` asks of a text by the same definitions.
pub use fitting::{bytes_in_range, day_in_range, is_primary, is_unique, wide_in_range};
pub use keys::lacking_key;
pub use kinds::{bad_expr, is_range, key_of_none, sub_of_number};
pub use names::{is_among, same};
pub use parts::too_many;
pub use used::{column_of, names_column};
pub use values::{kind_of, width};

//! What the text of CREATE TABLE is checked for, and what it says of columns, keys and kinds of partitioning.
//!
//! - `complete_of` of `specs/Complete.antt` is what a text means: the complete definition, or the first refusal, in the order of CREATE
//!   TABLE. All names, numbers and constants are worked out.
//! - The checks of a text, each with the clause that it is its definition: of a column's length and default (`is_too_long`,
//!   `is_constant_out`, `is_default_wrong`), of keys (`bad_keys`), of the kinds of partitioning (`bad_written_kinds`), of numbers
//!   (`bad_written_counts`), and of VALUES (`all_bad_written_values`).
//! - What a table is partitioned by is made (`by_of`, `sub_of`).
//!
//! It stands on `pt_place`, which has the checks that a complete definition shares.
#![tactic(auto)]

mod constants;
mod key_texts;
mod made_kinds;
mod renamed;
mod written_columns;
mod written_counts;
mod written_items;
mod written_keys;
mod written_kinds;
mod written_tuples;
mod written_values;

pub use constants::integer_in;
pub use key_texts::bad_keys;
pub use made_kinds::{by_of, sub_of};
pub use renamed::own_name;
pub use written_columns::{
    default_written, has_primary, is_constant_out, is_default_wrong, is_too_long, says_not_null,
};
pub use written_counts::{bad_written_counts, defined, part_count, sub_count};
pub use written_keys::places_of;
pub use written_kinds::bad_written_kinds;
pub use written_values::all_bad_written_values;

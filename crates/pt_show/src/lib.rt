//! Definitions of tables as they are shown and compared.
//!
//! - `show_create` gives the text of SHOW CREATE TABLE (`shown_table` of `specs/Show.antt`).
//! - `same_structure` tells whether two tables may exchange rows (`same_structure` of `specs/Structure.antt`). It takes no memory.
//!
//! It stands on `pt_defs`, which has the positions of columns and the ranks of keys as numbers.
#![tactic(auto)]

mod show;
mod show_expr;
mod structure;

pub use show::show_create;
pub use structure::same_structure;

//! Definitions of tables: their bytes, both ways.
//!
//! - `def_bytes` writes the one spelling of a definition, which is read to it (`IsFileOf` of `specs/Files.antt`).
//! - `def_of_bytes` reads it, field by field in the order of the file, and tells the place of the first field that can't be read
//!   (`def_at` of `specs/Reading.antt`).
//! - `one_spelling` is a theorem: reading gives a definition exactly where the bytes spell it, so a definition has one spelling, and
//!   bytes spell one definition.
//!
//! Writing and reading take memory in proportion to the definition, and time in proportion too, but that the columns of an expression
//! are looked up by name, in the logarithm of how many the table has. `def_fits` and its parts tell, as a fact for contracts, that
//! the numbers and names of a definition in memory fit their types; they change nothing.
//!
//! It stands on `pt_ast`, and on `pt_bytes` for numbers.
#![tactic(auto)]

/// What is read, or the stop handed on. The borrow checker doesn't cover `?` at a value that holds a name beside a reference.
macro_rules! front {
    ($read:expr) => {
        match $read {
            Ok(front) => front,
            Err(stop) => return Err(stop),
        }
    };
}

mod fault;
mod fitting;
mod get_def;
mod get_expr;
mod get_item;
mod laws;
mod named;
mod put_def;
mod put_expr;
mod put_item;

pub use fault::DefRead;
pub use fitting::{def_fits, name_fits, parts_fit};
pub use get_def::def_of_bytes;
pub use laws::one_spelling;
pub use put_def::def_bytes;
pub use put_item::rank_code;

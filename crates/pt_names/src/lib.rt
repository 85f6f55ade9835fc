//! The names of a database's files, and whose file a name is.
//!
//! - `def_name` and `row_name` name the files of a table's definition and of its rows, those of a partition behind a `#` and with
//!   the partition's name in lower case (`def_name`, `row_name` of `specs/Names.antt`).
//! - `owner_of` tells whose file a name is, and `Other` exactly where it is nobody's (`IsOwner`).
//! - `one_owner`: distinct tables and partitions have distinct names, partitions compared without case, and each name that was made
//!   is told as whose it is.
//!
//! No call takes memory. It stands on `pt_host` and `pt_value`.
#![tactic(auto)]

mod laws;
mod made;
mod owner;

pub use laws::one_owner;
pub use made::{def_name, row_name};
pub use owner::{Owner, owner_of};

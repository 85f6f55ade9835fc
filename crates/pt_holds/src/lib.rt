//! Which database files hold, and what a change of rows adds to them.
//!
//! - `Holds` says, name by name, which database a map of files holds: a definition and a row file for each spot of each table, no
//!   other row file, and the counter. `Bad` says what of a file is damaged, and where.
//! - `file_of` is the name of the file of a spot's rows (`spot_file`).
//! - `holds_at_most_one`: files hold one database at most. `empty_holds`: no files, or an empty counter alone, hold the empty one.
//! - `one_alteration`: where a table gets another definition, its rows are determined.
//! - `RowChange` and `ShapeChange` are the changes that are made of files; `IsChangeOf` and `IsShapeOf` say which database they make
//!   of another.
//! - `batch_of` gives the bytes that a change of rows adds to each file (`IsBatchOf`). With them files that held a database hold the
//!   changed one (`written_holds`); so they do with the files of a table that comes, without those of one that goes, with those of one
//!   that has another definition, and where two files change sides (`created_holds`, `dropped_holds`, `altered_holds`,
//!   `exchanged_holds`).
//!
//! It stands on `pt_db`, `pt_place`, `pt_defs`, `pt_rowfile`, `pt_names`, on the words of `pt_store` and `pt_host` for maps of files,
//! and on the crates below these. No call touches a disk.
#![tactic(auto)]

mod batch;
mod change;
mod laws;

pub use batch::{batch_of, file_of};
pub use change::{RowChange, ShapeChange};
pub use laws::{empty_holds, holds_at_most_one, one_alteration};

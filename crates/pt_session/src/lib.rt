//! The session: a directory that was opened, as statements look at it and change it.
//!
//! - `table`, `table_at` and `next_serial` tell the definitions and the next serial (`def_of`, `tables_of`). Over every host an open
//!   session's definitions are storable and valid, and its store has the files of its tables and no others (`IsOpen`).
//! - `begin` reads the counter and the definitions. That each table has its row files, and that there are no others, it checks by their
//!   names alone: it reads no row file. What is damaged it tells by a file and a place (`IsDamaged`).
//! - Where its store stands for a map, the session stands for the database that the map holds (`StandsIn`, `IsSession`).
//! - `rows` gives the rows of a spot, or the place of the first record in its file that is damaged (`AreBadRows`).
//! - `write_rows` changes the rows of a table, `create_table` adds a table that has none, `drop_table` takes one away, `alter_table` gives
//!   one another definition, and `exchange` lets the rows of a spot and those of another table change sides. At every moment each image
//!   stands for the old map or another one, which holds the changed database where the old one held one (`IsStep`, `Leaves`). A fault
//!   leaves the session failed, any other stop leaves it as it was (`IsOpenAfter`).
//! - `Executes` is what a statement leaves and answers; `proofs/Executing.antt` has each end of one: a refusal, an answer that changes
//!   nothing, a stop, a change that was kept and one that wasn't.
//!
//! It stands on `pt_holds`, `pt_store` and `pt_db` and on the crates below these, and on `indexmap` for the tables by name.
#![tactic(auto)]

mod altering;
mod files;
mod looking;
mod opening;
mod session;
mod shaping;
mod strays;
mod tables;
mod writing;

pub use session::Session;

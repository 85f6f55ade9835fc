//! The rows that a statement takes of a table, read over a session: those of SELECT, UPDATE and DELETE.
//!
//! - `candidates` reads, in order, the row files of the spots that the PARTITION list leaves and no others (`spots_read`), and keeps of
//!   each only the rows for which WHERE is TRUE. They are the model's `candidates` of the table's rows.
//!
//! It stands on `pt_session` for the rows of a spot, and on `pt_checks` for which rows are wanted, and in which order.
#![tactic(auto)]

mod reading;
mod spots;
mod taking;

pub use taking::candidates;

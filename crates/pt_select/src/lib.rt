//! SELECT and SHOW CREATE TABLE, executed over a session.
//!
//! - `execute` answers one of these statements as the model does (`step`), and changes neither files nor session (`Tells`).
//! - SELECT reads the row files of the spots that its PARTITION list leaves and no others (`pt_candidates`). SHOW CREATE TABLE reads no
//!   file.
//!
//! It stands on `pt_candidates` for the rows that a query takes, on `pt_checks` for what it refuses and prints, and on `pt_show` for the
//! text of a definition.
#![tactic(auto)]

mod executing;
mod selecting;
mod showing;

pub use executing::execute;

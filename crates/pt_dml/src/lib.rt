//! INSERT, INSERT IGNORE and REPLACE, executed over a session.
//!
//! - `execute` leaves the database that the model's `step` says, and answers its reply (`Tells`). A refusal leaves files and session as they
//!   were.
//! - A row is compared with the rows of its spot alone, by the key book of the spot (`pt_books`), which is read when the first row goes
//!   there. Where the table has no unique key, no row file is read.
//! - REPLACE takes the rows that agree with a new row out of its spot's book, one after the other: a row of the table is deleted, and one
//!   that the statement put itself is put no longer.
//! - All changes are written at once, with the next serial; a statement that adds no row writes nothing.
//!
//! It stands on `pt_books`, `pt_session`, `pt_checks` and `pt_place`, and on the model of `pt_flat` for what it means.
#![tactic(auto)]

mod checking;
mod entering;
mod executing;
mod filling;
mod inserting;
mod work;

pub use executing::execute;

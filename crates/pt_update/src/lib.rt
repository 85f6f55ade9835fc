//! UPDATE and DELETE, executed over a session.
//!
//! - `execute` leaves the database that the model's `update` or `delete` says, and answers its reply (`Tells`). A refusal leaves files
//!   and session as they were.
//! - The rows that a statement takes are taken once, before the first change, from the spots that its PARTITION list leaves.
//! - UPDATE goes over them one by one. A row whose values change goes from the key book of its spot to that of the spot where its new
//!   cells belong, and is compared with the rows there as they are then (`AreBooks`). A spot's book is read when a row first comes from
//!   there or goes there. Where the table has no unique key, no further row file is read.
//! - A row whose values stay the same is counted and not written. All changes are written at once; a statement that makes none writes
//!   nothing.
//!
//! It stands on `pt_candidates`, `pt_books`, `pt_session` and `pt_checks`, and on the model of `pt_flat` for what it means.
#![tactic(auto)]

mod checking;
mod deleting;
mod executing;
mod keeping;
mod moving;
mod updating;
mod work;

pub use executing::execute;

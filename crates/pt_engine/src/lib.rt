//! The engine: the top call `run`, which does all that the program does.
//!
//! `run` executes a script over the directory that it enters. What it promises, over every host that tells its content:
//!
//! - Run on a directory that holds a database, at any moment every image that a stop may leave holds the database after the
//!   first k statements, where the answers to k - 1 of them are printed whole and nothing is printed past the k-th's (the
//!   clause `headline`; `KeepsInOrder` of `specs/Kept.antt`).
//! - What is printed and held at each ending (`stands`), when each ending comes (`usage`, `causes`, `damage`, `complete`), and
//!   that no other directory is entered (`dir`).
//! - A script of statements that leave the database as it is writes and syncs nothing (`idle`). An ALTER TABLE that is not refused counts as a
//!   change.
//!
//! A damaged file is told when it is read: a definition or the counter when the directory is opened, a row file by the statement
//! that reads it. Then the directory held no database, and nothing else is promised of it.
//!
//! `input` takes the script, `answers` reads and answers it statement by statement, `executing` hands a statement to the crate of
//! its kind (`execute`, which tells what `pt_session` calls `Tells`), `program` is the top call, `ending` the status and the line.
//!
//! It stands on `pt_reading` for the script, on `pt_session` for the directory, on `pt_alter`, `pt_dml` and `pt_select` for the
//! statements, on `pt_flat` for what they mean, and on `itoa`.
#![tactic(auto)]

mod answers;
mod ending;
mod executing;
mod input;
mod program;

pub use ending::{Ending, code, line};
pub use executing::execute;
pub use program::run;

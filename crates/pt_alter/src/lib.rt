//! CREATE TABLE, CREATE TABLE LIKE and DROP TABLE, executed over a session.
//!
//! - `execute` takes such a statement: what it leaves and answers is what the model's `step` says of each database that the session
//!   stands for (`Tells`), and every moment of the way is the database before or after. A statement that is refused or does nothing
//!   touches no file.
//!
//! It stands on `pt_session`, on `pt_complete` for the definition that a text means, and on `pt_flat` for what statements mean.
#![tactic(auto)]

mod definitions;
mod executing;

pub use executing::execute;

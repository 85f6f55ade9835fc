//! The engine's model: what a statement does to a database, and what it answers.
//!
//! - `step` takes a statement: the reply is `answer` and the database that it leaves is `after`, both of `specs/Step.antt`. Each statement
//!   has a file of its own there, with its checks in their order. A sound database stays sound.
//! - `is_covered` tells whether a statement has a step so far: CREATE TABLE, CREATE TABLE LIKE, DROP TABLE, SHOW CREATE TABLE, INSERT,
//!   REPLACE, UPDATE, DELETE and SELECT.
//!
//! It is plain and slow: rows are copied, each row is compared with each other row of its table, and the engine's own code is used nowhere.
//! It stands on `pt_checks` for what is refused by looking at the statement and the definition alone, on `pt_db` for databases, on
//! `pt_complete` for definitions and on `pt_show` for their text.
#![tactic(auto)]

mod definitions;
mod deleting;
mod filling;
mod inserting;
mod keys;
mod lookup;
mod model;
mod selecting;
mod shown;
mod updating;

pub use filling::{Filling, InsertMode};
pub use model::{is_covered, step};
pub use updating::Updating;

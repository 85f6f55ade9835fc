//! What ALTER TABLE does to a database: the model of its actions on partitions, but for EXCHANGE.
//!
//! - `alter` takes such a statement: the reply and the database that it leaves are those of `altered` in `specs/Altered.antt`, an instance for
//!   each action in `specs/Actions.antt`. A sound database stays sound.
//!
//! It is plain and slow: rows are copied. It stands on `pt_actions` and `pt_regrouped` for what becomes of a definition, on `pt_checks` for
//! rows in named partitions, and on `pt_db` for databases.
#![tactic(auto)]

mod counting;
mod dropping;
mod keeping;
mod lookup;
mod model;
mod regrouping;
mod remaking;
mod rows;

pub use model::{alter, is_altering};

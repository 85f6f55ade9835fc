//! What EXCHANGE PARTITION does to a database: the model of ALTER TABLE with two tables.
//!
//! - `exchange` takes such a statement: the reply and the database that it leaves are those of `exchange` in `specs/Exchanged.antt`. The rows
//!   of the partition, or of the subpartition, and all rows of the other table change sides with their serials.
//!
//! It is plain and slow: rows are copied. It stands on `pt_show` for tables of the same structure, on `pt_checks` for names of partitions, and
//! on `pt_db` for databases.
#![tactic(auto)]

mod checking;
mod exchanging;
mod lookup;
mod rows;
mod spots;

pub use exchanging::exchange;

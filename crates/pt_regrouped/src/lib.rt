//! The definition that a table has after ADD PARTITION and after REORGANIZE PARTITION, or what is refused of the statement.
//!
//! - `added` gives a table by RANGE or LIST more partitions, behind those that it has (`added_of` of `specs/Regrouped.antt`).
//! - `regrouped` puts new partitions in the place of some that stand in a row (`regrouped_of`).
//!
//! What they give is storable and valid, where the table was. Rows play no part: a row that the new partitions don't take is refused
//! where rows are placed. It stands on `pt_complete` and `pt_written`, which make and check partitions as they are written, and on
//! `pt_distinct`, which finds what stands twice, so the work grows hardly faster than the table and the text.
#![tactic(auto)]

mod adding;
mod bounding;
mod comparing;
mod copying;
mod counting;
mod grouping;
mod listing;
mod naming;
mod regrouping;

pub use adding::added;
pub use regrouping::regrouped;

//! Where the rows of a table stand under another definition: spot by spot, or the first that no partition takes.
//!
//! - `spread` takes rows in any order. By rising serial it looks for the first that has no place (`first_unplaced`), and else gives for each
//!   spot of the definition, in the order of `spots_of`, the rows that are placed there (`rows_by_spot`). It takes time n log n in the rows.
//! - `proofs/Given` says of these lists what a session asks of the rows that an altered table is given: each spot once, each row as it was,
//!   and for each spot the rows that the table has there.
//!
//! It stands on `pt_db` for the spots, on `pt_place` for the place of a row, and on `pt_checks` for lists in an order.
#![tactic(auto)]

mod buckets;
mod counts;
mod fault;
mod spreading;

pub use fault::SpreadFault;
pub use spreading::{SpotRows, spread};

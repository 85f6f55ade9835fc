//! What a change of a table's partitions that writes no new ones makes of a definition, and what is refused of it.
//!
//! - `dropped` is DROP PARTITION (`dropped_of`); `bad_truncated` tells what is refused of TRUNCATE PARTITION, which leaves the
//!   definition.
//! - `unpartitioned` is REMOVE PARTITIONING (`unpartitioned_of`), and `repartitioned` is PARTITION BY (`repartitioned_of`).
//! - `coalesced` is COALESCE PARTITION (`coalesced_of`), and `with_more` is ADD PARTITION PARTITIONS (`with_more_of`).
//!
//! Of a storable and valid definition each makes one that is storable and valid, or gives the first check that fails, in the order of
//! the statement. Names are looked up as they come, so the work grows hardly faster than the definition. It stands on `pt_complete`,
//! `pt_written`, `pt_distinct` and `pt_place`.
#![tactic(auto)]

mod counting;
mod dropping;
mod naming;
mod numbering;
mod remaking;
mod repartitioning;

pub use counting::coalesced;
pub use dropping::{bad_truncated, dropped};
pub use numbering::with_more;
pub use repartitioning::{repartitioned, unpartitioned};

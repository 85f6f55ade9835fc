//! What the text of CREATE TABLE means: the complete definition, or what is refused.
//!
//! - `complete` gives the definition that a text means, or the first refusal, in the order of CREATE TABLE (`complete_of` of
//!   `pt_written`).
//!
//! Names of columns and partitions, and values of lists, are looked up as they come, so the work grows hardly faster than the text.
//! It stands on `pt_written`, which has the checks of a text, and on `pt_distinct`, which finds what stands twice.
#![tactic(auto)]

mod columns_made;
mod defaults;
mod fault;
mod items_made;
mod keys_made;
mod made_names;
mod parts_bounded;
mod parts_named;
mod subpartitions;
mod whole;

pub use fault::DefFault;
pub use items_made::bounds_of;
pub use made_names::part_name;
pub use parts_bounded::bad_parts_bounds;
pub use subpartitions::subs_named;
pub use whole::{complete, partitioned};

//! The chain of acts by which a directory's names change in one step.
//!
//! - `Act` and `Chain` are plain data: deletes, renames, replacements and an exchange, by names of files.
//! - `is_clean` tells the chains that a directory may be changed by (`IsClean`). It takes no memory.
//! - What a chain makes of files is `act_on`: its acts, one after the other.
//! - `one_act_each` and `in_any_order` are theorems about clean chains: a name becomes what its one act makes of it, and the
//!   order of the acts plays no part.
//!
//! It stands on `pt_host` for names and `pt_plain`.
#![tactic(auto)]

mod chain;
mod clean;
mod laws;

pub use chain::{Act, Chain};
pub use clean::is_clean;
pub use laws::{in_any_order, one_act_each};

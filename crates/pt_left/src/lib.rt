//! What a directory stands for: a map from file names to bytes.
//!
//! - The map is the one that `whole.map` spells (`specs/Spelling.antt`), with an empty `serials.cnt` where it has none. A
//!   missing `whole.map` spells the empty map, and all other files mean nothing (`Left`).
//! - A directory stands for one map at most: a law on a public function (`stands_for_one_map`).
//! - Where a directory is damaged, `whole.map` is named at its first byte (`IsWhole`).
//!
//! The definitions speak of files alone: what is written to a directory, and what is read of it, cites them in the crates
//! above.
//!
//! It stands on `pt_host` and `pt_plain`.
#![tactic(auto)]

mod law;
mod names;

pub use law::stands_for_one_map;
pub use names::{serials, shadow, whole};

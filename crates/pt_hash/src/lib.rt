//! Which of n partitions a number or a key goes to, under HASH, LINEAR HASH, KEY and LINEAR KEY.
//!
//! - `hash_part` and `linear_part` are the definitions of these names, of every number of 128 bits and of NULL.
//! - `key_step` takes one column more into a key number, and `key_part` places that number by the same two rules.
//! - `split_source` is the partition that rows leave where n partitions become n + 1 under a LINEAR rule.
//! - `linear_split`, `one_power` and `one_residue` are theorems about the definitions: no other value moves then, and none but to
//!   the new partition; the powers of two and the residues that the rules speak of are what they are said to be.
//!
//! Partitions count from 0. None of the calls takes memory. It stands on `pt_value`, whose `specs/Hashes.antt` has the definitions.
#![tactic(auto)]

mod hash;
mod key;
mod laws;

pub use hash::{hash_part, linear_part, split_source};
pub use key::{key_part, key_step};
pub use laws::{linear_split, one_power, one_residue};

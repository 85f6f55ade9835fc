//! ALTER TABLE on partitions, executed over a session.
//!
//! - `redefine` gives a table another definition and the rows of those spots that are given; the rows of each other spot stay in their
//!   file. Of every statement that means this of each database that the session stands for, it tells what its execution has to tell
//!   (`TellsAlter`). A statement that reads rows first says what it tells with them by `looked_first`.
//! - `truncate` executes TRUNCATE PARTITION: the definition stays and the rows of the named partitions go. It looks at no row file.
//!
//! It stands on `pt_session`, on `pt_actions` for what is refused of a change of partitions, and on `pt_spread` for rows by spot.
#![tactic(auto)]

mod emptying;
mod redefining;
mod truncating;

pub use redefining::redefine;
pub use truncating::truncate;

//! The outside as the engine meets it: a directory of files on a disk that a stop may interrupt, standard input and
//! standard output.
//!
//! - `Name` is the name of a file. Contracts see its bytes.
//! - `Host` is the trait of all calls on the outside. Where a host tells its content (`tells`), each call's clauses say
//!   what it does to the world (`specs/World.antt`), and whether it tells or not, when it may fail.
//! - `Image` is a directory at rest: what a stop may leave, and what a run starts on. What a stop may leave is
//!   `IsImage` of `specs/Disk.antt`.
//!
//! The lemmas on images, held files and runs of calls stand in `proofs/` and speak of no host type.
//!
//! It stands on `pt_plain`.
#![tactic(auto)]

mod host;
mod image;
mod name;

pub use host::{Host, HostFail};
pub use image::{FileList, Image};
pub use name::Name;

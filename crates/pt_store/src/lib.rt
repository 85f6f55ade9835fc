//! A map from file names to bytes, held in one file of a directory.
//!
//! A `Store` is attached to the directory that a host entered. It knows the names of the map's files with their lengths,
//! reads the bytes of one, adds bytes at the ends of some (`append`), and makes, replaces, deletes and exchanges files by a
//! chain of acts (`reshape`). The map always has a file `serials.cnt`. A name is sought by halves.
//!
//! What it promises:
//!
//! - At each moment of `attach`, every image of the directory stands for the map of before (`OnlyClears`), and `read` only
//!   looks (`IsLook`).
//! - `append` leaves each file with what the batch adds to it (`appended`), and `reshape` what the acts make of the map with
//!   the fresh bytes under their shadows (`IsReshaped`; name by name by the law `reshapes_by_name`).
//! - At each moment of these two and of `replace`, every image stands for the old map or the new one, and for the new one once
//!   the call has answered `Ok` (`IsStep`). Want of memory leaves map and store as they were; after a fault the store is no
//!   longer live.
//! - `Fault` is answered only where the host's count of disk faults rose in that call (`IsCounted`), for every host.
//!
//! The next map is made whole in memory, before the disk is touched. Then `whole.map` is replaced by its shadow: an old shadow
//! is removed, the new one is made, filled and synced, and then renamed, with a sync of names after each change of names that
//! the next step rests on.
//!
//! It stands on `pt_left`, which says what a directory stands for (`Left`), `pt_ddl_log` for chains, `pt_host` and `pt_plain`.
#![tactic(auto)]

mod changes;
mod contents;
mod disk;
mod entry;
mod fetch;
mod law;
mod parse;
mod serials;
mod spell;
mod stop;
mod store;
mod swap;

pub use law::reshapes_by_name;
pub use stop::Stop;
pub use store::Store;

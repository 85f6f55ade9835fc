//! A host in memory, on which the engine's crates are tried: it keeps its files, its input and what was said, and each call
//! that moved its world on.
//!
//! - `MemHost` is a `Host` that tells all of its content. Its world is what the calls lead to from the start (`world_of` of
//!   `specs/Story.antt`). What it holds beside them mirrors that world at each step (`Mirrors` of `specs/State.antt`).
//! - A call fails exactly where its number was ordered, the fuse is spent, memory was wanting inside it, or a write's end
//!   would pass 2^62, and its clause `obeys` says what it has then done (`Obeys` of `specs/Turns.antt`).
//! - `MemHost::image_pick` gives an image that a stop may leave now (`specs/Pick.antt`).
//!
//! It stands on `pt_host` and `pt_plain`.
#![tactic(auto)]

mod disk;
mod event;
mod host;
mod kept;
mod names;
mod object;
mod pick;
mod read;
mod room;
mod start;
mod state;

pub use event::Event;
pub use host::MemHost;

//! The outside as it is: a real directory, standard input and standard output.
//!
//! `DirHost` implements `Host` over the runtime and tells no content. What is proved of it is what each call answers to
//! its caller: a failure only where the count of its kind rose, no more bytes than the buffer holds, no write whose end
//! passes 2^62. That a call does to the directory what `Host` says of it is not proved and has to be read in
//! `system.rt` and `folder.rt`: they are the edge that every theorem over `Host` trusts, together with the system below.
//!
//! It stands on `pt_host`.
#![tactic(auto)]

mod dir_host;
mod folder;
mod reading;
mod system;

pub use dir_host::DirHost;

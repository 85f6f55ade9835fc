//! What is found twice, in time near to linear.
//!
//! - `Names` are names without the case of their letters. Contracts see the list of those added, in order: `has` tells whether a name
//!   is among them (`is_among`).
//! - `bounds_refusal` gives the first partition whose bound or list of values may not stand there, as `bad_bounds` tells it.
//!
//! Memory is taken for what is found twice alone. It stands on `pt_place`, `pt_bounds`, `pt_ast`, `pt_value` and `pt_plain`.
#![tactic(auto)]

mod lists;
mod names;
mod ranges;
mod refused;
mod tuple;

pub use names::Names;
pub use refused::bounds_refusal;

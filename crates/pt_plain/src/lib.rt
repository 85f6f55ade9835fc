//! Plain data that contracts see as values.
//!
//! - `List`: a `Vec` carries a capacity and an allocator, so two of them with the same elements are two values. A `List`
//!   is its elements and nothing else: equal lists are equal values, in structs, enums and tuples too.
//! - `Held`: the same of a `Box`, which is the value in it. A type may hold itself through both.
//! - `padded` and `joined`: short byte strings in arrays, with zeros after them, for names that are `Copy`.
//!
//! It stands on std alone.
#![tactic(auto)]

mod held;
mod list;
mod short;

pub use held::Held;
pub use list::List;
pub use short::{joined, padded};

//! Numbers in bytes, the lowest byte first: what every file of a table is made of.
//!
//! - `Cursor` reads a part of bytes by its place and its length (`part_at`), and the number of that part (`number_of`). It answers
//!   `None` exactly where fewer bytes are left.
//! - `put_u8`, `put_u16`, `put_u32`, `put_u64` and `put_bytes` append exactly the bytes of a number (`le_bytes`), or those handed in.
//! - `one_number`: n bytes are determined by their number, both ways (`OneNumber`).
//!
//! Only the calls that append take memory. It stands on `byteorder`.
#![tactic(auto)]

mod cursor;
mod laws;
mod put;

pub use cursor::Cursor;
pub use laws::one_number;
pub use put::{put_bytes, put_u8, put_u16, put_u32, put_u64};

//! Key books of the spots of a table: what statements that change rows know of the rows that stand there.
//!
//! - A spot has a book once its rows were read (`load`), and the book has an entry for each of its rows as they are now; the rows of a
//!   spot without a book are as they were when the statement began (`AreBooks`).
//! - `enter` adds a row to the book of its spot, unless one of it agrees with the row: rows that agree on a unique key have one spot, so
//!   its book decides for the whole table. `remove` takes a row out.
//! - Where a table has no unique key (`is_keyed`), no row file is read.
//! - `Halt` is why a statement isn't carried out: it is refused, or a call stopped.
//!
//! It stands on `pt_session` for the rows of a spot and on `pt_unique` for the books.
#![tactic(auto)]

mod books;
mod halt;
mod loading;

pub use books::{Books, enter, has_book, is_keyed, remove};
pub use halt::Halt;
pub use loading::{is_named_spot, load};

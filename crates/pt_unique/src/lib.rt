//! Key books: which rows stand in a table, or in one partition of it, by the values of their unique keys.
//!
//! - A `KeyBook` is seen as a `Book`: the columns of its definition's unique keys, and by rising serial an entry for each row, its
//!   cells in the columns of these keys. It keeps no other cell of a row.
//! - `enter` answers `Taken` exactly where a row of the book agrees with the new one, and else adds it: `IsFree`, `IsTaken`. `leave`
//!   takes a row out and no other, and so does `remove` by its serial.
//! - `agreeing` says that a book's word for it (`shares`) is `agree_on` of the rows' cells, so `agrees` of a definition.
//! - A row is looked for by the values of a key, so `enter` takes the same time however many rows there are, but for finding its
//!   place by serial. A serial names one row: a row that is entered under the serial of another takes its place.
//!
//! It stands on `pt_ast`, `pt_value` and `pt_plain`, and on `indexmap`.
#![tactic(auto)]

mod book;
mod fault;
mod holders;
mod laws;
mod tuple;

pub use book::KeyBook;
pub use fault::KeyFault;
pub use laws::agreeing;

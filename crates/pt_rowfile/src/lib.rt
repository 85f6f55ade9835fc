//! Row files: the rows of one spot of a table as records, one after the other, each of which puts a row or deletes one.
//!
//! - `rows_of` gives the rows that the records leave, by rising serial (`SpellsRows`), or the place of the first record that isn't
//!   proper (`IsBadAt`).
//! - `put_bytes` and `delete_bytes` append exactly one record (`record_bytes`, `IsRecord`), so `appended` holds of it.
//! - `one_record`: no record begins another, so bytes are those of one list of records at most; `appended` says what a record
//!   behind a file's bytes leaves, and `one_file` that the rows are a function of the bytes.
//! - `put_place` is the place of the record that put the row of a serial (`IsPlaceOf`).
//! - `counter_of` is the next serial by the bytes of `serials.cnt`, or the place of their damage.
//!
//! It stands on `pt_bytes`, `pt_ast`, `pt_value` and `pt_plain`. The time of `rows_of` grows with the bytes, but for a map of the
//! serials; it takes no memory by a count that stands in the file.
#![tactic(auto)]

mod counter;
mod fault;
mod laws;
mod place;
mod record;
mod rows;
mod source;
mod written;

pub use counter::counter_of;
pub use fault::RowFault;
pub use laws::{appended, one_file, one_record};
pub use place::put_place;
pub use record::Record;
pub use rows::rows_of;
pub use written::{delete_bytes, put_bytes};

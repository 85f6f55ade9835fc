//! Values, dates and identifiers: what a cell of a table holds, how it is compared, whether it fits a column, and its text.
//!
//! - `Ident` is a name of a table, a column or a partition. `Ident::of` makes one exactly where `IsIdent` holds of the bytes,
//!   and else says by `IsNameFault` what is wrong first.
//! - `Value` is ordered by `value_cmp`, which is total; `fits` tells `Fits`, `show` gives `shown`, and `cell` and `copy` the same
//!   value.
//! - `Truth` has three values; AND is the `least`, OR the `greatest`, NOT the `turned`.
//! - A day is a count of days from 1970-01-01. Its parts are those of `date_of`, the calendar's date of that day, and
//!   `day_of_text` gives the day that bytes spell, where `SpellsDay` says that they do; as a function of the bytes it is `day_of`.
//! - `one_date`, `one_spelling`, `spelled_day` and `one_value` are theorems about these definitions.
//!
//! Only `show` and `copy` take memory. It stands on `pt_plain`, and for the calendar on `jiff`.
#![tactic(auto)]

mod days;
mod ident;
mod laws;
mod text;
mod truth;
mod value;
mod written;

pub use days::{
    day_of_month, day_of_text, day_of_week, day_of_year, month, quarter, to_days, weekday, year,
};
pub use ident::{Ident, NameFault};
pub use laws::{one_date, one_spelling, one_value, spelled_day};
pub use truth::Truth;
pub use value::{Bin, Cell, Kind, Value};

ghost use Rattle.std.specs.Prelude.{◌≡◌};
ghost use Rattle.pt_value.specs.Fits.{FitsDate};

use crate::text::bytes_of;
use pt_value::{
    day_of_month, day_of_text, day_of_week, day_of_year, month, quarter, to_days, weekday, year,
};
use std::alloc::{AllocError, Global};

/// The first day that a column takes, 1000-01-01.
pub const FIRST_DAY: i32 = -354_285;

/// The last one, 9999-12-31.
pub const LAST_DAY: i32 = 2_932_896;

/// Writes the day that a text spells, and its parts.
pub fn put_day_of_text(alloc: Global, out: &mut String, text: &str) -> Result<(), AllocError> {
    match day_of_text(&bytes_of(alloc, text)?) {
        Some(day) => put_parts_of(out, day),
        None => out.push_str("none"),
    }
}

/// Writes the parts of a day in digits.
pub fn put_parts(out: &mut String, text: &str) -> Result<(), AllocError> {
    match text.parse::<i32>() {
        Ok(day) => put_parts_of(out, day),
        Err(_) => out.push('?'),
    }
}

fn put_parts_of(out: &mut String, day: i32) -> Result<(), AllocError> {
    if day < FIRST_DAY || LAST_DAY < day {
        return out.push_str("none");
    }
    write!(out, "{day}")?;
    for part in parts_of(day) {
        write!(out, " {part}")?;
    }
    Ok(())
}

fn parts_of(day: i32) -> [i32; 8]
    requires { FitsDate day }
{
    [
        year(day),
        month(day),
        day_of_month(day),
        day_of_year(day),
        day_of_week(day),
        weekday(day),
        quarter(day),
        to_days(day),
    ]
}

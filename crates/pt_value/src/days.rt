ghost use Rattle.std.specs.Prelude.{◌≡◌, ◌+◌, ◌%◌, ℤ, pos, ◌+ℤ◌, IfSome, IfNone};
ghost use Rattle.jiff_core.specs.Date.{IsYmd, epoch_day, ordinal, weekday_of};
ghost use Rattle.pt_value.specs.Calendar.{date_of, day_of_year, days_after_monday, days_after_sunday, quarter_of};
ghost use Rattle.pt_value.specs.Fits.{FitsDate};
ghost use Rattle.pt_value.specs.Text.{SpellsDay, day_of};

use crate::written::Written;
use jiff::civil::Date;
use jiff_core::civil;

/// The year of a day.
pub fn year(day: i32) -> i32
    requires { FitsDate day }
    ensures { result ≡ pos (date_of day).year }
{
    date_of(day).year() as i32
}

/// The month of a day, from 1.
pub fn month(day: i32) -> i32
    requires { FitsDate day }
    ensures { result ≡ pos (date_of day).month }
{
    date_of(day).month() as i32
}

/// The place of a day in its month, from 1.
pub fn day_of_month(day: i32) -> i32
    requires { FitsDate day }
    ensures { result ≡ pos (date_of day).day }
{
    date_of(day).day() as i32
}

/// The place of a day in its year, from 1.
pub fn day_of_year(day: i32) -> i32
    requires { FitsDate day }
    ensures { result ≡ pos (day_of_year (date_of day)) }
{
    date_of(day).day_of_year() as i32
}

/// The place of a day in its week, from 1 for Sunday.
pub fn day_of_week(day: i32) -> i32
    requires { FitsDate day }
    ensures { result ≡ days_after_sunday day +ℤ pos 1 }
{
    date_of(day).weekday().to_sunday_one_offset() as i32
}

/// The place of a day in its week, from 0 for Monday.
pub fn weekday(day: i32) -> i32
    requires { FitsDate day }
    ensures { result ≡ days_after_monday day }
{
    date_of(day).weekday().to_monday_zero_offset() as i32
}

/// The quarter of a day, from 1.
pub fn quarter(day: i32) -> i32
    requires { FitsDate day }
    ensures { result ≡ pos (quarter_of (date_of day).month) }
{
    (date_of(day).month() as i32 + 2) / 3
}

/// How many days a day comes after 0000-01-01.
pub fn to_days(day: i32) -> i32
    requires { FitsDate day }
    ensures { result ≡ day +ℤ pos 719_528 }
{
    day + 719_528
}

/// The day that bytes spell as YYYY-MM-DD. `None` exactly where they are no date from 1000-01-01 to 9999-12-31 in this form.
pub fn day_of_text(bytes: &[u8]) -> Option<i32>
    ensures some { IfSome result (SpellsDay bytes.now) }
    ensures none { IfNone result ((day : ℤ) → ¬ (SpellsDay bytes.now day)) }
    ensures value { result ≡ day_of bytes.now }
{
    let written = Written::read(bytes)?;
    written.day()
}

/// The date of a day.
pub(crate) fn date_of(day: i32) -> Date
    requires { FitsDate day }
    ensures ymd { IsYmd (pos (date_of day).year) (pos (date_of day).month) (pos (date_of day).day) result }
    ensures place { ordinal result ≡ day_of_year (date_of day) }
    ensures monday { pos (weekday_of result) ≡ days_after_monday day }
    ensures sunday { pos ((weekday_of result + 1) % 7) ≡ days_after_sunday day }
{
    numbered(day)
}

/// The date with this day number.
fn numbered(day: i32) -> Date
    requires { FitsDate day }
    ensures { epoch_day result ≡ day }
{
    // The kit counts from -9999-01-01, 4,371,587 days before 1970-01-01.
    Date::from_plain(civil::Date::from_days_since_min((day + 4_371_587) as u32))
}

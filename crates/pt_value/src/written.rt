ghost use Rattle.std.specs.Prelude.{◌≡◌, ◌+◌, ◌/◌, ◌%◌, ◌<◌, ◌≤◌, ℕ, IfSome, IfNone};
ghost use Rattle.pt_value.specs.Calendar.{Date, IsDate, date_of};
ghost use Rattle.pt_value.specs.Fits.{FitsDate};
ghost use Rattle.pt_value.specs.Digits.{IsDayOf, IsShort, IsWritten};
ghost use Rattle.pt_value.specs.Text.{date_text};

use crate::days::date_of;
use jiff::civil;

/// A date as it is written in digits, whether the calendar has it or not.
#[derive(Clone, Copy)]
pub(crate) struct Written {
    pub year: u16,
    pub month: u8,
    pub day: u8,
    pub ghost short: { IsShort year month day },
}

impl Written {
    ghost use Rattle.pt_value.specs.Written.{as_date};

    /// The date of a day.
    pub fn of(day: i32) -> Written
        requires { FitsDate day }
        ensures { as_date result ≡ date_of day }
    {
        let date = date_of(day);
        Written {
            year: date.year() as u16,
            month: date.month() as u8,
            day: date.day() as u8,
        }
    }

    /// The text of the date.
    pub fn text(self) -> [u8; 10]
        ensures { result ≡ date_text (as_date self) }
    {
        let century = (self.year / 100) as u8;
        let year = (self.year % 100) as u8;
        [
            tens(century),
            ones(century),
            tens(year),
            ones(year),
            b'-',
            tens(self.month),
            ones(self.month),
            b'-',
            tens(self.day),
            ones(self.day),
        ]
    }

    /// The date that bytes spell as YYYY-MM-DD. `None` exactly where they aren't of this form.
    pub fn read(bytes: &[u8]) -> Option<Written>
        ensures some { IfSome result (λ written. bytes.now ≡ date_text (as_date written)) }
        ensures none { IfNone result ((d : Date) → IsShort d.year d.month d.day → ¬ (bytes.now ≡ date_text d)) }
    {
        let [a, b, c, d, b'-', e, f, b'-', g, h] = bytes else {
            return None;
        };
        let century = number(*a, *b)?;
        let year = number(*c, *d)?;
        let month = number(*e, *f)?;
        let day = number(*g, *h)?;
        Some(Written {
            year: century as u16 * 100 + year as u16,
            month,
            day,
        })
    }

    /// The day of the date. `None` exactly where the calendar doesn't have it, or before 1000-01-01.
    pub fn day(self) -> Option<i32>
        ensures some { IfSome result (IsDayOf (as_date self)) }
        ensures none { IfNone result (¬ (IsDate (as_date self) × (1000 ≤ self.year))) }
    {
        if self.year < 1000 {
            return None;
        }
        match civil::Date::new(self.year as i16, self.month as i8, self.day as i8) {
            Ok(date) => Some(date.to_plain().to_unix_epoch_day()),
            Err(_) => None,
        }
    }
}

/// The number that two digits spell.
fn number(tens: u8, ones: u8) -> Option<u8>
    ensures some { IfSome result (λ n. IsWritten n tens ones) }
    ensures none { IfNone result ((n : ℕ) → ¬ (IsWritten n tens ones)) }
{
    if tens.is_ascii_digit() && ones.is_ascii_digit() {
        return Some((tens - b'0') * 10 + (ones - b'0'));
    }
    None
}

/// The first of the two digits of a number.
fn tens(n: u8) -> u8
    requires { n < 100 }
    ensures { result ≡ 48 + n / 10 }
{
    b'0' + n / 10
}

/// The second of the two digits of a number.
fn ones(n: u8) -> u8
    requires { n < 100 }
    ensures { result ≡ 48 + n % 10 }
{
    b'0' + n % 10
}

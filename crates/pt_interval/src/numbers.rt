ghost use Rattle.std.specs.Prelude.{◌≡◌, ◌≤ℤ◌, ◌<ℤ◌, ◌+ℤ◌, pos};
ghost use Rattle.std.specs.Ordering.{int_cmp, int_eq};
ghost use Rattle.pt_value.specs.Fits.{fits_date};
ghost use Rattle.pt_interval.specs.Instances.{day_line, greatest_day, greatest_wide, is_int, least_day, least_wide, next_int, wide_line};
ghost use Rattle.pt_interval.specs.Walk.{CountsTo};

use crate::Line;
use std::alloc::{AllocError, Global};
use std::cmp::Ordering;

/// Whole numbers: each of 128 bits is a value.
impl Line for i128 {
    ghost cmp = { int_cmp };

    ghost is_value = { is_int least_wide greatest_wide };

    ghost least = { least_wide };

    ghost next = { next_int };

    ghost is_greatest = { λ z. int_eq z greatest_wide };

    ghost laws = { wide_line };

    fn cmp(&self, other: &i128) -> Ordering {
        Ord::cmp(self, other)
    }

    fn is_value(&self) -> bool {
        i128::MIN <= *self && *self <= i128::MAX
    }

    fn is_greatest(&self) -> bool {
        *self == i128::MAX
    }

    fn least(_alloc: Global) -> Result<i128, AllocError> {
        Ok(i128::MIN)
    }

    fn next(&self, _alloc: Global) -> Result<i128, AllocError> {
        Ok(*self + 1)
    }

    fn copy(&self, _alloc: Global) -> Result<i128, AllocError> {
        Ok(*self)
    }

    fn gap(from: Option<&i128>, to: Option<&i128>, limit: u32) -> u32 {
        let from = from.copied().unwrap_or(i128::MIN);
        match to {
            Some(to) => count_below(from, *to, limit),
            None => count_up_to(from, i128::MAX, limit),
        }
    }
}

/// Days: those from 1000-01-01, day -354,285, to 9999-12-31, day 2,932,896, are values.
impl Line for i32 {
    ghost cmp = { int_cmp };

    ghost is_value = { fits_date };

    ghost least = { least_day };

    ghost next = { next_int };

    ghost is_greatest = { λ z. int_eq z greatest_day };

    ghost laws = { day_line };

    fn cmp(&self, other: &i32) -> Ordering {
        Ord::cmp(self, other)
    }

    fn is_value(&self) -> bool {
        -354_285 <= *self && *self <= 2_932_896
    }

    fn is_greatest(&self) -> bool {
        *self == 2_932_896
    }

    fn least(_alloc: Global) -> Result<i32, AllocError> {
        Ok(-354_285)
    }

    fn next(&self, _alloc: Global) -> Result<i32, AllocError> {
        Ok(*self + 1)
    }

    fn copy(&self, _alloc: Global) -> Result<i32, AllocError> {
        Ok(*self)
    }

    fn gap(from: Option<&i32>, to: Option<&i32>, limit: u32) -> u32 {
        let from = from.copied().unwrap_or(-354_285) as i128;
        match to {
            Some(to) => count_below(from, *to as i128, limit),
            None => count_up_to(from, 2_932_896, limit),
        }
    }
}

/// How many numbers there are from one on and below another, at most `limit`.
fn count_below(from: i128, to: i128, limit: u32) -> u32
    ensures none { to ≤ℤ from → result ≡ 0 }
    ensures some { from <ℤ to → CountsTo from to limit result }
{
    if to <= from {
        return 0;
    }
    count_up_to(from, to - 1, limit)
}

/// How many numbers there are from one up to another, at most `limit`.
fn count_up_to(from: i128, last: i128, limit: u32) -> u32
    requires { from ≤ℤ last }
    ensures { CountsTo from (last +ℤ pos 1) limit result }
{
    let above = last.abs_diff(from);
    if above < limit as u128 {
        above as u32 + 1
    } else {
        limit
    }
}

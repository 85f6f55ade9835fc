//! The days of DATE from which YEAR or TO_DAYS comes to a number. Both rise with the day.
ghost use Rattle.std.specs.Prelude.{◌≡◌, ◌<◌, ◌≤◌, true, [], ◌∷◌, Some};
ghost use Rattle.std.specs.Option.{option_copied};
ghost use Rattle.pt_value.specs.declared.value.Value.{Value};
ghost use Rattle.pt_reach.specs.Domains.{is_day, passes};
ghost use Rattle.pt_reach.specs.Kept.{is_year_or_days};
ghost use Rattle.pt_followed.specs.Steps.{IsNumberBound, IsNumberEnd, come_to, is_below, is_from, number_bound};
ghost use Rattle.pt_followed.specs.Places.{AreEnds, IsFirstDay, day_at, value_from};

use crate::sides::{every, none};
use pt_ast::{Bound, Cmp, Func};
use pt_reach::Side;
use pt_value::{Cell, Value as Held, to_days, year};

/// The days where the function isn't below a bound, if there is one.
pub(crate) fn from_day(func: Func, low: Option<&[Bound]>) -> Side<'static>
    requires { is_year_or_days func ≡ true }
    ensures { (v : Value) → IsNumberEnd (option_copied low.entry) → is_day v ≡ true → passes (Some result) v ≡ is_from (option_copied low.entry) (come_to (Some func) v ∷ []) }
{
    let Some(bounds) = low else {
        return every();
    };
    match number_in(bounds) {
        Some(number) => Side {
            cmp: Cmp::Ge,
            cell: Cell::Day(first_day(func, number as i128)),
        },
        None => none(),
    }
}

/// The days where the function is below a bound.
pub(crate) fn before_day(func: Func, high: &[Bound]) -> Side<'static>
    requires { is_year_or_days func ≡ true }
    ensures { (v : Value) → IsNumberBound high.now → is_day v ≡ true → passes (Some result) v ≡ is_below (Some high.now) (come_to (Some func) v ∷ []) }
{
    match number_in(high) {
        Some(number) => Side {
            cmp: Cmp::Lt,
            cell: Cell::Day(first_day(func, number as i128)),
        },
        None => every(),
    }
}

/// The number of a bound, `None` for MAXVALUE.
fn number_in(bounds: &[Bound]) -> Option<i64>
    ensures { IsNumberBound bounds.now → bounds.now ≡ number_bound result }
{
    match bounds {
        [bound, ..] => number_of(bound),
        [] => None,
    }
}

fn number_of(bound: &Bound) -> Option<i64>
    ensures { IsNumberBound (bound.now ∷ []) → bound.now ∷ [] ≡ number_bound result }
{
    match bound {
        Bound::Val(Held::Int(number)) => Some(*number),
        Bound::Val(_) => None,
        Bound::Max => None,
    }
}

/// The first day where the function comes to a number, and the day behind the last where it never does.
pub(crate) fn first_day(func: Func, number: i128) -> i32
    requires { is_year_or_days func ≡ true }
    ensures { IsFirstDay func number result }
{
    let place = first_place(func, number, 0, 3_287_182);
    day_at(place)
}

/// Its place among the days of DATE, which lies between two places.
fn first_place(func: Func, number: i128, low: u32, high: u32) -> u32
    requires func { is_year_or_days func ≡ true }
    requires ends { AreEnds (value_from func) number low high }
    ensures { AreEnds (value_from func) number result result }
{
    if low >= high {
        return low;
    }
    let middle = middle_of(low, high);
    if (value_at(func, middle) as i128) < number {
        return first_place(func, number, middle + 1, high);
    }
    first_place(func, number, low, middle)
}

/// A place between two others.
fn middle_of(low: u32, high: u32) -> u32
    requires { low < high }
    ensures from { low ≤ result }
    ensures before { result < high }
{
    low + (high - low) / 2
}

/// What the function comes to on the day at a place.
fn value_at(func: Func, place: u32) -> i32
    requires func { is_year_or_days func ≡ true }
    requires place { place < 3_287_182 }
    ensures { result ≡ value_from func place }
{
    match func {
        Func::Year => year(day_at(place)),
        _ => to_days(day_at(place)),
    }
}

/// The day at a place of DATE, and behind its last.
#[tactic(auto, unfolding(crate::specs::Places::day_at))]
fn day_at(place: u32) -> i32
    requires { place ≤ 3_287_182 }
    ensures { result ≡ day_at place }
{
    place as i32 - 354_285
}

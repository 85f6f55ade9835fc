//! A mark for each partition, where the partitioning is over YEAR or TO_DAYS of its column.
ghost use Rattle.std.specs.Prelude.{◌≡◌, ◌<◌, ◌<ℤ◌, pos, true, length, map, IfOk, Some};
ghost use Rattle.pt_ast.specs.Ranges.{bound_of};
ghost use Rattle.pt_ast.specs.declared.table.Bound.TheVariants.{Val};
ghost use Rattle.pt_value.specs.declared.value.Value.{Value};
ghost use Rattle.pt_value.specs.declared.value.Value.TheVariants.{Int};
ghost use Rattle.pt_interval.specs.Counting.{AreAll};
ghost use Rattle.pt_reach.specs.Domains.{has_in, is_day};
ghost use Rattle.pt_reach.specs.Kept.{is_year_or_days};
ghost use Rattle.pt_followed.specs.Marks.{AreMarked};
ghost use Rattle.pt_followed.specs.Steps.{HasEntryBy, HasItemBy, IsDecided, IsListedBy, IsMetBy, IsNumberBound, IsSomeEntry, come_to};

use crate::days::{before_day, first_day, from_day};
use crate::marking::{bound_at, bound_before};
use pt_ast::{Bound, Cmp, Func, PartDef};
use pt_reach::{Domain, Side};
use pt_value::{Cell, Value as Held};
use std::alloc::{AllocError, Global};

/// The partitions of a range to which the function of some day of this set belongs, or NULL if that is one of the set.
pub(crate) fn range_marks_by(
    alloc: Global,
    set: &Domain,
    func: Func,
    parts: &[PartDef],
) -> Result<Vec<bool>, AllocError>
    requires func { is_year_or_days func ≡ true }
    requires numbers { AreAll (λ part. IsNumberBound (bound_of part)) parts.now }
    requires days { (v : Value) → has_in set.now v ≡ true → is_day v ≡ true }
    ensures { IfOk result (λ marks. AreMarked (length parts.now) (IsMetBy (come_to (Some func)) set.now (map bound_of parts.now)) marks.items) }
{
    let mut marks = Vec::new(alloc);
    for at in 0..parts.len() {
        let mark = is_met_by(alloc, set, func, parts, at)?;
        marks.push(mark)?;
    }
    Ok(marks)
}

fn is_met_by(
    alloc: Global,
    set: &Domain,
    func: Func,
    parts: &[PartDef],
    at: usize,
) -> Result<bool, AllocError>
    requires at { at < length parts.now }
    requires func { is_year_or_days func ≡ true }
    requires numbers { AreAll (λ part. IsNumberBound (bound_of part)) parts.now }
    requires days { (v : Value) → has_in set.now v ≡ true → is_day v ≡ true }
    ensures { IfOk result (λ met. IsDecided met (IsMetBy (come_to (Some func)) set.now (map bound_of parts.now) at)) }
{
    let low = from_day(func, bound_before(parts, at));
    let high = before_day(func, bound_at(parts, at));
    let met = set.has_some(alloc, Some(low), Some(high))?;
    Ok(met)
}

/// The partitions of a list that have an entry to which the function of some day of this set comes, or NULL if that is one of the set.
pub(crate) fn list_marks_by(
    alloc: Global,
    set: &Domain,
    func: Func,
    parts: &[PartDef],
) -> Result<Vec<bool>, AllocError>
    requires func { is_year_or_days func ≡ true }
    requires days { (v : Value) → has_in set.now v ≡ true → is_day v ≡ true }
    ensures { IfOk result (λ marks. AreMarked (length parts.now) (IsListedBy (come_to (Some func)) set.now parts.now) marks.items) }
{
    let mut marks = Vec::new(alloc);
    for at in 0..parts.len() {
        let mark = is_listed_by(alloc, set, func, &parts[at])?;
        marks.push(mark)?;
    }
    Ok(marks)
}

fn is_listed_by(alloc: Global, set: &Domain, func: Func, part: &PartDef) -> Result<bool, AllocError>
    requires func { is_year_or_days func ≡ true }
    requires days { (v : Value) → has_in set.now v ≡ true → is_day v ≡ true }
    ensures { IfOk result (λ listed. IsDecided listed (IsSomeEntry (come_to (Some func)) set.now part.now.bounds)) }
{
    for entry in part.bounds.items() {
        if has_entry_by(alloc, set, func, entry.items())? {
            return Ok(true);
        }
    }
    Ok(false)
}

/// Whether the function of some value of this set is the entry.
fn has_entry_by(
    alloc: Global,
    set: &Domain,
    func: Func,
    entry: &[Bound],
) -> Result<bool, AllocError>
    requires func { is_year_or_days func ≡ true }
    requires days { (v : Value) → has_in set.now v ≡ true → is_day v ≡ true }
    ensures { IfOk result (λ has. IsDecided has (HasEntryBy (come_to (Some func)) set.now entry.now)) }
{
    if entry.len() != 1 {
        return Ok(false);
    }
    let has = has_item_by(alloc, set, func, &entry[0])?;
    Ok(has)
}

fn has_item_by(alloc: Global, set: &Domain, func: Func, item: &Bound) -> Result<bool, AllocError>
    requires func { is_year_or_days func ≡ true }
    requires days { (v : Value) → has_in set.now v ≡ true → is_day v ≡ true }
    ensures { IfOk result (λ has. IsDecided has (HasItemBy (come_to (Some func)) set.now item.now)) }
{
    match item {
        Bound::Val(value) => {
            let has = has_value_by(alloc, set, func, value)?;
            Ok(has)
        }
        Bound::Max => Ok(false),
    }
}

fn has_value_by(alloc: Global, set: &Domain, func: Func, value: &Held) -> Result<bool, AllocError>
    requires func { is_year_or_days func ≡ true }
    requires days { (v : Value) → has_in set.now v ≡ true → is_day v ≡ true }
    ensures { IfOk result (λ has. IsDecided has (HasItemBy (come_to (Some func)) set.now (Val value.now))) }
{
    match value {
        Held::Null => {
            let null = Side {
                cmp: Cmp::Eq,
                cell: Cell::Null,
            };
            let has = set.has_some(alloc, Some(null), None)?;
            Ok(has)
        }
        Held::Int(number) => {
            let has = has_number_by(alloc, set, func, *number as i128)?;
            Ok(has)
        }
        Held::Day(_) => Ok(false),
        Held::Bytes(_) => Ok(false),
    }
}

/// Whether the function of some day of this set is a number: from the first day where it comes to that, and before the first where it
/// comes to the next.
fn has_number_by(alloc: Global, set: &Domain, func: Func, number: i128) -> Result<bool, AllocError>
    requires func { is_year_or_days func ≡ true }
    requires narrow { number <ℤ pos 9_223_372_036_854_775_808 }
    requires days { (v : Value) → has_in set.now v ≡ true → is_day v ≡ true }
    ensures { IfOk result (λ has. IsDecided has (HasItemBy (come_to (Some func)) set.now (Val (Int number)))) }
{
    let from = Side {
        cmp: Cmp::Ge,
        cell: Cell::Day(first_day(func, number)),
    };
    let before = Side {
        cmp: Cmp::Lt,
        cell: Cell::Day(first_day(func, number + 1)),
    };
    let has = set.has_some(alloc, Some(from), Some(before))?;
    Ok(has)
}

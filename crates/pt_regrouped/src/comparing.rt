ghost use Rattle.std.specs.Prelude.{◌≡◌, ◌-◌, [], length, map, slice_index_or};
ghost use Rattle.pt_ast.specs.Bounds.{bound_cmp, tuple_cmp};
ghost use Rattle.pt_ast.specs.Ranges.{bound_of};
ghost use Rattle.pt_regrouped.specs.Regrouped.{is_kept, last_bound, range_changed};

use pt_ast::{Bound, PartBy, PartDef, Refusal};
use pt_place::is_range;
use pt_value::Ident;
use std::cmp::Ordering;

/// RANGE keeps the last bound of the partitions that are replaced; where no partition stands behind them, it may rise.
pub(crate) fn range_changed(
    table: &Ident,
    by: &PartBy,
    old: &[PartDef],
    new: &[PartDef],
    behind: &[PartDef],
) -> Option<Refusal>
    ensures { result ≡ range_changed table.now by.now old.now new.now behind.now }
{
    let order = tuple_cmp(last_bound(new), last_bound(old));
    if is_range(by) && !is_kept(behind, order) {
        return Some(Refusal::RangeChanged(*table));
    }
    None
}

fn is_kept(behind: &[PartDef], order: Ordering) -> bool
    ensures { result ≡ is_kept behind.now order }
{
    match behind {
        [] => order.is_eq() || order.is_gt(),
        [_, ..] => order.is_eq(),
    }
}

/// The bound of the last of these partitions.
fn last_bound(parts: &[PartDef]) -> &[Bound]
    ensures { result.now ≡ last_bound parts.now }
{
    match parts.last() {
        Some(part) => bound_of(part),
        None => &[],
    }
}

/// The bound of a range: it has this one tuple.
fn bound_of(part: &PartDef) -> &[Bound]
    ensures { result.now ≡ bound_of part.now }
{
    match part.bounds.items() {
        [tuple, ..] => tuple.items(),
        [] => &[],
    }
}

/// How a tuple compares with another.
fn tuple_cmp(tuple: &[Bound], other: &[Bound]) -> Ordering
    ensures { result ≡ tuple_cmp tuple.now other.now }
{
    for (at, bound) in tuple.iter().enumerate() {
        let Some(item) = other.get(at) else {
            return Ordering::Greater;
        };
        let order = bound_cmp(bound, item);
        if order.is_ne() {
            return order;
        }
    }
    match other.get(tuple.len()) {
        Some(_) => Ordering::Less,
        None => Ordering::Equal,
    }
}

fn bound_cmp(bound: &Bound, other: &Bound) -> Ordering
    ensures { result ≡ bound_cmp bound.now other.now }
{
    match (bound, other) {
        (Bound::Val(value), Bound::Val(other)) => value.cmp(other),
        (Bound::Val(_), Bound::Max) => Ordering::Less,
        (Bound::Max, Bound::Val(_)) => Ordering::Greater,
        (Bound::Max, Bound::Max) => Ordering::Equal,
    }
}

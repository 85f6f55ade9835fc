ghost use Rattle.std.specs.Prelude.{◌≡◌, ◌<◌, length, map};
ghost use Rattle.std.specs.List.{list_all};
ghost use Rattle.pt_ast.specs.Bounds.{is_max};
ghost use Rattle.pt_ast.specs.Ranges.{bound_of, is_early_max, is_low, range_fault};
ghost use Rattle.pt_place.specs.Checks.{of_range_fault};

use crate::tuple::tuple_cmp;
use pt_ast::{Bound, PartDef, Refusal};

/// The first partition with MAXVALUE in all columns that isn't the last, or with a bound that isn't above the one before. It takes
/// no memory.
pub(crate) fn bad_ranges(parts: &[PartDef]) -> Option<Refusal>
    ensures { result ≡ of_range_fault parts.now (range_fault parts.now) }
{
    for at in 0..parts.len() {
        if is_early_max(parts, at) {
            return Some(Refusal::MaxvalueNotLast(parts[at].name));
        }
        if is_low(parts, at) {
            return Some(Refusal::NotIncreasing(parts[at].name));
        }
    }
    None
}

/// Whether MAXVALUE stands in all columns, and not last.
fn is_early_max(parts: &[PartDef], at: usize) -> bool
    requires { at < length parts.now }
    ensures { result ≡ is_early_max (map bound_of parts.now) at }
{
    is_all_max(bound_of(&parts[at])) && at + 1 < parts.len()
}

/// Whether the bound isn't above the one before.
fn is_low(parts: &[PartDef], at: usize) -> bool
    requires { at < length parts.now }
    ensures { result ≡ is_low (map bound_of parts.now) at }
{
    if at == 0 {
        return false;
    }
    !tuple_cmp(bound_of(&parts[at]), bound_of(&parts[at - 1])).is_gt()
}

/// The bound of a range: it has this one tuple.
fn bound_of(part: &PartDef) -> &[Bound]
    ensures { result.now ≡ bound_of part.now }
{
    match part.bounds.items() {
        [tuple, ..] => tuple.items(),
        [] => &[],
    }
}

fn is_all_max(tuple: &[Bound]) -> bool
    ensures { result ≡ list_all is_max tuple.now }
{
    tuple.iter().all(|bound| matches!(bound, Bound::Max))
}

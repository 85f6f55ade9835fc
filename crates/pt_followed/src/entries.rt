//! Whether an entry of a list is a tuple, a value of each set.
ghost use Rattle.std.specs.Prelude.{◌≡◌, IfOk};
ghost use Rattle.pt_followed.specs.Steps.{has_entry, has_item, is_listed};

use pt_ast::{Bound, Cmp, PartDef};
use pt_reach::{Domain, Side};
use std::alloc::{AllocError, Global};

/// Whether some entry of a partition is a tuple of these sets.
pub(crate) fn is_listed(alloc: Global, sets: &[Domain], part: &PartDef) -> Result<bool, AllocError>
    ensures { IfOk result (λ listed. listed ≡ is_listed sets.now part.now) }
{
    for entry in part.bounds.items() {
        if has_entry(alloc, sets, entry.items())? {
            return Ok(true);
        }
    }
    Ok(false)
}

fn has_entry(alloc: Global, sets: &[Domain], entry: &[Bound]) -> Result<bool, AllocError>
    ensures { IfOk result (λ has. has ≡ has_entry sets.now entry.now) }
{
    if sets.len() != entry.len() {
        return Ok(false);
    }
    for at in 0..sets.len() {
        if !has_item(alloc, &sets[at], &entry[at])? {
            return Ok(false);
        }
    }
    Ok(true)
}

fn has_item(alloc: Global, set: &Domain, item: &Bound) -> Result<bool, AllocError>
    ensures { IfOk result (λ has. has ≡ has_item set.now item.now) }
{
    match item {
        Bound::Val(value) => {
            let equal = Side {
                cmp: Cmp::Eq,
                cell: value.cell(),
            };
            let has = set.has_some(alloc, Some(equal), None)?;
            Ok(has)
        }
        Bound::Max => Ok(false),
    }
}

//! A mark for each partition.
ghost use Rattle.std.specs.Prelude.{◌≡◌, ◌<◌, [], length, map, slice_index_or, IfOk};
ghost use Rattle.std.specs.Option.{option_copied};
ghost use Rattle.pt_ast.specs.Ranges.{bound_of};
ghost use Rattle.pt_followed.specs.Marks.{AreMarked};
ghost use Rattle.pt_followed.specs.Steps.{IsDecided, IsListed, IsMet, bound_before};

use crate::between::has_between;
use crate::entries::is_listed;
use pt_ast::{Bound, PartDef};
use pt_reach::Domain;
use std::alloc::{AllocError, Global};

/// The partitions of a range to which some tuple of these sets belongs.
pub(crate) fn range_marks(
    alloc: Global,
    sets: &[Domain],
    parts: &[PartDef],
) -> Result<Vec<bool>, AllocError>
    ensures { IfOk result (λ marks. AreMarked (length parts.now) (IsMet sets.now (map bound_of parts.now)) marks.items) }
{
    let mut marks = Vec::new(alloc);
    for at in 0..parts.len() {
        let mark = is_met(alloc, sets, parts, at)?;
        marks.push(mark)?;
    }
    Ok(marks)
}

/// Whether some tuple of these sets belongs to the partition at a position.
fn is_met(alloc: Global, sets: &[Domain], parts: &[PartDef], at: usize) -> Result<bool, AllocError>
    requires { at < length parts.now }
    ensures { IfOk result (λ met. IsDecided met (IsMet sets.now (map bound_of parts.now) at)) }
{
    let high = bound_at(parts, at);
    let met = has_between(alloc, sets, bound_before(parts, at), Some(high))?;
    Ok(met)
}

/// The partitions of a list that have an entry which is a tuple of these sets.
pub(crate) fn list_marks(
    alloc: Global,
    sets: &[Domain],
    parts: &[PartDef],
) -> Result<Vec<bool>, AllocError>
    ensures { IfOk result (λ marks. AreMarked (length parts.now) (IsListed sets.now parts.now) marks.items) }
{
    let mut marks = Vec::new(alloc);
    for at in 0..parts.len() {
        let mark = is_listed(alloc, sets, &parts[at])?;
        marks.push(mark)?;
    }
    Ok(marks)
}

/// The bound of the partition before, if there is one.
pub(crate) fn bound_before(parts: &[PartDef], at: usize) -> Option<&[Bound]>
    requires { at < length parts.now }
    ensures { option_copied result ≡ bound_before (map bound_of parts.now) at }
{
    if at == 0 {
        return None;
    }
    Some(bound_at(parts, at - 1))
}

/// The bound of the partition at a position of a range: it has this one tuple.
pub(crate) fn bound_at(parts: &[PartDef], at: usize) -> &[Bound]
    requires { at < length parts.now }
    ensures { result.now ≡ slice_index_or (map bound_of parts.now) at [] }
{
    bound_of(&parts[at])
}

fn bound_of(part: &PartDef) -> &[Bound]
    ensures { result.now ≡ bound_of part.now }
{
    match part.bounds.items() {
        [tuple, ..] => tuple.items(),
        [] => &[],
    }
}

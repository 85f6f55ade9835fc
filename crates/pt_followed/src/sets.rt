//! The values of the columns of a partitioning that are looked at.
ghost use Rattle.std.specs.Prelude.{◌≡◌, ◌∷◌, [], IfOk, IfSome, IsOk};
ghost use Rattle.std.specs.Option.{option_copied};
ghost use Rattle.pt_expr.specs.FoundCond.{checked_cond};
ghost use Rattle.pt_followed.specs.Steps.{AreSetsOf, IsSetOf};

use pt_ast::{Columns, Cond};
use pt_reach::Domain;
use std::alloc::{AllocError, Global};

/// Of the column at `at` the values where the condition may hold, and of each other one of `numbers` all of its kind.
pub(crate) fn sets_of(
    alloc: Global,
    columns: &Columns,
    at: usize,
    cond: Option<&Cond>,
    numbers: &[u32],
) -> Result<Vec<Domain>, AllocError>
    requires checked { IfSome (option_copied cond) (λ own. IsOk (checked_cond columns.now own)) }
    ensures { IfOk result (λ sets. AreSetsOf columns.now at (option_copied cond.entry) numbers.now sets.items) }
{
    let mut sets = Vec::new(alloc);
    for number in numbers {
        let set = set_of(alloc, columns, at, cond, *number as usize)?;
        sets.push(set)?;
    }
    Ok(sets)
}

/// The values of the column at `at` where the condition may hold, alone.
pub(crate) fn own_set(
    alloc: Global,
    columns: &Columns,
    at: usize,
    cond: Option<&Cond>,
) -> Result<Vec<Domain>, AllocError>
    requires checked { IfSome (option_copied cond) (λ own. IsOk (checked_cond columns.now own)) }
    ensures { IfOk result (λ sets. AreSetsOf columns.now at (option_copied cond.entry) (at ∷ []) sets.items) }
{
    let mut sets = Vec::new(alloc);
    let set = set_of(alloc, columns, at, cond, at)?;
    sets.push(set)?;
    Ok(sets)
}

pub(crate) fn set_of(
    alloc: Global,
    columns: &Columns,
    at: usize,
    cond: Option<&Cond>,
    number: usize,
) -> Result<Domain, AllocError>
    requires checked { IfSome (option_copied cond) (λ own. IsOk (checked_cond columns.now own)) }
    ensures { IfOk result (IsSetOf columns.now at (option_copied cond.entry) number) }
{
    if number == at {
        let own = Domain::of(alloc, columns, number, cond)?;
        return Ok(own);
    }
    let whole = Domain::of(alloc, columns, number, None)?;
    Ok(whole)
}

//! Conditions: AND and OR of atoms. Whatever else may hold everywhere.
ghost use Rattle.std.specs.Prelude.{◌≡◌, ◌&&◌, true, map, IfOk, IsOk};
ghost use Rattle.std.specs.List.{list_all, list_any};
ghost use Rattle.pt_ast.specs.declared.tree.Cond.TheVariants.{And, Or};
ghost use Rattle.pt_expr.specs.Columns.{AreFitting};
ghost use Rattle.pt_expr.specs.FoundCond.{checked_cond};
ghost use Rattle.pt_place.specs.Fitting.{kind_at};
ghost use Rattle.pt_reach.specs.May.{may};
ghost use Rattle.pt_reach.specs.Reaching.{IsReach};

use crate::Scale;
use crate::atoms::{between_reach, compare_reach, either, in_reach, null_reach};
use crate::reach::{Reach, everywhere};
use pt_ast::{Cells, Columns, Cond, Conds};
use pt_interval::Spans;
use std::alloc::{AllocError, Global};

/// The values of a column at which a condition may hold. `nulls` is any row of the columns.
#[cycle(reach)]
pub(crate) fn reach_of<T: Scale>(
    alloc: Global,
    columns: &Columns,
    at: usize,
    nulls: &Cells,
    cond: &Cond,
) -> Result<Reach<T>, AllocError>
    requires kind { T.has_kind (kind_at columns.now at) ≡ true }
    requires fitting { AreFitting columns.now nulls.now }
    requires checked { IsOk (checked_cond columns.now cond.now) }
    ensures { IfOk result (λ reach. IsReach T.cmp T.is_value T.value reach (λ v. may columns.now at v cond.now)) }
{
    match cond {
        Cond::Or(parts) => {
            let reach = any_of(alloc, columns, at, nulls, parts)?;
            Ok(reach)
        }
        Cond::And(parts) => {
            let reach = all_of(alloc, columns, at, nulls, parts)?;
            Ok(reach)
        }
        Cond::Not(_) => {
            let reach = everywhere(alloc)?;
            Ok(reach)
        }
        Cond::Compare(cmp, left, right) => {
            let reach = compare_reach(alloc, columns, at, nulls, *cmp, left, right)?;
            Ok(reach)
        }
        Cond::IsNull(is_not, expr) => {
            let reach = null_reach(alloc, columns, at, *is_not, expr)?;
            Ok(reach)
        }
        Cond::In(is_not, expr, list) => {
            let reach = in_reach(alloc, columns, at, nulls, *is_not, expr, list)?;
            Ok(reach)
        }
        Cond::Between(is_not, expr, low, high) => {
            let reach = between_reach(alloc, columns, at, nulls, *is_not, expr, low, high)?;
            Ok(reach)
        }
    }
}

/// The values at which one of these may hold.
#[cycle(reach)]
fn any_of<T: Scale>(
    alloc: Global,
    columns: &Columns,
    at: usize,
    nulls: &Cells,
    parts: &Conds,
) -> Result<Reach<T>, AllocError>
    requires kind { T.has_kind (kind_at columns.now at) ≡ true }
    requires fitting { AreFitting columns.now nulls.now }
    requires checked { IsOk (checked_cond columns.now (Or parts.now)) }
    ensures { IfOk result (λ reach. IsReach T.cmp T.is_value T.value reach (λ v. list_any (λ part. part) (map (may columns.now at v) parts.now))) }
{
    let mut null = false;
    let mut sets = Vec::new(alloc);
    for part in parts.items() {
        let own: Reach<T> = reach_of(alloc, columns, at, nulls, part)?;
        null = either(null, own.null);
        sets.push(own.spans)?;
    }
    let spans = Spans::join_all(alloc, sets.as_slice())?;
    Ok(Reach { null, spans })
}

/// The values at which all of these may hold: those in none of the gaps.
#[cycle(reach)]
fn all_of<T: Scale>(
    alloc: Global,
    columns: &Columns,
    at: usize,
    nulls: &Cells,
    parts: &Conds,
) -> Result<Reach<T>, AllocError>
    requires kind { T.has_kind (kind_at columns.now at) ≡ true }
    requires fitting { AreFitting columns.now nulls.now }
    requires checked { IsOk (checked_cond columns.now (And parts.now)) }
    ensures { IfOk result (λ reach. IsReach T.cmp T.is_value T.value reach (λ v. list_all (λ part. part) (map (may columns.now at v) parts.now))) }
{
    let mut null = true;
    let mut gaps = Vec::new(alloc);
    for part in parts.items() {
        let own: Reach<T> = reach_of(alloc, columns, at, nulls, part)?;
        null = both(null, own.null);
        let gap = own.spans.outside(alloc)?;
        gaps.push(gap)?;
    }
    let gone = Spans::join_all(alloc, gaps.as_slice())?;
    let spans = gone.outside(alloc)?;
    Ok(Reach { null, spans })
}

fn both(a: bool, b: bool) -> bool
    ensures { result ≡ (a && b) }
{
    a && b
}

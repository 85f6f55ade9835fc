//! Whether some value of a set passes tests.
ghost use Rattle.std.specs.Prelude.{◌≡◌, ◌&&◌, true, IfOk, MatchBool};
ghost use Rattle.std.specs.declared.cmp.Ordering.TheVariants.{Equal, Less};
ghost use Rattle.pt_value.specs.Value.{value_cmp};
ghost use Rattle.pt_value.specs.Cell.{lent};
ghost use Rattle.pt_value.specs.declared.value.Value.TheVariants.{Null};
ghost use Rattle.pt_expr.specs.Truths.{holds};
ghost use Rattle.pt_interval.specs.Spans.{IsSet};
ghost use Rattle.pt_reach.specs.Domains.{passes};
ghost use Rattle.pt_reach.specs.Reaching.{IsMet};

use crate::Scale;
use crate::comparing::{holding, is_null};
use crate::domain::Side;
use crate::reach::Reach;
use pt_ast::Cmp;
use pt_interval::Spans;
use pt_value::Cell;
use std::alloc::{AllocError, Global};

pub(crate) fn has_some<T: Scale>(
    alloc: Global,
    reach: &Reach<T>,
    first: Option<Side>,
    second: Option<Side>,
) -> Result<bool, AllocError>
    ensures { IfOk result (λ some. MatchBool some (IsMet T.cmp T.is_value T.value reach.now (λ v. passes first.entry v && passes second.entry v)) (¬ (IsMet T.cmp T.is_value T.value reach.now (λ v. passes first.entry v && passes second.entry v)))) }
{
    if null_found(reach.null, first, second) {
        return Ok(true);
    }
    let passing_first: Spans<T> = passing(alloc, first)?;
    let passing_second: Spans<T> = passing(alloc, second)?;
    let passing_both = passing_first.meet(alloc, &passing_second)?;
    let found = reach.spans.meet(alloc, &passing_both)?;
    Ok(!found.is_empty())
}

/// Whether NULL is in the set, and passes both tests.
fn null_found(null: bool, first: Option<Side>, second: Option<Side>) -> bool
    ensures { result ≡ (null && (passes first.entry Null && passes second.entry Null)) }
{
    null && passes_both(first, second)
}

fn passes_both(first: Option<Side>, second: Option<Side>) -> bool
    ensures { result ≡ (passes first.entry Null && passes second.entry Null) }
{
    passes_null(first) && passes_null(second)
}

/// The values that pass a test, but for NULL.
fn passing<T: Scale>(alloc: Global, side: Option<Side>) -> Result<Spans<T>, AllocError>
    ensures { IfOk result (λ set. IsSet T.cmp T.is_value set (λ v. passes side.entry (T.value v))) }
{
    match side {
        Some(side) => {
            let set = holding(alloc, side.cmp, side.cell)?;
            Ok(set)
        }
        None => {
            let set = Spans::all(alloc)?;
            Ok(set)
        }
    }
}

/// Whether NULL passes a test.
fn passes_null(side: Option<Side>) -> bool
    ensures { result ≡ passes side.entry Null }
{
    match side {
        Some(side) => null_holds(side.cmp, side.cell),
        None => true,
    }
}

/// Whether NULL stands so to a constant: it is below all but NULL.
fn null_holds(cmp: Cmp, constant: Cell) -> bool
    ensures { result ≡ holds cmp (value_cmp Null (lent constant.entry)) }
{
    if is_null(constant) {
        return holds_equal(cmp);
    }
    holds_less(cmp)
}

fn holds_equal(cmp: Cmp) -> bool
    ensures { result ≡ holds cmp Equal }
{
    match cmp {
        Cmp::Eq => true,
        Cmp::Ne => false,
        Cmp::Lt => false,
        Cmp::Le => true,
        Cmp::Gt => false,
        Cmp::Ge => true,
    }
}

fn holds_less(cmp: Cmp) -> bool
    ensures { result ≡ holds cmp Less }
{
    match cmp {
        Cmp::Eq => false,
        Cmp::Ne => true,
        Cmp::Lt => true,
        Cmp::Le => true,
        Cmp::Gt => false,
        Cmp::Ge => false,
    }
}

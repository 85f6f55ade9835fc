ghost use Rattle.std.specs.Prelude.{◌≡◌, IfOk};
ghost use Rattle.std.specs.Ordering.{is_ge, is_gt, is_le, is_ne};
ghost use Rattle.pt_value.specs.Cell.{lent};
ghost use Rattle.pt_value.specs.Value.{value_cmp};
ghost use Rattle.pt_expr.specs.Truths.{compared, holds, is_null};
ghost use Rattle.pt_interval.specs.Spans.{IsSet};
ghost use Rattle.pt_reach.specs.May.{is_true};
ghost use Rattle.pt_reach.specs.Steps.{mirrored};

use crate::Scale;
use pt_ast::Cmp;
use pt_interval::Spans;
use pt_value::Cell;
use std::alloc::{AllocError, Global};

/// The values for which a comparison with a constant is TRUE.
pub(crate) fn compared<T: Scale>(
    alloc: Global,
    cmp: Cmp,
    constant: Cell,
) -> Result<Spans<T>, AllocError>
    ensures { IfOk result (λ set. IsSet T.cmp T.is_value set (λ v. is_true (compared cmp (T.value v) (lent constant.entry)))) }
{
    if is_null(constant) {
        return Ok(Spans::none(alloc));
    }
    let set = holding(alloc, cmp, constant)?;
    Ok(set)
}

/// The values that stand so to a constant, in the order of all values.
pub(crate) fn holding<T: Scale>(
    alloc: Global,
    cmp: Cmp,
    constant: Cell,
) -> Result<Spans<T>, AllocError>
    ensures { IfOk result (λ set. IsSet T.cmp T.is_value set (λ v. holds cmp (value_cmp (T.value v) (lent constant.entry)))) }
{
    match cmp {
        Cmp::Eq => {
            let set = T::equal(alloc, constant)?;
            Ok(set)
        }
        Cmp::Ne => {
            let set = unequal(alloc, constant)?;
            Ok(set)
        }
        Cmp::Lt => {
            let set = T::below(alloc, constant)?;
            Ok(set)
        }
        Cmp::Le => {
            let set = up_to(alloc, constant)?;
            Ok(set)
        }
        Cmp::Gt => {
            let set = above(alloc, constant)?;
            Ok(set)
        }
        Cmp::Ge => {
            let set = from(alloc, constant)?;
            Ok(set)
        }
    }
}

fn unequal<T: Scale>(alloc: Global, constant: Cell) -> Result<Spans<T>, AllocError>
    ensures { IfOk result (λ set. IsSet T.cmp T.is_value set (λ v. is_ne (value_cmp (T.value v) (lent constant.entry)))) }
{
    let equal: Spans<T> = T::equal(alloc, constant)?;
    let set = equal.outside(alloc)?;
    Ok(set)
}

fn up_to<T: Scale>(alloc: Global, constant: Cell) -> Result<Spans<T>, AllocError>
    ensures { IfOk result (λ set. IsSet T.cmp T.is_value set (λ v. is_le (value_cmp (T.value v) (lent constant.entry)))) }
{
    let below: Spans<T> = T::below(alloc, constant)?;
    let equal: Spans<T> = T::equal(alloc, constant)?;
    let set = below.join(alloc, &equal)?;
    Ok(set)
}

fn above<T: Scale>(alloc: Global, constant: Cell) -> Result<Spans<T>, AllocError>
    ensures { IfOk result (λ set. IsSet T.cmp T.is_value set (λ v. is_gt (value_cmp (T.value v) (lent constant.entry)))) }
{
    let up_to: Spans<T> = up_to(alloc, constant)?;
    let set = up_to.outside(alloc)?;
    Ok(set)
}

fn from<T: Scale>(alloc: Global, constant: Cell) -> Result<Spans<T>, AllocError>
    ensures { IfOk result (λ set. IsSet T.cmp T.is_value set (λ v. is_ge (value_cmp (T.value v) (lent constant.entry)))) }
{
    let below: Spans<T> = T::below(alloc, constant)?;
    let set = below.outside(alloc)?;
    Ok(set)
}

/// The comparison with its sides exchanged.
pub(crate) fn mirrored(cmp: Cmp) -> Cmp
    ensures { result ≡ mirrored cmp }
{
    match cmp {
        Cmp::Eq => Cmp::Eq,
        Cmp::Ne => Cmp::Ne,
        Cmp::Lt => Cmp::Gt,
        Cmp::Le => Cmp::Ge,
        Cmp::Gt => Cmp::Lt,
        Cmp::Ge => Cmp::Le,
    }
}

pub(crate) fn is_null(cell: Cell) -> bool
    ensures { result ≡ is_null (lent cell.entry) }
{
    match cell {
        Cell::Null => true,
        Cell::Wide(_) | Cell::Day(_) | Cell::Bytes(_) => false,
    }
}

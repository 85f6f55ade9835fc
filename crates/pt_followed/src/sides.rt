//! How the first item of a tuple has to stand to the first item of a bound.
ghost use Rattle.std.specs.Prelude.{◌≡◌, true, false, Some};
ghost use Rattle.std.specs.Option.{option_copied};
ghost use Rattle.std.specs.Ordering.{is_eq, is_gt, is_lt};
ghost use Rattle.pt_value.specs.declared.value.Value.{Value};
ghost use Rattle.pt_ast.specs.Bounds.{bound_cmp};
ghost use Rattle.pt_ast.specs.declared.table.Bound.TheVariants.{Val};
ghost use Rattle.pt_reach.specs.Domains.{passes};
ghost use Rattle.pt_followed.specs.Steps.{is_before, is_past, is_tied};

use pt_ast::{Bound, Cmp};
use pt_reach::Side;
use pt_value::Cell;

/// Above it, so that every tuple that begins so is above the bound.
pub(crate) fn past(low: Option<&[Bound]>) -> Side<'_>
    ensures { (v : Value) → passes (Some result) v ≡ is_past (option_copied low.entry) v }
{
    let Some(bounds) = low else {
        return every();
    };
    match bounds {
        [bound, ..] => past_item(bound),
        [] => every(),
    }
}

/// Below it, so that every tuple that begins so is below the bound.
pub(crate) fn before(high: Option<&[Bound]>) -> Side<'_>
    ensures { (v : Value) → passes (Some result) v ≡ is_before (option_copied high.entry) v }
{
    let Some(bounds) = high else {
        return every();
    };
    match bounds {
        [bound, ..] => before_item(bound),
        [] => none(),
    }
}

/// Equal to it, so that the other items decide.
pub(crate) fn tied(end: Option<&[Bound]>) -> Side<'_>
    ensures { (v : Value) → passes (Some result) v ≡ is_tied (option_copied end.entry) v }
{
    let Some(bounds) = end else {
        return none();
    };
    match bounds {
        [bound, ..] => tied_item(bound),
        [] => none(),
    }
}

fn past_item(bound: &Bound) -> Side<'_>
    ensures { (v : Value) → passes (Some result) v ≡ is_lt (bound_cmp bound.now (Val v)) }
{
    match bound {
        Bound::Val(value) => Side {
            cmp: Cmp::Gt,
            cell: value.cell(),
        },
        Bound::Max => none(),
    }
}

fn before_item(bound: &Bound) -> Side<'_>
    ensures { (v : Value) → passes (Some result) v ≡ is_gt (bound_cmp bound.now (Val v)) }
{
    match bound {
        Bound::Val(value) => Side {
            cmp: Cmp::Lt,
            cell: value.cell(),
        },
        Bound::Max => every(),
    }
}

fn tied_item(bound: &Bound) -> Side<'_>
    ensures { (v : Value) → passes (Some result) v ≡ is_eq (bound_cmp bound.now (Val v)) }
{
    match bound {
        Bound::Val(value) => Side {
            cmp: Cmp::Eq,
            cell: value.cell(),
        },
        Bound::Max => none(),
    }
}

/// Every value, since NULL is the lowest.
pub(crate) fn every() -> Side<'static>
    ensures { (v : Value) → passes (Some result) v ≡ true }
{
    Side {
        cmp: Cmp::Ge,
        cell: Cell::Null,
    }
}

/// No value.
pub(crate) fn none() -> Side<'static>
    ensures { (v : Value) → passes (Some result) v ≡ false }
{
    Side {
        cmp: Cmp::Lt,
        cell: Cell::Null,
    }
}

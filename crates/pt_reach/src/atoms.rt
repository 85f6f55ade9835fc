//! Atoms: tests of the column itself against expressions without columns, which have one value whatever the row.
ghost use Rattle.std.specs.Prelude.{◌≡◌, [], ◌∷◌, ◌||◌, ◌&&◌, true, map, All, IfOk, IsOk};
ghost use Rattle.std.specs.List.{list_any};
ghost use Rattle.pt_value.specs.Cell.{lent};
ghost use Rattle.pt_value.specs.Truth.{turned};
ghost use Rattle.pt_expr.specs.Columns.{AreFitting};
ghost use Rattle.pt_expr.specs.Found.{finding};
ghost use Rattle.pt_expr.specs.FoundCond.{alike_verdict};
ghost use Rattle.pt_expr.specs.Truths.{among, among_truth, are_dates, between, between_truth, compare_truth, compared, equals, is_null, negated, operand, truth_of};
ghost use Rattle.pt_expr.specs.Values.{value};
ghost use Rattle.pt_place.specs.Fitting.{kind_at};
ghost use Rattle.pt_interval.specs.Spans.{IsSet};
ghost use Rattle.pt_reach.specs.May.{if_atom, is_between_constants, is_column, is_comparison, is_in_constants, is_own, is_true, row_at};
ghost use Rattle.pt_reach.specs.Reaching.{IsReach};

use crate::Scale;
use crate::comparing::{compared, mirrored};
use crate::operands::{
    are_constant, are_dates, have_null, is_column, is_constant, is_date, operand,
};
use crate::reach::{Reach, everywhere, nowhere};
use pt_ast::{Cells, Cmp, Columns, Expr, Exprs};
use pt_interval::Spans;
use pt_value::Cell;
use std::alloc::{AllocError, Global};

/// Where a comparison may hold. `nulls` is any row of the columns.
pub(crate) fn compare_reach<T: Scale>(
    alloc: Global,
    columns: &Columns,
    at: usize,
    nulls: &Cells,
    cmp: Cmp,
    left: &Expr,
    right: &Expr,
) -> Result<Reach<T>, AllocError>
    requires kind { T.has_kind (kind_at columns.now at) ≡ true }
    requires fitting { AreFitting columns.now nulls.now }
    requires checked { IsOk (alike_verdict columns.now (left.now ∷ right.now ∷ [])) }
    ensures { IfOk result (λ reach. IsReach T.cmp T.is_value T.value reach (λ v. if_atom (is_comparison columns.now at left.now right.now) (compare_truth columns.now (row_at at v) cmp left.now right.now))) }
{
    let dates = either(is_date(columns, left), is_date(columns, right));
    if is_own(columns, at, left, right) {
        let reach = own_compared(alloc, cmp, operand(columns, nulls, right, dates))?;
        return Ok(reach);
    }
    if is_own(columns, at, right, left) {
        let reach = own_compared(alloc, mirrored(cmp), operand(columns, nulls, left, dates))?;
        return Ok(reach);
    }
    let reach = everywhere(alloc)?;
    Ok(reach)
}

/// Where `IS NULL` or `IS NOT NULL` may hold.
pub(crate) fn null_reach<T: Scale>(
    alloc: Global,
    columns: &Columns,
    at: usize,
    is_not: bool,
    expr: &Expr,
) -> Result<Reach<T>, AllocError>
    ensures { IfOk result (λ reach. IsReach T.cmp T.is_value T.value reach (λ v. if_atom (is_column columns.now at expr.now) (negated is_not (truth_of (is_null (value columns.now (row_at at v) expr.now)))))) }
{
    if is_column(columns, at, expr) {
        let reach = own_null(alloc, is_not)?;
        return Ok(reach);
    }
    let reach = everywhere(alloc)?;
    Ok(reach)
}

/// Where `IN` or `NOT IN` may hold. `nulls` is any row of the columns.
pub(crate) fn in_reach<T: Scale>(
    alloc: Global,
    columns: &Columns,
    at: usize,
    nulls: &Cells,
    is_not: bool,
    expr: &Expr,
    list: &Exprs,
) -> Result<Reach<T>, AllocError>
    requires kind { T.has_kind (kind_at columns.now at) ≡ true }
    requires fitting { AreFitting columns.now nulls.now }
    requires checked { IsOk (alike_verdict columns.now (expr.now ∷ list.now)) }
    ensures { IfOk result (λ reach. IsReach T.cmp T.is_value T.value reach (λ v. if_atom (is_in_constants columns.now at expr.now list.now) (negated is_not (among_truth columns.now (row_at at v) expr.now list.now)))) }
{
    if is_in_constants(columns, at, expr, list) {
        let dates = either(is_date(columns, expr), are_dates(columns, list));
        let reach = own_in(alloc, columns, nulls, is_not, list, dates)?;
        return Ok(reach);
    }
    let reach = everywhere(alloc)?;
    Ok(reach)
}

/// Where `BETWEEN` or `NOT BETWEEN` may hold. `nulls` is any row of the columns.
pub(crate) fn between_reach<T: Scale>(
    alloc: Global,
    columns: &Columns,
    at: usize,
    nulls: &Cells,
    is_not: bool,
    expr: &Expr,
    low: &Expr,
    high: &Expr,
) -> Result<Reach<T>, AllocError>
    requires kind { T.has_kind (kind_at columns.now at) ≡ true }
    requires fitting { AreFitting columns.now nulls.now }
    requires checked { IsOk (alike_verdict columns.now (expr.now ∷ low.now ∷ high.now ∷ [])) }
    ensures { IfOk result (λ reach. IsReach T.cmp T.is_value T.value reach (λ v. if_atom (is_between_constants columns.now at expr.now low.now high.now) (negated is_not (between_truth columns.now (row_at at v) expr.now low.now high.now)))) }
{
    if is_between_constants(columns, at, expr, low, high) {
        let ends = either(is_date(columns, low), is_date(columns, high));
        let dates = either(is_date(columns, expr), ends);
        let low = operand(columns, nulls, low, dates);
        let high = operand(columns, nulls, high, dates);
        let reach = own_between(alloc, is_not, low, high)?;
        return Ok(reach);
    }
    let reach = everywhere(alloc)?;
    Ok(reach)
}

// ---- which tests are atoms

fn is_own(columns: &Columns, at: usize, own: &Expr, other: &Expr) -> bool
    ensures { result ≡ is_own columns.now at own.now other.now }
{
    is_column(columns, at, own) && is_constant(other)
}

fn is_in_constants(columns: &Columns, at: usize, expr: &Expr, list: &Exprs) -> bool
    ensures { result ≡ is_in_constants columns.now at expr.now list.now }
{
    is_column(columns, at, expr) && are_constant(list)
}

fn is_between_constants(columns: &Columns, at: usize, expr: &Expr, low: &Expr, high: &Expr) -> bool
    ensures { result ≡ is_between_constants columns.now at expr.now low.now high.now }
{
    is_column(columns, at, expr) && is_constant(low) && is_constant(high)
}

pub(crate) fn either(a: bool, b: bool) -> bool
    ensures { result ≡ (a || b) }
{
    a || b
}

// ---- the values for which a test of the column is TRUE

fn own_compared<T: Scale>(alloc: Global, cmp: Cmp, constant: Cell) -> Result<Reach<T>, AllocError>
    ensures { IfOk result (λ reach. IsReach T.cmp T.is_value T.value reach (λ v. is_true (compared cmp v (lent constant.entry)))) }
{
    let spans = compared(alloc, cmp, constant)?;
    Ok(Reach { null: false, spans })
}

fn own_null<T: Scale>(alloc: Global, is_not: bool) -> Result<Reach<T>, AllocError>
    ensures { IfOk result (λ reach. IsReach T.cmp T.is_value T.value reach (λ v. is_true (negated is_not (truth_of (is_null v))))) }
{
    if is_not {
        let spans = Spans::all(alloc)?;
        return Ok(Reach { null: false, spans });
    }
    Ok(Reach {
        null: true,
        spans: Spans::none(alloc),
    })
}

fn own_in<T: Scale>(
    alloc: Global,
    columns: &Columns,
    nulls: &Cells,
    is_not: bool,
    list: &Exprs,
    dates: bool,
) -> Result<Reach<T>, AllocError>
    requires found { All (λ expr. IsOk (finding columns.now expr)) list.now }
    requires fitting { AreFitting columns.now nulls.now }
    ensures { IfOk result (λ reach. IsReach T.cmp T.is_value T.value reach (λ v. is_true (negated is_not (among v (map (operand columns.now nulls.now dates) list.now))))) }
{
    if !is_not {
        let spans = equal_to_some(alloc, columns, nulls, list, dates)?;
        return Ok(Reach { null: false, spans });
    }
    if have_null(columns, nulls, list, dates) {
        return Ok(nowhere(alloc));
    }
    let equal: Spans<T> = equal_to_some(alloc, columns, nulls, list, dates)?;
    let spans = equal.outside(alloc)?;
    Ok(Reach { null: false, spans })
}

/// The values that equal one of these.
fn equal_to_some<T: Scale>(
    alloc: Global,
    columns: &Columns,
    nulls: &Cells,
    list: &Exprs,
    dates: bool,
) -> Result<Spans<T>, AllocError>
    requires found { All (λ expr. IsOk (finding columns.now expr)) list.now }
    requires fitting { AreFitting columns.now nulls.now }
    ensures { IfOk result (λ set. IsSet T.cmp T.is_value set (λ v. list_any (equals (T.value v)) (map (operand columns.now nulls.now dates) list.now))) }
{
    let mut sets = Vec::new(alloc);
    for item in list.items() {
        let set: Spans<T> = compared(alloc, Cmp::Eq, operand(columns, nulls, item, dates))?;
        sets.push(set)?;
    }
    let all = Spans::join_all(alloc, sets.as_slice())?;
    Ok(all)
}

fn own_between<T: Scale>(
    alloc: Global,
    is_not: bool,
    low: Cell,
    high: Cell,
) -> Result<Reach<T>, AllocError>
    ensures { IfOk result (λ reach. IsReach T.cmp T.is_value T.value reach (λ v. is_true (negated is_not (between v (lent low.entry) (lent high.entry))))) }
{
    if is_not {
        let spans = apart(alloc, low, high)?;
        return Ok(Reach { null: false, spans });
    }
    let spans = inside(alloc, low, high)?;
    Ok(Reach { null: false, spans })
}

/// The values from one on, up to another.
fn inside<T: Scale>(alloc: Global, low: Cell, high: Cell) -> Result<Spans<T>, AllocError>
    ensures { IfOk result (λ set. IsSet T.cmp T.is_value set (λ v. is_true (between (T.value v) (lent low.entry) (lent high.entry)))) }
{
    let from: Spans<T> = compared(alloc, Cmp::Ge, low)?;
    let up_to: Spans<T> = compared(alloc, Cmp::Le, high)?;
    let set = from.meet(alloc, &up_to)?;
    Ok(set)
}

/// The values below one or above another: NULL leaves the other test alone.
fn apart<T: Scale>(alloc: Global, low: Cell, high: Cell) -> Result<Spans<T>, AllocError>
    ensures { IfOk result (λ set. IsSet T.cmp T.is_value set (λ v. is_true (turned (between (T.value v) (lent low.entry) (lent high.entry))))) }
{
    let below: Spans<T> = compared(alloc, Cmp::Lt, low)?;
    let above: Spans<T> = compared(alloc, Cmp::Gt, high)?;
    let set = below.join(alloc, &above)?;
    Ok(set)
}

ghost use Rattle.std.specs.Prelude.{◌≡◌, All, IsOk, map};
ghost use Rattle.std.specs.List.{list_all, list_any};
ghost use Rattle.pt_value.specs.Cell.{lent};
ghost use Rattle.pt_expr.specs.Columns.{AreFitting};
ghost use Rattle.pt_expr.specs.Found.{finding};
ghost use Rattle.pt_expr.specs.Truths.{are_dates, is_date, is_null, operand};
ghost use Rattle.pt_expr.specs.Values.{as_day, day_or_null};
ghost use Rattle.pt_reach.specs.May.{is_at, is_column, is_constant};
ghost use Rattle.pt_reach.specs.Steps.{is_day_found};

use crate::comparing::is_null;
use pt_ast::{Cells, Columns, Expr, Exprs};
use pt_expr::{CheckFault, ExprKind, check, eval};
use pt_place::{column_of, names_column};
use pt_value::{Cell, day_of_text};

/// Whether an expression is the column at a position itself.
pub(crate) fn is_column(columns: &Columns, at: usize, expr: &Expr) -> bool
    ensures { result ≡ is_column columns.now at expr.now }
{
    match expr {
        Expr::Column(name) => is_at(at, column_of(columns, name)),
        Expr::Number(_)
        | Expr::Text(_)
        | Expr::Hex(_)
        | Expr::Date(_)
        | Expr::Null
        | Expr::Neg(_)
        | Expr::Sum(_)
        | Expr::Product(_, _)
        | Expr::Call(_, _) => false,
    }
}

fn is_at(at: usize, place: Option<usize>) -> bool
    ensures { result ≡ is_at at place }
{
    match place {
        Some(place) => place == at,
        None => false,
    }
}

/// Whether an expression names no column.
pub(crate) fn is_constant(expr: &Expr) -> bool
    ensures { result ≡ is_constant expr.now }
{
    !names_column(expr)
}

/// Whether each of these names no column.
pub(crate) fn are_constant(list: &Exprs) -> bool
    ensures { result ≡ list_all is_constant list.now }
{
    for expr in list.items() {
        if !is_constant(expr) {
            return false;
        }
    }
    true
}

/// Whether an expression is a date.
pub(crate) fn is_date(columns: &Columns, expr: &Expr) -> bool
    ensures { result ≡ is_date (finding columns.now expr.now) }
{
    is_day_found(check(columns, expr, false))
}

fn is_day_found(found: Result<ExprKind, CheckFault>) -> bool
    ensures { result ≡ is_day_found found }
{
    match found {
        Ok(ExprKind::Day) => true,
        Ok(ExprKind::Any) | Ok(ExprKind::Wide) | Ok(ExprKind::Bytes) | Err(_) => false,
    }
}

/// Whether one of these is a date.
pub(crate) fn are_dates(columns: &Columns, list: &Exprs) -> bool
    ensures { result ≡ are_dates columns.now list.now }
{
    for expr in list.items() {
        if is_date(columns, expr) {
            return true;
        }
    }
    false
}

/// The value of an operand, as a date where it is compared with one.
pub(crate) fn operand<'a>(
    columns: &Columns,
    cells: &'a Cells,
    expr: &'a Expr,
    dates: bool,
) -> Cell<'a>
    requires found { IsOk (finding columns.now expr.now) }
    requires fitting { AreFitting columns.now cells.now }
    ensures { lent result ≡ operand columns.now cells.now dates expr.now }
{
    let value = eval(columns, expr, false, cells);
    if dates { as_day(value) } else { value }
}

/// Whether the value of one of these is NULL.
pub(crate) fn have_null(columns: &Columns, cells: &Cells, list: &Exprs, dates: bool) -> bool
    requires found { All (λ expr. IsOk (finding columns.now expr)) list.now }
    requires fitting { AreFitting columns.now cells.now }
    ensures { result ≡ list_any is_null (map (operand columns.now cells.now dates) list.now) }
{
    for expr in list.items() {
        if is_null(operand(columns, cells, expr, dates)) {
            return true;
        }
    }
    false
}

/// Bytes that stand for a date as their day.
fn as_day<'a>(cell: Cell<'a>) -> Cell<'a>
    ensures { lent result ≡ as_day (lent cell.entry) }
{
    match cell {
        Cell::Bytes(bytes) => day_cell(day_of_text(bytes)),
        Cell::Null | Cell::Wide(_) | Cell::Day(_) => cell,
    }
}

fn day_cell<'a>(day: Option<i32>) -> Cell<'a>
    ensures { lent result ≡ day_or_null day }
{
    match day {
        Some(day) => Cell::Day(day),
        None => Cell::Null,
    }
}

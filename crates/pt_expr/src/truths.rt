ghost use Rattle.std.specs.Prelude.{◌≡◌, ◌∷◌, [], All, IsOk};
ghost use Rattle.std.specs.List.{list_any};
ghost use Rattle.pt_value.specs.Cell.{lent};
ghost use Rattle.pt_value.specs.Value.{value_cmp, rank};
ghost use Rattle.pt_ast.specs.declared.tree.Expr.TheViews.{out-Expr};
ghost use Rattle.pt_expr.specs.Columns.{AreFitting};
ghost use Rattle.pt_expr.specs.Found.{finding};
ghost use Rattle.pt_expr.specs.FoundCond.{alike_verdict, checked_cond};
ghost use Rattle.pt_expr.specs.Stepping.{is_day_kind, names_date};
ghost use Rattle.pt_expr.specs.Values.{value};
ghost use Rattle.pt_expr.specs.Truths.{among_truth, are_dates, between_truth, compare_truth, compared, equals, holds, is_date, is_null, negated, operand, truth, truth_of};

use crate::columns::column_named;
use crate::values::{as_day, value_of};
use pt_ast::{Cells, Cmp, Columns, Cond, Expr, Exprs};
use pt_value::{Cell, Kind, Truth};
use std::cmp::Ordering;

/// What a condition is of the cells of a row. It takes no memory.
pub fn truth(columns: &Columns, cond: &Cond, cells: &Cells) -> Truth
    requires checked { IsOk (checked_cond columns.now cond.now) }
    requires fitting { AreFitting columns.now cells.now }
    ensures { result ≡ truth columns.now cells.now cond.now }
{
    match cond {
        Cond::Or(parts) => {
            let mut any = Truth::False;
            for part in parts.items() {
                any = any.or(truth(columns, part, cells));
            }
            any
        }
        Cond::And(parts) => {
            let mut all = Truth::True;
            for part in parts.items() {
                all = all.and(truth(columns, part, cells));
            }
            all
        }
        Cond::Not(part) => truth(columns, part.get(), cells).not(),
        Cond::Compare(cmp, left, right) => compare(columns, *cmp, left, right, cells),
        Cond::IsNull(is_not, expr) => negated(*is_not, null(columns, expr, cells)),
        Cond::In(is_not, expr, list) => negated(*is_not, among(columns, expr, list, cells)),
        Cond::Between(is_not, expr, low, high) => {
            negated(*is_not, between(columns, expr, low, high, cells))
        }
    }
}

/// Whether an expression comes to NULL.
fn null(columns: &Columns, expr: &Expr, cells: &Cells) -> Truth
    requires found { IsOk (finding columns.now expr.now) }
    requires fitting { AreFitting columns.now cells.now }
    ensures { result ≡ truth_of (is_null (value columns.now cells.now expr.now)) }
{
    truth_of(is_null(value_of(columns, expr, cells)))
}

fn compare(columns: &Columns, cmp: Cmp, left: &Expr, right: &Expr, cells: &Cells) -> Truth
    requires checked { IsOk (alike_verdict columns.now (left.now ∷ right.now ∷ [])) }
    requires fitting { AreFitting columns.now cells.now }
    ensures { result ≡ compare_truth columns.now cells.now cmp left.now right.now }
{
    let dates = is_date(columns, left) || is_date(columns, right);
    let left = operand(columns, left, dates, cells);
    let right = operand(columns, right, dates, cells);
    compared(cmp, left, right)
}

fn among(columns: &Columns, expr: &Expr, list: &Exprs, cells: &Cells) -> Truth
    requires checked { IsOk (alike_verdict columns.now (expr.now ∷ list.now)) }
    requires fitting { AreFitting columns.now cells.now }
    ensures { result ≡ among_truth columns.now cells.now expr.now list.now }
{
    let dates = has_date(columns, expr, list);
    let x = operand(columns, expr, dates, cells);
    let mut met_null = is_null(x);
    for item in list.items() {
        let item = operand(columns, item, dates, cells);
        if equals(x, item) {
            return Truth::True;
        }
        met_null = met_null || is_null(item);
    }
    if met_null {
        Truth::Unknown
    } else {
        Truth::False
    }
}

fn between(columns: &Columns, expr: &Expr, low: &Expr, high: &Expr, cells: &Cells) -> Truth
    requires checked { IsOk (alike_verdict columns.now (expr.now ∷ low.now ∷ high.now ∷ [])) }
    requires fitting { AreFitting columns.now cells.now }
    ensures { result ≡ between_truth columns.now cells.now expr.now low.now high.now }
{
    let dates = is_date(columns, expr) || is_date(columns, low) || is_date(columns, high);
    let x = operand(columns, expr, dates, cells);
    let low = compared(Cmp::Ge, x, operand(columns, low, dates, cells));
    let high = compared(Cmp::Le, x, operand(columns, high, dates, cells));
    low.and(high)
}

/// Whether the expression or one of the list is a date.
fn has_date(columns: &Columns, expr: &Expr, list: &Exprs) -> bool
    requires { IsOk (alike_verdict columns.now (expr.now ∷ list.now)) }
    ensures { result ≡ are_dates columns.now (expr.now ∷ list.now) }
{
    is_date(columns, expr) || are_dates(columns, list)
}

/// Whether one of these is a date.
fn are_dates(columns: &Columns, list: &Exprs) -> bool
    requires { All (λ expr. IsOk (finding columns.now expr)) list.now }
    ensures { result ≡ are_dates columns.now list.now }
{
    for expr in list.items() {
        if is_date(columns, expr) {
            return true;
        }
    }
    false
}

/// Whether an expression is a date. Only a column and a date as written are.
fn is_date(columns: &Columns, expr: &Expr) -> bool
    requires { IsOk (finding columns.now expr.now) }
    ensures { result ≡ is_date (finding columns.now expr.now) }
{
    names_date(columns, expr)
}

fn names_date(columns: &Columns, expr: &Expr) -> bool
    ensures { result ≡ names_date columns.now (out-Expr expr.now) }
{
    match expr {
        Expr::Date(_) => true,
        Expr::Column(name) => match column_named(columns, name) {
            Some(column) => is_day_kind(column.kind),
            None => false,
        },
        _ => false,
    }
}

fn is_day_kind(kind: Kind) -> bool
    ensures { result ≡ is_day_kind kind }
{
    match kind {
        Kind::Date => true,
        Kind::Int | Kind::BigInt | Kind::Binary(_) => false,
    }
}

/// The value of an operand, as a date where it is compared with one.
fn operand<'a>(columns: &Columns, expr: &'a Expr, dates: bool, cells: &'a Cells) -> Cell<'a>
    requires found { IsOk (finding columns.now expr.now) }
    requires fitting { AreFitting columns.now cells.now }
    ensures { lent result ≡ operand columns.now cells.now dates expr.now }
{
    let value = value_of(columns, expr, cells);
    if dates { as_day(value) } else { value }
}

fn compared(cmp: Cmp, left: Cell, right: Cell) -> Truth
    ensures { result ≡ compared cmp (lent left.entry) (lent right.entry) }
{
    if is_null(left) || is_null(right) {
        return Truth::Unknown;
    }
    truth_of(holds(cmp, order(left, right)))
}

/// Whether two values are equal, and neither is NULL.
fn equals(x: Cell, item: Cell) -> bool
    ensures { result ≡ equals (lent x.entry) (lent item.entry) }
{
    !is_null(x) && !is_null(item) && order(x, item).is_eq()
}

fn is_null(cell: Cell) -> bool
    ensures { result ≡ is_null (lent cell.entry) }
{
    match cell {
        Cell::Null => true,
        _ => false,
    }
}

#[tactic(auto, unfolding(pt_value::specs::Value::value_cmp))]
fn order(a: Cell, b: Cell) -> Ordering
    ensures { result ≡ value_cmp (lent a.entry) (lent b.entry) }
{
    match (a, b) {
        (Cell::Wide(a), Cell::Wide(b)) => a.cmp(&b),
        (Cell::Day(a), Cell::Day(b)) => a.cmp(&b),
        (Cell::Bytes(a), Cell::Bytes(b)) => a.cmp(b),
        _ => rank(a).cmp(&rank(b)),
    }
}

fn rank(cell: Cell) -> u8
    ensures { result ≡ rank (lent cell.entry) }
{
    match cell {
        Cell::Null => 0,
        Cell::Wide(_) => 1,
        Cell::Day(_) => 2,
        Cell::Bytes(_) => 3,
    }
}

/// Whether a comparison holds of things in this order.
fn holds(cmp: Cmp, order: Ordering) -> bool
    ensures { result ≡ holds cmp order }
{
    match cmp {
        Cmp::Eq => order.is_eq(),
        Cmp::Ne => order.is_ne(),
        Cmp::Lt => order.is_lt(),
        Cmp::Le => order.is_le(),
        Cmp::Gt => order.is_gt(),
        Cmp::Ge => order.is_ge(),
    }
}

fn negated(is_not: bool, truth: Truth) -> Truth
    ensures { result ≡ negated is_not truth }
{
    if is_not { truth.not() } else { truth }
}

fn truth_of(holds: bool) -> Truth
    ensures { result ≡ truth_of holds }
{
    if holds { Truth::True } else { Truth::False }
}

ghost use Rattle.std.specs.Prelude.{◌≡◌, [], IsOk, not};
ghost use Rattle.pt_value.specs.Cell.{lent};
ghost use Rattle.pt_place.specs.Checks.{is_null};
ghost use Rattle.pt_written.specs.Complete.{has_kind, is_out_finding, is_out_item, is_wide_finding, is_wide_item, is_wrong_finding, is_wrong_item, item_finding};
ghost use Rattle.pt_place.specs.Fitting.{is_in_range};
ghost use Rattle.pt_written.specs.WrittenParts.{is_date, worth};

use pt_ast::{BoundSpec, Cells, Columns, Expr};
use pt_expr::{CheckFault, ExprKind, check, eval};
use pt_place::{bytes_in_range, day_in_range, names_column, wide_in_range};
use pt_value::{Cell, Kind};
use std::alloc::Global;

/// LESS THAN allows MAXVALUE and no NULL, IN allows NULL and no MAXVALUE; and an item is a constant of its kind.
pub(crate) fn is_wrong_item(alloc: Global, less: bool, kind: Kind, item: &BoundSpec) -> bool
    ensures { result ≡ is_wrong_item less kind item.now }
{
    match item {
        BoundSpec::Max => !less,
        BoundSpec::Value(expr) => names_column(expr) || is_wrong_value(alloc, less, kind, expr),
    }
}

/// A number in the item may be too wide.
pub(crate) fn is_wide_item(alloc: Global, kind: Kind, item: &BoundSpec) -> bool
    ensures { result ≡ is_wide_item kind item.now }
{
    match item {
        BoundSpec::Max => false,
        BoundSpec::Value(expr) => is_wide_value(alloc, kind, expr),
    }
}

/// A date text that is none, or a value that is too large.
pub(crate) fn is_out_item(alloc: Global, kind: Kind, item: &BoundSpec) -> bool
    ensures { result ≡ is_out_item kind item.now }
{
    match item {
        BoundSpec::Max => false,
        BoundSpec::Value(expr) => is_out_value(alloc, kind, expr),
    }
}

fn is_wrong_value(alloc: Global, less: bool, kind: Kind, expr: &Expr) -> bool
    ensures { result ≡ is_wrong_finding less kind (worth kind expr.now) (item_finding kind expr.now) }
{
    match item_finding(alloc, kind, expr) {
        Ok(own) => !has_kind(kind, own) || less && is_null_worth(alloc, kind, expr),
        Err(CheckFault::Mismatch) => true,
        Err(CheckFault::NoColumn(_)) => true,
        Err(_) => false,
    }
}

fn is_wide_value(alloc: Global, kind: Kind, expr: &Expr) -> bool
    ensures { result ≡ is_wide_finding (item_finding kind expr.now) }
{
    match item_finding(alloc, kind, expr) {
        Err(CheckFault::TooWide) => true,
        _ => false,
    }
}

fn is_out_value(alloc: Global, kind: Kind, expr: &Expr) -> bool
    ensures { result ≡ is_out_finding kind (worth kind expr.now) (item_finding kind expr.now) }
{
    match item_finding(alloc, kind, expr) {
        Ok(_) => is_worth_out(alloc, kind, expr),
        Err(CheckFault::BadDate) => true,
        Err(_) => false,
    }
}

/// What a constant is found to be: no column is there to be named.
fn item_finding(alloc: Global, kind: Kind, expr: &Expr) -> Result<ExprKind, CheckFault>
    ensures { result ≡ item_finding kind expr.now }
{
    finding_in(&Columns::new(alloc), kind, expr)
}

fn finding_in(columns: &Columns, kind: Kind, expr: &Expr) -> Result<ExprKind, CheckFault>
    requires { columns.now ≡ [] }
    ensures { result ≡ item_finding kind expr.now }
{
    check(columns, expr, is_date(kind))
}

fn is_null_worth(alloc: Global, kind: Kind, expr: &Expr) -> bool
    requires { IsOk (item_finding kind expr.now) }
    ensures { result ≡ is_null (worth kind expr.now) }
{
    let columns = Columns::new(alloc);
    let cells = Cells::new(alloc);
    is_null_cell(worth_in(&columns, &cells, kind, expr))
}

/// What a constant comes to.
fn worth_in<'a>(columns: &Columns, cells: &'a Cells, kind: Kind, expr: &'a Expr) -> Cell<'a>
    requires columns { columns.now ≡ [] }
    requires cells { cells.now ≡ [] }
    requires found { IsOk (item_finding kind expr.now) }
    ensures { lent result ≡ worth kind expr.now }
{
    eval(columns, expr, is_date(kind), cells)
}

fn is_null_cell(cell: Cell<'_>) -> bool
    ensures { result ≡ is_null (lent cell.entry) }
{
    match cell {
        Cell::Null => true,
        Cell::Wide(_) | Cell::Day(_) | Cell::Bytes(_) => false,
    }
}

fn is_worth_out(alloc: Global, kind: Kind, expr: &Expr) -> bool
    requires { IsOk (item_finding kind expr.now) }
    ensures { result ≡ not (is_in_range kind (worth kind expr.now)) }
{
    let columns = Columns::new(alloc);
    let cells = Cells::new(alloc);
    !cell_in_range(kind, worth_in(&columns, &cells, kind, expr))
}

fn cell_in_range(kind: Kind, cell: Cell<'_>) -> bool
    ensures { result ≡ is_in_range kind (lent cell.entry) }
{
    match cell {
        Cell::Null => true,
        Cell::Wide(n) => wide_in_range(kind, n),
        Cell::Day(day) => day_in_range(kind, day),
        Cell::Bytes(bytes) => bytes_in_range(kind, bytes),
    }
}

/// Which kinds of expressions an item of this kind may be; NULL has every kind.
fn has_kind(kind: Kind, own: ExprKind) -> bool
    ensures { result ≡ has_kind kind own }
{
    match (kind, own) {
        (_, ExprKind::Any) => true,
        (Kind::Int, ExprKind::Wide) => true,
        (Kind::BigInt, ExprKind::Wide) => true,
        (Kind::Date, ExprKind::Day) => true,
        (Kind::Binary(_), ExprKind::Bytes) => true,
        _ => false,
    }
}

fn is_date(kind: Kind) -> bool
    ensures { result ≡ is_date kind }
{
    matches!(kind, Kind::Date)
}

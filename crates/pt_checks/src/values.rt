ghost use Rattle.std.specs.Prelude.{◌≡◌, [], IfNone, IfOk};
ghost use Rattle.pt_value.specs.Cell.{lent};
ghost use Rattle.pt_value.specs.Fits.{Fits};
ghost use Rattle.pt_place.specs.Fitting.{is_in_range, kind_at};
ghost use Rattle.pt_checks.specs.Cells.{bad_expr, has_kind, is_date, value_for};
ghost use Rattle.pt_checks.specs.Given.{IsFor};

use crate::faults::of_fault;
use pt_ast::{Arg, Cells, Columns, Expr, Refusal};
use pt_expr::{ExprKind, check, eval};
use pt_place::{bytes_in_range, day_in_range, wide_in_range};
use pt_value::{Bin, Cell, Kind, Value};
use std::alloc::{AllocError, Global};

/// What is refused of an expression as a value of the row of this number, for a column of this kind: its first fault, then another kind,
/// then a value that the column has no room for.
pub(crate) fn bad_expr(alloc: Global, number: u64, kind: Kind, expr: &Expr) -> Option<Refusal>
    ensures refusal { result ≡ bad_expr number kind expr.now }
    ensures passed { IfNone result (IsFor kind expr.now) }
{
    let columns = Columns::new(alloc);
    let row = Arg::Number(number);
    let own = match check(&columns, expr, is_date(kind)) {
        Err(fault) => return Some(of_fault(row, fault)),
        Ok(own) => own,
    };
    if !has_kind(kind, own) {
        return Some(Refusal::TypeMismatch(row));
    }
    let cells = Cells::new(alloc);
    if !is_in_range(kind, eval(&columns, expr, is_date(kind), &cells)) {
        return Some(Refusal::OutOfRange(row));
    }
    None
}

/// The value of such an expression that has passed.
pub(crate) fn value_of(alloc: Global, kind: Kind, expr: &Expr) -> Result<Value, AllocError>
    requires { IsFor kind expr.now }
    ensures { IfOk result (λ value. value ≡ value_for [] [] kind expr.now) }
{
    let columns = Columns::new(alloc);
    let cells = Cells::new(alloc);
    kept(alloc, kind, eval(&columns, expr, is_date(kind), &cells))
}

/// A value of a calculation that a column has room for.
pub(crate) fn kept(alloc: Global, kind: Kind, cell: Cell) -> Result<Value, AllocError>
    requires { Fits kind (lent cell) }
    ensures { IfOk result (λ value. value ≡ lent cell.entry) }
{
    match cell {
        Cell::Null => Ok(Value::Null),
        Cell::Wide(n) => Ok(Value::Int(n as i64)),
        Cell::Day(day) => Ok(Value::Day(day)),
        Cell::Bytes(bytes) => Ok(Value::Bytes(Bin::from_slice(alloc, bytes)?)),
    }
}

/// Whether a column of this kind has room for a value, or is of another kind.
pub(crate) fn is_in_range(kind: Kind, cell: Cell) -> bool
    ensures { result ≡ is_in_range kind (lent cell.entry) }
{
    match cell {
        Cell::Null => true,
        Cell::Wide(n) => wide_in_range(kind, n),
        Cell::Day(day) => day_in_range(kind, day),
        Cell::Bytes(bytes) => bytes_in_range(kind, bytes),
    }
}

pub(crate) fn is_date(kind: Kind) -> bool
    ensures { result ≡ is_date kind }
{
    matches!(kind, Kind::Date)
}

/// Whether a column takes expressions of this kind; NULL has every kind.
pub(crate) fn has_kind(kind: Kind, own: ExprKind) -> bool
    ensures { result ≡ has_kind kind own }
{
    match (kind, own) {
        (_, ExprKind::Any) => true,
        (Kind::Int, ExprKind::Wide) => true,
        (Kind::BigInt, ExprKind::Wide) => true,
        (Kind::Date, ExprKind::Day) => true,
        (Kind::Binary(_), ExprKind::Bytes) => true,
        _ => false,
    }
}

/// The kind of the column at a position.
pub(crate) fn kind_at(columns: &Columns, at: usize) -> Kind
    ensures { result ≡ kind_at columns.now at }
{
    match columns.items().get(at) {
        Some(column) => column.kind,
        None => Kind::BigInt,
    }
}
